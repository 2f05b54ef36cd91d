//! What follows from the simulator's promise. The function here does nothing: its contract is the law.
ghost use Rattle.pc_simulator.specs.SimulatorLaws.{SimulatorPromisesSay};

/// What the simulator's promise says for each status; an object is run on its input, and other bytes are refused.
pub fn laws_of_the_simulator()
    ensures { SimulatorPromisesSay }
{}
