//! What follows from the profiler's promise. The function here does nothing: its contract is the law.
ghost use Rattle.pc_profiler.specs.ProfilerLaws.{ProfilerPromisesSay};

/// What the profiler's promise says for each status; what the run of an object on its input cost is sent, and other
/// bytes are refused.
pub fn laws_of_the_profiler()
    ensures { ProfilerPromisesSay }
{}
