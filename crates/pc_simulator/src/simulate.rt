//! The simulator: from the words of its command to the end of a run.
ghost use Rattle.std.specs.Prelude.{◌≡◌, ◌+◌, false, Some, MatchResult};
ghost use Rattle.pc_command.specs.Requests.{simulate_command_of, simulate_request};
ghost use Rattle.pc_command.specs.Words.{spelled};
ghost use Rattle.pc_machine.specs.MachineCode.{code_of};
ghost use Rattle.pc_machine.specs.MachineRun.{machine_step};
ghost use Rattle.pc_machine.specs.WellFormed.{WellFormed};
ghost use Rattle.pc_outside.specs.Shelf.{ReadKeeps};
ghost use Rattle.pc_outside.specs.Stream.{LosesFront};
ghost use Rattle.pc_driver.specs.Stops.{StopsAtInput, StopsEarly};
ghost use Rattle.pc_driver.specs.Streams.{streamed};
ghost use Rattle.pc_simulator.specs.Simulation.{due_of};
ghost use Rattle.pc_simulator.specs.Simulator.{SimulatorEnds};
ghost use Rattle.pc_simulator.specs.models.Simulating.{IsPlaced, Ready, RunEnds};
ghost use Rattle.pc_vm.specs.Standing.{end_of, here_of};
ghost use Rattle.pc_word.specs.MachineLimits.{most_input};
ghost use Rattle.pc_word.specs.Run.{run_from};

use pc_command::{CommandError, SimulateCommand, simulate_command};
use pc_driver::{Stop, fault_at, load, take_numbers};
use pc_machine::Code;
use pc_outside::{Shelf, Sink, Source};
use pc_report::{Speaker, ToolFault};
use pc_vm::{Machine, Outcome};
use pc_word::End;
use std::alloc::Global;

/// Simulates as the words say, and gives what is due then.
#[tactic(auto, using(crate::proofs::SimulatorEndings::simulator_endings))]
pub(crate) fn run_simulator<'a, H: Shelf, I: Source, O: Sink>(
    alloc: Global,
    words: &'a [String],
    shelf: &mut H,
    input: &mut I,
    out: &mut O,
) -> Option<ToolFault<'a>>
    ensures ends { SimulatorEnds (H.state shelf.old) (H.state shelf.new) (streamed (I.left input.old) (I.faults input.old))
        (streamed (I.left input.new) (I.faults input.new)) (streamed (O.taken out.old) (O.faults out.old))
        (streamed (O.taken out.new) (O.faults out.new)) (simulate_command_of (spelled words.entry.now)) result }
    ensures shelf { ReadKeeps (H.state shelf.old) (H.state shelf.new) }
    ensures lost { LosesFront (I.left input.old) (I.left input.new) (most_input + 1) }
{
    match simulate_command(alloc, words) {
        Ok(command) => simulate(alloc, command, shelf, input, out),
        Err(CommandError::NoCommand) => Some(ToolFault::Usage { who: Speaker::Pvm }),
        Err(CommandError::Memory) => Some(ToolFault::NoMemory { who: Speaker::Pvm }),
    }
}

/// Loads the object, takes the input, and runs the code for the cycles that it may take.
#[tactic(auto, using(crate::proofs::SimulatorEndings::simulator_endings))]
fn simulate<'a, H: Shelf, I: Source, O: Sink>(
    alloc: Global,
    command: SimulateCommand<'a>,
    shelf: &mut H,
    input: &mut I,
    out: &mut O,
) -> Option<ToolFault<'a>>
    ensures ends { SimulatorEnds (H.state shelf.old) (H.state shelf.new) (streamed (I.left input.old) (I.faults input.old))
        (streamed (I.left input.new) (I.faults input.new)) (streamed (O.taken out.old) (O.faults out.old))
        (streamed (O.taken out.new) (O.faults out.new)) (Some (simulate_request command.entry)) result }
    ensures shelf { ReadKeeps (H.state shelf.old) (H.state shelf.new) }
    ensures lost { LosesFront (I.left input.old) (I.left input.new) (most_input + 1) }
{
    match prepare(alloc, command.object, shelf, input) {
        Ok(mut machine) => run_machine(&mut machine, command.cycles, out),
        Err(stop) => Some(fault_at(Speaker::Pvm, stop, command.object)),
    }
}

/// Runs a machine for the cycles that it may take, and gives what is due then.
#[tactic(auto, using(crate::proofs::SimulatorEndings::runs_due))]
fn run_machine<'a, O: Sink>(
    machine: &mut Machine,
    cycles: u64,
    out: &mut O,
) -> Option<ToolFault<'a>>
    requires { machine.old.over ≡ false }
    ensures { RunEnds cycles (run_from (machine_step (code_of machine.old.code)) cycles (here_of machine.old))
        (streamed (O.taken out.old) (O.faults out.old)) (streamed (O.taken out.new) (O.faults out.new)) result }
{
    match machine.run(cycles, out) {
        Ok(outcome) => due_of(cycles, outcome),
        Err(_) => Some(ToolFault::WriteOutput { who: Speaker::Pvm }),
    }
}

/// What is due at a run's end.
fn due_of<'a>(cycles: u64, outcome: Outcome) -> Option<ToolFault<'a>>
    ensures { result ≡ due_of cycles (end_of outcome) }
{
    match outcome {
        Outcome::Over { end: End::Ended } => None,
        Outcome::Over {
            end: End::Trapped { kind, line },
        } => Some(ToolFault::Trap { kind, line }),
        Outcome::Over {
            end: End::Fault { fault },
        } => Some(ToolFault::Machine { fault }),
        Outcome::Going => Some(ToolFault::Budget { number: cycles }),
    }
}

/// A machine at the start of the object's code, with the input's numbers.
fn prepare<H: Shelf, I: Source>(
    alloc: Global,
    name: &str,
    shelf: &mut H,
    input: &mut I,
) -> Result<Machine, Stop>
    ensures machine { MatchResult result (λ machine. Ready name.now (H.state shelf.old).held (I.left input.old) machine)
        (λ stop. StopsEarly name.now (H.state shelf.old) (H.state shelf.new)
        (streamed (I.left input.old) (I.faults input.old)) (streamed (I.left input.new) (I.faults input.new)) stop) }
    ensures shelf { ReadKeeps (H.state shelf.old) (H.state shelf.new) }
    ensures lost { LosesFront (I.left input.old) (I.left input.new) (most_input + 1) }
{
    let object = load(alloc, name, shelf)?;
    start(alloc, object.code, input)
}

/// A machine at the start of a code, with the input's numbers.
fn start<I: Source>(alloc: Global, code: Code, input: &mut I) -> Result<Machine, Stop>
    requires { WellFormed (code_of code) }
    ensures machine { MatchResult result (λ machine. IsPlaced (code_of code) (I.left input.old) machine)
        (λ stop. StopsAtInput (streamed (I.left input.old) (I.faults input.old)) (streamed (I.left input.new) (I.faults input.new)) stop) }
    ensures lost { LosesFront (I.left input.old) (I.left input.new) (most_input + 1) }
{
    let numbers = take_numbers(alloc, input)?;
    Ok(Machine::new(alloc, code, numbers)?)
}
