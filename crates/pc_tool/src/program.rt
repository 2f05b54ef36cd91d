//! The top call.
ghost use Rattle.std.specs.Prelude.{◌≡◌, ◌↔◌, map, IfSome, IsSome};
ghost use Rattle.pc_command.specs.Requests.{compile_command_of, simulate_command_of};
ghost use Rattle.pc_command.specs.Words.{spelled};
ghost use Rattle.pc_tool.specs.declared.program.Who.TheVariants.{Pcc, Pvm};
ghost use Rattle.pc_object.specs.ObjectText.{IsObject, object_of};
ghost use Rattle.pc_pass.specs.Pass.{Chain, EachRose};
ghost use Rattle.pc_tool.specs.Compilation.{counts_of};
ghost use Rattle.pc_tool.specs.Compiler.{CompilerPromise};
ghost use Rattle.pc_tool.specs.Scheduled.{IsScheduledAs};
ghost use Rattle.pc_driver.specs.Streams.{streamed};
ghost use Rattle.pc_driver.specs.Outside.{outside_of};
ghost use Rattle.pc_simulator.specs.Simulator.{SimulatorPromise};

use crate::compile::compiler;
use crate::status::Status;
use pc_outside::{Shelf, Sink, Source};
use pc_pass::Pass;
use pc_simulator::simulator;
use std::alloc::Global;

/// Which program is called.
#[derive(Clone, Copy, Debug, PartialEq, Eq)]
pub enum Who {
    /// The compiler.
    Pcc,
    /// The simulator.
    Pvm,
}

/// The whole program, over the outside that is lent. `words` are those of the command line without the
/// program's own name; `passes` are those that the compiler applies to each flow graph, once each and in
/// order, and the simulator none.
///
/// `Pcc` is called as `SRC -o OBJ [--ops N] [--tests N] [--mem N] [--window N] [--rows N] [--report]`. It reads
/// the source at SRC, or makes the sample of a SRC such as `@7`, and writes its object to OBJ, which may be
/// the same name; with `--report` it sends what it did to the output. The statuses are
///
/// - 0: the object is written, and the report sent,
/// - 1: memory ran out; nothing was written, or SRC is a source, and OBJ may hold anything,
/// - 2: the words are no command,
/// - 3: SRC could not be read,
/// - 4: SRC is longer than 1,048,576 bytes, is no program of the language, or has more than 16,384
///   nodes in its flow graph,
/// - 5: OBJ could not be written, and may hold anything; or the output failed on the report; or the
///   error output failed on the line of another status.
///
/// `Pvm` is called as `OBJ [--cycles N]`. It loads the object at OBJ, takes the whole input, which is decimal
/// numbers from -2147483648 to 2147483647, with or without a sign, between spaces, tabs, carriage
/// returns and line feeds, runs the object's code for at most so many cycles, and sends the line of
/// each number that is printed. The statuses are
///
/// - 0: the run ended,
/// - 1: memory ran out,
/// - 2: the words are no command,
/// - 3: OBJ or the input could not be read,
/// - 4: OBJ or the input is longer than 16,777,216 bytes, OBJ holds no object that loads, or a word of the
///   input is no number,
/// - 5: the output failed, and a proper prefix of the text was sent; or the error output failed on the
///   line of another status,
/// - 6: the run has not ended in so many cycles,
/// - 7: the machine faulted,
/// - 10, 11, 12: the run was trapped by a division by zero, an index out of bounds, the end of input.
///
/// With each status but 0 one line is sent to the error output, which tells what was due, or a proper
/// prefix of it where that output fails. With status 0 of `Pcc` alone, what was compiled is handed out.
pub fn tool<P: Pass, H: Shelf, I: Source, O: Sink, E: Sink>(
    alloc: Global,
    who: Who,
    words: &[String],
    passes: &mut Vec<P>,
    shelf: &mut H,
    input: &mut I,
    out: &mut O,
    err: &mut E,
) -> Status
    ensures compiler { who ≡ Pcc → CompilerPromise (compile_command_of (spelled words.now))
        (IsScheduledAs (Chain P.does P.changed passes.old.items passes.new.items) result.compiled)
        (counts_of P.label P.changed passes.new.items)
        (outside_of (H.state shelf.old) (streamed (I.left input.old) (I.faults input.old)) (streamed (O.taken out.old) (O.faults out.old)) (streamed (E.taken err.old) (E.faults err.old)))
        (outside_of (H.state shelf.new) (streamed (I.left input.new) (I.faults input.new)) (streamed (O.taken out.new) (O.faults out.new)) (streamed (E.taken err.new) (E.faults err.new)))
        result.code }
    ensures simulator { who ≡ Pvm → SimulatorPromise (simulate_command_of (spelled words.now))
        (outside_of (H.state shelf.old) (streamed (I.left input.old) (I.faults input.old)) (streamed (O.taken out.old) (O.faults out.old)) (streamed (E.taken err.old) (E.faults err.old)))
        (outside_of (H.state shelf.new) (streamed (I.left input.new) (I.faults input.new)) (streamed (O.taken out.new) (O.faults out.new)) (streamed (E.taken err.new) (E.faults err.new)))
        result.code }
    ensures handed { IsSome result.compiled ↔ ((who ≡ Pcc) × (result.code ≡ 0)) }
    ensures object { IfSome result.compiled (λ it. IsObject (object_of it.object)) }
    ensures input_kept { who ≡ Pcc → input.new ≡ input.old }
    ensures ran { who ≡ Pcc → result.code ≡ 0 → EachRose (map P.runs passes.old.items) (map P.runs passes.new.items) }
    ensures named { map P.label passes.new.items ≡ map P.label passes.old.items }
    ensures passes_kept { who ≡ Pvm → passes.new ≡ passes.old }
{
    match who {
        Who::Pcc => compiler(alloc, words, passes, shelf, out, err),
        Who::Pvm => Status {
            code: simulator(alloc, words, shelf, input, out, err),
            compiled: None,
        },
    }
}
