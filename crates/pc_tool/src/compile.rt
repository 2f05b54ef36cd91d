//! The compiler: from the words of its command to the object on the shelf and the report.
ghost use Rattle.std.specs.Prelude.{◌≡◌, ◌≤◌, ◌↔◌, length, map, true, IfOk, IfSome, IsSome, None, OnOk, Some};
ghost use Rattle.pc_check.specs.Checks.{resolved_of};
ghost use Rattle.pc_command.specs.Requests.{compile_command_of, compile_request, source_place};
ghost use Rattle.pc_command.specs.Words.{spelled};
ghost use Rattle.pc_tool.specs.Compilation.{counts_of};
ghost use Rattle.pc_tool.specs.Compiler.{CompilerPromise};
ghost use Rattle.pc_driver.specs.Outside.{outside_of};
ghost use Rattle.pc_driver.specs.Streams.{Streamed, streamed};
ghost use Rattle.pc_object.specs.ObjectText.{IsObject, object_of};
ghost use Rattle.pc_pass.specs.Pass.{Chain, EachRose};
ghost use Rattle.pc_report.specs.Report.{pass_of, report_lines};
ghost use Rattle.pc_source.specs.Files.{HasSource};
ghost use Rattle.pc_tool.specs.Scheduled.{IsScheduledAs};
ghost use Rattle.pc_tool.specs.models.Compiling.{EndsWith, ReportEnds, WriteEnds, reported};
ghost use Rattle.pc_tool.specs.models.Translating.{HasProgram};
ghost use Rattle.pc_word.specs.Ranges.{AreLimits, IsExtent};
ghost use Rattle.pc_word.specs.SourceLimits.{most_source};

use crate::status::Status;
use crate::translation::{Translation, translate};
use pc_check::Checked;
use pc_command::{CommandError, CompileCommand, compile_command};
use pc_compile::{CompileError, Compiled};
use pc_driver::tell;
use pc_outside::{Shelf, ShelfError, Sink, send};
use pc_pass::Pass;
use pc_report::{PassFact, ReportError, ReportFacts, SourceFault, Speaker, ToolFault, report_text};
use pc_source::{Refusal, SourceError, read_program, read_source};
use std::alloc::{AllocError, Global};

/// Compiles as the words say, and tells what is due then; where nothing is, it hands out what was compiled. An
/// input is not touched.
#[tactic(auto, using(crate::proofs::CompilerEndings::compiler_promises))]
pub(crate) fn compiler<P: Pass, H: Shelf, O: Sink, E: Sink>(
    alloc: Global,
    words: &[String],
    passes: &mut Vec<P>,
    shelf: &mut H,
    out: &mut O,
    err: &mut E,
) -> Status
    ensures promise { (input : Streamed) → CompilerPromise (compile_command_of (spelled words.now))
        (IsScheduledAs (Chain P.does P.changed passes.old.items passes.new.items) result.compiled) (counts_of P.label P.changed passes.new.items)
        (outside_of (H.state shelf.old) input (streamed (O.taken out.old) (O.faults out.old)) (streamed (E.taken err.old) (E.faults err.old)))
        (outside_of (H.state shelf.new) input (streamed (O.taken out.new) (O.faults out.new)) (streamed (E.taken err.new) (E.faults err.new)))
        result.code }
    ensures handed { IsSome result.compiled ↔ (result.code ≡ 0) }
    ensures object { IfSome result.compiled (λ it. IsObject (object_of it.object)) }
    ensures named { map P.label passes.new.items ≡ map P.label passes.old.items }
    ensures ran { result.code ≡ 0 → EachRose (map P.runs passes.old.items) (map P.runs passes.new.items) }
{
    match run_compiler(alloc, words, passes, shelf, out) {
        Ok(compiled) => Status {
            code: 0,
            compiled: Some(compiled),
        },
        Err(fault) => Status {
            code: tell(alloc, Speaker::Pcc, Some(fault), err),
            compiled: None,
        },
    }
}

/// Compiles as the words say: what was compiled, or the fault that is due.
#[tactic(auto, using(crate::proofs::CompilerEndings::compiler_endings))]
fn run_compiler<'a, P: Pass, H: Shelf, O: Sink>(
    alloc: Global,
    words: &'a [String],
    passes: &mut Vec<P>,
    shelf: &mut H,
    out: &mut O,
) -> Result<Compiled, ToolFault<'a>>
    ensures ends { EndsWith (Chain P.does P.changed passes.old.items passes.new.items) (counts_of P.label P.changed passes.new.items)
        (H.state shelf.old) (H.state shelf.new) (streamed (O.taken out.old) (O.faults out.old)) (streamed (O.taken out.new) (O.faults out.new)) (compile_command_of (spelled words.entry.now)) result }
    ensures named { map P.label passes.new.items ≡ map P.label passes.old.items }
    ensures ran { OnOk result (EachRose (map P.runs passes.old.items) (map P.runs passes.new.items)) }
{
    match compile_command(alloc, words) {
        Ok(command) => compile_source(alloc, command, passes, shelf, out),
        Err(CommandError::NoCommand) => Err(ToolFault::Usage { who: Speaker::Pcc }),
        Err(CommandError::Memory) => Err(ToolFault::NoMemory { who: Speaker::Pcc }),
    }
}

/// Compiles the source that the command names.
#[tactic(auto, using(crate::proofs::CompilerEndings::compiler_endings))]
fn compile_source<'a, P: Pass, H: Shelf, O: Sink>(
    alloc: Global,
    command: CompileCommand<'a>,
    passes: &mut Vec<P>,
    shelf: &mut H,
    out: &mut O,
) -> Result<Compiled, ToolFault<'a>>
    requires limits { AreLimits command.limits }
    requires extent { IsExtent command.extent }
    ensures ends { EndsWith (Chain P.does P.changed passes.old.items passes.new.items) (counts_of P.label P.changed passes.new.items)
        (H.state shelf.old) (H.state shelf.new) (streamed (O.taken out.old) (O.faults out.old)) (streamed (O.taken out.new) (O.faults out.new)) (Some (compile_request command.entry)) result }
    ensures named { map P.label passes.new.items ≡ map P.label passes.old.items }
    ensures ran { OnOk result (EachRose (map P.runs passes.old.items) (map P.runs passes.new.items)) }
{
    match read_source(alloc, command.source, shelf) {
        Ok(text) => compile_text(alloc, text.as_slice(), command, passes, shelf, out),
        Err(SourceError::Unread { name }) => Err(ToolFault::ReadFile {
            who: Speaker::Pcc,
            name,
        }),
        Err(SourceError::TooLong) => Err(ToolFault::Source {
            who: Speaker::Pcc,
            fault: SourceFault::TooLong,
        }),
        Err(SourceError::Memory) => Err(ToolFault::NoMemory { who: Speaker::Pcc }),
    }
}

/// Compiles the source's text.
#[tactic(auto, using(crate::proofs::CompilerEndings::compiler_endings))]
fn compile_text<'a, P: Pass, H: Shelf, O: Sink>(
    alloc: Global,
    text: &[u8],
    command: CompileCommand<'a>,
    passes: &mut Vec<P>,
    shelf: &mut H,
    out: &mut O,
) -> Result<Compiled, ToolFault<'a>>
    requires few_bytes { length text.now ≤ most_source }
    requires limits { AreLimits command.limits }
    requires extent { IsExtent command.extent }
    requires source { HasSource (H.state shelf.old).held (source_place command.source) text.now }
    ensures ends { EndsWith (Chain P.does P.changed passes.old.items passes.new.items) (counts_of P.label P.changed passes.new.items)
        (H.state shelf.old) (H.state shelf.new) (streamed (O.taken out.old) (O.faults out.old)) (streamed (O.taken out.new) (O.faults out.new)) (Some (compile_request command.entry)) result }
    ensures named { map P.label passes.new.items ≡ map P.label passes.old.items }
    ensures ran { OnOk result (EachRose (map P.runs passes.old.items) (map P.runs passes.new.items)) }
{
    match read_program(alloc, text) {
        Ok(checked) => compile_program(alloc, &checked, command, passes, shelf, out),
        Err(Refusal::Source { fault }) => Err(ToolFault::Source {
            who: Speaker::Pcc,
            fault,
        }),
        Err(Refusal::Memory) => Err(ToolFault::NoMemory { who: Speaker::Pcc }),
    }
}

/// Compiles the source's program.
#[tactic(auto, using(crate::proofs::CompilerEndings::compiler_endings))]
fn compile_program<'a, P: Pass, H: Shelf, O: Sink>(
    alloc: Global,
    checked: &Checked,
    command: CompileCommand<'a>,
    passes: &mut Vec<P>,
    shelf: &mut H,
    out: &mut O,
) -> Result<Compiled, ToolFault<'a>>
    requires limits { AreLimits command.limits }
    requires extent { IsExtent command.extent }
    requires source { HasProgram (H.state shelf.old).held (source_place command.source) (resolved_of checked.now) }
    ensures ends { EndsWith (Chain P.does P.changed passes.old.items passes.new.items) (counts_of P.label P.changed passes.new.items)
        (H.state shelf.old) (H.state shelf.new) (streamed (O.taken out.old) (O.faults out.old)) (streamed (O.taken out.new) (O.faults out.new)) (Some (compile_request command.entry)) result }
    ensures named { map P.label passes.new.items ≡ map P.label passes.old.items }
    ensures ran { OnOk result (EachRose (map P.runs passes.old.items) (map P.runs passes.new.items)) }
{
    match translate(alloc, checked, passes, command.limits, command.extent) {
        Ok(Translation { compiled, bytes }) => {
            let (bytes, passes) = (bytes.as_slice(), passes.as_slice());
            match write_object(alloc, &compiled, bytes, command, passes, shelf, out) {
                None => Ok(compiled),
                Some(fault) => Err(fault),
            }
        }
        Err(CompileError::TooLarge { nodes }) => Err(ToolFault::Source {
            who: Speaker::Pcc,
            fault: SourceFault::TooLarge { number: nodes },
        }),
        Err(CompileError::Memory) => Err(ToolFault::NoMemory { who: Speaker::Pcc }),
    }
}

/// Writes the object, and sends the report where it is asked for.
#[tactic(auto, using(crate::proofs::CompilerEndings::writes_due))]
fn write_object<'a, P: Pass, H: Shelf, O: Sink>(
    alloc: Global,
    compiled: &Compiled,
    bytes: &[u8],
    command: CompileCommand<'a>,
    passes: &[P],
    shelf: &mut H,
    out: &mut O,
) -> Option<ToolFault<'a>>
    requires { IsObject (object_of compiled.now.object) }
    ensures { WriteEnds (compile_request command.entry) bytes.now (report_lines (reported compiled.now (counts_of P.label P.changed passes.now)))
        (H.state shelf.old) (H.state shelf.new) (streamed (O.taken out.old) (O.faults out.old)) (streamed (O.taken out.new) (O.faults out.new)) result }
{
    match shelf.write_file(alloc, command.object, bytes) {
        Ok(()) => report(alloc, compiled, passes, command.report, out),
        Err(ShelfError::Failed) => Some(ToolFault::WriteFile {
            who: Speaker::Pcc,
            name: command.object,
        }),
        Err(ShelfError::Memory) => Some(ToolFault::NoMemory { who: Speaker::Pcc }),
    }
}

/// Sends the report where it is asked for.
#[tactic(auto, using(crate::proofs::CompilerEndings::reports_due))]
fn report<'a, P: Pass, O: Sink>(
    alloc: Global,
    compiled: &Compiled,
    passes: &[P],
    asked: bool,
    out: &mut O,
) -> Option<ToolFault<'a>>
    requires { IsObject (object_of compiled.now.object) }
    ensures { ReportEnds asked (report_lines (reported compiled.now (counts_of P.label P.changed passes.now)))
        (streamed (O.taken out.old) (O.faults out.old)) (streamed (O.taken out.new) (O.faults out.new)) result }
{
    if !asked {
        return None;
    }
    match report_of(alloc, compiled, passes) {
        Ok(text) => send_report(text.as_slice(), out),
        Err(ReportError::Memory) => Some(ToolFault::NoMemory { who: Speaker::Pcc }),
    }
}

/// The text of the report.
fn report_of<P: Pass>(
    alloc: Global,
    compiled: &Compiled,
    passes: &[P],
) -> Result<Vec<u8>, ReportError>
    requires { IsObject (object_of compiled.now.object) }
    ensures { IfOk result (λ text. text.items ≡ report_lines (reported compiled.now (counts_of P.label P.changed passes.now))) }
{
    let passes = pass_facts(alloc, passes)?;
    let object = &compiled.object;
    let facts = ReportFacts {
        nodes: compiled.flow.count(),
        rows: object.code.rows.len() as u32,
        passes: passes.as_slice(),
        notes: object.notes.as_slice(),
    };
    report_text(alloc, &facts)
}

/// The names of passes, and how many changes each has made.
fn pass_facts<'a, P: Pass>(alloc: Global, passes: &'a [P]) -> Result<Vec<PassFact<'a>>, AllocError>
    ensures { IfOk result (λ facts. map pass_of facts.items ≡ counts_of P.label P.changed passes.entry.now) }
{
    let mut facts = Vec::new(alloc);
    for pass in passes {
        facts.push(PassFact {
            name: pass.name(),
            changes: pass.changes(),
        })?;
    }
    Ok(facts)
}

/// Sends the text of a report.
#[tactic(auto, using(crate::proofs::CompilerEndings::reports_due))]
fn send_report<'a, O: Sink>(text: &[u8], out: &mut O) -> Option<ToolFault<'a>>
    ensures { ReportEnds true text.now
        (streamed (O.taken out.old) (O.faults out.old)) (streamed (O.taken out.new) (O.faults out.new)) result }
{
    match send(out, text) {
        Ok(()) => None,
        Err(_) => Some(ToolFault::WriteOutput { who: Speaker::Pcc }),
    }
}
