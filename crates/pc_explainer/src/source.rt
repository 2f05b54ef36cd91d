//! What explains the source that a command names, as a text.
ghost use Rattle.std.specs.Prelude.{◌≡◌, ◌≤◌, length, map, IfErr, IfOk, MatchResult, OnOk};
ghost use Rattle.pc_check.specs.Checks.{resolved_of};
ghost use Rattle.pc_check.specs.Sizes.{resolved_size};
ghost use Rattle.pc_command.specs.Requests.{explain_request, source_place};
ghost use Rattle.pc_compile.specs.Compiled.{IsUncompiled};
ghost use Rattle.std.specs.List.{AllByRecursion};
ghost use Rattle.pc_explain.specs.Explained.{explanations_in, CanBeWritten, HasChosen};
ghost use Rattle.pc_explain.specs.Legends.{legend_in};
ghost use Rattle.pc_names.specs.Spellings.{names_in};
ghost use Rattle.pc_outside.specs.Shelf.{ReadKeeps};
ghost use Rattle.pc_pass.specs.Pass.{Chain, EachRose};
ghost use Rattle.pc_table.specs.StoredTable.{table_of};
ghost use Rattle.pc_word.specs.Ranges.{AreLimits, IsExtent};
ghost use Rattle.pc_word.specs.SourceLimits.{most_source};
ghost use Rattle.pc_explainer.specs.Explanations.{told_as, ExplainsLoops, ExplainsProgram};
ghost use Rattle.pc_explainer.specs.models.Explaining.{ExplainsSource, ExplainsText, StopsAtProgram, StopsAtSource, StopsAtText};

use pc_command::{ExplainCommand, ExplainMode};
use pc_compile::{CompileError, Compiled, compile};
use pc_explain::{Legend, LoopExplanation, explain_loops};
use pc_explain_graph::explanation_graph;
use pc_explain_json::explanation_json;
use pc_explain_text::explanation_text;
use pc_lines::lines;
use pc_outside::Shelf;
use pc_pass::Pass;
use pc_report::{SourceFault, Speaker, ToolFault};
use pc_source::{NamedProgram, Refusal, SourceError, read_named, read_source};
use pc_word::{Limits, OutOfMemory};
use std::alloc::{AllocError, Global};

/// What explains the source that the command names. An error says what is due where nothing does.
#[tactic(auto, using(crate::proofs::Sources::sources_due))]
pub(crate) fn explanation_of_source<'a, P: Pass, H: Shelf>(
    alloc: Global,
    command: ExplainCommand<'a>,
    passes: &mut Vec<P>,
    shelf: &mut H,
) -> Result<Vec<u8>, ToolFault<'a>>
    requires limits { AreLimits command.limits }
    requires extent { IsExtent command.extent }
    ensures text { MatchResult result
        (λ text. ExplainsSource (Chain P.does P.changed passes.old.items passes.new.items) (H.state shelf.old).held (explain_request command.entry) text.items)
        (λ fault. StopsAtSource (source_place command.entry.source) (H.state shelf.old) (H.state shelf.new) fault) }
    ensures keeps { ReadKeeps (H.state shelf.old) (H.state shelf.new) }
    ensures named { map P.label passes.new.items ≡ map P.label passes.old.items }
    ensures ran { OnOk result (EachRose (map P.runs passes.old.items) (map P.runs passes.new.items)) }
{
    match read_source(alloc, command.source, shelf) {
        Ok(text) => explanation_of_text(alloc, text.as_slice(), command, passes),
        Err(SourceError::Unread { name }) => Err(ToolFault::ReadFile {
            who: Speaker::Pexplain,
            name,
        }),
        Err(SourceError::TooLong) => Err(ToolFault::Source {
            who: Speaker::Pexplain,
            fault: SourceFault::TooLong,
        }),
        Err(SourceError::Memory) => Err(ToolFault::NoMemory {
            who: Speaker::Pexplain,
        }),
    }
}

/// What explains a source's text.
#[tactic(auto, using(crate::proofs::Sources::texts_due))]
fn explanation_of_text<'a, P: Pass>(
    alloc: Global,
    text: &[u8],
    command: ExplainCommand<'a>,
    passes: &mut Vec<P>,
) -> Result<Vec<u8>, ToolFault<'a>>
    requires few_bytes { length text.now ≤ most_source }
    requires limits { AreLimits command.limits }
    requires extent { IsExtent command.extent }
    ensures text { MatchResult result
        (λ explanation. ExplainsText (Chain P.does P.changed passes.old.items passes.new.items) (explain_request command.entry) text.now explanation.items)
        (λ fault. StopsAtText text.now fault) }
    ensures named { map P.label passes.new.items ≡ map P.label passes.old.items }
    ensures ran { OnOk result (EachRose (map P.runs passes.old.items) (map P.runs passes.new.items)) }
{
    match read_named(alloc, text) {
        Ok(named) => explanation_of_program(alloc, named, command, passes),
        Err(Refusal::Source { fault }) => Err(ToolFault::Source {
            who: Speaker::Pexplain,
            fault,
        }),
        Err(Refusal::Memory) => Err(ToolFault::NoMemory {
            who: Speaker::Pexplain,
        }),
    }
}

/// What explains a source's program.
#[tactic(auto, using(crate::proofs::Sources::programs_due))]
fn explanation_of_program<'a, P: Pass>(
    alloc: Global,
    named: NamedProgram,
    command: ExplainCommand<'a>,
    passes: &mut Vec<P>,
) -> Result<Vec<u8>, ToolFault<'a>>
    requires limits { AreLimits command.limits }
    requires extent { IsExtent command.extent }
    ensures text { MatchResult result
        (λ text. ExplainsProgram (Chain P.does P.changed passes.old.items passes.new.items) (explain_request command.entry) (resolved_of named.checked) (names_in named.names) text.items)
        (λ fault. StopsAtProgram (resolved_size (resolved_of named.checked)) fault) }
    ensures named { map P.label passes.new.items ≡ map P.label passes.old.items }
    ensures ran { OnOk result (EachRose (map P.runs passes.old.items) (map P.runs passes.new.items)) }
{
    match compile_and_explain(alloc, named, command, passes) {
        Ok(text) => Ok(text),
        Err(CompileError::TooLarge { nodes }) => Err(ToolFault::Source {
            who: Speaker::Pexplain,
            fault: SourceFault::TooLarge { number: nodes },
        }),
        Err(CompileError::Memory) => Err(ToolFault::NoMemory {
            who: Speaker::Pexplain,
        }),
    }
}

/// Compiles a program, and gives what explains it.
#[tactic(auto, using(crate::proofs::Programs::compilations))]
fn compile_and_explain<P: Pass>(
    alloc: Global,
    named: NamedProgram,
    command: ExplainCommand,
    passes: &mut Vec<P>,
) -> Result<Vec<u8>, CompileError>
    requires limits { AreLimits command.limits }
    requires extent { IsExtent command.extent }
    ensures text { IfOk result (λ text. ExplainsProgram (Chain P.does P.changed passes.old.items passes.new.items)
        (explain_request command.entry) (resolved_of named.checked) (names_in named.names) text.items) }
    ensures uncompiled { IfErr result (λ error. IsUncompiled (resolved_size (resolved_of named.checked)) error) }
    ensures named { map P.label passes.new.items ≡ map P.label passes.old.items }
    ensures ran { OnOk result (EachRose (map P.runs passes.old.items) (map P.runs passes.new.items)) }
{
    let NamedProgram { checked, names } = named;
    let compiled = compile(alloc, &checked, passes, command.limits, command.extent)?;
    let lines = lines(alloc, &checked)?;
    let legend = Legend { lines, names };
    let text = explanation_of_compiled(alloc, &legend, &compiled, command)?;
    Ok(text)
}

/// What explains a program that was compiled, by the legend of its source.
fn explanation_of_compiled(
    alloc: Global,
    legend: &Legend,
    compiled: &Compiled,
    command: ExplainCommand,
) -> Result<Vec<u8>, OutOfMemory>
    requires limits { AreLimits command.limits }
    requires extent { IsExtent command.extent }
    requires chosen { HasChosen (table_of compiled.now.table) command.limits command.extent compiled.now.choices }
    ensures { IfOk result (λ text. ExplainsLoops (explain_request command.entry)
        compiled.now.flow (table_of compiled.now.table) compiled.now.choices (legend_in legend.now) text.items) }
{
    let ExplainCommand {
        limits,
        extent,
        line,
        mode,
        ..
    } = command;
    let Compiled { flow, table, .. } = compiled;
    let choices = compiled.choices.as_slice();
    let loops = explain_loops(alloc, flow, table, choices, limits, extent, line)?;
    Ok(told_as(alloc, mode, limits, legend, line, loops.as_slice())?)
}

/// Explanations in the form that is asked for.
fn told_as(
    alloc: Global,
    mode: ExplainMode,
    limits: Limits,
    legend: &Legend,
    line: Option<u32>,
    loops: &[LoopExplanation],
) -> Result<Vec<u8>, AllocError>
    requires { AllByRecursion (CanBeWritten limits) (explanations_in loops.now) }
    ensures { IfOk result (λ text. text.items ≡ told_as mode limits (legend_in legend.now) line (explanations_in loops.now)) }
{
    match mode {
        ExplainMode::Text => explanation_text(alloc, limits, legend, line, loops),
        ExplainMode::Dot => explanation_graph(alloc, limits, legend, line, loops),
        ExplainMode::Json => explanation_json(alloc, limits, legend, line, loops),
    }
}
