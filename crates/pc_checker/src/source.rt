//! The regions of the source that a command names.
ghost use Rattle.std.specs.Prelude.{◌≡◌, ◌≤◌, length, map, MatchResult, OnOk};
ghost use Rattle.pc_check.specs.Checks.{resolved_of};
ghost use Rattle.pc_check.specs.Sizes.{resolved_size};
ghost use Rattle.pc_command.specs.Requests.{source_place};
ghost use Rattle.pc_outside.specs.Shelf.{ReadKeeps};
ghost use Rattle.pc_pass.specs.Pass.{Chain, EachRose};
ghost use Rattle.pc_middle.specs.CutProgram.{IsCutProgram};
ghost use Rattle.pc_table.specs.StoredTable.{table_of};
ghost use Rattle.pc_word.specs.SourceLimits.{most_source};
ghost use Rattle.pc_checker.specs.models.Steps.{IsSourceCut, IsTextCut, IsTooLarge, NoSource, RefusesSource};

use crate::fault::CheckerFault;
use pc_check::Checked;
use pc_command::SourceName;
use pc_middle::{CutError, CutProgram, cut_program};
use pc_outside::Shelf;
use pc_pass::Pass;
use pc_report::SourceFault;
use pc_source::{Refusal, SourceError, read_program, read_source};
use std::alloc::Global;

/// The graph and the regions of a source. An error says why there are none.
#[tactic(auto, using(crate::proofs::Sources::sources_due))]
pub(crate) fn cut_source<'a, P: Pass, H: Shelf>(
    alloc: Global,
    source: SourceName<'a>,
    passes: &mut Vec<P>,
    shelf: &mut H,
) -> Result<CutProgram, CheckerFault<'a>>
    ensures cut { MatchResult result
        (λ cut. IsSourceCut (Chain P.does P.changed passes.old.items passes.new.items) (H.state shelf.old).held (source_place source.entry)
        cut.flow (table_of cut.table))
        (λ fault. NoSource (source_place source.entry) (H.state shelf.old) (H.state shelf.new) fault) }
    ensures keeps { ReadKeeps (H.state shelf.old) (H.state shelf.new) }
    ensures named { map P.label passes.new.items ≡ map P.label passes.old.items }
    ensures ran { OnOk result (EachRose (map P.runs passes.old.items) (map P.runs passes.new.items)) }
{
    match read_source(alloc, source, shelf) {
        Ok(text) => cut_text(alloc, text.as_slice(), passes),
        Err(SourceError::Unread { name }) => Err(CheckerFault::ReadFile { name }),
        Err(SourceError::TooLong) => Err(CheckerFault::Source {
            fault: SourceFault::TooLong,
        }),
        Err(SourceError::Memory) => Err(CheckerFault::NoMemory),
    }
}

/// The graph and the regions of a source's text.
#[tactic(auto, using(crate::proofs::Sources::texts_due))]
fn cut_text<'a, P: Pass>(
    alloc: Global,
    text: &[u8],
    passes: &mut Vec<P>,
) -> Result<CutProgram, CheckerFault<'a>>
    requires { length text.now ≤ most_source }
    ensures cut { MatchResult result
        (λ cut. IsTextCut (Chain P.does P.changed passes.old.items passes.new.items) text.now cut.flow (table_of cut.table))
        (λ fault. RefusesSource text.now fault) }
    ensures named { map P.label passes.new.items ≡ map P.label passes.old.items }
    ensures ran { OnOk result (EachRose (map P.runs passes.old.items) (map P.runs passes.new.items)) }
{
    match read_program(alloc, text) {
        Ok(checked) => cut_checked(alloc, &checked, passes),
        Err(Refusal::Source { fault }) => Err(CheckerFault::Source { fault }),
        Err(Refusal::Memory) => Err(CheckerFault::NoMemory),
    }
}

/// The graph and the regions of a checked program.
#[tactic(auto, using(crate::proofs::Sources::programs_due))]
fn cut_checked<'a, P: Pass>(
    alloc: Global,
    checked: &Checked,
    passes: &mut Vec<P>,
) -> Result<CutProgram, CheckerFault<'a>>
    ensures cut { MatchResult result
        (λ cut. IsCutProgram (resolved_of checked.now) (Chain P.does P.changed passes.old.items passes.new.items) cut.flow (table_of cut.table))
        (λ fault. IsTooLarge (resolved_size (resolved_of checked.now)) fault) }
    ensures named { map P.label passes.new.items ≡ map P.label passes.old.items }
    ensures ran { OnOk result (EachRose (map P.runs passes.old.items) (map P.runs passes.new.items)) }
{
    match cut_program(alloc, checked, passes) {
        Ok(cut) => Ok(cut),
        Err(CutError::TooLarge { nodes }) => Err(CheckerFault::Source {
            fault: SourceFault::TooLarge { number: nodes },
        }),
        Err(CutError::Memory) => Err(CheckerFault::NoMemory),
    }
}
