//! The form that a region gets: the first that is not refused.
ghost use Rattle.std.specs.Prelude.{◌≡◌, ◌+◌, ◌<◌, ◌≤◌, ◌^◌, ◌++◌, ◌∷◌, [], length, IfOk, OnOk};
ghost use Rattle.pc_word.specs.declared.item.Extent.{Extent};
ghost use Rattle.pc_word.specs.Ranges.{AreLimits, IsExtent};
ghost use Rattle.pc_word.specs.MachineLimits.{most_object, most_rows};
ghost use Rattle.pc_table.specs.Table.{region_tree};
ghost use Rattle.pc_table.specs.StoredTable.{table_of};
ghost use Rattle.pc_emit.specs.declared.form.RegionForm.TheVariants.{ByAutomaton};
ghost use Rattle.pc_emit.specs.Bytes.{plain_bytes};
ghost use Rattle.pc_compile.specs.declared.choice.Form.TheVariants.{Pipelined};
ghost use Rattle.pc_compile.specs.Choosing.{packs, PassesOver};
ghost use Rattle.pc_compile.specs.models.Giving.{bytes_of, IsAttempt, IsGiven};

use crate::CauseList;
use crate::choice::{Cause, Form};
use crate::choose_error::ChooseError;
use crate::heading::may_pipeline;
use crate::trying::{Attempt, try_form};
use pc_assign::Assigned;
use pc_automaton::Automaton;
use pc_emit::RegionForm;
use pc_table::RegionTable;
use pc_word::{Extent, Limits, MOST_ROWS};
use std::alloc::{AllocError, Global};

/// The extent of the search for a packed form: nothing is unwound, and there may be as many rows as
/// ever.
const PACKED: Extent = Extent {
    window: 1,
    rows: MOST_ROWS,
};

/// The form that a region gets, why it got none before, and the bytes of the object then.
#[derive(Drop)]
pub(crate) struct Given {
    pub(crate) form: RegionForm,
    pub(crate) kind: Form,
    pub(crate) causes: CauseList,
    pub(crate) bytes: u32,
}

/// The form that a region gets, where it has so many bytes if it is plain, and all else has so many.
pub(crate) fn form_for(
    alloc: Global,
    table: &RegionTable,
    region: u32,
    limits: Limits,
    extent: Extent,
    others: u32,
    plain: u32,
) -> Result<Given, ChooseError>
    requires limits { AreLimits limits }
    requires extent { IsExtent extent }
    requires there { region < length table.now.regions }
    requires counted { plain ≡ plain_bytes (region_tree (table_of table.now) region) }
    requires short { others + plain ≤ most_object }
    ensures { IfOk result (IsGiven (table_of table.now) limits extent region others) }
{
    let mut causes = CauseList::new(alloc);
    if !may_pipeline(table, extent, region) {
        return packed_or_plain(alloc, table, region, limits, causes, others, plain);
    }
    match try_form(alloc, table, region, limits, extent, others)? {
        Attempt::Fits {
            automaton,
            registers,
            bytes,
        } => {
            let kind = pipelined(&automaton, extent);
            Ok(given_as_automaton(automaton, registers, kind, causes, bytes))
        }
        Attempt::Refused { cause } => {
            tell(cause, &mut causes)?;
            packed_or_plain(alloc, table, region, limits, causes, others, plain)
        }
    }
}

/// The form that a region gets where a pipelined one is passed over for these causes.
fn packed_or_plain(
    alloc: Global,
    table: &RegionTable,
    region: u32,
    limits: Limits,
    mut causes: CauseList,
    others: u32,
    plain: u32,
) -> Result<Given, ChooseError>
    requires limits { AreLimits limits }
    requires there { region < length table.now.regions }
    requires counted { plain ≡ plain_bytes (region_tree (table_of table.now) region) }
    requires short { others + plain ≤ most_object }
    ensures { (extent : Extent) → PassesOver (table_of table.now) limits extent region (bytes_of (table_of table.now) region others) causes
        → IfOk result (IsGiven (table_of table.now) limits extent region others) }
{
    match try_packed(alloc, table, region, limits, others)? {
        Attempt::Fits {
            automaton,
            registers,
            bytes,
        } => Ok(given_as_automaton(automaton, registers, Form::Packed, causes, bytes)),
        Attempt::Refused { cause } => {
            tell(cause, &mut causes)?;
            Ok(Given {
                form: RegionForm::Plain,
                kind: Form::Plain,
                causes,
                bytes: others + plain,
            })
        }
    }
}

/// Tries to pack a region, where all but it has so many bytes.
fn try_packed(
    alloc: Global,
    table: &RegionTable,
    region: u32,
    limits: Limits,
    others: u32,
) -> Result<Attempt, ChooseError>
    requires limits { AreLimits limits }
    requires there { region < length table.now.regions }
    requires short { others ≤ most_object }
    ensures { IfOk result (IsAttempt (packs (table_of table.now) limits) region most_rows (bytes_of (table_of table.now) region others)) }
{
    try_form(alloc, table, region, limits, PACKED, others)
}

/// An automaton with registers for its names, as what a region gets.
fn given_as_automaton(
    automaton: Automaton,
    registers: Assigned,
    kind: Form,
    causes: CauseList,
    bytes: u32,
) -> Given
    ensures { result ≡ record { form = ByAutomaton automaton registers; kind = kind; causes = causes; bytes = bytes } }
{
    let form = RegionForm::ByAutomaton {
        automaton,
        registers,
    };
    Given {
        form,
        kind,
        causes,
        bytes,
    }
}

/// The kind of a pipelined form.
fn pipelined(automaton: &Automaton, extent: Extent) -> Form
    requires { length automaton.now < 2 ^ 32 }
    ensures { result ≡ Pipelined (length automaton.now) extent.rows }
{
    Form::Pipelined {
        states: automaton.count(),
        rows: u32::from(extent.rows),
    }
}

/// Appends a cause to the others.
fn tell(cause: Cause, causes: &mut CauseList) -> Result<(), AllocError>
    ensures { OnOk result (causes.new ≡ causes.old ++ cause ∷ []) }
{
    causes.push(cause)?;
    Ok(())
}
