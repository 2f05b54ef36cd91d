ghost use Rattle.std.specs.Prelude.{◌≡◌, ℕ, ℤ, List, [], true, false, IfOk};
ghost use Rattle.pc_word.specs.Exact.{IsExact};
ghost use Rattle.pc_syntax.specs.Erasure.{program_of};
ghost use Rattle.pc_syntax.specs.UnitErasure.{unit_of, unit_list_of};
ghost use Rattle.pc_syntax.specs.Plain.{HasNoCalls, plain_list};
ghost use Rattle.pc_syntax.specs.Proper.{unit_is_proper};
ghost use Rattle.pc_check.specs.Faults.{faults};
ghost use Rattle.pc_check.specs.Resolution.{resolved};
ghost use Rattle.pc_meaning.specs.SourceRun.{source_run};
ghost use Rattle.pc_calls.specs.CallRun.{call_run};
ghost use Rattle.pc_calls.specs.Counted as counted;
ghost use Rattle.pc_calls.specs.Inline.{inlined_list};
ghost use Rattle.pc_calls.specs.Inlining.{symbol_bound, size_refusals, inlining};
ghost use Rattle.pc_inline.specs.Inlined.{inline_cause};
ghost use Rattle.pc_inline.specs.models.Sites.{site_at};

use crate::copying::copy_items;
use crate::error::InlineError;
use crate::refusals::refuse_unit;
use crate::site::Site;
use crate::tables::{refuse_size, unit_size};
use pc_syntax::{Program, SourceUnit, StmtList};
use pc_word::{OutOfMemory, Seq};
use std::alloc::Global;

/// The inlined program of a unit: each call is the block of its function, with symbols of its own.
///
/// `Ok` comes exactly where nothing is refused, and `Err` with the first refusal: those of the text in its
/// order, and then those for the size of the inlined program, which is counted before anything is
/// built. Each yields to want of memory alone. Symbols have to be below 65,536, and each declarator in a
/// list of statements, as in every unit that was read from a text.
pub fn inline(alloc: Global, unit: &SourceUnit) -> Result<Program, InlineError>
    requires { unit_is_proper symbol_bound (unit_of unit.now) ≡ true }
    ensures exact { IsExact program_of inline_cause result (inlining (unit_of unit.now)) }
    ensures plain { IfOk result (λ program. HasNoCalls program) }
    // If it has no faults, the program shows what the unit does.
    ensures same { IfOk result (λ program. faults (program_of program) ≡ []
        → (input : List ℤ) (n : ℕ) → source_run (resolved (program_of program)) input n ≡ call_run (unit_of unit.now) input n) }
{
    refuse_unit(unit)?;
    let size = unit_size(alloc, unit)?;
    refuse_size(size)?;
    let items = inlined_items(alloc, unit)?;
    Ok(Program { items })
}

/// The statements of the inlined program of a unit that is not refused: none is built before its size is counted.
fn inlined_items(alloc: Global, unit: &SourceUnit) -> Result<StmtList, OutOfMemory>
    requires { size_refusals (counted.unit_size (unit_of unit.now)) ≡ [] }
    ensures { IfOk result (λ items. unit_list_of items ≡ plain_list (inlined_list (site_at unit.now.functions 0 false) (unit_list_of unit.now.main.items))) }
{
    let site = Site {
        functions: unit.functions.as_slice(),
        offset: 0,
        in_function: false,
    };
    let mut items = Seq::new(alloc);
    copy_items(alloc, &unit.main.items, site, &mut items)?;
    Ok(items)
}
