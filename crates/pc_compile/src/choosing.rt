//! Choosing forms, region by region.
ghost use Rattle.std.specs.Prelude.{◌≡◌, ◌<◌, ◌≤◌, ◌++◌, ◌∷◌, ℤ, List, [], suc, Some, None, length, replicate, slice_get, slice_set, IfOk, OnOk};
ghost use Rattle.pc_word.specs.declared.item.Limits.{Limits};
ghost use Rattle.pc_word.specs.declared.item.Extent.{Extent};
ghost use Rattle.pc_word.specs.Ranges.{AreLimits, IsExtent};
ghost use Rattle.pc_word.specs.MachineLimits.{most_object};
ghost use Rattle.pc_table.specs.StoredTable.{table_of};
ghost use Rattle.pc_emit.specs.Bytes.{object_bytes};
ghost use Rattle.pc_emit.specs.Emitting.{region_forms};
ghost use Rattle.pc_compile.specs.Choosing.{AreChosen, choice_of};
ghost use Rattle.pc_compile.specs.models.Progress.{IsChoosing, IsChoosingWithSome};

use crate::bytes::{object_bytes, plain_bytes};
use crate::choice::{Choice, Chosen};
use crate::choose_error::ChooseError;
use crate::found::Found;
use crate::giving::{Given, form_for};
use crate::leading::find_behind;
use crate::{ChoiceList, FormList};
use pc_table::RegionTable;
use pc_word::{DataList, Extent, Limits};
use std::alloc::{AllocError, Global};

/// The regions that were found, and what was chosen for the first of them.
#[derive(Drop)]
pub(crate) struct Progress {
    pub(crate) found: Found,
    pub(crate) chosen: Chosen,
}

/// Chooses a form for each region that is reachable from region 0, in the order in which they are found:
/// the first that is not refused.
///
/// It takes at most two searches for the header of an innermost loop, and one for each other region. It
/// fails where memory runs out. The object of the table with all its regions plain is short enough, with
/// these data of its arrays, so that a region may always be plain.
pub fn choose(
    alloc: Global,
    table: &RegionTable,
    initial: &DataList,
    limits: Limits,
    extent: Extent,
) -> Result<Chosen, ChooseError>
    requires limits { AreLimits limits }
    requires extent { IsExtent extent }
    requires small { object_bytes (table_of table.now) initial.now (λ region. None) ≤ most_object }
    ensures chosen { IfOk result (λ it. AreChosen (table_of table.now) initial.now limits extent it.choices (region_forms it.forms)) }
    ensures count { IfOk result (λ it. length it.forms ≡ length table.now.regions) }
    ensures counted { IfOk result (λ it. it.bytes ≡ object_bytes (table_of table.now) initial.now (region_forms it.forms)) }
    ensures short { IfOk result (λ it. it.bytes ≤ most_object) }
{
    let mut progress = begun(alloc, table, initial)?;
    while let Some(region) = progress.found.region(progress.chosen.choices.len()) {
        take(alloc, table, limits, extent, region, &mut progress)?;
    }
    Ok(progress.chosen)
}

/// Region 0 was found, and none was taken.
fn begun(alloc: Global, table: &RegionTable, initial: &DataList) -> Result<Progress, AllocError>
    requires small { object_bytes (table_of table.now) initial.now (λ region. None) ≤ most_object }
    ensures { IfOk result (λ progress. (limits : Limits) (extent : Extent) → IsChoosing (table_of table.now) initial.now limits extent progress) }
{
    let count = table.regions.len();
    let mut found = Found::new(alloc, count)?;
    found.find(0)?;
    let chosen = Chosen {
        choices: ChoiceList::new(alloc),
        forms: no_forms(alloc, count)?,
        bytes: object_bytes(table, initial),
    };
    Ok(Progress { found, chosen })
}

/// So many regions without a form.
fn no_forms(alloc: Global, count: usize) -> Result<FormList, AllocError>
    ensures none { IfOk result (λ forms. forms ≡ replicate count None) }
{
    let mut forms = FormList::new(alloc);
    for _ in 0..count {
        forms.push(None)?;
    }
    Ok(forms)
}

/// Takes the next region that was found: gives it a form, and finds the regions that it leads to.
fn take(
    alloc: Global,
    table: &RegionTable,
    limits: Limits,
    extent: Extent,
    region: u32,
    progress: &mut Progress,
) -> Result<(), ChooseError>
    requires limits { AreLimits limits }
    requires extent { IsExtent extent }
    requires choosing { IsChoosingWithSome (table_of table.now) limits extent progress.old }
    requires there { region < length table.now.regions }
    requires next { slice_get progress.old.found.order (length progress.old.chosen.choices) ≡ Some region }
    ensures choosing { (initial : List (List ℤ)) → IsChoosing (table_of table.now) initial limits extent progress.old
        → OnOk result (IsChoosing (table_of table.now) initial limits extent progress.new) }
    ensures taken { OnOk result (length progress.new.chosen.choices ≡ suc (length progress.old.chosen.choices)) }
{
    let tree = table.tree(region);
    let plain = plain_bytes(tree);
    let others = progress.chosen.bytes - plain;
    let given = form_for(alloc, table, region, limits, extent, others, plain)?;
    find_behind(tree, &given.form, &mut progress.found)?;
    put(region, given, &mut progress.chosen)?;
    Ok(())
}

/// Notes what a region gets.
fn put(region: u32, given: Given, chosen: &mut Chosen) -> Result<(), AllocError>
    requires { region < length chosen.old.forms }
    ensures choices { OnOk result (chosen.new.choices ≡ chosen.old.choices ++ choice_of region given.kind given.causes ∷ []) }
    ensures forms { OnOk result (chosen.new.forms ≡ slice_set chosen.old.forms region (Some given.form)) }
    ensures bytes { OnOk result (chosen.new.bytes ≡ given.bytes) }
{
    let Given {
        form,
        kind,
        causes,
        bytes,
    } = given;
    chosen.choices.push(Choice {
        region,
        form: kind,
        causes,
    })?;
    chosen.forms.set(region as usize, Some(form));
    chosen.bytes = bytes;
    Ok(())
}
