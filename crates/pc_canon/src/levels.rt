//! The levels of names.
ghost use Rattle.std.specs.Prelude.{◌≡◌, ◌<◌, ◌^◌, length, replicate, IfOk};
ghost use Rattle.std.specs.List.{AllByRecursion};
ghost use Rattle.pc_canon.specs.models.Written.{levels_of};

use std::alloc::{AllocError, Global};

/// The level of each name of a list, in a list by name: how many there are from it on, and 0 for the
/// names that are not in the list.
#[tactic(auto, using(crate::proofs::Leveled::levels))]
pub(crate) fn levels_of(alloc: Global, names: &[u32], count: usize) -> Result<Vec<u32>, AllocError>
    requires below { AllByRecursion (λ name. name < count) names.now }
    requires few { length names.now < 2 ^ 32 }
    ensures { IfOk result (λ levels. levels.items ≡ levels_of names.now (replicate count 0)) }
{
    let mut levels = vec![in alloc; 0; count]?;
    set_levels(names, &mut levels);
    Ok(levels)
}

/// Sets the levels of names.
#[tactic(auto, using(crate::proofs::Leveled::levels))]
fn set_levels(names: &[u32], levels: &mut [u32])
    requires below { AllByRecursion (λ name. name < length levels.old) names.now }
    requires few { length names.now < 2 ^ 32 }
    ensures { levels.new ≡ levels_of names.now levels.old }
{
    let mut at = names.len();
    while at > 0 {
        at -= 1;
        levels[names[at] as usize] = (names.len() - at) as u32;
    }
}
