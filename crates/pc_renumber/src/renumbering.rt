//! Renumbering.
ghost use Rattle.std.specs.Prelude.{◌≡◌, ◌≤◌, [], length, true, IfOk};
ghost use Rattle.pc_window.specs.Tree.{whole, tree_size};
ghost use Rattle.pc_window.specs.Names.{parameters_of};
ghost use Rattle.pc_window.specs.Steps.{IsProper};
ghost use Rattle.pc_window.specs.StoredWindow.{tree_in, window_in, InNodes};
ghost use Rattle.pc_canon.specs.Shift.{ShiftedBy};
ghost use Rattle.pc_canon.specs.Canonical.{parameter_pairs};
ghost use Rattle.pc_renumber.specs.Renumbering.{Renumbers};
ghost use Rattle.pc_renumber.specs.models.Numbering.{AreNumbers};

use crate::forms::renumbered_table;
use crate::names::{add_all, no_numbers};
use crate::trees::renumber_tree;
use pc_window::{NumberList, Window, WindowError, parameters_of};
use std::alloc::Global;

/// Numbers the names and form variables of a window anew.
///
/// The parameters come first, in the order of first use, then the names that are defined, in preorder,
/// each once; the form variables that stand in their forms keep their order. All else stays as it is: the
/// window is equal to the one before up to names and form variables.
/// It takes time linear in the window, its names and its form variables, but for the search of the
/// parameters. There is no memory for a name whose number would be 2^31. The window is dropped where
/// memory runs out.
#[tactic(auto, using(crate::proofs::RenumberedWindows::windows))]
pub fn renumber(alloc: Global, window: Window) -> Result<Window, WindowError>
    requires proper { IsProper (window_in window) }
    requires nodes { InNodes true window.tree }
    ensures renumbers { IfOk result (λ later. Renumbers (window_in window) (window_in later)) }
    ensures nodes { IfOk result (λ later. InNodes true later.tree) }
    ensures proper { IfOk result (λ later. IsProper (window_in later)) }
    ensures names { IfOk result (λ later. length later.names.forms ≤ length window.names.forms) }
    ensures variables { IfOk result (λ later. later.names.next_variable ≤ window.names.next_variable) }
    ensures size { IfOk result (λ later. tree_size (tree_in later.tree) ≡ tree_size (tree_in window.tree)) }
    ensures same { IfOk result (λ later. ShiftedBy (parameter_pairs (window_in window) (window_in later)) (window_in window) (window_in later)) }
{
    let parameters = parameters_of(alloc, &window.tree, window.names.forms.len())?;
    let later = renumber_by(alloc, window, parameters.as_slice())?;
    Ok(later)
}

/// Numbers the names and form variables of a window anew, as `renumber` does, where its parameters are
/// known, in the order of first use.
#[tactic(auto, using(crate::proofs::RenumberedWindows::windows))]
pub fn renumber_by(alloc: Global, window: Window, parameters: &[u32]) -> Result<Window, WindowError>
    requires proper { IsProper (window_in window) }
    requires nodes { InNodes true window.tree }
    requires parameters { parameters.now ≡ parameters_of (whole (window_in window).front) }
    ensures renumbers { IfOk result (λ later. Renumbers (window_in window) (window_in later)) }
    ensures nodes { IfOk result (λ later. InNodes true later.tree) }
    ensures proper { IfOk result (λ later. IsProper (window_in later)) }
    ensures names { IfOk result (λ later. length later.names.forms ≤ length window.names.forms) }
    ensures variables { IfOk result (λ later. later.names.next_variable ≤ window.names.next_variable) }
    ensures size { IfOk result (λ later. tree_size (tree_in later.tree) ≡ tree_size (tree_in window.tree)) }
    ensures same { IfOk result (λ later. ShiftedBy (parameter_pairs (window_in window) (window_in later)) (window_in window) (window_in later)) }
{
    let mut numbers = no_numbers(alloc, window.names.forms.len())?;
    let later = renumbered(alloc, window, parameters, &mut numbers)?;
    Ok(later)
}

/// A window with these parameters renumbered, by a table in which no name has a number yet.
#[tactic(auto, using(crate::proofs::RenumberedWindows::parts))]
fn renumbered(
    alloc: Global,
    window: Window,
    parameters: &[u32],
    numbers: &mut [Option<u32>],
) -> Result<Window, WindowError>
    requires proper { IsProper (window_in window) }
    requires nodes { InNodes true window.tree }
    requires parameters { parameters.now ≡ parameters_of (tree_in window.tree) }
    requires many { length numbers.old ≡ length window.names.forms }
    requires none { AreNumbers numbers.old [] }
    ensures renumbers { IfOk result (λ later. Renumbers (window_in window) (window_in later)) }
    ensures nodes { IfOk result (λ later. InNodes true later.tree) }
{
    let Window {
        tree,
        names,
        limits,
        inside,
    } = window;
    let mut tree = tree;
    let mut all = NumberList::new(alloc);
    add_all(&tree, parameters, &mut all, numbers)?;
    let names = renumbered_table(alloc, &names, all.as_slice())?;
    renumber_tree(&mut tree, numbers);
    Ok(Window {
        tree,
        names,
        limits,
        inside,
    })
}
