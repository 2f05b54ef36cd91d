//! What a row uses and defines.
ghost use Rattle.std.specs.Prelude.{◌≡◌, ◌≤◌, length};
ghost use Rattle.std.specs.List.{list_any};
ghost use Rattle.pc_word.specs.Items.{reads_name};
ghost use Rattle.pc_assign.specs.Uses.{leaf_uses, row_uses};
ghost use Rattle.pc_assign.specs.Pressure.{most_scratch};
ghost use Rattle.pc_assign.specs.models.Choosing.{IsUsedSet};
ghost use Rattle.pc_word.specs.StoredRow.{row_in};

use crate::register_set::RegisterSet;
use pc_automaton::AutomatonLeaf;
use pc_window::Home;
use pc_word::{Operand, RowTree};

/// Whether some leaf of a row uses a name.
pub(crate) fn row_uses(row: &RowTree<AutomatonLeaf>, name: u32) -> bool
    ensures { result ≡ row_uses (row_in (λ leaf. leaf) row.now) name }
{
    match row {
        RowTree::Step { next, .. } => row_uses(next, name),
        RowTree::Test { yes, no, .. } => row_uses(yes, name) || row_uses(no, name),
        RowTree::Leaf { leaf } => leaf_uses(leaf, name),
    }
}

/// The places of the parameters that are used at some leaf of a row.
#[tactic(auto, using(crate::proofs::UsedSets::sets))]
pub(crate) fn used_in(parameters: &[u32], row: &RowTree<AutomatonLeaf>) -> RegisterSet
    requires { length parameters.now ≤ most_scratch }
    ensures { IsUsedSet (row_uses (row_in (λ leaf. leaf) row.now)) parameters.now result }
{
    match row {
        RowTree::Step { next, .. } => used_in(parameters, next),
        RowTree::Test { yes, no, .. } => used_in(parameters, yes).union(used_in(parameters, no)),
        RowTree::Leaf { leaf } => used_by(parameters, leaf),
    }
}

/// The places of the parameters that a leaf uses.
pub(crate) fn used_by(parameters: &[u32], leaf: &AutomatonLeaf) -> RegisterSet
    requires { length parameters.now ≤ most_scratch }
    ensures { IsUsedSet (leaf_uses leaf.now) parameters.now result }
{
    let mut set = RegisterSet::empty();
    for at in 0..parameters.len() {
        if leaf_uses(leaf, parameters[at]) {
            set = set.with(at as u32);
        }
    }
    set
}

/// Whether a leaf uses a name.
fn leaf_uses(leaf: &AutomatonLeaf, name: u32) -> bool
    ensures { result ≡ leaf_uses leaf.now name }
{
    match leaf {
        AutomatonLeaf::To { arguments, .. } => arguments_use(arguments.as_slice(), name),
        AutomatonLeaf::Out { homes, .. } => homes_use(homes.as_slice(), name),
        AutomatonLeaf::Stop => false,
        AutomatonLeaf::Trap { .. } => false,
    }
}

/// Whether one of some operands reads a name.
fn arguments_use(arguments: &[Operand], name: u32) -> bool
    ensures { result ≡ list_any (λ operand. reads_name operand name) arguments.now }
{
    arguments.iter().any(|operand| operand.is_name(name))
}

/// Whether one of some homes reads a name.
fn homes_use(homes: &[Home], name: u32) -> bool
    ensures { result ≡ list_any (λ home. reads_name home.value name) homes.now }
{
    homes.iter().any(|home| home.value.is_name(name))
}
