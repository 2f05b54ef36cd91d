//! What an item reads and writes.
ghost use Rattle.std.specs.Prelude.{◌≡◌, ◌<◌, ℕ, Option, IfSome, ◌&&◌, not};
ghost use Rattle.std.specs.List.{AllByRecursion, list_any};
ghost use Rattle.pc_word.specs.Items.{operands_of, dest_of, reads_name};
ghost use Rattle.pc_word.specs.Commit.{writes};
ghost use Rattle.pc_flow.specs.FlowGraph.{variables, IsVariable};
ghost use Rattle.pc_live.specs.Liveness.{member};

use crate::variable_set::VariableSet;
use pc_word::{Item, Operands};

/// The variables that an item reads.
pub fn read_by(item: &Item) -> VariableSet
    requires { AllByRecursion IsVariable (operands_of item.now) }
    ensures { (x : ℕ) → member result x ≡ list_any (λ operand. reads_name operand x) (operands_of item.now) }
{
    let none = VariableSet::empty();
    match item.operands() {
        Operands::None => none,
        Operands::One(one) => none.with_operand(one),
        Operands::Two(one, other) => none.with_operand(other).with_operand(one),
    }
}

/// The variables of a set that an item does not write.
pub fn passed_by(item: &Item, set: VariableSet) -> VariableSet
    requires { IfSome (dest_of item.now) (λ name. name < variables) }
    ensures { (x : ℕ) → x < variables → member result x ≡ (not (writes (dest_of item.now) x) && member set x) }
{
    match item.dest() {
        Some(variable) => set.without(variable),
        None => set,
    }
}
