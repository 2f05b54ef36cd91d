//! Windows that are made by hand.
ghost use Rattle.std.specs.Prelude.{◌≡◌, ◌<◌, ◌^◌, true, length, IfOk};
ghost use Rattle.pc_word.specs.declared.item.Item.TheVariants.{Bin, Print};
ghost use Rattle.pc_word.specs.declared.item.OpCode.TheVariants.{Add};
ghost use Rattle.pc_word.specs.declared.item.Operand.TheVariants.{Name, Lit};
ghost use Rattle.pc_window.specs.Tree.{tree_size, Pending, Stop_exit};
ghost use Rattle.pc_window.specs.Opening.{TreeBelow, FormsBelow};
ghost use Rattle.pc_window.specs.StoredWindow.{tree_in, supply_in, InNodes};

use pc_linear::LinForm;
use pc_window::{FormList, NameTable, Window, WindowTree};
use pc_word::{Item, Limits, OpCode, Operand};
use std::alloc::{AllocError, Global};

/// Eight names, each with a form variable alone.
#[tactic(auto, using(crate::proofs::SumWindows::names))]
fn eight_names(alloc: Global) -> Result<NameTable, AllocError>
    ensures forms { IfOk result (λ names. FormsBelow (supply_in names)) }
    ensures count { IfOk result (λ names. length names.forms ≡ 8) }
{
    let mut forms = FormList::new(alloc);
    for variable in 0..8 {
        forms.push(LinForm::variable(variable))?;
    }
    Ok(NameTable {
        forms,
        next_variable: 8,
    })
}

/// `to = from + literal; print(to);` with these tags, where the front is the sum.
pub(crate) fn sum_window(
    alloc: Global,
    from: u32,
    to: u32,
    literal: i32,
    tag: u32,
) -> Result<Window, AllocError>
    requires from { from < 8 }
    requires to { to < 8 }
    ensures tree { IfOk result (λ window. tree_in window.tree ≡ Pending tag 0 (Bin Add to (Name from) (Lit literal)) (Pending tag 1 (Print (Name to)) Stop_exit)) }
    ensures nodes { IfOk result (λ window. InNodes true window.tree) }
    ensures limits { IfOk result (λ window. window.limits ≡ record { ops = 4; tests = 1; mem = 2 }) }
    ensures eight { IfOk result (λ window. length window.names.forms ≡ 8) }
    ensures forms { IfOk result (λ window. FormsBelow (supply_in window.names)) }
    ensures count { IfOk result (λ window. length window.names.forms < 2 ^ 31) }
    ensures below { IfOk result (λ window. TreeBelow (length window.names.forms) (tree_in window.tree)) }
    ensures small { IfOk result (λ window. tree_size (tree_in window.tree) < 2 ^ 31) }
{
    let names = eight_names(alloc)?;
    let print = WindowTree::Step {
        tag,
        origin: 1,
        item: Item::Print {
            value: Operand::Name(to),
        },
        rest: Box::new(alloc, WindowTree::Stop)?,
    };
    let below = Box::new(alloc, print)?;
    let tree = WindowTree::Step {
        tag,
        origin: 0,
        item: Item::Bin {
            op: OpCode::Add,
            dest: to,
            left: Operand::Name(from),
            right: Operand::Lit(literal),
        },
        rest: Box::new(alloc, WindowTree::Node { below })?,
    };
    let limits = Limits {
        ops: 4,
        tests: 1,
        mem: 2,
    };
    Ok(Window {
        tree,
        names,
        limits,
        inside: None,
    })
}
