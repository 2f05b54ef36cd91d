//! A window that is numbered anew.
ghost use Rattle.std.specs.Prelude.{◌<◌, ◌^◌, length, true, IfOk};
ghost use Rattle.pc_window.specs.Tree.{tree_size};
ghost use Rattle.pc_window.specs.Steps.{IsProper};
ghost use Rattle.pc_window.specs.StoredWindow.{tree_in, window_in, InNodes};

use crate::sums::sum_window;
use pc_canon::{WindowKey, key};
use pc_linear::LinForm;
use pc_renumber::renumber;
use pc_window::{Window, WindowError, WindowTree};
use pc_window_specimen::bin;
use pc_word::{Item, OpCode, Operand};
use std::alloc::{AllocError, Global};
use std::test::Fail;

/// `v7 = v5 + 1; print(v7);`, where the front is the sum.
#[tactic(auto, using(crate::proofs::SumWindows::sum_proper))]
fn proper_window(alloc: Global) -> Result<Window, AllocError>
    ensures proper { IfOk result (λ window. IsProper (window_in window)) }
    ensures nodes { IfOk result (λ window. InNodes true window.tree) }
    ensures few { IfOk result (λ window. length window.names.forms < 2 ^ 31) }
    ensures small { IfOk result (λ window. tree_size (tree_in window.tree) < 2 ^ 31) }
{
    sum_window(alloc, 5, 7, 1, 0)
}

/// The key of a proper window.
#[tactic(auto, using(pc_renumber::proofs::RenumberedWindows::parts))]
fn key_of(alloc: Global, window: &Window) -> Result<WindowKey, WindowError>
    requires proper { IsProper (window_in window.now) }
    requires few { length window.now.names.forms < 2 ^ 31 }
    requires small { tree_size (tree_in window.now.tree) < 2 ^ 31 }
{
    key(alloc, window)
}

/// Whether the first item of a window is this one.
fn starts_with(window: &Window, wanted: Item) -> bool {
    match &window.tree {
        WindowTree::Step { item, .. } => *item == wanted,
        _ => false,
    }
}

/// Whether two names are left, the parameter 0 and the definition 1, each with the variable of its
/// number.
fn is_dense(window: &Window) -> bool {
    let sum = bin(OpCode::Add, 1, Operand::Name(0), Operand::Lit(1));
    let names = &window.names;
    starts_with(window, sum)
        && names.forms.len() == 2
        && names.next_variable == 2
        && names.form(Operand::Name(0)) == LinForm::variable(0)
        && names.form(Operand::Name(1)) == LinForm::variable(1)
}

/// Whether the sum becomes dense, and its key stays.
fn keeps_its_key(alloc: Global) -> Result<bool, WindowError> {
    let window = proper_window(alloc)?;
    let before = key_of(alloc, &window)?;
    let window = renumber(alloc, window)?;
    let after = key_of(alloc, &window)?;
    Ok(is_dense(&window) && before.bytes.as_slice() == after.bytes.as_slice())
}

#[test]
fn windows_become_dense_and_keep_their_keys(rt: HostRuntime) -> Result<(), Fail> {
    let is_so = match keeps_its_key(rt.alloc()) {
        Ok(is_so) => is_so,
        Err(_) => false,
    };
    assert!(&rt; is_so);
    Ok(())
}
