//! A test that moves into the node above.
ghost use Rattle.pc_window.specs.Steps.{IsProper};
ghost use Rattle.pc_window.specs.StoredWindow.{window_in, IsJustOpened};

use crate::tables::{GUARDED_STORE, LIMITS};
use pc_movecj::{move_cj, why_not};
use pc_moveop::MoveError;
use pc_window::{Window, WindowTree};
use pc_window_specimen::first_window;
use std::alloc::Global;
use std::test::Fail;

/// Whether a front has an item and a test.
fn has_item_and_test(tree: &WindowTree) -> bool {
    match tree {
        WindowTree::Step { rest, .. } => is_test(rest),
        _ => false,
    }
}

/// Whether a tree has a test at its root.
fn is_test(tree: &WindowTree) -> bool {
    match tree {
        WindowTree::Test { .. } => true,
        _ => false,
    }
}

/// Why the test may not come into the front, and then whether it does; and why nothing comes into
/// the node of the test, behind whose first leaf is no test.
#[tactic(auto, using(crate::proofs::Small::opened_windows))]
fn moved(alloc: Global, window: Window) -> (Option<MoveError>, bool, Option<MoveError>)
    requires proper { IsProper (window_in window) }
    requires small { IsJustOpened window }
{
    let mut window = window;
    let first = why_not(&window, &[], 0);
    let behind: [u16; 1] = [0];
    let second = why_not(&window, &behind, 0);
    let moves = match move_cj(alloc, &mut window, &[], 0) {
        Ok(_) => has_item_and_test(&window.tree),
        Err(_) => false,
    };
    (first, moves, second)
}

#[test]
fn a_test_moves_into_the_front(rt: HostRuntime) -> Result<(), Fail> {
    let (first, moves, second) = match first_window(rt.alloc(), &GUARDED_STORE, LIMITS) {
        Ok(window) => moved(rt.alloc(), window),
        Err(_) => (None, false, None),
    };
    assert!(&rt; first == None);
    assert!(&rt; moves);
    assert!(&rt; second == Some(MoveError::NotThere));
    Ok(())
}
