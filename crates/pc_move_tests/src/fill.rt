//! What comes into the front of a window that is filled.
ghost use Rattle.pc_word.specs.Ranges.{AreLimits};

use crate::tables::CONFLICTS;
use pc_fill::{ReadyNode, fill, first_ready, law_of_opened_windows};
use pc_window::WindowTree;
use pc_window_specimen::{Untold, first_window};
use pc_word::Limits;
use std::alloc::{AllocError, Global};
use std::test::Fail;

/// Lists the origins of what stands in a front, in preorder.
pub(crate) fn list_origins(tree: &WindowTree, listed: &mut Vec<u32>) -> Result<(), AllocError> {
    match tree {
        WindowTree::Step { origin, rest, .. } => {
            listed.push(*origin)?;
            list_origins(rest, listed)
        }
        WindowTree::Test {
            origin,
            yes,
            no,
            ..
        } => {
            listed.push(*origin)?;
            list_origins(yes, listed)?;
            list_origins(no, listed)
        }
        _ => Ok(()),
    }
}

/// The place of what is found.
fn place_of(found: Option<ReadyNode>) -> Option<u32> {
    match found {
        Some(node) => Some(node.place),
        None => None,
    }
}

/// The place of what comes first, and the origins of what stands in the front of the window filled.
#[tactic(auto, using(pc_fill::proofs::Opened::opened_windows))]
fn filled(alloc: Global, limits: Limits) -> Result<(Option<u32>, Vec<u32>), Untold>
    requires { AreLimits limits }
{
    let window = first_window(alloc, &CONFLICTS, limits)?;
    let place = place_of(first_ready(&window));
    let window = fill(alloc, window)?;
    let mut listed = Vec::new(alloc);
    list_origins(&window.tree, &mut listed)?;
    Ok((place, listed))
}

/// Whether these come into the front where it may have so many items and tests.
fn fills(alloc: Global, ops: u8, tests: u8, origins: &[u32]) -> bool
    requires { AreLimits (record { ops = ops; tests = tests; mem = 8 }) }
{
    match filled(alloc, Limits { ops, tests, mem: 8 }) {
        Ok((place, listed)) => place == Some(1) && listed.as_slice() == origins,
        Err(_) => false,
    }
}

#[test]
fn what_is_ready_comes_into_the_front(rt: HostRuntime) -> Result<(), Fail> {
    law_of_opened_windows();
    // The load of another element, one print, a test, and the sum below the other test; the load of
    // the same element, the second print, and the store below the other test may not come.
    assert!(&rt; fills(rt.alloc(), 8, 1, &[0, 1, 3, 5, 7]));
    // With both tests the store may come, too.
    assert!(&rt; fills(rt.alloc(), 8, 2, &[0, 1, 3, 5, 6, 7, 8]));
    // Where items have no room, the first test comes all the same.
    assert!(&rt; fills(rt.alloc(), 2, 1, &[0, 1, 5]));
    Ok(())
}
