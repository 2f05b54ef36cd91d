//! What is not used is deleted, and equal items become one.
ghost use Rattle.pc_window.specs.Steps.{IsProper};
ghost use Rattle.pc_window.specs.StoredWindow.{window_in, IsJustOpened};

use crate::tables::{DEAD_STEP, EQUAL_SUMS, LIMITS, NARROW};
use pc_moveop::MoveError;
use pc_unify::{delete, tidy, unify, why_not_delete, why_not_unify};
use pc_window::{Window, WindowTree};
use pc_window_specimen::{Part, Untold, first_window, print, told_window};
use pc_word::Operand;
use pc_word::Operand::Lit;
use std::alloc::Global;
use std::test::Fail;

/// The window of the sum that nothing uses, tidied.
fn tidied(alloc: Global) -> Result<Window, Untold> {
    let window = first_window(alloc, &DEAD_STEP, LIMITS)?;
    Ok(tidy(alloc, window)?)
}

/// Whether the sum alone is deleted, and the print, which is not, comes to the front.
#[tactic(auto, using(crate::proofs::Small::opened_windows))]
fn deletes_the_sum(alloc: Global, window: Window) -> bool
    requires proper { IsProper (window_in window) }
    requires small { IsJustOpened window }
{
    let mut window = window;
    let print: [u16; 1] = [0];
    if why_not_delete(&window, &print, 0) != Some(MoveError::NotThere) {
        return false;
    }
    match delete(alloc, &mut window, &[], 0) {
        Ok(_) => begins_with_print(&window.tree),
        Err(_) => false,
    }
}

/// Whether a tree begins with the print.
fn begins_with_print(tree: &WindowTree) -> bool {
    match tree {
        WindowTree::Step { item, .. } => *item == print(Operand::Lit(7)),
        _ => false,
    }
}

#[test]
fn what_is_not_used_is_deleted(rt: HostRuntime) -> Result<(), Fail> {
    let is_so = match tidied(rt.alloc()) {
        Ok(window) => begins_with_print(&window.tree),
        Err(_) => false,
    };
    assert!(&rt; is_so);
    Ok(())
}

#[test]
fn one_item_is_deleted(rt: HostRuntime) -> Result<(), Fail> {
    let is_so = match first_window(rt.alloc(), &DEAD_STEP, LIMITS) {
        Ok(window) => deletes_the_sum(rt.alloc(), window),
        Err(_) => false,
    };
    assert!(&rt; is_so);
    Ok(())
}

/// Whether a tree is a leaf that leads to the print of a name.
fn leads_to_print_of(tree: &WindowTree, name: u32) -> bool {
    match tree {
        WindowTree::Node { below } => match **below {
            WindowTree::Step { item, .. } => item == print(Operand::Name(name)),
            _ => false,
        },
        _ => false,
    }
}

/// Whether a tree is a test with nothing but the print of a name on either side.
fn tests_and_prints(tree: &WindowTree, name: u32) -> bool {
    match tree {
        WindowTree::Test { yes, no, .. } => {
            leads_to_print_of(yes, name) && leads_to_print_of(no, name)
        }
        _ => false,
    }
}

/// Whether a tree begins with the yes sum, under a name that both sides print.
fn begins_with_one_sum(tree: &WindowTree) -> bool {
    match tree {
        WindowTree::Step {
            origin,
            item,
            rest,
            ..
        } => match item.dest() {
            Some(name) => *origin == 1 && tests_and_prints(rest, name),
            None => false,
        },
        _ => false,
    }
}

/// Whether the two sums become one above the test.
#[tactic(auto, using(crate::proofs::Small::opened_windows))]
fn unifies_sums(alloc: Global, window: Window) -> bool
    requires proper { IsProper (window_in window) }
    requires small { IsJustOpened window }
{
    let mut window = window;
    if why_not_unify(&window, &[], 0, 1, 0) != Some(MoveError::NotThere) {
        return false;
    }
    match unify(alloc, &mut window, &[], 0, 0, 0) {
        Ok(_) => begins_with_one_sum(&window.tree),
        Err(_) => false,
    }
}

#[test]
fn equal_items_become_one(rt: HostRuntime) -> Result<(), Fail> {
    let is_so = match first_window(rt.alloc(), &EQUAL_SUMS, NARROW) {
        Ok(window) => unifies_sums(rt.alloc(), window),
        Err(_) => false,
    };
    assert!(&rt; is_so);
    Ok(())
}

/// Tests with two items on the yes side and one on the no side, and why the second and that one may not become one.
const REFUSALS: [(&[Part], Option<MoveError>); 3] = [
    // The load of the element that is stored to before it, and of another one.
    (
        &[
            Part::Asks(9, Lit(1)),
            Part::Node,
            Part::Store(5, Lit(3), Lit(1)),
            Part::Load(6, 0, Lit(3)),
            Part::Stop,
            Part::Node,
            Part::Load(7, 1, Lit(3)),
            Part::Stop,
        ],
        Some(MoveError::MemoryOrder { origin: 5 }),
    ),
    (
        &[
            Part::Asks(9, Lit(1)),
            Part::Node,
            Part::Store(5, Lit(3), Lit(1)),
            Part::Load(6, 0, Lit(4)),
            Part::Stop,
            Part::Node,
            Part::Load(7, 1, Lit(4)),
            Part::Stop,
        ],
        None,
    ),
    // Loads of two elements.
    (
        &[
            Part::Asks(9, Lit(1)),
            Part::Node,
            Part::Store(5, Lit(3), Lit(1)),
            Part::Load(6, 0, Lit(4)),
            Part::Stop,
            Part::Node,
            Part::Load(7, 0, Lit(3)),
            Part::Stop,
        ],
        Some(MoveError::NotThere),
    ),
];

/// Why those items of a tree may not become one.
fn refusal(alloc: Global, parts: &[Part]) -> Result<Option<MoveError>, Untold> {
    let window = told_window(alloc, parts, NARROW)?;
    Ok(why_not_unify(&window, &[], 0, 1, 0))
}

#[test]
fn unifications_are_refused(rt: HostRuntime) -> Result<(), Fail> {
    for (number, (parts, why)) in REFUSALS.iter().enumerate() {
        assert!(rt; refusal(rt.alloc(), parts)? == *why, "{number}");
    }
    Ok(())
}
