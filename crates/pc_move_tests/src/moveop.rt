//! Items that move into the node above.
ghost use Rattle.pc_window.specs.Steps.{IsProper};
ghost use Rattle.pc_window.specs.StoredWindow.{window_in, IsJustOpened};

use crate::tables::{GUARDED_STORE, LIMITS};
use pc_moveop::{MoveError, RoomKind, move_op, why_not};
use pc_window::Window;
use pc_window_specimen::{Part, Untold, first_window, told_window};
use pc_word::Operand::{Lit, Name};
use pc_word::{Limits, OpCode};
use std::alloc::Global;
use std::test::Fail;

/// Why the store may not come into the front, once it has come into the node of its test.
#[tactic(auto, using(crate::proofs::Small::opened_windows))]
fn store_at_its_test(alloc: Global, window: Window) -> Option<MoveError>
    requires proper { IsProper (window_in window) }
    requires small { IsJustOpened window }
{
    let mut window = window;
    let test_node: [u16; 1] = [0];
    match move_op(alloc, &mut window, &test_node, 0, 0) {
        Ok(_) => why_not(&window, &[], 0, 1),
        Err(why) => Some(why),
    }
}

#[test]
fn a_store_stays_below_its_test(rt: HostRuntime) -> Result<(), Fail> {
    let why = match first_window(rt.alloc(), &GUARDED_STORE, LIMITS) {
        Ok(window) => store_at_its_test(rt.alloc(), window),
        Err(_) => None,
    };
    assert!(&rt; why == Some(MoveError::EffectAboveTest));
    Ok(())
}

/// Trees whose first item behind the first leaf of the front may not come into it, where the front has room for two items,
/// or may, and why not.
const REFUSALS: [(&[Part], Option<MoveError>); 6] = [
    // A load behind a store of its element, or of another.
    (
        &[
            Part::Store(5, Lit(3), Lit(1)),
            Part::Node,
            Part::Load(6, 0, Lit(3)),
            Part::Stop,
        ],
        Some(MoveError::MemoryOrder { origin: 5 }),
    ),
    (
        &[
            Part::Store(5, Lit(3), Lit(1)),
            Part::Node,
            Part::Load(6, 0, Lit(4)),
            Part::Stop,
        ],
        None,
    ),
    // A store behind a load.
    (
        &[
            Part::Load(5, 0, Lit(3)),
            Part::Node,
            Part::Store(6, Lit(3), Lit(1)),
            Part::Stop,
        ],
        None,
    ),
    // A print of what a load gives, and one behind another.
    (
        &[
            Part::Load(5, 0, Lit(3)),
            Part::Node,
            Part::Print(6, Name(0)),
            Part::Stop,
        ],
        Some(MoveError::Depends { name: 0 }),
    ),
    (
        &[
            Part::Print(5, Name(0)),
            Part::Node,
            Part::Print(6, Name(0)),
            Part::Stop,
        ],
        Some(MoveError::EffectOrder),
    ),
    // A third sum, where one stands on each side of a test.
    (
        &[
            Part::Asks(9, Lit(1)),
            Part::Bin(6, OpCode::Add, 1, Lit(1), Lit(2)),
            Part::Node,
            Part::Bin(7, OpCode::Add, 1, Lit(1), Lit(2)),
            Part::Stop,
            Part::Bin(5, OpCode::Add, 1, Lit(1), Lit(2)),
            Part::Stop,
        ],
        Some(MoveError::Full {
            kind: RoomKind::Ops,
        }),
    ),
];

/// Why that item of a tree may not come into the front.
fn refusal(alloc: Global, parts: &[Part]) -> Result<Option<MoveError>, Untold> {
    let limits = Limits {
        ops: 2,
        tests: 1,
        mem: 2,
    };
    let window = told_window(alloc, parts, limits)?;
    Ok(why_not(&window, &[], 0, 0))
}

#[test]
fn moves_are_refused(rt: HostRuntime) -> Result<(), Fail> {
    for (number, (parts, why)) in REFUSALS.iter().enumerate() {
        assert!(rt; refusal(rt.alloc(), parts)? == *why, "{number}");
    }
    Ok(())
}
