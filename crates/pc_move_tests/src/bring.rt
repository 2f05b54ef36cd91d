//! What is brought into the front of a window by its place.
ghost use Rattle.std.specs.Prelude.{true};
ghost use Rattle.pc_window.specs.Steps.{IsProper};
ghost use Rattle.pc_window.specs.StoredWindow.{window_in, InNodes, IsJustOpened};

use crate::fill::list_origins;
use crate::tables::{CONFLICTS, EQUAL_SUMS, ONE_SUM};
use pc_fill::bring;
use pc_window::{Window, WindowError};
use pc_window_specimen::{ToldTable, Untold, first_window};
use pc_word::Limits;
use std::alloc::Global;
use std::test::Fail;

/// The origins of what stands in the front, once what stands at a place was brought there, alone or
/// with the twin at a place of the no side.
#[tactic(auto, using(crate::proofs::Small::opened_windows, pc_window::proofs::WindowsStored::in_nodes_behind))]
fn brought(
    alloc: Global,
    window: Window,
    place: u32,
    twin: Option<u32>,
) -> Result<Option<Vec<u32>>, WindowError>
    requires proper { IsProper (window_in window) }
    requires small { IsJustOpened window }
    requires nodes { InNodes true window.tree }
{
    let Some(window) = bring(alloc, window, place, twin)? else {
        return Ok(None);
    };
    let mut listed = Vec::new(alloc);
    list_origins(&window.tree, &mut listed)?;
    Ok(Some(listed))
}

/// A place of the first window of a table whose front has room for so many items, the place of its twin on the no side,
/// and what stands in the front once it is brought.
#[derive(Clone, Copy)]
struct Case {
    told: ToldTable,
    ops: u8,
    place: u32,
    twin: Option<u32>,
    origins: Option<&'static [u32]>,
}

/// The first load of the conflicts.
const LOAD: Case = Case {
    told: CONFLICTS,
    ops: 8,
    place: 1,
    twin: None,
    origins: Some(&[0, 1]),
};

/// The sum on the yes side, where both sums are of one node.
const SUM: Case = Case {
    told: ONE_SUM,
    ops: 1,
    place: 1,
    twin: None,
    origins: Some(&[0, 1]),
};

/// The front of the conflicts is the store 0, and that of the sums the test 0.
const CASES: [Case; 16] = [
    // The load of another element, the first print and the first test come over what stands before.
    LOAD,
    Case {
        place: 3,
        origins: Some(&[0, 3]),
        ..LOAD
    },
    Case {
        place: 5,
        origins: Some(&[0, 5]),
        ..LOAD
    },
    // The sum comes over both tests.
    Case {
        place: 7,
        origins: Some(&[0, 7]),
        ..LOAD
    },
    // The store stands in the front already.
    Case {
        place: 0,
        origins: None,
        ..LOAD
    },
    // The load of the element that is stored to, the second print, and the store below the tests are
    // not ready.
    Case {
        place: 2,
        origins: None,
        ..LOAD
    },
    Case {
        place: 4,
        origins: None,
        ..LOAD
    },
    Case {
        place: 8,
        origins: None,
        ..LOAD
    },
    // Nothing stands there.
    Case {
        place: 9,
        origins: None,
        ..LOAD
    },
    // Where items have no room a test comes all the same.
    Case {
        ops: 1,
        origins: None,
        ..LOAD
    },
    Case {
        ops: 1,
        place: 5,
        origins: Some(&[0, 5]),
        ..LOAD
    },
    // The sum comes alone to its side, or as one with its twin above the test.
    SUM,
    Case {
        twin: Some(0),
        origins: Some(&[1, 0]),
        ..SUM
    },
    // The print is no twin of the sum, nor is the sum of another node.
    Case {
        twin: Some(1),
        origins: None,
        ..SUM
    },
    Case {
        told: EQUAL_SUMS,
        twin: Some(0),
        origins: None,
        ..SUM
    },
    // The print reads what the sum gives.
    Case {
        place: 2,
        origins: None,
        ..SUM
    },
];

/// Whether these stand in the front then, or nothing was brought.
fn is_brought(alloc: Global, case: &Case) -> Result<bool, Untold> {
    if case.ops < 1 || case.ops > 8 {
        return Ok(false);
    }
    let limits = Limits {
        ops: case.ops,
        tests: 1,
        mem: 8,
    };
    let window = first_window(alloc, &case.told, limits)?;
    match (brought(alloc, window, case.place, case.twin)?, case.origins) {
        (Some(listed), Some(origins)) => Ok(listed.as_slice() == origins),
        (None, None) => Ok(true),
        _ => Ok(false),
    }
}

#[test]
fn what_is_ready_is_brought(rt: HostRuntime) -> Result<(), Fail> {
    for (number, case) in CASES.iter().enumerate() {
        assert!(rt; is_brought(rt.alloc(), case)?, "{number}");
    }
    Ok(())
}
