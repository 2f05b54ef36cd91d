//! What steps make of the window of the loop's turn.

use crate::shown::is_window;
use crate::tables::{STEP, TURN, TWO_REGIONS, arranged};
use pc_arranging::laws_of_arranging;
use pc_cert::Step;
use pc_table::RegionTable;
use pc_window_specimen::{Untold, table};
use std::alloc::Global;
use std::test::Fail;

/// With no step nothing is in the front. Places are 0 for the print, 1 and 2 for the tests; leaves are
/// the two ways to the step and the one out of the loop.
const BEGUN: (&[Step], &str) = (
    &[],
    "behind\n\
    0 1 Print { value: Name(1) }\n\
    0 2 if Name(0)\n\
    0 to region 2 with [Home { variable: 0, value: Name(0) }, Home { variable: 1, value: Name(1) }]\n\
    0 3 if Name(1)\n\
    0 to region 2 with [Home { variable: 0, value: Name(0) }, Home { variable: 1, value: Name(1) }]\n\
    0 to region 3 with []\n",
);

/// The first test comes over the print, which then stands on both sides.
const BROUGHT: (&[Step], &str) = (
    &[Step::Bring { place: 1 }],
    "0 2 if Name(0)\n\
    behind\n\
    0 1 Print { value: Name(1) }\n\
    0 to region 2 with [Home { variable: 0, value: Name(0) }, Home { variable: 1, value: Name(1) }]\n\
    behind\n\
    0 1 Print { value: Name(1) }\n\
    0 3 if Name(1)\n\
    0 to region 2 with [Home { variable: 0, value: Name(0) }, Home { variable: 1, value: Name(1) }]\n\
    0 to region 3 with []\n",
);

/// The second way to the step becomes the step, before the next turn, at the next tag; the front begins
/// anew.
const OPENED: (&[Step], &str) = (
    &[Step::Bring { place: 0 }, Step::Open { leaf: 1 }],
    "behind\n\
    0 1 Print { value: Name(1) }\n\
    0 2 if Name(0)\n\
    0 to region 2 with [Home { variable: 0, value: Name(0) }, Home { variable: 1, value: Name(1) }]\n\
    0 3 if Name(1)\n\
    0 4 Bin { op: Sub, dest: 96, left: Name(0), right: Lit(1) }\n\
    1 to region 1 with [Home { variable: 0, value: Name(96) }, Home { variable: 1, value: Name(1) }]\n\
    0 to region 3 with []\n",
);

/// Both ways to the step are opened, as the differences 96 and 97. These become one above the first
/// test, 98, of which the second comes up over the second test.
const JOINED: (&[Step], &str) = (
    &[
        Step::Open { leaf: 0 },
        Step::Open { leaf: 1 },
        Step::Bring { place: 0 },
        Step::Bring { place: 1 },
        Step::Join {
            branch: 1,
            on_yes: 2,
            on_no: 4,
        },
    ],
    "0 1 Print { value: Name(1) }\n\
    0 4 Bin { op: Sub, dest: 98, left: Name(0), right: Lit(1) }\n\
    0 2 if Name(0)\n\
    behind\n\
    1 to region 1 with [Home { variable: 0, value: Name(98) }, Home { variable: 1, value: Name(1) }]\n\
    behind\n\
    0 3 if Name(1)\n\
    1 to region 1 with [Home { variable: 0, value: Name(98) }, Home { variable: 1, value: Name(1) }]\n\
    0 to region 3 with []\n",
);

/// The next turn is entered behind the step: x, which is 96 there, is copied to 97 below the difference
/// that gives it, and y to 98 at the root.
const ENTERED: (&[Step], &str) = (
    &[Step::Open { leaf: 0 }, Step::Enter { leaf: 0 }],
    "behind\n\
    1 0 Copy { dest: 98, from: Name(1) }\n\
    0 1 Print { value: Name(1) }\n\
    0 2 if Name(0)\n\
    0 4 Bin { op: Sub, dest: 96, left: Name(0), right: Lit(1) }\n\
    1 0 Copy { dest: 97, from: Name(96) }\n\
    1 1 Print { value: Name(98) }\n\
    1 2 if Name(97)\n\
    1 to region 2 with [Home { variable: 0, value: Name(97) }, Home { variable: 1, value: Name(98) }]\n\
    1 3 if Name(98)\n\
    1 to region 2 with [Home { variable: 0, value: Name(97) }, Home { variable: 1, value: Name(98) }]\n\
    1 to region 3 with []\n\
    0 3 if Name(1)\n\
    0 to region 2 with [Home { variable: 0, value: Name(0) }, Home { variable: 1, value: Name(1) }]\n\
    0 to region 3 with []\n",
);

/// The step is entered, for which x is copied to 96 and y to 97. The print and the first test, parts 2
/// and 3, then read the copies; the difference and the stub below it, parts 4 and 5, what is copied.
const USED: (&[Step], &str) = (
    &[
        Step::Enter { leaf: 0 },
        Step::Use { copy: 0, place: 2 },
        Step::Use { copy: 1, place: 3 },
        Step::Use { copy: 1, place: 4 },
        Step::Use { copy: 0, place: 5 },
    ],
    "behind\n\
    0 0 Copy { dest: 97, from: Name(1) }\n\
    0 0 Copy { dest: 96, from: Name(0) }\n\
    0 1 Print { value: Name(97) }\n\
    0 2 if Name(96)\n\
    0 4 Bin { op: Sub, dest: 98, left: Name(0), right: Lit(1) }\n\
    0 to region 1 with [Home { variable: 0, value: Name(98) }, Home { variable: 1, value: Name(1) }]\n\
    0 3 if Name(1)\n\
    0 to region 2 with [Home { variable: 0, value: Name(0) }, Home { variable: 1, value: Name(1) }]\n\
    0 to region 3 with []\n",
);

/// Steps of which the last is not legal.
const REFUSED: [&[Step]; 12] = [
    // There is no such place, another test stands before it, or it is in the front already.
    &[Step::Bring { place: 3 }],
    &[Step::Bring { place: 2 }],
    &[Step::Bring { place: 0 }, Step::Bring { place: 0 }],
    // The difference and the second test, or the difference and the sum behind the loop, are not alike;
    // or the test is not in the front.
    &[
        Step::Open { leaf: 0 },
        Step::Bring { place: 0 },
        Step::Bring { place: 1 },
        Step::Join {
            branch: 1,
            on_yes: 2,
            on_no: 3,
        },
    ],
    &[
        Step::Open { leaf: 0 },
        Step::Enter { leaf: 2 },
        Step::Bring { place: 0 },
        Step::Bring { place: 1 },
        Step::Join {
            branch: 1,
            on_yes: 2,
            on_no: 4,
        },
    ],
    &[
        Step::Open { leaf: 0 },
        Step::Open { leaf: 1 },
        Step::Bring { place: 0 },
        Step::Join {
            branch: 1,
            on_yes: 2,
            on_no: 4,
        },
    ],
    // The stub leads out of the loop, or there is none.
    &[Step::Open { leaf: 2 }],
    &[Step::Open { leaf: 3 }],
    &[Step::Enter { leaf: 3 }],
    // The print is no copy, the first copy does not stand below the second, or there is no such part.
    &[Step::Enter { leaf: 0 }, Step::Use { copy: 2, place: 4 }],
    &[Step::Enter { leaf: 0 }, Step::Use { copy: 1, place: 0 }],
    &[Step::Enter { leaf: 0 }, Step::Use { copy: 1, place: 9 }],
];

/// Whether steps make this of the window of the turn.
fn arranges(
    alloc: Global,
    table: &RegionTable,
    steps: &[Step],
    wanted: &str,
) -> Result<bool, Untold> {
    match arranged(alloc, table, TURN, steps)? {
        Some(window) => Ok(is_window(alloc, &window, wanted)?),
        None => Ok(false),
    }
}

/// Whether steps are refused in the window of a region.
fn refuses(
    alloc: Global,
    table: &RegionTable,
    region: u32,
    steps: &[Step],
) -> Result<bool, Untold> {
    match arranged(alloc, table, region, steps)? {
        Some(_) => Ok(false),
        None => Ok(true),
    }
}

#[test]
fn steps_arrange_windows(rt: HostRuntime) -> Result<(), Fail> {
    let table = table(rt.alloc(), &TWO_REGIONS)?;
    for (steps, wanted) in [BEGUN, BROUGHT, OPENED, JOINED, ENTERED, USED] {
        assert!(rt; arranges(rt.alloc(), &table, steps, wanted)?, "{steps:?}");
    }
    laws_of_arranging();
    Ok(())
}

#[test]
fn steps_are_refused(rt: HostRuntime) -> Result<(), Fail> {
    let table = table(rt.alloc(), &TWO_REGIONS)?;
    for steps in REFUSED {
        assert!(rt; refuses(rt.alloc(), &table, TURN, steps)?, "{steps:?}");
    }
    // The window of the step has no loop, so no stub is opened there.
    assert!(rt; refuses(rt.alloc(), &table, STEP, &[Step::Open { leaf: 0 }])?);
    Ok(())
}
