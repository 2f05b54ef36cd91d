//! Why what stands behind a filled front waits.
ghost use Rattle.pc_word.specs.Ranges.{AreLimits};

use crate::tables::{CONFLICTS, EQUAL_SUMS, LIMITS};
use pc_fill::{fill, law_of_opened_windows};
use pc_waiting::{Waiting, what_waits};
use pc_window_specimen::{ToldTable, Untold, first_window};
use pc_word::Limits;
use std::alloc::{AllocError, Global};
use std::test::Fail;

/// A line for each entry: its origin, and its obstacle.
fn entries_text(alloc: Global, entries: &[Waiting]) -> Result<String, AllocError> {
    let mut text = String::new(alloc);
    for entry in entries.iter() {
        let line = format!(in alloc; "{} {:?}\n", entry.origin, entry.obstacle)?;
        text.push_str(line.as_str())?;
    }
    Ok(text)
}

/// What waits once the first window of a table was filled.
#[tactic(auto, using(pc_fill::proofs::Opened::opened_windows))]
fn waits(alloc: Global, told: &ToldTable, limits: Limits) -> Result<String, Untold>
    requires { AreLimits limits }
{
    let window = first_window(alloc, told, limits)?;
    let window = fill(alloc, window)?;
    let entries = what_waits(alloc, &window, 0)?;
    let text = entries_text(alloc, entries.as_slice())?;
    Ok(text)
}

/// Whether this waits.
fn waits_so(alloc: Global, told: &ToldTable, limits: Limits, entries: &str) -> bool
    requires { AreLimits limits }
{
    match waits(alloc, told, limits) {
        Ok(text) => text.as_str() == entries,
        Err(_) => false,
    }
}

/// Behind the yes side of the first test, and behind its no side: the load of the element that is stored, the second print, and below
/// the first test alone the second one and the store.
const ONE_TEST: &str = "2 Meets { iteration: 0, origin: 0 }
4 Meets { iteration: 0, origin: 3 }
6 NoRoom { resource: Tests }
8 Undecided { iteration: 0, origin: 6 }
2 Meets { iteration: 0, origin: 0 }
4 Meets { iteration: 0, origin: 3 }
";

/// The same where there is room for two items: the first print, which stands before the second one, and the sum have none.
const TWO_ITEMS: &str = "2 Meets { iteration: 0, origin: 0 }
3 NoRoom { resource: Items }
4 Meets { iteration: 0, origin: 3 }
6 NoRoom { resource: Tests }
7 NoRoom { resource: Items }
8 Undecided { iteration: 0, origin: 6 }
2 Meets { iteration: 0, origin: 0 }
3 NoRoom { resource: Items }
4 Meets { iteration: 0, origin: 3 }
";

/// Each print waits for the sum of its side.
const SUMS: &str = "2 Needs { iteration: 0, origin: 1 }
4 Needs { iteration: 0, origin: 3 }
";

#[test]
fn what_waits_says_why(rt: HostRuntime) -> Result<(), Fail> {
    law_of_opened_windows();
    let alloc = rt.alloc();
    let wide = Limits {
        ops: 8,
        tests: 1,
        mem: 8,
    };
    assert!(&rt; waits_so(alloc, &CONFLICTS, wide, ONE_TEST));
    let narrow = Limits {
        ops: 2,
        tests: 1,
        mem: 8,
    };
    assert!(&rt; waits_so(alloc, &CONFLICTS, narrow, TWO_ITEMS));
    assert!(&rt; waits_so(alloc, &EQUAL_SUMS, LIMITS, SUMS));
    Ok(())
}
