//! What is left at a leaf, settled.

use crate::left::{Held, settled, stub};
use crate::shown::{are_facts, is_window};
use crate::tables::{AFTER, LIMITS, STEP, TWO_REGIONS};
use pc_cert::Step;
use pc_machine::Leaf;
use pc_settling::{Remaining, ends_alike, laws_of_facts, laws_of_settling};
use pc_table::RegionTable;
use pc_window::WindowTree;
use pc_window_specimen::{Untold, bare, table};
use pc_word::{Operand, TrapKind};
use std::alloc::Global;
use std::test::Fail;

/// The step is entered at the next turn, for which x, which is 96 there, is copied to 97, and y to 98; the
/// difference alone is done. Register 0 has its value then, and register 1 that of y.
pub(crate) const STEPPED: (&[Step], &[Held]) = (
    &[Step::Enter { leaf: 0 }, Step::Bring { place: 1 }],
    &[
        (Operand::Name(0), Operand::Name(96)),
        (Operand::Name(1), Operand::Name(1)),
    ],
);

/// Behind it the copies go: first that of y, then that of x, each of which adds a fact.
const TURNED: (&str, &str) = (
    "0 1 Print { value: Name(98) }\n\
    behind\n\
    0 2 if Name(97)\n\
    0 to region 2 with [Home { variable: 0, value: Name(97) }, Home { variable: 1, value: Name(98) }]\n\
    0 3 if Name(98)\n\
    0 to region 2 with [Home { variable: 0, value: Name(97) }, Home { variable: 1, value: Name(98) }]\n\
    0 to region 3 with []\n",
    "Name(0) has Name(96)\n\
    Name(1) has Name(1)\n\
    Name(1) has Name(98)\n\
    Name(0) has Name(97)\n",
);

/// Behind the loop the print alone is done; the sum, which nothing uses, goes, and the end is left. What
/// is known of the sum stays.
const ENDED: (&[Step], &[Held]) = (
    &[Step::Bring { place: 1 }],
    &[(Operand::Name(0), Operand::Name(96))],
);

/// Whether what is left has this window and these facts.
fn is_left(alloc: Global, left: &Remaining, window: &str, facts: &str) -> Result<bool, Untold> {
    if !is_window(alloc, &left.window, window)? {
        return Ok(false);
    }
    Ok(are_facts(alloc, left.facts.as_slice(), 8, facts)?)
}

/// Whether what is left in a region's window, settled, is this.
fn settles(
    alloc: Global,
    table: &RegionTable,
    region: u32,
    done: (&[Step], &[Held]),
    wanted: (&str, &str),
) -> Result<bool, Untold> {
    let (steps, facts) = done;
    let (window, known) = wanted;
    match settled(alloc, table, region, steps, facts)? {
        Some(left) => is_left(alloc, &left, window, known),
        None => Ok(false),
    }
}

#[test]
fn what_is_left_is_settled(rt: HostRuntime) -> Result<(), Fail> {
    let alloc = rt.alloc();
    let table = table(alloc, &TWO_REGIONS)?;
    assert!(rt; settles(alloc, &table, STEP, STEPPED, TURNED)?);
    let ended = ("behind\nend\n", "Name(0) has Name(96)\n");
    assert!(rt; settles(alloc, &table, AFTER, ENDED, ended)?);
    laws_of_settling();
    laws_of_facts();
    Ok(())
}

/// A trap of a line.
const fn trapped(line: u32) -> Leaf {
    Leaf::Trap {
        kind: TrapKind::DivideByZero,
        line,
    }
}

#[test]
fn leaves_end_as_windows_do(rt: HostRuntime) -> Result<(), Fail> {
    let alloc = rt.alloc();
    let window = bare(alloc, WindowTree::Stop, LIMITS);
    assert!(rt; ends_alike(Leaf::Stop, &window));
    assert!(rt; !ends_alike(Leaf::Goto { row: 0 }, &window));
    assert!(rt; !ends_alike(trapped(3), &window));
    let trap = WindowTree::Trap {
        kind: TrapKind::DivideByZero,
        line: 3,
    };
    let window = bare(alloc, trap, LIMITS);
    assert!(rt; ends_alike(trapped(3), &window));
    assert!(rt; !ends_alike(trapped(4), &window));
    assert!(rt; !ends_alike(Leaf::Stop, &stub(alloc, AFTER, 0)));
    Ok(())
}
