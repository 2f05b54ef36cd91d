//! How the window of an entry begins.
ghost use Rattle.std.specs.Prelude.{true};

use crate::left::{Held, listed, opened, stub};
use crate::shown::{are_facts, is_window};
use crate::tables::{LIMITS, TWO_REGIONS};
use pc_cert::Opening;
use pc_matching::FactList;
use pc_settling::{Begun, Remaining, begin, facts_at_start, laws_of_beginning};
use pc_table::RegionTable;
use pc_window_specimen::{Untold, table};
use pc_word::Operand;
use std::alloc::Global;
use std::test::Fail;

/// What is known at the entry, which copies 2 to x: registers 3 and 4 have 2 and 9, and register 5 has y.
const KNOWN: &[Held] = &[
    (Operand::Name(3), Operand::Lit(2)),
    (Operand::Name(4), Operand::Lit(9)),
    (Operand::Name(5), Operand::Name(1)),
];

/// The turn that the entry leads to, with the two ways to the next turn opened through the step, and there
/// the four to the one after it.
const UNWOUND: &str = "\
    0 1 Print { value: Name(1) }\n\
    behind\n\
    0 2 if Name(0)\n\
    0 4 Bin { op: Sub, dest: 96, left: Name(0), right: Lit(1) }\n\
    1 1 Print { value: Name(1) }\n\
    1 2 if Name(96)\n\
    1 4 Bin { op: Sub, dest: 98, left: Name(96), right: Lit(1) }\n\
    2 to region 1 with [Home { variable: 0, value: Name(98) }, Home { variable: 1, value: Name(1) }]\n\
    1 3 if Name(1)\n\
    1 4 Bin { op: Sub, dest: 99, left: Name(96), right: Lit(1) }\n\
    2 to region 1 with [Home { variable: 0, value: Name(99) }, Home { variable: 1, value: Name(1) }]\n\
    1 to region 3 with []\n\
    0 3 if Name(1)\n\
    0 4 Bin { op: Sub, dest: 97, left: Name(0), right: Lit(1) }\n\
    1 1 Print { value: Name(1) }\n\
    1 2 if Name(97)\n\
    1 4 Bin { op: Sub, dest: 100, left: Name(97), right: Lit(1) }\n\
    2 to region 1 with [Home { variable: 0, value: Name(100) }, Home { variable: 1, value: Name(1) }]\n\
    1 3 if Name(1)\n\
    1 4 Bin { op: Sub, dest: 101, left: Name(97), right: Lit(1) }\n\
    2 to region 1 with [Home { variable: 0, value: Name(101) }, Home { variable: 1, value: Name(1) }]\n\
    1 to region 3 with []\n\
    0 to region 3 with []\n";

/// What is known in the turn, of which the last of the four facts says that the third variable is 0, as
/// all others are that have no home.
const KNOWN_INSIDE: &str = "\
    Lit(2) has Name(0)\n\
    Name(3) has Name(0)\n\
    Name(5) has Name(1)\n\
    Lit(0) has Name(2)\n";

/// Whether the window that the entry leads to, and what is known there, are these: three facts of x and
/// y, and one of each of the other 94 variables.
fn is_unwound(alloc: Global, begun: &Begun) -> Result<bool, Untold> {
    if !is_window(alloc, &begun.window, UNWOUND)? {
        return Ok(false);
    }
    let facts = begun.facts.as_slice();
    Ok(begun.entered && facts.len() == 97 && are_facts(alloc, facts, 4, KNOWN_INSIDE)?)
}

/// Whether the entry is entered, and unwound to two turns.
fn enters_the_loop(alloc: Global, table: &RegionTable) -> Result<bool, Untold> {
    let opening = Opening {
        enters: true,
        window: 2,
        inside: Some(0),
    };
    let left = opened(alloc, table, 0, KNOWN)?;
    match begin(alloc, table, LIMITS, opening, left)? {
        Some(begun) => is_unwound(alloc, &begun),
        None => Ok(false),
    }
}

#[test]
fn a_stub_alone_is_entered_and_unwound(rt: HostRuntime) -> Result<(), Fail> {
    let table = table(rt.alloc(), &TWO_REGIONS)?;
    assert!(rt; enters_the_loop(rt.alloc(), &table)?);
    laws_of_beginning();
    Ok(())
}

/// The regions and tags of stubs alone that have no homes, whether they are entered, and whether an entry
/// begins so.
const BEGINNINGS: [(u32, u32, bool, bool); 7] = [
    (3, 1 << 29, false, true),
    // The tag is too great, but not in the region that is entered.
    (3, (1 << 29) + 1, false, false),
    (3, (1 << 29) + 1, true, true),
    // The step has two variables that are live.
    (2, 0, false, false),
    (2, 0, true, true),
    // There is no such region.
    (4, 0, false, false),
    (4, 0, true, false),
];

/// Whether an entry begins with such a stub.
fn begins(
    alloc: Global,
    table: &RegionTable,
    region: u32,
    tag: u32,
    enters: bool,
) -> Result<bool, Untold> {
    let opening = Opening {
        enters,
        window: 0,
        inside: None,
    };
    let window = stub(alloc, region, tag);
    let facts = FactList::new(alloc);
    let begun = begin(alloc, table, LIMITS, opening, Remaining { window, facts })?;
    Ok(begun.is_some())
}

#[test]
fn entries_begin_where_there_is_room(rt: HostRuntime) -> Result<(), Fail> {
    let table = table(rt.alloc(), &TWO_REGIONS)?;
    for (region, tag, enters, is_so) in BEGINNINGS {
        let begun = begins(rt.alloc(), &table, region, tag, enters)?;
        assert!(rt; begun == is_so, "{region} {tag} {enters}");
    }
    Ok(())
}

#[test]
fn all_is_zero_at_the_start(rt: HostRuntime) -> Result<(), Fail> {
    let facts = facts_at_start(rt.alloc(), 2)?;
    assert!(rt; facts.len() == 2 * 97 + 96);
    let wanted =
        "Lit(0) has Name(0)\nName(0) has Name(0)\nName(1) has Name(0)\nLit(0) has Name(1)\n";
    assert!(rt; are_facts(rt.alloc(), facts.as_slice(), 4, wanted)?);
    Ok(())
}
