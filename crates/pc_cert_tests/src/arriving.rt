//! Whether what is left arrives at a claim, with the facts of the claim's entry.
ghost use Rattle.std.specs.Prelude.{true, IfOk, IfSome};
ghost use Rattle.pc_canon.specs.Keyed.{HasKey};
ghost use Rattle.pc_settling.specs.Stored.{IsLeft};

use crate::left::{Held, opened, settled, stub};
use crate::settling::STEPPED;
use crate::shown::are_facts;
use crate::tables::{AFTER, LIMITS, STEP, TURN, TWO_REGIONS};
use pc_cert::{Fact, Opening, Source, WindowOperand};
use pc_settling::{
    Begun, Remaining, arrives, begin, facts_of_entry, laws_of_arriving, laws_of_leaves, progress,
};
use pc_table::RegionTable;
use pc_window::WindowTree;
use pc_window_specimen::{Untold, bare, table};
use pc_word::{Item, Operand};
use std::alloc::{AllocError, Global};
use std::test::Fail;

/// What an entry in the loop begins with, as it is left.
fn begun(
    alloc: Global,
    table: &RegionTable,
    left: Option<Remaining>,
) -> Result<Option<Begun>, Untold>
    requires { IfSome left (λ it. IsLeft it.window) }
    ensures { IfOk result (λ begun. IfSome begun (λ it. HasKey it.window)) }
{
    let opening = Opening {
        enters: false,
        window: 0,
        inside: Some(0),
    };
    match left {
        Some(left) => Ok(begin(alloc, table, LIMITS, opening, left)?),
        None => Ok(None),
    }
}

/// Claims by their regions and facts, and whether the turn that is left behind the step arrives there: x
/// and y are 97 and 98 in its window, and 0 and 1 in that of the claim.
const CLAIMS: [(u32, &[Held], bool); 6] = [
    (TURN, &[], true),
    (
        TURN,
        &[
            (Operand::Name(0), Operand::Name(0)),
            (Operand::Name(1), Operand::Name(1)),
        ],
        true,
    ),
    // Registers 0 and 2 do not have y, and 96 is no parameter of the claim.
    (TURN, &[(Operand::Name(0), Operand::Name(1))], false),
    (TURN, &[(Operand::Name(2), Operand::Name(1))], false),
    (TURN, &[(Operand::Name(0), Operand::Name(96))], false),
    // The windows are unlike.
    (STEP, &[], false),
];

/// Whether what is left arrives at a claim of a region with these facts, whose window has wide limits, as
/// each has that steps arranged.
fn arrives_at(
    alloc: Global,
    table: &RegionTable,
    here: &Begun,
    region: u32,
    facts: &[Held],
) -> Result<bool, Untold>
    requires { HasKey here.now.window }
{
    let left = settled(alloc, table, region, &[], facts)?;
    let Some(claim) = begun(alloc, table, left)? else {
        return Ok(false);
    };
    let held = here.facts.as_slice();
    let is_so = arrives(
        alloc,
        &here.window,
        held,
        &claim.window,
        claim.facts.as_slice(),
    )?;
    Ok(is_so)
}

/// Whether the turn that is left behind the step arrives so at a claim.
fn arrives_behind_step(
    alloc: Global,
    table: &RegionTable,
    region: u32,
    facts: &[Held],
) -> Result<Option<bool>, Untold> {
    let (steps, known) = STEPPED;
    let left = settled(alloc, table, STEP, steps, known)?;
    match begun(alloc, table, left)? {
        Some(here) => Ok(Some(arrives_at(alloc, table, &here, region, facts)?)),
        None => Ok(None),
    }
}

#[test]
fn what_is_left_arrives_at_claims(rt: HostRuntime) -> Result<(), Fail> {
    let table = table(rt.alloc(), &TWO_REGIONS)?;
    for (region, facts, is_so) in CLAIMS {
        let found = arrives_behind_step(rt.alloc(), &table, region, facts)?;
        assert!(rt; found == Some(is_so), "{region} {facts:?}");
    }
    laws_of_arriving();
    laws_of_leaves();
    Ok(())
}

/// Facts of an entry on a window of the turn, whose parameters are y and x in the order of first use.
const FACTS: [Fact; 3] = [
    Fact {
        source: Source::Register(3),
        operand: WindowOperand::Parameter(0),
    },
    Fact {
        source: Source::Literal(5),
        operand: WindowOperand::Parameter(1),
    },
    Fact {
        source: Source::Register(2),
        operand: WindowOperand::Literal(-7),
    },
];

/// The same on its names.
const FACTS_ON_NAMES: &str = "\
    Name(3) has Name(1)\n\
    Lit(5) has Name(0)\n\
    Name(2) has Lit(-7)\n";

/// Whether the facts of an entry on the turn's window are these, or there are none.
fn are_facts_of_entry(
    alloc: Global,
    table: &RegionTable,
    facts: &[Fact],
    wanted: Option<&str>,
) -> Result<bool, Untold> {
    let left = opened(alloc, table, TURN, &[])?;
    let Some(turn) = begun(alloc, table, Some(left))? else {
        return Ok(false);
    };
    match (facts_of_entry(alloc, &turn.window, facts)?, wanted) {
        (Some(found), Some(wanted)) => Ok(are_facts(alloc, found.as_slice(), 8, wanted)?),
        (None, None) => Ok(true),
        _ => Ok(false),
    }
}

#[test]
fn facts_of_entries_are_on_parameters(rt: HostRuntime) -> Result<(), Fail> {
    let table = table(rt.alloc(), &TWO_REGIONS)?;
    let wanted = Some(FACTS_ON_NAMES);
    assert!(rt; are_facts_of_entry(rt.alloc(), &table, &FACTS, wanted)?);
    let third = Fact {
        source: Source::Register(0),
        operand: WindowOperand::Parameter(2),
    };
    assert!(rt; are_facts_of_entry(rt.alloc(), &table, &[third], None)?);
    Ok(())
}

/// A print with a tag, and the end.
fn print_tree(alloc: Global, tag: u32) -> Result<WindowTree, AllocError> {
    let print = Item::Print {
        value: Operand::Lit(7),
    };
    Ok(WindowTree::Step {
        tag,
        origin: 6,
        item: print,
        rest: Box::new(alloc, WindowTree::Stop)?,
    })
}

#[test]
fn progress_is_found(rt: HostRuntime) -> Result<(), Fail> {
    let window = stub(rt.alloc(), AFTER, 5);
    assert!(rt; window.front_tag() == 5);
    // The rank falls, or the tag is greater, or neither.
    assert!(rt; progress(2, 9, 1, &window));
    assert!(rt; progress(1, 4, 1, &window));
    assert!(rt; !progress(1, 5, 1, &window));
    // The tag is greater, but neither a test nor a stub is left.
    let tree = print_tree(rt.alloc(), 5)?;
    let window = bare(rt.alloc(), tree, LIMITS);
    assert!(rt; !progress(1, 4, 1, &window));
    Ok(())
}
