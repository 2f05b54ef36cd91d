//! Moves of registers that are arranged as rows.
ghost use Rattle.std.specs.Prelude.{◌≡◌, ◌≤◌, true};
ghost use Rattle.pc_code_tests.specs.Given.{are_given};

use pc_copies::{CopyError, Move, arrange};
use pc_word::Operand::{Lit, Name};
use std::alloc::Global;
use std::test::Fail;

/// Whether moves are arranged as these rows.
#[tactic(auto, using(crate::proofs::Given::given_moves))]
fn gives_through(
    alloc: Global,
    scratch: u8,
    moves: &[Move],
    ops: u8,
    rows: &[&[Move]],
) -> Result<bool, CopyError>
    requires moves { are_given scratch moves.now ≡ true }
    requires ops { 1 ≤ ops }
{
    let arranged = arrange(alloc, moves, ops, scratch)?;
    if arranged.len() != rows.len() {
        return Ok(false);
    }
    for (row, wanted) in arranged.as_slice().iter().zip(rows.iter()) {
        if row.as_slice() != *wanted {
            return Ok(false);
        }
    }
    Ok(true)
}

/// Whether moves are arranged as these rows, with register 127 as scratch.
fn gives(alloc: Global, moves: &[Move], ops: u8, rows: &[&[Move]]) -> Result<bool, CopyError>
    requires moves { are_given 127 moves.now ≡ true }
    requires ops { 1 ≤ ops }
{
    gives_through(alloc, 127, moves, ops, rows)
}

/// The copy of a register.
fn copy(dest: u32, from: u32) -> Move {
    Move {
        dest,
        from: Name(from),
    }
}

/// Two registers change places.
const SWAP: [Move; 2] = [
    Move {
        dest: 0,
        from: Name(1),
    },
    Move {
        dest: 1,
        from: Name(0),
    },
];

/// Three registers change places.
const RING: [Move; 3] = [
    Move {
        dest: 0,
        from: Name(1),
    },
    Move {
        dest: 1,
        from: Name(2),
    },
    Move {
        dest: 2,
        from: Name(0),
    },
];

/// One register goes to two, and takes another value.
const FAN: [Move; 3] = [
    Move {
        dest: 1,
        from: Name(0),
    },
    Move {
        dest: 2,
        from: Name(0),
    },
    Move {
        dest: 0,
        from: Name(3),
    },
];

/// A register takes a literal, and another one what it had.
const LITERAL: [Move; 2] = [
    Move {
        dest: 0,
        from: Lit(7),
    },
    Move {
        dest: 1,
        from: Name(0),
    },
];

/// Two registers change places, one goes to a third, one stays.
const MIXED: [Move; 4] = [
    Move {
        dest: 0,
        from: Name(1),
    },
    Move {
        dest: 1,
        from: Name(0),
    },
    Move {
        dest: 2,
        from: Name(0),
    },
    Move {
        dest: 5,
        from: Name(5),
    },
];

/// A register stays as it is.
const ITSELF: [Move; 1] = [Move {
    dest: 5,
    from: Name(5),
}];

#[test]
fn cycles_go_through_scratch_or_into_one_row(rt: HostRuntime) -> Result<(), Fail> {
    let alloc = rt.alloc();
    let one_by_one: [&[Move]; 3] = [&[copy(127, 0)], &[copy(0, 1)], &[copy(1, 127)]];
    assert!(rt; gives(alloc, &SWAP, 1, &one_by_one)?);
    assert!(rt; gives(alloc, &SWAP, 2, &[&SWAP])?);
    let broken: [&[Move]; 2] = [&[copy(0, 1), copy(127, 0)], &[copy(2, 127), copy(1, 2)]];
    assert!(rt; gives(alloc, &RING, 2, &broken)?);
    assert!(rt; gives(alloc, &RING, 3, &[&RING])?);
    let behind: [&[Move]; 2] = [&[copy(2, 0)], &SWAP];
    assert!(rt; gives(alloc, &MIXED, 2, &behind)?);
    Ok(())
}

/// Two registers above 127 change places.
const HIGH: [Move; 2] = [
    Move {
        dest: 127,
        from: Name(254),
    },
    Move {
        dest: 254,
        from: Name(127),
    },
];

#[test]
fn registers_above_127_go_through_the_last(rt: HostRuntime) -> Result<(), Fail> {
    let alloc = rt.alloc();
    let one_by_one: [&[Move]; 3] = [&[copy(255, 127)], &[copy(127, 254)], &[copy(254, 255)]];
    assert!(rt; gives_through(alloc, 255, &HIGH, 1, &one_by_one)?);
    assert!(rt; gives_through(alloc, 255, &HIGH, 2, &[&HIGH])?);
    Ok(())
}

#[test]
fn registers_are_read_before_they_are_written(rt: HostRuntime) -> Result<(), Fail> {
    let alloc = rt.alloc();
    let fan: [&[Move]; 3] = [&[copy(2, 0)], &[copy(1, 0)], &[copy(0, 3)]];
    assert!(rt; gives(alloc, &FAN, 1, &fan)?);
    let literal = Move {
        dest: 0,
        from: Lit(7),
    };
    let read_first: [&[Move]; 2] = [&[copy(1, 0)], &[literal]];
    assert!(rt; gives(alloc, &LITERAL, 1, &read_first)?);
    Ok(())
}

#[test]
fn moves_to_themselves_are_dropped(rt: HostRuntime) -> Result<(), Fail> {
    let alloc = rt.alloc();
    assert!(rt; gives(alloc, &ITSELF, 1, &[])?);
    assert!(rt; gives(alloc, &[], 1, &[])?);
    Ok(())
}
