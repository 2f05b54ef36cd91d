//! Rows that are made compact.

use pc_machine::well_formed;
use pc_specimen::{End, code, rows_text};
use pc_tighten::{TightenError, tighten};
use pc_word::{Item, Operand};
use std::alloc::Global;
use std::test::Fail;

/// The lengths of two arrays.
const ARRAYS: [u32; 2] = [8, 8];

/// The text of the rows of a code once it is tightened, if it is well formed.
fn tightened(alloc: Global, rows: &[(&[Item], End)]) -> Result<Option<String>, TightenError> {
    let code = code(alloc, &ARRAYS, rows)?;
    if well_formed(&code).is_some() {
        return Ok(None);
    }
    let code = tighten(alloc, code)?;
    Ok(Some(rows_text(alloc, &code)?))
}

const A: Item = Item::Copy {
    dest: 1,
    from: Operand::Name(2),
};

const B: Item = Item::Copy {
    dest: 3,
    from: Operand::Name(4),
};

const C: Item = Item::Copy {
    dest: 5,
    from: Operand::Name(6),
};

const D: Item = Item::Copy {
    dest: 7,
    from: Operand::Name(8),
};

const AFTER_A: Item = Item::Copy {
    dest: 10,
    from: Operand::Name(1),
};

const OVER_B: Item = Item::Copy {
    dest: 4,
    from: Operand::Name(11),
};

const LOAD: Item = Item::Load {
    dest: 12,
    array: 0,
    index: Operand::Lit(0),
};

const STORE: Item = Item::Store {
    array: 0,
    index: Operand::Lit(0),
    value: Operand::Name(13),
};

const OTHER: Item = Item::Store {
    array: 1,
    index: Operand::Lit(0),
    value: Operand::Name(13),
};

const FLAG: Item = Item::Copy {
    dest: 9,
    from: Operand::Name(14),
};

const PRINT: Item = Item::Print {
    value: Operand::Name(1),
};

const READ: Item = Item::Read { dest: 15 };

/// Codes, and the rows that are due.
static CODES: [(&[(&[Item], End)], &[(&[Item], End)]); 14] = [
    // items climb, one of them two rows, and the row that is left as a goto alone goes
    (
        &[(&[], End::Goto(1)), (&[A], End::Goto(2)), (&[B], End::Stop)],
        &[(&[A, B], End::Goto(1)), (&[], End::Stop)],
    ),
    // a row has room for three
    (
        &[(&[A, B], End::Goto(1)), (&[C, D], End::Stop)],
        &[(&[A, B, C], End::Goto(1)), (&[D], End::Stop)],
    ),
    // what reads a register stays below what writes it
    (
        &[(&[A], End::Goto(1)), (&[AFTER_A], End::Stop)],
        &[(&[A], End::Goto(1)), (&[AFTER_A], End::Stop)],
    ),
    // what writes a register goes up after what reads it there
    (
        &[(&[A], End::Goto(1)), (&[B, OVER_B], End::Stop)],
        &[(&[A, B, OVER_B], End::Goto(1)), (&[], End::Stop)],
    ),
    // a load stays below a store to its array, and a store goes beside a load of its array
    (
        &[
            (&[STORE], End::Goto(1)),
            (&[LOAD], End::Goto(2)),
            (&[STORE], End::Stop),
        ],
        &[
            (&[STORE], End::Goto(1)),
            (&[LOAD, STORE], End::Goto(2)),
            (&[], End::Stop),
        ],
    ),
    // a row has room for two loads and stores
    (
        &[(&[LOAD, OTHER], End::Goto(1)), (&[STORE], End::Stop)],
        &[(&[LOAD, OTHER], End::Goto(1)), (&[STORE], End::Stop)],
    ),
    // what a test of its row reads stays
    (
        &[
            (&[A], End::Goto(1)),
            (&[FLAG, B], End::Fork(2, 3)),
            (&[], End::Stop),
            (&[], End::Stop),
        ],
        &[
            (&[A, B], End::Goto(1)),
            (&[FLAG], End::Fork(2, 3)),
            (&[], End::Stop),
            (&[], End::Stop),
        ],
    ),
    // a row to which two leaves lead keeps its items
    (
        &[(&[], End::Fork(1, 1)), (&[A], End::Stop)],
        &[(&[], End::Fork(1, 1)), (&[A], End::Stop)],
    ),
    // row 0 stays, also where one leaf alone leads to it
    (
        &[(&[A], End::Goto(1)), (&[B], End::Goto(0))],
        &[(&[A, B], End::Goto(0))],
    ),
    // of prints, reads and questions for more a path has one
    (
        &[(&[PRINT], End::Goto(1)), (&[READ, B], End::Stop)],
        &[(&[PRINT, B], End::Goto(1)), (&[READ], End::Stop)],
    ),
    // two rows that are left empty go, and a leaf is sent past both
    (
        &[
            (&[A], End::Goto(1)),
            (&[B], End::Goto(2)),
            (&[C], End::Goto(3)),
            (&[D], End::Fork(0, 3)),
        ],
        &[(&[A, B, C], End::Goto(1)), (&[D], End::Fork(0, 1))],
    ),
    // a row that is a goto alone goes before an item below a full row could come to stand in it
    (
        &[
            (&[A, B, C], End::Goto(1)),
            (&[], End::Goto(2)),
            (&[D], End::Stop),
        ],
        &[(&[A, B, C], End::Goto(1)), (&[D], End::Stop)],
    ),
    // gotos that lead further up go one after another
    (
        &[
            (&[], End::Fork(3, 4)),
            (&[], End::Stop),
            (&[], End::Goto(1)),
            (&[], End::Goto(2)),
            (&[], End::Goto(0)),
        ],
        &[(&[], End::Fork(1, 0)), (&[], End::Stop)],
    ),
    // of gotos in a ring one is left, which leads to itself, and row 0 stays
    (
        &[
            (&[], End::Goto(2)),
            (&[], End::Goto(2)),
            (&[], End::Goto(1)),
        ],
        &[(&[], End::Goto(1)), (&[], End::Goto(1))],
    ),
];

#[test]
fn codes(rt: HostRuntime) -> Result<(), Fail> {
    let alloc = rt.alloc();
    for (i, (before, after)) in CODES.iter().enumerate() {
        let found = tightened(alloc, before)?;
        let due = rows_text(alloc, &code(alloc, &ARRAYS, after)?)?;
        assert!(rt;
            found.as_ref().map(|text| text.as_str()) == Some(due.as_str()),
            "code {i}: {found:?}"
        );
    }
    Ok(())
}
