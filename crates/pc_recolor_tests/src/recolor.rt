//! Rows whose registers are chosen anew.

use pc_machine::well_formed;
use pc_recolor::recolor_and_tighten;
use pc_settled::is_settled;
use pc_specimen::{End, code, rows_text};
use pc_word::{Item, OpCode, Operand, OutOfMemory};
use std::alloc::Global;
use std::test::Fail;

/// Whether rows are well formed, and with registers chosen anew and tightened are these.
fn gives(
    alloc: Global,
    rows: &[(&[Item], End)],
    due: &[(&[Item], End)],
) -> Result<bool, OutOfMemory> {
    let before = code(alloc, &[8], rows)?;
    if well_formed(&before).is_some() {
        return Ok(false);
    }
    let made = recolor_and_tighten(alloc, before, 1000)?;
    let wanted = code(alloc, &[8], due)?;
    Ok(rows_text(alloc, &made)? == rows_text(alloc, &wanted)?)
}

/// Whether rows are found settled as they stand.
fn are_settled(alloc: Global, rows: &[(&[Item], End)]) -> Result<bool, OutOfMemory> {
    let code = code(alloc, &[8], rows)?;
    let settled = is_settled(alloc, code.rows.as_slice())?;
    Ok(settled)
}

const SET_FOUR_TO_ONE: Item = Item::Copy {
    dest: 4,
    from: Operand::Lit(1),
};

const ADD_ONE_TO_FOUR_GIVING_FIVE: Item = Item::Bin {
    op: OpCode::Add,
    dest: 5,
    left: Operand::Name(4),
    right: Operand::Lit(1),
};

const PRINT_FOUR: Item = Item::Print {
    value: Operand::Name(4),
};

const COPY_FIVE_TO_FOUR: Item = Item::Copy {
    dest: 4,
    from: Operand::Name(5),
};

const SET_ZERO_TO_ONE: Item = Item::Copy {
    dest: 0,
    from: Operand::Lit(1),
};

const ADD_ONE_TO_ZERO_GIVING_ZERO: Item = Item::Bin {
    op: OpCode::Add,
    dest: 0,
    left: Operand::Name(0),
    right: Operand::Lit(1),
};

const PRINT_ZERO: Item = Item::Print {
    value: Operand::Name(0),
};

const SET_FIVE_TO_SEVEN: Item = Item::Copy {
    dest: 5,
    from: Operand::Lit(7),
};

const COPY_FIVE_TO_SIX: Item = Item::Copy {
    dest: 6,
    from: Operand::Name(5),
};

const ADD_ONE_TO_FIVE_GIVING_FIVE: Item = Item::Bin {
    op: OpCode::Add,
    dest: 5,
    left: Operand::Name(5),
    right: Operand::Lit(1),
};

const PRINT_SIX: Item = Item::Print {
    value: Operand::Name(6),
};

const PRINT_FIVE: Item = Item::Print {
    value: Operand::Name(5),
};

const SET_ZERO_TO_SEVEN: Item = Item::Copy {
    dest: 0,
    from: Operand::Lit(7),
};

const COPY_ZERO_TO_ONE: Item = Item::Copy {
    dest: 1,
    from: Operand::Name(0),
};

const PRINT_ONE: Item = Item::Print {
    value: Operand::Name(1),
};

const SET_THREE_TO_NINE: Item = Item::Copy {
    dest: 3,
    from: Operand::Lit(9),
};

const STORE_TWO: Item = Item::Store {
    array: 0,
    index: Operand::Lit(0),
    value: Operand::Name(2),
};

const STORE_ZERO: Item = Item::Store {
    array: 0,
    index: Operand::Lit(0),
    value: Operand::Name(0),
};

const READ_THREE: Item = Item::Read { dest: 3 };

const ADD_FOUR_AND_FIVE_GIVING_SIX: Item = Item::Bin {
    op: OpCode::Add,
    dest: 6,
    left: Operand::Name(4),
    right: Operand::Name(5),
};

const LESS_ONE_THREE: Item = Item::Bin {
    op: OpCode::Sub,
    dest: 3,
    left: Operand::Name(3),
    right: Operand::Lit(1),
};

const COPY_SIX_TO_FIVE: Item = Item::Copy {
    dest: 5,
    from: Operand::Name(6),
};

const SET_TWO_TO_ONE: Item = Item::Copy {
    dest: 2,
    from: Operand::Lit(1),
};

const READ_ONE: Item = Item::Read { dest: 1 };

const ADD_TWO_AND_ZERO_GIVING_ONE: Item = Item::Bin {
    op: OpCode::Add,
    dest: 1,
    left: Operand::Name(2),
    right: Operand::Name(0),
};

const LESS_ONE_GIVING_TWO: Item = Item::Bin {
    op: OpCode::Sub,
    dest: 2,
    left: Operand::Name(1),
    right: Operand::Lit(1),
};

const LESS_TWO_GIVING_TWO: Item = Item::Bin {
    op: OpCode::Sub,
    dest: 2,
    left: Operand::Name(2),
    right: Operand::Lit(1),
};

const PRINT_TWO: Item = Item::Print {
    value: Operand::Name(2),
};

const ADD_ZERO_AND_ONE_GIVING_ZERO: Item = Item::Bin {
    op: OpCode::Add,
    dest: 0,
    left: Operand::Name(0),
    right: Operand::Name(1),
};

const ADD_ONE_AND_ZERO_GIVING_ONE: Item = Item::Bin {
    op: OpCode::Add,
    dest: 1,
    left: Operand::Name(1),
    right: Operand::Name(0),
};

const READ_FOUR: Item = Item::Read { dest: 4 };

const READ_ZERO: Item = Item::Read { dest: 0 };

/// Codes, and the rows that are due.
static CODES: [(&[(&[Item], End)], &[(&[Item], End)]); 4] = [
    // what a loop passes on stands where it is read, so the copy at its back edge goes
    (
        &[
            (&[SET_FOUR_TO_ONE], End::Goto(1)),
            (&[ADD_ONE_TO_FOUR_GIVING_FIVE, PRINT_FOUR], End::Goto(2)),
            (&[COPY_FIVE_TO_FOUR], End::Goto(1)),
        ],
        &[
            (&[SET_ZERO_TO_ONE], End::Goto(1)),
            (&[ADD_ONE_TO_ZERO_GIVING_ZERO, PRINT_ZERO], End::Goto(1)),
        ],
    ),
    // both values of a copy are needed together, so it stays
    (
        &[
            (&[SET_FIVE_TO_SEVEN], End::Goto(1)),
            (&[COPY_FIVE_TO_SIX], End::Goto(2)),
            (&[ADD_ONE_TO_FIVE_GIVING_FIVE, PRINT_SIX], End::Goto(3)),
            (&[PRINT_FIVE], End::Stop),
        ],
        &[
            (&[SET_ZERO_TO_SEVEN], End::Goto(1)),
            (
                &[COPY_ZERO_TO_ONE, ADD_ONE_TO_ZERO_GIVING_ZERO],
                End::Goto(2),
            ),
            (&[PRINT_ONE], End::Goto(3)),
            (&[PRINT_ZERO], End::Stop),
        ],
    ),
    // a value that nothing needs goes, and stores and reads stay
    (
        &[(&[SET_THREE_TO_NINE, STORE_TWO, READ_FOUR], End::Stop)],
        &[(&[STORE_ZERO, READ_ZERO], End::Stop)],
    ),
    // a value that goes from one register to another from turn to turn stays in its own in a loop of two phases
    (
        &[
            (
                &[SET_FOUR_TO_ONE, SET_FIVE_TO_SEVEN, READ_THREE],
                End::Goto(1),
            ),
            (
                &[ADD_FOUR_AND_FIVE_GIVING_SIX, LESS_ONE_THREE, PRINT_FOUR],
                End::GotoUnless(3, 2),
            ),
            (&[COPY_FIVE_TO_FOUR, COPY_SIX_TO_FIVE], End::Goto(1)),
        ],
        &[
            (&[SET_TWO_TO_ONE, SET_ZERO_TO_SEVEN, READ_ONE], End::Goto(1)),
            (
                &[ADD_TWO_AND_ZERO_GIVING_ONE, LESS_ONE_GIVING_TWO, PRINT_TWO],
                End::GotoUnless(1, 2),
            ),
            (
                &[
                    ADD_ZERO_AND_ONE_GIVING_ZERO,
                    LESS_TWO_GIVING_TWO,
                    PRINT_ZERO,
                ],
                End::GotoUnless(2, 3),
            ),
            (
                &[ADD_ONE_AND_ZERO_GIVING_ONE, LESS_TWO_GIVING_TWO, PRINT_ONE],
                End::GotoUnless(2, 2),
            ),
        ],
    ),
];

/// Registers are chosen anew as is due.
#[test]
fn registers_are_chosen_anew(rt: HostRuntime) -> Result<(), Fail> {
    for (rows, due) in CODES.iter() {
        assert!(&rt; gives(rt.alloc(), rows, due) == Ok(true));
    }
    Ok(())
}

/// The copy of the first code could go, and those of the others could not.
#[test]
fn copies_that_could_go_are_found(rt: HostRuntime) -> Result<(), Fail> {
    for (number, (rows, _due)) in CODES.iter().enumerate() {
        assert!(&rt; are_settled(rt.alloc(), rows) == Ok(number > 0));
    }
    Ok(())
}
