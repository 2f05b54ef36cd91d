//! Codes that are well formed, and the flaws of others.

use pc_machine::{Code, Flaw, Leaf, Tree, well_formed};
use pc_word::{Item, LengthList, Limits, OpCode, Operand, RowTree, Seq, TrapKind, WordList};
use std::alloc::{AllocError, Global};
use std::test::Fail;

/// A part of a tree in preorder.
#[derive(Clone, Copy)]
enum Part {
    Do(Item),
    If(Operand),
    Jump(u32),
    Fail(u32),
    Halt,
}

/// A leaf alone.
fn leaf(leaf: Leaf) -> Tree {
    RowTree::Leaf { leaf }
}

/// The tree of a part, on top of the trees that stand after it.
fn planted(alloc: Global, part: Part, behind: &mut Vec<Tree>) -> Result<Tree, AllocError> {
    match part {
        Part::Do(item) => {
            let next = Box::new(alloc, behind.pop().unwrap_or(leaf(Leaf::Stop)))?;
            Ok(RowTree::Step { item, next })
        }
        Part::If(on) => {
            let yes = Box::new(alloc, behind.pop().unwrap_or(leaf(Leaf::Stop)))?;
            let no = Box::new(alloc, behind.pop().unwrap_or(leaf(Leaf::Stop)))?;
            Ok(RowTree::Test { on, yes, no })
        }
        Part::Jump(row) => Ok(leaf(Leaf::Goto { row })),
        Part::Fail(line) => Ok(leaf(Leaf::Trap {
            kind: TrapKind::OutOfBounds,
            line,
        })),
        Part::Halt => Ok(leaf(Leaf::Stop)),
    }
}

/// The data of arrays.
fn data(alloc: Global, lists: &[&[i32]]) -> Result<pc_word::DataList, AllocError> {
    let mut initial = Seq::new(alloc);
    for words in lists {
        initial.push(WordList::from_slice(alloc, words)?)?;
    }
    Ok(initial)
}

/// A code of limits 4, 2, 2 with 128 registers and one array, whose second row is the tree of these parts.
fn code(alloc: Global, parts: &[Part]) -> Result<Code, AllocError> {
    let mut trees = Vec::new(alloc);
    for part in parts.iter().rev() {
        let tree = planted(alloc, *part, &mut trees)?;
        trees.push(tree)?;
    }
    trees.push(leaf(Leaf::Stop))?;
    trees.reverse();
    Ok(Code {
        limits: Limits {
            ops: 4,
            tests: 2,
            mem: 2,
        },
        registers: 128,
        arrays: LengthList::from_slice(alloc, &[9])?,
        initial: data(alloc, &[&[]])?,
        rows: Seq::from_vec(trees),
    })
}

const SEVEN: Operand = Operand::Lit(7);

const LAST: Operand = Operand::Name(127);

const PAST: Operand = Operand::Name(128);

const COPY: Part = Part::Do(Item::Copy {
    dest: 0,
    from: SEVEN,
});

const STORE: Part = Part::Do(Item::Store {
    array: 0,
    index: SEVEN,
    value: SEVEN,
});

const PRINT: Part = Part::Do(Item::Print { value: LAST });

const READ: Part = Part::Do(Item::Read { dest: 1 });

const MORE: Part = Part::Do(Item::More { dest: 2 });

const FORK: Part = Part::If(LAST);

static ROWS: [(&[Part], Option<Flaw>); 45] = [
    (&[Part::Jump(1)], None),
    (&[Part::Jump(2)], Some(Flaw::Target)),
    (&[Part::Fail(4294967295)], None),
    (
        &[Part::Do(Item::Bin {
            op: OpCode::Below,
            dest: 127,
            left: LAST,
            right: LAST,
        })],
        None,
    ),
    (
        &[Part::Do(Item::Bin {
            op: OpCode::Add,
            dest: 128,
            left: SEVEN,
            right: SEVEN,
        })],
        Some(Flaw::Register),
    ),
    (
        &[Part::Do(Item::Bin {
            op: OpCode::Add,
            dest: 0,
            left: PAST,
            right: SEVEN,
        })],
        Some(Flaw::Register),
    ),
    (
        &[Part::Do(Item::Bin {
            op: OpCode::Add,
            dest: 0,
            left: SEVEN,
            right: PAST,
        })],
        Some(Flaw::Register),
    ),
    (
        &[Part::Do(Item::Copy {
            dest: 128,
            from: SEVEN,
        })],
        Some(Flaw::Register),
    ),
    (
        &[Part::Do(Item::Copy {
            dest: 0,
            from: PAST,
        })],
        Some(Flaw::Register),
    ),
    (
        &[Part::Do(Item::Load {
            dest: 127,
            array: 0,
            index: LAST,
        })],
        None,
    ),
    (
        &[Part::Do(Item::Load {
            dest: 4294967295,
            array: 1,
            index: SEVEN,
        })],
        Some(Flaw::Register),
    ),
    (
        &[Part::Do(Item::Load {
            dest: 0,
            array: 1,
            index: PAST,
        })],
        Some(Flaw::Array),
    ),
    (
        &[Part::Do(Item::Load {
            dest: 0,
            array: 0,
            index: PAST,
        })],
        Some(Flaw::Register),
    ),
    (
        &[Part::Do(Item::Store {
            array: 255,
            index: PAST,
            value: SEVEN,
        })],
        Some(Flaw::Array),
    ),
    (
        &[Part::Do(Item::Store {
            array: 0,
            index: PAST,
            value: SEVEN,
        })],
        Some(Flaw::Register),
    ),
    (
        &[Part::Do(Item::Store {
            array: 0,
            index: LAST,
            value: PAST,
        })],
        Some(Flaw::Register),
    ),
    (
        &[Part::Do(Item::Print { value: PAST })],
        Some(Flaw::Register),
    ),
    (&[Part::Do(Item::Read { dest: 128 })], Some(Flaw::Register)),
    (&[Part::Do(Item::More { dest: 128 })], Some(Flaw::Register)),
    (&[COPY, STORE, PRINT, STORE], None),
    (
        &[
            COPY,
            Part::Do(Item::Bin {
                op: OpCode::Add,
                dest: 0,
                left: PAST,
                right: SEVEN,
            }),
        ],
        Some(Flaw::DestTwice),
    ),
    (&[COPY, PRINT, COPY], Some(Flaw::DestTwice)),
    (
        &[
            COPY,
            Part::Do(Item::Load {
                dest: 0,
                array: 1,
                index: SEVEN,
            }),
        ],
        Some(Flaw::DestTwice),
    ),
    (
        &[COPY, Part::Do(Item::Read { dest: 0 })],
        Some(Flaw::DestTwice),
    ),
    (
        &[COPY, Part::Do(Item::More { dest: 0 })],
        Some(Flaw::DestTwice),
    ),
    (
        &[
            READ,
            Part::Do(Item::Copy {
                dest: 1,
                from: SEVEN,
            }),
        ],
        Some(Flaw::DestTwice),
    ),
    (&[PRINT, COPY, PRINT], Some(Flaw::EffectTwice)),
    (
        &[PRINT, Part::Do(Item::Read { dest: 128 })],
        Some(Flaw::EffectTwice),
    ),
    (&[READ, MORE], Some(Flaw::EffectTwice)),
    (&[MORE, READ], Some(Flaw::EffectTwice)),
    (&[STORE, STORE, STORE, STORE, STORE], Some(Flaw::TooManyMem)),
    (
        &[
            STORE,
            STORE,
            Part::Do(Item::Load {
                dest: 128,
                array: 1,
                index: SEVEN,
            }),
        ],
        Some(Flaw::TooManyMem),
    ),
    (&[COPY, STORE, PRINT, STORE, STORE], Some(Flaw::TooManyOps)),
    (&[COPY, STORE, PRINT, STORE, PRINT], Some(Flaw::TooManyOps)),
    (&[COPY, STORE, PRINT, STORE, COPY], Some(Flaw::TooManyOps)),
    (
        &[Part::If(PAST), Part::Halt, Part::Jump(2)],
        Some(Flaw::Register),
    ),
    (
        &[FORK, Part::Jump(2), READ, READ, Part::Halt],
        Some(Flaw::Target),
    ),
    (
        &[FORK, COPY, PRINT, Part::Halt, COPY, PRINT, Part::Halt],
        None,
    ),
    (
        &[READ, FORK, Part::Halt, COPY, PRINT, Part::Halt],
        Some(Flaw::EffectTwice),
    ),
    (
        &[COPY, FORK, Part::Halt, COPY, Part::Halt],
        Some(Flaw::DestTwice),
    ),
    (
        &[
            FORK,
            COPY,
            PRINT,
            Part::Halt,
            COPY,
            PRINT,
            STORE,
            Part::Halt,
        ],
        Some(Flaw::TooManyOps),
    ),
    (
        &[FORK, STORE, STORE, Part::Halt, STORE, Part::Halt],
        Some(Flaw::TooManyMem),
    ),
    (
        &[
            FORK,
            FORK,
            Part::Halt,
            Part::Halt,
            Part::If(PAST),
            Part::Halt,
            Part::Halt,
        ],
        Some(Flaw::TooManyTests),
    ),
    (
        &[
            FORK,
            FORK,
            Part::Halt,
            Part::Jump(9),
            FORK,
            Part::Halt,
            Part::Halt,
        ],
        Some(Flaw::Target),
    ),
    (
        &[FORK, FORK, Part::Halt, Part::Jump(1), Part::Fail(3)],
        None,
    ),
];

#[test]
fn rows(rt: HostRuntime) -> Result<(), Fail> {
    let alloc = rt.alloc();
    for (i, (parts, want)) in ROWS.iter().enumerate() {
        let found = well_formed(&code(alloc, parts)?);
        assert!(rt; found == *want, "row {i}: {found:?}");
    }
    Ok(())
}

/// A code whose rows lead to row 3.
fn with_header(
    alloc: Global,
    limits: Limits,
    lengths: &[u32],
    rows: usize,
) -> Result<Code, AllocError> {
    let mut code = Code {
        limits,
        registers: 128,
        arrays: LengthList::from_slice(alloc, lengths)?,
        initial: Seq::new(alloc),
        rows: Seq::new(alloc),
    };
    for _ in lengths {
        code.initial.push(Seq::new(alloc))?;
    }
    for _ in 0..rows {
        code.rows.push(leaf(Leaf::Goto { row: 3 }))?;
    }
    Ok(code)
}

#[test]
fn limits(rt: HostRuntime) -> Result<(), Fail> {
    let alloc = rt.alloc();
    for (ops, tests, mem, want) in [
        (1, 1, 1, None),
        (32, 7, 32, None),
        (0, 8, 1, Some(Flaw::HeaderLimit)),
        (33, 1, 1, Some(Flaw::HeaderLimit)),
        (1, 0, 1, Some(Flaw::HeaderLimit)),
        (1, 8, 1, Some(Flaw::HeaderLimit)),
        (1, 1, 0, Some(Flaw::HeaderLimit)),
        (1, 1, 33, Some(Flaw::HeaderLimit)),
    ] {
        let limits = Limits { ops, tests, mem };
        let found = well_formed(&with_header(alloc, limits, &[1, 65_536], 4)?);
        assert!(rt; found == want, "{ops} {tests} {mem}: {found:?}");
    }
    Ok(())
}

static MANY: [u32; 33] = [1; 33];

static LARGE: [u32; 17] = [65_536; 17];

static HEADERS: [(&[u32], usize, Option<Flaw>); 7] = [
    (&[1, 65_536], 4, None),
    (&[3, 65_537, 0], 4, Some(Flaw::ArrayLength)),
    (&[3, 0, 65_537], 0, Some(Flaw::ArrayLength)),
    (&[], 4, None),
    (&[], 0, Some(Flaw::RowCount)),
    (&[], 3, Some(Flaw::Target)),
    (&[1], 4, None),
];

#[test]
fn arrays_and_rows(rt: HostRuntime) -> Result<(), Fail> {
    let alloc = rt.alloc();
    let limits = Limits {
        ops: 8,
        tests: 3,
        mem: 2,
    };
    for (lengths, rows, want) in HEADERS {
        let found = well_formed(&with_header(alloc, limits, lengths, rows)?);
        assert!(rt; found == want, "{found:?} where {want:?} is due");
    }
    assert_eq!(rt;
        well_formed(&with_header(alloc, limits, &MANY[..32], 4)?),
        None
    );
    assert_eq!(rt;
        well_formed(&with_header(alloc, limits, &MANY, 4)?),
        Some(Flaw::ArrayCount)
    );
    assert_eq!(rt;
        well_formed(&with_header(alloc, limits, &LARGE[..16], 4)?),
        None
    );
    assert_eq!(rt;
        well_formed(&with_header(alloc, limits, &LARGE, 0)?),
        Some(Flaw::Elements)
    );
    Ok(())
}

static REGISTERS: [(u16, u32, Option<Flaw>); 9] = [
    (128, 127, None),
    (128, 128, Some(Flaw::Register)),
    (256, 255, None),
    (256, 256, Some(Flaw::Register)),
    (256, 4294967295, Some(Flaw::Register)),
    (0, 0, Some(Flaw::Registers)),
    (127, 0, Some(Flaw::Registers)),
    (257, 0, Some(Flaw::Registers)),
    (65535, 0, Some(Flaw::Registers)),
];

#[test]
fn registers(rt: HostRuntime) -> Result<(), Fail> {
    let alloc = rt.alloc();
    for (registers, register, want) in REGISTERS {
        let read = Part::Do(Item::Read { dest: register });
        let mut code = code(alloc, &[read])?;
        code.registers = registers;
        let found = well_formed(&code);
        assert!(rt; found == want, "{register} of {registers}: {found:?}");
    }
    Ok(())
}

static DATA: [(&[&[i32]], Option<Flaw>); 9] = [
    (&[&[], &[]], None),
    (&[&[0, -5], &[1]], None),
    (&[&[0, 0, 7], &[]], None),
    (&[&[1, 2, 3, 0], &[]], Some(Flaw::DataCount)),
    (&[&[0], &[1, 1]], Some(Flaw::DataTail)),
    (&[&[6], &[1, 1]], Some(Flaw::DataCount)),
    (&[&[6], &[0]], Some(Flaw::DataTail)),
    (&[&[0]], Some(Flaw::DataCount)),
    (&[&[0], &[], &[]], Some(Flaw::DataCount)),
];

#[test]
fn data_of_arrays(rt: HostRuntime) -> Result<(), Fail> {
    let alloc = rt.alloc();
    let limits = Limits {
        ops: 8,
        tests: 3,
        mem: 2,
    };
    for (i, (lists, want)) in DATA.iter().enumerate() {
        let mut code = with_header(alloc, limits, &[3, 1], 4)?;
        code.initial = data(alloc, lists)?;
        let found = well_formed(&code);
        assert!(rt; found == *want, "data {i}: {found:?}");
    }
    Ok(())
}
