//! Codes that are run. What operators give was computed with C17, by gcc with wrapping arithmetic.

use pc_machine::{Code, FEW_REGISTERS, Leaf, MOST_REGISTERS, Tree, TreeList, well_formed};
use pc_outside::SureSink;
use pc_specimen::chain;
use pc_vm::{Machine, Outcome, RunError};
use pc_word::{
    DataList, End, Item, LengthList, Limits, MachineFault, OpCode, Operand, RowTree, TrapKind,
    WordList, no_data,
};
use std::alloc::{AllocError, Global};
use std::test::Fail;

/// The text that a run sent, and what it answered.
#[derive(Drop)]
struct Shown {
    text: Vec<u8>,
    answer: Result<Outcome, RunError>,
}

/// Rows that each lead to the next; the last one stops.
fn rows_of(alloc: Global, lists: &[&[Item]]) -> Result<TreeList, AllocError> {
    let mut rows = TreeList::new(alloc);
    let mut next = 0_u32;
    let count = lists.len();
    for (at, items) in lists.iter().enumerate() {
        next = next.wrapping_add(1);
        let leaf = if at + 1 < count {
            Leaf::Goto { row: next }
        } else {
            Leaf::Stop
        };
        rows.push(chain(alloc, items, leaf)?)?;
    }
    Ok(rows)
}

/// A code with the fewer registers, and arrays of 4 and 2 elements without data.
pub(crate) fn code_of(alloc: Global, rows: TreeList) -> Result<Code, AllocError> {
    Ok(Code {
        limits: Limits {
            ops: 8,
            tests: 4,
            mem: 4,
        },
        registers: FEW_REGISTERS as u16,
        arrays: LengthList::from_slice(alloc, &[4, 2])?,
        initial: no_data(alloc, 2)?,
        rows,
    })
}

/// Runs rows on an input, into a sink with so much room; `None` where they are not well formed.
fn run_rows(
    alloc: Global,
    rows: TreeList,
    inputs: &[i32],
    budget: u64,
    room: usize,
) -> Result<Option<Shown>, Fail> {
    run_code(alloc, code_of(alloc, rows)?, inputs, budget, room)
}

/// Runs a code on an input, into a sink with so much room; `None` where it is not well formed.
fn run_code(
    alloc: Global,
    code: Code,
    inputs: &[i32],
    budget: u64,
    room: usize,
) -> Result<Option<Shown>, Fail> {
    let inputs = WordList::from_slice(alloc, inputs)?;
    match well_formed(&code) {
        None => {
            let mut machine = Machine::new(alloc, code, inputs)?;
            let mut out = SureSink::new(alloc, room)?;
            let answer = machine.run(budget, &mut out);
            let text = out.taken().to_vec(alloc)?;
            Ok(Some(Shown { text, answer }))
        }
        Some(_) => Ok(None),
    }
}

/// Whether rows send this text and answer this.
fn shows(
    alloc: Global,
    rows: TreeList,
    inputs: &[i32],
    text: &[u8],
    answer: Outcome,
) -> Result<bool, Fail> {
    Ok(match run_rows(alloc, rows, inputs, 1000, 256)? {
        Some(shown) => shown.text.as_slice() == text && shown.answer == Ok(answer),
        None => false,
    })
}

const ENDED: Outcome = Outcome::Over { end: End::Ended };

fn bin(op: OpCode, dest: u32, left: Operand, right: Operand) -> Item {
    Item::Bin {
        op,
        dest,
        left,
        right,
    }
}

fn copy(dest: u32, word: i32) -> Item {
    Item::Copy {
        dest,
        from: Operand::Lit(word),
    }
}

fn load(dest: u32, array: u8, index: i32) -> Item {
    Item::Load {
        dest,
        array,
        index: Operand::Lit(index),
    }
}

fn store(array: u8, index: i32, word: i32) -> Item {
    Item::Store {
        array,
        index: Operand::Lit(index),
        value: Operand::Lit(word),
    }
}

fn print(register: u32) -> Item {
    Item::Print {
        value: Operand::Name(register),
    }
}

static OPERATORS: [(OpCode, i32, i32, i32); 45] = [
    (OpCode::Add, 2147483647, 1, -2147483648),
    (OpCode::Add, -5, 3, -2),
    (OpCode::Add, -2147483648, -1, 2147483647),
    (OpCode::Sub, -2147483648, 1, 2147483647),
    (OpCode::Sub, 3, 5, -2),
    (OpCode::Sub, 0, -2147483648, -2147483648),
    (OpCode::Mul, 65536, 65536, 0),
    (OpCode::Mul, -7, 3, -21),
    (OpCode::Mul, 123456789, 987654321, -67153019),
    (OpCode::Div, -7, 2, -3),
    (OpCode::Div, -2147483648, -1, -2147483648),
    (OpCode::Div, 5, 0, 0),
    (OpCode::Rem, -7, 2, -1),
    (OpCode::Rem, 7, -2, 1),
    (OpCode::Rem, -2147483648, -1, 0),
    (OpCode::Shl, 1, 31, -2147483648),
    (OpCode::Shl, 3, 33, 6),
    (OpCode::Shl, -1, -1, -2147483648),
    (OpCode::Shr, -8, 1, -4),
    (OpCode::Shr, -2147483648, 31, -1),
    (OpCode::Shr, 5, 34, 1),
    (OpCode::And, -6, 12, 8),
    (OpCode::And, 255, -256, 0),
    (OpCode::And, -1, 7, 7),
    (OpCode::Or, -6, 12, -2),
    (OpCode::Or, 1, 2, 3),
    (OpCode::Or, 0, 0, 0),
    (OpCode::Xor, -6, 12, -10),
    (OpCode::Xor, -1, -1, 0),
    (OpCode::Xor, 5, 1, 4),
    (OpCode::Less, -1, 0, 1),
    (OpCode::Less, 0, -1, 0),
    (OpCode::Less, 4, 4, 0),
    (OpCode::LessEq, -1, 0, 1),
    (OpCode::LessEq, 0, -1, 0),
    (OpCode::LessEq, 4, 4, 1),
    (OpCode::Equal, 4, 4, 1),
    (OpCode::Equal, -4, 4, 0),
    (OpCode::Equal, 0, 0, 1),
    (OpCode::Unequal, 4, 4, 0),
    (OpCode::Unequal, -4, 4, 1),
    (OpCode::Unequal, 0, 1, 1),
    (OpCode::Below, -1, 0, 0),
    (OpCode::Below, 0, -1, 1),
    (OpCode::Below, 1, 2, 1),
];

#[test]
fn operators(rt: HostRuntime) -> Result<(), Fail> {
    let alloc = rt.alloc();
    for (op, left, right, value) in OPERATORS.iter().copied() {
        let item = bin(op, 127, Operand::Lit(left), Operand::Lit(right));
        let rows = rows_of(alloc, &[&[item], &[print(127)]])?;
        let text = format!(in alloc; "{value}\n")?;
        assert!(rt;
            shows(alloc, rows, &[], text.as_bytes(), ENDED)?,
            "{op:?} {left} {right}"
        );
    }
    Ok(())
}

/// Two registers change places, and an element is loaded and stored in one row; the registers are
/// printed after it. Then loads from all sides of the arrays, and theirs.
fn exchanges(alloc: Global) -> Result<TreeList, AllocError> {
    let swap = [
        Item::Copy {
            dest: 1,
            from: Operand::Name(2),
        },
        Item::Copy {
            dest: 2,
            from: Operand::Name(1),
        },
    ];
    let behind = [store(0, 3, 5), load(3, 0, 3), store(1, 0, 9)];
    let outside = [load(4, 0, 3), load(5, 1, 0), load(6, 0, 4), load(7, 0, -1)];
    rows_of(
        alloc,
        &[
            &[copy(1, 1), copy(2, 2), copy(6, 8), copy(7, -2147483648)],
            &swap,
            &[print(1)],
            &[print(2)],
            &behind,
            &[print(3)],
            &[print(7)],
            &outside,
            &[print(4)],
            &[print(5)],
            &[print(6)],
            &[print(7)],
        ],
    )
}

#[test]
fn all_of_a_row_reads_before_it_writes(rt: HostRuntime) -> Result<(), Fail> {
    let alloc = rt.alloc();
    let text = b"2\n1\n0\n-2147483648\n5\n9\n0\n0\n";
    assert!(rt; shows(alloc, exchanges(alloc)?, &[], text, ENDED)?);
    Ok(())
}

/// Rows that print the elements of the first array and the last of the second, through the last register.
fn elements(alloc: Global) -> Result<TreeList, AllocError> {
    let lists: [&[Item]; 10] = [
        &[load(255, 0, 0)],
        &[print(255), load(255, 0, 1)],
        &[print(255), load(255, 0, 2)],
        &[print(255), load(255, 0, 3)],
        &[print(255), store(0, 1, 9)],
        &[load(255, 0, 1)],
        &[print(255), load(255, 1, 0)],
        &[print(255), load(255, 1, 1)],
        &[print(255), load(255, 1, 2)],
        &[print(255)],
    ];
    rows_of(alloc, &lists)
}

#[test]
fn arrays_begin_with_their_data(rt: HostRuntime) -> Result<(), Fail> {
    let alloc = rt.alloc();
    let mut code = code_of(alloc, elements(alloc)?)?;
    assert!(rt; well_formed(&code).is_some());
    code.registers = MOST_REGISTERS as u16;
    let mut initial = DataList::new(alloc);
    initial.push(WordList::from_slice(alloc, &[5, -6])?)?;
    initial.push(WordList::from_slice(alloc, &[0, 7])?)?;
    code.initial = initial;
    let text = b"5\n-6\n0\n0\n9\n0\n7\n0\n";
    match run_code(alloc, code, &[], 1000, 256)? {
        Some(shown) => assert!(rt;
            shown.text.as_slice() == text.as_slice() && shown.answer == Ok(ENDED)
        ),
        None => assert!(rt; false),
    }
    Ok(())
}

#[test]
fn input(rt: HostRuntime) -> Result<(), Fail> {
    let alloc = rt.alloc();
    let read = [Item::Read { dest: 0 }];
    let more = [Item::More { dest: 1 }];
    let lists: [&[Item]; 9] = [
        &read,
        &[print(0)],
        &read,
        &[print(0)],
        &more,
        &[print(1)],
        &read,
        &more,
        &[print(1)],
    ];
    let rows = rows_of(alloc, &lists)?;
    assert!(rt; shows(alloc, rows, &[3, 0, 7], b"3\n0\n1\n0\n", ENDED)?);
    let past = Outcome::Over {
        end: End::Fault {
            fault: MachineFault::ReadPastEnd,
        },
    };
    let rows = rows_of(alloc, &lists)?;
    assert!(rt; shows(alloc, rows, &[3], b"3\n", past)?);
    Ok(())
}

#[test]
fn faults_in_their_order(rt: HostRuntime) -> Result<(), Fail> {
    let alloc = rt.alloc();
    let read = Item::Read { dest: 0 };
    let table: [(&[Item], MachineFault); 8] = [
        (&[print(0), store(0, 4, 1)], MachineFault::StoreOutOfRange),
        (&[store(0, -1, 1)], MachineFault::StoreOutOfRange),
        (
            &[store(0, 1, 5), store(1, 1, 5), store(0, 1, 6)],
            MachineFault::StoredTwice,
        ),
        (&[read], MachineFault::ReadPastEnd),
        (
            &[store(0, 1, 5), store(0, 1, 6), store(1, 2, 0)],
            MachineFault::StoreOutOfRange,
        ),
        (&[read, store(1, 2, 0)], MachineFault::StoreOutOfRange),
        (
            &[read, store(0, 1, 5), store(0, 1, 6)],
            MachineFault::StoredTwice,
        ),
        (
            &[store(1, 2, 0), store(1, 2, 0)],
            MachineFault::StoreOutOfRange,
        ),
    ];
    for (items, fault) in table.iter() {
        let mut rows = TreeList::new(alloc);
        rows.push(chain(alloc, items, Leaf::Stop)?)?;
        let answer = Outcome::Over {
            end: End::Fault { fault: *fault },
        };
        assert!(rt; shows(alloc, rows, &[], b"", answer)?, "{fault:?}");
    }
    Ok(())
}

/// The first row reads; the second goes on for ever, or prints and traps where 0 was read.
fn choice(alloc: Global) -> Result<TreeList, AllocError> {
    let trap = Leaf::Trap {
        kind: TrapKind::OutOfBounds,
        line: 4294967295,
    };
    let no = Box::new(alloc, chain(alloc, &[print(5)], trap)?)?;
    let yes = Box::new(alloc, chain(alloc, &[], Leaf::Goto { row: 1 })?)?;
    let mut rows = TreeList::new(alloc);
    let read = Item::Read { dest: 5 };
    rows.push(chain(alloc, &[read], Leaf::Goto { row: 1 })?)?;
    let on = Operand::Name(5);
    rows.push(RowTree::Test { on, yes, no })?;
    Ok(rows)
}

#[test]
fn leaves(rt: HostRuntime) -> Result<(), Fail> {
    let alloc = rt.alloc();
    let trapped = Outcome::Over {
        end: End::Trapped {
            kind: TrapKind::OutOfBounds,
            line: 4294967295,
        },
    };
    assert!(rt; shows(alloc, choice(alloc)?, &[0], b"0\n", trapped)?);
    assert!(rt; shows(alloc, choice(alloc)?, &[1], b"", Outcome::Going)?);
    let mut rows = TreeList::new(alloc);
    rows.push(chain(alloc, &[], Leaf::Goto { row: 0 })?)?;
    assert!(rt; shows(alloc, rows, &[], b"", Outcome::Going)?);
    Ok(())
}

#[test]
fn budgets_and_sinks(rt: HostRuntime) -> Result<(), Fail> {
    let alloc = rt.alloc();
    let table: [(u64, usize, &[u8], Result<Outcome, RunError>); 5] = [
        (0, 9, b"", Ok(Outcome::Going)),
        (1, 9, b"12\n", Ok(Outcome::Going)),
        (2, 9, b"12\n-34\n", Ok(ENDED)),
        (2, 4, b"12\n-", Err(RunError::Write)),
        (2, 0, b"", Err(RunError::Write)),
    ];
    let first = Item::Print {
        value: Operand::Lit(12),
    };
    let second = Item::Print {
        value: Operand::Lit(-34),
    };
    for (budget, room, text, answer) in table.iter() {
        let rows = rows_of(alloc, &[&[first], &[second]])?;
        let shown = run_rows(alloc, rows, &[], *budget, *room)?;
        let same = match &shown {
            Some(shown) => shown.text.as_slice() == *text && shown.answer == *answer,
            None => false,
        };
        assert!(rt; same, "budget {budget}, room {room}");
    }
    Ok(())
}

#[test]
fn one_cycle(rt: HostRuntime) -> Result<(), Fail> {
    let alloc = rt.alloc();
    let seven = Item::Print {
        value: Operand::Lit(7),
    };
    let code = code_of(alloc, rows_of(alloc, &[&[seven]])?)?;
    let inputs = WordList::new(alloc);
    match well_formed(&code) {
        None => {
            let mut machine = Machine::new(alloc, code, inputs)?;
            let event = machine.cycle();
            assert_eq!(rt; event.printed, Some(7));
            assert_eq!(rt; event.end, Some(End::Ended));
        }
        Some(_) => assert!(rt; false),
    }
    Ok(())
}
