//! Codes that are made of numbers: of each of them rows with other registers are made, and the checkers take them all.

use pc_machine::{Code, FEW_REGISTERS, Leaf, Tree, TreeList, well_formed};
use pc_recolor::{Verdict, judge};
use pc_word::{Item, LengthList, Limits, OpCode, Operand, OutOfMemory, RowTree, no_data};
use std::alloc::{AllocError, Global};
use std::test::Fail;

/// How many codes are made.
const CODES: u32 = 240;

/// How many of them are well formed at least.
const LEAST_WELL_FORMED: u32 = 200;

/// Numbers one after another, each of which tells the next (a linear congruence).
#[derive(Clone, Copy)]
struct Numbers {
    last: u32,
}

impl Numbers {
    /// The numbers that this one begins.
    fn from(number: u32) -> Numbers {
        Numbers {
            last: number.wrapping_mul(2654435761),
        }
    }

    /// The next number, below 8.
    fn next(&mut self) -> u32 {
        self.last = self.last.wrapping_mul(1664525).wrapping_add(1013904223);
        (self.last >> 20) % 8
    }
}

/// An item that gives this register a word that it makes of registers.
fn giving(numbers: &mut Numbers, dest: u32) -> Item {
    let from = Operand::Name(numbers.next());
    match numbers.next() {
        0 => Item::Bin {
            op: OpCode::Add,
            dest,
            left: from,
            right: Operand::Name(numbers.next()),
        },
        1 => Item::Bin {
            op: OpCode::Sub,
            dest,
            left: from,
            right: Operand::Lit(1),
        },
        2 => Item::Load {
            dest,
            array: 0,
            index: from,
        },
        3 => Item::Copy {
            dest,
            from: Operand::Lit(5),
        },
        _ => Item::Copy { dest, from },
    }
}

/// An item that does more than give a register a word.
fn doing(numbers: &mut Numbers, dest: u32) -> Item {
    let value = Operand::Name(numbers.next());
    match numbers.next() {
        0 | 1 => Item::Read { dest },
        2 => Item::Store {
            array: 0,
            index: Operand::Lit(3),
            value,
        },
        _ => Item::Print { value },
    }
}

/// An item above a tree.
fn step(alloc: Global, item: Item, below: Tree) -> Result<Tree, AllocError> {
    let next = Box::new(alloc, below)?;
    Ok(RowTree::Step { item, next })
}

/// Items that give words to so many registers from this one on, above a tree.
fn steps(
    alloc: Global,
    numbers: &mut Numbers,
    first: u32,
    count: u32,
    below: Tree,
) -> Result<Tree, AllocError> {
    let mut tree = below;
    for at in 0..count {
        let dest = first.wrapping_add(at) % 8;
        tree = step(alloc, giving(numbers, dest), tree)?;
    }
    Ok(tree)
}

/// A leaf that leads to one of so many rows, or stops.
fn leaf(numbers: &mut Numbers, rows: u32) -> Tree {
    let row = numbers.next();
    let leaf = if row < rows {
        Leaf::Goto { row }
    } else {
        Leaf::Stop
    };
    RowTree::Leaf { leaf }
}

/// A test with items on one side.
fn fork(alloc: Global, numbers: &mut Numbers, rows: u32) -> Result<Tree, AllocError> {
    let yes = leaf(numbers, rows);
    let yes = steps(alloc, numbers, 6, 1, yes)?;
    let no = leaf(numbers, rows);
    Ok(RowTree::Test {
        on: Operand::Name(numbers.next()),
        yes: Box::new(alloc, yes)?,
        no: Box::new(alloc, no)?,
    })
}

/// A row: some copies and a goto, or items, a test and its sides.
fn row(alloc: Global, numbers: &mut Numbers, rows: u32) -> Result<Tree, AllocError> {
    match numbers.next() {
        0 | 1 | 2 => {
            let end = leaf(numbers, rows);
            let first = numbers.next();
            steps(alloc, numbers, first, 3, end)
        }
        _ => {
            let below = fork(alloc, numbers, rows)?;
            let tree = steps(alloc, numbers, 1, 3, below)?;
            step(alloc, doing(numbers, 0), tree)
        }
    }
}

/// The code that a number tells.
fn code(alloc: Global, number: u32) -> Result<Code, AllocError> {
    let mut numbers = Numbers::from(number);
    let count = numbers.next().wrapping_add(3) % 8;
    let rows = count.wrapping_add(1);
    let mut trees = TreeList::new(alloc);
    for _row in 0..rows {
        trees.push(row(alloc, &mut numbers, rows)?)?;
    }
    Ok(Code {
        limits: Limits {
            ops: 8,
            tests: 2,
            mem: 5,
        },
        registers: FEW_REGISTERS as u16,
        arrays: LengthList::from_slice(alloc, &[8])?,
        initial: no_data(alloc, 1)?,
        rows: trees,
    })
}

/// How many numbers of phases of a code's loops there are, from one to four, with which rows are made that the checkers take.
fn taken(alloc: Global, code: &Code) -> Result<u32, OutOfMemory> {
    let mut count: u32 = 0;
    for phases in 1..=4 {
        match judge(alloc, code, phases)? {
            Verdict::Taken => count = count.wrapping_add(1),
            Verdict::NotMade | Verdict::Refused => {}
        }
    }
    Ok(count)
}

/// With each number of phases rows are made of these codes, and the checkers refuse none of them.
#[test]
fn nothing_is_refused(rt: HostRuntime) -> Result<(), Fail> {
    let alloc = rt.alloc();
    let mut seen: u32 = 0;
    for number in 0..CODES {
        let code = code(alloc, number)?;
        if well_formed(&code).is_none() {
            seen = seen.wrapping_add(1);
            assert!(&rt; taken(alloc, &code) == Ok(4), "code {number}");
        }
    }
    assert!(&rt; seen >= LEAST_WELL_FORMED, "{seen} are well formed");
    Ok(())
}
