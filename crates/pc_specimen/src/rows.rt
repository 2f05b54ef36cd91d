//! Codes, told row by row.

use pc_machine::{Code, FEW_REGISTERS, Leaf, Tree, TreeList};
use pc_word::{Item, LengthList, Limits, Operand, RowTree, no_data};
use std::alloc::{AllocError, Global};

/// The end of a row.
#[derive(Clone, Copy, Debug)]
pub enum End {
    /// It leads to the row with this number.
    Goto(u32),
    /// The run ends.
    Stop,
    /// A test of register 9 below the items, with the rows to which its sides lead.
    Fork(u32, u32),
    /// A test of this register above the items: they are done, and lead to this row, where it is not 0; else the run
    /// ends.
    GotoUnless(u32, u32),
}

/// A row of these items, one after the other, and a leaf.
pub fn chain(alloc: Global, items: &[Item], leaf: Leaf) -> Result<Tree, AllocError> {
    above(alloc, items, RowTree::Leaf { leaf })
}

/// A row with these items above it.
fn above(alloc: Global, items: &[Item], below: Tree) -> Result<Tree, AllocError> {
    let mut tree = below;
    for item in items.iter().rev() {
        let next = Box::new(alloc, tree)?;
        tree = RowTree::Step { item: *item, next };
    }
    Ok(tree)
}

/// A test of a register, above two rows.
fn test(alloc: Global, register: u32, yes: Tree, no: Tree) -> Result<Tree, AllocError> {
    Ok(RowTree::Test {
        on: Operand::Name(register),
        yes: Box::new(alloc, yes)?,
        no: Box::new(alloc, no)?,
    })
}

/// A row of items and an end.
fn row(alloc: Global, items: &[Item], end: End) -> Result<Tree, AllocError> {
    match end {
        End::Goto(row) => chain(alloc, items, Leaf::Goto { row }),
        End::Stop => chain(alloc, items, Leaf::Stop),
        End::Fork(yes, no) => {
            let yes = chain(alloc, &[], Leaf::Goto { row: yes })?;
            let no = chain(alloc, &[], Leaf::Goto { row: no })?;
            above(alloc, items, test(alloc, 9, yes, no)?)
        }
        End::GotoUnless(register, row) => {
            let yes = chain(alloc, items, Leaf::Goto { row })?;
            let no = chain(alloc, &[], Leaf::Stop)?;
            test(alloc, register, yes, no)
        }
    }
}

/// A code with these rows, of three items, two tests, and two loads and stores each at most, with the fewer registers,
/// over arrays of these lengths without data.
pub fn code(alloc: Global, lengths: &[u32], rows: &[(&[Item], End)]) -> Result<Code, AllocError> {
    let mut trees = TreeList::new(alloc);
    for (items, end) in rows.iter() {
        trees.push(row(alloc, items, *end)?)?;
    }
    Ok(Code {
        limits: Limits {
            ops: 3,
            tests: 2,
            mem: 2,
        },
        registers: FEW_REGISTERS as u16,
        arrays: LengthList::from_slice(alloc, lengths)?,
        initial: no_data(alloc, lengths.len())?,
        rows: trees,
    })
}

/// The rows of a code as a text, by which codes are told apart.
pub fn rows_text(alloc: Global, code: &Code) -> Result<String, AllocError> {
    format!(in alloc; "{:?}", code.rows.as_slice())
}
