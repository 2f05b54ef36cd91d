//! Rows against fronts.

use pc_matching::{Fact, match_row};
use pc_word::{Item, OpCode, Operand, OutOfMemory, RowTree};
use std::alloc::{AllocError, Global};
use std::test::Fail;

/// A sum of a name and 1, and a print of this name.
const fn sum(dest: u32, name: u32) -> Item {
    Item::Bin {
        op: OpCode::Add,
        dest,
        left: Operand::Name(name),
        right: Operand::Lit(1),
    }
}

/// A row of items.
fn row_of(alloc: Global, items: &[Item]) -> Result<RowTree<u32>, AllocError> {
    let mut row = RowTree::Leaf { leaf: 0 };
    for item in items.iter().rev() {
        row = RowTree::Step {
            item: *item,
            next: Box::new(alloc, row)?,
        };
    }
    Ok(row)
}

/// How many facts hold at the leaf of a row that does what a front does, where register 0 has the value of name 96.
fn facts_at_end(alloc: Global, row: &[Item], front: &[Item]) -> Result<Option<usize>, OutOfMemory> {
    let row = row_of(alloc, row)?;
    let front = row_of(alloc, front)?;
    let fact = Fact {
        source: Operand::Name(0),
        operand: Operand::Name(96),
    };
    let Some(helds) = match_row(alloc, &[fact], &row, &front)? else {
        return Ok(None);
    };
    match helds.as_slice() {
        [held] => Ok(Some(held.len())),
        _ => Ok(None),
    }
}

#[test]
fn rows_do_what_fronts_do(rt: HostRuntime) -> Result<(), Fail> {
    let alloc = rt.alloc();
    let shown = Item::Print {
        value: Operand::Name(0),
    };
    let wanted = Item::Print {
        value: Operand::Name(96),
    };
    let front = [wanted, sum(97, 96)];
    assert_eq!(rt;
        facts_at_end(alloc, &[sum(0, 0), shown], &front),
        Ok(Some(1))
    );
    assert_eq!(rt;
        facts_at_end(alloc, &[sum(1, 0), shown], &front),
        Ok(Some(2))
    );
    assert_eq!(rt; facts_at_end(alloc, &[sum(1, 0)], &front), Ok(None));
    Ok(())
}
