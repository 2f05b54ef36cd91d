//! The registers whose values matter where a row begins.
use crate::registers::RegisterSet;
use pc_machine::{Leaf, Tree};
use pc_word::RowTree;
use std::alloc::{AllocError, Global};

/// The registers that are read on some way from a row on before they are written, where those of the rows that come
/// next are these, and these registers are written above.
pub(crate) fn read_in(tree: &Tree, written: RegisterSet, live: &[RegisterSet]) -> RegisterSet {
    match tree {
        RowTree::Step { item, next } => {
            let mut written = written;
            if let Some(dest) = item.dest() {
                written.add(dest);
            }
            let mut found = read_in(next, written, live);
            found.add_reads(*item);
            found
        }
        RowTree::Test { on, yes, no } => {
            let mut found = read_in(yes, written, live);
            found.join(&read_in(no, written, live));
            found.add_read(*on);
            found
        }
        RowTree::Leaf { leaf } => read_behind(*leaf, written, live),
    }
}

/// The same behind a leaf.
fn read_behind(leaf: Leaf, written: RegisterSet, live: &[RegisterSet]) -> RegisterSet {
    match leaf {
        Leaf::Goto { row } => match live.get(row as usize) {
            None => RegisterSet::none(),
            Some(next) => {
                let mut found = *next;
                found.remove(&written);
                found
            }
        },
        Leaf::Stop | Leaf::Trap { .. } => RegisterSet::none(),
    }
}

/// Goes over all rows once, the last one first. Says whether anything was found that was not known.
fn go_over(rows: &[Tree], live: &mut Vec<RegisterSet>) -> bool {
    let mut changed = false;
    let count = rows.len().min(live.len());
    for at in 0..count {
        let row = count - 1 - at;
        let found = read_in(&rows[row], RegisterSet::none(), live.as_slice());
        if !found.is_same(&live[row]) {
            live[row] = found;
            changed = true;
        }
    }
    changed
}

/// For each row the registers whose values matter where it begins. Rows are gone over until nothing changes, at most
/// once for each of them, and once more.
pub(crate) fn live_registers(alloc: Global, rows: &[Tree]) -> Result<Vec<RegisterSet>, AllocError> {
    let mut live = vec![in alloc; RegisterSet::none(); rows.len()]?;
    for _ in 0..rows.len() {
        if !go_over(rows, &mut live) {
            return Ok(live);
        }
    }
    Ok(live)
}
