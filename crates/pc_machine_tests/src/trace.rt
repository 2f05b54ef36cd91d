//! What the cycles of a run did, as text. The lines were written by hand, by following each run from row to row.

use crate::count::{fault_rows, sum_rows};
use crate::vm::code_of;
use pc_machine::{Leaf, TreeList, well_formed};
use pc_specimen::chain;
use pc_trace::{laws_of_traces, trace_text};
use pc_vm::Machine;
use pc_word::{Item, OpCode, Operand, RowTree, TrapKind, WordList};
use std::alloc::{AllocError, Global};
use std::test::Fail;

const SUM: &str = "\
cycle 1: row 0; r1 = 1\n\
cycle 2: row 1; yes; read r0 = 4\n\
cycle 3: row 2; r2 = 4; r1 = 1\n\
cycle 4: row 1; yes; read r0 = 8\n\
cycle 5: row 2; r2 = 12; r1 = 1\n\
cycle 6: row 1; yes; read r0 = -6\n\
cycle 7: row 2; r2 = 6; r1 = 0\n\
cycle 8: row 1; no; print 6; stop\n";

const SUM_CUT_OFF: &str = "\
cycle 1: row 0; r1 = 1\n\
cycle 2: row 1; yes; read r0 = 4\n";

const FAULT: &str = "\
cycle 1: row 0; r0 = 5\n\
cycle 2: row 1; machine fault: element stored twice\n";

const TRAP: &str = "\
cycle 1: row 0; r0 = 2; a0[3] = -9\n\
cycle 2: row 1; yes; no; r0 = 0; r3 = -9; a1[1] = 2; r4 = 4; trap: out of bounds at line 12\n";

/// Row 0 writes a register and an element. Row 1 tests twice, and what it writes it reads as it was before; then it
/// ends by a trap.
fn trap_rows(alloc: Global) -> Result<TreeList, AllocError> {
    let mut rows = TreeList::new(alloc);
    let two = Item::Copy {
        dest: 0,
        from: Operand::Lit(2),
    };
    let nine = Item::Store {
        array: 0,
        index: Operand::Lit(3),
        value: Operand::Lit(-9),
    };
    rows.push(chain(alloc, &[two, nine], Leaf::Goto { row: 1 })?)?;
    let swapped = Item::Copy {
        dest: 0,
        from: Operand::Name(3),
    };
    let load = Item::Load {
        dest: 3,
        array: 0,
        index: Operand::Lit(3),
    };
    let store = Item::Store {
        array: 1,
        index: Operand::Lit(1),
        value: Operand::Name(0),
    };
    let twice = Item::Bin {
        op: OpCode::Add,
        dest: 4,
        left: Operand::Name(0),
        right: Operand::Name(0),
    };
    let trap = Leaf::Trap {
        kind: TrapKind::OutOfBounds,
        line: 12,
    };
    let stop = chain(alloc, &[], Leaf::Stop)?;
    let last = chain(alloc, &[load, store, twice], trap)?;
    let inner = RowTree::Test {
        on: Operand::Name(3),
        yes: Box::new(alloc, stop)?,
        no: Box::new(alloc, last)?,
    };
    let below = RowTree::Step {
        item: swapped,
        next: Box::new(alloc, inner)?,
    };
    let other = chain(alloc, &[], Leaf::Stop)?;
    rows.push(RowTree::Test {
        on: Operand::Name(0),
        yes: Box::new(alloc, below)?,
        no: Box::new(alloc, other)?,
    })?;
    Ok(rows)
}

/// Whether the first cycles of a run of rows on an input are told so.
fn tells(
    alloc: Global,
    rows: TreeList,
    inputs: &[i32],
    cycles: u64,
    want: &str,
) -> Result<bool, Fail> {
    let code = code_of(alloc, rows)?;
    let inputs = WordList::from_slice(alloc, inputs)?;
    match well_formed(&code) {
        None => {
            let mut machine = Machine::new(alloc, code, inputs)?;
            let text = trace_text(alloc, &mut machine, cycles)?;
            Ok(text.as_slice() == want.as_bytes())
        }
        Some(_) => Ok(false),
    }
}

#[test]
fn cycles_are_told(rt: HostRuntime) -> Result<(), Fail> {
    let alloc = rt.alloc();
    let numbers = [4, 8, -6];
    assert!(rt; tells(alloc, sum_rows(alloc)?, &numbers, 1000, SUM)?);
    assert!(rt; tells(alloc, sum_rows(alloc)?, &numbers, 2, SUM_CUT_OFF)?);
    assert!(rt; tells(alloc, fault_rows(alloc)?, &[], 1000, FAULT)?);
    assert!(rt; tells(alloc, trap_rows(alloc)?, &[], 2, TRAP)?);
    laws_of_traces();
    Ok(())
}
