//! What runs cost. The numbers were counted by hand, by following each run from row to row.

use crate::vm::code_of;
use pc_count::{Profile, Work, copy_cycles, run_profile, work_of};
use pc_machine::{Leaf, TreeList, well_formed};
use pc_specimen::chain;
use pc_vm::{Machine, Outcome};
use pc_word::{End, Item, MOST_CYCLES, MachineFault, OpCode, Operand, RowTree, WordList};
use std::alloc::{AllocError, Global};
use std::test::Fail;

/// What a run of three rows costs.
#[derive(Clone, Copy)]
struct Cost {
    cycles: u64,
    outcome: Outcome,
    rows: &'static [u64],
    leaves: [&'static [u64]; 3],
    work: Work,
    copies: u64,
}

/// The numbers of the input are added up: row 0 asks whether there is one, row 1 reads it, or prints the sum
/// and stops, and row 2 adds it.
pub(crate) fn sum_rows(alloc: Global) -> Result<TreeList, AllocError> {
    let mut rows = TreeList::new(alloc);
    let more = Item::More { dest: 1 };
    let add = Item::Bin {
        op: OpCode::Add,
        dest: 2,
        left: Operand::Name(2),
        right: Operand::Name(0),
    };
    let print = Item::Print {
        value: Operand::Name(2),
    };
    let yes = chain(alloc, &[Item::Read { dest: 0 }], Leaf::Goto { row: 2 })?;
    let no = chain(alloc, &[print], Leaf::Stop)?;
    rows.push(chain(alloc, &[more], Leaf::Goto { row: 1 })?)?;
    rows.push(RowTree::Test {
        on: Operand::Name(1),
        yes: Box::new(alloc, yes)?,
        no: Box::new(alloc, no)?,
    })?;
    rows.push(chain(alloc, &[add, more], Leaf::Goto { row: 1 })?)?;
    Ok(rows)
}

/// Row 0 copies, row 1 stores twice into one element, and row 2 is not run.
pub(crate) fn fault_rows(alloc: Global) -> Result<TreeList, AllocError> {
    let mut rows = TreeList::new(alloc);
    let copy = Item::Copy {
        dest: 0,
        from: Operand::Lit(5),
    };
    let store = Item::Store {
        array: 0,
        index: Operand::Lit(1),
        value: Operand::Name(0),
    };
    rows.push(chain(alloc, &[copy], Leaf::Goto { row: 1 })?)?;
    rows.push(chain(alloc, &[store, store], Leaf::Goto { row: 2 })?)?;
    rows.push(chain(alloc, &[], Leaf::Stop)?)?;
    Ok(rows)
}

/// Whether a profile tells these counts.
fn tells(profile: &Profile, cost: &Cost) -> bool {
    let rows = profile.rows.as_slice() == cost.rows;
    let run = profile.cycles == cost.cycles && profile.outcome == cost.outcome;
    let leaves = match profile.leaves.as_slice() {
        [one, two, three] => {
            let [first, second, third] = cost.leaves;
            one.as_slice() == first && two.as_slice() == second && three.as_slice() == third
        }
        _ => false,
    };
    run && rows && leaves
}

/// Whether a run of rows on an input costs this.
fn costs(
    alloc: Global,
    rows: TreeList,
    inputs: &[i32],
    budget: u64,
    cost: &Cost,
) -> Result<bool, Fail> {
    let code = code_of(alloc, rows)?;
    let inputs = WordList::from_slice(alloc, inputs)?;
    if budget > MOST_CYCLES {
        return Ok(false);
    }
    match well_formed(&code) {
        None => {
            let mut machine = Machine::new(alloc, code, inputs)?;
            let profile = run_profile(alloc, &mut machine, budget)?;
            let code = machine.into_code();
            let did = work_of(&code, &profile) == cost.work;
            let copied = copy_cycles(&code, &profile) == cost.copies;
            Ok(did && copied && tells(&profile, cost))
        }
        Some(_) => Ok(false),
    }
}

const SUM: Cost = Cost {
    cycles: 8,
    outcome: Outcome::Over { end: End::Ended },
    rows: &[1, 4, 3],
    leaves: [&[1], &[3, 1], &[3]],
    work: Work {
        cycles: 8,
        items: 11,
        tests: 4,
        memory: 0,
        prints: 1,
        reads: 3,
    },
    copies: 0,
};

const SUM_CUT_OFF: Cost = Cost {
    cycles: 5,
    outcome: Outcome::Going,
    rows: &[1, 2, 2],
    leaves: [&[1], &[2, 0], &[2]],
    work: Work {
        cycles: 5,
        items: 7,
        tests: 2,
        memory: 0,
        prints: 0,
        reads: 2,
    },
    copies: 0,
};

const FAULT: Cost = Cost {
    cycles: 2,
    outcome: Outcome::Over {
        end: End::Fault {
            fault: MachineFault::StoredTwice,
        },
    },
    rows: &[1, 1, 0],
    leaves: [&[1], &[0], &[0]],
    work: Work {
        cycles: 1,
        items: 1,
        tests: 0,
        memory: 0,
        prints: 0,
        reads: 0,
    },
    copies: 1,
};

#[test]
fn a_run_to_its_end(rt: HostRuntime) -> Result<(), Fail> {
    let alloc = rt.alloc();
    let rows = sum_rows(alloc)?;
    assert!(rt; costs(alloc, rows, &[4, 8, -6], 1000, &SUM)?);
    Ok(())
}

#[test]
fn a_run_whose_cycles_are_spent(rt: HostRuntime) -> Result<(), Fail> {
    let alloc = rt.alloc();
    let rows = sum_rows(alloc)?;
    assert!(rt; costs(alloc, rows, &[4, 8, -6], 5, &SUM_CUT_OFF)?);
    Ok(())
}

#[test]
fn a_run_that_faults(rt: HostRuntime) -> Result<(), Fail> {
    let alloc = rt.alloc();
    let rows = fault_rows(alloc)?;
    assert!(rt; costs(alloc, rows, &[], 1000, &FAULT)?);
    Ok(())
}
