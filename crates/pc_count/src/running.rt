//! A machine is run, and its cycles are counted.
ghost use Rattle.std.specs.Prelude.{◌≡◌, ◌<◌, ◌-◌, ◌^◌, [], false, length, slice_index_or};
ghost use Rattle.pc_machine.specs.MachineCode.{code_of};
ghost use Rattle.pc_vm.specs.Standing.{here_of};
ghost use Rattle.pc_count.specs.models.Counting.{has_faulted, one_more, with_leaf};
ghost use Rattle.pc_count.specs.models.Running.{CountsRun};
ghost use Rattle.pc_count.specs.Counts.{leaf_counts, row_counts};

use crate::profile::CountList;
use pc_vm::{Event, Exit, Machine, Outcome};
use pc_word::End;

/// How a run ended: after how many cycles, and how it stood then.
#[derive(Clone, Copy, Debug)]
pub(crate) struct Ending {
    pub(crate) cycles: u64,
    pub(crate) outcome: Outcome,
}

/// Runs a machine for at most `budget` cycles, and counts each at its row and its leaf. Nothing is
/// counted before.
pub(crate) fn run(
    machine: &mut Machine,
    budget: u64,
    rows: &mut CountList,
    leaves: &mut [CountList],
) -> Ending
    requires going { machine.old.over ≡ false }
    requires rows { rows.old ≡ row_counts (code_of machine.old.code).rows [] }
    requires leaves { leaves.old ≡ leaf_counts (code_of machine.old.code).rows [] }
    ensures counts { CountsRun (code_of machine.old.code) budget (here_of machine.old) result rows.new leaves.new }
    ensures code { machine.new.code ≡ machine.old.code }
{
    for cycle in 0..budget {
        let exit = machine.exit();
        let event = machine.cycle();
        count(event, exit, rows, leaves);
        if let Some(end) = event.end {
            return Ending {
                cycles: cycle + 1,
                outcome: Outcome::Over { end },
            };
        }
    }
    Ending {
        cycles: budget,
        outcome: Outcome::Going,
    }
}

/// Counts a cycle at its row, and at its leaf, unless it faulted.
fn count(event: Event, exit: Exit, rows: &mut CountList, leaves: &mut [CountList])
    requires row { slice_index_or rows.old exit.row 0 < 2 ^ 64 - 1 }
    requires leaf { slice_index_or (slice_index_or leaves.old exit.row []) exit.leaf 0 < 2 ^ 64 - 1 }
    requires has_row { exit.row < length rows.old }
    requires has_leaves { exit.row < length leaves.old }
    requires has_leaf { exit.leaf < length (slice_index_or leaves.old exit.row []) }
    ensures rows { rows.new ≡ one_more exit.row rows.old }
    ensures leaves { leaves.new ≡ with_leaf (has_faulted event.end) exit.row exit.leaf leaves.old }
{
    count_at(rows, exit.row);
    if !matches!(event.end, Some(End::Fault { .. })) {
        count_at(&mut leaves[exit.row], exit.leaf);
    }
}

/// Counts one more in a list.
fn count_at(counts: &mut CountList, at: usize)
    requires place { at < length counts.old }
    requires few { slice_index_or counts.old at 0 < 2 ^ 64 - 1 }
    ensures { counts.new ≡ one_more at counts.old }
{
    let count = counts.as_slice()[at];
    counts.set(at, count + 1);
}
