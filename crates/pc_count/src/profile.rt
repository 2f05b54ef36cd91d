//! A run's profile: how often each row ran, and each of its leaves was taken.
ghost use Rattle.std.specs.Prelude.{◌≡◌, ◌<◌, ◌≤◌, ◌^◌, [], false, length, map, replicate, IfOk, All};
ghost use Rattle.pc_machine.specs.MachineCode.{code_of, row_of, rows_of};
ghost use Rattle.pc_machine.specs.WellFormed.{WellFormed};
ghost use Rattle.pc_vm.specs.Standing.{here_of};
ghost use Rattle.pc_word.specs.Row.{leaves_of};
ghost use Rattle.pc_count.specs.Counts.{leaf_counts, profile_of, row_counts, run_profile};
ghost use Rattle.pc_count.specs.Profiles.{IsProfileOf};
ghost use Rattle.pc_word.specs.MachineLimits.{most_cycles};

use crate::running::run;
use pc_machine::{Tree, leaf_count};
use pc_vm::{Machine, Outcome};
use pc_word::{OutOfMemory, Seq};
use std::alloc::{AllocError, Global};

/// Counts, one for each of some things in their order.
pub type CountList = Seq<u64>;

/// What a run of some cycles cost.
#[derive(Debug, Drop)]
pub struct Profile {
    /// How many cycles the run took. One that faulted is the last of them.
    pub cycles: u64,
    /// How the run stood after them.
    pub outcome: Outcome,
    /// For each row, how many cycles began in it.
    pub rows: CountList,
    /// For each row, how many cycles left it by each of its leaves, in preorder. A cycle that
    /// faulted left by none.
    pub leaves: Vec<CountList>,
}

/// Runs a machine for at most `budget` cycles and counts them. What the run prints is not sent.
///
/// An error is want of memory, which comes before the first cycle.
pub fn run_profile(
    alloc: Global,
    machine: &mut Machine,
    budget: u64,
) -> Result<Profile, OutOfMemory>
    requires { machine.old.over ≡ false }
    ensures profile { IfOk result (λ profile. profile_of profile ≡ run_profile (code_of machine.old.code) budget (here_of machine.old)) }
    ensures of { IfOk result (λ profile. budget ≤ most_cycles → IsProfileOf (code_of machine.new.code) (profile_of profile)) }
    ensures code { machine.new.code ≡ machine.old.code }
{
    let mut rows = zeros(alloc, machine.code().rows.len())?;
    let mut leaves = no_leaf_counts(alloc, machine.code().rows.as_slice())?;
    let ending = run(machine, budget, &mut rows, leaves.as_mut_slice());
    Ok(Profile {
        cycles: ending.cycles,
        outcome: ending.outcome,
        rows,
        leaves,
    })
}

/// For each leaf of each row no cycle.
fn no_leaf_counts(alloc: Global, rows: &[Tree]) -> Result<Vec<CountList>, AllocError>
    requires { All (λ tree. length (leaves_of (row_of tree)) < 2 ^ 64) rows.now }
    ensures { IfOk result (λ counts. counts.items ≡ map (λ tree. replicate (length (leaves_of (row_of tree))) 0) rows.now) }
{
    let mut counts = Vec::new(alloc);
    for row in rows {
        counts.push(zeros(alloc, leaf_count(row))?)?;
    }
    Ok(counts)
}

/// So many zeros.
fn zeros(alloc: Global, many: usize) -> Result<CountList, AllocError>
    ensures { IfOk result (λ counts. counts ≡ replicate many 0) }
{
    Ok(CountList::from_vec(vec![in alloc; 0; many]?))
}
