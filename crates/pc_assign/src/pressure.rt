//! How many names of a state are live together.
ghost use Rattle.std.specs.Prelude.{◌≡◌, ◌+◌, ◌<◌, ◌≤◌, ◌^◌, suc, length, count_by, MatchOption};
ghost use Rattle.pc_automaton.specs.Automaton.{state_in};
ghost use Rattle.pc_assign.specs.Uses.{row_uses};
ghost use Rattle.pc_assign.specs.Pressure.{most_scratch, pressure_of, row_pressure, IsLow};
ghost use Rattle.pc_assign.specs.models.Choosing.{definitions_in, IsUsedSet};
ghost use Rattle.pc_word.specs.StoredRow.{row_in};

use crate::register_set::{MOST_SCRATCH, RegisterSet};
use crate::uses::{row_uses, used_by};
use pc_automaton::{AutomatonLeaf, AutomatonState};
use pc_word::RowTree;

/// Places of used parameters, and a pressure.
#[derive(Clone, Copy)]
struct Below {
    used: RegisterSet,
    live: u64,
}

/// The pressure of a state with so many names, where it is above the register that is left. It is at
/// most their number, so where there are registers for all of them nothing is counted.
pub(crate) fn high_pressure(scratch: u8, state: &AutomatonState, names: usize) -> Option<u64>
    requires names { definitions_in (row_in (λ leaf. leaf) state.now.row) + length state.now.parameters ≡ names }
    requires fits { names < 2 ^ 63 }
    ensures { MatchOption result (IsLow scratch (state_in state.now)) (λ live. (live ≡ pressure_of (state_in state.now)) × (scratch < live)) }
{
    if names <= usize::from(scratch) {
        return None;
    }
    let live = pressure_of(state);
    if live <= u64::from(scratch) {
        return None;
    }
    Some(live)
}

/// The pressure of a state.
fn pressure_of(state: &AutomatonState) -> u64
    requires { definitions_in (row_in (λ leaf. leaf) state.now.row) + length state.now.parameters < 2 ^ 63 }
    ensures { result ≡ pressure_of (state_in state.now) }
{
    let parameters = state.parameters.as_slice();
    let count = parameters.len() as u64;
    count.max(greatest_pressure(parameters, &state.row))
}

/// The greatest pressure of a row's items.
fn greatest_pressure(parameters: &[u32], row: &RowTree<AutomatonLeaf>) -> u64
    requires { definitions_in (row_in (λ leaf. leaf) row.now) + length parameters.now < 2 ^ 63 }
    ensures { result ≡ row_pressure parameters.now 0 (row_in (λ leaf. leaf) row.now) }
{
    if parameters.len() <= usize::from(MOST_SCRATCH) {
        return pressure_below(parameters, 0, row).live;
    }
    row_pressure(parameters, 0, row)
}

/// What is used at the leaves of a row, and the greatest pressure of its items, below `above`
/// definitions.
fn pressure_below(parameters: &[u32], above: u64, row: &RowTree<AutomatonLeaf>) -> Below
    requires few { length parameters.now ≤ most_scratch }
    requires fits { above + definitions_in (row_in (λ leaf. leaf) row.now) + length parameters.now < 2 ^ 63 }
    ensures used { IsUsedSet (row_uses (row_in (λ leaf. leaf) row.now)) parameters.now result.used }
    ensures live { result.live ≡ row_pressure parameters.now above (row_in (λ leaf. leaf) row.now) }
{
    match row {
        RowTree::Step { item, next } => match item.dest() {
            Some(_) => {
                let below = pressure_below(parameters, above + 1, next);
                let live = above + 1 + u64::from(below.used.count());
                Below {
                    used: below.used,
                    live: live.max(below.live),
                }
            }
            None => pressure_below(parameters, above, next),
        },
        RowTree::Test { yes, no, .. } => {
            let yes = pressure_below(parameters, above, yes);
            let no = pressure_below(parameters, above, no);
            Below {
                used: yes.used.union(no.used),
                live: yes.live.max(no.live),
            }
        }
        RowTree::Leaf { leaf } => Below {
            used: used_by(parameters, leaf),
            live: 0,
        },
    }
}

/// The greatest pressure of a row's items, below `above` definitions, in a state with more parameters
/// than a set holds, which is refused whatever this is.
#[tactic(auto, using(crate::proofs::Pressures::pressures))]
fn row_pressure(parameters: &[u32], above: u64, row: &RowTree<AutomatonLeaf>) -> u64
    requires { above + definitions_in (row_in (λ leaf. leaf) row.now) + length parameters.now < 2 ^ 63 }
    ensures { result ≡ row_pressure parameters.now above (row_in (λ leaf. leaf) row.now) }
{
    match row {
        RowTree::Step { item, next } => match item.dest() {
            Some(_) => item_pressure(parameters, above, next).max(row_pressure(
                parameters,
                above + 1,
                next,
            )),
            None => row_pressure(parameters, above, next),
        },
        RowTree::Test { yes, no, .. } => row_pressure(parameters, above, yes).max(row_pressure(
            parameters, above, no,
        )),
        RowTree::Leaf { .. } => 0,
    }
}

/// The pressure of an item that defines a name above `rest`.
fn item_pressure(parameters: &[u32], above: u64, rest: &RowTree<AutomatonLeaf>) -> u64
    requires { above + 1 + length parameters.now < 2 ^ 63 }
    ensures { result ≡ suc above + count_by (row_uses (row_in (λ leaf. leaf) rest.now)) parameters.now }
{
    let used = parameters
        .iter()
        .filter(|name| row_uses(rest, **name))
        .count();
    above + 1 + used as u64
}
