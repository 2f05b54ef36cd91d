//! What stands above the row of a state.
ghost use Rattle.std.specs.Prelude.{◌≡◌, ◌++◌, OnOk, string_bytes};
ghost use Rattle.pc_word.specs.StoredRow.{row_in};
ghost use Rattle.pc_automaton.specs.Automaton.{state_in};
ghost use Rattle.pc_automaton.specs.RowFits.{RowFits};
ghost use Rattle.pc_explain.specs.Heading.{count_words, heading};
ghost use Rattle.pc_explain.specs.Naming.{naming_in};
ghost use Rattle.pc_explain.specs.models.Counted.{HasFew};

use crate::counts::count;
use crate::leaves::push_parameters;
use crate::naming::StateNaming;
use pc_automaton::{AutomatonLeaf, AutomatonState};
use pc_machine::Counts;
use pc_word::{Limits, RowTree};
use std::alloc::AllocError;

/// Appends what stands above the row of a state to a text, without a line feed: its number, what its row has of what it may have, and
/// the parameters that it takes.
pub fn push_heading(
    text: &mut String,
    limits: Limits,
    naming: StateNaming,
    number: u32,
    state: &AutomatonState,
) -> Result<(), AllocError>
    requires { RowFits limits (state_in state.now).row }
    ensures { OnOk result (string_bytes text.new ≡ string_bytes text.old ++ heading limits (naming_in naming.entry) number (state_in state.now)) }
{
    push_count_words(text, limits, number, &state.row)?;
    text.push_str("; takes")?;
    push_parameters(text, naming, state.parameters.as_slice())
}

/// Appends the number of a state, and what its row has of what it may have, to a text.
#[tactic(auto, unfolding(crate::specs::Heading::count_words))]
fn push_count_words(
    text: &mut String,
    limits: Limits,
    number: u32,
    row: &RowTree<AutomatonLeaf>,
) -> Result<(), AllocError>
    requires { HasFew (row_in (λ leaf. leaf) row.now) }
    ensures { OnOk result (string_bytes text.new ≡ string_bytes text.old ++ count_words limits number (row_in (λ leaf. leaf) row.now)) }
{
    let Counts { ops, tests, mem } = count(row);
    let (most_ops, most_tests, most_mem) = (limits.ops, limits.tests, limits.mem);
    write!(
        text,
        "    state {number}: {ops} of {most_ops} items, {tests} of {most_tests} tests, {mem} of {most_mem} loads and stores"
    )
}
