//! Which names of a schedule's states hold which scalars.
ghost use Rattle.std.specs.Prelude.{◌≡◌, ◌≤◌, ◌<◌, ◌^◌, length, IfOk};
ghost use Rattle.pc_automaton.specs.Automaton.{states_in, state_in};
ghost use Rattle.pc_told.specs.Tellings.{telling_in, tellings_in};
ghost use Rattle.pc_variables.specs.Holdings.{holdings_of, variables_of};

use crate::assigned::push_assigned;
use crate::entering::{push_entering, push_own};
use crate::{HoldingList, VariableList};
use pc_automaton::{Automaton, AutomatonState};
use pc_flow::Flow;
use pc_told::ToldRow;
use std::alloc::{AllocError, Global};

/// The names of a state that hold scalars, by what those of the states before it hold.
fn holdings_of(
    alloc: Global,
    flow: &Flow,
    automaton: &Automaton,
    earlier: &[HoldingList],
    state: &AutomatonState,
    told: &ToldRow,
) -> Result<HoldingList, AllocError>
    requires there { length earlier.now ≤ length automaton.now }
    requires few { length automaton.now < 2 ^ 32 }
    ensures { IfOk result (λ holdings. holdings ≡ holdings_of flow.now (states_in automaton.now) earlier.now (state_in state.now) (telling_in told.now)) }
{
    let mut holdings = HoldingList::new(alloc);
    let parameters = state.parameters.as_slice();
    if earlier.is_empty() {
        push_own(&mut holdings, parameters)?;
    } else {
        push_entering(
            &mut holdings,
            automaton,
            earlier,
            earlier.len() as u32,
            parameters,
        )?;
    }
    push_assigned(&mut holdings, flow, &state.row, told)?;
    Ok(holdings)
}

/// For each state of an automaton of whose rows it is told, the names that hold scalars of the source, each at most once.
///
/// A name holds a scalar where an item writes it that comes from a node of the flow graph which assigns the scalar, or whose value the
/// next node copies to it; where it is a
/// parameter of the first state, whose parameters are the variables themselves; or where it is a parameter of another state, and the
/// first leaf that leads there, of the states before it in their order, passes it a name that holds the scalar. It is not said that
/// all such names are found: states are gone through once, in their order. It takes time in proportion to the square of the states.
pub fn variables(
    alloc: Global,
    flow: &Flow,
    automaton: &Automaton,
    rows: &[ToldRow],
) -> Result<VariableList, AllocError>
    requires told { length rows.now ≡ length automaton.now }
    requires few { length automaton.now < 2 ^ 32 }
    ensures { IfOk result (λ variables. variables ≡ variables_of flow.now (states_in automaton.now) (tellings_in rows.now)) }
{
    let mut variables = VariableList::new(alloc);
    for (number, row) in rows.iter().enumerate() {
        let state = automaton.state(number as u32);
        let holdings = holdings_of(alloc, flow, automaton, variables.as_slice(), state, row)?;
        variables.push(holdings)?;
    }
    Ok(variables)
}
