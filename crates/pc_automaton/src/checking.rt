//! Whether states are those of an automaton. Nothing here takes memory.
ghost use Rattle.std.specs.Prelude.{◌≡◌, ◌↔◌, true, length, not, map, nat_eq};
ghost use Rattle.std.specs.List.{list_all};
ghost use Rattle.pc_word.specs.Items.{operands_of, dest_of};
ghost use Rattle.pc_automaton.specs.Automaton.{IsAutomaton, states_in, state_in};
ghost use Rattle.pc_automaton.specs.models.Checking.{known_at, knows, knows_item, knows_row, knows_leaf, knows_leaves};
ghost use Rattle.pc_automaton.specs.models.Checking.{writes_in, spares, are_apart, writes_once, stand_once, leads, all_lead, is_state, is_automaton};
ghost use Rattle.pc_word.specs.StoredRow.{row_in};

use crate::automaton::{AutomatonLeaf, AutomatonState};
use pc_window::Home;
use pc_word::{Item, Operand, Operands, RowTree};

/// The names that are known at a place of a row.
#[derive(Drop)]
pub(crate) enum Known<'a> {
    /// Parameters alone.
    Parameters { names: &'a [u32] },
    /// One name more, which is written above.
    Written { name: u32, above: &'a Known<'a> },
}

/// Whether these are the states of an automaton.
#[tactic(auto, using(crate::proofs::Checked::automata))]
pub(crate) fn are_states(states: &[AutomatonState]) -> bool
    ensures { (result ≡ true) ↔ IsAutomaton (states_in states.now) }
{
    is_automaton(states)
}

/// Whether there is a state, and each is one among them.
#[tactic(auto, using(crate::proofs::Checked::automata))]
fn is_automaton(states: &[AutomatonState]) -> bool
    ensures { result ≡ is_automaton (states_in states.now) }
{
    0 < states.len() && are_among(states, states)
}

/// Whether each of some states is one among these.
fn are_among(states: &[AutomatonState], some: &[AutomatonState]) -> bool
    ensures { result ≡ list_all (λ state. is_state (states_in states.now) (state_in state)) some.now }
{
    some.iter().all(|state| is_state(states, state))
}

/// Whether a state is one among these.
fn is_state(states: &[AutomatonState], state: &AutomatonState) -> bool
    ensures { result ≡ is_state (states_in states.now) (state_in state.now) }
{
    let names = state.parameters.as_slice();
    let known = Known::Parameters { names };
    knows_row(&known, &state.row)
        && knows_leaves(&known, &state.row)
        && stand_once(names, &state.row)
        && writes_once(&state.row)
        && all_lead(states, &state.row)
}

/// Whether a name is known.
fn has(known: &Known, name: u32) -> bool
    ensures { result ≡ known_at known.now name }
{
    match known {
        Known::Parameters { names } => names.contains(&name),
        Known::Written {
            name: written,
            above,
        } => *written == name || has(above, name),
    }
}

/// Whether an operand is a literal or a known name.
fn knows(known: &Known, operand: Operand) -> bool
    ensures { result ≡ knows (known_at known.now) operand }
{
    match operand {
        Operand::Name(name) => has(known, name),
        Operand::Lit(_) => true,
    }
}

/// Whether each operand of an item is.
fn knows_item(known: &Known, item: Item) -> bool
    ensures { result ≡ knows_item (known_at known.now) (operands_of item) }
{
    match item.operands() {
        Operands::None => true,
        Operands::One(one) => knows(known, one),
        Operands::Two(one, other) => knows(known, one) && knows(known, other),
    }
}

/// Whether each operand of each item and each test is.
fn knows_row(known: &Known, row: &RowTree<AutomatonLeaf>) -> bool
    ensures { result ≡ knows_row (known_at known.now) (row_in (λ leaf. leaf) row.now) }
{
    match row {
        RowTree::Step { item, next } => knows_item(known, *item) && knows_row(known, next),
        RowTree::Test { on, yes, no } => {
            knows(known, *on) && knows_row(known, yes) && knows_row(known, no)
        }
        RowTree::Leaf { .. } => true,
    }
}

/// Whether each operand of a list is.
fn knows_all(known: &Known, operands: &[Operand]) -> bool
    ensures { result ≡ list_all (knows (known_at known.now)) operands.now }
{
    operands.iter().all(|operand| knows(known, *operand))
}

/// Whether each home's value is.
fn knows_homes(known: &Known, homes: &[Home]) -> bool
    ensures { result ≡ list_all (λ home. knows (known_at known.now) home.value) homes.now }
{
    homes.iter().all(|home| knows(known, home.value))
}

/// Whether a leaf uses what is known.
fn knows_leaf(known: &Known, leaf: &AutomatonLeaf) -> bool
    ensures { result ≡ knows_leaf (known_at known.now) leaf.now }
{
    match leaf {
        AutomatonLeaf::To { arguments, .. } => knows_all(known, arguments.as_slice()),
        AutomatonLeaf::Out { homes, .. } => knows_homes(known, homes.as_slice()),
        AutomatonLeaf::Stop => true,
        AutomatonLeaf::Trap { .. } => true,
    }
}

/// Whether each leaf does, with what is written on the path to it.
fn knows_leaves(known: &Known, row: &RowTree<AutomatonLeaf>) -> bool
    ensures { result ≡ knows_leaves (known_at known.now) (row_in (λ leaf. leaf) row.now) }
{
    match row {
        RowTree::Step { item, next } => match item.dest() {
            Some(name) => {
                let below = Known::Written {
                    name,
                    above: &*known,
                };
                knows_leaves(&below, next)
            }
            None => knows_leaves(known, next),
        },
        RowTree::Test { yes, no, .. } => knows_leaves(known, yes) && knows_leaves(known, no),
        RowTree::Leaf { leaf } => knows_leaf(known, leaf),
    }
}

/// Whether each parameter is listed once and is not written.
fn stand_once(names: &[u32], row: &RowTree<AutomatonLeaf>) -> bool
    ensures { result ≡ stand_once names.now (row_in (λ leaf. leaf) row.now) }
{
    for at in 0..names.len() {
        let name = names[at];
        if names[at + 1..].contains(&name) || writes_in(row, name) {
            return false;
        }
    }
    true
}

/// Whether a row writes a name.
fn writes_in(row: &RowTree<AutomatonLeaf>, name: u32) -> bool
    ensures { result ≡ writes_in (row_in (λ leaf. leaf) row.now) name }
{
    match row {
        RowTree::Step { item, next } => item.writes(name) || writes_in(next, name),
        RowTree::Test { yes, no, .. } => writes_in(yes, name) || writes_in(no, name),
        RowTree::Leaf { .. } => false,
    }
}

/// Whether a row does not write what an item writes.
fn spares(row: &RowTree<AutomatonLeaf>, item: Item) -> bool
    ensures { result ≡ spares (row_in (λ leaf. leaf) row.now) (dest_of item) }
{
    match item.dest() {
        Some(name) => !writes_in(row, name),
        None => true,
    }
}

/// Whether two rows write no name both.
fn are_apart(row: &RowTree<AutomatonLeaf>, other: &RowTree<AutomatonLeaf>) -> bool
    ensures { result ≡ are_apart (row_in (λ leaf. leaf) row.now) (row_in (λ leaf. leaf) other.now) }
{
    match row {
        RowTree::Step { item, next } => spares(other, *item) && are_apart(next, other),
        RowTree::Test { yes, no, .. } => are_apart(yes, other) && are_apart(no, other),
        RowTree::Leaf { .. } => true,
    }
}

/// Whether a row writes no name twice, on whatever path.
fn writes_once(row: &RowTree<AutomatonLeaf>) -> bool
    ensures { result ≡ writes_once (row_in (λ leaf. leaf) row.now) }
{
    match row {
        RowTree::Step { item, next } => spares(next, *item) && writes_once(next),
        RowTree::Test { yes, no, .. } => are_apart(yes, no) && writes_once(yes) && writes_once(no),
        RowTree::Leaf { .. } => true,
    }
}

/// Whether a leaf leads to a state that is there and takes its arguments.
fn leads(states: &[AutomatonState], leaf: &AutomatonLeaf) -> bool
    ensures { result ≡ leads (states_in states.now) leaf.now }
{
    match leaf {
        AutomatonLeaf::To { state, arguments } => match states.get(*state as usize) {
            Some(state) => arguments.len() == state.parameters.len(),
            None => false,
        },
        AutomatonLeaf::Out { .. } => true,
        AutomatonLeaf::Stop => true,
        AutomatonLeaf::Trap { .. } => true,
    }
}

/// Whether each leaf of a row does.
fn all_lead(states: &[AutomatonState], row: &RowTree<AutomatonLeaf>) -> bool
    ensures { result ≡ all_lead (states_in states.now) (row_in (λ leaf. leaf) row.now) }
{
    match row {
        RowTree::Step { next, .. } => all_lead(states, next),
        RowTree::Test { yes, no, .. } => all_lead(states, yes) && all_lead(states, no),
        RowTree::Leaf { leaf } => leads(states, leaf),
    }
}
