//! The first row that is cut off a window, and states that are an automaton or none.

use crate::tables::{LIMITS, PRINTED};
use pc_automaton::{
    Automaton, AutomatonLeaf, AutomatonState, Left, OperandList, StateList, cut_front,
};
use pc_table::VarList;
use pc_window_specimen::{Untold, bin, opened, print, table};
use pc_word::{OpCode, Operand, RowTree};
use std::alloc::{AllocError, Global};
use std::test::Fail;

/// Whether a row prints a literal and then ends.
fn prints_and_stops(row: &RowTree<Left>, printed: i32) -> bool {
    let RowTree::Step { item, next } = row else {
        return false;
    };
    let is_leaf = match &**next {
        RowTree::Leaf { leaf: Left::Stop } => true,
        _ => false,
    };
    is_leaf && *item == print(Operand::Lit(printed))
}

/// Whether the row that is cut off the window of the print alone is this print.
#[tactic(auto, using(pc_table::proofs::StoredRegions::some_region, pc_automaton::proofs::Cuts::behind))]
fn cuts_the_print(alloc: Global) -> Result<bool, Untold> {
    let table = table(alloc, &PRINTED)?;
    let window = opened(alloc, &table, 0, LIMITS)?;
    let row = cut_front(alloc, window, &table)?;
    Ok(prints_and_stops(&row, 7))
}

#[test]
fn the_front_of_an_opened_window_is_its_first_item(rt: HostRuntime) -> Result<(), Fail> {
    assert!(rt; cuts_the_print(rt.alloc())?);
    Ok(())
}

/// States, of which the only one has a parameter, adds 1 to it, and leads back with one or two
/// arguments.
fn counting(alloc: Global, arguments: u32) -> Result<StateList, AllocError> {
    let mut passed = OperandList::new(alloc);
    for _ in 0..arguments {
        passed.push(Operand::Name(1))?;
    }
    let leaf = RowTree::Leaf {
        leaf: AutomatonLeaf::To {
            state: 0,
            arguments: passed,
        },
    };
    let next = Box::new(alloc, leaf)?;
    let row = RowTree::Step {
        item: bin(OpCode::Add, 1, Operand::Name(0), Operand::Lit(1)),
        next,
    };
    let mut parameters = VarList::new(alloc);
    parameters.push(0)?;
    let mut states = StateList::new(alloc);
    states.push(AutomatonState { parameters, row })?;
    Ok(states)
}

/// How many states are handed back, where they are no automaton.
fn handed_back(made: Result<Automaton, StateList>) -> Option<usize> {
    match made {
        Ok(_) => None,
        Err(states) => Some(states.len()),
    }
}

#[test]
fn no_states_and_states_that_do_not_fit_are_handed_back(rt: HostRuntime) -> Result<(), Fail> {
    let none = Automaton::new(StateList::new(rt.alloc()));
    assert_eq!(&rt; handed_back(none), Some(0));
    let fits = Automaton::new(counting(rt.alloc(), 1)?);
    assert_eq!(&rt; handed_back(fits), None);
    let passes_two = Automaton::new(counting(rt.alloc(), 2)?);
    assert_eq!(&rt; handed_back(passes_two), Some(1));
    Ok(())
}
