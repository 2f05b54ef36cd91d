//! Registers for the names of automata.
ghost use Rattle.std.specs.Prelude.{◌≤◌, length, IfOk};

use pc_assign::{
    AssignError, Assigned, assign, begins_with_variables, law_of_live_names, law_of_one_rule,
};
use pc_automaton::{Automaton, AutomatonLeaf, AutomatonState, OperandList, StateList};
use pc_table::VarList;
use pc_word::{Item, Operand, RowTree};
use std::alloc::{AllocError, Global};
use std::test::Fail;

/// A leaf that passes these to a state.
fn passing(
    alloc: Global,
    state: u32,
    passed: &[Operand],
) -> Result<RowTree<AutomatonLeaf>, AllocError> {
    let arguments = OperandList::from_slice(alloc, passed)?;
    let leaf = AutomatonLeaf::To { state, arguments };
    Ok(RowTree::Leaf { leaf })
}

/// A row with a name defined before it.
fn defining(
    alloc: Global,
    dest: u32,
    next: RowTree<AutomatonLeaf>,
) -> Result<RowTree<AutomatonLeaf>, AllocError> {
    let next = Box::new(alloc, next)?;
    Ok(RowTree::Step {
        item: Item::Read { dest },
        next,
    })
}

/// A row that defines as many names, counted down to 100, and then stops.
fn defining_many(alloc: Global, count: u16) -> Result<RowTree<AutomatonLeaf>, AllocError> {
    let mut row = RowTree::Leaf {
        leaf: AutomatonLeaf::Stop,
    };
    for name in 0..count {
        row = defining(alloc, 100 + u32::from(name), row)?;
    }
    Ok(row)
}

/// A list of one or two states.
fn listed(
    first: AutomatonState,
    second: Option<AutomatonState>,
    mut states: StateList,
) -> Result<StateList, AllocError>
    requires { length states ≤ 0 }
    ensures { IfOk result (λ list. length list ≤ 2) }
{
    states.push(first)?;
    if let Some(second) = second {
        states.push(second)?;
    }
    Ok(states)
}

/// What `assign` gives, if these are states of an automaton whose first parameters are variables.
fn assigned(alloc: Global, states: StateList) -> Option<Result<Assigned, AssignError>>
    requires { length states ≤ 2 }
{
    let automaton = match Automaton::new(states) {
        Ok(automaton) => automaton,
        Err(_) => return None,
    };
    if !begins_with_variables(&automaton) {
        return None;
    }
    Some(assign(alloc, &automaton))
}

/// Whether names of a state have these registers.
fn are(
    found: &Option<Result<Assigned, AssignError>>,
    state: u32,
    names: &[(u32, Option<u32>)],
) -> bool {
    match found {
        Some(Ok(registers)) => names
            .iter()
            .all(|pair| registers.register(state, pair.0) == pair.1),
        Some(Err(_)) => false,
        None => false,
    }
}

/// Whether registers were given, and this one is left for moves.
fn leaves(found: &Option<Result<Assigned, AssignError>>, scratch: u8) -> bool {
    match found {
        Some(Ok(registers)) => registers.scratch() == scratch,
        Some(Err(_)) => false,
        None => false,
    }
}

/// Whether this was refused so.
fn is_refused(found: &Option<Result<Assigned, AssignError>>, state: u32, live: u64) -> bool {
    match found {
        Some(Ok(_)) => false,
        Some(Err(why)) => *why == AssignError::Pressure { state, live },
        None => false,
    }
}

/// A state that has these parameters and this row.
fn made(
    alloc: Global,
    parameters: &[u32],
    row: RowTree<AutomatonLeaf>,
) -> Result<AutomatonState, AllocError> {
    let parameters = VarList::from_slice(alloc, parameters)?;
    Ok(AutomatonState { parameters, row })
}

#[test]
fn a_parameter_takes_the_register_of_what_it_is_passed(rt: HostRuntime) -> Result<(), Fail> {
    let alloc = rt.alloc();
    let passed = [
        Operand::Name(101),
        Operand::Name(3),
        Operand::Name(101),
        Operand::Lit(7),
    ];
    let leaf = passing(alloc, 1, &passed)?;
    let row = defining(alloc, 101, leaf)?;
    let row = defining(alloc, 100, row)?;
    let first = made(alloc, &[3, 0], row)?;
    let last = defining_many(alloc, 0)?;
    let second = made(alloc, &[0, 1, 2, 3], last)?;
    let states = listed(first, Some(second), StateList::new(alloc))?;
    let found = assigned(alloc, states);
    let of_first = [
        (3, Some(3)),
        (0, Some(0)),
        (100, Some(1)),
        (101, Some(2)),
        (7, None),
    ];
    let of_second = [
        (0, Some(2)),
        (1, Some(3)),
        (2, Some(0)),
        (3, Some(1)),
        (101, None),
    ];
    assert!(&rt; are(&found, 0, &of_first));
    assert!(&rt; are(&found, 1, &of_second));
    assert!(&rt; are(&found, 2, &[(0, None)]));
    Ok(())
}

#[test]
fn two_sides_of_a_test_share_registers(rt: HostRuntime) -> Result<(), Fail> {
    let alloc = rt.alloc();
    let yes = defining_many(alloc, 1)?;
    let leaf = defining_many(alloc, 0)?;
    let no = defining(alloc, 200, leaf)?;
    let row = RowTree::Test {
        on: Operand::Name(5),
        yes: Box::new(alloc, yes)?,
        no: Box::new(alloc, no)?,
    };
    let first = made(alloc, &[5], row)?;
    let states = listed(first, None, StateList::new(alloc))?;
    let found = assigned(alloc, states);
    assert!(&rt; are(&found, 0, &[(5, Some(5)), (100, Some(0)), (200, Some(0))]));
    Ok(())
}

/// What `assign` gives for a state without parameters that defines as many names.
fn defined(alloc: Global, count: u16) -> Result<Option<Result<Assigned, AssignError>>, AllocError> {
    let row = defining_many(alloc, count)?;
    let first = made(alloc, &[], row)?;
    let states = listed(first, None, StateList::new(alloc))?;
    Ok(assigned(alloc, states))
}

#[test]
fn a_pressure_of_128_takes_more_registers(rt: HostRuntime) -> Result<(), Fail> {
    let few = defined(rt.alloc(), 127)?;
    assert!(&rt; leaves(&few, 127));
    assert!(&rt; are(&few, 0, &[(226, Some(0)), (100, Some(126))]));
    let most = defined(rt.alloc(), 128)?;
    assert!(&rt; leaves(&most, 255));
    assert!(&rt; are(&most, 0, &[(227, Some(0)), (100, Some(127))]));
    Ok(())
}

#[test]
fn a_pressure_of_256_is_refused(rt: HostRuntime) -> Result<(), Fail> {
    let most = defined(rt.alloc(), 255)?;
    assert!(&rt; are(&most, 0, &[(354, Some(0)), (100, Some(254))]));
    let more = defined(rt.alloc(), 256)?;
    assert!(&rt; is_refused(&more, 0, 256));
    Ok(())
}

/// What `assign` gives for two states, the second of which has as many parameters, each of them passed 0.
fn passed(alloc: Global, count: u32) -> Result<Option<Result<Assigned, AssignError>>, AllocError> {
    let mut zeros = Vec::new(alloc);
    let mut parameters = Vec::new(alloc);
    for name in 0..count {
        zeros.push(Operand::Lit(0))?;
        parameters.push(name)?;
    }
    let row = passing(alloc, 1, zeros.as_slice())?;
    let first = made(alloc, &[], row)?;
    let last = defining_many(alloc, 0)?;
    let second = made(alloc, parameters.as_slice(), last)?;
    let states = listed(first, Some(second), StateList::new(alloc))?;
    Ok(assigned(alloc, states))
}

#[test]
fn a_state_with_256_parameters_is_refused(rt: HostRuntime) -> Result<(), Fail> {
    let few = passed(rt.alloc(), 127)?;
    assert!(&rt; leaves(&few, 127));
    assert!(&rt; are(&few, 1, &[(0, Some(0)), (126, Some(126))]));
    let most = passed(rt.alloc(), 255)?;
    assert!(&rt; leaves(&most, 255));
    assert!(&rt; are(&most, 1, &[(0, Some(0)), (254, Some(254))]));
    let more = passed(rt.alloc(), 256)?;
    assert!(&rt; is_refused(&more, 1, 256));
    Ok(())
}

#[test]
fn a_parameter_that_is_used_no_more_gives_its_register(rt: HostRuntime) -> Result<(), Fail> {
    let alloc = rt.alloc();
    let row = defining_many(alloc, 127)?;
    let first = made(alloc, &[0, 2], row)?;
    let states = listed(first, None, StateList::new(alloc))?;
    let found = assigned(alloc, states);
    assert!(&rt;
        are(
            &found,
            0,
            &[
                (226, Some(1)),
                (102, Some(126)),
                (101, Some(0)),
                (100, Some(2))
            ]
        )
    );
    Ok(())
}

#[test]
fn the_laws_hold() {
    law_of_live_names();
    law_of_one_rule();
}
