//! A window that is rebased.
use crate::tables::{LIMITS, TWO_VARIABLES};
use pc_linear::{LinForm, Term};
use pc_rebase::rebase;
use pc_window::{NumberList, Window, WindowTree, parameters_of};
use pc_window_specimen::{Untold, first_window};
use pc_word::{Item, OpCode, Operand};
use std::alloc::{AllocError, Global};
use std::test::Fail;

/// The window of the two variables, rebased.
fn rebased(alloc: Global) -> Result<Window, Untold> {
    let window = first_window(alloc, &TWO_VARIABLES, LIMITS)?;
    Ok(rebase(alloc, window)?)
}

/// Whether a form has these factors, and no other term and no constant.
fn has_factors(form: LinForm, one: (u32, i32), other: Option<(u32, i32)>) -> bool {
    let one = Term {
        variable: one.0,
        factor: one.1,
    };
    let other = match other {
        Some(other) => Some(Term {
            variable: other.0,
            factor: other.1,
        }),
        None => None,
    };
    form.term(0) == Some(one) && form.term(1) == other && form.term(2) == None && form.offset() == 0
}

/// Names, and the factors of their forms once the window is rebased: x is used first, so it is the
/// first base, 96, and y is 97. The item that doubles writes the name 96, and the sum is 97; the
/// name 4 stands nowhere.
const FACTORS: &[(u32, (u32, i32), Option<(u32, i32)>)] = &[
    (3, (96, 1), None),
    (2, (97, 1), None),
    (96, (96, 2), None),
    (97, (96, 2), Some((97, 1))),
    (4, (4, 1), None),
];

/// Whether the forms of a window are these.
fn has_forms(window: &Window) -> bool {
    for (name, one, other) in FACTORS {
        let form = window.names.form(Operand::Name(*name));
        if !has_factors(form, *one, *other) {
            return false;
        }
    }
    window.names.next_variable == 98
}

#[test]
fn parameters_become_bases(rt: HostRuntime) -> Result<(), Fail> {
    let is_so = match rebased(rt.alloc()) {
        Ok(window) => has_forms(&window),
        Err(_) => false,
    };
    assert!(&rt; is_so);
    Ok(())
}

/// The parameters of `c = b + a;`, where a, b and c are the names 0, 1 and 2.
fn parameters(alloc: Global) -> Result<NumberList, AllocError> {
    let sum = Item::Bin {
        op: OpCode::Add,
        dest: 2,
        left: Operand::Name(1),
        right: Operand::Name(0),
    };
    let tree = WindowTree::Step {
        tag: 0,
        origin: 0,
        item: sum,
        rest: Box::new(alloc, WindowTree::Stop)?,
    };
    parameters_of(alloc, &tree, 3)
}

#[test]
fn parameters_stand_in_the_order_of_first_use(rt: HostRuntime) -> Result<(), Fail> {
    let is_so = match parameters(rt.alloc()) {
        Ok(names) => names.as_slice() == [1, 0].as_slice(),
        Err(_) => false,
    };
    assert!(&rt; is_so);
    Ok(())
}
