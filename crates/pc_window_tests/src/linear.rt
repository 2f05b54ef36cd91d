//! Linear forms.
use pc_linear::{LinForm, Term, laws_of_sums, laws_of_values};
use pc_word::OpCode;
use std::test::Fail;

/// The numbers of the form variables that the tests use.
const V: u32 = 3;

const W: u32 = 7;

/// A factor times a variable and a constant.
fn linear(factor: i32, variable: u32, constant: i32) -> Option<LinForm> {
    let term = LinForm::combine(
        OpCode::Mul,
        &LinForm::constant(factor),
        &LinForm::variable(variable),
    )?;
    LinForm::combine(OpCode::Add, &term, &LinForm::constant(constant))
}

/// Two forms of one term, and whether they are never and always equal. The values were found by hand:
/// 2v is even, 2v + 1 and 4w + 1 are odd, and 2v is 4w + 2 where v is 2w + 1.
const EQUALITIES: &[((i32, u32, i32), (i32, u32, i32), bool, bool)] = &[
    ((2, V, 0), (2, V, 1), true, false),
    ((2, V, 0), (4, W, 1), true, false),
    ((2, V, 0), (4, W, 2), false, false),
    ((1, V, 1), (1, V, 0), true, false),
    ((1, V, 0), (1, V, 0), false, true),
    ((1, V, 0), (1, W, 0), false, false),
    ((0, V, 5), (0, W, 5), false, true),
    ((0, V, 5), (0, V, 6), true, false),
    ((i32::MIN, V, 1), (0, V, 0), true, false),
    ((i32::MIN, V, i32::MIN), (0, V, 0), false, false),
];

#[test]
fn equalities(rt: HostRuntime) -> Result<(), Fail> {
    for (left, right, never, always) in EQUALITIES {
        let left = linear(left.0, left.1, left.2).ok_or("left")?;
        let right = linear(right.0, right.1, right.2).ok_or("right")?;
        assert_eq!(rt; left.never_equal(&right), *never, "{left:?} and {right:?}");
        assert_eq!(rt;
            left.always_equal(&right),
            *always,
            "{left:?} and {right:?}"
        );
    }
    Ok(())
}

/// Whether a form has this constant and these terms, each a variable and a factor.
fn has_parts(form: &LinForm, constant: i32, terms: &[(u32, i32)]) -> bool {
    for place in 0..4u16 {
        let wanted = match terms.get(place as usize) {
            Some((variable, factor)) => Some(Term {
                variable: *variable,
                factor: *factor,
            }),
            None => None,
        };
        if form.term(place) != wanted {
            return false;
        }
    }
    form.term(4) == None && form.term(u16::MAX) == None && form.offset() == constant
}

#[test]
fn parts(rt: HostRuntime) -> Result<(), Fail> {
    let form = linear(-3, V, 5).ok_or("linear")?;
    assert!(rt; has_parts(&form, 5, &[(V, -3)]));
    Ok(())
}

/// Operators on two forms of one term, and the one term and constant that they give.
const COMBINED: &[(
    OpCode,
    (i32, u32, i32),
    (i32, u32, i32),
    Option<(i32, u32, i32)>,
)] = &[
    (
        OpCode::Add,
        (i32::MIN, V, 0),
        (i32::MIN, V, 0),
        Some((0, V, 0)),
    ),
    (OpCode::Add, (2, V, 3), (5, V, 7), Some((7, V, 10))),
    (OpCode::Sub, (2, V, 3), (5, V, 7), Some((-3, V, -4))),
    (OpCode::Mul, (2, V, 3), (0, V, -4), Some((-8, V, -12))),
    (
        OpCode::Mul,
        (0, V, 65536),
        (65536, W, 1),
        Some((0, V, 65536)),
    ),
    (OpCode::Mul, (2, V, 3), (1, W, 0), None),
    (OpCode::Shl, (3, V, 1), (0, V, 33), Some((6, V, 2))),
    (
        OpCode::Shl,
        (3, V, 1),
        (0, V, -1),
        Some((i32::MIN, V, i32::MIN)),
    ),
    (OpCode::Shl, (0, V, 1), (3, V, 1), None),
    (OpCode::Div, (2, V, 2), (0, V, 2), None),
    (OpCode::Div, (0, V, 7), (0, V, 0), Some((0, V, 0))),
    (OpCode::Below, (0, V, 1), (0, V, -1), Some((0, V, 1))),
];

/// Whether an operator on two forms gives this one, or none; nothing where one of them is no form.
fn gives(
    op: OpCode,
    left: (i32, u32, i32),
    right: (i32, u32, i32),
    want: Option<(i32, u32, i32)>,
) -> Option<bool> {
    let left = linear(left.0, left.1, left.2)?;
    let right = linear(right.0, right.1, right.2)?;
    let found = LinForm::combine(op, &left, &right);
    let Some(want) = want else {
        return Some(found.is_none());
    };
    let want = linear(want.0, want.1, want.2)?;
    Some(found == Some(want))
}

#[test]
fn operators(rt: HostRuntime) -> Result<(), Fail> {
    for (number, (op, left, right, want)) in COMBINED.iter().enumerate() {
        let is_so = gives(*op, *left, *right, *want);
        assert!(rt; is_so == Some(true), "{number}");
    }
    Ok(())
}

/// The sum of 9 and four variables.
fn four_terms() -> Option<LinForm> {
    let mut four = LinForm::constant(9);
    for variable in [8, 2, 6, 4] {
        four = LinForm::combine(OpCode::Add, &four, &LinForm::variable(variable))?;
    }
    Some(four)
}

/// A form with variable 5 in the place of variable 6.
fn exchanged(four: &LinForm) -> Option<LinForm> {
    let less = linear(-1, 6, 0)?;
    let swap = LinForm::combine(OpCode::Add, &LinForm::variable(5), &less)?;
    LinForm::combine(OpCode::Add, four, &swap)
}

#[test]
fn many_terms(rt: HostRuntime) -> Result<(), Fail> {
    let four = four_terms().ok_or("four terms")?;
    let fifth = LinForm::variable(5);
    assert!(rt; LinForm::combine(OpCode::Add, &four, &fifth).is_none());
    let form = exchanged(&four).ok_or("four terms again")?;
    assert!(rt; has_parts(&form, 9, &[(2, 1), (4, 1), (5, 1), (8, 1)]));
    laws_of_sums();
    laws_of_values();
    Ok(())
}
