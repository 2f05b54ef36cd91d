//! Linear forms.
ghost use Rattle.std.specs.Prelude.{◌≡◌, ◌<◌, ◌≤◌, ◌↔◌, length, slice_get, slice_index, IfSome, [], true, false};
ghost use Rattle.std.specs.List.{AllByRecursion};
ghost use Rattle.pc_linear.specs.declared.term.Term.{Term};
ghost use Rattle.pc_linear.specs.Form.{Form, IsForm, most_terms, in_variables};
ghost use Rattle.pc_linear.specs.Combine.{constant_form, variable_form, combine, difference, constant_of, times_form, fitting, shift_factor};
ghost use Rattle.pc_linear.specs.Equality.{NeverEqual, SometimesEqual, AlwaysEqual, IsNeverZero, IsAlwaysZero};
ghost use Rattle.pc_linear.specs.Laws.{HasValueOf, MeansResultOf};
ghost use Rattle.pc_linear.specs.models.Stored.{places};

use crate::sum::Sum;
use crate::term::{Term, set_variables};
use pc_word::{OpCode, apply, shl};
use std::marker::Model;

/// How many terms a form may have.
pub(crate) const MOST_TERMS: usize = 4;

/// A linear form: a constant, and at most four terms, each a factor times a form variable.
///
/// Its value, where each variable has a value, is a number modulo 2^32, as a word. Variables rise,
/// and no factor is 0, so forms that are always equal are equal. Nothing here takes memory.
#[derive(Clone, Copy, Debug, PartialEq, Eq)]
pub struct LinForm {
    terms: [Term; MOST_TERMS],
    count: usize,
    constant: i32,
}

impl Model for LinForm {
    ghost use Rattle.std.specs.Coded.{codes};
    ghost use Rattle.pc_linear.specs.Form.{Form};

    ghost Value = { Form };

    ghost coded = { Prim.hlevel codes };

    ghost use Rattle.pc_linear.specs.Equality.{NeverEqual, SometimesEqual, AlwaysEqual, IsNeverZero, IsAlwaysZero};
    ghost use Rattle.pc_linear.specs.Laws.{HasValueOf, MeansResultOf};
    ghost use Rattle.pc_linear.specs.models.Stored.{form_of, stored, IsStored};

    ghost view = { form_of };

    ghost invariant = { IsStored };

    ghost inverse = { stored };

    ghost inverse_ok = { λ it kept. kept.only };
}

impl LinForm {
    /// The form that is a number alone.
    pub fn constant(value: i32) -> LinForm
        ensures value { result ≡ constant_form value }
        ensures kept { IsForm result }
    {
        LinForm {
            terms: [Term::default(); MOST_TERMS],
            count: 0,
            constant: value,
        }
    }

    /// The form that is a variable alone.
    pub fn variable(number: u32) -> LinForm
        ensures value { result ≡ variable_form number }
        ensures kept { IsForm result }
    {
        let mut terms = [Term::default(); MOST_TERMS];
        terms[0] = Term {
            variable: number,
            factor: 1,
        };
        LinForm {
            terms,
            count: 1,
            constant: 0,
        }
    }

    /// The form with these terms and this constant.
    pub(crate) fn from_parts(terms: &[Term], constant: i32) -> LinForm
        requires { IsForm (record { terms = terms.now; constant = constant }) }
        ensures { result ≡ record { terms = terms.now; constant = constant } }
    {
        LinForm {
            terms: in_places(terms),
            count: terms.len(),
            constant,
        }
    }

    /// What an operator makes of two forms, where that is linear; `None` where it is not, or where it
    /// has more than four terms.
    ///
    /// Add and Sub go term by term. Mul is linear where one side is a constant, and Shl where the count
    /// is one: it is Mul by 2^(count mod 32). Every operator gives the constant of two constants.
    pub fn combine(op: OpCode, left: &LinForm, right: &LinForm) -> Option<LinForm>
        ensures value { result ≡ combine op left.now right.now }
        ensures kept { IfSome result IsForm }
        ensures left { IsForm left.now }
        ensures right { IsForm right.now }
        ensures values { IfSome result (λ form. HasValueOf op left.now right.now form) }
        ensures means { IfSome result (λ form. MeansResultOf op left.now right.now form) }
    {
        combined(op, left, right)
    }

    /// Whether no values of the variables make the forms equal modulo 2^32.
    ///
    /// So it is exactly where some power of two, from 2^1 to 2^32, divides every factor of their
    /// difference and not its constant.
    pub fn never_equal(&self, other: &LinForm) -> bool
        ensures never { (result ≡ true) ↔ NeverEqual self.now other.now }
        ensures sometimes { (result ≡ false) ↔ SometimesEqual self.now other.now }
        ensures difference { (result ≡ true) ↔ IsNeverZero (difference self.now other.now) }
    {
        Sum::plus(self, -1, other).is_never_zero()
    }

    /// Whether all values of the variables make the forms equal modulo 2^32, so whether they are the
    /// same form.
    pub fn always_equal(&self, other: &LinForm) -> bool
        ensures always { (result ≡ true) ↔ AlwaysEqual self.now other.now }
        ensures difference { (result ≡ true) ↔ IsAlwaysZero (difference self.now other.now) }
        ensures same { (result ≡ true) ↔ (self.now ≡ other.now) }
    {
        Sum::plus(self, -1, other).is_zero()
    }

    /// The term at a place, counted from 0; `None` where the form has no more than `place` terms.
    pub fn term(&self, place: u16) -> Option<Term>
        ensures value { result ≡ slice_get self.now.terms place }
        ensures kept { IsForm self.now }
    {
        self.terms().get(place as usize).copied()
    }

    /// The form in other variables: `numbers` gives each variable another one, and has to let them rise as before.
    pub fn in_variables(&self, numbers: &[u32]) -> LinForm
        requires below { AllByRecursion (λ (term : Term). term.variable < length numbers.now) self.now.terms }
        requires form { IsForm self.now → IsForm (in_variables (slice_index numbers.now) self.now) }
        ensures { result ≡ in_variables (slice_index numbers.now) self.now }
    {
        let mut terms = self.terms;
        set_variables(&mut terms[..self.count], numbers);
        LinForm {
            terms,
            count: self.count,
            constant: self.constant,
        }
    }

    /// The constant.
    pub fn offset(&self) -> i32
        ensures value { result ≡ self.now.constant }
        ensures kept { IsForm self.now }
    {
        self.constant
    }

    /// The terms, in the order of their variables.
    pub(crate) fn terms(&self) -> &[Term]
        ensures terms { result.now ≡ self.now.terms }
        ensures kept { IsForm self.now }
    {
        &self.terms[..self.count]
    }

    /// The number that the form is, where it has no term.
    fn as_constant(&self) -> Option<i32>
        ensures value { result ≡ constant_of self.now }
        ensures kept { IsForm self.now }
    {
        if self.terms().is_empty() {
            Some(self.constant)
        } else {
            None
        }
    }

    /// The form, so many times.
    fn times(&self, number: i32) -> Option<LinForm>
        ensures { result ≡ fitting (times_form self.now number) }
    {
        Sum::plus(&LinForm::constant(0), number, self).fitting()
    }

    /// The form shifted to the left by a count, which is taken modulo 32.
    fn shifted(&self, count: i32) -> Option<LinForm>
        ensures { result ≡ fitting (times_form self.now (shift_factor count)) }
    {
        self.times(shl(1, count))
    }
}

/// What an operator makes of two forms, where that is a form.
fn combined(op: OpCode, left: &LinForm, right: &LinForm) -> Option<LinForm>
    ensures value { result ≡ combine op left.now right.now }
    ensures left { IsForm left.now }
    ensures right { IsForm right.now }
{
    match (op, left.as_constant(), right.as_constant()) {
        (_, Some(a), Some(b)) => Some(LinForm::constant(apply(op, a, b))),
        (OpCode::Add, ..) => Sum::plus(left, 1, right).fitting(),
        (OpCode::Sub, ..) => Sum::plus(left, -1, right).fitting(),
        (OpCode::Mul, _, Some(number)) => left.times(number),
        (OpCode::Mul, Some(number), None) => right.times(number),
        (OpCode::Shl, _, Some(count)) => left.shifted(count),
        _ => None,
    }
}

/// Terms in the places of a form, of which the others are blank.
fn in_places(terms: &[Term]) -> [Term; MOST_TERMS]
    requires { length terms.now ≤ most_terms }
    ensures { result ≡ places terms.now }
{
    let mut places = [Term::default(); MOST_TERMS];
    places[..terms.len()].copy_from_slice(terms);
    places
}
