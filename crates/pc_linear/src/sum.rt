//! Sums of two forms, which may have more terms than a form.
ghost use Rattle.std.specs.Prelude.{◌≡◌, ◌↔◌, true};
ghost use Rattle.pc_linear.specs.Form.{IsForm};
ghost use Rattle.pc_linear.specs.Combine.{plus, fitting};
ghost use Rattle.pc_linear.specs.Equality.{PowerTells, IsAlwaysZero};
ghost use Rattle.pc_linear.specs.models.Powers.{twos, common_twos};

use crate::form::{LinForm, MOST_TERMS};
use crate::term::{Term, Terms, add_product, add_times, with_room};
use std::marker::Model;

/// A sum in normal form, with room for the terms of two forms.
#[derive(Drop)]
pub(crate) struct Sum {
    terms: Terms,
    constant: i32,
}

impl Model for Sum {
    ghost use Rattle.std.specs.Coded.{codes};
    ghost use Rattle.pc_linear.specs.Form.{Form, IsNormal};

    ghost Value = { Form };

    ghost coded = { Prim.hlevel codes };

    ghost view = { λ it. record { terms = it.terms.items; constant = it.constant } };

    ghost invariant = { λ it. IsNormal (record { terms = it.terms.items; constant = it.constant }) };
}

impl Sum {
    /// A form, and so many times another.
    pub(crate) fn plus(left: &LinForm, number: i32, right: &LinForm) -> Sum
        ensures sum { result ≡ plus left.now number right.now }
        ensures left { IsForm left.now }
        ensures right { IsForm right.now }
    {
        let mut terms = with_room(left.terms());
        add_times(&mut terms, number, right.terms());
        let constant = add_product(left.offset(), number, right.offset());
        Sum { terms, constant }
    }

    /// The form that the sum is, unless it has too many terms.
    pub(crate) fn fitting(&self) -> Option<LinForm>
        ensures { result ≡ fitting self.now }
    {
        if self.terms.len() > MOST_TERMS {
            return None;
        }
        Some(LinForm::from_parts(self.terms.as_slice(), self.constant))
    }

    /// Whether there is no term and the constant is 0.
    pub(crate) fn is_zero(&self) -> bool
        ensures { (result ≡ true) ↔ IsAlwaysZero self.now }
    {
        self.terms.is_empty() && self.constant == 0
    }

    /// Whether a power of two divides each factor and not the constant.
    pub(crate) fn is_never_zero(&self) -> bool
        ensures { (result ≡ true) ↔ PowerTells self.now }
    {
        twos(self.constant) < common_twos(self.terms.as_slice())
    }
}

/// How many times 2 divides a word, and 32 for 0.
fn twos(number: i32) -> u32
    ensures { result ≡ twos number }
{
    number.unsigned_abs().trailing_zeros()
}

/// How many times 2 divides each factor, and 32 where there is none.
fn common_twos(terms: &[Term]) -> u32
    ensures { result ≡ common_twos 32 terms.now }
{
    let mut common = 32;
    for term in terms {
        common = common.min(twos(term.factor));
    }
    common
}
