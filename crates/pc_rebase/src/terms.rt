//! The terms of a form.
ghost use Rattle.std.specs.Prelude.{◌≡◌, ◌<◌, length, drop};
ghost use Rattle.pc_linear.specs.Form.{IsForm, factor_of};
ghost use Rattle.pc_window.specs.Rebasing.{new_base, free_terms};
ghost use Rattle.pc_window.specs.StoredWindow.{forms_in};
ghost use Rattle.pc_rebase.specs.models.Finding.{variable_below, old_variable};
ghost use Rattle.pc_rebase.specs.models.Turning.{few_of, and_term};

use pc_linear::{LinForm, Term};
use pc_window::is_in;

/// No term, one, or several.
#[derive(Clone, Copy, Debug)]
pub(crate) enum FewTerms {
    Nothing,
    One { term: Term },
    Several,
}

/// The form of a name.
#[tactic(auto, using(crate::proofs::FormTable::reading))]
pub(crate) fn form_of(forms: &[LinForm], name: u32) -> LinForm
    requires { name < length forms.now }
    ensures { result ≡ forms_in forms.now name }
{
    forms[name as usize]
}

/// The factor of a variable in the terms of a form from a place on, and 0 where it has none.
#[tactic(auto, using(crate::proofs::TermPlaces::places))]
pub(crate) fn factor_from(form: &LinForm, variable: u32, place: u16) -> i32
    ensures value { result ≡ factor_of (drop place form.now.terms) variable }
    ensures kept { IsForm form.now }
{
    match form.term(place) {
        None => 0,
        Some(term) => {
            if term.variable == variable {
                term.factor
            } else {
                factor_from(form, variable, place + 1)
            }
        }
    }
}

/// The terms of a form from a place on whose variables are no bases.
#[tactic(auto, using(crate::proofs::TermPlaces::places))]
pub(crate) fn free_terms(form: &LinForm, bases: &[u32], place: u16) -> FewTerms
    ensures { result ≡ few_of (free_terms bases.now (drop place form.now.terms)) }
{
    match form.term(place) {
        None => FewTerms::Nothing,
        Some(term) => {
            let more = free_terms(form, bases, place + 1);
            if is_in(bases, term.variable) {
                more
            } else {
                and_term(term, more)
            }
        }
    }
}

/// A term before others.
fn and_term(term: Term, more: FewTerms) -> FewTerms
    ensures { result ≡ and_term term more }
{
    match more {
        FewTerms::Nothing => FewTerms::One { term },
        FewTerms::One { .. } => FewTerms::Several,
        FewTerms::Several => FewTerms::Several,
    }
}

/// The variable that a form is, with factor 1 and a constant, where it is below a number.
#[tactic(auto, using(crate::proofs::TermPlaces::choices))]
pub(crate) fn old_variable(form: &LinForm, first: usize) -> Option<u32>
    ensures { result ≡ old_variable first form.now.terms }
{
    match form.term(0) {
        None => None,
        Some(term) => match form.term(1) {
            None => variable_below(term, first),
            Some(_) => None,
        },
    }
}

/// The variable of a term with factor 1, where it is below a number.
fn variable_below(term: Term, first: usize) -> Option<u32>
    ensures { result ≡ variable_below first term }
{
    if term.factor == 1 && (term.variable as usize) < first {
        Some(term.variable)
    } else {
        None
    }
}

/// The variable of a term with factor 1, where it is no base.
pub(crate) fn new_base(bases: &[u32], term: Term) -> Option<u32>
    ensures { result ≡ new_base bases.now term }
{
    if term.factor != 1 {
        return None;
    }
    if is_in(bases, term.variable) {
        return None;
    }
    Some(term.variable)
}
