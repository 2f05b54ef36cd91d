//! What form variables stand for while parameters become bases.
ghost use Rattle.std.specs.Prelude.{◌≡◌, ◌<◌, ◌≤◌, ◌+◌, pos, length, drop, IfOk};
ghost use Rattle.pc_linear.specs.Form.{IsForm};
ghost use Rattle.pc_linear.specs.Combine.{plus, times_form};
ghost use Rattle.pc_rebase.specs.models.Standing.{shifted, stands_in, is_itself, all_stay, and_terms, written_by, each_itself};

use pc_linear::LinForm;
use pc_word::{OpCode, Seq};
use std::alloc::{AllocError, Global};

/// What a form variable stands for: a variable, and a constant that is added to it.
#[derive(Clone, Copy, Debug)]
pub(crate) struct Standing {
    pub(crate) variable: u32,
    pub(crate) offset: i32,
}

/// What form variables stand for, by their numbers.
pub(crate) type StandingList = Seq<Standing>;

/// The form variables below a number, each of which stands for itself.
#[tactic(auto, using(crate::proofs::Stored::entries))]
pub(crate) fn each_itself(alloc: Global, count: u32) -> Result<StandingList, AllocError>
    ensures { IfOk result (λ stands. stands ≡ each_itself count) }
{
    let mut stands = Vec::with_capacity(alloc, count as usize)?;
    for variable in 0..count {
        stands.push(Standing {
            variable,
            offset: 0,
        })?;
    }
    Ok(StandingList::from_vec(stands))
}

/// A form with what each of its variables stands for in the variable's place.
#[tactic(auto, using(crate::proofs::Stored::wholes))]
pub(crate) fn written_by(form: &LinForm, stands: &[Standing]) -> LinForm
    ensures value { result ≡ written_by (stands_in stands.now) form.now }
    ensures kept { IsForm form.now }
{
    if stays(form, stands, 0) {
        return *form;
    }
    and_terms(form, stands, 0, &LinForm::constant(form.offset()))
}

/// Whether the variables of a form, from a term on, stand for themselves.
#[tactic(auto, using(crate::proofs::Stored::stays))]
fn stays(form: &LinForm, stands: &[Standing], place: u16) -> bool
    ensures value { result ≡ all_stay stands.now (drop place form.now.terms) }
    ensures kept { IsForm form.now }
{
    match form.term(place) {
        None => true,
        Some(term) => is_itself(stands, term.variable) && stays(form, stands, place + 1),
    }
}

/// Whether a variable stands for itself.
fn is_itself(stands: &[Standing], variable: u32) -> bool
    ensures { result ≡ is_itself stands.now variable }
{
    match stands.get(variable as usize) {
        None => true,
        Some(standing) => standing.variable == variable && standing.offset == 0,
    }
}

/// A sum, and the terms of a form from a place on, with what their variables stand for in the
/// variables' places.
#[tactic(auto, using(crate::proofs::Stored::sums))]
fn and_terms(form: &LinForm, stands: &[Standing], place: u16, sum: &LinForm) -> LinForm
    requires { length sum.now.terms ≤ place }
    ensures { result ≡ and_terms (stands_in stands.now) (drop place form.now.terms) sum.now }
{
    match form.term(place) {
        None => *sum,
        Some(term) => {
            let stands_for = standing_form(stands, term.variable);
            let sum = and_times(sum, term.factor, &stands_for);
            and_terms(form, stands, place + 1, &sum)
        }
    }
}

/// A sum, and so many times a form of at most one term, where there is room for that term.
#[tactic(auto, using(crate::proofs::Stored::parts))]
fn and_times(sum: &LinForm, factor: i32, form: &LinForm) -> LinForm
    requires sum { length sum.now.terms < 4 }
    requires form { IsForm form.now }
    requires term { length form.now.terms ≤ 1 }
    ensures value { result ≡ plus sum.now (pos 1) (times_form form.now factor) }
    ensures terms { length result.terms ≤ length sum.now.terms + 1 }
{
    let times = times(factor, form);
    LinForm::combine(OpCode::Add, sum, &times).unwrap()
}

/// A form of at most one term, so many times.
#[tactic(auto, using(crate::proofs::Stored::parts))]
fn times(factor: i32, form: &LinForm) -> LinForm
    requires form { IsForm form.now }
    requires term { length form.now.terms ≤ 1 }
    ensures { result ≡ times_form form.now factor }
{
    if factor == 1 {
        return *form;
    }
    LinForm::combine(OpCode::Mul, &LinForm::constant(factor), form).unwrap()
}

/// What a variable stands for. One that has no entry stands for itself.
#[tactic(auto, using(crate::proofs::Stored::parts))]
fn standing_form(stands: &[Standing], variable: u32) -> LinForm
    ensures value { result ≡ stands_in stands.now variable }
    ensures kept { IsForm result }
    ensures term { length result.terms ≤ 1 }
{
    match stands.get(variable as usize) {
        None => LinForm::variable(variable),
        Some(standing) => shifted(standing.variable, standing.offset),
    }
}

/// A variable and a constant.
#[tactic(auto, using(crate::proofs::Stored::parts))]
fn shifted(variable: u32, offset: i32) -> LinForm
    ensures value { result ≡ shifted variable offset }
    ensures kept { IsForm result }
{
    let variable = LinForm::variable(variable);
    if offset == 0 {
        return variable;
    }
    LinForm::combine(OpCode::Add, &variable, &LinForm::constant(offset)).unwrap()
}
