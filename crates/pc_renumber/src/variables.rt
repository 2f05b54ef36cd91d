//! The new numbers of form variables.
ghost use Rattle.std.specs.Prelude.{◌≡◌, ◌<◌, ◌^◌, true, length, drop, slice_set, IfOk};
ghost use Rattle.std.specs.List.{AllByRecursion};
ghost use Rattle.pc_window.specs.Opening.{FormBelow, TermsBelow};
ghost use Rattle.pc_renumber.specs.models.Numbering.{and_terms, and_forms, counts_from, AreNew};

use pc_linear::{LinForm, Term};
use std::alloc::{AllocError, Global};

/// The new number of each form variable, in a list by variable, and at its end how many there are: a
/// variable comes behind the smaller ones that stand in these forms.
#[tactic(auto, using(crate::proofs::Marks::all_below))]
pub(crate) fn new_variables(
    alloc: Global,
    forms: &[LinForm],
    variables: u32,
) -> Result<Vec<u32>, AllocError>
    requires { AllByRecursion (FormBelow variables) forms.now }
    ensures { IfOk result (λ numbers. AreNew numbers.items forms.now variables) }
{
    let mut marks = vec![in alloc; false; variables as usize]?;
    let numbers = marked_counts(alloc, forms, &mut marks)?;
    Ok(numbers)
}

/// Marks the variables of forms, and counts the marks.
#[tactic(auto, using(crate::proofs::Marks::forms_length))]
fn marked_counts(
    alloc: Global,
    forms: &[LinForm],
    marks: &mut [bool],
) -> Result<Vec<u32>, AllocError>
    requires below { AllByRecursion (FormBelow (length marks.old)) forms.now }
    requires few { length marks.old < 2 ^ 32 }
    ensures { IfOk result (λ numbers. numbers.items ≡ counts_from 0 (and_forms forms.now marks.old)) }
{
    mark_forms(forms, marks);
    counts(alloc, marks)
}

/// Marks the variables of forms.
#[tactic(auto, using(crate::proofs::Marks::marking))]
fn mark_forms(forms: &[LinForm], marks: &mut [bool])
    requires { AllByRecursion (FormBelow (length marks.old)) forms.now }
    ensures { marks.new ≡ and_forms forms.now marks.old }
{
    for at in 0..forms.len() {
        mark_terms(&forms[at], 0, marks);
    }
}

/// Marks the variables of the terms of a form, from one on.
#[tactic(auto, using(crate::proofs::Marks::terms))]
fn mark_terms(form: &LinForm, at: u16, marks: &mut [bool])
    requires { TermsBelow (length marks.old) (drop at form.now.terms) }
    ensures { marks.new ≡ and_terms (drop at form.now.terms) marks.old }
{
    match form.term(at) {
        None => {}
        Some(term) => {
            mark(term, marks);
            mark_terms(form, at + 1, marks);
        }
    }
}

/// Marks the variable of a term.
fn mark(term: Term, marks: &mut [bool])
    requires { term.variable < length marks.old }
    ensures { marks.new ≡ slice_set marks.old term.variable true }
{
    marks[term.variable as usize] = true;
}

/// How many marks there are before each place, and in all.
fn counts(alloc: Global, marks: &[bool]) -> Result<Vec<u32>, AllocError>
    requires { length marks.now < 2 ^ 32 }
    ensures { IfOk result (λ counts. counts.items ≡ counts_from 0 marks.now) }
{
    let mut counts = Vec::with_capacity(alloc, marks.len() + 1)?;
    let mut count = 0;
    for at in 0..marks.len() {
        counts.push(count)?;
        if marks[at] {
            count += 1;
        }
    }
    counts.push(count)?;
    Ok(counts)
}
