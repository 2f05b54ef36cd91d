//! Terms, and lists of them with rising variables.
ghost use Rattle.std.specs.Prelude.{◌≡◌, ◌+◌, ◌<◌, ◌≤◌, ◌++◌, take, drop, length, slice_index, ◌+ℤ◌, ◌*ℤ◌};
ghost use Rattle.std.specs.List.{AllByRecursion};
ghost use Rattle.std.specs.Int.{w32, int_wrap};
ghost use Rattle.arrayvec.specs.ArrayVec.{array_vec_len};
ghost use Rattle.pc_linear.specs.Combine.{prepended, add_term, add_times};
ghost use Rattle.pc_linear.specs.Form.{terms_in_variables};
ghost use Rattle.pc_linear.specs.models.Places.{rank, factor_at};

use arrayvec::ArrayVec;
use pc_word::{add, mul};

/// A factor times a form variable.
#[derive(Clone, Copy, Debug, Default, PartialEq, Eq)]
pub struct Term {
    pub variable: u32,
    pub factor: i32,
}

/// Terms in the making, with room for those of two forms.
pub(crate) type Terms = ArrayVec<Term, 8>;

/// These terms, with room for as many as a sum may have.
pub(crate) fn with_room(terms: &[Term]) -> Terms
    requires { length terms.now ≤ 8 }
    ensures { result.items ≡ terms.now }
{
    let mut all = Terms::new();
    for term in terms {
        all.push(*term);
    }
    all
}

/// The place of the first term whose variable is not below the given one.
fn place_of(terms: &[Term], variable: u32) -> usize
    ensures { result ≡ rank variable terms.now }
{
    let mut place = 0;
    while place < terms.len() && terms[place].variable < variable {
        place += 1;
    }
    place
}

/// The factor of a variable at its place, if it has one there.
fn factor_at(terms: &[Term], place: usize, variable: u32) -> Option<i32>
    requires { place ≡ rank variable terms.now }
    ensures { result ≡ factor_at variable terms.now }
{
    if place >= terms.len() {
        return None;
    }
    if terms[place].variable == variable {
        Some(terms[place].factor)
    } else {
        None
    }
}

/// Puts a term at a place, unless its factor is 0.
fn put(terms: &mut Terms, place: usize, variable: u32, factor: i32)
    requires inside { place ≤ array_vec_len terms.old }
    requires room { array_vec_len terms.old < 8 }
    ensures { terms.new.items ≡ take place terms.old.items ++ prepended variable factor (drop place terms.old.items) }
{
    if factor != 0 {
        terms.insert(place, Term { variable, factor });
    }
}

/// Adds a factor times a variable.
fn add_term(terms: &mut Terms, variable: u32, factor: i32)
    requires room { array_vec_len terms.old < 8 }
    ensures { terms.new.items ≡ add_term variable factor terms.old.items }
{
    let place = place_of(terms.as_slice(), variable);
    match factor_at(terms.as_slice(), place, variable) {
        None => put(terms, place, variable, factor),
        Some(found) => {
            terms.remove(place);
            put(terms, place, variable, add(factor, found));
        }
    }
}

/// Adds each of `more` so many times.
pub(crate) fn add_times(terms: &mut Terms, number: i32, more: &[Term])
    requires room { array_vec_len terms.old + length more.now ≤ 8 }
    ensures { terms.new.items ≡ add_times number more.now terms.old.items }
{
    for term in more {
        add_term(terms, term.variable, mul(number, term.factor));
    }
}

/// Puts another variable in the place of each: the number that a table gives it.
pub(crate) fn set_variables(terms: &mut [Term], numbers: &[u32])
    requires { AllByRecursion (λ (term : Term). term.variable < length numbers.now) terms.old }
    ensures { terms.new ≡ terms_in_variables (slice_index numbers.now) terms.old }
{
    for at in 0..terms.len() {
        terms[at].variable = numbers[terms[at].variable as usize];
    }
}

/// A word and so many times another.
#[tactic(auto, using(std::proofs::lemmas::Int::wraps, crate::proofs::Words::word_add_mul))]
pub(crate) fn add_product(word: i32, number: i32, other: i32) -> i32
    ensures { result ≡ int_wrap w32 (word +ℤ (number *ℤ other)) }
{
    add(word, mul(number, other))
}
