//! The columns of form variables.
ghost use Rattle.std.specs.Prelude.{◌≡◌, ◌<◌, ◌∷◌, ◌++◌, [], pos, drop, length, OnOk, IfOk};
ghost use Rattle.std.specs.Ordering.{is_lt};
ghost use Rattle.pc_linear.specs.Form.{IsForm};
ghost use Rattle.pc_window.specs.Opening.{FormBelow, TermsBelow};
ghost use Rattle.pc_canon.specs.Canonical.{constant_in, stands_before, columns_below};
ghost use Rattle.pc_canon.specs.Key.{constant_numbers, list_numbers, column_numbers};
ghost use Rattle.pc_canon.specs.models.Gathered.{column_in, and_term, and_terms, with_factors, occurs};

use crate::number_bytes::NumberBytes;
use pc_linear::{LinForm, Term};
use pc_word::Seq;
use std::alloc::{AllocError, Global};
use std::cmp::Ordering;
use std::marker::Model;

/// The column of a form variable: the places of the forms in which it stands, each with its factor. Most form
/// variables stand in one form alone, and then their column takes no memory of its own.
#[derive(Drop)]
pub(crate) struct Column {
    /// The first place, with the factor there, unless the column is empty.
    first: Option<PlacedFactor>,
    /// The other places, each with its factor.
    more: Seq<i64>,
}

/// The place of a form, and the factor there.
#[derive(Clone, Copy)]
pub(crate) struct PlacedFactor {
    pub(crate) place: u32,
    pub(crate) factor: i32,
}

impl Model for Column {
    ghost use Rattle.std.specs.Prelude.{ℤ, List};
    ghost use Rattle.std.specs.Coded.{codes};
    ghost use Rattle.pc_canon.specs.models.Gathered.{column_from, IsColumnFrom};

    ghost Value = { List ℤ };

    ghost coded = { Prim.hlevel codes };

    ghost view = { λ it. column_from it.first it.more };

    ghost invariant = { λ it. IsColumnFrom it.first it.more };
}

impl Column {
    /// An empty column.
    pub(crate) fn new(alloc: Global) -> Column
        ensures { result ≡ [] }
    {
        Column {
            first: None,
            more: Seq::new(alloc),
        }
    }

    /// Puts a place and the factor there behind the others.
    #[tactic(auto, using(crate::proofs::StoredColumns::stored))]
    fn push(&mut self, place: u32, factor: i32) -> Result<(), AllocError>
        ensures { OnOk result (self.new ≡ self.old ++ pos place ∷ factor ∷ []) }
    {
        if self.first.is_none() {
            self.first = Some(PlacedFactor { place, factor });
            return Ok(());
        }
        self.more.push(i64::from(place))?;
        self.more.push(i64::from(factor))?;
        Ok(())
    }

    /// Whether the form variable occurs: its column is not empty.
    fn occurs(&self) -> bool
        ensures { result ≡ occurs self.now }
    {
        self.first.is_some()
    }

    /// How two columns are ordered: the greater one stands first.
    fn in_turn(&self, other: &Column) -> Ordering
        ensures { is_lt result ≡ stands_before self.now other.now }
    {
        match (self.first, other.first) {
            (None, None) => Ordering::Equal,
            (Some(_), None) => Ordering::Less,
            (None, Some(_)) => Ordering::Greater,
            (Some(one), Some(two)) => match two.place.cmp(&one.place) {
                Ordering::Equal => match two.factor.cmp(&one.factor) {
                    Ordering::Equal => other.more.as_slice().cmp(self.more.as_slice()),
                    unequal => unequal,
                },
                unequal => unequal,
            },
        }
    }

    /// Writes the column as an element of a list: a 1 stands before each element, also of the column itself.
    #[tactic(auto, using(crate::proofs::StoredColumns::stored))]
    fn write(&self, numbers: &mut NumberBytes) -> Result<(), AllocError>
        ensures { OnOk result (numbers.new ≡ numbers.old ++ pos 1 ∷ column_numbers self.now) }
    {
        let Some(PlacedFactor { place, factor }) = self.first else {
            return numbers.push_two(1, 0);
        };
        numbers.push_two(1, 1)?;
        numbers.push(i64::from(place))?;
        numbers.push_two(1, i64::from(factor))?;
        write_numbers(self.more.as_slice(), numbers)?;
        Ok(())
    }
}

/// Writes what shows of the form at a place by itself, and adds its terms to their columns.
#[inline(always)]
pub(crate) fn add_form(
    form: &LinForm,
    place: u32,
    columns: &mut [Column],
    numbers: &mut NumberBytes,
) -> Result<(), AllocError>
    requires { FormBelow (length columns.old) form.now }
    ensures columns { OnOk result (columns.new ≡ with_factors place form.now.terms 0 columns.old) }
    ensures numbers { OnOk result (numbers.new ≡ numbers.old ++ pos 1 ∷ constant_numbers (constant_in form.now)) }
    ensures kept { IsForm form.now }
{
    let has_terms = form.term(0).is_some();
    let offset = form.offset();
    numbers.push_three(1, i64::from(offset), i64::from(has_terms))?;
    add_terms(form, place, 0, columns)?;
    Ok(())
}

/// Adds the terms of a form, from one on, to their columns.
#[tactic(auto, using(crate::proofs::Gathering::terms))]
fn add_terms(form: &LinForm, place: u32, at: u16, columns: &mut [Column]) -> Result<(), AllocError>
    requires form { IsForm form.now }
    requires below { TermsBelow (length columns.old) (drop at form.now.terms) }
    ensures { OnOk result (columns.new ≡ and_terms place (drop at form.now.terms) columns.old) }
{
    match form.term(at) {
        None => Ok(()),
        Some(term) => {
            add_term(term, place, columns)?;
            add_terms(form, place, at + 1, columns)
        }
    }
}

/// Adds a term of the form at a place to the column of its variable.
fn add_term(term: Term, place: u32, columns: &mut [Column]) -> Result<(), AllocError>
    requires { term.variable < length columns.old }
    ensures { OnOk result (columns.new ≡ and_term place term columns.old) }
{
    let column = &mut columns[term.variable as usize];
    column.push(place, term.factor)
}

/// The columns that are not empty, in order. Columns of later variables mostly begin at later places, and
/// those stand first: so the sort finds them nearly in reverse order.
pub(crate) fn in_order(columns: Vec<Column>) -> Result<Vec<Column>, AllocError>
    ensures { IfOk result (λ sorted. sorted.items ≡ columns_below (column_in columns.items) (length columns.items)) }
{
    let mut sorted = columns;
    sorted.retain(|column| column.occurs());
    sorted.sort_by(|one, other| one.in_turn(other))?;
    Ok(sorted)
}

/// Writes columns.
pub(crate) fn write_columns(columns: &[Column], numbers: &mut NumberBytes) -> Result<(), AllocError>
    ensures { OnOk result (numbers.new ≡ numbers.old ++ list_numbers column_numbers columns.now) }
{
    for column in columns {
        column.write(numbers)?;
    }
    numbers.push(0)
}

/// Writes what stands in a column behind its first place and factor, and the mark at its end.
fn write_numbers(column: &[i64], numbers: &mut NumberBytes) -> Result<(), AllocError>
    ensures { OnOk result (numbers.new ≡ numbers.old ++ column_numbers column.now) }
{
    for number in column {
        numbers.push_two(1, *number)?;
    }
    numbers.push(0)
}
