//! What a row does, path by path.
use crate::parts::number_of;
use pc_machine::{Leaf, Tree};
use pc_matching::{Fact, operands_match, same_operand};
use pc_word::{Item, Operand, Operands, RowTree};
use std::alloc::{AllocError, Global};

/// An item of a row that no item of a window has been found for, or has.
#[derive(Drop)]
pub(crate) struct Wanted {
    pub(crate) item: Item,
    /// The stretch of the row that it stands in.
    pub(crate) segment: u32,
    pub(crate) done: bool,
    /// The tag and the origin of the window's item that was found for it.
    pub(crate) tag: u32,
    pub(crate) origin: u32,
    /// The facts of what it reads.
    facts: Vec<Fact>,
    /// The same without those by which a register that has a parameter's value has a literal's.
    near: Vec<Fact>,
}

/// A stretch of a row without tests, down to a test or a leaf.
#[derive(Drop)]
pub(crate) struct Segment {
    /// The test below it, if there is one.
    pub(crate) on: Option<Operand>,
    pub(crate) on_yes: u32,
    pub(crate) on_no: u32,
    /// The row to which it leads, if there is no test below it and it leads to one.
    pub(crate) leads_to: Option<u32>,
    /// Whether the test was found.
    pub(crate) done: bool,
    /// The stretch above it.
    pub(crate) above: Option<u32>,
    /// The facts of what the test reads.
    facts: Vec<Fact>,
}

/// A row's items and tests.
#[derive(Drop)]
pub(crate) struct Wants {
    pub(crate) items: Vec<Wanted>,
    pub(crate) segments: Vec<Segment>,
}

/// An item without what it reads and writes.
fn shape(item: Item) -> Item {
    item.map_operands(|_operand| Operand::Lit(0)).with_dest(0)
}

/// Whether two items are of one kind, with the same operator and array.
pub(crate) fn same_shape(one: Item, other: Item) -> bool {
    shape(one) == shape(other)
}

/// Whether two items are equal but for what they write.
pub(crate) fn same_but_dest(one: Item, other: Item) -> bool {
    one.with_dest(0) == other.with_dest(0)
}

impl Wanted {
    /// Whether it is an item of a window, by all facts or by the nearer ones.
    pub(crate) fn is_item(&self, other: Item, near: bool) -> bool {
        if !same_shape(self.item, other) {
            return false;
        }
        let facts = if near {
            self.near.as_slice()
        } else {
            self.facts.as_slice()
        };
        match (self.item.operands(), other.operands()) {
            (Operands::One(one), Operands::One(of_one)) => operands_match(facts, one, of_one),
            (Operands::Two(one, two), Operands::Two(of_one, of_two)) => {
                operands_match(facts, one, of_one) && operands_match(facts, two, of_two)
            }
            (Operands::None, Operands::None) => true,
            _ => false,
        }
    }
}

impl Segment {
    /// Whether the test below it is a test of a window, by the facts.
    pub(crate) fn is_test(&self, on: Operand) -> bool {
        match self.on {
            None => false,
            Some(source) => !self.done && operands_match(self.facts.as_slice(), source, on),
        }
    }
}

/// Appends the facts of a source.
fn push_facts_of(found: &mut Vec<Fact>, facts: &[Fact], source: Operand) -> Result<(), AllocError> {
    for fact in facts {
        if same_operand(fact.source, source) {
            found.push(*fact)?;
        }
    }
    Ok(())
}

/// The facts of what an item reads.
fn facts_of_item(alloc: Global, facts: &[Fact], item: Item) -> Result<Vec<Fact>, AllocError> {
    let mut found = Vec::new(alloc);
    match item.operands() {
        Operands::None => {}
        Operands::One(one) => push_facts_of(&mut found, facts, one)?,
        Operands::Two(one, two) => {
            push_facts_of(&mut found, facts, one)?;
            push_facts_of(&mut found, facts, two)?;
        }
    }
    Ok(found)
}

/// Whether a fact says that a source has a parameter's value.
fn is_of_parameter(fact: &Fact) -> bool {
    matches!(fact.operand, Operand::Name(_))
}

/// Whether a source has a parameter's value.
fn has_parameter(facts: &[Fact], source: Operand) -> bool {
    for fact in facts {
        if same_operand(fact.source, source) && is_of_parameter(fact) {
            return true;
        }
    }
    false
}

/// The facts without those by which a source that has a parameter's value has a literal's.
fn nearer(alloc: Global, facts: &[Fact]) -> Result<Vec<Fact>, AllocError> {
    let mut near = Vec::new(alloc);
    for fact in facts {
        if is_of_parameter(fact) || !has_parameter(facts, fact.source) {
            near.push(*fact)?;
        }
    }
    Ok(near)
}

/// Begins a stretch, and gives its number.
fn begin_segment(alloc: Global, wants: &mut Wants, above: Option<u32>) -> Result<u32, AllocError> {
    let number = number_of(wants.segments.len());
    wants.segments.push(Segment {
        on: None,
        on_yes: 0,
        on_no: 0,
        leads_to: None,
        done: false,
        above,
        facts: Vec::new(alloc),
    })?;
    Ok(number)
}

/// Adds an item of a stretch, unless it is a copy.
fn add_item(
    alloc: Global,
    wants: &mut Wants,
    facts: &[Fact],
    item: Item,
    segment: u32,
) -> Result<(), AllocError> {
    if matches!(item, Item::Copy { .. }) {
        return Ok(());
    }
    let facts = facts_of_item(alloc, facts, item)?;
    let near = nearer(alloc, facts.as_slice())?;
    wants.items.push(Wanted {
        item,
        segment,
        done: false,
        tag: 0,
        origin: 0,
        facts,
        near,
    })?;
    Ok(())
}

/// Adds the test below a stretch, and gives the stretches on its sides.
fn add_test(
    alloc: Global,
    wants: &mut Wants,
    facts: &[Fact],
    on: Operand,
    segment: u32,
) -> Result<(u32, u32), AllocError> {
    let on_yes = begin_segment(alloc, wants, Some(segment))?;
    let on_no = begin_segment(alloc, wants, Some(segment))?;
    if let Some(it) = wants.segments.get_mut(segment as usize) {
        it.on = Some(on);
        it.on_yes = on_yes;
        it.on_no = on_no;
        push_facts_of(&mut it.facts, facts, on)?;
    }
    Ok((on_yes, on_no))
}

/// Notes where a stretch leads that no test stands below.
fn note_leaf(wants: &mut Wants, leaf: Leaf, segment: u32) {
    if let (Leaf::Goto { row }, Some(it)) = (leaf, wants.segments.get_mut(segment as usize)) {
        it.leads_to = Some(row);
    }
}

/// Adds what a row does from a place on, in a stretch.
fn add_row(
    alloc: Global,
    wants: &mut Wants,
    facts: &[Fact],
    row: &Tree,
    segment: u32,
) -> Result<(), AllocError> {
    match row {
        RowTree::Step { item, next } => {
            add_item(alloc, wants, facts, *item, segment)?;
            add_row(alloc, wants, facts, next, segment)
        }
        RowTree::Test { on, yes, no } => {
            let (on_yes, on_no) = add_test(alloc, wants, facts, *on, segment)?;
            add_row(alloc, wants, facts, yes, on_yes)?;
            add_row(alloc, wants, facts, no, on_no)
        }
        RowTree::Leaf { leaf } => {
            note_leaf(wants, *leaf, segment);
            Ok(())
        }
    }
}

/// What a row does, where these facts hold as it begins.
pub(crate) fn wants_of(alloc: Global, facts: &[Fact], row: &Tree) -> Result<Wants, AllocError> {
    let mut wants = Wants {
        items: Vec::new(alloc),
        segments: Vec::new(alloc),
    };
    let first = begin_segment(alloc, &mut wants, None)?;
    add_row(alloc, &mut wants, facts, row, first)?;
    Ok(wants)
}
