//! What comes next into a window's front: of what is ready and what the row does, the first.
use crate::following::{Care, Flow, Sides};
use crate::parts::{Part, What, number_of};
use crate::wanted::{Wanted, Wants, same_but_dest};
use crate::ways::Way;
use pc_window::NameTable;
use pc_word::{Item, Operand, Operands};

/// A window, as its parts and what stands above them, and a row.
#[derive(Clone, Copy)]
pub(crate) struct View<'a> {
    pub(crate) parts: &'a [Part],
    pub(crate) ways: &'a [Way],
    pub(crate) names: &'a NameTable,
    pub(crate) wants: &'a Wants,
    pub(crate) flow: Flow<'a>,
    /// Whether items are looked for by the nearer facts alone.
    pub(crate) near: bool,
    pub(crate) care: Care,
}

/// What comes into the front.
#[derive(Clone, Copy)]
pub(crate) enum Choice {
    /// The item at a place, for an item of the row.
    Item {
        place: usize,
        top: usize,
        want: usize,
    },
    /// The test at a place, for the test below a stretch of the row.
    Test {
        place: usize,
        top: usize,
        segment: usize,
    },
    /// The items at two places on the sides of a test, as one, for an item of the row.
    Both {
        branch: usize,
        on_yes: usize,
        other: usize,
        on_no: usize,
        want: usize,
    },
}

/// Whether an operand is this name.
fn reads(operands: Operands, name: u32) -> bool {
    match operands {
        Operands::None => false,
        Operands::One(one) => one.is_name(name),
        Operands::Two(one, two) => one.is_name(name) || two.is_name(name),
    }
}

/// What a part reads.
fn operands_of(what: What) -> Operands {
    match what {
        What::Item(item) => item.operands(),
        What::Test(on) => Operands::One(on),
        What::Stub(_) | What::End => Operands::None,
    }
}

/// Whether a part may come up past another above it.
fn may_pass(names: &NameTable, what: What, other: &Part) -> bool {
    match (what, other.what) {
        (What::Item(item), What::Item(above)) => {
            if other.finished {
                names.may_follow(above, item)
            } else {
                names.no_conflict(above, item)
            }
        }
        (What::Item(item), What::Test(_)) => other.finished || item.only_computes(),
        (What::Test(_), What::Test(_)) => other.finished,
        (What::Test(_), What::Item(_)) => true,
        _ => false,
    }
}

/// What is copied in place of a name.
fn copied_for(operand: Operand, dest: u32, from: Operand) -> Operand {
    if operand.is_name(dest) {
        return from;
    }
    operand
}

/// What a part is where it reads what is copied in place of a copy's name.
pub(crate) fn with_copied(what: What, dest: u32, from: Operand) -> What {
    match what {
        What::Item(item) => {
            What::Item(item.map_operands(|operand| copied_for(operand, dest, from)))
        }
        What::Test(on) => What::Test(copied_for(on, dest, from)),
        What::Stub(_) | What::End => what,
    }
}

/// Whether a part reads a name.
pub(crate) fn part_reads(what: What, name: u32) -> bool {
    reads(operands_of(what), name)
}

impl<'a> View<'a> {
    /// What stands at a place, where it reads what is copied above it behind the front in place of the copies' names.
    pub(crate) fn resolved(&self, place: usize) -> What {
        let Some(part) = self.parts.get(place) else {
            return What::End;
        };
        let mut what = part.what;
        let mut at = place;
        for _ in 0..self.parts.len() {
            let Some(way) = self.ways.get(at) else {
                return what;
            };
            let Some(above) = way.above else {
                return what;
            };
            let Some(other) = self.parts.get(above as usize) else {
                return what;
            };
            if other.finished {
                return what;
            }
            if let What::Item(Item::Copy { dest, from }) = other.what {
                what = with_copied(what, dest, from);
            }
            at = above as usize;
        }
        what
    }

    /// Whether what stands at a place may come to the end of the front's path above it.
    fn is_ready(&self, place: usize, what: What) -> bool {
        let operands = operands_of(what);
        let mut at = place;
        for _ in 0..self.parts.len() {
            let Some(way) = self.ways.get(at) else {
                return false;
            };
            let Some(above) = way.above else {
                return true;
            };
            let Some(other) = self.parts.get(above as usize) else {
                return false;
            };
            if let What::Item(item) = other.what {
                if let Some(dest) = item.dest() {
                    if reads(operands, dest) {
                        return false;
                    }
                }
            }
            if !may_pass(self.names, what, other) {
                return false;
            }
            at = above as usize;
        }
        false
    }

    /// How the tests behind the front come out on the way to a place; none where these are more than 64.
    fn sides_above(&self, place: usize) -> Option<Sides> {
        let mut sides = Sides::none();
        let mut at = place;
        for _ in 0..self.parts.len() {
            let Some(above) = self.ways.get(at)?.above else {
                return Some(sides);
            };
            let part = self.parts.get(above as usize)?;
            if part.finished {
                return Some(sides);
            }
            if matches!(part.what, What::Test(_)) {
                sides = sides.below(at == above as usize + 1)?;
            }
            at = above as usize;
        }
        Some(sides)
    }

    /// Whether what a register holds behind a stretch of the row matters where an item stands.
    fn matters(&self, segment: u32, register: u32, place: usize) -> bool {
        let Some(mut sides) = self.sides_above(place) else {
            return true;
        };
        let mut number = segment;
        for _ in 0..self.wants.segments.len() {
            let Some(it) = self.wants.segments.get(number as usize) else {
                return true;
            };
            if it.on.is_none() {
                return match it.leads_to {
                    None => false,
                    Some(row) => self.flow.uses(row, register, sides),
                };
            }
            let Some((side, rest)) = sides.first() else {
                return true;
            };
            sides = rest;
            number = if side { it.on_yes } else { it.on_no };
        }
        true
    }

    /// Whether an item of the row may stand for the one at a place.
    fn may_stand(&self, want: &Wanted, place: usize) -> bool {
        if self.care == Care::First {
            return true;
        }
        match want.item {
            Item::Bin { dest, .. } | Item::Load { dest, .. } => {
                self.matters(want.segment, dest, place)
            }
            _ => true,
        }
    }

    /// Whether items of the row's stretch before one were found, before a place, and none behind it was found there.
    fn is_in_order(&self, want: usize, place: usize) -> bool {
        if self.care != Care::InOrder {
            return true;
        }
        let (Some(part), Some(wanted)) = (self.parts.get(place), self.wants.items.get(want)) else {
            return true;
        };
        for at in 0..self.wants.items.len() {
            let other = &self.wants.items[at];
            if other.segment == wanted.segment && at != want {
                let is_before = other.tag < part.tag
                    || (other.tag == part.tag && other.origin <= part.origin);
                if at < want && !(other.done && is_before) {
                    return false;
                }
                if at > want && other.done && is_before {
                    return false;
                }
            }
        }
        true
    }

    /// The first item of a stretch of the row that no item was found for, and that is this one at a place.
    fn want_of(&self, segment: u32, place: usize, item: Item) -> Option<usize> {
        for at in 0..self.wants.items.len() {
            let want = &self.wants.items[at];
            if want.segment == segment && !want.done && want.is_item(item, self.near) {
                if self.may_stand(want, place) && self.is_in_order(at, place) {
                    return Some(at);
                }
            }
        }
        None
    }

    /// The place of the no side of the test above a place that stands right on its yes side, where the test is in the
    /// front and nothing on the no side is.
    fn other_side(&self, top: usize) -> Option<(usize, usize)> {
        let branch = self.ways.get(top)?.above?;
        let test = self.parts.get(branch as usize)?;
        if !test.finished || !matches!(test.what, What::Test(_)) || top != branch as usize + 1 {
            return None;
        }
        for at in top..self.parts.len() {
            let Some(way) = self.ways.get(at) else {
                return None;
            };
            if at != top && way.above == Some(branch) {
                if self.parts[at].finished {
                    return None;
                }
                return Some((branch as usize, at));
            }
        }
        None
    }

    /// The twin of an item on the no side of a test, which begins at a place.
    fn twin_of(&self, part: &Part, item: Item, side: usize) -> Option<usize> {
        for at in side..self.parts.len() {
            let Some(way) = self.ways.get(at) else {
                return None;
            };
            let other = &self.parts[at];
            if way.top == Some(number_of(side))
                && other.tag == part.tag
                && other.origin == part.origin
            {
                let what = self.resolved(at);
                if let What::Item(it) = what {
                    if same_but_dest(item, it) && self.is_ready(at, what) {
                        return Some(at);
                    }
                }
            }
        }
        None
    }

    /// The choice of an item with its twin, if it is one, and the row has it above the test.
    fn both(&self, place: usize, top: usize, part: &Part, item: Item) -> Option<Choice> {
        let (branch, other) = self.other_side(top)?;
        let segment = self.ways.get(branch)?.segment?;
        let want = self.want_of(segment, place, item)?;
        let on_no = self.twin_of(part, item, other)?;
        if !self.is_ready(place, What::Item(item)) {
            return None;
        }
        Some(Choice::Both {
            branch,
            on_yes: place,
            other,
            on_no,
            want,
        })
    }

    /// The choice of an item that stands above a place behind the front, if the row does one before its next test.
    fn item_above(&self, place: usize, top: usize, segment: u32) -> Option<Choice> {
        let mut at = place;
        for _ in top..place {
            at = self.ways.get(at)?.above? as usize;
            let what = self.resolved(at);
            if let What::Item(item) = what {
                if let Some(want) = self.want_of(segment, at, item) {
                    if self.is_ready(at, what) {
                        return Some(Choice::Item {
                            place: at,
                            top,
                            want,
                        });
                    }
                }
            }
        }
        None
    }

    /// The choice of what stands at a place, if the row does it.
    fn choice_at(&self, place: usize) -> Option<Choice> {
        let part = self.parts.get(place)?;
        let way = self.ways.get(place)?;
        let top = way.top? as usize;
        let what = self.resolved(place);
        match what {
            What::Item(item) => {
                if let Some(both) = self.both(place, top, part, item) {
                    return Some(both);
                }
                let want = self.want_of(way.segment?, place, item)?;
                if !self.is_ready(place, what) {
                    return None;
                }
                Some(Choice::Item { place, top, want })
            }
            What::Test(on) => {
                let segment = way.segment?;
                let it = self.wants.segments.get(segment as usize)?;
                if !it.is_test(on) || !self.is_ready(place, what) {
                    return None;
                }
                match self.item_above(place, top, segment) {
                    Some(choice) => Some(choice),
                    None => Some(Choice::Test {
                        place,
                        top,
                        segment: segment as usize,
                    }),
                }
            }
            What::Stub(_) | What::End => None,
        }
    }

    /// The first of all choices, by tag, origin and place.
    pub(crate) fn first_choice(&self) -> Option<Choice> {
        let mut best: Option<(u32, u32)> = None;
        let mut found = None;
        for at in 0..self.parts.len() {
            let part = &self.parts[at];
            let is_before = match best {
                None => true,
                Some((tag, origin)) => {
                    part.tag < tag || (part.tag == tag && part.origin < origin)
                }
            };
            if is_before {
                if let Some(choice) = self.choice_at(at) {
                    best = Some((part.tag, part.origin));
                    found = Some(choice);
                }
            }
        }
        found
    }
}
