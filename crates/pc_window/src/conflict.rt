//! Which items may be exchanged, by the forms of their indexes.
ghost use Rattle.std.specs.Prelude.{◌≡◌, ◌↔◌, ◌&&◌, true, Some};
ghost use Rattle.pc_word.specs.Items.{is_effect};
ghost use Rattle.pc_linear.specs.Equality.{NeverEqual};
ghost use Rattle.pc_window.specs.Hold.{operand_form};
ghost use Rattle.pc_window.specs.Conflict.{touch_of, NoDependence, NoStoreDependence, NoConflict, MayFollow};
ghost use Rattle.pc_window.specs.StoredWindow.{forms_in};

use crate::names::NameTable;
use pc_word::{Item, Operand};

/// The element that a load or store touches, and whether it stores.
#[derive(Clone, Copy, Debug)]
pub struct Touch {
    pub array: u8,
    pub index: Operand,
    pub stores: bool,
}

impl Touch {
    /// What an item touches: nothing, unless it is a load or store.
    pub fn of_item(item: Item) -> Option<Touch>
        ensures { result ≡ touch_of item }
    {
        match item {
            Item::Load { array, index, .. } => Some(Touch {
                array,
                index,
                stores: false,
            }),
            Item::Store { array, index, .. } => Some(Touch {
                array,
                index,
                stores: true,
            }),
            _ => None,
        }
    }
}

/// Whether both items are effects.
fn are_effects(first: Item, second: Item) -> bool
    ensures { result ≡ (is_effect first && is_effect second) }
{
    first.is_effect() && second.is_effect()
}

impl NameTable {
    /// Whether two operands are never equal.
    pub fn never_equal(&self, one: Operand, other: Operand) -> bool
        ensures { (result ≡ true) ↔ NeverEqual (operand_form (forms_in self.now.forms) one) (operand_form (forms_in self.now.forms) other) }
    {
        let one = self.form(one);
        let other = self.form(other);
        one.never_equal(&other)
    }

    /// Whether two touches may be exchanged.
    fn are_independent(&self, first: Touch, second: Touch) -> bool
        ensures { (result ≡ true) ↔ NoDependence (forms_in self.now.forms) (Some first) (Some second) }
    {
        if first.array != second.array {
            return true;
        }
        if first.stores {
            return self.never_equal(first.index, second.index);
        }
        if second.stores {
            return self.never_equal(first.index, second.index);
        }
        true
    }

    /// Whether the second touch may stand behind the first in one row.
    fn may_touch_behind(&self, first: Touch, second: Touch) -> bool
        ensures { (result ≡ true) ↔ NoStoreDependence (forms_in self.now.forms) (Some first) (Some second) }
    {
        if first.array != second.array {
            return true;
        }
        if first.stores {
            return self.never_equal(first.index, second.index);
        }
        true
    }

    /// Whether two items may be exchanged as far as loads and stores go.
    pub fn no_dependence(&self, first: Item, second: Item) -> bool
        ensures { (result ≡ true) ↔ NoDependence (forms_in self.now.forms) (touch_of first) (touch_of second) }
    {
        match Touch::of_item(first) {
            None => true,
            Some(one) => match Touch::of_item(second) {
                None => true,
                Some(other) => self.are_independent(one, other),
            },
        }
    }

    /// Whether the second item may stand behind the first in one row as far as loads and stores go.
    pub fn no_store_dependence(&self, first: Item, second: Item) -> bool
        ensures { (result ≡ true) ↔ NoStoreDependence (forms_in self.now.forms) (touch_of first) (touch_of second) }
    {
        match Touch::of_item(first) {
            None => true,
            Some(one) => match Touch::of_item(second) {
                None => true,
                Some(other) => self.may_touch_behind(one, other),
            },
        }
    }

    /// Whether two items do not conflict.
    pub fn no_conflict(&self, first: Item, second: Item) -> bool
        ensures { (result ≡ true) ↔ NoConflict (forms_in self.now.forms) first second }
    {
        if are_effects(first, second) {
            return false;
        }
        self.no_dependence(first, second)
    }

    /// Whether an item may follow another in its row.
    pub fn may_follow(&self, first: Item, second: Item) -> bool
        ensures { (result ≡ true) ↔ MayFollow (forms_in self.now.forms) first second }
    {
        if are_effects(first, second) {
            return false;
        }
        self.no_store_dependence(first, second)
    }
}
