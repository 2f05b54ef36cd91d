//! The names that are defined above a place, and those that they have in their stead.
ghost use Rattle.std.specs.Prelude.{◌≡◌};
ghost use Rattle.pc_word.specs.Naming.{map_name};
ghost use Rattle.pc_window.specs.Rename.{map_homes};
ghost use Rattle.pc_window.specs.Rebasing.{is_in};
ghost use Rattle.pc_canon.specs.Pairs.{others};
ghost use Rattle.pc_shared.specs.models.Renaming.{pairs_in, renamed_name, renamed_item};

use pc_window::{HomeList, map_homes};
use pc_word::{Item, Operand};

/// The names that are defined above a place, and those that they have in their stead. Each other name
/// stays as it is.
#[derive(Drop)]
pub(crate) enum Renaming<'a> {
    /// No name is defined.
    Themselves,
    /// One more name, which is defined above.
    Defined {
        one: u32,
        other: u32,
        above: &'a Renaming<'a>,
    },
}

/// The name in place of a name.
fn renamed_name(names: &Renaming, name: u32) -> u32
    ensures { result ≡ renamed_name (pairs_in names.now) name }
{
    match names {
        Renaming::Themselves => name,
        Renaming::Defined { one, other, above } => {
            if *one == name {
                *other
            } else {
                renamed_name(above, name)
            }
        }
    }
}

/// Whether a name is in place of one that is defined above.
pub(crate) fn is_given(names: &Renaming, name: u32) -> bool
    ensures { result ≡ is_in name (others (pairs_in names.now)) }
{
    match names {
        Renaming::Themselves => false,
        Renaming::Defined { other, above, .. } => {
            if name == *other {
                true
            } else {
                is_given(above, name)
            }
        }
    }
}

/// An operand with its name's other name.
pub(crate) fn renamed_operand(names: &Renaming, operand: Operand) -> Operand
    ensures { result ≡ map_name (renamed_name (pairs_in names.now)) operand }
{
    match operand {
        Operand::Name(name) => Operand::Name(renamed_name(names, name)),
        Operand::Lit(value) => Operand::Lit(value),
    }
}

/// An item that reads the other names.
pub(crate) fn renamed_item(names: &Renaming, item: Item) -> Item
    ensures { result ≡ renamed_item (pairs_in names.now) item }
{
    item.map_operands(|operand| renamed_operand(names, operand))
}

/// Gives the names that homes read their other names.
pub(crate) fn rename_homes(names: &Renaming, homes: &mut HomeList)
    ensures { homes.new ≡ map_homes (map_name (renamed_name (pairs_in names.now))) homes.old }
{
    map_homes(homes, |operand| renamed_operand(names, operand));
}
