//! What becomes of a region's item where the region's tree comes into a window.
ghost use Rattle.std.specs.Prelude.{◌≡◌, ◌<◌, ◌^◌, length};
ghost use Rattle.pc_window.specs.Opening.{at_home, brought};
ghost use Rattle.pc_window.specs.StoredWindow.{supply_in, homes_in};
ghost use Rattle.pc_window.specs.models.Stored.{brought_in};

use crate::names::NameTable;
use pc_linear::LinForm;
use pc_word::{Item, Operand};

/// What becomes of an item.
#[derive(Clone, Copy, Debug)]
pub(crate) enum Brought {
    /// There is no item, and the variable's home is the operand.
    MovesHome {
        variable: u32,
        from: Operand,
    },
    /// The item writes a new name, which is the variable's home, and has this form, or a new form
    /// variable where there is none.
    GetsName {
        variable: u32,
        item: Item,
        form: Option<LinForm>,
    },
    /// The item writes no variable.
    StaysPlain {
        item: Item,
    },
}

/// An operand, with a variable's home in its place.
pub(crate) fn at_home(homes: &[Operand], operand: Operand) -> Operand
    ensures { result ≡ at_home (homes_in homes.now) operand }
{
    match operand {
        Operand::Name(variable) => match homes.get(variable as usize) {
            Some(home) => *home,
            None => Operand::Lit(0),
        },
        Operand::Lit(value) => Operand::Lit(value),
    }
}

/// What becomes of an item, where variables have these homes.
pub(crate) fn bring(names: &NameTable, homes: &[Operand], item: Item) -> Brought
    requires { length names.now.forms < 2 ^ 31 }
    ensures { brought_in result ≡ brought (supply_in names.now) (homes_in homes.now) item }
{
    let item = item.map_operands(|operand| at_home(homes, operand));
    if let Item::Copy { dest, from } = item {
        return Brought::MovesHome {
            variable: dest,
            from,
        };
    }
    match item.dest() {
        Some(variable) => Brought::GetsName {
            variable,
            item: item.with_dest(names.forms.len() as u32),
            form: names.combined(item),
        },
        None => Brought::StaysPlain { item },
    }
}
