//! How the names of a state are written.
ghost use Rattle.std.specs.Prelude.{◌≡◌, Some, option_map, string_bytes};
ghost use Rattle.pc_explain.specs.Naming.{naming_in, scalar_named, name_words};

use crate::legend::Legend;
use pc_variables::{Holding, scalar_of};
use std::fmt;

/// How the names of a state are written: with the scalars of the source that they hold.
#[derive(Clone, Copy)]
pub struct StateNaming<'a> {
    /// The names of the scalars.
    pub legend: &'a Legend,
    /// Which names of the state hold which scalars.
    pub holdings: &'a [Holding],
}

/// A name of a state that is to be written.
#[derive(Clone, Copy)]
pub(crate) struct NameWords<'a> {
    pub naming: StateNaming<'a>,
    pub name: u32,
}

/// How the source calls the scalar that a name holds, if it holds one.
fn scalar_named<'a>(naming: StateNaming<'a>, name: u32) -> Option<&'a String>
    ensures { option_map (λ it. string_bytes it.now) result ≡ scalar_named (naming_in naming.entry) name }
{
    let scalar = scalar_of(naming.holdings, name)?;
    naming.legend.names.scalars.get(scalar as usize)
}

/// A name of a state that is to be written.
pub(crate) fn named<'a>(naming: StateNaming<'a>, name: u32) -> NameWords<'a>
    ensures { result ≡ record { naming = naming.entry; name = name } }
{
    NameWords { naming, name }
}

impl<'a> fmt::Display for NameWords<'a> {
    ghost output = { λ words. Some (name_words (naming_in words.naming) words.name) };

    #[tactic(auto, unfolding(crate::specs::Naming::name_words))]
    fn fmt<W: fmt::Write>(&self, f: &mut fmt::Formatter<W>) -> fmt::Result {
        let name = self.name;
        match scalar_named(self.naming, name) {
            Some(scalar) => write!(f, "{scalar}.{name}"),
            None => write!(f, "n{name}"),
        }
    }
}
