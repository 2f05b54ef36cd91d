//! Homes: the values that variables have where a window is left.
ghost use Rattle.std.specs.Prelude.{◌≡◌, ◌<◌, Some, length, slice_get};
ghost use Rattle.pc_window.specs.Names.{homes_use};
ghost use Rattle.pc_window.specs.Rename.{MapsHome, Gives, map_homes};

use crate::HomeList;
use pc_word::Operand;

/// The value that a variable has where a window is left.
#[derive(Clone, Copy, Debug, PartialEq, Eq)]
pub struct Home {
    pub variable: u32,
    pub value: Operand,
}

impl Home {
    /// The home with what `f` gives in place of its value.
    pub fn map_value<F: FnOnce(Operand) -> Operand>(self, f: F) -> Home
        requires { F.IsAlwaysCallable f }
        ensures { MapsHome (F.post f) self result }
    {
        Home {
            variable: self.variable,
            value: f(self.value),
        }
    }
}

/// A home of a list.
fn home_at(homes: &HomeList, at: usize) -> Home
    requires { at < length homes.now }
    ensures { slice_get homes.now at ≡ Some result }
{
    homes.as_slice()[at]
}

/// Puts what `f` gives in the place of each home's value.
#[tactic(auto, using(crate::proofs::HomesMapped::mapping))]
pub fn map_homes<F: Fn(Operand) -> Operand>(homes: &mut HomeList, f: F)
    requires { F.IsAlwaysCallable f }
    ensures { (g : Operand → Operand) → Gives (F.post f) g → homes.new ≡ map_homes g homes.old }
{
    for at in 0..homes.len() {
        let home = home_at(homes, at);
        homes.set(
            at,
            Home {
                variable: home.variable,
                value: f(home.value),
            },
        );
    }
}

/// Whether one of some homes reads a name.
pub fn homes_use(homes: &[Home], name: u32) -> bool
    ensures { result ≡ homes_use homes.now name }
{
    homes.iter().any(|home| home.value.is_name(name))
}
