ghost use Rattle.std.specs.Prelude.{◌≡◌};
ghost use Rattle.pc_check.specs.Names.{found_in};
ghost use Rattle.pc_check.specs.models.View.{scopes_of};

use crate::slot::Slot;
use indexmap::IndexMap;

/// What a name stands for in the last of these scopes that declares it.
pub(crate) fn find_in(scopes: &[IndexMap<u32, Slot>], symbol: u32) -> Option<Slot>
    ensures { result ≡ found_in (scopes_of scopes.now) symbol }
{
    let mut found = None;
    for scope in scopes {
        if let Some(slot) = scope.get(&symbol) {
            found = Some(*slot);
        }
    }
    found
}
