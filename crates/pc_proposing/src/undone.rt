//! Windows that are left to do.
ghost use Rattle.std.specs.Prelude.{◌≡◌, IfOk};
ghost use Rattle.pc_settling.specs.Stored.{IsLeft};
ghost use Rattle.pc_proposing.specs.models.Leaving.{as_window};

use pc_window::{NameTable, Window, WindowTree};
use pc_word::Limits;
use std::alloc::{AllocError, Global};

/// A copy of a tree with these names, as a window.
#[tactic(auto, using(crate::proofs::Leaving::copying))]
pub(crate) fn copied_window(
    alloc: Global,
    tree: &WindowTree,
    names: &NameTable,
    limits: Limits,
    inside: Option<u16>,
) -> Result<Window, AllocError>
    requires { IsLeft (as_window names.now limits inside tree.now) }
    ensures { IfOk result IsLeft }
{
    let tree = tree.copy(alloc)?;
    let names = names.copy(alloc)?;
    Ok(Window {
        tree,
        names,
        limits,
        inside,
    })
}

/// A copy of a window that is left to do.
pub(crate) fn copied(alloc: Global, window: &Window) -> Result<Window, AllocError>
    requires { IsLeft window.now }
    ensures { IfOk result IsLeft }
{
    copied_window(
        alloc,
        &window.tree,
        &window.names,
        window.limits,
        window.inside,
    )
}
