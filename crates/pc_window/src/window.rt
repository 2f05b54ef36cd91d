//! Windows.
ghost use Rattle.std.specs.Prelude.{◌≡◌, ◌<◌, ◌^◌, length, true, IfOk};
ghost use Rattle.pc_word.specs.State.{State};
ghost use Rattle.pc_word.specs.Ranges.{AreLimits};
ghost use Rattle.pc_table.specs.StoredTable.{table_of};
ghost use Rattle.pc_window.specs.Tree.{whole, tree_size};
ghost use Rattle.pc_window.specs.Opening.{first_home};
ghost use Rattle.pc_window.specs.Kept.{OpensAlike};
ghost use Rattle.pc_window.specs.Steps.{opened_window, IsProper};
ghost use Rattle.pc_window.specs.StoredWindow.{tree_in, homes_in, window_in, InNodes, IsJustOpened};

use crate::error::WindowError;
use crate::grafting::{VARIABLES, graft};
use crate::names::NameTable;
use crate::tree::WindowTree;
use pc_table::RegionTable;
use pc_word::{Limits, Operand};
use std::alloc::Global;

/// A window: a tree of nodes, each a tree of items and tests, with a form for each name.
///
/// Its root node is the front, whose items and tests are finished. `inside` is the loop that it
/// unwinds, where there is one.
#[derive(Debug, Drop)]
pub struct Window {
    pub tree: WindowTree,
    pub names: NameTable,
    pub limits: Limits,
    pub inside: Option<u16>,
}

impl Window {
    /// The tree of a region as a window. Each of its items and tests is a node of its own, at tag 0;
    /// copies only move the homes of variables.
    pub fn of_region(
        alloc: Global,
        table: &RegionTable,
        region: u32,
        limits: Limits,
    ) -> Result<Window, WindowError>
        requires there { region < length table.now.regions }
        requires limits { AreLimits limits }
        ensures opened { IfOk result (λ window. window_in window ≡ opened_window (table_of table.now) limits region) }
        ensures nodes { IfOk result (λ window. InNodes true window.tree) }
        ensures alike { IfOk result (λ window. (s : State) → OpensAlike (table_of table.now) region (window_in window) s) }
        ensures proper { IfOk result (λ window. IsProper (window_in window)) }
        ensures small { IfOk result (λ window. IsJustOpened window) }
    {
        let mut names = NameTable::first(alloc)?;
        let mut homes = first_homes();
        let inside = table.innermost_loop(region);
        let tree = graft(
            alloc,
            table,
            inside,
            0,
            table.tree(region),
            &mut names,
            &mut homes,
        )?;
        Ok(Window {
            tree,
            names,
            limits,
            inside,
        })
    }

    /// The number of items and tests.
    #[tactic(auto, using(crate::proofs::WindowsStored::sized))]
    pub fn size(&self) -> u32
        requires { tree_size (whole (window_in self.now).front) < 2 ^ 31 }
        ensures { result ≡ tree_size (whole (window_in self.now).front) }
    {
        self.tree.size()
    }
}

/// The first home of each variable: the name with its number.
#[tactic(auto, using(crate::proofs::HomesStored::first_homes))]
fn first_homes() -> [Operand; VARIABLES]
    ensures { homes_in result ≡ first_home }
{
    let mut homes = [Operand::Lit(0); VARIABLES];
    for variable in 0..VARIABLES as u32 {
        homes[variable as usize] = Operand::Name(variable);
    }
    homes
}
