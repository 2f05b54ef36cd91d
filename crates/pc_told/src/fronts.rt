//! What the front of a window tells.
ghost use Rattle.std.specs.Prelude.{◌≡◌, IfOk};
ghost use Rattle.pc_table.specs.StoredTable.{table_of};
ghost use Rattle.pc_window.specs.StoredWindow.{front_in, window_in};
ghost use Rattle.pc_told.specs.Tellings.{telling_in, telling_of, front_telling, telling_behind};

use crate::advance::{advance_at_root, advance_behind};
use crate::told_row::ToldRow;
use pc_table::RegionTable;
use pc_window::{Window, WindowTree};
use std::alloc::{AllocError, Global};

impl ToldRow {
    /// What is told of the front of a window. It takes time in proportion to the window, and memory in proportion to the front.
    #[tactic(auto, using(pc_window::proofs::WindowsStored::whole_in))]
    pub fn of_window(
        alloc: Global,
        table: &RegionTable,
        window: &Window,
    ) -> Result<ToldRow, AllocError>
        ensures { IfOk result (λ row. telling_in row ≡ telling_of (table_of table.now) (window_in window.now)) }
    {
        let first = window.tree.front_tag();
        of_front(alloc, table, window.inside, first, &window.tree)
    }
}

/// What is told of a whole front.
fn of_front(
    alloc: Global,
    table: &RegionTable,
    inside: Option<u16>,
    first: u32,
    tree: &WindowTree,
) -> Result<ToldRow, AllocError>
    ensures { IfOk result (λ row. telling_in row ≡ front_telling (table_of table.now) inside first (front_in tree.now)) }
{
    match tree {
        WindowTree::Step { .. } | WindowTree::Test { .. } => {
            of_behind(alloc, table, inside, first, tree)
        }
        WindowTree::Node { below } => {
            let advance = advance_at_root(table, inside, first, below);
            Ok(ToldRow::Leaf { advance })
        }
        WindowTree::Exit { .. } | WindowTree::Stop | WindowTree::Trap { .. } => {
            let advance = advance_at_root(table, inside, first, tree);
            Ok(ToldRow::Leaf { advance })
        }
    }
}

/// What is told of the front below its first item or test.
fn of_behind(
    alloc: Global,
    table: &RegionTable,
    inside: Option<u16>,
    first: u32,
    tree: &WindowTree,
) -> Result<ToldRow, AllocError>
    ensures { IfOk result (λ row. telling_in row ≡ telling_behind (table_of table.now) inside first (front_in tree.now)) }
{
    match tree {
        WindowTree::Step {
            tag,
            origin,
            item,
            rest,
        } => {
            let next = of_behind(alloc, table, inside, first, rest)?;
            let next = Box::new(alloc, next)?;
            Ok(ToldRow::Step {
                iteration: tag.saturating_sub(first),
                origin: *origin,
                item: *item,
                next,
            })
        }
        WindowTree::Test {
            tag,
            origin,
            on,
            yes,
            no,
        } => {
            let yes = of_behind(alloc, table, inside, first, yes)?;
            let no = of_behind(alloc, table, inside, first, no)?;
            let yes = Box::new(alloc, yes)?;
            let no = Box::new(alloc, no)?;
            Ok(ToldRow::Test {
                iteration: tag.saturating_sub(first),
                origin: *origin,
                on: *on,
                yes,
                no,
            })
        }
        WindowTree::Node { below } => {
            let advance = advance_behind(table, inside, first, below);
            Ok(ToldRow::Leaf { advance })
        }
        WindowTree::Exit { .. } | WindowTree::Stop | WindowTree::Trap { .. } => {
            let advance = advance_behind(table, inside, first, tree);
            Ok(ToldRow::Leaf { advance })
        }
    }
}
