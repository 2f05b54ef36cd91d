//! Cutting: the front of a window as a row.
ghost use Rattle.std.specs.Prelude.{◌≡◌, IfOk, true, slice_get};
ghost use Rattle.pc_table.specs.StoredTable.{table_of};
ghost use Rattle.pc_window.specs.Kept.{CutKeeps};
ghost use Rattle.pc_window.specs.Laws.{IsLegal};
ghost use Rattle.pc_window.specs.Steps.{Cuts, left_of, left_at_root, front_row, with_tree, IsProper, EachLeft};
ghost use Rattle.pc_window.specs.StoredWindow.{window_in, tree_in, front_in, supply_in, InNodes, NodesBehind};
ghost use Rattle.pc_automaton.specs.StoredLeft.{left_in, LeftInNodes};
ghost use Rattle.pc_automaton.specs.models.Cutting.{bare_window};
ghost use Rattle.pc_word.specs.StoredRow.{row_in, EachLeaf};

use crate::left::Left;
use pc_table::RegionTable;
use pc_window::{FormList, NameTable, Window, WindowError, WindowTree};
use pc_word::{Limits, RowTree};
use std::alloc::{AllocError, Global};

/// The front of a window as a row, and at each of its leaves what is left: a window that begins
/// with the first item or test behind the leaf, a stub that leads out of the window's loop, the
/// end, or a trap. A stub that is the whole window leads out. The window is dropped where memory
/// runs out.
#[tactic(auto, using(crate::proofs::Cuts::laws))]
pub fn cut_front(
    alloc: Global,
    window: Window,
    table: &RegionTable,
) -> Result<RowTree<Left>, WindowError>
    requires { NodesBehind window.tree }
    ensures cut { IfOk result (λ row. Cuts (table_of table.now) (window_in window) (row_in left_in row)) }
    ensures nodes { IfOk result (λ row. EachLeaf LeftInNodes row) }
    ensures proper { IfOk result (λ row. IsProper (window_in window) → EachLeft IsProper (row_in left_in row)) }
    ensures keeps { IfOk result (λ row. IsProper (window_in window) → CutKeeps (table_of table.now) (window_in window) (row_in left_in row)) }
    ensures legal { IfOk result (λ row. IsProper (window_in window) → IsLegal (window_in window) (row_in left_in row)) }
{
    whole_cut(alloc, window, table)
}

/// A window that is cut.
#[tactic(auto, using(crate::proofs::Cuts::cuts))]
fn whole_cut(
    alloc: Global,
    window: Window,
    table: &RegionTable,
) -> Result<RowTree<Left>, WindowError>
    requires { NodesBehind window.tree }
    ensures cut { IfOk result (λ row. Cuts (table_of table.now) (window_in window) (row_in left_in row)) }
    ensures nodes { IfOk result (λ row. EachLeaf LeftInNodes row) }
{
    let Window {
        tree,
        names,
        limits,
        inside,
    } = window;
    match tree {
        WindowTree::Step { .. } | WindowTree::Test { .. } => {
            Ok(cut(alloc, table, &names, limits, inside, tree)?)
        }
        WindowTree::Node { below } => {
            let leaf = left_at_root(alloc, table, &names, limits, inside, Box::into_inner(below))?;
            Ok(RowTree::Leaf { leaf })
        }
        WindowTree::Exit { .. } | WindowTree::Stop | WindowTree::Trap { .. } => {
            let leaf = left_at_root(alloc, table, &names, limits, inside, tree)?;
            Ok(RowTree::Leaf { leaf })
        }
    }
}

/// A front as a row, where this is its tree and these are its window's names.
fn cut(
    alloc: Global,
    table: &RegionTable,
    names: &NameTable,
    limits: Limits,
    inside: Option<u16>,
    tree: WindowTree,
) -> Result<RowTree<Left>, AllocError>
    requires { NodesBehind tree }
    ensures row { IfOk result (λ row. row_in left_in row ≡ front_row (left_of (table_of table.now) (bare_window (supply_in names.now) limits inside)) (front_in tree)) }
    ensures nodes { IfOk result (λ row. EachLeaf LeftInNodes row) }
{
    match tree {
        WindowTree::Step { item, rest, .. } => {
            let next = cut(alloc, table, names, limits, inside, Box::into_inner(rest))?;
            let next = Box::new(alloc, next)?;
            Ok(RowTree::Step { item, next })
        }
        WindowTree::Test { on, yes, no, .. } => {
            let yes = cut(alloc, table, names, limits, inside, Box::into_inner(yes))?;
            let no = cut(alloc, table, names, limits, inside, Box::into_inner(no))?;
            let yes = Box::new(alloc, yes)?;
            let no = Box::new(alloc, no)?;
            Ok(RowTree::Test { on, yes, no })
        }
        WindowTree::Node { below } => {
            let leaf = left(alloc, table, names, limits, inside, Box::into_inner(below))?;
            Ok(RowTree::Leaf { leaf })
        }
        WindowTree::Exit { .. } | WindowTree::Stop | WindowTree::Trap { .. } => {
            let leaf = left(alloc, table, names, limits, inside, tree)?;
            Ok(RowTree::Leaf { leaf })
        }
    }
}

/// What is left where the front of a window has neither item nor test.
fn left_at_root(
    alloc: Global,
    table: &RegionTable,
    names: &NameTable,
    limits: Limits,
    inside: Option<u16>,
    tree: WindowTree,
) -> Result<Left, AllocError>
    requires { InNodes true tree }
    ensures left { IfOk result (λ left. left_in left ≡ left_at_root (table_of table.now) (bare_window (supply_in names.now) limits inside) (tree_in tree)) }
    ensures nodes { IfOk result (λ left. LeftInNodes left) }
{
    match tree {
        WindowTree::Exit { region, homes, .. } => Ok(Left::Out { region, homes }),
        tree => left(alloc, table, names, limits, inside, tree),
    }
}

/// What is left at a leaf behind which this tree stands.
fn left(
    alloc: Global,
    table: &RegionTable,
    names: &NameTable,
    limits: Limits,
    inside: Option<u16>,
    tree: WindowTree,
) -> Result<Left, AllocError>
    requires { InNodes true tree }
    ensures left { IfOk result (λ left. left_in left ≡ left_of (table_of table.now) (bare_window (supply_in names.now) limits inside) (tree_in tree)) }
    ensures nodes { IfOk result (λ left. LeftInNodes left) }
{
    match tree {
        WindowTree::Stop => Ok(Left::Stop),
        WindowTree::Trap { kind, line } => Ok(Left::Trap { kind, line }),
        WindowTree::Exit { region, tag, homes } => {
            if !table.is_inside(region, inside) {
                return Ok(Left::Out { region, homes });
            }
            let stub = WindowTree::Exit { region, tag, homes };
            let window = rest(alloc, names, limits, inside, stub)?;
            Ok(Left::Rest { window })
        }
        WindowTree::Step { .. } | WindowTree::Test { .. } | WindowTree::Node { .. } => {
            let window = rest(alloc, names, limits, inside, tree)?;
            Ok(Left::Rest { window })
        }
    }
}

/// What stood behind a leaf, as a window of its own.
fn rest(
    alloc: Global,
    names: &NameTable,
    limits: Limits,
    inside: Option<u16>,
    tree: WindowTree,
) -> Result<Window, AllocError>
    requires { InNodes true tree }
    ensures window { IfOk result (λ window. window_in window ≡ with_tree (bare_window (supply_in names.now) limits inside) (tree_in tree)) }
    ensures nodes { IfOk result (λ window. InNodes true window.tree) }
{
    let forms = FormList::from_slice(alloc, names.forms.as_slice())?;
    let names = NameTable {
        forms,
        next_variable: names.next_variable,
    };
    Ok(Window {
        tree,
        names,
        limits,
        inside,
    })
}
