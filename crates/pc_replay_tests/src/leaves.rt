//! The windows at all leaves, of one window and of those that follow it.
ghost use Rattle.std.specs.Prelude.{◌≡◌, ◌++◌, ◌∷◌, [], true, IfSome, OnOk};
ghost use Rattle.std.specs.List.{AllByRecursion};
ghost use Rattle.pc_window.specs.Steps.{IsProper, EachLeft};
ghost use Rattle.pc_window.specs.StoredWindow.{window_in, InNodes};
ghost use Rattle.pc_automaton.specs.StoredLeft.{left_in, LeftInNodes};
ghost use Rattle.pc_replay_tests.specs.Waiting.{CanBeFilled};
ghost use Rattle.pc_word.specs.StoredRow.{row_in, EachLeaf};

use crate::comparing::{Compared, compare, key_of};
use crate::following::brought_on;
use pc_automaton::{Left, cut_front};
use pc_canon::WindowKey;
use pc_replay::ReplayError;
use pc_table::RegionTable;
use pc_window::Window;
use pc_window_specimen::may_be_filled;
use pc_word::RowTree;
use std::alloc::{AllocError, Global};
use std::collections::{BTreeSet, VecDeque};

/// The windows that were met.
#[derive(Drop)]
struct Met {
    /// The keys of all.
    keys: BTreeSet<Vec<u8>>,
    /// Those that wait to be filled.
    waiting: VecDeque<Window>,
}

impl Met {
    /// Takes the first window that waits.
    fn next_waiting(&mut self) -> Option<Window>
        ensures { IfSome result (λ window. self.old.waiting.items ≡ window ∷ self.new.waiting.items) }
    {
        self.waiting.pop_front()
    }
}

/// Puts a key among the keys. Whether it is new.
fn put_key(key: Vec<u8>, keys: &mut BTreeSet<Vec<u8>>) -> Result<bool, AllocError> {
    Ok(keys.insert(key)?)
}

/// Puts a window behind those that wait.
fn put_behind(window: Window, waiting: &mut VecDeque<Window>) -> Result<(), AllocError>
    ensures { OnOk result (waiting.new.items ≡ waiting.old.items ++ window ∷ []) }
{
    waiting.push_back(window)?;
    Ok(())
}

/// Puts a window behind those that wait, unless one with its key was met.
fn put(alloc: Global, window: Window, met: &mut Met) -> Result<(), ReplayError>
    requires proper { IsProper (window_in window) }
    requires nodes { InNodes true window.tree }
    requires all { AllByRecursion CanBeFilled met.old.waiting.items }
    ensures { OnOk result (AllByRecursion CanBeFilled met.new.waiting.items) }
{
    if !may_be_filled(&window) {
        return Err(ReplayError::TooLarge);
    }
    let WindowKey { bytes, .. } = key_of(alloc, &window)?;
    if put_key(bytes, &mut met.keys)? {
        put_behind(window, &mut met.waiting)?;
    }
    Ok(())
}

/// Puts what is left at each leaf of a row behind the windows that wait, once it is brought on.
fn put_leaves(
    alloc: Global,
    table: &RegionTable,
    row: RowTree<Left>,
    met: &mut Met,
) -> Result<(), ReplayError>
    requires proper { EachLeft IsProper (row_in left_in row) }
    requires nodes { EachLeaf LeftInNodes row }
    requires all { AllByRecursion CanBeFilled met.old.waiting.items }
    ensures { OnOk result (AllByRecursion CanBeFilled met.new.waiting.items) }
{
    match row {
        RowTree::Step { next, .. } => put_leaves(alloc, table, Box::into_inner(next), met),
        RowTree::Test { yes, no, .. } => {
            let no = Box::into_inner(no);
            put_leaves(alloc, table, Box::into_inner(yes), met)?;
            put_leaves(alloc, table, no, met)
        }
        RowTree::Leaf { leaf } => match leaf {
            Left::Rest { window } => {
                let window = brought_on(alloc, table, window)?;
                put(alloc, window, met)
            }
            Left::Out { .. } => Ok(()),
            Left::Stop => Ok(()),
            Left::Trap { .. } => Ok(()),
        },
    }
}

/// Fills a window, and then those that follow at all leaves, each once and at most so many, at once
/// and by single moves.
pub(crate) fn compare_leaves(
    alloc: Global,
    table: &RegionTable,
    window: Window,
    most: u32,
    all: &mut Compared,
) -> Result<(), ReplayError>
    requires proper { IsProper (window_in window) }
    requires nodes { InNodes true window.tree }
{
    let mut met = Met {
        keys: BTreeSet::new(alloc),
        waiting: VecDeque::new(alloc),
    };
    put(alloc, window, &mut met)?;
    for _ in 0..most {
        let Some(window) = met.next_waiting() else {
            return Ok(());
        };
        let filled = compare(alloc, window, all)?;
        let row = cut_front(alloc, filled, table)?;
        put_leaves(alloc, table, row, &mut met)?;
    }
    Ok(())
}
