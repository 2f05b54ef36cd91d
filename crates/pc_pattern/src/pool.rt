//! The members of a search: their keys, and the windows that wait for their rows.
ghost use Rattle.std.specs.Prelude.{◌≡◌, ◌<◌, ◌≤◌, ◌^◌, ◌++◌, ◌∷◌, [], None, length, map, IfSome, IfNone, IfOk, IfErr, OnOk};
ghost use Rattle.std.specs.List.{AllByRecursion};
ghost use Rattle.pc_window.specs.Tree.{whole, tree_size};
ghost use Rattle.pc_window.specs.Names.{parameters_of};
ghost use Rattle.pc_window.specs.Unwinding.{most_unwound};
ghost use Rattle.pc_window.specs.Steps.{IsProper};
ghost use Rattle.pc_window.specs.StoredWindow.{tree_in, window_in};
ghost use Rattle.pc_canon.specs.Key.{key_of};
ghost use Rattle.pc_pattern.specs.Searches.{Rules, bare_leaf};
ghost use Rattle.pc_pattern.specs.models.Seen.{AreSeen};
ghost use Rattle.pc_pattern.specs.models.Pools.{keys_in, pool_in, IsPlaced, Joins, IsNumbered, IsSettled};
ghost use Rattle.pc_pattern.specs.models.Leading.{KeyRefused, WindowRefused};

use crate::error::{KeyList, SearchError};
use crate::member_key::MemberKey;
use crate::seen::Seen;
use indexmap::IndexSet;
use pc_canon::{WindowKey, key};
use pc_renumber::renumber_by;
use pc_window::{Window, WindowError};
use std::alloc::{AllocError, Global};
use std::collections::VecDeque;
use std::mem::replace;

/// The members of a search so far.
#[derive(Drop)]
pub(crate) struct Pool {
    /// The keys of all, in the order of their numbers.
    pub(crate) keys: IndexSet<MemberKey>,
    /// The windows of those that wait for their rows.
    pub(crate) waiting: VecDeque<Window>,
    /// The windows that were left at leaves, and the members to which they came.
    pub(crate) seen: Seen,
}

impl Pool {
    /// Takes the first window that waits.
    pub(crate) fn next_waiting(&mut self) -> Option<Window>
        ensures first { IfSome result (λ window. self.old.waiting.items ≡ window ∷ self.new.waiting.items) }
        ensures none { IfNone result (self.old.waiting.items ≡ []) }
        ensures keys { self.new.keys ≡ self.old.keys }
        ensures seen { self.new.seen ≡ self.old.seen }
    {
        self.waiting.pop_front()
    }
}

/// The members that a search begins with: its first window.
#[tactic(auto, using(crate::proofs::Steps::names_there))]
pub(crate) fn begun(alloc: Global, first: Window) -> Result<Pool, WindowError>
    requires proper { IsProper (window_in first) }
    requires size { tree_size (tree_in first.tree) ≤ most_unwound }
    requires names { length first.names.forms < 2 ^ 31 }
    ensures keys { IfOk result (λ pool. keys_in pool.keys.keys ≡ key_of (window_in first) ∷ []) }
    ensures waiting { IfOk result (λ pool. pool.waiting.items ≡ first ∷ []) }
    ensures seen { IfOk result (λ pool. (rules : Rules) → AreSeen rules (keys_in pool.keys.keys) pool.seen) }
{
    let WindowKey { bytes, .. } = key(alloc, &first)?;
    let mut keys = IndexSet::new(alloc);
    placed(MemberKey { bytes }, &mut keys)?;
    let mut waiting = VecDeque::new(alloc);
    put_behind(first, &mut waiting)?;
    Ok(Pool {
        keys,
        waiting,
        seen: Seen::nothing(alloc),
    })
}

/// The number of a key among the keys, and whether it is new; then it stands last from there on.
#[tactic(auto, using(crate::proofs::Placed::placed))]
pub(crate) fn placed(
    key: MemberKey,
    keys: &mut IndexSet<MemberKey>,
) -> Result<(usize, bool), AllocError>
    ensures { IfOk result (λ r. IsPlaced (keys_in keys.old.keys) key.bytes.items r.0 r.1 (keys_in keys.new.keys)) }
{
    Ok(keys.insert_full(key)?)
}

/// All keys, taken out into a list.
fn all_keys(alloc: Global, keys: IndexSet<MemberKey>) -> Result<KeyList, AllocError>
    ensures { IfOk result (λ all. keys_in all ≡ keys_in keys.keys) }
{
    let mut all = KeyList::new(alloc);
    for key in keys {
        all.push(key)?;
    }
    Ok(all)
}

/// Puts a window behind those that wait.
fn put_behind(window: Window, waiting: &mut VecDeque<Window>) -> Result<(), AllocError>
    ensures { OnOk result (waiting.new.items ≡ waiting.old.items ++ window ∷ []) }
{
    waiting.push_back(window)?;
    Ok(())
}

/// The number of a key among the keys, and whether it is new, unless there are as many as there may be:
/// then the keys are taken out.
#[tactic(auto, using(crate::proofs::Placed::numbers))]
fn number_of(
    alloc: Global,
    key: MemberKey,
    keys: &mut IndexSet<MemberKey>,
    rows: u16,
) -> Result<(u32, bool), SearchError>
    requires room { length keys.old.keys ≤ rows }
    ensures placed { IfOk result (λ r. IsPlaced (keys_in keys.old.keys) key.bytes.items r.0 r.1 (keys_in keys.new.keys)) }
    ensures room { OnOk result (length keys.new.keys ≤ rows) }
    ensures refused { IfErr result (λ error. KeyRefused rows (keys_in keys.old.keys) key.bytes.items error) }
{
    let (number, is_new) = placed(key, keys)?;
    if number >= rows as usize {
        let reached = all_keys(alloc, replace(keys, IndexSet::new(alloc)))?;
        return Err(SearchError::NoPattern { reached });
    }
    Ok((number as u32, is_new))
}

/// Puts a window with these parameters behind those that wait, renumbered.
#[tactic(auto, using(crate::proofs::Placed::settled_again))]
fn join(
    alloc: Global,
    window: Window,
    parameters: &[u32],
    waiting: &mut VecDeque<Window>,
) -> Result<(), WindowError>
    requires proper { IsProper (window_in window) }
    requires settled { IsSettled window }
    requires parameters { parameters.now ≡ parameters_of (whole (window_in window).front) }
    ensures waits { OnOk result (Joins (map window_in waiting.old.items) (window_in window) (map window_in waiting.new.items)) }
    ensures settled { OnOk result (AllByRecursion IsSettled waiting.old.items → AllByRecursion IsSettled waiting.new.items) }
{
    let window = renumber_by(alloc, window, parameters)?;
    put_behind(window, waiting)?;
    Ok(())
}

/// The number of a window with these parameters that was brought on: that of the member with the same
/// key, or the next one. Then the window waits, renumbered, unless there are as many members as there may be.
#[tactic(auto, using(crate::proofs::Placed::members))]
pub(crate) fn numbered(
    alloc: Global,
    window: Window,
    parameters: &[u32],
    key: MemberKey,
    pool: &mut Pool,
    rows: u16,
) -> Result<u32, SearchError>
    requires proper { IsProper (window_in window) }
    requires settled { IsSettled window }
    requires bare { bare_leaf (whole (window_in window).front) ≡ None }
    requires parameters { parameters.now ≡ parameters_of (whole (window_in window).front) }
    requires key { key.bytes.items ≡ key_of (window_in window) }
    requires room { length pool.old.keys.keys ≤ rows }
    ensures numbered { IfOk result (λ number. IsNumbered (pool_in pool.old) (window_in window) number (pool_in pool.new)) }
    ensures settled { OnOk result (AllByRecursion IsSettled pool.old.waiting.items → AllByRecursion IsSettled pool.new.waiting.items) }
    ensures seen { pool.new.seen ≡ pool.old.seen }
    ensures room { OnOk result (length pool.new.keys.keys ≤ rows) }
    ensures refused { IfErr result (λ error. WindowRefused rows (pool_in pool.old) (window_in window) error) }
{
    let (number, is_new) = number_of(alloc, key, &mut pool.keys, rows)?;
    if !is_new {
        return Ok(number);
    }
    join(alloc, window, parameters, &mut pool.waiting)?;
    Ok(number)
}
