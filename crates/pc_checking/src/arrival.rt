//! What an entry stands for.
ghost use Rattle.std.specs.Prelude.{◌≡◌, map, None, IfOk, IfSome};
ghost use Rattle.pc_table.specs.Table.{Table};
ghost use Rattle.pc_window.specs.Steps.{IsProper};
ghost use Rattle.pc_window.specs.StoredWindow.{window_in};
ghost use Rattle.pc_renumber.specs.Renumbering.{Renumbers};
ghost use Rattle.pc_settling.specs.Stored.{IsLeft, IsBegun};
ghost use Rattle.pc_accepted.specs.Arrivals.{no_arrivals, first_arrival};
ghost use Rattle.pc_checking.specs.models.Stored.{some_arrival_in, arrivals_in};

use pc_cert::Entry;
use pc_matching::FactList;
use pc_renumber::renumber;
use pc_settling::facts_of_entry;
use pc_window::{Window, WindowError};
use std::alloc::{AllocError, Global};

/// What an entry stands for: the window that arrived first, and the entry's facts on its names.
#[derive(Debug, Drop)]
pub(crate) struct FirstArrival {
    pub(crate) window: Window,
    pub(crate) facts: FactList,
}

/// For each entry what arrived first, before anything has arrived.
pub(crate) fn no_arrivals(
    alloc: Global,
    entries: &[Entry],
) -> Result<Vec<Option<FirstArrival>>, AllocError>
    ensures { IfOk result (λ arrivals. arrivals_in arrivals.items ≡ no_arrivals entries.now) }
{
    let mut arrivals = Vec::new(alloc);
    for _entry in entries {
        arrivals.push(None)?;
    }
    Ok(arrivals)
}

/// A copy of a window with its names numbered anew.
#[tactic(auto, using(crate::proofs::Arrived::copied_left))]
fn renumbered_copy(alloc: Global, window: &Window) -> Result<Window, WindowError>
    requires { IsLeft window.now }
    ensures same { IfOk result (λ copy. Renumbers (window_in window.now) (window_in copy)) }
    ensures proper { IfOk result (λ copy. IsProper (window_in copy)) }
    ensures begun { (table : Table) → IsBegun table window.now → IfOk result (λ copy. IsBegun table copy) }
{
    let copy = window.copy(alloc)?;
    let copy = renumber(alloc, copy)?;
    Ok(copy)
}

/// What an entry stands for that begins with a window: that with its names numbered anew, and the entry's facts on
/// them; `None` where it has fewer parameters than a fact names.
#[tactic(auto, using(crate::proofs::Arrived::arriving))]
fn new_arrival(
    alloc: Global,
    window: &Window,
    entry: &Entry,
) -> Result<Option<FirstArrival>, WindowError>
    requires { IsLeft window.now }
    ensures stands { IfOk result (λ arrived. some_arrival_in arrived ≡ first_arrival None (window_in window.now) entry.now) }
    ensures begun { (table : Table) → IsBegun table window.now → IfOk result (λ arrived. IfSome arrived (λ it. IsBegun table it.window)) }
{
    let window = renumbered_copy(alloc, window)?;
    let Some(facts) = facts_of_entry(alloc, &window, entry.facts.as_slice())? else {
        return Ok(None);
    };
    Ok(Some(FirstArrival { window, facts }))
}

/// What an entry stands for once it begins with a window: what arrived before, or else this window.
pub(crate) fn first_arrival(
    alloc: Global,
    before: Option<FirstArrival>,
    window: &Window,
    entry: &Entry,
) -> Result<Option<FirstArrival>, WindowError>
    requires { IsLeft window.now }
    ensures stands { IfOk result (λ arrived. some_arrival_in arrived ≡ first_arrival (some_arrival_in before) (window_in window.now) entry.now) }
    ensures begun { (table : Table) → IsBegun table window.now → IfSome before (λ it. IsBegun table it.window)
        → IfOk result (λ arrived. IfSome arrived (λ it. IsBegun table it.window)) }
{
    match before {
        None => new_arrival(alloc, window, entry),
        Some(arrived) => Ok(Some(arrived)),
    }
}
