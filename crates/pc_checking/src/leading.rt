//! Where what is left leads: to the entry of the row that comes next.
ghost use Rattle.std.specs.Prelude.{◌≡◌, ◌<◌, ℕ, Some, length, slice_get, IfOk, OnOk};
ghost use Rattle.pc_table.specs.StoredTable.{table_of};
ghost use Rattle.pc_canon.specs.Keyed.{HasKey};
ghost use Rattle.pc_settling.specs.Stored.{remaining_in, begun_in, IsLeft, IsBegun};
ghost use Rattle.pc_accepted.specs.Arrivals.{entry_number};
ghost use Rattle.pc_accepted.specs.Leading.{Leads, has_progress};
ghost use Rattle.pc_checking.specs.models.Going.{Meets, LeadsTo};
ghost use Rattle.pc_checking.specs.models.Stored.{arrival_in, arrivals_in, setting_in, some_departure_in, outcome_of, IsSetting, AreKept};

use crate::arrival::{FirstArrival, first_arrival};
use crate::setting::{Departure, Setting, entry_of};
use pc_accepted::LeafFlaw;
use pc_cert::Entry;
use pc_settling::{Begun, Remaining, arrives, begin, progress};
use pc_word::OutOfMemory;
use std::alloc::Global;

/// Whether there is progress to an entry: always from the start; else where a region was entered, or from one
/// window to the other.
fn has_progress(departure: Option<Departure>, begun: &Begun, entry: &Entry) -> bool
    ensures { result ≡ has_progress (some_departure_in departure) (begun_in begun.now) entry.now }
{
    match departure {
        None => true,
        Some(departure) => {
            begun.entered || progress(departure.rank, departure.tag, entry.rank, &begun.window)
        }
    }
}

/// Whether what an entry begins with arrives at what the entry stands for, with progress.
#[tactic(auto, using(crate::proofs::Leads::meeting))]
fn meet(
    alloc: Global,
    departure: Option<Departure>,
    begun: &Begun,
    entry: &Entry,
    arrived: &FirstArrival,
) -> Result<Result<(), LeafFlaw>, OutOfMemory>
    requires here { HasKey begun.now.window }
    requires there { HasKey arrived.now.window }
    ensures { IfOk result (λ outcome. Meets (some_departure_in departure) (begun_in begun.now) entry.now (arrival_in arrived.now) outcome) }
{
    let here = &begun.window;
    let held = begun.facts.as_slice();
    if !arrives(alloc, here, held, &arrived.window, arrived.facts.as_slice())? {
        return Ok(Err(LeafFlaw::NoArrival));
    }
    if !has_progress(departure, begun, entry) {
        return Ok(Err(LeafFlaw::NoProgress));
    }
    Ok(Ok(()))
}

/// What an entry begins with leads to the entry, which stands for it from then on, unless it stood for something
/// before.
fn lead_to(
    alloc: Global,
    setting: &Setting,
    departure: Option<Departure>,
    begun: &Begun,
    number: u32,
    arrivals: &mut [Option<FirstArrival>],
) -> Result<Result<(), LeafFlaw>, OutOfMemory>
    requires begun { IsBegun (table_of setting.now.table.now) begun.now.window }
    requires within { number < length setting.now.entries.now }
    requires kept { AreKept setting.now arrivals.old }
    ensures leads { IfOk result (λ outcome. LeadsTo (setting_in setting.now) (some_departure_in departure) (begun_in begun.now) number (arrivals_in arrivals.old)
        (outcome_of (arrivals_in arrivals.new) outcome)) }
    ensures kept { OnOk result (AreKept setting.now arrivals.new) }
{
    let entry = &setting.entries[number as usize];
    let before = arrivals[number as usize].take();
    let first = first_arrival(alloc, before, &begun.window, entry)?;
    let Some(arrived) = first else {
        return Ok(Err(LeafFlaw::NoParameter));
    };
    let met = meet(alloc, departure, begun, entry, &arrived)?;
    arrivals[number as usize] = Some(arrived);
    Ok(met)
}

/// What is left leads to a row's entry; or the first reason why it does not. From then on the entry stands for what
/// it begins with, unless it stood for something before.
pub(crate) fn lead(
    alloc: Global,
    setting: &Setting,
    departure: Option<Departure>,
    left: Remaining,
    row: u32,
    arrivals: &mut [Option<FirstArrival>],
) -> Result<Result<(), LeafFlaw>, OutOfMemory>
    requires setting { IsSetting setting.now }
    requires there { row < length setting.now.code.now.rows }
    requires left { IsLeft left.window }
    requires kept { AreKept setting.now arrivals.old }
    ensures leads { IfOk result (λ outcome. Leads (setting_in setting.now) (some_departure_in departure) (remaining_in left) (arrivals_in arrivals.old) row
        (outcome_of (arrivals_in arrivals.new) outcome)) }
    ensures kept { OnOk result (AreKept setting.now arrivals.new) }
{
    let Some(number) = entry_of(setting, row) else {
        return Ok(Err(LeafFlaw::NoEntry));
    };
    let opening = setting.entries[number as usize].opening;
    let begun = begin(alloc, setting.table, setting.code.limits, opening, left)?;
    let Some(begun) = begun else {
        return Ok(Err(LeafFlaw::NoBeginning));
    };
    lead_to(alloc, setting, departure, &begun, number, arrivals)
}
