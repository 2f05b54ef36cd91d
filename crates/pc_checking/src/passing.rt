//! Whether entries pass.
ghost use Rattle.std.specs.Prelude.{◌≡◌, ◌<◌, Some, length, slice_get, IfOk, OnOk};
ghost use Rattle.pc_accepted.specs.Accepted.{Passes, AllPass};
ghost use Rattle.pc_checking.specs.models.Stored.{arrivals_in, setting_in, outcome_of, IsSetting, AreKept};

use crate::arranged::{Arranged, arrange};
use crate::arrival::FirstArrival;
use crate::leaves::leaves_lead_on;
use crate::setting::{Departure, Setting};
use pc_accepted::{Flaw, Rejection};
use pc_cert::Entry;
use pc_word::OutOfMemory;
use std::alloc::Global;

/// An entry passes: something has arrived there, its steps arrange that, its row does what the front does, and
/// the row's leaves lead on; or the first reason against it.
#[tactic(auto, using(crate::proofs::Passes::passing))]
fn pass(
    alloc: Global,
    setting: &Setting,
    number: u32,
    entry: &Entry,
    arrivals: &mut [Option<FirstArrival>],
) -> Result<Result<(), Flaw>, OutOfMemory>
    requires setting { IsSetting setting.now }
    requires kept { AreKept setting.now arrivals.old }
    requires within { number < length setting.now.entries.now }
    ensures passes { IfOk result (λ outcome. Passes (setting_in setting.now) number entry.now (arrivals_in arrivals.old) (outcome_of (arrivals_in arrivals.new) outcome)) }
    ensures kept { OnOk result (AreKept setting.now arrivals.new) }
{
    let Some(arrived) = &arrivals[number as usize] else {
        return Ok(Err(Flaw::Unreached));
    };
    let Some(row) = setting.code.rows.get(entry.row as usize) else {
        return Ok(Err(Flaw::NoRow));
    };
    let departure = Departure {
        rank: entry.rank,
        tag: arrived.window.front_tag(),
    };
    let steps = entry.steps.as_slice();
    let Arranged { window, helds } = match arrange(alloc, setting.table, steps, arrived, row)? {
        Ok(arranged) => arranged,
        Err(flaw) => return Ok(Err(flaw)),
    };
    let helds = helds.as_slice();
    let led = leaves_lead_on(alloc, setting, departure, row, &window, helds, arrivals)?;
    match led {
        Ok(()) => Ok(Ok(())),
        Err(refusal) => Ok(Err(Flaw::Leaf {
            leaf: refusal.leaf,
            why: refusal.why,
        })),
    }
}

/// The entries pass, one after the other; or the first that is refused.
pub(crate) fn all_pass(
    alloc: Global,
    setting: &Setting,
    arrivals: &mut [Option<FirstArrival>],
) -> Result<Result<(), Rejection>, OutOfMemory>
    requires setting { IsSetting setting.now }
    requires kept { AreKept setting.now arrivals.old }
    ensures { IfOk result (λ outcome. AllPass (setting_in setting.now) 0 (arrivals_in arrivals.old) (outcome_of (arrivals_in arrivals.new) outcome)) }
{
    let mut number = 0;
    for entry in setting.entries {
        if let Err(flaw) = pass(alloc, setting, number, entry, arrivals)? {
            return Ok(Err(Rejection {
                entry: number,
                flaw,
            }));
        }
        number += 1;
    }
    Ok(Ok(()))
}
