//! Whether a certificate is accepted.
ghost use Rattle.std.specs.Prelude.{◌≡◌, ◌↔◌, ◌<◌, ◌^◌, true, length, IfOk, IfErr, MatchResult};
ghost use Rattle.pc_word.specs.Ranges.{AreLimits};
ghost use Rattle.pc_table.specs.StoredTable.{table_of};
ghost use Rattle.pc_machine.specs.MachineCode.{code_of};
ghost use Rattle.pc_machine.specs.WellFormed.{WellFormed};
ghost use Rattle.pc_settling.specs.Stored.{remaining_in, IsLeft};
ghost use Rattle.pc_accepted.specs.Arrivals.{no_arrivals};
ghost use Rattle.pc_accepted.specs.Accepted.{at_start, HasData, Accepts, Rejects};
ghost use Rattle.pc_checking.specs.Checked.{WhyNot};
ghost use Rattle.pc_checking.specs.models.Going.{GoesThrough};
ghost use Rattle.pc_checking.specs.models.Stored.{arrivals_in, setting_in, IsSetting};

use crate::arrival::{FirstArrival, no_arrivals};
use crate::data::has_data;
use crate::error::CheckError;
use crate::leading::lead;
use crate::passing::all_pass;
use crate::setting::{Setting, first_entries};
use pc_accepted::{Flaw, Rejection};
use pc_cert::{Certificate, Entry};
use pc_machine::Code;
use pc_settling::{Remaining, facts_at_start};
use pc_table::RegionTable;
use pc_window::Window;
use pc_word::{DataList, OutOfMemory};
use std::alloc::Global;

/// What is still to be done before row 0: the window of region 0, where all registers and variables are 0.
#[tactic(auto, using(crate::proofs::Starting::starting))]
fn at_start(alloc: Global, table: &RegionTable, code: &Code) -> Result<Remaining, OutOfMemory>
    requires { AreLimits code.now.limits }
    ensures start { IfOk result (λ left. remaining_in left ≡ at_start (table_of table.now) (code_of code.now)) }
    ensures left { IfOk result (λ left. IsLeft left.window) }
{
    let window = Window::of_region(alloc, table, 0, code.limits)?;
    let facts = facts_at_start(alloc, code.registers as u32)?;
    Ok(Remaining { window, facts })
}

/// Goes through the entries from what is still to be done before row 0, before anything has arrived.
fn from_start(
    alloc: Global,
    setting: &Setting,
    start: Remaining,
    arrivals: &mut [Option<FirstArrival>],
) -> Result<Result<(), Rejection>, OutOfMemory>
    requires setting { IsSetting setting.now }
    requires start { remaining_in start ≡ at_start (table_of setting.now.table.now) (code_of setting.now.code.now) }
    requires left { IsLeft start.window }
    requires nothing { arrivals_in arrivals.old ≡ no_arrivals setting.now.entries.now }
    ensures { IfOk result (λ outcome. GoesThrough (setting_in setting.now) outcome) }
{
    if let Err(why) = lead(alloc, setting, None, start, 0, arrivals)? {
        return Ok(Err(Rejection {
            entry: 0,
            flaw: Flaw::Start { why },
        }));
    }
    all_pass(alloc, setting, arrivals)
}

/// Goes through the entries, where the code's data are those of the source.
fn go_through(alloc: Global, setting: &Setting) -> Result<Result<(), Rejection>, OutOfMemory>
    requires { IsSetting setting.now }
    ensures { IfOk result (λ outcome. GoesThrough (setting_in setting.now) outcome) }
{
    let mut arrivals = no_arrivals(alloc, setting.entries)?;
    let start = at_start(alloc, setting.table, setting.code)?;
    from_start(alloc, setting, start, &mut arrivals)
}

/// The answer to a certificate with these entries.
fn answer(
    alloc: Global,
    table: &RegionTable,
    initial: &DataList,
    code: &Code,
    entries: &[Entry],
) -> Result<Result<(), Rejection>, OutOfMemory>
    requires formed { WellFormed (code_of code.now) }
    requires few { length entries.now < 2 ^ 32 }
    ensures { IfOk result (λ outcome. MatchResult outcome (λ _. Accepts (table_of table.now) initial.now (code_of code.now) entries.now)
        (λ rejection. Rejects (table_of table.now) initial.now (code_of code.now) entries.now rejection)) }
{
    if !has_data(code, &table.arrays, initial) {
        return Ok(Err(Rejection {
            entry: 0,
            flaw: Flaw::OtherData,
        }));
    }
    let firsts = first_entries(alloc, entries, code.rows.len())?;
    let setting = Setting {
        table,
        code,
        entries,
        firsts: firsts.as_slice(),
    };
    go_through(alloc, &setting)
}

/// Whether a certificate is accepted, which says why a code does what a table of regions does over arrays that
/// begin with these words. Where it is, the code agrees with the table on every input of words on which the table
/// does not fault (`law_of_accepted_codes` of pc_accepted).
///
/// The entries are gone through one after the other. `Rejected`: the first that is refused, and why. `Memory`:
/// memory ran out, which says nothing of the certificate. For each entry it takes the time of its steps
/// (`do_steps`) and of holding its row against its window (`match_row`), and for each leaf of the row
/// time in proportion to what is left there, and to the facts that hold times those of the next entry. Memory is kept
/// for the window of each entry that was reached.
pub fn check(
    alloc: Global,
    table: &RegionTable,
    initial: &DataList,
    code: &Code,
    certificate: &Certificate,
) -> Result<(), CheckError>
    requires formed { WellFormed (code_of code.now) }
    requires few { length certificate.now.entries < 2 ^ 32 }
    ensures accepted { IfOk result (λ _. Accepts (table_of table.now) initial.now (code_of code.now) certificate.now.entries) }
    ensures rejected { IfErr result (λ error. WhyNot (table_of table.now) initial.now (code_of code.now) certificate.now.entries error) }
{
    match answer(alloc, table, initial, code, certificate.entries.as_slice())? {
        Ok(()) => Ok(()),
        Err(rejection) => Err(CheckError::Rejected { rejection }),
    }
}
