//! What is gone through.
ghost use Rattle.std.specs.Prelude.{◌≡◌, ◌<◌, ◌^◌, ◌-◌, ℕ, Some, None, length, replicate, slice_get, slice_set, IfOk, IfSome};
ghost use Rattle.pc_accepted.specs.Arrivals.{entry_number};
ghost use Rattle.pc_checking.specs.models.Rows.{AreFirst};
ghost use Rattle.pc_checking.specs.models.Stored.{IsSetting};

use pc_cert::Entry;
use pc_machine::Code;
use pc_table::RegionTable;
use pc_word::Seq;
use std::alloc::{AllocError, Global};

/// By row the number of an entry.
type EntryNumberList = Seq<Option<u32>>;

/// What stays the same while entries are gone through: the table, the code, the entries, and by row
/// the number of the first entry that speaks of it.
#[derive(Clone, Copy)]
pub(crate) struct Setting<'a> {
    pub(crate) table: &'a RegionTable,
    pub(crate) code: &'a Code,
    pub(crate) entries: &'a [Entry],
    pub(crate) firsts: &'a [Option<u32>],
}

/// The entry whose row is left: its rank, and the least tag of its window.
#[derive(Clone, Copy)]
pub(crate) struct Departure {
    pub(crate) rank: u32,
    pub(crate) tag: u32,
}

/// The number of the first entry that speaks of a row, if there is one.
pub(crate) fn entry_of(setting: &Setting, row: u32) -> Option<u32>
    requires setting { IsSetting setting.now }
    requires there { row < length setting.now.code.now.rows }
    ensures number { result ≡ entry_number setting.now.entries.now row }
    ensures within { IfSome result (λ number. number < length setting.now.entries.now) }
{
    setting.firsts[row as usize]
}

/// By row no number of an entry.
fn no_entries(alloc: Global, rows: usize) -> Result<EntryNumberList, AllocError>
    ensures { IfOk result (λ firsts. firsts ≡ replicate rows None) }
{
    let mut firsts = EntryNumberList::new(alloc);
    for _ in 0..rows {
        firsts.push(None)?;
    }
    Ok(firsts)
}

/// Puts the number of an entry at the row of which it speaks, if there is such a row.
#[tactic(auto, using(crate::proofs::FirstEntries::put_nowhere))]
fn put_number(firsts: &mut EntryNumberList, row: u32, number: u32)
    ensures { firsts.new ≡ slice_set firsts.old row (Some number) }
{
    let row = row as usize;
    if row >= firsts.len() {
        return;
    }
    firsts.set(row, Some(number));
}

/// By row the number of the first entry that speaks of it, for so many rows. It takes time in proportion to the entries
/// and the rows.
#[tactic(auto, using(crate::proofs::FirstEntries::told_all))]
pub(crate) fn first_entries(
    alloc: Global,
    entries: &[Entry],
    rows: usize,
) -> Result<EntryNumberList, AllocError>
    requires { length entries.now < 2 ^ 32 }
    ensures as_many { IfOk result (λ firsts. length firsts ≡ rows) }
    ensures firsts { IfOk result (λ firsts. AreFirst entries.now firsts) }
{
    let mut firsts = no_entries(alloc, rows)?;
    let mut number = entries.len();
    while number > 0 {
        number -= 1;
        put_number(&mut firsts, entries[number].row, number as u32);
    }
    Ok(firsts)
}
