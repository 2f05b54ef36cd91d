//! What a run cost, in lines.
ghost use Rattle.std.specs.Prelude.{◌≡◌, ◌≤◌, ◌++◌, ◌∷◌, [], IfOk, OnOk, codes, map, string_bytes};
ghost use Rattle.std.specs.List.{count_by};
ghost use Rattle.pc_word.specs.MachineLimits.{most_cycles};
ghost use Rattle.pc_word.specs.Line.{line};
ghost use Rattle.pc_machine.specs.MachineCode.{code_of};
ghost use Rattle.pc_report.specs.FaultLine.{machine_fault_text};
ghost use Rattle.pc_count.specs.Counts.{profile_of};
ghost use Rattle.pc_count.specs.Profiles.{IsProfileOf};
ghost use Rattle.pc_view.specs.Listing.{lines_text};
ghost use Rattle.pc_vm.specs.Standing.{end_of};
ghost use Rattle.pc_stat.specs.Summary.{copies_line, count_line, end_words, has_run, last_words, rate_words, row_line, rows_line, rows_lines, share_words, summary_text, use_lines, use_words, used_line, work_lines};

use crate::ranking::{RowCount, busiest};
use pc_count::{Profile, Work, copy_cycles, work_of};
use pc_machine::Code;
use pc_report::{machine_fault_words, trap_words};
use pc_view::part_of;
use pc_vm::Outcome;
use pc_word::{End, Limits, MachineFault};
use std::alloc::{AllocError, Global};

/// What a run of a code cost, in lines: the cycles that it took, and how it ended; the items, tests, and loads and
/// stores that it did, on average and of what rows may have; the prints and the reads; the cycles that did nothing but
/// copies; how many rows ran, and the ten that ran most often.
///
/// Shares are in per cent. They and averages have two decimals, and are cut off.
pub fn summary_text(alloc: Global, code: &Code, profile: &Profile) -> Result<Vec<u8>, AllocError>
    requires { IsProfileOf (code_of code.now) (profile_of profile.now) }
    ensures { IfOk result (λ text. text.items ≡ summary_text (code_of code.now) (profile_of profile.now)) }
{
    let mut text = String::new(alloc);
    push_count(&mut text, "cycles", profile.cycles)?;
    text.push_str("\nended by: ")?;
    push_end(&mut text, profile.outcome)?;
    text.push_str("\n")?;
    push_work(
        &mut text,
        code.limits,
        profile.cycles,
        work_of(code, profile),
    )?;
    push_copies(&mut text, copy_cycles(code, profile), profile.cycles)?;
    push_rows(alloc, &mut text, profile)?;
    Ok(text.into_bytes())
}

/// Appends a number of things to a text.
#[tactic(auto, unfolding(crate::specs::Summary::count_line))]
fn push_count(text: &mut String, name: &str, count: u64) -> Result<(), AllocError>
    ensures { OnOk result (string_bytes text.new ≡ string_bytes text.old ++ count_line name.now count) }
{
    write!(text, "{name}: {count}")
}

/// Appends how a run ended to a text, or that it took all the cycles that it might.
#[tactic(auto, unfolding(crate::specs::Summary::end_words))]
fn push_end(text: &mut String, outcome: Outcome) -> Result<(), AllocError>
    ensures { OnOk result (string_bytes text.new ≡ string_bytes text.old ++ end_words (end_of outcome)) }
{
    match outcome {
        Outcome::Over { end } => push_end_words(text, end),
        Outcome::Going => text.push_str("budget of cycles spent"),
    }
}

/// Appends how a run ended to a text: `stop`, a trap with its kind and line, or a fault by its name.
#[tactic(auto, unfolding(crate::specs::Summary::last_words))]
pub fn push_end_words(text: &mut String, end: End) -> Result<(), AllocError>
    ensures { OnOk result (string_bytes text.new ≡ string_bytes text.old ++ last_words end) }
{
    match end {
        End::Ended => text.push_str("stop"),
        End::Trapped { kind, line } => {
            let kind = trap_words(kind);
            write!(text, "trap: {kind} at line {line}")
        }
        End::Fault { fault } => push_fault(text, fault),
    }
}

/// Appends a fault of the machine to a text.
fn push_fault(text: &mut String, fault: MachineFault) -> Result<(), AllocError>
    ensures { OnOk result (string_bytes text.new ≡ string_bytes text.old ++ (codes "machine fault: " ++ machine_fault_text fault)) }
{
    text.push_str("machine fault: ")?;
    text.push_str(machine_fault_words(fault))
}

/// Appends what the cycles of a run did to a text.
fn push_work(text: &mut String, limits: Limits, cycles: u64, work: Work) -> Result<(), AllocError>
    requires { cycles ≤ most_cycles }
    ensures { OnOk result (string_bytes text.new ≡ string_bytes text.old ++ lines_text (work_lines limits cycles work)) }
{
    push_uses(text, limits, cycles, work)?;
    push_count_line(text, "prints", work.prints)?;
    push_count_line(text, "reads", work.reads)
}

/// Appends what they did of which a row may have so much.
fn push_uses(text: &mut String, limits: Limits, cycles: u64, work: Work) -> Result<(), AllocError>
    requires { cycles ≤ most_cycles }
    ensures { OnOk result (string_bytes text.new ≡ string_bytes text.old ++ lines_text (use_lines limits cycles work)) }
{
    push_used_line(text, "items", work.items, cycles, limits.ops)?;
    push_used_line(text, "tests passed", work.tests, cycles, limits.tests)?;
    push_used_line(text, "loads and stores", work.memory, cycles, limits.mem)
}

/// Appends the line of a number of things to a text.
fn push_count_line(text: &mut String, name: &str, count: u64) -> Result<(), AllocError>
    ensures { OnOk result (string_bytes text.new ≡ string_bytes text.old ++ line (count_line name.now count)) }
{
    push_count(text, name, count)?;
    text.push_str("\n")
}

/// Appends the line of a number of things to a text, of which a row may have so many.
fn push_used_line(
    text: &mut String,
    name: &str,
    count: u64,
    cycles: u64,
    most: u8,
) -> Result<(), AllocError>
    requires { cycles ≤ most_cycles }
    ensures { OnOk result (string_bytes text.new ≡ string_bytes text.old ++ line (used_line name.now count cycles most)) }
{
    push_used(text, name, count, cycles, most)?;
    text.push_str("\n")
}

/// Appends a number of things to a text, of which a row may have so many.
#[tactic(auto, unfolding(crate::specs::Summary::used_line))]
fn push_used(
    text: &mut String,
    name: &str,
    count: u64,
    cycles: u64,
    most: u8,
) -> Result<(), AllocError>
    requires { cycles ≤ most_cycles }
    ensures { OnOk result (string_bytes text.new ≡ string_bytes text.old ++ used_line name.now count cycles most) }
{
    push_count(text, name, count)?;
    push_rate(text, count, cycles)?;
    push_use(text, count, cycles, most)
}

/// Appends how many things a cycle did on average to a text.
#[tactic(auto, unfolding(crate::specs::Summary::rate_words))]
fn push_rate(text: &mut String, count: u64, cycles: u64) -> Result<(), AllocError>
    ensures { OnOk result (string_bytes text.new ≡ string_bytes text.old ++ rate_words count cycles) }
{
    let rate = part_of(100, count, cycles);
    write!(text, "; {rate} a cycle")
}

/// Appends how much this is of what rows may have to a text.
#[tactic(auto, unfolding(crate::specs::Summary::use_words))]
fn push_use(text: &mut String, count: u64, cycles: u64, most: u8) -> Result<(), AllocError>
    requires { cycles ≤ most_cycles }
    ensures { OnOk result (string_bytes text.new ≡ string_bytes text.old ++ use_words count cycles most) }
{
    let share = part_of(10_000, count, cycles * u64::from(most));
    write!(text, "; {share} % of {most} in a row")
}

/// Appends a share of the cycles to a text.
#[tactic(auto, unfolding(crate::specs::Summary::share_words))]
fn push_share(text: &mut String, some: u64, all: u64) -> Result<(), AllocError>
    ensures { OnOk result (string_bytes text.new ≡ string_bytes text.old ++ share_words some all) }
{
    let share = part_of(10_000, some, all);
    write!(text, "; {share} %")
}

/// Appends the line of the cycles that did nothing but copies to a text.
#[tactic(auto, unfolding(crate::specs::Summary::copies_line))]
fn push_copies(text: &mut String, copies: u64, cycles: u64) -> Result<(), AllocError>
    ensures { OnOk result (string_bytes text.new ≡ string_bytes text.old ++ (copies_line copies cycles ++ 10 ∷ [])) }
{
    push_count(text, "cycles that did nothing but copies", copies)?;
    push_share(text, copies, cycles)?;
    text.push_str("\n")
}

/// Appends how many rows ran, and those that ran most often, to a text.
fn push_rows(alloc: Global, text: &mut String, profile: &Profile) -> Result<(), AllocError>
    ensures { OnOk result (string_bytes text.new ≡ string_bytes text.old ++ lines_text (rows_lines profile.now.cycles profile.now.rows)) }
{
    let counts = profile.rows.as_slice();
    push_row_count(text, counts)?;
    let rows = busiest(alloc, counts)?;
    push_busiest(text, rows.as_slice(), profile.cycles)
}

/// Appends the line of how many rows ran to a text.
#[tactic(auto, unfolding(crate::specs::Summary::rows_line))]
fn push_row_count(text: &mut String, counts: &[u64]) -> Result<(), AllocError>
    ensures { OnOk result (string_bytes text.new ≡ string_bytes text.old ++ (rows_line counts.now ++ 10 ∷ [])) }
{
    let (ran, all) = (rows_run(counts), counts.len());
    writeln!(text, "rows that ran: {ran} of {all}")
}

/// How many of some counts are not 0.
fn rows_run(counts: &[u64]) -> usize
    ensures { result ≡ count_by has_run counts.now }
{
    counts.iter().filter(|cycles| **cycles != 0).count()
}

/// Appends the lines of the rows that ran most often to a text.
fn push_busiest(text: &mut String, rows: &[RowCount], cycles: u64) -> Result<(), AllocError>
    ensures { OnOk result (string_bytes text.new ≡ string_bytes text.old ++ lines_text (map (row_line cycles) rows.now)) }
{
    for row in rows {
        push_row(text, *row, cycles)?;
        text.push_str("\n")?;
    }
    Ok(())
}

/// Appends how often a row ran to a text.
#[tactic(auto, unfolding(crate::specs::Summary::row_line))]
fn push_row(text: &mut String, row: RowCount, cycles: u64) -> Result<(), AllocError>
    ensures { OnOk result (string_bytes text.new ≡ string_bytes text.old ++ row_line cycles row) }
{
    let (number, times) = (row.number, row.cycles);
    write!(text, "row {number} ran: {times}")?;
    push_share(text, times, cycles)
}
