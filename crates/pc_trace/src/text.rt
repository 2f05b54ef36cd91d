//! The first cycles of a run, a line each.
ghost use Rattle.std.specs.Prelude.{◌≡◌, ◌++◌, ◌∷◌, [], false, IfOk, OnOk, string_bytes};
ghost use Rattle.std.specs.List.{flat_map};
ghost use Rattle.pc_machine.specs.MachineCode.{code_of};
ghost use Rattle.pc_vm.specs.Standing.{here_of};
ghost use Rattle.pc_trace.specs.Trace.{cycle_of};
ghost use Rattle.pc_trace.specs.TraceText.{cycle_words, deed_part, end_part, front_words, side_part, trace_text};

use crate::cycle::{TracedCycle, trace_cycle};
use crate::deed::Deed;
use pc_stat::push_end_words;
use pc_vm::Machine;
use pc_word::End;
use std::alloc::{AllocError, Global};

/// What the first cycles of a run did, a line each: at most so many cycles, and fewer where the run ends. A line has
/// the number of the cycle, from 1, and of its row; the sides that were taken at its tests; what was written to
/// registers, read, stored and printed; and how the run ended, if it did.
///
/// The text takes memory for each of these cycles. An error is want of memory; then the machine stands where one of them
/// begins or ends. Without one it stands after the last of them.
pub fn trace_text(alloc: Global, machine: &mut Machine, cycles: u64) -> Result<Vec<u8>, AllocError>
    requires { machine.old.over ≡ false }
    ensures text { IfOk result (λ text. text.items ≡ trace_text (code_of machine.old.code) cycles (here_of machine.old)) }
    ensures code { machine.new.code ≡ machine.old.code }
{
    let mut text = String::new(alloc);
    for number in 0..cycles {
        let cycle = trace_cycle(alloc, machine)?;
        push_cycle(&mut text, number + 1, &cycle)?;
        if cycle.end.is_some() {
            return Ok(text.into_bytes());
        }
    }
    Ok(text.into_bytes())
}

/// Appends the line of a cycle to a text.
fn push_cycle(text: &mut String, number: u64, cycle: &TracedCycle) -> Result<(), AllocError>
    ensures { OnOk result (string_bytes text.new ≡ string_bytes text.old ++ (cycle_words number (cycle_of cycle.now) ++ 10 ∷ [])) }
{
    push_front(text, number, cycle.row)?;
    push_sides(text, cycle.sides.as_slice())?;
    push_deeds(text, cycle.deeds.as_slice())?;
    push_end(text, cycle.end)?;
    text.push_str("\n")
}

/// Appends the numbers of a cycle and of its row to a text.
#[tactic(auto, unfolding(crate::specs::TraceText::front_words))]
fn push_front(text: &mut String, number: u64, row: usize) -> Result<(), AllocError>
    ensures { OnOk result (string_bytes text.new ≡ string_bytes text.old ++ front_words number row) }
{
    write!(text, "cycle {number}: row {row}")
}

/// Appends the sides that were taken to a text.
fn push_sides(text: &mut String, sides: &[bool]) -> Result<(), AllocError>
    ensures { OnOk result (string_bytes text.new ≡ string_bytes text.old ++ flat_map side_part sides.now) }
{
    for side in sides {
        text.push_str(side_part(*side))?;
    }
    Ok(())
}

/// A side that was taken.
fn side_part(yes: bool) -> &'static str
    ensures { result.now ≡ side_part yes }
{
    if yes { "; yes" } else { "; no" }
}

/// Appends what was done to a text.
fn push_deeds(text: &mut String, deeds: &[Deed]) -> Result<(), AllocError>
    ensures { OnOk result (string_bytes text.new ≡ string_bytes text.old ++ flat_map deed_part deeds.now) }
{
    for deed in deeds {
        write!(text, "; {deed}")?;
    }
    Ok(())
}

/// Appends how the run ended to a text, if it did.
fn push_end(text: &mut String, end: Option<End>) -> Result<(), AllocError>
    ensures { OnOk result (string_bytes text.new ≡ string_bytes text.old ++ end_part end) }
{
    match end {
        Some(end) => {
            text.push_str("; ")?;
            push_end_words(text, end)
        }
        None => Ok(()),
    }
}
