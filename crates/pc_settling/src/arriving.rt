//! Whether what an entry begins with arrives at a claim.
ghost use Rattle.std.specs.Prelude.{◌≡◌, ◌↔◌, true, IfOk};
ghost use Rattle.std.specs.List.{list_all};
ghost use Rattle.pc_window.specs.StoredWindow.{window_in};
ghost use Rattle.pc_canon.specs.Canonical.{side_by_side};
ghost use Rattle.pc_canon.specs.Keyed.{HasKey};
ghost use Rattle.pc_matching.specs.Facts.{fact_of, facts_of};
ghost use Rattle.pc_settling.specs.Arrives.{paired_name, paired, has_value, holds_here, Arrives};

use pc_canon::key;
use pc_matching::{Fact, operands_match};
use pc_window::{Window, WindowError};
use pc_word::Operand;
use std::alloc::Global;

/// The name that corresponds to one of the other side.
#[tactic(auto, using(crate::proofs::FoundArrivals::pairs))]
fn paired_name(ones: &[u32], others: &[u32], other: u32) -> Option<u32>
    ensures { result ≡ paired_name (side_by_side ones.now others.now) other }
{
    let count = ones.len().min(others.len());
    for at in 0..count {
        if others[at] == other {
            return Some(ones[at]);
        }
    }
    None
}

/// The operand that corresponds to one of the other side.
fn paired(ones: &[u32], others: &[u32], operand: Operand) -> Option<Operand>
    ensures { result ≡ paired (side_by_side ones.now others.now) operand }
{
    match operand {
        Operand::Name(other) => match paired_name(ones, others, other) {
            None => None,
            Some(name) => Some(Operand::Name(name)),
        },
        Operand::Lit(value) => Some(Operand::Lit(value)),
    }
}

/// Whether a claim's fact holds here, where these names correspond to those of the claim.
fn holds_here(ones: &[u32], others: &[u32], held: &[Fact], fact: &Fact) -> bool
    ensures { result ≡ holds_here (side_by_side ones.now others.now) (facts_of held.now) (fact_of fact.now) }
{
    match paired(ones, others, fact.operand) {
        None => false,
        Some(operand) => operands_match(held, fact.source, operand),
    }
}

/// Whether each of a claim's facts holds here.
fn all_hold_here(ones: &[u32], others: &[u32], held: &[Fact], facts: &[Fact]) -> bool
    ensures { result ≡ list_all (holds_here (side_by_side ones.now others.now) (facts_of held.now)) (facts_of facts.now) }
{
    for fact in facts {
        if !holds_here(ones, others, held, fact) {
            return false;
        }
    }
    true
}

/// Whether a window, where these facts hold, arrives at a claim's window with the claim's facts: both have
/// one key, so that their parameters correspond in the order of first use, and each of the claim's facts
/// holds for what corresponds. It takes time in proportion to the windows, and to the claim's facts times
/// those that hold and the parameters.
#[tactic(auto, using(crate::proofs::FoundArrivals::arrivals))]
pub fn arrives(
    alloc: Global,
    window: &Window,
    held: &[Fact],
    claimed: &Window,
    facts: &[Fact],
) -> Result<bool, WindowError>
    requires here { HasKey window.now }
    requires there { HasKey claimed.now }
    ensures { IfOk result (λ found. (found ≡ true) ↔ Arrives (window_in window.now) (facts_of held.now) (window_in claimed.now) (facts_of facts.now)) }
{
    let here = key(alloc, window)?;
    let there = key(alloc, claimed)?;
    if here.bytes.as_slice() != there.bytes.as_slice() {
        return Ok(false);
    }
    let holds = all_hold_here(here.names.as_slice(), there.names.as_slice(), held, facts);
    Ok(holds)
}
