//! Facts on the parameters of a window, by their numbers.
use crate::registers::RegisterSet;
use pc_cert::{Fact, Source, WindowOperand};
use pc_matching::Fact as HeldFact;
use pc_word::Operand;
use std::alloc::{AllocError, Global};

/// The number of each parameter, by its name.
fn numbers_of(
    alloc: Global,
    names: usize,
    parameters: &[u32],
) -> Result<Vec<Option<u16>>, AllocError> {
    let mut numbers = vec![in alloc; None; names]?;
    for at in 0..parameters.len() {
        if at <= u16::MAX as usize {
            if let Some(number) = numbers.get_mut(parameters[at] as usize) {
                *number = Some(at as u16);
            }
        }
    }
    Ok(numbers)
}

/// A source, if it is a literal or one of these registers.
fn source_of(source: Operand, live: &RegisterSet) -> Option<Source> {
    match source {
        Operand::Lit(value) => Some(Source::Literal(value)),
        Operand::Name(register) => {
            if register < 256 && live.has(register) {
                return Some(Source::Register(register as u8));
            }
            None
        }
    }
}

/// An operand, if it is a literal or one of the parameters.
fn operand_of(operand: Operand, numbers: &[Option<u16>]) -> Option<WindowOperand> {
    match operand {
        Operand::Lit(value) => Some(WindowOperand::Literal(value)),
        Operand::Name(name) => match numbers.get(name as usize) {
            Some(Some(number)) => Some(WindowOperand::Parameter(*number)),
            _ => None,
        },
    }
}

/// A fact by numbers, if it speaks of these registers, and of parameters.
fn fact_of(fact: &HeldFact, live: &RegisterSet, numbers: &[Option<u16>]) -> Option<Fact> {
    let source = source_of(fact.source, live)?;
    let operand = operand_of(fact.operand, numbers)?;
    match (source, operand) {
        (Source::Literal(_), WindowOperand::Literal(_)) => None,
        _ => Some(Fact { source, operand }),
    }
}

/// Whether a fact is among others.
pub(crate) fn is_among(facts: &[Fact], fact: &Fact) -> bool {
    for it in facts {
        if *it == *fact {
            return true;
        }
    }
    false
}

/// The facts that speak of these registers, or of literals, and of parameters, by their numbers, each once.
pub(crate) fn on_parameters(
    alloc: Global,
    held: &[HeldFact],
    names: usize,
    parameters: &[u32],
    live: &RegisterSet,
) -> Result<Vec<Fact>, AllocError> {
    let numbers = numbers_of(alloc, names, parameters)?;
    let mut facts = Vec::new(alloc);
    for fact in held {
        if let Some(fact) = fact_of(fact, live, numbers.as_slice()) {
            if !is_among(facts.as_slice(), &fact) {
                facts.push(fact)?;
            }
        }
    }
    Ok(facts)
}

/// The facts that are among others.
pub(crate) fn common(
    alloc: Global,
    facts: &[Fact],
    others: &[Fact],
) -> Result<Vec<Fact>, AllocError> {
    let mut kept = Vec::new(alloc);
    for fact in facts {
        if is_among(others, fact) {
            kept.push(*fact)?;
        }
    }
    Ok(kept)
}
