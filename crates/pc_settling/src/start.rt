//! The facts that hold before anything is done.
ghost use Rattle.std.specs.Prelude.{◌≡◌, ◌∷◌, ◌++◌, map, pos, IfOk, OnOk};
ghost use Rattle.pc_word.specs.declared.item.Operand.TheVariants.{Lit};
ghost use Rattle.pc_matching.specs.Facts.{facts_of};
ghost use Rattle.pc_matching.specs.FactsAfter.{that};
ghost use Rattle.pc_settling.specs.Remaining.{have_value_of};
ghost use Rattle.pc_settling.specs.Start.{registers_below, facts_at_start};

use pc_matching::{Fact, FactList};
use pc_window::VARIABLES;
use pc_word::Operand;
use std::alloc::{AllocError, Global};

/// Appends that each of so many registers has an operand's value.
#[tactic(auto, using(crate::proofs::StartFacts::start))]
fn push_registers(start: &mut FactList, registers: u32, operand: Operand) -> Result<(), AllocError>
    ensures { OnOk result (facts_of start.new ≡ facts_of start.old ++ map (λ source. that source operand) (registers_below registers)) }
{
    for register in 0..registers {
        start.push(Fact {
            source: Operand::Name(register),
            operand,
        })?;
    }
    Ok(())
}

/// Appends that 0 and each of so many registers have a variable's value.
fn push_variable(start: &mut FactList, registers: u32, variable: u32) -> Result<(), AllocError>
    ensures { OnOk result (facts_of start.new ≡ facts_of start.old ++ have_value_of variable (Lit (pos 0) ∷ registers_below registers)) }
{
    start.push(Fact {
        source: Operand::Lit(0),
        operand: Operand::Name(variable),
    })?;
    push_registers(start, registers, Operand::Name(variable))
}

/// The facts that hold where all of so many registers, and all variables, are 0: each variable has the
/// value of 0 and of each register, and each register that of 0. These are 97 for each register, and 96
/// more.
#[tactic(auto, using(crate::proofs::StartFacts::start))]
pub fn facts_at_start(alloc: Global, registers: u32) -> Result<FactList, AllocError>
    ensures { IfOk result (λ start. facts_of start ≡ facts_at_start registers) }
{
    let mut start = FactList::new(alloc);
    for variable in 0..VARIABLES as u32 {
        push_variable(&mut start, registers, variable)?;
    }
    push_registers(&mut start, registers, Operand::Lit(0))?;
    Ok(start)
}
