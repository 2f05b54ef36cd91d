//! The registers and literals that have an operand's value.
ghost use Rattle.std.specs.Prelude.{◌≡◌, ◌∷◌, ◌++◌, [], map, filter, OnOk};
ghost use Rattle.pc_matching.specs.Facts.{fact_of, facts_of};
ghost use Rattle.pc_matching.specs.FactsAfter.{is_of_name};
ghost use Rattle.pc_settling.specs.Remaining.{own_source, is_of_operand, sources_of, have_value_of};

use pc_matching::{Fact, FactList, same_operand, some_name};
use pc_word::Operand;
use std::alloc::AllocError;

/// Whether a fact says something of a name.
pub(crate) fn is_of_name(fact: &Fact) -> bool
    ensures { result ≡ is_of_name (fact_of fact.now) }
{
    some_name(fact.source, fact.operand)
}

/// Whether a fact says something of a name, and of the value of this operand.
fn is_of_operand(operand: Operand, fact: &Fact) -> bool
    ensures { result ≡ is_of_operand operand (fact_of fact.now) }
{
    is_of_name(fact) && same_operand(fact.operand, operand)
}

/// Appends that a source has a name's value.
fn push_source(after: &mut FactList, name: u32, source: Operand) -> Result<(), AllocError>
    ensures { OnOk result (facts_of after.new ≡ facts_of after.old ++ have_value_of name (source ∷ [])) }
{
    after.push(Fact {
        source,
        operand: Operand::Name(name),
    })
}

/// Appends that an operand has a name's value, if it is a literal.
fn push_own(after: &mut FactList, name: u32, operand: Operand) -> Result<(), AllocError>
    ensures { OnOk result (facts_of after.new ≡ facts_of after.old ++ have_value_of name (own_source operand)) }
{
    match operand {
        Operand::Name(_) => Ok(()),
        Operand::Lit(_) => push_source(after, name, operand),
    }
}

/// Appends that the sources of an operand's value by facts have a name's value.
fn push_listed(
    after: &mut FactList,
    name: u32,
    operand: Operand,
    facts: &[Fact],
) -> Result<(), AllocError>
    ensures { OnOk result (facts_of after.new ≡ facts_of after.old ++ have_value_of name (map (λ fact. fact.source) (filter (is_of_operand operand) (facts_of facts.now)))) }
{
    for fact in facts {
        if is_of_operand(operand, fact) {
            push_source(after, name, fact.source)?;
        }
    }
    Ok(())
}

/// Appends that what has an operand's value has a name's value.
#[tactic(auto, using(crate::proofs::SourceLists::sources))]
pub(crate) fn push_sources(
    after: &mut FactList,
    name: u32,
    operand: Operand,
    facts: &[Fact],
) -> Result<(), AllocError>
    ensures { OnOk result (facts_of after.new ≡ facts_of after.old ++ have_value_of name (sources_of operand (facts_of facts.now))) }
{
    push_own(after, name, operand)?;
    push_listed(after, name, operand, facts)
}
