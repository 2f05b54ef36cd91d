//! The facts of an entry, on the names of its window.
ghost use Rattle.std.specs.Prelude.{◌≡◌, length, Option, Some, None, IfOk};
ghost use Rattle.pc_window.specs.Tree.{whole};
ghost use Rattle.pc_window.specs.Opening.{TreeBelow};
ghost use Rattle.pc_window.specs.StoredWindow.{tree_in};
ghost use Rattle.pc_matching.specs.Facts.{facts_of};
ghost use Rattle.pc_settling.specs.Arrives.{source_of, operand_at, facts_at, facts_of_entry};
ghost use Rattle.pc_settling.specs.StoredFacts.{some_facts_of};

use pc_cert::{Source, WindowOperand};
use pc_matching::{Fact, FactList};
use pc_window::{Window, WindowError, parameters_of};
use pc_word::Operand;
use std::alloc::{AllocError, Global};

/// A register or literal as a row's operand.
fn source_of(source: Source) -> Operand
    ensures { result ≡ source_of source }
{
    match source {
        Source::Register(register) => Operand::Name(register as u32),
        Source::Literal(value) => Operand::Lit(value),
    }
}

/// A window's operand: a parameter by its number, if there is one, or a literal.
fn operand_at(parameters: &[u32], operand: WindowOperand) -> Option<Operand>
    ensures { result ≡ operand_at parameters.now operand }
{
    match operand {
        WindowOperand::Parameter(number) => match parameters.get(number as usize) {
            None => None,
            Some(name) => Some(Operand::Name(*name)),
        },
        WindowOperand::Literal(value) => Some(Operand::Lit(value)),
    }
}

/// The facts of an entry on the names of a window with these parameters, if there are so many.
#[tactic(auto, using(crate::proofs::EntryFacts::facts))]
fn facts_at(
    alloc: Global,
    parameters: &[u32],
    facts: &[pc_cert::Fact],
) -> Result<Option<FactList>, AllocError>
    ensures { IfOk result (λ found. some_facts_of found ≡ facts_at parameters.now facts.now) }
{
    let mut found = FactList::new(alloc);
    for fact in facts {
        match operand_at(parameters, fact.operand) {
            None => return Ok(None),
            Some(operand) => found.push(Fact {
                source: source_of(fact.source),
                operand,
            })?,
        }
    }
    Ok(Some(found))
}

/// The facts of an entry on the names of its window, whose parameters have numbers in the order of first
/// use; `None` where a number has no parameter. It takes time in proportion to the window and the facts.
pub fn facts_of_entry(
    alloc: Global,
    window: &Window,
    facts: &[pc_cert::Fact],
) -> Result<Option<FactList>, WindowError>
    requires { TreeBelow (length window.now.names.forms) (tree_in window.now.tree) }
    ensures { IfOk result (λ found. some_facts_of found ≡ facts_of_entry (tree_in window.now.tree) facts.now) }
{
    let count = window.names.forms.len();
    let parameters = parameters_of(alloc, &window.tree, count)?;
    Ok(facts_at(alloc, parameters.as_slice(), facts)?)
}
