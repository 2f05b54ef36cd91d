//! Settling: what is used nowhere below goes, then the Copies at the root, and the forms are written anew.
ghost use Rattle.std.specs.Prelude.{◌≡◌, ◌≤◌, ◌++◌, true, false, filter, OnOk, IfOk};
ghost use Rattle.pc_window.specs.Tree.{tree_size};
ghost use Rattle.pc_window.specs.Steps.{IsProper};
ghost use Rattle.pc_window.specs.StoredWindow.{tree_in, window_in, InNodes};
ghost use Rattle.pc_matching.specs.Facts.{fact_of, facts_of};
ghost use Rattle.pc_settling.specs.Settled.{is_of_another, facts_after_copy, below_copies, facts_after_copies, settled};
ghost use Rattle.pc_settling.specs.Stored.{remaining_in, IsLeft};

use crate::remaining::Remaining;
use crate::sources::{is_of_name, push_sources};
use pc_matching::{Fact, FactList, same_operand};
use pc_rebase::rebase;
use pc_unify::tidy;
use pc_window::{Window, WindowError, WindowTree};
use pc_word::{Item, Operand};
use std::alloc::{AllocError, Global};

/// Whether a fact says something of a name, and of the value of another operand than this.
fn is_of_another(operand: Operand, fact: &Fact) -> bool
    ensures { result ≡ is_of_another operand (fact_of fact.now) }
{
    is_of_name(fact) && !same_operand(fact.operand, operand)
}

/// Appends the facts of other operands.
fn push_others(after: &mut FactList, operand: Operand, facts: &[Fact]) -> Result<(), AllocError>
    ensures { OnOk result (facts_of after.new ≡ facts_of after.old ++ filter (is_of_another operand) (facts_of facts.now)) }
{
    for fact in facts {
        if is_of_another(operand, fact) {
            after.push(*fact)?;
        }
    }
    Ok(())
}

/// The facts after a Copy that the window does and the row does not.
fn facts_after_copy(
    alloc: Global,
    facts: &[Fact],
    name: u32,
    from: Operand,
) -> Result<FactList, AllocError>
    ensures { IfOk result (λ after. facts_of after ≡ facts_after_copy (facts_of facts.now) name from) }
{
    let mut after = FactList::new(alloc);
    push_others(&mut after, Operand::Name(name), facts)?;
    push_sources(&mut after, name, from, facts)?;
    Ok(after)
}

/// A tree below the Copies at its root, and the facts that hold there.
struct BelowCopies {
    tree: WindowTree,
    facts: FactList,
}

/// What stands below the Copies at the root of a tree.
fn below_copies(alloc: Global, tree: WindowTree, facts: FactList) -> Result<BelowCopies, AllocError>
    requires { InNodes true tree }
    ensures tree { IfOk result (λ below. tree_in below.tree ≡ below_copies (tree_in tree)) }
    ensures facts { IfOk result (λ below. facts_of below.facts ≡ facts_after_copies (tree_in tree) (facts_of facts)) }
    ensures nodes { IfOk result (λ below. InNodes true below.tree) }
{
    match tree {
        WindowTree::Step {
            tag,
            origin,
            item,
            rest,
        } => match item {
            Item::Copy { dest, from } => {
                let after = facts_after_copy(alloc, facts.as_slice(), dest, from)?;
                match Box::into_inner(rest) {
                    WindowTree::Node { below } => {
                        below_copies(alloc, Box::into_inner(below), after)
                    }
                    leaf => Ok(BelowCopies {
                        tree: leaf,
                        facts: after,
                    }),
                }
            }
            _ => Ok(BelowCopies {
                tree: WindowTree::Step {
                    tag,
                    origin,
                    item,
                    rest,
                },
                facts,
            }),
        },
        other => Ok(BelowCopies { tree: other, facts }),
    }
}

/// A window without the Copies at its root.
#[tactic(auto, using(crate::proofs::SettledWindows::windows))]
fn without_copies(alloc: Global, window: Window, facts: FactList) -> Result<Remaining, WindowError>
    requires proper { IsProper (window_in window) }
    requires nodes { InNodes true window.tree }
    ensures tree { IfOk result (λ left. tree_in left.window.tree ≡ below_copies (tree_in window.tree)) }
    ensures facts { IfOk result (λ left. facts_of left.facts ≡ facts_after_copies (tree_in window.tree) (facts_of facts)) }
    ensures names { IfOk result (λ left. left.window.names ≡ window.names) }
    ensures limits { IfOk result (λ left. left.window.limits ≡ window.limits) }
    ensures inside { IfOk result (λ left. left.window.inside ≡ window.inside) }
    ensures nodes { IfOk result (λ left. InNodes true left.window.tree) }
    ensures proper { IfOk result (λ left. IsProper (window_in left.window)) }
{
    let Window {
        tree,
        names,
        limits,
        inside,
    } = window;
    let BelowCopies { tree, facts } = below_copies(alloc, tree, facts)?;
    let window = Window {
        tree,
        names,
        limits,
        inside,
    };
    Ok(Remaining { window, facts })
}

/// What is left at a leaf, settled.
///
/// Items that only compute, and whose names are used nowhere below, go. Then the Copies at the root go,
/// one by one: what had the value of what is copied has the name's from then on. At last the forms are
/// written in the variables of the parameters that are left. It takes time in proportion to the window,
/// and for each Copy to the facts.
#[tactic(auto, using(crate::proofs::SettledWindows::windows))]
pub fn settle(alloc: Global, window: Window, facts: FactList) -> Result<Remaining, WindowError>
    requires { IsLeft window }
    ensures settled { IfOk result (λ left. remaining_in left ≡ settled (window_in window) (facts_of facts)) }
    ensures left { IfOk result (λ left. IsLeft left.window) }
{
    let window = tidy(alloc, window)?;
    let Remaining { window, facts } = without_copies(alloc, window, facts)?;
    let window = rebase(alloc, window)?;
    Ok(Remaining { window, facts })
}
