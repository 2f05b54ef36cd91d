//! Lists of passes.
ghost use Rattle.std.specs.Prelude.{◌≡◌, map, OnOk, OnErr};
ghost use Rattle.pc_pass.specs.Pass.{Keeps, Chain, BrokenChain, EachRose, NoneFell};

use crate::{Pass, PassMemory};
use pc_flow::Flow;

/// Applies each pass once, in order. Where memory runs out in one, those after it are not applied,
/// and the graph is as the one before it left it.
pub fn run_list<P: Pass>(passes: &mut Vec<P>, flow: &mut Flow) -> Result<(), PassMemory>
    ensures keeps { Keeps flow.old flow.new }
    ensures chain { OnOk result (Chain P.does P.changed passes.old.items passes.new.items flow.old flow.new) }
    ensures broken { OnErr result (BrokenChain P.does P.changed passes.old.items passes.new.items flow.old flow.new) }
    ensures named { map P.label passes.new.items ≡ map P.label passes.old.items }
    ensures counted { NoneFell (map P.changed passes.old.items) (map P.changed passes.new.items) }
    ensures ran { OnOk result (EachRose (map P.runs passes.old.items) (map P.runs passes.new.items)) }
    ensures no_fall { NoneFell (map P.runs passes.old.items) (map P.runs passes.new.items) }
{
    run_each(passes.as_mut_slice(), flow)
}

/// Applies each pass once, in order.
fn run_each<P: Pass>(passes: &mut [P], flow: &mut Flow) -> Result<(), PassMemory>
    ensures keeps { Keeps flow.old flow.new }
    ensures chain { OnOk result (Chain P.does P.changed passes.old passes.new flow.old flow.new) }
    ensures broken { OnErr result (BrokenChain P.does P.changed passes.old passes.new flow.old flow.new) }
    ensures named { map P.label passes.new ≡ map P.label passes.old }
    ensures counted { NoneFell (map P.changed passes.old) (map P.changed passes.new) }
    ensures ran { OnOk result (EachRose (map P.runs passes.old) (map P.runs passes.new)) }
    ensures no_fall { NoneFell (map P.runs passes.old) (map P.runs passes.new) }
{
    for pass in passes.iter_mut() {
        pass.apply(flow)?;
    }
    Ok(())
}

/// Applies each boxed pass once, in order, as `run_list` does.
pub fn run_passes(passes: &mut Vec<Box<dyn Pass>>, flow: &mut Flow) -> Result<(), PassMemory>
    ensures keeps { Keeps flow.old flow.new }
    ensures chain { OnOk result (Chain (λ b. does b) (λ b. changed b) passes.old.items passes.new.items flow.old flow.new) }
    ensures broken { OnErr result (BrokenChain (λ b. does b) (λ b. changed b) passes.old.items passes.new.items flow.old flow.new) }
    ensures named { map (λ b. label b) passes.new.items ≡ map (λ b. label b) passes.old.items }
    ensures counted { NoneFell (map (λ b. changed b) passes.old.items) (map (λ b. changed b) passes.new.items) }
    ensures ran { OnOk result (EachRose (map (λ b. runs b) passes.old.items) (map (λ b. runs b) passes.new.items)) }
    ensures no_fall { NoneFell (map (λ b. runs b) passes.old.items) (map (λ b. runs b) passes.new.items) }
{
    run_list(passes, flow)
}
