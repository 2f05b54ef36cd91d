//! Passes that are applied one after another.
ghost use Rattle.std.specs.Prelude.{◌≡◌, codes};

use crate::graphs::stop;
use pc_flow::{Flow, FlowNode};
use pc_pass::{Pass, PassMemory, run_list, run_passes};
use std::alloc::Global;
use std::test::Fail;

/// Leaves each graph as it is, and counts how often it was applied.
#[derive(Drop)]
struct Idle {
    applied: u64,
}

impl Pass for Idle {
    ghost label = { λ it. codes "idle" };

    ghost changed = { λ it. it.applied };

    ghost runs = { λ it. it.applied };

    ghost does = { λ it old new before now. new ≡ old };

    fn name(&self) -> &str {
        "idle"
    }

    fn changes(&self) -> u64 {
        self.applied
    }

    fn apply(&mut self, _flow: &mut Flow) -> Result<(), PassMemory> {
        self.applied = self.applied.saturating_add(1);
        Ok(())
    }
}

/// Never gets the memory that it needs.
#[derive(Drop)]
struct Starved;

impl Pass for Starved {
    ghost label = { λ it. codes "starved" };

    ghost changed = { λ it. 0 };

    ghost runs = { λ it. 0 };

    ghost does = { λ it old new before now. new ≡ old };

    fn name(&self) -> &str {
        "starved"
    }

    fn changes(&self) -> u64 {
        0
    }

    fn apply(&mut self, _flow: &mut Flow) -> Result<(), PassMemory> {
        Err(PassMemory)
    }
}

/// Whether each pass has made so many changes.
fn made_changes<P: Pass>(passes: &[P], wanted: &[u64]) -> bool {
    if passes.len() != wanted.len() {
        return false;
    }
    for at in 0..passes.len() {
        if passes[at].changes() != wanted[at] {
            return false;
        }
    }
    true
}

/// Whether the second pass has this name.
fn is_second_named<P: Pass>(passes: &[P], wanted: &str) -> bool {
    match passes.get(1) {
        None => false,
        Some(pass) => pass.name() == wanted,
    }
}

/// Idle passes that were applied so often.
fn idle_passes(alloc: Global, applied: &[u64]) -> Result<Vec<Idle>, Fail> {
    let mut passes = Vec::new(alloc);
    for applied in applied {
        passes.push(Idle { applied: *applied })?;
    }
    Ok(passes)
}

/// A boxed pass that leaves graphs as they are.
fn boxed_idle(alloc: Global) -> Result<Box<dyn Pass>, Fail> {
    Ok(Box::new(alloc, Idle { applied: 0 })?)
}

/// A boxed pass that fails.
fn boxed_starved(alloc: Global) -> Result<Box<dyn Pass>, Fail> {
    Ok(Box::new(alloc, Starved)?)
}

/// A pass that fails between two others.
fn failing_between(alloc: Global) -> Result<Vec<Box<dyn Pass>>, Fail> {
    let mut passes = Vec::new(alloc);
    passes.push(boxed_idle(alloc)?)?;
    passes.push(boxed_starved(alloc)?)?;
    passes.push(boxed_idle(alloc)?)?;
    Ok(passes)
}

#[test]
fn each_pass_is_applied_once(rt: HostRuntime) -> Result<(), Fail> {
    let mut flow = stop(rt.alloc())?;
    let mut passes = idle_passes(rt.alloc(), &[0, 7])?;
    run_list(&mut passes, &mut flow)?;
    assert!(rt; made_changes(&passes, &[1, 8]));
    assert_eq!(rt; flow.node(0), FlowNode::Stop);
    Ok(())
}

#[test]
fn boxed_passes_run_up_to_the_first_that_fails(rt: HostRuntime) -> Result<(), Fail> {
    let mut flow = stop(rt.alloc())?;
    let mut passes = failing_between(rt.alloc())?;
    let ran = run_passes(&mut passes, &mut flow);
    assert_eq!(rt; ran, Err(PassMemory));
    assert!(rt; made_changes(&passes, &[1, 0, 0]));
    assert!(rt; is_second_named(&passes, "starved"));
    Ok(())
}
