//! The compiler with passes over the flow graph.
ghost use Rattle.std.specs.Prelude.{◌≡◌, codes};

use crate::bench::{NONE_FAILS, SILENCE, Wanted, answers, answers_with, shelf_with};
use pc_flow::Flow;
use pc_forward::Forward;
use pc_outside::MemoryShelf;
use pc_pass::{Pass, PassMemory};
use pc_ranges::Ranges;
use pc_scalar::{Copies, Dead, Fold, Values};
use pc_tool::Who;
use std::alloc::Global;
use std::test::Fail;

/// A sum of literals that is held twice.
const FIVE: &[u8] = b"int main(void){int x=2+3;int y=x;print(y);}";

/// Leaves each graph as it is, and counts how often it was applied.
#[derive(Drop)]
struct Counting {
    applied: u64,
}

impl Pass for Counting {
    ghost label = { λ it. codes "counting" };

    ghost changed = { λ it. it.applied };

    ghost runs = { λ it. it.applied };

    ghost does = { λ it old new before now. new ≡ old };

    fn name(&self) -> &str {
        "counting"
    }

    fn changes(&self) -> u64 {
        self.applied
    }

    fn apply(&mut self, _flow: &mut Flow) -> Result<(), PassMemory> {
        self.applied = self.applied.saturating_add(1);
        Ok(())
    }
}

/// Whether the compiler with these passes reports this, and the object then prints 5.
fn reports(alloc: Global, passes: &mut Vec<Box<dyn Pass>>, report: &[u8]) -> Result<bool, Fail> {
    let mut shelf = shelf_with(alloc, "a.c", FIVE, 0)?;
    reports_there(alloc, passes, report, &mut shelf)
}

/// The same over a shelf.
fn reports_there(
    alloc: Global,
    passes: &mut Vec<Box<dyn Pass>>,
    report: &[u8],
    shelf: &mut MemoryShelf,
) -> Result<bool, Fail> {
    let line = "a.c -o b.tv --report";
    let reported = Wanted {
        out: report,
        ..SILENCE
    };
    let printed = Wanted {
        out: b"5\n",
        ..SILENCE
    };
    Ok(
        answers_with(
            alloc,
            Who::Pcc,
            line,
            passes,
            shelf,
            b"",
            NONE_FAILS,
            reported,
        )? && answers(alloc, Who::Pvm, "b.tv", shelf, b"", NONE_FAILS, printed)?,
    )
}

#[test]
fn each_pass_is_applied_once(rt: HostRuntime) -> Result<(), Fail> {
    let alloc = rt.alloc();
    let mut passes: Vec<Box<dyn Pass>> = Vec::new(alloc);
    passes.push(Box::new(alloc, Counting { applied: 0 })?)?;
    passes.push(Box::new(alloc, Counting { applied: 7 })?)?;
    let report = b"nodes 5\nrows 2\npass counting 1\npass counting 8\n";
    assert!(rt; reports(alloc, &mut passes, report)?);
    Ok(())
}

#[test]
fn passes_fold_copy_and_clear(rt: HostRuntime) -> Result<(), Fail> {
    let alloc = rt.alloc();
    let mut passes: Vec<Box<dyn Pass>> = Vec::new(alloc);
    passes.push(Box::new(alloc, Fold::new(alloc))?)?;
    passes.push(Box::new(alloc, Ranges::new(alloc))?)?;
    passes.push(Box::new(alloc, Copies::new(alloc))?)?;
    passes.push(Box::new(alloc, Values::new(alloc))?)?;
    passes.push(Box::new(alloc, Forward::new(alloc))?)?;
    passes.push(Box::new(alloc, Dead::new(alloc))?)?;
    let report =
        b"nodes 5\nrows 1\npass fold 1\npass ranges 3\npass copies 0\npass values 0\npass forward 0\npass dead 3\n";
    assert!(rt; reports(alloc, &mut passes, report)?);
    Ok(())
}

/// Whether the compiler with all passes reports this of a source, and its object then leaves this on an input.
fn forwards(
    alloc: Global,
    text: &[u8],
    report: &[u8],
    input: &[u8],
    wanted: Wanted,
) -> Result<bool, Fail> {
    let mut passes: Vec<Box<dyn Pass>> = Vec::new(alloc);
    passes.push(Box::new(alloc, Fold::new(alloc))?)?;
    passes.push(Box::new(alloc, Ranges::new(alloc))?)?;
    passes.push(Box::new(alloc, Copies::new(alloc))?)?;
    passes.push(Box::new(alloc, Values::new(alloc))?)?;
    passes.push(Box::new(alloc, Forward::new(alloc))?)?;
    passes.push(Box::new(alloc, Dead::new(alloc))?)?;
    let mut shelf = shelf_with(alloc, "a.c", text, 0)?;
    let reported = Wanted {
        out: report,
        ..SILENCE
    };
    forwards_there(alloc, &mut passes, &mut shelf, reported, input, wanted)
}

/// The same over a shelf.
fn forwards_there(
    alloc: Global,
    passes: &mut Vec<Box<dyn Pass>>,
    shelf: &mut MemoryShelf,
    reported: Wanted,
    input: &[u8],
    wanted: Wanted,
) -> Result<bool, Fail> {
    let line = "a.c -o b.tv --report";
    Ok(
        answers_with(
            alloc,
            Who::Pcc,
            line,
            passes,
            shelf,
            b"",
            NONE_FAILS,
            reported,
        )? && answers(alloc, Who::Pvm, "b.tv", shelf, input, NONE_FAILS, wanted)?,
    )
}

/// An element that was stored is not loaded again.
const STORED: &[u8] = b"int main(void){int a[4];int x=read();a[1]=x;print(a[1]);}";

/// Nor one that was loaded.
const LOADED: &[u8] = b"int main(void){int a[4];int i=read();int x=a[i];int y=a[i];print(x+y);}";

/// A store that may be to the same element.
const MAY_MEET: &[u8] =
    b"int main(void){int a[4];int i=read();int j=read();a[i]=1;a[j]=2;print(a[i]);}";

const STORED_REPORT: &[u8] =
    b"nodes 15\nrows 3\npass fold 2\npass ranges 2\npass copies 0\npass values 0\npass forward 1\npass dead 2\n";

const LOADED_REPORT: &[u8] =
    b"nodes 18\nrows 5\npass fold 0\npass ranges 2\npass copies 2\npass values 0\npass forward 1\npass dead 2\n";

const MAY_MEET_REPORT: &[u8] =
    b"nodes 24\nrows 8\npass fold 0\npass ranges 2\npass copies 0\npass values 0\npass forward 0\npass dead 1\n";

#[test]
fn loads_are_forwarded(rt: HostRuntime) -> Result<(), Fail> {
    let alloc = rt.alloc();
    let trapped = Wanted {
        code: 11,
        err: "pvm: trap: out of bounds at line 1\n",
        ..SILENCE
    };
    let six = Wanted {
        out: b"6\n",
        ..SILENCE
    };
    let none = Wanted {
        out: b"0\n",
        ..SILENCE
    };
    let two = Wanted {
        out: b"2\n",
        ..SILENCE
    };
    assert!(rt; forwards(alloc, STORED, STORED_REPORT, b"6", six)?);
    assert!(rt; forwards(alloc, LOADED, LOADED_REPORT, b"1", none)?);
    assert!(rt; forwards(alloc, LOADED, LOADED_REPORT, b"4", trapped)?);
    assert!(rt; forwards(alloc, MAY_MEET, MAY_MEET_REPORT, b"3 3", two)?);
    Ok(())
}
