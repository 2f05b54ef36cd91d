//! Values under numbers.

use pc_arena::{Arena, NodeId};
use pc_word::OutOfMemory;
use std::alloc::Global;
use std::test::Fail;

/// The value under a number, taken out, or 0 where there is none.
fn taken(arena: &mut Arena<usize>, id: NodeId) -> usize {
    if arena.holds(id) { arena.take(id) } else { 0 }
}

/// What was under a number, which has another value then, or 0 where there is none.
fn replaced(arena: &mut Arena<usize>, id: NodeId, value: usize) -> usize {
    if arena.holds(id) {
        arena.replace(id, value)
    } else {
        0
    }
}

/// What an arena answers after each call.
fn answers(alloc: Global) -> Result<[usize; 6], OutOfMemory> {
    let mut arena = Arena::new(alloc);
    arena.reserve(1)?;
    let first = arena.put(10);
    arena.reserve(1)?;
    let second = arena.put(20);
    let before = replaced(&mut arena, first, 11);
    let two = arena.count();
    let last = taken(&mut arena, second);
    let none = taken(&mut arena, second);
    let now = taken(&mut arena, first);
    let empty = arena.count();
    Ok([before, two, last, none, now, empty])
}

/// Values are kept, replaced and taken.
#[test]
fn values_are_kept(rt: HostRuntime) -> Result<(), Fail> {
    assert!(&rt; answers(rt.alloc()) == Ok([10, 2, 20, 0, 11, 0]));
    Ok(())
}
