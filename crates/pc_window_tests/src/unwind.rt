//! Windows that are unwound.
ghost use Rattle.pc_table.specs.StoredTable.{table_of};
ghost use Rattle.pc_window.specs.StoredWindow.{window_in};
ghost use Rattle.pc_unwind.specs.Unwindable.{CanUnwind};

use crate::tables::{LIMITS, LOOPING};
use pc_table::RegionTable;
use pc_unwind::{laws_of_unwinding, unwind};
use pc_window::{HomeList, Window, WindowTree};
use pc_window_specimen::{Untold, bare, may_be_unwound, opened, table};
use std::alloc::Global;
use std::test::Fail;

/// The size of a window, unwound with a window number.
fn unwound_size(
    alloc: Global,
    table: &RegionTable,
    window: Window,
    number: u8,
) -> Result<u32, Untold>
    requires { CanUnwind (table_of table.now) (window_in window) }
{
    let unwound = unwind(alloc, window, table, number)?;
    Ok(unwound.size())
}

/// The size of a region's window, unwound.
fn region_size(alloc: Global, table: &RegionTable, region: u32, number: u8) -> Result<u32, Untold> {
    let window = opened(alloc, table, region, LIMITS)?;
    unwound_size(alloc, table, window, number)
}

/// The size of a window that is a stub inside the loop, which leads to the copy, unwound.
fn stub_size(alloc: Global, table: &RegionTable, number: u8) -> Result<u32, Untold> {
    let tree = WindowTree::Exit {
        region: 1,
        tag: 0,
        homes: HomeList::new(alloc),
    };
    let mut window = bare(alloc, tree, LIMITS);
    window.inside = Some(0);
    if !may_be_unwound(alloc, table, &window)? {
        return Err(Untold::NoTable);
    }
    unwound_size(alloc, table, window, number)
}

/// Each turn has three items and tests and two ways on, so `number` turns have 3 * (2^number - 1),
/// as long as there is room: 1,533 in nine turns and 171 more. The windows of the other two regions
/// have no loop, and stay as they are.
#[test]
fn a_loop_is_unwound(rt: HostRuntime) -> Result<(), Fail> {
    let table = table(rt.alloc(), &LOOPING)?;
    for (number, size) in [
        (0, 3),
        (1, 3),
        (2, 9),
        (3, 21),
        (9, 1533),
        (10, 2046),
        (255, 2046),
    ] {
        let unwound = region_size(rt.alloc(), &table, 0, number);
        assert!(&rt; unwound == Ok(size));
    }
    let copied = region_size(rt.alloc(), &table, 1, 8);
    assert!(&rt; copied == Ok(0));
    let left = region_size(rt.alloc(), &table, 2, 8);
    assert!(&rt; left == Ok(1));
    laws_of_unwinding();
    Ok(())
}

/// A stub alone becomes the stub of the next turn, at the next tag, and this the turn: the least tag
/// is then 1, and two turns are unwound again.
#[test]
fn a_stub_alone_is_unwound(rt: HostRuntime) -> Result<(), Fail> {
    let table = table(rt.alloc(), &LOOPING)?;
    for (number, size) in [(1, 0), (2, 9), (3, 21)] {
        let unwound = stub_size(rt.alloc(), &table, number);
        assert!(&rt; unwound == Ok(size));
    }
    Ok(())
}
