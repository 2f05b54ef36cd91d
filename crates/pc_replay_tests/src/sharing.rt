//! What is kept once of the window of a loop.
ghost use Rattle.std.specs.Prelude.{◌<◌, length, IfSome};
ghost use Rattle.pc_shared.specs.SharedWindows.{IsNode};

use crate::copying::copied;
use crate::following::unwound;
use crate::programs::{narrow, regions_of};
use pc_arena::NodeId;
use pc_shared::{SharedWindow, merged};
use pc_table::RegionTable;
use pc_window::{Window, WindowError};
use pc_window_specimen::size as size_of;
use std::alloc::Global;
use std::test::Fail;

/// Both sides of the test print, and then the same follows.
const PRINTING: &[u8] =
    b"int main(void){int c=read();int i;for(i=0;i<9;i++){if(c)print(1);else print(2);print(i);}}";

/// From the root past the loop's test, the source's test where it holds, and the test of the next iteration
/// where that holds: to the leaf there.
const PAST_YES: [bool; 15] = [true; 15];

/// The same where the source's test does not hold.
const PAST_NO: [bool; 15] = [
    true, true, true, true, false, true, true, true, true, true, true, true, true, true, true,
];

/// What is counted of the loop's window: places, nodes that are kept where names are not merged, where
/// they are, and once a leaf has a node of its own below it; whether both sides lead to that leaf; nodes that are
/// kept after one step more, which merges names again; and whether that window has the size of the plain one.
#[derive(Clone, Copy, PartialEq, Eq)]
struct Kept {
    places: u32,
    unmerged: usize,
    merged: usize,
    owned: usize,
    meets: bool,
    again: usize,
    sized: bool,
}

/// The first region that heads a loop.
fn header(table: &RegionTable) -> Option<u32>
    ensures { IfSome result (λ region. region < length table.now.regions) }
{
    for region in 0..table.regions.len() {
        if table.regions.as_slice()[region].heads.is_some() {
            return Some(region as u32);
        }
    }
    None
}

/// The node that some links lead to, from the root on.
fn follow(shared: &SharedWindow, sides: &[bool]) -> Option<NodeId>
    ensures { IfSome result (λ node. IsNode shared.now node) }
{
    let mut node = shared.root();
    for side in sides {
        node = shared.child(node, *side)?;
    }
    Some(node)
}

/// Whether both sides of the source's test lead to one leaf, which then has a node of its own below it.
fn own_below(shared: &mut SharedWindow) -> Result<bool, WindowError> {
    let Some(leaf) = follow(shared, &PAST_YES) else {
        return Ok(false);
    };
    if follow(shared, &PAST_NO) != Some(leaf) {
        return Ok(false);
    }
    if shared.child(leaf, true).is_none() {
        return Ok(false);
    }
    shared.own(leaf, true)?;
    Ok(true)
}

/// A shared window after a step that merges names again.
fn merged_again(alloc: Global, shared: &SharedWindow) -> Result<SharedWindow, WindowError> {
    let answer = shared.step(alloc, |window| merged(alloc, window))?;
    answer
}

/// Whether the plain window has so many items and tests.
fn has_size(alloc: Global, shared: SharedWindow, size: u32) -> Result<bool, WindowError> {
    let window = shared.into_window(alloc)?;
    Ok(size_of(&window.tree) == Some(size))
}

/// What is counted of such a window.
fn kept_of(alloc: Global, table: &RegionTable, region: u32) -> Result<Kept, WindowError>
    requires { region < length table.now.regions }
{
    let window = unwound(alloc, table, region, narrow(), 2)?;
    let same = copied(alloc, &window)?;
    let plain = SharedWindow::of_window(alloc, same)?;
    let window = merged(alloc, window)?;
    let mut shared = SharedWindow::of_window(alloc, window)?;
    let kept = shared.kept();
    let meets = own_below(&mut shared)?;
    let again = merged_again(alloc, &shared)?;
    Ok(Kept {
        places: shared.places(),
        unmerged: plain.kept(),
        merged: kept,
        owned: shared.kept(),
        meets,
        again: again.kept(),
        sized: has_size(alloc, shared, again.size())?,
    })
}

/// The same of the loop of a source.
fn kept_of_source(alloc: Global, text: &[u8]) -> Result<Option<Kept>, Fail> {
    let table = regions_of(alloc, text)?;
    let Some(region) = header(&table) else {
        return Ok(None);
    };
    Ok(Some(kept_of(alloc, &table, region)?))
}

/// After the test of the next iteration, whose own name takes a form variable, the sides of the source's test are
/// equal once names are merged. They are kept once then, and so is the leaf that leads there; where it
/// gets a node of its own below it, that is one node more. A step brings equal nodes together again.
#[test]
fn sides_that_meet_are_kept_once(rt: HostRuntime) -> Result<(), Fail> {
    let kept = kept_of_source(rt.alloc(), PRINTING)?;
    assert!(&rt;
        kept == Some(Kept {
            places: 60,
            unmerged: 58,
            merged: 37,
            owned: 38,
            meets: true,
            again: 37,
            sized: true,
        })
    );
    Ok(())
}
