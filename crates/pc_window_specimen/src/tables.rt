//! Tables of regions, told part by part.
use crate::checking::{Draft, keeps};
use crate::items::{bin, load, print, store};
use crate::untold::Untold;
use pc_table::{Region, RegionList, RegionTable, RegionTree, VarList};
use pc_word::{Item, LengthList, LoopList, LoopMark, MOST_NODES, OpCode, Operand};
use std::alloc::{AllocError, Global};

/// A part of the tree of a region or of a window, told in preorder: the yes side of a test stands before its no side. An item and a test begin
/// with the node of the flow graph that they come from; loads and stores are of array 0.
#[derive(Clone, Copy)]
pub enum Part {
    Bin(u32, OpCode, u32, Operand, Operand),
    Copy(u32, u32, Operand),
    Load(u32, u32, Operand),
    Store(u32, Operand, Operand),
    Print(u32, Operand),
    Read(u32, u32),
    /// A test of an operand.
    Asks(u32, Operand),
    /// In a region alone: the region that comes next, by its number.
    Next(u32),
    /// In a window alone: a leaf of a node, which leads to the one that follows.
    Node,
    /// The end of the program.
    Stop,
}

/// A region, told.
#[derive(Clone, Copy)]
pub struct ToldRegion {
    /// The node of the flow graph at its root.
    pub head: u32,
    pub parts: &'static [Part],
    /// The variables that are live at its head, in rising order.
    pub live: &'static [u32],
    /// The innermost loop that its head stands in.
    pub inside: Option<u16>,
    /// The loop whose header its head is.
    pub heads: Option<u16>,
}

/// A table, told.
#[derive(Clone, Copy)]
pub struct ToldTable {
    pub regions: &'static [ToldRegion],
    /// The header of each loop. Each stands in line 1 and in no other loop.
    pub headers: &'static [u32],
    /// The lengths of the arrays.
    pub lengths: &'static [u32],
}

/// A region in no loop, at whose head nothing is live.
pub const PLAIN: ToldRegion = ToldRegion {
    head: 0,
    parts: &[Part::Stop],
    live: &[],
    inside: None,
    heads: None,
};

/// Puts a leaf there.
fn put_leaf(leaf: RegionTree, trees: &mut Vec<RegionTree>) -> Result<bool, AllocError> {
    trees.push(leaf)?;
    Ok(true)
}

/// Puts an item above the last tree. Whether there is one.
fn put_item(
    alloc: Global,
    origin: u32,
    item: Item,
    trees: &mut Vec<RegionTree>,
) -> Result<bool, AllocError> {
    let Some(next) = trees.pop() else {
        return Ok(false);
    };
    let next = Box::new(alloc, next)?;
    trees.push(RegionTree::Step { origin, item, next })?;
    Ok(true)
}

/// Puts a test above the last two trees, of which the last is its yes side. Whether there are two.
fn put_test(
    alloc: Global,
    origin: u32,
    on: Operand,
    trees: &mut Vec<RegionTree>,
) -> Result<bool, AllocError> {
    let (Some(yes), Some(no)) = (trees.pop(), trees.pop()) else {
        return Ok(false);
    };
    let yes = Box::new(alloc, yes)?;
    let no = Box::new(alloc, no)?;
    trees.push(RegionTree::Test {
        origin,
        on,
        yes,
        no,
    })?;
    Ok(true)
}

/// The node and the item of a part that is an item.
pub(crate) fn item_of(part: Part) -> Option<(u32, Item)> {
    match part {
        Part::Bin(origin, op, dest, left, right) => Some((origin, bin(op, dest, left, right))),
        Part::Copy(origin, dest, from) => Some((origin, Item::Copy { dest, from })),
        Part::Load(origin, dest, index) => Some((origin, load(dest, index))),
        Part::Store(origin, index, value) => Some((origin, store(index, value))),
        Part::Print(origin, value) => Some((origin, print(value))),
        Part::Read(origin, dest) => Some((origin, Item::Read { dest })),
        _ => None,
    }
}

/// Puts a part above the trees of those that come after it. Whether it can stand there.
fn put(alloc: Global, part: Part, trees: &mut Vec<RegionTree>) -> Result<bool, AllocError> {
    if let Some((origin, item)) = item_of(part) {
        return put_item(alloc, origin, item, trees);
    }
    match part {
        Part::Asks(origin, on) => put_test(alloc, origin, on, trees),
        Part::Next(region) => put_leaf(RegionTree::Next { region }, trees),
        Part::Stop => put_leaf(RegionTree::Stop, trees),
        _ => Ok(false),
    }
}

/// The tree of these parts.
fn tree(alloc: Global, parts: &[Part]) -> Result<RegionTree, Untold> {
    let mut trees = Vec::new(alloc);
    for part in parts.iter().rev() {
        if !put(alloc, *part, &mut trees)? {
            return Err(Untold::NoTable);
        }
    }
    trees.pop().ok_or(Untold::NoTable)
}

/// A region.
fn region(alloc: Global, told: &ToldRegion) -> Result<Region, Untold> {
    let tree = tree(alloc, told.parts)?;
    Ok(Region {
        head: told.head,
        tree,
        live: VarList::from_slice(alloc, told.live)?,
        inside: told.inside,
        heads: told.heads,
    })
}

/// The regions of a table.
fn regions(alloc: Global, told: &[ToldRegion]) -> Result<RegionList, Untold> {
    let mut regions = RegionList::new(alloc);
    for told in told {
        regions.push(region(alloc, told)?)?;
    }
    Ok(regions)
}

/// Loops with these headers.
fn loops(alloc: Global, headers: &[u32]) -> Result<LoopList, Untold> {
    let mut loops = LoopList::new(alloc);
    for header in headers {
        loops.push(LoopMark {
            line: 1,
            header: *header,
            outer: None,
        })?;
    }
    Ok(loops)
}

/// What is told as a table. `NoTable` also where a region that leads on without a test leads to another one that does.
pub fn table(alloc: Global, told: &ToldTable) -> Result<RegionTable, Untold> {
    let draft = Draft {
        regions: regions(alloc, told.regions)?,
        loops: loops(alloc, told.headers)?,
        arrays: LengthList::from_slice(alloc, told.lengths)?,
    };
    checked(draft)
}

/// The table that keeps what tables keep.
fn checked(draft: Draft) -> Result<RegionTable, Untold> {
    if draft.regions.len() > MOST_NODES as usize || !keeps(&draft) {
        return Err(Untold::NoTable);
    }
    let Draft {
        regions,
        loops,
        arrays,
    } = draft;
    Ok(RegionTable {
        regions,
        loops,
        arrays,
    })
}
