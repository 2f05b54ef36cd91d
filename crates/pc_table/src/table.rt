//! Regions, and tables of them.
ghost use Rattle.std.specs.Prelude.{◌≤◌, length};
ghost use Rattle.pc_word.specs.SourceLimits.{most_nodes};
ghost use Rattle.pc_table.specs.Table.{table_regions};
ghost use Rattle.pc_table.specs.TableKeeps.{TableKeeps};
ghost use Rattle.pc_table.specs.KeptOnce.{kept_once};

use crate::loops::{if_innermost, same_loop};
use crate::{RegionList, RegionTree, VarList};
use pc_word::{LengthList, LoopList};

/// Nodes of a flow graph that a region may have.
pub const MOST_REGION_NODES: u32 = 128;

/// A region: the part of a flow graph that is a tree below one node, its head.
#[derive(Debug, Drop)]
pub struct Region {
    /// The node of the flow graph at the root of the tree.
    pub head: u32,
    pub tree: RegionTree,
    /// The variables that are live at the head, in rising order.
    pub live: VarList,
    /// The innermost loop that the head stands in.
    pub inside: Option<u16>,
    /// The loop whose header the head is, and the innermost one where several loops have that header.
    pub heads: Option<u16>,
}

/// A flow graph, cut into regions. Region 0 is the entry.
///
/// It keeps `TableKeeps`: all that its regions name is there, what a region needs is live at its head,
/// and each cycle of regions passes a test. It has at most 16,384 regions.
#[derive(Debug, Drop)]
pub struct RegionTable {
    pub regions: RegionList,
    /// The loops of the flow graph, by number.
    pub loops: LoopList,
    /// The lengths of the arrays.
    pub arrays: LengthList,
    pub ghost few: { length regions ≤ most_nodes },
    pub ghost kept: { TableKeeps (record { regions = table_regions regions; loops = loops; arrays = arrays }) } by { kept_once _ },
}

impl RegionTable {
    ghost use Rattle.std.specs.Prelude.{◌≡◌, ◌<◌, Some, slice_get};
    ghost use Rattle.pc_table.specs.Table.{table_tree, region_tree, region_live};
    ghost use Rattle.pc_table.specs.TableKeeps.{TreeIsThere, units, most_region_nodes};
    ghost use Rattle.pc_table.specs.StoredTable.{table_of};
    ghost use Rattle.pc_table.specs.Loops.{same_loop, headed_loop, innermost_loop, is_inside};

    /// A region by its number.
    pub fn region(&self, number: u32) -> &Region
        requires { number < length self.now.regions }
        ensures { slice_get self.now.regions number ≡ Some result.now }
    {
        &self.regions.as_slice()[number as usize]
    }

    /// The tree of a region. All that it names is there, and it has at most 128 items and tests.
    #[tactic(auto, using(crate::proofs::StoredRegions::trees))]
    pub fn tree(&self, number: u32) -> &RegionTree
        requires { number < length self.now.regions }
        ensures tree { table_tree result.now ≡ region_tree (table_of self.now) number }
        ensures there { TreeIsThere (length self.now.arrays) (length self.now.regions) (table_tree result.now) }
        ensures few { units (table_tree result.now) ≤ most_region_nodes }
    {
        &self.region(number).tree
    }

    /// The variables that are live at the head of a region, in rising order.
    pub fn live(&self, number: u32) -> &VarList
        requires { number < length self.now.regions }
        ensures { result.now ≡ region_live (table_of self.now) number }
    {
        &self.region(number).live
    }

    /// The loop whose header a region is. A region that is not there heads none.
    pub fn headed_loop(&self, region: u32) -> Option<u16>
        ensures { result ≡ headed_loop (table_of self.now) region }
    {
        match self.regions.get(region as usize) {
            None => None,
            Some(region) => region.heads,
        }
    }

    /// The loop whose header a region is, where no loop stands in it.
    pub fn innermost_loop(&self, region: u32) -> Option<u16>
        ensures { result ≡ innermost_loop (table_of self.now) region }
    {
        if_innermost(self.loops.as_slice(), self.headed_loop(region))
    }

    /// Whether there is such a loop, and a region is its header.
    pub fn heads(&self, region: u32, inside: Option<u16>) -> bool
        ensures { result ≡ same_loop (headed_loop (table_of self.now) region) inside }
    {
        same_loop(self.headed_loop(region), inside)
    }

    /// Whether there is such a loop, and it is the innermost one that a region stands in.
    pub fn is_inside(&self, region: u32, inside: Option<u16>) -> bool
        ensures { result ≡ is_inside (table_of self.now) inside region }
    {
        match self.regions.get(region as usize) {
            None => false,
            Some(region) => same_loop(region.inside, inside),
        }
    }
}
