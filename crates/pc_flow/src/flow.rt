//! The flow graph, which is made whole and then changed a node at a time.
ghost use Rattle.std.specs.Prelude.{◌≡◌, ◌<◌, Some, length, slice_get, slice_set, slice_index, slice_index_or};
ghost use Rattle.pc_flow.specs.FlowGraph.{FlowGraph, IsFlow, NodeFits, KeepsTurn};

use crate::{FlowNode, FlowNodeList, InsideList, RankList};
use pc_word::{DataList, LengthList, LoopList};
use std::marker::Model;

/// A flow graph of 1 to 16,384 nodes.
///
/// It keeps `IsFlow`: names are below 96; the entry, arrays and targets are there; each array has a
/// list of the words with which it begins, which has room in it and does not end in 0; a loop's outer
/// loop has a smaller number; and each edge out of a node that is no loop's test leads to a smaller
/// rank, so each cycle passes the test of a loop. No call here takes memory.
#[derive(Debug, Drop)]
pub struct Flow {
    nodes: FlowNodeList,
    ranks: RankList,
    inside: InsideList,
    entry: u32,
    loops: LoopList,
    arrays: LengthList,
    initial: DataList,
}

impl Model for Flow {
    ghost use Rattle.std.specs.Coded.{codes};
    ghost use Rattle.pc_flow.specs.FlowGraph.{FlowGraph, IsFlow};

    ghost Value = { FlowGraph };

    ghost coded = { Prim.hlevel codes };

    ghost view = { λ it. record { nodes = it.nodes; ranks = it.ranks; inside = it.inside; entry = it.entry; loops = it.loops; arrays = it.arrays; initial = it.initial } };

    ghost invariant = { λ it. IsFlow (record { nodes = it.nodes; ranks = it.ranks; inside = it.inside; entry = it.entry; loops = it.loops; arrays = it.arrays; initial = it.initial }) };
}

impl Flow {
    /// The graph with these parts: a rank and the innermost loop of each node stand in lists of the
    /// nodes' length, and the words with which each array begins in one list an array.
    pub fn new(
        nodes: FlowNodeList,
        ranks: RankList,
        inside: InsideList,
        entry: u32,
        loops: LoopList,
        arrays: LengthList,
        initial: DataList,
    ) -> Flow
        requires { IsFlow (record { nodes = nodes; ranks = ranks; inside = inside; entry = entry; loops = loops; arrays = arrays; initial = initial }) }
        ensures { result ≡ record { nodes = nodes; ranks = ranks; inside = inside; entry = entry; loops = loops; arrays = arrays; initial = initial } }
    {
        Flow {
            nodes,
            ranks,
            inside,
            entry,
            loops,
            arrays,
            initial,
        }
    }

    /// The number of nodes. It also tells what every graph keeps.
    pub fn count(&self) -> u32
        ensures number { result ≡ length self.now.nodes }
        ensures kept { IsFlow self.now }
    {
        self.nodes.len() as u32
    }

    /// The node where the graph begins.
    pub fn entry(&self) -> u32
        ensures { result ≡ self.now.entry }
    {
        self.entry
    }

    /// A node.
    pub fn node(&self, id: u32) -> FlowNode
        requires { id < length self.now.nodes }
        ensures { slice_get self.now.nodes id ≡ Some result }
    {
        self.nodes.as_slice()[id as usize]
    }

    /// The rank of a node.
    pub fn rank(&self, id: u32) -> u32
        requires { id < length self.now.nodes }
        ensures { result ≡ slice_index self.now.ranks id }
    {
        self.ranks.as_slice()[id as usize]
    }

    /// The innermost loop in whose text a node's construct stands.
    pub fn inside(&self, id: u32) -> Option<u16>
        requires { id < length self.now.nodes }
        ensures { slice_get self.now.inside id ≡ Some result }
    {
        self.inside.as_slice()[id as usize]
    }

    /// The loops, by number, in the order of their keywords.
    pub fn loops(&self) -> &LoopList
        ensures { result.now ≡ self.now.loops }
    {
        &self.loops
    }

    /// The lengths of the arrays.
    pub fn arrays(&self) -> &LengthList
        ensures { result.now ≡ self.now.arrays }
    {
        &self.arrays
    }

    /// The words with which each array begins, by the array's number; it goes on with 0.
    pub fn initial(&self) -> &DataList
        ensures { result.now ≡ self.now.initial }
    {
        &self.initial
    }

    /// Lets the graph begin at another node.
    pub fn set_entry(&mut self, id: u32)
        requires there { id < length self.now.nodes }
        ensures { self.new ≡ record self.old { entry = id } }
    {
        self.entry = id;
    }

    /// Puts a node in the place of another, which tests no other loop's condition than that one.
    #[tactic(auto, using(crate::proofs::Graphs::set_node_keeps))]
    pub fn set_node(&mut self, id: u32, node: FlowNode)
        requires there { id < length self.now.nodes }
        requires fits { NodeFits self.now id node }
        requires turn { KeepsTurn (slice_index_or self.now.nodes id node) node }
        ensures { self.new ≡ record self.old { nodes = slice_set self.old.nodes id node } }
    {
        self.nodes.set(id as usize, node);
    }
}
