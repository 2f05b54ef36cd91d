//! A flow graph in the making: its nodes are placed at numbers that are known beforehand, each one
//! after those to which it leads.
ghost use Rattle.std.specs.Prelude.{◌≡◌, ◌+◌, ◌<◌, Some, None, length, slice_index, replicate, IfOk};
ghost use Rattle.pc_flow.specs.FlowGraph.{IsTarget};
ghost use Rattle.pc_flow.specs.declared.node.FlowNode.TheVariants.{Test, Stop};
ghost use Rattle.pc_lower.specs.Lowers.{IsAt};
ghost use Rattle.pc_lower.specs.LoopTests.{HasTest, TestsInside};
ghost use Rattle.pc_lower.specs.models.Drafts.{CanPlace, draft_with, CanAim, aimed, headed, MayBegin, first_draft};
ghost use Rattle.pc_lower.specs.models.Fills.{Lays};

use pc_flow::{Flow, FlowNode, FlowNodeList, InsideList, RankList};
use pc_word::{DataList, LengthList, LoopList, LoopMark, Operand};
use std::alloc::{AllocError, Global};
use std::marker::Model;

/// A flow graph whose nodes are all there, and are placed one after the other. One that was not
/// placed yet stops.
#[derive(Debug, Drop)]
pub(crate) struct Draft {
    nodes: FlowNodeList,
    ranks: RankList,
    inside: InsideList,
    loops: LoopList,
    arrays: LengthList,
    initial: DataList,
    ranked: u32,
}

impl Model for Draft {
    ghost use Rattle.std.specs.Coded.{codes};
    ghost use Rattle.pc_lower.specs.models.Drafts.{Draft, IsDraft};

    ghost Value = { Draft };

    ghost coded = { Prim.hlevel codes };

    ghost view = { λ it. record { graph = record { nodes = it.nodes; ranks = it.ranks; inside = it.inside; entry = 0; loops = it.loops; arrays = it.arrays; initial = it.initial }; ranked = it.ranked } };

    ghost invariant = { λ it. IsDraft (record { graph = record { nodes = it.nodes; ranks = it.ranks; inside = it.inside; entry = 0; loops = it.loops; arrays = it.arrays; initial = it.initial }; ranked = it.ranked }) };
}

impl Draft {
    /// So many nodes, of which none is placed, with these loops, arrays and data.
    pub(crate) fn new(
        alloc: Global,
        count: u32,
        loops: LoopList,
        arrays: LengthList,
        initial: DataList,
    ) -> Result<Draft, AllocError>
        requires may { MayBegin count loops arrays initial }
        ensures { IfOk result (λ draft. draft ≡ first_draft count loops arrays initial) }
    {
        let nodes = stops(alloc, count)?;
        let ranks = zeros(alloc, count)?;
        let inside = no_loops(alloc, count)?;
        Ok(Draft {
            nodes,
            ranks,
            inside,
            loops,
            arrays,
            initial,
            ranked: 0,
        })
    }

    /// The length of an array.
    pub(crate) fn length(&self, array: u8) -> u32
        requires { array < length self.now.graph.arrays }
        ensures { result ≡ slice_index self.now.graph.arrays array }
    {
        self.arrays.as_slice()[array as usize]
    }

    /// Places a node, which stands in the text of a loop or of none. It gets a rank above all that
    /// were placed before.
    pub(crate) fn place(&mut self, at: u32, node: FlowNode, inside: Option<u16>)
        requires can { CanPlace self.now at node inside }
        ensures placed { self.new ≡ draft_with at node inside self.old }
        ensures laid { Lays self.old self.new 1 at (at + 1) (λ flow. IsAt flow at node inside) }
    {
        self.ranked += 1;
        self.nodes.set(at as usize, node);
        self.ranks.set(at as usize, self.ranked);
        self.inside.set(at as usize, inside);
    }

    /// Lets the test of a loop lead to these nodes, of which some may not be placed yet.
    pub(crate) fn aim(&mut self, at: u32, on: Operand, yes: u32, no: u32, turn: u16)
        requires can { CanAim self.now at on yes no turn }
        requires test { HasTest self.now.graph at turn }
        ensures { self.new ≡ aimed at (Test on yes no (Some turn)) self.old }
    {
        self.nodes.set(
            at as usize,
            FlowNode::Test {
                on,
                yes,
                no,
                turn: Some(turn),
            },
        );
    }

    /// Puts the header of a loop into its mark.
    #[tactic(auto, using(crate::proofs::LoopMarks::header_put_at))]
    pub(crate) fn set_header(&mut self, number: u16, header: u32)
        requires there { number < length self.now.graph.loops }
        ensures { self.new ≡ headed number header self.old }
    {
        let mark = self.loops.as_slice()[number as usize];
        self.loops.set(number as usize, LoopMark { header, ..mark });
    }

    /// The graph of these nodes, which begins at one of them.
    pub(crate) fn into_flow(self, entry: u32) -> Flow
        requires there { IsTarget self.graph entry }
        ensures begun { result ≡ record self.graph { entry = entry } }
        ensures tests { TestsInside result }
    {
        Flow::new(
            self.nodes,
            self.ranks,
            self.inside,
            entry,
            self.loops,
            self.arrays,
            self.initial,
        )
    }
}

/// So many nodes that stop.
fn stops(alloc: Global, count: u32) -> Result<FlowNodeList, AllocError>
    ensures { IfOk result (λ list. list ≡ replicate count Stop) }
{
    let items = vec![in alloc; FlowNode::Stop; count as usize]?;
    Ok(FlowNodeList::from_vec(items))
}

/// So many ranks of nodes that were not placed.
fn zeros(alloc: Global, count: u32) -> Result<RankList, AllocError>
    ensures { IfOk result (λ list. list ≡ replicate count 0) }
{
    let items = vec![in alloc; 0; count as usize]?;
    Ok(RankList::from_vec(items))
}

/// So many nodes in no loop.
fn no_loops(alloc: Global, count: u32) -> Result<InsideList, AllocError>
    ensures { IfOk result (λ list. list ≡ replicate count None) }
{
    let items = vec![in alloc; None; count as usize]?;
    Ok(InsideList::from_vec(items))
}
