//! Graphs that several tests use, and those of sources.
ghost use Rattle.std.specs.Prelude.{◌≡◌, IfOk};
ghost use Rattle.pc_live.specs.models.Example.{example};

use pc_check::check;
use pc_flow::{Flow, FlowNode, FlowNodeList, InsideList, RankList};
use pc_lexer::tokens;
use pc_lower::{LowerError, lower};
use pc_parser::parse;
use pc_word::{
    DataList, Item, LengthList, LoopList, LoopMark, MOST_SOURCE, MOST_TOKENS, OpCode, Operand,
};
use std::alloc::Global;
use std::test::Fail;

/// The graph of a source.
pub(crate) fn lowered(alloc: Global, text: &[u8]) -> Result<Flow, Fail> {
    if text.len() > MOST_SOURCE {
        Err(LowerError::Memory)?;
    }
    let tokens = tokens(alloc, text)?;
    if tokens.len() > MOST_TOKENS {
        Err(LowerError::Memory)?;
    }
    let program = parse(alloc, &tokens)?;
    let checked = check(alloc, &program)?;
    Ok(lower(alloc, &checked)?)
}

/// A graph that stops at once.
pub(crate) fn stop(alloc: Global) -> Result<Flow, Fail> {
    Ok(Flow::new(
        FlowNodeList::from_slice(alloc, &[FlowNode::Stop])?,
        RankList::from_slice(alloc, &[0])?,
        InsideList::from_slice(alloc, &[None])?,
        0,
        LoopList::new(alloc),
        LengthList::new(alloc),
        DataList::new(alloc),
    ))
}

/// `v0 = 3; while (v0) { print(v1); v1 = v0; v0 = v0 - 1; } v1 = 7; print(v2);`
pub(crate) const NODES: [FlowNode; 8] = [
    FlowNode::Op {
        item: Item::Copy {
            dest: 0,
            from: Operand::Lit(3),
        },
        next: 1,
    },
    FlowNode::Test {
        on: Operand::Name(0),
        yes: 2,
        no: 5,
        turn: Some(0),
    },
    FlowNode::Op {
        item: Item::Print {
            value: Operand::Name(1),
        },
        next: 3,
    },
    FlowNode::Op {
        item: Item::Copy {
            dest: 1,
            from: Operand::Name(0),
        },
        next: 4,
    },
    FlowNode::Op {
        item: Item::Bin {
            op: OpCode::Sub,
            dest: 0,
            left: Operand::Name(0),
            right: Operand::Lit(1),
        },
        next: 1,
    },
    FlowNode::Op {
        item: Item::Copy {
            dest: 1,
            from: Operand::Lit(7),
        },
        next: 6,
    },
    FlowNode::Op {
        item: Item::Print {
            value: Operand::Name(2),
        },
        next: 7,
    },
    FlowNode::Stop,
];

/// The graph of these nodes.
#[tactic(auto, using(pc_live::proofs::Example::example_is))]
pub(crate) fn example(alloc: Global) -> Result<Flow, Fail>
    ensures { IfOk result (λ flow. flow ≡ example) }
{
    let nodes = FlowNodeList::from_slice(alloc, &NODES)?;
    let ranks = RankList::from_slice(alloc, &[8, 3, 7, 6, 5, 2, 1, 0])?;
    let inside = InsideList::from_slice(
        alloc,
        &[None, Some(0), Some(0), Some(0), Some(0), None, None, None],
    )?;
    let mark = LoopMark {
        line: 1,
        header: 1,
        outer: None,
    };
    let loops = LoopList::from_slice(alloc, &[mark])?;
    Ok(Flow::new(
        nodes,
        ranks,
        inside,
        0,
        loops,
        LengthList::new(alloc),
        DataList::new(alloc),
    ))
}
