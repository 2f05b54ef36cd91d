//! The graphs of sources.

use crate::graphs::lowered;
use pc_flow::FlowNode;
use pc_lower::laws_of_lowered_runs;
use pc_sample::{laws_of_samples, sample};
use pc_word::{Item, LoopMark, OpCode, Operand};
use std::alloc::Global;
use std::test::Fail;

/// Four nodes that read, and one that copies; the division is tested first.
const HALVING: &[u8] = b"int main(void){int x=read();print(x/2+1);}";

/// A loop in another.
const NESTED: &[u8] = b"int main(void){int x=read();\nwhile(x)\ndo\nx-=1;while(x);}";

#[test]
fn headers_begin_turns(rt: HostRuntime) -> Result<(), Fail> {
    let flow = lowered(rt.alloc(), NESTED)?;
    assert_eq!(rt; flow.count(), 10);
    let marks = [
        LoopMark {
            line: 2,
            header: 5,
            outer: None,
        },
        LoopMark {
            line: 3,
            header: 6,
            outer: Some(0),
        },
    ];
    assert!(rt; flow.loops().as_slice() == marks.as_slice());
    laws_of_lowered_runs();
    Ok(())
}

/// Two static arrays, of which one begins with two words that are not 0.
const STATIC: &[u8] =
    b"int main(void){static int a[4]={5,-6,0,0};static int b[2]={0};print(a[0]+b[1]);}";

/// Whether the graph of a source has two arrays, which begin with these words.
fn begin_with(alloc: Global, text: &[u8], one: &[i32], other: &[i32]) -> Result<bool, Fail> {
    let flow = lowered(alloc, text)?;
    match flow.initial().as_slice() {
        [first, second] => Ok(first.as_slice() == one && second.as_slice() == other),
        _ => Ok(false),
    }
}

#[test]
fn arrays_begin_with_their_data(rt: HostRuntime) -> Result<(), Fail> {
    let words: &[i32] = &[5, -6];
    assert!(rt; begin_with(rt.alloc(), STATIC, words, &[])?);
    Ok(())
}

/// The numbers to which a node's edges lead, and the greatest where it has none.
fn edges(node: FlowNode) -> (u32, u32) {
    match node {
        FlowNode::Op { next, .. } => (next, next),
        FlowNode::Test { yes, no, .. } => (yes, no),
        FlowNode::Stop | FlowNode::Trap { .. } => (u32::MAX, u32::MAX),
    }
}

#[test]
fn nodes_stand_in_source_order(rt: HostRuntime) -> Result<(), Fail> {
    let flow = lowered(rt.alloc(), HALVING)?;
    assert_eq!(rt; flow.count(), 11);
    assert_eq!(rt; flow.entry(), 0);
    for number in 0..11 {
        let (one, other) = edges(flow.node(number));
        assert!(rt; number < one && number < other, "node {number}");
    }
    let divided = Item::Bin {
        op: OpCode::Div,
        dest: 64,
        left: Operand::Name(0),
        right: Operand::Lit(2),
    };
    assert_eq!(rt;
        flow.node(7),
        FlowNode::Op {
            item: divided,
            next: 8
        }
    );
    Ok(())
}

/// The samples below this number have each number of blocks, from 1 to 40, with each kind of the first.
const SAMPLES: u32 = 120;

/// Whether the sample of a number is read, checked and lowered, to a node for its end at least.
fn is_lowered(alloc: Global, number: u32) -> Result<bool, Fail> {
    let text = sample(alloc, number)?;
    let flow = lowered(alloc, text.as_slice())?;
    Ok(flow.count() > 0)
}

#[test]
fn samples_are_sources(rt: HostRuntime) -> Result<(), Fail> {
    for number in 0..SAMPLES {
        assert!(rt; is_lowered(rt.alloc(), number)?, "@{number}");
    }
    laws_of_samples();
    Ok(())
}
