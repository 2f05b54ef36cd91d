//! What each pass changes in one graph.
ghost use Rattle.std.specs.Prelude.{◌≡◌, IfOk};
ghost use Rattle.pc_graph_tests.specs.Example.{example};

use pc_flow::{Flow, FlowNode, FlowNodeList, InsideList, RankList};
use pc_pass::Pass;
use pc_scalar::{Copies, Dead, Fold, Values};
use pc_word::{DataList, Item, LengthList, LoopList, LoopMark, OpCode, Operand};
use std::alloc::Global;
use std::test::Fail;

/// `v0 = 2 + 3; v1 = v0; v2 = v0 * v1; v3 = v0 * v1; v1 = v2; if (1) do print(v3); while (0);`
const NODES: [FlowNode; 9] = [
    FlowNode::Op {
        item: Item::Bin {
            op: OpCode::Add,
            dest: 0,
            left: Operand::Lit(2),
            right: Operand::Lit(3),
        },
        next: 1,
    },
    FlowNode::Op {
        item: Item::Copy {
            dest: 1,
            from: Operand::Name(0),
        },
        next: 2,
    },
    FlowNode::Op {
        item: Item::Bin {
            op: OpCode::Mul,
            dest: 2,
            left: Operand::Name(0),
            right: Operand::Name(1),
        },
        next: 3,
    },
    FlowNode::Op {
        item: Item::Bin {
            op: OpCode::Mul,
            dest: 3,
            left: Operand::Name(0),
            right: Operand::Name(1),
        },
        next: 4,
    },
    FlowNode::Op {
        item: Item::Copy {
            dest: 1,
            from: Operand::Name(2),
        },
        next: 5,
    },
    FlowNode::Test {
        on: Operand::Lit(1),
        yes: 6,
        no: 8,
        turn: None,
    },
    FlowNode::Op {
        item: Item::Print {
            value: Operand::Name(3),
        },
        next: 7,
    },
    FlowNode::Test {
        on: Operand::Lit(0),
        yes: 6,
        no: 8,
        turn: Some(0),
    },
    FlowNode::Stop,
];

/// The graph of these nodes.
#[tactic(auto, using(crate::proofs::Example::example_is))]
fn example(alloc: Global) -> Result<Flow, Fail>
    ensures { IfOk result (λ flow. flow ≡ example) }
{
    let nodes = FlowNodeList::from_slice(alloc, &NODES)?;
    let ranks = RankList::from_slice(alloc, &[8, 7, 6, 5, 4, 3, 2, 1, 0])?;
    let inside = InsideList::from_slice(
        alloc,
        &[None, None, None, None, None, None, Some(0), Some(0), None],
    )?;
    let mark = LoopMark {
        line: 1,
        header: 6,
        outer: None,
    };
    let loops = LoopList::from_slice(alloc, &[mark])?;
    Ok(Flow::new(
        nodes,
        ranks,
        inside,
        0,
        loops,
        LengthList::new(alloc),
        DataList::new(alloc),
    ))
}

/// Whether the nodes of a graph are those of the example but for these.
fn is_example_but_for(flow: &Flow, changed: &[(u32, FlowNode)]) -> bool {
    for (at, old) in NODES.iter().enumerate() {
        let mut wanted = *old;
        for (number, node) in changed.iter() {
            if *number as usize == at {
                wanted = *node;
            }
        }
        if flow.count() != 9 || flow.node(at as u32) != wanted {
            return false;
        }
    }
    true
}

#[test]
fn constants_are_folded(rt: HostRuntime) -> Result<(), Fail> {
    let mut flow = example(rt.alloc())?;
    let mut pass = Fold::new(rt.alloc());
    assert_eq!(rt; pass.name(), "fold");
    assert_eq!(rt; pass.changes(), 0);
    pass.apply(&mut flow)?;
    assert_eq!(rt; pass.changes(), 2);
    let changed = [
        (
            0,
            FlowNode::Op {
                item: Item::Copy {
                    dest: 0,
                    from: Operand::Lit(5),
                },
                next: 1,
            },
        ),
        (
            4,
            FlowNode::Op {
                item: Item::Copy {
                    dest: 1,
                    from: Operand::Name(2),
                },
                next: 6,
            },
        ),
    ];
    assert!(rt; is_example_but_for(&flow, &changed));
    assert_eq!(rt; flow.entry(), 0);
    Ok(())
}

#[test]
fn dead_writes_are_skipped(rt: HostRuntime) -> Result<(), Fail> {
    let mut flow = example(rt.alloc())?;
    let mut pass = Dead::new(rt.alloc());
    assert_eq!(rt; pass.name(), "dead");
    pass.apply(&mut flow)?;
    assert_eq!(rt; pass.changes(), 2);
    let changed = [
        (
            1,
            FlowNode::Op {
                item: Item::Copy {
                    dest: 1,
                    from: Operand::Name(0),
                },
                next: 3,
            },
        ),
        (
            3,
            FlowNode::Op {
                item: Item::Bin {
                    op: OpCode::Mul,
                    dest: 3,
                    left: Operand::Name(0),
                    right: Operand::Name(1),
                },
                next: 5,
            },
        ),
    ];
    assert!(rt; is_example_but_for(&flow, &changed));
    Ok(())
}

#[test]
fn copies_are_propagated(rt: HostRuntime) -> Result<(), Fail> {
    let mut flow = example(rt.alloc())?;
    let mut pass = Copies::new(rt.alloc());
    assert_eq!(rt; pass.name(), "copies");
    pass.apply(&mut flow)?;
    assert_eq!(rt; pass.changes(), 2);
    let changed = [(2, square(2, 3)), (3, square(3, 4))];
    assert!(rt; is_example_but_for(&flow, &changed));
    Ok(())
}

/// `v0 * v0` into a variable, before a node.
fn square(dest: u32, next: u32) -> FlowNode {
    FlowNode::Op {
        item: Item::Bin {
            op: OpCode::Mul,
            dest,
            left: Operand::Name(0),
            right: Operand::Name(0),
        },
        next,
    }
}

#[test]
fn values_are_reused(rt: HostRuntime) -> Result<(), Fail> {
    let mut flow = example(rt.alloc())?;
    let mut pass = Values::new(rt.alloc());
    assert_eq!(rt; pass.name(), "values");
    pass.apply(&mut flow)?;
    assert_eq!(rt; pass.changes(), 1);
    let changed = [(
        3,
        FlowNode::Op {
            item: Item::Copy {
                dest: 3,
                from: Operand::Name(2),
            },
            next: 4,
        },
    )];
    assert!(rt; is_example_but_for(&flow, &changed));
    Ok(())
}
