//! Marks, at which intervals that grow stop: the ends of words, 0, 1, and what stands about the
//! literals of comparisons.
use pc_flow::{Flow, FlowNode};
use pc_word::{Item, OpCode, Operand};
use std::alloc::{AllocError, Global};

/// The marks of a graph, in order.
pub(crate) fn marks_of(alloc: Global, flow: &Flow) -> Result<Vec<i32>, AllocError> {
    let mut marks = Vec::new(alloc);
    for mark in [i32::MIN, 0, 1, i32::MAX] {
        marks.push(mark)?;
    }
    for at in 0..flow.count() {
        if let FlowNode::Op { item, .. } = flow.node(at) {
            mark_item(&mut marks, item)?;
        }
    }
    marks.sort_unstable();
    Ok(marks)
}

/// Adds the marks of an item, if it compares.
fn mark_item(marks: &mut Vec<i32>, item: Item) -> Result<(), AllocError> {
    if let Item::Bin {
        op,
        left,
        right,
        ..
    } = item
    {
        if compares(op) {
            mark_operand(marks, left)?;
            mark_operand(marks, right)?;
        }
    }
    Ok(())
}

/// Whether an operator compares.
fn compares(op: OpCode) -> bool {
    matches!(
        op,
        OpCode::Less | OpCode::LessEq | OpCode::Equal | OpCode::Unequal | OpCode::Below
    )
}

/// Adds a literal, and the words before and after it.
fn mark_operand(marks: &mut Vec<i32>, operand: Operand) -> Result<(), AllocError> {
    if let Operand::Lit(word) = operand {
        marks.push(word.saturating_sub(1))?;
        marks.push(word)?;
        marks.push(word.saturating_add(1))?;
    }
    Ok(())
}

/// The greatest mark that is at most a word.
pub(crate) fn mark_below(marks: &[i32], word: i32) -> i32 {
    let count = marks.partition_point(|mark| *mark <= word);
    match marks[..count].last() {
        Some(mark) => *mark,
        None => i32::MIN,
    }
}

/// The least mark that is at least a word.
pub(crate) fn mark_above(marks: &[i32], word: i32) -> i32 {
    let count = marks.partition_point(|mark| *mark < word);
    match marks.get(count) {
        Some(mark) => *mark,
        None => i32::MAX,
    }
}
