//! Lines in the making.
ghost use Rattle.std.specs.Prelude.{◌≡◌, ◌++◌, replicate, OnOk};
ghost use Rattle.pc_check.specs.Sizes.{operator_size};

use crate::LineList;
use pc_syntax::BinaryOp;
use std::alloc::AllocError;

/// Appends a line as many times as there are nodes at it.
pub(crate) fn push_nodes(lines: &mut LineList, count: u32, line: u32) -> Result<(), AllocError>
    ensures { OnOk result (lines.new ≡ lines.old ++ replicate count line) }
{
    for _ in 0..count {
        lines.push(line)?;
    }
    Ok(())
}

/// Appends the line of an operator for each of its nodes.
pub(crate) fn push_operator(lines: &mut LineList, op: BinaryOp, line: u32) -> Result<(), AllocError>
    ensures { OnOk result (lines.new ≡ lines.old ++ replicate (operator_size op) line) }
{
    match op {
        BinaryOp::Div | BinaryOp::Rem => push_nodes(lines, 3, line),
        _ => push_nodes(lines, 1, line),
    }
}
