//! The lines of a program.
ghost use Rattle.std.specs.Prelude.{◌≡◌, IfOk};
ghost use Rattle.pc_check.specs.Checks.{resolved_of};
ghost use Rattle.pc_lines.specs.Lines.{lines_of};

use crate::LineList;
use crate::statement::push_list;
use pc_check::Checked;
use std::alloc::{AllocError, Global};

/// The line of the source that each node of a program's flow graph comes from, in the order of the nodes' numbers. The last node,
/// which is the end, has none. Linear in the program.
pub fn lines(alloc: Global, checked: &Checked) -> Result<LineList, AllocError>
    ensures { IfOk result (λ lines. lines ≡ lines_of (resolved_of checked.now)) }
{
    let mut lines = LineList::new(alloc);
    push_list(&mut lines, &checked.body.items)?;
    Ok(lines)
}
