//! What lines have of an object, written as its fields.

ghost use Rattle.std.specs.Prelude.{◌≡◌, ◌++◌, OnOk};
ghost use Rattle.std.specs.List.{flat_map};
ghost use Rattle.pc_assembly.specs.models.Ranges.{IsBytePart, IsByteContent};
ghost use Rattle.pc_assembly.specs.Assembled.{part_text, content_rows, content_notes};

use crate::line::{Content, Line};
use crate::part::Part;
use pc_object::{push_item, push_leaf, push_note, push_operand};
use std::alloc::AllocError;

fn push_part(out: &mut Vec<u8>, part: Part) -> Result<(), AllocError>
    requires { IsBytePart part }
    ensures { OnOk result (out.new.items ≡ out.old.items ++ part_text part) }
{
    match part {
        Part::Item(item) => push_item(out, item),
        Part::Test(on) => {
            out.push(0x10)?;
            push_operand(out, on)
        }
        Part::Leaf(leaf) => push_leaf(out, leaf),
    }
}

/// Appends what a line has of the rows.
pub fn push_content(out: &mut Vec<u8>, content: Content) -> Result<(), AllocError>
    requires { IsByteContent content }
    ensures { OnOk result (out.new.items ≡ out.old.items ++ content_rows content) }
{
    match content {
        Content::Part(part) => push_part(out, part),
        Content::Word { .. } | Content::Row | Content::Note(_) => Ok(()),
    }
}

fn push_content_note(out: &mut Vec<u8>, content: Content) -> Result<(), AllocError>
    ensures { OnOk result (out.new.items ≡ out.old.items ++ content_notes content) }
{
    match content {
        Content::Note(note) => push_note(out, note),
        Content::Word { .. } | Content::Row | Content::Part(_) => Ok(()),
    }
}

/// Appends the notes that lines tell.
pub fn push_notes(out: &mut Vec<u8>, lines: &[Line]) -> Result<(), AllocError>
    ensures { OnOk result (out.new.items ≡ out.old.items ++ flat_map (λ line. content_notes line.content) lines.now) }
{
    for line in lines {
        push_content_note(out, line.content)?;
    }
    Ok(())
}
