//! Filling a window's front with what a row does.
use crate::choosing::{Choice, View, part_reads, with_copied};
use crate::following::{Care, Flow};
use crate::moving::{bring_item, bring_test, join};
use crate::parts::{Part, What};
use crate::wanted::Wants;
use crate::ways::{Way, ways_of};
use pc_cert::Step;
use pc_window::NameTable;
use pc_word::{Item, Operand};
use std::alloc::{AllocError, Global};

/// The number of items and tests before a place.
fn number_at(ways: &[Way], place: usize) -> u16 {
    match ways.get(place) {
        None => u16::MAX,
        Some(way) => way.number.min(u16::MAX as u32) as u16,
    }
}

/// The step that a choice is.
fn step_of(ways: &[Way], choice: Choice) -> Step {
    match choice {
        Choice::Item { place, .. } | Choice::Test { place, .. } => Step::Bring {
            place: number_at(ways, place),
        },
        Choice::Both {
            branch,
            on_yes,
            on_no,
            ..
        } => Step::Join {
            branch: number_at(ways, branch),
            on_yes: number_at(ways, on_yes),
            on_no: number_at(ways, on_no),
        },
    }
}

/// Notes that an item of the row was found.
fn note_item(wants: &mut Wants, want: usize, parts: &[Part], place: usize) {
    if let (Some(it), Some(part)) = (wants.items.get_mut(want), parts.get(place)) {
        it.done = true;
        it.tag = part.tag;
        it.origin = part.origin;
    }
}

/// Notes that a test of the row was found.
fn note_test(wants: &mut Wants, segment: usize) {
    if let Some(it) = wants.segments.get_mut(segment) {
        it.done = true;
    }
}

/// Does what was chosen.
fn do_choice(parts: &mut Vec<Part>, wants: &mut Wants, choice: Choice) -> Result<(), AllocError> {
    match choice {
        Choice::Item { place, top, want } => {
            note_item(wants, want, parts.as_slice(), place);
            bring_item(parts, place, top)
        }
        Choice::Test {
            place,
            top,
            segment,
        } => {
            note_test(wants, segment);
            bring_test(parts, place, top)
        }
        Choice::Both {
            branch,
            on_yes,
            other,
            on_no,
            want,
        } => {
            note_item(wants, want, parts.as_slice(), on_yes);
            join(parts, branch, on_yes, other, on_no)
        }
    }
}

/// Notes the block of what stands at a place.
fn note_block(parts: &[Part], place: usize, blocks: &mut Vec<u32>) -> Result<(), AllocError> {
    if let Some(part) = parts.get(place) {
        blocks.push(part.block)?;
    }
    Ok(())
}

/// Whether a step is among others.
fn is_among(steps: &[Step], step: Step) -> bool {
    for it in steps {
        if *it == step {
            return true;
        }
    }
    false
}

/// What stands at a place reads what is copied in place of a copy's name, if it reads that.
fn use_copy(
    parts: &mut Vec<Part>,
    place: usize,
    copy: u32,
    dest: u32,
    from: Operand,
    uses: &mut Vec<Step>,
) -> Result<(), AllocError> {
    let Some(part) = parts.get_mut(place) else {
        return Ok(());
    };
    if !part_reads(part.what, dest) || copy > u16::MAX as u32 || part.first > u16::MAX as u32 {
        return Ok(());
    }
    part.what = with_copied(part.what, dest, from);
    let step = Step::Use {
        copy: copy as u16,
        place: part.first as u16,
    };
    if !is_among(uses.as_slice(), step) {
        uses.push(step)?;
    }
    Ok(())
}

/// Appends the steps by which what stands at a place reads what is copied above it in place of the copies' names; then
/// it reads that.
fn use_copies(
    parts: &mut Vec<Part>,
    ways: &[Way],
    place: usize,
    uses: &mut Vec<Step>,
) -> Result<(), AllocError> {
    let mut at = place;
    for _ in 0..parts.len() {
        let Some(way) = ways.get(at) else {
            return Ok(());
        };
        let Some(above) = way.above else {
            return Ok(());
        };
        let Some(other) = parts.get(above as usize).copied() else {
            return Ok(());
        };
        if other.finished {
            return Ok(());
        }
        if let What::Item(Item::Copy { dest, from }) = other.what {
            use_copy(parts, place, other.first, dest, from, uses)?;
        }
        at = above as usize;
    }
    Ok(())
}

/// What comes next: what the nearer facts tell, or else what any tell.
fn chosen(
    parts: &[Part],
    ways: &[Way],
    names: &NameTable,
    wants: &Wants,
    flow: Flow,
    care: Care,
) -> Option<Choice> {
    let near = View {
        parts,
        ways,
        names,
        wants,
        flow,
        near: true,
        care,
    };
    match near.first_choice() {
        Some(choice) => Some(choice),
        None => View {
            parts,
            ways,
            names,
            wants,
            flow,
            near: false,
            care,
        }
        .first_choice(),
    }
}

/// Brings what the row does into the front, the first that is ready first, as long as there is any, and appends the
/// steps.
pub(crate) fn fill(
    alloc: Global,
    parts: &mut Vec<Part>,
    names: &NameTable,
    wants: &mut Wants,
    flow: Flow,
    care: Care,
    uses: &mut Vec<Step>,
    steps: &mut Vec<Step>,
    blocks: &mut Vec<u32>,
) -> Result<(), AllocError> {
    let most = wants.items.len() + wants.segments.len();
    for _ in 0..most {
        let ways = ways_of(alloc, parts.as_slice(), wants.segments.as_slice())?;
        let Some(choice) = chosen(parts.as_slice(), ways.as_slice(), names, wants, flow, care)
        else {
            return Ok(());
        };
        steps.push(step_of(ways.as_slice(), choice))?;
        match choice {
            Choice::Item { place, .. } | Choice::Test { place, .. } => {
                use_copies(parts, ways.as_slice(), place, uses)?;
                note_block(parts.as_slice(), place, blocks)?;
            }
            Choice::Both { on_yes, on_no, .. } => {
                use_copies(parts, ways.as_slice(), on_yes, uses)?;
                use_copies(parts, ways.as_slice(), on_no, uses)?;
                note_block(parts.as_slice(), on_yes, blocks)?;
                note_block(parts.as_slice(), on_no, blocks)?;
            }
        }
        do_choice(parts, wants, choice)?;
    }
    Ok(())
}
