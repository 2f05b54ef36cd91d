//! The steps of a certificate, one after the other.
ghost use Rattle.std.specs.Prelude.{◌≡◌, ◌↔◌, ◌≤◌, ◌<◌, ◌^◌, true, IfOk};
ghost use Rattle.pc_table.specs.StoredTable.{table_of};
ghost use Rattle.pc_window.specs.StoredWindow.{window_in};
ghost use Rattle.pc_cert.specs.declared.certificate.Step.TheVariants.{Join, Open, Enter, Use};
ghost use Rattle.pc_arranging.specs.Arranging.{IsSmall, ArrangesOrNot};
ghost use Rattle.pc_arranging.specs.CanArrange.{CanArrange, IsArrangedIn, ArrangedIn};
ghost use Rattle.pc_arranging.specs.models.Doing.{DoesOrNot, StepsOrNot};

use crate::exchanging::use_at;
use crate::fronts::{begin, unfinished};
use crate::numbering::place_across;
use crate::stubs::{enter_at, open_at};
use pc_cert::Step;
use pc_fill::{bring, size_up_to};
use pc_table::RegionTable;
use pc_window::{Window, WindowError};
use pc_word::OutOfMemory;
use std::alloc::{AllocError, Global};

/// The most items and tests of a window after a step.
const MOST_PARTS: u32 = 4096;

/// The most names of a window, and the most form variables, after a step.
const MOST_NAMES: u32 = 1 << 30;

/// Whether a window is not too large.
#[tactic(auto, using(crate::proofs::Small::telling))]
fn is_small(window: &Window) -> bool
    ensures { (result ≡ true) ↔ IsSmall (window_in window.now) }
{
    if size_up_to(&window.tree, MOST_PARTS + 1) > MOST_PARTS {
        return false;
    }
    if window.names.forms.len() > MOST_NAMES as usize {
        return false;
    }
    if window.names.next_variable > MOST_NAMES {
        return false;
    }
    true
}

/// Two items become one above a test.
#[tactic(auto, using(crate::proofs::Doing::joining))]
fn join(
    alloc: Global,
    window: Window,
    branch: u16,
    on_yes: u16,
    on_no: u16,
    table: &RegionTable,
) -> Result<Option<Window>, WindowError>
    requires { IsArrangedIn (table_of table.now) window }
    ensures { IfOk result (λ later. DoesOrNot (table_of table.now) (Join branch on_yes on_no) (window_in window) later) }
{
    let across = place_across(&window.tree, branch as u32, on_yes as u32, on_no as u32);
    let Some(across) = across else {
        return Ok(None);
    };
    bring(alloc, window, on_yes as u32, Some(across))
}

/// A stub becomes its region's tree.
#[tactic(auto, using(crate::proofs::Doing::opening))]
fn open(
    alloc: Global,
    table: &RegionTable,
    window: Window,
    leaf: u16,
) -> Result<Option<Window>, AllocError>
    requires { IsArrangedIn (table_of table.now) window }
    ensures { IfOk result (λ later. DoesOrNot (table_of table.now) (Open leaf) (window_in window) later) }
{
    let Window {
        tree,
        names,
        limits,
        inside,
    } = window;
    let mut tree = unfinished(alloc, tree)?;
    let mut names = names;
    let done = open_at(
        alloc,
        table,
        false,
        inside,
        &mut tree,
        leaf as u32,
        &mut names,
        false,
    )?;
    if !done {
        return Ok(None);
    }
    Ok(Some(Window {
        tree,
        names,
        limits,
        inside,
    }))
}

/// A stub is entered.
#[tactic(auto, using(crate::proofs::Doing::entering))]
fn enter(
    alloc: Global,
    table: &RegionTable,
    window: Window,
    leaf: u16,
) -> Result<Option<Window>, AllocError>
    requires { IsArrangedIn (table_of table.now) window }
    ensures { IfOk result (λ later. DoesOrNot (table_of table.now) (Enter leaf) (window_in window) later) }
{
    let Window {
        tree,
        names,
        limits,
        inside,
    } = window;
    let mut tree = unfinished(alloc, tree)?;
    let mut names = names;
    if !enter_at(alloc, table, inside, &mut tree, leaf as u32, &mut names)? {
        return Ok(None);
    }
    Ok(Some(Window {
        tree,
        names,
        limits,
        inside,
    }))
}

/// A copy's name and its operand take each other's place.
#[tactic(auto, using(crate::proofs::Doing::exchanging))]
fn use_copy(
    alloc: Global,
    table: &RegionTable,
    window: Window,
    copy: u16,
    part: u16,
) -> Result<Option<Window>, AllocError>
    requires { IsArrangedIn (table_of table.now) window }
    ensures { IfOk result (λ later. DoesOrNot (table_of table.now) (Use copy part) (window_in window) later) }
{
    let Window {
        tree,
        names,
        limits,
        inside,
    } = window;
    let mut tree = unfinished(alloc, tree)?;
    if !use_at(&mut tree, copy as u32, part as u32) {
        return Ok(None);
    }
    Ok(Some(Window {
        tree,
        names,
        limits,
        inside,
    }))
}

/// What a step makes of a window, whatever its size.
#[tactic(auto, using(crate::proofs::Doing::trying))]
fn try_step(
    alloc: Global,
    table: &RegionTable,
    window: Window,
    step: Step,
) -> Result<Option<Window>, OutOfMemory>
    requires { IsArrangedIn (table_of table.now) window }
    ensures { IfOk result (λ later. DoesOrNot (table_of table.now) step (window_in window) later) }
{
    match step {
        Step::Bring { place } => bring(alloc, window, place as u32, None),
        Step::Join {
            branch,
            on_yes,
            on_no,
        } => join(alloc, window, branch, on_yes, on_no, table),
        Step::Open { leaf } => Ok(open(alloc, table, window, leaf)?),
        Step::Enter { leaf } => Ok(enter(alloc, table, window, leaf)?),
        Step::Use { copy, place } => Ok(use_copy(alloc, table, window, copy, place)?),
    }
}

/// What a step makes of a window, where it is not too large.
#[tactic(auto, using(crate::proofs::Doing::stepping))]
fn step_once(
    alloc: Global,
    table: &RegionTable,
    window: Window,
    step: Step,
) -> Result<Option<Window>, OutOfMemory>
    requires { IsArrangedIn (table_of table.now) window }
    ensures { IfOk result (λ later. StepsOrNot (table_of table.now) step window later) }
{
    let Some(later) = try_step(alloc, table, window, step)? else {
        return Ok(None);
    };
    if !is_small(&later) {
        return Ok(None);
    }
    Ok(Some(later))
}

/// Arranges a window by the steps of an entry, one after the other.
///
/// The front begins empty, with limits of 255 items, tests, and loads and stores. A window that is
/// given back has at most 4,096 items and tests, and 2^30 names and form variables, as after each of its
/// steps. `None` exactly where a step is not legal, or makes a window that is too large. The time is at
/// most in proportion to the number of steps, times the square of the window's size.
#[tactic(auto, using(crate::proofs::Doing::arranging))]
pub fn do_steps(
    alloc: Global,
    table: &RegionTable,
    window: Window,
    steps: &[Step],
) -> Result<Option<Window>, OutOfMemory>
    requires { CanArrange (table_of table.now) (window_in window) }
    ensures arranges { IfOk result (λ later. ArrangesOrNot (table_of table.now) steps.now (window_in window) later) }
    ensures arranged { IfOk result (λ later. ArrangedIn (table_of table.now) later) }
{
    let mut current = begin(alloc, window)?;
    for step in steps {
        let Some(next) = step_once(alloc, table, current, *step)? else {
            return Ok(None);
        };
        current = next;
    }
    Ok(Some(current))
}
