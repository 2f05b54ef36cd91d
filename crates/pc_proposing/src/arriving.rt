//! What is left arrives at a row.
ghost use Rattle.std.specs.Prelude.{IfOk, OnOk};
ghost use Rattle.pc_settling.specs.Stored.{IsLeft};
ghost use Rattle.pc_proposing.specs.models.Leaving.{AllLeft};

use crate::facts::{common, on_parameters};
use crate::opening::opening_of;
use crate::parts::number_of;
use crate::registers::RegisterSet;
use crate::stands::{Link, Setting, Stand, Stands};
use crate::undone::copied;
use pc_canon::{WindowKey, key};
use pc_cert::{Fact, Opening};
use pc_renumber::renumber;
use pc_settling::{Begun, Remaining, begin, facts_at_start, progress};
use pc_window::Window;
use pc_word::OutOfMemory;
use std::alloc::{AllocError, Global};

/// What begins at a row: the key of its window and the least tag, the facts by the numbers of its parameters, and
/// whether the rank has to fall on the way to it.
#[derive(Drop)]
struct Beginning {
    key: Vec<u8>,
    tag: u32,
    facts: Vec<Fact>,
    falls: bool,
}

/// The registers whose values matter where a row begins.
fn live_at(setting: &Setting, row: u32) -> RegisterSet {
    match setting.live.get(row as usize) {
        None => RegisterSet::none(),
        Some(it) => *it,
    }
}

/// What begins at a row with this opening, where this is left by a window with this least tag.
fn beginning_of(
    alloc: Global,
    setting: &Setting,
    row: u32,
    opening: Opening,
    left: Remaining,
    from: u32,
) -> Result<Option<Beginning>, OutOfMemory>
    requires { IsLeft left.window }
{
    let begun = begin(alloc, setting.table, setting.code.limits, opening, left)?;
    let Some(
        Begun {
            window,
            facts,
            entered,
        },
    ) = begun
    else {
        return Ok(None);
    };
    let falls = !entered && !progress(0, from, 0, &window);
    let WindowKey { bytes, names, tag } = key(alloc, &window)?;
    let facts = on_parameters(
        alloc,
        facts.as_slice(),
        window.names.forms.len(),
        names.as_slice(),
        &live_at(setting, row),
    )?;
    Ok(Some(Beginning {
        key: bytes,
        tag,
        facts,
        falls,
    }))
}

/// A copy of a window that is left to do, with its names numbered anew.
fn renumbered(alloc: Global, window: &Window) -> Result<Window, OutOfMemory>
    requires { IsLeft window.now }
    ensures { IfOk result IsLeft }
{
    let copy = copied(alloc, window)?;
    renumber(alloc, copy)
}

/// Keeps what was left where a row was reached first.
#[tactic(auto, using(crate::proofs::Leaving::keeping))]
fn keep(stands: &mut Stands, left: Window) -> Result<(), AllocError>
    requires left { IsLeft left }
    requires all { AllLeft stands.old }
    ensures { OnOk result (AllLeft stands.new) }
{
    stands.lefts.push(left)?;
    Ok(())
}

/// The facts with which a row is reached first: of those that hold now those that held each time in an earlier try, if
/// it began so then.
fn known_facts(
    alloc: Global,
    setting: &Setting,
    row: u32,
    beginning: &Beginning,
) -> Result<Vec<Fact>, OutOfMemory> {
    if let Some(stand) = stand_before(setting, row) {
        if stand.first_key.as_slice() == beginning.key.as_slice() {
            let facts = common(alloc, beginning.facts.as_slice(), stand.facts.as_slice())?;
            return Ok(facts);
        }
    }
    let facts = Vec::from_slice(alloc, beginning.facts.as_slice())?;
    Ok(facts)
}

/// The stand of a row in an earlier try.
fn stand_before<'a>(setting: &Setting<'a>, row: u32) -> Option<&'a Stand> {
    let before = setting.before;
    let number = (*before.of_row.get(row as usize)?)?;
    before.all.get(number as usize)
}

/// The stand of a row that begins so with these facts, and was reached from another.
fn new_stand(
    alloc: Global,
    row: u32,
    from: Option<u32>,
    opening: Opening,
    beginning: Beginning,
    facts: Vec<Fact>,
) -> Result<Stand, AllocError> {
    let first_key = Vec::from_slice(alloc, beginning.key.as_slice())?;
    Ok(Stand {
        row,
        from,
        opening,
        first_key,
        key: beginning.key,
        tag: beginning.tag,
        facts,
        steps: Vec::new(alloc),
        planned: false,
        misplanned: false,
        waits: true,
        links: Vec::new(alloc),
    })
}

/// A row is reached first.
fn arrive_first(
    alloc: Global,
    setting: &Setting,
    stands: &mut Stands,
    row: u32,
    left: Remaining,
    from: u32,
    entered: bool,
) -> Result<Option<Link>, OutOfMemory>
    requires left { IsLeft left.window }
    requires all { AllLeft stands.old }
    ensures { OnOk result (AllLeft stands.new) }
{
    let opening = opening_of(setting, &left.window, entered);
    let kept = renumbered(alloc, &left.window)?;
    let Some(beginning) = beginning_of(alloc, setting, row, opening, left, from)? else {
        return Ok(None);
    };
    let facts = known_facts(alloc, setting, row, &beginning)?;
    let number = number_of(stands.all.len());
    if let Some(of_row) = stands.of_row.get_mut(row as usize) {
        *of_row = Some(number);
    }
    keep(stands, kept)?;
    let falls = beginning.falls;
    let stand = new_stand(alloc, row, stands.current, opening, beginning, facts)?;
    stands.all.push(stand)?;
    Ok(Some(Link { to: number, falls }))
}

/// A row is reached again: of its facts those stay that hold here as well. Says whether its window is the same.
fn meet(alloc: Global, stand: &mut Stand, beginning: &Beginning) -> Result<bool, OutOfMemory> {
    if beginning.key.as_slice() != stand.key.as_slice() {
        return Ok(false);
    }
    let facts = common(alloc, stand.facts.as_slice(), beginning.facts.as_slice())?;
    if facts.len() < stand.facts.len() {
        stand.waits = true;
        stand.misplanned = stand.planned;
    }
    stand.facts = facts;
    Ok(true)
}

/// A row is reached again.
fn arrive_again(
    alloc: Global,
    setting: &Setting,
    stands: &mut Stands,
    number: u32,
    left: Remaining,
    from: u32,
) -> Result<Option<Link>, OutOfMemory>
    requires left { IsLeft left.window }
    requires all { AllLeft stands.old }
    ensures { OnOk result (AllLeft stands.new) }
{
    let Some(stand) = stands.all.get_mut(number as usize) else {
        return Ok(None);
    };
    let beginning = beginning_of(alloc, setting, stand.row, stand.opening, left, from)?;
    let Some(beginning) = beginning else {
        return Ok(None);
    };
    if !meet(alloc, stand, &beginning)? {
        stands.missed = Some(number);
        return Ok(None);
    }
    Ok(Some(Link {
        to: number,
        falls: beginning.falls,
    }))
}

/// What is left by a window with this least tag, in which a region was entered or not, arrives at a row. `None`: it is not
/// as it was when the row was reached before.
pub(crate) fn arrive(
    alloc: Global,
    setting: &Setting,
    stands: &mut Stands,
    row: u32,
    left: Remaining,
    from: u32,
    entered: bool,
) -> Result<Option<Link>, OutOfMemory>
    requires left { IsLeft left.window }
    requires all { AllLeft stands.old }
    ensures { OnOk result (AllLeft stands.new) }
{
    let of_row = match stands.of_row.get(row as usize) {
        None => return Ok(None),
        Some(of_row) => *of_row,
    };
    match of_row {
        None => arrive_first(alloc, setting, stands, row, left, from, entered),
        Some(number) => arrive_again(alloc, setting, stands, number, left, from),
    }
}

/// What a source begins with arrives at row 0. Says whether it can.
pub(crate) fn arrive_at_start(
    alloc: Global,
    setting: &Setting,
    stands: &mut Stands,
) -> Result<bool, OutOfMemory>
    requires { AllLeft stands.old }
    ensures { OnOk result (AllLeft stands.new) }
{
    if setting.table.regions.is_empty() {
        return Ok(false);
    }
    let window = Window::of_region(alloc, setting.table, 0, setting.code.limits)?;
    let facts = facts_at_start(alloc, setting.code.registers as u32)?;
    let left = Remaining { window, facts };
    let link = arrive(alloc, setting, stands, 0, left, 0, false)?;
    Ok(link.is_some())
}
