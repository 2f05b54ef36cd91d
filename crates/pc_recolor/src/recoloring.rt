//! Registers of a code chosen anew, and its rows tightened then.
ghost use Rattle.std.specs.Prelude.{◌≡◌, true, IfOk, IfSome};
ghost use Rattle.pc_machine.specs.MachineCode.{code_of, rows_of};
ghost use Rattle.pc_machine.specs.WellFormed.{WellFormed};
ghost use Rattle.pc_recolor.specs.Recolored.{IsRecolored, IsRecoloredAndTightened};
ghost use Rattle.pc_recolor.specs.models.Recoloring.{AreAnew, with_rows};

use crate::branches::Branches;
use crate::chains::phases_called_for;
use crate::choice::{Choice, most_phases, one_phase};
use crate::exits::Exits;
use crate::loops::Loops;
use crate::naming::are_named_in_order;
use crate::pace::{Paces, PhasedBranches};
use crate::painting::{Made, Merged, merged_webs, painted_rows};
use crate::phases::{MOST_PHASES, Phased, in_phases};
use crate::size::fit;
use pc_machine::{Code, Tree, TreeList};
use pc_renaming::is_renaming;
use pc_settled::is_settled;
use pc_tighten::tighten;
use pc_word::{DataList, LengthList, OutOfMemory, WordList};
use std::alloc::{AllocError, Global};

/// Whether made rows do others, each of them is reachable, they are written in so many bytes, and they are settled.
#[tactic(auto, using(crate::proofs::Recolored::made_laws))]
fn is_made(
    alloc: Global,
    registers: u16,
    most: usize,
    rows: &[Tree],
    made: &Made,
) -> Result<bool, OutOfMemory>
    ensures { IfOk result (λ taken. taken ≡ true → AreAnew registers most (rows_of rows.now) (rows_of made.now.rows)) }
{
    let after = made.rows.as_slice();
    if !fit(after, most) || !are_named_in_order(after) {
        return Ok(false);
    }
    if !is_renaming(registers, &made.told, rows, after) {
        return Ok(false);
    }
    let settled = is_settled(alloc, after)?;
    Ok(settled)
}

/// Rows that do these with other registers, of so many, in so many bytes, as they stand in phases; `None` where the registers
/// or the bytes do not suffice, or what was made does not do the rows or is not settled.
fn rows_anew(
    alloc: Global,
    registers: u16,
    most: usize,
    rows: &[Tree],
    phased: &Phased,
    merged: Merged,
) -> Result<Option<TreeList>, OutOfMemory>
    ensures { IfOk result (λ found. IfSome found (λ after. AreAnew registers most (rows_of rows.now) (rows_of after))) }
{
    match painted_rows(alloc, registers, phased, merged)? {
        Some(made) => {
            if is_made(alloc, registers, most, rows, &made)? {
                let Made { rows, told } = made;
                drop(told);
                Ok(Some(rows))
            } else {
                Ok(None)
            }
        }
        None => Ok(None),
    }
}

/// The same data in a list of their own.
fn copied(alloc: Global, initial: &[WordList]) -> Result<DataList, AllocError>
    ensures { IfOk result (λ list. list ≡ initial.now) }
{
    let mut list = DataList::new(alloc);
    for words in initial {
        list.push(WordList::from_slice(alloc, words.as_slice())?)?;
    }
    Ok(list)
}

/// A code with other rows.
fn with_rows(alloc: Global, code: &Code, rows: TreeList) -> Result<Code, AllocError>
    ensures { IfOk result (λ after. code_of after ≡ with_rows (code_of code.now) (rows_of rows)) }
{
    let arrays = LengthList::from_slice(alloc, code.arrays.as_slice())?;
    let initial = copied(alloc, code.initial.as_slice())?;
    Ok(Code {
        limits: code.limits,
        registers: code.registers,
        arrays,
        initial,
        rows,
    })
}

/// The code with other registers, in so many bytes, as its rows stand in phases, if it could be had.
#[tactic(auto, using(crate::proofs::Recolored::code_laws))]
fn recolored(
    alloc: Global,
    code: &Code,
    most: usize,
    phased: &Phased,
    merged: Merged,
) -> Result<Option<Code>, OutOfMemory>
    ensures { IfOk result (λ found. IfSome found (λ after. IsRecolored most (code_of code.now) (code_of after))) }
{
    match rows_anew(
        alloc,
        code.registers,
        most,
        code.rows.as_slice(),
        phased,
        merged,
    )? {
        Some(rows) => {
            let after = with_rows(alloc, code, rows)?;
            Ok(Some(after))
        }
        None => Ok(None),
    }
}

/// No phases are tried with which the rows of a code times the phases are more than this, so that a long code does not
/// take many times as long.
const MOST_ROWS: usize = 1024;

/// The most phases that are tried in a code of so many rows.
fn most_phases_of(rows: usize) -> u8 {
    let mut most = 1;
    for phases in 2..=MOST_PHASES {
        if rows.saturating_mul(phases as usize) <= MOST_ROWS {
            most = phases;
        }
    }
    most
}

/// What the rows of a code lead to, and the loops among them.
#[derive(Drop)]
struct Shape {
    branches: Branches,
    loops: Loops,
    exits: Exits,
}

/// The shape of rows.
fn shape_of(alloc: Global, rows: &[Tree]) -> Result<Shape, AllocError> {
    let branches = Branches::of(alloc, rows)?;
    let loops = Loops::of(alloc, rows, &branches)?;
    let exits = Exits::of(alloc, rows, &loops)?;
    Ok(Shape {
        branches,
        loops,
        exits,
    })
}

/// A code with other registers, and tightened, and what is known of it.
#[derive(Drop)]
struct Tried {
    code: Code,
    phased: PhasedBranches,
    branches: Branches,
    /// How many rows of copies each loop keeps.
    kept: Vec<u32>,
    /// How many phases each loop calls for.
    called_for: Vec<u8>,
}

/// The code with other registers, each loop in so many phases, and tightened, if it could be had.
#[tactic(auto, using(crate::proofs::Recolored::tightened_laws))]
fn attempt(
    alloc: Global,
    code: &Code,
    most: usize,
    shape: &Shape,
    phases: &[u8],
) -> Result<Option<Tried>, OutOfMemory>
    requires { WellFormed (code_of code.now) }
    ensures { IfOk result (λ found. IfSome found (λ tried. IsRecoloredAndTightened most (code_of code.now) (code_of tried.code))) }
{
    let phased = in_phases(
        alloc,
        code.rows.as_slice(),
        &shape.loops,
        &shape.exits,
        phases,
    )?;
    let merged = merged_webs(alloc, &phased)?;
    let called_for = phases_called_for(alloc, shape.loops.count(), &phased, &merged)?;
    match recolored(alloc, code, most, &phased, merged)? {
        Some(between) => {
            let phased = PhasedBranches::of(alloc, &phased)?;
            let code = tighten(alloc, between)?;
            let branches = Branches::of(alloc, code.rows.as_slice())?;
            let kept = phased.copies_kept(alloc, shape.loops.count(), &branches)?;
            Ok(Some(Tried {
                code,
                phased,
                branches,
                kept,
                called_for,
            }))
        }
        None => Ok(None),
    }
}

/// The code with other registers, and tightened, with as many phases of each loop as help.
fn best(
    alloc: Global,
    code: &Code,
    most: usize,
    shape: &Shape,
) -> Result<Option<Tried>, OutOfMemory>
    requires { WellFormed (code_of code.now) }
    ensures { IfOk result (λ found. IfSome found (λ tried. IsRecoloredAndTightened most (code_of code.now) (code_of tried.code))) }
{
    let ones = one_phase(alloc, shape.loops.count())?;
    let Some(first) = attempt(alloc, code, most, shape, &ones)? else {
        return Ok(None);
    };
    let most_tried = most_phases_of(code.rows.len());
    let mut choice = Choice::of_one_phase(alloc, &first.kept, &first.called_for, most_tried)?;
    let mut best = first;
    for _turn in 2..=MOST_PHASES {
        let trial = choice.trial(alloc)?;
        if choice.is_done() || most_phases(&trial) > most_tried {
            break;
        }
        let Some(found) = attempt(alloc, code, most, shape, &trial)? else {
            if choice.lowers() {
                continue;
            }
            break;
        };
        if choice.learns(&trial, &found.kept) {
            best = found;
        }
    }
    if choice.is_made {
        return Ok(Some(best));
    }
    match attempt(alloc, code, most, shape, &choice.phases)? {
        Some(found) => Ok(Some(found)),
        None => Ok(Some(best)),
    }
}

/// The code tightened, with the registers that it has.
#[tactic(auto, using(crate::proofs::Recolored::tightened_laws))]
fn as_it_is(alloc: Global, code: Code, most: usize) -> Result<Code, OutOfMemory>
    requires { WellFormed (code_of code) }
    ensures { IfOk result (λ after. IsRecoloredAndTightened most (code_of code) (code_of after)) }
{
    let after = tighten(alloc, code)?;
    Ok(after)
}

/// Whether no loop takes more cycles in a code with other registers than in the code as it was, both of them tightened.
fn is_no_slower(
    alloc: Global,
    shape: &Shape,
    tried: &Tried,
    other: &Code,
) -> Result<bool, AllocError> {
    let branches = Branches::of(alloc, other.rows.as_slice())?;
    let paces = Paces {
        phased: &tried.phased,
        after: &tried.branches,
        before: &shape.branches,
        other: &branches,
    };
    paces.are_no_slower(alloc)
}

/// The code with registers chosen anew over its rows, so that the values of a copy share one where they may, and
/// without such copies and without items that nothing needs, and tightened then. Before it is tightened no row of copies
/// has a copy left whose source's web and destination's web are never held together; no clause says what else goes. Loops
/// that keep rows of copies stand in several phases, as in modulo variable expansion (Lam 1988), where that takes at least
/// half of them away. It is only tightened where the registers do not suffice, where its rows would have more than `most` bytes,
/// where a checker refuses what was made, or where an innermost loop would take more cycles than without.
///
/// `Memory` is the only error.
pub fn recolor_and_tighten(alloc: Global, code: Code, most: usize) -> Result<Code, OutOfMemory>
    requires { WellFormed (code_of code) }
    ensures { IfOk result (λ after. IsRecoloredAndTightened most (code_of code) (code_of after)) }
{
    let shape = shape_of(alloc, code.rows.as_slice())?;
    let best = best(alloc, &code, most, &shape)?;
    let other = as_it_is(alloc, code, most)?;
    match best {
        Some(tried) => {
            if is_no_slower(alloc, &shape, &tried, &other)? {
                let Tried { code, .. } = tried;
                Ok(code)
            } else {
                Ok(other)
            }
        }
        None => Ok(other),
    }
}

/// What becomes of rows that are made of a code's with other registers.
#[derive(Clone, Copy, Debug)]
pub enum Verdict {
    /// The registers do not suffice, so nothing is made.
    NotMade,
    /// The checkers take them.
    Taken,
    /// The checkers refuse them. If the code is well formed, and the witness has an entry for each row, then they do not do
    /// its rows by the witness, or leaves do not name them in the order of their numbers, or they are not found settled.
    /// `recolor_and_tighten` would leave the code the registers that it has.
    Refused,
}

/// What becomes of the rows that are made of a code's with each loop in this number of phases, of which there are at most 8.
///
/// `Memory` is the only error.
pub fn judge(alloc: Global, code: &Code, phases: u8) -> Result<Verdict, OutOfMemory> {
    let rows = code.rows.as_slice();
    let shape = shape_of(alloc, rows)?;
    let mut trial = Vec::new(alloc);
    for _number in 0..shape.loops.count() {
        trial.push(phases.min(MOST_PHASES))?;
    }
    let phased = in_phases(alloc, rows, &shape.loops, &shape.exits, &trial)?;
    let merged = merged_webs(alloc, &phased)?;
    match painted_rows(alloc, code.registers, &phased, merged)? {
        Some(made) => {
            let after = made.rows.as_slice();
            let does = is_renaming(code.registers, &made.told, rows, after);
            if does && are_named_in_order(after) && is_settled(alloc, after)? {
                Ok(Verdict::Taken)
            } else {
                Ok(Verdict::Refused)
            }
        }
        None => Ok(Verdict::NotMade),
    }
}
