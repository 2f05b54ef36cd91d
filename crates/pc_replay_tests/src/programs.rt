//! Filling the windows of programs, replayed by single moves.
ghost use Rattle.std.specs.Prelude.{◌<◌, length};
ghost use Rattle.pc_word.specs.Ranges.{AreLimits};

use crate::comparing::{Compared, NONE_COMPARED};
use crate::following::{TURNS, unwound};
use crate::leaves::compare_leaves;
use crate::sources::{EXAMPLES, PROGRAMS};
use pc_check::check;
use pc_lexer::tokens;
use pc_live::live;
use pc_lower::lower;
use pc_parser::parse;
use pc_regions::regions;
use pc_replay::ReplayError;
use pc_sample::sample;
use pc_table::RegionTable;
use pc_word::{Limits, MOST_SOURCE, MOST_TOKENS};
use std::alloc::Global;
use std::test::Fail;

/// The most windows of a region: its first one, and those that follow at all leaves.
const MOST_WINDOWS: u32 = 128;

/// So many windows of sources, at least, are changed by filling.
const LEAST_CHANGED: u32 = 100;

/// So many samples are filled: the first ones.
pub(crate) const SAMPLES: u32 = 21;

/// What fits into a row, if nothing else is asked for.
pub(crate) fn wide() -> Limits
    ensures { AreLimits result }
{
    Limits {
        ops: 8,
        tests: 3,
        mem: 2,
    }
}

/// Half of it and less.
pub(crate) fn narrow() -> Limits
    ensures { AreLimits result }
{
    Limits {
        ops: 4,
        tests: 1,
        mem: 1,
    }
}

/// The regions of a source.
pub(crate) fn regions_of(alloc: Global, text: &[u8]) -> Result<RegionTable, Fail> {
    if text.len() > MOST_SOURCE {
        Err(ReplayError::TooLarge)?;
    }
    let tokens = tokens(alloc, text)?;
    if tokens.len() > MOST_TOKENS {
        Err(ReplayError::TooLarge)?;
    }
    let program = parse(alloc, &tokens)?;
    let checked = check(alloc, &program)?;
    let flow = lower(alloc, &checked)?;
    let liveness = live(alloc, &flow)?;
    let table = regions(alloc, &flow, &liveness)?;
    Ok(table)
}

/// Compares the window of a region, and those that follow it at all leaves.
fn compare_region(
    alloc: Global,
    table: &RegionTable,
    region: u32,
    limits: Limits,
    all: &mut Compared,
) -> Result<(), ReplayError>
    requires there { region < length table.now.regions }
    requires limits { AreLimits limits }
{
    let window = unwound(alloc, table, region, limits, TURNS)?;
    compare_leaves(alloc, table, window, MOST_WINDOWS, all)
}

/// Compares those of each region of a source.
fn compare_source(
    alloc: Global,
    text: &[u8],
    limits: Limits,
    all: &mut Compared,
) -> Result<(), Fail>
    requires { AreLimits limits }
{
    let table = regions_of(alloc, text)?;
    for region in 0..table.regions.len() {
        compare_region(alloc, &table, region as u32, limits, all)?;
    }
    Ok(())
}

/// Whether filling changes enough of the windows of sources, and all are filled so by single moves.
fn are_replayed(alloc: Global, sources: &[&[u8]], limits: Limits) -> Result<bool, Fail>
    requires { AreLimits limits }
{
    let mut all = NONE_COMPARED;
    for text in sources {
        compare_source(alloc, text, limits, &mut all)?;
    }
    Ok(all.alike && all.changed >= LEAST_CHANGED)
}

/// The same of the first samples.
fn samples_are_replayed(alloc: Global, limits: Limits) -> Result<bool, Fail>
    requires { AreLimits limits }
{
    let mut all = NONE_COMPARED;
    for number in 0..SAMPLES {
        let text = sample(alloc, number)?;
        compare_source(alloc, text.as_slice(), limits, &mut all)?;
    }
    Ok(all.alike && all.changed >= LEAST_CHANGED)
}

#[test]
fn windows_of_examples_are_filled_by_single_moves(rt: HostRuntime) -> Result<(), Fail> {
    assert!(rt; are_replayed(rt.alloc(), &EXAMPLES, wide())?);
    Ok(())
}

#[test]
fn windows_of_examples_are_filled_within_less_by_single_moves(rt: HostRuntime) -> Result<(), Fail> {
    assert!(rt; are_replayed(rt.alloc(), &EXAMPLES, narrow())?);
    Ok(())
}

#[test]
fn windows_of_programs_are_filled_by_single_moves(rt: HostRuntime) -> Result<(), Fail> {
    assert!(rt; are_replayed(rt.alloc(), &PROGRAMS, wide())?);
    assert!(rt; are_replayed(rt.alloc(), &PROGRAMS, narrow())?);
    Ok(())
}

#[test]
fn windows_of_samples_are_filled_by_single_moves(rt: HostRuntime) -> Result<(), Fail> {
    assert!(rt; samples_are_replayed(rt.alloc(), wide())?);
    Ok(())
}

#[test]
fn windows_of_samples_are_filled_within_less_by_single_moves(rt: HostRuntime) -> Result<(), Fail> {
    assert!(rt; samples_are_replayed(rt.alloc(), narrow())?);
    Ok(())
}
