//! What the run of an object cost, as a text.
ghost use Rattle.std.specs.Prelude.{◌≡◌, IfOk};
ghost use Rattle.pc_command.specs.Requests.{stat_request};
ghost use Rattle.pc_count.specs.Counts.{profile_of};
ghost use Rattle.pc_machine.specs.MachineCode.{code_of};
ghost use Rattle.pc_machine.specs.MachineRun.{machine_start};
ghost use Rattle.pc_machine.specs.WellFormed.{WellFormed};
ghost use Rattle.pc_object.specs.ObjectText.{object_of, IsObject};
ghost use Rattle.pc_profiler.specs.Cost.{cost_text, profile_on, tally_of};
ghost use Rattle.pc_profiler.specs.models.Profiling.{IsProfiled};
ghost use Rattle.pc_stat.specs.Json.{json_text};
ghost use Rattle.pc_stat.specs.Summary.{summary_text};
ghost use Rattle.pc_trace.specs.TraceText.{trace_text};
ghost use Rattle.pc_view.specs.Graph.{tallied_graph_text};
ghost use Rattle.pc_view.specs.Listing.{tallied_listing_text};
ghost use Rattle.pc_view.specs.Tally.{tallied};
ghost use Rattle.pc_word.specs.Ranges.{AreCycles};

use pc_command::{StatCommand, StatMode};
use pc_count::{Profile, run_profile};
use pc_machine::Code;
use pc_object::Object;
use pc_stat::{json_text, summary_text};
use pc_trace::trace_text;
use pc_view::{Tally, tallied_graph_text, tallied_listing_text};
use pc_vm::Machine;
use pc_word::{OutOfMemory, WordList};
use std::alloc::Global;

/// The text that is asked for, of the run of an object on numbers.
pub(crate) fn cost_text(
    alloc: Global,
    command: StatCommand,
    object: Object,
    numbers: WordList,
) -> Result<Vec<u8>, OutOfMemory>
    requires object { IsObject (object_of object) }
    requires cycles { AreCycles command.cycles }
    ensures { IfOk result (λ text. text.items ≡ cost_text (stat_request command.entry) (object_of object) numbers) }
{
    let cycles = command.cycles;
    match command.mode {
        StatMode::Summary => summary(alloc, object, numbers, cycles),
        StatMode::Rows => listing(alloc, object, numbers, cycles),
        StatMode::Dot => graph(alloc, object, numbers, cycles),
        StatMode::Json => json(alloc, object, numbers, cycles),
        StatMode::Trace { cycles: most } => trace(alloc, object.code, numbers, most.min(cycles)),
    }
}

/// The summary of the run of an object on numbers.
fn summary(
    alloc: Global,
    object: Object,
    numbers: WordList,
    cycles: u64,
) -> Result<Vec<u8>, OutOfMemory>
    requires object { IsObject (object_of object) }
    requires cycles { AreCycles cycles }
    ensures { IfOk result (λ text. text.items ≡ summary_text (code_of object.code) (profile_on cycles (object_of object) numbers)) }
{
    let Profiled { object, profile } = run_object(alloc, object, numbers, cycles)?;
    Ok(summary_text(alloc, &object.code, &profile)?)
}

/// The listing of an object, with the counts of its run on numbers.
fn listing(
    alloc: Global,
    object: Object,
    numbers: WordList,
    cycles: u64,
) -> Result<Vec<u8>, OutOfMemory>
    requires object { IsObject (object_of object) }
    requires cycles { AreCycles cycles }
    ensures { IfOk result (λ text. text.items ≡ tallied_listing_text (tally_of (profile_on cycles (object_of object) numbers)) (object_of object)) }
{
    let Profiled { object, profile } = run_object(alloc, object, numbers, cycles)?;
    Ok(tallied_listing_text(alloc, &object, tally_of(&profile))?)
}

/// The graph of an object, with the counts of its run on numbers.
fn graph(
    alloc: Global,
    object: Object,
    numbers: WordList,
    cycles: u64,
) -> Result<Vec<u8>, OutOfMemory>
    requires object { IsObject (object_of object) }
    requires cycles { AreCycles cycles }
    ensures { IfOk result (λ text. text.items ≡ tallied_graph_text (tally_of (profile_on cycles (object_of object) numbers)) (object_of object)) }
{
    let Profiled { object, profile } = run_object(alloc, object, numbers, cycles)?;
    Ok(tallied_graph_text(alloc, &object, tally_of(&profile))?)
}

/// The facts of the run of an object on numbers, as JSON.
fn json(
    alloc: Global,
    object: Object,
    numbers: WordList,
    cycles: u64,
) -> Result<Vec<u8>, OutOfMemory>
    requires object { IsObject (object_of object) }
    requires cycles { AreCycles cycles }
    ensures { IfOk result (λ text. text.items ≡ json_text (code_of object.code) (profile_on cycles (object_of object) numbers)) }
{
    let Profiled { object, profile } = run_object(alloc, object, numbers, cycles)?;
    Ok(json_text(alloc, &object.code, &profile)?)
}

/// What the first cycles of a code's run on numbers did.
fn trace(alloc: Global, code: Code, numbers: WordList, cycles: u64) -> Result<Vec<u8>, OutOfMemory>
    requires { WellFormed (code_of code) }
    ensures { IfOk result (λ text. text.items ≡ trace_text (code_of code) cycles (machine_start (code_of code) numbers)) }
{
    let mut machine = Machine::new(alloc, code, numbers)?;
    Ok(trace_text(alloc, &mut machine, cycles)?)
}

/// Runs an object on numbers for at most so many cycles, which are counted.
fn run_object(
    alloc: Global,
    object: Object,
    numbers: WordList,
    cycles: u64,
) -> Result<Profiled, OutOfMemory>
    requires object { IsObject (object_of object) }
    requires cycles { AreCycles cycles }
    ensures { IfOk result (λ ran. IsProfiled (object_of object) numbers cycles (object_of ran.object) (profile_of ran.profile)) }
{
    let Object { code, notes } = object;
    let mut machine = Machine::new(alloc, code, numbers)?;
    let profile = run_profile(alloc, &mut machine, cycles)?;
    let code = machine.into_code();
    Ok(Profiled {
        object: Object { code, notes },
        profile,
    })
}

/// An object, and the profile of a run of it.
#[derive(Drop)]
struct Profiled {
    object: Object,
    profile: Profile,
}

/// The counts of a profile.
fn tally_of(profile: &Profile) -> Tally<'_>
    ensures { tallied result ≡ tally_of (profile_of profile.now) }
{
    Tally {
        cycles: profile.cycles,
        rows: profile.rows.as_slice(),
        leaves: profile.leaves.as_slice(),
    }
}
