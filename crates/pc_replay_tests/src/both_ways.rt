//! Windows of sources, plain and shared, after the same steps: one key after each.
ghost use Rattle.std.specs.Prelude.{◌≡◌, ◌<◌, length, IfOk};
ghost use Rattle.pc_word.specs.Ranges.{AreLimits};
ghost use Rattle.pc_window.specs.Steps.{IsProper};
ghost use Rattle.pc_window.specs.StoredWindow.{window_in};
ghost use Rattle.pc_shared.specs.SharedWindows.{shared_window};

use crate::comparing::key_of;
use crate::copying::copied;
use crate::programs::{SAMPLES, regions_of, wide};
use crate::sources::{EXAMPLES, PROGRAMS};
use crate::steps::{Step, leads_on};
use pc_canon::WindowKey;
use pc_replay::ReplayError;
use pc_sample::sample;
use pc_shared::SharedWindow;
use pc_table::RegionTable;
use pc_window::Window;
use pc_word::Limits;
use std::alloc::Global;
use std::test::Fail;

/// Both sides of the test begin with one product.
const TWINS: &[u8] = b"int main(void){int c=read();int d=read();int x;\
    while(c){if(d){x=c*3;print(x);}else{x=c*3;print(x+1);}c=c-1;}}";

/// The steps of a search, three times, with single moves before the first filling and after the last.
const STEPS: [Step; 17] = [
    Step::Unwind,
    Step::Tidy,
    Step::MoveTest,
    Step::Unify,
    Step::MoveItem,
    Step::Tidy,
    Step::Fill,
    Step::Cut,
    Step::Rebase,
    Step::Unwind,
    Step::Tidy,
    Step::Fill,
    Step::Cut,
    Step::Rebase,
    Step::Unwind,
    Step::Tidy,
    Step::MoveItem,
];

/// Windows that went through steps both ways.
#[derive(Clone, Copy)]
struct BothWays {
    /// By each step so many of them came to have another key.
    changed: [u32; 8],
    /// After so many steps something was kept once that stands at several places.
    shared: u32,
    /// Plain and shared windows had one key after each step, and no more nodes were kept than there are
    /// places.
    alike: bool,
}

/// A window, and a shared one after the same steps.
#[derive(Drop)]
struct Pair {
    plain: Window,
    shared: SharedWindow,
}

/// No windows so far.
const NONE_TAKEN: BothWays = BothWays {
    changed: [0; 8],
    shared: 0,
    alike: true,
};

/// A shared window after a step of its plain window.
fn taken(
    alloc: Global,
    table: &RegionTable,
    step: Step,
    shared: &SharedWindow,
) -> Result<SharedWindow, ReplayError>
    requires { IsProper (shared_window shared.now) }
    ensures { IfOk result (λ later. IsProper (shared_window later)) }
{
    let answer = shared.step(alloc, |window| step.take(alloc, table, window))?;
    answer
}

impl BothWays {
    /// One more window, of which a step made another key.
    fn count_changed(&mut self, step: Step) {
        if let Some(count) = self.changed.get_mut(step as usize) {
            *count = count.saturating_add(1);
        }
    }

    /// One more shared window: whether some of its nodes stand at several places, and whether it has
    /// one key with the plain one.
    fn count_shared(&mut self, shared: &SharedWindow, alike: bool) {
        let kept = shared.kept();
        let places = shared.places() as usize;
        if kept < places {
            self.shared = self.shared.saturating_add(1);
        }
        if kept > places || !alike {
            self.alike = false;
        }
    }
}

/// Counts two windows after a step of one with this key.
fn compare_pair(
    alloc: Global,
    step: Step,
    before: &WindowKey,
    pair: &Pair,
    all: &mut BothWays,
) -> Result<(), ReplayError>
    requires plain { IsProper (window_in pair.now.plain) }
    requires shared { IsProper (shared_window pair.now.shared) }
{
    let other = pair.shared.to_window(alloc)?;
    let one = key_of(alloc, &pair.plain)?;
    let other = key_of(alloc, &other)?;
    if before.bytes.as_slice() != one.bytes.as_slice() {
        all.count_changed(step);
    }
    all.count_shared(&pair.shared, one.bytes.as_slice() == other.bytes.as_slice());
    Ok(())
}

/// Both after a step.
fn next_pair(
    alloc: Global,
    table: &RegionTable,
    step: Step,
    pair: Pair,
) -> Result<Pair, ReplayError>
    requires plain { IsProper (window_in pair.plain) }
    requires shared { IsProper (shared_window pair.shared) }
    ensures plain { IfOk result (λ later. IsProper (window_in later.plain)) }
    ensures shared { IfOk result (λ later. IsProper (shared_window later.shared)) }
{
    let Pair { plain, shared } = pair;
    let shared = taken(alloc, table, step, &shared)?;
    let plain = step.take(alloc, table, plain)?;
    Ok(Pair { plain, shared })
}

/// Both after a step, compared.
fn compared_pair(
    alloc: Global,
    table: &RegionTable,
    step: Step,
    pair: Pair,
    all: &mut BothWays,
) -> Result<Pair, ReplayError>
    requires plain { IsProper (window_in pair.plain) }
    requires shared { IsProper (shared_window pair.shared) }
    ensures plain { IfOk result (λ later. IsProper (window_in later.plain)) }
    ensures shared { IfOk result (λ later. IsProper (shared_window later.shared)) }
{
    let before = key_of(alloc, &pair.plain)?;
    let later = next_pair(alloc, table, step, pair)?;
    compare_pair(alloc, step, &before, &later, all)?;
    Ok(later)
}

/// A window, and a copy of it that is shared.
fn first_pair(alloc: Global, window: Window) -> Result<Pair, ReplayError>
    requires { IsProper (window_in window) }
    ensures plain { IfOk result (λ pair. IsProper (window_in pair.plain)) }
    ensures shared { IfOk result (λ pair. IsProper (shared_window pair.shared)) }
{
    let same = copied(alloc, &window)?;
    let shared = SharedWindow::of_window(alloc, same)?;
    Ok(Pair {
        plain: window,
        shared,
    })
}

/// Takes steps of a window both ways.
fn take_both_ways(
    alloc: Global,
    table: &RegionTable,
    window: Window,
    all: &mut BothWays,
) -> Result<(), ReplayError>
    requires { IsProper (window_in window) }
{
    let mut pair = first_pair(alloc, window)?;
    for step in &STEPS {
        if *step == Step::Cut && !leads_on(&pair.plain.tree) {
            return Ok(());
        }
        pair = compared_pair(alloc, table, *step, pair, all)?;
    }
    Ok(())
}

/// The same of the window of each region of a source.
fn take_of_source(
    alloc: Global,
    text: &[u8],
    limits: Limits,
    all: &mut BothWays,
) -> Result<(), Fail>
    requires { AreLimits limits }
{
    let table = regions_of(alloc, text)?;
    for region in 0..table.regions.len() {
        let window = Window::of_region(alloc, &table, region as u32, limits)?;
        take_both_ways(alloc, &table, window, all)?;
    }
    Ok(())
}

/// The same of sources.
fn take_of_sources(
    alloc: Global,
    sources: &[&[u8]],
    limits: Limits,
    all: &mut BothWays,
) -> Result<(), Fail>
    requires { AreLimits limits }
{
    for text in sources {
        take_of_source(alloc, text, limits, all)?;
    }
    Ok(())
}

/// The same of the first samples.
fn take_of_samples(alloc: Global, limits: Limits, all: &mut BothWays) -> Result<(), Fail>
    requires { AreLimits limits }
{
    for number in 0..SAMPLES {
        let text = sample(alloc, number)?;
        take_of_source(alloc, text.as_slice(), limits, all)?;
    }
    Ok(())
}

/// Whether steps of all sources and samples went alike both ways, each step changed a window, and some
/// nodes were shared.
fn go_alike(alloc: Global, limits: Limits) -> Result<bool, Fail>
    requires { AreLimits limits }
{
    let mut all = NONE_TAKEN;
    take_of_sources(alloc, &[TWINS], limits, &mut all)?;
    take_of_sources(alloc, &EXAMPLES, limits, &mut all)?;
    take_of_sources(alloc, &PROGRAMS, limits, &mut all)?;
    take_of_samples(alloc, limits, &mut all)?;
    let each = all.changed.iter().all(|count| *count > 0);
    Ok(all.alike && each && all.shared > 0)
}

#[test]
fn plain_and_shared_windows_have_one_key(rt: HostRuntime) -> Result<(), Fail> {
    assert!(rt; go_alike(rt.alloc(), wide())?);
    Ok(())
}
