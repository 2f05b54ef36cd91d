//! What follows from the checker's promise. No function here does anything: its contract is a law.
ghost use Rattle.std.specs.Prelude.{List};
ghost use Rattle.pc_pass.specs.Pass.{Chain};
ghost use Rattle.pc_checker.specs.Laws.{AcceptedObjectsMeanTheirSources, CheckerPromisesSay, HandedRegionsMeanTheirSource};

use pc_pass::Pass;

/// What the checker's promise says for each status: of a source, an object and a certificate it is said whether the
/// certificate is accepted, and other files are refused. The regions that are handed out do what the source means, and
/// where it ends with 0, the object does too, for every input.
pub fn laws_of_the_checker<P: Pass>()
    ensures statuses { (before after : List P) → CheckerPromisesSay (Chain P.does P.changed before after) }
    ensures regions { (before after : List P) → HandedRegionsMeanTheirSource (Chain P.does P.changed before after) }
    ensures meaning { (before after : List P) → AcceptedObjectsMeanTheirSources (Chain P.does P.changed before after) }
{}
