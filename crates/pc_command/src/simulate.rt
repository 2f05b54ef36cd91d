//! What the words ask of the simulator.
ghost use Rattle.std.specs.Prelude.{◌≡◌, IfOk, ok_or};
ghost use Rattle.pc_word.specs.Exact.{IsExact};
ghost use Rattle.pc_word.specs.Ranges.{AreCycles};
ghost use Rattle.pc_command.specs.Matching.{matches_in};
ghost use Rattle.pc_command.specs.Laws.{AreSimulateMatches};
ghost use Rattle.pc_command.specs.Requests.{command_cause, simulate_command_of, simulate_request, simulate_request_in};
ghost use Rattle.pc_command.specs.Words.{spelled};

use crate::CommandError;
use crate::arguments::{matches_of, simulate_app, word_in};
use crate::number_option::OptionLine;
use clap::ArgMatches;
use std::alloc::Global;

/// What the simulator is to do.
#[derive(Clone, Copy, Debug, PartialEq, Eq)]
pub struct SimulateCommand<'a> {
    /// The name of the file that holds the object.
    pub object: &'a str,
    /// How many cycles the run may take.
    pub cycles: u64,
}

/// Reads the words after the simulator's own name: `OBJ [--cycles N]`.
///
/// What `clap` takes is taken: `--cycles=5`, `+8` and leading zeros too.
pub fn simulate_command<'a>(
    alloc: Global,
    words: &'a [String],
) -> Result<SimulateCommand<'a>, CommandError>
    ensures exact { IsExact simulate_request command_cause result
        (ok_or (simulate_command_of (spelled words.entry.now)) CommandError.NoCommand) }
    ensures cycles { IfOk result (λ command. AreCycles command.cycles) }
{
    let matches = matches_of(simulate_app(alloc)?, words)?;
    Ok(command_in(&matches))
}

/// What the matches ask.
#[tactic(auto, unfolding(crate::specs::Requests::simulate_request_in))]
fn command_in<'a>(matches: &ArgMatches<'a>) -> SimulateCommand<'a>
    requires { AreSimulateMatches (matches_in matches.now) }
    ensures { simulate_request result ≡ simulate_request_in (matches_in matches.now) }
{
    SimulateCommand {
        object: word_in(matches, "OBJ"),
        cycles: OptionLine::cycles().number_in(matches),
    }
}
