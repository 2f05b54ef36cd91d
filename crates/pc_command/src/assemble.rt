//! What the words ask of the assembler.
ghost use Rattle.std.specs.Prelude.{◌≡◌, ok_or};
ghost use Rattle.pc_word.specs.Exact.{IsExact};
ghost use Rattle.pc_command.specs.Matching.{matches_in};
ghost use Rattle.pc_command.specs.Laws.{AreAssembleMatches};
ghost use Rattle.pc_command.specs.Requests.{assemble_command_of, assemble_request, assemble_request_in, command_cause};
ghost use Rattle.pc_command.specs.Words.{spelled};

use crate::CommandError;
use crate::arguments::{assemble_app, matches_of, word_in};
use clap::ArgMatches;
use std::alloc::Global;

/// What the assembler is to do.
#[derive(Clone, Copy, Debug, PartialEq, Eq)]
pub struct AssembleCommand<'a> {
    /// The name of the file that holds the listing.
    pub text: &'a str,
    /// The name of the file that takes the object.
    pub object: &'a str,
}

/// Reads the words after the assembler's own name: `TEXT -o OBJ`.
pub fn assemble_command<'a>(
    alloc: Global,
    words: &'a [String],
) -> Result<AssembleCommand<'a>, CommandError>
    ensures { IsExact assemble_request command_cause result
        (ok_or (assemble_command_of (spelled words.entry.now)) CommandError.NoCommand) }
{
    let matches = matches_of(assemble_app(alloc)?, words)?;
    Ok(command_in(&matches))
}

/// What the matches ask.
#[tactic(auto, unfolding(crate::specs::Requests::assemble_request_in))]
fn command_in<'a>(matches: &ArgMatches<'a>) -> AssembleCommand<'a>
    requires { AreAssembleMatches (matches_in matches.now) }
    ensures { assemble_request result ≡ assemble_request_in (matches_in matches.now) }
{
    AssembleCommand {
        text: word_in(matches, "TEXT"),
        object: word_in(matches, "OBJ"),
    }
}
