//! What the words ask of the viewer.
ghost use Rattle.std.specs.Prelude.{◌≡◌, ok_or};
ghost use Rattle.pc_word.specs.Exact.{IsExact};
ghost use Rattle.pc_command.specs.Matching.{matches_in};
ghost use Rattle.pc_command.specs.Laws.{AreViewMatches};
ghost use Rattle.pc_command.specs.Requests.{command_cause, view_command_of, view_request, view_request_in};
ghost use Rattle.pc_command.specs.Words.{spelled};

use crate::CommandError;
use crate::arguments::{flag_in, matches_of, view_app, word_in};
use clap::ArgMatches;
use std::alloc::Global;

/// What the viewer is to do.
#[derive(Clone, Copy, Debug, PartialEq, Eq)]
pub struct ViewCommand<'a> {
    /// The name of the file that holds the object.
    pub object: &'a str,
    /// Whether the object is written as a graph in the language DOT, in place of a listing.
    pub dot: bool,
}

/// Reads the words after the viewer's own name: `OBJ [--dot]`.
pub fn view_command<'a>(alloc: Global, words: &'a [String]) -> Result<ViewCommand<'a>, CommandError>
    ensures { IsExact view_request command_cause result
        (ok_or (view_command_of (spelled words.entry.now)) CommandError.NoCommand) }
{
    let matches = matches_of(view_app(alloc)?, words)?;
    Ok(command_in(&matches))
}

/// What the matches ask.
#[tactic(auto, unfolding(crate::specs::Requests::view_request_in))]
fn command_in<'a>(matches: &ArgMatches<'a>) -> ViewCommand<'a>
    requires { AreViewMatches (matches_in matches.now) }
    ensures { view_request result ≡ view_request_in (matches_in matches.now) }
{
    ViewCommand {
        object: word_in(matches, "OBJ"),
        dot: flag_in(matches, "dot"),
    }
}
