//! What the words ask of the checker.
ghost use Rattle.std.specs.Prelude.{◌≡◌, ok_or, option_map};
ghost use Rattle.pc_word.specs.Exact.{IsExact};
ghost use Rattle.pc_command.specs.Matching.{matches_in};
ghost use Rattle.pc_command.specs.Laws.{AreCheckMatches};
ghost use Rattle.pc_command.specs.Requests.{check_command_of, check_request, check_request_in, command_cause};
ghost use Rattle.pc_command.specs.Words.{spelled};

use crate::arguments::{check_app, flag_in, matches_of, word_in};
use crate::source::source_named;
use crate::{CommandError, SourceName};
use clap::ArgMatches;
use std::alloc::Global;

/// What the checker is to do.
#[derive(Clone, Copy, Debug, PartialEq, Eq)]
pub struct CheckCommand<'a> {
    /// The source.
    pub source: SourceName<'a>,
    /// The name of the file that holds the object.
    pub object: &'a str,
    /// The name of the file that holds the certificate, or takes one that is made.
    pub certificate: &'a str,
    /// Whether a certificate is made.
    pub make: bool,
    /// Whether it is told why a certificate is refused.
    pub why: bool,
}

/// Reads the words after the checker's own name: `SRC OBJ CERT [--make] [--why]`.
///
/// What `clap` takes is taken: the flags may stand anywhere among the words, each at most once, and
/// what follows `--` is no flag. A SRC that begins with `@` is the number of a sample, or the words
/// are no command.
pub fn check_command<'a>(
    alloc: Global,
    words: &'a [String],
) -> Result<CheckCommand<'a>, CommandError>
    ensures { IsExact check_request command_cause result
        (ok_or (check_command_of (spelled words.entry.now)) CommandError.NoCommand) }
{
    let matches = matches_of(check_app(alloc)?, words)?;
    command_in(&matches).ok_or(CommandError::NoCommand)
}

/// What the matches ask, where SRC names a source.
#[tactic(auto, unfolding(crate::specs::Requests::check_request_in))]
fn command_in<'a>(matches: &ArgMatches<'a>) -> Option<CheckCommand<'a>>
    requires { AreCheckMatches (matches_in matches.now) }
    ensures { option_map check_request result ≡ check_request_in (matches_in matches.now) }
{
    let source = source_named(word_in(matches, "SRC"))?;
    Some(CheckCommand {
        source,
        object: word_in(matches, "OBJ"),
        certificate: word_in(matches, "CERT"),
        make: flag_in(matches, "make"),
        why: flag_in(matches, "why"),
    })
}
