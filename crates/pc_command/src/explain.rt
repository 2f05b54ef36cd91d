//! What the words ask of the explainer.
ghost use Rattle.std.specs.Prelude.{◌≡◌, IfOk, IfSome, ok_or, option_map};
ghost use Rattle.pc_word.specs.Exact.{IsExact};
ghost use Rattle.pc_word.specs.Ranges.{IsExtent, AreLimits};
ghost use Rattle.pc_command.specs.Matching.{matches_in};
ghost use Rattle.pc_command.specs.Laws.{AreExplainMatches};
ghost use Rattle.pc_command.specs.Options.{loop_option, number_found};
ghost use Rattle.pc_command.specs.Requests.{command_cause, explain_command_of, explain_mode_in, explain_mode_of, explain_request, explain_request_in};
ghost use Rattle.pc_command.specs.Words.{spelled};

use crate::arguments::{explain_app, flag_in, matches_of, word_in};
use crate::number_option::OptionLine;
use crate::schedule::{extent_in, limits_in};
use crate::source::source_named;
use crate::{CommandError, SourceName};
use clap::ArgMatches;
use pc_word::{Extent, Limits};
use std::alloc::Global;

/// The text in which the explainer tells what the compiler found.
#[derive(Clone, Copy, Debug, PartialEq, Eq)]
pub enum ExplainMode {
    /// The loops and their schedules, in lines.
    Text,
    /// The automaton of each loop as a graph in the language DOT, with colours for iterations.
    Dot,
    /// What the lines tell, as JSON.
    Json,
}

/// What the explainer is to do.
#[derive(Clone, Copy, Debug, PartialEq, Eq)]
pub struct ExplainCommand<'a> {
    /// The source whose innermost loops are explained.
    pub source: SourceName<'a>,
    pub limits: Limits,
    pub extent: Extent,
    /// The line of the loops that are explained, all where it is none.
    pub line: Option<u32>,
    /// The text that is asked for.
    pub mode: ExplainMode,
}

/// Reads the words after the explainer's own name:
/// `SRC [--ops N] [--tests N] [--mem N] [--window N] [--rows N] [--loop LINE] [--dot | --json]`.
///
/// What `clap` takes is taken: `--ops=5`, `+8` and leading zeros too. A SRC that begins with `@` is
/// the number of a sample, or the words are no command, nor are words that ask for two texts.
pub fn explain_command<'a>(
    alloc: Global,
    words: &'a [String],
) -> Result<ExplainCommand<'a>, CommandError>
    ensures exact { IsExact explain_request command_cause result
        (ok_or (explain_command_of (spelled words.entry.now)) CommandError.NoCommand) }
    ensures limits { IfOk result (λ command. AreLimits command.limits) }
    ensures extent { IfOk result (λ command. IsExtent command.extent) }
{
    let matches = matches_of(explain_app(alloc)?, words)?;
    command_in(&matches).ok_or(CommandError::NoCommand)
}

/// What the matches ask, where they ask for one text and SRC names a source.
#[tactic(auto, unfolding(crate::specs::Requests::explain_request_in))]
fn command_in<'a>(matches: &ArgMatches<'a>) -> Option<ExplainCommand<'a>>
    requires { AreExplainMatches (matches_in matches.now) }
    ensures value { option_map explain_request result ≡ explain_request_in (matches_in matches.now) }
    ensures limits { IfSome result (λ command. AreLimits command.limits) }
    ensures extent { IfSome result (λ command. IsExtent command.extent) }
{
    let mode = mode_in(matches)?;
    let source = source_named(word_in(matches, "SRC"))?;
    Some(ExplainCommand {
        source,
        limits: limits_in(matches),
        extent: extent_in(matches),
        line: line_in(matches),
        mode,
    })
}

/// The line of the loops that the matches ask for, if they name one.
fn line_in(matches: &ArgMatches<'_>) -> Option<u32>
    requires { AreExplainMatches (matches_in matches.now) }
    ensures { result ≡ number_found loop_option (matches_in matches.now) }
{
    let line = OptionLine::source_line().number_found(matches)?;
    Some(line as u32)
}

/// The text that the matches ask for, if it is one.
fn mode_in(matches: &ArgMatches<'_>) -> Option<ExplainMode>
    requires { AreExplainMatches (matches_in matches.now) }
    ensures { result ≡ explain_mode_in (matches_in matches.now) }
{
    mode_of(flag_in(matches, "dot"), flag_in(matches, "json"))
}

/// The text that these words ask for, if it is one.
fn mode_of(dot: bool, json: bool) -> Option<ExplainMode>
    ensures { result ≡ explain_mode_of dot json }
{
    match (dot, json) {
        (false, false) => Some(ExplainMode::Text),
        (true, false) => Some(ExplainMode::Dot),
        (false, true) => Some(ExplainMode::Json),
        (true, true) => None,
    }
}
