//! What the words ask of the compiler.
ghost use Rattle.std.specs.Prelude.{◌≡◌, IfOk, IfSome, ok_or, option_map};
ghost use Rattle.pc_word.specs.Exact.{IsExact};
ghost use Rattle.pc_word.specs.Ranges.{IsExtent, AreLimits};
ghost use Rattle.pc_command.specs.Matching.{matches_in};
ghost use Rattle.pc_command.specs.Laws.{AreCompileMatches};
ghost use Rattle.pc_command.specs.Requests.{command_cause, compile_command_of, compile_request, compile_request_in};
ghost use Rattle.pc_command.specs.Words.{spelled};

use crate::arguments::{compile_app, flag_in, matches_of, word_in};
use crate::schedule::{extent_in, limits_in};
use crate::source::source_named;
use crate::{CommandError, SourceName};
use clap::ArgMatches;
use pc_word::{Extent, Limits};
use std::alloc::Global;

/// What the compiler is to do.
#[derive(Clone, Copy, Debug, PartialEq, Eq)]
pub struct CompileCommand<'a> {
    /// The source that is compiled.
    pub source: SourceName<'a>,
    /// The name of the file that takes the object.
    pub object: &'a str,
    pub limits: Limits,
    pub extent: Extent,
    /// Whether the report goes to the output.
    pub report: bool,
}

/// Reads the words after the compiler's own name:
/// `SRC -o OBJ [--ops N] [--tests N] [--mem N] [--window N] [--rows N] [--report]`.
///
/// What `clap` takes is taken: `--ops=5`, `-oOBJ`, `+8` and leading zeros too. A SRC that begins with
/// `@` is the number of a sample, or the words are no command.
pub fn compile_command<'a>(
    alloc: Global,
    words: &'a [String],
) -> Result<CompileCommand<'a>, CommandError>
    ensures exact { IsExact compile_request command_cause result
        (ok_or (compile_command_of (spelled words.entry.now)) CommandError.NoCommand) }
    ensures limits { IfOk result (λ command. AreLimits command.limits) }
    ensures extent { IfOk result (λ command. IsExtent command.extent) }
{
    let matches = matches_of(compile_app(alloc)?, words)?;
    command_in(&matches).ok_or(CommandError::NoCommand)
}

/// What the matches ask, where SRC names a source.
#[tactic(auto, unfolding(crate::specs::Requests::compile_request_in))]
fn command_in<'a>(matches: &ArgMatches<'a>) -> Option<CompileCommand<'a>>
    requires { AreCompileMatches (matches_in matches.now) }
    ensures value { option_map compile_request result ≡ compile_request_in (matches_in matches.now) }
    ensures limits { IfSome result (λ command. AreLimits command.limits) }
    ensures extent { IfSome result (λ command. IsExtent command.extent) }
{
    let source = source_named(word_in(matches, "SRC"))?;
    Some(CompileCommand {
        source,
        object: word_in(matches, "OBJ"),
        limits: limits_in(matches),
        extent: extent_in(matches),
        report: flag_in(matches, "report"),
    })
}
