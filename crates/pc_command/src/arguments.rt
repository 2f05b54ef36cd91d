//! The arguments of the programs, as `clap` takes them.
ghost use Rattle.std.specs.Prelude.{◌≡◌, true, false, IfOk, IfErr, ok_or};
ghost use Rattle.std.specs.Option.{IsSome};
ghost use Rattle.clap.specs.Walk.{first_of, rule_of};
ghost use Rattle.clap.specs.Simple.{app_of};
ghost use Rattle.clap.specs.Faults.{is_simple_and_free};
ghost use Rattle.clap.specs.Values.{kind_of};
ghost use Rattle.clap.specs.declared.error.kind.ErrorKind.TheVariants.{OutOfMemory};
ghost use Rattle.pc_word.specs.Exact.{IsExact};
ghost use Rattle.pc_command.specs.Matching.{matches_in};
ghost use Rattle.pc_command.specs.Arguments.{assemble_app, check_app, compile_app, explain_app, flag_argument, flag_found, flag_in, letter_argument, matches_taken, simulate_app, stat_app, view_app, word_argument, word_in};
ghost use Rattle.pc_command.specs.Requests.{command_cause};
ghost use Rattle.pc_command.specs.Words.{spelled};

use crate::CommandError;
use crate::number_option::OptionLine;
use clap::{Arg, ArgAction, ArgMatches, Command};
use std::alloc::Global;

/// `NAME`: a word at its place, which may not be left out.
fn word_argument<'a>(alloc: Global, name: &'a str) -> Arg<'a>
    ensures rule { rule_of result ≡ word_argument name.entry.now }
    ensures local { result.global ≡ false }
{
    Arg::new(alloc, name).action(ArgAction::Set).required(true)
}

/// `-LETTER NAME`: a letter and a word, which may not be left out.
fn letter_argument<'a>(alloc: Global, letter: char, name: &'a str) -> Arg<'a>
    ensures rule { rule_of result ≡ letter_argument letter name.entry.now }
    ensures local { result.global ≡ false }
{
    word_argument(alloc, name).short(letter)
}

/// `[--NAME]`: a flag, which is off where it is left out.
fn flag_argument<'a>(alloc: Global, name: &'a str) -> Arg<'a>
    ensures rule { rule_of result ≡ flag_argument name.entry.now }
    ensures local { result.global ≡ false }
{
    Arg::new(alloc, name).long(name).action(ArgAction::SetTrue)
}

/// `pcc SRC -o OBJ [--ops N] [--tests N] [--mem N] [--window N] [--rows N] [--report]`.
pub(crate) fn compile_app<'a>(alloc: Global) -> Result<Command<'a>, clap::Error>
    ensures app { IfOk result (λ command. app_of command ≡ compile_app) }
    ensures memory { IfErr result (λ error. kind_of error ≡ OutOfMemory) }
{
    let command = Command::new(alloc, "pcc")
        .no_binary_name(true)
        .arg(word_argument(alloc, "SRC"))?
        .arg(letter_argument(alloc, 'o', "OBJ"))?
        .arg(OptionLine::ops().argument(alloc))?
        .arg(OptionLine::tests().argument(alloc))?
        .arg(OptionLine::mem().argument(alloc))?
        .arg(OptionLine::window().argument(alloc))?
        .arg(OptionLine::rows().argument(alloc))?
        .arg(flag_argument(alloc, "report"))?;
    Ok(command)
}

/// `pexplain SRC [--ops N] [--tests N] [--mem N] [--window N] [--rows N] [--loop LINE] [--dot] [--json]`.
pub(crate) fn explain_app<'a>(alloc: Global) -> Result<Command<'a>, clap::Error>
    ensures app { IfOk result (λ command. app_of command ≡ explain_app) }
    ensures memory { IfErr result (λ error. kind_of error ≡ OutOfMemory) }
{
    let command = Command::new(alloc, "pexplain")
        .no_binary_name(true)
        .arg(word_argument(alloc, "SRC"))?
        .arg(OptionLine::ops().argument(alloc))?
        .arg(OptionLine::tests().argument(alloc))?
        .arg(OptionLine::mem().argument(alloc))?
        .arg(OptionLine::window().argument(alloc))?
        .arg(OptionLine::rows().argument(alloc))?
        .arg(OptionLine::source_line().optional_argument(alloc))?
        .arg(flag_argument(alloc, "dot"))?
        .arg(flag_argument(alloc, "json"))?;
    Ok(command)
}

/// `pasm TEXT -o OBJ`.
pub(crate) fn assemble_app<'a>(alloc: Global) -> Result<Command<'a>, clap::Error>
    ensures app { IfOk result (λ command. app_of command ≡ assemble_app) }
    ensures memory { IfErr result (λ error. kind_of error ≡ OutOfMemory) }
{
    let command = Command::new(alloc, "pasm")
        .no_binary_name(true)
        .arg(word_argument(alloc, "TEXT"))?
        .arg(letter_argument(alloc, 'o', "OBJ"))?;
    Ok(command)
}

/// `pcheck SRC OBJ CERT [--make] [--why]`.
pub(crate) fn check_app<'a>(alloc: Global) -> Result<Command<'a>, clap::Error>
    ensures app { IfOk result (λ command. app_of command ≡ check_app) }
    ensures memory { IfErr result (λ error. kind_of error ≡ OutOfMemory) }
{
    let command = Command::new(alloc, "pcheck")
        .no_binary_name(true)
        .arg(word_argument(alloc, "SRC"))?
        .arg(word_argument(alloc, "OBJ"))?
        .arg(word_argument(alloc, "CERT"))?
        .arg(flag_argument(alloc, "make"))?
        .arg(flag_argument(alloc, "why"))?;
    Ok(command)
}

/// `pvm OBJ [--cycles N]`.
pub(crate) fn simulate_app<'a>(alloc: Global) -> Result<Command<'a>, clap::Error>
    ensures app { IfOk result (λ command. app_of command ≡ simulate_app) }
    ensures memory { IfErr result (λ error. kind_of error ≡ OutOfMemory) }
{
    let command = Command::new(alloc, "pvm")
        .no_binary_name(true)
        .arg(word_argument(alloc, "OBJ"))?
        .arg(OptionLine::cycles().argument(alloc))?;
    Ok(command)
}

/// `pview OBJ [--dot]`.
pub(crate) fn view_app<'a>(alloc: Global) -> Result<Command<'a>, clap::Error>
    ensures app { IfOk result (λ command. app_of command ≡ view_app) }
    ensures memory { IfErr result (λ error. kind_of error ≡ OutOfMemory) }
{
    let command = Command::new(alloc, "pview")
        .no_binary_name(true)
        .arg(word_argument(alloc, "OBJ"))?
        .arg(flag_argument(alloc, "dot"))?;
    Ok(command)
}

/// `pstat OBJ [--cycles N] [--rows] [--trace N] [--dot] [--json]`.
pub(crate) fn stat_app<'a>(alloc: Global) -> Result<Command<'a>, clap::Error>
    ensures app { IfOk result (λ command. app_of command ≡ stat_app) }
    ensures memory { IfErr result (λ error. kind_of error ≡ OutOfMemory) }
{
    let command = Command::new(alloc, "pstat")
        .no_binary_name(true)
        .arg(word_argument(alloc, "OBJ"))?
        .arg(OptionLine::cycles().argument(alloc))?
        .arg(flag_argument(alloc, "rows"))?
        .arg(OptionLine::trace().optional_argument(alloc))?
        .arg(flag_argument(alloc, "dot"))?
        .arg(flag_argument(alloc, "json"))?;
    Ok(command)
}

/// The matches that `clap` gives of the words.
pub(crate) fn matches_of<'a>(
    command: Command<'a>,
    words: &'a [String],
) -> Result<ArgMatches<'a>, CommandError>
    requires { is_simple_and_free (app_of command) ≡ true }
    ensures { IsExact (λ matches. matches_in matches) command_cause result
        (ok_or (matches_taken (app_of command.entry) (spelled words.entry.now)) CommandError.NoCommand) }
{
    Ok(command.try_get_matches_from(words)?)
}

/// The word that an argument has in the matches.
pub(crate) fn word_in<'a>(matches: &ArgMatches<'a>, name: &str) -> &'a str
    requires { IsSome (first_of name.now (matches_in matches.now)) }
    ensures { result.now ≡ word_in name.now (matches_in matches.now) }
{
    matches.get_str(name).unwrap()
}

/// Whether a flag is on.
pub(crate) fn flag_in(matches: &ArgMatches<'_>, name: &str) -> bool
    requires { IsSome (flag_found name.now (matches_in matches.now)) }
    ensures { result ≡ flag_in name.now (matches_in matches.now) }
{
    matches.get_flag(name)
}
