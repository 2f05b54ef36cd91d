//! The limits and the extent with which a schedule is looked for, as words give them.
ghost use Rattle.std.specs.Prelude.{◌≡◌};
ghost use Rattle.pc_word.specs.Ranges.{IsExtent, AreLimits};
ghost use Rattle.pc_command.specs.Matching.{matches_in};
ghost use Rattle.pc_command.specs.Laws.{AreScheduleMatches};
ghost use Rattle.pc_command.specs.Requests.{extent_in, limits_in};

use crate::number_option::OptionLine;
use clap::ArgMatches;
use pc_word::{Extent, Limits};

/// The limits of a row that the matches ask for.
pub(crate) fn limits_in(matches: &ArgMatches<'_>) -> Limits
    requires { AreScheduleMatches (matches_in matches.now) }
    ensures value { result ≡ limits_in (matches_in matches.now) }
    ensures range { AreLimits result }
{
    Limits {
        ops: OptionLine::ops().number_in(matches) as u8,
        tests: OptionLine::tests().number_in(matches) as u8,
        mem: OptionLine::mem().number_in(matches) as u8,
    }
}

/// The extent of a window and of its schedule that the matches ask for.
pub(crate) fn extent_in(matches: &ArgMatches<'_>) -> Extent
    requires { AreScheduleMatches (matches_in matches.now) }
    ensures value { result ≡ extent_in (matches_in matches.now) }
    ensures range { IsExtent result }
{
    Extent {
        window: OptionLine::window().number_in(matches) as u8,
        rows: OptionLine::rows().number_in(matches) as u16,
    }
}
