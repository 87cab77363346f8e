//! `--quiet`: whether it isn't shown how far a run is.

ghost use Rattle.std.specs.Prelude.{◌≡◌};
ghost use Rattle.clap.specs.Words.{found_of, rows_of, rule_of};
ghost use Rattle.command_line.specs.Options.Quiet.{quiet_in, quiet_rule};

use crate::arguments::flag;
use crate::values::is_set;
use clap::{Arg, ArgMatches};
use std::alloc::Global;

const NAME: &str = "quiet";

/// The option.
pub(crate) fn arg<'a>(alloc: Global) -> Arg<'a>
    ensures { rule_of result ≡ quiet_rule }
{
    let help = "Shows no progress; without it, a terminal shows some after a second";
    flag(alloc, NAME, help)
}

/// Whether it is given.
pub(crate) fn quiet_in(given: &ArgMatches<'_>) -> bool
    ensures { result ≡ quiet_in (rows_of (found_of given.now)) }
{
    is_set(given, NAME)
}
