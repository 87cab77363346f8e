//! `--more`: whether more commands are known.

ghost use Rattle.std.specs.Prelude.{◌≡◌};
ghost use Rattle.clap.specs.Words.{found_of, rows_of, rule_of};
ghost use Rattle.command_line.specs.Options.More.{more_in, more_rule};

use crate::arguments::flag;
use crate::values::is_set;
use clap::{Arg, ArgMatches};
use std::alloc::Global;

const NAME: &str = "more";

/// The option.
pub(crate) fn arg<'a>(alloc: Global) -> Arg<'a>
    ensures { rule_of result ≡ more_rule }
{
    let help = "Knows more commands, as on a terminal; the command help lists them";
    flag(alloc, NAME, help)
}

/// Whether it is given.
pub(crate) fn more_in(given: &ArgMatches<'_>) -> bool
    ensures { result ≡ more_in (rows_of (found_of given.now)) }
{
    is_set(given, NAME)
}
