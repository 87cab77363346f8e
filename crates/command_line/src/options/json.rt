//! `--json`: whether each answer is an object of JSON on a line.

ghost use Rattle.std.specs.Prelude.{◌≡◌};
ghost use Rattle.clap.specs.Words.{found_of, rows_of, rule_of};
ghost use Rattle.command_line.specs.Options.Json.{json_in, json_rule};

use crate::arguments::flag;
use crate::values::is_set;
use clap::{Arg, ArgMatches};
use std::alloc::Global;

const NAME: &str = "json";

/// The option.
pub(crate) fn arg<'a>(alloc: Global) -> Arg<'a>
    ensures { rule_of result ≡ json_rule }
{
    flag(alloc, NAME, "Answers in JSON, with one object on a line")
}

/// Whether it is given.
pub(crate) fn json_in(given: &ArgMatches<'_>) -> bool
    ensures { result ≡ json_in (rows_of (found_of given.now)) }
{
    is_set(given, NAME)
}
