//! `--details`: whether it is told what declarations are.

ghost use Rattle.std.specs.Prelude.{◌≡◌};
ghost use Rattle.clap.specs.Words.{found_of, rows_of, rule_of};
ghost use Rattle.command_line.specs.Options.Details.{details_in, details_rule};

use crate::arguments::flag;
use crate::options::real::is_real;
use crate::values::is_set;
use clap::{Arg, ArgMatches};
use std::alloc::Global;

const NAME: &str = "details";

/// The option.
pub(crate) fn arg<'a>(alloc: Global) -> Arg<'a>
    ensures { rule_of result ≡ details_rule }
{
    let help =
        "Tells of each symbol its kind, how it is declared and what it is in, and where declarations end";
    flag(alloc, NAME, help)
}

/// Whether it is given, or `--real`.
pub(crate) fn details_in(given: &ArgMatches<'_>) -> bool
    ensures { result ≡ details_in (rows_of (found_of given.now)) }
{
    is_set(given, NAME) || is_real(given)
}
