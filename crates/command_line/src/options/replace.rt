//! `--replace`: whether a document takes the place of an earlier one.

ghost use Rattle.std.specs.Prelude.{◌≡◌};
ghost use Rattle.clap.specs.Words.{found_of, rows_of, rule_of};
ghost use Rattle.command_line.specs.Options.Replace.{replace_rule, replaces_in};

use crate::arguments::flag;
use crate::values::is_set;
use clap::{Arg, ArgMatches};
use std::alloc::Global;

const NAME: &str = "replace";

/// The option.
pub(crate) fn arg<'a>(alloc: Global) -> Arg<'a>
    ensures { rule_of result ≡ replace_rule }
{
    let help = "Takes the later of two documents with one path; without it, they are refused";
    flag(alloc, NAME, help)
}

/// Whether it is given.
pub(crate) fn replaces_in(given: &ArgMatches<'_>) -> bool
    ensures { result ≡ replaces_in (rows_of (found_of given.now)) }
{
    is_set(given, NAME)
}
