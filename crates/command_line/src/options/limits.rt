//! `--max-skipped` and `--min-sources`: the limits that an index has to keep.

ghost use Rattle.std.specs.Prelude.{◌≡◌};
ghost use Rattle.clap.specs.Words.{found_of, rows_of, rule_of};
ghost use Rattle.command_line.specs.Options.Limits.{
  in_limit,
  limit_of,
  limits_of,
  max_skipped_rule,
  min_sources_rule,
  taking_limit,
};

use crate::arguments::option;
use clap::{Arg, ArgMatches, value_parser};
use std::alloc::Global;

const MAX_SKIPPED: &str = "max-skipped";

const MIN_SOURCES: &str = "min-sources";

/// The limits that `index` is given: if its index breaks one, the file that it would go to stays as it was.
#[derive(Clone, Copy, Debug, PartialEq, Eq)]
pub struct Limits {
    /// How many files may be left out, 0 to 4294967295; any number if it isn't given.
    pub max_skipped: Option<usize>,
    /// How many sources have to be indexed, 0 to 4294967295; any number if it isn't given.
    pub min_sources: Option<usize>,
}

/// The option, with a number from 0 to the greatest of 32 bits for its value.
fn taking_limit<'a>(option: Arg<'a>) -> Arg<'a>
    ensures { rule_of result ≡ taking_limit (rule_of option.entry) }
{
    option.value_parser(value_parser!(usize).range(0..=u32::MAX as i64))
}

/// The option on how many files may be left out.
pub(crate) fn max_skipped<'a>(alloc: Global) -> Arg<'a>
    ensures { rule_of result ≡ max_skipped_rule }
{
    let help =
        "If --faulty skip leaves out more files than this, OUT stays as it was and the status is 1";
    taking_limit(option(alloc, MAX_SKIPPED, "N", help))
}

/// The option on how many sources have to be indexed.
pub(crate) fn min_sources<'a>(alloc: Global) -> Arg<'a>
    ensures { rule_of result ≡ min_sources_rule }
{
    let help = "If fewer sources than this are indexed, OUT stays as it was and the status is 1";
    taking_limit(option(alloc, MIN_SOURCES, "N", help))
}

/// A number of at most 32 bits, if there is one.
fn in_limit(number: Option<usize>) -> Option<usize>
    ensures { result ≡ in_limit number }
{
    match number {
        Some(number) if number <= u32::MAX as usize => Some(number),
        _ => None,
    }
}

/// The number of a limit, if it is given. `clap` takes no greater number than that of 32 bits.
fn limit_of(given: &ArgMatches<'_>, id: &str) -> Option<usize>
    ensures { result ≡ limit_of id.now (rows_of (found_of given.now)) }
{
    in_limit(given.get_one::<usize>(id))
}

/// The limits that are given.
pub(crate) fn limits_of(given: &ArgMatches<'_>) -> Limits
    ensures { result ≡ limits_of (rows_of (found_of given.now)) }
{
    Limits {
        max_skipped: limit_of(given, MAX_SKIPPED),
        min_sources: limit_of(given, MIN_SOURCES),
    }
}
