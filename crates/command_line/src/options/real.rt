//! `--real`: one word for a tree as it lies.

ghost use Rattle.std.specs.Prelude.{◌≡◌};
ghost use Rattle.std.specs.Option.{option_map};
ghost use Rattle.clap.specs.Words.{found_of, rows_of, rule_of};
ghost use Rattle.command_line.specs.Options.Real.{
  first_by_real,
  is_of_words,
  is_real,
  is_typed,
  real_rule,
  text_by_real,
};

use crate::arguments::flag;
use crate::values::{first_of, is_set};
use clap::parser::ValueSource;
use clap::{Arg, ArgMatches};
use std::alloc::Global;

const NAME: &str = "real";

/// The option.
pub(crate) fn arg<'a>(alloc: Global) -> Arg<'a>
    ensures { rule_of result ≡ real_rule }
{
    let help =
        "Unless given: --accept all --options link --faulty skip --duplicates keep --well-known --doc both \
        --comments clean --details";
    flag(alloc, NAME, help)
}

/// Whether it is given.
pub(crate) fn is_real(given: &ArgMatches<'_>) -> bool
    ensures { result ≡ is_real (rows_of (found_of given.now)) }
{
    is_set(given, NAME)
}

/// Whether these are the words of the command line, and no default.
fn is_of_words(source: Option<ValueSource>) -> bool
    ensures { result ≡ is_of_words source }
{
    match source {
        Some(ValueSource::CommandLine) => true,
        Some(ValueSource::DefaultValue) => false,
        None => false,
    }
}

/// Whether an option is given in the words.
fn is_typed(given: &ArgMatches<'_>, id: &str) -> bool
    ensures { result ≡ is_typed id.now (rows_of (found_of given.now)) }
{
    is_of_words(given.value_source(id))
}

/// The text of an option: with `--real`, if it isn't given as well, this word.
pub(crate) fn first_by_real<'a>(given: &ArgMatches<'a>, id: &str, word: &'a str) -> Option<&'a str>
    ensures { option_map (λ s. s.now) result ≡ first_by_real id.now word.now (rows_of (found_of given.now)) }
{
    if is_real(given) && !is_typed(given, id) {
        Some(word)
    } else {
        first_of(given, id)
    }
}

/// The same; the empty text, if there is none.
pub(crate) fn text_by_real<'a>(given: &ArgMatches<'a>, id: &str, word: &'a str) -> &'a str
    ensures { result.now ≡ text_by_real id.now word.now (rows_of (found_of given.now)) }
{
    first_by_real(given, id, word).unwrap_or("")
}
