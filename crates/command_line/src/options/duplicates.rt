//! `--duplicates`: whether several files may give one name.

ghost use Rattle.std.specs.Prelude.{◌≡◌};
ghost use Rattle.clap.specs.Words.{found_of, rows_of, rule_of};
ghost use Rattle.command_line.specs.Options.Duplicates.{duplicates_in, duplicates_of, duplicates_rule};

use crate::arguments::{option, or_default, taking_words};
use crate::options::real::text_by_real;
use clap::{Arg, ArgMatches};
use scip_build::Duplicates;
use std::alloc::Global;

const NAME: &str = "duplicates";

/// Its words.
pub(crate) static WORDS: [&str; 2] = ["refuse", "keep"];

/// The option.
pub(crate) fn arg<'a>(alloc: Global, words: &'a [&'a str]) -> Arg<'a>
    ensures { rule_of result ≡ duplicates_rule words.entry }
{
    let help =
        "What to do with a name that several files declare: refuse them, or keep each for whoever sees it";
    let option = option(alloc, NAME, "WORD", help);
    or_default(taking_words(option, words), "refuse")
}

/// What a word says. `clap` takes no other text than these words.
fn duplicates_in(text: &str) -> Duplicates
    ensures { result ≡ duplicates_in text.now }
{
    match text {
        "keep" => Duplicates::Keep,
        _ => Duplicates::Refuse,
    }
}

/// What is said, or what `--real` says, or the default.
pub(crate) fn duplicates_of(given: &ArgMatches<'_>) -> Duplicates
    ensures { result ≡ duplicates_of (rows_of (found_of given.now)) }
{
    duplicates_in(text_by_real(given, NAME, "keep"))
}
