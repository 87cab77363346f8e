//! `--custom-options`: what is done with custom options.

ghost use Rattle.std.specs.Prelude.{◌≡◌};
ghost use Rattle.clap.specs.Words.{found_of, rows_of, rule_of};
ghost use Rattle.command_line.specs.Options.CustomOptions.{
  custom_options_in,
  custom_options_of,
  custom_options_rule,
};

use crate::arguments::{option, or_default, taking_words};
use crate::values::given_text;
use clap::{Arg, ArgMatches};
use proto_parse::CustomOptions;
use std::alloc::Global;

const NAME: &str = "custom-options";

/// Its words.
pub(crate) static WORDS: [&str; 2] = ["refuse", "skip"];

/// The option.
pub(crate) fn arg<'a>(alloc: Global, words: &'a [&'a str]) -> Arg<'a>
    ensures { rule_of result ≡ custom_options_rule words.entry }
{
    let help =
        "What to do with custom options: refuse the source, or skip them, as --accept all always does";
    let option = option(alloc, NAME, "WORD", help);
    or_default(taking_words(option, words), "refuse")
}

/// What a word says. `clap` takes no other text than these words.
fn custom_options_in(text: &str) -> CustomOptions
    ensures { result ≡ custom_options_in text.now }
{
    match text {
        "skip" => CustomOptions::Skip,
        _ => CustomOptions::Refuse,
    }
}

/// What is said, or the default.
pub(crate) fn custom_options_of(given: &ArgMatches<'_>) -> CustomOptions
    ensures { result ≡ custom_options_of (rows_of (found_of given.now)) }
{
    custom_options_in(given_text(given, NAME))
}
