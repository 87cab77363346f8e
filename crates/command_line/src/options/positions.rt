//! `--positions`: the unit of columns.

ghost use Rattle.std.specs.Prelude.{◌≡◌};
ghost use Rattle.clap.specs.Words.{found_of, rows_of, rule_of};
ghost use Rattle.command_line.specs.Options.Positions.{encoding_in, encoding_of, positions_rule};

use crate::arguments::{option, or_default, taking_words};
use crate::values::given_text;
use clap::{Arg, ArgMatches};
use proto_lex::Encoding;
use std::alloc::Global;

const NAME: &str = "positions";

/// Its words.
pub(crate) static WORDS: [&str; 2] = ["utf8", "utf16"];

/// The option.
pub(crate) fn arg<'a>(alloc: Global, words: &'a [&'a str]) -> Arg<'a>
    ensures { rule_of result ≡ positions_rule words.entry }
{
    let help = "The unit of columns: bytes, or UTF-16 code units";
    let option = option(alloc, NAME, "WORD", help);
    or_default(taking_words(option, words), "utf8")
}

/// What a word says. `clap` takes no other text than these words.
fn encoding_in(text: &str) -> Encoding
    ensures { result ≡ encoding_in text.now }
{
    match text {
        "utf16" => Encoding::Utf16,
        _ => Encoding::Utf8,
    }
}

/// What is said, or the default.
pub(crate) fn encoding_of(given: &ArgMatches<'_>) -> Encoding
    ensures { result ≡ encoding_of (rows_of (found_of given.now)) }
{
    encoding_in(given_text(given, NAME))
}
