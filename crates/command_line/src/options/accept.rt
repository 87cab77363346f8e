//! `--accept`: which sources are read.

ghost use Rattle.std.specs.Prelude.{◌≡◌};
ghost use Rattle.clap.specs.Words.{found_of, rows_of, rule_of};
ghost use Rattle.command_line.specs.Options.Accept.{accept_rule, dialect_in, dialect_of};

use crate::arguments::{option, or_default, taking_words};
use crate::options::custom_options::custom_options_of;
use crate::options::real::text_by_real;
use clap::{Arg, ArgMatches};
use proto_parse::{CustomOptions, Dialect};
use std::alloc::{AllocError, Global};

const NAME: &str = "accept";

/// Its words.
pub(crate) static WORDS: [&str; 2] = ["proto3", "all"];

/// The option.
pub(crate) fn arg<'a>(alloc: Global, words: &'a [&'a str]) -> Arg<'a>
    ensures { rule_of result ≡ accept_rule words.entry }
{
    let help =
        "Which sources are read: proto3 alone, or proto2 too, with extend and custom options";
    let option = option(alloc, NAME, "WORD", help);
    or_default(taking_words(option, words), "proto3")
}

/// What a word says. `clap` takes no other text than these words. Custom options are read past by `all`, whatever is
/// said about them.
fn dialect_in(text: &str, custom_options: CustomOptions) -> Dialect
    ensures { result ≡ dialect_in text.now custom_options }
{
    match text {
        "all" => Dialect::All,
        _ => Dialect::Proto3(custom_options),
    }
}

/// What is said, or what `--real` says, or the default.
pub(crate) fn dialect_of(given: &ArgMatches<'_>) -> Dialect
    ensures { result ≡ dialect_of (rows_of (found_of given.now)) }
{
    dialect_in(text_by_real(given, NAME, "all"), custom_options_of(given))
}

/// To a text that refuses a word of `--accept`, adds what `all` means, since `clap` proposes a word by its spelling.
pub(crate) fn add_what_all_is(text: &mut String) -> Result<(), AllocError> {
    if text.as_str().contains("for '--accept <WORD>'") {
        text.push_str("\n`--accept all` reads proto2 sources, too.\n")?;
    }
    Ok(())
}
