//! `--options`: whether names in options are linked.

ghost use Rattle.std.specs.Prelude.{◌≡◌};
ghost use Rattle.clap.specs.Words.{found_of, rows_of, rule_of, subcommand_rows_of};
ghost use Rattle.command_line.specs.Options.OptionsLinked.{
  is_link,
  links_in_proto3,
  links_options,
  options_rule,
  reads_proto3,
};

use crate::arguments::{option, or_default, taking_words};
use crate::options::accept::dialect_of;
use crate::options::real::text_by_real;
use crate::values::given_text;
use clap::{Arg, ArgMatches};
use proto_parse::Dialect;
use std::alloc::Global;

const NAME: &str = "options";

/// Its words.
pub(crate) static WORDS: [&str; 2] = ["skip", "link"];

/// Why names in options aren't linked of proto3 sources alone.
pub(crate) const NOT_OF_PROTO3: &str = "'--options link' needs '--accept all'";

/// The option.
pub(crate) fn arg<'a>(alloc: Global, words: &'a [&'a str]) -> Arg<'a>
    ensures { rule_of result ≡ options_rule words.entry }
{
    let help =
        "What to do with names in options: skip them, or link each to the field, message or value that it names";
    let option = option(alloc, NAME, "WORD", help);
    or_default(taking_words(option, words), "skip")
}

/// What a word says. `clap` takes no other text than these words.
fn is_link(text: &str) -> bool
    ensures { result ≡ is_link text.now }
{
    text == "link"
}

/// Whether proto3 sources alone are read.
fn reads_proto3(dialect: Dialect) -> bool
    ensures { result ≡ reads_proto3 dialect }
{
    match dialect {
        Dialect::All => false,
        Dialect::Proto3(_) => true,
    }
}

/// Whether they are linked, by what is said, or what `--real` says, or the default. They aren't if proto3 sources alone
/// are read.
pub(crate) fn links_options(given: &ArgMatches<'_>) -> bool
    ensures { result ≡ links_options (rows_of (found_of given.now)) }
{
    is_link(text_by_real(given, NAME, "link")) && !reads_proto3(dialect_of(given))
}

/// Whether linking is asked for, and proto3 sources alone are read.
pub(crate) fn links_in_proto3(matches: &ArgMatches<'_>) -> bool
    ensures { result ≡ links_in_proto3 (subcommand_rows_of matches.now) }
{
    match matches.subcommand() {
        Some((_, given)) => is_link(given_text(given, NAME)) && reads_proto3(dialect_of(given)),
        None => false,
    }
}
