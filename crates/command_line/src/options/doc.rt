//! `--doc`: which comments document a declaration.

ghost use Rattle.std.specs.Prelude.{◌≡◌};
ghost use Rattle.clap.specs.Words.{found_of, rows_of, rule_of};
ghost use Rattle.command_line.specs.Options.Doc.{doc_in, doc_of, doc_rule};

use crate::arguments::{option, taking_words};
use crate::options::real::first_by_real;
use clap::{Arg, ArgMatches};
use index_hooks::DocChoice;
use std::alloc::Global;

const NAME: &str = "doc";

/// Its words.
pub(crate) static WORDS: [&str; 4] = ["leading", "trailing", "both", "nothing"];

/// The option.
pub(crate) fn arg<'a>(alloc: Global, words: &'a [&'a str]) -> Arg<'a>
    ensures { rule_of result ≡ doc_rule words.entry }
{
    let help = "Which comments document a declaration; if not given, those before it";
    taking_words(option(alloc, NAME, "WORD", help), words)
}

/// What a word says. `clap` takes no other text than these words.
fn doc_in(text: &str) -> DocChoice
    ensures { result ≡ doc_in text.now }
{
    match text {
        "leading" => DocChoice::Leading,
        "trailing" => DocChoice::Trailing,
        "both" => DocChoice::Both,
        _ => DocChoice::Nothing,
    }
}

/// What is said, or what `--real` says, if one of them is given.
pub(crate) fn doc_of(given: &ArgMatches<'_>) -> Option<DocChoice>
    ensures { result ≡ doc_of (rows_of (found_of given.now)) }
{
    match first_by_real(given, NAME, "both") {
        Some(text) => Some(doc_in(text)),
        None => None,
    }
}
