//! `--links`: what is done about links below the folders.

ghost use Rattle.std.specs.Prelude.{◌≡◌};
ghost use Rattle.clap.specs.Words.{found_of, rows_of, rule_of};
ghost use Rattle.command_line.specs.Options.Links.{links_in, links_of, links_rule};

use crate::arguments::{option, or_default, taking_words};
use crate::values::given_text;
use clap::{Arg, ArgMatches};
use std::alloc::Global;

const NAME: &str = "links";

/// Its words.
pub(crate) static WORDS: [&str; 2] = ["ignore", "follow"];

/// What is done about links below the folders.
#[derive(Clone, Copy, Debug, PartialEq, Eq)]
pub enum Links {
    /// Below a folder that is searched they are passed over.
    Ignore,
    /// Those to regular files and folders are followed, each folder once.
    Follow,
}

/// The option.
pub(crate) fn arg<'a>(alloc: Global, words: &'a [&'a str]) -> Arg<'a>
    ensures { rule_of result ≡ links_rule words.entry }
{
    let help = "What to do with symbolic links below a folder: pass them over, or follow them";
    let option = option(alloc, NAME, "WORD", help);
    or_default(taking_words(option, words), "ignore")
}

/// What a word says. `clap` takes no other text than these words.
fn links_in(text: &str) -> Links
    ensures { result ≡ links_in text.now }
{
    match text {
        "follow" => Links::Follow,
        _ => Links::Ignore,
    }
}

/// What is said, or the default.
pub(crate) fn links_of(given: &ArgMatches<'_>) -> Links
    ensures { result ≡ links_of (rows_of (found_of given.now)) }
{
    links_in(given_text(given, NAME))
}
