//! `--faulty`: what is done about a tree with faults.

ghost use Rattle.std.specs.Prelude.{◌≡◌};
ghost use Rattle.clap.specs.Words.{found_of, rows_of, rule_of};
ghost use Rattle.command_line.specs.Options.Faulty.{faulty_in, faulty_of, faulty_rule};

use crate::arguments::{option, or_default, taking_words};
use crate::options::real::text_by_real;
use clap::{Arg, ArgMatches};
use scip_build::Faulty;
use std::alloc::Global;

const NAME: &str = "faulty";

/// Its words.
pub(crate) static WORDS: [&str; 2] = ["refuse", "skip"];

/// The option.
pub(crate) fn arg<'a>(alloc: Global, words: &'a [&'a str]) -> Arg<'a>
    ensures { rule_of result ≡ faulty_rule words.entry }
{
    let help = "What to do with faults: refuse the tree, or leave out what has one and report it";
    let option = option(alloc, NAME, "WORD", help);
    or_default(taking_words(option, words), "refuse")
}

/// What a word says. `clap` takes no other text than these words.
fn faulty_in(text: &str) -> Faulty
    ensures { result ≡ faulty_in text.now }
{
    match text {
        "skip" => Faulty::Skip,
        _ => Faulty::Refuse,
    }
}

/// What is said, or what `--real` says, or the default.
pub(crate) fn faulty_of(given: &ArgMatches<'_>) -> Faulty
    ensures { result ≡ faulty_of (rows_of (found_of given.now)) }
{
    faulty_in(text_by_real(given, NAME, "skip"))
}
