//! `--comments`: how the texts of comments are given.

ghost use Rattle.std.specs.Prelude.{◌≡◌};
ghost use Rattle.clap.specs.Words.{found_of, rows_of, rule_of};
ghost use Rattle.command_line.specs.Options.Comments.{comments_in, comments_of, comments_rule};

use crate::arguments::{option, or_default, taking_words};
use crate::options::real::text_by_real;
use clap::{Arg, ArgMatches};
use comment_texts::CommentForm;
use std::alloc::Global;

const NAME: &str = "comments";

/// Its words.
pub(crate) static WORDS: [&str; 2] = ["raw", "clean"];

/// The option.
pub(crate) fn arg<'a>(alloc: Global, words: &'a [&'a str]) -> Arg<'a>
    ensures { rule_of result ≡ comments_rule words.entry }
{
    let help = "How comments are given: as they are written, or without stars and indentation";
    let option = option(alloc, NAME, "WORD", help);
    or_default(taking_words(option, words), "raw")
}

/// What a word says. `clap` takes no other text than these words.
fn comments_in(text: &str) -> CommentForm
    ensures { result ≡ comments_in text.now }
{
    match text {
        "clean" => CommentForm::Clean,
        _ => CommentForm::Raw,
    }
}

/// What is said, or what `--real` says, or the default.
pub(crate) fn comments_of(given: &ArgMatches<'_>) -> CommentForm
    ensures { result ≡ comments_of (rows_of (found_of given.now)) }
{
    comments_in(text_by_real(given, NAME, "clean"))
}
