//! `--at`: the folder that the documents' paths are below.

ghost use Rattle.std.specs.Prelude.{◌≡◌};
ghost use Rattle.clap.specs.Words.{rule_of, subcommand_rows_of};
ghost use Rattle.command_line.specs.Options.At.{at_rule, is_nowhere};
ghost use Rattle.command_line.specs.Values.{rows_in};

use crate::arguments::option;
use crate::values::first_of;
use clap::{Arg, ArgMatches};
use source_tree::is_good_folder;
use std::alloc::Global;

pub(crate) const NAME: &str = "at";

/// Why what is no path of a folder is refused.
pub(crate) const NO_FOLDER: &str =
    "'--at <PREFIX>' takes names with one '/' between them, none of them '.' or '..'";

/// The option.
pub(crate) fn arg<'a>(alloc: Global) -> Arg<'a>
    ensures { rule_of result ≡ at_rule }
{
    let help = "The path of ROOT in its repository; the paths of documents are below it";
    option(alloc, NAME, "PREFIX", help)
}

/// Whether the program that is named is given what isn't good for a folder.
pub(crate) fn is_nowhere(matches: &ArgMatches<'_>) -> bool
    ensures { result ≡ is_nowhere (rows_in (subcommand_rows_of matches.now)) }
{
    match matches.subcommand() {
        Some((_, given)) => match first_of(given, NAME) {
            Some(text) => !is_good_folder(text),
            None => false,
        },
        None => false,
    }
}
