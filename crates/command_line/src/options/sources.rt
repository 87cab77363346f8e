//! `--sources`: the file that lists the sources.

ghost use Rattle.std.specs.Prelude.{◌≡◌, IfOk};
ghost use Rattle.std.specs.Option.{option_map};
ghost use Rattle.clap.specs.Words.{found_of, rows_of, rule_of, subcommand_rows_of};
ghost use Rattle.command_line.specs.Options.Sources.{
  file_of,
  is_input,
  lists_commands,
  nothing_listed,
  sources_of,
  sources_rule,
};

use crate::arguments::option;
use crate::names::SHELL;
use crate::values::{first_of, optional_text_of};
use clap::{Arg, ArgMatches};
use source_files::ListedPath;
use std::alloc::{AllocError, Global};

const NAME: &str = "sources";

/// What stands for standard input.
pub const STANDARD_INPUT: &str = "-";

/// Why standard input isn't a list for `shell`.
pub(crate) const COMMANDS_THERE: &str =
    "'--sources -' can't be used with 'shell', which reads commands from standard input";

/// The list of the sources.
#[derive(Debug, Drop)]
pub struct SourceList {
    /// The path of the file that holds it, as it was written; `STANDARD_INPUT` if that does.
    pub file: String,
    /// The paths below ROOT that it names; none before it is read.
    pub listed: Vec<ListedPath>,
}

/// The option.
pub(crate) fn arg<'a>(alloc: Global) -> Arg<'a>
    ensures { rule_of result ≡ sources_rule }
{
    let help =
        "The sources are those that FILE lists, a path below ROOT on each line; `-` is standard input";
    option(alloc, NAME, "FILE", help)
}

/// The list that is given, if there is one, before it is read.
pub(crate) fn sources_of(
    alloc: Global,
    given: &ArgMatches<'_>,
) -> Result<Option<SourceList>, AllocError>
    ensures file { IfOk result (λ list. option_map file_of list ≡ sources_of (rows_of (found_of given.now))) }
    ensures unread { IfOk result nothing_listed }
{
    match optional_text_of(alloc, given, NAME)? {
        Some(file) => Ok(Some(SourceList {
            file,
            listed: Vec::new(alloc),
        })),
        None => Ok(None),
    }
}

/// Whether the list that is given is standard input.
fn is_input(given: &ArgMatches<'_>) -> bool
    ensures { result ≡ is_input (sources_of (rows_of (found_of given.now))) }
{
    match first_of(given, NAME) {
        Some(text) => text == STANDARD_INPUT,
        None => false,
    }
}

/// Whether `shell` is named, and its list would be standard input.
pub(crate) fn lists_commands(matches: &ArgMatches<'_>) -> bool
    ensures { result ≡ lists_commands (subcommand_rows_of matches.now) }
{
    match matches.subcommand() {
        Some((name, given)) => name == SHELL && is_input(given),
        None => false,
    }
}
