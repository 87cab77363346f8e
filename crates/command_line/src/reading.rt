//! What the words of a command line ask for.

ghost use Rattle.std.specs.Option.{option_map};
ghost use Rattle.std.specs.Prelude.{◌≢◌, ◌≡◌, IfOk, IfErr, IsErr, map, string_bytes};
ghost use Rattle.std.specs.IoError.{error_kind};
ghost use Rattle.std.specs.declared.io.ErrorKind.TheVariants.{OutOfMemory as Memory};
ghost use Rattle.clap.specs.Words.{found_of, kind_of, rows_of, subcommand_rows_of};
ghost use Rattle.command_line.specs.Asks.{Asks, AsksFor, Names, is_unfit};
ghost use Rattle.command_line.specs.Options.{CarriesDump};
ghost use Rattle.command_line.specs.Requests.{IsRefused, Prints};
ghost use Rattle.command_line.specs.Values.{rows_in};
ghost use Rattle.command_line.specs.Verbs.{IsAsking, IsSurveying};

use crate::names::{
    DEF, FIND, HOVER, INDEX, JOIN, LINT, OUTLINE, PAGES, PRINT, QUERY, REF, SHELL, SNAPSHOT, STATS,
};
use crate::options::accept::add_what_all_is;
use crate::options::at::{NO_FOLDER, is_nowhere};
use crate::options::options_linked::{NOT_OF_PROTO3, links_in_proto3};
use crate::options::report::{FORM_ALONE, lacks_report};
use crate::options::sources::{COMMANDS_THERE, lists_commands};
use crate::options::{
    DumpOptions, WordLists, ask_options_of, dump_options_of, index_request_of, join_options_of,
    pages_options_of, query_options_of, shell_request_of, snapshot_options_of,
};
use crate::program::program;
use crate::request::Request;
use crate::verb::Verb;
use clap::error::ErrorKind;
use clap::{ArgMatches, Error};
use proto_parse::{CustomOptions, Dialect};
use std::alloc::{AllocError, Global};
use std::io;

/// Why a command line is refused that isn't text, which the system allows.
const OTHER_TEXT: &str = "invalid UTF-8 was detected in one or more arguments";

/// Reads a command line, of which the first word is the program's name. `on_terminal` says whether faults go to a
/// terminal, where they are explained unless that is refused.
///
/// `Asks` says what it asks for, by the rules of `clap`.
pub fn request_of(
    alloc: Global,
    on_terminal: bool,
    words: &Vec<String>,
) -> Result<Request, AllocError>
    ensures { IfOk result (Asks on_terminal (map string_bytes words.now.items)) }
{
    let lists = WordLists::new();
    match program(alloc, lists)?.try_get_matches_from(words.as_slice()) {
        Ok(matches) => asked(alloc, on_terminal, &matches),
        Err(error) => answer(alloc, &error),
    }
}

/// The program that a command line names, with what it is given; a form for a report without a file is refused, and so
/// is a folder for the documents that is none, a list for `shell` where its commands are, and `--options link` if proto3
/// sources alone are read. `on_terminal` says whether faults go to a terminal.
fn asked(alloc: Global, on_terminal: bool, matches: &ArgMatches<'_>) -> Result<Request, AllocError>
    ensures { IfOk result (AsksFor on_terminal (is_unfit (subcommand_rows_of matches.now))
        (subcommand_rows_of matches.now)) }
{
    if lacks_report(matches) {
        return refuse(alloc, FORM_ALONE);
    }
    if is_nowhere(matches) {
        return refuse(alloc, NO_FOLDER);
    }
    if lists_commands(matches) {
        return refuse(alloc, COMMANDS_THERE);
    }
    if links_in_proto3(matches) {
        return refuse(alloc, NOT_OF_PROTO3);
    }
    named(alloc, on_terminal, matches)
}

/// What is asked in one line, if the program that is named asks so, and what it is given.
fn asking<'a, 'b>(matches: &'b ArgMatches<'a>) -> Option<(Verb, &'b ArgMatches<'a>)>
    ensures { IsAsking (subcommand_rows_of matches.now) (option_map (λ a. (a.0, rows_of (found_of a.1.now))) result) }
{
    if let Some(given) = matches.subcommand_matches(DEF) {
        return Some((Verb::Def, given));
    }
    if let Some(given) = matches.subcommand_matches(REF) {
        return Some((Verb::Ref, given));
    }
    if let Some(given) = matches.subcommand_matches(HOVER) {
        return Some((Verb::Hover, given));
    }
    if let Some(given) = matches.subcommand_matches(OUTLINE) {
        return Some((Verb::Outline, given));
    }
    if let Some(given) = matches.subcommand_matches(FIND) {
        return Some((Verb::Find, given));
    }
    surveying(matches)
}

/// What is told of an index as a whole, if the program that is named tells that, and what it is given.
fn surveying<'a, 'b>(matches: &'b ArgMatches<'a>) -> Option<(Verb, &'b ArgMatches<'a>)>
    ensures { IsSurveying (subcommand_rows_of matches.now)
        (option_map (λ a. (a.0, rows_of (found_of a.1.now))) result) }
{
    if let Some(given) = matches.subcommand_matches(STATS) {
        return Some((Verb::Stats, given));
    }
    if let Some(given) = matches.subcommand_matches(PRINT) {
        return Some((Verb::Print, given));
    }
    if let Some(given) = matches.subcommand_matches(LINT) {
        return Some((Verb::Lint, given));
    }
    None
}

/// The program that a command line names, with what it is given.
fn named(alloc: Global, on_terminal: bool, matches: &ArgMatches<'_>) -> Result<Request, AllocError>
    ensures { IfOk result (Names on_terminal (subcommand_rows_of matches.now)) }
{
    if let Some(given) = matches.subcommand_matches(INDEX) {
        return Ok(Request::Index(index_request_of(alloc, on_terminal, given)?));
    }
    if let Some(given) = matches.subcommand_matches(SHELL) {
        return Ok(Request::Shell(shell_request_of(alloc, on_terminal, given)?));
    }
    if let Some(given) = matches.subcommand_matches(QUERY) {
        return Ok(Request::Query(query_options_of(alloc, on_terminal, given)?));
    }
    if let Some(given) = matches.subcommand_matches(SNAPSHOT) {
        return Ok(Request::Snapshot(snapshot_options_of(alloc, on_terminal, given)?));
    }
    if let Some(given) = matches.subcommand_matches(PAGES) {
        return Ok(Request::Pages(pages_options_of(alloc, on_terminal, given)?));
    }
    if let Some(given) = matches.subcommand_matches(JOIN) {
        return Ok(Request::Join(join_options_of(alloc, on_terminal, given)?));
    }
    match asking(matches) {
        Some((verb, given)) => Ok(Request::Ask(ask_options_of(alloc, verb, on_terminal, given)?)),
        None => Ok(Request::Dump(dump_options(on_terminal, matches))),
    }
}

/// What `dump` is given, if it is the program that is named.
fn dump_options(on_terminal: bool, matches: &ArgMatches<'_>) -> DumpOptions
    ensures { CarriesDump on_terminal (rows_in (subcommand_rows_of matches.now)) result }
{
    match matches.subcommand() {
        Some((_, given)) => dump_options_of(on_terminal, given),
        None => DumpOptions {
            dialect: Dialect::Proto3(CustomOptions::Refuse),
            explain: on_terminal,
        },
    }
}

/// What the words of a command line ask for, the first of them the program's name. If the system gives an error in
/// their place, a word isn't UTF-8, which is refused, or memory ran out. `on_terminal` is as `request_of` has it.
pub fn request_of_process(
    alloc: Global,
    on_terminal: bool,
    words: io::Result<Vec<String>>,
) -> Result<Request, AllocError>
    ensures words { IfOk words (λ words. IfOk result (Asks on_terminal (map string_bytes words.items))) }
    ensures other_text { IfErr words (λ _. IfOk result IsRefused) }
    ensures memory { IfErr words (λ error. error_kind error ≡ Memory → IsErr result) }
{
    match words {
        Ok(words) => request_of(alloc, on_terminal, &words),
        Err(error) if error.kind() == io::ErrorKind::OutOfMemory => Err(AllocError),
        Err(_) => refuse(alloc, OTHER_TEXT),
    }
}

/// Refuses a command line for what `clap` doesn't see.
fn refuse(alloc: Global, message: &str) -> Result<Request, AllocError>
    ensures { IfOk result IsRefused }
{
    answer(
        alloc,
        &program(alloc, WordLists::new())?.error(ErrorKind::ValueValidation, message)?,
    )
}

/// What an answer of `clap` other than a program asks for.
fn answer(alloc: Global, error: &Error) -> Result<Request, AllocError>
    ensures { IfOk result (λ r. (kind_of error.now ≢ ErrorKind.OutOfMemory) × Prints (kind_of error.now) r) }
{
    if matches!(error.kind(), ErrorKind::OutOfMemory) {
        return Err(AllocError);
    }
    let mut text = format!(in alloc; "{error}")?;
    add_what_all_is(&mut text)?;
    if error.use_stderr() {
        Ok(Request::Refuse(text))
    } else {
        Ok(Request::Print(text))
    }
}
