//! The programs that ask in one line about the index that files hold.

ghost use Rattle.std.specs.Prelude.{◌≡◌, ◌||◌, ◌++◌, [], codes, false, IfOk, string_bytes};
ghost use Rattle.std.specs.Option.{option_map};
ghost use Rattle.streams.specs.Writers.{writer};
ghost use Rattle.scip_query.specs.Answers.{is_found};
ghost use Rattle.scip_query.specs.MoreViews.{answer_view, more_view};
ghost use Rattle.programs.specs.AskedOnce.{
  EndsAsked,
  EndsBy,
  IsForm,
  IsPlaced,
  IsPlacedBelow,
  MayAnswer,
  MayShow,
  RunsAsked,
  Shows,
  command_of,
  asks_by_name,
  miss_name,
  miss_of,
  nearest_text,
};
ghost use Rattle.protoscip.specs.Lines.{plain_line};
ghost use Rattle.programs.specs.Surveying.{surveys};

use crate::files_fault::ToldBy;
use crate::files_report::report_files;
use crate::host::Host;
use crate::index_files::queries_of;
use crate::messages::report;
use crate::output::print_bytes;
use crate::statuses::NOTHING_STATUS;
use crate::surveying::{status_by, survey, surveys};
use command_line::{AskOptions, Verb};
use protoscip::plain_line;
use scip_pages::{Source, place_path, placed, push_told};
use scip_query::{Answer, Miss, MoreCommand, Queries, Question, asked_about, json_of};
use scip_site::{sources_for, sources_of};
use scip_survey::nearest_name;
use source_files::{Caused, LookAgain, ReadFiles};
use std::alloc::{AllocError, Global};
use streams::Sink;

/// The command that asks this of a text.
fn command_of(verb: Verb, asked: &str) -> Option<MoreCommand<'_>>
    ensures { option_map more_view result ≡ command_of verb asked.now }
{
    match verb {
        Verb::Def => asked_about(Question::Definitions, asked),
        Verb::Ref => asked_about(Question::References, asked),
        Verb::Hover => asked_about(Question::Documentation, asked),
        Verb::Outline => Some(MoreCommand::Outline(asked)),
        Verb::Find => Some(MoreCommand::Find(asked)),
        Verb::Stats | Verb::Print | Verb::Lint => None,
    }
}

/// A command whose place counts as its document does, of one whose place counts characters of the source below a root.
fn placed_below<'a, F: ReadFiles>(
    alloc: Global,
    files: &F,
    root: &str,
    queries: &Queries,
    command: MoreCommand<'a>,
) -> Result<MoreCommand<'a>, AllocError>
    ensures { IfOk result (λ placed. IsPlacedBelow (F.gives files.now) root.now queries.now (more_view command.entry)
        (more_view placed)) }
{
    match place_path(&command) {
        Some(path) => {
            let sources = sources_of(alloc, files, root, queries, &[path])?;
            Ok(placed(sources.as_slice(), command))
        }
        None => Ok(command),
    }
}

/// The same, if there is a root.
fn placed_by<'a, F: ReadFiles>(
    alloc: Global,
    files: &F,
    options: &AskOptions,
    queries: &Queries,
    command: MoreCommand<'a>,
) -> Result<MoreCommand<'a>, AllocError>
    ensures { IfOk result (λ placed. IsPlaced (F.gives files.now) (option_map string_bytes options.now.root) queries.now
        (more_view command.entry) (more_view placed)) }
{
    match &options.root {
        Some(root) => placed_below(alloc, files, root.as_str(), queries, command),
        None => Ok(command),
    }
}

/// The answer; nothing is there that has no name.
fn answer_to<'a, F: ReadFiles>(
    alloc: Global,
    files: &F,
    options: &AskOptions,
    queries: &'a Queries,
) -> Result<Answer<'a>, AllocError>
    ensures { IfOk result (λ answer. MayAnswer (F.gives files.now) options.now queries.entry.now
        (answer_view answer)) }
{
    match command_of(options.verb, options.asked.as_str()) {
        Some(command) => {
            let command = placed_by(alloc, files, options, queries, command)?;
            queries.given(alloc, &command)
        }
        None => Ok(Answer::Missed(Miss::NothingThere)),
    }
}

/// The sources that are shown: those of the answer's documents below the root, if there is one.
fn shown_sources<F: ReadFiles>(
    alloc: Global,
    files: &F,
    options: &AskOptions,
    queries: &Queries,
    answer: &Answer<'_>,
) -> Result<Vec<Source>, AllocError>
    ensures { IfOk result (λ sources. MayShow (F.gives files.now) (option_map string_bytes options.now.root) queries.now
        (string_bytes options.now.asked) (answer_view answer.now) sources.items) }
{
    match &options.root {
        Some(root) => {
            let (root, path) = (root.as_str(), options.asked.as_str());
            sources_for(alloc, files, root, queries, path, answer)
        }
        None => Ok(Vec::new(alloc)),
    }
}

/// The answer as lines for people.
fn told_of<F: ReadFiles>(
    alloc: Global,
    files: &F,
    options: &AskOptions,
    queries: &Queries,
    answer: &Answer<'_>,
) -> Result<Vec<u8>, AllocError>
    ensures { IfOk result (λ text. IsForm (F.gives files.now) options.now queries.now false
        (answer_view answer.now) text.items) }
{
    let sources = shown_sources(alloc, files, options, queries, answer)?;
    let mut text = Vec::new(alloc);
    let path = options.asked.as_str();
    push_told(alloc, &mut text, sources.as_slice(), path, answer)?;
    Ok(text)
}

/// The answer in the form that is asked for.
fn form_of<F: ReadFiles>(
    alloc: Global,
    files: &F,
    options: &AskOptions,
    queries: &Queries,
    answer: &Answer<'_>,
) -> Result<Vec<u8>, AllocError>
    ensures { IfOk result (λ text. IsForm (F.gives files.now) options.now queries.now options.now.json
        (answer_view answer.now) text.items) }
{
    if options.json {
        Ok(json_of(alloc, answer)?.into_bytes())
    } else {
        told_of(alloc, files, options, queries, answer)
    }
}

/// Whether a command asks for a name.
fn asks_by_name(command: Option<MoreCommand<'_>>) -> bool
    ensures { result ≡ asks_by_name (option_map more_view command.entry) }
{
    match command {
        Some(MoreCommand::Named(_, _)) | Some(MoreCommand::Find(_)) => true,
        _ => false,
    }
}

/// What is said where nothing is there, of a name with the one that is nearest.
fn nothing_there(
    alloc: Global,
    by_name: bool,
    queries: &Queries,
    text: &str,
) -> Result<String, AllocError>
    ensures { IfOk result (λ name. string_bytes name
        ≡ codes "NothingThere" ++ nearest_text by_name queries.now text.now) }
{
    if !by_name {
        return String::from_str(alloc, "NothingThere");
    }
    match nearest_name(alloc, queries, text)? {
        Some(near) => format!(in alloc; "NothingThere, nearest: {near}"),
        None => String::from_str(alloc, "NothingThere"),
    }
}

/// What is said where nothing is found.
fn miss_name(
    alloc: Global,
    by_name: bool,
    queries: &Queries,
    text: &str,
    answer: &Answer<'_>,
) -> Result<String, AllocError>
    ensures { IfOk result (λ name. string_bytes name
        ≡ miss_name by_name queries.now text.now (answer_view answer.now)) }
{
    match answer {
        Answer::Missed(Miss::NoDocument) => String::from_str(alloc, "NoDocument"),
        _ => nothing_there(alloc, by_name, queries, text),
    }
}

/// The line that says so.
fn miss_line(
    alloc: Global,
    options: &AskOptions,
    queries: &Queries,
    answer: &Answer<'_>,
) -> Result<String, AllocError>
    ensures { IfOk result (λ line. string_bytes line
        ≡ plain_line (miss_of options.now queries.now (answer_view answer.now))) }
{
    let asked = options.asked.as_str();
    let by_name = asks_by_name(command_of(options.verb, asked));
    let name = miss_name(alloc, by_name, queries, asked, answer)?;
    plain_line(alloc, name.as_str())
}

/// Whether an answer is printed: in JSON also where nothing is found.
fn is_shown(options: &AskOptions, answer: &Answer<'_>) -> bool
    ensures { result ≡ (is_found (answer_view answer.now) || options.now.json) }
{
    answer.is_found() || options.json
}

/// Prints an answer in its form, or says that there is nothing, and gives the exit status.
fn show<W: Sink + Caused, M: Sink>(
    alloc: Global,
    options: &AskOptions,
    queries: &Queries,
    answered: (&Answer<'_>, &[u8]),
    out: &mut W,
    messages: &mut M,
) -> u8
    ensures { Shows W.cause options.now queries.now (answer_view answered.entry.0.now) answered.entry.1.now
        (writer W.Sink out) (writer M.Sink messages) result }
{
    let (answer, text) = answered;
    if is_shown(options, answer) {
        status_by(answer.is_found(), print_bytes(alloc, text, out, messages))
    } else {
        report(
            miss_line(alloc, options, queries, answer),
            NOTHING_STATUS,
            messages,
        )
    }
}

/// The answer, and its form.
fn answered<'a, F: ReadFiles>(
    alloc: Global,
    files: &F,
    options: &AskOptions,
    queries: &'a Queries,
) -> Result<(Answer<'a>, Vec<u8>), AllocError>
    ensures answer { IfOk result (λ done. MayAnswer (F.gives files.now) options.now queries.entry.now
        (answer_view done.0)) }
    ensures form { IfOk result (λ done. IsForm (F.gives files.now) options.now queries.entry.now options.now.json
        (answer_view done.0) done.1.items) }
{
    let answer = answer_to(alloc, files, options, queries)?;
    let text = form_of(alloc, files, options, queries, &answer)?;
    Ok((answer, text))
}

/// Answers a question about an index, and gives the exit status.
fn answer_question<R, F: ReadFiles, W: Sink + Caused, M: Sink>(
    host: &Host<'_, R, F>,
    options: &AskOptions,
    queries: &Queries,
    out: &mut W,
    messages: &mut M,
) -> u8
    ensures { EndsAsked (F.gives host.now.files.now) W.cause options.now queries.now (writer W.Sink out)
        (writer M.Sink messages) result }
{
    match answered(host.alloc, host.files, options, queries) {
        Ok((answer, text)) => {
            let shown = (&answer, text.as_slice());
            show(host.alloc, options, queries, shown, out, messages)
        }
        Err(AllocError) => report(Err(AllocError), NOTHING_STATUS, messages),
    }
}

/// Answers what is asked about an index, and gives the exit status.
fn answer_asked<R, F: ReadFiles, W: Sink + Caused, M: Sink>(
    host: &Host<'_, R, F>,
    options: &AskOptions,
    queries: &Queries,
    out: &mut W,
    messages: &mut M,
) -> u8
    ensures { EndsBy (F.gives host.now.files.now) W.cause options.now queries.now (surveys options.now.verb)
        (writer W.Sink out) (writer M.Sink messages) result }
{
    if surveys(options.verb) {
        survey(host.alloc, options, queries, out, messages)
    } else {
        answer_question(host, options, queries, out, messages)
    }
}

/// Reads the index that files hold, answers what is asked about it in one line, and gives the exit status: 1 if nothing
/// is found. If it stops early, it reports why, but of a pipe that is closed by its reader.
pub(crate) fn ask<R, F: ReadFiles + LookAgain, W: Sink + Caused, M: Sink>(
    host: &Host<'_, R, F>,
    options: &AskOptions,
    out: &mut W,
    messages: &mut M,
) -> u8
    ensures { RunsAsked (F.gives host.now.files.now) (F.blames host.now.files.now [] []) W.cause options.now
        (writer W.Sink out) (writer M.Sink messages) result }
{
    let paths = options.indexes.as_slice();
    match queries_of(host.alloc, host.files, paths) {
        Ok(queries) => answer_asked(host, options, &queries, out, messages),
        Err(fault) => {
            let explain = options.explain;
            report_files(host, &fault, ToldBy::Other, paths, explain, messages)
        }
    }
}
