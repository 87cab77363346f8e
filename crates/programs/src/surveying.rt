//! What is told of an index as a whole: how much it has, its records, or what is wrong with it.

ghost use Rattle.std.specs.Prelude.{◌≡◌, IfOk, string_bytes};
ghost use Rattle.streams.specs.Writers.{writer};
ghost use Rattle.scip_query.specs.Sites.{document_named};
ghost use Rattle.scip_survey.specs.Counts.{counts_of, counts_text};
ghost use Rattle.programs.specs.SurveyViews.{telling_view};
ghost use Rattle.programs.specs.Surveying as spec;

use crate::messages::report;
use crate::output::print;
use crate::statuses::NOTHING_STATUS;
use command_line::{AskOptions, Verb};
use protoscip::plain_line;
use scip_query::{Answer, Miss, Queries, json_of};
use scip_survey::{counts_of, counts_text, document_text, flaws_of, flaws_text, index_text};
use source_files::Caused;
use std::alloc::{AllocError, Global};
use streams::Sink;

/// A text, if there is one, and whether all is well.
#[derive(Drop)]
pub(crate) struct Telling {
    text: Option<String>,
    is_sound: bool,
}

/// Whether it is told of an index as a whole.
pub(crate) fn surveys(verb: Verb) -> bool
    ensures { result ≡ spec.surveys verb }
{
    match verb {
        Verb::Stats | Verb::Print | Verb::Lint => true,
        Verb::Def | Verb::Ref | Verb::Hover | Verb::Outline | Verb::Find => false,
    }
}

/// How much an index has.
fn counted(alloc: Global, json: bool, queries: &Queries) -> Result<Telling, AllocError>
    ensures { IfOk result (λ s. telling_view s ≡ spec.sound (counts_text json (counts_of queries.now))) }
{
    let text = counts_text(alloc, json, &counts_of(queries))?;
    Ok(Telling {
        text: Some(text),
        is_sound: true,
    })
}

/// What is wrong with it.
fn linted(alloc: Global, json: bool, queries: &Queries) -> Result<Telling, AllocError>
    ensures { IfOk result (λ s. telling_view s ≡ spec.linted json queries.now) }
{
    let flaws = flaws_of(alloc, queries)?;
    let text = flaws_text(alloc, json, flaws.as_slice())?;
    Ok(Telling {
        text: Some(text),
        is_sound: flaws.as_slice().is_empty(),
    })
}

/// That it has no document with a path.
fn no_document(alloc: Global, json: bool) -> Result<Telling, AllocError>
    ensures { IfOk result (λ s. telling_view s ≡ spec.no_document json) }
{
    let text = if json {
        Some(json_of(alloc, &Answer::Missed(Miss::NoDocument))?)
    } else {
        None
    };
    Ok(Telling {
        text,
        is_sound: false,
    })
}

/// The records of the document that a path names.
fn printed_document(
    alloc: Global,
    json: bool,
    queries: &Queries,
    path: &str,
) -> Result<Telling, AllocError>
    ensures { IfOk result (λ s. telling_view s
        ≡ spec.printed_document json (document_named queries.now path.now)) }
{
    match document_text(alloc, json, queries, path)? {
        Some(text) => Ok(Telling {
            text: Some(text),
            is_sound: true,
        }),
        None => no_document(alloc, json),
    }
}

/// The records of the index, or of the document that a path names, if one is given.
fn printed(alloc: Global, json: bool, queries: &Queries, path: &str) -> Result<Telling, AllocError>
    ensures { IfOk result (λ s. telling_view s ≡ spec.printed json queries.now path.now) }
{
    if path.is_empty() {
        let text = index_text(alloc, json, queries)?;
        Ok(Telling {
            text: Some(text),
            is_sound: true,
        })
    } else {
        printed_document(alloc, json, queries, path)
    }
}

/// What is asked for.
fn surveyed(alloc: Global, options: &AskOptions, queries: &Queries) -> Result<Telling, AllocError>
    ensures { IfOk result (λ s. telling_view s
        ≡ spec.surveyed options.now.json queries.now options.now.verb (string_bytes options.now.asked)) }
{
    match options.verb {
        Verb::Stats => counted(alloc, options.json, queries),
        Verb::Lint => linted(alloc, options.json, queries),
        _ => printed(alloc, options.json, queries, options.asked.as_str()),
    }
}

/// The exit status: where something is wrong, that of nothing, unless another is due.
pub(crate) fn status_by(is_sound: bool, status: u8) -> u8
    ensures { result ≡ spec.status_by is_sound status }
{
    if !is_sound && status == 0 {
        NOTHING_STATUS
    } else {
        status
    }
}

/// Prints what is told, or says that there is nothing, and gives the exit status.
fn show<W: Sink + Caused, M: Sink>(
    alloc: Global,
    told: &Telling,
    out: &mut W,
    messages: &mut M,
) -> u8
    ensures { spec.Shows W.cause (telling_view told.now) (writer W.Sink out) (writer M.Sink messages) result }
{
    match &told.text {
        Some(text) => status_by(told.is_sound, print(alloc, text.as_str(), out, messages)),
        None => report(plain_line(alloc, "NoDocument"), NOTHING_STATUS, messages),
    }
}

/// Tells what is asked for, and gives the exit status.
pub(crate) fn survey<W: Sink + Caused, M: Sink>(
    alloc: Global,
    options: &AskOptions,
    queries: &Queries,
    out: &mut W,
    messages: &mut M,
) -> u8
    ensures { spec.EndsSurvey W.cause (spec.surveyed options.now.json queries.now options.now.verb
        (string_bytes options.now.asked)) (writer W.Sink out) (writer M.Sink messages) result }
{
    match surveyed(alloc, options, queries) {
        Ok(told) => show(alloc, &told, out, messages),
        Err(AllocError) => report(Err(AllocError), NOTHING_STATUS, messages),
    }
}
