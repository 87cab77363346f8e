//! What explains a fault by the system's own words: why it refused what it was asked for.

ghost use Rattle.std.specs.Prelude.{◌≡◌, ◌++◌, IfOk, codes, string_bytes};
ghost use Rattle.std.specs.Option.{option_map};
ghost use Rattle.streams.specs.Writers.{AreTold, IsSaid, writer};
ghost use Rattle.programs.specs.Causes.{ExplainsFailure, behind, cause_lines, is_explained, made_name, report_name};

use crate::places::Places;
use crate::running::report_path;
use command_line::Request;
use scip_site::say;
use source_files::{Blamed, Cause, Caused};
use std::alloc::AllocError;
use streams::{Sink, write_all};

/// A text, and a line behind it, if there is one.
pub(crate) fn with_reason(text: String, why: Option<String>) -> Result<String, AllocError>
    ensures { IfOk result (λ all. string_bytes all ≡ string_bytes text ++ behind (option_map string_bytes why)) }
{
    let mut text = text;
    if let Some(why) = why {
        text.push('\n')?;
        text.push_str(why.as_str())?;
    }
    Ok(text)
}

/// Whether faults of what is asked for are explained.
fn is_explained(asked: &Result<Request, AllocError>) -> bool
    ensures { result ≡ is_explained asked.now }
{
    match asked {
        Ok(request) => match request {
            Request::Dump(options) => options.explain,
            Request::Query(options) => options.explain,
            Request::Ask(options) => options.explain,
            Request::Snapshot(options) => options.explain,
            Request::Pages(options) => options.explain,
            Request::Join(options) => options.explain,
            Request::Index(given) => given.options.explain,
            Request::Shell(given) => given.options.explain,
            Request::Print(_) | Request::Refuse(_) => false,
        },
        Err(AllocError) => false,
    }
}

/// The path of what is made: of an index, that of a join too, or of the folder of snapshots or of pages; else empty.
fn made_path(asked: &Result<Request, AllocError>) -> &str
    ensures { result.now ≡ made_name asked.now }
{
    match asked {
        Ok(request) => match request {
            Request::Index(given) => given.out.as_str(),
            Request::Pages(options) => options.out.as_str(),
            Request::Join(options) => options.out.as_str(),
            Request::Snapshot(options) => match &options.to {
                Some(to) => to.as_str(),
                None => "",
            },
            Request::Dump(_)
            | Request::Query(_)
            | Request::Ask(_)
            | Request::Shell(_)
            | Request::Print(_)
            | Request::Refuse(_) => "",
        },
        Err(AllocError) => "",
    }
}

/// The same of a report: its path, else empty.
fn path_of_report(asked: &Result<Request, AllocError>) -> &str
    ensures { result.now ≡ report_name asked.now }
{
    report_path(asked)
}

/// Says a line of a colon, a space and these words. Behind a write that fails the rest is lost.
fn say_words<M: Sink>(words: &str, messages: &mut M)
    ensures { IsSaid (writer M.Sink messages) (codes ": " ++ words.now) }
{
    match write_all(messages, b": ") {
        Ok(()) => say(messages, words),
        Err(_) => {}
    }
}

/// The same behind a name.
fn say_of<M: Sink>(name: &str, words: &str, messages: &mut M)
    ensures { IsSaid (writer M.Sink messages) (name.now ++ codes ": " ++ words.now) }
{
    match write_all(messages, name.as_bytes()) {
        Ok(()) => say_words(words, messages),
        Err(_) => {}
    }
}

/// Says why a call failed of what has this name, if there is a cause. It takes no memory.
fn say_cause<M: Sink>(name: &str, cause: Option<Cause>, messages: &mut M)
    ensures { AreTold (writer M.Sink messages) (cause_lines name.now cause) }
{
    match cause {
        Some(cause) => say_of(name, cause.words(), messages),
        None => {}
    }
}

/// After a run that ended with a status: if this isn't 0, and faults are explained, says in lines of their own why the
/// system refused what was asked of it: of the index or of other files that were made, of a report, and of standard
/// output.
pub fn explain_failure<O: Blamed, Q: Blamed, W: Caused, M: Sink>(
    asked: &Result<Request, AllocError>,
    status: u8,
    places: &Places<O, Q>,
    out: &W,
    messages: &mut M,
)
    ensures { ExplainsFailure (O.reasons places.now.file) (Q.reasons places.now.report) (W.cause out.now) asked.now
        status (writer M.Sink messages) }
{
    if status == 0 {
        return;
    }
    if !is_explained(asked) {
        return;
    }
    say_cause(made_path(asked), places.file.reason(), messages);
    say_cause(path_of_report(asked), places.report.reason(), messages);
    say_cause("standard output", out.cause(), messages);
}
