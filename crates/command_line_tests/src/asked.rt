//! Command lines, and what they ask for, as texts.

use command_line::{Request, request_of, request_of_process};
use std::alloc::{AllocError, Global};
use std::io;
use std::io::ErrorKind;
use std::process::Abort;

/// Sees that what a case says holds. (A formatted assertion is proved once, here.)
pub(crate) fn see(rt: &impl Abort, holds: bool, case: &str) {
    assert!(rt; holds, "{case}");
}

/// The program's name and the words behind it, which a space parts. Two quotes are an empty word.
fn words_of(alloc: Global, arguments: &str) -> Result<Vec<String>, AllocError> {
    let mut words = Vec::new(alloc);
    words.push(String::from_str(alloc, "protoscip")?)?;
    for argument in arguments.split_whitespace() {
        words.push(String::from_str(alloc, argument.trim_matches('\''))?)?;
    }
    Ok(words)
}

/// The text that a request is to print, or to refuse with, which begins with `error: `; any other request
/// as `Debug` prints it.
fn text_of(alloc: Global, request: &Request) -> Result<String, AllocError> {
    match request {
        Request::Print(text) | Request::Refuse(text) => String::from_str(alloc, text.as_str()),
        request => format!(in alloc; "{request:?}"),
    }
}

/// How a command line's words reach the program.
#[derive(Clone, Copy)]
pub(crate) enum By {
    /// As a list.
    List,
    /// As a list, where faults are said on a terminal.
    ListOnTerminal,
    /// As the system gives them.
    System,
    /// As the system gives them, where faults are said on a terminal.
    SystemOnTerminal,
    /// As the system gives them if one of them is no text.
    Fault,
}

/// What these words ask for, read in this way.
fn request_by(alloc: Global, arguments: &str, by: By) -> Result<Request, AllocError> {
    let words = words_of(alloc, arguments)?;
    match by {
        By::List => request_of(alloc, false, &words),
        By::ListOnTerminal => request_of(alloc, true, &words),
        By::System => request_of_process(alloc, false, Ok(words)),
        By::SystemOnTerminal => request_of_process(alloc, true, Ok(words)),
        By::Fault => request_of_process(alloc, false, Err(io::Error::from(ErrorKind::InvalidData))),
    }
}

/// The text of what these words ask for; memory may run out.
fn asked_once(alloc: Global, arguments: &str, by: By) -> Result<String, AllocError> {
    let request = request_by(alloc, arguments, by)?;
    text_of(alloc, &request)
}

/// What a command line asks for. After want of memory it is asked again, and has to come then.
pub(crate) fn asked(alloc: Global, arguments: &str, by: By) -> Result<String, AllocError> {
    match asked_once(alloc, arguments, by) {
        Ok(text) => Ok(text),
        Err(AllocError) => asked_once(alloc, arguments, by),
    }
}
