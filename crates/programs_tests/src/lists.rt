//! The list of the sources, where one is asked for.

use crate::files::Files;
use crate::shared::{see, words_of};
use command_line::{Request, request_of};
use programs::with_list;
use source_files::ListedPath;
use std::alloc::{AllocError, Global};
use std::process::Abort;
use std::test::Fail;
use streams::Std;

/// A command line, and what standard input holds; the paths that are listed then, each behind the number of its line
/// and before a space; and the status and what is said, if there is no list.
type Case = (&'static str, &'static str, &'static str, u8, &'static str);

// The third row reads: the second line names nothing.
const CASES: [Case; 9] = [
    ("index api out", "@", "", 0, ""),
    ("query a.scip", "@", "", 0, ""),
    (
        "index api out --sources -",
        "a.proto\n\nb/c.proto\n",
        "1:a.proto 3:b/c.proto ",
        0,
        "",
    ),
    (
        "shell api --sources lists/two",
        "@",
        "1:a.proto 3:b/c.proto ",
        0,
        "",
    ),
    ("index api out --sources -", "", "", 0, ""),
    (
        "index api out --sources -",
        "a.proto\nb",
        "",
        1,
        "protoscip: -:2: BadPath\n",
    ),
    (
        "shell api --sources api/a.proto --explain",
        "",
        "",
        1,
        "protoscip: api/a.proto:1: BadPath
a listed path is like `a/b.proto`: no empty name, `.`, `..` or control character; at most 4096 bytes\n",
    ),
    (
        "index api out --sources gone",
        "",
        "",
        3,
        "protoscip: gone: Unreadable\n",
    ),
    (
        "index api out --sources gone --explain",
        "",
        "",
        3,
        "protoscip: gone: Unreadable
this list of sources isn't there, or can't be read
gone: no such file or directory\n",
    ),
];

/// Paths, each behind the number of its line and before a space.
fn shown(alloc: Global, paths: &[ListedPath]) -> Result<String, AllocError> {
    let mut text = String::new(alloc);
    for one in paths {
        let (line, path) = (one.line, one.path.as_str());
        let more = format!(in alloc; "{line}:{path} ")?;
        text.push_str(more.as_str())?;
    }
    Ok(text)
}

/// What is listed for a request.
fn listed_for(alloc: Global, request: &Request) -> Result<String, AllocError> {
    let sources = match request {
        Request::Index(given) => &given.options.sources,
        Request::Shell(given) => &given.options.sources,
        _ => return Ok(String::new(alloc)),
    };
    match sources {
        Some(list) => shown(alloc, &list.listed),
        None => Ok(String::new(alloc)),
    }
}

/// Sees what is listed for one command line; memory may run out.
fn see_case(rt: &impl Abort, alloc: Global, case: &Case) -> Result<(), AllocError> {
    let (line, held, listed, due, said) = *case;
    let asked = request_of(alloc, false, &words_of(alloc, line)?)?;
    let mut told = [0u8; 256];
    let mut messages = Std::new(told.as_mut_slice());
    let mut input = Std::new(held.as_bytes());
    let files = Files { alloc };
    let (found, status) = match with_list(alloc, &files, asked, &mut input, &mut messages) {
        Ok(now) => (listed_for(alloc, &now)?, 0),
        Err(status) => (String::new(alloc), status),
    };
    let left = messages.into_inner().len();
    see(rt, found.as_str() == listed, line);
    see(rt, status == due, line);
    see(
        rt,
        told.split_at(256 - left.min(256)).0 == said.as_bytes(),
        line,
    );
    Ok(())
}

#[test]
fn lists_are_read(rt: HostRuntime) -> Result<(), Fail> {
    for case in &CASES {
        if see_case(&rt, rt.alloc(), case).is_err() {
            see_case(&rt, rt.alloc(), case)?;
        }
    }
    Ok(())
}
