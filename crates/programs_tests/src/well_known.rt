//! The well-known files among the included ones, where they are asked for.

use crate::shared::{see, words_of};
use command_line::{IndexOptions, Request, request_of};
use programs::{variable, with_well_known};
use source_files::FindFiles;
use std::alloc::{AllocError, Global};
use std::env::VarError;
use std::process::Abort;
use std::test::Fail;
use streams::Std;

/// The files that are there: those with these paths, each with a space before and behind it.
#[derive(Drop)]
struct There {
    paths: &'static str,
    alloc: Global,
}

impl FindFiles for There {
    ghost use Rattle.std.specs.Prelude.{⊤};

    ghost finds = { λ _ _ _. ⊤ };

    fn is_there(&self, path: &str) -> Result<bool, AllocError> {
        let text = format!(in self.alloc; " {path} ")?;
        Ok(self.paths.contains(text.as_str()))
    }
}

/// A command line, the files that are there, and the PATH; the folders that are included then, first those without a
/// package, with a space behind each, and behind `|` the others with their packages; the root that has the well-known
/// files alone; and what is said.
type Case = (
    &'static str,
    &'static str,
    &'static str,
    &'static str,
    &'static str,
    &'static str,
);

/// A protoc and its files, beside it and in the system.
const BESIDE: &str =
    " /p/protoc /p/../include/google/protobuf/descriptor.proto /usr/include/google/protobuf/descriptor.proto ";

// The third row reads: the system's folder is included, behind `i`, and nothing is said.
const CASES: [Case; 9] = [
    ("index r o --include i", BESIDE, "/p", "i |", "", ""),
    ("query x --explain", BESIDE, "/p", "", "", ""),
    (
        "index r o --include i --well-known",
        BESIDE,
        "/q",
        "i /usr/include |",
        "/usr/include",
        "",
    ),
    (
        "shell r --real --explain",
        BESIDE,
        "/q:/p",
        "/p/../include |",
        "/p/../include",
        "protoscip: well-known files: /p/../include\n",
    ),
    (
        "index r o --package n --include i --include-package a b c d --well-known",
        BESIDE,
        "/p",
        "i |a/b/c/d /n///p/../include ",
        "/p/../include",
        "",
    ),
    (
        "index r o --include /usr/include --well-known --explain",
        BESIDE,
        "/q",
        "/usr/include |",
        "",
        "protoscip: well-known files: /usr/include\n",
    ),
    ("index /usr/include o --well-known", BESIDE, "", "|", "", ""),
    (
        "shell r --include-package a b c /usr/include --well-known",
        BESIDE,
        "",
        "|a/b/c//usr/include ",
        "",
        "",
    ),
    (
        "index r o --well-known",
        " /p/protoc ",
        "/p",
        "|",
        "",
        "protoscip: no well-known files: not beside a protoc on the PATH, nor in /usr/local/include or /usr/include\n",
    ),
];

/// The folders that options include.
fn folders_of(alloc: Global, options: &IndexOptions) -> Result<String, AllocError> {
    let mut text = String::new(alloc);
    for folder in &options.include {
        text.push_str(folder.as_str())?;
        text.push(' ')?;
    }
    text.push('|')?;
    for given in &options.include_packages {
        for part in &[&given.manager, &given.name, &given.release] {
            text.push_str(part.as_str())?;
            text.push('/')?;
        }
        text.push_str(given.folder.as_str())?;
        text.push(' ')?;
    }
    Ok(text)
}

/// The same of what is asked for.
fn included_in(alloc: Global, request: &Request) -> Result<String, AllocError> {
    match request {
        Request::Index(given) => folders_of(alloc, &given.options),
        Request::Shell(given) => folders_of(alloc, &given.options),
        _ => Ok(String::new(alloc)),
    }
}

/// Sees what becomes of one command line; memory may run out.
fn see_case(rt: &impl Abort, alloc: Global, case: &Case) -> Result<(), AllocError> {
    let (line, paths, path, folders, known, said) = *case;
    let asked = request_of(alloc, false, &words_of(alloc, line)?)?;
    let path = Some(String::from_str(alloc, path)?);
    let mut told = [0u8; 256];
    let mut messages = Std::new(told.as_mut_slice());
    let files = There { paths, alloc };
    let (now, root) = with_well_known(alloc, &files, &path, asked, &mut messages)?;
    let left = messages.into_inner().len();
    see(rt, included_in(alloc, &now)?.as_str() == folders, line);
    see(rt, root.as_deref().unwrap_or("") == known, line);
    see(
        rt,
        told.split_at(256 - left.min(256)).0 == said.as_bytes(),
        line,
    );
    Ok(())
}

#[test]
fn well_known_files_are_included(rt: HostRuntime) -> Result<(), Fail> {
    for case in &CASES {
        if see_case(&rt, rt.alloc(), case).is_err() {
            see_case(&rt, rt.alloc(), case)?;
        }
    }
    Ok(())
}

#[test]
fn variables(rt: HostRuntime) -> Result<(), Fail> {
    let text = String::from_str(rt.alloc(), "x")?;
    see(&rt, variable(Ok(text))?.is_some(), "its text");
    see(&rt, variable(Err(VarError::NotPresent))?.is_none(), "none");
    see(
        &rt,
        variable(Err(VarError::NotUnicode))?.is_none(),
        "no text",
    );
    see(
        &rt,
        variable(Err(VarError::OutOfMemory)).is_err(),
        "no memory",
    );
    Ok(())
}
