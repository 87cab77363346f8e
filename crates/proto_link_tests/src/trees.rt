//! Trees of sources as texts, in the form of `test_kit`, and the files that are linked.

ghost use Rattle.proto_visibility.specs.Files.{HaveOwnPaths};

use crate::answers::{answer_in_parts, answer_of};
use crate::facts::facts_of;
use crate::kept::{are_kept_as_scanned, kept_answer};
use crate::meanings::scan_of;
use proto_decl::FileFacts;
use proto_link::{Duplicates, LinkFile, have_own_paths};
use std::alloc::Global;
use std::process::Abort;
use test_kit::{FileText, Made, file_text};

/// The files of a tree.
pub(crate) fn sources_of<'a>(alloc: Global, tree: &'a str) -> Made<Vec<FileText<'a>>> {
    let mut sources = Vec::new(alloc);
    for file in tree.split_terminator('|') {
        sources.push(file_text(file))?;
    }
    Ok(sources)
}

/// Adds the facts of a source.
fn add_facts<'t>(
    alloc: Global,
    all: &mut Vec<Option<FileFacts<'t>>>,
    number: usize,
    text: &'t str,
) -> Made<()> {
    let facts = facts_of(alloc, number, text)?;
    all.push(facts)?;
    Ok(())
}

/// Adds the facts of each source.
pub(crate) fn add_all_facts<'t>(
    alloc: Global,
    all: &mut Vec<Option<FileFacts<'t>>>,
    sources: &[FileText<'t>],
) -> Made<()> {
    for (number, source) in sources.iter().enumerate() {
        add_facts(alloc, all, number, source.text)?;
    }
    Ok(())
}

/// The facts of the file with this number.
fn facts_at<'a, 't>(
    facts: &'a [Option<FileFacts<'t>>],
    number: usize,
) -> Option<&'a FileFacts<'t>> {
    match facts.get(number) {
        Some(facts) => facts.as_ref(),
        None => None,
    }
}

/// The files that are linked, and whether names in their options are.
pub(crate) fn files_of<'a, 't>(
    alloc: Global,
    sources: &'a [FileText<'a>],
    facts: &'a [Option<FileFacts<'t>>],
    links_options: bool,
) -> Made<Vec<LinkFile<'a, 't>>> {
    let mut files = Vec::with_capacity(alloc, sources.len())?;
    for (number, source) in sources.iter().enumerate() {
        files.push(LinkFile {
            path: source.path,
            facts: facts_at(facts, number),
            included: source.is_included,
            left_out: source.is_left_out,
            links_options,
        })?;
    }
    Ok(files)
}

/// What is due of a tree, if that is told.
#[derive(Clone, Copy)]
pub(crate) enum Due<'a> {
    /// Nothing is told.
    Any,
    /// What linking answers to all files.
    Linked(&'a str),
    /// What linking answers to the files that are kept, with those that are left out.
    Kept(&'a str),
    /// What linking answers to all files, of which several may give one name.
    Several(&'a str),
}

/// Whether what linking answers to the files that are kept is what is due of them.
fn is_kept_due<'a>(alloc: Global, files: &'a [LinkFile<'a, '_>], due: Due<'_>) -> Made<bool>
    requires { HaveOwnPaths files.now }
{
    match due {
        Due::Kept(text) => {
            let answer = kept_answer(alloc, files, Duplicates::Refuse)?;
            Ok(answer.as_str() == text)
        }
        Due::Any | Due::Linked(_) | Due::Several(_) => Ok(true),
    }
}

/// What is due of all files, if it is told.
fn due_of_all<'a>(due: Due<'a>, duplicates: Duplicates) -> Option<&'a str> {
    match (due, duplicates) {
        (Due::Linked(text), Duplicates::Refuse) => Some(text),
        (Due::Several(text), Duplicates::Keep) => Some(text),
        (_, _) => None,
    }
}

/// Whether linking answers to files what scans tell, be it in one or in two parts, and what is due.
fn are_files_linked<'a>(
    alloc: Global,
    files: &'a [LinkFile<'a, '_>],
    duplicates: Duplicates,
    due: Option<&str>,
) -> Made<bool>
    requires { HaveOwnPaths files.now }
{
    let answer = answer_of(alloc, files, duplicates)?;
    let in_parts = answer_in_parts(alloc, files, duplicates)?;
    let scan = scan_of(alloc, files, duplicates)?;
    Ok(
        in_parts.as_str() == answer.as_str()
            && scan.as_str() == answer.as_str()
            && (due.is_none() || due == Some(answer.as_str()))
            && are_kept_as_scanned(alloc, files, duplicates)?,
    )
}

/// The same whether several files may give one name or not.
fn are_files_answered<'a>(
    alloc: Global,
    files: &'a [LinkFile<'a, '_>],
    due: Due<'_>,
) -> Made<bool> {
    if !have_own_paths(alloc, files)? {
        return Ok(due_of_all(due, Duplicates::Refuse) == Some("a path twice\n"));
    }
    let (refuse, keep) = (Duplicates::Refuse, Duplicates::Keep);
    Ok(
        are_files_linked(alloc, files, refuse, due_of_all(due, refuse))?
            && are_files_linked(alloc, files, keep, due_of_all(due, keep))?
            && is_kept_due(alloc, files, due)?,
    )
}

/// The same of sources and their facts.
fn is_answered_with(
    alloc: Global,
    sources: &[FileText],
    facts: &[Option<FileFacts>],
    due: Due<'_>,
) -> Made<bool> {
    let files = files_of(alloc, sources, facts, false)?;
    are_files_answered(alloc, files.as_slice(), due)
}

/// The same of sources.
fn is_answered_of(alloc: Global, sources: &[FileText], due: Due<'_>) -> Made<bool> {
    let mut facts = Vec::new(alloc);
    add_all_facts(alloc, &mut facts, sources)?;
    is_answered_with(alloc, sources, facts.as_slice(), due)
}

/// The same of a tree.
fn is_answered_once(alloc: Global, tree: &str, due: Due<'_>) -> Made<bool> {
    let sources = sources_of(alloc, tree)?;
    is_answered_of(alloc, sources.as_slice(), due)
}

/// Whether linking answers to a tree what scans tell, and what is due, if that is told. After want of
/// memory all of it is made again, and the second answer counts.
fn is_answered(alloc: Global, tree: &str, due: Due<'_>) -> Made<bool> {
    match is_answered_once(alloc, tree, due) {
        Err(_) => is_answered_once(alloc, tree, due),
        answer => answer,
    }
}

/// Ends the test, with this number, where something isn't right.
pub(crate) fn see(rt: &impl Abort, number: usize, is_right: bool) {
    assert!(rt; is_right, "wrong at {number}");
}

/// Ends the test, with this number, where linking doesn't answer to a tree what is due.
pub(crate) fn see_tree(
    rt: &impl Abort,
    alloc: Global,
    number: usize,
    tree: &str,
    due: Due<'_>,
) -> Made<()> {
    see(rt, number, is_answered(alloc, tree, due)?);
    Ok(())
}
