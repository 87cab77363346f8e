//! A list of sources: a path on each line.

ghost use Rattle.std.specs.Prelude.{◌≡◌, ◌≤◌, ◌==◌, ◌+◌, ◌++◌, ◌∷◌, [], ℕ, List, IfErr, MatchResult, OnOk, Some, cond};
ghost use Rattle.std.specs.Prelude.{length};
ghost use Rattle.std.specs.List.{count_by};
ghost use Rattle.std.specs.Option.{is_some};
ghost use Rattle.std.specs.Str.{bytes_eq};
ghost use Rattle.std.specs.Str.Lines.{strip_carriage_return};
ghost use Rattle.source_files.specs.SourceLists.{
  AddsLine,
  AreListedIn,
  AreNamed,
  AreSeen,
  MayNotAdd,
  MayRefuseLines,
  MayRefuseList,
  line_of,
  lines_of,
};

use source_tree::{MAX_FILES, is_good_path};
use std::alloc::{AllocError, Global};
use std::collections::HashMap;
use std::marker::Model;
use thiserror::Error;

/// The most bytes of a list.
pub const MAX_LIST_LENGTH: usize = 67_108_864;

/// A path that a list names.
///
/// Contracts see the bytes of the path, and the number of its line.
#[derive(Debug, Drop)]
pub struct ListedPath {
    /// The path.
    pub path: String,
    /// The number of its line, from 1.
    pub line: usize,
}

impl Model for ListedPath {
    ghost use Rattle.std.specs.String.{string_bytes};
    ghost use Rattle.source_files.specs.SourceLists.{Listed};

    ghost Value = { Listed };

    ghost view = { λ listed. record { path = string_bytes listed.path; line = listed.line } };
}

/// Why a list names no sources.
#[derive(Clone, Copy, Debug, Drop, PartialEq, Eq, Error)]
pub enum ListFault {
    /// It has more than `MAX_LIST_LENGTH` bytes.
    #[error("a list of sources has more than {most} bytes", most = MAX_LIST_LENGTH)]
    TooLong,
    /// The line with this number, from 1, isn't UTF-8. The first of them.
    #[error("line {0} isn't UTF-8")]
    NotUtf8(usize),
    /// The line with this number, from 1, is no good path. The first of them.
    #[error("line {0} isn't a good path")]
    BadPath(usize),
    /// It names more different paths than a tree has files.
    #[error("a list names more than {most} paths", most = MAX_FILES)]
    TooMany,
    /// Memory ran out.
    #[error("memory ran out")]
    Memory,
}

impl From<AllocError> for ListFault {
    ghost use Rattle.source_files.specs.declared.source_list.ListFault.TheVariants.{Memory};

    ghost from_gives = { λ _ e. e ≡ Memory };

    fn from(_refused: AllocError) -> ListFault {
        ListFault::Memory
    }
}

/// A line without what may come before its end: `\r`.
fn bare_line(line: &str) -> &str
    ensures { result.now ≡ strip_carriage_return line.now }
{
    match line.strip_suffix("\r") {
        Some(bare) => bare,
        None => line,
    }
}

/// Whether a byte ends a line.
fn ends_line(byte: u8) -> bool
    ensures { result ≡ (byte == 10) }
{
    byte == b'\n'
}

/// The number of the line, from 1, at the end of this front of a list.
fn line_at(front: &[u8]) -> usize
    requires { length front.now ≤ MAX_LIST_LENGTH }
    ensures { result ≡ count_by (λ byte. byte == 10) front.now + 1 }
{
    front.iter().filter(|byte| ends_line(**byte)).count() + 1
}

/// Whether a path is one of those that are listed.
fn is_seen(seen: &HashMap<&str, usize>, path: &str) -> bool
    ensures { result ≡ is_some (line_of seen.now path.now) }
{
    seen.contains_key(path)
}

/// Adds a path to those that are listed.
fn see<'t>(seen: &mut HashMap<&'t str, usize>, line: usize, path: &'t str) -> Result<(), AllocError>
    ensures { OnOk result ((other : List ℕ) → line_of seen.new other
        ≡ cond (bytes_eq path.now other) (Some line) (line_of seen.old other)) }
{
    seen.insert(path, line)?;
    Ok(())
}

/// Adds a path of a line with a number.
fn push_path(
    alloc: Global,
    paths: &mut Vec<ListedPath>,
    line: usize,
    path: &str,
) -> Result<(), AllocError>
    ensures { OnOk result (paths.new.items ≡ paths.old.items ++ record { path = path.now; line = line } ∷ []) }
{
    let path = String::from_str(alloc, path)?;
    paths.push(ListedPath { path, line })?;
    Ok(())
}

/// Adds the path that a line with a number names; nothing if the line is empty, or its path is listed already.
fn add_line<'t>(
    alloc: Global,
    paths: &mut Vec<ListedPath>,
    seen: &mut HashMap<&'t str, usize>,
    line: usize,
    text: &'t str,
) -> Result<(), ListFault>
    requires { AreSeen seen.old paths.old.items }
    ensures seen { OnOk result (AreSeen seen.new paths.new.items) }
    ensures added { OnOk result (AddsLine line text.now paths.old.items paths.new.items) }
    ensures refused { IfErr result (MayNotAdd line text.now paths.old.items) }
{
    let bare = bare_line(text);
    if bare.is_empty() {
        return Ok(());
    }
    if is_seen(seen, bare) {
        return Ok(());
    }
    if paths.len() >= MAX_FILES {
        return Err(ListFault::TooMany);
    }
    if !is_good_path(bare) {
        return Err(ListFault::BadPath(line));
    }
    see(seen, line, bare)?;
    push_path(alloc, paths, line, bare)?;
    Ok(())
}

/// The paths that a text lists, a line each; behind the last line end there is one more line, which may be empty.
fn paths_in(alloc: Global, text: &str) -> Result<Vec<ListedPath>, ListFault>
    requires { length text.now ≤ MAX_LIST_LENGTH }
    ensures { MatchResult result (λ paths. AreNamed (lines_of text.now) paths.items)
        (MayRefuseLines (lines_of text.now)) }
{
    let mut paths = Vec::new(alloc);
    let mut seen = HashMap::new(alloc);
    let mut number: usize = 0;
    for line in text.split('\n') {
        number += 1;
        add_line(alloc, &mut paths, &mut seen, number, line)?;
    }
    Ok(paths)
}

/// The paths that the bytes of a list name, a line each, in their order. A line ends with `\n` or `\r\n`. An empty one
/// names nothing, and one with the path of a line before it nothing more.
///
/// The first of these: `TooLong`; `NotUtf8`; then line by line `TooMany` and `BadPath`. `Memory` may come at any step.
pub fn listed_paths(alloc: Global, bytes: &[u8]) -> Result<Vec<ListedPath>, ListFault>
    ensures { MatchResult result (λ paths. AreListedIn bytes.now paths.items) (MayRefuseList bytes.now) }
{
    if bytes.len() > MAX_LIST_LENGTH {
        return Err(ListFault::TooLong);
    }
    match str::from_utf8(bytes) {
        Ok(text) => paths_in(alloc, text),
        Err(error) => {
            let (front, _) = bytes.split_at(error.valid_up_to());
            Err(ListFault::NotUtf8(line_at(front)))
        }
    }
}
