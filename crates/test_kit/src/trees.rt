//! Trees of files as texts. Each file has a line with its path, which has a `+` in front where the file is included, and
//! a `-` where it is left out of what is linked, or a `?` where it couldn't be read, and then its text; behind each
//! file, but that the last may lack it, stands `|`. An empty text is none.

ghost use Rattle.std.specs.Prelude.{ℕ, List, [], ◌∷◌, ◌++◌, ◌≡◌, ◌<◌, true, false, IfOk, OnOk, MatchOption, map};
ghost use denote.Ref.{Bor};
ghost use Rattle.test_kit.specs.Trees.{
  HasNoTree,
  IsTreeOfText,
  asked_in,
  asked_of,
  files_of,
  is_marked,
  line_of,
  minus,
  path_in,
  plus,
  question,
  source_in,
  text_of,
  without_mark,
};

use source_tree::{Source, Tree, TreeFault};
use std::alloc::{AllocError, Global};

/// A file of a tree.
#[derive(Clone, Copy, Drop)]
pub struct FileText<'a> {
    /// Its path.
    pub path: &'a str,
    /// What it holds.
    pub text: &'a str,
    /// Whether it is included, and not a source.
    pub is_included: bool,
    /// Whether it is left out of what is linked.
    pub is_left_out: bool,
    /// Whether it couldn't be read.
    pub is_unread: bool,
}

/// What stands behind a mark at the front of a line.
fn behind(line: &str, mark: char) -> Option<&str>
    requires { mark < 128 }
    ensures { MatchOption result (is_marked mark line.now ≡ false) (λ rest. (is_marked mark line.now ≡ true)
        × (rest.now ≡ without_mark mark line.now)) }
{
    line.strip_prefix(mark)
}

/// The first line, and what stands behind it.
fn first_line(file: &str) -> (&str, &str)
    ensures { (result.0.now ≡ line_of file.now) × (result.1.now ≡ text_of file.now) }
{
    file.split_once('\n').unwrap_or((file, ""))
}

/// The file of a text without the `|`.
pub fn file_text(file: &str) -> FileText<'_>
    ensures path { result.path.now ≡ path_in (line_of file.now) }
    ensures text { result.text.now ≡ text_of file.now }
    ensures included { result.is_included ≡ is_marked plus (line_of file.now) }
    ensures left_out { result.is_left_out ≡ is_marked minus (line_of file.now) }
    ensures unread { result.is_unread ≡ is_marked question (line_of file.now) }
{
    let (line, text) = first_line(file);
    let included = behind(line, '+');
    let left_out = behind(line, '-');
    let unread = behind(line, '?');
    FileText {
        path: included.or(unread).or(left_out).unwrap_or(line),
        text,
        is_included: included.is_some(),
        is_left_out: left_out.is_some(),
        is_unread: unread.is_some(),
    }
}

/// Adds a file.
fn add(alloc: Global, found: &mut Vec<Source>, text: &str) -> Result<(), AllocError>
    ensures { OnOk result (found.new.items ≡ found.old.items ++ source_in text.now ∷ []) }
{
    let file = file_text(text);
    let path = String::from_str(alloc, file.path)?;
    let bytes = Vec::from_slice(alloc, file.text.as_bytes())?;
    found.push(Source {
        path,
        bytes,
        is_unread: file.is_unread,
    })?;
    Ok(())
}

/// Adds the file of a text, if it is one of the included ones, or of the others, as is asked.
fn add_asked(
    alloc: Global,
    found: &mut Vec<Source>,
    included: bool,
    text: &str,
) -> Result<(), AllocError>
    ensures { OnOk result (found.new.items ≡ found.old.items ++ asked_in included text.now) }
{
    if text.is_empty() || file_text(text).is_included != included {
        return Ok(());
    }
    add(alloc, found, text)
}

/// The texts of files.
fn files_of(alloc: Global, text: &str) -> Result<Vec<&str>, AllocError>
    ensures { IfOk result (λ files. map (λ (file : Bor (List ℕ)). file.now) files.items ≡ files_of text.now) }
{
    text.split('|').collect(alloc)
}

/// The included files of a text, or the sources.
fn asked_of(alloc: Global, included: bool, text: &str) -> Result<Vec<Source>, AllocError>
    ensures { IfOk result (λ found. found.items ≡ asked_of included text.now) }
{
    let files = files_of(alloc, text)?;
    let mut found = Vec::new(alloc);
    for file in &files {
        add_asked(alloc, &mut found, included, *file)?;
    }
    Ok(found)
}

/// The sources of a text.
pub fn sources_of(alloc: Global, text: &str) -> Result<Vec<Source>, AllocError>
    ensures { IfOk result (λ found. found.items ≡ asked_of false text.now) }
{
    asked_of(alloc, false, text)
}

/// The tree of a text's files; none if their paths aren't good or not their own.
fn tree_once(alloc: Global, text: &str) -> Result<Option<Tree>, AllocError>
    ensures { IfOk result (λ found. MatchOption found (HasNoTree text.now) (IsTreeOfText text.now)) }
{
    let sources = sources_of(alloc, text)?;
    let included = asked_of(alloc, true, text)?;
    match Tree::with_included(alloc, sources, included) {
        Ok(tree) => Ok(Some(tree)),
        Err((_, TreeFault::Memory)) => Err(AllocError),
        Err(_) => Ok(None),
    }
}

/// The tree of a text's files, if they make one. After want of memory it is made again, and the second answer counts.
pub fn tree_of(alloc: Global, text: &str) -> Result<Option<Tree>, AllocError>
    ensures { IfOk result (λ found. MatchOption found (HasNoTree text.now) (IsTreeOfText text.now)) }
{
    match tree_once(alloc, text) {
        Err(AllocError) => tree_once(alloc, text),
        answer => answer,
    }
}
