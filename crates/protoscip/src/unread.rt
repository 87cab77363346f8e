//! What isn't read below the folders of a run, and is left out of its tree.

ghost use Rattle.std.specs.Prelude.{◌≡◌, ◌++◌, IfOk, OnOk, map, string_bytes};
ghost use Rattle.protoscip.specs.Unread.{
  bad_path_sentence,
  unread_explanation,
  unread_finding,
  unread_line,
  unread_lines,
  unread_name,
  unread_sentence,
  unread_text,
};

use crate::lines::path_line;
use fault_reports::{Finding, FindingKind, Place};
use proto_parse::Dialect;
use std::alloc::{AllocError, Global};
use std::marker::Model;

/// What isn't read, by its path below its root. That of a folder ends in `/`.
///
/// Contracts see the bytes of what is shown, the path's own, and whether it is bad.
#[derive(Debug, Drop)]
pub struct UnreadPath {
    /// What is shown of the path: bytes that aren't UTF-8 and control characters are in the form `\xe9`.
    pub shown: String,
    /// The path.
    pub bytes: Vec<u8>,
    /// Whether it is no good path; else it can't be read, or its name isn't UTF-8.
    pub is_bad: bool,
}

impl Model for UnreadPath {
    ghost use Rattle.std.specs.String.{string_bytes};
    ghost use Rattle.protoscip.specs.Unread.{PathUnread};

    ghost Value = { PathUnread };

    ghost view = { λ path. record {
      shown = string_bytes path.shown;
      bytes = path.bytes.items;
      is_bad = path.is_bad;
    } };
}

impl UnreadPath {
    /// What is shown of the path.
    fn shown(&self) -> &str
        ensures { result.now ≡ self.now.shown }
    {
        self.shown.as_str()
    }

    /// The path.
    fn bytes(&self) -> &[u8]
        ensures { result.now ≡ self.now.bytes }
    {
        self.bytes.as_slice()
    }

    /// Its name in a line.
    fn name(&self) -> &'static str
        ensures { result.now ≡ unread_name self.now.is_bad }
    {
        if self.is_bad { "BadPath" } else { "Unreadable" }
    }

    /// The sentence about it.
    fn sentence(&self) -> &'static str
        ensures { result.now ≡ unread_sentence self.now.is_bad }
    {
        if self.is_bad {
            bad_path_sentence()
        } else {
            "it can't be read, or its name isn't UTF-8"
        }
    }
}

/// The sentence about a path that is no good one.
pub fn bad_path_sentence() -> &'static str
    ensures { result.now ≡ bad_path_sentence }
{
    "a path has at most 4096 bytes, and no character below U+0020"
}

/// The line, without its end, of a path.
fn unread_line(alloc: Global, path: &UnreadPath) -> Result<String, AllocError>
    ensures { IfOk result (λ line. string_bytes line ≡ unread_line path.now) }
{
    let mut skipped = String::from_str(alloc, "skipped: ")?;
    skipped.push_str(path.shown())?;
    path_line(alloc, skipped.as_str(), path.name())
}

/// Appends the sentence to a line, if it is to be explained.
fn push_explanation(
    out: &mut String,
    path: &UnreadPath,
    explain: Option<Dialect>,
) -> Result<(), AllocError>
    ensures { OnOk result (string_bytes out.new
        ≡ string_bytes out.old ++ unread_explanation explain path.now.is_bad) }
{
    if explain.is_none() {
        return Ok(());
    }
    out.push_str("\n")?;
    out.push_str(path.sentence())
}

/// Appends the line of a path, with its end, explained if that is asked for.
fn push_path(
    alloc: Global,
    out: &mut String,
    path: &UnreadPath,
    explain: Option<Dialect>,
) -> Result<(), AllocError>
    ensures { OnOk result (string_bytes out.new ≡ string_bytes out.old ++ unread_text explain path.now) }
{
    let line = unread_line(alloc, path)?;
    out.push_str(line.as_str())?;
    push_explanation(out, path, explain)?;
    out.push_str("\n")
}

/// Appends the lines of these paths, in their order.
pub(crate) fn push_unread(
    alloc: Global,
    out: &mut String,
    unread: &[UnreadPath],
    explain: Option<Dialect>,
) -> Result<(), AllocError>
    ensures { OnOk result (string_bytes out.new ≡ string_bytes out.old ++ unread_lines explain unread.now) }
{
    for path in unread {
        push_path(alloc, out, path, explain)?;
    }
    Ok(())
}

/// The finding of a path.
fn unread_finding(path: &UnreadPath) -> Finding<'_>
    ensures { result ≡ unread_finding path.now }
{
    Finding {
        kind: FindingKind::Skipped,
        name: path.name(),
        message: path.sentence(),
        place: Some(Place::of_entry(path.shown(), path.bytes())),
        met: None,
        named: None,
        first: None,
        import: None,
    }
}

/// The findings of these paths, in their order.
pub(crate) fn unread_findings(
    alloc: Global,
    unread: &[UnreadPath],
) -> Result<Vec<Finding<'_>>, AllocError>
    ensures { IfOk result (λ findings. findings.items ≡ map unread_finding unread.now) }
{
    let mut findings = Vec::new(alloc);
    for path in unread {
        findings.push(unread_finding(path))?;
    }
    Ok(findings)
}
