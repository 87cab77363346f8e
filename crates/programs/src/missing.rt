//! The line that groups what is missing: the imports that lead nowhere, by their paths.

ghost use Rattle.std.specs.Prelude.{◌≡◌, ◌++◌, IfOk, OnOk, codes, map, string_bytes, take};
ghost use Rattle.std.specs.Fmt.{decimal};
ghost use Rattle.std.specs.List.{count_by, flat_map};
ghost use Rattle.std.specs.Option.{option_map};
ghost use Rattle.std.specs.Str.{bytes_eq};
ghost use Rattle.std.specs.Str.Lossy.{utf8_lossy};
ghost use Rattle.diagnostics.specs.Literals.{joined};
ghost use Rattle.protoscip.specs.FaultLines.{HaveFilesOf};
ghost use Rattle.programs.specs.Missing.{
  IsMissingLine,
  IsWithMissing,
  group_text,
  left_out_sentence,
  many_front,
  many_line,
  missing_in,
  missing_line,
  missing_paths,
  most_named,
  one_front,
  one_line,
  others_text,
};

use diagnostics::push_joined;
use fault_reports::Finding;
use protoscip::all_findings;
use scip_build::Omission;
use source_files::once;
use source_tree::Tree;
use std::alloc::{AllocError, Global};

/// What is said of an import of a file that is left out: it isn't missing.
const LEFT_OUT: &str = "the file with this path is left out";

/// At most so many paths are named.
const MOST_NAMED: usize = 8;

/// The path that the literals of an import spell together.
fn path_of(alloc: Global, literals: &[u8]) -> Result<String, AllocError>
    ensures { IfOk result (λ path. string_bytes path ≡ utf8_lossy (joined literals.now)) }
{
    let mut path = Vec::new(alloc);
    push_joined(&mut path, literals)?;
    String::from_utf8_lossy(alloc, path.as_slice())
}

/// Whether a finding says that the file is left out.
fn is_left_out(message: &str) -> bool
    ensures { result ≡ bytes_eq message.now left_out_sentence }
{
    message == LEFT_OUT
}

/// Adds the path that is missing by a finding, if it is one of an import of a file that isn't there.
fn push_missing(
    alloc: Global,
    paths: &mut Vec<String>,
    finding: &Finding<'_>,
) -> Result<(), AllocError>
    ensures { OnOk result (map string_bytes paths.new.items ≡ map string_bytes paths.old.items
        ++ missing_in finding.now) }
{
    if is_left_out(finding.message) {
        return Ok(());
    }
    if let Some(literals) = finding.import {
        let path = path_of(alloc, literals)?;
        paths.push(path)?;
    }
    Ok(())
}

/// The paths that are missing by findings, one for each import.
fn paths_of(alloc: Global, findings: &[Finding<'_>]) -> Result<Vec<String>, AllocError>
    ensures { IfOk result (λ paths. map string_bytes paths.items ≡ flat_map missing_in findings.now) }
{
    let mut paths = Vec::new(alloc);
    for finding in findings {
        push_missing(alloc, &mut paths, finding)?;
    }
    Ok(paths)
}

/// The paths that are missing by what an index of a tree lacks, one for each import.
fn missing_paths(alloc: Global, tree: &Tree, told: &[Omission]) -> Result<Vec<String>, AllocError>
    requires { HaveFilesOf tree.now told.now }
    ensures { IfOk result (λ paths. map string_bytes paths.items ≡ missing_paths tree.now told.now) }
{
    let findings = all_findings(alloc, tree, &[], told)?;
    paths_of(alloc, findings.as_slice())
}

/// Paths of their own.
fn copies_of(alloc: Global, paths: &[String]) -> Result<Vec<String>, AllocError>
    ensures { IfOk result (λ copies. map string_bytes copies.items ≡ map string_bytes paths.now) }
{
    let mut copies = Vec::new(alloc);
    for path in paths {
        copies.push(String::from_str(alloc, path.as_str())?)?;
    }
    Ok(copies)
}

/// Whether a path is this one.
fn is_path(path: &String, other: &str) -> bool
    ensures { result ≡ bytes_eq (string_bytes path.now) other.now }
{
    path.as_str() == other
}

/// How many of these paths are this one.
fn count_of(paths: &[String], path: &str) -> usize
    ensures { result ≡ count_by (λ one. bytes_eq one path.now) (map string_bytes paths.now) }
{
    paths.iter().filter(|one| is_path(*one, path)).count()
}

/// `, N of PATH`
fn group_of(alloc: Global, count: usize, path: &str) -> Result<String, AllocError>
    ensures { IfOk result (λ text. string_bytes text
        ≡ codes ", " ++ decimal count ++ codes " of " ++ path.now) }
{
    format!(in alloc; ", {count} of {path}")
}

/// Appends a path with the number of its imports.
fn push_group(
    alloc: Global,
    line: &mut String,
    paths: &[String],
    path: &str,
) -> Result<(), AllocError>
    ensures { OnOk result (string_bytes line.new ≡ string_bytes line.old
        ++ group_text (map string_bytes paths.now) path.now) }
{
    let group = group_of(alloc, count_of(paths, path), path)?;
    line.push_str(group.as_str())
}

/// Appends each of these paths with the number of its imports.
fn push_groups(
    alloc: Global,
    line: &mut String,
    paths: &[String],
    named: &[String],
) -> Result<(), AllocError>
    ensures { OnOk result (string_bytes line.new ≡ string_bytes line.old
        ++ flat_map (group_text (map string_bytes paths.now)) (map string_bytes named.now)) }
{
    for path in named {
        push_group(alloc, line, paths, path.as_str())?;
    }
    Ok(())
}

/// The first of these paths, as many as are named.
fn named_of(each: &[String]) -> &[String]
    ensures { map string_bytes result.now ≡ take most_named (map string_bytes each.now) }
{
    each.split_at(each.len().min(MOST_NAMED)).0
}

/// How the line begins of one path.
fn one_front(alloc: Global, count: usize, path: &str) -> Result<String, AllocError>
    ensures { IfOk result (λ front. string_bytes front ≡ one_front count path.now) }
{
    if count == 1 {
        format!(in alloc; "protoscip: 1 import of {path} leads")
    } else {
        format!(in alloc; "protoscip: {count} imports of {path} lead")
    }
}

/// The line, without its end, of one path.
fn one_line(alloc: Global, paths: &[String], path: &str) -> Result<String, AllocError>
    ensures { IfOk result (λ line. string_bytes line ≡ one_line (map string_bytes paths.now) path.now) }
{
    let mut line = one_front(alloc, paths.len(), path)?;
    line.push_str(" nowhere: --include the folder that has it")?;
    Ok(line)
}

/// How the line begins of several paths.
fn many_front(alloc: Global, count: usize) -> Result<String, AllocError>
    ensures { IfOk result (λ front. string_bytes front
        ≡ many_front count) }
{
    format!(in alloc; "protoscip: {count} imports lead nowhere")
}

/// What is said if there are more than are named.
fn others_text(each: &[String]) -> &'static str
    ensures { result.now ≡ others_text (map string_bytes each.now) }
{
    if MOST_NAMED < each.len() {
        " and others"
    } else {
        ""
    }
}

/// The line, without its end, of several paths.
fn many_line(alloc: Global, paths: &[String], each: &[String]) -> Result<String, AllocError>
    ensures { IfOk result (λ line. string_bytes line ≡ many_line (map string_bytes paths.now)
        (map string_bytes each.now)) }
{
    let mut line = many_front(alloc, paths.len())?;
    push_groups(alloc, &mut line, paths, named_of(each))?;
    line.push_str(others_text(each))?;
    line.push_str(": --include the folders that have them")?;
    Ok(line)
}

/// The line, without its end, by the paths that are missing, and these once each; none if nothing is missing.
fn line_of(alloc: Global, paths: &[String], each: &[String]) -> Result<Option<String>, AllocError>
    ensures { IfOk result (λ line. option_map string_bytes line ≡ missing_line (map string_bytes paths.now)
        (map string_bytes each.now)) }
{
    match each {
        [] => Ok(None),
        [path] => Ok(Some(one_line(alloc, paths, path.as_str())?)),
        _ => Ok(Some(many_line(alloc, paths, each)?)),
    }
}

/// The line, without its end, of a tree whose index lacks this; none if nothing is missing.
fn missing_line(alloc: Global, tree: &Tree, told: &[Omission]) -> Result<Option<String>, AllocError>
    requires { HaveFilesOf tree.now told.now }
    ensures { IfOk result (λ line. IsMissingLine tree.now told.now (option_map string_bytes line)) }
{
    let paths = missing_paths(alloc, tree, told)?;
    let each = once(copies_of(alloc, paths.as_slice())?)?;
    line_of(alloc, paths.as_slice(), each.as_slice())
}

/// A text, and behind a line end a line.
fn with_line(text: String, line: &str) -> Result<String, AllocError>
    ensures { IfOk result (λ all. string_bytes all ≡ string_bytes text ++ codes "\n" ++ line.now) }
{
    let mut all = text;
    all.push_str("\n")?;
    all.push_str(line)?;
    Ok(all)
}

/// A text of what an index of a tree lacks, and behind it the line of what is missing, if that is wanted and something
/// is missing.
pub(crate) fn with_missing(
    alloc: Global,
    wanted: bool,
    tree: &Tree,
    told: &[Omission],
    text: String,
) -> Result<String, AllocError>
    requires { HaveFilesOf tree.now told.now }
    ensures { IfOk result (λ all. IsWithMissing wanted tree.now told.now (string_bytes text) (string_bytes all)) }
{
    if !wanted {
        return Ok(text);
    }
    match missing_line(alloc, tree, told)? {
        Some(line) => with_line(text, line.as_str()),
        None => Ok(text),
    }
}
