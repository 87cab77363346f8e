//! That a tree has no sources.

ghost use Rattle.std.specs.Prelude.{◌≡◌, ◌||◌, IfOk, string_bytes};
ghost use Rattle.std.specs.Option.{option_map};
ghost use Rattle.programs.specs.NoSources.{NoneFound, NoneListed, counted_text, no_list_line, no_sources_line};
ghost use Rattle.programs.specs.NoSources.{passed_text};

use source_files::{LookAgain, PassedOver};
use source_tree::Tree;
use std::alloc::{AllocError, Global};

/// How many were passed over, in brackets.
fn counted_text(alloc: Global, links: u64, others: u64) -> Result<String, AllocError>
    ensures { IfOk result (λ text. string_bytes text ≡ counted_text links others) }
{
    format!(in alloc; " ({links} symbolic links, {others} files with other names)")
}

/// The same; nothing if nothing was.
fn passed_text(alloc: Global, links: u64, others: u64) -> Result<String, AllocError>
    ensures { IfOk result (λ text. string_bytes text ≡ passed_text links others) }
{
    if links == 0 && others == 0 {
        return Ok(String::new(alloc));
    }
    counted_text(alloc, links, others)
}

/// The line, without its end, that says that there are no sources below a root.
fn no_sources_line(alloc: Global, root: &str, passed: PassedOver) -> Result<String, AllocError>
    ensures { IfOk result (λ line. string_bytes line ≡ no_sources_line root.now passed) }
{
    let mut line = format!(in alloc; "protoscip: no sources below {root}")?;
    let text = passed_text(alloc, passed.links, passed.others)?;
    line.push_str(text.as_str())?;
    Ok(line)
}

/// The line, without its end, that says of a tree that it has no source, if that is asked for and it has none: with
/// what a walk below its root passes over.
pub(crate) fn none_found<F: LookAgain>(
    alloc: Global,
    files: &F,
    root: &str,
    tree: &Tree,
    asked: bool,
) -> Result<Option<String>, AllocError>
    ensures { IfOk result (λ line. NoneFound (F.passes files.now root.now) root.now tree.now asked
        (option_map string_bytes line)) }
{
    if !asked {
        return Ok(None);
    }
    if tree.source_count() > 0 {
        return Ok(None);
    }
    let passed = files.passed_over(root)?;
    Ok(Some(no_sources_line(alloc, root, passed)?))
}

/// The line, without its end, that says that a list names no sources.
fn no_list_line(alloc: Global, file: &str) -> Result<String, AllocError>
    ensures { IfOk result (λ line. string_bytes line ≡ no_list_line file.now) }
{
    let line = format!(in alloc; "protoscip: no sources in {file}")?;
    Ok(line)
}

/// The line, without its end, that says of a tree that it has no source, if that is asked for and it has none: its list
/// names none.
pub(crate) fn none_listed(
    alloc: Global,
    file: &str,
    tree: &Tree,
    asked: bool,
) -> Result<Option<String>, AllocError>
    ensures { IfOk result (λ line. NoneListed file.now tree.now asked (option_map string_bytes line)) }
{
    if !asked {
        return Ok(None);
    }
    if tree.source_count() >= 1 {
        return Ok(None);
    }
    let line = no_list_line(alloc, file)?;
    Ok(Some(line))
}
