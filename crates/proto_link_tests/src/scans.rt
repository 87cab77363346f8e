//! Which files see which, and why files can't be linked, found by scans of all files.

use crate::items::{add_items_of, first_clash};
use proto_link::{Duplicates, FileOmission, FilePlace, LinkFault, LinkFile};
use proto_parse::ImportKind;
use std::alloc::Global;
use test_kit::Made;

/// Whether a file has an import of a path, and a public one where that is asked for.
fn imports(files: &[LinkFile], file: usize, path: &str, publicly: bool) -> bool {
    let Some(file) = files.get(file) else {
        return false;
    };
    let Some(facts) = file.facts else {
        return false;
    };
    for import in facts.imports() {
        if import.path.as_str() == path && (!publicly || import.kind == ImportKind::Public) {
            return true;
        }
    }
    false
}

/// Whether one of these files has an import of a path.
fn is_imported(files: &[LinkFile], by: &[usize], path: &str, publicly: bool) -> bool {
    for file in by {
        if imports(files, *file, path, publicly) {
            return true;
        }
    }
    false
}

/// Adds the files that these import, or, where none are told, those that the files seen publicly import.
fn add_imported(files: &[LinkFile], by: Option<&[usize]>, seen: &mut Vec<usize>) -> Made<()> {
    for (other, imported) in files.iter().enumerate() {
        let is = match by {
            Some(numbers) => is_imported(files, numbers, imported.path, false),
            None => is_imported(files, seen.as_slice(), imported.path, true),
        };
        if is && !seen.contains(&other) {
            seen.push(other)?;
        }
    }
    Ok(())
}

/// Adds what some of these files see: what they import, and, until there is no more, what those publicly import; and
/// themselves.
fn add_seen(files: &[LinkFile], numbers: &[usize], seen: &mut Vec<usize>) -> Made<()> {
    add_imported(files, Some(numbers), seen)?;
    for _ in files {
        let count = seen.len();
        add_imported(files, None, seen)?;
        if seen.len() == count {
            break;
        }
    }
    seen.extend_from_slice(numbers)?;
    Ok(())
}

/// What some of these files see.
pub(crate) fn seen_by(alloc: Global, files: &[LinkFile], numbers: &[usize]) -> Made<Vec<usize>> {
    let mut seen = Vec::new(alloc);
    add_seen(files, numbers, &mut seen)?;
    Ok(seen)
}

/// Whether a file is a source: neither included nor left out.
pub(crate) fn is_source(file: &LinkFile) -> bool {
    !file.included && !file.left_out
}

/// Those of these files that aren't left out.
fn present_of(alloc: Global, files: &[LinkFile], numbers: &[usize]) -> Made<Vec<usize>> {
    let mut present = Vec::new(alloc);
    for (number, file) in files.iter().enumerate() {
        if numbers.contains(&number) && !file.left_out {
            present.push(number)?;
        }
    }
    Ok(present)
}

/// The files that some source sees and that aren't left out.
fn counted_of(alloc: Global, files: &[LinkFile]) -> Made<Vec<usize>> {
    let sources = sources_of(alloc, files)?;
    let seen = seen_by(alloc, files, sources.as_slice())?;
    present_of(alloc, files, seen.as_slice())
}

/// The first of these files that has no facts.
pub(crate) fn first_unread(files: &[LinkFile], reachable: &[usize]) -> Option<usize> {
    for (number, file) in files.iter().enumerate() {
        if file.facts.is_none() && reachable.contains(&number) {
            return Some(number);
        }
    }
    None
}

/// Whether a file that isn't left out has this path.
fn has_path(files: &[LinkFile], path: &str) -> bool {
    for file in files {
        if file.path == path && !file.left_out {
            return true;
        }
    }
    false
}

/// Adds the imports of a file that have to be there and name no file.
fn add_absent(
    files: &[LinkFile],
    number: usize,
    file: &LinkFile,
    absent: &mut Vec<FilePlace>,
) -> Made<()> {
    let Some(facts) = file.facts else {
        return Ok(());
    };
    for import in facts.imports() {
        let is_needed = !file.included || import.kind == ImportKind::Public;
        if is_needed && !has_path(files, import.path.as_str()) {
            let span = import.span;
            absent.push(FilePlace { file: number, span })?;
        }
    }
    Ok(())
}

/// Adds the imports that have to be there and name no file, of the files that count.
fn add_all_absent(
    files: &[LinkFile],
    reachable: &[usize],
    absent: &mut Vec<FilePlace>,
) -> Made<()> {
    for (number, file) in files.iter().enumerate() {
        if reachable.contains(&number) {
            add_absent(files, number, file, absent)?;
        }
    }
    Ok(())
}

/// The imports that have to be there and name no file, of all files that count, in order.
pub(crate) fn absent_of(alloc: Global, files: &[LinkFile]) -> Made<Vec<FilePlace>> {
    let reachable = counted_of(alloc, files)?;
    let mut absent = Vec::new(alloc);
    add_all_absent(files, reachable.as_slice(), &mut absent)?;
    Ok(absent)
}

/// The places of the first clash in files with these numbers.
fn clash_of(
    alloc: Global,
    files: &[LinkFile],
    numbers: &[usize],
    duplicates: Duplicates,
) -> Made<Option<(FilePlace, FilePlace)>> {
    let mut items = Vec::new(alloc);
    add_items_of(alloc, &mut items, files, numbers)?;
    Ok(first_clash(items.as_slice(), duplicates))
}

/// Why files can't be linked of which these count, if they can't.
fn fault_of_counted(
    alloc: Global,
    files: &[LinkFile],
    reachable: &[usize],
    duplicates: Duplicates,
) -> Made<Option<LinkFault>> {
    if let Some(file) = first_unread(files, reachable) {
        return Ok(Some(LinkFault::Broken(file)));
    }
    if let Some((first, second)) = clash_of(alloc, files, reachable, duplicates)? {
        return Ok(Some(LinkFault::Duplicate(first, second)));
    }
    let absent = absent_of(alloc, files)?;
    Ok(absent.first().map(|place| LinkFault::MissingImport(*place)))
}

/// Why a file that counts is left out, if it is: it has no facts, or a name clashes with one of the files
/// that are kept so far, or with another of its own. One that isn't left out is kept, too.
fn omission_of(
    alloc: Global,
    files: &[LinkFile],
    kept: &mut Vec<usize>,
    number: usize,
    duplicates: Duplicates,
) -> Made<Option<FileOmission>> {
    let has_facts = match files.get(number) {
        Some(file) => file.facts.is_some(),
        None => false,
    };
    if !has_facts {
        return Ok(Some(FileOmission::Broken));
    }
    kept.push(number)?;
    match clash_of(alloc, files, kept.as_slice(), duplicates)? {
        Some((first, second)) => {
            kept.pop();
            Ok(Some(FileOmission::Duplicate(first, second)))
        }
        None => Ok(None),
    }
}

/// Notes for each of these files why it is left out, if it is.
fn note_omissions(
    alloc: Global,
    files: &[LinkFile],
    taken: &[usize],
    kept: &mut Vec<usize>,
    duplicates: Duplicates,
    omissions: &mut Vec<Option<FileOmission>>,
) -> Made<()> {
    for number in 0..files.len() {
        if taken.contains(&number) {
            let omission = omission_of(alloc, files, kept, number, duplicates)?;
            if let Some(noted) = omissions.get_mut(number) {
                *noted = omission;
            }
        }
    }
    Ok(())
}

/// The sources.
fn sources_of(alloc: Global, files: &[LinkFile]) -> Made<Vec<usize>> {
    let mut sources = Vec::new(alloc);
    for (number, file) in files.iter().enumerate() {
        if is_source(file) {
            sources.push(number)?;
        }
    }
    Ok(sources)
}

/// Those of these files that are no sources.
fn others_of(alloc: Global, files: &[LinkFile], numbers: &[usize]) -> Made<Vec<usize>> {
    let mut others = Vec::new(alloc);
    for (number, file) in files.iter().enumerate() {
        if numbers.contains(&number) && !is_source(file) {
            others.push(number)?;
        }
    }
    Ok(others)
}

/// For each file why it is left out, if it is: first sources are taken, then what the sources that are kept see.
pub(crate) fn omissions_of(
    alloc: Global,
    files: &[LinkFile],
    duplicates: Duplicates,
) -> Made<Vec<Option<FileOmission>>> {
    let mut omissions = Vec::new(alloc);
    for _ in files {
        omissions.push(None)?;
    }
    let mut kept = Vec::new(alloc);
    let sources = sources_of(alloc, files)?;
    note_omissions(
        alloc,
        files,
        sources.as_slice(),
        &mut kept,
        duplicates,
        &mut omissions,
    )?;
    let seen = seen_by(alloc, files, kept.as_slice())?;
    let present = present_of(alloc, files, seen.as_slice())?;
    let others = others_of(alloc, files, present.as_slice())?;
    note_omissions(
        alloc,
        files,
        others.as_slice(),
        &mut kept,
        duplicates,
        &mut omissions,
    )?;
    Ok(omissions)
}

/// Why files can't be linked, if they can't.
pub(crate) fn fault_of(
    alloc: Global,
    files: &[LinkFile],
    duplicates: Duplicates,
) -> Made<Option<LinkFault>> {
    let reachable = counted_of(alloc, files)?;
    fault_of_counted(alloc, files, reachable.as_slice(), duplicates)
}
