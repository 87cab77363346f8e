//! Which files of a tree with faults are left out, and what linking answers to the others, beside what scans tell.

ghost use Rattle.std.specs.Prelude.{◌≡◌, ◌++◌, map, IfOk, OnOk};
ghost use Rattle.proto_visibility.specs.Files.{HaveOwnPaths};
ghost use Rattle.proto_visibility.specs.Kept.{AreOmissions, kept_of, left_of, as_left_out};
ghost use Rattle.proto_visibility.specs.Linked.{HaveClearNames};

use crate::answers::listing_with_paths;
use crate::meanings::listing_of;
use crate::scans::{absent_of, omissions_of};
use proto_link::{Duplicates, FileOmission, LinkFile, Linker, kept_files_are_clear, left_out};
use std::alloc::Global;
use test_kit::Made;

/// The same file.
fn same<'a, 't>(file: &LinkFile<'a, 't>) -> LinkFile<'a, 't>
    ensures { result ≡ file.now }
{
    LinkFile {
        path: file.path,
        facts: file.facts,
        included: file.included,
        left_out: file.left_out,
        links_options: file.links_options,
    }
}

/// The file, left out.
fn as_left_out<'a, 't>(file: &LinkFile<'a, 't>) -> LinkFile<'a, 't>
    ensures { result ≡ as_left_out file.now }
{
    LinkFile {
        path: file.path,
        facts: file.facts,
        included: file.included,
        left_out: true,
        links_options: file.links_options,
    }
}

/// The files that aren't left out, in order.
fn kept_files<'a, 't>(
    alloc: Global,
    files: &[LinkFile<'a, 't>],
    omissions: &[Option<FileOmission>],
) -> Made<Vec<LinkFile<'a, 't>>>
    ensures { IfOk result (λ kept. kept.items ≡ kept_of omissions.now files.now) }
{
    let mut kept = Vec::new(alloc);
    let (mut left, mut rest) = (files, omissions);
    while let [omission, omissions_behind @ ..] = rest {
        let [file, files_behind @ ..] = left else {
            return Ok(kept);
        };
        if omission.is_none() {
            kept.push(same(file))?;
        }
        left = files_behind;
        rest = omissions_behind;
    }
    Ok(kept)
}

/// Adds those that are left out, as such, in order.
fn add_left_out<'a, 't>(
    linked: &mut Vec<LinkFile<'a, 't>>,
    files: &[LinkFile<'a, 't>],
    omissions: &[Option<FileOmission>],
) -> Made<()>
    ensures { OnOk result (linked.new.items ≡ linked.old.items ++ map as_left_out (left_of omissions.now files.now)) }
{
    let (mut left, mut rest) = (files, omissions);
    while let [omission, omissions_behind @ ..] = rest {
        let [file, files_behind @ ..] = left else {
            return Ok(());
        };
        if omission.is_some() {
            linked.push(as_left_out(file))?;
        }
        left = files_behind;
        rest = omissions_behind;
    }
    Ok(())
}

/// Whether a linker answers what scans tell.
fn is_listed_as_scanned(alloc: Global, linker: &Linker, files: &[LinkFile]) -> Made<bool> {
    let answer = listing_with_paths(alloc, linker)?;
    let scan = listing_of(alloc, files)?;
    Ok(answer.as_str() == scan.as_str())
}

/// Whether a linker tells the missing imports that scans tell.
fn are_missing_as_scanned(alloc: Global, linker: &Linker, files: &[LinkFile]) -> Made<bool> {
    let missing = linker.missing_imports(alloc)?;
    let absent = absent_of(alloc, files)?;
    Ok(missing.as_slice() == absent.as_slice())
}

/// Whether it does both.
fn is_as_scanned(alloc: Global, linker: &Linker, files: &[LinkFile]) -> Made<bool> {
    Ok(is_listed_as_scanned(alloc, linker, files)? && are_missing_as_scanned(alloc, linker, files)?)
}

/// Whether the linker of kept files does.
fn are_linked_as_scanned<'a>(
    alloc: Global,
    files: &'a [LinkFile<'a, '_>],
    duplicates: Duplicates,
) -> Made<bool>
    requires own { HaveOwnPaths files.now }
    requires clear { HaveClearNames duplicates files.now }
{
    let linker = Linker::of_kept(alloc, files, duplicates)?;
    is_as_scanned(alloc, &linker, files)
}

/// Whether scans leave out the same files, and tell the same of those that are kept.
fn are_omitted_as_scanned<'a>(
    alloc: Global,
    files: &'a [LinkFile<'a, '_>],
    duplicates: Duplicates,
    omissions: &[Option<FileOmission>],
) -> Made<bool>
    requires own { HaveOwnPaths files.now }
    requires omissions { AreOmissions duplicates files.now omissions.now }
{
    kept_files_are_clear();
    let mut linked = kept_files(alloc, files, omissions)?;
    add_left_out(&mut linked, files, omissions)?;
    let scanned = omissions_of(alloc, files, duplicates)?;
    Ok(
        omissions == scanned.as_slice()
            && are_linked_as_scanned(alloc, linked.as_slice(), duplicates)?,
    )
}

/// Whether scans tell which files are left out, and what linking answers to those that are kept.
pub(crate) fn are_kept_as_scanned<'a>(
    alloc: Global,
    files: &'a [LinkFile<'a, '_>],
    duplicates: Duplicates,
) -> Made<bool>
    requires { HaveOwnPaths files.now }
{
    let omissions = left_out(alloc, files, duplicates)?;
    are_omitted_as_scanned(alloc, files, duplicates, omissions.as_slice())
}

/// What linking answers to the files that are kept, with those that are left out.
pub(crate) fn kept_answer<'a>(
    alloc: Global,
    files: &'a [LinkFile<'a, '_>],
    duplicates: Duplicates,
) -> Made<String>
    requires { HaveOwnPaths files.now }
{
    kept_files_are_clear();
    let omissions = left_out(alloc, files, duplicates)?;
    let mut linked = kept_files(alloc, files, omissions.as_slice())?;
    add_left_out(&mut linked, files, omissions.as_slice())?;
    let linker = Linker::of_kept(alloc, linked.as_slice(), duplicates)?;
    listing_with_paths(alloc, &linker)
}
