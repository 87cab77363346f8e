//! What is listed of the files of a tree with faults that are kept, where an import may name one that is left out.

ghost use Rattle.std.specs.Prelude.{◌≡◌, ◌++◌, map, IfOk, OnOk};
ghost use Rattle.proto_visibility.specs.Files.{HaveOwnPaths};
ghost use Rattle.proto_visibility.specs.Kept.{kept_of, left_of, as_left_out};

use crate::listed::{first_links, lines_of};
use option_link::OptionFacts;
use proto_link::{Duplicates, FileOmission, LinkFile, Linker, kept_files_are_clear, left_out};
use std::alloc::Global;
use test_kit::{Draft, Made};

/// The same file.
fn same<'a, 't>(file: &LinkFile<'a, 't>) -> LinkFile<'a, 't>
    ensures { result ≡ file.now }
{
    LinkFile {
        path: file.path,
        facts: file.facts,
        included: file.included,
        left_out: file.left_out,
        links_options: file.links_options,
    }
}

/// The file, left out.
fn as_left_out<'a, 't>(file: &LinkFile<'a, 't>) -> LinkFile<'a, 't>
    ensures { result ≡ as_left_out file.now }
{
    LinkFile {
        path: file.path,
        facts: file.facts,
        included: file.included,
        left_out: true,
        links_options: file.links_options,
    }
}

/// The files that aren't left out, in order.
fn kept_files<'a, 't>(
    alloc: Global,
    files: &[LinkFile<'a, 't>],
    omissions: &[Option<FileOmission>],
) -> Made<Vec<LinkFile<'a, 't>>>
    ensures { IfOk result (λ kept. kept.items ≡ kept_of omissions.now files.now) }
{
    let mut kept = Vec::new(alloc);
    let (mut left, mut rest) = (files, omissions);
    while let [omission, omissions_behind @ ..] = rest {
        let [file, files_behind @ ..] = left else {
            return Ok(kept);
        };
        if omission.is_none() {
            kept.push(same(file))?;
        }
        left = files_behind;
        rest = omissions_behind;
    }
    Ok(kept)
}

/// Adds those that are left out, as such, in order.
fn add_left_out<'a, 't>(
    linked: &mut Vec<LinkFile<'a, 't>>,
    files: &[LinkFile<'a, 't>],
    omissions: &[Option<FileOmission>],
) -> Made<()>
    ensures { OnOk result (linked.new.items ≡ linked.old.items ++ map as_left_out (left_of omissions.now files.now)) }
{
    let (mut left, mut rest) = (files, omissions);
    while let [omission, omissions_behind @ ..] = rest {
        let [file, files_behind @ ..] = left else {
            return Ok(());
        };
        if omission.is_some() {
            linked.push(as_left_out(file))?;
        }
        left = files_behind;
        rest = omissions_behind;
    }
    Ok(())
}

/// What is listed of the files that are kept, with those that are left out behind them. `known` is in the order of the
/// files: so none may be left out but those that are already.
pub(crate) fn kept_lines<'a>(
    alloc: Global,
    files: &'a [LinkFile<'a, '_>],
    known: &[OptionFacts],
    source: &str,
    duplicates: Duplicates,
) -> Made<String>
    requires { HaveOwnPaths files.now }
{
    kept_files_are_clear();
    let omissions = left_out(alloc, files, duplicates)?;
    let mut linked = kept_files(alloc, files, omissions.as_slice())?;
    add_left_out(&mut linked, files, omissions.as_slice())?;
    let kept = linked.as_slice();
    if !first_links(kept) {
        return Draft::new(alloc).finish();
    }
    let linker = Linker::of_kept(alloc, kept, duplicates)?;
    lines_of(alloc, &linker, known, source)?.finish()
}
