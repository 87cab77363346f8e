//! Which files of a tree are kept.

ghost use Rattle.std.specs.Prelude.{◌≡◌, IfOk, length};
ghost use Rattle.std.specs.List.{prefix_len};
ghost use Rattle.proto_visibility.specs.Files.{HaveOwnPaths};
ghost use Rattle.proto_visibility.specs.Kept.{AreOmissions};
ghost use Rattle.scip_build.specs.Linking.{linked_files};
ghost use Rattle.scip_build.specs.Keeping.{kept_numbers, left_numbers, linked_numbers, is_source, linked_of};
ghost use Rattle.scip_build.specs.Telling.{AreKeptFiles};

use crate::linking::linked_files;
use crate::omission::Omission;
use crate::parsed_file::ParsedFile;
use crate::telling::push_omissions;
use proto_link::{Duplicates, FileOmission, left_out};
use std::alloc::{AllocError, Global};

/// For each of the files that were read, by its number, why it is left out; `None` of a file that is kept.
fn omissions_of(
    alloc: Global,
    parsed: &[ParsedFile<'_>],
    duplicates: Duplicates,
) -> Result<Vec<Option<FileOmission>>, AllocError>
    requires { HaveOwnPaths (linked_files parsed.now) }
    ensures { IfOk result (λ omissions. AreOmissions duplicates (linked_files parsed.now) omissions.items) }
{
    let files = linked_files(alloc, parsed)?;
    left_out(alloc, files.as_slice(), duplicates)
}

/// The numbers of the files that are kept, in order.
fn kept_numbers(alloc: Global, omissions: &[Option<FileOmission>]) -> Result<Vec<usize>, AllocError>
    ensures { IfOk result (λ numbers. numbers.items ≡ kept_numbers 0 omissions.now) }
{
    let mut numbers = Vec::new(alloc);
    for (number, omission) in omissions.iter().enumerate() {
        if omission.is_none() {
            numbers.push(number)?;
        }
    }
    Ok(numbers)
}

/// The numbers of the files that are left out, in order.
fn left_numbers(alloc: Global, omissions: &[Option<FileOmission>]) -> Result<Vec<usize>, AllocError>
    ensures { IfOk result (λ numbers. numbers.items ≡ left_numbers 0 omissions.now) }
{
    let mut numbers = Vec::new(alloc);
    for (number, omission) in omissions.iter().enumerate() {
        if omission.is_some() {
            numbers.push(number)?;
        }
    }
    Ok(numbers)
}

/// The numbers of all files, in the order in which they are linked.
fn linked_numbers(
    alloc: Global,
    omissions: &[Option<FileOmission>],
) -> Result<Vec<usize>, AllocError>
    ensures { IfOk result (λ numbers. numbers.items ≡ linked_numbers omissions.now) }
{
    let mut numbers = kept_numbers(alloc, omissions)?;
    let mut left = left_numbers(alloc, omissions)?;
    numbers.append(&mut left)?;
    Ok(numbers)
}

/// The parsed files as they are linked: those that are kept, in order, and behind them those that are left out.
fn linked_parsed<'a>(
    alloc: Global,
    all: Vec<ParsedFile<'a>>,
    omissions: Vec<Option<FileOmission>>,
) -> Result<Vec<ParsedFile<'a>>, AllocError>
    requires { length omissions.items ≡ length all.items }
    ensures { IfOk result (λ parsed. parsed.items ≡ linked_of omissions.items all.entry.items) }
{
    let mut parsed = Vec::with_capacity(alloc, all.len())?;
    let mut left = Vec::new(alloc);
    for (parsed_file, omission) in all.into_iter().zip(omissions) {
        if omission.is_none() {
            parsed.push_reserved(parsed_file);
        } else {
            left.push(parsed_file.into_left_out())?;
        }
    }
    parsed.append(&mut left)?;
    Ok(parsed)
}

/// The files of a tree as they are linked, of which those that are kept come first, and what is told of those that are
/// left out.
#[derive(Drop)]
pub(crate) struct KeptFiles<'a> {
    pub(crate) parsed: Vec<ParsedFile<'a>>,
    /// The number that each has among all files.
    pub(crate) numbers: Vec<usize>,
    pub(crate) told: Vec<Omission>,
}

/// Leaves out the files that can't be read, and those of which a name clashes with one of a file before.
pub(crate) fn keep_files<'a>(
    alloc: Global,
    all: Vec<ParsedFile<'a>>,
    duplicates: Duplicates,
) -> Result<KeptFiles<'a>, AllocError>
    requires { HaveOwnPaths (linked_files all.items) }
    ensures { IfOk result (λ kept. AreKeptFiles duplicates all.entry.items kept.parsed.items kept.numbers.items
        kept.told.items) }
{
    let mut told = Vec::new(alloc);
    let omissions = omissions_of(alloc, all.as_slice(), duplicates)?;
    push_omissions(&mut told, all.as_slice(), omissions.as_slice())?;
    let numbers = linked_numbers(alloc, omissions.as_slice())?;
    let parsed = linked_parsed(alloc, all, omissions)?;
    Ok(KeptFiles {
        parsed,
        numbers,
        told,
    })
}

/// How many files are in front of the first that is no source.
pub(crate) fn sources_among(parsed: &[ParsedFile<'_>]) -> usize
    ensures { result ≡ prefix_len is_source parsed.now }
{
    parsed
        .iter()
        .take_while(|parsed_file| parsed_file.is_source())
        .count()
}
