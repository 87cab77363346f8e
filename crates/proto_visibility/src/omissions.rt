//! Which files of a tree with faults are left out.

ghost use Rattle.std.specs.Prelude.{
  ℕ,
  ◌≡◌,
  ◌<◌,
  ◌+◌,
  ◌↔◌,
  ◌⊎◌,
  List,
  [],
  None,
  Some,
  IsTrue,
  IfOk,
  OnOk,
  MatchOption,
  Contains,
  All,
  length,
  slice_set,
};
ghost use Rattle.std.specs.List.{filter};
ghost use Rattle.proto_visibility.specs.declared.clash.Duplicates.TheVariants.{Refuse, Keep};
ghost use Rattle.proto_visibility.specs.declared.omissions.FileOmission.TheVariants.{Broken, Duplicate};
ghost use Rattle.proto_visibility.specs.Files.{File, HaveOwnPaths, IsSource};
ghost use Rattle.proto_visibility.specs.Kept.{Omissions, IsKeptFile, AreAllKept, AreOmissions, IsCounted};
ghost use Rattle.proto_visibility.specs.Kept.{IsTakenBefore};
ghost use Rattle.proto_visibility.specs.Tables.ClashTables.{AreInPlaceBy, clash_with, index_in};
ghost use Rattle.proto_visibility.specs.Tables.FileItems.{ArePrefixes, AreAllPrefixes, IsItemIn, package_name_of};
ghost use Rattle.proto_visibility.specs.Tables.ImportTables.{IsTableOf, IsBegunBy, is_other, is_other_at};
ghost use Rattle.proto_visibility.specs.Tables.OptionTables.{AreOptionsIn};
ghost use Rattle.proto_visibility.specs.Tables.Passes.{AreUnreadOmitted, ArePassed, IsKeptSource, IsOpenAt};
ghost use Rattle.proto_visibility.specs.Tables.Passes.{AreOwnClashesOmitted, IsOwnStep};

use crate::clash::{Duplicates, Item, clash_with};
use crate::files::{FilePlace, LinkFile};
use crate::import_table::{Steps, numbers_of, steps_of};
use crate::items::{all_items, all_prefixes, own_clash};
use crate::options::{OptionsIn, options_of};
use crate::reaching::{linking_sources, reach};
use crate::rows::FileRow;
use crate::search::Search;
use crate::seeing::{begin, follow_from, source_files};
use basics::{OwnedText, Sequence};
use proto_decl::FullName;
use std::alloc::{AllocError, Global};
use std::collections::HashMap;

/// Why a file is left out of a tree with faults.
#[derive(Clone, Copy, Debug, Drop, PartialEq, Eq)]
pub enum FileOmission {
    /// It has no facts.
    Broken,
    /// One of its names clashes with another of its own, or, if all files are one namespace, with one of a file that was
    /// kept before it: the places of the two. Among these clashes it is that with the least second place, and then the least first.
    Duplicate(FilePlace, FilePlace),
}

/// For each file, by its number, why it is left out of a tree with faults; `None` for a file that is kept. No two of
/// the files have one path.
///
/// Only files that count are left out: sources, and what a source that is kept reaches. Sources are taken first, then the
/// other files, each by number.
pub fn left_out(
    alloc: Global,
    files: &[LinkFile],
    duplicates: Duplicates,
) -> Result<Vec<Option<FileOmission>>, AllocError>
    requires { HaveOwnPaths files.now }
    ensures { IfOk result (λ omissions. AreOmissions duplicates files.now omissions.items) }
{
    match duplicates {
        Duplicates::Refuse => left_out_of_all(alloc, files),
        Duplicates::Keep => left_out_by_file(alloc, files),
    }
}

/// The same where each file is a namespace of its own.
fn left_out_by_file(
    alloc: Global,
    files: &[LinkFile],
) -> Result<Vec<Option<FileOmission>>, AllocError>
    requires { HaveOwnPaths files.now }
    ensures { IfOk result (λ omissions. AreOmissions Keep files.now omissions.items) }
{
    let numbers = numbers_of(alloc, files)?;
    let table = steps_of(alloc, files, &numbers)?;
    let prefixes = all_prefixes(alloc, files)?;
    let sources = source_files(alloc, files)?;
    let mut omissions = none_left_out(alloc, files.len())?;
    omit_unread(&mut omissions, files, &sources);
    omit_own_clashes(alloc, &mut omissions, files, prefixes.as_slice(), &sources)?;
    let options = options_of(alloc, files, table.as_slice(), &numbers)?;
    let others = reached_by_kept(
        alloc,
        files,
        table.as_slice(),
        options.as_slice(),
        omissions.as_slice(),
    )?;
    omit_unread(&mut omissions, files, &others);
    omit_own_clashes(alloc, &mut omissions, files, prefixes.as_slice(), &others)?;
    Ok(omissions)
}

/// Leaves out those files of a row of which two items clash.
fn omit_own_clashes(
    alloc: Global,
    omissions: &mut Vec<Option<FileOmission>>,
    files: &[LinkFile],
    prefixes: &[Sequence<OwnedText>],
    row: &FileRow,
) -> Result<(), AllocError>
    requires one_each { length omissions.old.items ≡ length files.now }
    requires prefixes { AreAllPrefixes files.now prefixes.now }
    requires within { (number : ℕ) → Contains row.now number → number < length files.now }
    ensures { OnOk result (AreOwnClashesOmitted files.now row.now omissions.old.items omissions.new.items) }
{
    for number in row.as_slice() {
        let file = &files[*number];
        omit_if_own_clash(
            alloc,
            omissions,
            *number,
            file,
            prefixes[*number].as_slice(),
        )?;
    }
    Ok(())
}

/// Leaves out the file with this number if two of its items clash.
fn omit_if_own_clash(
    alloc: Global,
    omissions: &mut Vec<Option<FileOmission>>,
    number: usize,
    file: &LinkFile,
    prefixes: &[OwnedText],
) -> Result<(), AllocError>
    requires within { number < length omissions.old.items }
    requires prefixes { ArePrefixes (package_name_of file.now) prefixes.now }
    ensures { OnOk result (IsOwnStep (IsItemIn number file.now) number omissions.old.items omissions.new.items) }
{
    let clash = own_clash(alloc, number, file, prefixes)?;
    omit_for(omissions, number, clash);
    Ok(())
}

/// Leaves out the file with this number for a clash, if there is one.
fn omit_for(
    omissions: &mut Vec<Option<FileOmission>>,
    number: usize,
    clash: Option<(FilePlace, FilePlace)>,
)
    requires { number < length omissions.old.items }
    ensures { MatchOption clash (omissions.new.items ≡ omissions.old.items)
        (λ places. omissions.new.items
        ≡ slice_set omissions.old.items number (Some (Duplicate places.0 places.1))) }
{
    if let Some((first, second)) = clash {
        omissions[number] = Some(FileOmission::Duplicate(first, second));
    }
}

/// The same where all files are one namespace.
fn left_out_of_all(
    alloc: Global,
    files: &[LinkFile],
) -> Result<Vec<Option<FileOmission>>, AllocError>
    requires { HaveOwnPaths files.now }
    ensures { IfOk result (λ omissions. AreOmissions Refuse files.now omissions.items) }
{
    let numbers = numbers_of(alloc, files)?;
    let table = steps_of(alloc, files, &numbers)?;
    let prefixes = all_prefixes(alloc, files)?;
    let sources = source_files(alloc, files)?;
    let mut omissions = none_left_out(alloc, files.len())?;
    omit_unread(&mut omissions, files, &sources);
    let mut items = all_items(alloc, files, prefixes.as_slice(), &sources)?;
    let mut names = HashMap::new(alloc);
    omit_clashes(&mut omissions, &mut names, items.as_slice(), 0)?;
    let options = options_of(alloc, files, table.as_slice(), &numbers)?;
    let others = reached_by_kept(
        alloc,
        files,
        table.as_slice(),
        options.as_slice(),
        omissions.as_slice(),
    )?;
    omit_unread(&mut omissions, files, &others);
    let passed = items.len();
    let mut more = all_items(alloc, files, prefixes.as_slice(), &others)?;
    items.append(&mut more)?;
    omit_clashes(&mut omissions, &mut names, items.as_slice(), passed)?;
    Ok(omissions)
}

/// Of so many files none is left out.
fn none_left_out(alloc: Global, count: usize) -> Result<Vec<Option<FileOmission>>, AllocError>
    ensures size { IfOk result (λ omissions. length omissions.items ≡ count) }
    ensures none { IfOk result (λ omissions. AreAllKept omissions.items) }
{
    let mut omissions = Vec::with_capacity(alloc, count)?;
    for _ in 0..count {
        omissions.push_reserved(None);
    }
    Ok(omissions)
}

/// The other files that sources reach which are kept so far.
fn reached_by_kept(
    alloc: Global,
    files: &[LinkFile],
    table: &[Steps],
    options: &[OptionsIn],
    omissions: &[Option<FileOmission>],
) -> Result<FileRow, AllocError>
    requires own { HaveOwnPaths files.now }
    requires table { IsTableOf files.now table.now }
    requires options { AreOptionsIn files.now options.now }
    ensures { IfOk result (λ row. (number : ℕ) → Contains row number
        ↔ (IsCounted files.now omissions.now number × (IsSource files.now number → ⊥))) }
{
    let mut search = Search::new(alloc, table.len())?;
    let linking = linking_sources(alloc, files)?;
    let kept = kept_among(alloc, omissions, linking.as_slice())?;
    reach(&mut search, table, options, kept.as_slice())?;
    begin_kept(&mut search, files, table, omissions)?;
    follow_from(&mut search, table, 0)?;
    let others = others_among(alloc, files, search.found())?;
    let row = FileRow::of(alloc, others.as_slice())?;
    Ok(row)
}

/// Those of these files that are kept so far.
fn kept_among(
    alloc: Global,
    omissions: &[Option<FileOmission>],
    numbers: &[usize],
) -> Result<Vec<usize>, AllocError>
    ensures { IfOk result (λ kept. (number : ℕ) → Contains kept.items number
        ↔ (Contains numbers.now number × IsKeptFile omissions.now number)) }
{
    let mut kept = Vec::new(alloc);
    for number in numbers {
        if !is_kept(omissions, *number) {
            continue;
        }
        kept.push(*number)?;
    }
    Ok(kept)
}

/// Finds the sources that are kept so far, and what they import, but not publicly.
fn begin_kept(
    search: &mut Search,
    files: &[LinkFile],
    table: &[Steps],
    omissions: &[Option<FileOmission>],
) -> Result<(), AllocError>
    requires table { IsTableOf files.now table.now }
    requires files { search.old.files ≡ length table.now }
    ensures files { OnOk result (search.new.files ≡ search.old.files) }
    ensures begun { OnOk result ((number : ℕ) → Contains search.new.numbers number
        ↔ (Contains search.old.numbers number
        ⊎ IsBegunBy (IsKeptSource files.now omissions.now) table.now (length files.now) number)) }
{
    for (number, file) in files.iter().enumerate() {
        if !file.is_source() {
            continue;
        }
        if !is_kept(omissions, number) {
            continue;
        }
        begin(search, table, number)?;
    }
    Ok(())
}

/// Those of these files that are neither sources nor left out before, in order.
fn others_among(
    alloc: Global,
    files: &[LinkFile],
    numbers: &[usize],
) -> Result<Vec<usize>, AllocError>
    requires { All (λ number. number < length files.now) numbers.now }
    ensures { IfOk result (λ others. others.items ≡ filter (is_other_at files.now) numbers.now) }
{
    let mut others = Vec::new(alloc);
    for number in numbers {
        if !is_other(&files[*number]) {
            continue;
        }
        others.push(*number)?;
    }
    Ok(others)
}

/// Whether a file is neither a source nor left out before.
fn is_other(file: &LinkFile) -> bool
    ensures { result ≡ is_other (Some file.now) }
{
    !file.is_left_out() && file.is_included()
}

/// Leaves out those files of a row that have no facts.
fn omit_unread(omissions: &mut Vec<Option<FileOmission>>, files: &[LinkFile], row: &FileRow)
    requires one_each { length omissions.old.items ≡ length files.now }
    requires within { (number : ℕ) → Contains row.now number → number < length files.now }
    ensures { AreUnreadOmitted files.now row.now omissions.old.items omissions.new.items }
{
    for number in row.as_slice() {
        omit_if_unread(omissions, *number, &files[*number]);
    }
}

/// Leaves out the file with this number if it has no facts.
fn omit_if_unread(omissions: &mut Vec<Option<FileOmission>>, number: usize, file: &LinkFile)
    requires { number < length omissions.old.items }
    ensures out { file.now.facts ≡ None → omissions.new.items
        ≡ slice_set omissions.old.items number (Some Broken) }
    ensures stays { (file.now.facts ≡ None → ⊥) → omissions.new.items ≡ omissions.old.items }
{
    if file.is_unread() {
        omissions[number] = Some(FileOmission::Broken);
    }
}

/// Leaves out the files with a clash, by their items from an index on, each before those behind it in the order in
/// which files are taken.
fn omit_clashes<'a>(
    omissions: &mut Vec<Option<FileOmission>>,
    names: &mut HashMap<FullName<'a>, usize>,
    items: &[Item<'a>],
    from: usize,
) -> Result<(), AllocError>
    ensures { OnOk result ((files : List File) → AreInPlaceBy (IsTakenBefore files) items.now
        → (start : Omissions)
        → ArePassed (IsTakenBefore files) items.now start from omissions.old.items names.old
        → ArePassed (IsTakenBefore files) items.now start (length items.now) omissions.new.items names.new) }
{
    for index in from..items.len() {
        pass_item(omissions, names, items, index)?;
    }
    Ok(())
}

/// Takes one more item. If no item of an open file has its name, the name is kept as its. If the item that has it
/// clashes with this one, the file of this one is left out.
fn pass_item<'a>(
    omissions: &mut Vec<Option<FileOmission>>,
    names: &mut HashMap<FullName<'a>, usize>,
    items: &[Item<'a>],
    index: usize,
) -> Result<(), AllocError>
    requires { index < length items.now }
    ensures { OnOk result ((files : List File) → AreInPlaceBy (IsTakenBefore files) items.now
        → (start : Omissions)
        → ArePassed (IsTakenBefore files) items.now start index omissions.old.items names.old
        → ArePassed (IsTakenBefore files) items.now start (index + 1) omissions.new.items names.new) }
{
    let item = &items[index];
    if !is_kept(omissions.as_slice(), item.place.file) {
        return Ok(());
    }
    match open_with(omissions.as_slice(), names, items, &item.full_name) {
        Some(first) => {
            omit_if_clash(omissions, items, first, item);
            Ok(())
        }
        None => {
            names.insert(item.full_name.copy(), index)?;
            Ok(())
        }
    }
}

/// Whether the file with this number is kept so far.
fn is_kept(omissions: &[Option<FileOmission>], number: usize) -> bool
    ensures { IsTrue result ↔ IsKeptFile omissions.now number }
{
    match omissions.get(number).copied() {
        Some(omission) => omission.is_none(),
        None => false,
    }
}

/// The index of the item that the map has at a name, if its file is kept so far.
fn open_with<'a>(
    omissions: &[Option<FileOmission>],
    names: &HashMap<FullName<'a>, usize>,
    items: &[Item<'a>],
    name: &FullName<'a>,
) -> Option<usize>
    ensures { MatchOption result
        ((index : ℕ) → index_in names.now name.now ≡ Some index → IsOpenAt items.now omissions.now index → ⊥)
        (λ index. (index_in names.now name.now ≡ Some index) × IsOpenAt items.now omissions.now index) }
{
    let first = names.get(name).copied()?;
    let item = items.get(first)?;
    if is_kept(omissions, item.place.file) {
        Some(first)
    } else {
        None
    }
}

/// Leaves out the file of an item, if the item clashes with the one at this index.
fn omit_if_clash(
    omissions: &mut Vec<Option<FileOmission>>,
    items: &[Item],
    first: usize,
    item: &Item,
)
    requires { item.now.place.file < length omissions.old.items }
    ensures { MatchOption (clash_with items.now (Some first) item.now)
        (omissions.new.items ≡ omissions.old.items)
        (λ place. omissions.new.items
        ≡ slice_set omissions.old.items item.now.place.file (Some (Duplicate place item.now.place))) }
{
    if let Some(place) = clash_with(items, Some(first), item) {
        omissions[item.place.file] = Some(FileOmission::Duplicate(place, item.place));
    }
}
