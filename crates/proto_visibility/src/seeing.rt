//! The files that each file sees, by a search along imports, and the reachable ones: sources, and what they see.

ghost use Rattle.std.specs.Prelude.{ℕ, ◌≡◌, ◌<◌, ◌↔◌, ◌⊎◌, Some, OnOk, IfOk, Contains, length, map, [], MatchOption};
ghost use Rattle.std.specs.Prelude.{All};
ghost use Rattle.std.specs.List.{slice_get, filter};
ghost use Rattle.proto_visibility.specs.Files.{Imports, IsSource};
ghost use Rattle.proto_visibility.specs.Sees.{SeesBy};
ghost use Rattle.proto_visibility.specs.Reaches.{IsReachable};
ghost use Rattle.proto_visibility.specs.Tables.OptionTables.{AreOptionsIn};
ghost use Rattle.proto_visibility.specs.Files.{HaveOwnPaths};
ghost use Rattle.proto_visibility.specs.Tables.ImportTables.{HasStep, AreWithin, AreRowsBy, IsTableOf, IsBegun};
ghost use Rattle.proto_visibility.specs.Tables.ImportTables.{AreFollowed, IsFront, IsLedTo, IsBegunBy, is_present_at};
ghost use Rattle.proto_visibility.specs.Tables.Rows.{files_at};
ghost use Rattle.proto_visibility.specs.Absences.{Broken, NoneBroken};

use crate::file_order::FileOrder;
use crate::files::LinkFile;
use crate::import_table::Steps;
use crate::leading::{led_files, seen_from};
use crate::options::OptionsIn;
use crate::reaching::{linking_sources, reach};
use crate::rows::{FileRow, Runs, SeenRow};
use crate::search::Search;
use std::alloc::{AllocError, Global};
use std::marker::Model;

/// What each file sees: places in an order of all files. Contracts see for each file the list of the files
/// that it sees.
#[derive(Drop)]
pub(crate) struct SeenFiles {
    order: FileOrder,
    rows: Vec<Runs>,
}

impl Model for SeenFiles {
    ghost use Rattle.std.specs.Prelude.{List, ℕ, map};
    ghost use Rattle.proto_visibility.specs.Tables.Rows.{files_at};

    ghost Value = { List (List ℕ) };

    ghost view = { λ seen. map (files_at seen.order) seen.rows.items };
}

impl SeenFiles {
    /// What a file sees.
    pub(crate) fn row(&self, file: usize) -> SeenRow<'_>
        requires { file < length self.now }
        ensures { slice_get self.now file ≡ Some result }
    {
        SeenRow {
            order: &self.order,
            runs: &self.rows[file],
        }
    }
}

/// For each file the files that it sees, by the steps of all files.
pub(crate) fn seen_files(
    alloc: Global,
    files: &[LinkFile],
    table: &[Steps],
) -> Result<SeenFiles, AllocError>
    requires { IsTableOf files.now table.now }
    ensures { IfOk result (AreRowsBy (Imports files.now) (length files.now)) }
{
    let order = FileOrder::of(alloc, table)?;
    let rows = seen_rows(alloc, table, &order)?;
    Ok(SeenFiles { order, rows })
}

/// The same by the steps alone, in an order that has all files.
fn seen_rows(alloc: Global, table: &[Steps], order: &FileOrder) -> Result<Vec<Runs>, AllocError>
    requires within { AreWithin table.now }
    requires all { (number : ℕ) → number < length table.now → Contains order.now number }
    ensures { IfOk result (λ rows. AreRowsBy (HasStep table.now) (length table.now)
        (map (files_at order.now) rows.items)) }
{
    let led = led_files(alloc, table, order)?;
    let mut rows = Vec::with_capacity(alloc, table.len())?;
    let mut search = Search::new(alloc, table.len())?;
    for file in 0..table.len() {
        rows.push_reserved(seen_from(alloc, &mut search, &led, file)?);
    }
    Ok(rows)
}

/// Finds the files that a file sees: what it imports, and what public imports lead to from there.
pub(crate) fn search_from(
    search: &mut Search,
    table: &[Steps],
    file: usize,
) -> Result<(), AllocError>
    requires within { AreWithin table.now }
    requires files { search.old.files ≡ length table.now }
    requires file { file < length table.now }
    ensures files { OnOk result (search.new.files ≡ search.old.files) }
    ensures seen { OnOk result ((other : ℕ) → Contains search.new.numbers other ↔ SeesBy (HasStep table.now) file
        other) }
{
    search.start();
    begin(search, table, file)?;
    follow_from(search, table, 0)?;
    Ok(())
}

/// Finds a file and what it imports, but not publicly.
pub(crate) fn begin(search: &mut Search, table: &[Steps], file: usize) -> Result<(), AllocError>
    requires within { AreWithin table.now }
    requires files { search.old.files ≡ length table.now }
    requires file { file < length table.now }
    ensures files { OnOk result (search.new.files ≡ search.old.files) }
    ensures begun { OnOk result ((other : ℕ) → Contains search.new.numbers other ↔ (Contains search.old.numbers other ⊎
        IsBegun table.now file other)) }
{
    search.visit(file)?;
    search.visit_all(table[file].plain.as_slice())?;
    Ok(())
}

/// Finds what public imports lead to from the files that are found, of which those before an index lead to no others.
pub(crate) fn follow_from(
    search: &mut Search,
    table: &[Steps],
    from: usize,
) -> Result<(), AllocError>
    requires within { AreWithin table.now }
    requires files { search.old.files ≡ length table.now }
    requires followed { AreFollowed (HasStep table.now) search.old.numbers from }
    ensures files { OnOk result (search.new.files ≡ search.old.files) }
    ensures front { OnOk result (IsFront search.old.numbers search.new.numbers) }
    ensures led { OnOk result ((other : ℕ) → Contains search.new.numbers other ↔ IsLedTo (HasStep table.now)
        search.old.numbers other) }
{
    let mut done = from;
    while let Some(next) = search.nth(done) {
        search.visit_all(table[next].public.as_slice())?;
        done += 1;
    }
    Ok(())
}

/// The row of the reachable files, by the steps of all files: one search from all sources finds them, and those that are
/// left out.
pub(crate) fn reachable_files(
    alloc: Global,
    files: &[LinkFile],
    table: &[Steps],
    options: &[OptionsIn],
) -> Result<FileRow, AllocError>
    requires own { HaveOwnPaths files.now }
    requires table { IsTableOf files.now table.now }
    requires options { AreOptionsIn files.now options.now }
    ensures { IfOk result (λ reachable. (number : ℕ) → Contains reachable number ↔ IsReachable files.now number) }
{
    let mut search = Search::new(alloc, table.len())?;
    let linking = linking_sources(alloc, files)?;
    reach(&mut search, table, options, linking.as_slice())?;
    begin_sources(&mut search, files, table)?;
    follow_from(&mut search, table, 0)?;
    let present = present_among(alloc, files, search.found())?;
    let reachable = FileRow::of(alloc, present.as_slice())?;
    Ok(reachable)
}

/// Those of these files that aren't left out, in order.
fn present_among(
    alloc: Global,
    files: &[LinkFile],
    numbers: &[usize],
) -> Result<Vec<usize>, AllocError>
    requires { All (λ number. number < length files.now) numbers.now }
    ensures { IfOk result (λ present. present.items ≡ filter (is_present_at files.now) numbers.now) }
{
    let mut present = Vec::new(alloc);
    for number in numbers {
        if files[*number].is_left_out() {
            continue;
        }
        present.push(*number)?;
    }
    Ok(present)
}

/// Finds the sources, and what they import, but not publicly.
fn begin_sources(search: &mut Search, files: &[LinkFile], table: &[Steps]) -> Result<(), AllocError>
    requires table { IsTableOf files.now table.now }
    requires files { search.old.files ≡ length table.now }
    ensures files { OnOk result (search.new.files ≡ search.old.files) }
    ensures begun { OnOk result ((number : ℕ) → Contains search.new.numbers number ↔ (Contains search.old.numbers number
        ⊎ IsBegunBy (IsSource files.now) table.now (length files.now) number)) }
{
    for (number, file) in files.iter().enumerate() {
        if !file.is_source() {
            continue;
        }
        begin(search, table, number)?;
    }
    Ok(())
}

/// The row of the sources.
pub(crate) fn source_files(alloc: Global, files: &[LinkFile]) -> Result<FileRow, AllocError>
    ensures { IfOk result (λ sources. (number : ℕ) → Contains sources number ↔ IsSource files.now number) }
{
    let mut numbers = Vec::new(alloc);
    for (number, file) in files.iter().enumerate() {
        if !file.is_source() {
            continue;
        }
        numbers.push(number)?;
    }
    let sources = FileRow::of(alloc, numbers.as_slice())?;
    Ok(sources)
}

/// The least of the reachable files that have no facts.
pub(crate) fn first_unread(files: &[LinkFile], reachable: &FileRow) -> Option<usize>
    requires { (number : ℕ) → Contains reachable.now number ↔ IsReachable files.now number }
    ensures { MatchOption result (NoneBroken files.now) (Broken files.now) }
{
    for number in reachable.as_slice() {
        if files[*number].is_unread() {
            return Some(*number);
        }
    }
    None
}
