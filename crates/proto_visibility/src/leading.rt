//! What public imports lead to from each file, and what each file sees, as runs of places in an order of all files.

ghost use Rattle.std.specs.Prelude.{ℕ, ◌≡◌, ◌<◌, true, None, Some, All, IfOk, IfSome, OnOk, Contains, length};
ghost use Rattle.std.specs.Prelude.{set, [], ◌∷◌, ◌++◌};
ghost use Rattle.std.specs.List.{slice_get};
ghost use Rattle.proto_visibility.specs.Sees.{LeadsTo, SeesBy};
ghost use Rattle.proto_visibility.specs.Tables.ImportTables.{AreWithin, HasStep, IsLedTo};
ghost use Rattle.proto_visibility.specs.Tables.Leading.{AreLed, IsLed, IsSeen};
ghost use Rattle.proto_visibility.specs.Tables.Rows.{IsWith};

use crate::file_order::FileOrder;
use crate::import_table::Steps;
use crate::rows::{Run, Runs};
use crate::search::Search;
use crate::seeing::{follow_from, search_from};
use std::alloc::{AllocError, Global};

/// The steps of all files, an order of all files, and rows: of each file the index of the one that has what public
/// imports lead to from it, if that is known.
#[derive(Drop)]
pub(crate) struct Led<'s> {
    table: &'s [Steps],
    order: &'s FileOrder,
    indexes: Vec<Option<usize>>,
    rows: Vec<Runs>,
}

/// So many times nothing.
fn unknown(alloc: Global, count: usize) -> Result<Vec<Option<usize>>, AllocError>
    ensures size { IfOk result (λ indexes. length indexes.items ≡ count) }
    ensures none { IfOk result (λ indexes. All (λ index. index ≡ None) indexes.items) }
{
    let mut indexes = Vec::with_capacity(alloc, count)?;
    for _ in 0..count {
        indexes.push_reserved(None);
    }
    Ok(indexes)
}

/// The index of a file's row, if it has one.
fn index_of(indexes: &[Option<usize>], file: usize) -> Option<usize>
    ensures { IfSome result (λ index. slice_get indexes.now file ≡ Some (Some index)) }
{
    match indexes.get(file) {
        Some(index) => *index,
        None => None,
    }
}

/// What public imports lead to from a file, if it is known.
fn led_row<'l>(led: &'l Led<'_>, file: usize) -> Option<&'l Runs>
    requires { AreLed led.now.table.now led.now.order.now led.now.indexes.items led.now.rows.items }
    ensures { IfSome result (λ row. IsLed led.now.table.now led.now.order.now row.now file) }
{
    match index_of(led.indexes.as_slice(), file) {
        Some(index) => led.rows.get(index),
        None => None,
    }
}

/// Adds what public imports lead to from a file, if it is known.
fn add_led(runs: &mut Vec<Run>, led: &Led<'_>, file: usize) -> Result<bool, AllocError>
    requires { AreLed led.now.table.now led.now.order.now led.now.indexes.items led.now.rows.items }
    ensures { IfOk result (λ is_known. is_known ≡ true → IsWith led.now.order.now runs.old.items runs.new.items
        (LeadsTo (HasStep led.now.table.now) file)) }
{
    match led_row(led, file) {
        Some(row) => {
            runs.extend_from_slice(row.as_slice())?;
            Ok(true)
        }
        None => Ok(false),
    }
}

/// Adds what public imports lead to from these files, if it is known of each.
fn add_each(runs: &mut Vec<Run>, led: &Led<'_>, files: &[usize]) -> Result<bool, AllocError>
    requires { AreLed led.now.table.now led.now.order.now led.now.indexes.items led.now.rows.items }
    ensures { IfOk result (λ is_known. is_known ≡ true → IsWith led.now.order.now runs.old.items runs.new.items
        (IsLedTo (HasStep led.now.table.now) files.now)) }
{
    for file in files {
        let is_known = add_led(runs, led, *file)?;
        if !is_known {
            return Ok(false);
        }
    }
    Ok(true)
}

/// What public imports lead to from a file: itself, and what they lead to from those that it imports publicly.
fn led_by_steps(alloc: Global, led: &Led<'_>, file: usize) -> Result<Option<Runs>, AllocError>
    requires led { AreLed led.now.table.now led.now.order.now led.now.indexes.items led.now.rows.items }
    requires all { (number : ℕ) → number < length led.now.table.now → Contains led.now.order.now number }
    requires file { file < length led.now.table.now }
    ensures { IfOk result (λ found. IfSome found (λ row. IsLed led.now.table.now led.now.order.now row file)) }
{
    let mut runs = Vec::new(alloc);
    led.order.add_file(&mut runs, file)?;
    let is_known = add_each(&mut runs, led, led.table[file].public.as_slice())?;
    if !is_known {
        return Ok(None);
    }
    let row = Runs::of(alloc, &mut runs)?;
    Ok(Some(row))
}

/// The same by a search.
fn led_by_search(
    alloc: Global,
    search: &mut Search,
    led: &Led<'_>,
    file: usize,
) -> Result<Runs, AllocError>
    requires within { AreWithin led.now.table.now }
    requires all { (number : ℕ) → number < length led.now.table.now → Contains led.now.order.now number }
    requires files { search.old.files ≡ length led.now.table.now }
    requires file { file < length led.now.table.now }
    ensures files { IfOk result (λ _. search.new.files ≡ search.old.files) }
    ensures led { IfOk result (λ row. IsLed led.now.table.now led.now.order.now row file) }
{
    search.start();
    search.visit(file)?;
    follow_from(search, led.table, 0)?;
    let row = search.to_runs(alloc, led.order)?;
    Ok(row)
}

/// What public imports lead to from a file, by a search only if it isn't known from where.
fn led_from(
    alloc: Global,
    search: &mut Search,
    led: &Led<'_>,
    file: usize,
) -> Result<Runs, AllocError>
    requires led { AreLed led.now.table.now led.now.order.now led.now.indexes.items led.now.rows.items }
    requires within { AreWithin led.now.table.now }
    requires all { (number : ℕ) → number < length led.now.table.now → Contains led.now.order.now number }
    requires files { search.old.files ≡ length led.now.table.now }
    requires file { file < length led.now.table.now }
    ensures files { IfOk result (λ _. search.new.files ≡ search.old.files) }
    ensures led { IfOk result (λ row. IsLed led.now.table.now led.now.order.now row file) }
{
    match led_by_steps(alloc, led, file)? {
        Some(row) => Ok(row),
        None => led_by_search(alloc, search, led, file),
    }
}

/// Keeps what public imports lead to from a file.
fn keep(
    indexes: &mut Vec<Option<usize>>,
    rows: &mut Vec<Runs>,
    file: usize,
    row: Runs,
) -> Result<(), AllocError>
    requires { file < length indexes.old.items }
    ensures indexes { OnOk result (indexes.new.items ≡ set indexes.old.items file (Some (length rows.old.items))) }
    ensures rows { OnOk result (rows.new.items ≡ rows.old.items ++ row ∷ []) }
{
    let index = rows.len();
    rows.push(row)?;
    indexes[file] = Some(index);
    Ok(())
}

/// Finds what public imports lead to from a file, if it isn't known.
fn learn(
    alloc: Global,
    search: &mut Search,
    led: &mut Led<'_>,
    file: usize,
) -> Result<(), AllocError>
    requires led { AreLed led.old.table.now led.old.order.now led.old.indexes.items led.old.rows.items }
    requires within { AreWithin led.old.table.now }
    requires all { (number : ℕ) → number < length led.old.table.now → Contains led.old.order.now number }
    requires files { search.old.files ≡ length led.old.table.now }
    requires file { file < length led.old.table.now }
    ensures files { OnOk result (search.new.files ≡ search.old.files) }
    ensures table { OnOk result (led.new.table.now ≡ led.old.table.now) }
    ensures order { OnOk result (led.new.order.now ≡ led.old.order.now) }
    ensures led { OnOk result (AreLed led.new.table.now led.new.order.now led.new.indexes.items led.new.rows.items) }
{
    if index_of(led.indexes.as_slice(), file).is_some() {
        return Ok(());
    }
    let row = led_from(alloc, search, led, file)?;
    keep(&mut led.indexes, &mut led.rows, file, row)?;
    Ok(())
}

/// What public imports lead to from each file.
pub(crate) fn led_files<'s>(
    alloc: Global,
    table: &'s [Steps],
    order: &'s FileOrder,
) -> Result<Led<'s>, AllocError>
    requires within { AreWithin table.now }
    requires all { (number : ℕ) → number < length table.now → Contains order.now number }
    ensures table { IfOk result (λ led. led.table.now ≡ table.now) }
    ensures order { IfOk result (λ led. led.order.now ≡ order.now) }
    ensures led { IfOk result (λ led. AreLed led.table.now led.order.now led.indexes.items led.rows.items) }
{
    let mut search = Search::new(alloc, table.len())?;
    let mut led = Led {
        table,
        order,
        indexes: unknown(alloc, table.len())?,
        rows: Vec::new(alloc),
    };
    for file in order.finished() {
        if *file >= table.len() {
            continue;
        }
        learn(alloc, &mut search, &mut led, *file)?;
    }
    Ok(led)
}

/// Adds what a file sees, if it is known what public imports lead to: from itself, and from what it imports.
fn add_seen(runs: &mut Vec<Run>, led: &Led<'_>, file: usize) -> Result<bool, AllocError>
    requires led { AreLed led.now.table.now led.now.order.now led.now.indexes.items led.now.rows.items }
    requires file { file < length led.now.table.now }
    ensures { IfOk result (λ is_known. is_known ≡ true → IsWith led.now.order.now runs.old.items runs.new.items
        (SeesBy (HasStep led.now.table.now) file)) }
{
    let is_known = add_led(runs, led, file)?;
    if !is_known {
        return Ok(false);
    }
    add_each(runs, led, led.table[file].plain.as_slice())
}

/// What a file sees, by what public imports lead to.
fn seen_by_steps(alloc: Global, led: &Led<'_>, file: usize) -> Result<Option<Runs>, AllocError>
    requires led { AreLed led.now.table.now led.now.order.now led.now.indexes.items led.now.rows.items }
    requires file { file < length led.now.table.now }
    ensures { IfOk result (λ found. IfSome found (λ row. IsSeen led.now.table.now led.now.order.now row file)) }
{
    let mut runs = Vec::new(alloc);
    let is_known = add_seen(&mut runs, led, file)?;
    if !is_known {
        return Ok(None);
    }
    let row = Runs::of(alloc, &mut runs)?;
    Ok(Some(row))
}

/// What a file sees, by a search only if it isn't known what public imports lead to.
pub(crate) fn seen_from(
    alloc: Global,
    search: &mut Search,
    led: &Led<'_>,
    file: usize,
) -> Result<Runs, AllocError>
    requires led { AreLed led.now.table.now led.now.order.now led.now.indexes.items led.now.rows.items }
    requires within { AreWithin led.now.table.now }
    requires all { (number : ℕ) → number < length led.now.table.now → Contains led.now.order.now number }
    requires files { search.old.files ≡ length led.now.table.now }
    requires file { file < length led.now.table.now }
    ensures files { IfOk result (λ _. search.new.files ≡ search.old.files) }
    ensures seen { IfOk result (λ row. IsSeen led.now.table.now led.now.order.now row file) }
{
    match seen_by_steps(alloc, led, file)? {
        Some(row) => Ok(row),
        None => {
            search_from(search, led.table, file)?;
            search.to_runs(alloc, led.order)
        }
    }
}
