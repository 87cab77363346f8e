//! Searches backwards along imports, from some files to those whose imports lead to them.

ghost use Rattle.std.specs.Prelude.{ℕ, ◌≡◌, ◌<◌, ◌≤◌, ◌↔◌, ◌⊎◌, Bool, true, All, None, Some, OnOk, IfOk, Contains, length};
ghost use Rattle.std.specs.List.{slice_get};
ghost use Rattle.proto_visibility.specs.Tables.ImportTables.{AreWithin, HasStep};
ghost use Rattle.proto_visibility.specs.Tables.OptionTables.{AreFirstEnds, AreTurned, ByEach};

use crate::import_table::Steps;
use crate::search::Search;
use crate::seeing::follow_from;
use proto_parse::ImportKind;
use std::alloc::{AllocError, Global};

/// The steps of a table backwards, each as a public one.
pub(crate) fn turned(alloc: Global, table: &[Steps]) -> Result<Vec<Steps>, AllocError>
    requires { AreWithin table.now }
    ensures { IfOk result (λ back. AreTurned table.now back.items) }
{
    let mut back = no_steps(alloc, table.len())?;
    for (number, steps) in table.iter().enumerate() {
        add_back(&mut back, steps.plain.as_slice(), number)?;
        add_back(&mut back, steps.public.as_slice(), number)?;
    }
    Ok(back)
}

/// A table of so many files, without steps.
fn no_steps(alloc: Global, files: usize) -> Result<Vec<Steps>, AllocError>
    ensures size { IfOk result (λ table. length table.items ≡ files) }
    ensures none { IfOk result (λ table. (from to : ℕ) (publicly : Bool) → HasStep table.items from publicly to → ⊥) }
{
    let mut table = Vec::with_capacity(alloc, files)?;
    for _ in 0..files {
        table.push_reserved(Steps::new(alloc));
    }
    Ok(table)
}

/// Adds a public step to a file from each of these.
fn add_back(back: &mut Vec<Steps>, from: &[usize], to: usize) -> Result<(), AllocError>
    requires { All (λ number. number < length back.old.items) from.now }
    ensures size { OnOk result (length back.new.items ≡ length back.old.items) }
    ensures steps { OnOk result ((number other : ℕ) (publicly : Bool) → HasStep back.new.items number publicly other
        ↔ (HasStep back.old.items number publicly other
        ⊎ ((publicly ≡ true) × Contains from.now number × (other ≡ to)))) }
{
    for number in from {
        back[*number].add(ImportKind::Public, to)?;
    }
    Ok(())
}

/// For each file the first of these from which the steps lead to it.
pub(crate) fn first_ends(
    alloc: Global,
    back: &[Steps],
    ends: &[usize],
) -> Result<Vec<Option<usize>>, AllocError>
    requires within { AreWithin back.now }
    requires ends { All (λ number. number < length back.now) ends.now }
    ensures { IfOk result (λ firsts. AreFirstEnds back.now ends.now firsts.items) }
{
    let mut search = Search::new(alloc, back.len())?;
    let mut firsts = no_numbers(alloc, back.len())?;
    for end in ends {
        let from = search.found().len();
        search.visit(*end)?;
        follow_from(&mut search, back, from)?;
        set_behind(&mut firsts, search.found(), from, *end);
    }
    Ok(firsts)
}

/// No number for so many files.
fn no_numbers(alloc: Global, files: usize) -> Result<Vec<Option<usize>>, AllocError>
    ensures size { IfOk result (λ numbers. length numbers.items ≡ files) }
    ensures none { IfOk result (λ numbers. All (λ number. number ≡ None) numbers.items) }
{
    let mut numbers = Vec::with_capacity(alloc, files)?;
    for _ in 0..files {
        numbers.push_reserved(None);
    }
    Ok(numbers)
}

/// Sets this end for each of the files from an index on.
fn set_behind(firsts: &mut Vec<Option<usize>>, numbers: &[usize], from: usize, end: usize)
    requires { All (λ number. number < length firsts.old.items) numbers.now }
    ensures size { length firsts.new.items ≡ length firsts.old.items }
    ensures set { (index number : ℕ) → from ≤ index → slice_get numbers.now index ≡ Some number
        → slice_get firsts.new.items number ≡ Some (Some end) }
    ensures kept { (number : ℕ) → ((index : ℕ) → from ≤ index → slice_get numbers.now index ≡ Some number → ⊥)
        → slice_get firsts.new.items number ≡ slice_get firsts.old.items number }
{
    for index in from..numbers.len() {
        firsts[numbers[index]] = Some(end);
    }
}
