//! An order of files in which those that one file sees are mostly neighbours.

ghost use Rattle.std.specs.Prelude.{
  ℕ,
  ◌≡◌,
  ◌<◌,
  ◌≤◌,
  ◌+◌,
  ◌-◌,
  ◌*◌,
  ◌↔◌,
  false,
  Some,
  All,
  IfOk,
  IfSome,
  OnOk,
  MatchOption,
  Contains,
  length,
  ◌==◌,
};
ghost use Rattle.std.specs.List.{slice_get, list_any, IsDistinct};
ghost use Rattle.std.specs.List.Sorted.{IsNonDecreasing};
ghost use Rattle.proto_visibility.specs.Tables.ImportTables.{AreWithin};
ghost use Rattle.proto_visibility.specs.Tables.Rows.{IsIn, IsWith, AreRanks};

use crate::import_table::Steps;
use crate::lookup::stands_among;
use crate::rows::Run;
use crate::search::Search;
use std::alloc::{AllocError, Global};
use std::marker::Model;

/// All files in an order, and the place of each there; and in the order in which a walk was done with them. Contracts
/// see the list of the files.
#[derive(Drop)]
pub(crate) struct FileOrder {
    files: Vec<usize>,
    ranks: Vec<usize>,
    finished: Vec<usize>,
}

impl Model for FileOrder {
    ghost use Rattle.std.specs.Prelude.{List, ℕ};
    ghost use Rattle.proto_visibility.specs.Tables.Rows.{AreRanks};

    ghost Value = { List ℕ };

    ghost view = { λ order. order.files.items };

    ghost invariant = { λ order. AreRanks order.files.items order.ranks.items };
}

impl FileOrder {
    /// The order of a walk in depth along public imports: behind a file is what only it leads to.
    pub(crate) fn of(alloc: Global, table: &[Steps]) -> Result<FileOrder, AllocError>
        requires { AreWithin table.now }
        ensures { IfOk result (λ order. (number : ℕ) → number < length table.now → Contains order number) }
    {
        let mut search = Search::new(alloc, table.len())?;
        let mut finished = Vec::with_capacity(alloc, table.len())?;
        walk(alloc, &mut search, &mut finished, table)?;
        let files = Vec::from_slice(alloc, search.found())?;
        let ranks = ranks_of(alloc, table.len(), files.as_slice())?;
        Ok(FileOrder {
            files,
            ranks,
            finished,
        })
    }

    /// The place of a file.
    pub(crate) fn rank_of(&self, number: usize) -> Option<usize>
        ensures { (rank : ℕ) → (slice_get self.now rank ≡ Some number) ↔ (result ≡ Some rank) }
    {
        number_at(self.ranks.as_slice(), number)
    }

    /// The files in the order in which the walk was done with them: a file comes behind those that it imports publicly,
    /// unless these lead back to it.
    pub(crate) fn finished(&self) -> &[usize] {
        self.finished.as_slice()
    }

    /// Adds the place of a file to runs.
    pub(crate) fn add_file(&self, runs: &mut Vec<Run>, number: usize) -> Result<(), AllocError>
        requires { Contains self.now number }
        ensures { OnOk result (IsWith self.now runs.old.items runs.new.items (λ file. file ≡ number)) }
    {
        let place = self.rank_of(number).unwrap();
        runs.push(Run {
            first: place,
            last: place,
        })?;
        Ok(())
    }

    /// Adds the places of these files.
    pub(crate) fn add_files(&self, runs: &mut Vec<Run>, numbers: &[usize]) -> Result<(), AllocError>
        requires { All (Contains self.now) numbers.now }
        ensures { OnOk result (IsWith self.now runs.old.items runs.new.items (Contains numbers.now)) }
    {
        for number in numbers {
            self.add_file(runs, *number)?;
        }
        Ok(())
    }

    /// A file at a place of a run that is among these numbers, which don't fall.
    pub(crate) fn first_of_run(&self, run: Run, numbers: &[usize]) -> Option<usize>
        requires { IsNonDecreasing numbers.now }
        ensures { MatchOption result
            ((place number : ℕ) → IsIn run place → slice_get self.now place ≡ Some number → Contains numbers.now number
            → ⊥)
            (λ number. Contains numbers.now number × ((place : ℕ) × IsIn run place × (slice_get self.now place ≡ Some
            number))) }
    {
        for place in run.first..=run.last {
            if let Some(number) = self.file_among(place, numbers) {
                return Some(number);
            }
        }
        None
    }

    /// The file at a place, if it is among these numbers, which don't fall.
    fn file_among(&self, place: usize, numbers: &[usize]) -> Option<usize>
        requires { IsNonDecreasing numbers.now }
        ensures { MatchOption result ((number : ℕ) → slice_get self.now place ≡ Some number → Contains numbers.now
            number → ⊥) (λ number. (slice_get self.now place ≡ Some number) × Contains numbers.now number) }
    {
        let number = self.files.get(place).copied()?;
        if stands_among(number, numbers) {
            Some(number)
        } else {
            None
        }
    }
}

/// The number with an index, if there is one.
fn number_at(numbers: &[usize], index: usize) -> Option<usize>
    ensures { result ≡ slice_get numbers.now index }
{
    numbers.get(index).copied()
}

/// The steps of a file, if there is one with this number.
fn steps_at(table: &[Steps], file: usize) -> Option<&Steps>
    ensures { IfSome result (λ steps. slice_get table.now file ≡ Some steps.now) }
{
    table.get(file)
}

/// For each file its place among these, which are all files, each once.
fn ranks_of(alloc: Global, count: usize, files: &[usize]) -> Result<Vec<usize>, AllocError>
    requires distinct { IsDistinct ◌==◌ files.now }
    requires below { All (λ number. number < count) files.now }
    requires all { (number : ℕ) → number < count → Contains files.now number }
    ensures { IfOk result (λ ranks. AreRanks files.now ranks.items) }
{
    let mut ranks = zeros(alloc, count)?;
    for (rank, number) in files.iter().enumerate() {
        ranks[*number] = rank;
    }
    Ok(ranks)
}

/// So many zeros.
fn zeros(alloc: Global, count: usize) -> Result<Vec<usize>, AllocError>
    ensures { IfOk result (λ zeros. length zeros.items ≡ count) }
{
    let mut zeros = Vec::with_capacity(alloc, count)?;
    for _ in 0..count {
        zeros.push_reserved(0);
    }
    Ok(zeros)
}

/// A file of the walk, and how many of its public steps are done.
#[derive(Clone, Copy)]
struct Turn {
    file: usize,
    done: usize,
}

/// Finds all files, and lists each when what its public imports lead to is found.
fn walk(
    alloc: Global,
    search: &mut Search,
    finished: &mut Vec<usize>,
    table: &[Steps],
) -> Result<(), AllocError>
    requires within { AreWithin table.now }
    requires files { search.old.files ≡ length table.now }
    ensures files { OnOk result (search.new.files ≡ search.old.files) }
    ensures found { OnOk result ((number : ℕ) → number < length table.now → Contains search.new.numbers number) }
{
    for file in 0..table.len() {
        walk_from(alloc, search, finished, table, file)?;
    }
    Ok(())
}

/// Finds a file, and what its public imports lead to.
fn walk_from(
    alloc: Global,
    search: &mut Search,
    finished: &mut Vec<usize>,
    table: &[Steps],
    file: usize,
) -> Result<(), AllocError>
    requires within { AreWithin table.now }
    requires files { search.old.files ≡ length table.now }
    requires file { file < length table.now }
    ensures files { OnOk result (search.new.files ≡ search.old.files) }
    ensures kept { OnOk result ((number : ℕ) → Contains search.old.numbers number → Contains search.new.numbers
        number) }
    ensures found { OnOk result (Contains search.new.numbers file) }
{
    search.visit(file)?;
    let mut turns = Vec::new(alloc);
    turns.push(Turn { file, done: 0 })?;
    while let Some(turn) = turns.pop() {
        take_turn(search, &mut turns, finished, table, turn)?;
    }
    Ok(())
}

/// Goes on to the first public step of a file that is neither done nor found, and comes back to the file after it. If
/// there is none, the file is listed.
fn take_turn(
    search: &mut Search,
    turns: &mut Vec<Turn>,
    finished: &mut Vec<usize>,
    table: &[Steps],
    turn: Turn,
) -> Result<(), AllocError>
    requires within { AreWithin table.now }
    requires files { search.old.files ≡ length table.now }
    ensures files { OnOk result (search.new.files ≡ search.old.files) }
    ensures kept { OnOk result ((number : ℕ) → Contains search.old.numbers number → Contains search.new.numbers
        number) }
    ensures fewer { OnOk result (length turns.new.items + 2 * (search.new.files - length search.new.numbers)
        ≤ length turns.old.items + 2 * (search.old.files - length search.old.numbers)) }
{
    match steps_at(table, turn.file) {
        Some(steps) => {
            let public = steps.public.as_slice();
            match search.first_new(public, turn.done) {
                Some(index) => go_on(search, turns, turn.file, index, public[index]),
                None => list(finished, turn.file),
            }
        }
        None => Ok(()),
    }
}

/// Lists a file.
fn list(finished: &mut Vec<usize>, file: usize) -> Result<(), AllocError> {
    Ok(finished.push(file)?)
}

/// Finds the next file, which is the step of a file with this index.
fn go_on(
    search: &mut Search,
    turns: &mut Vec<Turn>,
    file: usize,
    index: usize,
    next: usize,
) -> Result<(), AllocError>
    requires next { next < search.old.files }
    requires new { list_any (λ other. next == other) search.old.numbers ≡ false }
    requires few { length search.old.numbers < search.old.files }
    ensures files { OnOk result (search.new.files ≡ search.old.files) }
    ensures kept { OnOk result ((number : ℕ) → Contains search.old.numbers number → Contains search.new.numbers
        number) }
    ensures fewer { OnOk result (length turns.new.items + 2 * (search.new.files - length search.new.numbers)
        ≤ length turns.old.items + 2 * (search.old.files - length search.old.numbers)) }
{
    search.visit(next)?;
    turns.push(Turn {
        file,
        done: index.saturating_add(1),
    })?;
    turns.push(Turn {
        file: next,
        done: 0,
    })?;
    Ok(())
}
