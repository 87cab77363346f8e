//! Sets of files: their numbers, runs of neighbours in an order, and what one file sees.

ghost use Rattle.std.specs.Prelude.{ℕ, ◌≡◌, ◌↔◌, IsTrue, IfOk, Contains, vec_len, ◌==◌, ◌≤◌, ◌⊎◌, ◌∷◌, MatchOption};
ghost use Rattle.std.specs.List.{IsDistinct, slice_get};
ghost use Rattle.std.specs.List.Sorted.{IsStrictlyIncreasing, IsNonDecreasing, IsNonDecreasingBy};
ghost use Rattle.proto_visibility.specs.Tables.Rows.{numbers_in, HasNumber, IsIn, AreWhole, AreInOrder, AreBefore};

use crate::file_order::FileOrder;
use std::alloc::{AllocError, Global};
use std::marker::Model;

/// Numbers of files, rising. Contracts see the list of them.
#[derive(Drop)]
pub(crate) struct FileRow {
    numbers: Vec<usize>,
}

impl Model for FileRow {
    ghost use Rattle.std.specs.Prelude.{List, ℕ};
    ghost use Rattle.std.specs.List.Sorted.{IsStrictlyIncreasing};

    ghost Value = { List ℕ };

    ghost view = { λ r. r.numbers.items };

    ghost invariant = { λ r. IsStrictlyIncreasing r.numbers.items };
}

impl FileRow {
    /// The row of these numbers, which differ.
    pub(crate) fn of(alloc: Global, numbers: &[usize]) -> Result<FileRow, AllocError>
        requires { IsDistinct ◌==◌ numbers.now }
        ensures { IfOk result (λ row. (number : ℕ) → Contains row number ↔ Contains numbers.now number) }
    {
        let mut numbers = Vec::from_slice(alloc, numbers)?;
        numbers.sort()?;
        Ok(FileRow { numbers })
    }

    /// Whether the file with this number is in the row.
    pub(crate) fn has(&self, number: usize) -> bool
        ensures { IsTrue result ↔ Contains self.now number }
    {
        self.numbers.binary_search(&number).is_ok()
    }

    /// The numbers, each above those before it.
    pub(crate) fn as_slice(&self) -> &[usize]
        ensures value { result.now ≡ self.now }
        ensures rising { IsStrictlyIncreasing self.now }
    {
        self.numbers.as_slice()
    }
}

/// The numbers from the first to the last.
#[derive(Clone, Copy)]
pub(crate) struct Run {
    pub(crate) first: usize,
    pub(crate) last: usize,
}

/// A set of numbers, as runs in order, and how many they are. Contracts see the list of the numbers.
#[derive(Drop)]
pub(crate) struct Runs {
    runs: Vec<Run>,
    given: usize,
}

impl Model for Runs {
    ghost use Rattle.std.specs.Prelude.{List, ℕ};
    ghost use Rattle.proto_visibility.specs.Tables.Rows.{numbers_in, AreInOrder};

    ghost Value = { List ℕ };

    ghost view = { λ r. numbers_in r.runs.items };

    ghost invariant = { λ r. AreInOrder r.runs.items };
}

impl Runs {
    /// The runs of the numbers of these runs, each of which ends where it begins or later.
    pub(crate) fn of(alloc: Global, runs: &mut Vec<Run>) -> Result<Runs, AllocError>
        requires { AreWhole runs.old.items }
        ensures { IfOk result (λ row. (number : ℕ) → Contains row number
            ↔ Contains (numbers_in runs.old.items) number) }
    {
        runs.sort_unstable_by_key(|run| run.first);
        let runs = joined(alloc, runs.as_slice())?;
        let given = count_in(runs.as_slice());
        Ok(Runs { runs, given })
    }

    /// Whether the number is in a run.
    pub(crate) fn has(&self, number: usize) -> bool
        ensures { IsTrue result ↔ Contains self.now number }
    {
        let before = self.runs.partition_point(|run| run.last < number);
        match run_at(self.runs.as_slice(), before) {
            Some(run) => run.first <= number,
            None => false,
        }
    }

    /// The runs.
    pub(crate) fn as_slice(&self) -> &[Run]
        ensures numbers { numbers_in result.now ≡ self.now }
        ensures whole { AreWhole result.now }
    {
        self.runs.as_slice()
    }

    /// How many numbers there are.
    pub(crate) fn given(&self) -> usize {
        self.given
    }
}

/// The run with an index, if there is one.
fn run_at(runs: &[Run], index: usize) -> Option<Run>
    ensures { result ≡ slice_get runs.now index }
{
    runs.get(index).copied()
}

/// How many numbers runs have, if no number is in two.
fn count_in(runs: &[Run]) -> usize {
    let mut count: usize = 0;
    for run in runs {
        count = count
            .saturating_add(run.last.saturating_sub(run.first))
            .saturating_add(1);
    }
    count
}

/// Runs of the numbers of these, which begin one behind the other, in order.
fn joined(alloc: Global, runs: &[Run]) -> Result<Vec<Run>, AllocError>
    requires order { IsNonDecreasingBy (λ run. run.first) runs.now }
    requires whole { AreWhole runs.now }
    ensures order { IfOk result (λ joined. AreInOrder joined.items) }
    ensures numbers { IfOk result (λ joined. (number : ℕ) → Contains (numbers_in joined.items) number
        ↔ Contains (numbers_in runs.now) number) }
{
    match runs {
        [] => Ok(Vec::new(alloc)),
        [first, others @ ..] => joined_from(alloc, *first, others),
    }
}

/// The same for a first run and others.
fn joined_from(alloc: Global, first: Run, others: &[Run]) -> Result<Vec<Run>, AllocError>
    requires order { IsNonDecreasingBy (λ run. run.first) (first ∷ others.now) }
    requires whole { AreWhole (first ∷ others.now) }
    ensures order { IfOk result (λ joined. AreInOrder joined.items) }
    ensures numbers { IfOk result (λ joined. (number : ℕ) → Contains (numbers_in joined.items) number
        ↔ Contains (numbers_in (first ∷ others.now)) number) }
{
    let mut joined = Vec::new(alloc);
    let mut run = first;
    for next in others {
        run = with_next(&mut joined, run, *next)?;
    }
    joined.push(run)?;
    Ok(joined)
}

/// A run with the numbers of one that doesn't begin before it. If they are apart, the first is kept, and the other one
/// is given.
fn with_next(runs: &mut Vec<Run>, run: Run, next: Run) -> Result<Run, AllocError>
    requires whole { run.first ≤ run.last }
    requires next { next.first ≤ next.last }
    requires behind { run.first ≤ next.first }
    ensures numbers { IfOk result (λ last. (other : ℕ) → HasNumber runs.new.items last other
        ↔ (HasNumber runs.old.items run other ⊎ IsIn next other)) }
    ensures before { IfOk result (λ last. AreBefore runs.old.items run.first → AreBefore runs.new.items last.first) }
    ensures whole { IfOk result (λ last. last.first ≤ last.last) }
    ensures behind { IfOk result (λ last. last.first ≤ next.first) }
{
    if next.last <= run.last {
        return Ok(run);
    }
    if next.first.saturating_sub(run.last) <= 1 {
        return Ok(Run {
            first: run.first,
            last: next.last,
        });
    }
    runs.push(run)?;
    Ok(next)
}

/// The files that one file sees, as runs of places in an order of all files. Contracts see the list of the files.
#[derive(Drop)]
pub(crate) struct SeenRow<'a> {
    pub(crate) order: &'a FileOrder,
    pub(crate) runs: &'a Runs,
}

impl<'a> Model for SeenRow<'a> {
    ghost use Rattle.std.specs.Prelude.{List, ℕ};
    ghost use Rattle.proto_visibility.specs.Tables.Rows.{files_at};

    ghost Value = { List ℕ };

    ghost view = { λ row. files_at row.order.now row.runs.now };
}

impl SeenRow<'_> {
    /// Whether the file with this number is seen.
    pub(crate) fn has(&self, number: usize) -> bool
        ensures { IsTrue result ↔ Contains self.now number }
    {
        match self.order.rank_of(number) {
            Some(place) => self.runs.has(place),
            None => false,
        }
    }

    /// How many files are seen, near enough to choose a way by.
    pub(crate) fn size(&self) -> usize {
        self.runs.given()
    }

    /// A file that is seen and is among these numbers, which don't fall.
    pub(crate) fn one_among(&self, numbers: &[usize]) -> Option<usize>
        requires { IsNonDecreasing numbers.now }
        ensures { MatchOption result ((number : ℕ) → Contains numbers.now number → Contains self.now number → ⊥)
            (λ number. Contains numbers.now number × Contains self.now number) }
    {
        for run in self.runs.as_slice() {
            if let Some(number) = self.order.first_of_run(*run, numbers) {
                return Some(number);
            }
        }
        None
    }
}
