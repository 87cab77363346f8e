//! A search over files, which finds each of them once.

ghost use Rattle.std.specs.Prelude.{
  ℕ,
  ◌≡◌,
  ◌<◌,
  ◌≤◌,
  [],
  false,
  All,
  OnOk,
  IfOk,
  IfSome,
  Contains,
  ◌↔◌,
  length,
  slice_get,
  slice_index_or,
  ◌==◌,
};
ghost use Rattle.std.specs.List.{IsDistinct, list_any};
ghost use Rattle.proto_visibility.specs.Tables.Rows.{files_at};
ghost use Rattle.proto_visibility.specs.Tables.Visits.{visit, visit_all, IsNewAt};

use crate::file_order::FileOrder;
use crate::rows::Runs;
use std::alloc::{AllocError, Global};
use std::marker::Model;

/// The files that are found so far, in order of first sight, each once. A file's mark says whether it
/// is found.
#[derive(Drop)]
pub(crate) struct Search {
    marks: Vec<bool>,
    numbers: Vec<usize>,
}

impl Model for Search {
    ghost use Rattle.proto_visibility.specs.Tables.Visits.{Found, AreMarked};
    ghost use Rattle.std.specs.Prelude.{length};

    ghost Value = { Found };

    ghost view = { λ s. record { files = length s.marks.items; numbers = s.numbers.items } };

    ghost invariant = { λ s. AreMarked s.marks.items s.numbers.items };
}

impl Search {
    /// A search over so many files, which has found nothing yet.
    pub(crate) fn new(alloc: Global, files: usize) -> Result<Search, AllocError>
        ensures { IfOk result (λ search. search ≡ record { files = files; numbers = [] }) }
    {
        let mut marks = Vec::with_capacity(alloc, files)?;
        for _ in 0..files {
            marks.push_reserved(false);
        }
        Ok(Search {
            marks,
            numbers: Vec::new(alloc),
        })
    }

    /// Forgets what is found.
    pub(crate) fn start(&mut self)
        ensures { self.new ≡ record { files = self.old.files; numbers = [] } }
    {
        while let Some(number) = self.numbers.pop() {
            self.marks[number] = false;
        }
    }

    /// Finds a file, unless it is found already.
    pub(crate) fn visit(&mut self, number: usize) -> Result<(), AllocError>
        requires { number < self.old.files }
        ensures { OnOk result (self.new ≡ record { files = self.old.files; numbers = visit self.old.numbers number }) }
    {
        if self.marks[number] {
            return Ok(());
        }
        self.numbers.push(number)?;
        self.marks[number] = true;
        Ok(())
    }

    /// Finds files, one after the other.
    pub(crate) fn visit_all(&mut self, numbers: &[usize]) -> Result<(), AllocError>
        requires { All (λ number. number < self.old.files) numbers.now }
        ensures { OnOk result (self.new ≡ record {
          files = self.old.files;
          numbers = visit_all self.old.numbers
              numbers.now;
        }) }
    {
        for number in numbers {
            self.visit(*number)?;
        }
        Ok(())
    }

    /// The file that was found at this place in order, if so many are found.
    pub(crate) fn nth(&self, index: usize) -> Option<usize>
        ensures value { result ≡ slice_get self.now.numbers index }
        ensures below { IfSome result (λ number. number < self.now.files) }
        ensures few { length self.now.numbers ≤ self.now.files }
    {
        self.numbers.get(index).copied()
    }

    /// The files that are found, in order of first sight.
    pub(crate) fn found(&self) -> &[usize]
        ensures value { result.now ≡ self.now.numbers }
        ensures distinct { IsDistinct ◌==◌ self.now.numbers }
        ensures below { All (λ number. number < self.now.files) self.now.numbers }
    {
        self.numbers.as_slice()
    }

    /// The index of the first of these files, from one on, that isn't found.
    pub(crate) fn first_new(&self, numbers: &[usize], from: usize) -> Option<usize>
        requires { All (λ number. number < self.now.files) numbers.now }
        ensures { IfSome result (IsNewAt self.now numbers.now) }
    {
        for index in from..numbers.len() {
            if !self.marks[numbers[index]] {
                return Some(index);
            }
        }
        None
    }

    /// The runs of the places of the files that are found, in an order that has all files.
    pub(crate) fn to_runs(&self, alloc: Global, order: &FileOrder) -> Result<Runs, AllocError>
        requires { (number : ℕ) → number < self.now.files → Contains order.now number }
        ensures { IfOk result (λ runs. (number : ℕ) → Contains (files_at order.now runs) number ↔ Contains
            self.now.numbers number) }
    {
        let mut runs = Vec::with_capacity(alloc, self.numbers.len())?;
        order.add_files(&mut runs, self.numbers.as_slice())?;
        Runs::of(alloc, &mut runs)
    }
}
