//! What is known of a file beside its facts.

ghost use Rattle.std.specs.Prelude.{◌≡◌, ◌++◌, ◌∷◌, [], None, Some, IsTrue, ◌↔◌, OnOk, MatchOption, length, map};
ghost use Rattle.std.specs.List.{slice_get};
ghost use Rattle.std.specs.List.Sorted.{IsStrictlyIncreasing};
ghost use Rattle.option_link.specs.Beside.{beside_of, nothing_beside};
ghost use Rattle.option_link.specs.Fields.{AreInOrder};
ghost use Rattle.option_link.specs.declared.facts.OptionFacts.{OptionFacts};

use basics::Sequence;
use proto_options::{FieldFact, FileOption, MessageFact};
use std::alloc::{AllocError, Global};
use std::marker::Model;

/// What is known of a file beside its facts.
#[derive(Debug, Drop)]
pub struct OptionFacts {
    /// Its options, in order of place. Of an included file they may lack.
    pub options: Sequence<FileOption>,
    /// Its fields, in order of place.
    pub fields: Sequence<FieldFact>,
    /// What its messages say of names.
    pub messages: Sequence<MessageFact>,
}

/// What is known of files beside their facts, each where it was read, by the numbers of the files.
///
/// Contracts see the list of it, with no options, no fields and no messages of a file of which nothing is known.
#[derive(Drop)]
pub struct FilesBeside<'k> {
    each: Vec<Option<&'k OptionFacts>>,
}

impl<'k> Model for FilesBeside<'k> {
    ghost use Rattle.std.specs.Prelude.{List, map};
    ghost use Rattle.option_link.specs.Beside.{beside_of};
    ghost use Rattle.option_link.specs.declared.facts.OptionFacts.{OptionFacts};

    ghost Value = { List OptionFacts };

    ghost view = { λ files. map beside_of files.each.items };
}

impl<'k> FilesBeside<'k> {
    /// Of no file. Takes no memory.
    pub fn new(alloc: Global) -> FilesBeside<'k>
        ensures { result ≡ [] }
    {
        FilesBeside {
            each: Vec::new(alloc),
        }
    }

    /// Adds what is known of the next file, if anything is. An error means that memory was refused.
    pub fn push(&mut self, beside: Option<&'k OptionFacts>) -> Result<(), AllocError>
        ensures { OnOk result (self.new ≡ self.old ++ beside_of beside.entry ∷ []) }
    {
        self.each.push(beside)?;
        Ok(())
    }

    /// How many files there are.
    pub fn count(&self) -> usize
        ensures { result ≡ length self.now }
    {
        self.each.len()
    }

    /// What is known of the file with a number, if anything is.
    fn beside(&self, file: usize) -> Option<&'k OptionFacts>
        ensures { MatchOption (slice_get self.now file) (beside_of result ≡ nothing_beside)
            (λ beside. beside_of result ≡ beside) }
    {
        match self.each.get(file) {
            Some(beside) => *beside,
            None => None,
        }
    }

    /// The options of the file with a number, in order of place. None are there of a file of which nothing is known,
    /// nor for a number that no file has.
    pub fn options_of(&self, file: usize) -> &'k [FileOption]
        ensures { MatchOption (slice_get self.now file) (result.now ≡ []) (λ beside. result.now ≡ beside.options) }
    {
        match self.beside(file) {
            Some(beside) => beside.options.as_slice(),
            None => &[],
        }
    }

    /// The fields of the file with a number, in order of place.
    pub(crate) fn fields_of(&self, file: usize) -> &'k [FieldFact]
        ensures { MatchOption (slice_get self.now file) (result.now ≡ []) (λ beside. result.now ≡ beside.fields) }
    {
        match self.beside(file) {
            Some(beside) => beside.fields.as_slice(),
            None => &[],
        }
    }

    /// What the messages of the file with a number say of names.
    pub(crate) fn messages_of(&self, file: usize) -> &'k [MessageFact]
        ensures { MatchOption (slice_get self.now file) (result.now ≡ []) (λ beside. result.now ≡ beside.messages) }
    {
        match self.beside(file) {
            Some(beside) => beside.messages.as_slice(),
            None => &[],
        }
    }
}

/// Whether fields start one behind the other.
fn rise(fields: &[FieldFact]) -> bool
    ensures { IsTrue result ↔ IsStrictlyIncreasing (map (λ fact. fact.name.start) fields.now) }
{
    fields.is_sorted_by(|one, next| one.name.start < next.name.start)
}

/// Whether the fields of each file are in order of place, as `proto_options` gives them. Takes no memory.
pub fn fields_are_in_order(known: &FilesBeside<'_>) -> bool
    ensures { IsTrue result ↔ AreInOrder known.now }
{
    for file in 0..known.count() {
        if !rise(known.fields_of(file)) {
            return false;
        }
    }
    true
}
