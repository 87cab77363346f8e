//! What documents are made from: the linked files, and what was chosen for their declarations.

ghost use Rattle.std.specs.Prelude.{◌≡◌, length, map};
ghost use Rattle.scip_model.specs.Chosen.{IsChosen, HasChoice};
ghost use Rattle.scip_model.specs.Tables.EntryLists.{choices_for};

use crate::naming::SymbolPackages;
use index_hooks::Choice;
use proto_lex::{Encoding, Text};
use std::alloc::Global;
use std::marker::Model;

/// What the document of a source is made from.
#[derive(Drop)]
pub struct DocumentMaker<'a, 'l, 'f, 't> {
    /// Where memory is taken.
    pub alloc: Global,
    /// What was chosen for each declaration of the files.
    pub choices: &'a Choices,
    /// The files, which are linked, and the packages that their symbols belong to.
    pub package: &'a SymbolPackages<'a, 'l, 'f>,
    /// In which code units columns count.
    pub encoding: Encoding,
    /// The number of the source.
    pub source: usize,
    /// The text of the source.
    pub text: &'a Text<'t>,
}

/// What was chosen for the declarations of files: for each file, by its number, a list, in the
/// order of its declarations.
#[derive(Debug, Drop)]
pub struct Choices {
    lists: Vec<Vec<Choice>>,
}

impl Model for Choices {
    ghost use Rattle.scip_model.specs.Chosen.{Chosen};
    ghost use Rattle.std.specs.Prelude.{map};

    ghost Value = { Chosen };

    ghost view = { λ choices. map (λ list. list.items) choices.lists.items };
}

impl Choices {
    /// The choices of these lists. Takes no memory.
    pub fn new(lists: Vec<Vec<Choice>>) -> Choices
        ensures { result ≡ map (λ list. list.items) lists.items }
    {
        Choices { lists }
    }

    /// The choice for a declaration, by its file's number and its own, both from 0. There has to be one: the lists that
    /// `new` was given have one with the first number, and that list a choice with the second.
    pub fn of(&self, file: usize, declaration: usize) -> Choice
        requires { HasChoice self.now file declaration }
        ensures { IsChosen self.now file declaration result }
    {
        self.lists[file][declaration]
    }

    /// How many files there are lists for.
    pub fn file_count(&self) -> usize
        ensures { result ≡ length self.now }
    {
        self.lists.len()
    }

    /// The choices for the declarations of the file with this number, from 0, in their order. None are there for a
    /// number that isn't below `file_count`.
    pub fn of_file(&self, file: usize) -> &[Choice]
        ensures { result.now ≡ choices_for self.now file }
    {
        match self.lists.get(file) {
            Some(list) => list.as_slice(),
            None => &[],
        }
    }
}
