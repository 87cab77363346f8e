//! What commands are answered with, in whatever form that is shown.

ghost use Rattle.std.specs.Prelude.{◌≡◌, ◌++◌, IfOk, OnOk, map, option_copied};
ghost use Rattle.std.specs.Result.{result_map_both};
ghost use Rattle.scip_records.specs.Texts.{unless_empty};
ghost use Rattle.scip_query.specs.Answers.{
  Sites,
  Texts,
  Entries,
  Outlines,
  Finds,
  Misses,
  given,
  given_to,
  is_found,
  more_given_to,
};
ghost use Rattle.scip_query.specs.Commands as commands;
ghost use Rattle.scip_query.specs.MoreCommands as more;
ghost use Rattle.scip_query.specs.CommandViews.{command_view, text_of};
ghost use Rattle.scip_query.specs.Documentation.{documentation_at, symbols_of};
ghost use Rattle.scip_query.specs.Entries.{signature_at};
ghost use Rattle.scip_query.specs.Finding.{found_by};
ghost use Rattle.scip_query.specs.MoreViews.{answer_view, more_view};
ghost use Rattle.scip_query.specs.Named.{entries_at};
ghost use Rattle.scip_query.specs.Nearest.{nearest_at};
ghost use Rattle.scip_query.specs.Outcomes.{fault_of};
ghost use Rattle.scip_query.specs.Outline.{outline_of};
ghost use Rattle.scip_query.specs.References.{references_at};
ghost use Rattle.scip_query.specs.Tables.Searches.{some_of};
ghost use Rattle.scip_query.specs.declared.miss.Miss.{Miss};

use crate::command::{Command, Question};
use crate::finding::Found;
use crate::miss::Miss;
use crate::more_command::MoreCommand;
use crate::nearness::nearest;
use crate::outline::Outlined;
use crate::position::Position;
use crate::queries::Queries;
use crate::query_fault::QueryFault;
use crate::site::{Site, sites_at};
use scip_records::SymbolInformation;
use std::alloc::{AllocError, Global};

/// What commands there are.
const HELP: &str =
    "def L C PATH: where the symbol at a position is defined; lines and columns count from 0\n\
ref L C PATH: where it occurs\n\
doc L C PATH: its documentation\n\
sig L C PATH: how it is declared\n\
sym PATH: the symbols of a file\n\
out PATH: its definitions, in order of place\n\
find TEXT: definitions by name, or the end of a full name, or how one begins\n\
pos PATH:LINE:COL: as def; lines and columns count from 1\n\
help: these lines";

/// What a command is answered with.
#[derive(Debug, Drop)]
pub enum Answer<'a> {
    /// Occurrences.
    Sites(Vec<Site<'a>>),
    /// Texts: of documentation, a signature, or help.
    Texts(Vec<&'a str>),
    /// Symbol entries.
    Entries(Vec<&'a SymbolInformation>),
    /// The outline of a document.
    Outline(Vec<Outlined<'a>>),
    /// Definitions that a text finds.
    Found(Vec<Found<'a>>),
    /// Why there is nothing.
    Missed(Miss),
}

impl<'a> Answer<'a> {
    /// Whether something is found.
    pub fn is_found(&self) -> bool
        ensures { result ≡ is_found (answer_view self.now) }
    {
        match self {
            Answer::Sites(sites) => !sites.as_slice().is_empty(),
            Answer::Texts(texts) => !texts.as_slice().is_empty(),
            Answer::Entries(entries) => !entries.as_slice().is_empty(),
            Answer::Outline(outline) => !outline.as_slice().is_empty(),
            Answer::Found(found) => !found.as_slice().is_empty(),
            Answer::Missed(_) => false,
        }
    }
}

/// The answer that there is nothing, unless memory ran out.
pub(crate) fn missed<'a>(fault: QueryFault) -> Result<Answer<'a>, AllocError>
    ensures { IfOk result (λ answer. (miss : Miss) × (fault ≡ fault_of miss) × (answer_view answer ≡ Misses miss)) }
{
    match fault {
        QueryFault::NoDocument => Ok(Answer::Missed(Miss::NoDocument)),
        QueryFault::NothingThere => Ok(Answer::Missed(Miss::NothingThere)),
        QueryFault::Memory => Err(AllocError),
    }
}

/// Appends a text, unless it is empty.
fn push_unless_empty<'a>(texts: &mut Vec<&'a str>, text: &'a str) -> Result<(), AllocError>
    ensures { OnOk result (map text_of texts.new.items ≡ map text_of texts.old.items ++ unless_empty text.entry.now) }
{
    if !text.is_empty() {
        texts.push(text)?;
    }
    Ok(())
}

/// A text as an answer, unless it is empty.
fn some_text<'a>(alloc: Global, text: &'a str) -> Result<Answer<'a>, AllocError>
    ensures { IfOk result (λ answer. answer_view answer ≡ Texts (unless_empty text.now)) }
{
    let mut texts = Vec::new(alloc);
    push_unless_empty(&mut texts, text)?;
    Ok(Answer::Texts(texts))
}

/// An entry as an answer, if there is one.
fn some_entry<'a>(
    alloc: Global,
    entry: Option<&'a SymbolInformation>,
) -> Result<Answer<'a>, AllocError>
    ensures { IfOk result (λ answer. answer_view answer ≡ Entries (some_of (option_copied entry.entry))) }
{
    let mut entries = Vec::new(alloc);
    match entry {
        Some(entry) => {
            entries.push(entry)?;
            Ok(Answer::Entries(entries))
        }
        None => Ok(Answer::Entries(entries)),
    }
}

impl Queries {
    /// The definitions of the symbol at a position: of several of a file those that are nearest to the document in
    /// which it is asked for.
    fn given_definitions(
        &self,
        alloc: Global,
        position: Position,
        path: &str,
    ) -> Result<Answer<'_>, AllocError>
        ensures { IfOk result (λ answer. answer_view answer ≡ given Sites (nearest_at self.now path.now position)) }
    {
        match self.definitions(alloc, path, position.line, position.column) {
            Ok(places) => {
                let near = nearest(alloc, self.documents(), path, places.as_slice())?;
                let sites = sites_at(alloc, self.documents(), near.as_slice())?;
                Ok(Answer::Sites(sites))
            }
            Err(fault) => missed(fault),
        }
    }

    /// The references of the symbol at a position.
    fn given_references(
        &self,
        alloc: Global,
        position: Position,
        path: &str,
    ) -> Result<Answer<'_>, AllocError>
        ensures { IfOk result (λ answer. answer_view answer ≡ given Sites (references_at self.now path.now position)) }
    {
        match self.references(alloc, path, position.line, position.column) {
            Ok(places) => {
                let sites = sites_at(alloc, self.documents(), places.as_slice())?;
                Ok(Answer::Sites(sites))
            }
            Err(fault) => missed(fault),
        }
    }

    /// The documentation of the symbol at a position.
    fn given_documentation(
        &self,
        alloc: Global,
        position: Position,
        path: &str,
    ) -> Result<Answer<'_>, AllocError>
        ensures { IfOk result (λ answer. answer_view answer
            ≡ given Texts (documentation_at self.now path.now position)) }
    {
        match self.documentation(alloc, path, position.line, position.column) {
            Ok(texts) => Ok(Answer::Texts(texts)),
            Err(fault) => missed(fault),
        }
    }

    /// The symbol entries of a document.
    fn given_symbols(&self, alloc: Global, path: &str) -> Result<Answer<'_>, AllocError>
        ensures { IfOk result (λ answer. answer_view answer ≡ given Entries (symbols_of self.now path.now)) }
    {
        match self.symbols(alloc, path) {
            Ok(entries) => Ok(Answer::Entries(entries)),
            Err(fault) => missed(fault),
        }
    }

    /// The signature of the symbol at a position.
    fn given_signature(
        &self,
        alloc: Global,
        position: Position,
        path: &str,
    ) -> Result<Answer<'_>, AllocError>
        ensures { IfOk result (λ answer. answer_view answer ≡ given Texts (result_map_both
            unless_empty (λ miss. miss) (signature_at self.now path.now position))) }
    {
        match self.subject_at(path, position) {
            Ok(subject) => some_text(alloc, self.signature_of(&subject)),
            Err(miss) => Ok(Answer::Missed(miss)),
        }
    }

    /// The outline of a document.
    fn given_outline(&self, alloc: Global, path: &str) -> Result<Answer<'_>, AllocError>
        ensures { IfOk result (λ answer. answer_view answer ≡ given Outlines (outline_of self.now path.now)) }
    {
        match self.outline(alloc, path) {
            Ok(outline) => Ok(Answer::Outline(outline)),
            Err(fault) => missed(fault),
        }
    }

    /// The definitions that a text finds.
    fn given_found(&self, alloc: Global, asked: &str) -> Result<Answer<'_>, AllocError>
        ensures { IfOk result (λ answer. answer_view answer ≡ Finds (found_by self.now asked.now)) }
    {
        Ok(Answer::Found(self.find(alloc, asked)?))
    }

    /// The entry of the symbol at a position.
    fn given_entry(
        &self,
        alloc: Global,
        position: Position,
        path: &str,
    ) -> Result<Answer<'_>, AllocError>
        ensures { IfOk result (λ answer. answer_view answer ≡ given Entries (entries_at self.now path.now position)) }
    {
        match self.subject_at(path, position) {
            Ok(subject) => some_entry(alloc, self.entry_of(&subject)),
            Err(miss) => Ok(Answer::Missed(miss)),
        }
    }

    /// What is asked of the symbol at a position.
    fn given_there(
        &self,
        alloc: Global,
        question: Question,
        position: Position,
        path: &str,
    ) -> Result<Answer<'_>, AllocError>
        ensures { IfOk result (λ answer. answer_view answer
            ≡ given_to self.now (commands.Ask question position path.now)) }
    {
        match question {
            Question::Definitions => self.given_definitions(alloc, position, path),
            Question::References => self.given_references(alloc, position, path),
            Question::Documentation => self.given_documentation(alloc, position, path),
        }
    }

    /// The answer to a command that is always known.
    pub(crate) fn given_to(
        &self,
        alloc: Global,
        command: &Command<'_>,
    ) -> Result<Answer<'_>, AllocError>
        ensures { IfOk result (λ answer. answer_view answer ≡ given_to self.now (command_view command.now)) }
    {
        match command {
            Command::Ask(question, position, path) => {
                self.given_there(alloc, *question, *position, *path)
            }
            Command::Symbols(path) => self.given_symbols(alloc, *path),
        }
    }

    /// What is asked of all symbols with a name.
    fn given_named(
        &self,
        alloc: Global,
        question: Question,
        name: &str,
    ) -> Result<Answer<'_>, AllocError>
        ensures { IfOk result (λ answer. answer_view answer
            ≡ more_given_to self.now (more.Named question name.now)) }
    {
        match question {
            Question::Definitions => Ok(Answer::Sites(self.definitions_named(alloc, name)?)),
            Question::References => Ok(Answer::Sites(self.references_named(alloc, name)?)),
            Question::Documentation => Ok(Answer::Entries(self.entries_named(alloc, name)?)),
        }
    }

    /// The answer to a command. It needs memory only for itself.
    pub fn given(&self, alloc: Global, command: &MoreCommand<'_>) -> Result<Answer<'_>, AllocError>
        ensures { IfOk result (λ answer. answer_view answer ≡ more_given_to self.now (more_view command.now)) }
    {
        match command {
            MoreCommand::Known(command) => self.given_to(alloc, command),
            MoreCommand::Signature(position, path) => self.given_signature(alloc, *position, *path),
            MoreCommand::Outline(path) => self.given_outline(alloc, *path),
            MoreCommand::Find(asked) => self.given_found(alloc, *asked),
            MoreCommand::Help => some_text(alloc, HELP),
            MoreCommand::Entry(position, path) => self.given_entry(alloc, *position, *path),
            MoreCommand::Named(question, name) => self.given_named(alloc, *question, *name),
        }
    }
}
