//! What messages say, beside their fields, of the names in values of them.

ghost use Rattle.std.specs.Prelude.{◌≡◌, ◌↔◌, Contains, IfOk, IsTrue, MatchOption, OnOk, None, Some, length};
ghost use Rattle.std.specs.List.{slice_get};
ghost use Rattle.proto_decl.specs.Names.{hash64_byte, hash64_on};
ghost use Rattle.proto_options.specs.declared.messages.MessageClause.TheVariants as clauses;
ghost use Rattle.proto_options.specs.declared.messages.MessageFact.{MessageFact};
ghost use Rattle.option_link.specs.Contexts.{IsReserved};
ghost use Rattle.option_link.specs.Said.{IsSaid, IsSaidAt, ListsSaid, Says, asked_for, fact_hash, said_hash};
ghost use Rattle.option_link.specs.Said.{saying, word_of};
ghost use Rattle.option_link.specs.Tables.{AddsUpTo};
ghost use Rattle.option_link.specs.declared.table.Listed.{Listed};

use crate::facts::FilesBeside;
use crate::naming::{Asked, is_as};
use crate::place::DeclaredPlace;
use crate::searches::is_at;
use crate::table::{Listed, near};
use crate::words::only_word;
use proto_lex::Span;
use proto_options::{MessageClause, MessageFact, OptionName, OptionRole};
use std::alloc::{AllocError, Global};
use std::marker::Model;

/// What a number is multiplied by before another is mixed in: as full names are hashed.
const MULTIPLIER: u64 = 1_099_511_628_211;

/// A number with another mixed in.
fn mixed(hash64: u64, more: u64) -> u64
    ensures { result ≡ hash64_byte hash64 more }
{
    hash64.wrapping_mul(MULTIPLIER).wrapping_add(more)
}

/// A number with bytes mixed in.
fn mixed_on(hash64: u64, bytes: &[u8]) -> u64
    ensures { result ≡ hash64_on hash64 bytes.now }
{
    let mut more = hash64;
    for byte in bytes {
        more = mixed(more, *byte as u64);
    }
    more
}

/// The number of what is said with a word of the message whose name starts at an offset in a file.
fn said_hash(file: usize, start: u32, word: &[u8]) -> u64
    ensures { result ≡ said_hash file start word.now }
{
    mixed_on(mixed(file as u64, start as u64), word)
}

/// The word with which something is said.
fn word_of(clause: &MessageClause) -> &[u8]
    ensures { result.now ≡ word_of clause.now }
{
    match clause {
        MessageClause::Reserves(word) => word.as_slice(),
        MessageClause::IsMessageSet => &[],
    }
}

/// The word that is asked for.
fn asked_word(word: Option<&str>) -> &[u8]
    ensures { result.now ≡ word_of (asked_for word.entry) }
{
    match word {
        Some(reserved) => reserved.as_bytes(),
        None => &[],
    }
}

/// Adds what is said in a file, in order.
fn list_file(listed: &mut Vec<Listed>, file: usize, facts: &[MessageFact]) -> Result<(), AllocError>
    ensures { OnOk result (AddsUpTo (fact_hash file) file facts.now (length facts.now) listed.old.items
        listed.new.items) }
{
    for index in 0..facts.len() {
        let fact = &facts[index];
        listed.push(Listed {
            hash64: said_hash(file, fact.name.start, word_of(&fact.clause)),
            place: DeclaredPlace { file, index },
        })?;
    }
    Ok(())
}

/// All that is said, by the numbers of it.
fn list_all(alloc: Global, known: &FilesBeside<'_>) -> Result<Vec<Listed>, AllocError>
    ensures { IfOk result (λ listed. ListsSaid known.now listed.items) }
{
    let mut listed = Vec::new(alloc);
    for file in 0..known.count() {
        list_file(&mut listed, file, known.messages_of(file))?;
    }
    listed.sort_unstable_by_key(|one| one.hash64);
    Ok(listed)
}

/// Whether these bytes are those of a word.
fn is_spelled(bytes: &[u8], word: &str) -> bool
    ensures { IsTrue result ↔ (bytes.now ≡ word.now) }
{
    bytes == word.as_bytes()
}

/// Whether that a word is reserved with these bytes is what is asked for.
fn is_wanted(bytes: &[u8], word: Option<&str>) -> bool
    ensures { IsTrue result ↔ (clauses.Reserves bytes.now ≡ asked_for word.entry) }
{
    match word {
        Some(wanted) => is_spelled(bytes, wanted),
        None => false,
    }
}

/// Whether that a message is a message set is what is asked for.
fn asks_for_set(word: Option<&str>) -> bool
    ensures { IsTrue result ↔ (clauses.IsMessageSet ≡ asked_for word.entry) }
{
    match word {
        Some(_wanted) => false,
        None => true,
    }
}

/// Whether a clause is what is asked for.
fn is_asked_for(clause: &MessageClause, word: Option<&str>) -> bool
    ensures { IsTrue result ↔ (clause.now ≡ asked_for word.entry) }
{
    match clause {
        MessageClause::Reserves(reserved) => is_wanted(reserved.as_slice(), word),
        MessageClause::IsMessageSet => asks_for_set(word),
    }
}

/// Whether this says what is asked for of the message whose declared name is at a place.
fn is_saying(fact: &MessageFact, name: Span, word: Option<&str>) -> bool
    ensures { IsTrue result ↔ (fact.now ≡ saying name (asked_for word.entry)) }
{
    if !is_at(fact.name, name) {
        return false;
    }
    is_asked_for(&fact.clause, word)
}

/// What is said as the one with a number.
fn said_with(facts: &[MessageFact], index: usize) -> Option<&MessageFact>
    ensures { MatchOption result (slice_get facts.now index ≡ None)
        (λ fact. slice_get facts.now index ≡ Some fact.now) }
{
    facts.get(index)
}

/// What messages of files say, listed by numbers of it, so that a look takes as long however much is said in a file.
///
/// Contracts see what is known of each file.
#[derive(Drop)]
pub(crate) struct SaidOfMessages<'n> {
    known: &'n FilesBeside<'n>,
    listed: Vec<Listed>,
}

impl<'n> Model for SaidOfMessages<'n> {
    ghost use Rattle.std.specs.Prelude.{List};
    ghost use Rattle.option_link.specs.Said.{ListsSaid};
    ghost use Rattle.option_link.specs.declared.facts.OptionFacts.{OptionFacts};

    ghost Value = { List OptionFacts };

    ghost view = { λ said. said.known.now };

    ghost invariant = { λ said. ListsSaid said.known.now said.listed.items };
}

impl<'n> SaidOfMessages<'n> {
    /// What is said in these files.
    pub(crate) fn find(
        alloc: Global,
        known: &'n FilesBeside<'n>,
    ) -> Result<SaidOfMessages<'n>, AllocError>
        ensures { IfOk result (λ said. said ≡ known.now) }
    {
        let listed = list_all(alloc, known)?;
        Ok(SaidOfMessages { known, listed })
    }

    /// Whether it is said of the message whose declared name is at a place in a file that it reserves a word; without
    /// one, that it is a message set.
    fn is_said(&self, file: usize, name: Span, word: Option<&str>) -> bool
        ensures { IsTrue result ↔ IsSaid self.now file (saying name (asked_for word.entry)) }
    {
        let hash = said_hash(file, name.start, asked_word(word));
        self.is_among(near(self.listed.as_slice(), hash), file, name, word)
    }

    /// Whether that is said at one of these places, in this file.
    fn is_among(&self, listed: &[Listed], file: usize, name: Span, word: Option<&str>) -> bool
        ensures { IsTrue result ↔ ((one : Listed) × Contains listed.now one × (one.place.file ≡ file)
            × IsSaidAt self.now one.place (saying name (asked_for word.entry))) }
    {
        for one in listed {
            if self.is_said_at(one.place, file, name, word) {
                return true;
            }
        }
        false
    }

    /// Whether that is what is said at a place, in this file.
    fn is_said_at(&self, place: DeclaredPlace, file: usize, name: Span, word: Option<&str>) -> bool
        ensures { IsTrue result ↔ ((place.file ≡ file) × IsSaidAt self.now place (saying name (asked_for word.entry))) }
    {
        if place.file != file {
            return false;
        }
        match said_with(self.known.messages_of(place.file), place.index) {
            Some(fact) => is_saying(fact, name, word),
            None => false,
        }
    }
}

impl<'k, 'n, 'a, 't> Asked<'k, 'n, 'a, 't> {
    /// Whether a message reserves a word; without one, whether it is a message set.
    pub(crate) fn says(self, message: DeclaredPlace, word: Option<&str>) -> bool
        ensures { IsTrue result ↔ Says self.entry.files.names.now self.entry.files.known.now message
            (asked_for word.entry) }
    {
        match self.files.names.declaration_at(message) {
            Some(declared) => self.said.is_said(message.file, declared.name(), word),
            None => false,
        }
    }

    /// Whether a name is in braces, and the message reserves it.
    pub(crate) fn is_reserved(
        self,
        number: usize,
        name: &OptionName,
        message: DeclaredPlace,
    ) -> bool
        ensures { IsTrue result ↔ IsReserved self.entry.files.names.now self.entry.files.known.now
            self.entry.text.now self.entry.option.now number name.now message }
    {
        if !is_as(name, OptionRole::Field) {
            return false;
        }
        if !self.is_in_braces(number) {
            return false;
        }
        match only_word(self.text, name) {
            Some(word) => self.says(message, Some(word)),
            None => false,
        }
    }
}
