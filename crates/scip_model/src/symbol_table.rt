//! The texts of a document's symbols, each once, by number, and their order.

ghost use Rattle.std.specs.Prelude.{◌≡◌, ◌<◌, ◌^◌, Some, IfOk, OnOk, length, map, ℕ, ◌≢◌, List, ◌++◌, ◌↔◌, IsTrue};
ghost use Rattle.std.specs.List.{slice_get};
ghost use Rattle.std.specs.Ordering.{nat_cmp};
ghost use Rattle.std.specs.Cmp.Lexicographic.{slice_cmp};
ghost use Rattle.std.specs.String.{string_bytes};
ghost use Rattle.scip_model.specs.Tables.Plans.{text_at, Grown, IsNumberOf, declaration_number};

use crate::own_symbols::OwnSymbols;
use basics::OwnedText;
use indexmap::IndexSet;
use proto_decl::FileFacts;
use scip_records::SymbolRef;
use std::alloc::{AllocError, Global};
use std::cmp::Ordering;
use std::marker::Model;

/// The texts of a document's symbols, each with its number: those of what the source has itself, in order, then those
/// of what it names elsewhere, each once.
///
/// Contracts see the list of the texts.
#[derive(Debug, Drop)]
pub(crate) struct SymbolTable {
    own: OwnSymbols,
    others: IndexSet<String>,
}

impl Model for SymbolTable {
    ghost use Rattle.std.specs.Prelude.{List, ℕ, ◌++◌, map};
    ghost use Rattle.std.specs.String.{string_bytes};

    ghost Value = { List (List ℕ) };

    ghost view = { λ table. table.own ++ map string_bytes table.others.keys };
}

/// The greatest number.
const MAX_NUMBER: usize = 4294967295;

/// The number at an index. `AllocError` stands for an index that is greater than each number: a text of at most 64 MiB
/// has no more symbols than there are numbers.
pub(crate) fn number_at(index: usize) -> Result<u32, AllocError>
    ensures number { IfOk result (λ number. number ≡ index) }
    ensures within { IfOk result (λ _. index < 2 ^ 32) }
{
    if index > MAX_NUMBER {
        return Err(AllocError);
    }
    Ok(index as u32)
}

/// The number of a declaration's text.
pub(crate) fn declaration_number(facts: &FileFacts, index: usize) -> Result<u32, AllocError>
    ensures { IfOk result (λ number. number ≡ declaration_number facts.now index) }
{
    let first = 1 + facts.package_name().len();
    let number = number_at(first.saturating_add(index))?;
    Ok(number)
}

/// The place of a text, which is added if it isn't there.
fn place_of(others: &mut IndexSet<String>, text: String) -> Result<usize, AllocError>
    ensures grown { OnOk result (Grown (map string_bytes others.old.keys) (map string_bytes others.new.keys)) }
    ensures stored { IfOk result (λ index.
        slice_get (map string_bytes others.new.keys) index ≡ Some (string_bytes text)) }
{
    let (index, _) = others.insert_full(text)?;
    Ok(index)
}

impl SymbolTable {
    /// Of these texts. Takes no memory.
    pub(crate) fn new(alloc: Global, own: OwnSymbols) -> SymbolTable
        ensures { result ≡ own }
    {
        SymbolTable {
            own,
            others: IndexSet::new(alloc),
        }
    }

    /// The number of a text. It is `own` if the source's own text with that number is the same. Or else it is that of
    /// one of the other texts, to which it is added if it isn't there.
    pub(crate) fn number_of(&mut self, own: usize, text: OwnedText) -> Result<u32, AllocError>
        ensures grown { OnOk result (Grown self.old self.new) }
        ensures number { IfOk result (IsNumberOf self.new text) }
    {
        if self.own.has(own, text.as_str()) {
            let number = number_at(own)?;
            return Ok(number);
        }
        let index = place_of(&mut self.others, text.into_string())?;
        let number = number_at(self.own.len().saturating_add(index))?;
        Ok(number)
    }

    /// The text with a number. Where none has it, the empty one.
    pub(crate) fn at(&self, number: u32) -> SymbolRef<'_>
        ensures { result ≡ text_at self.now number }
    {
        let index = number as usize;
        match self.own.get(index) {
            Some(symbol) => symbol,
            None => other_symbol(&self.others, index.saturating_sub(self.own.len())),
        }
    }

    /// How the texts with two numbers compare. Of two own texts that begin alike, only what is behind that is compared.
    pub(crate) fn compare(&self, a: u32, b: u32) -> Ordering
        ensures { result ≡ slice_cmp nat_cmp (text_at self.now a) (text_at self.now b) }
    {
        match self.own.compare_rests(a as usize, b as usize) {
            Some(order) => order,
            None => compare_symbols(&self.at(a), &self.at(b)),
        }
    }
}

/// One of the texts of what is named elsewhere, by its place there. Where none has it, the empty one.
fn other_symbol(others: &IndexSet<String>, index: usize) -> SymbolRef<'_>
    ensures { result ≡ text_at (map string_bytes others.now.keys) index }
{
    match others.get_index(index) {
        Some(text) => SymbolRef::whole(text.as_str()),
        None => SymbolRef::whole(""),
    }
}

/// A text in two parts, compared with one in one part.
fn compare_with_whole(front: &str, rest: &str, whole: &str) -> Ordering
    ensures { result ≡ slice_cmp nat_cmp (front.now ++ rest.now) whole.now }
{
    match whole.strip_prefix(front) {
        Some(behind) => rest.cmp(behind),
        None => front.cmp(whole),
    }
}

/// A text in two parts, compared with another in two parts. The first part of the other doesn't begin with that of
/// this one.
fn compare_with_other(front: &str, rest: &str, other_front: &str, other_rest: &str) -> Ordering
    requires { (after : List ℕ) → other_front.now ≢ front.now ++ after }
    ensures { result ≡ slice_cmp nat_cmp (front.now ++ rest.now) (other_front.now ++ other_rest.now) }
{
    match front.strip_prefix(other_front) {
        Some(behind) => compare_with_whole(behind, rest, other_rest),
        None => front.cmp(other_front),
    }
}

/// Two texts, each in two parts.
fn compare_parts(front: &str, rest: &str, other_front: &str, other_rest: &str) -> Ordering
    ensures { result ≡ slice_cmp nat_cmp (front.now ++ rest.now) (other_front.now ++ other_rest.now) }
{
    match other_front.strip_prefix(front) {
        Some(behind) => compare_with_whole(behind, other_rest, rest).reverse(),
        None => compare_with_other(front, rest, other_front, other_rest),
    }
}

/// Symbols by their texts.
pub(crate) fn compare_symbols(a: &SymbolRef<'_>, b: &SymbolRef<'_>) -> Ordering
    ensures { result ≡ slice_cmp nat_cmp a.now b.now }
{
    compare_parts(a.front, a.rest, b.front, b.rest)
}

/// Whether a text is this one, in two parts.
pub(crate) fn is_joined(front: &str, rest: &str, text: &str) -> bool
    ensures { IsTrue result ↔ (front.now ++ rest.now ≡ text.now) }
{
    match text.strip_prefix(front) {
        Some(behind) => behind == rest,
        None => false,
    }
}
