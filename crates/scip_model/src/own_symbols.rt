//! The texts of what a source has itself, of which many are kept in one string.

ghost use Rattle.std.specs.Prelude.{ℕ, ◌≡◌, ◌++◌, ◌↔◌, List, None, Some, IfSome, IsTrue, MatchOption, length, ◌≤◌, ◌<◌};
ghost use Rattle.std.specs.Prelude.{◌^◌, ◌∷◌, [], IfOk, OnOk};
ghost use Rattle.std.specs.List.{slice_get};
ghost use Rattle.std.specs.Ordering.{nat_cmp};
ghost use Rattle.std.specs.Cmp.Lexicographic.{slice_cmp};
ghost use Rattle.scip_model.specs.Tables.OwnTexts.{behind, start_of};
ghost use Rattle.scip_model.specs.Tables.Plans.{text_at};

use crate::symbol_table::is_joined;
use basics::OwnedText;
use scip_records::SymbolRef;
use std::alloc::{AllocError, Global};
use std::cmp::Ordering;
use std::marker::Model;

/// The texts of the symbols of what a source has itself: first some that are kept whole, then those of its
/// declarations, which begin alike. What they begin with is kept once.
///
/// Contracts see the list of the texts.
#[derive(Debug, Drop)]
pub(crate) struct OwnSymbols {
    first: Vec<OwnedText>,
    front: OwnedText,
    rests: JoinedTexts,
}

impl Model for OwnSymbols {
    ghost use Rattle.std.specs.Prelude.{List, ℕ, ◌++◌};
    ghost use Rattle.scip_model.specs.Tables.OwnTexts.{behind};

    ghost Value = { List (List ℕ) };

    ghost view = { λ texts. texts.first.items ++ behind texts.front texts.rests };
}

/// Whether the text with a number is this one.
fn has_at(texts: &[OwnedText], number: usize, text: &str) -> bool
    ensures { IsTrue result ↔ (slice_get texts.now number ≡ Some text.now) }
{
    match texts.get(number) {
        Some(its) => its.as_str() == text,
        None => false,
    }
}

/// What the text with a number has behind the front, if it isn't one of the first.
fn rest_at<'a>(first: &[OwnedText], rests: &'a JoinedTexts, number: usize) -> Option<&'a str>
    ensures { MatchOption result
        ((front : List ℕ) → slice_get (first.now ++ behind front rests.now) number ≡ slice_get first.now number)
        (λ rest. (front : List ℕ) → slice_get (first.now ++ behind front rests.now) number ≡ Some (front ++ rest.now)) }
{
    if number < first.len() {
        return None;
    }
    rests.get(number - first.len())
}

impl OwnSymbols {
    /// These first, and behind them each rest behind the front.
    pub(crate) fn new(first: Vec<OwnedText>, front: OwnedText, rests: JoinedTexts) -> OwnSymbols
        ensures { result ≡ first.items ++ behind front rests }
    {
        OwnSymbols {
            first,
            front,
            rests,
        }
    }

    /// How many there are.
    pub(crate) fn len(&self) -> usize
        ensures { result ≡ length self.now }
    {
        self.first.len() + self.rests.len()
    }

    /// Whether the text with a number is this one.
    pub(crate) fn has(&self, number: usize, text: &str) -> bool
        ensures { IsTrue result ↔ (slice_get self.now number ≡ Some text.now) }
    {
        match rest_at(self.first.as_slice(), &self.rests, number) {
            Some(rest) => is_joined(self.front.as_str(), rest, text),
            None => has_at(self.first.as_slice(), number, text),
        }
    }

    /// The text with a number.
    pub(crate) fn get(&self, number: usize) -> Option<SymbolRef<'_>>
        ensures { MatchOption result (slice_get self.now number ≡ None)
            (λ text. slice_get self.now number ≡ Some text) }
    {
        match rest_at(self.first.as_slice(), &self.rests, number) {
            Some(rest) => Some(SymbolRef {
                front: self.front.as_str(),
                rest,
            }),
            None => first_at(self.first.as_slice(), number),
        }
    }

    /// The order of two texts, if both have the front: that of what is behind it.
    pub(crate) fn compare_rests(&self, a: usize, b: usize) -> Option<Ordering>
        ensures { IfSome result (λ order. (more : List (List ℕ))
            → order ≡ slice_cmp nat_cmp (text_at (self.now ++ more) a) (text_at (self.now ++ more) b)) }
    {
        let rest_a = rest_at(self.first.as_slice(), &self.rests, a)?;
        let rest_b = rest_at(self.first.as_slice(), &self.rests, b)?;
        Some(rest_a.cmp(rest_b))
    }
}

/// One of the texts that are kept whole.
fn first_at(texts: &[OwnedText], number: usize) -> Option<SymbolRef<'_>>
    ensures { MatchOption result (slice_get texts.now number ≡ None) (λ text. slice_get texts.now number ≡ Some text) }
{
    match texts.get(number) {
        Some(text) => Some(SymbolRef::whole(text.as_str())),
        None => None,
    }
}

/// Texts that are kept in one string, one behind the other.
///
/// Contracts see the list of the texts.
#[derive(Debug, Drop)]
pub(crate) struct JoinedTexts {
    joined: String,
    ends: Vec<usize>,
}

impl Model for JoinedTexts {
    ghost use Rattle.std.specs.Prelude.{List, ℕ};
    ghost use Rattle.std.specs.String.{string_bytes};
    ghost use Rattle.scip_model.specs.Tables.OwnTexts.{parts_from, AreEnds};

    ghost Value = { List (List ℕ) };

    ghost view = { λ t. parts_from (string_bytes t.joined) 0 t.ends.items };

    ghost invariant = { λ t. AreEnds (string_bytes t.joined) 0 t.ends.items };
}

/// Where the text with an index begins, by where each ends.
fn start_of(ends: &[usize], index: usize) -> usize
    requires { index ≤ length ends.now }
    ensures { result ≡ start_of 0 ends.now index }
{
    if index == 0 { 0 } else { ends[index - 1] }
}

impl JoinedTexts {
    /// No texts, with room for so many ends.
    pub(crate) fn with_capacity(alloc: Global, count: usize) -> Result<JoinedTexts, AllocError>
        ensures { IfOk result (λ texts. texts ≡ []) }
    {
        Ok(JoinedTexts {
            joined: String::new(alloc),
            ends: Vec::with_capacity(alloc, count)?,
        })
    }

    /// How many there are.
    pub(crate) fn len(&self) -> usize
        ensures count { result ≡ length self.now }
        ensures few { result < 2 ^ 63 }
    {
        self.ends.len()
    }

    /// Adds a text.
    pub(crate) fn push(&mut self, text: &str) -> Result<(), AllocError>
        ensures { OnOk result (self.new ≡ self.old ++ text.now ∷ []) }
    {
        self.ends.reserve(1)?;
        self.joined.push_str(text)?;
        self.ends.push(self.joined.len())?;
        Ok(())
    }

    /// The text with an index.
    pub(crate) fn get(&self, index: usize) -> Option<&str>
        ensures { MatchOption result (slice_get self.now index ≡ None)
            (λ text. slice_get self.now index ≡ Some text.now) }
    {
        if index >= self.ends.len() {
            return None;
        }
        let start = start_of(self.ends.as_slice(), index);
        let end = self.ends[index];
        Some(&self.joined.as_str()[start..end])
    }
}
