//! The words of names in options.

ghost use Rattle.std.specs.Prelude.{ℕ, List, [], ◌∷◌, ◌≡◌, ◌↔◌, IsTrue, IfOk, MatchOption, bytes_eq, map};
ghost use denote.Ref.{Bor};
ghost use Rattle.proto_lex.specs.Lexed.{IsPart, part_of};
ghost use Rattle.option_link.specs.Contexts.{HasWords};

use proto_lex::Span;
use proto_options::OptionName;
use std::alloc::{AllocError, Global};

/// A part of a text.
fn part_of(text: &str, span: Span) -> Option<&str>
    ensures { MatchOption result (IsPart text.now span → ⊥) (λ word. IsPart text.now span
        × (word.now ≡ part_of text.now span)) }
{
    let start = span.start as usize;
    let end = span.end as usize;
    if end <= start {
        return None;
    }
    if !text.is_char_boundary(start) {
        return None;
    }
    if !text.is_char_boundary(end) {
        return None;
    }
    Some(&text[start..end])
}

/// The words of a name, if each is a part of the text.
pub(crate) fn words_of<'n>(
    alloc: Global,
    text: &'n str,
    name: &OptionName,
) -> Result<Option<Vec<&'n str>>, AllocError>
    ensures { IfOk result (λ found. MatchOption found ((words : List (List ℕ)) → HasWords text.now name.now words → ⊥)
        (λ words. HasWords text.now name.now (map (λ (word : Bor (List ℕ)). word.now) words.items))) }
{
    let mut words = Vec::new(alloc);
    for span in name.name.components.as_slice() {
        match part_of(text, *span) {
            Some(word) => words.push(word)?,
            None => return Ok(None),
        }
    }
    Ok(Some(words))
}

/// Whether two texts are the same.
pub(crate) fn is_text(one: &str, other: &str) -> bool
    ensures { result ≡ bytes_eq one.now other.now }
{
    one == other
}

/// The word of a name that is one, if it is a part of the text.
pub(crate) fn only_word<'n>(text: &'n str, name: &OptionName) -> Option<&'n str>
    ensures { MatchOption result ((word : List ℕ) → HasWords text.now name.now (word ∷ []) → ⊥)
        (λ word. HasWords text.now name.now (word.now ∷ [])) }
{
    match name.name.components.as_slice() {
        [] => None,
        [only] => part_of(text, *only),
        [_, _, ..] => None,
    }
}

/// Whether a name is one word, and which.
pub(crate) fn is_word(text: &str, name: &OptionName, word: &str) -> bool
    ensures { IsTrue result ↔ HasWords text.now name.now (word.now ∷ []) }
{
    match only_word(text, name) {
        Some(only) => is_text(only, word),
        None => false,
    }
}
