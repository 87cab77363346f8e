//! What could stand at a place of a source.

ghost use Rattle.std.specs.Prelude.{◌≡◌, Bool, IfOk, OnOk, map};
ghost use Rattle.std.specs.String.{string_bytes};
ghost use Rattle.diagnostics.specs.Appended.{Adds, with_it};
ghost use Rattle.diagnostics.specs.Hints.{
  AreHints,
  CouldStand,
  IsHinted,
  lets_stand,
  OfKind,
  Standing,
  with_candidate,
};

use crate::answers::answer;
use crate::candidates::{literal, name, number, signs, versions, whole_numbers, words};
use crate::wording::push_hints;
use proto_parse::Dialect;
use std::alloc::{AllocError, Global};

/// The most bytes before a place for which candidates are tried: each is lexed and parsed with all of them.
pub const MAX_FRONT: usize = 65_536;

/// A place of a source: what is before it, and how the source is parsed.
#[derive(Clone, Copy)]
struct Place<'a> {
    alloc: Global,
    dialect: Dialect,
    front: &'a [u8],
}

/// The front with a candidate on a line of its own behind it.
fn with_candidate(alloc: Global, front: &[u8], spelling: &str) -> Result<Vec<u8>, AllocError>
    ensures { IfOk result (λ text. text.items ≡ with_candidate front.now spelling.now) }
{
    let mut text = Vec::new(alloc);
    text.extend_from_slice(front)?;
    text.push(b'\n')?;
    text.extend_from_slice(spelling.as_bytes())?;
    Ok(text)
}

/// Whether an answer about a text of this length lets its last token stand.
fn lets_stand(text: &[u8], answer: Option<usize>) -> bool
    ensures { result ≡ lets_stand text.now answer }
{
    match answer {
        Some(at) => at == text.len(),
        None => true,
    }
}

/// Whether the candidate could stand at the place.
fn could_stand(place: &Place<'_>, spelling: &str) -> Result<bool, AllocError>
    ensures { IfOk result (CouldStand place.now.dialect place.now.front.now spelling.now) }
{
    let text = with_candidate(place.alloc, place.front, spelling)?;
    let found = answer(place.alloc, text.as_slice(), place.dialect)?;
    Ok(lets_stand(text.as_slice(), found))
}

/// Appends those of the candidates that could stand, in their order.
fn add(
    place: &Place<'_>,
    candidates: &[&'static str],
    found: &mut Vec<&'static str>,
) -> Result<(), AllocError>
    ensures { OnOk result (Adds (Standing (CouldStand place.now.dialect place.now.front.now)
        (map (λ s. s.now) candidates.now)) (map (λ s. s.now) found.old.items) (map (λ s. s.now) found.new.items)) }
{
    let mut rest = candidates;
    while let [candidate, others @ ..] = rest {
        add_one(place, *candidate, found)?;
        rest = others;
    }
    Ok(())
}

/// Appends the candidate, if it could stand.
fn add_one(
    place: &Place<'_>,
    candidate: &'static str,
    found: &mut Vec<&'static str>,
) -> Result<(), AllocError>
    ensures { OnOk result ((could : Bool) × CouldStand place.now.dialect place.now.front.now candidate.now could
        × (map (λ s. s.now) found.new.items ≡ with_it could candidate.now (map (λ s. s.now) found.old.items))) }
{
    if could_stand(place, candidate)? {
        found.push(candidate)?;
    }
    Ok(())
}

/// Appends the general candidate, if it could stand; else those of the special ones that could.
fn add_of_kind(
    place: &Place<'_>,
    general: &'static str,
    special: &[&'static str],
    found: &mut Vec<&'static str>,
) -> Result<(), AllocError>
    ensures { OnOk result (Adds (OfKind (CouldStand place.now.dialect place.now.front.now) general.now
        (map (λ s. s.now) special.now)) (map (λ s. s.now) found.old.items) (map (λ s. s.now) found.new.items)) }
{
    if could_stand(place, general)? {
        found.push(general)?;
        return Ok(());
    }
    add(place, special, found)
}

/// What could stand at the place.
fn hints(place: &Place<'_>) -> Result<Vec<&'static str>, AllocError>
    ensures { IfOk result (λ found. AreHints (CouldStand place.now.dialect place.now.front.now)
        (map (λ s. s.now) found.items)) }
{
    let mut found: Vec<&'static str> = Vec::new(place.alloc);
    add(place, signs(), &mut found)?;
    add_of_kind(place, number(), whole_numbers(), &mut found)?;
    add_of_kind(place, literal(), versions(), &mut found)?;
    add_of_kind(place, name(), words(), &mut found)?;
    Ok(found)
}

/// What a sentence about a place of a source goes on with, by what is before the place: the words and signs that could
/// stand there. It is empty if none could, or if the front has more than `MAX_FRONT` bytes.
///
/// A candidate could stand if lexing and parsing the front with it has no fault before the end.
pub fn hint_text(alloc: Global, dialect: Dialect, front: &[u8]) -> Result<String, AllocError>
    ensures { IfOk result (λ text. IsHinted dialect front.now (string_bytes text)) }
{
    let mut text = String::new(alloc);
    if front.len() > MAX_FRONT {
        return Ok(text);
    }
    let place = Place {
        alloc,
        dialect,
        front,
    };
    let found = hints(&place)?;
    push_hints(&mut text, found.as_slice())?;
    Ok(text)
}
