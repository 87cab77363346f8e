//! Fields that options use often, found once: the message that has each by its simple name, and what names are looked
//! up in that belong to it.

ghost use Rattle.std.specs.Prelude.{◌≡◌, ◌++◌, ◌∷◌, [], Some, Contains, IfOk, IfSome, OnOk};
ghost use Rattle.std.specs.List.{slice_get};
ghost use Rattle.option_link.specs.declared.known_fields.KnownField.{KnownField};

use crate::contexts::Context;
use crate::place::{DeclaredPlace, is_same};
use proto_decl::FullName;
use std::alloc::{AllocError, Global};

/// How many slots there are for a field.
const SLOTS_A_FIELD: usize = 8;

/// A field, the message that has it by its simple name, if that is known, and what names are looked up in that belong
/// to it.
#[derive(Clone, Copy, Debug)]
pub(crate) struct KnownField {
    pub(crate) field: DeclaredPlace,
    pub(crate) message: Option<DeclaredPlace>,
    pub(crate) gives: Option<Context>,
}

/// Such fields. The number of each is in the slot that it has by its place, and in the one that it has by its message
/// and its simple name. One that is added later takes the slot of an earlier one, which isn't found any longer: so a
/// look takes as long as ever.
#[derive(Drop)]
pub(crate) struct KnownFields {
    pub(crate) fields: Vec<KnownField>,
    by_place: Vec<Option<usize>>,
    by_word: Vec<Option<usize>>,
}

/// Which of so many slots a number has.
fn slot_of(count: usize, number: usize) -> usize {
    if count == 0 {
        return 0;
    }
    number % count
}

/// The number of a place: those of a file's declarations follow one another.
fn place_number(place: DeclaredPlace) -> usize {
    place.file.wrapping_mul(31).wrapping_add(place.index)
}

/// The number of a message and a word.
fn word_number(message: DeclaredPlace, word: &str) -> usize {
    let number = FullName::whole(word).hash64() as usize;
    place_number(message).wrapping_mul(46).wrapping_add(number)
}

/// What a slot has, if it has something.
fn slot_at(slots: &[Option<usize>], slot: usize) -> Option<usize> {
    match slots.get(slot) {
        Some(found) => *found,
        None => None,
    }
}

/// Puts a number into a slot, if there is one.
fn fill(slots: &mut Vec<Option<usize>>, slot: usize, number: usize) {
    if slot < slots.len() {
        slots[slot] = Some(number);
    }
}

/// So many slots with nothing in them.
fn empty_slots(alloc: Global, count: usize) -> Result<Vec<Option<usize>>, AllocError> {
    let mut slots = Vec::with_capacity(alloc, count)?;
    for _ in 0..count {
        slots.push(None)?;
    }
    Ok(slots)
}

/// The field with a number.
fn field_with(fields: &[KnownField], number: usize) -> Option<KnownField>
    ensures { IfSome result (Contains fields.now) }
{
    fields.get(number).copied()
}

/// One of these fields, if it is the one at a place.
fn if_at(one: KnownField, place: DeclaredPlace) -> Option<KnownField>
    ensures { IfSome result (λ found. (found ≡ one) × (found.field ≡ place)) }
{
    if !is_same(one.field, place) {
        return None;
    }
    Some(one)
}

/// One of these fields, if it is one of a message.
fn if_of(one: KnownField, message: DeclaredPlace) -> Option<KnownField>
    ensures { IfSome result (λ found. (found ≡ one) × (found.message ≡ Some message)) }
{
    match one.message {
        Some(other) => {
            if !is_same(other, message) {
                return None;
            }
            Some(one)
        }
        None => None,
    }
}

impl KnownFields {
    /// No fields. Takes no memory.
    pub(crate) fn none(alloc: Global) -> KnownFields
        ensures { result.fields.items ≡ [] }
    {
        KnownFields {
            fields: Vec::new(alloc),
            by_place: Vec::new(alloc),
            by_word: Vec::new(alloc),
        }
    }

    /// None so far, with slots for so many.
    pub(crate) fn with_room(alloc: Global, count: usize) -> Result<KnownFields, AllocError>
        ensures { IfOk result (λ known. known.fields.items ≡ []) }
    {
        let slots = count.saturating_mul(SLOTS_A_FIELD);
        Ok(KnownFields {
            fields: Vec::with_capacity(alloc, count)?,
            by_place: empty_slots(alloc, slots)?,
            by_word: empty_slots(alloc, slots)?,
        })
    }

    /// Adds a field with this simple name.
    pub(crate) fn add(&mut self, one: KnownField, word: &str) -> Result<(), AllocError>
        ensures { OnOk result (self.new.fields.items ≡ self.old.fields.items ++ one ∷ []) }
    {
        let number = self.fields.len();
        self.fields.push(one)?;
        let slot = slot_of(self.by_place.len(), place_number(one.field));
        fill(&mut self.by_place, slot, number);
        if let Some(message) = one.message {
            let slot = slot_of(self.by_word.len(), word_number(message, word));
            fill(&mut self.by_word, slot, number);
        }
        Ok(())
    }

    /// The one at a place, if it is found.
    pub(crate) fn field_at(&self, place: DeclaredPlace) -> Option<KnownField>
        ensures { IfSome result (λ one. Contains self.now.fields.items one × (one.field ≡ place)) }
    {
        let slot = slot_of(self.by_place.len(), place_number(place));
        let number = slot_at(self.by_place.as_slice(), slot)?;
        let one = field_with(self.fields.as_slice(), number)?;
        if_at(one, place)
    }

    /// One of a message that may have this simple name, if one is found.
    pub(crate) fn field_of(&self, message: DeclaredPlace, word: &str) -> Option<KnownField>
        ensures { IfSome result (λ one. Contains self.now.fields.items one × (one.message ≡ Some message)) }
    {
        let slot = slot_of(self.by_word.len(), word_number(message, word));
        let number = slot_at(self.by_word.as_slice(), slot)?;
        let one = field_with(self.fields.as_slice(), number)?;
        if_of(one, message)
    }
}
