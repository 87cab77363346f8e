//! The numbers of the texts of what the names in a document's options named already.

ghost use Rattle.std.specs.Prelude.{◌≡◌, ◌⊎◌, None, Some, IfOk, IfSome, IsTrue, All, Contains};
ghost use Rattle.std.specs.List.{slice_get};
ghost use Rattle.scip_model.specs.Tables.KnownParts.{known_part};
ghost use Rattle.scip_model.specs.declared.known_parts.KnownPart.{KnownPart};

use option_link::DeclaredPlace;
use proto_link::Entity;
use std::alloc::{AllocError, Global};

/// How many slots there are for an option.
const SLOTS_AN_OPTION: usize = 8;

/// The most slots that there are.
const MAX_SLOTS: usize = 4096;

/// A part of the full name of what is declared at a place, and the number of its symbol's text.
#[derive(Clone, Copy, Debug)]
pub(crate) struct KnownPart {
    pub(crate) place: DeclaredPlace,
    pub(crate) part: Entity,
    pub(crate) number: u32,
}

/// Parts whose numbers are known, each in the slot that it has by its place and itself. One that is kept later takes
/// the slot of an earlier one, which isn't found any longer: so a look takes as long as ever.
#[derive(Drop)]
pub(crate) struct KnownParts {
    pub(crate) slots: Vec<Option<KnownPart>>,
}

/// Which of so many slots a part has.
fn slot_of(count: usize, place: DeclaredPlace, part: Entity) -> usize {
    if count == 0 {
        return 0;
    }
    let number = match part {
        Entity::Package(components) => components,
        Entity::Declared(_, index) => index,
    };
    // A declaration's own part is 47 slots behind that of the one before it, an odd number: few parts share a slot.
    let at = place.file.wrapping_mul(31).wrapping_add(place.index);
    at.wrapping_mul(46).wrapping_add(number) % count
}

/// What a slot has, if there is one with this number.
fn slot_at(slots: &[Option<KnownPart>], slot: usize) -> Option<Option<KnownPart>>
    ensures { result ≡ slice_get slots.now slot }
{
    slots.get(slot).copied()
}

/// Whether what is known is of this part.
fn is_of(known: KnownPart, place: DeclaredPlace, part: Entity) -> bool
    ensures { IsTrue result → (known.place ≡ place) × (known.part ≡ part) }
{
    known.place == place && known.part == part
}

/// The number that a slot has of this part, if it has one.
fn number_in(slot: Option<KnownPart>, place: DeclaredPlace, part: Entity) -> Option<u32>
    ensures { IfSome result (λ number. slot ≡ Some (known_part place part number)) }
{
    match slot {
        Some(known) => {
            if is_of(known, place, part) {
                Some(known.number)
            } else {
                None
            }
        }
        None => None,
    }
}

impl KnownParts {
    /// Slots for the names in so many options, with nothing in them.
    pub(crate) fn new(alloc: Global, options: usize) -> Result<KnownParts, AllocError>
        ensures { IfOk result (λ parts. (known : KnownPart) → Contains parts.slots.items (Some known) → ⊥) }
    {
        let count = options.saturating_mul(SLOTS_AN_OPTION).min(MAX_SLOTS);
        let slots = empty_slots(alloc, count)?;
        Ok(KnownParts { slots })
    }

    /// The number of the text of a part of the full name of what is declared at a place, if it is known.
    pub(crate) fn number_of(&self, place: DeclaredPlace, part: Entity) -> Option<u32>
        ensures { IfSome result (λ number. Contains self.now.slots.items (Some (known_part place part number))) }
    {
        let slot = slot_of(self.slots.len(), place, part);
        match slot_at(self.slots.as_slice(), slot) {
            Some(found) => number_in(found, place, part),
            None => None,
        }
    }

    /// Keeps the number of the text of a part of the full name of what is declared at a place.
    pub(crate) fn keep(&mut self, place: DeclaredPlace, part: Entity, number: u32)
        ensures { (known : KnownPart) → Contains self.new.slots.items (Some known)
            → Contains self.old.slots.items (Some known) ⊎ (known ≡ known_part place part number) }
    {
        let slot = slot_of(self.slots.len(), place, part);
        if slot < self.slots.len() {
            self.slots[slot] = Some(KnownPart {
                place,
                part,
                number,
            });
        }
    }
}

/// So many slots with nothing in them.
fn empty_slots(alloc: Global, count: usize) -> Result<Vec<Option<KnownPart>>, AllocError>
    ensures { IfOk result (λ slots. All (λ slot. slot ≡ None) slots.items) }
{
    let mut slots = Vec::with_capacity(alloc, count)?;
    for _ in 0..count {
        slots.push_reserved(None);
    }
    Ok(slots)
}
