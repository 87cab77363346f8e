//! Fields that options use often, with the files that they are of.

ghost use Rattle.std.specs.Prelude.{◌≡◌, Some, IfSome};
ghost use Rattle.option_link.specs.KnownFields.{AreKnownFields, IsKnownField};
ghost use Rattle.option_link.specs.declared.known_fields.KnownField.{KnownField};

use crate::facts::FilesBeside;
use crate::known_fields::{KnownField, KnownFields};
use crate::place::DeclaredPlace;
use crate::table::DeclarationTable;
use std::marker::Model;

/// Files that are linked, with what is known of each beside its facts, and of the fields that options use often.
///
/// Contracts see the list of the files, and that of what is known of each.
#[derive(Drop)]
pub(crate) struct OftenUsed<'k, 'n, 'a, 't> {
    names: &'k DeclarationTable<'n, 'a, 't>,
    known: &'n FilesBeside<'n>,
    fields: &'k KnownFields,
}

impl<'k, 'n, 'a, 't> Model for OftenUsed<'k, 'n, 'a, 't> {
    ghost use Rattle.option_link.specs.KnownFields.{AreKnownFields};
    ghost use Rattle.option_link.specs.Linked.{LinkedOptions};

    ghost Value = { LinkedOptions };

    ghost view = { λ often. record { files = often.names.now; known = often.known.now } };

    ghost invariant = { λ often. AreKnownFields often.names.now often.known.now often.fields.now.fields.items };
}

impl<'k, 'n, 'a, 't> OftenUsed<'k, 'n, 'a, 't> {
    /// These fields of these files.
    pub(crate) fn new(
        names: &'k DeclarationTable<'n, 'a, 't>,
        known: &'n FilesBeside<'n>,
        fields: &'k KnownFields,
    ) -> OftenUsed<'k, 'n, 'a, 't>
        requires { AreKnownFields names.now known.now fields.now.fields.items }
        ensures { result ≡ record { files = names.now; known = known.now } }
    {
        OftenUsed {
            names,
            known,
            fields,
        }
    }

    /// The one at a place, if it is found.
    pub(crate) fn field_at(&self, place: DeclaredPlace) -> Option<KnownField>
        ensures { IfSome result (λ one. IsKnownField self.now.files self.now.known one × (one.field ≡ place)) }
    {
        match self.fields.field_at(place) {
            Some(one) => Some(one),
            None => None,
        }
    }

    /// One of a message that may have this simple name, if one is found.
    pub(crate) fn field_of(&self, message: DeclaredPlace, word: &str) -> Option<KnownField>
        ensures { IfSome result (λ one. IsKnownField self.now.files self.now.known one
            × (one.message ≡ Some message)) }
    {
        match self.fields.field_of(message, word) {
            Some(one) => Some(one),
            None => None,
        }
    }
}
