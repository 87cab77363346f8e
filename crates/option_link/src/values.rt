//! Messages that are packed, and values of enums.

ghost use Rattle.std.specs.Prelude.{ℕ, List, [], ◌∷◌, ◌≡◌, ◌<◌, ◌↔◌, IsTrue, IfOk, MatchOption, length, map};
ghost use denote.Ref.{Bor};
ghost use Rattle.option_link.specs.declared.place.DeclaredPlace.{DeclaredPlace};
ghost use Rattle.option_link.specs.Found.{IsPackedIn, IsValueIn, IsValueNamed, IsValueOf};

use crate::lookup::{joined, under};
use crate::members::full_name_of;
use crate::naming::Asked;
use crate::paths::is_inside;
use crate::place::DeclaredPlace;
use crate::sought::Sought;
use crate::table::is_a;
use proto_decl::{Declaration, DeclarationKind, facts_are_filled, scope_around};
use std::alloc::{AllocError, Global};

/// The message in which another one is packed.
const ANY: &str = "google.protobuf.Any";

impl<'k, 'n, 'a, 't> Asked<'k, 'n, 'a, 't> {
    /// The message that is packed in a `google.protobuf.Any`.
    pub(crate) fn packed(
        self,
        alloc: Global,
        any: DeclaredPlace,
        words: &[&str],
    ) -> Result<Option<DeclaredPlace>, AllocError>
        requires { self.file < length self.files.names.now }
        ensures { IfOk result (λ found. MatchOption found ((message : DeclaredPlace)
            → IsPackedIn self.entry.files.names.now self.entry.file any
            (map (λ (word : Bor (List ℕ)). word.now) words.now) message → ⊥)
            (IsPackedIn self.entry.files.names.now self.entry.file any
            (map (λ (word : Bor (List ℕ)). word.now) words.now))) }
    {
        match self.files.names.declaration_at(any) {
            Some(outer) => {
                if !outer.full_name().is(ANY) {
                    return Ok(None);
                }
                let name = joined(alloc, words)?;
                let names = self.files.names;
                Ok(names.owned(self.file, name.as_str(), Sought::AMessage))
            }
            None => Ok(None),
        }
    }

    /// The value of an enum by these words.
    pub(crate) fn value_by(
        self,
        alloc: Global,
        of: DeclaredPlace,
        words: &[&str],
    ) -> Result<Option<DeclaredPlace>, AllocError>
        ensures { IfOk result (λ found. MatchOption found ((value : DeclaredPlace) (word : List ℕ)
            → map (λ (word : Bor (List ℕ)). word.now) words.now ≡ word ∷ []
            → IsValueOf self.entry.files.names.now of word value → ⊥)
            (λ value. (word : List ℕ) × (map (λ (word : Bor (List ℕ)). word.now) words.now ≡ word ∷ [])
            × IsValueOf self.entry.files.names.now of word value)) }
    {
        match words {
            [] => Ok(None),
            [word] => self.value(alloc, of, word),
            [_, _, ..] => Ok(None),
        }
    }

    /// The value of an enum with this simple name.
    fn value(
        self,
        alloc: Global,
        of: DeclaredPlace,
        word: &str,
    ) -> Result<Option<DeclaredPlace>, AllocError>
        ensures { IfOk result (λ found. MatchOption found
            ((value : DeclaredPlace) → IsValueOf self.entry.files.names.now of word.now value → ⊥)
            (IsValueOf self.entry.files.names.now of word.now)) }
    {
        self.files.names.linked();
        facts_are_filled();
        // From here on it is known that no full name is empty.
        match self.files.names.declaration_at(of) {
            Some(outer) => {
                let enum_name = full_name_of(alloc, outer)?;
                match scope_around(enum_name.as_str()) {
                    Some(scope) => self.value_named(alloc, of.file, outer, scope, word),
                    None => Ok(None),
                }
            }
            None => Ok(None),
        }
    }

    /// The same of an enum with this declaration, in a scope of a file.
    fn value_named(
        self,
        alloc: Global,
        file: usize,
        outer: &Declaration<'_>,
        scope: &str,
        word: &str,
    ) -> Result<Option<DeclaredPlace>, AllocError>
        ensures { IfOk result (λ found. MatchOption found ((value : DeclaredPlace)
            → IsValueNamed self.entry.files.names.now file outer.now scope.now word.now value → ⊥)
            (IsValueNamed self.entry.files.names.now file outer.now scope.now word.now)) }
    {
        let name = under(alloc, scope, word)?;
        match self.files.names.only_in(file, name.as_str()) {
            Some(place) => {
                if !self.is_value_in(outer, place) {
                    return Ok(None);
                }
                Ok(Some(place))
            }
            None => Ok(None),
        }
    }

    /// Whether a value of an enum with this declaration is declared at a place.
    fn is_value_in(self, outer: &Declaration<'_>, place: DeclaredPlace) -> bool
        ensures { IsTrue result ↔ IsValueIn self.entry.files.names.now outer.now place }
    {
        match self.files.names.declaration_at(place) {
            Some(declared) => {
                if !is_a(declared, DeclarationKind::Value) {
                    return false;
                }
                is_inside(declared, outer)
            }
            None => false,
        }
    }
}
