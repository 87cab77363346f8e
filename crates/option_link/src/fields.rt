//! What fields are of, and what their types are.

ghost use Rattle.std.specs.Prelude.{◌≡◌, ◌↔◌, ◌<◌, ◌+◌, ◌^◌, None, Some, false, IfOk, IfSome, IsTrue, MatchOption};
ghost use Rattle.std.specs.Prelude.{length};
ghost use Rattle.proto_options.specs.declared.fields.FieldFact.{FieldFact};
ghost use Rattle.proto_decl.specs.declared.declaration.Declaration.{Declaration};
ghost use Rattle.proto_decl.specs.declared.declaration.DeclarationKind.{DeclarationKind};
ghost use Rattle.proto_decl.specs.declared.declaration.DeclarationKind.TheVariants.{Message, Field};
ghost use Rattle.proto_decl.specs.declared.uses.Use.{Use};
ghost use Rattle.proto_options.specs.declared.fields.FieldKind.TheVariants as kinds;
ghost use Rattle.option_link.specs.declared.contexts.Context.{Context};
ghost use Rattle.option_link.specs.declared.contexts.Context.TheVariants as inside;
ghost use Rattle.option_link.specs.declared.facts.OptionFacts.{OptionFacts};
ghost use Rattle.option_link.specs.declared.place.DeclaredPlace.{DeclaredPlace};
ghost use Rattle.option_link.specs.Places.{StandsAs};
ghost use Rattle.option_link.specs.Fields.{AreInOrder, IsField, IsFieldOf, TypeAt, TypeGives, KindGives, FieldGives};
ghost use Rattle.option_link.specs.Fields.{MapGives, ValueGives, behind};
ghost use Rattle.option_link.specs.Typed.{IsFactNamed, IsTypeNamed, GivesAt, IsAroundIn, HasMessage};
ghost use Rattle.option_link.specs.Typed.{IsMessageAt};

use crate::contexts::Context;
use crate::facts::FilesBeside;
use crate::often_used::OftenUsed;
use crate::place::DeclaredPlace;
use crate::searches::{field_among, if_same, named_by, sought_by, use_at};
use crate::table::{DeclarationTable, is_a};
use proto_decl::{DeclarationKind, Use, facts_are_filled, facts_in_order, scope_around};
use proto_lex::Span;
use proto_options::{FieldFact, FieldKind};
use std::alloc::{AllocError, Global};

/// Files that are linked, with what is known of each beside its facts, and of the fields that options use often.
#[derive(Clone, Copy)]
pub(crate) struct KnownFiles<'k, 'n, 'a, 't> {
    pub(crate) names: &'k DeclarationTable<'n, 'a, 't>,
    pub(crate) known: &'n FilesBeside<'n>,
    pub(crate) often: &'k OftenUsed<'k, 'n, 'a, 't>,
    ghost in_order: { AreInOrder known.now },
    ghost same_files: { often.now.files ≡ names.now },
    ghost same_known: { often.now.known ≡ known.now },
}

impl<'k, 'n, 'a, 't> KnownFiles<'k, 'n, 'a, 't> {
    /// What is known of the field at a place.
    pub(crate) fn fact_at(self, place: DeclaredPlace) -> Option<FieldFact>
        ensures small { IfSome result (λ fact. place.index + 1 < 2 ^ 64) }
        ensures field { MatchOption result
            ((fact : FieldFact) → IsField self.entry.names.now self.entry.known.now place fact → ⊥)
            (IsField self.entry.names.now self.entry.known.now place) }
    {
        match self.names.declaration_at(place) {
            Some(declared) => {
                if !is_a(declared, DeclarationKind::Field) {
                    return None;
                }
                self.fact_named(place.file, declared.name())
            }
            None => None,
        }
    }

    /// What is known of the field of a file whose name is at this place.
    fn fact_named(self, file: usize, name: Span) -> Option<FieldFact>
        ensures { MatchOption result ((fact : FieldFact) → IsFactNamed self.entry.known.now file name fact → ⊥)
            (IsFactNamed self.entry.known.now file name) }
    {
        field_among(self.known.fields_of(file), name)
    }

    /// The type that the use of a file names whose first component starts at an offset.
    fn type_at(
        self,
        alloc: Global,
        file: usize,
        start: u32,
    ) -> Result<Option<DeclaredPlace>, AllocError>
        requires { file < length self.names.now }
        ensures { IfOk result (λ found. MatchOption found ((kind : DeclarationKind) (type : DeclaredPlace)
            → TypeAt self.entry.names.now file start kind type → ⊥)
            (λ type. (kind : DeclarationKind) × TypeAt self.entry.names.now file start kind type)) }
    {
        match self.names.known_type(file, start) {
            Some(known) => Ok(known.found),
            None => self.type_used(alloc, file, start),
        }
    }

    /// The same, found anew.
    pub(crate) fn type_used(
        self,
        alloc: Global,
        file: usize,
        start: u32,
    ) -> Result<Option<DeclaredPlace>, AllocError>
        requires { file < length self.names.now }
        ensures { IfOk result (λ found. MatchOption found ((kind : DeclarationKind) (type : DeclaredPlace)
            → TypeAt self.entry.names.now file start kind type → ⊥)
            (λ type. (kind : DeclarationKind) × TypeAt self.entry.names.now file start kind type)) }
    {
        self.names.linked();
        facts_in_order();
        facts_are_filled();
        // From here on it is known that one use at most starts there.
        match use_at(self.names.linker(), file, start) {
            Some(type_use) => self.type_named(alloc, file, type_use),
            None => Ok(None),
        }
    }

    /// The type that a use of a file names.
    fn type_named(
        self,
        alloc: Global,
        file: usize,
        type_use: &Use<'_>,
    ) -> Result<Option<DeclaredPlace>, AllocError>
        requires { file < length self.names.now }
        ensures { IfOk result (λ found. MatchOption found
            ((type : DeclaredPlace) → IsTypeNamed self.entry.names.now file type_use.now type → ⊥)
            (IsTypeNamed self.entry.names.now file type_use.now)) }
    {
        let answer = self.names.linker().resolve(alloc, file, type_use);
        match named_by(answer)? {
            Some(target) => {
                let sought = sought_by(type_use.is_extended);
                Ok(self.names.owned(file, target.name.as_str(), sought))
            }
            None => Ok(None),
        }
    }

    /// What that type gives.
    fn type_gives(
        self,
        alloc: Global,
        file: usize,
        start: u32,
    ) -> Result<Option<Context>, AllocError>
        requires { file < length self.names.now }
        ensures { IfOk result (λ found. MatchOption found
            ((context : Context) → TypeGives self.entry.names.now file start context → ⊥)
            (TypeGives self.entry.names.now file start)) }
    {
        match self.type_at(alloc, file, start)? {
            Some(place) => Ok(self.context_at(place)),
            None => Ok(None),
        }
    }

    /// What a message or an enum gives that stands at a place.
    fn context_at(self, place: DeclaredPlace) -> Option<Context>
        ensures { MatchOption result ((context : Context) → GivesAt self.entry.names.now place context → ⊥)
            (GivesAt self.entry.names.now place) }
    {
        match self.names.declaration_at(place) {
            Some(declared) => {
                if is_a(declared, DeclarationKind::Message) {
                    return Some(Context::Message(place));
                }
                if is_a(declared, DeclarationKind::Enum) {
                    return Some(Context::Enum(place));
                }
                None
            }
            None => None,
        }
    }

    /// What names are looked up in that belong to a field.
    pub(crate) fn field_gives(
        self,
        alloc: Global,
        field: DeclaredPlace,
    ) -> Result<Option<Context>, AllocError>
        ensures { IfOk result (λ found. MatchOption found
            ((context : Context) → FieldGives self.entry.names.now self.entry.known.now field context → ⊥)
            (FieldGives self.entry.names.now self.entry.known.now field)) }
    {
        match self.often.field_at(field) {
            Some(one) => Ok(one.gives),
            None => self.field_gives_anew(alloc, field),
        }
    }

    /// The same, found anew.
    fn field_gives_anew(
        self,
        alloc: Global,
        field: DeclaredPlace,
    ) -> Result<Option<Context>, AllocError>
        ensures { IfOk result (λ found. MatchOption found
            ((context : Context) → FieldGives self.entry.names.now self.entry.known.now field context → ⊥)
            (FieldGives self.entry.names.now self.entry.known.now field)) }
    {
        match self.fact_at(field) {
            Some(fact) => self.kind_gives(alloc, field, fact.kind),
            None => Ok(None),
        }
    }

    /// What a field of this kind gives.
    fn kind_gives(
        self,
        alloc: Global,
        field: DeclaredPlace,
        kind: FieldKind,
    ) -> Result<Option<Context>, AllocError>
        requires file { field.file < length self.names.now }
        requires small { field.index + 1 < 2 ^ 64 }
        ensures { IfOk result (λ found. MatchOption found
            ((context : Context) → KindGives self.entry.names.now field kind context → ⊥)
            (KindGives self.entry.names.now field kind)) }
    {
        match kind {
            FieldKind::Scalar => Ok(Some(Context::Scalar)),
            FieldKind::Named(start) => self.type_gives(alloc, field.file, start),
            FieldKind::Group => self.group_gives(alloc, behind(field)),
            FieldKind::Map(_) => Ok(Some(Context::Entries(field))),
        }
    }

    /// The same of the message of a group, which stands here.
    fn group_gives(self, alloc: Global, place: DeclaredPlace) -> Result<Option<Context>, AllocError>
        ensures { IfOk result (λ found. MatchOption found
            ((declaration : Declaration) → StandsAs self.entry.names.now Message place declaration → ⊥)
            (λ context. (context ≡ inside.Message place) × ((declaration : Declaration)
            × StandsAs self.entry.names.now Message place declaration))) }
    {
        match self.message_alone(alloc, place)? {
            Some(message) => Ok(Some(Context::Message(message))),
            None => Ok(None),
        }
    }

    /// The place, if the message that stands there has a full name of its own.
    fn message_alone(
        self,
        alloc: Global,
        place: DeclaredPlace,
    ) -> Result<Option<DeclaredPlace>, AllocError>
        ensures { IfOk result (λ found. MatchOption found
            ((declaration : Declaration) → StandsAs self.entry.names.now Message place declaration → ⊥)
            (λ message. (message ≡ place) × ((declaration : Declaration)
            × StandsAs self.entry.names.now Message place declaration))) }
    {
        match self.names.declaration_at(place) {
            Some(declared) => {
                if !is_a(declared, DeclarationKind::Message) {
                    return Ok(None);
                }
                let name = declared.full_name().to_text(alloc)?;
                let only = self.names.only_in(place.file, name.as_str());
                Ok(if_same(only, place))
            }
            None => Ok(None),
        }
    }

    /// The same of the values of a map.
    pub(crate) fn value_gives(
        self,
        alloc: Global,
        map: DeclaredPlace,
    ) -> Result<Option<Context>, AllocError>
        ensures { IfOk result (λ found. MatchOption found
            ((context : Context) → ValueGives self.entry.names.now self.entry.known.now map context → ⊥)
            (ValueGives self.entry.names.now self.entry.known.now map)) }
    {
        match self.fact_at(map) {
            Some(fact) => self.map_gives(alloc, map, fact.kind),
            None => Ok(None),
        }
    }

    /// What the values of a map of this kind give.
    fn map_gives(
        self,
        alloc: Global,
        map: DeclaredPlace,
        kind: FieldKind,
    ) -> Result<Option<Context>, AllocError>
        requires { map.file < length self.names.now }
        ensures { IfOk result (λ found. MatchOption found
            ((context : Context) → MapGives self.entry.names.now map kind context → ⊥)
            (MapGives self.entry.names.now map kind)) }
    {
        match kind {
            FieldKind::Map(value) => self.mapped_gives(alloc, map, value),
            FieldKind::Scalar => Ok(None),
            FieldKind::Named(_) => Ok(None),
            FieldKind::Group => Ok(None),
        }
    }

    /// What the values of a map give whose type is named by the use that starts here.
    fn mapped_gives(
        self,
        alloc: Global,
        map: DeclaredPlace,
        value: Option<u32>,
    ) -> Result<Option<Context>, AllocError>
        requires { map.file < length self.names.now }
        ensures { IfOk result (λ found. MatchOption found
            ((context : Context) → MapGives self.entry.names.now map (kinds.Map value) context → ⊥)
            (MapGives self.entry.names.now map (kinds.Map value))) }
    {
        match value {
            Some(start) => self.type_gives(alloc, map.file, start),
            None => Ok(Some(Context::Scalar)),
        }
    }

    /// The message that a field with this full name is of: the one around it, or the one that it extends.
    pub(crate) fn message_of(
        self,
        alloc: Global,
        field: DeclaredPlace,
        full_name: &str,
    ) -> Result<Option<DeclaredPlace>, AllocError>
        requires { (declaration : Declaration) × StandsAs self.names.now Field field declaration
            × (declaration.full_name ≡ full_name.now) }
        ensures { IfOk result (λ found. MatchOption found
            ((message : DeclaredPlace) → IsFieldOf self.entry.names.now self.entry.known.now message field → ⊥)
            (λ message. IsFieldOf self.entry.names.now self.entry.known.now message field)) }
    {
        self.names.linked();
        facts_are_filled();
        // From here on it is known that no full name is empty.
        match self.fact_at(field) {
            Some(fact) => self.message_with(alloc, field, full_name, fact.extended),
            None => Ok(None),
        }
    }

    /// The same of a field that extends what the use names that starts here.
    fn message_with(
        self,
        alloc: Global,
        field: DeclaredPlace,
        full_name: &str,
        extended: Option<u32>,
    ) -> Result<Option<DeclaredPlace>, AllocError>
        requires { field.file < length self.names.now }
        ensures { IfOk result (λ found. MatchOption found ((message : DeclaredPlace)
            → HasMessage self.entry.names.now field full_name.now extended message → ⊥)
            (HasMessage self.entry.names.now field full_name.now extended)) }
    {
        self.names.linked();
        facts_in_order();
        facts_are_filled();
        // From here on it is known that one use at most starts there.
        match extended {
            Some(start) => {
                let found = self.type_at(alloc, field.file, start)?;
                Ok(self.if_message(found))
            }
            None => Ok(self.message_around(field.file, full_name)),
        }
    }

    /// The message of a file around a full name.
    pub(crate) fn message_around(self, file: usize, full_name: &str) -> Option<DeclaredPlace>
        ensures { MatchOption result
            ((message : DeclaredPlace) → IsAroundIn self.entry.names.now file full_name.now message → ⊥)
            (IsAroundIn self.entry.names.now file full_name.now) }
    {
        match scope_around(full_name) {
            Some(scope) => self.if_message(self.names.only_in(file, scope)),
            None => None,
        }
    }

    /// A place, if a message stands there.
    fn if_message(self, found: Option<DeclaredPlace>) -> Option<DeclaredPlace>
        ensures { MatchOption result ((place : DeclaredPlace) → found ≡ Some place
            → IsMessageAt self.entry.names.now place → ⊥)
            (λ place. (found ≡ Some place) × IsMessageAt self.entry.names.now place) }
    {
        match found {
            Some(place) => {
                if !self.names.is_message_at(place) {
                    return None;
                }
                Some(place)
            }
            None => None,
        }
    }
}

/// The place behind one: a group's message is behind its field.
pub(crate) fn behind(place: DeclaredPlace) -> DeclaredPlace
    requires { place.index + 1 < 2 ^ 64 }
    ensures { result ≡ behind place }
{
    DeclaredPlace {
        file: place.file,
        index: place.index.saturating_add(1),
    }
}
