//! The extensions of message sets that messages declare for themselves.

ghost use Rattle.std.specs.Prelude.{◌≡◌, ◌↔◌, ◌<◌, List, ℕ, IfOk, IsTrue, MatchOption, Some, length, map};
ghost use Rattle.std.specs.String.{string_bytes};
ghost use denote.Ref.{Bor};
ghost use Rattle.proto_decl.specs.declared.declaration.Declaration.{Declaration};
ghost use Rattle.proto_decl.specs.declared.declaration.DeclarationKind.TheVariants.{Field};
ghost use Rattle.proto_options.specs.declared.fields.FieldFact.{FieldFact};
ghost use Rattle.proto_options.specs.declared.names.OptionRole.TheVariants as role;
ghost use Rattle.proto_visibility.specs.Reaches.{LinksOptions};
ghost use Rattle.option_link.specs.Contexts.{HasWords};
ghost use Rattle.option_link.specs.Fields.{IsField, IsFirstItem, IsItem};
ghost use Rattle.option_link.specs.Found.{IsBehind, IsItemNamed, IsSetIn};
ghost use Rattle.option_link.specs.Places.{StandsAs};
ghost use Rattle.option_link.specs.Tables.{IsClear};
ghost use Rattle.option_link.specs.declared.contexts.Context.{Context};
ghost use Rattle.option_link.specs.declared.contexts.Context.TheVariants as inside;
ghost use Rattle.option_link.specs.declared.place.DeclaredPlace.{DeclaredPlace};

use crate::contexts::Context;
use crate::fields::KnownFiles;
use crate::members::full_name_of;
use crate::naming::{Asked, is_as};
use crate::place::{DeclaredPlace, is_same};
use crate::sought::Sought;
use crate::table::is_a;
use crate::words::words_of;
use proto_decl::{DeclarationKind, facts_are_filled, facts_in_order};
use proto_options::{OptionName, OptionRole};
use std::alloc::{AllocError, Global};

/// Whether what is found is this place.
fn is_place(found: Option<DeclaredPlace>, place: DeclaredPlace) -> bool
    ensures { IsTrue result ↔ (found ≡ Some place) }
{
    match found {
        Some(one) => is_same(one, place),
        None => false,
    }
}

/// The message that names are looked up in, if it is one.
fn message_in(context: Context) -> Option<DeclaredPlace>
    ensures { MatchOption result ((message : DeclaredPlace) → context ≡ inside.Message message → ⊥)
        (λ message. context ≡ inside.Message message) }
{
    match context {
        Context::Message(message) => Some(message),
        Context::Options => None,
        Context::Entries(_) => None,
        Context::Enum(_) => None,
        Context::Scalar => None,
        Context::Untold => None,
        Context::Skipped => None,
    }
}

/// Whether what is given is this message.
fn is_message(given: Option<Context>, message: DeclaredPlace) -> bool
    ensures { IsTrue result ↔ (given ≡ Some (inside.Message message)) }
{
    match given {
        Some(context) => is_place(message_in(context), message),
        None => false,
    }
}

impl<'k, 'n, 'a, 't> KnownFiles<'k, 'n, 'a, 't> {
    /// The full name of the field at a place, if nothing else of its file has it.
    fn field_alone(self, alloc: Global, place: DeclaredPlace) -> Result<Option<String>, AllocError>
        ensures { IfOk result (λ found. MatchOption found
            ((declaration : Declaration) → StandsAs self.entry.names.now Field place declaration → ⊥)
            (λ name. (declaration : Declaration) × StandsAs self.entry.names.now Field place declaration
            × (declaration.full_name ≡ string_bytes name))) }
    {
        match self.names.declaration_at(place) {
            Some(declared) => {
                if !is_a(declared, DeclarationKind::Field) {
                    return Ok(None);
                }
                let name = full_name_of(alloc, declared)?;
                let only = self.names.only_in(place.file, name.as_str());
                if !is_place(only, place) {
                    return Ok(None);
                }
                Ok(Some(name))
            }
            None => Ok(None),
        }
    }

    /// Whether the field with a full name is an extension of a message set that a message declares for itself.
    fn is_item_named(
        self,
        alloc: Global,
        set: DeclaredPlace,
        message: DeclaredPlace,
        field: DeclaredPlace,
        full_name: &str,
    ) -> Result<bool, AllocError>
        requires stands { (declaration : Declaration) × StandsAs self.names.now Field field declaration
            × (declaration.full_name ≡ full_name.now) }
        requires extends { (fact : FieldFact) × IsField self.names.now self.known.now field fact
            × (start : ℕ) × (fact.extended ≡ Some start) }
        ensures { IfOk result (λ is. IsTrue is
            ↔ IsItem self.entry.names.now self.entry.known.now set message field) }
    {
        self.names.linked();
        facts_in_order();
        facts_are_filled();
        // From here on it is known that a field is of one message at most, and has one type.
        let is_inside = is_place(self.message_around(field.file, full_name), message);
        if !is_inside {
            return Ok(false);
        }
        let extended = self.message_of(alloc, field, full_name)?;
        let is_of_set = is_place(extended, set);
        if !is_of_set {
            return Ok(false);
        }
        let given = self.field_gives(alloc, field)?;
        Ok(is_message(given, message))
    }

    /// Whether a field that an extend declares is at a place.
    fn is_extending(self, place: DeclaredPlace) -> bool
        ensures { IsTrue result ↔ ((fact : FieldFact) × IsField self.entry.names.now self.entry.known.now place fact
            × (start : ℕ) × (fact.extended ≡ Some start)) }
    {
        match self.fact_at(place) {
            Some(fact) => fact.extended.is_some(),
            None => false,
        }
    }

    /// The same of the field at a place that an extend declares.
    fn is_item_of(
        self,
        alloc: Global,
        set: DeclaredPlace,
        message: DeclaredPlace,
        field: DeclaredPlace,
    ) -> Result<bool, AllocError>
        requires { (fact : FieldFact) × IsField self.names.now self.known.now field fact
            × (start : ℕ) × (fact.extended ≡ Some start) }
        ensures { IfOk result (λ is. IsTrue is
            ↔ IsItem self.entry.names.now self.entry.known.now set message field) }
    {
        match self.field_alone(alloc, field)? {
            Some(full_name) => self.is_item_named(alloc, set, message, field, full_name.as_str()),
            None => Ok(false),
        }
    }

    /// The same of whatever is at a place.
    fn is_item(
        self,
        alloc: Global,
        set: DeclaredPlace,
        message: DeclaredPlace,
        place: DeclaredPlace,
    ) -> Result<bool, AllocError>
        ensures { IfOk result (λ is. IsTrue is
            ↔ IsItem self.entry.names.now self.entry.known.now set message place) }
    {
        if !self.is_extending(place) {
            return Ok(false);
        }
        self.is_item_of(alloc, set, message, place)
    }

    /// The first extension of a message set that a message declares for itself, among the first so many declarations of
    /// its file.
    fn first_among(
        self,
        alloc: Global,
        set: DeclaredPlace,
        message: DeclaredPlace,
        count: usize,
    ) -> Result<Option<DeclaredPlace>, AllocError>
        ensures { IfOk result (λ found. MatchOption found ((field : DeclaredPlace)
            → IsItem self.entry.names.now self.entry.known.now set message field → field.index < count → ⊥)
            (IsFirstItem self.entry.names.now self.entry.known.now set message)) }
    {
        for index in 0..count {
            let place = DeclaredPlace {
                file: message.file,
                index,
            };
            let is_item = self.is_item(alloc, set, message, place)?;
            if is_item {
                return Ok(Some(place));
            }
        }
        Ok(None)
    }

    /// The first of all of them.
    fn first_item(
        self,
        alloc: Global,
        set: DeclaredPlace,
        message: DeclaredPlace,
    ) -> Result<Option<DeclaredPlace>, AllocError>
        requires { message.file < length self.names.now }
        ensures { IfOk result (λ found. MatchOption found ((field : DeclaredPlace)
            → IsFirstItem self.entry.names.now self.entry.known.now set message field → ⊥)
            (IsFirstItem self.entry.names.now self.entry.known.now set message)) }
    {
        match self.names.linker().facts_of(message.file) {
            Some(facts) => self.first_among(alloc, set, message, facts.declarations().len()),
            None => Ok(None),
        }
    }
}

impl<'k, 'n, 'a, 't> Asked<'k, 'n, 'a, 't> {
    /// The message set in which a name in braces is looked up, if it is in one.
    pub(crate) fn set_of(self, number: usize, context: Context) -> Option<DeclaredPlace>
        ensures { MatchOption result ((set : DeclaredPlace) → IsSetIn self.entry.files.names.now
            self.entry.files.known.now self.entry.option.now number context set → ⊥)
            (IsSetIn self.entry.files.names.now self.entry.files.known.now self.entry.option.now number context) }
    {
        if !self.is_in_braces(number) {
            return None;
        }
        match message_in(context) {
            Some(message) => {
                if !self.says(message, None) {
                    return None;
                }
                Some(message)
            }
            None => None,
        }
    }

    /// The extension of a message set that the message with a full name declares for itself.
    pub(crate) fn item_named(
        self,
        alloc: Global,
        set: DeclaredPlace,
        full_name: &str,
    ) -> Result<Option<DeclaredPlace>, AllocError>
        requires { self.file < length self.files.names.now }
        ensures { IfOk result (λ found. MatchOption found ((field : DeclaredPlace)
            → IsItemNamed self.entry.files.names.now self.entry.files.known.now self.entry.file set full_name.now
            field → ⊥)
            (IsItemNamed self.entry.files.names.now self.entry.files.known.now self.entry.file set full_name.now)) }
    {
        match self
            .files
            .names
            .owned(self.file, full_name, Sought::AMessage)
        {
            Some(message) => self.files.first_item(alloc, set, message),
            None => Ok(None),
        }
    }

    /// How many components of the full name of what a name names come behind those that it spells.
    pub(crate) fn behind(
        self,
        alloc: Global,
        number: usize,
        name: &OptionName,
        context: Context,
    ) -> Result<usize, AllocError>
        requires links { LinksOptions self.files.names.now self.file }
        requires clear { IsClear self.files.names.now context }
        ensures { IfOk result (IsBehind self.entry.files.names.now self.entry.files.known.now self.entry.file
            self.entry.text.now self.entry.option.now number name.now name.now.role context) }
    {
        if !is_as(name, OptionRole::Extension) {
            return Ok(0);
        }
        match self.set_of(number, context) {
            Some(_set) => self.behind_in_set(alloc, number, name, context),
            None => Ok(0),
        }
    }

    /// The same of a name in brackets in a message set.
    fn behind_in_set(
        self,
        alloc: Global,
        number: usize,
        name: &OptionName,
        context: Context,
    ) -> Result<usize, AllocError>
        requires links { LinksOptions self.files.names.now self.file }
        requires clear { IsClear self.files.names.now context }
        ensures { IfOk result (IsBehind self.entry.files.names.now self.entry.files.known.now self.entry.file
            self.entry.text.now self.entry.option.now number name.now role.Extension context) }
    {
        match words_of(alloc, self.text, name)? {
            Some(words) => self.behind_words(alloc, number, name, words.as_slice(), context),
            None => Ok(0),
        }
    }

    /// The same by its words: one, if no field has the full name that they may make.
    fn behind_words(
        self,
        alloc: Global,
        number: usize,
        name: &OptionName,
        words: &[&str],
        context: Context,
    ) -> Result<usize, AllocError>
        requires links { LinksOptions self.files.names.now self.file }
        requires clear { IsClear self.files.names.now context }
        requires words { HasWords self.text.now name.now (map (λ (word : Bor (List ℕ)). word.now) words.now) }
        ensures { IfOk result (IsBehind self.entry.files.names.now self.entry.files.known.now self.entry.file
            self.entry.text.now self.entry.option.now number name.now role.Extension context) }
    {
        match self.sought_name(alloc, number, name, words, context)? {
            Some(full_name) => {
                let is_field = self
                    .files
                    .names
                    .knows(self.file, full_name.as_str(), Sought::AField);
                if is_field {
                    return Ok(0);
                }
                Ok(1)
            }
            None => Ok(0),
        }
    }
}
