//! The messages of the options of elements, found once.

ghost use Rattle.std.specs.Prelude.{ℕ, ◌≡◌, ◌<◌, ◌↔◌, Contains, IsTrue, IfOk, MatchOption, length};
ghost use Rattle.std.specs.List.{slice_get};
ghost use Rattle.std.specs.List.Sorted.{IsNonDecreasingBy};
ghost use Rattle.proto_visibility.specs.Files.{IsPresent};
ghost use Rattle.proto_visibility.specs.Reaches.{HasOptionsIn, LinksOptions};
ghost use Rattle.option_link.specs.declared.place.DeclaredPlace.{DeclaredPlace};
ghost use Rattle.option_link.specs.Contexts.{IsMessageNamed, IsOptionsFile, IsOptionsMessage, LacksMessage};
ghost use Rattle.option_link.specs.Contexts.{options_message};
ghost use Rattle.option_link.specs.Messages.{AreMessagesNamed, AreOptionsMessages, IsMessageOf, named_messages};

use crate::contexts::options_message;
use crate::place::{DeclaredPlace, is_same};
use crate::table::DeclarationTable;
use proto_lex::Span;
use proto_link::OptionsIn;
use proto_options::Element;
use std::alloc::{AllocError, Global};

/// The messages with a full name, in order of their files.
#[derive(Drop)]
pub(crate) struct NamedMessages {
    all: Vec<DeclaredPlace>,
}

/// Those of the options of each kind of element.
#[derive(Drop)]
pub(crate) struct OptionMessages {
    file: NamedMessages,
    message: NamedMessages,
    field: NamedMessages,
    oneof: NamedMessages,
    enumeration: NamedMessages,
    value: NamedMessages,
    service: NamedMessages,
    method: NamedMessages,
    range: NamedMessages,
}

impl NamedMessages {
    /// That of a file.
    pub(crate) fn of_file(&self, file: usize) -> Option<DeclaredPlace>
        requires { IsNonDecreasingBy (λ message. message.file) self.now.all.items }
        ensures { MatchOption result
            ((message : DeclaredPlace) → Contains self.now.all.items message → message.file ≡ file → ⊥)
            (λ message. Contains self.now.all.items message × (message.file ≡ file)) }
    {
        place_in(self.all.as_slice(), file)
    }
}

impl OptionMessages {
    /// Finds them among the declarations of files that are linked.
    pub(crate) fn find(
        alloc: Global,
        table: &DeclarationTable<'_, '_, '_>,
    ) -> Result<OptionMessages, AllocError>
        ensures { IfOk result (AreOptionsMessages table.now) }
    {
        let nowhere = Span { start: 0, end: 0 };
        Ok(OptionMessages {
            file: messages_of(alloc, table, Element::File)?,
            message: messages_of(alloc, table, Element::Message)?,
            field: messages_of(alloc, table, Element::Field(nowhere))?,
            oneof: messages_of(alloc, table, Element::Oneof)?,
            enumeration: messages_of(alloc, table, Element::Enum)?,
            value: messages_of(alloc, table, Element::EnumValue)?,
            service: messages_of(alloc, table, Element::Service)?,
            method: messages_of(alloc, table, Element::Method)?,
            range: messages_of(alloc, table, Element::ExtensionRange)?,
        })
    }

    /// Those of the options of an element.
    pub(crate) fn named(&self, element: Element) -> &NamedMessages
        ensures { result.now ≡ named_messages self.now element }
    {
        match element {
            Element::File => &self.file,
            Element::Message => &self.message,
            Element::Field(_) => &self.field,
            Element::Oneof => &self.oneof,
            Element::Enum => &self.enumeration,
            Element::EnumValue => &self.value,
            Element::Service => &self.service,
            Element::Method => &self.method,
            Element::ExtensionRange => &self.range,
        }
    }
}

impl<'n, 'a, 't> DeclarationTable<'n, 'a, 't> {
    /// The file that a source has the messages of its options in, if there is one alone, which isn't left out.
    fn options_file(&self, source: usize) -> Option<usize>
        requires { LinksOptions self.now source }
        ensures { MatchOption result ((file : ℕ) → IsOptionsFile self.now source file → ⊥)
            (IsOptionsFile self.now source) }
    {
        match self.linker().options_in(source) {
            OptionsIn::At(file) => {
                if !self.is_present(file) {
                    return None;
                }
                Some(file)
            }
            OptionsIn::Nowhere => None,
            OptionsIn::Several => None,
        }
    }

    /// Whether a source has the messages of its options in no file.
    fn has_no_options(&self, source: usize) -> bool
        requires { LinksOptions self.now source }
        ensures { IsTrue result ↔ ((file : ℕ) → HasOptionsIn self.now source file → ⊥) }
    {
        match self.linker().options_in(source) {
            OptionsIn::At(_) => false,
            OptionsIn::Nowhere => true,
            OptionsIn::Several => false,
        }
    }

    /// The message of the options of an element in a file.
    fn message_of_file(
        &self,
        alloc: Global,
        element: Element,
        file: usize,
    ) -> Result<Option<DeclaredPlace>, AllocError>
        ensures { IfOk result (λ found. MatchOption found
            ((message : DeclaredPlace) → IsMessageOf self.now (options_message element) file message → ⊥)
            (IsMessageOf self.now (options_message element) file)) }
    {
        match self.known_messages() {
            Some(known) => Ok(known.named(element).of_file(file)),
            None => {
                let found = messages_of(alloc, self, element)?;
                Ok(found.of_file(file))
            }
        }
    }

    /// The message of the options of an element in which plain names of a source are looked up.
    pub(crate) fn options_message(
        &self,
        alloc: Global,
        source: usize,
        element: Element,
    ) -> Result<Option<DeclaredPlace>, AllocError>
        requires { LinksOptions self.now source }
        ensures { IfOk result (λ found. MatchOption found
            ((message : DeclaredPlace) → IsOptionsMessage self.now source (options_message element) message → ⊥)
            (IsOptionsMessage self.now source (options_message element))) }
    {
        match self.options_file(source) {
            Some(file) => self.message_of_file(alloc, element, file),
            None => Ok(None),
        }
    }

    /// Whether there is none to look them up in.
    pub(crate) fn lacks_message(
        &self,
        alloc: Global,
        source: usize,
        element: Element,
    ) -> Result<bool, AllocError>
        requires { LinksOptions self.now source }
        ensures { IfOk result (λ lacks. IsTrue lacks ↔ LacksMessage self.now source (options_message element)) }
    {
        match self.options_file(source) {
            Some(file) => {
                let found = self.message_of_file(alloc, element, file)?;
                Ok(found.is_none())
            }
            None => Ok(self.has_no_options(source)),
        }
    }

    /// Whether a message is one of the options of an element, in a file that isn't left out.
    pub(crate) fn is_options_message(
        &self,
        alloc: Global,
        element: Element,
        message: DeclaredPlace,
    ) -> Result<bool, AllocError>
        ensures { IfOk result (λ is. IsTrue is
            ↔ (IsMessageNamed self.now (options_message element) message × IsPresent self.now message.file)) }
    {
        match self.message_of_file(alloc, element, message.file)? {
            Some(found) => {
                if !is_same(found, message) {
                    return Ok(false);
                }
                Ok(self.is_present(message.file))
            }
            None => Ok(false),
        }
    }
}

/// The messages of the options of an element, found anew.
fn messages_of(
    alloc: Global,
    table: &DeclarationTable<'_, '_, '_>,
    element: Element,
) -> Result<NamedMessages, AllocError>
    ensures { IfOk result (AreMessagesNamed table.now (options_message element)) }
{
    let name = options_message(element);
    let mut all = table.messages_named(alloc, name)?;
    all.sort_unstable_by_key(|message| message.file);
    Ok(NamedMessages { all })
}

/// The place with a number among these.
fn place_with(places: &[DeclaredPlace], index: usize) -> Option<DeclaredPlace>
    ensures { result ≡ slice_get places.now index }
{
    places.get(index).copied()
}

/// The first of these places, in order of their files, that is in a file.
fn place_in(places: &[DeclaredPlace], file: usize) -> Option<DeclaredPlace>
    requires { IsNonDecreasingBy (λ place. place.file) places.now }
    ensures { MatchOption result
        ((place : DeclaredPlace) → Contains places.now place → place.file ≡ file → ⊥)
        (λ place. Contains places.now place × (place.file ≡ file)) }
{
    let before = places.partition_point(|one| one.file < file);
    match place_with(places, before) {
        Some(one) => {
            if one.file != file {
                return None;
            }
            Some(one)
        }
        None => None,
    }
}
