//! What the names in one option name.

ghost use Rattle.std.specs.Prelude.{ℕ, List, ◌≡◌, ◌<◌, ◌↔◌, None, Some, IsTrue, IfOk, MatchOption, length, map};
ghost use Rattle.std.specs.List.{slice_get};
ghost use denote.Ref.{Bor};
ghost use Rattle.proto_lex.specs.declared.span.Span.{Span};
ghost use Rattle.proto_options.specs.declared.elements.Element.TheVariants as of_a;
ghost use Rattle.proto_options.specs.declared.names.OptionRole.TheVariants as role;
ghost use Rattle.proto_visibility.specs.Reaches.{LinksOptions};
ghost use Rattle.option_link.specs.declared.place.DeclaredPlace.{DeclaredPlace};
ghost use Rattle.option_link.specs.declared.contexts.Context.{Context};
ghost use Rattle.option_link.specs.Tables.{IsClear};
ghost use Rattle.option_link.specs.Contexts.{HasWords, IsOptionsMessage, IsTaken, NamesAs, NamesIn, Root};
ghost use Rattle.option_link.specs.Contexts.{StandsIn, options_message};
ghost use Rattle.option_link.specs.Found.{AreGiven, IsOneWord, in_braces};

use crate::contexts::Context;
use crate::fields::KnownFiles;
use crate::place::DeclaredPlace;
use crate::said::SaidOfMessages;
use crate::words::{is_word, only_word, words_of};
use proto_lex::Span;
use proto_options::{Element, FileOption, OptionName, OptionRole};
use std::alloc::{AllocError, Global};

/// An option of a file, with the text that its names stand in, among files that are linked.
#[derive(Clone, Copy)]
pub(crate) struct Asked<'k, 'n, 'a, 't> {
    pub(crate) files: KnownFiles<'k, 'n, 'a, 't>,
    pub(crate) said: &'k SaidOfMessages<'n>,
    pub(crate) file: usize,
    pub(crate) text: &'k str,
    pub(crate) option: &'k FileOption,
    /// The first of the files without facts that the file sees.
    pub(crate) unread: Option<usize>,
    ghost same_said: { said.now ≡ files.known.now },
}

/// The field whose name is at a place that an element is, if it is one.
pub(crate) fn field_of(element: Element) -> Option<Span>
    ensures { MatchOption result ((name : Span) → element ≡ of_a.Field name → ⊥) (λ name. element ≡ of_a.Field name) }
{
    match element {
        Element::Field(name) => Some(name),
        Element::File => None,
        Element::Message => None,
        Element::Oneof => None,
        Element::Enum => None,
        Element::EnumValue => None,
        Element::Service => None,
        Element::Method => None,
        Element::ExtensionRange => None,
    }
}

/// Whether a name is in this role.
pub(crate) fn is_as(name: &OptionName, role: OptionRole) -> bool
    ensures { IsTrue result ↔ (name.now.role ≡ role) }
{
    name.role == role
}

impl<'k, 'n, 'a, 't> Asked<'k, 'n, 'a, 't> {
    /// The name with this number.
    pub(crate) fn name_at(self, number: usize) -> Option<&'k OptionName>
        ensures { MatchOption result (slice_get self.entry.option.now.setting.names number ≡ None)
            (λ name. slice_get self.entry.option.now.setting.names number ≡ Some name.now) }
    {
        self.option.setting.names.as_slice().get(number)
    }

    /// Whether a name is in the braces of the option's value.
    pub(crate) fn is_in_braces(self, number: usize) -> bool
        ensures { result ≡ in_braces self.entry.option.now number }
    {
        self.option.setting.parts <= number
    }

    /// Whether the option is this word, of a field: protoc's parser takes some of these for itself.
    pub(crate) fn is_taken(self, word: &str) -> bool
        ensures { IsTrue result
            ↔ ((field : Span) × IsTaken self.entry.text.now word.now self.entry.option.now field) }
    {
        match field_of(self.option.element) {
            Some(_field) => self.is_one_word(word),
            None => false,
        }
    }

    /// Whether the option's name is this word.
    fn is_one_word(self, word: &str) -> bool
        ensures { IsTrue result ↔ IsOneWord self.entry.text.now word.now self.entry.option.now }
    {
        let parts = self.option.setting.parts;
        if parts != 1 {
            return false;
        }
        match self.name_at(0) {
            Some(name) => {
                if !is_as(name, OptionRole::Field) {
                    return false;
                }
                is_word(self.text, name, word)
            }
            None => false,
        }
    }

    /// What the first part is looked up in.
    fn root(self) -> Context
        ensures { Root self.entry.text.now self.entry.option.now result }
    {
        if self.is_taken("default") {
            return Context::Untold;
        }
        if self.is_taken("json_name") {
            return Context::Untold;
        }
        Context::Options
    }

    /// The message of the element's options in which plain names are looked up.
    pub(crate) fn options_message(self, alloc: Global) -> Result<Option<DeclaredPlace>, AllocError>
        requires { LinksOptions self.files.names.now self.file }
        ensures { IfOk result (λ found. MatchOption found ((message : DeclaredPlace)
            → IsOptionsMessage self.entry.files.names.now self.entry.file
            (options_message self.entry.option.now.element) message → ⊥)
            (IsOptionsMessage self.entry.files.names.now self.entry.file
            (options_message self.entry.option.now.element))) }
    {
        self.files
            .names
            .options_message(alloc, self.file, self.option.element)
    }

    /// What a name is looked up in, by what is known of the names in front of it.
    pub(crate) fn context_of(self, name: &OptionName, given: &[Option<Context>]) -> Option<Context>
        requires numbered { slice_get self.option.now.setting.names (length given.now) ≡ Some name.now }
        requires given { AreGiven self.files.names.now self.files.known.now self.file self.text.now self.option.now
            given.now }
        ensures { MatchOption result ((context : Context) → StandsIn self.entry.files.names.now
            self.entry.files.known.now self.entry.file self.entry.text.now self.entry.option.now
            (length given.now) context → ⊥)
            (λ context. StandsIn self.entry.files.names.now self.entry.files.known.now self.entry.file
            self.entry.text.now self.entry.option.now (length given.now) context
            × IsClear self.entry.files.names.now context) }
    {
        match name.around {
            None => Some(self.root()),
            Some(before) => given_at(given, before),
        }
    }

    /// What a name names that is looked up in this.
    pub(crate) fn target(
        self,
        alloc: Global,
        number: usize,
        name: &OptionName,
        context: Context,
    ) -> Result<Option<DeclaredPlace>, AllocError>
        requires links { LinksOptions self.files.names.now self.file }
        requires clear { IsClear self.files.names.now context }
        ensures { IfOk result (λ found. MatchOption found ((at : DeclaredPlace) → NamesIn self.entry.files.names.now
            self.entry.files.known.now self.entry.file self.entry.text.now self.entry.option.now number name.now
            context at → ⊥)
            (NamesIn self.entry.files.names.now self.entry.files.known.now self.entry.file
            self.entry.text.now self.entry.option.now number name.now context)) }
    {
        match only_word(self.text, name) {
            Some(word) => self.target_by(alloc, number, name, &[word], context),
            None => self.target_of_words(alloc, number, name, context),
        }
    }

    /// The same of a name of any number of words.
    fn target_of_words(
        self,
        alloc: Global,
        number: usize,
        name: &OptionName,
        context: Context,
    ) -> Result<Option<DeclaredPlace>, AllocError>
        requires links { LinksOptions self.files.names.now self.file }
        requires clear { IsClear self.files.names.now context }
        ensures { IfOk result (λ found. MatchOption found ((at : DeclaredPlace) → NamesIn self.entry.files.names.now
            self.entry.files.known.now self.entry.file self.entry.text.now self.entry.option.now number name.now
            context at → ⊥)
            (NamesIn self.entry.files.names.now self.entry.files.known.now self.entry.file
            self.entry.text.now self.entry.option.now number name.now context)) }
    {
        match words_of(alloc, self.text, name)? {
            Some(words) => self.target_by(alloc, number, name, words.as_slice(), context),
            None => Ok(None),
        }
    }

    /// The same by the words of the name.
    fn target_by(
        self,
        alloc: Global,
        number: usize,
        name: &OptionName,
        words: &[&str],
        context: Context,
    ) -> Result<Option<DeclaredPlace>, AllocError>
        requires links { LinksOptions self.files.names.now self.file }
        requires clear { IsClear self.files.names.now context }
        requires words { HasWords self.text.now name.now (map (λ (word : Bor (List ℕ)). word.now) words.now) }
        ensures { IfOk result (λ found. MatchOption found ((at : DeclaredPlace) → NamesIn self.entry.files.names.now
            self.entry.files.known.now self.entry.file self.entry.text.now self.entry.option.now number name.now
            context at → ⊥)
            (NamesIn self.entry.files.names.now self.entry.files.known.now self.entry.file
            self.entry.text.now self.entry.option.now number name.now context)) }
    {
        match name.role {
            OptionRole::Field => self.plain_target(alloc, number, name, words, context),
            OptionRole::Extension => self.extension_target(alloc, number, name, words, context),
            OptionRole::Message => self.packed_target(alloc, number, name, words, context),
            OptionRole::Elsewhere => Ok(None),
            OptionRole::Value => self.value_target(alloc, number, name, words, context),
        }
    }

    /// The same of a plain name.
    fn plain_target(
        self,
        alloc: Global,
        number: usize,
        name: &OptionName,
        words: &[&str],
        context: Context,
    ) -> Result<Option<DeclaredPlace>, AllocError>
        requires links { LinksOptions self.files.names.now self.file }
        requires clear { IsClear self.files.names.now context }
        requires words { HasWords self.text.now name.now (map (λ (word : Bor (List ℕ)). word.now) words.now) }
        ensures { IfOk result (λ found. MatchOption found ((at : DeclaredPlace) → NamesAs self.entry.files.names.now
            self.entry.files.known.now self.entry.file self.entry.text.now self.entry.option.now number name.now
            role.Field context at → ⊥)
            (NamesAs self.entry.files.names.now self.entry.files.known.now self.entry.file
            self.entry.text.now self.entry.option.now number name.now role.Field context)) }
    {
        match words {
            [] => Ok(None),
            [word] => self.own_field(alloc, number, word, context),
            [_, _, ..] => Ok(None),
        }
    }

    /// The same of a name in parentheses or in brackets.
    fn extension_target(
        self,
        alloc: Global,
        number: usize,
        name: &OptionName,
        words: &[&str],
        context: Context,
    ) -> Result<Option<DeclaredPlace>, AllocError>
        requires file { self.file < length self.files.names.now }
        requires clear { IsClear self.files.names.now context }
        requires words { HasWords self.text.now name.now (map (λ (word : Bor (List ℕ)). word.now) words.now) }
        ensures { IfOk result (λ found. MatchOption found ((at : DeclaredPlace) → NamesAs self.entry.files.names.now
            self.entry.files.known.now self.entry.file self.entry.text.now self.entry.option.now number name.now
            role.Extension context at → ⊥)
            (NamesAs self.entry.files.names.now self.entry.files.known.now self.entry.file
            self.entry.text.now self.entry.option.now number name.now role.Extension context)) }
    {
        match self.sought_name(alloc, number, name, words, context)? {
            Some(full_name) => self.named_by(alloc, number, full_name.as_str(), context),
            None => Ok(None),
        }
    }

    /// The same of the name of a message that is packed.
    fn packed_target(
        self,
        alloc: Global,
        number: usize,
        name: &OptionName,
        words: &[&str],
        context: Context,
    ) -> Result<Option<DeclaredPlace>, AllocError>
        requires file { self.file < length self.files.names.now }
        requires clear { IsClear self.files.names.now context }
        requires words { HasWords self.text.now name.now (map (λ (word : Bor (List ℕ)). word.now) words.now) }
        ensures { IfOk result (λ found. MatchOption found ((at : DeclaredPlace) → NamesAs self.entry.files.names.now
            self.entry.files.known.now self.entry.file self.entry.text.now self.entry.option.now number name.now
            role.Message context at → ⊥)
            (NamesAs self.entry.files.names.now self.entry.files.known.now self.entry.file
            self.entry.text.now self.entry.option.now number name.now role.Message context)) }
    {
        match context {
            Context::Message(any) => self.packed(alloc, any, words),
            Context::Options => Ok(None),
            Context::Entries(_) => Ok(None),
            Context::Enum(_) => Ok(None),
            Context::Scalar => Ok(None),
            Context::Untold => Ok(None),
            Context::Skipped => Ok(None),
        }
    }

    /// The same of a name as a value.
    fn value_target(
        self,
        alloc: Global,
        number: usize,
        name: &OptionName,
        words: &[&str],
        context: Context,
    ) -> Result<Option<DeclaredPlace>, AllocError>
        requires clear { IsClear self.files.names.now context }
        requires words { HasWords self.text.now name.now (map (λ (word : Bor (List ℕ)). word.now) words.now) }
        ensures { IfOk result (λ found. MatchOption found ((at : DeclaredPlace) → NamesAs self.entry.files.names.now
            self.entry.files.known.now self.entry.file self.entry.text.now self.entry.option.now number name.now
            role.Value context at → ⊥)
            (NamesAs self.entry.files.names.now self.entry.files.known.now self.entry.file
            self.entry.text.now self.entry.option.now number name.now role.Value context)) }
    {
        match context {
            Context::Enum(type_place) => self.value_by(alloc, type_place, words),
            Context::Options => Ok(None),
            Context::Message(_) => Ok(None),
            Context::Entries(_) => Ok(None),
            Context::Scalar => Ok(None),
            Context::Untold => Ok(None),
            Context::Skipped => Ok(None),
        }
    }
}

/// What is given by the name with a number.
fn given_at(given: &[Option<Context>], number: usize) -> Option<Context>
    ensures { MatchOption result
        ((context : Context) → slice_get given.now number ≡ Some (Some context) → ⊥)
        (λ context. slice_get given.now number ≡ Some (Some context)) }
{
    match given_with(given, number) {
        Some(found) => found,
        None => None,
    }
}

/// What there is with a number.
fn given_with(given: &[Option<Context>], number: usize) -> Option<Option<Context>>
    ensures { result ≡ slice_get given.now number }
{
    given.get(number).copied()
}
