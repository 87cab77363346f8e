//! What names are looked up in that belong to others.

ghost use Rattle.std.specs.Prelude.{ℕ, ◌≡◌, ◌≢◌, ◌<◌, ◌↔◌, IsTrue, IfOk, MatchOption, length};
ghost use Rattle.std.specs.Option.{option_map};
ghost use Rattle.proto_options.specs.declared.names.OptionRole.TheVariants as role;
ghost use Rattle.proto_visibility.specs.Reaches.{LinksOptions};
ghost use Rattle.option_link.specs.declared.contexts.Context.{Context};
ghost use Rattle.option_link.specs.declared.contexts.Context.TheVariants as inside;
ghost use Rattle.option_link.specs.declared.place.DeclaredPlace.{DeclaredPlace};
ghost use Rattle.option_link.specs.Tables.{IsClear};
ghost use Rattle.option_link.specs.Places.{place_at};
ghost use Rattle.option_link.specs.Contexts.{Leads, NamesIn, PlaceGives, StandsIn};
ghost use Rattle.option_link.specs.OptionNames.{NeedsNoTarget};
ghost use Rattle.option_link.specs.Found.{IsDeclaredAt, IsDefaultGiven, IsEntryName, IsWithoutMessage, LeadsUnnamed};
ghost use Rattle.option_link.specs.Found.{NeedsNoneIn};

use crate::contexts::Context;
use crate::naming::{Asked, field_of, is_as};
use crate::place::DeclaredPlace;
use crate::searches::index_among;
use crate::words::is_word;
use proto_decl::{facts_are_filled, facts_in_order};
use proto_lex::Span;
use proto_options::{OptionName, OptionRole};
use std::alloc::{AllocError, Global};

/// Whether a name is in no parentheses and no brackets.
fn is_none_of_extension(name: &OptionName) -> bool
    ensures { IsTrue result ↔ (name.now.role ≢ role.Extension) }
{
    !is_as(name, OptionRole::Extension)
}

impl<'k, 'n, 'a, 't> Asked<'k, 'n, 'a, 't> {
    /// Whether a name that names nothing needs none, where it is looked up in this.
    pub(crate) fn needs_none(
        self,
        alloc: Global,
        number: usize,
        name: &OptionName,
        context: Option<Context>,
    ) -> Result<bool, AllocError>
        requires { LinksOptions self.files.names.now self.file }
        ensures { IfOk result (λ is. MatchOption context
            ((inner : Context) → StandsIn self.entry.files.names.now self.entry.files.known.now self.entry.file
            self.entry.text.now self.entry.option.now number inner → ⊥)
            (StandsIn self.entry.files.names.now self.entry.files.known.now self.entry.file self.entry.text.now
            self.entry.option.now number)
            → IsTrue is ↔ NeedsNoTarget self.entry.files.names.now self.entry.files.known.now self.entry.file
            self.entry.text.now self.entry.option.now number name.now) }
    {
        self.files.names.linked();
        facts_in_order();
        facts_are_filled();
        // From here on it is known that a name is looked up in one thing at most.
        match context {
            Some(inner) => self.needs_none_in(alloc, number, name, inner),
            None => Ok(false),
        }
    }

    /// The same where the name is looked up in something.
    fn needs_none_in(
        self,
        alloc: Global,
        number: usize,
        name: &OptionName,
        context: Context,
    ) -> Result<bool, AllocError>
        requires { LinksOptions self.files.names.now self.file }
        ensures { IfOk result (λ is. IsTrue is ↔ NeedsNoneIn self.entry.files.names.now
            self.entry.files.known.now self.entry.file self.entry.text.now self.entry.option.now number name.now
            context) }
    {
        match context {
            Context::Scalar => Ok(is_as(name, OptionRole::Value)),
            Context::Untold => Ok(is_none_of_extension(name)),
            Context::Options => self.is_without_message(alloc, name),
            Context::Entries(_) => Ok(self.is_entry(name)),
            Context::Message(message) => Ok(self.is_reserved(number, name, message)),
            Context::Skipped => Ok(true),
            Context::Enum(_) => Ok(false),
        }
    }

    /// Whether a name is a plain part of the element's options, of which there is no message.
    fn is_without_message(self, alloc: Global, name: &OptionName) -> Result<bool, AllocError>
        requires { LinksOptions self.files.names.now self.file }
        ensures { IfOk result (λ is. IsTrue is ↔ IsWithoutMessage self.entry.files.names.now self.entry.file
            self.entry.option.now name.now) }
    {
        if !is_as(name, OptionRole::Field) {
            return Ok(false);
        }
        self.files
            .names
            .lacks_message(alloc, self.file, self.option.element)
    }

    /// Whether a name is `key` or `value`.
    fn is_entry(self, name: &OptionName) -> bool
        ensures { IsTrue result ↔ IsEntryName self.entry.text.now name.now }
    {
        if !is_as(name, OptionRole::Field) {
            return false;
        }
        if is_word(self.text, name, "key") {
            return true;
        }
        is_word(self.text, name, "value")
    }

    /// What names are looked up in that belong to this one.
    pub(crate) fn gives(
        self,
        alloc: Global,
        number: usize,
        name: &OptionName,
        context: Context,
        target: Option<DeclaredPlace>,
    ) -> Result<Option<Context>, AllocError>
        requires { LinksOptions self.files.names.now self.file }
        ensures { IfOk result (λ found. MatchOption target
            ((at : DeclaredPlace) → NamesIn self.entry.files.names.now self.entry.files.known.now self.entry.file
            self.entry.text.now self.entry.option.now number name.now context at → ⊥)
            (NamesIn self.entry.files.names.now self.entry.files.known.now self.entry.file self.entry.text.now
            self.entry.option.now number name.now context)
            → MatchOption found ((inner : Context) → Leads self.entry.files.names.now self.entry.files.known.now
            self.entry.file self.entry.text.now self.entry.option.now number name.now context inner → ⊥)
            (λ inner. Leads self.entry.files.names.now self.entry.files.known.now self.entry.file
            self.entry.text.now self.entry.option.now number name.now context inner
            × IsClear self.entry.files.names.now inner)) }
    {
        match target {
            Some(place) => self.place_gives(alloc, name.role, place),
            None => self.unnamed_gives(alloc, number, name, context),
        }
    }

    /// What that gives which a name in this role names.
    fn place_gives(
        self,
        alloc: Global,
        role: OptionRole,
        place: DeclaredPlace,
    ) -> Result<Option<Context>, AllocError>
        ensures { IfOk result (λ found. MatchOption found
            ((inner : Context) → PlaceGives self.entry.files.names.now self.entry.files.known.now role place inner → ⊥)
            (PlaceGives self.entry.files.names.now self.entry.files.known.now role place)) }
    {
        match role {
            OptionRole::Field => self.files.field_gives(alloc, place),
            OptionRole::Extension => self.files.field_gives(alloc, place),
            OptionRole::Message => Ok(Some(Context::Message(place))),
            OptionRole::Elsewhere => Ok(None),
            OptionRole::Value => Ok(None),
        }
    }

    /// What a name gives that names nothing.
    fn unnamed_gives(
        self,
        alloc: Global,
        number: usize,
        name: &OptionName,
        context: Context,
    ) -> Result<Option<Context>, AllocError>
        requires { LinksOptions self.files.names.now self.file }
        ensures { IfOk result (λ found. MatchOption found ((inner : Context) → LeadsUnnamed self.entry.files.names.now
            self.entry.files.known.now self.entry.file self.entry.text.now self.entry.option.now number name.now context
            inner → ⊥)
            (LeadsUnnamed self.entry.files.names.now self.entry.files.known.now self.entry.file self.entry.text.now
            self.entry.option.now number name.now context)) }
    {
        match context {
            Context::Entries(map) => self.entry_gives(alloc, number, name, map),
            Context::Untold => self.untold_gives(alloc, number, name),
            Context::Options => self.options_give(alloc, number, name),
            Context::Message(message) => Ok(self.skipped_by(number, name, message)),
            Context::Skipped => Ok(Some(Context::Skipped)),
            Context::Enum(_) => Ok(None),
            Context::Scalar => Ok(None),
        }
    }

    /// What a plain name in a message gives that names nothing: what is given to it is read past, if the message
    /// reserves it.
    fn skipped_by(self, number: usize, name: &OptionName, message: DeclaredPlace) -> Option<Context>
        ensures { MatchOption result ((inner : Context) → LeadsUnnamed self.entry.files.names.now
            self.entry.files.known.now self.entry.file self.entry.text.now self.entry.option.now number name.now
            (inside.Message message) inner → ⊥)
            (LeadsUnnamed self.entry.files.names.now self.entry.files.known.now self.entry.file self.entry.text.now
            self.entry.option.now number name.now (inside.Message message)) }
    {
        if !self.is_reserved(number, name, message) {
            return None;
        }
        Some(Context::Skipped)
    }

    /// What a plain part of the element's options gives that names nothing: if there is no message of them, nobody
    /// tells of what is in it.
    fn options_give(
        self,
        alloc: Global,
        number: usize,
        name: &OptionName,
    ) -> Result<Option<Context>, AllocError>
        requires { LinksOptions self.files.names.now self.file }
        ensures { IfOk result (λ found. MatchOption found ((inner : Context) → LeadsUnnamed self.entry.files.names.now
            self.entry.files.known.now self.entry.file self.entry.text.now self.entry.option.now number name.now
            inside.Options inner → ⊥)
            (LeadsUnnamed self.entry.files.names.now self.entry.files.known.now self.entry.file self.entry.text.now
            self.entry.option.now number name.now inside.Options)) }
    {
        let is = self.is_without_message(alloc, name)?;
        if !is {
            return Ok(None);
        }
        Ok(Some(Context::Untold))
    }

    /// What `key` and `value` of the entries of a map give.
    fn entry_gives(
        self,
        alloc: Global,
        number: usize,
        name: &OptionName,
        map: DeclaredPlace,
    ) -> Result<Option<Context>, AllocError>
        ensures { IfOk result (λ found. MatchOption found ((inner : Context) → LeadsUnnamed self.entry.files.names.now
            self.entry.files.known.now self.entry.file self.entry.text.now self.entry.option.now number name.now
            (inside.Entries map) inner → ⊥)
            (LeadsUnnamed self.entry.files.names.now self.entry.files.known.now self.entry.file self.entry.text.now
            self.entry.option.now number name.now (inside.Entries map))) }
    {
        if !is_as(name, OptionRole::Field) {
            return Ok(None);
        }
        if is_word(self.text, name, "key") {
            return Ok(Some(Context::Scalar));
        }
        if !is_word(self.text, name, "value") {
            return Ok(None);
        }
        self.files.value_gives(alloc, map)
    }

    /// What the name of an option gives that nobody tells of: `default` what its field does.
    fn untold_gives(
        self,
        alloc: Global,
        number: usize,
        name: &OptionName,
    ) -> Result<Option<Context>, AllocError>
        requires { self.file < length self.files.names.now }
        ensures { IfOk result (λ found. MatchOption found ((inner : Context) → LeadsUnnamed self.entry.files.names.now
            self.entry.files.known.now self.entry.file self.entry.text.now self.entry.option.now number name.now
            inside.Untold inner → ⊥)
            (LeadsUnnamed self.entry.files.names.now self.entry.files.known.now self.entry.file self.entry.text.now
            self.entry.option.now number name.now inside.Untold)) }
    {
        if is_as(name, OptionRole::Extension) {
            return Ok(None);
        }
        match field_of(self.option.element) {
            Some(field) => {
                if !self.is_taken("default") {
                    return Ok(Some(Context::Untold));
                }
                self.field_given(alloc, field)
            }
            None => Ok(Some(Context::Untold)),
        }
    }

    /// What the field of the file gives whose name is at this place.
    fn field_given(self, alloc: Global, name: Span) -> Result<Option<Context>, AllocError>
        requires { self.file < length self.files.names.now }
        ensures { IfOk result (λ found. MatchOption found ((inner : Context)
            → IsDefaultGiven self.entry.files.names.now self.entry.files.known.now self.entry.file name inner → ⊥)
            (IsDefaultGiven self.entry.files.names.now self.entry.files.known.now self.entry.file name)) }
    {
        self.files.names.linked();
        facts_in_order();
        // From here on it is known that one declaration at most is named at a place.
        match self.declared_at(name) {
            Some(field) => self.files.field_gives(alloc, field),
            None => Ok(None),
        }
    }

    /// Where the file declares what is named at this place.
    fn declared_at(self, name: Span) -> Option<DeclaredPlace>
        requires { self.file < length self.files.names.now }
        ensures { MatchOption result
            ((at : DeclaredPlace) → IsDeclaredAt self.entry.files.names.now self.entry.file name at → ⊥)
            (IsDeclaredAt self.entry.files.names.now self.entry.file name) }
    {
        self.files.names.linked();
        facts_in_order();
        // From here on it is known that declared names are in order of place.
        match self.files.names.linker().facts_of(self.file) {
            Some(facts) => {
                let index = index_among(facts.declarations(), name);
                in_file(self.file, index)
            }
            None => None,
        }
    }
}

/// The place of the declaration with a number in a file.
fn in_file(file: usize, index: Option<usize>) -> Option<DeclaredPlace>
    ensures { result ≡ option_map (place_at file) index }
{
    match index {
        Some(index) => Some(DeclaredPlace { file, index }),
        None => None,
    }
}
