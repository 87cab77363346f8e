//! Fields by names in parentheses or in brackets.

ghost use Rattle.std.specs.Prelude.{ℕ, List, ⊤, ◌≡◌, ◌<◌, ◌↔◌, IsTrue, IfOk, MatchOption, length, map};
ghost use Rattle.std.specs.Option.{is_some};
ghost use Rattle.std.specs.String.{string_bytes};
ghost use denote.Ref.{Bor};
ghost use Rattle.proto_decl.specs.declared.declaration.Declaration.{Declaration};
ghost use Rattle.proto_decl.specs.declared.declaration.DeclarationKind.TheVariants.{Field};
ghost use Rattle.option_link.specs.declared.place.DeclaredPlace.{DeclaredPlace};
ghost use Rattle.option_link.specs.declared.contexts.Context.TheVariants as inside;
ghost use Rattle.option_link.specs.Places.{Stands, StandsAs};
ghost use Rattle.option_link.specs.Fields.{IsFieldOf};
ghost use Rattle.option_link.specs.Tables.{IsClear};
ghost use Rattle.option_link.specs.Contexts.{MayBeExtended};
ghost use Rattle.option_link.specs.Found.{IsExtendedName, IsExtensionNamed, IsNamedBy, IsScope, IsSetIn, IsSoughtName};
ghost use Rattle.option_link.specs.Found.{LacksSoughtName};

use crate::contexts::{Context, options_message};
use crate::naming::Asked;
use crate::place::{DeclaredPlace, is_same};
use crate::sought::Sought;
use basics::KeptText;
use proto_decl::{facts_are_filled, facts_in_order, scope_around};
use proto_options::OptionName;
use std::alloc::{AllocError, Global};

impl<'k, 'n, 'a, 't> Asked<'k, 'n, 'a, 't> {
    /// The full name of the messages that names in parentheses or in brackets extend.
    pub(crate) fn extended_name(
        self,
        alloc: Global,
        context: Context,
    ) -> Result<Option<KeptText<'static>>, AllocError>
        requires { IsClear self.files.names.now context }
        ensures named { IfOk result (λ found. MatchOption found ((message : DeclaredPlace)
            → MayBeExtended self.entry.files.names.now self.entry.option.now context message → ⊥)
            (IsExtendedName self.entry.files.names.now self.entry.option.now context)) }
        ensures some { IfOk result (λ found. MatchOption found ⊤ (λ name. 0 < length name)) }
    {
        match context {
            Context::Options => {
                let name = options_message(self.option.element);
                Ok(Some(KeptText::borrowed(name)))
            }
            Context::Message(message) => self.message_name(alloc, message),
            Context::Entries(_) => Ok(None),
            Context::Enum(_) => Ok(None),
            Context::Scalar => Ok(None),
            Context::Untold => Ok(None),
            Context::Skipped => Ok(None),
        }
    }

    /// The full name of a message that stands at a place.
    fn message_name(
        self,
        alloc: Global,
        message: DeclaredPlace,
    ) -> Result<Option<KeptText<'static>>, AllocError>
        requires { IsClear self.files.names.now (inside.Message message) }
        ensures named { IfOk result (λ found. MatchOption found ⊥ (λ name. (declaration : Declaration)
            × Stands self.entry.files.names.now message declaration
            × (declaration.full_name ≡ name))) }
        ensures some { IfOk result (λ found. MatchOption found ⊤ (λ name. 0 < length name)) }
    {
        self.files.names.linked();
        facts_are_filled();
        // From here on it is known that no full name is empty.
        match self.files.names.declaration_at(message) {
            Some(declared) => {
                let text = declared.full_name().to_text(alloc)?;
                let name = KeptText::owned(alloc, text)?;
                Ok(Some(name))
            }
            None => Ok(None),
        }
    }

    /// The scope from which a name is looked up that extends messages with this full name.
    pub(crate) fn scope_of<'s>(&'s self, number: usize, extended: &'s str) -> &'s str
        requires { 0 < length extended.now }
        ensures { IsScope self.now.option.now number extended.now result.now }
    {
        let in_braces = self.is_in_braces(number);
        if !in_braces {
            return self.option.scope.as_str();
        }
        match scope_around(extended) {
            Some(scope) => scope,
            None => "",
        }
    }

    /// The only full name that a name in parentheses or in brackets may have by its words.
    pub(crate) fn sought_name(
        self,
        alloc: Global,
        number: usize,
        name: &OptionName,
        words: &[&str],
        context: Context,
    ) -> Result<Option<String>, AllocError>
        requires file { self.file < length self.files.names.now }
        requires clear { IsClear self.files.names.now context }
        ensures { IfOk result (λ found. MatchOption found (LacksSoughtName self.entry.files.names.now self.entry.file
            self.entry.option.now number context (is_some name.now.name.leading_dot)
            (map (λ (word : Bor (List ℕ)). word.now) words.now))
            (λ full_name. IsSoughtName self.entry.files.names.now self.entry.file self.entry.option.now number context
            (is_some name.now.name.leading_dot) (map (λ (word : Bor (List ℕ)). word.now) words.now)
            (string_bytes full_name))) }
    {
        match self.extended_name(alloc, context)? {
            Some(extended) => {
                let scope = self.scope_of(number, extended.as_str());
                let has_dot = name.name.leading_dot.is_some();
                self.files
                    .names
                    .full_name_of(alloc, self.file, has_dot, words, scope)
            }
            None => Ok(None),
        }
    }

    /// What a name in parentheses or in brackets names by that full name.
    pub(crate) fn named_by(
        self,
        alloc: Global,
        number: usize,
        full_name: &str,
        context: Context,
    ) -> Result<Option<DeclaredPlace>, AllocError>
        requires { self.file < length self.files.names.now }
        ensures { IfOk result (λ found. MatchOption found ((field : DeclaredPlace)
            → IsNamedBy self.entry.files.names.now self.entry.files.known.now self.entry.file self.entry.option.now
            number context full_name.now field → ⊥)
            (IsNamedBy self.entry.files.names.now self.entry.files.known.now self.entry.file self.entry.option.now
            number context full_name.now)) }
    {
        match self.set_of(number, context) {
            Some(set) => self.named_in_set(alloc, number, set, full_name, context),
            None => self.extension_named(alloc, full_name, context),
        }
    }

    /// The same in a message set.
    fn named_in_set(
        self,
        alloc: Global,
        number: usize,
        set: DeclaredPlace,
        full_name: &str,
        context: Context,
    ) -> Result<Option<DeclaredPlace>, AllocError>
        requires file { self.file < length self.files.names.now }
        requires set { IsSetIn self.files.names.now self.files.known.now self.option.now number context set }
        ensures { IfOk result (λ found. MatchOption found ((field : DeclaredPlace)
            → IsNamedBy self.entry.files.names.now self.entry.files.known.now self.entry.file self.entry.option.now
            number context full_name.now field → ⊥)
            (IsNamedBy self.entry.files.names.now self.entry.files.known.now self.entry.file self.entry.option.now
            number context full_name.now)) }
    {
        let is_field = self.files.names.knows(self.file, full_name, Sought::AField);
        if is_field {
            return self.extension_named(alloc, full_name, context);
        }
        self.item_named(alloc, set, full_name)
    }

    /// The field with a full name, if it extends what it may.
    fn extension_named(
        self,
        alloc: Global,
        full_name: &str,
        context: Context,
    ) -> Result<Option<DeclaredPlace>, AllocError>
        requires { self.file < length self.files.names.now }
        ensures { IfOk result (λ found. MatchOption found ((field : DeclaredPlace)
            → IsExtensionNamed self.entry.files.names.now self.entry.files.known.now self.entry.file
            self.entry.option.now context full_name.now field → ⊥)
            (IsExtensionNamed self.entry.files.names.now self.entry.files.known.now self.entry.file
            self.entry.option.now context full_name.now)) }
    {
        match self.files.names.owned(self.file, full_name, Sought::AField) {
            Some(field) => self.if_extends(alloc, field, full_name, context),
            None => Ok(None),
        }
    }

    /// A field with a full name, if the message that it is of may be extended.
    fn if_extends(
        self,
        alloc: Global,
        field: DeclaredPlace,
        full_name: &str,
        context: Context,
    ) -> Result<Option<DeclaredPlace>, AllocError>
        requires { (declaration : Declaration) × StandsAs self.files.names.now Field field declaration
            × (declaration.full_name ≡ full_name.now) }
        ensures { IfOk result (λ found. MatchOption found ((message : DeclaredPlace)
            → MayBeExtended self.entry.files.names.now self.entry.option.now context message
            → IsFieldOf self.entry.files.names.now self.entry.files.known.now message field → ⊥)
            (λ one. (one ≡ field) × ((message : DeclaredPlace)
            × MayBeExtended self.entry.files.names.now self.entry.option.now context message
            × IsFieldOf self.entry.files.names.now self.entry.files.known.now message field))) }
    {
        self.files.names.linked();
        facts_in_order();
        facts_are_filled();
        // From here on it is known that a field is of one message at most.
        match self.files.message_of(alloc, field, full_name)? {
            Some(message) => {
                let may = self.may_be_extended(alloc, message, context)?;
                if !may {
                    return Ok(None);
                }
                Ok(Some(field))
            }
            None => Ok(None),
        }
    }

    /// Whether a message is one that names in parentheses or in brackets extend.
    fn may_be_extended(
        self,
        alloc: Global,
        message: DeclaredPlace,
        context: Context,
    ) -> Result<bool, AllocError>
        ensures { IfOk result (λ may. IsTrue may
            ↔ MayBeExtended self.entry.files.names.now self.entry.option.now context message) }
    {
        match context {
            Context::Options => self
                .files
                .names
                .is_options_message(alloc, self.option.element, message),
            Context::Message(other) => Ok(is_same(message, other)),
            Context::Entries(_) => Ok(false),
            Context::Enum(_) => Ok(false),
            Context::Scalar => Ok(false),
            Context::Untold => Ok(false),
            Context::Skipped => Ok(false),
        }
    }
}
