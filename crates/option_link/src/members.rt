//! Fields of messages by their simple names.

ghost use Rattle.std.specs.Prelude.{◌≡◌, ◌≢◌, ◌↔◌, Bool, None, true, IsTrue, IfOk, IfSome, MatchOption};
ghost use Rattle.std.specs.String.{string_bytes};
ghost use Rattle.proto_decl.specs.Declares.{simple_name};
ghost use Rattle.proto_decl.specs.declared.declaration.Declaration.{Declaration};
ghost use Rattle.proto_options.specs.declared.fields.FieldFact.{FieldFact};
ghost use Rattle.proto_options.specs.declared.fields.FieldKind.TheVariants as kinds;
ghost use Rattle.proto_visibility.specs.Reaches.{LinksOptions};
ghost use Rattle.option_link.specs.declared.place.DeclaredPlace.{DeclaredPlace};
ghost use Rattle.option_link.specs.declared.contexts.Context.TheVariants as inside;
ghost use Rattle.option_link.specs.Places.{Stands};
ghost use Rattle.option_link.specs.Fields.{IsField};
ghost use Rattle.option_link.specs.Tables.{IsClear};
ghost use Rattle.option_link.specs.Typed.{IsMessageAt};
ghost use Rattle.option_link.specs.Found.{IsFieldIn, IsMemberHere, IsMemberNamed, IsMemberOf};

use crate::contexts::Context;
use crate::fields::KnownFiles;
use crate::lookup::under;
use crate::naming::Asked;
use crate::place::DeclaredPlace;
use crate::searches::if_same;
use crate::words::is_text;
use proto_decl::Declaration;
use proto_options::{FieldFact, FieldKind};
use std::alloc::{AllocError, Global};

/// The text of a declaration's full name.
pub(crate) fn full_name_of(
    alloc: Global,
    declaration: &Declaration<'_>,
) -> Result<String, AllocError>
    ensures { IfOk result (λ text. string_bytes text ≡ declaration.now.full_name) }
{
    let text = declaration.full_name().to_text(alloc)?;
    Ok(text.into_string())
}

/// Whether a field is a group.
fn is_group(kind: FieldKind) -> bool
    ensures { IsTrue result ↔ (kind ≡ kinds.Group) }
{
    match kind {
        FieldKind::Group => true,
        FieldKind::Scalar => false,
        FieldKind::Named(_) => false,
        FieldKind::Map(_) => false,
    }
}

/// Whether a field is none of an extend, and in braces no group.
fn is_plain(fact: FieldFact, in_braces: bool) -> bool
    ensures { IsTrue result ↔ ((fact.extended ≡ None) × (in_braces ≡ true → fact.kind ≢ kinds.Group)) }
{
    match fact.extended {
        Some(_) => false,
        None => {
            if !in_braces {
                return true;
            }
            !is_group(fact.kind)
        }
    }
}

/// Whether a field is a group, and none of an extend.
fn is_own_group(fact: FieldFact) -> bool
    ensures { IsTrue result ↔ ((fact.extended ≡ None) × (fact.kind ≡ kinds.Group)) }
{
    match fact.extended {
        Some(_) => false,
        None => is_group(fact.kind),
    }
}

impl<'k, 'n, 'a, 't> Asked<'k, 'n, 'a, 't> {
    /// The field with this simple name of what it is looked up in; in braces, that of a group by the name of its
    /// message.
    pub(crate) fn own_field(
        self,
        alloc: Global,
        number: usize,
        word: &str,
        context: Context,
    ) -> Result<Option<DeclaredPlace>, AllocError>
        requires links { LinksOptions self.files.names.now self.file }
        requires clear { IsClear self.files.names.now context }
        ensures { IfOk result (λ found. MatchOption found ((field : DeclaredPlace)
            → IsFieldIn self.entry.files.names.now self.entry.files.known.now self.entry.file self.entry.option.now
            number word.now context field → ⊥)
            (IsFieldIn self.entry.files.names.now self.entry.files.known.now self.entry.file self.entry.option.now
            number word.now context)) }
    {
        match context {
            Context::Options => self.options_field(alloc, number, word),
            Context::Message(message) => {
                let in_braces = self.is_in_braces(number);
                self.files.member(alloc, message, word, in_braces)
            }
            Context::Entries(_) => Ok(None),
            Context::Enum(_) => Ok(None),
            Context::Scalar => Ok(None),
            Context::Untold => Ok(None),
            Context::Skipped => Ok(None),
        }
    }

    /// The same of the options of the element.
    fn options_field(
        self,
        alloc: Global,
        number: usize,
        word: &str,
    ) -> Result<Option<DeclaredPlace>, AllocError>
        requires { LinksOptions self.files.names.now self.file }
        ensures { IfOk result (λ found. MatchOption found ((field : DeclaredPlace)
            → IsFieldIn self.entry.files.names.now self.entry.files.known.now self.entry.file self.entry.option.now
            number word.now inside.Options field → ⊥)
            (IsFieldIn self.entry.files.names.now self.entry.files.known.now self.entry.file self.entry.option.now
            number word.now inside.Options)) }
    {
        match self.options_message(alloc)? {
            Some(message) => {
                let in_braces = self.is_in_braces(number);
                self.files.member(alloc, message, word, in_braces)
            }
            None => Ok(None),
        }
    }
}

impl<'k, 'n, 'a, 't> KnownFiles<'k, 'n, 'a, 't> {
    /// The field of a message with this simple name; in braces, that of a group by the name of its message.
    pub(crate) fn member(
        self,
        alloc: Global,
        message: DeclaredPlace,
        word: &str,
        in_braces: bool,
    ) -> Result<Option<DeclaredPlace>, AllocError>
        requires { IsClear self.names.now (inside.Message message) }
        ensures { IfOk result (λ found. MatchOption found ((field : DeclaredPlace)
            → IsMemberOf self.entry.names.now self.entry.known.now message word.now in_braces field → ⊥)
            (IsMemberOf self.entry.names.now self.entry.known.now message word.now in_braces)) }
    {
        match self.known_member(message, word) {
            Some(field) => Ok(Some(field)),
            None => self.member_anew(alloc, message, word, in_braces),
        }
    }

    /// The field of a message with this simple name, in braces or not, if it is known.
    fn known_member(self, message: DeclaredPlace, word: &str) -> Option<DeclaredPlace>
        ensures { IfSome result (λ field. (in_braces : Bool)
            → IsMemberOf self.entry.names.now self.entry.known.now message word.now in_braces field) }
    {
        match self.often.field_of(message, word) {
            Some(one) => self.if_called(one.field, word),
            None => None,
        }
    }

    /// A place, if what is declared there has this simple name.
    fn if_called(self, place: DeclaredPlace, word: &str) -> Option<DeclaredPlace>
        ensures { IfSome result (λ found. (found ≡ place) × (declaration : Declaration)
            × Stands self.entry.names.now place declaration × (simple_name declaration.path ≡ word.now)) }
    {
        match self.names.declaration_at(place) {
            Some(declared) => {
                if !is_text(declared.simple_name(), word) {
                    return None;
                }
                Some(place)
            }
            None => None,
        }
    }

    /// The same, found anew.
    fn member_anew(
        self,
        alloc: Global,
        message: DeclaredPlace,
        word: &str,
        in_braces: bool,
    ) -> Result<Option<DeclaredPlace>, AllocError>
        requires { IsClear self.names.now (inside.Message message) }
        ensures { IfOk result (λ found. MatchOption found ((field : DeclaredPlace)
            → IsMemberOf self.entry.names.now self.entry.known.now message word.now in_braces field → ⊥)
            (IsMemberOf self.entry.names.now self.entry.known.now message word.now in_braces)) }
    {
        match self.names.declaration_at(message) {
            Some(outer) => {
                let scope = full_name_of(alloc, outer)?;
                let name = under(alloc, scope.as_str(), word)?;
                Ok(self.member_named(message.file, name.as_str(), in_braces))
            }
            None => Ok(None),
        }
    }

    /// The same by its full name, of a file.
    fn member_named(self, file: usize, name: &str, in_braces: bool) -> Option<DeclaredPlace>
        ensures { MatchOption result ((field : DeclaredPlace)
            → IsMemberNamed self.entry.names.now self.entry.known.now file name.now in_braces field → ⊥)
            (IsMemberNamed self.entry.names.now self.entry.known.now file name.now in_braces) }
    {
        match self.names.only_in(file, name) {
            Some(place) => self.member_at(place, in_braces),
            None => None,
        }
    }

    /// The field that is found at a place: that which is declared there, or whose group's message is.
    fn member_at(self, place: DeclaredPlace, in_braces: bool) -> Option<DeclaredPlace>
        ensures { MatchOption result ((field : DeclaredPlace)
            → IsMemberHere self.entry.names.now self.entry.known.now place in_braces field → ⊥)
            (IsMemberHere self.entry.names.now self.entry.known.now place in_braces) }
    {
        if self.names.is_message_at(place) {
            return self.group_before(place, in_braces);
        }
        match self.fact_at(place) {
            Some(fact) => {
                if !is_plain(fact, in_braces) {
                    return None;
                }
                Some(place)
            }
            None => None,
        }
    }

    /// The field of the group whose message is here.
    fn group_before(self, place: DeclaredPlace, in_braces: bool) -> Option<DeclaredPlace>
        requires { IsMessageAt self.names.now place }
        ensures { MatchOption result ((field : DeclaredPlace)
            → IsMemberHere self.entry.names.now self.entry.known.now place in_braces field → ⊥)
            (IsMemberHere self.entry.names.now self.entry.known.now place in_braces) }
    {
        if !in_braces {
            return None;
        }
        if place.index == 0 {
            return None;
        }
        let field = DeclaredPlace {
            file: place.file,
            index: place.index - 1,
        };
        match self.fact_at(field) {
            Some(fact) => {
                if !is_own_group(fact) {
                    return None;
                }
                Some(field)
            }
            None => None,
        }
    }

    /// The message that has a field by its simple name, in braces or not, if there is one.
    pub(crate) fn naming_message(
        self,
        alloc: Global,
        field: DeclaredPlace,
        declared: &Declaration<'_>,
    ) -> Result<Option<DeclaredPlace>, AllocError>
        ensures { IfOk result (λ found. IfSome found (λ message. (in_braces : Bool)
            → IsMemberOf self.entry.names.now self.entry.known.now message (simple_name declared.now.path) in_braces
            field)) }
    {
        let full_name = full_name_of(alloc, declared)?;
        match self.message_around(field.file, full_name.as_str()) {
            Some(message) => self.if_named(alloc, message, declared.simple_name(), field),
            None => Ok(None),
        }
    }

    /// A message, if it has the field by this word, in braces or not.
    fn if_named(
        self,
        alloc: Global,
        message: DeclaredPlace,
        word: &str,
        field: DeclaredPlace,
    ) -> Result<Option<DeclaredPlace>, AllocError>
        requires { IsClear self.names.now (inside.Message message) }
        ensures { IfOk result (λ found. IfSome found (λ one. (in_braces : Bool)
            → IsMemberOf self.entry.names.now self.entry.known.now one word.now in_braces field)) }
    {
        let found = self.member(alloc, message, word, true)?;
        match if_same(found, field) {
            Some(_) => Ok(self.if_no_group(message, field)),
            None => Ok(None),
        }
    }

    /// A message, if the field is none of a group.
    fn if_no_group(self, message: DeclaredPlace, field: DeclaredPlace) -> Option<DeclaredPlace>
        ensures { IfSome result (λ one. (one ≡ message) × (fact : FieldFact)
            × IsField self.entry.names.now self.entry.known.now field fact × (fact.kind ≢ kinds.Group)) }
    {
        match self.fact_at(field) {
            Some(fact) => {
                if is_group(fact.kind) {
                    return None;
                }
                Some(message)
            }
            None => None,
        }
    }
}
