//! The names in an option.

ghost use Rattle.std.specs.Prelude.{◌≡◌, ◌++◌, ◌∷◌, [], IfOk, OnOk, length};
ghost use Rattle.proto_options.specs.Names.{named, last_number};
ghost use Rattle.proto_options.specs.Names as spec;

use basics::Sequence;
use proto_lex::Span;
use proto_parse::TypeName;
use std::alloc::{AllocError, Global};

/// What a name in an option may name.
#[derive(Clone, Copy, Debug, PartialEq, Eq)]
pub enum OptionRole {
    /// A field of a message, by its simple name.
    Field,
    /// A field that extends a message, in parentheses or in brackets: it is looked up in scopes.
    Extension,
    /// A message, in brackets behind a `/`: that of what is packed in a `google.protobuf.Any`.
    Message,
    /// The same behind a domain by which `protoc` finds no message: it names nothing.
    Elsewhere,
    /// A value of an enum.
    Value,
}

/// A name in an option, or in its value.
#[derive(Debug, Drop)]
pub struct OptionName {
    /// What it may name.
    pub role: OptionRole,
    /// The number, among the names of the same option, of the one in whose type this one is looked up: of a part of the
    /// option's name the part before, of a field in braces what the braces are of, of a value what it is given to. None
    /// for the first part, which is looked up in the message of the element's options.
    pub around: Option<usize>,
    /// The name. Of a field or a value that isn't in parentheses or brackets it has no leading dot.
    pub name: TypeName,
}

/// The names in an option, in order of place.
#[derive(Debug, Drop)]
pub struct Setting {
    /// How many of the names are the parts of the option's name. They come first.
    pub parts: usize,
    /// The parts of the option's name, and then the names in its value.
    pub names: Sequence<OptionName>,
}

/// A field's name in braces.
#[derive(Debug, Drop)]
pub(crate) struct FieldName {
    /// What it may name: a field, or in brackets an extension or a packed message.
    pub(crate) role: OptionRole,
    /// Its components.
    pub(crate) components: Sequence<Span>,
}

/// Adds a name at the end.
pub(crate) fn push_name(
    names: &mut Sequence<OptionName>,
    role: OptionRole,
    around: Option<usize>,
    name: TypeName,
) -> Result<(), AllocError>
    ensures { OnOk result (names.new ≡ names.old ++ named role around name ∷ []) }
{
    names.push(OptionName { role, around, name })?;
    Ok(())
}

/// The name of these components, without a leading dot.
pub(crate) fn plain(components: Sequence<Span>) -> TypeName
    ensures { result ≡ spec.plain components }
{
    TypeName {
        leading_dot: None,
        components,
    }
}

/// One component.
pub(crate) fn one_component(alloc: Global, word: Span) -> Result<Sequence<Span>, AllocError>
    ensures { IfOk result (λ components. components ≡ word ∷ []) }
{
    let mut components = Sequence::from_vec(Vec::with_capacity(alloc, 1)?);
    components.push(word)?;
    Ok(components)
}

/// The name of one component.
pub(crate) fn one_word(alloc: Global, word: Span) -> Result<TypeName, AllocError>
    ensures { IfOk result (λ name. name ≡ spec.one_word word) }
{
    Ok(plain(one_component(alloc, word)?))
}

/// How many names there are.
pub(crate) fn count(names: &Sequence<OptionName>) -> usize
    ensures { result ≡ length names.now }
{
    names.as_slice().len()
}

/// The number of the last name.
pub(crate) fn last_number(names: &Sequence<OptionName>) -> Option<usize>
    ensures { result ≡ last_number names.now }
{
    match names.as_slice() {
        [] => None,
        [_, others @ ..] => Some(others.len()),
    }
}
