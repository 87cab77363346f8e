//! A file's package.

ghost use Rattle.std.specs.Prelude.{◌≡◌, ◌∷◌, map, All, IfOk};
ghost use Rattle.proto_lex.specs.Lexed.{IsPart, part_of};
ghost use Rattle.proto_decl.specs.Names.{dotted};
ghost use Rattle.proto_decl.specs.Declares as spec;

use crate::names::spelling_at;
use basics::OwnedText;
use proto_lex::Span;
use proto_parse::File;
use std::alloc::{AllocError, Global};

/// The spans of the components of a file's package; none if it has none.
pub(crate) fn package_spans(file: &File) -> &[Span]
    ensures { result.now ≡ spec.package_spans file.now.package_name }
{
    match &file.package_name {
        None => &[],
        Some(components) => components.as_slice(),
    }
}

/// The components at these spans, joined by dots.
fn joined_components(
    alloc: Global,
    text: &str,
    first: Span,
    others: &[Span],
) -> Result<OwnedText, AllocError>
    requires first { IsPart text.now first }
    requires others { All (IsPart text.now) others.now }
    ensures { IfOk result (λ joined. joined ≡ dotted (map (part_of text.now) (first ∷ others.now))) }
{
    let mut joined = String::from_str(alloc, spelling_at(text, first))?;
    for component in others {
        joined.push_str(".")?;
        joined.push_str(spelling_at(text, *component))?;
    }
    Ok(OwnedText::from_string(joined))
}

/// The full name of the package with these components; empty if there are none.
pub(crate) fn package_scope(
    alloc: Global,
    text: &str,
    components: &[Span],
) -> Result<OwnedText, AllocError>
    requires { All (IsPart text.now) components.now }
    ensures { IfOk result (λ scope. scope ≡ dotted (map (part_of text.now) components.now)) }
{
    match components {
        [] => Ok(OwnedText::new(alloc)),
        [first, others @ ..] => joined_components(alloc, text, *first, others),
    }
}
