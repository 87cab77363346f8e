//! What a file imports.

ghost use Rattle.std.specs.Prelude.{◌≡◌, All, IfOk};
ghost use Rattle.proto_lex.specs.Lexed.{part_of};
ghost use Rattle.proto_parse.specs.Terminal.{between_quotes};
ghost use Rattle.proto_decl.specs.Imports as spec;

use crate::names::spelling_at;
use basics::{KeptText, OwnedText, Sequence};
use proto_lex::Span;
use proto_parse::{Import, ImportKind};
use std::alloc::{AllocError, Global};

/// An import of a file.
#[derive(Debug, Drop)]
pub struct Imported<'t> {
    /// What the literals spell when joined, without their quotes.
    pub path: KeptText<'t>,
    /// Whether it is public, weak or neither.
    pub kind: ImportKind,
    /// From the start of the first literal to the end of the last one.
    pub span: Span,
}

/// Where the last of the spans ends.
pub(crate) fn end_of(spans: &[Span]) -> u32
    ensures { result ≡ spec.end_of spans.now }
{
    match spans {
        [] => 0,
        [span] => span.end,
        [_, others @ ..] => end_of(others),
    }
}

/// Where the first of the spans starts.
pub(crate) fn start_of(spans: &[Span]) -> u32
    ensures { result ≡ spec.start_of spans.now }
{
    match spans {
        [] => 0,
        [span, ..] => span.start,
    }
}

/// From the start of the first span to the end of the last one.
fn whole_span(spans: &[Span]) -> Span
    ensures { result ≡ spec.whole_span spans.now }
{
    Span {
        start: start_of(spans),
        end: end_of(spans),
    }
}

/// What is between a string literal's quotes.
fn between_quotes<'a>(text: &'a str, literal: Span) -> &'a str
    requires { spec.IsLiteral text.now literal }
    ensures { result.now ≡ between_quotes (part_of text.now literal) }
{
    let spelling = spelling_at(text, literal);
    &spelling[1..spelling.len() - 1]
}

/// What string literals spell when joined, without their quotes.
fn joined_literals(alloc: Global, text: &str, literals: &[Span]) -> Result<OwnedText, AllocError>
    requires { All (spec.IsLiteral text.now) literals.now }
    ensures { IfOk result (λ path. path ≡ spec.joined_literals text.now literals.now) }
{
    let mut path = String::new(alloc);
    for literal in literals {
        path.push_str(between_quotes(text, *literal))?;
    }
    Ok(OwnedText::from_string(path))
}

/// The path that string literals spell: one of them has it whole.
fn path_of<'t>(alloc: Global, text: &'t str, literals: &[Span]) -> Result<KeptText<'t>, AllocError>
    requires { All (spec.IsLiteral text.now) literals.now }
    ensures { IfOk result (λ path. path ≡ spec.joined_literals text.now literals.now) }
{
    match literals {
        [literal] => Ok(KeptText::borrowed(between_quotes(text, *literal))),
        _ => KeptText::owned(alloc, joined_literals(alloc, text, literals)?),
    }
}

/// What an import imports.
fn imported_by<'t>(
    alloc: Global,
    text: &'t str,
    import: &Import,
) -> Result<Imported<'t>, AllocError>
    requires { All (spec.IsLiteral text.now) import.now.literals }
    ensures { IfOk result (λ imported. imported ≡ spec.imported_by text.now import.now) }
{
    let literals = import.literals.as_slice();
    Ok(Imported {
        path: path_of(alloc, text, literals)?,
        kind: import.kind,
        span: whole_span(literals),
    })
}

/// What imports import, in order.
pub(crate) fn imports_of<'t>(
    alloc: Global,
    text: &'t str,
    imports: &[Import],
) -> Result<Sequence<Imported<'t>>, AllocError>
    requires { All (λ import. All (spec.IsLiteral text.now) import.literals) imports.now }
    ensures { IfOk result (λ imported. imported ≡ spec.imports_of text.now imports.now) }
{
    let mut imported = Vec::with_capacity(alloc, imports.len())?;
    for import in imports {
        imported.push(imported_by(alloc, text, import)?)?;
    }
    Ok(Sequence::from_vec(imported))
}
