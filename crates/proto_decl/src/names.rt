//! Names of the text, and in scopes.

ghost use Rattle.std.specs.Prelude.{◌≡◌, IfOk};
ghost use Rattle.proto_lex.specs.Lexed.{IsPart, part_of};
ghost use Rattle.proto_decl.specs.Names.{qualified, small_letters};

use basics::OwnedText;
use proto_lex::Span;
use std::alloc::{AllocError, Global};

/// What is at a span of a text.
pub(crate) fn spelling_at<'a>(text: &'a str, span: Span) -> &'a str
    requires { IsPart text.now span }
    ensures { result.now ≡ part_of text.now span }
{
    &text[span.start as usize..span.end as usize]
}

/// The full name of a name in the scope with this full name.
pub(crate) fn qualified(alloc: Global, scope: &str, name: &str) -> Result<OwnedText, AllocError>
    ensures { IfOk result (λ full. full ≡ qualified scope.now name.now) }
{
    if scope.is_empty() {
        return OwnedText::copy_of(alloc, name);
    }
    let length = scope.len().saturating_add(name.len()).saturating_add(1);
    let mut full = String::with_capacity(alloc, length)?;
    full.push_str(scope)?;
    full.push_str(".")?;
    full.push_str(name)?;
    Ok(OwnedText::from_string(full))
}

/// The name with small letters for its capitals A to Z.
pub(crate) fn small_letters(alloc: Global, name: &str) -> Result<OwnedText, AllocError>
    ensures { IfOk result (λ small. small ≡ small_letters name.now) }
{
    Ok(OwnedText::from_string(name.to_ascii_lowercase(alloc)?))
}
