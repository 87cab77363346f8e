//! The names of fields in a message in an option's value (Text Format Language Specification, "Field names").

ghost use Rattle.std.specs.Prelude.{◌≡◌};
ghost use Rattle.proto_grammar.specs.Gives.{Gives};
ghost use Rattle.proto_grammar.specs.declared.dialect.CustomOptions.TheVariants.{Skip};
ghost use Rattle.proto_options.specs.Grammar.Aggregates.{ends_domain, is_own_domain, is_known_domain, packed_role};
ghost use Rattle.proto_options.specs.Grammar.Aggregates.{begins_value};
ghost use Rattle.proto_options.specs.Reading.Aggregates.{extension_end_at, packed_end_at, bracketed_at, is_memory};
ghost use Rattle.proto_options.specs.Reading.Aggregates.{bracket_begin_at, word_begin_at, begin_at};

use crate::cursor::Cursor;
use crate::names::{FieldName, OptionRole, one_component};
use crate::odd::is_message_next;
use crate::passing::dotted_name;
use basics::Sequence;
use proto_grammar::SyntaxFault;
use proto_lex::{Span, TokenKind};
use std::alloc::Global;

/// What is behind the first name in brackets, of an extension.
#[tactic(auto, unfolding(crate::specs::Reading::Aggregates::extension_end_at))]
fn extension_end(
    cursor: &mut Cursor<'_>,
    components: Sequence<Span>,
) -> Result<FieldName, SyntaxFault>
    ensures { Gives Skip (λ x. x) cursor.new result (extension_end_at components cursor.old) }
{
    cursor.token(TokenKind::CloseBracket)?;
    Ok(FieldName {
        role: OptionRole::Extension,
        components,
    })
}

/// Whether the end of a domain that `protoc` knows is next, with the `/` behind it.
fn ends_domain(cursor: &Cursor<'_>) -> bool
    ensures { result ≡ ends_domain cursor.now.left }
{
    cursor.is_at_word("com") && cursor.is_before(TokenKind::Slash)
}

/// Whether what such a domain has behind its first dot is next.
fn is_own_domain(cursor: &Cursor<'_>) -> bool
    ensures { result ≡ is_own_domain cursor.now.left }
{
    (cursor.is_at_word("googleapis") || cursor.is_at_word("googleprod"))
        && ends_domain(&cursor.behind().behind())
}

/// Whether a domain is next by which `protoc` finds what is packed, with the `/` behind it.
fn is_known_domain(cursor: &Cursor<'_>) -> bool
    ensures { result ≡ is_known_domain cursor.now.left }
{
    cursor.is_at_word("type") && is_own_domain(&cursor.behind().behind())
}

/// What a name may name behind the domain that is next.
fn packed_role(domain: &Cursor<'_>) -> OptionRole
    ensures { result ≡ packed_role domain.now.left }
{
    if is_known_domain(domain) {
        return OptionRole::Message;
    }
    OptionRole::Elsewhere
}

/// What is behind a domain in brackets: `/` and a message's name, which may name this.
#[tactic(auto, unfolding(crate::specs::Reading::Aggregates::packed_end_at))]
fn packed_end(
    cursor: &mut Cursor<'_>,
    alloc: Global,
    role: OptionRole,
) -> Result<FieldName, SyntaxFault>
    ensures { Gives Skip (λ x. x) cursor.new result (packed_end_at role cursor.old) }
{
    cursor.token(TokenKind::Slash)?;
    let components = dotted_name(cursor, alloc)?;
    cursor.token(TokenKind::CloseBracket)?;
    Ok(FieldName { role, components })
}

/// The name of an extension or of a packed message, in brackets.
#[tactic(auto, unfolding(crate::specs::Reading::Aggregates::bracketed_at))]
fn bracketed(cursor: &mut Cursor<'_>, alloc: Global) -> Result<FieldName, SyntaxFault>
    ensures { Gives Skip (λ x. x) cursor.new result (bracketed_at cursor.old) }
{
    cursor.token(TokenKind::OpenBracket)?;
    let first = cursor.place();
    let components = dotted_name(cursor, alloc)?;
    if cursor.is_at(TokenKind::Slash) {
        return packed_end(cursor, alloc, packed_role(&first));
    }
    extension_end(cursor, components)
}

/// Whether something of a field's value is next.
fn begins_value(cursor: &Cursor<'_>) -> bool
    ensures { result ≡ begins_value cursor.now.left }
{
    cursor.is_at(TokenKind::Colon)
        || (cursor.is_at(TokenKind::OpenBracket) || is_message_next(cursor))
}

/// Whether memory ran out.
fn is_memory(fault: &SyntaxFault) -> bool
    ensures { result ≡ is_memory fault.now }
{
    matches!(fault, SyntaxFault::Memory)
}

/// The name in brackets of a field that begins here. If none does, nothing is taken.
fn bracket_begin(cursor: &mut Cursor<'_>, alloc: Global) -> Result<Option<FieldName>, SyntaxFault>
    ensures { Gives Skip (λ x. x) cursor.new result (bracket_begin_at cursor.old) }
{
    let start = cursor.place();
    match bracketed(cursor, alloc) {
        Ok(name) => {
            if begins_value(cursor) {
                return Ok(Some(name));
            }
            *cursor = start;
            Ok(None)
        }
        Err(fault) => {
            if is_memory(&fault) {
                return Err(fault);
            }
            *cursor = start;
            Ok(None)
        }
    }
}

/// The word that a field begins with. If none does, nothing is taken.
#[tactic(auto, unfolding(crate::specs::Reading::Aggregates::word_begin_at))]
fn word_begin(cursor: &mut Cursor<'_>, alloc: Global) -> Result<Option<FieldName>, SyntaxFault>
    ensures { Gives Skip (λ x. x) cursor.new result (word_begin_at cursor.old) }
{
    if begins_value(&cursor.behind()) {
        let word = cursor.token(TokenKind::Identifier)?;
        return Ok(Some(FieldName {
            role: OptionRole::Field,
            components: one_component(alloc, word)?,
        }));
    }
    Ok(None)
}

/// The name of a field that begins here. If none does, nothing is taken.
#[tactic(auto, unfolding(crate::specs::Reading::Aggregates::begin_at))]
pub(crate) fn begin(
    cursor: &mut Cursor<'_>,
    alloc: Global,
) -> Result<Option<FieldName>, SyntaxFault>
    ensures { Gives Skip (λ x. x) cursor.new result (begin_at cursor.old) }
{
    if cursor.is_at(TokenKind::OpenBracket) {
        return bracket_begin(cursor, alloc);
    }
    if cursor.is_at(TokenKind::Identifier) {
        return word_begin(cursor, alloc);
    }
    Ok(None)
}
