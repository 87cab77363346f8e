//! Messages in an option's value (Text Format Language Specification).
//!
//! Each function takes one part, and adds the names that are in it. `around` is the number of the name that the part
//! belongs to. What is odd is read past: so the only fault that there can be is Memory.

ghost use Rattle.std.specs.Prelude.{◌≡◌};
ghost use Rattle.proto_grammar.specs.Gives.{Gives};
ghost use Rattle.proto_grammar.specs.declared.dialect.CustomOptions.TheVariants.{Skip};
ghost use Rattle.proto_grammar.specs.Terminal.{is_numeral};
ghost use Rattle.proto_grammar.specs.Reading.Repetition.{token_that};
ghost use Rattle.proto_options.specs.declared.names.OptionRole.TheVariants.{Value};
ghost use Rattle.proto_options.specs.Grammar.Aggregates.{list_is_over, is_over};
ghost use Rattle.proto_options.specs.Reading.Aggregates.{literal_at, literals_at, strings_at, word_at, odd_at};
ghost use Rattle.proto_options.specs.Reading.Aggregates.{element_at, elements_at, list_at, value_at, field_at, item_at};
ghost use Rattle.proto_options.specs.Reading.Aggregates.{optional_at, items_at, body_at, message_at};

use crate::cursor::Cursor;
use crate::field_names::begin;
use crate::names::{FieldName, OptionName, OptionRole, count, one_word, plain, push_name};
use crate::odd::{is_message_next, is_whole_word, pass_odd, pass_one};
use basics::Sequence;
use proto_grammar::SyntaxFault;
use proto_lex::{Span, TokenKind};
use std::alloc::Global;

/// How many braces may be inside one another in an option's value, `<` and `>` among them. What is deeper is read past,
/// and nothing in it is named.
pub const MAX_AGGREGATE_DEPTH: usize = 64;

/// An identifier, as a name of this role.
#[tactic(auto, unfolding(crate::specs::Reading::Aggregates::word_at))]
pub(crate) fn word(
    cursor: &mut Cursor<'_>,
    alloc: Global,
    role: OptionRole,
    around: Option<usize>,
    names: &mut Sequence<OptionName>,
) -> Result<(), SyntaxFault>
    ensures { Gives Skip (λ x. names.new) cursor.new result (word_at role around names.old cursor.old) }
{
    let word = cursor.token(TokenKind::Identifier)?;
    push_name(names, role, around, one_word(alloc, word)?)?;
    Ok(())
}

/// A number without a sign.
#[tactic(auto, using(crate::proofs::TokenLemmas::token_by))]
pub(crate) fn numeral(cursor: &mut Cursor<'_>) -> Result<Span, SyntaxFault>
    ensures { Gives Skip (λ x. x) cursor.new result (token_that is_numeral cursor.old) }
{
    let offset = cursor.offset();
    match cursor.next() {
        Some(lexeme) if lexeme.kind == TokenKind::Integer || lexeme.kind == TokenKind::Float => {
            Ok(lexeme.span)
        }
        _ => Err(SyntaxFault::Grammar(offset)),
    }
}

/// One string literal.
#[tactic(auto, unfolding(crate::specs::Reading::Aggregates::literal_at))]
fn literal(cursor: &mut Cursor<'_>) -> Result<(), SyntaxFault>
    ensures { Gives Skip (λ x. x) cursor.new result (literal_at cursor.old) }
{
    cursor.token(TokenKind::StringLiteral)?;
    Ok(())
}

/// String literals behind the first one.
fn literals(cursor: &mut Cursor<'_>) -> Result<(), SyntaxFault>
    ensures { Gives Skip (λ x. x) cursor.new result (literals_at cursor.old) }
{
    'literals: while cursor.is_at(TokenKind::StringLiteral) {
        literal(cursor)?;
    }
    Ok(())
}

/// String literals, at least one.
#[tactic(auto, unfolding(crate::specs::Reading::Aggregates::strings_at))]
pub(crate) fn strings(cursor: &mut Cursor<'_>) -> Result<(), SyntaxFault>
    ensures { Gives Skip (λ x. x) cursor.new result (strings_at cursor.old) }
{
    literal(cursor)?;
    literals(cursor)
}

/// An odd thing. It names nothing.
#[tactic(auto, unfolding(crate::specs::Reading::Aggregates::odd_at))]
fn odd(cursor: &mut Cursor<'_>, names: &mut Sequence<OptionName>) -> Result<(), SyntaxFault>
    ensures { Gives Skip (λ x. names.new) cursor.new result (odd_at names.old cursor.old) }
{
    if cursor.is_at_end() {
        return Err(SyntaxFault::Grammar(cursor.offset()));
    }
    pass_odd(cursor);
    Ok(())
}

/// A sign, if it is next.
#[tactic(auto, unfolding(crate::specs::Reading::Aggregates::optional_at))]
fn optional(cursor: &mut Cursor<'_>, sign: TokenKind) -> Result<(), SyntaxFault>
    ensures { Gives Skip (λ x. x) cursor.new result (optional_at sign cursor.old) }
{
    if cursor.is_at(sign) {
        cursor.advance();
    }
    Ok(())
}

/// A word as a value: it may name a value of an enum.
fn value_word(
    cursor: &mut Cursor<'_>,
    alloc: Global,
    around: Option<usize>,
    names: &mut Sequence<OptionName>,
) -> Result<(), SyntaxFault>
    ensures { Gives Skip (λ x. names.new) cursor.new result (word_at Value around names.old cursor.old) }
{
    word(cursor, alloc, OptionRole::Value, around, names)
}

/// An element of a list, or what is between two.
#[cycle(aggregates)]
#[tactic(auto, unfolding(crate::specs::Reading::Aggregates::element_at))]
fn element(
    cursor: &mut Cursor<'_>,
    alloc: Global,
    levels: usize,
    around: Option<usize>,
    names: &mut Sequence<OptionName>,
) -> Result<(), SyntaxFault>
    ensures { Gives Skip (λ x. names.new) cursor.new result
        (element_at (message_at levels) around names.old cursor.old) }
{
    if is_message_next(cursor) {
        return message(cursor, alloc, levels, around, names);
    }
    if is_whole_word(cursor) {
        return value_word(cursor, alloc, around, names);
    }
    odd(cursor, names)
}

/// Whether a list is over: at its `]`, and where what is around it is over.
fn list_is_over(cursor: &Cursor<'_>) -> bool
    ensures { result ≡ list_is_over cursor.now.left }
{
    cursor.is_at(TokenKind::CloseBracket)
        || (cursor.is_at(TokenKind::CloseBrace) || cursor.is_at(TokenKind::Greater))
}

/// The elements of a list.
#[cycle(aggregates)]
fn elements(
    cursor: &mut Cursor<'_>,
    alloc: Global,
    levels: usize,
    around: Option<usize>,
    names: &mut Sequence<OptionName>,
) -> Result<(), SyntaxFault>
    ensures { Gives Skip (λ x. names.new) cursor.new result
        (elements_at (message_at levels) around names.old cursor.old) }
{
    'elements: while !list_is_over(cursor) {
        element(cursor, alloc, levels, around, names)?;
    }
    Ok(())
}

/// A list in brackets.
#[cycle(aggregates)]
#[tactic(auto, unfolding(crate::specs::Reading::Aggregates::list_at))]
fn list(
    cursor: &mut Cursor<'_>,
    alloc: Global,
    levels: usize,
    around: Option<usize>,
    names: &mut Sequence<OptionName>,
) -> Result<(), SyntaxFault>
    ensures { Gives Skip (λ x. names.new) cursor.new result
        (list_at (message_at levels) around names.old cursor.old) }
{
    cursor.token(TokenKind::OpenBracket)?;
    elements(cursor, alloc, levels, around, names)?;
    optional(cursor, TokenKind::CloseBracket)
}

/// What is given to a field. An odd value isn't taken here: it is read past as odd things are.
#[cycle(aggregates)]
#[tactic(auto, unfolding(crate::specs::Reading::Aggregates::value_at))]
fn value(
    cursor: &mut Cursor<'_>,
    alloc: Global,
    levels: usize,
    around: Option<usize>,
    names: &mut Sequence<OptionName>,
) -> Result<(), SyntaxFault>
    ensures { Gives Skip (λ x. names.new) cursor.new result
        (value_at (message_at levels) around names.old cursor.old) }
{
    if is_message_next(cursor) {
        return message(cursor, alloc, levels, around, names);
    }
    if cursor.is_at(TokenKind::OpenBracket) {
        return list(cursor, alloc, levels, around, names);
    }
    if is_whole_word(cursor) {
        return value_word(cursor, alloc, around, names);
    }
    Ok(())
}

/// What is behind a field's name, with the name.
#[cycle(aggregates)]
#[tactic(auto, unfolding(crate::specs::Reading::Aggregates::field_at))]
fn field(
    cursor: &mut Cursor<'_>,
    alloc: Global,
    levels: usize,
    around: Option<usize>,
    name: FieldName,
    names: &mut Sequence<OptionName>,
) -> Result<(), SyntaxFault>
    ensures { Gives Skip (λ x. names.new) cursor.new result
        (field_at (message_at levels) around name names.old cursor.old) }
{
    let number = count(names);
    optional(cursor, TokenKind::Colon)?;
    push_name(names, name.role, around, plain(name.components))?;
    value(cursor, alloc, levels, Some(number), names)
}

/// A field of a message with its value, or else an odd thing.
#[cycle(aggregates)]
#[tactic(auto, unfolding(crate::specs::Reading::Aggregates::item_at))]
fn item(
    cursor: &mut Cursor<'_>,
    alloc: Global,
    levels: usize,
    around: Option<usize>,
    names: &mut Sequence<OptionName>,
) -> Result<(), SyntaxFault>
    ensures { Gives Skip (λ x. names.new) cursor.new result
        (item_at (message_at levels) around names.old cursor.old) }
{
    match begin(cursor, alloc)? {
        Some(name) => field(cursor, alloc, levels, around, name, names),
        None => odd(cursor, names),
    }
}

/// Whether a message is over: at what closes it, and at the `}` that closes what is around it.
fn is_over(cursor: &Cursor<'_>, closing: TokenKind) -> bool
    ensures { result ≡ is_over closing cursor.now.left }
{
    cursor.is_at(closing) || cursor.is_at(TokenKind::CloseBrace)
}

/// What is in a message.
#[cycle(aggregates)]
fn items(
    cursor: &mut Cursor<'_>,
    alloc: Global,
    levels: usize,
    closing: TokenKind,
    around: Option<usize>,
    names: &mut Sequence<OptionName>,
) -> Result<(), SyntaxFault>
    ensures { Gives Skip (λ x. names.new) cursor.new result
        (items_at (message_at levels) closing around names.old cursor.old) }
{
    'items: while !is_over(cursor, closing) {
        item(cursor, alloc, levels, around, names)?;
    }
    Ok(())
}

/// What is in a message, and what closes it.
#[cycle(aggregates)]
#[tactic(auto, unfolding(crate::specs::Reading::Aggregates::body_at))]
fn body(
    cursor: &mut Cursor<'_>,
    alloc: Global,
    levels: usize,
    closing: TokenKind,
    around: Option<usize>,
    names: &mut Sequence<OptionName>,
) -> Result<(), SyntaxFault>
    ensures { Gives Skip (λ x. names.new) cursor.new result
        (body_at (message_at levels) closing around names.old cursor.old) }
{
    items(cursor, alloc, levels, closing, around, names)?;
    optional(cursor, closing)
}

/// A message in braces, or in `<` and `>`. At most this many are inside one another in it, itself among them: what is
/// deeper is read past.
#[cycle(aggregates)]
#[tactic(auto, using(crate::proofs::LevelLemmas::no_level, crate::proofs::LevelLemmas::some_level))]
pub(crate) fn message(
    cursor: &mut Cursor<'_>,
    alloc: Global,
    levels: usize,
    around: Option<usize>,
    names: &mut Sequence<OptionName>,
) -> Result<(), SyntaxFault>
    ensures { Gives Skip (λ x. names.new) cursor.new result (message_at levels around names.old cursor.old) }
{
    if levels == 0 {
        pass_one(cursor);
        return Ok(());
    }
    if cursor.is_at(TokenKind::Less) {
        cursor.advance();
        return body(cursor, alloc, levels - 1, TokenKind::Greater, around, names);
    }
    cursor.token(TokenKind::OpenBrace)?;
    body(
        cursor,
        alloc,
        levels - 1,
        TokenKind::CloseBrace,
        around,
        names,
    )
}
