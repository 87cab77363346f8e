//! Options: their names, and the names in their values.

ghost use Rattle.std.specs.Prelude.{◌≡◌, ◌≤◌};
ghost use Rattle.proto_grammar.specs.Gives.{Gives};
ghost use Rattle.proto_grammar.specs.declared.dialect.CustomOptions.TheVariants.{Skip};
ghost use Rattle.proto_grammar.specs.Terminal.{first_is, is_sign, is_number};
ghost use Rattle.proto_grammar.specs.Reading.Repetition.{token_that};
ghost use Rattle.proto_grammar.specs.View.{lexeme_view};
ghost use Rattle.proto_options.specs.Reading.Settings.{type_name_at, extension_at, part_at, dot_part_at, dot_parts_at};
ghost use Rattle.proto_options.specs.Reading.Settings.{option_name_at, name_value_at, signed_value_at, aggregate_at};
ghost use Rattle.proto_options.specs.Reading.Settings.{value_at, setting_at};

use crate::aggregates::{MAX_AGGREGATE_DEPTH, message, numeral, strings, word};
use crate::cursor::Cursor;
use crate::names::{OptionName, OptionRole, Setting, count, last_number, plain, push_name};
use crate::passing::dotted_name;
use basics::Sequence;
use proto_grammar::{Lexeme, SyntaxFault};
use proto_lex::{Span, TokenKind};
use proto_parse::TypeName;
use std::alloc::Global;

/// A name with or without a leading dot.
#[tactic(auto, unfolding(crate::specs::Reading::Settings::type_name_at))]
fn type_name(cursor: &mut Cursor<'_>, alloc: Global) -> Result<TypeName, SyntaxFault>
    ensures { Gives Skip (λ x. x) cursor.new result (type_name_at cursor.old) }
{
    if cursor.is_at(TokenKind::Dot) {
        let dot = cursor.token(TokenKind::Dot)?;
        let components = dotted_name(cursor, alloc)?;
        return Ok(TypeName {
            leading_dot: Some(dot),
            components,
        });
    }
    Ok(plain(dotted_name(cursor, alloc)?))
}

/// A part in parentheses.
#[tactic(auto, unfolding(crate::specs::Reading::Settings::extension_at))]
fn extension(
    cursor: &mut Cursor<'_>,
    alloc: Global,
    around: Option<usize>,
    names: &mut Sequence<OptionName>,
) -> Result<(), SyntaxFault>
    ensures { Gives Skip (λ x. names.new) cursor.new result (extension_at around names.old cursor.old) }
{
    cursor.token(TokenKind::OpenParenthesis)?;
    let name = type_name(cursor, alloc)?;
    cursor.token(TokenKind::CloseParenthesis)?;
    push_name(names, OptionRole::Extension, around, name)?;
    Ok(())
}

/// A part of an option's name.
#[tactic(auto, unfolding(crate::specs::Reading::Settings::part_at))]
fn part(
    cursor: &mut Cursor<'_>,
    alloc: Global,
    around: Option<usize>,
    names: &mut Sequence<OptionName>,
) -> Result<(), SyntaxFault>
    ensures { Gives Skip (λ x. names.new) cursor.new result (part_at around names.old cursor.old) }
{
    if cursor.is_at(TokenKind::OpenParenthesis) {
        return extension(cursor, alloc, around, names);
    }
    word(cursor, alloc, OptionRole::Field, around, names)
}

/// A `.` and a part, which is looked up in the type of the part before.
#[tactic(auto, unfolding(crate::specs::Reading::Settings::dot_part_at))]
fn dot_part(
    cursor: &mut Cursor<'_>,
    alloc: Global,
    names: &mut Sequence<OptionName>,
) -> Result<(), SyntaxFault>
    ensures { Gives Skip (λ x. names.new) cursor.new result (dot_part_at names.old cursor.old) }
{
    cursor.token(TokenKind::Dot)?;
    let around = last_number(names);
    part(cursor, alloc, around, names)
}

/// The parts behind the first one.
fn dot_parts(
    cursor: &mut Cursor<'_>,
    alloc: Global,
    names: &mut Sequence<OptionName>,
) -> Result<(), SyntaxFault>
    ensures { Gives Skip (λ x. names.new) cursor.new result (dot_parts_at names.old cursor.old) }
{
    'parts: while cursor.is_at(TokenKind::Dot) {
        dot_part(cursor, alloc, names)?;
    }
    Ok(())
}

/// For how many names an option has room from the start: two for a word and its value, else four.
fn room_for_names(cursor: &Cursor<'_>) -> usize
    ensures { (2 ≤ result) × (result ≤ 4) }
{
    if cursor.is_before(TokenKind::Equals) {
        return 2;
    }
    4
}

/// An option's name.
#[tactic(auto, unfolding(crate::specs::Reading::Settings::option_name_at))]
fn option_name(cursor: &mut Cursor<'_>, alloc: Global) -> Result<Sequence<OptionName>, SyntaxFault>
    ensures { Gives Skip (λ x. x) cursor.new result (option_name_at cursor.old) }
{
    let room = room_for_names(cursor);
    let mut names = Sequence::from_vec(Vec::with_capacity(alloc, room)?);
    part(cursor, alloc, None, &mut names)?;
    dot_parts(cursor, alloc, &mut names)?;
    Ok(names)
}

/// A name as a value.
#[tactic(auto, unfolding(crate::specs::Reading::Settings::name_value_at))]
fn name_value(
    cursor: &mut Cursor<'_>,
    alloc: Global,
    names: &mut Sequence<OptionName>,
) -> Result<(), SyntaxFault>
    ensures { Gives Skip (λ x. names.new) cursor.new result (name_value_at names.old cursor.old) }
{
    let around = last_number(names);
    let components = dotted_name(cursor, alloc)?;
    push_name(names, OptionRole::Value, around, plain(components))?;
    Ok(())
}

/// Whether the token is `-` or `+`.
fn is_sign(lexeme: Lexeme<'_>) -> bool
    ensures { result ≡ is_sign (lexeme_view lexeme.entry) }
{
    lexeme.kind == TokenKind::Minus || lexeme.kind == TokenKind::Plus
}

/// Whether the token is what may be behind a sign.
fn is_number(lexeme: Lexeme<'_>) -> bool
    ensures { result ≡ is_number (lexeme_view lexeme.entry) }
{
    lexeme.kind == TokenKind::Integer
        || lexeme.kind == TokenKind::Float
        || lexeme.is_word("inf")
        || lexeme.is_word("nan")
}

/// Whether the next token is a sign.
fn is_at_sign(cursor: &Cursor<'_>) -> bool
    ensures { result ≡ first_is is_sign cursor.now.left }
{
    match cursor.peek() {
        Some(lexeme) => is_sign(lexeme),
        None => false,
    }
}

/// Takes a sign.
#[tactic(auto, using(crate::proofs::TokenLemmas::token_by))]
fn sign(cursor: &mut Cursor<'_>) -> Result<Span, SyntaxFault>
    ensures { Gives Skip (λ x. x) cursor.new result (token_that is_sign cursor.old) }
{
    let offset = cursor.offset();
    match cursor.next() {
        Some(lexeme) if is_sign(lexeme) => Ok(lexeme.span),
        _ => Err(SyntaxFault::Grammar(offset)),
    }
}

/// Takes what may be behind a sign.
#[tactic(auto, using(crate::proofs::TokenLemmas::token_by))]
fn number(cursor: &mut Cursor<'_>) -> Result<Span, SyntaxFault>
    ensures { Gives Skip (λ x. x) cursor.new result (token_that is_number cursor.old) }
{
    let offset = cursor.offset();
    match cursor.next() {
        Some(lexeme) if is_number(lexeme) => Ok(lexeme.span),
        _ => Err(SyntaxFault::Grammar(offset)),
    }
}

/// A sign, and what may be behind it.
#[tactic(auto, unfolding(crate::specs::Reading::Settings::signed_value_at))]
fn signed_value(cursor: &mut Cursor<'_>) -> Result<(), SyntaxFault>
    ensures { Gives Skip (λ x. x) cursor.new result (signed_value_at cursor.old) }
{
    sign(cursor)?;
    number(cursor)?;
    Ok(())
}

/// A message as a value.
#[tactic(auto, unfolding(crate::specs::Reading::Settings::aggregate_at))]
fn aggregate(
    cursor: &mut Cursor<'_>,
    alloc: Global,
    names: &mut Sequence<OptionName>,
) -> Result<(), SyntaxFault>
    ensures { Gives Skip (λ x. names.new) cursor.new result (aggregate_at names.old cursor.old) }
{
    let around = last_number(names);
    message(cursor, alloc, MAX_AGGREGATE_DEPTH, around, names)
}

/// The value of an option, which is given to the last of the names.
#[tactic(auto, unfolding(crate::specs::Reading::Settings::value_at))]
fn value(
    cursor: &mut Cursor<'_>,
    alloc: Global,
    names: &mut Sequence<OptionName>,
) -> Result<(), SyntaxFault>
    ensures { Gives Skip (λ x. names.new) cursor.new result (value_at names.old cursor.old) }
{
    if cursor.is_at(TokenKind::Identifier) {
        return name_value(cursor, alloc, names);
    }
    if is_at_sign(cursor) {
        return signed_value(cursor);
    }
    if cursor.is_at(TokenKind::StringLiteral) {
        return strings(cursor);
    }
    if cursor.is_at(TokenKind::OpenBrace) {
        return aggregate(cursor, alloc, names);
    }
    numeral(cursor)?;
    Ok(())
}

/// An option's name, `=` and its value, with all names in it.
#[tactic(auto, unfolding(crate::specs::Reading::Settings::setting_at))]
pub(crate) fn setting(cursor: &mut Cursor<'_>, alloc: Global) -> Result<Setting, SyntaxFault>
    ensures { Gives Skip (λ x. x) cursor.new result (setting_at cursor.old) }
{
    let mut names = option_name(cursor, alloc)?;
    let parts = count(&names);
    cursor.token(TokenKind::Equals)?;
    value(cursor, alloc, &mut names)?;
    Ok(Setting { parts, names })
}
