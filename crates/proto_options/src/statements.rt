//! What statements are, by their first words, for the second reading of a file.

ghost use Rattle.std.specs.Prelude.{◌≡◌};
ghost use Rattle.proto_grammar.specs.Gives.{Gives};
ghost use Rattle.proto_grammar.specs.View.{lexeme_view};
ghost use Rattle.proto_grammar.specs.declared.dialect.CustomOptions.TheVariants.{Skip};
ghost use Rattle.proto_options.specs.Reading.Statements.{one_token_at, name_before_at, pass_statement_at, heading_at};
ghost use Rattle.proto_options.specs.Reading.Statements.{statement_of, file_statement_of, message_statement_of};
ghost use Rattle.proto_options.specs.Reading.Statements.{element_of, member_of};

use crate::cursor::{Cursor, is_the_word};
use crate::elements::Element;
use crate::scope::OptionScope;
use proto_grammar::{Lexeme, SyntaxFault};
use proto_lex::{Span, TokenKind};

/// What braces are of, or the file itself.
#[derive(Clone, Copy, Debug, PartialEq, Eq)]
pub(crate) enum Within {
    /// The file.
    File,
    /// A message or a group.
    Message,
    /// A oneof.
    Oneof,
    /// An extend.
    Extend,
    /// An enum.
    Enum,
    /// A service.
    Service,
    /// A method.
    Method,
}

/// A statement that isn't an option nor a lone `;`.
#[derive(Clone, Copy, Debug, PartialEq, Eq)]
pub(crate) enum Statement {
    /// One without options, up to its `;`.
    Passed,
    /// One with braces, of which this is what they are of.
    Braces(Within),
    /// The extension ranges of a message.
    Ranges,
    /// A field, a map field, a group or a value of an enum.
    Member,
    /// A method.
    Method,
}

/// The scope around what braces are of, and that of what is between them.
#[derive(Clone, Copy, Debug)]
pub(crate) struct Scopes<'s> {
    pub(crate) around: &'s OptionScope,
    pub(crate) inner: &'s OptionScope,
}

/// The scope around what braces are of, and the name in front of their `{`.
#[derive(Clone, Copy, Debug)]
pub(crate) struct Named<'s> {
    pub(crate) around: &'s OptionScope,
    pub(crate) name: &'s str,
}

/// Takes the next token.
#[tactic(auto, unfolding(crate::specs::Reading::Statements::one_token_at))]
fn one_token<'t>(cursor: &mut Cursor<'t>) -> Result<Lexeme<'t>, SyntaxFault>
    ensures { Gives Skip lexeme_view cursor.new result (one_token_at cursor.old) }
{
    match cursor.peek() {
        Some(lexeme) => {
            cursor.advance();
            Ok(lexeme)
        }
        None => Err(SyntaxFault::Grammar(cursor.offset())),
    }
}

/// Moves past at least one token, to one of one of these kinds, and gives the one in front of it.
pub(crate) fn name_before<'t>(
    cursor: &mut Cursor<'t>,
    kind: TokenKind,
    other: TokenKind,
) -> Result<Lexeme<'t>, SyntaxFault>
    ensures { Gives Skip lexeme_view cursor.new result (name_before_at kind other cursor.old) }
{
    'tokens: while !cursor.is_before(kind) && !cursor.is_before(other) {
        if cursor.is_at_end() {
            return Err(SyntaxFault::Grammar(cursor.offset()));
        }
        cursor.advance();
    }
    one_token(cursor)
}

/// Moves past a statement that has no options.
#[tactic(auto, unfolding(crate::specs::Reading::Statements::pass_statement_at))]
pub(crate) fn pass_statement(cursor: &mut Cursor<'_>) -> Result<(), SyntaxFault>
    ensures { Gives Skip (λ x. x) cursor.new result (pass_statement_at cursor.old) }
{
    name_before(cursor, TokenKind::Semicolon, TokenKind::Semicolon)?;
    cursor.token(TokenKind::Semicolon)?;
    Ok(())
}

/// Moves past what is in front of braces, and their `{`. Gives the token in front of it.
#[tactic(auto, unfolding(crate::specs::Reading::Statements::heading_at))]
pub(crate) fn heading<'t>(cursor: &mut Cursor<'t>) -> Result<Lexeme<'t>, SyntaxFault>
    ensures { Gives Skip lexeme_view cursor.new result (heading_at cursor.old) }
{
    let name = name_before(cursor, TokenKind::OpenBrace, TokenKind::OpenBrace)?;
    cursor.token(TokenKind::OpenBrace)?;
    Ok(name)
}

/// What the next statement of a file is.
fn file_statement(cursor: &Cursor<'_>) -> Statement
    ensures { result ≡ file_statement_of cursor.now.left }
{
    let Some(word) = cursor.peek() else {
        return Statement::Passed;
    };
    if is_the_word(word, "message") {
        return Statement::Braces(Within::Message);
    }
    if is_the_word(word, "enum") {
        return Statement::Braces(Within::Enum);
    }
    if is_the_word(word, "service") {
        return Statement::Braces(Within::Service);
    }
    if is_the_word(word, "extend") {
        return Statement::Braces(Within::Extend);
    }
    Statement::Passed
}

/// What the next statement of a message is.
fn message_statement(cursor: &Cursor<'_>) -> Statement
    ensures { result ≡ message_statement_of cursor.now.left }
{
    let Some(word) = cursor.peek() else {
        return Statement::Member;
    };
    if is_the_word(word, "message") {
        return Statement::Braces(Within::Message);
    }
    if is_the_word(word, "enum") {
        return Statement::Braces(Within::Enum);
    }
    if is_the_word(word, "oneof") {
        return Statement::Braces(Within::Oneof);
    }
    if is_the_word(word, "extend") {
        return Statement::Braces(Within::Extend);
    }
    if is_the_word(word, "reserved") {
        return Statement::Passed;
    }
    if is_the_word(word, "extensions") {
        return Statement::Ranges;
    }
    Statement::Member
}

/// What the next statement in these braces is.
pub(crate) fn next_statement(cursor: &Cursor<'_>, within: Within) -> Statement
    ensures { result ≡ statement_of within cursor.now.left }
{
    match within {
        Within::File => file_statement(cursor),
        Within::Message => message_statement(cursor),
        Within::Oneof | Within::Extend => Statement::Member,
        Within::Enum => {
            if cursor.is_at_word("reserved") {
                return Statement::Passed;
            }
            Statement::Member
        }
        Within::Service => Statement::Method,
        Within::Method => Statement::Passed,
    }
}

/// What an option statement in these braces is an option of. In an extend there is none.
pub(crate) fn element_of(within: Within) -> Option<Element>
    ensures { result ≡ element_of within }
{
    match within {
        Within::File => Some(Element::File),
        Within::Message => Some(Element::Message),
        Within::Oneof => Some(Element::Oneof),
        Within::Extend => None,
        Within::Enum => Some(Element::Enum),
        Within::Service => Some(Element::Service),
        Within::Method => Some(Element::Method),
    }
}

/// What brackets behind a name in these braces are of.
pub(crate) fn member_of(within: Within, name: Span) -> Element
    ensures { result ≡ member_of within name }
{
    if within == Within::Enum {
        return Element::EnumValue;
    }
    Element::Field(name)
}
