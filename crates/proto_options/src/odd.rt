//! What is read past in a message in an option's value: odd things, where no field begins.

ghost use Rattle.std.specs.Prelude.{◌≡◌, ◌+◌, ◌<◌, ◌≤◌, ◌||◌, length};
ghost use Rattle.proto_grammar.specs.Lexeme.{place_of};
ghost use Rattle.proto_grammar.specs.Terminal.{first_is, of_kind};
ghost use Rattle.proto_lex.specs.declared.token.TokenKind.TheVariants.{Identifier, Colon};
ghost use Rattle.proto_options.specs.Grammar.Passed.{is_past, braces_behind, brackets_behind, behind_open, past_one};
ghost use Rattle.proto_options.specs.Grammar.Passed.{opens_bracket, closes_bracket, open_behind, is_joint_next};
ghost use Rattle.proto_options.specs.Grammar.Passed.{is_message_next, is_whole_word, is_opening_next, has_sign};
ghost use Rattle.proto_options.specs.Grammar.Passed.{past_odd};

use crate::cursor::Cursor;
use proto_lex::TokenKind;

/// Whether a `[` or a `<` is next.
fn opens_bracket(cursor: &Cursor<'_>) -> bool
    ensures { result ≡ opens_bracket cursor.now.left }
{
    cursor.is_at(TokenKind::OpenBracket) || cursor.is_at(TokenKind::Less)
}

/// Whether a `]` or a `>` is next.
fn closes_bracket(cursor: &Cursor<'_>) -> bool
    ensures { result ≡ closes_bracket cursor.now.left }
{
    cursor.is_at(TokenKind::CloseBracket) || cursor.is_at(TokenKind::Greater)
}

/// How many are open behind a token that opens one, closes one, or neither. It is at most `most`.
fn open_behind(opens: bool, closes: bool, count: usize, most: usize) -> usize
    requires { count < most }
    ensures { result ≡ open_behind opens closes count }
{
    if opens {
        return count + 1;
    }
    if closes {
        return count.saturating_sub(1);
    }
    count
}

/// How many braces are open behind the next token.
pub(crate) fn braces_behind(cursor: &Cursor<'_>, braces: usize, most: usize) -> usize
    requires { braces < most }
    ensures { result ≡ braces_behind cursor.now.left braces }
{
    let opens = cursor.is_at(TokenKind::OpenBrace);
    let closes = cursor.is_at(TokenKind::CloseBrace);
    open_behind(opens, closes, braces, most)
}

/// How many brackets are open behind the next token, which is in this many braces.
fn brackets_behind(cursor: &Cursor<'_>, braces: usize, brackets: usize, most: usize) -> usize
    requires { brackets < most }
    ensures { result ≡ brackets_behind cursor.now.left braces brackets }
{
    if braces == 0 {
        return open_behind(
            opens_bracket(cursor),
            closes_bracket(cursor),
            brackets,
            most,
        );
    }
    brackets
}

/// Whether neither braces nor brackets are open, or a `}` is next that closes what is around the brackets.
fn is_past(cursor: &Cursor<'_>, braces: usize, brackets: usize) -> bool
    ensures { result ≡ is_past braces brackets cursor.now.left }
{
    braces == 0 && (brackets == 0 || cursor.is_at(TokenKind::CloseBrace))
}

/// Moves past this many open brackets, in which this many braces are open. All these and the tokens that are left are
/// at most `most`.
fn pass_open(cursor: &mut Cursor<'_>, open_braces: usize, open_brackets: usize, most: usize)
    requires { open_braces + open_brackets + length cursor.old.left ≤ most }
    ensures { cursor.new ≡ place_of cursor.old.end (behind_open open_braces open_brackets cursor.old.left) }
{
    let mut braces = open_braces;
    let mut brackets = open_brackets;
    'tokens: while !cursor.is_at_end() && !is_past(cursor, braces, brackets) {
        let brackets_left = brackets_behind(cursor, braces, brackets, most);
        braces = braces_behind(cursor, braces, most);
        brackets = brackets_left;
        cursor.advance();
    }
}

/// Moves past the next token, and past what it opens.
pub(crate) fn pass_one(cursor: &mut Cursor<'_>)
    ensures { cursor.new ≡ place_of cursor.old.end (past_one cursor.old.left) }
{
    let most = cursor.left();
    if cursor.is_at(TokenKind::OpenBrace) {
        cursor.advance();
        pass_open(cursor, 1, 0, most);
        return;
    }
    if opens_bracket(cursor) {
        cursor.advance();
        pass_open(cursor, 0, 1, most);
        return;
    }
    cursor.advance();
}

/// Whether a message in braces, or in `<` and `>`, is next.
pub(crate) fn is_message_next(cursor: &Cursor<'_>) -> bool
    ensures { result ≡ is_message_next cursor.now.left }
{
    cursor.is_at(TokenKind::OpenBrace) || cursor.is_at(TokenKind::Less)
}

/// Whether a sign is next that joins a word behind it to what is in front of it.
fn is_joint_next(cursor: &Cursor<'_>) -> bool
    ensures { result ≡ is_joint_next cursor.now.left }
{
    cursor.is_at(TokenKind::Dot)
        || (cursor.is_at(TokenKind::Slash)
            || (cursor.is_at(TokenKind::Minus)
                || (cursor.is_at(TokenKind::Plus) || cursor.is_at(TokenKind::Equals))))
}

/// Whether something is next that a value's word can't be in front of.
fn goes_on(cursor: &Cursor<'_>) -> bool
    ensures { result ≡ (is_joint_next cursor.now.left
        || (first_is (of_kind Colon) cursor.now.left || is_message_next cursor.now.left)) }
{
    is_joint_next(cursor) || (cursor.is_at(TokenKind::Colon) || is_message_next(cursor))
}

/// Whether a word is next that may be a value: it is no part of a longer name, and no field's name with its value.
pub(crate) fn is_whole_word(cursor: &Cursor<'_>) -> bool
    ensures { result ≡ is_whole_word cursor.now.left }
{
    cursor.is_at(TokenKind::Identifier) && !goes_on(&cursor.behind())
}

/// Whether a message, a list or something else in brackets is next.
fn is_opening_next(cursor: &Cursor<'_>) -> bool
    ensures { result ≡ is_opening_next cursor.now.left }
{
    cursor.is_at(TokenKind::OpenBrace) || opens_bracket(cursor)
}

/// Whether a word or something in brackets is next.
fn is_joined(cursor: &Cursor<'_>) -> bool
    ensures { result ≡ (first_is (of_kind Identifier) cursor.now.left || is_opening_next cursor.now.left) }
{
    cursor.is_at(TokenKind::Identifier) || is_opening_next(cursor)
}

/// Whether a word that may be a value, or something in brackets, is next.
fn is_given(cursor: &Cursor<'_>) -> bool
    ensures { result ≡ (is_whole_word cursor.now.left || is_opening_next cursor.now.left) }
{
    is_whole_word(cursor) || is_opening_next(cursor)
}

/// Whether what is next has a sign in front of what belongs to it.
fn has_sign(cursor: &Cursor<'_>) -> bool
    ensures { result ≡ has_sign cursor.now.left }
{
    (is_joint_next(cursor) && is_joined(&cursor.behind()))
        || (cursor.is_at(TokenKind::Colon) && is_given(&cursor.behind()))
}

/// Moves past an odd thing: a token and what it opens, and with a sign what belongs to it.
pub(crate) fn pass_odd(cursor: &mut Cursor<'_>)
    ensures { cursor.new ≡ place_of cursor.old.end (past_odd cursor.old.left) }
{
    if has_sign(cursor) {
        cursor.advance();
    }
    pass_one(cursor);
}
