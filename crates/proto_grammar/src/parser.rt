//! The parser's place among the tokens, and single tokens.

ghost use Rattle.std.specs.Prelude.{◌≡◌, ◌==◌, false, length, option_map, slice_get, bytes_eq};
ghost use Rattle.std.specs.List.{list_any};
ghost use Rattle.std.specs.Option.{option_map_or};
ghost use Rattle.proto_lex.specs.Ascii as ascii;
ghost use Rattle.proto_grammar.specs.Gives.{Gives};
ghost use Rattle.proto_grammar.specs.declared.dialect.CustomOptions.TheVariants.{Skip};
ghost use Rattle.proto_grammar.specs.Terminal.{first, others, first_is, of_kind, is_word, key_words, scalar_words};
ghost use Rattle.proto_grammar.specs.Terminal.{is_scalar, is_key, is_sign, is_numeral, is_number, is_plain_literal};
ghost use Rattle.proto_grammar.specs.Terminal.{between_quotes, is_scalar_type, is_group_word, begins_scalar};
ghost use Rattle.proto_grammar.specs.Terminal.{begins_group, is_capitalized, is_group_name, is_end, offset_at, behind};
ghost use Rattle.proto_grammar.specs.Terminal.{is_kind};
ghost use Rattle.proto_grammar.specs.Reading.Repetition.{token_that, plain_literal_at, span_at};
ghost use Rattle.proto_grammar.specs.Lexeme.{start_of};
ghost use Rattle.proto_grammar.specs.View.{lexeme_view};
ghost use Rattle.proto_lex.specs.declared.token.TokenKind.TheVariants.{Dot};

use crate::fault::SyntaxFault;
use proto_lex::{Span, TokenKind, Tokens};
use std::marker::Model;

/// A token with its spelling.
#[derive(Clone, Copy, Debug)]
pub struct Lexeme<'t> {
    /// What it is.
    pub kind: TokenKind,
    /// The part of the text that is the token.
    pub spelling: &'t str,
    /// Where it is in the text, in bytes.
    pub span: Span,
    /// Whether a `.` is the next token.
    pub dotted: bool,
}

impl<'t> Lexeme<'t> {
    /// What is between a string literal's quotes, as it is spelled.
    pub fn between_quotes(self) -> &'t [u8]
        ensures { result.now ≡ between_quotes self.entry.spelling.now }
    {
        match self.spelling.as_bytes() {
            [_, content @ .., _] => content,
            _ => &[],
        }
    }

    /// Whether it is the word.
    pub fn is_word(self, word: &str) -> bool
        ensures { result ≡ is_word word.now (lexeme_view self.entry) }
    {
        self.kind == TokenKind::Identifier && self.spelling == word
    }

    /// Whether it is the word of a scalar type (proto3 specification, "Fields").
    fn is_scalar(self) -> bool
        ensures { result ≡ is_scalar (lexeme_view self.entry) }
    {
        self.kind == TokenKind::Identifier && is_scalar_word(self.spelling)
    }

    /// Whether it is the word of a scalar type, which no `.` follows.
    fn is_scalar_type(self) -> bool
        ensures { result ≡ is_scalar_type (lexeme_view self.entry) }
    {
        self.is_scalar() && !self.dotted
    }

    /// Whether it is the word `group`, which no `.` follows.
    fn is_group_word(self) -> bool
        ensures { result ≡ is_group_word (lexeme_view self.entry) }
    {
        self.is_word("group") && !self.dotted
    }

    /// Whether it is the word of a scalar type that may be a map's key (proto3 specification,
    /// "Map field").
    fn is_key(self) -> bool
        ensures { result ≡ is_key (lexeme_view self.entry) }
    {
        self.kind == TokenKind::Identifier && is_key_word(self.spelling)
    }

    /// Whether it is an identifier that begins with a capital letter.
    fn is_group_name(self) -> bool
        ensures { result ≡ is_group_name (lexeme_view self.entry) }
    {
        self.kind == TokenKind::Identifier && is_capitalized(self.spelling.as_bytes())
    }

    /// Whether it is `-` or `+`.
    fn is_sign(self) -> bool
        ensures { result ≡ is_sign (lexeme_view self.entry) }
    {
        self.kind == TokenKind::Minus || self.kind == TokenKind::Plus
    }

    /// Whether it is a number.
    fn is_numeral(self) -> bool
        ensures { result ≡ is_numeral (lexeme_view self.entry) }
    {
        self.kind == TokenKind::Integer || self.kind == TokenKind::Float
    }

    /// Whether it is what may be after a sign.
    fn is_number(self) -> bool
        ensures { result ≡ is_number (lexeme_view self.entry) }
    {
        self.is_numeral() || self.is_word("inf") || self.is_word("nan")
    }

    /// Whether it is a string literal without a `\`.
    fn is_plain_literal(self) -> bool
        ensures { result ≡ is_plain_literal (lexeme_view self.entry) }
    {
        self.kind == TokenKind::StringLiteral && !has_backslash(self.spelling.as_bytes())
    }
}

/// Whether the word names a scalar type.
fn is_scalar_word(word: &str) -> bool
    ensures { result ≡ list_any (bytes_eq word.now) scalar_words }
{
    matches!(word, "double" | "float" | "bytes") || is_key_word(word)
}

/// Whether the word names a scalar type that may be a map's key.
fn is_key_word(word: &str) -> bool
    ensures { result ≡ list_any (bytes_eq word.now) key_words }
{
    matches!(
        word,
        "int32"
            | "int64"
            | "uint32"
            | "uint64"
            | "sint32"
            | "sint64"
            | "fixed32"
            | "fixed64"
            | "sfixed32"
            | "sfixed64"
            | "bool"
            | "string"
    )
}

/// Whether the text begins with a capital letter.
fn is_capitalized(text: &[u8]) -> bool
    ensures { result ≡ is_capitalized text.now }
{
    match text {
        [first, ..] => matches!(*first, b'A'..=b'Z'),
        [] => false,
    }
}

/// Whether a `\` is among the bytes.
fn has_backslash(text: &[u8]) -> bool
    ensures { result ≡ list_any (λ byte. byte == ascii.backslash) text.now }
{
    text.contains(&b'\\')
}

/// The offset of the token at a place, or the text's length.
fn offset_at(tokens: &Tokens<'_, '_>, place: usize) -> usize
    ensures { result ≡ option_map_or (λ t. t.span.start) (slice_get tokens.now.tokens place) (length tokens.now.text) }
{
    match tokens.tokens().get(place) {
        Some(token) => token.span.start as usize,
        None => tokens.text().len(),
    }
}

/// Whether a `.` is at a place.
fn is_dot_at(tokens: &Tokens<'_, '_>, place: usize) -> bool
    ensures { result ≡ option_map_or (λ t. is_kind Dot t.kind) (slice_get tokens.now.tokens place) false }
{
    match tokens.tokens().get(place) {
        Some(token) => token.kind == TokenKind::Dot,
        None => false,
    }
}

/// A place among the tokens of a text. Contracts see the tokens after it, with their spellings, and where the text
/// ends.
#[derive(Drop)]
pub struct Parser<'t> {
    tokens: &'t Tokens<'t, 't>,
    next: usize,
}

impl<'t> Model for Parser<'t> {
    ghost use Rattle.std.specs.Prelude.{drop, length};
    ghost use Rattle.proto_grammar.specs.Lexeme.{Place, lexemes_of};

    ghost Value = { Place };

    ghost view = { λ parser. record {
      left = drop parser.next (lexemes_of parser.tokens.now.text parser.tokens.now.tokens);
      end = length parser.tokens.now.text;
    } };
}

impl<'t> Parser<'t> {
    /// The place before the first token.
    pub fn new(tokens: &'t Tokens<'t, 't>) -> Parser<'t>
        ensures { result ≡ start_of tokens.now.text tokens.now.tokens }
    {
        Parser { tokens, next: 0 }
    }

    /// The next token, if there is one.
    pub fn peek(&self) -> Option<Lexeme<'t>>
        ensures { first self.now.left ≡ option_map lexeme_view result }
    {
        let tokens = self.tokens;
        let token = tokens.tokens().get(self.next)?;
        let spelling = tokens.slice(self.next);
        let dotted = self.is_dotted();
        Some(Lexeme {
            kind: token.kind,
            spelling,
            span: token.span,
            dotted,
        })
    }

    /// Takes the next token, if there is one.
    pub fn next(&mut self) -> Option<Lexeme<'t>>
        ensures token { first self.old.left ≡ option_map lexeme_view result }
        ensures rest { self.new ≡ behind self.old }
    {
        let lexeme = self.peek();
        self.advance();
        lexeme
    }

    /// Moves past the next token, if there is one.
    #[tactic(auto, using(crate::proofs::TerminalPlaceLemmas::others_drop, crate::proofs::TerminalPlaceLemmas::others_past))]
    pub fn advance(&mut self)
        ensures { self.new ≡ behind self.old }
    {
        if self.next < self.tokens.tokens().len() {
            self.next += 1;
        }
    }

    /// How many tokens are left.
    #[tactic(auto, using(crate::proofs::TerminalPlaceLemmas::length_left))]
    pub(crate) fn left(&self) -> usize
        ensures { result ≡ length self.now.left }
    {
        self.tokens.tokens().len().saturating_sub(self.next)
    }

    /// The offset of the next token, or the text's length.
    pub fn offset(&self) -> usize
        ensures { result ≡ offset_at self.now }
    {
        offset_at(self.tokens, self.next)
    }

    /// Whether no token is left.
    pub fn is_at_end(&self) -> bool
        ensures { result ≡ is_end self.now.left }
    {
        self.peek().is_none()
    }

    /// Whether the next token is of the kind.
    pub fn is_at(&self, kind: TokenKind) -> bool
        ensures { result ≡ first_is (of_kind kind) self.now.left }
    {
        match self.peek() {
            Some(lexeme) => lexeme.kind == kind,
            None => false,
        }
    }

    /// Whether the next token is the word.
    pub fn is_at_word(&self, word: &str) -> bool
        ensures { result ≡ first_is (is_word word.now) self.now.left }
    {
        match self.peek() {
            Some(lexeme) => lexeme.is_word(word),
            None => false,
        }
    }

    /// Whether the next token is `-` or `+`.
    pub(crate) fn is_at_sign(&self) -> bool
        ensures { result ≡ first_is is_sign self.now.left }
    {
        match self.peek() {
            Some(lexeme) => lexeme.is_sign(),
            None => false,
        }
    }

    /// The place after the next token, if there is one.
    fn behind(&self) -> Parser<'t>
        ensures { result ≡ behind self.now }
    {
        let mut behind = Parser {
            tokens: self.tokens,
            next: self.next,
        };
        behind.advance();
        behind
    }

    /// Whether the next token is a `.`.
    fn is_at_dot(&self) -> bool
        ensures { result ≡ first_is (of_kind Dot) self.now.left }
    {
        is_dot_at(self.tokens, self.next)
    }

    /// Whether the token after the next one is a `.`.
    fn is_dotted(&self) -> bool
        ensures { result ≡ first_is (of_kind Dot) (others self.now.left) }
    {
        self.behind().is_at_dot()
    }

    /// Whether the token after the next one is of the kind.
    pub fn is_before(&self, kind: TokenKind) -> bool
        ensures { result ≡ first_is (of_kind kind) (others self.now.left) }
    {
        self.behind().is_at(kind)
    }

    /// Whether the next token is the word of a scalar type, which no `.` follows.
    pub(crate) fn is_at_scalar(&self) -> bool
        ensures { result ≡ begins_scalar self.now.left }
    {
        match self.peek() {
            Some(lexeme) => lexeme.is_scalar_type(),
            None => false,
        }
    }

    /// Whether the next token is the word `group`, which no `.` follows.
    pub fn is_at_group(&self) -> bool
        ensures { result ≡ begins_group self.now.left }
    {
        match self.peek() {
            Some(lexeme) => lexeme.is_group_word(),
            None => false,
        }
    }

    /// Where the next token is. It isn't taken.
    #[tactic(auto, unfolding(crate::specs::Reading::Repetition::span_at))]
    pub fn span(&self) -> Result<Span, SyntaxFault>
        ensures { Gives Skip (λ x. x) self.now result (span_at self.now) }
    {
        match self.peek() {
            Some(lexeme) => Ok(lexeme.span),
            None => Err(SyntaxFault::Grammar(self.offset())),
        }
    }

    /// Takes a token of the kind, and gives where it is. Grammar at another token, or at the text's length, as in all
    /// methods that take a part, unless they say otherwise.
    #[tactic(auto, unfolding(crate::specs::Reading::Repetition::token_that))]
    pub fn token(&mut self, kind: TokenKind) -> Result<Span, SyntaxFault>
        ensures { Gives Skip (λ x. x) self.new result (token_that (of_kind kind) self.old) }
    {
        let offset = self.offset();
        match self.next() {
            Some(lexeme) if lexeme.kind == kind => Ok(lexeme.span),
            _ => Err(SyntaxFault::Grammar(offset)),
        }
    }

    /// Takes the word.
    #[tactic(auto, unfolding(crate::specs::Reading::Repetition::token_that))]
    pub fn word(&mut self, word: &str) -> Result<Span, SyntaxFault>
        ensures { Gives Skip (λ x. x) self.new result (token_that (is_word word.now) self.old) }
    {
        let offset = self.offset();
        match self.next() {
            Some(lexeme) if lexeme.is_word(word) => Ok(lexeme.span),
            _ => Err(SyntaxFault::Grammar(offset)),
        }
    }

    /// Takes a group's name, which begins with a capital letter.
    #[tactic(auto, unfolding(crate::specs::Reading::Repetition::token_that))]
    pub(crate) fn group_name(&mut self) -> Result<Span, SyntaxFault>
        ensures { Gives Skip (λ x. x) self.new result (token_that is_group_name self.old) }
    {
        let offset = self.offset();
        match self.next() {
            Some(lexeme) if lexeme.is_group_name() => Ok(lexeme.span),
            _ => Err(SyntaxFault::Grammar(offset)),
        }
    }

    /// Takes the word of a scalar type.
    #[tactic(auto, unfolding(crate::specs::Reading::Repetition::token_that))]
    pub(crate) fn scalar(&mut self) -> Result<Span, SyntaxFault>
        ensures { Gives Skip (λ x. x) self.new result (token_that is_scalar self.old) }
    {
        let offset = self.offset();
        match self.next() {
            Some(lexeme) if lexeme.is_scalar() => Ok(lexeme.span),
            _ => Err(SyntaxFault::Grammar(offset)),
        }
    }

    /// Takes the word of a scalar type that may be a map's key.
    #[tactic(auto, unfolding(crate::specs::Reading::Repetition::token_that))]
    pub(crate) fn key(&mut self) -> Result<Span, SyntaxFault>
        ensures { Gives Skip (λ x. x) self.new result (token_that is_key self.old) }
    {
        let offset = self.offset();
        match self.next() {
            Some(lexeme) if lexeme.is_key() => Ok(lexeme.span),
            _ => Err(SyntaxFault::Grammar(offset)),
        }
    }

    /// Takes a number without a sign.
    #[tactic(auto, unfolding(crate::specs::Reading::Repetition::token_that))]
    pub(crate) fn numeral(&mut self) -> Result<Span, SyntaxFault>
        ensures { Gives Skip (λ x. x) self.new result (token_that is_numeral self.old) }
    {
        let offset = self.offset();
        match self.next() {
            Some(lexeme) if lexeme.is_numeral() => Ok(lexeme.span),
            _ => Err(SyntaxFault::Grammar(offset)),
        }
    }

    /// Takes what may be after a sign.
    #[tactic(auto, unfolding(crate::specs::Reading::Repetition::token_that))]
    pub(crate) fn number(&mut self) -> Result<Span, SyntaxFault>
        ensures { Gives Skip (λ x. x) self.new result (token_that is_number self.old) }
    {
        let offset = self.offset();
        match self.next() {
            Some(lexeme) if lexeme.is_number() => Ok(lexeme.span),
            _ => Err(SyntaxFault::Grammar(offset)),
        }
    }

    /// Takes a `-` or `+`.
    #[tactic(auto, unfolding(crate::specs::Reading::Repetition::token_that))]
    pub(crate) fn sign(&mut self) -> Result<Span, SyntaxFault>
        ensures { Gives Skip (λ x. x) self.new result (token_that is_sign self.old) }
    {
        let offset = self.offset();
        match self.next() {
            Some(lexeme) if lexeme.is_sign() => Ok(lexeme.span),
            _ => Err(SyntaxFault::Grammar(offset)),
        }
    }

    /// Takes a literal of an import's path: ImportEscape if it has a `\`.
    #[tactic(auto, unfolding(crate::specs::Reading::Repetition::plain_literal_at))]
    pub fn plain_literal(&mut self) -> Result<Span, SyntaxFault>
        ensures { Gives Skip (λ x. x) self.new result (plain_literal_at self.old) }
    {
        let offset = self.offset();
        match self.next() {
            Some(lexeme) if lexeme.is_plain_literal() => Ok(lexeme.span),
            Some(lexeme) if lexeme.kind == TokenKind::StringLiteral => {
                Err(SyntaxFault::ImportEscape(offset))
            }
            _ => Err(SyntaxFault::Grammar(offset)),
        }
    }
}
