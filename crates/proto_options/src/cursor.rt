//! The place among the tokens of a text that the second reading is at, and single tokens.
//!
//! It is as the parser's, but it can be gone back to: the same tokens may be read twice.

ghost use Rattle.std.specs.Prelude.{◌≡◌, ◌&&◌, cond, false, Some, None, length, drop, bytes_eq, option_map, slice_get};
ghost use Rattle.std.specs.Option.{option_map_or};
ghost use Rattle.proto_grammar.specs.Gives.{Gives};
ghost use Rattle.proto_grammar.specs.declared.dialect.CustomOptions.TheVariants.{Skip};
ghost use Rattle.proto_grammar.specs.Terminal.{first, others, first_is, of_kind, is_word, is_end, is_kind};
ghost use Rattle.proto_grammar.specs.Terminal.{offset_at, behind};
ghost use Rattle.proto_grammar.specs.Reading.Repetition.{token_that};
ghost use Rattle.proto_grammar.specs.Lexeme.{start_of, place_of, lexemes_of};
ghost use Rattle.proto_grammar.specs.View.{lexeme_view};
ghost use Rattle.proto_lex.specs.Lexed.{part_of};
ghost use Rattle.proto_lex.specs.declared.token.TokenKind.TheVariants.{Identifier, Dot};

use proto_grammar::{Lexeme, SyntaxFault};
use proto_lex::{Span, TokenKind, Tokens};
use std::marker::Model;

/// The offset of the token with this index, or the text's length.
fn offset_at(tokens: &Tokens<'_, '_>, index: usize) -> usize
    ensures { result ≡ option_map_or (λ t. t.span.start) (slice_get tokens.now.tokens index) (length tokens.now.text) }
{
    match tokens.tokens().get(index) {
        Some(token) => token.span.start as usize,
        None => tokens.text().len(),
    }
}

/// Whether the token with this index is of the kind.
fn is_kind_at(tokens: &Tokens<'_, '_>, index: usize, kind: TokenKind) -> bool
    ensures { result ≡ option_map_or (λ t. is_kind kind t.kind) (slice_get tokens.now.tokens index) false }
{
    match tokens.tokens().get(index) {
        Some(token) => token.kind == kind,
        None => false,
    }
}

/// Where the token with this index is, if it is of the kind.
fn span_at(tokens: &Tokens<'_, '_>, index: usize, kind: TokenKind) -> Option<Span>
    ensures { result
        ≡ option_map_or (λ t. cond (is_kind kind t.kind) (Some t.span) None) (slice_get tokens.now.tokens index) None }
{
    match tokens.tokens().get(index) {
        Some(token) if token.kind == kind => Some(token.span),
        _ => None,
    }
}

/// Whether the text is the word. Most texts begin with another letter.
fn is_spelled(spelling: &str, word: &str) -> bool
    ensures { result ≡ bytes_eq spelling.now word.now }
{
    match (spelling.as_bytes(), word.as_bytes()) {
        ([first, ..], [wanted, ..]) if *first != *wanted => false,
        _ => spelling == word,
    }
}

/// Whether the token is the word.
pub(crate) fn is_the_word(lexeme: Lexeme<'_>, word: &str) -> bool
    ensures { result ≡ is_word word.now (lexeme_view lexeme.entry) }
{
    lexeme.kind == TokenKind::Identifier && is_spelled(lexeme.spelling, word)
}

/// Whether the token with this index is the word.
fn is_word_at(tokens: &Tokens<'_, '_>, index: usize, word: &str) -> bool
    ensures { result
        ≡ option_map_or (λ t. is_kind Identifier t.kind && bytes_eq (part_of tokens.now.text t.span) word.now)
        (slice_get tokens.now.tokens index) false }
{
    match tokens.tokens().get(index) {
        Some(token) => {
            token.kind == TokenKind::Identifier && is_spelled(tokens.slice(index), word)
        }
        None => false,
    }
}

/// A place among the tokens of a text. Contracts see the tokens after it, with their spellings, and where the text
/// ends.
#[derive(Drop)]
pub(crate) struct Cursor<'t> {
    tokens: &'t Tokens<'t, 't>,
    next: usize,
}

impl<'t> Model for Cursor<'t> {
    ghost use Rattle.std.specs.Prelude.{drop, length};
    ghost use Rattle.proto_grammar.specs.Lexeme.{Place, lexemes_of};

    ghost Value = { Place };

    ghost view = { λ cursor. record {
      left = drop cursor.next (lexemes_of cursor.tokens.now.text cursor.tokens.now.tokens);
      end = length cursor.tokens.now.text;
    } };
}

impl<'t> Cursor<'t> {
    /// The place before the first token.
    pub(crate) fn new(tokens: &'t Tokens<'t, 't>) -> Cursor<'t>
        ensures { result ≡ start_of tokens.now.text tokens.now.tokens }
    {
        Cursor { tokens, next: 0 }
    }

    /// The place before the token with this index, or behind all tokens.
    pub(crate) fn at(tokens: &'t Tokens<'t, 't>, next: usize) -> Cursor<'t>
        ensures { result
            ≡ place_of (length tokens.now.text) (drop next (lexemes_of tokens.now.text tokens.now.tokens)) }
    {
        Cursor { tokens, next }
    }

    /// The same place, to go back to.
    pub(crate) fn place(&self) -> Cursor<'t>
        ensures { result ≡ self.now }
    {
        Cursor {
            tokens: self.tokens,
            next: self.next,
        }
    }

    /// The next token, if there is one.
    pub(crate) fn peek(&self) -> Option<Lexeme<'t>>
        ensures { first self.now.left ≡ option_map lexeme_view result }
    {
        let tokens = self.tokens;
        let token = tokens.tokens().get(self.next)?;
        let spelling = tokens.slice(self.next);
        let dotted = self.is_dotted();
        Some(Lexeme {
            kind: token.kind,
            spelling,
            span: token.span,
            dotted,
        })
    }

    /// Takes the next token, if there is one.
    pub(crate) fn next(&mut self) -> Option<Lexeme<'t>>
        ensures token { first self.old.left ≡ option_map lexeme_view result }
        ensures rest { self.new ≡ behind self.old }
    {
        let lexeme = self.peek();
        self.advance();
        lexeme
    }

    /// Moves past the next token, if there is one.
    #[tactic(auto, using(crate::proofs::CursorLemmas::others_after, crate::proofs::CursorLemmas::others_at_end))]
    pub(crate) fn advance(&mut self)
        ensures { self.new ≡ behind self.old }
    {
        if self.next < self.tokens.tokens().len() {
            self.next += 1;
        }
    }

    /// How many tokens are left.
    #[tactic(auto, using(crate::proofs::CursorLemmas::length_after))]
    pub(crate) fn left(&self) -> usize
        ensures { result ≡ length self.now.left }
    {
        self.tokens.tokens().len().saturating_sub(self.next)
    }

    /// The offset of the next token, or the text's length.
    pub(crate) fn offset(&self) -> usize
        ensures { result ≡ offset_at self.now }
    {
        offset_at(self.tokens, self.next)
    }

    /// Whether no token is left.
    pub(crate) fn is_at_end(&self) -> bool
        ensures { result ≡ is_end self.now.left }
    {
        self.left() == 0
    }

    /// Whether the next token is of the kind.
    pub(crate) fn is_at(&self, kind: TokenKind) -> bool
        ensures { result ≡ first_is (of_kind kind) self.now.left }
    {
        is_kind_at(self.tokens, self.next, kind)
    }

    /// Whether the next token is the word.
    pub(crate) fn is_at_word(&self, word: &str) -> bool
        ensures { result ≡ first_is (is_word word.now) self.now.left }
    {
        is_word_at(self.tokens, self.next, word)
    }

    /// The place after the next token, if there is one.
    pub(crate) fn behind(&self) -> Cursor<'t>
        ensures { result ≡ behind self.now }
    {
        let mut behind = self.place();
        behind.advance();
        behind
    }

    /// Whether the token after the next one is a `.`.
    fn is_dotted(&self) -> bool
        ensures { result ≡ first_is (of_kind Dot) (others self.now.left) }
    {
        self.is_before(TokenKind::Dot)
    }

    /// Whether the token after the next one is of the kind.
    pub(crate) fn is_before(&self, kind: TokenKind) -> bool
        ensures { result ≡ first_is (of_kind kind) (others self.now.left) }
    {
        self.behind().is_at(kind)
    }

    /// Where the next token is, if it is of the kind.
    fn span_of(&self, kind: TokenKind) -> Option<Span>
        ensures { result ≡ option_map_or (λ t. cond (of_kind kind t) (Some t.span) None) (first self.now.left) None }
    {
        span_at(self.tokens, self.next, kind)
    }

    /// Takes a token of the kind, and gives where it is. Grammar at another token, or at the text's length.
    #[tactic(auto, using(crate::proofs::TokenLemmas::token_by_span))]
    pub(crate) fn token(&mut self, kind: TokenKind) -> Result<Span, SyntaxFault>
        ensures { Gives Skip (λ x. x) self.new result (token_that (of_kind kind) self.old) }
    {
        match self.span_of(kind) {
            Some(span) => {
                self.advance();
                Ok(span)
            }
            None => Err(SyntaxFault::Grammar(self.offset())),
        }
    }

    /// Takes the word.
    #[tactic(auto, using(crate::proofs::TokenLemmas::token_by))]
    pub(crate) fn word(&mut self, word: &str) -> Result<Span, SyntaxFault>
        ensures { Gives Skip (λ x. x) self.new result (token_that (is_word word.now) self.old) }
    {
        let offset = self.offset();
        match self.next() {
            Some(lexeme) if is_the_word(lexeme, word) => Ok(lexeme.span),
            _ => Err(SyntaxFault::Grammar(offset)),
        }
    }
}
