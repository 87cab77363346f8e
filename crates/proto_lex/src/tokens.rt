//! A text with its tokens and comments.

ghost use Rattle.std.specs.Prelude.{◌≡◌, ℕ, ◌<◌, length, drop, map, All, IfSome, slice_get};
ghost use Rattle.proto_lex.specs.Comments.{IsComment};
ghost use Rattle.proto_lex.specs.Lexes.{Spells};
ghost use Rattle.proto_lex.specs.Lexed.{IsPart, AreInOrder, AreApart, IsLexed, LexesSomehow, part_of};

use crate::text::Text;
use crate::token::{Comment, Token};
use std::marker::Model;

/// A text with its tokens and comments, which are the text's only lexing.
///
/// It borrows the text, and what it gives of the text may outlive it. Contracts see the bytes of the
/// text, the list of tokens and the list of comments, both in the order in which they stand.
#[derive(Drop)]
pub struct Tokens<'a, 't> {
    text: &'a Text<'t>,
    tokens: Vec<Token>,
    comments: Vec<Comment>,
}

impl<'a, 't> Model for Tokens<'a, 't> {
    ghost use Rattle.proto_lex.specs.Lexed.{Lexed, IsLexed};

    ghost Value = { Lexed };

    ghost view = { λ inside. record {
      text = inside.text.now;
      tokens = inside.tokens.items;
      comments = inside.comments.items;
    } };

    ghost invariant = { λ inside. IsLexed inside.text.now inside.tokens.items inside.comments.items };
}

impl<'a, 't> Tokens<'a, 't> {
    /// A text with its only lexing. Takes no memory.
    pub(crate) fn new(
        text: &'a Text<'t>,
        tokens: Vec<Token>,
        comments: Vec<Comment>,
    ) -> Tokens<'a, 't>
        requires { IsLexed text.now tokens.items comments.items }
        ensures { result ≡ record { text = text.now; tokens = tokens.items; comments = comments.items } }
    {
        Tokens {
            text,
            tokens,
            comments,
        }
    }

    /// The text that was lexed, which gives the positions of what stands in it.
    pub fn text(&self) -> &'a Text<'t>
        ensures { result.now ≡ self.now.text }
    {
        self.text
    }

    /// The tokens, in order of place.
    pub fn tokens(&self) -> &[Token]
        ensures value { result.now ≡ self.now.tokens }
        ensures lexed { LexesSomehow self.now.text self.now.tokens self.now.comments }
        ensures parts { All (λ t. IsPart self.now.text t.span) self.now.tokens }
        ensures spelled { All (λ t. Spells t.kind (part_of self.now.text t.span)) self.now.tokens }
        ensures in_order { AreInOrder 0 (map (λ t. t.span) self.now.tokens) }
    {
        &self.tokens
    }

    /// The comments, in order of place.
    pub fn comments(&self) -> &[Comment]
        ensures value { result.now ≡ self.now.comments }
        ensures parts { All (λ c. IsPart self.now.text c.span) self.now.comments }
        ensures in_order { AreInOrder 0 (map (λ c. c.span) self.now.comments) }

        // A line comment goes up to the end of its line, a block comment up to its first `*/`.
        ensures spelled { All (λ c. IsComment c.kind (part_of self.now.text c.span)
            (drop c.span.end self.now.text)) self.now.comments }

        // No token overlaps a comment.
        ensures apart { All (λ t. All (λ c. AreApart t.span c.span) self.now.comments) self.now.tokens }
    {
        &self.comments
    }

    /// The spelling of the token with this index, from 0.
    pub fn slice(&self, index: usize) -> &'t str
        requires { index < length self.now.tokens }
        ensures part { IfSome (slice_get self.now.tokens index) (λ t. result.now ≡ part_of self.now.text t.span) }
        ensures spelled { IfSome (slice_get self.now.tokens index) (λ t. Spells t.kind result.now) }
    {
        let span = self.tokens[index].span;
        &self.text.as_str()[span.start as usize..span.end as usize]
    }
}
