//! What a text is made of: tokens, and comments between them.

use crate::span::Span;

/// The kind of a token (proto3 specification, "Lexical elements").
#[derive(Clone, Copy, Debug, PartialEq, Eq)]
pub enum TokenKind {
    /// A letter or `_`, then letters, digits and `_`.
    Identifier,
    /// A decimal, octal or hexadecimal whole number, without a sign.
    Integer,
    /// A number with a point or an exponent, without a sign.
    Float,
    /// One quoted literal, with its quotes.
    StringLiteral,
    /// `;`
    Semicolon,
    /// `=`
    Equals,
    /// `{`
    OpenBrace,
    /// `}`
    CloseBrace,
    /// `[`
    OpenBracket,
    /// `]`
    CloseBracket,
    /// `(`
    OpenParenthesis,
    /// `)`
    CloseParenthesis,
    /// `<`
    Less,
    /// `>`
    Greater,
    /// `,`
    Comma,
    /// `.`
    Dot,
    /// `:`
    Colon,
    /// `+`
    Plus,
    /// `-`
    Minus,
    /// `/`
    Slash,
}

/// A token: its kind, and where its spelling is.
#[derive(Clone, Copy, Debug, PartialEq, Eq)]
pub struct Token {
    /// What it is.
    pub kind: TokenKind,
    /// Where its spelling is.
    pub span: Span,
}

/// The kind of a comment.
#[derive(Clone, Copy, Debug, PartialEq, Eq)]
pub enum CommentKind {
    /// From `//` up to, and without, the next `\n` or the end of the text.
    Line,
    /// From `/*` up to, and with, the next `*/` after these two characters.
    Block,
}

/// A comment: its kind, and where it is, with its marks.
#[derive(Clone, Copy, Debug, PartialEq, Eq)]
pub struct Comment {
    /// Whether it ends with its line.
    pub kind: CommentKind,
    /// Where it is, with its marks.
    pub span: Span,
}
