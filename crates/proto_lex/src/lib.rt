//! Text, positions, tokens and comments of proto3 sources.
#![tactic(auto)]

// Texts, and parts of them.
mod position;
mod span;
mod text;

// From a text to its tokens and comments.
mod fault;
mod hashes;
mod lexer;
mod token;
mod tokens;

// The laws.
mod laws;

pub use fault::LexFault;
pub use hashes::Hashes;
pub use laws::{
    columns_count_utf16, hashes_change_no_lexing, longest_token, one_first_fault, one_lexing,
    positions_fit, positions_rise,
};
pub use lexer::{lex, lex_with};
pub use position::{Encoding, Position};
pub use span::Span;
pub use text::{MAX_TEXT_LENGTH, Text};
pub use token::{Comment, CommentKind, Token, TokenKind};
pub use tokens::Tokens;
