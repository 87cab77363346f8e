//! What is between the marks of a comment, and its lines.

ghost use Rattle.std.specs.Prelude.{◌≡◌, ◌<◌, ℕ, List, map, nat_eq, IfOk};
ghost use Rattle.std.specs.Borrow.{Bor};
ghost use Rattle.std.specs.List.{fold};
ghost use Rattle.std.specs.Option.{option_map};
ghost use Rattle.proto_lex.specs.Ascii as ascii;
ghost use Rattle.proto_lex.specs.Lexed.{IsPart, part_of};
ghost use Rattle.comment_texts.specs.Comments as spec;
ghost use Rattle.comment_texts.specs.Steps.{least_with};

use crate::lines::{behind_blanks, least_with, without_blanks};
use proto_lex::{Comment, CommentKind, Span};
use std::alloc::{AllocError, Global};

/// What is at a span of a text.
fn spelling_at<'t>(text: &'t str, span: Span) -> &'t str
    requires { IsPart text.now span }
    ensures { result.now ≡ part_of text.now span }
{
    &text[span.start as usize..span.end as usize]
}

/// What is behind the `//` of a line comment of a text, or between the `/*` and the `*/` of a block comment.
pub fn between_marks<'t>(text: &'t str, comment: Comment) -> &'t str
    requires { spec.IsCommentIn text.now comment }
    ensures { result.now ≡ spec.between_marks comment.kind (part_of text.now comment.span) }
{
    let spelling = spelling_at(text, comment.span);
    match comment.kind {
        CommentKind::Line => &spelling[2..],
        CommentKind::Block => &spelling[2..spelling.len() - 2],
    }
}

/// Whether a byte is the third sign of a mark with this second one.
fn is_third_sign(byte: u8, second: u8) -> bool
    ensures { result ≡ spec.is_third_sign second byte }
{
    byte == second || byte == b'!'
}

/// What is behind a mark, without its third sign: that of `///` or `/**`, which is the second one again, or that of
/// `//!` or `/*!`.
fn without_third_sign(text: &str, second: u8) -> &str
    requires { second < 128 }
    ensures { result.now ≡ spec.without_third_sign second text.now }
{
    match text.as_bytes() {
        [first, ..] if is_third_sign(*first, second) => &text[1..],
        _ => text,
    }
}

/// What a line comment says on its line.
pub(crate) fn line_text(between: &str) -> &str
    ensures { result.now ≡ spec.line_text between.now }
{
    without_blanks(without_third_sign(between, b'/'), 1)
}

/// The first line of a block comment, without the third sign of its mark and the blanks there.
pub(crate) fn first_line(line: &str) -> &str
    ensures { result.now ≡ spec.first_line line.now }
{
    without_blanks(without_third_sign(line, b'*'), line.len())
}

/// Whether a byte is a star.
fn is_star(byte: u8) -> bool
    ensures { result ≡ nat_eq byte ascii.star }
{
    byte == b'*'
}

/// What is behind the star of another line of a block comment, without one blank, if there is a star behind the line's
/// first blanks.
fn behind_star(line: &str) -> Option<&str>
    ensures { option_map (λ behind. behind.now) result ≡ spec.behind_star line.now }
{
    let behind = behind_blanks(line);
    match behind.as_bytes() {
        [first, ..] if is_star(*first) => Some(without_blanks(&behind[1..], 1)),
        _ => None,
    }
}

/// Another line of a block comment, without its star, if it has one, and without the common indentation of its like.
pub(crate) fn dedented(line: &str, stars: usize, plains: usize) -> &str
    ensures { result.now ≡ spec.dedented stars plains (spec.behind_star line.now) line.now }
{
    match behind_star(line) {
        Some(behind) => without_blanks(behind, stars),
        None => without_blanks(line, plains),
    }
}

/// The lines of a text: what is between its `\n`, and before and behind them.
pub(crate) fn lines_of(alloc: Global, text: &str) -> Result<Vec<&str>, AllocError>
    ensures { IfOk result (λ lines. map (λ (line : Bor (List ℕ)). line.now) lines.items ≡ spec.lines_of text.now) }
{
    text.split('\n').collect(alloc)
}

/// The least indentation so far, and a line more, if it has a star.
fn least_with_starred(least: Option<usize>, line: &str) -> Option<usize>
    ensures { result ≡ fold least_with least (spec.starred line.now) }
{
    match behind_star(line) {
        Some(behind) => least_with(least, behind),
        None => least,
    }
}

/// The least indentation so far, and a line more, if it has no star.
fn least_with_plain(least: Option<usize>, line: &str) -> Option<usize>
    ensures { result ≡ fold least_with least (spec.plain line.now) }
{
    match behind_star(line) {
        Some(_) => least,
        None => least_with(least, line),
    }
}

/// The common indentation of the lines with a star, behind it.
pub(crate) fn star_indentation(lines: &[&str]) -> usize
    ensures { result ≡ spec.star_indentation (map (λ (line : Bor (List ℕ)). line.now) lines.now) }
{
    let mut least = None;
    for line in lines {
        least = least_with_starred(least, line);
    }
    least.unwrap_or(0)
}

/// The common indentation of the lines without a star.
pub(crate) fn plain_indentation(lines: &[&str]) -> usize
    ensures { result ≡ spec.plain_indentation (map (λ (line : Bor (List ℕ)). line.now) lines.now) }
{
    let mut least = None;
    for line in lines {
        least = least_with_plain(least, line);
    }
    least.unwrap_or(0)
}
