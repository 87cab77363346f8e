//! The text of comments, cleaned.

ghost use Rattle.std.specs.Prelude.{◌≡◌, ◌++◌, ◌∷◌, [], All, IfOk, OnOk, map, ℕ, List};
ghost use Rattle.std.specs.Borrow.{Bor};
ghost use Rattle.std.specs.List.{flat_map, fold};
ghost use Rattle.proto_lex.specs.Lexed.{part_of};
ghost use Rattle.comment_texts.specs.Comments as marks;
ghost use Rattle.comment_texts.specs.Lines as cuts;
ghost use Rattle.comment_texts.specs.Cleaned as spec;
ghost use Rattle.comment_texts.specs.Steps.{least_with};

use crate::comment::{
    between_marks, dedented, first_line, line_text, lines_of, plain_indentation, star_indentation,
};
use crate::joined::text_of_lines;
use crate::lines::{least_with, without_blanks, without_empty_ends, without_last_blanks};
use basics::{KeptText, TextRef};
use proto_lex::{Comment, CommentKind};
use std::alloc::{AllocError, Global};

/// The least indentation of line comments so far, and a comment more. A block comment doesn't count.
fn least_with_comment(least: Option<usize>, text: &str, comment: Comment) -> Option<usize>
    requires { marks.IsCommentIn text.now comment }
    ensures { result ≡ fold least_with least (spec.own_line comment.kind
        (marks.between_marks comment.kind (part_of text.now comment.span))) }
{
    match comment.kind {
        CommentKind::Line => least_with(least, line_text(between_marks(text, comment))),
        CommentKind::Block => least,
    }
}

/// The common indentation of the line comments among these of a text.
fn line_indentation(text: &str, comments: &[Comment]) -> usize
    requires { All (marks.IsCommentIn text.now) comments.now }
    ensures { result ≡ spec.line_indentation (map (spec.written_in text.now) comments.now) }
{
    let mut least = None;
    for comment in comments {
        least = least_with_comment(least, text, *comment);
    }
    least.unwrap_or(0)
}

/// Appends a line, without the blanks at its end.
fn push_line<'t>(lines: &mut Vec<TextRef<'t>>, line: &'t str) -> Result<(), AllocError>
    ensures { OnOk result (lines.new.items ≡ lines.old.items ++ cuts.without_last_blanks line.now ∷ []) }
{
    lines.push(TextRef::new(without_last_blanks(line)))?;
    Ok(())
}

/// Appends lines of a block comment, without their stars and so much indentation behind them, or without so much at
/// their start if they have no star.
fn push_dedented<'t>(
    lines: &mut Vec<TextRef<'t>>,
    others: &[&'t str],
    stars: usize,
    plains: usize,
) -> Result<(), AllocError>
    ensures { OnOk result (lines.new.items ≡ lines.old.items ++ map (λ (line : Bor (List ℕ)).
        cuts.without_last_blanks (marks.dedented stars plains (marks.behind_star line.now) line.now)) others.now) }
{
    for line in others {
        push_line(lines, dedented(line, stars, plains))?;
    }
    Ok(())
}

/// Appends the lines of a block comment behind its first.
fn push_others<'t>(lines: &mut Vec<TextRef<'t>>, others: &[&'t str]) -> Result<(), AllocError>
    ensures { OnOk result (lines.new.items ≡ lines.old.items ++ map cuts.without_last_blanks
        (marks.other_lines (map (λ (line : Bor (List ℕ)). line.now) others.now))) }
{
    let stars = star_indentation(others);
    let plains = plain_indentation(others);
    push_dedented(lines, others, stars, plains)
}

/// Appends the lines of a block comment, which are these as they are written.
fn push_written<'t>(lines: &mut Vec<TextRef<'t>>, written: &[&'t str]) -> Result<(), AllocError>
    ensures { OnOk result (lines.new.items ≡ lines.old.items ++ map cuts.without_last_blanks
        (marks.block_lines (map (λ (line : Bor (List ℕ)). line.now) written.now))) }
{
    match written {
        [first, others @ ..] => {
            push_line(lines, first_line(first))?;
            push_others(lines, others)
        }
        [] => Ok(()),
    }
}

/// Appends the lines of a block comment.
fn push_block<'t>(
    alloc: Global,
    lines: &mut Vec<TextRef<'t>>,
    between: &'t str,
) -> Result<(), AllocError>
    ensures { OnOk result (lines.new.items ≡ lines.old.items
        ++ map cuts.without_last_blanks (marks.block_lines (marks.lines_of between.now))) }
{
    let written = lines_of(alloc, between)?;
    push_written(lines, &written)
}

/// Appends the lines of a comment, among line comments with this common indentation.
fn push_comment<'t>(
    alloc: Global,
    lines: &mut Vec<TextRef<'t>>,
    shared: usize,
    text: &'t str,
    comment: Comment,
) -> Result<(), AllocError>
    requires { marks.IsCommentIn text.now comment }
    ensures { OnOk result (lines.new.items ≡ lines.old.items ++ map cuts.without_last_blanks
        (spec.lines_with shared comment.kind (marks.between_marks comment.kind (part_of text.now comment.span)))) }
{
    let between = between_marks(text, comment);
    match comment.kind {
        CommentKind::Line => push_line(lines, without_blanks(line_text(between), shared)),
        CommentKind::Block => push_block(alloc, lines, between),
    }
}

/// The lines of comments, without the blanks at their ends.
fn clean_lines<'t>(
    alloc: Global,
    text: &'t str,
    comments: &[Comment],
) -> Result<Vec<TextRef<'t>>, AllocError>
    requires { All (marks.IsCommentIn text.now) comments.now }
    ensures { IfOk result (λ lines. lines.items ≡ spec.clean_lines (map (spec.written_in text.now) comments.now)) }
{
    let shared = line_indentation(text, comments);
    let mut lines = Vec::with_capacity(alloc, comments.len())?;
    for comment in comments {
        push_comment(alloc, &mut lines, shared, text, *comment)?;
    }
    Ok(lines)
}

/// No fewer bytes than the cleaned text of comments has: those from the start of the first to the end of the last.
fn room_for(comments: &[Comment]) -> usize {
    match (comments.first(), comments.last()) {
        (Some(first), Some(last)) => last.span.end.saturating_sub(first.span.start) as usize,
        _ => 0,
    }
}

/// The cleaned text of comments that are in a text: what they say, without the signs and blanks by which people set
/// them off, with `\n` between lines.
pub fn clean_text<'t>(
    alloc: Global,
    text: &'t str,
    comments: &[Comment],
) -> Result<KeptText<'t>, AllocError>
    requires { All (marks.IsCommentIn text.now) comments.now }
    ensures { IfOk result (λ clean. clean ≡ spec.clean_text (map (spec.written_in text.now) comments.now)) }
{
    let lines = clean_lines(alloc, text, comments)?;
    text_of_lines(alloc, room_for(comments), without_empty_ends(&lines))
}
