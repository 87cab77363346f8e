//! How tokens and comments are on the lines of a text.

ghost use Rattle.std.specs.Prelude.{◌≡◌, ◌<◌, ◌≤◌, ◌↔◌, length, map, IsTrue, IfSome, MatchOption, ◌+◌, position};
ghost use Rattle.std.specs.Prelude.{slice_range};
ghost use Rattle.std.specs.List.{AllWithin};
ghost use Rattle.std.specs.List.Sorted.{IsPartitionPoint};
ghost use Rattle.proto_lex.specs.Position.{line_of, is_line_end};
ghost use Rattle.proto_lex.specs.Lexed.{AreInOrder};
ghost use Rattle.proto_lex.specs.CommentTexts.{NoneBetween};
ghost use Rattle.proto_decl.specs.Comments.{IsFirstOnLine};
ghost use Rattle.proto_decl.specs.Layout.{AreBegun, IsFreeFrom, IsNextStart};

use proto_lex::{Comment, Span, Text, Token, Tokens};

/// How many tokens or comments are looked at one by one at most, before they are searched by halves.
const FEW: usize = 16;

/// How many tokens and how many comments begin before an offset.
#[derive(Clone, Copy, Debug, PartialEq, Eq)]
pub(crate) struct Begun {
    pub tokens: usize,
    pub comments: usize,
}

/// Whether so many tokens begin before an offset.
fn are_tokens_begun(tokens: &[Token], count: usize, offset: usize) -> bool
    requires { AreInOrder 0 (map (λ t. t.span) tokens.now) }
    ensures { IsTrue result → (count ≤ length tokens.now) × AllWithin (λ t. t.span.start < offset) tokens.now 0 count }
{
    if count == 0 {
        return true;
    }
    if count > tokens.len() {
        return false;
    }
    (tokens[count - 1].span.start as usize) < offset
}

/// How many tokens begin before an offset, if these are `near` or a few more.
fn tokens_begun_near(tokens: &[Token], near: usize, offset: usize) -> Option<usize>
    requires { AreInOrder 0 (map (λ t. t.span) tokens.now) }
    ensures { IfSome result (λ count. (count ≤ length tokens.now)
        × IsPartitionPoint (λ t. t.span.start < offset) (λ t. offset ≤ t.span.start) tokens.now count) }
{
    if !are_tokens_begun(tokens, near, offset) {
        return None;
    }
    let limit = near.saturating_add(FEW);
    let mut count = near;
    while count < tokens.len() {
        if offset <= tokens[count].span.start as usize {
            return Some(count);
        }
        if count == limit {
            return None;
        }
        count += 1;
    }
    Some(count)
}

/// How many tokens begin before an offset. If these aren't `near` or a few more, they are searched by halves.
pub(crate) fn tokens_begun(lexed: &Tokens<'_, '_>, near: usize, offset: usize) -> usize
    ensures within { result ≤ length lexed.now.tokens }
    ensures parted { IsPartitionPoint (λ t. t.span.start < offset)
        (λ t. offset ≤ t.span.start) lexed.now.tokens result }
{
    let tokens = lexed.tokens();
    match tokens_begun_near(tokens, near, offset) {
        Some(count) => count,
        None => tokens.partition_point(|token| (token.span.start as usize) < offset),
    }
}

/// How many tokens end before an offset, or there.
fn tokens_ended(lexed: &Tokens<'_, '_>, offset: usize) -> usize
    ensures within { result ≤ length lexed.now.tokens }
    ensures parted { IsPartitionPoint (λ t. t.span.end ≤ offset) (λ t. offset < t.span.end) lexed.now.tokens result }
{
    lexed
        .tokens()
        .partition_point(|token| token.span.end as usize <= offset)
}

/// Whether so many comments begin before an offset.
fn are_comments_begun(comments: &[Comment], count: usize, offset: usize) -> bool
    requires { AreInOrder 0 (map (λ c. c.span) comments.now) }
    ensures { IsTrue result
        → (count ≤ length comments.now) × AllWithin (λ c. c.span.start < offset) comments.now 0 count }
{
    if count == 0 {
        return true;
    }
    if count > comments.len() {
        return false;
    }
    (comments[count - 1].span.start as usize) < offset
}

/// How many comments begin before an offset, if these are `near` or a few more.
fn comments_begun_near(comments: &[Comment], near: usize, offset: usize) -> Option<usize>
    requires { AreInOrder 0 (map (λ c. c.span) comments.now) }
    ensures { IfSome result (λ count. (count ≤ length comments.now)
        × IsPartitionPoint (λ c. c.span.start < offset) (λ c. offset ≤ c.span.start) comments.now count) }
{
    if !are_comments_begun(comments, near, offset) {
        return None;
    }
    let limit = near.saturating_add(FEW);
    let mut count = near;
    while count < comments.len() {
        if offset <= comments[count].span.start as usize {
            return Some(count);
        }
        if count == limit {
            return None;
        }
        count += 1;
    }
    Some(count)
}

/// How many comments begin before an offset. If these aren't `near` or a few more, they are searched by halves.
pub(crate) fn comments_begun(lexed: &Tokens<'_, '_>, near: usize, offset: usize) -> usize
    ensures within { result ≤ length lexed.now.comments }
    ensures parted { IsPartitionPoint (λ c. c.span.start < offset)
        (λ c. offset ≤ c.span.start) lexed.now.comments result }
{
    let comments = lexed.comments();
    match comments_begun_near(comments, near, offset) {
        Some(count) => count,
        None => comments.partition_point(|comment| (comment.span.start as usize) < offset),
    }
}

/// How many tokens and comments begin before an offset, looked for from `near` on.
pub(crate) fn begun_before(lexed: &Tokens<'_, '_>, near: Begun, offset: usize) -> Begun
    ensures { AreBegun lexed.now offset result }
{
    Begun {
        tokens: tokens_begun(lexed, near.tokens, offset),
        comments: comments_begun(lexed, near.comments, offset),
    }
}

/// How many comments end on a line before that of an offset. Those that begin behind the offset don't, and of the
/// others only the last ones can end on its line.
pub(crate) fn comments_above(lexed: &Tokens<'_, '_>, begun: Begun, offset: usize) -> usize
    requires { AreBegun lexed.now offset begun }
    ensures within { result ≤ length lexed.now.comments }
    ensures parted { IsPartitionPoint (λ c. line_of lexed.now.text c.span.end < line_of lexed.now.text offset)
        (λ c. line_of lexed.now.text offset ≤ line_of lexed.now.text c.span.end) lexed.now.comments result }
{
    let comments = lexed.comments();
    let mut above = begun.comments;
    while above > 0 {
        let last = comments[above - 1].span;
        if is_on_later_line(lexed, last.end as usize, offset) {
            return above;
        }
        above -= 1;
    }
    0
}

/// Where the lines above a token may have comments of its own: from the start of the line behind that of the token
/// before it, or from the text's start. There are no such lines if the token isn't the first on its line.
pub(crate) fn free_from(lexed: &Tokens<'_, '_>, begun: Begun, first: Span) -> Option<usize>
    requires { AreBegun lexed.now first.start begun }
    ensures { MatchOption result (IsFirstOnLine lexed.now first → ⊥)
        (λ from. IsFirstOnLine lexed.now first × IsFreeFrom lexed.now first.start from) }
{
    if begun.tokens == 0 {
        return Some(0);
    }
    let last = lexed.tokens()[begun.tokens - 1].span;
    next_start(lexed.text(), last.end as usize, first.start as usize)
}

/// Whether no token stands between two offsets.
pub(crate) fn is_none_between(lexed: &Tokens<'_, '_>, from: usize, upto: usize) -> bool
    ensures { IsTrue result ↔ NoneBetween lexed.now.tokens from upto }
{
    let ended = tokens_ended(lexed, from);
    let tokens = lexed.tokens();
    if ended == tokens.len() {
        return true;
    }
    let next = tokens[ended];
    upto <= next.span.start as usize
}

/// How many bytes are looked at for a line end at most. If there is none in them, the lines are searched for, so that a
/// long gap isn't looked at again for each comment in it.
const NEAR: usize = 256;

/// The bytes between two offsets: none if the second isn't behind the first or the text ends before.
fn between<'t>(text: &Text<'t>, from: usize, upto: usize) -> &'t [u8]
    ensures { result.now ≡ slice_range text.now from upto }
{
    let bytes = text.as_str().as_bytes();
    let rest = bytes.split_at(from.min(bytes.len())).1;
    rest.split_at(upto.saturating_sub(from).min(rest.len())).0
}

/// Where the first line end is in these bytes.
fn first_line_end(bytes: &[u8]) -> Option<usize>
    ensures { result ≡ position is_line_end bytes.now }
{
    bytes.iter().position(|byte| *byte == b'\n')
}

/// Where the line behind that of an offset starts, if it starts by another offset.
fn next_start(text: &Text<'_>, from: usize, upto: usize) -> Option<usize>
    ensures { MatchOption result (line_of text.now upto ≤ line_of text.now from) (IsNextStart text.now from upto) }
{
    match first_line_end(between(text, from, upto)) {
        Some(index) => Some(from + index + 1),
        None => None,
    }
}

/// Whether an offset is on no later line than the one behind that of another offset: whether at most one line ends
/// between them.
pub(crate) fn is_adjoining(text: &Text<'_>, from: usize, upto: usize) -> bool
    ensures { IsTrue result ↔ (line_of text.now upto ≤ line_of text.now from + 1) }
{
    match next_start(text, from, upto) {
        Some(start) => next_start(text, start, upto).is_none(),
        None => true,
    }
}

/// Whether an offset is on a later line than another: whether a line ends between them. If one ends near the other, it
/// is seen there, without a search for the lines.
pub(crate) fn is_on_later_line(lexed: &Tokens<'_, '_>, from: usize, upto: usize) -> bool
    ensures { IsTrue result ↔ (line_of lexed.now.text from < line_of lexed.now.text upto) }
{
    let text = lexed.text();
    let near = upto.min(from.saturating_add(NEAR));
    if next_start(text, from, near).is_some() {
        return true;
    }
    if near == upto {
        return false;
    }
    text.line(from) < text.line(upto)
}
