//! Which comments document a declaration, and their texts.

ghost use Rattle.std.specs.Prelude.{ℕ, ◌≡◌, ◌+◌, ◌<◌, ◌≤◌, ◌↔◌, ◌∷◌, map, All, IsTrue, IfOk};
ghost use Rattle.std.specs.Prelude.{IfSome, MatchOption};
ghost use Rattle.std.specs.List.{join_with_byte};
ghost use Rattle.std.specs.Io.BufRead.{strip_last};
ghost use Rattle.proto_lex.specs.Position.{line_of};
ghost use Rattle.proto_lex.specs.Lexed.{AreApart};
ghost use Rattle.proto_lex.specs.CommentTexts.{StandsAlone, NoneBetween};
ghost use Rattle.proto_lex.specs.declared.token.Comment.{Comment};
ghost use Rattle.proto_lex.specs.Ascii as ascii;
ghost use Rattle.proto_lex.specs.CommentTexts as texts;
ghost use Rattle.comment_texts.specs.Comments.{IsCommentIn};
ghost use Rattle.comment_texts.specs.Cleaned.{clean_text as cleaned_text, written_in};
ghost use Rattle.proto_decl.specs.Layout.{AreBegun, IsFreeFrom};
ghost use Rattle.proto_decl.specs.Extents.{BeginsAt};
ghost use Rattle.proto_decl.specs.Comments.{text_of};
ghost use Rattle.proto_decl.specs.Comments as spec;

use crate::layout::{
    Begun, comments_above, comments_begun, free_from, is_adjoining, is_none_between,
    is_on_later_line,
};
use basics::{KeptText, OwnedText};
use comment_texts::{CommentForm, between_marks, clean_text, push_next_line, without_nul};
use proto_lex::{Comment, CommentKind, Span, Tokens};
use std::alloc::{AllocError, Global};

/// Whether the comment at this span, which ends above a token, can lead what begins at `next`: it stands alone, and at
/// most one line ends between. No token before that one is on the lines from `from` on.
fn leads(lexed: &Tokens<'_, '_>, comment: Span, from: usize, next: usize) -> bool
    requires some { comment.start ≤ comment.end }
    requires apart { All (λ t. AreApart t.span comment) lexed.now.tokens }
    requires next { from ≤ next }
    ensures behind { IsTrue result → from ≤ comment.start }
    ensures leads { (offset : ℕ) → IsFreeFrom lexed.now offset from
        → line_of lexed.now.text comment.end < line_of lexed.now.text offset
        → IsTrue result ↔ ((line_of lexed.now.text next ≤ line_of lexed.now.text comment.end + 1)
        × StandsAlone lexed.now.text lexed.now.tokens comment) }
{
    if (comment.start as usize) < from {
        return false;
    }
    is_adjoining(lexed.text(), comment.end as usize, next)
}

/// The longest list of comments that lead the token at an offset, above which the lines are free of tokens from `from`
/// on.
fn leading_comments<'a>(
    lexed: &'a Tokens<'_, '_>,
    begun: Begun,
    from: usize,
    offset: usize,
) -> &'a [Comment]
    requires begun { AreBegun lexed.now offset begun }
    requires free { IsFreeFrom lexed.now offset from }
    ensures longest { spec.AreLongestLeading lexed.now (line_of lexed.now.text offset) result.now }
    ensures stand { All (IsCommentIn lexed.now.text) result.now }
{
    let comments = lexed.comments();
    let end = comments_above(lexed, begun, offset);
    let mut start = end;
    let mut next = offset;
    while start > 0 {
        let comment = comments[start - 1].span;
        if !leads(lexed, comment, from, next) {
            return &comments[start..end];
        }
        next = comment.start as usize;
        start -= 1;
    }
    &comments[..end]
}

/// No fewer bytes than the joined texts of a comment and others have: those from its start to the end of the last.
fn room_for(first: Comment, others: &[Comment]) -> usize {
    match others.last() {
        Some(last) => last.span.end.saturating_sub(first.span.start) as usize,
        None => 0,
    }
}

/// The texts of a comment and of others after it, a line each.
fn joined_texts(
    alloc: Global,
    lexed: &Tokens<'_, '_>,
    first: Comment,
    others: &[Comment],
) -> Result<OwnedText, AllocError>
    requires first { IsCommentIn lexed.now.text first }
    requires others { All (IsCommentIn lexed.now.text) others.now }
    ensures { IfOk result (λ text. text ≡ join_with_byte ascii.line_feed
        (map (spec.text_of lexed.now) (first ∷ others.now))) }
{
    let mut joined = String::with_capacity(alloc, room_for(first, others))?;
    joined.push_str(text_of(lexed, first))?;
    for comment in others {
        push_next_line(&mut joined, text_of(lexed, *comment))?;
    }
    Ok(OwnedText::from_string(joined))
}

/// The texts of comments, a line each.
fn texts_of<'t>(
    alloc: Global,
    lexed: &Tokens<'_, 't>,
    comments: &[Comment],
) -> Result<KeptText<'t>, AllocError>
    requires { All (IsCommentIn lexed.now.text) comments.now }
    ensures { IfOk result (λ text. text ≡ join_with_byte ascii.line_feed (map (spec.text_of lexed.now) comments.now)) }
{
    match comments {
        [] => Ok(KeptText::borrowed("")),
        [comment] => Ok(KeptText::borrowed(text_of(lexed, *comment))),
        [first, others @ ..] => {
            let joined = joined_texts(alloc, lexed, *first, others)?;
            KeptText::owned(alloc, joined)
        }
    }
}

/// The cleaned text of comments.
fn cleaned<'t>(
    alloc: Global,
    lexed: &Tokens<'_, 't>,
    comments: &[Comment],
) -> Result<KeptText<'t>, AllocError>
    requires { All (IsCommentIn lexed.now.text) comments.now }
    ensures { IfOk result (λ text. text ≡ cleaned_text (map (written_in lexed.now.text) comments.now)) }
{
    clean_text(alloc, lexed.text().as_str(), comments)
}

/// The texts of comments, in a form. It is looked at only if there are any.
fn texts_in<'t>(
    alloc: Global,
    form: CommentForm,
    lexed: &Tokens<'_, 't>,
    comments: &[Comment],
) -> Result<KeptText<'t>, AllocError>
    requires { All (IsCommentIn lexed.now.text) comments.now }
    ensures { IfOk result (λ text. text ≡ spec.texts_in form lexed.now comments.now) }
{
    match comments {
        [] => Ok(KeptText::borrowed("")),
        _ => texts_by_form(alloc, form, lexed, comments),
    }
}

/// The texts of comments, by the form.
fn texts_by_form<'t>(
    alloc: Global,
    form: CommentForm,
    lexed: &Tokens<'_, 't>,
    comments: &[Comment],
) -> Result<KeptText<'t>, AllocError>
    requires { All (IsCommentIn lexed.now.text) comments.now }
    ensures { IfOk result (λ text. text ≡ spec.texts_in form lexed.now comments.now) }
{
    match form {
        CommentForm::Raw => texts_of(alloc, lexed, comments),
        CommentForm::Clean => cleaned(alloc, lexed, comments),
        CommentForm::RawWithoutNul => without_nul(alloc, texts_of(alloc, lexed, comments)?),
        CommentForm::CleanWithoutNul => without_nul(alloc, cleaned(alloc, lexed, comments)?),
    }
}

/// The leading text, in a form, of a declaration with this first token, before which so many tokens and comments
/// begin.
pub(crate) fn leading_text<'t>(
    alloc: Global,
    form: CommentForm,
    lexed: &Tokens<'_, 't>,
    begun: Begun,
    first: Span,
) -> Result<KeptText<'t>, AllocError>
    requires { AreBegun lexed.now first.start begun }
    ensures { IfOk result (λ text. spec.IsLeadingText form lexed.now first text) }
{
    match free_from(lexed, begun, first) {
        Some(from) => texts_in(
            alloc,
            form,
            lexed,
            leading_comments(lexed, begun, from, first.start as usize),
        ),
        None => Ok(KeptText::borrowed("")),
    }
}

/// Where a declaration with this first token begins, before which so many tokens and comments begin: where the first of
/// its leading comments does, if it has any.
pub(crate) fn leading_start(lexed: &Tokens<'_, '_>, begun: Begun, first: Span) -> u32
    requires { AreBegun lexed.now first.start begun }
    ensures { BeginsAt lexed.now first result }
{
    let Some(from) = free_from(lexed, begun, first) else {
        return first.start;
    };
    match leading_comments(lexed, begun, from, first.start as usize) {
        [comment, ..] => comment.span.start,
        [] => first.start,
    }
}

/// Whether the comment at this span, which begins behind another span, does so on the line on which that one
/// ends, with no token between.
fn follows(lexed: &Tokens<'_, '_>, comment: Span, closing: Span) -> bool
    requires { closing.end ≤ comment.start }
    ensures { IsTrue result ↔ (line_of lexed.now.text comment.start ≡ line_of lexed.now.text closing.end)
        × NoneBetween lexed.now.tokens closing.end comment.start }
{
    if is_on_later_line(lexed, closing.end as usize, comment.start as usize) {
        return false;
    }
    is_none_between(lexed, closing.end as usize, comment.start as usize)
}

/// The comment that trails a declaration with this closing token, looked for from the comment with the index `near` on.
fn trailing_comment(lexed: &Tokens<'_, '_>, near: usize, closing: Span) -> Option<Comment>
    ensures found { MatchOption result ((comment : Comment) → spec.IsTrailing lexed.now closing comment → ⊥)
        (spec.IsTrailing lexed.now closing) }
    ensures stands { IfSome result (IsCommentIn lexed.now.text) }
{
    let comments = lexed.comments();
    let begun = comments_begun(lexed, near, closing.end as usize);
    if begun == comments.len() {
        return None;
    }
    let comment = comments[begun];
    if !follows(lexed, comment.span, closing) {
        return None;
    }
    Some(comment)
}

/// The trailing text, in a form, of a declaration with this closing token, looked for from the comment with the index
/// `near` on.
pub(crate) fn trailing_text<'t>(
    alloc: Global,
    form: CommentForm,
    lexed: &Tokens<'_, 't>,
    near: usize,
    closing: Span,
) -> Result<KeptText<'t>, AllocError>
    ensures { IfOk result (λ text. spec.IsTrailingText form lexed.now closing text) }
{
    match trailing_comment(lexed, near, closing) {
        Some(comment) => texts_in(alloc, form, lexed, &[comment]),
        None => Ok(KeptText::borrowed("")),
    }
}

/// A text without one `\r` at its end.
fn without_return(text: &str) -> &str
    ensures { result.now ≡ strip_last ascii.carriage_return text.now }
{
    if text.ends_with('\r') {
        &text[..text.len() - 1]
    } else {
        text
    }
}

/// A text without one space at its start.
fn without_first_space(text: &str) -> &str
    ensures { result.now ≡ texts.without_first_space text.now }
{
    if text.starts_with(' ') {
        &text[1..]
    } else {
        text
    }
}

/// The text of a comment.
fn text_of<'t>(lexed: &Tokens<'_, 't>, comment: Comment) -> &'t str
    requires { IsCommentIn lexed.now.text comment }
    ensures { result.now ≡ text_of lexed.now comment }
{
    let between = between_marks(lexed.text().as_str(), comment);
    match comment.kind {
        CommentKind::Line => without_first_space(without_return(between)),
        CommentKind::Block => between,
    }
}
