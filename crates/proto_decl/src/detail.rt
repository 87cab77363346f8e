//! How the declarations of a file read, and where they are.

ghost use Rattle.std.specs.Prelude.{◌≡◌, ◌+◌, ◌<◌, ◌≤◌, ◌^◌, ◌++◌, [], cond, not, length, drop, string_bytes};
ghost use Rattle.std.specs.Prelude.{All, IfOk, OnOk, List};
ghost use Rattle.std.specs.List.{prefix_len};
ghost use Rattle.std.specs.List.Sorted.{IsPartitionPoint};
ghost use Rattle.proto_lex.specs.Lexed.{IsPart, part_of};
ghost use Rattle.proto_parse.specs.Derives.{DerivesBySome};
ghost use Rattle.proto_parse.specs.Terminal.{is_kind};
ghost use Rattle.proto_decl.specs.Spans.{OfHeading, OfParts};
ghost use Rattle.proto_decl.specs.Walked.{in_item, parts_in_item};
ghost use Rattle.proto_decl.specs.Declares.{outlines_in};
ghost use Rattle.proto_decl.specs.Layout.{AreBegun};
ghost use Rattle.proto_decl.specs.Signatures.{IsTokenAt, HasTokenAt, IsSignatureText};
ghost use Rattle.proto_decl.specs.Signatures as spec;
ghost use Rattle.proto_decl.specs.Extents.{IsLastAt, IsEndFrom, IsEnd};
ghost use Rattle.proto_decl.specs.Detailed.{IsDetail, AreDetailsOf, AreDetails};
ghost use Rattle.proto_decl.specs.declared.declaration.Outline.{Outline};
ghost use Rattle.proto_decl.specs.declared.surrounding.Surrounding.{Surrounding as Around};

use crate::comments::leading_start;
use crate::declaration::Outline;
use crate::declaring::spans_of_tree;
use crate::layout::{Begun, begun_before, tokens_begun};
use crate::names::spelling_at;
use crate::package::{package_scope, package_spans};
use crate::surrounding::Surrounding;
use crate::walk::walk_last;
use basics::{OwnedText, Sequence};
use proto_lex::{Span, Token, TokenKind, Tokens};
use proto_parse::{File, FileItem, Heading, spans_of_tokens};
use std::alloc::{AllocError, Global};

/// How a declaration reads, and where it is.
#[derive(Debug, Drop)]
pub struct Detail {
    /// Its tokens from the first up to its options or its body, with a space where something is between two.
    pub signature: OwnedText,
    /// From the first of the comments directly above it, or else from its first token, to the end of its last token.
    pub extent: Span,
}

/// Whether a signature ends before a token of this kind: a statement's end, a body or options.
fn ends_signature(kind: TokenKind) -> bool
    ensures { result ≡ spec.ends_signature kind }
{
    matches!(
        kind,
        TokenKind::Semicolon | TokenKind::OpenBrace | TokenKind::OpenBracket
    )
}

/// The tokens behind the first ones, so many.
fn behind(tokens: &[Token], count: usize) -> &[Token]
    requires { count ≤ length tokens.now }
    ensures value { result.now ≡ drop count tokens.now }
    ensures len { length result.now + count ≡ length tokens.now }
{
    tokens.split_at(count).1
}

/// How many tokens come before the first that ends a signature.
fn len_up_to_ending(tokens: &[Token]) -> usize
    ensures value { result ≡ prefix_len (λ t. not (spec.ends_signature t.kind)) tokens.now }
    ensures within { result ≤ length tokens.now }
{
    tokens
        .iter()
        .take_while(|token| !ends_signature(token.kind))
        .count()
}

/// The tokens up to the first that ends a signature.
fn up_to_ending(tokens: &[Token]) -> &[Token]
    ensures { result.now ≡ spec.up_to_ending tokens.now }
{
    tokens.split_at(len_up_to_ending(tokens)).0
}

/// Appends a space, if anything is between two tokens.
fn push_gap(signature: &mut String, before: Span, next: Span) -> Result<(), AllocError>
    ensures { OnOk result (string_bytes signature.new
        ≡ string_bytes signature.old ++ spec.gap_between before next) }
{
    if before.end == next.start {
        return Ok(());
    }
    signature.push_str(" ")?;
    Ok(())
}

/// Appends the spellings of tokens behind one, with a space where something is between two.
fn push_behind(
    signature: &mut String,
    text: &str,
    first: Span,
    tokens: &[Token],
) -> Result<(), AllocError>
    requires { All (λ t. IsPart text.now t.span) tokens.now }
    ensures { OnOk result (string_bytes signature.new
        ≡ string_bytes signature.old ++ spec.spelled_behind text.now first tokens.now) }
{
    let mut before = first;
    for token in tokens {
        push_gap(signature, before, token.span)?;
        signature.push_str(spelling_at(text, token.span))?;
        before = token.span;
    }
    Ok(())
}

/// That the token at a span has as index how many tokens begin before it.
fn at_begun(lexed: &Tokens<'_, '_>, begun: usize, span: Span)
    requires begun { IsPartitionPoint (λ t. t.span.start < span.start)
        (λ t. span.start ≤ t.span.start) lexed.now.tokens begun }
    requires token { HasTokenAt lexed.now span }
    ensures at { IsTokenAt lexed.now span begun }
    ensures within { begun < length lexed.now.tokens }
    ensures part { IsPart lexed.now.text span }
{
    lexed.tokens();
}

/// No fewer bytes than the signature with these tokens has: those from the first one's start to the last one's end.
fn room_for(first: Span, others: &[Token]) -> usize {
    let end = match others.last() {
        Some(last) => last.span.end,
        None => first.end,
    };
    end.saturating_sub(first.start) as usize
}

/// The signature of a declaration with this first token, which has this index.
fn signature_of(
    alloc: Global,
    lexed: &Tokens<'_, '_>,
    index: usize,
    first: Span,
) -> Result<OwnedText, AllocError>
    requires within { index < length lexed.now.tokens }
    requires part { IsPart lexed.now.text first }
    ensures { IfOk result (λ signature. signature ≡ part_of lexed.now.text first
        ++ spec.spelled_behind lexed.now.text first (spec.up_to_ending (drop (index + 1) lexed.now.tokens))) }
{
    let text = lexed.text().as_str();
    let others = up_to_ending(behind(lexed.tokens(), index + 1));
    let mut signature = String::with_capacity(alloc, room_for(first, others))?;
    signature.push_str(spelling_at(text, first))?;
    push_behind(&mut signature, text, first, others)?;
    Ok(OwnedText::from_string(signature))
}

/// The signature of a declaration with this first token, before which so many tokens and comments begin.
fn signature_at(
    alloc: Global,
    lexed: &Tokens<'_, '_>,
    begun: Begun,
    first: Span,
) -> Result<OwnedText, AllocError>
    requires begun { AreBegun lexed.now first.start begun }
    requires token { HasTokenAt lexed.now first }
    ensures { IfOk result (IsSignatureText lexed.now first) }
{
    at_begun(lexed, begun.tokens, first);
    signature_of(alloc, lexed, begun.tokens, first)
}

/// A count, with one more for a token of the wanted kind.
fn count_kind(count: usize, kind: TokenKind, wanted: TokenKind) -> usize
    requires { count + 1 < 2 ^ 64 }
    ensures { result ≡ count + cond (is_kind wanted kind) 1 0 }
{
    if kind == wanted { count + 1 } else { count }
}

/// How many tokens are between the first and the last of those that a declaration's closing token begins, the first
/// counted. They are gone over once, so a token is for each message that it is in, and those aren't many.
fn last_at(tokens: &[Token]) -> usize
    requires { 0 < length tokens.now }
    ensures { IsLastAt tokens.now result }
{
    let mut opened = 0;
    let mut closed = 0;
    for index in 0..tokens.len() {
        let kind = tokens[index].kind;
        opened = count_kind(opened, kind, TokenKind::OpenBrace);
        closed = count_kind(closed, kind, TokenKind::CloseBrace);
        if opened <= closed {
            return index;
        }
    }
    tokens.len() - 1
}

/// The end of the last of the tokens that the one with an index begins.
fn end_from(lexed: &Tokens<'_, '_>, index: usize) -> u32
    requires { index < length lexed.now.tokens }
    ensures { IsEndFrom lexed.now index result }
{
    let tokens = lexed.tokens();
    let count = last_at(behind(tokens, index));
    tokens[index + count].span.end
}

/// The end of the last token of a declaration with this closing token. So many tokens and comments begin before its
/// first token.
fn end_of(lexed: &Tokens<'_, '_>, begun: Begun, closing: Span) -> u32
    requires { HasTokenAt lexed.now closing }
    ensures { IsEnd lexed.now closing result }
{
    let index = tokens_begun(lexed, begun.tokens, closing.start as usize);
    at_begun(lexed, index, closing);
    end_from(lexed, index)
}

/// How a declaration with this heading reads, and where it is. So many tokens and comments begin before its first
/// token.
fn detail_of(
    alloc: Global,
    lexed: &Tokens<'_, '_>,
    begun: Begun,
    heading: Heading,
) -> Result<Detail, AllocError>
    requires begun { AreBegun lexed.now heading.first.start begun }
    requires tokens { OfHeading (HasTokenAt lexed.now) heading }
    ensures { IfOk result (IsDetail lexed.now heading) }
{
    let signature = signature_at(alloc, lexed, begun, heading.first)?;
    let start = leading_start(lexed, begun, heading.first);
    let end = end_of(lexed, begun, heading.closing);
    Ok(Detail {
        signature,
        extent: Span { start, end },
    })
}

/// The details so far, and how many tokens and comments begin before the last declaration's first token.
#[derive(Drop)]
struct Detailed {
    details: Vec<Detail>,
    begun: Begun,
}

/// Appends how declarations read, and where they are. They are in the order of their first tokens, so each one's is
/// looked for from that of the one before on.
fn push_details(
    alloc: Global,
    lexed: &Tokens<'_, '_>,
    outlines: &[Outline<'_>],
    detailed: &mut Detailed,
) -> Result<(), AllocError>
    requires { All (λ outline. OfHeading (HasTokenAt lexed.now) outline.heading) outlines.now }
    ensures { OnOk result ((before : List Outline)
        → AreDetailsOf lexed.now before detailed.old.details.items
        → AreDetailsOf lexed.now (before ++ outlines.now) detailed.new.details.items) }
{
    for outline in outlines {
        let heading = outline.heading();
        detailed.begun = begun_before(lexed, detailed.begun, heading.first.start as usize);
        let detail = detail_of(alloc, lexed, detailed.begun, heading)?;
        detailed.details.push(detail)?;
    }
    Ok(())
}

/// How what items declare reads, and where it is, at a surrounding. The outlines of each item are let go when its
/// details are made.
fn details_at<'t>(
    alloc: Global,
    lexed: &Tokens<'_, 't>,
    text: &'t str,
    surrounding: &Surrounding<'t>,
    items: &[FileItem],
) -> Result<Vec<Detail>, AllocError>
    requires parts { All (λ item. OfParts (IsPart text.now) (parts_in_item item)) items.now }
    requires tokens { All (λ item. All (λ outline. OfHeading (HasTokenAt lexed.now) outline.heading)
        (in_item text.now surrounding.now item)) items.now }
    ensures { IfOk result (λ details. AreDetailsOf lexed.now
        (outlines_in text.now surrounding.now items.now) details.items) }
{
    let mut detailed = Detailed {
        details: Vec::with_capacity(alloc, items.len())?,
        begun: Begun {
            tokens: 0,
            comments: 0,
        },
    };
    for item in items {
        let found = walk_last(alloc, text, surrounding, item, Vec::new(alloc))?;
        push_details(alloc, lexed, found.outlines.as_slice(), &mut detailed)?;
    }
    Ok(detailed.details)
}

/// What is known of the headings of what items of a tree declare that these tokens derive.
fn headings_of_tree(lexed: &Tokens<'_, '_>, file: &File)
    requires { DerivesBySome lexed.now.text lexed.now.tokens file.now }
    ensures { (surrounding : Around) → All (λ item. All (λ outline. OfHeading (HasTokenAt lexed.now) outline.heading)
        (in_item lexed.now.text surrounding item)) file.now.items }
{
    spans_of_tokens();
}

/// The details of what a file's items declare, in the scope of the file's package.
fn details_in<'t>(
    alloc: Global,
    lexed: &Tokens<'_, 't>,
    text: &'t str,
    scope: OwnedText,
    items: &[FileItem],
) -> Result<Vec<Detail>, AllocError>
    requires parts { All (λ item. OfParts (IsPart text.now) (parts_in_item item)) items.now }
    requires tokens { (surrounding : Around) → All (λ item. All (λ outline.
        OfHeading (HasTokenAt lexed.now) outline.heading) (in_item text.now surrounding item)) items.now }
    ensures { IfOk result (λ details. AreDetailsOf lexed.now
        (outlines_in text.now (record { scope = scope; path = [] }) items.now) details.items) }
{
    let surrounding = Surrounding::new(alloc, scope, Sequence::new(alloc))?;
    details_at(alloc, lexed, text, &surrounding, items)
}

/// How the declarations of a file read, and where they are: one for each declaration that [`declare`](crate::declare)
/// gives, in the same order. The tree must be that of these tokens. It is refused only for want of memory.
pub fn details_of(
    alloc: Global,
    lexed: &Tokens<'_, '_>,
    file: &File,
) -> Result<Sequence<Detail>, AllocError>
    requires { DerivesBySome lexed.now.text lexed.now.tokens file.now }
    ensures { IfOk result (AreDetails lexed.now file.now) }
{
    spans_of_tree(lexed, file);
    headings_of_tree(lexed, file);
    let text = lexed.text().as_str();
    let scope = package_scope(alloc, text, package_spans(file))?;
    let mut details = details_in(alloc, lexed, text, scope, file.items.as_slice())?;
    details.shrink_to_fit();
    Ok(Sequence::from_vec(details))
}
