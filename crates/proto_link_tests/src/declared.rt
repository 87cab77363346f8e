//! The calls that may want for memory, which are made again after it: the second answer counts.

use crate::listed::is_listed;
use comment_texts::CommentForm;
use proto_decl::{FileFacts, declare, declare_in};
use proto_lex::{Text, Tokens};
use proto_parse::{Dialect, parse_with};
use std::alloc::Global;
use test_kit::{text_of, tokens_of};

/// The facts of tokens, of the file with the number 7, with the texts of comments in this form; nothing if they derive no
/// tree, or if memory runs out.
fn facts_once<'t>(
    alloc: Global,
    form: CommentForm,
    tokens: &Tokens<'_, 't>,
) -> Option<FileFacts<'t>> {
    match parse_with(alloc, tokens, Dialect::All) {
        Ok(file) => match form {
            CommentForm::Raw => declare(alloc, 7, tokens, &file).ok(),
            form => declare_in(alloc, form, 7, tokens, &file).ok(),
        },
        Err(_) => None,
    }
}

/// The same, tried again if there are none.
fn facts_of<'t>(
    alloc: Global,
    form: CommentForm,
    tokens: &Tokens<'_, 't>,
) -> Option<FileFacts<'t>> {
    match facts_once(alloc, form, tokens) {
        Some(facts) => Some(facts),
        None => facts_once(alloc, form, tokens),
    }
}

/// Whether the facts of tokens are listed as is due. They are listed again if not, since a part may lack for want of
/// memory.
fn are_tokens_listed(
    alloc: Global,
    form: CommentForm,
    tokens: &Tokens<'_, '_>,
    want: &str,
) -> bool {
    let source = tokens.text().as_str();
    match facts_of(alloc, form, tokens) {
        Some(facts) => {
            is_listed(alloc, source, &facts, want) || is_listed(alloc, source, &facts, want)
        }
        None => false,
    }
}

/// The same of a text.
fn is_text_listed(alloc: Global, form: CommentForm, text: &Text<'_>, want: &str) -> bool {
    match tokens_of(alloc, text) {
        Ok(tokens) => are_tokens_listed(alloc, form, &tokens, want),
        Err(_) => false,
    }
}

/// Whether the facts of a whole source, with the number 7 and the texts of comments in this form, are what a listing
/// says.
pub(crate) fn is_source_listed(alloc: Global, form: CommentForm, source: &str, want: &str) -> bool {
    match text_of(alloc, source.as_bytes()) {
        Ok(text) => is_text_listed(alloc, form, &text, want),
        Err(_) => false,
    }
}
