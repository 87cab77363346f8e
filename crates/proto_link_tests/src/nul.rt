//! Texts with U+FFFD in place of each NUL.

use crate::calls::see;
use basics::KeptText;
use comment_texts::{CommentForm, without_nul};
use std::alloc::{AllocError, Global};

/// Texts, and what is shown of them.
const SHOWN: [(&str, &str); 6] = [
    ("", ""),
    ("caf\u{e9}", "caf\u{e9}"),
    ("\0", "\u{fffd}"),
    ("caf\0 au lait", "caf\u{fffd} au lait"),
    ("\0\0\u{e9}\0", "\u{fffd}\u{fffd}\u{e9}\u{fffd}"),
    ("\n\0\n", "\n\u{fffd}\n"),
];

/// What is shown of a text. It is asked for again after want of memory.
fn shown<'t>(alloc: Global, text: &'t str) -> Result<KeptText<'t>, AllocError> {
    match without_nul(alloc, KeptText::borrowed(text)) {
        Err(AllocError) => without_nul(alloc, KeptText::borrowed(text)),
        answer => answer,
    }
}

/// Whether this is shown of a text.
fn is_shown_as(alloc: Global, text: &str, want: &str) -> bool {
    match shown(alloc, text) {
        Ok(text) => text.as_str() == want,
        Err(_) => false,
    }
}

/// The first row of which something else is shown.
fn first_other(alloc: Global, rows: &[(&str, &str)]) -> Option<usize> {
    for (index, (text, want)) in rows.iter().enumerate() {
        if !is_shown_as(alloc, text, want) {
            return Some(index);
        }
    }
    None
}

#[test]
fn nul_is_replaced(rt: HostRuntime) {
    see(&rt, first_other(rt.alloc(), &SHOWN));
}

/// Forms, and the same without NUL.
const FORMS: [(CommentForm, CommentForm); 4] = [
    (CommentForm::Raw, CommentForm::RawWithoutNul),
    (CommentForm::Clean, CommentForm::CleanWithoutNul),
    (CommentForm::RawWithoutNul, CommentForm::RawWithoutNul),
    (CommentForm::CleanWithoutNul, CommentForm::CleanWithoutNul),
];

/// The first row of which the second form isn't the first one without NUL.
fn first_other_form(rows: &[(CommentForm, CommentForm)]) -> Option<usize> {
    for (index, (form, want)) in rows.iter().enumerate() {
        if form.nul_replaced() != *want {
            return Some(index);
        }
    }
    None
}

#[test]
fn forms_without_nul(rt: HostRuntime) {
    see(&rt, first_other_form(&FORMS));
}
