//! Texts with U+FFFD in place of each NUL.

ghost use Rattle.std.specs.Prelude.{◌≡◌, ◌++◌, ◌<◌, ◌≤◌, length, IfOk, string_bytes};
ghost use Rattle.std.specs.List.{prefix_len};
ghost use Rattle.comment_texts.specs.Nul as spec;

use basics::{KeptText, OwnedText};
use std::alloc::{AllocError, Global};

/// Whether a byte is no NUL.
fn is_plain(byte: u8) -> bool
    ensures { result ≡ spec.is_plain byte }
{
    byte != 0
}

/// How many bytes come before the first NUL, or the end.
fn plain_len(text: &str) -> usize
    ensures value { result ≡ prefix_len spec.is_plain text.now }
    ensures within { result ≤ length text.now }
{
    text.as_bytes()
        .iter()
        .take_while(|byte| is_plain(**byte))
        .count()
}

/// Appends what is shown of a text up to its first NUL, and gives what is behind that.
fn show_on<'t>(shown: &mut String, text: &'t str) -> Result<&'t str, AllocError>
    ensures on { IfOk result (λ left. string_bytes shown.new ++ spec.without_nul left.now
        ≡ string_bytes shown.old ++ spec.without_nul text.now) }
    ensures shorter { 0 < length text.now → IfOk result (λ left. length left.now < length text.now) }
{
    let len = plain_len(text);
    shown.push_str(&text[..len])?;
    if len == text.len() {
        return Ok("");
    }
    shown.push('\u{fffd}')?;
    Ok(&text[len + 1..])
}

/// A text with U+FFFD in place of each NUL, as a new one.
fn replaced(alloc: Global, text: &str) -> Result<OwnedText, AllocError>
    ensures { IfOk result (λ shown. shown ≡ spec.without_nul text.now) }
{
    let mut shown = String::with_capacity(alloc, text.len())?;
    let mut rest = text;
    while !rest.is_empty() {
        rest = show_on(&mut shown, rest)?;
    }
    Ok(OwnedText::from_string(shown))
}

/// A text with U+FFFD in place of each NUL. If it has none, it takes no memory.
pub fn without_nul<'t>(alloc: Global, text: KeptText<'t>) -> Result<KeptText<'t>, AllocError>
    ensures { IfOk result (λ shown. shown ≡ spec.without_nul text.entry) }
{
    if plain_len(text.as_str()) == text.as_str().len() {
        return Ok(text);
    }
    let shown = replaced(alloc, text.as_str())?;
    KeptText::owned(alloc, shown)
}
