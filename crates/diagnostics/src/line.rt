//! The line of a place.

ghost use Rattle.std.specs.Prelude.{◌≡◌, ◌+◌, ◌≤◌, ◌++◌, [], ◌∷◌, MatchOption, OnOk, false, length, take, drop, not};
ghost use Rattle.std.specs.List.{after_last, before_first, prefix_len, suffix_len};
ghost use Rattle.std.specs.String.{string_bytes};
ghost use Rattle.proto_lex.specs.Bytes.{is_quote, is_word};
ghost use Rattle.proto_lex.specs.Position.{is_line_end};
ghost use Rattle.diagnostics.specs.Characters.{characters};
ghost use Rattle.diagnostics.specs.Places.{
  closing_len,
  first_len,
  place_text,
  sign_len,
  token_len,
  without_return,
};
ghost use Rattle.diagnostics.specs.Tables.Steps.{closes, escapes};

use crate::characters::first_character;
use crate::counter::LineCounter;
use crate::shown::push_text;
use std::alloc::AllocError;

/// Whether the byte ends a line.
pub(crate) fn is_line_end(byte: u8) -> bool
    ensures { result ≡ is_line_end byte }
{
    byte == b'\n'
}

/// Whether the byte is a letter, a digit or `_`.
fn is_word(byte: u8) -> bool
    ensures { result ≡ is_word byte }
{
    matches!(byte, b'A'..=b'Z' | b'a'..=b'z' | b'_' | b'0'..=b'9')
}

/// The bytes before an offset, and those from it on. Past the end there are none.
pub(crate) fn cut(bytes: &[u8], at: usize) -> (&[u8], &[u8])
    ensures front { result.0.now ≡ take at bytes.now }
    ensures back { result.1.now ≡ drop at bytes.now }
{
    if at < bytes.len() {
        bytes.split_at(at)
    } else {
        (bytes, &[])
    }
}

/// How many bytes come after the last line end.
pub(crate) fn last_line_len(text: &[u8]) -> usize
    ensures value { result ≡ suffix_len (λ byte. not (is_line_end byte)) text.now }
    ensures within { result ≤ length text.now }
{
    text.iter().rev().take_while(|byte| **byte != b'\n').count()
}

/// What comes after the last line end of a text.
pub(crate) fn last_line(text: &[u8]) -> &[u8]
    ensures { result.now ≡ after_last is_line_end text.now }
{
    text.split_at(text.len() - last_line_len(text)).1
}

/// The line without the `\r` that ends it.
fn without_return(line: &[u8]) -> &[u8]
    ensures { result.now ≡ without_return line.now }
{
    match line {
        [] => line,
        [front @ .., last] => if *last == b'\r' { front } else { line },
    }
}

/// How many bytes come before the first line end.
pub(crate) fn line_len(text: &[u8]) -> usize
    ensures value { result ≡ prefix_len (λ byte. not (is_line_end byte)) text.now }
    ensures within { result ≤ length text.now }
{
    text.iter().take_while(|byte| **byte != b'\n').count()
}

/// What comes before the first line end of a text.
pub(crate) fn first_line(text: &[u8]) -> &[u8]
    ensures { result.now ≡ without_return (before_first is_line_end text.now) }
{
    without_return(text.split_at(line_len(text)).0)
}

/// How many letters, digits and `_` the bytes begin with.
fn word_len(bytes: &[u8]) -> usize
    ensures value { result ≡ prefix_len is_word bytes.now }
    ensures within { result ≤ length bytes.now }
{
    bytes.iter().take_while(|byte| is_word(**byte)).count()
}

/// Whether the byte opens a string literal.
pub(crate) fn is_quote(byte: u8) -> bool
    ensures { result ≡ is_quote byte }
{
    matches!(byte, b'"' | b'\'')
}

/// Whether the byte of a string literal escapes the one after it.
fn escapes(escaped: bool, byte: u8) -> bool
    ensures { result ≡ escapes escaped byte }
{
    !escaped && byte == b'\\'
}

/// Whether the byte closes a string literal.
fn closes(quote: u8, escaped: bool, byte: u8) -> bool
    ensures { result ≡ closes quote escaped byte }
{
    !escaped && byte == quote
}

/// The first byte, and those after it.
fn first_byte(bytes: &[u8]) -> Option<(u8, &[u8])>
    ensures { MatchOption result (bytes.now ≡ []) (λ parts. bytes.now ≡ parts.0 ∷ parts.1.now) }
{
    match bytes {
        [] => None,
        [first, others @ ..] => Some((*first, others)),
    }
}

/// How many bytes a string literal has after its opening quote: up to its closing one, or all.
fn closing_len(quote: u8, others: &[u8]) -> usize
    ensures len { result ≡ closing_len quote others.now }
    ensures within { result ≤ length others.now }
{
    let mut rest = others;
    let mut count = 0;
    let mut escaped = false;
    'bytes: while let Some((byte, behind)) = first_byte(rest) {
        count += 1;
        if closes(quote, escaped, byte) {
            return count;
        }
        escaped = escapes(escaped, byte);
        rest = behind;
    }
    count
}

/// How many bytes the first character has.
fn first_len(bytes: &[u8]) -> usize
    ensures len { result ≡ first_len (characters bytes.now) }
    ensures within { result ≤ length bytes.now }
{
    match first_character(bytes) {
        Some((character, _)) => character.len(),
        None => 0,
    }
}

/// How many bytes the string literal has that the bytes begin with, or else their first character.
fn sign_len(bytes: &[u8]) -> usize
    ensures len { result ≡ sign_len bytes.now }
    ensures within { result ≤ length bytes.now }
{
    match first_byte(bytes) {
        Some((byte, others)) => {
            if is_quote(byte) {
                1 + closing_len(byte, others)
            } else {
                first_len(bytes)
            }
        }
        None => 0,
    }
}

/// How many bytes the token has that the bytes begin with: letters, digits and `_`, or a string literal, or else one
/// character.
pub fn token_len(bytes: &[u8]) -> usize
    ensures len { result ≡ token_len bytes.now }
    ensures within { result ≤ length bytes.now }
{
    let len = word_len(bytes);
    if len > 0 { len } else { sign_len(bytes) }
}

/// Appends the place of an offset of the counter's text: `PATH:LINE:COLUMN: `, the path as it is shown.
pub fn push_place(
    out: &mut String,
    path: &str,
    counter: &mut LineCounter<'_>,
    at: usize,
) -> Result<(), AllocError>
    ensures place { OnOk result (string_bytes out.new
        ≡ string_bytes out.old ++ place_text path.now counter.old at) }
    ensures same { counter.new ≡ counter.old }
{
    let (line, column) = counter.line_and_column(at);
    push_text(out, path)?;
    write!(out, ":{line}:{column}: ")
}
