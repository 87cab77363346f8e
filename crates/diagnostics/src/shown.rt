//! What is shown of characters, and the marks below them.

ghost use Rattle.std.specs.Prelude.{◌≡◌, ◌≤◌, ◌<◌, ◌++◌, false, true, MatchOption, OnOk, take};
ghost use Rattle.std.specs.List.{flat_map, list_any};
ghost use Rattle.std.specs.Str.{chars};
ghost use Rattle.std.specs.String.{string_bytes};
ghost use Rattle.std.specs.Char.{digit_char, encode_utf8};
ghost use Rattle.diagnostics.specs.Characters.{characters};
ghost use Rattle.diagnostics.specs.Shown.{escaped, is_obeyed, is_plain, is_tab, mark, marks, shown, shown_text, turns};
ghost use Rattle.diagnostics.specs.Tables.Steps.{four, signs};

use crate::characters::{count_characters, first_character};
use std::alloc::AllocError;

/// Whether the character turns the direction in which others are shown.
fn turns(character: char) -> bool
    ensures { result ≡ turns character }
{
    matches!(
        character,
        '\u{61c}'
            | '\u{200e}'..='\u{200f}'
            | '\u{202a}'..='\u{202e}'
            | '\u{2066}'..='\u{2069}'
    )
}

/// Whether a terminal obeys the character.
fn is_obeyed(character: char) -> bool
    ensures { result ≡ is_obeyed character }
{
    (character.is_control() && character != '\t') || turns(character)
}

/// Whether a terminal obeys a character of the text.
fn has_obeyed(text: &str) -> bool
    ensures { result ≡ list_any is_obeyed (chars text.now) }
{
    text.chars().any(|character| is_obeyed(character))
}

/// Whether the character is a tab.
fn is_tab(character: &[u8]) -> bool
    ensures { result ≡ is_tab character.now }
{
    match character {
        [byte] => *byte == b'\t',
        _ => false,
    }
}

/// The character, if it is shown as it is.
fn plain_text(character: &[u8]) -> Option<&str>
    ensures { MatchOption result (is_plain character.now ≡ false)
        (λ text. (is_plain character.now ≡ true) × (text.now ≡ character.now)) }
{
    match str::from_utf8(character) {
        Ok(text) => if has_obeyed(text) { None } else { Some(text) },
        Err(_) => None,
    }
}

/// Appends a hexadecimal digit.
fn push_digit(out: &mut String, digit: u8) -> Result<(), AllocError>
    requires { digit < 16 }
    ensures { OnOk result (string_bytes out.new ≡ string_bytes out.old ++ encode_utf8 (digit_char digit)) }
{
    out.push(char::from_digit(digit as u32, 16).unwrap())
}

/// Appends the escape of a byte.
fn push_escape(out: &mut String, byte: u8) -> Result<(), AllocError>
    ensures { OnOk result (string_bytes out.new ≡ string_bytes out.old ++ escaped byte) }
{
    out.push_str("\\x")?;
    push_digit(out, byte / 16)?;
    push_digit(out, byte % 16)
}

/// Appends the escapes of bytes.
fn push_escapes(out: &mut String, bytes: &[u8]) -> Result<(), AllocError>
    ensures { OnOk result (string_bytes out.new ≡ string_bytes out.old ++ flat_map escaped bytes.now) }
{
    for byte in bytes {
        push_escape(out, *byte)?;
    }
    Ok(())
}

/// Appends a character, or the escapes of its bytes.
fn push_character(out: &mut String, character: &[u8]) -> Result<(), AllocError>
    ensures { OnOk result (string_bytes out.new ≡ string_bytes out.old ++ shown character.now) }
{
    match plain_text(character) {
        Some(text) => out.push_str(text),
        None => push_escapes(out, character),
    }
}

/// Appends a sign for each place of an escape.
fn push_four(out: &mut String, sign: &str) -> Result<(), AllocError>
    ensures { OnOk result (string_bytes out.new ≡ string_bytes out.old ++ four sign.now) }
{
    out.push_str(sign)?;
    out.push_str(sign)?;
    out.push_str(sign)?;
    out.push_str(sign)
}

/// Appends a sign for each place that the escapes of bytes take.
fn push_fours(out: &mut String, bytes: &[u8], sign: &str) -> Result<(), AllocError>
    ensures { OnOk result (string_bytes out.new ≡ string_bytes out.old ++ flat_map (λ byte. four sign.now) bytes.now) }
{
    for _byte in bytes {
        push_four(out, sign)?;
    }
    Ok(())
}

/// Appends what is below a character that is shown as it is.
fn push_mark(out: &mut String, character: &[u8], sign: &str) -> Result<(), AllocError>
    ensures { OnOk result (string_bytes out.new ≡ string_bytes out.old ++ mark sign.now character.now) }
{
    if is_tab(character) {
        out.push_str("\t")
    } else {
        out.push_str(sign)
    }
}

/// Appends what is below a character of a source.
fn push_signs(out: &mut String, character: &[u8], sign: &str) -> Result<(), AllocError>
    ensures { OnOk result (string_bytes out.new ≡ string_bytes out.old ++ signs sign.now character.now) }
{
    match plain_text(character) {
        Some(_) => push_mark(out, character, sign),
        None => push_fours(out, character, sign),
    }
}

/// Appends the first characters of bytes, at most this many, as they are shown.
pub(crate) fn push_shown(out: &mut String, bytes: &[u8], most: usize) -> Result<(), AllocError>
    ensures { OnOk result (string_bytes out.new
        ≡ string_bytes out.old ++ shown_text (take most (characters bytes.now))) }
{
    let mut rest = bytes;
    let mut left = most;
    while left > 0 {
        match first_character(rest) {
            Some((character, others)) => {
                push_character(out, character)?;
                rest = others;
            }
            None => return Ok(()),
        }
        left -= 1;
    }
    Ok(())
}

/// Appends a text as it is shown.
pub(crate) fn push_text(out: &mut String, text: &str) -> Result<(), AllocError>
    ensures { OnOk result (string_bytes out.new ≡ string_bytes out.old ++ shown_text (characters text.now)) }
{
    let bytes = text.as_bytes();
    push_shown(out, bytes, count_characters(bytes))
}

/// Appends what is below the first characters of bytes, at most this many, character by character.
fn push_all_signs(out: &mut String, bytes: &[u8], most: usize, sign: &str) -> Result<(), AllocError>
    ensures { OnOk result (string_bytes out.new
        ≡ string_bytes out.old ++ flat_map (signs sign.now) (take most (characters bytes.now))) }
{
    let mut rest = bytes;
    let mut left = most;
    while left > 0 {
        match first_character(rest) {
            Some((character, others)) => {
                push_signs(out, character, sign)?;
                rest = others;
            }
            None => return Ok(()),
        }
        left -= 1;
    }
    Ok(())
}

/// Appends what is below the first characters of bytes, at most this many, as they are shown.
pub(crate) fn push_marks(
    out: &mut String,
    bytes: &[u8],
    most: usize,
    sign: &str,
) -> Result<(), AllocError>
    ensures { OnOk result (string_bytes out.new
        ≡ string_bytes out.old ++ marks sign.now (shown_text (take most (characters bytes.now)))) }
{
    push_all_signs(out, bytes, most, sign)
}
