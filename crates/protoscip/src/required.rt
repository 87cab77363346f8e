//! Fields of proto3 with the label `required`.

ghost use Rattle.std.specs.Prelude.{◌≡◌, ◌≤◌, length};
ghost use Rattle.std.specs.List.{suffix_len};
ghost use Rattle.proto_lex.specs.Bytes.{is_letter, is_word};
ghost use Rattle.protoscip.specs.Required.{
  before_word,
  begins_name,
  behind_equals,
  behind_syntax,
  behind_text,
  has_required,
  is_dotted,
  is_proto3,
  is_space,
  just_last,
  without_last,
  without_mark,
};

use crate::explaining::{head, tail};
use diagnostics::{behind_gap, is_joined};

/// What is behind a text, if the bytes begin with it.
fn behind_text<'a>(text: &[u8], bytes: &'a [u8]) -> &'a [u8]
    ensures { result.now ≡ behind_text text.now bytes.now }
{
    if *head(bytes, text.len()) == *text {
        tail(bytes, text.len())
    } else {
        &[]
    }
}

/// The text without the byte order mark at its start.
fn without_mark(text: &[u8]) -> &[u8]
    ensures { result.now ≡ without_mark text.now }
{
    if head(text, 3) == [0xef, 0xbb, 0xbf].as_slice() {
        tail(text, 3)
    } else {
        text
    }
}

/// What is behind the `syntax` that a source begins with.
fn behind_syntax(text: &[u8]) -> &[u8]
    ensures { result.now ≡ behind_syntax text.now }
{
    behind_text(b"syntax", behind_gap(without_mark(text)))
}

/// What is behind the `=` after that.
fn behind_equals(text: &[u8]) -> &[u8]
    ensures { result.now ≡ behind_equals text.now }
{
    behind_text(b"=", behind_gap(behind_syntax(text)))
}

/// Whether the source begins with a syntax statement that names proto3.
fn is_proto3(text: &[u8]) -> bool
    ensures { result ≡ is_proto3 text.now }
{
    is_joined(behind_equals(text), b"proto3")
}

/// Whether the byte is a space or a tab.
fn is_space(byte: u8) -> bool
    ensures { result ≡ is_space byte }
{
    byte == b' ' || byte == b'\t'
}

/// Whether the byte is a letter or `_`.
fn is_letter(byte: u8) -> bool
    ensures { result ≡ is_letter byte }
{
    matches!(byte, b'A'..=b'Z' | b'a'..=b'z' | b'_')
}

/// Whether the byte is a letter, a digit or `_`.
fn is_word(byte: u8) -> bool
    ensures { result ≡ is_word byte }
{
    is_letter(byte) || matches!(byte, b'0'..=b'9')
}

/// Whether the byte is one of a name with dots in it.
fn is_dotted(byte: u8) -> bool
    ensures { result ≡ is_dotted byte }
{
    is_word(byte) || byte == b'.'
}

/// How many spaces and tabs the bytes end with.
fn space_len(bytes: &[u8]) -> usize
    ensures value { result ≡ suffix_len is_space bytes.now }
    ensures within { result ≤ length bytes.now }
{
    bytes
        .iter()
        .rev()
        .take_while(|byte| is_space(**byte))
        .count()
}

/// How many letters, digits and `_` the bytes end with.
fn word_len(bytes: &[u8]) -> usize
    ensures value { result ≡ suffix_len is_word bytes.now }
    ensures within { result ≤ length bytes.now }
{
    bytes
        .iter()
        .rev()
        .take_while(|byte| is_word(**byte))
        .count()
}

/// The same, with dots.
fn dotted_len(bytes: &[u8]) -> usize
    ensures value { result ≡ suffix_len is_dotted bytes.now }
    ensures within { result ≤ length bytes.now }
{
    bytes
        .iter()
        .rev()
        .take_while(|byte| is_dotted(**byte))
        .count()
}

/// The bytes without the spaces and tabs that they end with.
fn without_spaces(bytes: &[u8]) -> &[u8]
    ensures { result.now ≡ without_last is_space bytes.now }
{
    head(bytes, bytes.len() - space_len(bytes))
}

/// The bytes without the word that they end with.
fn without_word(bytes: &[u8]) -> &[u8]
    ensures { result.now ≡ without_last is_word bytes.now }
{
    head(bytes, bytes.len() - word_len(bytes))
}

/// What is before the last word on a line.
fn before_word(front: &[u8]) -> &[u8]
    ensures { result.now ≡ before_word front.now }
{
    without_spaces(without_word(without_spaces(front)))
}

/// The name with dots that the bytes end with.
fn last_name(bytes: &[u8]) -> &[u8]
    ensures { result.now ≡ just_last is_dotted bytes.now }
{
    tail(bytes, bytes.len() - dotted_len(bytes))
}

/// Whether a letter, `_` or a `.` is first.
fn begins_name(bytes: &[u8]) -> bool
    ensures { result ≡ begins_name bytes.now }
{
    match bytes {
        [] => false,
        [byte, ..] => is_letter(*byte) || *byte == b'.',
    }
}

/// Whether the text is proto3, and a name is at the place, with `required` and a word before it on its line.
pub(crate) fn has_required(text: &[u8], at: usize) -> bool
    ensures { result ≡ has_required text.now at }
{
    last_name(before_word(head(text, at))) == b"required".as_slice()
        && begins_name(tail(text, at))
        && is_proto3(text)
}
