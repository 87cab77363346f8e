//! Gaps: the blanks and comments between tokens.

ghost use Rattle.std.specs.Prelude.{◌≡◌, ◌+◌, ◌≤◌, false, length, not};
ghost use Rattle.std.specs.List.{prefix_len};
ghost use Rattle.proto_lex.specs.Bytes.{is_blank};
ghost use Rattle.diagnostics.specs.Gaps.{begins, behind_gap, comment_len, piece_len};

use crate::line::{cut, line_len};

/// Whether the byte is a blank.
fn is_blank(byte: u8) -> bool
    ensures { result ≡ is_blank byte }
{
    byte == b' ' || matches!(byte, b'\t'..=b'\r')
}

/// Whether bytes begin with these two.
fn begins(first: u8, second: u8, bytes: &[u8]) -> bool
    ensures { result ≡ begins first second bytes.now }
{
    match bytes {
        [] | [_] => false,
        [byte, next, ..] => *byte == first && *next == second,
    }
}

/// How many bytes a comment has behind its `/*`.
fn comment_len(inside: &[u8]) -> usize
    ensures len { result ≡ comment_len inside.now }
    ensures within { result ≤ length inside.now }
{
    let mut rest = inside;
    let mut count = 0;
    while let [_, behind @ ..] = rest {
        if begins(b'*', b'/', rest) {
            return count + 2;
        }
        count += 1;
        rest = behind;
    }
    count
}

/// How many blanks the bytes begin with.
fn blank_len(bytes: &[u8]) -> usize
    ensures value { result ≡ prefix_len is_blank bytes.now }
    ensures within { result ≤ length bytes.now }
{
    bytes.iter().take_while(|byte| is_blank(**byte)).count()
}

/// How many bytes the comment has that the bytes begin with, without the end of its line, or else the blanks.
fn piece_len(bytes: &[u8]) -> usize
    ensures len { result ≡ piece_len bytes.now }
    ensures within { result ≤ length bytes.now }
{
    if begins(b'/', b'/', bytes) {
        line_len(bytes)
    } else if begins(b'/', b'*', bytes) {
        2 + comment_len(cut(bytes, 2).1)
    } else {
        blank_len(bytes)
    }
}

/// What is behind the gap that the bytes begin with.
pub fn behind_gap(bytes: &[u8]) -> &[u8]
    ensures value { result.now ≡ behind_gap bytes.now }
{
    let mut rest = bytes;
    let mut left = bytes.len();
    while left > 0 {
        let len = piece_len(rest);
        if len == 0 {
            return rest;
        }
        rest = cut(rest, len).1;
        left -= 1;
    }
    rest
}
