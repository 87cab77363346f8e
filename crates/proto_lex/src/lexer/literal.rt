//! String literals.

ghost use Rattle.std.specs.Prelude.{◌≡◌, ℕ, ◌+◌, ◌<◌, ◌≤◌, length, IfOk, IfSome};
ghost use Rattle.proto_lex.specs.Literals.{is_escape_letter};
ghost use Rattle.proto_lex.specs.Reading.{begins_with_hex, begins_long_unicode, escape_len, character_at, literal_at};
ghost use Rattle.proto_lex.specs.Text.{max_text_length};

use crate::fault::LexFault;
use crate::lexer::bytes::{all_hex_digits, is_octal_digit, tail};

/// Whether the byte is an escape by itself after a `\`.
fn is_escape_letter(b: u8) -> bool
    ensures { result ≡ is_escape_letter b }
{
    b"abfnrtv?".contains(&b) || matches!(b, b'\\' | b'"' | b'\'')
}

/// Whether the bytes begin with `count` hexadecimal digits.
fn begins_with_hex(count: usize, bytes: &[u8]) -> bool
    ensures { result ≡ begins_with_hex count bytes.now }
{
    count <= bytes.len() && all_hex_digits(&bytes[..count])
}

/// Whether these bytes may follow `\U`: `000` and five hexadecimal digits, or `0010` and four.
fn begins_long_unicode(bytes: &[u8]) -> bool
    ensures { result ≡ begins_long_unicode bytes.now }
{
    match bytes {
        [b'0', b'0', b'0', others @ ..] => begins_with_hex(5, others),
        [b'0', b'0', b'1', b'0', others @ ..] => begins_with_hex(4, others),
        _ => false,
    }
}

/// How many bytes an escape takes after its `\`. The digits that may follow are left, as
/// characters.
fn escape_len(bytes: &[u8]) -> Option<usize>
    ensures value { result ≡ escape_len bytes.now }
    ensures within { IfSome result (λ len. len ≤ length bytes.now) }
{
    let [first, others @ ..] = bytes else {
        return None;
    };
    if is_escape_letter(*first) || is_octal_digit(*first) {
        return Some(1);
    }
    match *first {
        b'x' | b'X' if begins_with_hex(1, others) => Some(2),
        b'u' if begins_with_hex(4, others) => Some(5),
        b'U' if begins_long_unicode(others) => Some(9),
        _ => None,
    }
}

/// How many bytes the character `first`, or the escape that it begins, takes.
///
/// It is at `at`, before `others`, in a string that opens at `opening`.
#[tactic(auto, unfolding(crate::specs::Reading::character_at))]
#[inline(always)]
fn character_at(first: u8, others: &[u8], opening: usize, at: usize) -> Result<usize, LexFault>
    requires { length others.now ≤ max_text_length }
    ensures value { result ≡ character_at opening at first others.now }
    ensures within { IfOk result (λ len. len ≤ length others.now + 1) }
{
    match first {
        b'\n' => Err(LexFault::OpenString(opening)),
        0 => Err(LexFault::BadByte(at)),
        b'\\' => match escape_len(others) {
            Some(len) => Ok(len + 1),
            None => Err(LexFault::BadEscape(at)),
        },
        _ => Ok(1),
    }
}

/// How many bytes the string takes that opens with `quote` at `opening`, before `others`.
#[inline(always)]
pub(crate) fn literal_at(quote: u8, others: &[u8], opening: usize) -> Result<usize, LexFault>
    requires { opening + length others.now ≤ max_text_length }
    ensures value { result ≡ literal_at quote opening 0 1 others.now }
    ensures within { IfOk result (λ len. len ≤ length others.now + 1) }
{
    let mut len = 1;
    let mut rest = others;
    while let [first, after @ ..] = rest {
        if *first == quote {
            return Ok(len + 1);
        }
        let more = character_at(*first, after, opening, opening + len)?;
        rest = tail(rest, more);
        len += more;
    }
    Err(LexFault::OpenString(opening))
}
