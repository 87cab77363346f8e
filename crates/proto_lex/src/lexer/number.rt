//! Integer and floating-point literals.

ghost use Rattle.std.specs.Prelude.{◌≡◌, ℕ, ◌+◌, ◌<◌, ◌≤◌, length, take};
ghost use Rattle.std.specs.List.{list_all};
ghost use Rattle.proto_lex.specs.Bytes.{is_digit, is_octal_digit, is_hex_digit};
ghost use Rattle.proto_lex.specs.Numbers.{begins_hexadecimal, goes_on, run_after, run_of, begins_number};
ghost use Rattle.proto_lex.specs.Reading.{are_digits, are_hex_digits, is_zero_integer, is_integer, past_sign};
ghost use Rattle.proto_lex.specs.Reading.{is_exponent_or_none, ends_fraction, ends_whole, is_float, number_kind};
ghost use Rattle.proto_lex.specs.Reading.{number_at};
ghost use Rattle.proto_lex.specs.Text.{max_text_length};

use crate::fault::LexFault;
use crate::lexer::bytes::{
    all_digits, all_hex_digits, all_octal_digits, is_digit, is_exponent_mark, is_hex_mark,
    is_plus_or_minus, is_word, past_digits, starts_digit,
};
use crate::lexer::piece::{Piece, PieceKind};
use crate::token::TokenKind;

/// Whether a number begins the bytes: a digit, or a `.` directly before one.
pub(crate) fn begins_number(bytes: &[u8]) -> bool
    ensures { result ≡ begins_number bytes.now }
{
    match bytes {
        [b'.', others @ ..] => starts_digit(others),
        _ => starts_digit(bytes),
    }
}

/// Whether the bytes begin with `0x` or `0X`.
fn begins_hexadecimal(bytes: &[u8]) -> bool
    ensures { result ≡ begins_hexadecimal bytes.now }
{
    match bytes {
        [b'0', mark, ..] => is_hex_mark(*mark),
        _ => false,
    }
}

/// Whether a number's run, in which `last` is, goes on with `next`.
fn goes_on(may_hold_signs: bool, last: u8, next: u8) -> bool
    ensures { result ≡ goes_on may_hold_signs last next }
{
    is_word(next)
        || next == b'.'
        || may_hold_signs && is_exponent_mark(last) && is_plus_or_minus(next)
}

/// How many bytes a run, in which `first` is, takes after it.
fn run_len_after(may_hold_signs: bool, first: u8, others: &[u8]) -> usize
    ensures value { result ≡ length (run_after may_hold_signs first others.now) }
    ensures within { result ≤ length others.now }
{
    let mut last = first;
    let mut len = 0;
    for next in others {
        if !goes_on(may_hold_signs, last, *next) {
            return len;
        }
        last = *next;
        len += 1;
    }
    len
}

/// The run of a number that begins the bytes.
#[inline(always)]
fn run_of(bytes: &[u8]) -> &[u8]
    requires { length bytes.now ≤ max_text_length }
    ensures { result.now ≡ run_of bytes.now }
{
    match bytes {
        [first, others @ ..] => {
            let len = run_len_after(!begins_hexadecimal(bytes), *first, others);
            bytes.split_at(len + 1).0
        }
        [] => bytes,
    }
}

/// Whether the bytes are decimal digits, at least one.
fn are_digits(bytes: &[u8]) -> bool
    ensures { result ≡ are_digits bytes.now }
{
    !bytes.is_empty() && all_digits(bytes)
}

/// Whether the bytes are hexadecimal digits, at least one.
fn are_hex_digits(bytes: &[u8]) -> bool
    ensures { result ≡ are_hex_digits bytes.now }
{
    !bytes.is_empty() && all_hex_digits(bytes)
}

/// Whether `0` and these bytes are an integer.
fn is_zero_integer(others: &[u8]) -> bool
    ensures { result ≡ is_zero_integer others.now }
{
    match others {
        [b'x' | b'X', digits @ ..] => are_hex_digits(digits),
        _ => all_octal_digits(others),
    }
}

/// Whether the run is a decimal, an octal or a hexadecimal integer.
fn is_integer(run: &[u8]) -> bool
    ensures { result ≡ is_integer run.now }
{
    match run {
        [b'0', others @ ..] => is_zero_integer(others),
        _ => are_digits(run),
    }
}

/// The bytes after a `+` or `-`, if one begins them.
fn past_sign(bytes: &[u8]) -> &[u8]
    ensures { result.now ≡ past_sign bytes.now }
{
    match bytes {
        [b'+' | b'-', others @ ..] => others,
        _ => bytes,
    }
}

/// Whether the bytes are an exponent, or none at all.
fn is_exponent_or_none(bytes: &[u8]) -> bool
    ensures { result ≡ is_exponent_or_none bytes.now }
{
    match bytes {
        [] => true,
        [mark, others @ ..] => is_exponent_mark(*mark) && are_digits(past_sign(others)),
    }
}

/// Whether these bytes may follow the point of a number that has digits before it or after it.
fn ends_fraction(bytes: &[u8]) -> bool
    ensures { result ≡ ends_fraction bytes.now }
{
    is_exponent_or_none(past_digits(bytes))
}

/// Whether these bytes may follow the digits that begin a floating-point number.
fn ends_whole(bytes: &[u8]) -> bool
    ensures { result ≡ ends_whole bytes.now }
{
    match bytes {
        [] => false,
        [b'.', others @ ..] => ends_fraction(others),
        _ => is_exponent_or_none(bytes),
    }
}

/// Whether the run is a floating-point number.
fn is_float(run: &[u8]) -> bool
    ensures { result ≡ is_float run.now }
{
    match run {
        [] => false,
        [b'.', others @ ..] => starts_digit(others) && ends_fraction(others),
        [first, others @ ..] => is_digit(*first) && ends_whole(past_digits(others)),
    }
}

/// The kind of number that the run spells, if it spells one.
#[inline(always)]
fn number_kind(run: &[u8]) -> Option<TokenKind>
    ensures { result ≡ number_kind run.now }
{
    if is_integer(run) {
        Some(TokenKind::Integer)
    } else if is_float(run) {
        Some(TokenKind::Float)
    } else {
        None
    }
}

/// The number that begins the bytes, which are at the offset `at`.
#[tactic(auto, unfolding(crate::specs::Reading::number_at))]
#[inline(always)]
pub(crate) fn number_at(bytes: &[u8], at: usize) -> Result<Piece, LexFault>
    requires { length bytes.now ≤ max_text_length }
    ensures { result ≡ number_at at bytes.now }
{
    let run = run_of(bytes);
    match number_kind(run) {
        Some(kind) => Ok(Piece {
            kind: PieceKind::Token(kind),
            len: run.len(),
        }),
        None => Err(LexFault::BadNumber(at)),
    }
}
