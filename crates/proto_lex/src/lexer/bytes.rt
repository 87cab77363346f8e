//! Classes of bytes, and parts of lists of bytes.

ghost use Rattle.std.specs.Prelude.{◌≡◌, ◌≤◌, length, drop};
ghost use Rattle.std.specs.List.{list_all, prefix_len};
ghost use Rattle.proto_lex.specs.Bytes.{is_blank, is_letter, is_digit, is_octal_digit, is_hex_digit, is_word};
ghost use Rattle.proto_lex.specs.Bytes.{is_plus_or_minus, is_exponent_mark, is_hex_mark, is_quote, starts};
ghost use Rattle.proto_lex.specs.Reading.{past, is_in_line};

use memchr::memchr;

/// Whether the byte is a space, or one of `\t`, `\n`, `\v`, `\f` and `\r`.
pub(crate) fn is_blank(b: u8) -> bool
    ensures { result ≡ is_blank b }
{
    matches!(b, b' ' | b'\t'..=b'\r')
}

/// Whether the byte is an ASCII letter or `_`.
pub(crate) fn is_letter(b: u8) -> bool
    ensures { result ≡ is_letter b }
{
    matches!(b, b'A'..=b'Z' | b'a'..=b'z' | b'_')
}

/// Whether the byte is a decimal digit.
pub(crate) fn is_digit(b: u8) -> bool
    ensures { result ≡ is_digit b }
{
    matches!(b, b'0'..=b'9')
}

/// Whether the byte is an octal digit.
pub(crate) fn is_octal_digit(b: u8) -> bool
    ensures { result ≡ is_octal_digit b }
{
    matches!(b, b'0'..=b'7')
}

/// Whether the byte is a hexadecimal digit, of either case.
pub(crate) fn is_hex_digit(b: u8) -> bool
    ensures { result ≡ is_hex_digit b }
{
    matches!(b, b'0'..=b'9' | b'A'..=b'F' | b'a'..=b'f')
}

/// Whether the byte is a letter, a digit or `_`.
pub(crate) fn is_word(b: u8) -> bool
    ensures { result ≡ is_word b }
{
    is_letter(b) || is_digit(b)
}

/// Whether the byte is `+` or `-`.
pub(crate) fn is_plus_or_minus(b: u8) -> bool
    ensures { result ≡ is_plus_or_minus b }
{
    matches!(b, b'+' | b'-')
}

/// Whether the byte is `e` or `E`.
pub(crate) fn is_exponent_mark(b: u8) -> bool
    ensures { result ≡ is_exponent_mark b }
{
    matches!(b, b'e' | b'E')
}

/// Whether the byte is `x` or `X`.
pub(crate) fn is_hex_mark(b: u8) -> bool
    ensures { result ≡ is_hex_mark b }
{
    matches!(b, b'x' | b'X')
}

/// Whether the byte is `"` or `'`.
pub(crate) fn is_quote(b: u8) -> bool
    ensures { result ≡ is_quote b }
{
    matches!(b, b'"' | b'\'')
}

/// Whether each byte is a decimal digit.
pub(crate) fn all_digits(bytes: &[u8]) -> bool
    ensures { result ≡ list_all is_digit bytes.now }
{
    bytes.iter().all(|b| is_digit(*b))
}

/// Whether each byte is an octal digit.
pub(crate) fn all_octal_digits(bytes: &[u8]) -> bool
    ensures { result ≡ list_all is_octal_digit bytes.now }
{
    bytes.iter().all(|b| is_octal_digit(*b))
}

/// Whether each byte is a hexadecimal digit.
pub(crate) fn all_hex_digits(bytes: &[u8]) -> bool
    ensures { result ≡ list_all is_hex_digit bytes.now }
{
    bytes.iter().all(|b| is_hex_digit(*b))
}

/// Whether the bytes begin with a digit.
pub(crate) fn starts_digit(bytes: &[u8]) -> bool
    ensures { result ≡ starts is_digit bytes.now }
{
    match bytes {
        [first, ..] => is_digit(*first),
        [] => false,
    }
}

/// The bytes from a place on.
pub(crate) fn tail(bytes: &[u8], at: usize) -> &[u8]
    requires { at ≤ length bytes.now }
    ensures { result.now ≡ drop at bytes.now }
{
    bytes.split_at(at).1
}

/// How many blanks the bytes begin with.
pub(crate) fn blank_len(bytes: &[u8]) -> usize
    ensures value { result ≡ prefix_len is_blank bytes.now }
    ensures within { result ≤ length bytes.now }
{
    bytes.iter().take_while(|b| is_blank(**b)).count()
}

/// How many letters, digits and `_` the bytes begin with.
pub(crate) fn word_len(bytes: &[u8]) -> usize
    ensures value { result ≡ prefix_len is_word bytes.now }
    ensures within { result ≤ length bytes.now }
{
    bytes.iter().take_while(|b| is_word(**b)).count()
}

/// How many bytes come before the first `\n`, or the end.
pub(crate) fn line_len(bytes: &[u8]) -> usize
    ensures value { result ≡ prefix_len is_in_line bytes.now }
    ensures within { result ≤ length bytes.now }
{
    memchr(b'\n', bytes).unwrap_or(bytes.len())
}

/// How many decimal digits the bytes begin with.
fn digits_len(bytes: &[u8]) -> usize
    ensures value { result ≡ prefix_len is_digit bytes.now }
    ensures within { result ≤ length bytes.now }
{
    bytes.iter().take_while(|b| is_digit(**b)).count()
}

/// The bytes after the digits that they begin with.
pub(crate) fn past_digits(bytes: &[u8]) -> &[u8]
    ensures { result.now ≡ past is_digit bytes.now }
{
    tail(bytes, digits_len(bytes))
}
