//! What string literals say, with their escapes read.

ghost use Rattle.std.specs.Prelude.{◌≡◌, ◌≤◌, ◌++◌, ◌∷◌, OnOk};
ghost use Rattle.proto_options.specs.Escapes as spec;
ghost use Rattle.proto_grammar.specs.Terminal.{between_quotes};

use std::alloc::AllocError;

/// Where in an escape a byte of a literal is.
#[derive(Clone, Copy)]
pub(crate) enum Escape {
    /// In none.
    Outside,
    /// Behind its `\`.
    Begun,
    /// Among its digits.
    Digits {
        /// 8 or 16.
        base: u8,
        /// How many digits more it may have.
        left: u8,
        /// What the digits so far stand for, at most 255.
        value: u8,
    },
}

/// What a digit is worth. A byte that is no hexadecimal digit is worth 16.
fn digit_of(byte: u8) -> u8
    ensures value { result ≡ spec.digit_of byte }
    ensures bounded { result ≤ 16 }
{
    match byte {
        b'0'..=b'9' => byte - b'0',
        b'a'..=b'f' => byte - 87,
        b'A'..=b'F' => byte - 55,
        _ => 16,
    }
}

/// What a letter behind a `\` stands for.
fn letter_of(byte: u8) -> u8
    ensures { result ≡ spec.letter_of byte }
{
    match byte {
        b'a' => 7,
        b'b' => 8,
        b'f' => 12,
        b'n' => 10,
        b'r' => 13,
        b't' => 9,
        b'v' => 11,
        _ => byte,
    }
}

/// Whether the byte is a digit of an escape with this base, which may have this many digits more.
fn is_digit_of(base: u8, left: u8, byte: u8) -> bool
    ensures { result ≡ spec.is_digit_of base left byte }
{
    0 < left && digit_of(byte) < base
}

/// What digits stand for, with one more: at most 255.
fn with_digit(base: u8, value: u8, byte: u8) -> u8
    ensures { result ≡ spec.with_digit base value byte }
{
    let all = value as u32 * base as u32 + digit_of(byte) as u32;
    all.min(255) as u8
}

/// Where a byte leads to that is in no escape.
fn after_plain(byte: u8) -> Escape
    ensures { result ≡ spec.after_plain byte }
{
    if byte == b'\\' {
        return Escape::Begun;
    }
    Escape::Outside
}

/// Whether digits begin with the byte, or behind it, behind a `\`.
fn begins_digits(byte: u8) -> bool
    ensures { result ≡ spec.begins_digits byte }
{
    digit_of(byte) < 8 || ((byte == b'x' || byte == b'X') || (byte == b'u' || byte == b'U'))
}

/// The digits of an escape with this base, of which so many are left, and none are read yet.
fn digits(base: u8, left: u8) -> Escape
    ensures { result ≡ spec.no_digits base left }
{
    Escape::Digits {
        base,
        left,
        value: 0,
    }
}

/// Where a byte leads to behind a `\`.
fn after_begun(byte: u8) -> Escape
    ensures { result ≡ spec.after_begun byte }
{
    let value = digit_of(byte);
    if value < 8 {
        return Escape::Digits {
            base: 8,
            left: 2,
            value,
        };
    }
    if byte == b'x' || byte == b'X' {
        return digits(16, 2);
    }
    if byte == b'u' {
        return digits(16, 4);
    }
    if byte == b'U' {
        return digits(16, 8);
    }
    Escape::Outside
}

/// Where a byte leads to.
fn next(state: Escape, byte: u8) -> Escape
    ensures { result ≡ spec.next state byte }
{
    match state {
        Escape::Outside => after_plain(byte),
        Escape::Begun => after_begun(byte),
        Escape::Digits { base, left, value } => {
            if is_digit_of(base, left, byte) {
                return Escape::Digits {
                    base,
                    left: left - 1,
                    value: with_digit(base, value, byte),
                };
            }
            after_plain(byte)
        }
    }
}

/// Adds what a byte in no escape says.
fn add_plain(text: &mut Vec<u8>, byte: u8) -> Result<(), AllocError>
    ensures { OnOk result (text.new.items ≡ text.old.items ++ spec.plain_adds byte) }
{
    if byte == b'\\' {
        return Ok(());
    }
    text.push(byte)?;
    Ok(())
}

/// Adds what a byte behind a `\` says.
fn add_begun(text: &mut Vec<u8>, byte: u8) -> Result<(), AllocError>
    ensures { OnOk result (text.new.items ≡ text.old.items ++ spec.begun_adds byte) }
{
    if begins_digits(byte) {
        return Ok(());
    }
    text.push(letter_of(byte))?;
    Ok(())
}

/// Adds what digits say that are over, and the byte behind them.
fn add_behind_digits(text: &mut Vec<u8>, value: u8, byte: u8) -> Result<(), AllocError>
    ensures { OnOk result (text.new.items ≡ text.old.items ++ value ∷ spec.plain_adds byte) }
{
    text.push(value)?;
    add_plain(text, byte)
}

/// Adds what a byte says.
fn add_byte(text: &mut Vec<u8>, state: Escape, byte: u8) -> Result<(), AllocError>
    ensures { OnOk result (text.new.items ≡ text.old.items ++ spec.adds state byte) }
{
    match state {
        Escape::Outside => add_plain(text, byte),
        Escape::Begun => add_begun(text, byte),
        Escape::Digits { base, left, value } => {
            if is_digit_of(base, left, byte) {
                return Ok(());
            }
            add_behind_digits(text, value, byte)
        }
    }
}

/// Adds what digits say at the end of a literal.
fn add_end(text: &mut Vec<u8>, state: Escape) -> Result<(), AllocError>
    ensures { OnOk result (text.new.items ≡ text.old.items ++ spec.at_end state) }
{
    match state {
        Escape::Outside => Ok(()),
        Escape::Begun => Ok(()),
        Escape::Digits { value, .. } => {
            text.push(value)?;
            Ok(())
        }
    }
}

/// What is between a literal's quotes.
fn between_quotes(spelling: &[u8]) -> &[u8]
    ensures { result.now ≡ between_quotes spelling.now }
{
    match spelling {
        [_, inner @ .., _] => inner,
        _ => &[],
    }
}

/// Adds what a literal says, with its escapes read.
pub(crate) fn add_literal(text: &mut Vec<u8>, spelling: &str) -> Result<(), AllocError>
    ensures { OnOk result (text.new.items ≡ text.old.items ++ spec.literal_text spelling.now) }
{
    let mut state = Escape::Outside;
    for byte in between_quotes(spelling.as_bytes()) {
        add_byte(text, state, *byte)?;
        state = next(state, *byte);
    }
    add_end(text, state)
}
