//! By which names a symbol is found, and which texts are like them.

ghost use Rattle.std.specs.Prelude.{◌≡◌, ◌+◌, ◌-◌, ◌^◌, ◌<◌, ◌++◌, ◌||◌, false, cond, nat_eq, IfOk, OnOk};
ghost use Rattle.std.specs.Char.{to_ascii_lowercase};
ghost use Rattle.std.specs.List.{count_by};
ghost use Rattle.std.specs.Option.{option_map};
ghost use Rattle.std.specs.Str.{bytes_eq};
ghost use Rattle.scip_query.specs.CommandViews.{text_of};
ghost use Rattle.scip_query.specs.Names.{
  longest_end,
  kept_byte,
  quoted_behind,
  unquoted_from,
  is_mark,
  is_between,
  dotted_byte,
  dotted,
  without_last_dot,
  full_name,
  behind_alike,
  begins_alike,
  likeness_to,
  likeness,
};

use crate::queries::is_local;
use std::alloc::{AllocError, Global};

/// One more, if something is counted.
pub(crate) fn more_by(count: usize, is_counted: bool) -> usize
    requires { count + 1 < 2 ^ 64 }
    ensures { result ≡ count + cond is_counted 1 0 }
{
    if is_counted { count + 1 } else { count }
}

/// How often a byte occurs in a text.
fn count_of(text: &[u8], byte: u8) -> usize
    ensures { result ≡ count_by (nat_eq byte) text.now }
{
    let mut count = 0;
    for b in text {
        count = more_by(count, byte == *b);
    }
    count
}

/// One less, if a byte is the one that is counted.
fn without(count: usize, is_one: bool) -> usize
    ensures { result ≡ cond is_one (count - 1) count }
{
    if is_one {
        count.saturating_sub(1)
    } else {
        count
    }
}

/// The longest end of a text in which a byte occurs at most so often.
fn longest_end(text: &[u8], byte: u8, most: usize) -> &[u8]
    ensures { result.now ≡ longest_end byte most text.now }
{
    let mut excess = count_of(text, byte).saturating_sub(most);
    for (at, b) in text.iter().enumerate() {
        if excess == 0 {
            return text.split_at(at).1;
        }
        excess = without(excess, byte == *b);
    }
    &[]
}

/// Appends a byte, if it isn't between backticks and isn't one.
fn push_unquoted(text: &mut Vec<u8>, quoted: bool, byte: u8) -> Result<(), AllocError>
    ensures { OnOk result (text.new.items ≡ text.old.items ++ kept_byte quoted byte) }
{
    if quoted || byte == b'`' {
        return Ok(());
    }
    text.push(byte)?;
    Ok(())
}

/// Whether what is behind a byte is between backticks.
fn quoted_behind(quoted: bool, byte: u8) -> bool
    ensures { result ≡ quoted_behind quoted byte }
{
    if byte == b'`' { !quoted } else { quoted }
}

/// A text without what stands between backticks.
fn unquoted(alloc: Global, text: &[u8]) -> Result<Vec<u8>, AllocError>
    ensures { IfOk result (λ kept. kept.items ≡ unquoted_from false text.now) }
{
    let mut kept = Vec::with_capacity(alloc, text.len())?;
    let mut quoted = false;
    for byte in text {
        push_unquoted(&mut kept, quoted, *byte)?;
        quoted = quoted_behind(quoted, *byte);
    }
    Ok(kept)
}

/// Whether a sign only marks a descriptor.
fn is_mark(byte: u8) -> bool
    ensures { result ≡ is_mark byte }
{
    matches!(byte, b'(' | b')' | b'[' | b']')
}

/// Whether a sign is between descriptors.
fn is_between(byte: u8) -> bool
    ensures { result ≡ is_between byte }
{
    matches!(byte, b'/' | b'#' | b':' | b'!')
}

/// A dot for a sign between descriptors, and every other byte as it is.
fn shown_byte(byte: u8) -> u8
    ensures { result ≡ cond (is_between byte) 46 byte }
{
    if is_between(byte) { b'.' } else { byte }
}

/// Appends a byte of descriptors, unless it only marks one.
fn push_dotted(name: &mut Vec<u8>, byte: u8) -> Result<(), AllocError>
    ensures { OnOk result (name.new.items ≡ name.old.items ++ dotted_byte byte) }
{
    if is_mark(byte) {
        return Ok(());
    }
    name.push(shown_byte(byte))?;
    Ok(())
}

/// Descriptors with dots between them.
fn dotted(alloc: Global, descriptors: &[u8]) -> Result<Vec<u8>, AllocError>
    ensures { IfOk result (λ name. name.items ≡ dotted descriptors.now) }
{
    let mut name = Vec::with_capacity(alloc, descriptors.len())?;
    for byte in descriptors {
        push_dotted(&mut name, *byte)?;
    }
    Ok(name)
}

/// A name without a last dot.
fn without_last_dot(name: &[u8]) -> &[u8]
    ensures { result.now ≡ without_last_dot name.now }
{
    if name.ends_with(b".") {
        name.split_at(name.len() - 1).0
    } else {
        name
    }
}

/// A byte, and if it is an ASCII letter, its lower case. (`[` follows `Z`.)
fn lower(byte: u8) -> u8
    ensures { result ≡ to_ascii_lowercase byte }
{
    if byte < b'A' {
        byte
    } else if byte < b'[' {
        byte + 32
    } else {
        byte
    }
}

/// What is behind the first byte of a name, if that is a byte, whatever their case is.
fn behind_alike(byte: u8, name: &[u8]) -> Option<&[u8]>
    ensures { option_map text_of result ≡ behind_alike byte name.now }
{
    match name {
        [first, behind @ ..] => {
            if lower(byte) == lower(*first) {
                Some(behind)
            } else {
                None
            }
        }
        [] => None,
    }
}

/// Whether a name begins with a text, whatever their ASCII letters' case is.
fn begins_alike(text: &[u8], name: &[u8]) -> bool
    ensures { result ≡ begins_alike text.now name.now }
{
    let mut rest = name;
    for byte in text {
        match behind_alike(*byte, rest) {
            Some(behind) => rest = behind,
            None => return false,
        }
    }
    true
}

/// Whether a text is one of two names.
fn is_either(text: &[u8], shown: &[u8], ending: &[u8]) -> bool
    ensures { result ≡ bytes_eq text.now shown.now || bytes_eq text.now ending.now }
{
    if text == shown {
        return true;
    }
    text == ending
}

/// Whether a text begins one of two names.
fn begins_either(text: &[u8], shown: &[u8], ending: &[u8]) -> bool
    ensures { result ≡ begins_alike text.now shown.now || begins_alike text.now ending.now }
{
    if begins_alike(text, shown) {
        return true;
    }
    begins_alike(text, ending)
}

/// How a text is like names: it is one of them (true), or begins one (false), or isn't like them at all.
fn likeness_to(text: &[u8], shown: &[u8], ending: &[u8]) -> Option<bool>
    ensures { result ≡ likeness_to text.now shown.now ending.now }
{
    if is_either(text, shown, ending) {
        return Some(true);
    }
    if begins_either(text, shown, ending) {
        Some(false)
    } else {
        None
    }
}

/// The full name of a symbol, if a last dot is taken away.
fn full_name(alloc: Global, symbol: &str) -> Result<Vec<u8>, AllocError>
    ensures { IfOk result (λ name. without_last_dot name.items ≡ full_name symbol.now) }
{
    if is_local(symbol) {
        return Ok(Vec::new(alloc));
    }
    let plain = unquoted(alloc, symbol.as_bytes())?;
    dotted(alloc, longest_end(plain.as_slice(), b' ', 0))
}

/// How a text is like a symbol, which is shown by a name. An error means that memory was refused.
pub(crate) fn likeness(
    alloc: Global,
    text: &str,
    shown: &str,
    symbol: &str,
) -> Result<Option<bool>, AllocError>
    ensures { IfOk result (λ like. like ≡ likeness text.now shown.now symbol.now) }
{
    let (text, shown) = (text.as_bytes(), shown.as_bytes());
    let name = full_name(alloc, symbol)?;
    let full = without_last_dot(name.as_slice());
    let ending = longest_end(full, b'.', count_of(text, b'.'));
    Ok(likeness_to(text, shown, ending))
}
