//! What is read of bytes that needn't be UTF-8 in comments.

ghost use Rattle.std.specs.Prelude.{◌≡◌, ℕ, ◌<◌, ◌≤◌, ◌⊎◌, ◌↔◌, ◌++◌, Some, None, IfOk, IsTrue, MatchResult, length, take, drop};
ghost use Rattle.std.specs.Str.{IsUtf8, IsValidUpTo};
ghost use Rattle.source_tree.specs.Mending.{Reads, SameAt, IsMended};
ghost use Rattle.source_tree.specs.Marks.{text_or, bad_byte, IsFirstBadByte, ReadsOn};

use basics::Sequence;
use proto_lex::{Hashes, LexFault, MAX_TEXT_LENGTH, Text, lex_with, one_first_fault};
use std::alloc::{AllocError, Global};

/// What stands for a byte that isn't part of a well-formed sequence: the lexer takes it in comments alone.
const STAND_IN: u8 = 0;

/// How many bytes at the front are UTF-8, to the first ill-formed sequence or the end.
fn valid_len(bytes: &[u8]) -> usize
    ensures within { result ≤ length bytes.now }
    ensures front { IsUtf8 (take result bytes.now) }
    ensures whole { (result ≡ length bytes.now) ⊎ IsValidUpTo bytes.now result }
{
    match str::from_utf8(bytes) {
        Ok(text) => text.len(),
        Err(error) => error.valid_up_to(),
    }
}

/// Appends what is read of a well-formed front of bytes and of the byte behind it, if there is one, and gives what is
/// left.
fn read_on<'a>(text: &mut Vec<u8>, bytes: &'a [u8]) -> Result<&'a [u8], AllocError>
    ensures on { IfOk result (λ left. ReadsOn text.old.items text.new.items bytes.now left.now) }
    ensures shorter { 0 < length bytes.now → IfOk result (λ left. length left.now < length bytes.now) }
{
    let (front, behind) = bytes.split_at(valid_len(bytes));
    text.extend_from_slice(front)?;
    match behind {
        [] => Ok(behind),
        [_, others @ ..] => {
            text.push(STAND_IN)?;
            Ok(others)
        }
    }
}

/// What is read of bytes from left to right.
fn read(alloc: Global, bytes: &[u8]) -> Result<Vec<u8>, AllocError>
    ensures { IfOk result (λ text. Reads bytes.now text.items) }
{
    let mut text = Vec::with_capacity(alloc, bytes.len())?;
    let mut rest = bytes;
    while !rest.is_empty() {
        rest = read_on(&mut text, rest)?;
    }
    Ok(text)
}

/// The place of a fault, if it is a byte that can't be where it is. An error means that memory was refused.
fn bad_byte(fault: LexFault) -> Result<Option<usize>, AllocError>
    ensures { MatchResult result (λ at. bad_byte fault ≡ Some at) (λ _. bad_byte fault ≡ None) }
{
    match fault {
        LexFault::BadByte(at) => Ok(Some(at)),
        LexFault::Memory => Err(AllocError),
        _ => Ok(None),
    }
}

/// Where the lexer, on its way, meets a byte that it can't take. An error means that memory was refused, as what is read
/// is a text.
fn first_bad_byte(alloc: Global, read: &[u8]) -> Result<Option<usize>, AllocError>
    ensures { IfOk result (IsFirstBadByte read.now) }
{
    one_first_fault();
    let text = match Text::new(alloc, read) {
        Ok(text) => text,
        Err(_) => return Err(AllocError),
    };
    match lex_with(alloc, &text, Hashes::InValues) {
        Ok(_) => Ok(None),
        Err(fault) => bad_byte(fault),
    }
}

/// Whether both have the same byte at an offset.
fn is_same_at(bytes: &[u8], read: &[u8], at: usize) -> bool
    ensures { IsTrue result ↔ SameAt bytes.now read.now at }
{
    read.get(at) == bytes.get(at)
}

/// The bytes from an offset on; none past the end.
fn tail(bytes: &[u8], at: usize) -> &[u8]
    ensures { result.now ≡ drop at bytes.now }
{
    if at < bytes.len() {
        bytes.split_at(at).1
    } else {
        &[]
    }
}

/// A text up to an offset, and bytes from there on.
fn with_tail(text: Vec<u8>, bytes: &[u8], at: usize) -> Result<Vec<u8>, AllocError>
    ensures { IfOk result (λ whole. whole.items ≡ take at text.items ++ drop at bytes.now) }
{
    let mut text = text;
    text.truncate(at);
    text.extend_from_slice(tail(bytes, at))?;
    Ok(text)
}

/// What is read of bytes that aren't too many for a text.
fn mend(alloc: Global, bytes: &[u8]) -> Result<Vec<u8>, AllocError>
    requires { length bytes.now ≤ MAX_TEXT_LENGTH }
    ensures { IfOk result (λ text. IsMended bytes.now text.items) }
{
    one_first_fault();
    let text = read(alloc, bytes)?;
    match first_bad_byte(alloc, &text)? {
        Some(at) => {
            if is_same_at(bytes, &text, at) {
                Ok(text)
            } else {
                with_tail(text, bytes, at)
            }
        }
        None => Ok(text),
    }
}

/// What is read of bytes, if it isn't just these.
pub(crate) fn mended_text(alloc: Global, bytes: &[u8]) -> Result<Option<Sequence<u8>>, AllocError>
    ensures { IfOk result (λ text. IsMended bytes.now (text_or text bytes.now)) }
{
    if bytes.len() > MAX_TEXT_LENGTH {
        return Ok(None);
    }
    match str::from_utf8(bytes) {
        Ok(_) => Ok(None),
        Err(_) => {
            let text = mend(alloc, bytes)?;
            Ok(Some(Sequence::from_vec(text)))
        }
    }
}
