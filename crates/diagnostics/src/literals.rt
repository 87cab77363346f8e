//! String literals with gaps between them, which are read as one.

ghost use Rattle.std.specs.Prelude.{◌≡◌, ◌++◌, ◌≤◌, ℕ, List, suc, OnOk, [], MatchOption, length, nat_eq, not};
ghost use Rattle.std.specs.List.{prefix_len};
ghost use Rattle.std.specs.Str.{bytes_eq};
ghost use Rattle.diagnostics.specs.Literals.{joined, texts_at, texts_of};

use crate::gaps::behind_gap;
use crate::line::{cut, is_quote};
use std::alloc::AllocError;

/// How many bytes come before the quote.
fn text_len(quote: u8, bytes: &[u8]) -> usize
    ensures value { result ≡ prefix_len (λ byte. not (nat_eq quote byte)) bytes.now }
    ensures within { result ≤ length bytes.now }
{
    bytes.iter().take_while(|byte| quote != **byte).count()
}

/// What is between the quotes of the literal that the bytes begin with, and what is behind it.
fn text_at(bytes: &[u8]) -> Option<(&[u8], &[u8])>
    ensures { MatchOption result ((behind : List ℕ → List ℕ) → texts_at behind bytes.now ≡ [])
        (λ parts. (behind : List ℕ → List ℕ) → texts_at behind bytes.now ≡ parts.0.now ++ behind parts.1.now) }
{
    match bytes {
        [] => None,
        [quote, others @ ..] => {
            if is_quote(*quote) {
                let len = text_len(*quote, others);
                Some((cut(others, len).0, cut(others, len + 1).1))
            } else {
                None
            }
        }
    }
}

/// The same, of the literal behind a gap.
fn next_text(bytes: &[u8]) -> Option<(&[u8], &[u8])>
    ensures { MatchOption result ((count : ℕ) → texts_of (suc count) bytes.now ≡ [])
        (λ parts. (count : ℕ) → texts_of (suc count) bytes.now ≡ parts.0.now ++ texts_of count parts.1.now) }
{
    text_at(behind_gap(bytes))
}

/// Appends what the literals spell together that the bytes begin with, as the language reads them; escapes aren't read.
pub fn push_joined(out: &mut Vec<u8>, bytes: &[u8]) -> Result<(), AllocError>
    ensures { OnOk result (out.new.items ≡ out.old.items ++ joined bytes.now) }
{
    let mut rest = bytes;
    let mut left = bytes.len();
    while left > 0 {
        match next_text(rest) {
            Some((text, behind)) => {
                out.extend_from_slice(text)?;
                rest = behind;
            }
            None => return Ok(()),
        }
        left -= 1;
    }
    Ok(())
}

/// Whether the literals that the bytes begin with spell this text together.
pub fn is_joined(bytes: &[u8], text: &[u8]) -> bool
    ensures { result ≡ bytes_eq (joined bytes.now) text.now }
{
    let mut rest = bytes;
    let mut due = text;
    let mut left = bytes.len();
    while left > 0 {
        match next_text(rest) {
            Some((text, behind)) => {
                match due.strip_prefix(text) {
                    Some(others) => due = others,
                    None => return false,
                }
                rest = behind;
            }
            None => return due.is_empty(),
        }
        left -= 1;
    }
    due.is_empty()
}
