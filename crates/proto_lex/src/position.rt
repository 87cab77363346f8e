//! Lines and columns.

ghost use Rattle.std.specs.Prelude.{◌≡◌, ◌+◌, ◌/◌, ◌<◌, ◌≤◌, length, sum_by, IfOk, IfErr};
ghost use Rattle.proto_lex.specs.Position as spec;
ghost use Rattle.proto_lex.specs.Text.{max_text_length};
ghost use Rattle.proto_lex.specs.Units.{AreUnits};

use crate::fault::LexFault;
use memchr::memchr_iter;
use std::alloc::Global;

/// The unit in which a column is counted.
#[derive(Clone, Copy, Debug, PartialEq, Eq)]
pub enum Encoding {
    /// Bytes of the UTF-8 text.
    Utf8,
    /// Code units of the text in UTF-16: two for a character past U+FFFF, and one for each other.
    Utf16,
}

/// A place between two characters of a text.
#[derive(Clone, Copy, Debug, PartialEq, Eq)]
pub struct Position {
    /// The line, from 0. Lines end at `\n` alone.
    pub line: u32,
    /// The column, from 0, in units of an `Encoding`.
    pub column: u32,
}

/// The code units that `byte`, one of a text in UTF-8, counts for in `encoding`.
fn code_units(encoding: Encoding, byte: u8) -> u32
    ensures units { result ≡ spec.code_units encoding byte }
    ensures few { result ≤ 2 }
{
    match encoding {
        Encoding::Utf8 => 1,
        Encoding::Utf16 => match byte {
            0..128 => 1,
            128..192 => 0,
            192..240 => 1,
            _ => 2,
        },
    }
}

/// There is room for a line for so many bytes, before there are more.
const BYTES_A_LINE: usize = 32;

/// The offsets at which the lines of `text`, at most `MAX_TEXT_LENGTH` bytes, start.
pub(crate) fn line_starts(alloc: Global, text: &[u8]) -> Result<Vec<u32>, LexFault>
    requires { length text.now ≤ max_text_length }
    ensures value { IfOk result (λ starts. starts.items ≡ spec.line_starts text.now) }
    ensures memory { IfErr result (λ fault. fault ≡ LexFault.Memory) }
{
    let mut starts = Vec::with_capacity(alloc, 1 + text.len() / BYTES_A_LINE)?;
    starts.push(0)?;
    for end in memchr_iter(b'\n', text) {
        starts.push(end as u32 + 1)?;
    }
    Ok(starts)
}

/// So many bytes are between two places of a text at which its code units are kept.
pub(crate) const BYTES_A_MARK: usize = 1_024;

/// The code units in UTF-16 before each multiple of `BYTES_A_MARK` bytes of `text`, at most `MAX_TEXT_LENGTH` bytes.
pub(crate) fn units_before(alloc: Global, text: &[u8]) -> Result<Vec<u32>, LexFault>
    requires { length text.now ≤ max_text_length }
    ensures count { IfOk result (λ units. length units.items ≡ length text.now / 1024 + 1) }
    ensures value { IfOk result (λ units. AreUnits text.now units.items) }
    ensures memory { IfErr result (λ fault. fault ≡ LexFault.Memory) }
{
    let marks = text.len() / BYTES_A_MARK;
    let mut units = Vec::with_capacity(alloc, marks + 1)?;
    let mut before = 0;
    units.push(before)?;
    for mark in 0..marks {
        let start = mark * BYTES_A_MARK;
        before += columns(Encoding::Utf16, &text[start..start + BYTES_A_MARK]);
        units.push(before)?;
    }
    Ok(units)
}

/// The code units of `bytes`, which are in a text, in `encoding`.
pub(crate) fn columns(encoding: Encoding, bytes: &[u8]) -> u32
    requires { length bytes.now ≤ max_text_length }
    ensures { result ≡ sum_by (spec.code_units encoding) bytes.now }
{
    let mut units = 0;
    for &byte in bytes {
        units += code_units(encoding, byte);
    }
    units
}
