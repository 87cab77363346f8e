//! Columns of a line.

ghost use Rattle.std.specs.Prelude.{◌≡◌, ◌≤◌, ◌==◌, ◌&&◌, length, take};
ghost use Rattle.scip_pages.specs.Columns as spec;

/// What columns count, from the line's start (`scip.proto`, `PositionEncoding`).
#[derive(Clone, Copy, Debug, PartialEq, Eq)]
pub enum ColumnUnit {
    /// Bytes of the line in UTF-8.
    Utf8,
    /// Code units of the line in UTF-16: two for a character past U+FFFF, and one for each other.
    Utf16,
    /// Characters.
    Utf32,
}

/// The unit of a document's position encoding: 1 is UTF-8, 2 UTF-16, 3 UTF-32. None of another
/// number, nor of 0, by which a document doesn't say what its columns count.
pub fn unit_of(position_encoding: i32) -> Option<ColumnUnit>
    ensures { result ≡ spec.unit_of position_encoding }
{
    if position_encoding == 1 {
        Some(ColumnUnit::Utf8)
    } else if position_encoding == 2 {
        Some(ColumnUnit::Utf16)
    } else if position_encoding == 3 {
        Some(ColumnUnit::Utf32)
    } else {
        None
    }
}

/// Whether a byte of a text in UTF-8 is the first of a character.
pub(crate) fn is_first_byte(byte: u8) -> bool
    ensures { result ≡ spec.is_first_byte byte }
{
    byte < 128 || 192 <= byte
}

/// The units that a byte of a text in UTF-8 counts for.
pub(crate) fn units_of(unit: ColumnUnit, byte: u8) -> u64
    ensures units { result ≡ spec.units_of unit byte }
    ensures few { result ≤ 2 }
{
    match unit {
        ColumnUnit::Utf8 => 1,
        ColumnUnit::Utf16 => {
            if !is_first_byte(byte) {
                0
            } else if byte < 240 {
                1
            } else {
                2
            }
        }
        ColumnUnit::Utf32 => u64::from(is_first_byte(byte)),
    }
}

/// Whether a byte with this many units before it is at a column.
fn is_here(byte: u8, units: u64, column: u64) -> bool
    ensures { result ≡ (spec.is_first_byte byte && (units == column)) }
{
    is_first_byte(byte) && units == column
}

/// The offset of a column of a line, if so many units, not more than the column, come before `start`.
pub(crate) fn offset_from(
    unit: ColumnUnit,
    line: &[u8],
    start: usize,
    before: u64,
    column: u32,
) -> Option<usize>
    requires within { start ≤ length line.now }
    requires counted { before ≡ spec.units_in unit (take start line.now) }
    requires few { before ≤ column }
    ensures { result ≡ spec.offset_of unit line.now column }
{
    let wanted = u64::from(column);
    let mut units = before;
    for at in start..line.len() {
        if is_here(line[at], units, wanted) {
            return Some(at);
        }
        units += units_of(unit, line[at]);
        if units > wanted {
            return None;
        }
    }
    if units == wanted {
        Some(line.len())
    } else {
        None
    }
}

/// The offset in bytes of a column of a line, from 0 to the line's length. None if the line has no such column, or if
/// it is inside a character.
pub fn offset_of(unit: ColumnUnit, line: &[u8], column: u32) -> Option<usize>
    ensures { result ≡ spec.offset_of unit line.now column }
{
    match unit {
        ColumnUnit::Utf8 => {
            let start = line.len().min(column as usize);
            offset_from(unit, line, start, start as u64, column)
        }
        _ => offset_from(unit, line, 0, 0, column),
    }
}
