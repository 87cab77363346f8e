//! A line of a source, with a part of it marked.

ghost use Rattle.std.specs.Prelude.{◌≡◌, ◌++◌, OnOk, codes, take, ◌<◌};
ghost use Rattle.std.specs.String.{string_bytes};
ghost use Rattle.diagnostics.specs.Characters.{characters};
ghost use Rattle.diagnostics.specs.Excerpts.{
  below,
  blanks,
  carets,
  excerpt,
  last_of,
  mark_line,
  met,
  numbered,
  parts_in,
  quoted,
  room,
  shown_line,
  where_cut,
};
ghost use Rattle.diagnostics.specs.Shown.{marks, shown_text};
ghost use Rattle.diagnostics.specs.Tables.Steps.{both, parts_between};

use crate::characters::{count_characters, last_characters};
use crate::counter::LineCounter;
use crate::line::{cut, token_len};
use crate::near::{end_of_line, front_of_line};
use crate::shown::{push_marks, push_shown};
use std::alloc::{AllocError, Global};

/// How many characters of a line are shown.
const LINE_ROOM: usize = 200;

/// How many characters of a longer line are shown on each side of a place.
const SIDE_ROOM: usize = 100;

/// How many characters of a token are shown in a sentence.
const TOKEN_ROOM: usize = 40;

/// How many characters are shown on each side of a place.
fn room(before: &[u8], marked: &[u8], behind: &[u8]) -> usize
    ensures { result ≡ room (parts_in before.now marked.now behind.now) }
{
    let count = count_characters(before) as u128
        + count_characters(marked) as u128
        + count_characters(behind) as u128;
    if count > LINE_ROOM as u128 {
        SIDE_ROOM
    } else {
        LINE_ROOM
    }
}

/// Appends a text where characters are left out.
fn push_where_cut(out: &mut String, cut: bool, text: &str) -> Result<(), AllocError>
    ensures { OnOk result (string_bytes out.new ≡ string_bytes out.old ++ where_cut cut text.now) }
{
    if cut { out.push_str(text) } else { Ok(()) }
}

/// Appends the last characters, at most this many, as they are shown.
fn push_last(out: &mut String, bytes: &[u8], most: usize) -> Result<(), AllocError>
    ensures { OnOk result (string_bytes out.new
        ≡ string_bytes out.old ++ shown_text (last_of most (characters bytes.now))) }
{
    push_shown(out, last_characters(bytes, most), most)
}

/// Appends spaces below the last characters, at most this many.
fn push_spaces(out: &mut String, bytes: &[u8], most: usize) -> Result<(), AllocError>
    ensures { OnOk result (string_bytes out.new
        ≡ string_bytes out.old ++ marks (codes " ") (shown_text (last_of most (characters bytes.now)))) }
{
    push_marks(out, last_characters(bytes, most), most, " ")
}

/// Appends a line.
fn push_line(
    out: &mut String,
    before: &[u8],
    marked: &[u8],
    behind: &[u8],
) -> Result<(), AllocError>
    ensures { OnOk result (string_bytes out.new
        ≡ string_bytes out.old ++ shown_line (parts_in before.now marked.now behind.now)) }
{
    let room = room(before, marked, behind);
    let count = count_characters(marked);
    let more = count as u128 + count_characters(behind) as u128;
    push_where_cut(out, count_characters(before) > room, "...")?;
    push_last(out, before, room)?;
    push_shown(out, marked, room)?;
    push_shown(out, behind, room.saturating_sub(count))?;
    push_where_cut(out, more > room as u128, "...")
}

/// Appends carets below what is marked, at most this many characters of it, or one caret below a place.
fn push_carets(out: &mut String, marked: &[u8], most: usize) -> Result<(), AllocError>
    requires { 0 < most }
    ensures { OnOk result (string_bytes out.new
        ≡ string_bytes out.old ++ carets (shown_text (take most (characters marked.now)))) }
{
    if marked.is_empty() {
        out.push_str("^")
    } else {
        push_marks(out, marked, most, "^")
    }
}

/// Appends what is below a line.
fn push_mark_line(
    out: &mut String,
    before: &[u8],
    marked: &[u8],
    behind: &[u8],
) -> Result<(), AllocError>
    ensures { OnOk result (string_bytes out.new
        ≡ string_bytes out.old ++ mark_line (parts_in before.now marked.now behind.now)) }
{
    let room = room(before, marked, behind);
    push_where_cut(out, count_characters(before) > room, "   ")?;
    push_spaces(out, before, room)?;
    push_carets(out, marked, room)
}

/// Appends a space for each digit.
fn push_blanks(out: &mut String, digits: &[u8]) -> Result<(), AllocError>
    ensures { OnOk result (string_bytes out.new ≡ string_bytes out.old ++ blanks digits.now) }
{
    for _digit in digits {
        out.push_str(" ")?;
    }
    Ok(())
}

/// Appends a line after its number.
fn push_numbered(
    out: &mut String,
    number: &str,
    before: &[u8],
    marked: &[u8],
    behind: &[u8],
) -> Result<(), AllocError>
    ensures { OnOk result (string_bytes out.new
        ≡ string_bytes out.old ++ numbered number.now (parts_in before.now marked.now behind.now)) }
{
    out.push_str("\n  ")?;
    out.push_str(number)?;
    out.push_str(" | ")?;
    push_line(out, before, marked, behind)
}

/// Appends what is below a line with a number.
fn push_below(
    out: &mut String,
    number: &str,
    before: &[u8],
    marked: &[u8],
    behind: &[u8],
) -> Result<(), AllocError>
    ensures { OnOk result (string_bytes out.new
        ≡ string_bytes out.old ++ below number.now (parts_in before.now marked.now behind.now)) }
{
    out.push_str("\n  ")?;
    push_blanks(out, number.as_bytes())?;
    out.push_str(" | ")?;
    push_mark_line(out, before, marked, behind)
}

/// Appends a line with a number, and what is below it.
fn push_both(
    out: &mut String,
    number: &str,
    before: &[u8],
    marked: &[u8],
    behind: &[u8],
) -> Result<(), AllocError>
    ensures { OnOk result (string_bytes out.new ≡ string_bytes out.old
        ++ both number.now (parts_in before.now marked.now behind.now)) }
{
    push_numbered(out, number, before, marked, behind)?;
    push_below(out, number, before, marked, behind)
}

/// Appends the line between two parts of a text, and marks so many bytes of it, from the second part on. Of a long line
/// what is near the place is looked at, and not all of it.
fn push_around(
    out: &mut String,
    number: &str,
    front: &[u8],
    back: &[u8],
    len: usize,
) -> Result<(), AllocError>
    ensures { OnOk result (string_bytes out.new ≡ string_bytes out.old
        ++ both number.now (parts_between front.now back.now len)) }
{
    let before = end_of_line(front);
    let (marked, behind) = cut(front_of_line(back, len), len);
    push_both(out, number, before, marked, behind)
}

/// Appends the line of an offset in the counter's text, with its number, and marks this many bytes from the offset on.
pub fn push_excerpt(
    alloc: Global,
    out: &mut String,
    counter: &mut LineCounter<'_>,
    at: usize,
    len: usize,
) -> Result<(), AllocError>
    ensures excerpt { OnOk result (string_bytes out.new ≡ string_bytes out.old ++ excerpt counter.old at len) }
    ensures same { counter.new ≡ counter.old }
{
    let (line, _) = counter.line_and_column(at);
    let (front, back) = cut(counter.text(), at);
    let number = format!(in alloc; "{line}")?;
    push_around(out, number.as_str(), front, back, len)
}

/// Appends bytes of a source between backquotes.
pub fn push_quoted(out: &mut String, bytes: &[u8]) -> Result<(), AllocError>
    ensures { OnOk result (string_bytes out.new ≡ string_bytes out.old ++ quoted bytes.now) }
{
    out.push_str("`")?;
    push_shown(out, bytes, TOKEN_ROOM)?;
    push_where_cut(out, count_characters(bytes) > TOKEN_ROOM, "...")?;
    out.push_str("`")
}

/// Appends which token the parser met, by the bytes from it on.
pub fn push_met(out: &mut String, bytes: &[u8]) -> Result<(), AllocError>
    ensures { OnOk result (string_bytes out.new ≡ string_bytes out.old ++ met bytes.now) }
{
    if bytes.is_empty() {
        return out.push_str("the text ends here: ");
    }
    out.push_str("met ")?;
    push_quoted(out, bytes.split_at(token_len(bytes)).0)?;
    out.push_str(": ")
}
