//! What of a long line is near a place.

ghost use Rattle.std.specs.Prelude.{◌≡◌, drop, take};
ghost use Rattle.std.specs.List.{after_last, before_first};
ghost use Rattle.proto_lex.specs.Position.{is_line_end};
ghost use Rattle.diagnostics.specs.Characters.{characters};
ghost use Rattle.diagnostics.specs.Excerpts.{last_of};
ghost use Rattle.diagnostics.specs.Places.{without_return};
ghost use Rattle.diagnostics.specs.Tables.Steps.{near};

use crate::characters::{count_characters, last_characters};
use crate::line::{cut, first_line, last_line, last_line_len, line_len};

/// One character more than are shown of a line.
const NEAR: usize = 201;

/// How many bytes are looked at first: those of so many characters, at most four each, and some more.
const WINDOW: usize = 1024;

/// What comes after the last line end of a text, or an end of it that has more characters than are near.
fn wide_end(text: &[u8]) -> &[u8]
    ensures { last_of near (characters result.now) ≡ last_of near (characters (after_last is_line_end text.now)) }
{
    let window = cut(text, text.len().saturating_sub(WINDOW)).1;
    if last_line_len(window) < window.len() {
        return last_line(text);
    }
    if count_characters(window) <= NEAR {
        return last_line(text);
    }
    window
}

/// The last characters of what comes after the last line end of a text, as many as are near.
pub(crate) fn end_of_line(text: &[u8]) -> &[u8]
    ensures { characters result.now ≡ last_of near (characters (after_last is_line_end text.now)) }
{
    last_characters(wide_end(text), NEAR)
}

/// What comes before the first line end of a text, without the `\r` that ends it; or a front of it that has so many
/// bytes, and behind them more characters than are near.
pub(crate) fn front_of_line(text: &[u8], len: usize) -> &[u8]
    ensures marked { take len result.now ≡ take len (without_return (before_first is_line_end text.now)) }
    ensures behind { take near (characters (drop len result.now))
        ≡ take near (characters (drop len (without_return (before_first is_line_end text.now)))) }
{
    let window = cut(text, len.saturating_add(WINDOW)).0;
    if line_len(window) < window.len() {
        return first_line(text);
    }
    // The last byte may be a `\r` that ends the line.
    let front = cut(text, window.len().saturating_sub(1)).0;
    if count_characters(cut(front, len).1) <= NEAR {
        return first_line(text);
    }
    front
}
