//! Lines, joined to a text.

ghost use Rattle.std.specs.Prelude.{◌≡◌, ◌++◌, ◌∷◌, IfOk, OnOk, string_bytes};
ghost use Rattle.std.specs.List.{join_with_byte};
ghost use Rattle.proto_lex.specs.Ascii as ascii;

use basics::{KeptText, OwnedText, TextRef};
use std::alloc::{AllocError, Global};

/// Appends a line behind others.
pub fn push_next_line(joined: &mut String, line: &str) -> Result<(), AllocError>
    ensures { OnOk result (string_bytes joined.new ≡ string_bytes joined.old ++ ascii.line_feed ∷ line.now) }
{
    joined.push_str("\n")?;
    joined.push_str(line)?;
    Ok(())
}

/// A line and others, with `\n` between them. There is room for so many bytes at the start.
fn joined_lines(
    alloc: Global,
    room: usize,
    first: &TextRef<'_>,
    others: &[TextRef<'_>],
) -> Result<OwnedText, AllocError>
    ensures { IfOk result (λ text. text ≡ join_with_byte ascii.line_feed (first.now ∷ others.now)) }
{
    let mut joined = String::with_capacity(alloc, room)?;
    joined.push_str(first.as_str())?;
    for line in others {
        push_next_line(&mut joined, line.as_str())?;
    }
    Ok(OwnedText::from_string(joined))
}

/// Lines with `\n` between them. There is room for so many bytes at the start. One line alone takes no memory.
pub(crate) fn text_of_lines<'t>(
    alloc: Global,
    room: usize,
    lines: &[TextRef<'t>],
) -> Result<KeptText<'t>, AllocError>
    ensures { IfOk result (λ text. text ≡ join_with_byte ascii.line_feed lines.now) }
{
    match lines {
        [] => Ok(KeptText::borrowed("")),
        [line] => Ok(KeptText::borrowed(line.as_str())),
        [first, others @ ..] => {
            let joined = joined_lines(alloc, room, first, others)?;
            KeptText::owned(alloc, joined)
        }
    }
}
