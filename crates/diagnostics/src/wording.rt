//! How hints are told.

ghost use Rattle.std.specs.Prelude.{◌≡◌, ◌++◌, OnOk, map};
ghost use Rattle.std.specs.Option.{option_map};
ghost use Rattle.std.specs.String.{string_bytes};
ghost use Rattle.diagnostics.specs.Appended.{between, listed, listed_text};
ghost use Rattle.diagnostics.specs.Wording.{phrase, shown};

use std::alloc::AllocError;

/// How many of them are told at most.
pub const MAX_TOLD: usize = 9;

/// What is said of a candidate that stands for others of its kind.
fn phrase(spelling: &str) -> Option<&'static str>
    ensures { option_map (λ s. s.now) result ≡ phrase spelling.now }
{
    match spelling {
        "a" => Some("a name"),
        "A" => Some("a name that begins with a capital letter"),
        "1.5" => Some("a number"),
        "1" => Some("a whole number"),
        "\"a\"" => Some("a string"),
        _ => None,
    }
}

/// Appends what is said of a candidate.
fn push_shown(out: &mut String, spelling: &str) -> Result<(), AllocError>
    ensures { OnOk result (string_bytes out.new ≡ string_bytes out.old ++ shown spelling.now) }
{
    match phrase(spelling) {
        Some(words) => out.push_str(words),
        None => {
            out.push_str("`")?;
            out.push_str(spelling)?;
            out.push_str("`")
        }
    }
}

/// What is between one and those behind it, of which so many are told at most.
fn between(behind: &[&str], room: usize) -> &'static str
    ensures { result.now ≡ between (map (λ s. s.now) behind.now) room }
{
    match behind {
        [] => "",
        [_] => " or ",
        [_, _, ..] => if room == 0 { " or " } else { ", " },
    }
}

/// Appends all of them, if they are so many at most.
fn push_listed(out: &mut String, hints: &[&str], room: usize) -> Result<(), AllocError>
    ensures { OnOk result (string_bytes out.new ≡ string_bytes out.old ++ listed (map (λ s. s.now) hints.now) room) }
{
    match hints {
        [] => Ok(()),
        [hint, behind @ ..] => {
            if room == 0 {
                return out.push_str("others");
            }
            push_shown(out, *hint)?;
            out.push_str(between(behind, room - 1))?;
            push_listed(out, behind, room - 1)
        }
    }
}

/// Appends what a sentence goes on with.
pub(crate) fn push_hints(out: &mut String, hints: &[&str]) -> Result<(), AllocError>
    ensures { OnOk result (string_bytes out.new ≡ string_bytes out.old ++ listed_text (map (λ s. s.now) hints.now)) }
{
    if hints.is_empty() {
        return Ok(());
    }
    out.push_str(": ")?;
    push_listed(out, hints, MAX_TOLD)
}
