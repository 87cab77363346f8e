//! More commands.

ghost use Rattle.std.specs.Prelude.{◌≡◌, ◌==◌, Some, cond};
ghost use Rattle.std.specs.Option.{option_map};
ghost use Rattle.scip_query.specs.MoreCommandReading.{
  last_parts_of,
  from_zero,
  counted_of,
  signature_of,
  place_of,
  worded_of,
  more_command_of,
};
ghost use Rattle.scip_query.specs.CommandViews.{parts_view};
ghost use Rattle.scip_query.specs.MoreViews.{more_view};

use crate::command::{Command, Question, command_of, number_of, parts_of, path_of};
use crate::position::Position;

/// One of the commands that are always known, or one more.
#[derive(Clone, Copy, Debug)]
pub enum MoreCommand<'a> {
    /// One of those that are always known.
    Known(Command<'a>),
    /// How the symbol at a position of the document that a path names is declared.
    Signature(Position, &'a str),
    /// What the document that a path names defines.
    Outline(&'a str),
    /// Which definitions a text finds.
    Find(&'a str),
    /// What commands there are.
    Help,
    /// The entry of the symbol at a position of the document that a path names. No line spells this.
    Entry(Position, &'a str),
    /// What is asked of all symbols with a name. No line spells this.
    Named(Question, &'a str),
}

/// The place of a byte, if that is a colon; else the earlier one.
fn later_colon(found: Option<usize>, at: usize, byte: u8) -> Option<usize>
    ensures { result ≡ cond (byte == 58) (Some at) found }
{
    if byte == b':' { Some(at) } else { found }
}

/// What comes before the last colon, and after it.
fn last_parts_of(line: &[u8]) -> Option<(&[u8], &[u8])>
    ensures { option_map parts_view result ≡ last_parts_of line.now }
{
    let mut found = None;
    for (at, byte) in line.iter().enumerate() {
        found = later_colon(found, at, *byte);
    }
    let place = found?;
    let (word, rest) = line.split_at(place);
    Some((word, rest.split_at(1).1))
}

/// A number that counts from 1, from 0.
fn from_zero(number: u32) -> Option<u32>
    ensures { result ≡ from_zero number }
{
    if number == 0 { None } else { Some(number - 1) }
}

/// A line or column that counts from 1, from 0.
fn counted_of(word: &[u8]) -> Option<u32>
    ensures { result ≡ counted_of word.now }
{
    let number = number_of(word)?;
    from_zero(number)
}

/// `L C PATH`.
#[tactic(auto, unfolding(crate::specs::MoreCommandReading::signature_of))]
fn signature_of(line: &[u8]) -> Option<MoreCommand<'_>>
    ensures { option_map more_view result ≡ signature_of line.now }
{
    let (digits, behind) = parts_of(line)?;
    let line = number_of(digits)?;
    let (digits, rest) = parts_of(behind)?;
    let column = number_of(digits)?;
    let path = path_of(rest)?;
    Some(MoreCommand::Signature(Position { line, column }, path))
}

/// `PATH:LINE:COL`.
#[tactic(auto, unfolding(crate::specs::MoreCommandReading::place_of))]
pub(crate) fn place_of(line: &[u8]) -> Option<MoreCommand<'_>>
    ensures { option_map more_view result ≡ place_of line.now }
{
    let (before, digits) = last_parts_of(line)?;
    let column = counted_of(digits)?;
    let (front, digits) = last_parts_of(before)?;
    let line = counted_of(digits)?;
    let path = path_of(front)?;
    let asked = Command::Ask(Question::Definitions, Position { line, column }, path);
    Some(MoreCommand::Known(asked))
}

/// The command of a word, and what is behind it.
#[tactic(auto, unfolding(crate::specs::MoreCommandReading::worded_of))]
fn worded_of<'a>(word: &[u8], behind: &'a [u8]) -> Option<MoreCommand<'a>>
    ensures { option_map more_view result ≡ worded_of (record { word = word.now; behind = behind.now }) }
{
    if word == b"sig".as_slice() {
        return signature_of(behind);
    }
    if word == b"out".as_slice() {
        let path = path_of(behind)?;
        return Some(MoreCommand::Outline(path));
    }
    if word == b"find".as_slice() {
        let text = path_of(behind)?;
        return Some(MoreCommand::Find(text));
    }
    if word == b"pos".as_slice() {
        return place_of(behind);
    }
    None
}

/// The command of a line, where more are known.
#[tactic(auto, unfolding(crate::specs::MoreCommandReading::more_command_of))]
pub(crate) fn more_command_of(line: &[u8]) -> Option<MoreCommand<'_>>
    ensures { option_map more_view result ≡ more_command_of line.now }
{
    if let Some(command) = command_of(line) {
        return Some(MoreCommand::Known(command));
    }
    if line == b"help".as_slice() {
        return Some(MoreCommand::Help);
    }
    let (word, behind) = parts_of(line)?;
    worded_of(word, behind)
}
