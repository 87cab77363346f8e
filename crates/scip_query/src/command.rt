//! Commands: one a line.

ghost use Rattle.std.specs.Prelude.{◌≡◌, ◌≤◌, length};
ghost use Rattle.std.specs.List.{AllPass, list_all};
ghost use Rattle.std.specs.Option.{option_map};
ghost use Rattle.scip_query.specs.Commands.{is_digit, value_of, max_digits};
ghost use Rattle.scip_query.specs.CommandReading.{
  parts_of,
  is_written,
  at_most,
  number_of,
  path_of,
  question_of,
  ask_of,
  command_of,
};
ghost use Rattle.scip_query.specs.CommandViews.{parts_view, text_of, command_view};

use crate::position::Position;
use scip_records::MAX_RANGE_NUMBER;

/// The most bytes of a command, without its line's end.
pub const MAX_COMMAND_LENGTH: usize = 65_536;

/// The most digits of a line or column.
const MAX_DIGITS: usize = 10;

/// What is asked of a symbol.
#[derive(Clone, Copy, Debug, PartialEq, Eq)]
pub enum Question {
    /// Where it is defined.
    Definitions,
    /// Where it occurs.
    References,
    /// What documents it.
    Documentation,
}

/// A question about a position of the document that a path names, or about that document's symbols.
#[derive(Clone, Copy, Debug)]
pub enum Command<'a> {
    /// A question about the symbol at a position of the document that a path names.
    Ask(Question, Position, &'a str),
    /// The symbols of that document's entries.
    Symbols(&'a str),
}

/// What comes before the first space, and after it.
pub(crate) fn parts_of(line: &[u8]) -> Option<(&[u8], &[u8])>
    ensures { option_map parts_view result ≡ parts_of line.now }
{
    for (at, byte) in line.iter().enumerate() {
        if *byte == b' ' {
            let (word, rest) = line.split_at(at);
            return Some((word, rest.split_at(1).1));
        }
    }
    None
}

/// The number that digits write.
fn value_of(digits: &[u8]) -> u64
    requires digits { AllPass is_digit digits.now }
    requires few { length digits.now ≤ max_digits }
    ensures { result ≡ value_of digits.now }
{
    let mut value: u64 = 0;
    for digit in digits {
        value = value * 10 + u64::from(*digit - b'0');
    }
    value
}

/// Whether all bytes are ASCII digits.
fn are_digits(word: &[u8]) -> bool
    ensures { result ≡ list_all is_digit word.now }
{
    word.iter().all(|byte| matches!(byte, b'0'..=b'9'))
}

/// Whether a word has one to ten digits and nothing else.
fn is_written(word: &[u8]) -> bool
    ensures { result ≡ is_written word.now }
{
    if are_digits(word) {
        !word.is_empty() && word.len() <= MAX_DIGITS
    } else {
        false
    }
}

/// A number that isn't above the greatest SCIP int32.
fn at_most(value: u64) -> Option<u32>
    ensures { result ≡ at_most value }
{
    if value <= u64::from(MAX_RANGE_NUMBER) {
        Some(value as u32)
    } else {
        None
    }
}

/// A line or column, of one to ten digits and at most the greatest SCIP int32.
pub(crate) fn number_of(word: &[u8]) -> Option<u32>
    ensures { result ≡ number_of word.now }
{
    if is_written(word) {
        at_most(value_of(word))
    } else {
        None
    }
}

/// A path: any text but the empty one.
#[tactic(auto, unfolding(crate::specs::CommandReading::path_of))]
pub(crate) fn path_of(path: &[u8]) -> Option<&str>
    ensures { option_map text_of result ≡ path_of path.now }
{
    if path.is_empty() {
        return None;
    }
    match str::from_utf8(path) {
        Ok(text) => Some(text),
        Err(_) => None,
    }
}

/// The question that a word asks, if it asks one.
#[tactic(auto, unfolding(crate::specs::CommandReading::question_of))]
fn question_of(word: &[u8]) -> Option<Question>
    ensures { result ≡ question_of word.now }
{
    if word == b"def".as_slice() {
        Some(Question::Definitions)
    } else if word == b"ref".as_slice() {
        Some(Question::References)
    } else if word == b"doc".as_slice() {
        Some(Question::Documentation)
    } else {
        None
    }
}

/// `L C PATH` of a question.
#[tactic(auto, unfolding(crate::specs::CommandReading::ask_of))]
fn ask_of(question: Question, line: &[u8]) -> Option<Command<'_>>
    ensures { option_map command_view result ≡ ask_of question line.now }
{
    let (digits, behind) = parts_of(line)?;
    let line = number_of(digits)?;
    let (digits, rest) = parts_of(behind)?;
    let column = number_of(digits)?;
    let path = path_of(rest)?;
    Some(Command::Ask(question, Position { line, column }, path))
}

/// The command of a line.
#[tactic(auto, unfolding(crate::specs::CommandReading::command_of))]
pub(crate) fn command_of(line: &[u8]) -> Option<Command<'_>>
    ensures { option_map command_view result ≡ command_of line.now }
{
    let (word, behind) = parts_of(line)?;
    if word == b"sym".as_slice() {
        let path = path_of(behind)?;
        return Some(Command::Symbols(path));
    }
    let question = question_of(word)?;
    ask_of(question, behind)
}
