//! Answers to more commands, in each manner.

ghost use Rattle.std.specs.Prelude.{◌≡◌, ◌++◌, nat_le, length, None, if◌then◌else◌, IfOk, OnOk};
ghost use Rattle.std.specs.Fmt.{signed_decimal};
ghost use Rattle.std.specs.Option.{option_map};
ghost use Rattle.std.specs.List.{flat_map};
ghost use Rattle.std.specs.String.{string_bytes};
ghost use Rattle.scip_query.specs.AnswerText.{count_line};
ghost use Rattle.scip_query.specs.Answering.{Answers};
ghost use Rattle.scip_query.specs.Commands.{max_command_length};
ghost use Rattle.scip_query.specs.Kinds.{kind_text};
ghost use Rattle.scip_query.specs.MoreAnswers.{
  definition_line,
  indent,
  outline_line,
  found_lines,
  json_answer_to,
  more_answer_of,
  more_answer_to,
  spoken,
  reply_in,
};
ghost use Rattle.scip_query.specs.MoreCommandReading.{more_command_of};
ghost use Rattle.scip_query.specs.MoreViews.{more_view, outlined_view, found_view};
ghost use Rattle.streams.specs.Writers.{writer};

use crate::answer::{push_answer, push_count, push_line};
use crate::answer_fault::AnswerFault;
use crate::command::MAX_COMMAND_LENGTH;
use crate::finding::Found;
use crate::json_answer::{error_line, json_of};
use crate::kinds::kind_name;
use crate::manner::Manner;
use crate::more_command::{MoreCommand, more_command_of};
use crate::outline::Outlined;
use crate::queries::Queries;
use scip_records::Range;
use std::alloc::{AllocError, Global};
use streams::{Sink, write_all};

/// The command of a line that isn't too long, where more are known.
fn short_command_of(line: &[u8]) -> Option<MoreCommand<'_>>
    ensures { option_map more_view result ≡ (if nat_le (length line.now) max_command_length then more_command_of
        line.now else None) }
{
    if line.len() <= MAX_COMMAND_LENGTH {
        more_command_of(line)
    } else {
        None
    }
}

/// Appends two spaces for each level.
fn push_indent(text: &mut String, depth: usize) -> Result<(), AllocError>
    ensures { OnOk result (string_bytes text.new ≡ string_bytes text.old ++ indent depth) }
{
    for _level in 0..depth {
        text.push_str("  ")?;
    }
    Ok(())
}

/// Appends `L C KIND SYMBOL`: where a definition begins, its symbol's kind, and its symbol.
fn push_named(text: &mut String, range: Range, kind: &str, symbol: &str) -> Result<(), AllocError>
    ensures { OnOk result (string_bytes text.new ≡ string_bytes text.old ++ definition_line range kind.now symbol.now) }
{
    let (line, column) = (range.start_line(), range.start_column());
    writeln!(text, "{line} {column} {kind} {symbol}")
}

/// The same of a kind without a name.
fn push_numbered(text: &mut String, range: Range, kind: i32, symbol: &str) -> Result<(), AllocError>
    ensures { OnOk result (string_bytes text.new ≡ string_bytes text.old ++ definition_line range
        (signed_decimal kind) symbol.now) }
{
    let (line, column) = (range.start_line(), range.start_column());
    writeln!(text, "{line} {column} {kind} {symbol}")
}

/// The same of any kind.
fn push_definition(
    text: &mut String,
    range: Range,
    kind: i32,
    symbol: &str,
) -> Result<(), AllocError>
    ensures { OnOk result (string_bytes text.new ≡ string_bytes text.old ++ definition_line range (kind_text kind)
        symbol.now) }
{
    match kind_name(kind) {
        Some(name) => push_named(text, range, name, symbol),
        None => push_numbered(text, range, kind, symbol),
    }
}

/// Appends the line of a definition in an outline.
fn push_outlined(text: &mut String, outlined: &Outlined<'_>) -> Result<(), AllocError>
    ensures { OnOk result (string_bytes text.new ≡ string_bytes text.old ++ outline_line (outlined_view outlined.now)) }
{
    push_indent(text, outlined.depth)?;
    let (kind, occurrence) = (outlined.kind, outlined.occurrence);
    push_definition(text, occurrence.range, kind, occurrence.symbol.as_str())
}

/// Appends an outline, and how many definitions it has.
pub(crate) fn push_outline(text: &mut String, outline: &[Outlined<'_>]) -> Result<(), AllocError>
    ensures { OnOk result (string_bytes text.new ≡ string_bytes text.old
        ++ flat_map (λ o. outline_line (outlined_view o)) outline.now ++ count_line (length outline.now)) }
{
    for outlined in outline {
        push_outlined(text, outlined)?;
    }
    push_count(text, outline.len())
}

/// Appends the lines of a definition that is found.
fn push_found_lines(text: &mut String, found: &Found<'_>) -> Result<(), AllocError>
    ensures { OnOk result (string_bytes text.new ≡ string_bytes text.old ++ found_lines (found_view found.now)) }
{
    let occurrence = found.occurrence;
    push_line(text, occurrence.range, occurrence.symbol_roles, found.path)?;
    let symbol = occurrence.symbol.as_str();
    writeln!(text, "{symbol}")
}

/// Appends definitions that are found, and how many there are.
pub(crate) fn push_all_found(text: &mut String, all: &[Found<'_>]) -> Result<(), AllocError>
    ensures { OnOk result (string_bytes text.new ≡ string_bytes text.old
        ++ flat_map (λ f. found_lines (found_view f)) all.now ++ count_line (length all.now)) }
{
    for found in all {
        push_found_lines(text, found)?;
    }
    push_count(text, all.len())
}

/// A sentence in place of an answer that says why there is nothing.
fn spoken(answer: &str) -> &str
    ensures { result.now ≡ spoken answer.now }
{
    match answer {
        "? no document\n" => "The index has no document with this path.\n",
        "? nothing there\n" => "There is no symbol at this place.\n",
        "? bad command\n" => "This is no command. Type help for a list.\n",
        _ => answer,
    }
}

impl Queries {
    /// Appends the answer to a command.
    fn push_more(
        &self,
        alloc: Global,
        text: &mut String,
        command: &MoreCommand<'_>,
    ) -> Result<(), AllocError>
        ensures { OnOk result (string_bytes text.new ≡ string_bytes text.old ++ more_answer_of self.now
            (more_view command.now)) }
    {
        let answer = self.given(alloc, command)?;
        push_answer(alloc, text, &answer)
    }

    /// The answer to a line, where more commands are known.
    fn more_answer_to(&self, alloc: Global, line: &[u8]) -> Result<String, AllocError>
        ensures { IfOk result (λ text. string_bytes text ≡ more_answer_to self.now line.now) }
    {
        let mut text = String::new(alloc);
        match short_command_of(line) {
            Some(command) => self.push_more(alloc, &mut text, &command)?,
            None => text.push_str("? bad command\n")?,
        }
        Ok(text)
    }

    /// The same, where it is a sentence if there is nothing.
    fn spoken_answer_to(&self, alloc: Global, line: &[u8]) -> Result<String, AllocError>
        ensures { IfOk result (λ text. string_bytes text ≡ spoken (more_answer_to self.now line.now)) }
    {
        let answer = self.more_answer_to(alloc, line)?;
        String::from_str(alloc, spoken(answer.as_str()))
    }

    /// The same as a line of JSON.
    fn json_answer_to(&self, alloc: Global, line: &[u8]) -> Result<String, AllocError>
        ensures { IfOk result (λ text. string_bytes text ≡ json_answer_to self.now line.now) }
    {
        match short_command_of(line) {
            Some(command) => {
                let answer = self.given(alloc, &command)?;
                json_of(alloc, &answer)
            }
            None => error_line(alloc, "bad command"),
        }
    }

    /// The answer to a line, in a manner.
    pub(crate) fn reply_in(
        &self,
        alloc: Global,
        manner: Manner,
        line: &[u8],
    ) -> Result<String, AllocError>
        ensures { IfOk result (λ text. string_bytes text ≡ reply_in manner self.now line.now) }
    {
        match manner {
            Manner::Plain => self.answer_to(alloc, line),
            Manner::More => self.more_answer_to(alloc, line),
            Manner::Spoken => self.spoken_answer_to(alloc, line),
            Manner::Json => self.json_answer_to(alloc, line),
        }
    }

    /// Writes the answer to one command, in a manner.
    ///
    /// `Plain` knows the commands of `answer`. The others know these, too: `sig L C PATH`, `out PATH`, `find TEXT`,
    /// `pos PATH:LINE:COL` and `help`. L and C, PATH and TEXT are as there, but LINE and COL count from 1; `pos` asks
    /// what `def` does. For `sig` the answer has each line of the signature after `| `, as for `doc`. For `out` it has
    /// a line `L C KIND SYMBOL` for each definition, after two spaces for each symbol around its own; KIND is a kind's
    /// name, its number if it has none, and `-` if it isn't known. For `find` it has two lines for each definition,
    /// that which `def` gives and the symbol. Then comes `= N`, as there. In `Spoken` a sentence stands in place of an
    /// answer that begins with `?`. In `Json` each answer is a line with an object of JSON, as `json_of` gives it; that
    /// of a line that is no command is `{"error":"bad command"}`.
    ///
    /// - `Memory`: nothing was written.
    /// - `Write(count)`: a write failed after so many bytes of the answer.
    pub fn answer_in<W: Sink>(
        &self,
        alloc: Global,
        manner: Manner,
        line: &[u8],
        out: &mut W,
    ) -> Result<(), AnswerFault>
        ensures { Answers (writer W.Sink out) (reply_in manner self.now line.now) result }
    {
        let text = self.reply_in(alloc, manner, line)?;
        match write_all(out, text.as_bytes()) {
            Ok(()) => Ok(()),
            Err(cut_off) => Err(AnswerFault::Write(cut_off.written as u64)),
        }
    }
}
