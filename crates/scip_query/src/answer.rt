//! Answers as texts.

ghost use Rattle.std.specs.Prelude.{◌≡◌, ◌++◌, ◌==◌, ℕ, nat_le, List, length, map, None, if◌then◌else◌, IfOk, OnOk};
ghost use Rattle.std.specs.Fmt.{signed_decimal};
ghost use Rattle.std.specs.Option.{option_map};
ghost use Rattle.std.specs.Borrow.{Bor};
ghost use Rattle.std.specs.List.{flat_map, slice_split};
ghost use Rattle.std.specs.String.{string_bytes};
ghost use Rattle.scip_records.specs.declared.records.SymbolInformation.{SymbolInformation};
ghost use Rattle.scip_query.specs.AnswerText.{
  count_line,
  line_of,
  site_line,
  quoted,
  quoted_line,
  symbol_line,
  miss_text,
  answer_of,
  answer_to,
};
ghost use Rattle.scip_query.specs.Answering.{Answers};
ghost use Rattle.scip_query.specs.Commands.{max_command_length};
ghost use Rattle.scip_query.specs.CommandReading.{command_of};
ghost use Rattle.scip_query.specs.CommandViews.{command_view};
ghost use Rattle.scip_query.specs.MoreAnswers.{text_of};
ghost use Rattle.scip_query.specs.MoreViews.{answer_view, site_view};
ghost use Rattle.streams.specs.Writers.{writer};

use crate::answer_fault::AnswerFault;
use crate::answers::Answer;
use crate::command::{Command, MAX_COMMAND_LENGTH, command_of};
use crate::miss::Miss;
use crate::more_answer::{push_all_found, push_outline};
use crate::queries::Queries;
use crate::site::Site;
use scip_records::{Range, SymbolInformation};
use std::alloc::{AllocError, Global};
use streams::{Sink, write_all};

/// The command of a line that isn't too long.
fn short_command_of(line: &[u8]) -> Option<Command<'_>>
    ensures { option_map command_view result ≡ (if nat_le (length line.now) max_command_length then command_of line.now
        else None) }
{
    if line.len() <= MAX_COMMAND_LENGTH {
        command_of(line)
    } else {
        None
    }
}

/// Appends `= N`.
pub(crate) fn push_count(text: &mut String, count: usize) -> Result<(), AllocError>
    ensures { OnOk result (string_bytes text.new ≡ string_bytes text.old ++ count_line count) }
{
    writeln!(text, "= {count}")
}

/// Appends `L C L2 E ROLE NAME`: where an occurrence begins and ends, its roles and a name.
pub fn push_line(text: &mut String, range: Range, roles: i32, name: &str) -> Result<(), AllocError>
    ensures { OnOk result (string_bytes text.new ≡ string_bytes text.old ++ line_of range roles name.now) }
{
    let (start_line, start_column) = (range.start_line(), range.start_column());
    let (end_line, end_column) = (range.end_line(), range.end_column());
    writeln!(
        text,
        "{start_line} {start_column} {end_line} {end_column} {roles} {name}"
    )
}

/// Appends the line of an occurrence.
fn push_site(text: &mut String, site: &Site<'_>) -> Result<(), AllocError>
    ensures { OnOk result (string_bytes text.new ≡ string_bytes text.old ++ site_line (site_view site.now)) }
{
    push_line(
        text,
        site.occurrence.range,
        site.occurrence.symbol_roles,
        site.document.relative_path.as_str(),
    )
}

/// Appends a line for each occurrence, and how many there are.
fn push_sites(text: &mut String, sites: &[Site<'_>]) -> Result<(), AllocError>
    ensures { OnOk result (string_bytes text.new ≡ string_bytes text.old
        ++ flat_map (λ site. site_line (site_view site)) sites.now ++ count_line (length sites.now)) }
{
    for site in sites {
        push_site(text, site)?;
    }
    push_count(text, sites.len())
}

/// The lines of a text: what is between its `\n`, and before and after them.
fn lines_in(alloc: Global, text: &str) -> Result<Vec<&str>, AllocError>
    ensures { IfOk result (λ lines. map (λ (line : Bor (List ℕ)). line.now) lines.items ≡ slice_split (λ b. b == 10)
        text.now) }
{
    text.split('\n').collect(alloc)
}

/// Appends lines, each after `| `.
fn push_lines(text: &mut String, lines: &[&str]) -> Result<(), AllocError>
    ensures { OnOk result (string_bytes text.new ≡ string_bytes text.old
        ++ flat_map (λ (line : Bor (List ℕ)). quoted_line line.now) lines.now) }
{
    for line in lines {
        let line = *line;
        writeln!(text, "| {line}")?;
    }
    Ok(())
}

/// Appends a text, each of its lines after `| `.
fn push_quoted(alloc: Global, text: &mut String, quoted_text: &str) -> Result<(), AllocError>
    ensures { OnOk result (string_bytes text.new ≡ string_bytes text.old ++ quoted quoted_text.now) }
{
    let lines = lines_in(alloc, quoted_text)?;
    push_lines(text, lines.as_slice())
}

/// Appends texts, and how many there are.
fn push_texts(alloc: Global, text: &mut String, texts: &[&str]) -> Result<(), AllocError>
    ensures { OnOk result (string_bytes text.new ≡ string_bytes text.old
        ++ flat_map (λ (t : Bor (List ℕ)). quoted t.now) texts.now ++ count_line (length texts.now)) }
{
    for lines in texts {
        push_quoted(alloc, text, *lines)?;
    }
    push_count(text, texts.len())
}

/// Appends the symbols of entries, and how many there are.
fn push_symbols(text: &mut String, entries: &[&SymbolInformation]) -> Result<(), AllocError>
    ensures { OnOk result (string_bytes text.new ≡ string_bytes text.old
        ++ flat_map (λ (entry : Bor SymbolInformation). symbol_line entry.now) entries.now ++ count_line
        (length entries.now)) }
{
    for entry in entries {
        let symbol = entry.symbol.as_str();
        writeln!(text, "{symbol}")?;
    }
    push_count(text, entries.len())
}

/// Appends the line of a refused question.
fn push_miss(text: &mut String, miss: Miss) -> Result<(), AllocError>
    ensures { OnOk result (string_bytes text.new ≡ string_bytes text.old ++ miss_text miss) }
{
    match miss {
        Miss::NoDocument => text.push_str("? no document\n"),
        Miss::NothingThere => text.push_str("? nothing there\n"),
    }
}

/// Appends the text of an answer.
pub(crate) fn push_answer(
    alloc: Global,
    text: &mut String,
    answer: &Answer<'_>,
) -> Result<(), AllocError>
    ensures { OnOk result (string_bytes text.new ≡ string_bytes text.old ++ text_of (answer_view answer.now)) }
{
    match answer {
        Answer::Sites(sites) => push_sites(text, sites.as_slice()),
        Answer::Texts(texts) => push_texts(alloc, text, texts.as_slice()),
        Answer::Entries(entries) => push_symbols(text, entries.as_slice()),
        Answer::Outline(outline) => push_outline(text, outline.as_slice()),
        Answer::Found(found) => push_all_found(text, found.as_slice()),
        Answer::Missed(miss) => push_miss(text, *miss),
    }
}

impl Queries {
    /// Appends the answer to a command that is always known.
    fn push_known(
        &self,
        alloc: Global,
        text: &mut String,
        command: &Command<'_>,
    ) -> Result<(), AllocError>
        ensures { OnOk result (string_bytes text.new ≡ string_bytes text.old ++ answer_of self.now
            (command_view command.now)) }
    {
        let answer = self.given_to(alloc, command)?;
        push_answer(alloc, text, &answer)
    }

    /// The answer to a line.
    pub(crate) fn answer_to(&self, alloc: Global, line: &[u8]) -> Result<String, AllocError>
        ensures { IfOk result (λ text. string_bytes text ≡ answer_to self.now line.now) }
    {
        let mut text = String::new(alloc);
        match short_command_of(line) {
            Some(command) => self.push_known(alloc, &mut text, &command)?,
            None => text.push_str("? bad command\n")?,
        }
        Ok(text)
    }

    /// Writes the answer to one command.
    ///
    /// Commands are `def L C PATH`, `ref L C PATH`, `doc L C PATH` and `sym PATH`, with one space between parts. L
    /// and C have one to ten digits and are at most 2,147,483,647; PATH is the rest of the line, UTF-8 and not empty.
    /// For `def` and `ref` the answer has a line `L C L2 E ROLE PATH` for each occurrence, for `doc` each line of
    /// each text after `| `, for `sym` the symbol of each entry; then `= N`, how many there are. Otherwise it is
    /// `? no document`, `? nothing there`, or `? bad command`, also for a line of more than `MAX_COMMAND_LENGTH`
    /// bytes.
    ///
    /// - `Memory`: nothing was written.
    /// - `Write(count)`: a write failed after so many bytes of the answer.
    pub fn answer<W: Sink>(
        &self,
        alloc: Global,
        line: &[u8],
        out: &mut W,
    ) -> Result<(), AnswerFault>
        ensures { Answers (writer W.Sink out) (answer_to self.now line.now) result }
    {
        let text = self.answer_to(alloc, line)?;
        match write_all(out, text.as_bytes()) {
            Ok(()) => Ok(()),
            Err(cut_off) => Err(AnswerFault::Write(cut_off.written as u64)),
        }
    }
}
