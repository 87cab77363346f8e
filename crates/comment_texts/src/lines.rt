//! Lines of comments, and what is cut from them.

ghost use Rattle.std.specs.Prelude.{◌≡◌, ◌-◌, ◌<◌, ◌≤◌, [], drop, get_or, length};
ghost use Rattle.std.specs.List.{prefix_len, suffix_len};
ghost use Rattle.proto_lex.specs.Bytes.{is_blank};
ghost use Rattle.comment_texts.specs.Lines as spec;
ghost use Rattle.comment_texts.specs.Steps.{least_with, lesser};

use basics::TextRef;

/// Whether a byte is a blank: a space, or one of the controls from the tab to `\r`.
fn is_blank(byte: u8) -> bool
    ensures { result ≡ is_blank byte }
{
    matches!(byte, b' ' | 9..=13)
}

/// How many blanks a line begins with.
fn indentation(line: &str) -> usize
    ensures value { result ≡ spec.indentation line.now }
    ensures within { result ≤ length line.now }
{
    line.as_bytes()
        .iter()
        .take_while(|byte| is_blank(**byte))
        .count()
}

/// How many blanks a line ends with.
fn last_blanks(line: &str) -> usize
    ensures value { result ≡ suffix_len is_blank line.now }
    ensures within { result ≤ length line.now }
{
    line.as_bytes()
        .iter()
        .rev()
        .take_while(|byte| is_blank(**byte))
        .count()
}

/// A line without its first blanks, so many at most.
pub(crate) fn without_blanks(line: &str, most: usize) -> &str
    ensures { result.now ≡ spec.without_blanks most line.now }
{
    let count = most.min(indentation(line));
    &line[count..]
}

/// What is behind the first blanks of a line.
pub(crate) fn behind_blanks(line: &str) -> &str
    ensures { result.now ≡ drop (spec.indentation line.now) line.now }
{
    &line[indentation(line)..]
}

/// A line without the blanks at its end.
pub(crate) fn without_last_blanks(line: &str) -> &str
    ensures { result.now ≡ spec.without_last_blanks line.now }
{
    &line[..line.len() - last_blanks(line)]
}

/// The lesser of a number, if there is one, and another.
fn lesser(least: Option<usize>, other: usize) -> Option<usize>
    ensures { result ≡ lesser least other }
{
    match least {
        Some(least) => Some(least.min(other)),
        None => Some(other),
    }
}

/// The least indentation so far, and a line more. Only lines that have more than blanks count.
pub(crate) fn least_with(least: Option<usize>, line: &str) -> Option<usize>
    ensures { result ≡ least_with least line.now }
{
    let count = indentation(line);
    if count < line.len() {
        lesser(least, count)
    } else {
        least
    }
}

/// Whether the line with this number, from 0, is empty.
fn is_empty_at(lines: &[TextRef<'_>], number: usize) -> bool
    requires { number < length lines.now }
    ensures { result ≡ spec.is_empty_line (get_or lines.now number []) }
{
    lines[number].as_str().is_empty()
}

/// How many empty lines are at the start.
fn first_empty_count(lines: &[TextRef<'_>]) -> usize
    ensures value { result ≡ prefix_len spec.is_empty_line lines.now }
    ensures within { result ≤ length lines.now }
{
    let mut start = 0;
    while start < lines.len() {
        if !is_empty_at(lines, start) {
            return start;
        }
        start += 1;
    }
    start
}

/// How many lines there are without the empty ones at the end.
fn count_without_last_empty(lines: &[TextRef<'_>]) -> usize
    ensures value { result ≡ length lines.now - suffix_len spec.is_empty_line lines.now }
    ensures within { result ≤ length lines.now }
{
    let mut end = lines.len();
    while end > 0 {
        if !is_empty_at(lines, end - 1) {
            return end;
        }
        end -= 1;
    }
    end
}

/// Lines without the empty ones at their start.
fn without_first_empty<'a, 't>(lines: &'a [TextRef<'t>]) -> &'a [TextRef<'t>]
    ensures { result.now ≡ spec.without_first_empty lines.now }
{
    lines.split_at(first_empty_count(lines)).1
}

/// Lines without the empty ones at their end.
fn without_last_empty<'a, 't>(lines: &'a [TextRef<'t>]) -> &'a [TextRef<'t>]
    ensures { result.now ≡ spec.without_last_empty lines.now }
{
    lines.split_at(count_without_last_empty(lines)).0
}

/// Lines without the empty ones at their start and at their end.
pub(crate) fn without_empty_ends<'a, 't>(lines: &'a [TextRef<'t>]) -> &'a [TextRef<'t>]
    ensures { result.now ≡ spec.without_empty_ends lines.now }
{
    without_last_empty(without_first_empty(lines))
}
