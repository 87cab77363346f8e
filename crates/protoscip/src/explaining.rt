//! What is added to the line of a fault if it is to be explained.

ghost use Rattle.std.specs.Prelude.{◌≡◌, ◌++◌, IfOk, OnOk, drop, string_bytes, take};
ghost use Rattle.protoscip.specs.Explanations.{
  AreHintsOf,
  AreSyntaxHints,
  at_both,
  at_met,
  at_place,
  at_token,
  bytes_of,
  explain_in,
  explanation_of,
  IsExplained,
  IsFaultText,
};
ghost use Rattle.diagnostics.specs.Excerpts.{met};
ghost use Rattle.protoscip.specs.FaultLines.{HasFile, HasFilesOf, path_of};

use crate::fault::Fault;
use crate::fault_lines::fault_line;
use crate::required::has_required;
use crate::sentences::sentence_in;
use crate::tree_counter::{Part, TreeCounter};
use diagnostics::{hint_text, push_met, token_len};
use proto_link::FilePlace;
use proto_parse::{Dialect, SyntaxFault};
use source_tree::Tree;
use std::alloc::{AllocError, Global};

/// What is told of a place: a sentence, and what could be there.
#[derive(Clone, Copy)]
struct Told<'a> {
    sentence: &'a str,
    hints: &'a str,
}

/// The line, without its end, that says why a run over the tree stops; and, if that is asked for, what explains it: a
/// place of a source as editors show it, a sentence, and the place's line with the place marked. To explain it takes
/// the dialect in which the tree's sources are parsed. Nothing explains a lack of memory.
///
/// The file numbers in the fault have to be below the tree's `file_count`, as `fault_line` asks it. An error means that
/// memory was refused.
pub fn fault_text(
    alloc: Global,
    tree: &Tree,
    fault: &Fault,
    explain: Option<Dialect>,
) -> Result<String, AllocError>
    requires { HasFilesOf tree.now fault.now }
    ensures { IfOk result (λ text. IsFaultText explain tree.now fault.now (string_bytes text)) }
{
    let line = fault_line(alloc, tree, fault)?;
    with_explanation(alloc, &mut TreeCounter::new(tree), fault, explain, line)
}

/// With what faults are explained, if that is asked for: the dialect in which sources are parsed.
pub fn explain_in(asked: bool, dialect: Dialect) -> Option<Dialect>
    ensures { result ≡ explain_in asked dialect }
{
    if asked { Some(dialect) } else { None }
}

/// A line about a fault, and what explains the fault, if that is asked for.
pub(crate) fn with_explanation(
    alloc: Global,
    counter: &mut TreeCounter<'_>,
    fault: &Fault,
    explain: Option<Dialect>,
    line: String,
) -> Result<String, AllocError>
    requires { HasFilesOf counter.old fault.now }
    ensures explained { IfOk result (λ text. IsExplained explain counter.old fault.now (string_bytes line)
        (string_bytes text)) }
    ensures same { counter.new ≡ counter.old }
{
    let mut text = line;
    if let Some(dialect) = explain {
        let hints = hints_of(alloc, counter.tree(), fault, dialect)?;
        push_explanation(alloc, &mut text, counter, fault, hints.as_str())?;
    }
    Ok(text)
}

/// The bytes before an offset; all if it is past the end.
pub(crate) fn head(bytes: &[u8], at: usize) -> &[u8]
    ensures { result.now ≡ take at bytes.now }
{
    if at < bytes.len() {
        bytes.split_at(at).0
    } else {
        bytes
    }
}

/// What could be where the parser met something else.
fn hints_at(
    alloc: Global,
    text: &[u8],
    fault: &SyntaxFault,
    dialect: Dialect,
) -> Result<String, AllocError>
    ensures { IfOk result (λ hints. AreSyntaxHints dialect text.now fault.now (string_bytes hints)) }
{
    match fault {
        SyntaxFault::Grammar(at) => {
            if has_required(text, *at) {
                return Ok(String::new(alloc));
            }
            hint_text(alloc, dialect, head(text, *at))
        }
        SyntaxFault::NotProto3(_)
        | SyntaxFault::CustomOption(_)
        | SyntaxFault::Aggregate(_)
        | SyntaxFault::Extend(_)
        | SyntaxFault::TwoPackages(_)
        | SyntaxFault::ImportEscape(_)
        | SyntaxFault::TooDeep(_)
        | SyntaxFault::Memory => Ok(String::new(alloc)),
    }
}

/// The same, of a fault of a tree.
fn hints_of(
    alloc: Global,
    tree: &Tree,
    fault: &Fault,
    dialect: Dialect,
) -> Result<String, AllocError>
    requires { HasFilesOf tree.now fault.now }
    ensures { IfOk result (λ hints. AreHintsOf dialect tree.now fault.now (string_bytes hints)) }
{
    match fault {
        Fault::Syntax(file, fault) => { hints_at(alloc, tree.text(*file), fault, dialect) }
        Fault::Spawn
        | Fault::Memory
        | Fault::Unread(_)
        | Fault::Lex(..)
        | Fault::Duplicate(..)
        | Fault::MissingImport(_)
        | Fault::Unresolved(_)
        | Fault::Ambiguous(_)
        | Fault::OptionGap(_)
        | Fault::Uncertain(..)
        | Fault::TooLarge
        | Fault::Write(_)
        | Fault::Read
        | Fault::Answer(_) => Ok(String::new(alloc)),
    }
}

/// Appends what explains a fault. What could be where the parser met something else is given.
fn push_explanation(
    alloc: Global,
    out: &mut String,
    counter: &mut TreeCounter<'_>,
    fault: &Fault,
    hints: &str,
) -> Result<(), AllocError>
    requires { HasFilesOf counter.old fault.now }
    ensures explanation { OnOk result (string_bytes out.new
        ≡ string_bytes out.old ++ explanation_of counter.old fault.now hints.now) }
    ensures same { counter.new ≡ counter.old }
{
    let sentence = sentence_in(counter.tree(), fault);
    match fault {
        Fault::Memory => Ok(()),
        Fault::Lex(file, fault) => {
            push_at_token(alloc, out, counter, *file, fault.offset(), sentence)
        }
        Fault::Syntax(file, fault) => {
            let told = Told { sentence, hints };
            push_at_met(alloc, out, counter, *file, fault.offset(), told)
        }
        Fault::Duplicate(first, second) => {
            push_at_both(alloc, out, counter, first, second, sentence)
        }
        Fault::MissingImport(place) => push_at_place(alloc, out, counter, place, sentence),
        Fault::Unresolved(place) => push_at_place(alloc, out, counter, place, sentence),
        Fault::Ambiguous(place) => push_at_place(alloc, out, counter, place, sentence),
        Fault::OptionGap(place) => push_at_place(alloc, out, counter, place, sentence),
        Fault::Uncertain(place, _) => push_at_place(alloc, out, counter, place, sentence),
        Fault::Spawn
        | Fault::Unread(_)
        | Fault::TooLarge
        | Fault::Write(_)
        | Fault::Read
        | Fault::Answer(_) => {
            out.push_str("\n")?;
            out.push_str(sentence)
        }
    }
}

/// Appends a place where a token begins, if there is one.
fn push_at_token(
    alloc: Global,
    out: &mut String,
    counter: &mut TreeCounter<'_>,
    file: usize,
    offset: Option<usize>,
    sentence: &str,
) -> Result<(), AllocError>
    requires { HasFile counter.old file }
    ensures token { OnOk result (string_bytes out.new ≡ string_bytes out.old
        ++ at_token (path_of counter.old file) (bytes_of counter.old file) offset sentence.now) }
    ensures same { counter.new ≡ counter.old }
{
    match offset {
        Some(at) => {
            let len = token_len(tail(counter.tree().bytes(file), at));
            counter.push_explained(alloc, out, Part { file, at, len }, sentence)
        }
        None => Ok(()),
    }
}

/// The bytes from an offset on; none past the end.
pub(crate) fn tail(bytes: &[u8], at: usize) -> &[u8]
    ensures { result.now ≡ drop at bytes.now }
{
    if at < bytes.len() {
        bytes.split_at(at).1
    } else {
        &[]
    }
}

/// The text about a place where the parser met a token, by the bytes from it on.
fn met_text(alloc: Global, rest: &[u8], told: Told<'_>) -> Result<String, AllocError>
    ensures { IfOk result (λ text. string_bytes text
        ≡ met rest.now ++ told.entry.sentence.now ++ told.entry.hints.now) }
{
    let mut text = String::new(alloc);
    push_met(&mut text, rest)?;
    text.push_str(told.sentence)?;
    text.push_str(told.hints)?;
    Ok(text)
}

/// Appends a place where the parser met a token, or the text's end, if there is one, and what could be there.
fn push_at_met(
    alloc: Global,
    out: &mut String,
    counter: &mut TreeCounter<'_>,
    file: usize,
    offset: Option<usize>,
    told: Told<'_>,
) -> Result<(), AllocError>
    requires { HasFile counter.old file }
    ensures met { OnOk result (string_bytes out.new ≡ string_bytes out.old ++ at_met (path_of counter.old file)
        (bytes_of counter.old file) offset told.entry.sentence.now told.entry.hints.now) }
    ensures same { counter.new ≡ counter.old }
{
    match offset {
        Some(at) => {
            let rest = tail(counter.tree().bytes(file), at);
            let text = met_text(alloc, rest, told)?;
            let len = token_len(rest);
            counter.push_explained(alloc, out, Part { file, at, len }, text.as_str())
        }
        None => Ok(()),
    }
}

/// Appends a place of one of the tree's files.
fn push_at_place(
    alloc: Global,
    out: &mut String,
    counter: &mut TreeCounter<'_>,
    place: &FilePlace,
    sentence: &str,
) -> Result<(), AllocError>
    requires { HasFile counter.old place.now.file }
    ensures place { OnOk result (string_bytes out.new
        ≡ string_bytes out.old ++ at_place counter.old place.now sentence.now) }
    ensures same { counter.new ≡ counter.old }
{
    let part = Part {
        file: place.file,
        at: place.span.start as usize,
        len: place.span.end.saturating_sub(place.span.start) as usize,
    };
    counter.push_explained(alloc, out, part, sentence)
}

/// Appends the second of two places with one full name, and then the first.
fn push_at_both(
    alloc: Global,
    out: &mut String,
    counter: &mut TreeCounter<'_>,
    first: &FilePlace,
    second: &FilePlace,
    sentence: &str,
) -> Result<(), AllocError>
    requires first { HasFile counter.old first.now.file }
    requires second { HasFile counter.old second.now.file }
    ensures both { OnOk result (string_bytes out.new
        ≡ string_bytes out.old ++ at_both counter.old first.now second.now sentence.now) }
    ensures same { counter.new ≡ counter.old }
{
    push_at_place(alloc, out, counter, second, sentence)?;
    push_at_place(
        alloc,
        out,
        &mut TreeCounter::new(counter.tree()),
        first,
        "it is given here",
    )
}
