//! What is said of a fault: its name, a sentence that explains it, and the exit status of a program that stops for it.

ghost use Rattle.std.specs.Prelude.{◌≡◌};
ghost use Rattle.protoscip.specs.FaultTexts.{lacking, lex_text, name_of, refused, sentence_of, status_of, syntax_text};

use crate::fault::Fault;
use crate::statuses::{MEMORY_STATUS, SOURCES_STATUS, STREAM_STATUS};
use proto_lex::{LexFault, MAX_TEXT_LENGTH};
use proto_parse::{MAX_MESSAGE_DEPTH, SyntaxFault};
use scip_wire::MAX_INDEX_LEN;

// The numbers in the sentences are the limits.
const _: () = prove!(
    MAX_TEXT_LENGTH == 67_108_864 && MAX_MESSAGE_DEPTH == 64 && MAX_INDEX_LEN == 2_147_483_647
);

/// What is said of a fault.
#[derive(Clone, Copy)]
pub(crate) struct FaultText {
    /// The name in its line.
    pub(crate) name: &'static str,
    /// A sentence that explains it, whatever the tree holds; empty for lack of memory.
    pub(crate) sentence: &'static str,
    /// The exit status of a program that stops for it.
    pub(crate) status: u8,
}

/// The three together.
fn said(name: &'static str, sentence: &'static str, status: u8) -> FaultText
    ensures name { result.name.now ≡ name.now }
    ensures sentence { result.sentence.now ≡ sentence.now }
    ensures status { result.status ≡ status }
{
    FaultText {
        name,
        sentence,
        status,
    }
}

/// For a source that is refused.
fn refused(name: &'static str, sentence: &'static str) -> FaultText
    ensures name { result.name.now ≡ (refused name.now sentence.now).name }
    ensures sentence { result.sentence.now ≡ (refused name.now sentence.now).sentence }
    ensures status { result.status ≡ (refused name.now sentence.now).status }
{
    said(name, sentence, SOURCES_STATUS)
}

/// For lack of memory.
fn lacking(name: &'static str) -> FaultText
    ensures name { result.name.now ≡ (lacking name.now).name }
    ensures sentence { result.sentence.now ≡ (lacking name.now).sentence }
    ensures status { result.status ≡ (lacking name.now).status }
{
    said(name, "", MEMORY_STATUS)
}

/// What is said of a fault of a text or of its lexing.
fn lex_text(fault: &LexFault) -> FaultText
    ensures name { result.name.now ≡ (lex_text fault.now).name }
    ensures sentence { result.sentence.now ≡ (lex_text fault.now).sentence }
    ensures status { result.status ≡ (lex_text fault.now).status }
{
    let name = fault.name();
    match fault {
        LexFault::TooLong => refused(name, "a source has at most 67108864 bytes"),
        LexFault::NotUtf8(_) => refused(name, "the bytes from here on aren't UTF-8"),
        LexFault::BadByte(_) => refused(name, "this character can't be here"),
        LexFault::OpenString(_) => refused(name, "this string has no end on its line"),
        LexFault::OpenComment(_) => refused(name, "this comment has no `*/`"),
        LexFault::BadEscape(_) => refused(name, "this backslash begins no escape"),
        LexFault::BadNumber(_) => refused(name, "these letters and digits are no number"),
        LexFault::Memory => lacking(name),
    }
}

/// What is said of a fault of the parser.
pub(crate) fn syntax_text(fault: &SyntaxFault) -> FaultText
    ensures name { result.name.now ≡ (syntax_text fault.now).name }
    ensures sentence { result.sentence.now ≡ (syntax_text fault.now).sentence }
    ensures status { result.status ≡ (syntax_text fault.now).status }
{
    let name = fault.name();
    match fault {
        SyntaxFault::NotProto3(_) => {
            let sentence =
                "a source begins with `syntax = \"proto3\";`; with `--accept all` it may be proto2";
            refused(name, sentence)
        }
        SyntaxFault::CustomOption(_) => {
            let sentence =
                "`--custom-options skip`, or `--accept all`, reads past options with parentheses";
            refused(name, sentence)
        }
        SyntaxFault::Aggregate(_) => {
            let sentence =
                "`--custom-options skip`, or `--accept all`, reads past values in braces";
            refused(name, sentence)
        }
        SyntaxFault::Extend(_) => {
            let sentence =
                "`--custom-options skip` reads past `extend`, and `--accept all` reads it";
            refused(name, sentence)
        }
        SyntaxFault::TwoPackages(_) => refused(name, "a source has one package statement at most"),
        SyntaxFault::ImportEscape(_) => refused(name, "an import's path is written without `\\`"),
        SyntaxFault::TooDeep(_) => refused(name, "messages and groups nest at most 64 deep"),
        SyntaxFault::Grammar(_) => refused(name, "the grammar wants something else here"),
        SyntaxFault::Memory => lacking(name),
    }
}

impl Fault {
    /// What is said of it. If two places have one full name, the sentence is that of the second.
    pub(crate) fn text(&self) -> FaultText
        ensures name { result.name.now ≡ name_of self.now }
        ensures sentence { result.sentence.now ≡ sentence_of self.now }
        ensures status { result.status ≡ status_of self.now }
    {
        match self {
            Fault::Spawn => {
                let sentence = "no thread could be started; `--workers 1` needs none";
                said("Spawn", sentence, MEMORY_STATUS)
            }
            Fault::Memory => lacking("Memory"),
            Fault::Unread(_) => refused("Unreadable", "it can't be read"),
            Fault::Lex(_, fault) => lex_text(fault),
            Fault::Syntax(_, fault) => syntax_text(fault),
            Fault::Duplicate(..) => refused("Duplicate", "this full name is given already"),
            Fault::MissingImport(_) => {
                let sentence =
                    "no source has this path, below ROOT or a folder that `--include DIR` names";
                refused("MissingImport", sentence)
            }
            Fault::Unresolved(_) => {
                let sentence = "no type that this source sees has this name";
                refused("Unresolved", sentence)
            }
            Fault::Ambiguous(_) => {
                let sentence = "several files that this source sees declare a type of this name";
                refused("Ambiguous", sentence)
            }
            Fault::OptionGap(_) => {
                let sentence = "nothing that may stand in this option has this name";
                refused("Option", sentence)
            }
            Fault::Uncertain(..) => {
                let sentence =
                    "a file that this source sees can't be read: it may declare this name nearer";
                refused("Uncertain", sentence)
            }
            Fault::TooLarge => {
                said(
                    "TooLarge",
                    "an index has at most 2147483647 bytes",
                    STREAM_STATUS,
                )
            }
            Fault::Write(_) => {
                let sentence = "the output can't be made, or its disk is full, or nobody reads it";
                said("Write", sentence, STREAM_STATUS)
            }
            Fault::Read => {
                said(
                    "Read",
                    "standard input couldn't be read to its end",
                    STREAM_STATUS,
                )
            }
            Fault::Answer(_) => {
                let sentence =
                    "the answers can't be written: the disk is full, or nobody reads them";
                said("Answer", sentence, STREAM_STATUS)
            }
        }
    }
}
