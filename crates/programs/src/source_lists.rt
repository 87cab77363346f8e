//! The list of sources that is asked for is read.

ghost use Rattle.std.specs.Prelude.{◌≡◌, ◌++◌, [], Err, IfErr, IfOk, Ok, OnOk, Some, codes};
ghost use Rattle.std.specs.Prelude.{option_map, string_bytes};
ghost use Rattle.std.specs.Str.{bytes_eq};
ghost use Rattle.streams.specs.Readers.{reader};
ghost use Rattle.streams.specs.Writers.{IsUntouched, writer};
ghost use Rattle.command_line.specs.declared.options.sources.SourceList.{SourceList};
ghost use Rattle.programs.specs.declared.source_lists.NoList.TheVariants.{Refused};
ghost use Rattle.programs.specs.Messages.{TellsOne};
ghost use Rattle.programs.specs.SourceLists.{
  HasRead,
  IsListTold,
  Lists,
  ReadsList,
  ReadsListIn,
  SaysNoList,
  SaysNoListIn,
  line_told,
  place_text,
  said_of,
  unread_file,
};

use crate::causes::with_reason;
use crate::messages::report;
use command_line::{IndexOptions, Request, STANDARD_INPUT, SourceList};
use protoscip::{MEMORY_STATUS, SOURCES_STATUS, STREAM_STATUS, path_line};
use source_files::{ListFault, ListedPath, LookAgain, ReadFiles, listed_paths};
use source_tree::read_source;
use std::alloc::{AllocError, Global};
use streams::{Feed, Sink};

/// Why a list names no sources.
#[derive(Clone, Copy, Debug, Drop)]
pub(crate) enum NoList {
    /// It isn't there, or can't be read.
    Unreadable,
    /// It is refused, or memory ran out.
    Refused(ListFault),
}

impl From<AllocError> for NoList {
    ghost use Rattle.source_files.specs.declared.source_list.ListFault.TheVariants.{Memory};
    ghost use Rattle.programs.specs.declared.source_lists.NoList.TheVariants.{Refused};

    ghost from_gives = { λ _ e. e ≡ Refused Memory };

    fn from(_refused: AllocError) -> NoList {
        NoList::Refused(ListFault::Memory)
    }
}

/// What is said of why there is no list.
#[derive(Clone, Copy)]
pub(crate) struct ListSaid {
    /// The name in its line.
    pub(crate) name: &'static str,
    /// The number of the line of the list, if it is the fault of one.
    pub(crate) line: Option<usize>,
    /// A sentence about it.
    pub(crate) sentence: &'static str,
    /// The exit status.
    pub(crate) status: u8,
}

impl NoList {
    /// What is said of it.
    fn said(self) -> ListSaid
        ensures name { result.name.now ≡ (said_of self).name }
        ensures line { result.line ≡ (said_of self).line }
        ensures sentence { result.sentence.now ≡ (said_of self).sentence }
        ensures status { result.status ≡ (said_of self).status }
    {
        match self {
            NoList::Unreadable => ListSaid {
                name: "Unreadable",
                line: None,
                sentence: "this list of sources isn't there, or can't be read",
                status: STREAM_STATUS,
            },
            NoList::Refused(fault) => said_of_fault(fault),
        }
    }
}

/// What is said of a list that is refused.
fn said_of_fault(fault: ListFault) -> ListSaid
    ensures name { result.name.now ≡ (said_of (Refused fault)).name }
    ensures line { result.line ≡ (said_of (Refused fault)).line }
    ensures sentence { result.sentence.now ≡ (said_of (Refused fault)).sentence }
    ensures status { result.status ≡ (said_of (Refused fault)).status }
{
    let status = SOURCES_STATUS;
    match fault {
        ListFault::TooLong => ListSaid {
            name: "TooLong",
            line: None,
            sentence: "a list of sources has at most 67108864 bytes",
            status,
        },
        ListFault::NotUtf8(line) => ListSaid {
            name: "NotUtf8",
            line: Some(line),
            sentence: "this line isn't UTF-8",
            status,
        },
        ListFault::BadPath(line) => {
            let sentence =
                "a listed path is like `a/b.proto`: no empty name, `.`, `..` or control character; at most 4096 bytes";
            ListSaid {
                name: "BadPath",
                line: Some(line),
                sentence,
                status,
            }
        }
        ListFault::TooMany => ListSaid {
            name: "TooMany",
            line: None,
            sentence: "a list names at most 65536 paths",
            status,
        },
        ListFault::Memory => ListSaid {
            name: "Memory",
            line: None,
            sentence: "memory ran out",
            status: MEMORY_STATUS,
        },
    }
}

/// A file and the number of its line, if there is one.
pub(crate) fn place_of(alloc: Global, file: &str, line: Option<usize>) -> Result<String, AllocError>
    ensures { IfOk result (λ place. string_bytes place ≡ place_text file.now line) }
{
    match line {
        Some(line) => format!(in alloc; "{file}:{line}"),
        None => String::from_str(alloc, file),
    }
}

/// Appends a sentence behind a line end.
fn push_sentence(text: &mut String, sentence: &str) -> Result<(), AllocError>
    ensures { OnOk result (string_bytes text.new ≡ string_bytes text.old ++ (codes "\n" ++ sentence.now)) }
{
    text.push_str("\n")?;
    text.push_str(sentence)
}

/// The line, without its end, that says this of the file of a list, explained if that is asked for.
pub(crate) fn list_text(
    alloc: Global,
    file: &str,
    said: ListSaid,
    explain: bool,
) -> Result<String, AllocError>
    ensures { IfOk result (λ text. string_bytes text
        ≡ line_told explain (place_text file.now said.line) said.name.now said.sentence.now) }
{
    let place = place_of(alloc, file, said.line)?;
    let mut text = path_line(alloc, place.as_str(), said.name)?;
    if explain {
        push_sentence(&mut text, said.sentence)?;
    }
    Ok(text)
}

/// The file that can't be read, if that is the fault and it is to be explained; standard input is none.
fn unread_file<'a>(fault: NoList, explain: bool, file: &'a str) -> Option<&'a str>
    ensures { option_map (λ path. path.now) result
        ≡ unread_file explain (bytes_eq file.now (codes "-")) file.now fault }
{
    if !explain {
        return None;
    }
    if file == STANDARD_INPUT {
        return None;
    }
    match fault {
        NoList::Unreadable => Some(file),
        NoList::Refused(_) => None,
    }
}

/// The same, also with why the file can't be read, if that is the fault.
fn fault_text<F: LookAgain>(
    alloc: Global,
    files: &F,
    explain: bool,
    file: &str,
    fault: NoList,
) -> Result<String, AllocError>
    ensures { IfOk result (λ text. IsListTold (F.blames files.now [] []) explain file.now fault (string_bytes text)) }
{
    let text = list_text(alloc, file, fault.said(), explain)?;
    match unread_file(fault, explain, file) {
        Some(path) => {
            let why = files.why_unread(&[], &[], path)?;
            with_reason(text, why)
        }
        None => Ok(text),
    }
}

/// The bytes of a list.
fn list_bytes<F: ReadFiles, I: Feed>(
    alloc: Global,
    files: &F,
    file: &str,
    input: &mut I,
) -> Result<Option<Vec<u8>>, AllocError>
    ensures { IfOk result (λ read. HasRead (F.gives files.now) (reader I.Feed input) file.now
        (option_map (λ bytes. bytes.items) read)) }
{
    if file == STANDARD_INPUT {
        read_source(alloc, input)
    } else {
        files.read_source(alloc, file)
    }
}

/// The paths that a list names.
fn list_of<F: ReadFiles, I: Feed>(
    alloc: Global,
    files: &F,
    file: &str,
    input: &mut I,
) -> Result<Vec<ListedPath>, NoList>
    ensures ok { IfOk result (λ listed. Lists (F.gives files.now) (reader I.Feed input) file.now (Ok listed.items)) }
    ensures err { IfErr result (λ fault. Lists (F.gives files.now) (reader I.Feed input) file.now (Err fault)) }
{
    match list_bytes(alloc, files, file, input)? {
        Some(bytes) => match listed_paths(alloc, &bytes) {
            Ok(listed) => Ok(listed),
            Err(fault) => Err(NoList::Refused(fault)),
        },
        None => Err(NoList::Unreadable),
    }
}

/// Says why there is no list, also by why its file can't be read, and gives the exit status.
fn say_no_list<F: LookAgain, M: Sink>(
    alloc: Global,
    files: &F,
    explain: bool,
    file: &str,
    fault: NoList,
    messages: &mut M,
) -> u8
    ensures { TellsOne (IsListTold (F.blames files.now [] []) explain file.now fault) (said_of fault).status
        (writer M.Sink messages) result }
{
    let text = fault_text(alloc, files, explain, file, fault);
    report(text, fault.said().status, messages)
}

/// Has the list that options ask for, if they do, name these paths.
fn fill_list(options: &mut IndexOptions, listed: Vec<ListedPath>)
    ensures { (list : SourceList) → options.old.sources ≡ Some list
        → options.new ≡ record options.old { sources = Some (record { file = list.file; listed = listed }) } }
{
    if let Some(list) = options.sources.take() {
        let file = list.file;
        options.sources = Some(SourceList { file, listed });
    }
}

/// Reads the list that options ask for, if they do. If there is none, it says why, and gives the exit status.
fn read_list<F: ReadFiles + LookAgain, I: Feed, M: Sink>(
    alloc: Global,
    files: &F,
    options: &mut IndexOptions,
    input: &mut I,
    messages: &mut M,
) -> Result<(), u8>
    ensures read { OnOk result (ReadsList (F.gives files.now) (reader I.Feed input) options.old.sources options.old
        options.new × IsUntouched (writer M.Sink messages)) }
    ensures refused { IfErr result (SaysNoList (F.gives files.now) (F.blames files.now [] []) (reader I.Feed input)
        options.old (writer M.Sink messages)) }
{
    let explain = options.explain;
    let Some(list) = &options.sources else {
        return Ok(());
    };
    let file = list.file.as_str();
    match list_of(alloc, files, file, input) {
        Ok(listed) => {
            fill_list(options, listed);
            Ok(())
        }
        Err(fault) => Err(say_no_list(alloc, files, explain, file, fault, messages)),
    }
}

/// What is asked for, with the list of sources read, if one is asked for: from its file, or from `input`. If there is
/// none, it says why, and gives the exit status.
pub fn with_list<F: ReadFiles + LookAgain, I: Feed, M: Sink>(
    alloc: Global,
    files: &F,
    asked: Request,
    input: &mut I,
    messages: &mut M,
) -> Result<Request, u8>
    ensures read { IfOk result (λ now. ReadsListIn (F.gives files.now) (reader I.Feed input) asked now
        × IsUntouched (writer M.Sink messages)) }
    ensures refused { IfErr result (SaysNoListIn (F.gives files.now) (F.blames files.now [] []) (reader I.Feed input)
        asked (writer M.Sink messages)) }
{
    match asked {
        Request::Index(given) => {
            let mut given = given;
            read_list(alloc, files, &mut given.options, input, messages)?;
            Ok(Request::Index(given))
        }
        Request::Shell(given) => {
            let mut given = given;
            read_list(alloc, files, &mut given.options, input, messages)?;
            Ok(Request::Shell(given))
        }
        request => Ok(request),
    }
}
