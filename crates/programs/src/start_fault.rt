//! Why a program about a tree doesn't start.

ghost use Rattle.std.specs.Prelude.{◌≡◌, IfOk, None, Some, option_map, string_bytes};
ghost use Rattle.programs.specs.declared.start_fault.StartFault.TheVariants.{Load};
ghost use Rattle.programs.specs.StartFaults.{line_of, line_with, name_of, path_of, sentence_of, status_of};

use crate::statuses::COMMAND_LINE_STATUS;
use protoscip::{
    MEMORY_STATUS, SOURCES_STATUS, STREAM_STATUS, bad_path_sentence, path_line, plain_line,
};
use source_files::LoadFault;
use source_tree::MAX_FILES;
use std::alloc::{AllocError, Global};

// The number in the sentence is the limit.
const _: () = prove!(MAX_FILES == 65_536);

/// Why a program about a tree doesn't start: the first of those that hold. Memory may run out at any step.
#[derive(Debug, Drop)]
pub(crate) enum StartFault {
    /// The manager, the name or the release of the package begins with a space or is `.`.
    BadPart,
    /// The same for the package of the included folder with this path.
    BadFolder(String),
    /// The source that a line of the list names isn't there or can't be read: the file of the list and the number of
    /// the line, and the path.
    Unlisted(String, String),
    /// There is no tree of the files, or memory ran out.
    Load(LoadFault),
    /// The file with this path, which the index would go to, is one of those that were read (`index` alone).
    IsSource(String),
    /// The file with this path, which the report would go to, is one of those that were read.
    ReportIsSource(String),
    /// The report would go to this path, which is that of the index (`index` alone).
    ReportIsOut(String),
}

impl From<AllocError> for StartFault {
    ghost use Rattle.source_files.specs.declared.load_fault.LoadFault.TheVariants.{Memory};
    ghost use Rattle.programs.specs.declared.start_fault.StartFault.TheVariants.{Load};

    ghost from_gives = { λ _ e. e ≡ Load Memory };

    fn from(_refused: AllocError) -> StartFault {
        StartFault::Load(LoadFault::Memory)
    }
}

impl From<LoadFault> for StartFault {
    ghost use Rattle.programs.specs.declared.start_fault.StartFault.TheVariants.{Load};

    ghost from_gives = { λ fault e. e ≡ Load fault };

    fn from(fault: LoadFault) -> StartFault {
        StartFault::Load(fault)
    }
}

/// What is said of why a program doesn't start.
#[derive(Clone, Copy)]
pub(crate) struct StartSaid<'a> {
    /// The name in its line: the package of a folder is refused as that of the run is.
    pub(crate) name: &'static str,
    /// The path that its line names, if it names one.
    pub(crate) path: Option<&'a str>,
    /// A sentence about it.
    pub(crate) sentence: &'static str,
    /// The exit status.
    pub(crate) status: u8,
}

/// What is said of a fault whose line names no path.
fn plain(name: &'static str, sentence: &'static str, status: u8) -> StartSaid<'static>
    ensures name { result.name.now ≡ name.now }
    ensures path { option_map (λ path. path.now) result.path ≡ None }
    ensures sentence { result.sentence.now ≡ sentence.now }
    ensures status { result.status ≡ status }
{
    StartSaid {
        name,
        path: None,
        sentence,
        status,
    }
}

/// What is said of a fault whose line names this path.
fn at_path<'a>(
    path: &'a str,
    name: &'static str,
    sentence: &'static str,
    status: u8,
) -> StartSaid<'a>
    ensures name { result.name.now ≡ name.now }
    ensures path { option_map (λ path. path.now) result.path ≡ Some path.now }
    ensures sentence { result.sentence.now ≡ sentence.now }
    ensures status { result.status ≡ status }
{
    StartSaid {
        name,
        path: Some(path),
        sentence,
        status,
    }
}

/// What is said where there is no tree of the files.
fn said_of_load(fault: &LoadFault) -> StartSaid<'_>
    ensures name { result.name.now ≡ name_of (Load fault.now) }
    ensures path { option_map (λ path. path.now) result.path ≡ path_of (Load fault.now) }
    ensures sentence { result.sentence.now ≡ sentence_of (Load fault.now) }
    ensures status { result.status ≡ status_of (Load fault.now) }
{
    let name = fault.name();
    match fault {
        LoadFault::Unreadable(path) => {
            let sentence = "it isn't there, or can't be read, or an entry's name isn't UTF-8";
            at_path(path.as_str(), name, sentence, STREAM_STATUS)
        }
        LoadFault::TooMany => {
            let sentence = "the sources and the included files are at most 65536";
            plain(name, sentence, SOURCES_STATUS)
        }
        LoadFault::BadPath(path) => {
            at_path(path.as_str(), name, bad_path_sentence(), SOURCES_STATUS)
        }
        LoadFault::SamePath(path) => {
            at_path(
                path.as_str(),
                name,
                "two sources have this path",
                SOURCES_STATUS,
            )
        }
        LoadFault::Memory => plain(name, "memory ran out", MEMORY_STATUS),
    }
}

/// The line, without its end, with this path, if there is one.
fn line_with(alloc: Global, path: Option<&str>, name: &str) -> Result<String, AllocError>
    ensures { IfOk result (λ line. string_bytes line
        ≡ line_with (option_map (λ path. path.now) path.entry) name.now) }
{
    match path {
        Some(path) => path_line(alloc, path, name),
        None => plain_line(alloc, name),
    }
}

impl StartFault {
    /// What is said of it.
    pub(crate) fn said(&self) -> StartSaid<'_>
        ensures name { result.name.now ≡ name_of self.now }
        ensures path { option_map (λ path. path.now) result.path ≡ path_of self.now }
        ensures sentence { result.sentence.now ≡ sentence_of self.now }
        ensures status { result.status ≡ status_of self.now }
    {
        match self {
            StartFault::BadPart => {
                let sentence = "a part of the package begins with a space or is `.`";
                plain("BadPart", sentence, COMMAND_LINE_STATUS)
            }
            StartFault::BadFolder(path) => {
                let sentence = "a part of the package of this folder begins with a space or is `.`";
                at_path(path.as_str(), "BadPart", sentence, COMMAND_LINE_STATUS)
            }
            StartFault::Unlisted(place, _) => {
                let sentence = "the source that this line names isn't there, or can't be read";
                at_path(place.as_str(), "Unreadable", sentence, STREAM_STATUS)
            }
            StartFault::Load(fault) => said_of_load(fault),
            StartFault::IsSource(path) => {
                let sentence =
                    "it is a source that was read, or a link to one; the index would replace it";
                at_path(path.as_str(), "IsSource", sentence, STREAM_STATUS)
            }
            StartFault::ReportIsSource(path) => {
                let sentence =
                    "it is a source that was read, or a link to one; the report would replace it";
                at_path(path.as_str(), "IsSource", sentence, STREAM_STATUS)
            }
            StartFault::ReportIsOut(path) => {
                let sentence = "the index goes there, so its report can't";
                at_path(path.as_str(), "IsOut", sentence, STREAM_STATUS)
            }
        }
    }

    /// The line, without its end, that says this.
    pub(crate) fn line(&self, alloc: Global) -> Result<String, AllocError>
        ensures { IfOk result (λ line. string_bytes line ≡ line_of self.now) }
    {
        let said = self.said();
        line_with(alloc, said.path, said.name)
    }

    /// The exit status.
    pub(crate) fn status(&self) -> u8
        ensures { result ≡ status_of self.now }
    {
        self.said().status
    }
}
