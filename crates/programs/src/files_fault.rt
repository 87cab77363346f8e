//! Why files hold no index together: what is said about it, and the exit status.

ghost use Rattle.std.specs.Prelude.{◌≡◌, IfOk, map, string_bytes};
ghost use Rattle.std.specs.Option.{option_map};
ghost use Rattle.programs.specs.FilesFaults.{
  explanation_of,
  line_of,
  path_at,
  status_of,
  told,
  twice_explanation,
  twice_line,
  unread_if,
  unread_path,
};

use crate::fault_texts::explained;
use crate::index_fault::IndexFault;
use crate::statuses::INDEX_STATUS;
use protoscip::{MEMORY_STATUS, STREAM_STATUS, path_line, plain_line};
use scip_join::TwoDocuments;
use std::alloc::{AllocError, Global};

/// Why files hold no index together: the first of those that hold. Memory may run out at any step.
#[derive(Debug, Drop)]
pub(crate) enum FilesFault {
    /// No index is read from the file with this number, from 0.
    Read(usize, IndexFault),
    /// No project root is asked for, and the index of the file with this number has another one than the first.
    OtherRoot(usize),
    /// The index of the file with this number says another text encoding than the first.
    OtherEncoding(usize),
    /// Two documents have one path, and none is to be replaced.
    Twice(TwoDocuments),
    /// The join is larger than an index may be.
    TooLarge,
    /// Memory ran out.
    Memory,
}

/// The program that says why files hold no index together.
#[derive(Clone, Copy)]
pub(crate) enum ToldBy {
    /// `join`, which can replace documents.
    Join,
    /// `query`, `snapshot` or `pages`, which can't.
    Other,
}

impl From<AllocError> for FilesFault {
    ghost use Rattle.std.specs.Prelude.{◌≡◌};
    ghost use Rattle.programs.specs.declared.files_fault.FilesFault.TheVariants.{Memory};

    ghost from_gives = { λ _ e. e ≡ Memory };

    fn from(_refused: AllocError) -> FilesFault {
        FilesFault::Memory
    }
}

/// The path with this number, from 0; empty if there is none.
fn path_at(paths: &[String], number: usize) -> &str
    ensures { result.now ≡ path_at (map string_bytes paths.now) number }
{
    match paths.get(number) {
        Some(path) => path.as_str(),
        None => "",
    }
}

/// `protoscip: PATH: Twice in EARLIER and LATER`
fn twice_line(alloc: Global, path: &str, earlier: &str, later: &str) -> Result<String, AllocError>
    ensures { IfOk result (λ line. string_bytes line ≡ twice_line path.now earlier.now later.now) }
{
    let mut line = path_line(alloc, path, "Twice in ")?;
    line.push_str(earlier)?;
    line.push_str(" and ")?;
    line.push_str(later)?;
    Ok(line)
}

/// What two documents with one path may be done about, after a line end.
fn twice_explanation(by: ToldBy) -> &'static str
    ensures { result.now ≡ twice_explanation by }
{
    match by {
        ToldBy::Join => {
            "\nboth have a document with this path: --replace takes that of the later one"
        }
        ToldBy::Other => {
            "\nboth have a document with this path: join --replace takes that of the later one"
        }
    }
}

/// The path, if the file can't be read and that is to be explained.
fn unread_if<'a>(fault: &IndexFault, path: &'a str, explain: bool) -> Option<&'a str>
    ensures { option_map (λ path. path.now) result ≡ unread_if explain path.now fault.now }
{
    if !explain {
        return None;
    }
    match fault {
        IndexFault::Unreadable => Some(path),
        IndexFault::Wire(_) | IndexFault::Memory => None,
    }
}

impl FilesFault {
    /// The line, without its end, that says this of the files with these paths.
    fn line(&self, alloc: Global, paths: &[String]) -> Result<String, AllocError>
        ensures { IfOk result (λ line. string_bytes line ≡ line_of (map string_bytes paths.now) self.now) }
    {
        match self {
            FilesFault::Read(number, fault) => fault.line(alloc, path_at(paths, *number)),
            FilesFault::OtherRoot(number) => {
                path_line(alloc, path_at(paths, *number), "OtherRoot")
            }
            FilesFault::OtherEncoding(number) => {
                path_line(alloc, path_at(paths, *number), "OtherEncoding")
            }
            FilesFault::Twice(two) => {
                let earlier = path_at(paths, two.earlier);
                let later = path_at(paths, two.later);
                twice_line(alloc, two.path.as_str(), earlier, later)
            }
            FilesFault::TooLarge => plain_line(alloc, "TooLarge"),
            FilesFault::Memory => plain_line(alloc, "Memory"),
        }
    }

    /// A sentence after a line end; nothing for lack of memory.
    fn explanation(&self, by: ToldBy) -> &'static str
        ensures { result.now ≡ explanation_of by self.now }
    {
        match self {
            FilesFault::Read(_, fault) => fault.said().explanation,
            FilesFault::OtherRoot(_) => {
                "\nits project root isn't that of the first index: --project-root gives the join one"
            }
            FilesFault::OtherEncoding(_) => {
                "\nits text encoding isn't that of the first index: an index has one"
            }
            FilesFault::Twice(_) => twice_explanation(by),
            FilesFault::TooLarge => "\nan index has at most 2147483647 bytes",
            FilesFault::Memory => "",
        }
    }

    /// The line, without its end, explained if that is asked for.
    pub(crate) fn text(
        &self,
        alloc: Global,
        by: ToldBy,
        paths: &[String],
        explain: bool,
    ) -> Result<String, AllocError>
        ensures { IfOk result (λ text. string_bytes text ≡ told by explain (map string_bytes paths.now) self.now) }
    {
        let line = self.line(alloc, paths)?;
        explained(line, self.explanation(by), explain)
    }

    /// The path of a file that can't be read, if that is to be explained.
    pub(crate) fn unread_path<'a>(&self, paths: &'a [String], explain: bool) -> Option<&'a str>
        ensures { option_map (λ path. path.now) result ≡ unread_path explain (map string_bytes paths.now) self.now }
    {
        match self {
            FilesFault::Read(number, fault) => unread_if(fault, path_at(paths, *number), explain),
            FilesFault::OtherRoot(_)
            | FilesFault::OtherEncoding(_)
            | FilesFault::Twice(_)
            | FilesFault::TooLarge
            | FilesFault::Memory => None,
        }
    }

    /// The exit status.
    pub(crate) fn status(&self) -> u8
        ensures { result ≡ status_of self.now }
    {
        match self {
            FilesFault::Read(_, fault) => fault.status(),
            FilesFault::OtherRoot(_) | FilesFault::OtherEncoding(_) | FilesFault::Twice(_) => {
                INDEX_STATUS
            }
            FilesFault::TooLarge => STREAM_STATUS,
            FilesFault::Memory => MEMORY_STATUS,
        }
    }
}
