//! Why a document of an index is left out.

ghost use Rattle.std.specs.Prelude.{◌≡◌, IfOk, string_bytes};
ghost use Rattle.scip_site.specs.LeftOuts.{line_of, line_with, name_of};
ghost use Rattle.streams.specs.Writers.{IsSaid, writer};
ghost use Rattle.scip_site.specs.Showing.{SaysLine};
ghost use Rattle.scip_site.specs.declared.left_out.LeftOut.TheVariants.{NoSnapshot};

use crate::show_fault::ShowFault;
use scip_pages::SnapshotFault;
use std::alloc::{AllocError, Global};
use streams::{Sink, write_all};
use thiserror::Error;

/// Why a document of an index has no snapshot that is printed. The first of those that hold.
#[derive(Clone, Copy, Debug, Drop, PartialEq, Eq, Error)]
pub enum LeftOut {
    /// Its path leads to no place of its own below the root (`scip_pages::is_path_below`).
    #[error("its path leads to no place of its own below the root")]
    BadPath,
    /// Its source can't be read.
    #[error("its source can't be read")]
    Unreadable,
    /// Its source isn't UTF-8.
    #[error("its source isn't UTF-8")]
    NotText,
    /// It has no snapshot.
    #[error("it has no snapshot: {0}")]
    NoSnapshot(SnapshotFault),
}

/// The name of why a document has no snapshot.
fn name_of(fault: SnapshotFault) -> &'static str
    ensures { result.now ≡ name_of (NoSnapshot fault) }
{
    match fault {
        SnapshotFault::NoDocument => "NoDocument",
        SnapshotFault::NoUnit => "NoUnit",
        SnapshotFault::Misfit(_) => "Misfit",
        SnapshotFault::Memory => "Memory",
    }
}

/// The line that says a name of the document with a path.
pub fn line_with(alloc: Global, path: &str, name: &str) -> Result<String, AllocError>
    ensures { IfOk result (λ line. string_bytes line ≡ line_with path.now name.now) }
{
    format!(in alloc; "protoscip: {path}: {name}")
}

impl LeftOut {
    /// Its name.
    pub fn name(&self) -> &'static str
        ensures { result.now ≡ name_of self.now }
    {
        match self {
            LeftOut::BadPath => "BadPath",
            LeftOut::Unreadable => "Unreadable",
            LeftOut::NotText => "NotText",
            LeftOut::NoSnapshot(fault) => name_of(*fault),
        }
    }

    /// The line, without its end, that says this of the document with a path.
    pub fn line(&self, alloc: Global, path: &str) -> Result<String, AllocError>
        ensures { IfOk result (λ line. string_bytes line ≡ line_of path.now self.now) }
    {
        line_with(alloc, path, self.name())
    }
}

/// Writes a line and its end. Behind a write that fails the rest of both is lost.
pub fn say<M: Sink>(messages: &mut M, line: &str)
    ensures { IsSaid (writer M.Sink messages) line.now }
{
    match write_all(messages, line.as_bytes()) {
        Ok(()) => {
            let _ = write_all(messages, b"\n");
        }
        Err(_) => {}
    }
}

/// Says that the document with a path is left out, and why.
pub(crate) fn tell<M: Sink>(
    alloc: Global,
    path: &str,
    left: LeftOut,
    messages: &mut M,
) -> Result<(), ShowFault>
    ensures { SaysLine (line_of path.now left) (writer M.Sink messages) result }
{
    let line = left.line(alloc, path)?;
    say(messages, line.as_str());
    Ok(())
}
