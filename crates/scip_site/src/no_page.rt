//! Why a document of an index has no page.

ghost use Rattle.std.specs.Prelude.{◌≡◌};
ghost use Rattle.scip_site.specs.LeftOuts.{line_with};
ghost use Rattle.streams.specs.Writers.{writer};
ghost use Rattle.scip_site.specs.Showing.{SaysLine};
ghost use Rattle.scip_site.specs.Reading.{name_of};

use crate::left_out::{line_with, say};
use crate::show_fault::ShowFault;
use std::alloc::Global;
use streams::Sink;

/// Why a document of an index has no page. The first of those that hold.
#[derive(Clone, Copy, Debug, Drop, PartialEq, Eq)]
pub(crate) enum NoPage {
    /// Its path leads to no place of its own below the root (`scip_pages::is_path_below`).
    BadPath,
    /// A document before it has its path.
    Repeated,
    /// Its source can't be read.
    Unreadable,
    /// Its source isn't UTF-8.
    NotText,
    /// It doesn't say what its columns count.
    NoUnit,
    /// A range of it isn't one of its source.
    Misfit,
}

impl NoPage {
    /// Its name.
    fn name(&self) -> &'static str
        ensures { result.now ≡ name_of self.now }
    {
        match self {
            NoPage::BadPath => "BadPath",
            NoPage::Repeated => "Repeated",
            NoPage::Unreadable => "Unreadable",
            NoPage::NotText => "NotText",
            NoPage::NoUnit => "NoUnit",
            NoPage::Misfit => "Misfit",
        }
    }
}

/// Says that the document with a path has no page, and why.
pub(crate) fn tell<M: Sink>(
    alloc: Global,
    path: &str,
    why: NoPage,
    messages: &mut M,
) -> Result<(), ShowFault>
    ensures { SaysLine (line_with path.now (name_of why)) (writer M.Sink messages)
        result }
{
    let line = line_with(alloc, path, why.name())?;
    say(messages, line.as_str());
    Ok(())
}
