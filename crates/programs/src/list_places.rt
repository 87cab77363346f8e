//! The index and the report don't replace the list of the sources.

ghost use Rattle.std.specs.Prelude.{◌≡◌, ℕ, Bool, List, Some, IfErr, IfOk, MatchOption, codes, string_bytes};
ghost use Rattle.streams.specs.Writers.{IsUntouched, writer};
ghost use Rattle.protoscip.specs.Statuses.{stream_status};
ghost use Rattle.programs.specs.ListPlaces.{
  IsFileThere,
  IsListThere,
  LeaveList,
  ReplacesList,
  ReportLeaves,
  ReportReplaces,
};
ghost use Rattle.programs.specs.Messages.{Tells};
ghost use Rattle.programs.specs.SourceLists.{line_told};

use crate::messages::report;
use crate::places::Places;
use crate::source_lists::{ListSaid, list_text};
use command_line::{IndexOptions, Request, STANDARD_INPUT, SourceList};
use protoscip::STREAM_STATUS;
use source_files::OutPlace;
use std::alloc::Global;
use streams::Sink;

/// Why the index can't go to the list.
const INDEX_THERE: &str =
    "it is the list of the sources, or a link to it; the index would replace it";

/// Why the report can't.
const REPORT_THERE: &str =
    "it is the list of the sources, or a link to it; the report would replace it";

/// What would replace the list.
#[derive(Clone, Copy)]
struct Replaced<'a> {
    /// The path that it would go to.
    path: &'a str,
    /// A sentence about it.
    sentence: &'static str,
    /// Whether that is asked for.
    explain: bool,
}

/// Whether the file of a list is the one at a place.
fn is_file_there<P: OutPlace>(list: &SourceList, at: &P) -> bool
    ensures { IsListThere (P.same at.now) (Some list.now) result }
{
    let file = list.file.as_str();
    if file == STANDARD_INPUT {
        return false;
    }
    at.is_file(file)
}

/// Whether the list that options ask for, if they do, is the file at a place.
fn is_list_there<P: OutPlace>(options: &IndexOptions, at: &P) -> bool
    ensures { IsListThere (P.same at.now) options.now.sources result }
{
    match &options.sources {
        Some(list) => is_file_there(list, at),
        None => false,
    }
}

/// Whether the report that options ask for, if they do, would replace the list.
fn replaced_by_report<'a, Q: OutPlace>(options: &'a IndexOptions, at: &Q) -> Option<Replaced<'a>>
    ensures { MatchOption result (ReportLeaves (Q.same at.now) options.now)
        (λ replaced. ReportReplaces (Q.same at.now) options.now replaced.path.now replaced.sentence.now
        × (replaced.explain ≡ options.now.explain)) }
{
    let Some(path) = &options.report.path else {
        return None;
    };
    if is_list_there(options, at) {
        return Some(Replaced {
            path: path.as_str(),
            sentence: REPORT_THERE,
            explain: options.explain,
        });
    }
    None
}

/// What of that which is asked for would replace the list, if something does: the index before the report.
#[tactic(auto, using(crate::proofs::StartingRules::of_list_place))]
fn replaced_in<'a, P: OutPlace, Q: OutPlace>(
    asked: &'a Request,
    places: &Places<P, Q>,
) -> Option<Replaced<'a>>
    ensures { MatchOption result (LeaveList (P.same places.now.file) (Q.same places.now.report) asked.now)
        (λ replaced. ReplacesList (P.same places.now.file) (Q.same places.now.report) asked.now replaced.path.now
        replaced.sentence.now replaced.explain) }
{
    match asked {
        Request::Index(given) => {
            if is_list_there(&given.options, &places.file) {
                return Some(Replaced {
                    path: given.out.as_str(),
                    sentence: INDEX_THERE,
                    explain: given.options.explain,
                });
            }
            replaced_by_report(&given.options, &places.report)
        }
        Request::Shell(given) => replaced_by_report(&given.options, &places.report),
        _ => None,
    }
}

/// Says what would replace the list, and gives the exit status.
fn say_replaced<M: Sink>(alloc: Global, replaced: Replaced<'_>, messages: &mut M) -> u8
    ensures { Tells (line_told replaced.entry.explain replaced.entry.path.now (codes "IsList")
        replaced.entry.sentence.now) stream_status (writer M.Sink messages) result }
{
    let said = ListSaid {
        name: "IsList",
        line: None,
        sentence: replaced.sentence,
        status: STREAM_STATUS,
    };
    let text = list_text(alloc, replaced.path, said, replaced.explain);
    report(text, STREAM_STATUS, messages)
}

/// Sees that neither the index nor the report would replace the list of the sources, if one is asked for: that it isn't
/// the file at their places. Else it says which would, and gives the exit status.
pub fn see_list<P: OutPlace, Q: OutPlace, M: Sink>(
    alloc: Global,
    asked: &Request,
    places: &Places<P, Q>,
    messages: &mut M,
) -> Result<(), u8>
    ensures left { IfOk result (λ _. LeaveList (P.same places.now.file) (Q.same places.now.report) asked.now
        × IsUntouched (writer M.Sink messages)) }
    ensures replaced { IfErr result (λ status. (path : List ℕ) × (sentence : List ℕ) × (explain : Bool)
        × ReplacesList (P.same places.now.file) (Q.same places.now.report) asked.now path sentence explain
        × Tells (line_told explain path (codes "IsList") sentence) stream_status (writer M.Sink messages) status) }
{
    match replaced_in(asked, places) {
        Some(replaced) => Err(say_replaced(alloc, replaced, messages)),
        None => Ok(()),
    }
}
