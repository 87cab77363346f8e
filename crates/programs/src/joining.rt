//! The program `join`: one index of several.

ghost use Rattle.std.specs.Prelude.{◌≡◌, [], string_bytes, IfErr, IfOk, OnOk};
ghost use Rattle.std.specs.Option.{option_map};
ghost use Rattle.streams.specs.Writers.{writer};
ghost use Rattle.scip_records.specs.declared.records.Index.{Index};
ghost use Rattle.scip_wire.specs.Spelling.{spelling_of};
ghost use Rattle.scip_join.specs.Pieces.{ArePiecesOf};
ghost use Rattle.programs.specs.Joining.{MayNotPut, PutsJoin, PutsNone, RunsJoin, choices_in, paths_in};
ghost use Rattle.programs.specs.Placing.{IsPut, place};

use crate::host::Host;
use crate::index_files::join_files;
use crate::join_stop::{JoinStop, report_join};
use command_line::JoinOptions;
use protoscip::OwnedText;
use scip_join::{JoinChoices, JoinedIndex};
use source_files::{LookAgain, OutPlace, ReadFiles};
use std::alloc::{AllocError, Global};
use std::mem::forget;
use streams::{Failed, Sink};

/// The project root that is asked for, if one is.
fn root_of(alloc: Global, options: &JoinOptions) -> Result<Option<OwnedText>, AllocError>
    ensures { IfOk result (λ root. root ≡ option_map string_bytes options.now.project_root) }
{
    match &options.project_root {
        Some(root) => {
            let root = OwnedText::copy_of(alloc, root.as_str())?;
            Ok(Some(root))
        }
        None => Ok(None),
    }
}

/// What is asked of the join.
fn choices_of(alloc: Global, options: &JoinOptions) -> Result<JoinChoices, AllocError>
    ensures { IfOk result (λ choices. choices ≡ choices_in options.now) }
{
    let project_root = root_of(alloc, options)?;
    Ok(JoinChoices {
        project_root,
        replace: options.replace,
    })
}

/// Writes an index to a part of its place, and puts it there.
fn put<P: OutPlace>(alloc: Global, joined: &JoinedIndex, at: &mut P) -> Result<(), JoinStop>
    ensures put { (index : Index) → ArePiecesOf joined.now index
        → OnOk result (IsPut (place P.OutPlace P.Part.Sink at.old at.new) (spelling_of index)) }
    ensures left { IfErr result (λ _. at.new ≡ at.old) }
    ensures stops { (index : Index) → ArePiecesOf joined.now index
        → IfErr result (MayNotPut (place P.OutPlace P.Part.Sink at.old at.new) index) }
{
    let mut part = at.begin(alloc)?;
    if let Err(fault) = joined.write(&mut part) {
        at.leave(part);
        return Err(JoinStop::from(fault));
    }
    match at.put(part) {
        Ok(()) => Ok(()),
        Err(Failed) => Err(JoinStop::Write),
    }
}

/// Joins the indexes of files, and puts the join at its place. The memory of the join isn't given back.
#[tactic(auto, using(crate::proofs::JoiningRules::of_put))]
fn join_into<R, F: ReadFiles, P: OutPlace>(
    host: &Host<'_, R, F>,
    options: &JoinOptions,
    at: &mut P,
) -> Result<(), JoinStop>
    ensures put { OnOk result (PutsJoin (F.gives host.now.files.now) (choices_in options.now) (paths_in options.now)
        (place P.OutPlace P.Part.Sink at.old at.new)) }
    ensures left { IfErr result (λ _. at.new ≡ at.old) }
    ensures stops { IfErr result (PutsNone (F.gives host.now.files.now) (choices_in options.now) (paths_in options.now)
        (place P.OutPlace P.Part.Sink at.old at.new)) }
{
    let choices = choices_of(host.alloc, options)?;
    let joined = join_files(host.alloc, host.files, choices, options.indexes.as_slice())?;
    let done = put(host.alloc, &joined, at);
    // What was read goes with the process.
    forget(joined);
    done
}

/// Reads the indexes that files hold, one after the other, writes their join to a part of its place, puts it there, and
/// gives the exit status. If it stops early, it reports why, and the place is as it was.
pub(crate) fn join<R, F: ReadFiles + LookAgain, P: OutPlace, M: Sink>(
    host: &Host<'_, R, F>,
    options: &JoinOptions,
    at: &mut P,
    messages: &mut M,
) -> u8
    ensures { RunsJoin (F.gives host.now.files.now) (F.blames host.now.files.now [] []) options.now
        (place P.OutPlace P.Part.Sink at.old at.new) (writer M.Sink messages) result }
{
    match join_into(host, options, at) {
        Ok(()) => 0,
        Err(stop) => {
            let paths = options.indexes.as_slice();
            report_join(host, &stop, paths, options.explain, messages)
        }
    }
}
