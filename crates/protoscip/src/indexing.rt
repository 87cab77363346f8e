//! From a tree to the bytes of its index.

ghost use Rattle.std.specs.Prelude.{Ok, Err, IfErr, IfOk, MatchResult, string_bytes};
ghost use Rattle.std.specs.Option.{option_map};
ghost use Rattle.streams.specs.Writers.{IsWritten, writer};
ghost use Rattle.scip_records.specs.declared.records.Index.{Index};
ghost use Rattle.scip_build.specs.Forms.{ArePartsOf};
ghost use Rattle.protoscip.specs.Explanations.{explain_in};
ghost use Rattle.protoscip.specs.FaultLines.{HasFilesOf, HaveFilesOf};
ghost use Rattle.protoscip.specs.Headline.{IsNavigable};
ghost use Rattle.protoscip.specs.Indexes.{Indexes, recorded_of};
ghost use Rattle.protoscip.specs.ToldLines.{IsTextOfOmissions};
ghost use Rattle.protoscip.specs.Writing.{IsRecordOf, WritesIndex};

use crate::as_bytes::AsBytes;
use crate::explaining::explain_in;
use crate::fault::Fault;
use crate::laws::headline_of_tree;
use crate::recorded::Recorded;
use crate::telling::{Telling, Tells};
use index_hooks::Chooses;
use index_pool::Gate;
use scip_build::{BuiltParts, Parts, Run, Settings, build_in_form};
use scip_wire::{
    DocumentRecord, bytes_decode_to_one_index, spelling_decodes_to_its_index,
    spelling_is_of_pieces, write_pieces,
};
use source_tree::Tree;
use std::sync::Wait;
use std::thread::Threads;
use streams::Sink;

/// Writes the bytes of an index, of whose documents the records are given.
///
/// `TooLarge`: it has more than `MAX_INDEX_LEN`. `Write(count)`: a write failed after `count` of them.
fn write_spelled<W: Sink>(parts: &Parts<DocumentRecord>, out: &mut W) -> Result<(), Fault>
    ensures { (index : Index) → ArePartsOf IsRecordOf index parts.now → WritesIndex index (writer W.Sink out)
        result }
{
    spelling_is_of_pieces();
    spelling_decodes_to_its_index();
    bytes_decode_to_one_index();
    write_pieces(
        &parts.metadata,
        parts.documents.as_slice(),
        &parts.external_symbols,
        out,
    )?;
    Ok(())
}

/// An index whose bytes are written, with all that was made on the way: a program that ends then needn't let
/// go of it.
#[derive(Drop)]
pub struct KeptIndex<'a> {
    /// Its parts, and what was recorded beside it.
    pub built: BuiltParts<'a, DocumentRecord>,
    /// The report of what it lacks, as `told_text` gives it; nothing if it lacks nothing.
    pub text: Option<String>,
}

/// Builds the index of a tree and writes its bytes, as `index_tree` does, and hands out all that it made. The report
/// of what the index lacks, told so, is made before the first write. From then on only a write can fail.
pub fn index_and_tell<'a, R: Threads + Wait, C: Chooses + Sync, G: Gate, T: Tells, W: Sink>(
    run: &Run<'_, R, G>,
    tree: &'a Tree,
    chooser: &C,
    settings: &Settings,
    telling: &T,
    out: &mut W,
) -> Result<KeptIndex<'a>, Fault>
    ensures indexed { MatchResult result
        (λ kept. Indexes (C.allows chooser.now) settings.now tree.now run.now.workers (writer W.Sink out)
        (Ok (recorded_of kept.built.choices kept.built.told)))
        (λ fault. Indexes (C.allows chooser.now) settings.now tree.now run.now.workers (writer W.Sink out)
        (Err fault)) }
    ensures navigable { IfOk result (λ kept. IsNavigable
        (λ bytes _. IsWritten (writer W.Sink out) bytes) (C.allows chooser.now) settings.now tree.now
        (recorded_of kept.built.choices kept.built.told)) }
    ensures files { IfErr result (HasFilesOf tree.now) }
    ensures told { IfOk result (λ kept. HaveFilesOf tree.now kept.built.told) }
    ensures said { IfOk result (λ kept. T.tells telling.now tree.now kept.built.told
        (option_map string_bytes kept.text)) }
{
    headline_of_tree(chooser, tree, settings);
    let built = build_in_form(run, tree, chooser, settings, &AsBytes)?;
    let text = telling.text(run.alloc, tree, built.told.as_slice())?;
    write_spelled(&built.parts, out)?;
    Ok(KeptIndex { built, text })
}

/// The same where all could be read below the folders. What the index lacks is explained if that is asked for, with the
/// dialect of the settings.
pub fn index_and_keep<'a, R: Threads + Wait, C: Chooses + Sync, G: Gate, W: Sink>(
    run: &Run<'_, R, G>,
    tree: &'a Tree,
    chooser: &C,
    settings: &Settings,
    explain: bool,
    out: &mut W,
) -> Result<KeptIndex<'a>, Fault>
    ensures indexed { MatchResult result
        (λ kept. Indexes (C.allows chooser.now) settings.now tree.now run.now.workers (writer W.Sink out)
        (Ok (recorded_of kept.built.choices kept.built.told)))
        (λ fault. Indexes (C.allows chooser.now) settings.now tree.now run.now.workers (writer W.Sink out)
        (Err fault)) }
    ensures navigable { IfOk result (λ kept. IsNavigable
        (λ bytes _. IsWritten (writer W.Sink out) bytes) (C.allows chooser.now) settings.now tree.now
        (recorded_of kept.built.choices kept.built.told)) }
    ensures files { IfErr result (HasFilesOf tree.now) }
    ensures told { IfOk result (λ kept. HaveFilesOf tree.now kept.built.told) }
    ensures said { IfOk result (λ kept. IsTextOfOmissions (explain_in explain settings.now.dialect) tree.now
        kept.built.told (option_map string_bytes kept.text)) }
{
    let telling = Telling {
        unread: &[],
        explain: explain_in(explain, settings.dialect),
    };
    index_and_tell(run, tree, chooser, settings, &telling, out)
}

/// Builds the index of a tree on workers, calls the gate before and after each file, and writes the index's bytes.
/// What was chosen for each declaration comes back, and what was left out. Each query for definitions or references
/// over the index that the bytes decode to is exact, as `headline` says.
///
/// `Fault` says why there is no index, and in which order. After every fault but `Write`, nothing was written.
pub fn index_tree<R: Threads + Wait, C: Chooses + Sync, G: Gate, W: Sink>(
    run: &Run<'_, R, G>,
    tree: &Tree,
    chooser: &C,
    settings: &Settings,
    out: &mut W,
) -> Result<Recorded, Fault>
    ensures indexed { Indexes (C.allows chooser.now) settings.now tree.now run.now.workers (writer W.Sink out)
        result }
    ensures navigable { IfOk result (λ recorded. IsNavigable
        (λ bytes _. IsWritten (writer W.Sink out) bytes) (C.allows chooser.now) settings.now tree.now
        recorded) }
    ensures files { IfErr result (HasFilesOf tree.now) }
    ensures told { IfOk result (λ recorded. HaveFilesOf tree.now recorded.told) }
{
    let kept = index_and_keep(run, tree, chooser, settings, false, out)?;
    let built = kept.built;
    Ok(Recorded {
        choices: built.choices,
        told: built.told,
    })
}
