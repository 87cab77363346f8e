//! What is told of a tree, without its index.

ghost use Rattle.std.specs.Prelude.{◌≡◌, IfErr, IfOk};
ghost use Rattle.protoscip.specs.FaultLines.{HaveFilesOf};
ghost use Rattle.protoscip.specs.ToldTrees.{IsToldOf, MayNotTell, telling};

use crate::dumping::no_package;
use crate::fault::Fault;
use basics::{OwnedText, Sequence};
use index_hooks::Chooses;
use index_pool::Gate;
use proto_lex::Encoding;
use scip_build::{
    DocumentForm, Faulty, Omission, PlacedDocument, Run, Settings, build_in_form, one_told,
};
use source_tree::Tree;
use std::alloc::{AllocError, Global};
use std::sync::Wait;
use std::thread::Threads;

/// Nothing is kept of a document.
#[derive(Clone, Copy, Debug)]
struct AsNothing;

impl DocumentForm for AsNothing {
    ghost use Rattle.std.specs.Prelude.{⊤};

    type Kept = ();

    ghost is_kept = { λ _ _. ⊤ };

    fn keep(&self, _alloc: Global, _document: PlacedDocument<'_, '_>) -> Result<(), AllocError> {
        Ok(())
    }
}

/// The settings of a run, but faults are skipped, and what nothing that is told hangs on is set so that it costs nothing:
/// documents have no place and symbols no package, and columns are in UTF-8. Takes no memory.
fn telling(alloc: Global, settings: &Settings) -> Settings
    ensures { result ≡ telling settings.now }
{
    Settings {
        project_root: OwnedText::new(alloc),
        at: OwnedText::new(alloc),
        package: no_package(alloc),
        encoding: Encoding::Utf8,
        dialect: settings.dialect,
        comments: settings.comments,
        details: settings.details,
        options: settings.options,
        faulty: Faulty::Skip,
        duplicates: settings.duplicates,
    }
}

/// What is told of a tree by the settings of a run if faults are skipped: all for which it would be refused, in order
/// of file and place. Its index is built and let go of, so a run that was refused can say each of its faults.
///
/// `Spawn`, `Memory`: that can't be had. File numbers are those of the tree.
#[tactic(auto, using(crate::proofs::ToldTreeRules::of_tree))]
pub fn told_of_tree<R: Threads + Wait, C: Chooses + Sync, G: Gate>(
    run: &Run<'_, R, G>,
    tree: &Tree,
    chooser: &C,
    settings: &Settings,
) -> Result<Sequence<Omission>, Fault>
    ensures told { IfOk result (IsToldOf (C.allows chooser.now) settings.now tree.now) }
    ensures files { IfOk result (HaveFilesOf tree.now) }
    ensures stops { IfErr result (MayNotTell run.now.workers) }
{
    one_told(chooser, chooser);
    let settings = telling(run.alloc, settings);
    let built = build_in_form(run, tree, chooser, &settings, &AsNothing)?;
    Ok(built.told)
}
