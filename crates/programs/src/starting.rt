//! How a program about a tree starts.

ghost use Rattle.std.specs.Prelude.{◌≡◌, IfOk, IfErr, map};
ghost use Rattle.programs.specs.NoSources.{NoneFoundBy, is_told};
ghost use Rattle.std.specs.Option.{option_map};
ghost use Rattle.std.specs.String.{string_bytes};
ghost use Rattle.programs.specs.Folders.{AreFolders, NamePackages};
ghost use Rattle.programs.specs.Settings.{settings_in};
ghost use Rattle.programs.specs.Starting.{MayNotStart};

use crate::asking_ahead::AskingAhead;
use crate::choices::OptionChoices;
use crate::folders::{Folders, load_folders};
use crate::host::Host;
use crate::no_sources::{none_found, none_listed};
use crate::settings::{leaves_out, only_of, settings_of};
use crate::start_fault::StartFault;
use command_line::IndexOptions;
use index_pool::Workers;
use protoscip::UnreadPath;
use scip_build::{Run, Settings};
use source_files::{LookAgain, ReadFiles, Readers};
use source_tree::Tree;
use std::alloc::{AllocError, Global};
use std::sync::Wait;
use std::thread::Threads;

/// What a run over a tree is given.
#[derive(Drop)]
pub(crate) struct TreeRun {
    /// The sources below the root, and the files below the included roots.
    pub(crate) tree: Tree,
    /// The paths of what couldn't be read below these, and was left out.
    pub(crate) unread: Vec<UnreadPath>,
    /// The line that says that there are no sources, if it is to be said.
    pub(crate) none_found: Option<String>,
    /// What is chosen for each declaration.
    pub(crate) choices: OptionChoices,
    /// Who works.
    pub(crate) workers: Workers,
    /// What the index says about the package and columns.
    pub(crate) settings: Settings,
}

impl TreeRun {
    /// The run over the tree, on these threads, with this memory and this gate, by as many workers as the options say.
    pub(crate) fn over<'r, R, G>(&self, rt: &'r R, alloc: Global, gate: &'r G) -> Run<'r, R, G>
        ensures { result.workers ≡ self.now.workers }
    {
        Run {
            rt,
            alloc,
            workers: self.workers,
            gate,
        }
    }
}

/// Whether somebody is told that there are no sources: standard error is a terminal, faults are explained, or a report
/// is made.
fn is_told<R, F>(host: &Host<'_, R, F>, options: &IndexOptions) -> bool
    ensures { result ≡ is_told host.now.is_watched options.now }
{
    host.is_watched || options.explain || options.report.path.is_some()
}

/// The line that says that there are no sources, if there are none and somebody is told.
fn none_found_by<R, F: LookAgain>(
    host: &Host<'_, R, F>,
    options: &IndexOptions,
    tree: &Tree,
) -> Result<Option<String>, AllocError>
    ensures { IfOk result (λ line. NoneFoundBy (F.passes host.now.files.now) host.now.is_watched options.now
        tree.now (option_map string_bytes line)) }
{
    let is_told = is_told(host, options);
    match &options.sources {
        Some(list) => none_listed(host.alloc, list.file.as_str(), tree, is_told),
        None => none_found(host.alloc, host.files, options.root.as_str(), tree, is_told),
    }
}

/// The tree of the sources below the root of the options and of the files below their included roots, and what the
/// options say about the run over it. It has a line that says that there are no sources, if there are none and somebody
/// is told.
#[tactic(auto, using(crate::proofs::StartingRules::of_start))]
pub(crate) fn start<R: Threads + Wait, F: ReadFiles + LookAgain + Sync>(
    host: &Host<'_, R, F>,
    options: &IndexOptions,
) -> Result<TreeRun, StartFault>
    ensures named { IfOk result (λ _. NamePackages options.now) }
    ensures folders { IfOk result (λ start. AreFolders (F.lists host.now.files.now) (F.gives host.now.files.now)
        (F.finds host.now.files.now)
        options.now start.tree start.unread.items start.settings.package) }
    ensures none_found { IfOk result (λ start. NoneFoundBy (F.passes host.now.files.now) host.now.is_watched options.now
        start.tree (option_map string_bytes start.none_found)) }
    ensures only { IfOk result (λ start. option_map (λ f. string_bytes f.promise.0) start.choices.filter ≡ option_map
        string_bytes options.now.only) }
    ensures doc { IfOk result (λ start. option_map (λ r. r.promise.0) start.choices.rule ≡ options.now.doc) }
    ensures workers { IfOk result (λ start. start.workers ≡ options.now.workers) }
    ensures settings { IfOk result (λ start. start.settings ≡ settings_in options.now start.settings.package) }
    ensures stops { IfErr result (MayNotStart (F.lists host.now.files.now) (F.gives host.now.files.now)
        (F.finds host.now.files.now) options.now) }
{
    let workers = options.workers;
    let readers = Readers {
        rt: host.rt,
        alloc: host.alloc,
        workers,
        gate: &AskingAhead::new(host.alloc),
        files: host.files,
        leaves_out: leaves_out(options),
    };
    let Folders {
        tree,
        unread,
        packages,
    } = load_folders(&readers, options)?;
    let none_found = none_found_by(host, options, &tree)?;
    let settings = settings_of(host.alloc, options, packages)?;
    let choices = OptionChoices::new(host.alloc, only_of(options), options.doc)?;
    Ok(TreeRun {
        tree,
        unread,
        none_found,
        choices,
        workers,
        settings,
    })
}
