//! From a tree to answers to commands about its index.

ghost use Rattle.std.specs.Prelude.{Ok, IfErr, IfOk};
ghost use Rattle.streams.specs.Readers.{reader};
ghost use Rattle.streams.specs.Writers.{writer};
ghost use Rattle.protoscip.specs.FaultLines.{HasFilesOf, HaveFilesOf};
ghost use Rattle.protoscip.specs.Conversing.{Converses};
ghost use Rattle.protoscip.specs.Headline.{IsNavigable};
ghost use Rattle.protoscip.specs.Sessions.{AreAnswered, Serves};
ghost use Rattle.scip_query.specs.declared.manner.Manner.TheVariants.{Plain};

use crate::answering::answer_commands_in;
use crate::fault::Fault;
use crate::laws::headline_of_tree;
use crate::reading_back::read_back;
use crate::recorded::Recorded;
use index_hooks::Chooses;
use index_pool::Gate;
use scip_build::{Built, Run, Settings, build};
use scip_query::Manner;
use scip_records::Index;
use source_tree::Tree;
use std::alloc::Global;
use std::sync::Wait;
use std::thread::Threads;
use streams::{Feed, Sink};

/// Answers commands about the index that an index's bytes decode to: itself.
#[tactic(auto, using(crate::proofs::ConversingRules::of_unread))]
fn converse<F: Feed, W: Sink>(
    alloc: Global,
    manner: Manner,
    index: Index,
    commands: &mut F,
    answers: &mut W,
) -> Result<(), Fault>
    ensures { Converses manner (reader F.Feed commands) (writer W.Sink answers) index result }
{
    let read = read_back(index)?;
    answer_commands_in(alloc, manner, read, commands, answers)?;
    Ok(())
}

/// What a session is about: what is chosen for each declaration, how the tree is indexed, and how commands are taken.
#[derive(Drop)]
pub struct Talk<'a, C> {
    /// What is chosen for each declaration.
    pub chooser: &'a C,
    /// How the tree is indexed.
    pub settings: &'a Settings,
    /// How commands are taken and answered.
    pub manner: Manner,
}

/// Builds the index of a tree, as `index_tree` does, and answers commands about it, one a line, as
/// `Queries::answer_all` does, from the index that its bytes decode to. What was chosen for each declaration comes
/// back, and what was left out, once all commands are answered.
///
/// After `Read` the lines that had ended are answered, after `Answer(count)` the first `count` bytes of what was due
/// are written, and after `Memory` the commands before are answered. After every other fault nothing was read or
/// written.
pub fn session<R: Threads + Wait, C: Chooses + Sync, G: Gate, F: Feed, W: Sink>(
    run: &Run<'_, R, G>,
    tree: &Tree,
    chooser: &C,
    settings: &Settings,
    commands: &mut F,
    answers: &mut W,
) -> Result<Recorded, Fault>
    ensures served { Serves Plain (reader F.Feed commands) (writer W.Sink answers) (C.allows chooser.now)
        settings.now tree.now run.now.workers result }
    ensures navigable { IfOk result (λ recorded. IsNavigable
        (λ _ index. AreAnswered Plain (reader F.Feed commands) (writer W.Sink answers) index (Ok tt))
        (C.allows chooser.now) settings.now tree.now recorded) }
    ensures files { IfErr result (HasFilesOf tree.now) }
    ensures told { IfOk result (λ recorded. HaveFilesOf tree.now recorded.told) }
{
    let talk = Talk {
        chooser,
        settings,
        manner: Manner::Plain,
    };
    session_in(run, tree, &talk, commands, answers)
}

/// The same in a manner, as `Queries::answer_all_in` does.
pub fn session_in<R: Threads + Wait, C: Chooses + Sync, G: Gate, F: Feed, W: Sink>(
    run: &Run<'_, R, G>,
    tree: &Tree,
    talk: &Talk<'_, C>,
    commands: &mut F,
    answers: &mut W,
) -> Result<Recorded, Fault>
    ensures served { Serves talk.now.manner (reader F.Feed commands) (writer W.Sink answers)
        (C.allows talk.now.chooser.now) talk.now.settings.now tree.now run.now.workers result }
    ensures navigable { IfOk result (λ recorded. IsNavigable
        (λ _ index. AreAnswered talk.now.manner (reader F.Feed commands) (writer W.Sink answers) index (Ok tt))
        (C.allows talk.now.chooser.now) talk.now.settings.now tree.now recorded) }
    ensures files { IfErr result (HasFilesOf tree.now) }
    ensures told { IfOk result (λ recorded. HaveFilesOf tree.now recorded.told) }
{
    let (chooser, settings) = (talk.chooser, talk.settings);
    headline_of_tree(chooser, tree, settings);
    let Built {
        index,
        choices,
        told,
    } = build(run, tree, chooser, settings)?;
    converse(run.alloc, talk.manner, index, commands, answers)?;
    Ok(Recorded { choices, told })
}
