//! How a program about a tree ends.

ghost use Rattle.std.specs.Prelude.{◌≡◌, ℕ, IfOk, map, string_bytes};
ghost use Rattle.std.specs.Option.{option_map};
ghost use Rattle.source_tree.specs.Trees.{IsSourceCount};
ghost use Rattle.streams.specs.Writers.{writer};
ghost use Rattle.protoscip.specs.Explanations.{IsFaultText};
ghost use Rattle.protoscip.specs.FaultLines.{HasFilesOf, HaveFilesOf};
ghost use Rattle.protoscip.specs.FaultTexts.{status_of};
ghost use Rattle.programs.specs.Messages.{SaysIfAny, TellsOfSuccess, TellsOne};
ghost use Rattle.programs.specs.TreeRuns.{IsWholeText, IsWholeTextIfAny, SaysOmissions};

use crate::messages::report;
use crate::missing::with_missing;
use crate::starting::TreeRun;
use proto_parse::Dialect;
use protoscip::{Fault, Telling, Tells, UnreadPath, fault_text, omits_nothing, told_text_with};
use scip_build::Omission;
use scip_site::say;
use source_tree::Tree;
use std::alloc::{AllocError, Global};
use streams::Sink;

/// How that is told which an index lacks.
#[derive(Clone, Copy)]
pub(crate) struct Closing {
    /// With what faults are explained, if that is asked for.
    pub(crate) explain: Option<Dialect>,
    /// Whether the tree is taken as it lies: what is missing of it is told at the end.
    pub(crate) is_real: bool,
}

/// The text of what couldn't be read, and of what an index of the tree lacks.
fn whole_text(
    alloc: Global,
    tree: &Tree,
    unread: &[UnreadPath],
    told: &[Omission],
    closing: Closing,
) -> Result<String, AllocError>
    requires { HaveFilesOf tree.now told.now }
    ensures { (sources : ℕ) × IsSourceCount tree.now sources
        × IfOk result (λ text. IsWholeText closing.explain closing.is_real tree.now sources
        unread.now told.now (string_bytes text)) }
{
    let telling = Telling {
        unread,
        explain: closing.explain,
    };
    match told_text_with(alloc, tree, told, &telling) {
        Ok(text) => with_missing(alloc, closing.is_real, tree, told, text),
        Err(refused) => Err(refused),
    }
}

/// How that is told which an index of a run lacks.
#[derive(Clone, Copy)]
pub(crate) struct WholeTelling<'a> {
    /// What isn't read below the folders of the run, and is left out.
    pub(crate) unread: &'a [UnreadPath],
    pub(crate) closing: Closing,
}

impl Tells for WholeTelling<'_> {
    // All that is lacking, and of a tree as it lies what is missing.
    ghost tells = { λ whole tree told text. IsWholeTextIfAny whole.closing.explain whole.closing.is_real tree
        whole.unread.now told text };

    /// The text of what couldn't be read, and of what an index of the tree lacks; nothing if nothing is lacking.
    fn text(
        &self,
        alloc: Global,
        tree: &Tree,
        told: &[Omission],
    ) -> Result<Option<String>, AllocError> {
        if omits_nothing(self.unread, told) {
            return Ok(None);
        }
        Ok(Some(whole_text(alloc, tree, self.unread, told, self.closing)?))
    }
}

/// Says what couldn't be read, and what an index of the tree lacks, if anything is lacking, and else the line that says
/// that there are no sources, if there is one; and gives the exit status.
pub(crate) fn tell<M: Sink>(
    alloc: Global,
    run: &TreeRun,
    told: &[Omission],
    closing: Closing,
    messages: &mut M,
) -> u8
    requires { HaveFilesOf run.now.tree told.now }
    ensures { SaysOmissions TellsOfSuccess (λ line. line ≡ option_map string_bytes run.now.none_found)
        closing.explain closing.is_real run.now.tree
        run.now.unread.items told.now
        (writer M.Sink messages) result }
{
    let unread = run.unread.as_slice();
    if omits_nothing(unread, told) {
        return say_line(&run.none_found, messages);
    }
    let text = whole_text(alloc, &run.tree, unread, told, closing);
    report(text, 0, messages)
}

/// Says a line of a success, if there is one, and gives the exit status.
pub(crate) fn say_line<M: Sink>(line: &Option<String>, messages: &mut M) -> u8
    ensures { SaysIfAny (option_map string_bytes line.now) (writer M.Sink messages)
        result }
{
    if let Some(line) = line {
        say(messages, line.as_str());
    }
    0
}

/// Says why a run over a tree stopped, explained if that is asked for, and gives the exit status.
pub(crate) fn stop<M: Sink>(
    alloc: Global,
    tree: &Tree,
    fault: &Fault,
    explain: Option<Dialect>,
    messages: &mut M,
) -> u8
    requires { HasFilesOf tree.now fault.now }
    ensures { TellsOne (IsFaultText explain tree.now fault.now) (status_of fault.now)
        (writer M.Sink messages) result }
{
    let text = fault_text(alloc, tree, fault, explain);
    report(text, fault.status(), messages)
}
