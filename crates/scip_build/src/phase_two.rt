//! The second phase: the documents of the sources are made, on workers, and what is wanted of each is kept.

ghost use Rattle.std.specs.Prelude.{◌≡◌, ◌≤◌, MatchResult};
ghost use Rattle.index_pool.specs.declared.workers.TheConstants.{MAX_INPUTS};
ghost use Rattle.scip_build.specs.Documents.{fault_of_source};
ghost use Rattle.scip_build.specs.Works.{HasOptions, IsReady, MayRefuseAny, AreMadeFrom};

use crate::document_form::DocumentForm;
use crate::fault::BuildFault;
use crate::linked_sources::LinkedSources;
use crate::made::MadeDocument;
use crate::placed_document::PlacedDocument;
use crate::run::Run;
use crate::source_document::{NoDocument, make_document};
use index_pool::{Gate, Job, PoolFault, Ticket, run_phase};
use proto_link::FilePlace;
use scip_model::{PlannedWithOptions, one_document_a_source};
use std::marker::Model;
use std::sync::Wait;
use std::thread::Threads;

/// The document of each source, in a form.
#[derive(Drop)]
struct PhaseTwo<'a, 'b, 'l, 'f, 'r, F: DocumentForm + Sync> {
    sources: &'a LinkedSources<'b, 'l, 'f, 'r>,
    form: &'a F,
}

impl<'a, 'b, 'l, 'f, 'r, F: DocumentForm + Sync> Model for PhaseTwo<'a, 'b, 'l, 'f, 'r, F> {
    ghost use Rattle.scip_build.specs.Documents.{SourceWork};
    ghost use Rattle.scip_build.specs.Works.{HasOptions, IsReady, work_of};

    ghost Value = { SourceWork };

    ghost view = { λ job. work_of job.sources.now };

    ghost invariant = { λ job. IsReady job.sources.now × HasOptions job.sources.now };
}

impl<'a, 'b, 'l, 'f, 'r, F: DocumentForm + Sync> Job for PhaseTwo<'a, 'b, 'l, 'f, 'r, F> {
    ghost use Rattle.scip_build.specs.Forms.{GivesKept};
    ghost use Rattle.scip_build.specs.Placing.{kept_at};

    type Out = MadeDocument<F::Kept>;

    type Fault = NoDocument;

    ghost inputs = { λ work. work.count };

    ghost gives = { λ work number result.
        GivesKept (kept_at work.settings.at F.is_kept) work.parsed work.files work.chosen work.settings number
        result };

    fn run(&self, ticket: Ticket) -> Result<MadeDocument<F::Kept>, NoDocument> {
        let made = make_document(self.sources, ticket.number())?;
        let PlannedWithOptions {
            planned,
            option_gaps,
            uncertain_names,
        } = made;
        let (plan, unresolved) = planned.into_parts();
        let alloc = self.sources.alloc;
        let placed = PlacedDocument::below(alloc, self.sources.settings.at.as_str(), plan)?;
        let kept = self.form.keep(alloc, placed)?;
        Ok(MadeDocument {
            kept,
            unresolved,
            option_gaps,
            uncertain_names,
        })
    }
}

/// Why the documents aren't made, by why the source with this number has none.
fn refusal(number: usize, fault: NoDocument) -> BuildFault
    ensures { result ≡ fault_of_source number fault }
{
    match fault {
        NoDocument::Memory => BuildFault::Memory,
        NoDocument::Unresolved(span) => BuildFault::Unresolved(FilePlace { file: number, span }),
    }
}

/// Makes the documents of the sources, by path, on workers, with the gate's calls round each, and keeps of
/// each what the form says, its uses that name no type, and the gaps and uncertain names of its options.
///
/// Of the refusals, `Spawn` comes before `Memory`, and `Memory` before `Unresolved`, which is of the first source,
/// and comes only if such uses are refused; but if the least source that has no document lacks memory, it is
/// `Memory`.
#[tactic(auto, using(crate::proofs::LinkingRefusalRules::of_documents))]
pub(crate) fn make_documents<R: Threads + Wait, G: Gate, F: DocumentForm + Sync>(
    run: &Run<'_, R, G>,
    sources: &LinkedSources<'_, '_, '_, '_>,
    form: &F,
) -> Result<Vec<MadeDocument<F::Kept>>, BuildFault>
    requires few { sources.now.count ≤ MAX_INPUTS }
    requires ready { IsReady sources.now }
    requires options { HasOptions sources.now }
    ensures { MatchResult result
        (λ made. AreMadeFrom sources.now F.is_kept made.items)
        (MayRefuseAny sources.now run.now.workers) }
{
    one_document_a_source();
    let job = PhaseTwo { sources, form };
    match run_phase(
        run.rt,
        run.alloc,
        &job,
        sources.count,
        run.workers,
        run.gate,
    ) {
        Ok(made) => Ok(made),
        Err(PoolFault::Spawn) => Err(BuildFault::Spawn),
        Err(PoolFault::Memory) => Err(BuildFault::Memory),
        Err(PoolFault::Job(number, fault)) => Err(refusal(number, fault)),
    }
}
