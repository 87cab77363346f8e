//! The first phase: the files of a tree are read, on workers.

ghost use Rattle.std.specs.Prelude.{◌≡◌, MatchResult};
ghost use Rattle.scip_build.specs.FileFaults.{fault_of_file};
ghost use Rattle.scip_build.specs.ParsedFiles.{AreParsedFiles, MayRefuseFiles};

use crate::fault::BuildFault;
use crate::faulty::Faulty;
use crate::file_parsing::{NoContents, Reader, read_file};
use crate::parsed_file::ParsedFile;
use crate::read_form::ReadForm;
use crate::run::Run;
use index_hooks::Chooses;
use index_pool::{Gate, Job, PoolFault, Ticket, run_phase};
use proto_parse::Dialect;
use source_tree::Tree;
use std::sync::Wait;
use std::thread::Threads;

/// The parsed file of each file.
#[derive(Drop)]
struct PhaseOne<'a, 'c, C: Chooses + Sync> {
    reader: Reader<'c, C>,
    tree: &'a Tree,
}

impl<'a, 'c, C: Chooses + Sync> Job for PhaseOne<'a, 'c, C> {
    ghost use Rattle.std.specs.Prelude.{length};
    ghost use Rattle.scip_build.specs.ParsedFiles.{GivesParsedFile};

    type Out = ParsedFile<'a>;

    type Fault = NoContents;

    ghost inputs = { λ s. length s.tree.now };

    ghost gives = { λ s number result. GivesParsedFile s.reader.faulty s.reader.dialect s.reader.form
        (C.allows s.reader.chooser.now) s.tree.now number result };

    fn run(&self, ticket: Ticket) -> Result<ParsedFile<'a>, NoContents> {
        read_file(&self.reader, ticket.number(), self.tree)
    }
}

/// Why the files aren't read, by why the one with this number has no contents.
fn refusal(number: usize, fault: NoContents) -> BuildFault
    ensures { result ≡ fault_of_file number fault }
{
    match fault {
        NoContents::Memory => BuildFault::Memory,
        NoContents::Unreadable(fault) => BuildFault::File(number, fault),
    }
}

/// Reads the files of a tree, all in one dialect and in one form of facts, and chooses for each
/// declaration, on this many workers, with the gate's calls round each file.
///
/// A source that isn't text, or has no lexing or no tree, is refused, unless faulty files are skipped: `File` names
/// the first of them, and memory sufficed for every file before it. An included file like that isn't refused, and no
/// file is if faulty ones are skipped: its parsed file has the fault. The chooser is asked once about each declaration
/// of a file that can be read, included or not.
///
/// `Spawn` comes before `Memory`, and `Memory` before `File`. `Memory` is for what all files share, or
/// for the least file that stops the run, be it an included one. `Duplicate`, `MissingImport`,
/// `Unresolved` and the `File` of an included file never come: linking answers those.
#[tactic(auto, using(crate::proofs::LinkingRefusalRules::of_files))]
pub fn parse_files<'a, R: Threads + Wait, C: Chooses + Sync, G: Gate>(
    run: &Run<'_, R, G>,
    tree: &'a Tree,
    chooser: &C,
    dialect: Dialect,
    form: ReadForm,
    faulty: Faulty,
) -> Result<Vec<ParsedFile<'a>>, BuildFault>
    ensures { MatchResult result
        (λ parsed. AreParsedFiles faulty dialect form (C.allows chooser.now) tree.now parsed.items)
        (MayRefuseFiles faulty dialect tree.now run.now.workers) }
{
    let reader = Reader {
        alloc: run.alloc,
        chooser,
        dialect,
        form,
        faulty,
    };
    let job = PhaseOne { reader, tree };
    match run_phase(
        run.rt,
        run.alloc,
        &job,
        tree.file_count(),
        run.workers,
        run.gate,
    ) {
        Ok(parsed) => Ok(parsed),
        Err(PoolFault::Spawn) => Err(BuildFault::Spawn),
        Err(PoolFault::Memory) => Err(BuildFault::Memory),
        Err(PoolFault::Job(number, fault)) => Err(refusal(number, fault)),
    }
}
