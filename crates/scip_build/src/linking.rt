//! From files that were read to a linker.

ghost use Rattle.std.specs.Prelude.{◌≡◌, IfOk, IfErr, MatchResult};
ghost use Rattle.proto_visibility.specs.Files.{HaveOwnPaths};
ghost use Rattle.proto_visibility.specs.declared.clash.Duplicates.{Duplicates};
ghost use Rattle.proto_visibility.specs.Linked.{CanBeLinked, MayRefuse};
ghost use Rattle.scip_build.specs.Linking.{linked_file, linked_files, IsUnreadAt, HasFault, MayRefuseParsed, AreLinked};

use crate::fault::{BuildFault, FileFault};
use crate::parsed_file::ParsedFile;
use crate::run::Run;
use index_pool::Workers;
use proto_link::{CheckedFiles, Duplicates, LinkFault, LinkFile, Linker, ListedNames};
use std::alloc::{AllocError, Global};
use std::thread::{Threads, join};

/// A file as it is linked.
fn linked_file<'a, 'r>(parsed_file: &'a ParsedFile<'r>) -> LinkFile<'a, 'r>
    ensures { result ≡ linked_file parsed_file.now }
{
    let facts = match &parsed_file.contents {
        Ok(contents) => Some(&contents.facts),
        Err(_) => None,
    };
    LinkFile {
        path: parsed_file.path,
        facts,
        included: parsed_file.is_included,
        left_out: parsed_file.is_left_out,
        links_options: parsed_file.links_options,
    }
}

/// The files as they are linked, each under its number. An error means that memory was refused.
pub fn linked_files<'a, 'r>(
    alloc: Global,
    parsed: &'a [ParsedFile<'r>],
) -> Result<Vec<LinkFile<'a, 'r>>, AllocError>
    ensures { IfOk result (λ files. files.items ≡ linked_files parsed.now) }
{
    let mut files = Vec::with_capacity(alloc, parsed.len())?;
    for parsed_file in parsed {
        files.push(linked_file(parsed_file))?;
    }
    Ok(files)
}

/// Why a file has no contents.
pub(crate) fn fault_at(parsed: &[ParsedFile<'_>], number: usize) -> FileFault
    requires unread { IsUnreadAt parsed.now number }
    ensures { HasFault parsed.now number result }
{
    let parsed_file = &parsed[number];
    match &parsed_file.contents {
        Err(fault) => *fault,
        Ok(_) => unreachable!(),
    }
}

/// Why files that were read can't be linked, by the linker's fault.
#[tactic(auto, using(crate::proofs::LinkingRefusalRules::of_linking))]
fn refusal(parsed: &[ParsedFile<'_>], fault: LinkFault) -> BuildFault
    requires { (duplicates : Duplicates) × MayRefuse duplicates (linked_files parsed.now) fault }
    ensures { (duplicates : Duplicates) → MayRefuse duplicates (linked_files parsed.now) fault
        → MayRefuseParsed duplicates parsed.now result }
{
    match fault {
        LinkFault::Broken(number) => BuildFault::File(number, fault_at(parsed, number)),
        LinkFault::Duplicate(first, second) => BuildFault::Duplicate(first, second),
        LinkFault::MissingImport(place) => BuildFault::MissingImport(place),
        LinkFault::Memory => BuildFault::Memory,
        LinkFault::Unresolved(_) | LinkFault::Ambiguous(_) => unreachable!(),
    }
}

/// The linker of files, of which two parts are made at once. Another thread checks them, since listing names takes more
/// memory, which the calling thread gets in larger steps; if none can be started, the calling thread does both.
#[tactic(auto, using(crate::proofs::LinkingRefusalRules::of_linker))]
fn linker_in_parts<'a, 'r, R: Threads>(
    rt: &R,
    alloc: Global,
    files: &'a [LinkFile<'a, 'r>],
    duplicates: Duplicates,
) -> Result<Linker<'a, 'r>, LinkFault>
    requires { HaveOwnPaths files.now }
    ensures linked { IfOk result (λ linker. linker ≡ files.now) }
    ensures can_be { IfOk result (λ _. CanBeLinked duplicates files.now) }
    ensures refused { IfErr result (MayRefuse duplicates files.now) }
{
    let check = move || -> Result<CheckedFiles<'_, '_>, LinkFault>
        requires { HaveOwnPaths files.now }
        ensures checked { IfOk result (λ checked. checked ≡ files.entry.now) }
        ensures can_be { IfOk result (λ _. CanBeLinked duplicates files.entry.now) }
        ensures refused { IfErr result (MayRefuse duplicates files.entry.now) }
    { CheckedFiles::of(alloc, files, duplicates) };
    let list = move || -> Result<ListedNames<'_, '_>, AllocError>
        ensures { IfOk result (λ listed. listed ≡ files.entry.now) }
    { ListedNames::of(alloc, files) };
    let (checked, listed) = join(rt, check, list);
    let checked = checked?;
    let listed = listed?;
    Ok(Linker::joined(checked, listed))
}

/// The linker of files, on this many workers, of whom no more than two have work.
fn linker_of<'a, 'r, R: Threads>(
    rt: &R,
    alloc: Global,
    workers: Workers,
    files: &'a [LinkFile<'a, 'r>],
    duplicates: Duplicates,
) -> Result<Linker<'a, 'r>, LinkFault>
    requires { HaveOwnPaths files.now }
    ensures linked { IfOk result (λ linker. linker ≡ files.now) }
    ensures can_be { IfOk result (λ _. CanBeLinked duplicates files.now) }
    ensures refused { IfErr result (MayRefuse duplicates files.now) }
{
    if workers.count() > 1 {
        linker_in_parts(rt, alloc, files, duplicates)
    } else {
        Linker::new(alloc, files, duplicates)
    }
}

/// Links files that were read, given as they are linked. If there is more than one worker, two threads link.
///
/// `files` has to be what `linked_files` gives for `parsed`, and no two may have one path.
///
/// Of the refusals `File` comes first: the least included file that some source reaches and that
/// couldn't be read. Then `Duplicate`, then `MissingImport`. `Memory` comes at any growth. `Spawn` never comes: if no
/// thread can be started, the calling one does all.
pub fn link<'a, 'r, R: Threads, G>(
    run: &Run<'_, R, G>,
    parsed: &[ParsedFile<'_>],
    files: &'a [LinkFile<'a, 'r>],
    duplicates: Duplicates,
) -> Result<Linker<'a, 'r>, BuildFault>
    requires same { files.now ≡ linked_files parsed.now }
    requires own { HaveOwnPaths files.now }
    ensures { MatchResult result (AreLinked duplicates parsed.now) (MayRefuseParsed duplicates parsed.now) }
{
    match linker_of(run.rt, run.alloc, run.workers, files, duplicates) {
        Ok(linker) => Ok(linker),
        Err(fault) => Err(refusal(parsed, fault)),
    }
}
