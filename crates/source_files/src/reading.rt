//! The sources with paths below a root are read, on workers.

ghost use Rattle.std.specs.Prelude.{◌≡◌, ◌++◌, [], ◌∷◌, ◌<◌, ◌≤◌, IfOk, MatchResult, OnOk, length, map, string_bytes};
ghost use Rattle.std.specs.Option.{option_map};
ghost use Rattle.index_pool.specs.declared.workers.TheConstants.{MAX_INPUTS};
ghost use Rattle.source_files.specs.Source.{MayKeep};
ghost use Rattle.source_files.specs.Roots.{path_below, unread_file};
ghost use Rattle.source_files.specs.Reading.{AddsRead, AreReadBut, GiveEach, GivesSource, MayStopAt};
ghost use Rattle.source_files.specs.Unread.{at_path};

use crate::load_fault::LoadFault;
use crate::phases::run_anyway;
use crate::read_files::ReadFiles;
use crate::readers::Readers;
use crate::root_files::RootFiles;
use crate::unread_entry::entry_at;
use index_pool::{Gate, Job, MAX_INPUTS, PoolFault, Ticket};
use source_tree::Source;
use std::alloc::{AllocError, Global};
use std::sync::Wait;
use std::thread::Threads;

/// A path below a root, for the system.
pub(crate) fn path_below(alloc: Global, root: &str, path: &str) -> Result<String, AllocError>
    ensures { IfOk result (λ below. string_bytes below ≡ path_below root.now path.now) }
{
    let mut below = String::from_str(alloc, root)?;
    below.push('/')?;
    below.push_str(path)?;
    Ok(below)
}

/// What reading a source gave.
#[derive(Drop)]
pub(crate) enum ReadSource {
    /// The source.
    Held(Source),
    /// It can't be read and is left out, so that it stands among the files by its path alone.
    LeftOut(String),
}

/// The bytes of a source below a root. None if it can't be read.
pub(crate) fn read_below<F: ReadFiles>(
    alloc: Global,
    files: &F,
    root: &str,
    path: &str,
) -> Result<Option<Vec<u8>>, AllocError>
    ensures { IfOk result (λ read. MayKeep (F.gives files.now (path_below root.now path.now))
        (option_map (λ bytes. bytes.items) read)) }
{
    let below = path_below(alloc, root, path)?;
    files.read_source(alloc, below.as_str())
}

/// The source with a path below a root. If it can't be read, it is left out, or this is a fault.
fn source_below<F: ReadFiles>(
    alloc: Global,
    files: &F,
    leaves_out: bool,
    root: &str,
    path: &str,
) -> Result<ReadSource, LoadFault>
    ensures { GivesSource (F.lists files.now) (F.gives files.now) leaves_out root.now path.now result }
{
    let path = String::from_str(alloc, path)?;
    match read_below(alloc, files, root, path.as_str())? {
        Some(bytes) => Ok(ReadSource::Held(Source {
            path,
            bytes,
            is_unread: false,
        })),
        None if leaves_out => Ok(ReadSource::LeftOut(path)),
        None => Err(LoadFault::Unreadable(path)),
    }
}

/// What reading the source with each of these paths below a root gives.
#[derive(Drop)]
struct ReadEach<'a, F: ReadFiles + Sync> {
    alloc: Global,
    files: &'a F,
    leaves_out: bool,
    root: &'a str,
    paths: &'a [String],
}

impl<'a, F: ReadFiles + Sync> Job for ReadEach<'a, F> {
    ghost use Rattle.std.specs.Prelude.{IfSome, length, slice_get, string_bytes};
    ghost use Rattle.source_files.specs.Reading.{GivesSource};

    type Out = ReadSource;

    type Fault = LoadFault;

    ghost inputs = { λ s. length s.paths.now };

    ghost gives = { λ s number result. IfSome (slice_get s.paths.now number)
        (λ path. GivesSource (F.lists s.files.now) (F.gives s.files.now) s.leaves_out s.root.now (string_bytes path)
        result) };

    fn run(&self, ticket: Ticket) -> Result<ReadSource, LoadFault> {
        let path = self.paths[ticket.number()].as_str();
        source_below(self.alloc, self.files, self.leaves_out, self.root, path)
    }
}

/// What reading the sources with these paths below a root gives.
fn read_part<R: Threads + Wait, G: Gate, F: ReadFiles + Sync>(
    readers: &Readers<'_, R, G, F>,
    root: &str,
    paths: &[String],
) -> Result<Vec<ReadSource>, LoadFault>
    requires { length paths.now ≤ MAX_INPUTS }
    ensures { MatchResult result
        (λ all. GiveEach (F.lists readers.now.files.now) (F.gives readers.now.files.now) readers.now.leaves_out root.now
        (map string_bytes paths.now) all.items)
        (MayStopAt (F.lists readers.now.files.now) (F.gives readers.now.files.now) readers.now.leaves_out root.now
        (map string_bytes paths.now)) }
{
    let job = ReadEach {
        alloc: readers.alloc,
        files: readers.files,
        leaves_out: readers.leaves_out,
        root,
        paths,
    };
    match run_anyway(
        readers.rt,
        readers.alloc,
        &job,
        paths.len(),
        readers.workers,
        readers.gate,
    ) {
        Ok(all) => Ok(all),
        Err(PoolFault::Spawn) => unreachable!(),
        Err(PoolFault::Memory) => Err(LoadFault::Memory),
        Err(PoolFault::Job(_, fault)) => Err(fault),
    }
}

/// The file with a path that can't be read.
pub(crate) fn unread_at(alloc: Global, path: &str) -> Result<Source, AllocError>
    ensures { IfOk result (λ source. source ≡ unread_file path.now) }
{
    let path = String::from_str(alloc, path)?;
    Ok(Source {
        path,
        bytes: Vec::new(alloc),
        is_unread: true,
    })
}

/// Adds a source that can't be read.
fn add_unread(alloc: Global, below: &mut RootFiles, path: &str) -> Result<(), AllocError>
    ensures files { OnOk result (below.new.files ≡ below.old.files ++ unread_file path.now ∷ []) }
    ensures unread { OnOk result (below.new.unread ≡ below.old.unread ++ at_path path.now ∷ []) }
{
    below.files.push(unread_at(alloc, path)?)?;
    below.unread.push(entry_at(alloc, path)?)?;
    Ok(())
}

/// Adds what reading a source gave.
fn add_one(below: &mut RootFiles, read: ReadSource) -> Result<(), AllocError>
    ensures { OnOk result (AddsRead (read ∷ []) below.old below.new) }
{
    match read {
        ReadSource::Held(source) => below.files.push(source)?,
        ReadSource::LeftOut(path) => add_unread(*path.allocator(), below, path.as_str())?,
    }
    Ok(())
}

/// Adds what reading sources gave.
fn add_each(below: &mut RootFiles, all: Vec<ReadSource>) -> Result<(), AllocError>
    ensures { OnOk result (AddsRead all.items below.old below.new) }
{
    for read in all {
        add_one(below, read)?;
    }
    Ok(())
}

/// The first of these paths, as many as a phase has inputs at most, and those behind them.
pub(crate) fn part_of(paths: &[String]) -> (&[String], &[String])
    ensures parts { result.0.now ++ result.1.now ≡ paths.now }
    ensures few { length result.0.now ≤ MAX_INPUTS }
    ensures fewer { 0 < length paths.now → length result.1.now < length paths.now }
{
    paths.split_at(paths.len().min(MAX_INPUTS))
}

/// The sources with these paths below a root, read in parts of so many as a phase has inputs, and which of them are
/// left out.
pub(crate) fn read_each<R: Threads + Wait, G: Gate, F: ReadFiles + Sync>(
    readers: &Readers<'_, R, G, F>,
    root: &str,
    paths: &[String],
) -> Result<RootFiles, LoadFault>
    ensures { MatchResult result
        (AreReadBut (F.lists readers.now.files.now) (F.gives readers.now.files.now) readers.now.leaves_out root.now
        (map string_bytes paths.now))
        (MayStopAt (F.lists readers.now.files.now) (F.gives readers.now.files.now) readers.now.leaves_out root.now
        (map string_bytes paths.now)) }
{
    let mut below = RootFiles {
        files: Vec::new(readers.alloc),
        unread: Vec::new(readers.alloc),
    };
    let mut rest = paths;
    while !rest.is_empty() {
        let (part, behind) = part_of(rest);
        let all = read_part(readers, root, part)?;
        add_each(&mut below, all)?;
        rest = behind;
    }
    Ok(below)
}
