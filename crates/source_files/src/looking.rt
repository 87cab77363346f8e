//! Files are looked for by their paths below roots, read, and asked what they import, on workers.

ghost use Rattle.std.specs.Prelude.{◌≤◌, IfOk, MatchResult, length, map, string_bytes};
ghost use Rattle.index_pool.specs.declared.workers.TheConstants.{MAX_INPUTS};
ghost use Rattle.source_files.specs.Reached.{IsFirstBelow};
ghost use Rattle.source_files.specs.Looks.{AreLooked, GivesLooked, IsFirstIfAny, MayStopLooking, UnreadGives};

use crate::find_imports::{FindImports, FoundImport};
use crate::load_fault::LoadFault;
use crate::phases::run_anyway;
use crate::read_files::ReadFiles;
use crate::readers::Readers;
use crate::reading::{part_of, read_below};
use index_pool::{Gate, Job, MAX_INPUTS, PoolFault, Ticket};
use source_tree::Source;
use std::alloc::{AllocError, Global};
use std::marker::Model;
use std::sync::Wait;
use std::thread::Threads;

/// A file that was found and read.
///
/// Contracts see the file, the number and the list of the imports.
#[derive(Drop)]
pub(crate) struct FoundFile {
    /// The file.
    pub(crate) file: Source,
    /// The number of the root that it is below.
    pub(crate) root: usize,
    /// What it imports.
    pub(crate) imports: Vec<FoundImport>,
}

impl Model for FoundFile {
    ghost use Rattle.source_files.specs.Reached.{Told};

    ghost Value = { Told };

    ghost view = { λ found. record { file = found.file; root = found.root; imports = found.imports.items } };
}

/// What looking for the file with a path gave.
#[derive(Drop)]
pub(crate) enum Looked {
    /// It is there.
    Found(FoundFile),
    /// It can't be read, or has to be there and isn't, and is left out: its path.
    LeftOut(String),
    /// It is nowhere: its path.
    Nowhere(String),
}

/// How files are looked for.
#[derive(Drop)]
pub(crate) struct Looking<'a, F, I> {
    pub(crate) alloc: Global,
    /// The system of files.
    pub(crate) files: &'a F,
    /// What tells what they import.
    pub(crate) finder: &'a I,
    /// Whether what can't be read is left out; else it is a fault.
    pub(crate) leaves_out: bool,
    /// Whether what is nowhere counts as what can't be read.
    pub(crate) is_wanted: bool,
    /// The roots below which they are looked for, in order.
    pub(crate) roots: &'a [String],
}

/// The first root below which there is a file with a path, and its number.
fn first_root<'r, F: ReadFiles>(
    alloc: Global,
    files: &F,
    roots: &'r [String],
    path: &str,
) -> Result<Option<(usize, &'r str)>, AllocError>
    ensures { IfOk result (IsFirstIfAny (F.finds files.now) path.now (map string_bytes roots.now)) }
{
    let mut number: usize = 0;
    let mut rest = roots;
    while let [root, others @ ..] = rest {
        if files.is_below(alloc, root.as_str(), path)? {
            return Ok(Some((number, root.as_str())));
        }
        number += 1;
        rest = others;
    }
    Ok(None)
}

/// What is said of a path whose file isn't read, where such are left out or not.
fn unread(leaves_out: bool, path: String) -> Result<Looked, LoadFault>
    ensures { UnreadGives leaves_out (string_bytes path) result }
{
    if leaves_out {
        Ok(Looked::LeftOut(path))
    } else {
        Err(LoadFault::Unreadable(path))
    }
}

impl<'a, F: ReadFiles, I: FindImports> Looking<'a, F, I> {
    /// The file with a path below a root, which has this number.
    fn read(&self, number: usize, root: &str, path: String) -> Result<Looked, LoadFault>
        requires { IsFirstBelow (F.finds self.now.files.now) (string_bytes path)
            (map string_bytes self.now.roots.now) number root.now }
        ensures { GivesLooked (F.finds self.now.files.now) (F.gives self.now.files.now) (I.tells self.now.finder.now)
            self.now.leaves_out self.now.is_wanted (map string_bytes self.now.roots.now) (string_bytes path) result }
    {
        match read_below(self.alloc, self.files, root, path.as_str())? {
            Some(bytes) => {
                let imports = self.finder.imports_of(self.alloc, &bytes)?;
                Ok(Looked::Found(FoundFile {
                    file: Source {
                        path,
                        bytes,
                        is_unread: false,
                    },
                    root: number,
                    imports,
                }))
            }
            None => unread(self.leaves_out, path),
        }
    }

    /// What looking for the file with a path gives.
    fn look_for(&self, path: &str) -> Result<Looked, LoadFault>
        ensures { GivesLooked (F.finds self.now.files.now) (F.gives self.now.files.now) (I.tells self.now.finder.now)
            self.now.leaves_out self.now.is_wanted (map string_bytes self.now.roots.now) path.now result }
    {
        let path = String::from_str(self.alloc, path)?;
        match first_root(self.alloc, self.files, self.roots, path.as_str())? {
            Some((number, root)) => self.read(number, root, path),
            None => {
                if self.is_wanted {
                    unread(self.leaves_out, path)
                } else {
                    Ok(Looked::Nowhere(path))
                }
            }
        }
    }
}

/// What looking for the file with each of these paths gives.
#[derive(Drop)]
struct LookEach<'a, F: ReadFiles + Sync, I: FindImports + Sync> {
    looking: &'a Looking<'a, F, I>,
    paths: &'a [String],
}

impl<'a, F: ReadFiles + Sync, I: FindImports + Sync> Job for LookEach<'a, F, I> {
    ghost use Rattle.std.specs.Prelude.{IfSome, length, map, slice_get, string_bytes};
    ghost use Rattle.source_files.specs.Looks.{GivesLooked};

    type Out = Looked;

    type Fault = LoadFault;

    ghost inputs = { λ s. length s.paths.now };

    ghost gives = { λ s number result. IfSome (slice_get s.paths.now number)
        (λ path. GivesLooked (F.finds s.looking.now.files.now) (F.gives s.looking.now.files.now)
        (I.tells s.looking.now.finder.now) s.looking.now.leaves_out s.looking.now.is_wanted
        (map string_bytes s.looking.now.roots.now) (string_bytes path) result) };

    fn run(&self, ticket: Ticket) -> Result<Looked, LoadFault> {
        self.looking.look_for(self.paths[ticket.number()].as_str())
    }
}

/// What looking for the files with these paths gives.
fn look_part<R: Threads + Wait, G: Gate, F: ReadFiles + Sync, I: FindImports + Sync>(
    readers: &Readers<'_, R, G, F>,
    looking: &Looking<'_, F, I>,
    paths: &[String],
) -> Result<Vec<Looked>, LoadFault>
    requires { length paths.now ≤ MAX_INPUTS }
    ensures { MatchResult result
        (λ all. AreLooked (GivesLooked (F.finds looking.now.files.now) (F.gives looking.now.files.now)
        (I.tells looking.now.finder.now)
        looking.now.leaves_out looking.now.is_wanted (map string_bytes looking.now.roots.now))
        (map string_bytes paths.now) all.items)
        (MayStopLooking (GivesLooked (F.finds looking.now.files.now) (F.gives looking.now.files.now)
        (I.tells looking.now.finder.now)
        looking.now.leaves_out looking.now.is_wanted (map string_bytes looking.now.roots.now))
        (map string_bytes paths.now)) }
{
    let job = LookEach { looking, paths };
    match run_anyway(
        readers.rt,
        readers.alloc,
        &job,
        paths.len(),
        readers.workers,
        readers.gate,
    ) {
        Ok(all) => Ok(all),
        Err(PoolFault::Spawn) => unreachable!(),
        Err(PoolFault::Memory) => Err(LoadFault::Memory),
        Err(PoolFault::Job(_, fault)) => Err(fault),
    }
}

/// What looking for the files with these paths gives, in parts of so many as a phase has inputs.
pub(crate) fn look_each<R: Threads + Wait, G: Gate, F: ReadFiles + Sync, I: FindImports + Sync>(
    readers: &Readers<'_, R, G, F>,
    looking: &Looking<'_, F, I>,
    paths: &[String],
) -> Result<Vec<Looked>, LoadFault>
    ensures { MatchResult result
        (λ all. AreLooked (GivesLooked (F.finds looking.now.files.now) (F.gives looking.now.files.now)
        (I.tells looking.now.finder.now)
        looking.now.leaves_out looking.now.is_wanted (map string_bytes looking.now.roots.now))
        (map string_bytes paths.now) all.items)
        (MayStopLooking (GivesLooked (F.finds looking.now.files.now) (F.gives looking.now.files.now)
        (I.tells looking.now.finder.now)
        looking.now.leaves_out looking.now.is_wanted (map string_bytes looking.now.roots.now))
        (map string_bytes paths.now)) }
{
    let mut all = Vec::new(readers.alloc);
    let mut rest = paths;
    while !rest.is_empty() {
        let (part, behind) = part_of(rest);
        let mut more = look_part(readers, looking, part)?;
        all.append(&mut more)?;
        rest = behind;
    }
    Ok(all)
}
