//! The index that files hold together: of one file its own, and of several their join.

ghost use Rattle.std.specs.Prelude.{◌≡◌, List, map, string_bytes, IfErr, IfOk, OnOk};
ghost use Rattle.scip_records.specs.declared.records.Index.{Index};
ghost use Rattle.scip_wire.specs.Decodes.{Decodes};
ghost use Rattle.scip_wire.specs.Spelling.{spelling_of};
ghost use Rattle.scip_join.specs.Gathered.{gathered};
ghost use Rattle.scip_join.specs.Pieces.{ArePiecesOf};
ghost use Rattle.programs.specs.IndexFiles.{
  Adds,
  AreGathered,
  HasNoJoin,
  HasNoNext,
  HasPieces,
  IsIndexOf,
  IsJoinedIndex,
  IsOwnIndex,
  IsReadFrom,
  MayNotSpell,
  any_roots,
};

use crate::files_fault::FilesFault;
use crate::index_fault::IndexFault;
use protoscip::OwnedText;
use scip_join::{IndexJoin, JoinChoices, JoinFault, JoinedIndex};
use scip_query::Queries;
use scip_records::Index;
use scip_wire::{WriteFault, read_index};
use source_files::ReadFiles;
use std::alloc::{AllocError, Global};
use streams::Std;

/// The index that a file holds. Nothing of the file's bytes is kept beside it.
#[tactic(auto, using(crate::proofs::IndexFileRules::of_index))]
pub(crate) fn index_of_file<F: ReadFiles>(
    alloc: Global,
    files: &F,
    path: &str,
) -> Result<Index, IndexFault>
    ensures { IsReadFrom (F.gives files.now path.now) result }
{
    let bytes = match files.read_file(alloc, path)? {
        Some(bytes) => bytes,
        None => return Err(IndexFault::Unreadable),
    };
    let index = read_index(alloc, &bytes)?;
    Ok(index)
}

// ---- several files

/// Adds the index of the file with this path, which has this number.
#[tactic(auto, using(crate::proofs::IndexFileRules::of_next))]
fn add_file<F: ReadFiles>(
    alloc: Global,
    files: &F,
    join: &mut IndexJoin,
    number: usize,
    path: &str,
) -> Result<(), FilesFault>
    ensures added { (indexes : List Index) → join.old ≡ gathered join.old.choices indexes
        → OnOk result (Adds (F.gives files.now path.now) join.old.choices indexes join.new) }
    ensures stops { (indexes : List Index) → join.old ≡ gathered join.old.choices indexes
        → IfErr result (HasNoNext (F.gives files.now path.now) join.old.choices indexes number) }
{
    let index = match index_of_file(alloc, files, path) {
        Ok(index) => index,
        Err(fault) => return Err(FilesFault::Read(number, fault)),
    };
    match join.add(alloc, index) {
        Ok(()) => Ok(()),
        Err(JoinFault::OtherRoot) => Err(FilesFault::OtherRoot(number)),
        Err(JoinFault::OtherEncoding) => Err(FilesFault::OtherEncoding(number)),
        Err(_) => Err(FilesFault::Memory),
    }
}

/// Adds the indexes of the files with these paths, one after the other: only one of them is kept whole at a time.
#[tactic(auto, using(crate::proofs::IndexFileRules::of_join))]
fn add_files<F: ReadFiles>(
    alloc: Global,
    files: &F,
    choices: JoinChoices,
    paths: &[String],
) -> Result<IndexJoin, FilesFault>
    ensures added { IfOk result (λ join. AreGathered (F.gives files.now) choices (map string_bytes paths.now) join) }
    ensures stops { IfErr result (HasNoJoin (F.gives files.now) choices (map string_bytes paths.now)) }
{
    let mut join = IndexJoin::new(alloc, choices);
    for (number, path) in paths.iter().enumerate() {
        add_file(alloc, files, &mut join, number, path.as_str())?;
    }
    Ok(join)
}

/// The join of the indexes of the files with these paths, in pieces.
#[tactic(auto, using(crate::proofs::IndexFileRules::of_join))]
pub(crate) fn join_files<F: ReadFiles>(
    alloc: Global,
    files: &F,
    choices: JoinChoices,
    paths: &[String],
) -> Result<JoinedIndex, FilesFault>
    ensures joined { IfOk result (HasPieces (F.gives files.now) choices (map string_bytes paths.now)) }
    ensures stops { IfErr result (HasNoJoin (F.gives files.now) choices (map string_bytes paths.now)) }
{
    let join = add_files(alloc, files, choices, paths)?;
    match join.finish(alloc) {
        Ok(joined) => Ok(joined),
        Err(JoinFault::Twice(two)) => Err(FilesFault::Twice(two)),
        Err(_) => Err(FilesFault::Memory),
    }
}

// ---- as one index

/// A project root is asked for, so indexes of any are joined: no answer shows it. Documents aren't to be replaced.
fn any_roots(alloc: Global) -> Result<JoinChoices, AllocError>
    ensures { IfOk result (λ choices. choices ≡ any_roots) }
{
    let root = OwnedText::copy_of(alloc, "")?;
    Ok(JoinChoices {
        project_root: Some(root),
        replace: false,
    })
}

/// The spelling of the index whose pieces these are. They are let go.
///
/// - `TooLarge`: it is longer than an index may be.
/// - `Memory`: memory was refused; a vector takes every write else.
fn bytes_of(alloc: Global, joined: JoinedIndex) -> Result<Vec<u8>, FilesFault>
    ensures bytes { (index : Index) → ArePiecesOf joined index
        → IfOk result (λ bytes. bytes.items ≡ spelling_of index) }
    ensures stops { (index : Index) → ArePiecesOf joined index → IfErr result (MayNotSpell index) }
{
    let mut out = Std::new(Vec::new(alloc));
    match joined.write(&mut out) {
        Ok(()) => Ok(out.into_inner()),
        Err(WriteFault::TooLarge) => Err(FilesFault::TooLarge),
        Err(WriteFault::Write(_)) => Err(FilesFault::Memory),
    }
}

/// The index of bytes that are spelled, which decode: what else is refused is memory.
fn decoded(alloc: Global, bytes: &[u8]) -> Result<Index, AllocError>
    ensures { IfOk result (Decodes bytes.now) }
{
    match read_index(alloc, bytes) {
        Ok(index) => Ok(index),
        Err(_) => Err(AllocError),
    }
}

/// The index that the files with these paths hold as their join, which is spelled and read.
#[tactic(auto, using(crate::proofs::IndexFileRules::of_joined))]
fn joined_index<F: ReadFiles>(
    alloc: Global,
    files: &F,
    paths: &[String],
) -> Result<Index, FilesFault>
    ensures { IsJoinedIndex (F.gives files.now) (map string_bytes paths.now) result }
{
    let choices = any_roots(alloc)?;
    let joined = join_files(alloc, files, choices, paths)?;
    let bytes = bytes_of(alloc, joined)?;
    let index = decoded(alloc, &bytes)?;
    Ok(index)
}

/// The index that the file with this path holds alone.
#[tactic(auto, using(crate::proofs::IndexFileRules::of_own))]
fn own_index<F: ReadFiles>(alloc: Global, files: &F, path: &str) -> Result<Index, FilesFault>
    ensures { IsOwnIndex (F.gives files.now path.now) result }
{
    match index_of_file(alloc, files, path) {
        Ok(index) => Ok(index),
        Err(fault) => Err(FilesFault::Read(0, fault)),
    }
}

/// The index that the files with these paths hold together.
pub(crate) fn index_of_files<F: ReadFiles>(
    alloc: Global,
    files: &F,
    paths: &[String],
) -> Result<Index, FilesFault>
    ensures { IsIndexOf (F.gives files.now) (map string_bytes paths.now) result }
{
    match paths {
        [path] => own_index(alloc, files, path.as_str()),
        _ => joined_index(alloc, files, paths),
    }
}

/// That index, with its tables.
#[tactic(auto, using(crate::proofs::IndexFileLemmas::finding_lacks_memory))]
pub(crate) fn queries_of<F: ReadFiles>(
    alloc: Global,
    files: &F,
    paths: &[String],
) -> Result<Queries, FilesFault>
    ensures { IsIndexOf (F.gives files.now) (map string_bytes paths.now) result }
{
    let index = index_of_files(alloc, files, paths)?;
    match Queries::new(alloc, index) {
        Ok(queries) => Ok(queries),
        Err(_) => Err(FilesFault::Memory),
    }
}
