//! Documents, put together to an index, and why they make none.

ghost use Rattle.std.specs.Prelude.{◌≡◌, not, Some, IfOk, IfErr, OnOk, OnErr, MatchOption, Contains, length, map};
ghost use Rattle.std.specs.Prelude.{position};
ghost use Rattle.std.specs.String.{string_bytes};
ghost use Rattle.std.specs.List.{slice_get};
ghost use Rattle.scip_model.specs.Pieces.{name_of, number_of, IsRising, AreMerged, MayRefuseMerge, texts};
ghost use Rattle.scip_model.specs.Indexes.{document_cmp};
ghost use Rattle.scip_model.specs.Tables.TakenPaths.{AreClear, IsMarked, IsNotMarked, AreMarked};

use basics::Sequence;
use scip_records::{Document, Index, Metadata, SymbolInformation};
use std::alloc::{AllocError, Global};
use std::cmp::Ordering;
use thiserror::Error;

/// Why documents, the pieces of an index, aren't put together. Of the first two the one of the earlier piece is
/// answered, and `Missing` if no piece has either.
#[derive(Clone, Copy, Debug, Drop, PartialEq, Eq, Error)]
pub enum MergeFault {
    /// The piece with this number has a path that isn't one of those given.
    #[error("piece {0} has a path that isn't one of those given")]
    Stranger(usize),
    /// The piece with this number has the path of an earlier one.
    #[error("piece {0} has the path of an earlier one")]
    Twice(usize),
    /// No piece has the path with this number, the least such.
    #[error("no piece has path {0}")]
    Missing(usize),
    /// Memory ran out.
    #[error("memory ran out")]
    Memory,
}

impl MergeFault {
    /// The variant's name.
    pub fn name(&self) -> &'static str
        ensures { result.now ≡ name_of self.now }
    {
        match self {
            MergeFault::Stranger(_) => "Stranger",
            MergeFault::Twice(_) => "Twice",
            MergeFault::Missing(_) => "Missing",
            MergeFault::Memory => "Memory",
        }
    }

    /// The number of the piece or the path that it names.
    pub fn number(&self) -> Option<usize>
        ensures { result ≡ number_of self.now }
    {
        match *self {
            MergeFault::Stranger(number)
            | MergeFault::Twice(number)
            | MergeFault::Missing(number) => Some(number),
            MergeFault::Memory => None,
        }
    }
}

impl From<AllocError> for MergeFault {
    ghost use Rattle.scip_model.specs.declared.pieces.MergeFault.TheVariants.{Memory};

    ghost from_gives = { λ _ e. e ≡ Memory };

    fn from(_refused: AllocError) -> MergeFault {
        MergeFault::Memory
    }
}

/// Pieces that weren't put together, and the external entries, as they were. The metadata isn't handed back.
#[derive(Debug, Drop, Error)]
#[error("the pieces make no index: {fault}")]
pub struct Unmerged {
    /// The pieces.
    pub pieces: Vec<Document>,
    /// The external entries.
    pub externals: Vec<SymbolInformation>,
    /// Why they weren't put together.
    pub fault: MergeFault,
}

/// The number of a path, if it is one of these.
fn number_of(paths: &[&str], path: &str) -> Option<usize>
    requires { IsRising (texts paths.now) }
    ensures { MatchOption result (Contains (texts paths.now) path.now → ⊥)
        (λ number. slice_get (texts paths.now) number ≡ Some path.now) }
{
    paths.binary_search(&path).ok()
}

/// So many marks, none of them set.
fn clear_marks(alloc: Global, count: usize) -> Result<Vec<bool>, AllocError>
    ensures { IfOk result (λ marks. AreClear count marks.items) }
{
    let mut marks = Vec::with_capacity(alloc, count)?;
    for _ in 0..count {
        marks.push_reserved(false);
    }
    Ok(marks)
}

/// Marks the path of a piece.
fn mark(paths: &[&str], marks: &mut Vec<bool>, piece: usize, path: &str) -> Result<(), MergeFault>
    requires rising { IsRising (texts paths.now) }
    requires size { length marks.old.items ≡ length (texts paths.now) }
    ensures marked { OnOk result (IsMarked (texts paths.now) path.now marks.old.items marks.new.items) }
    ensures refused { IfErr result (IsNotMarked (texts paths.now) path.now marks.old.items piece) }
{
    let Some(number) = number_of(paths, path) else {
        return Err(MergeFault::Stranger(piece));
    };
    if marks[number] {
        return Err(MergeFault::Twice(piece));
    }
    marks[number] = true;
    Ok(())
}

/// Marks the paths of all pieces.
fn mark_all(paths: &[&str], marks: &mut Vec<bool>, pieces: &[Document]) -> Result<(), MergeFault>
    requires rising { IsRising (texts paths.now) }
    requires clear { AreClear (length (texts paths.now)) marks.old.items }
    ensures marked { OnOk result (AreMarked (texts paths.now) pieces.now (length pieces.now) marks.new.items) }
    ensures refused { IfErr result (MayRefuseMerge (texts paths.now) pieces.now) }
{
    for (piece, document) in pieces.iter().enumerate() {
        mark(paths, marks, piece, document.relative_path.as_str())?;
    }
    Ok(())
}

/// The first mark that is clear.
fn first_clear(marks: &[bool]) -> Option<usize>
    ensures { result ≡ position (λ mark. not mark) marks.now }
{
    marks.iter().position(|mark| !*mark)
}

/// The order of documents: by path.
fn compare_paths(a: &Document, b: &Document) -> Ordering
    ensures { result ≡ document_cmp a.now b.now }
{
    a.relative_path.as_str().cmp(b.relative_path.as_str())
}

/// Puts the pieces in the order of the paths, if each path has one.
fn put_in_order(alloc: Global, paths: &[&str], pieces: &mut Vec<Document>) -> Result<(), MergeFault>
    requires { IsRising (texts paths.now) }
    ensures merged { OnOk result (AreMerged (texts paths.now) pieces.old.items pieces.new.items) }
    ensures kept { OnErr result (pieces.new.items ≡ pieces.old.items) }
    ensures refused { IfErr result (MayRefuseMerge (texts paths.now) pieces.old.items) }
{
    let mut marks = clear_marks(alloc, paths.len())?;
    mark_all(paths, &mut marks, pieces.as_slice())?;
    match first_clear(marks.as_slice()) {
        Some(number) => Err(MergeFault::Missing(number)),
        None => {
            pieces.sort_by(|a, b| compare_paths(a, b))?;
            Ok(())
        }
    }
}

/// The texts of paths.
fn borrowed(alloc: Global, paths: &[String]) -> Result<Vec<&str>, AllocError>
    ensures { IfOk result (λ list. texts list.items ≡ map string_bytes paths.now) }
{
    let mut list = Vec::new(alloc);
    'paths: for path in paths {
        list.push(path.as_str())?;
    }
    Ok(list)
}

/// Puts the pieces in the order of the paths, if each path has one.
fn put_in_order_of(
    alloc: Global,
    paths: &[String],
    pieces: &mut Vec<Document>,
) -> Result<(), MergeFault>
    requires { IsRising (map string_bytes paths.now) }
    ensures merged { OnOk result (AreMerged (map string_bytes paths.now) pieces.old.items pieces.new.items) }
    ensures kept { OnErr result (pieces.new.items ≡ pieces.old.items) }
    ensures refused { IfErr result (MayRefuseMerge (map string_bytes paths.now) pieces.old.items) }
{
    let borrowed = borrowed(alloc, paths)?;
    put_in_order(alloc, borrowed.as_slice(), pieces)
}

/// Puts pieces together: an index with a document for each path, in the order of the paths. Each path has to be after
/// the one before it, by its bytes. The external entries stay as they are.
///
/// If they aren't put together, the pieces and the external entries come back as they were, with one of these. The
/// metadata doesn't come back.
///
/// - `Stranger(n)` or `Twice(n)`: piece n, from 0, has none of the paths, or that of an earlier piece, and no earlier
///   piece is like that.
/// - `Missing(n)`: no piece is like that, and path n, from 0, is the first that no piece has.
/// - `Memory`: memory was refused. It may come before any of these.
pub fn merge(
    alloc: Global,
    paths: &[String],
    pieces: Vec<Document>,
    metadata: Metadata,
    externals: Vec<SymbolInformation>,
) -> Result<Index, Unmerged>
    requires { IsRising (map string_bytes paths.now) }
    ensures merged { IfOk result (λ index. AreMerged (map string_bytes paths.now) pieces.items index.documents) }
    ensures metadata { IfOk result (λ index. index.metadata ≡ Some metadata) }
    ensures externals { IfOk result (λ index. index.external_symbols ≡ externals.items) }
    ensures refused { IfErr result (λ unmerged.
        MayRefuseMerge (map string_bytes paths.now) pieces.items unmerged.fault) }
    ensures pieces_back { IfErr result (λ unmerged. unmerged.pieces.items ≡ pieces.items) }
    ensures externals_back { IfErr result (λ unmerged. unmerged.externals ≡ externals) }
{
    let mut pieces = pieces;
    match put_in_order_of(alloc, paths, &mut pieces) {
        Ok(()) => Ok(Index {
            metadata: Some(metadata),
            documents: Sequence::from_vec(pieces),
            external_symbols: Sequence::from_vec(externals),
        }),
        Err(fault) => Err(Unmerged {
            pieces,
            externals,
            fault,
        }),
    }
}
