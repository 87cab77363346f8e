//! What is kept of the indexes that come one after the other, and the join of them.

ghost use Rattle.std.specs.Prelude.{◌≡◌, ◌++◌, ◌⊎◌, ◌↔◌, true, [], ◌∷◌, List, Err, IfErr, IfOk, OnOk, All};
ghost use Rattle.std.specs.Prelude.{cond, nat_eq, reverse};
ghost use Rattle.scip_records.specs.declared.records.Index.{Index};
ghost use Rattle.scip_wire.specs.WellFormed.{IsFitDocument};
ghost use Rattle.scip_join.specs.Gathered.{gathered, piece_of, pieces_in};
ghost use Rattle.scip_join.specs.Joined.{IsJoin};
ghost use Rattle.scip_join.specs.Pieces.{ArePiecesOf};
ghost use Rattle.scip_join.specs.Refused.{contradict, encoding_of, root_of, HasOtherEncoding, HasOtherRoot};
ghost use Rattle.scip_join.specs.Refused.{IsAllowed, MayRefuse};
ghost use Rattle.scip_join.specs.declared.join_fault.JoinFault.TheVariants.{OtherRoot, OtherEncoding, Memory};
ghost use Rattle.scip_join.specs.Tables.{has_same_path, piece_cmp, HaveOwnPaths, IsFirstOfEach, RefusesPieces};
ghost use Rattle.scip_join.specs.Steps.{AreKept, AreUndefined, IsAdded, IsCounted, IsSettled, are_apart, is_other};

use crate::choices::JoinChoices;
use crate::documents::{keep_latest, records_of, refuse_twice, sort_latest_first};
use crate::externals::{keep_first, leave_out_defined, sort_by_symbol};
use crate::join_fault::JoinFault;
use crate::joined::{JoinedIndex, metadata_with};
use crate::piece::Piece;
use basics::Sequence;
use scip_records::{Document, Index, Metadata, SymbolInformation};
use scip_wire::DocumentRecord;
use std::alloc::{AllocError, Global};
use std::marker::Model;

/// Indexes that become one. They come one after the other, and only what the join needs is kept of each.
#[derive(Debug, Drop)]
pub struct IndexJoin {
    choices: JoinChoices,
    /// How many indexes came.
    count: usize,
    /// That of the first index.
    metadata: Option<Metadata>,
    /// Of the documents of all indexes, in order.
    pieces: Vec<Piece>,
    /// Those of all indexes, in order.
    externals: Vec<SymbolInformation>,
}

impl Model for IndexJoin {
    ghost use Rattle.scip_join.specs.Gathered.{Gathered};

    ghost Value = { Gathered };

    ghost view = { λ g. record {
      choices = g.choices;
      count = g.count;
      metadata = g.metadata;
      pieces = g.pieces.items;
      externals = g.externals.items;
    } };
}

/// The project root that metadata names; empty without metadata.
fn root_of(metadata: &Option<Metadata>) -> &str
    ensures { result.now ≡ root_of metadata.now }
{
    match metadata {
        Some(metadata) => metadata.project_root.as_str(),
        None => "",
    }
}

/// The text encoding that metadata says; 0, which says none, without metadata.
fn encoding_of(metadata: &Option<Metadata>) -> i32
    ensures { result ≡ encoding_of metadata.now }
{
    match metadata {
        Some(metadata) => metadata.text_document_encoding,
        None => 0,
    }
}

/// Whether both say a text encoding, and they differ.
fn contradict(first: i32, own: i32) -> bool
    ensures { result ≡ contradict first own }
{
    first != 0 && own != 0 && first != own
}

/// Whether an index came, and another root is its own.
fn are_apart(count: usize, first: &str, own: &str) -> bool
    ensures { result ≡ are_apart count first.now own.now }
{
    count != 0 && first != own
}

/// The metadata of the first index, where so many came before this one.
fn first_of(count: usize, first: Option<Metadata>, own: Option<Metadata>) -> Option<Metadata>
    ensures { result ≡ cond (nat_eq count 0) own first }
{
    if count == 0 { own } else { first }
}

/// Appends what is kept of a document of the index with this number.
fn push_piece(
    alloc: Global,
    pieces: &mut Vec<Piece>,
    index: usize,
    document: Document,
) -> Result<(), AllocError>
    ensures kept { OnOk result (pieces.new.items ≡ pieces.old.items ++ piece_of (index, document) ∷ []) }
    ensures known { OnOk result (IsFitDocument document) }
{
    let piece = Piece::of(alloc, index, document)?;
    pieces.push(piece)?;
    Ok(())
}

/// Appends what is kept of the documents of the index with this number.
fn push_pieces(
    alloc: Global,
    pieces: &mut Vec<Piece>,
    index: usize,
    documents: Vec<Document>,
) -> Result<(), AllocError>
    ensures kept { OnOk result (pieces.new.items ≡ pieces.old.items ++ pieces_in index documents.items) }
    ensures known { OnOk result (All IsFitDocument documents.items) }
{
    for document in documents {
        push_piece(alloc, pieces, index, document)?;
    }
    Ok(())
}

/// Appends entries.
fn push_entries(
    entries: &mut Vec<SymbolInformation>,
    others: Vec<SymbolInformation>,
) -> Result<(), AllocError>
    ensures { OnOk result (entries.new.items ≡ entries.old.items ++ others.items) }
{
    let mut others = others;
    entries.append(&mut others)
}

/// Keeps the latest piece of each path, in order of path. If two have one path, that is refused, unless a piece is to
/// replace another.
fn keep_latest_of(alloc: Global, pieces: &mut Vec<Piece>, replace: bool) -> Result<(), JoinFault>
    ensures latest { OnOk result (IsFirstOfEach piece_cmp has_same_path (reverse pieces.old.items) pieces.new.items) }
    ensures allowed { OnOk result ((replace ≡ true) ⊎ HaveOwnPaths (reverse pieces.old.items)) }
    ensures refused { IfErr result (RefusesPieces replace (reverse pieces.old.items)) }
{
    sort_latest_first(pieces)?;
    refuse_twice(alloc, pieces.as_slice(), replace)?;
    keep_latest(pieces);
    Ok(())
}

/// Keeps the first entry of each symbol that no piece has, in order of symbol.
fn keep_undefined(
    alloc: Global,
    entries: &mut Vec<SymbolInformation>,
    pieces: &[Piece],
) -> Result<(), AllocError>
    ensures { OnOk result (AreUndefined pieces.now entries.old.items entries.new.items) }
{
    sort_by_symbol(entries)?;
    keep_first(entries);
    leave_out_defined(alloc, entries, pieces)?;
    Ok(())
}

impl IndexJoin {
    /// No index came yet.
    pub fn new(alloc: Global, choices: JoinChoices) -> IndexJoin
        ensures { result ≡ gathered choices [] }
    {
        IndexJoin {
            choices,
            count: 0,
            metadata: None,
            pieces: Vec::new(alloc),
            externals: Vec::new(alloc),
        }
    }

    /// Whether no root is asked for, and this metadata has another one than that of the first index.
    fn has_other_root(&self, metadata: &Option<Metadata>) -> bool
        ensures { result ≡ is_other self.now metadata.now }
    {
        match &self.choices.project_root {
            Some(_) => false,
            None => are_apart(self.count, root_of(&self.metadata), root_of(metadata)),
        }
    }

    /// Whether this metadata says another text encoding than that of the first index.
    fn has_other_encoding(&self, metadata: &Option<Metadata>) -> bool
        ensures { result ≡ contradict (encoding_of self.now.metadata) (encoding_of metadata.now) }
    {
        contradict(encoding_of(&self.metadata), encoding_of(metadata))
    }

    /// Counts one more index, with this metadata, and gives its number. That of the first is kept.
    fn count_one(&mut self, metadata: Option<Metadata>) -> Result<usize, AllocError>
        ensures { IfOk result (IsCounted self.old metadata self.new) }
    {
        let number = self.count;
        let Some(count) = number.checked_add(1) else {
            return Err(AllocError);
        };
        let first = self.metadata.take();
        self.metadata = first_of(number, first, metadata);
        self.count = count;
        Ok(number)
    }

    /// Keeps what the join needs of the next index.
    fn take_in(&mut self, alloc: Global, index: Index) -> Result<(), AllocError>
        ensures added { OnOk result (IsAdded self.old index self.new) }
        ensures known { OnOk result (All IsFitDocument index.documents) }
    {
        let Index {
            metadata,
            documents,
            external_symbols,
        } = index;
        let number = self.count_one(metadata)?;
        push_pieces(alloc, &mut self.pieces, number, documents.into_vec())?;
        push_entries(&mut self.externals, external_symbols.into_vec())?;
        Ok(())
    }

    /// The next index comes. Its documents are spelled, and what the join doesn't need of it is let go.
    ///
    /// - `OtherRoot`: no project root is asked for, and its own isn't that of the first index. Nothing is kept of it.
    /// - `OtherEncoding`: it says another text encoding than the first index. Nothing is kept of it.
    /// - `Memory`: memory was refused. What is kept is then of no use.
    pub fn add(&mut self, alloc: Global, index: Index) -> Result<(), JoinFault>
        ensures added { (indexes : List Index) → self.old ≡ gathered self.old.choices indexes
            → OnOk result (self.new ≡ gathered self.old.choices (indexes ++ index ∷ [])) }
        ensures other_root { (indexes : List Index) → self.old ≡ gathered self.old.choices indexes
            → (result ≡ Err OtherRoot) ↔ HasOtherRoot self.old.choices indexes index }
        ensures other_encoding { (indexes : List Index) → self.old ≡ gathered self.old.choices indexes
            → (result ≡ Err OtherEncoding)
            ↔ (HasOtherEncoding indexes index × (HasOtherRoot self.old.choices indexes index → ⊥)) }
        ensures refused { IfErr result (λ e. (e ≡ OtherRoot) ⊎ (e ≡ OtherEncoding) ⊎ (e ≡ Memory)) }
        ensures unchanged { IfErr result (λ e. (self.new ≡ self.old) ⊎ (e ≡ Memory)) }
        ensures known { OnOk result (All IsFitDocument index.documents) }
    {
        if self.has_other_root(&index.metadata) {
            return Err(JoinFault::OtherRoot);
        }
        if self.has_other_encoding(&index.metadata) {
            return Err(JoinFault::OtherEncoding);
        }
        self.take_in(alloc, index)?;
        Ok(())
    }

    /// Keeps the pieces and the external entries that the join has, in its order.
    fn settle(&mut self, alloc: Global) -> Result<(), JoinFault>
        ensures settled { OnOk result (IsSettled self.old self.new) }
        ensures refused { IfErr result (RefusesPieces self.old.choices.replace (reverse self.old.pieces)) }
    {
        keep_latest_of(alloc, &mut self.pieces, self.choices.replace)?;
        keep_undefined(alloc, &mut self.externals, self.pieces.as_slice())?;
        Ok(())
    }

    /// What is kept, as the pieces of an index.
    fn into_joined(self, alloc: Global) -> Result<JoinedIndex, AllocError>
        ensures { IfOk result (AreKept self) }
    {
        let IndexJoin {
            choices,
            count: _,
            metadata,
            pieces,
            externals,
        } = self;
        let documents = records_of(alloc, pieces)?;
        Ok(JoinedIndex {
            metadata: metadata_with(choices.project_root, metadata),
            documents,
            external_symbols: Sequence::from_vec(externals),
        })
    }

    /// The join of the indexes that came, in pieces. What was kept is let go, whatever comes of it.
    ///
    /// - `Twice`: two documents have one path, and none is to be replaced.
    /// - `Memory`: memory was refused.
    pub fn finish(self, alloc: Global) -> Result<JoinedIndex, JoinFault>
        ensures joined { (indexes : List Index) → self ≡ gathered self.choices indexes
            → IfOk result (λ whole. (joined : Index) × IsJoin self.choices.project_root indexes joined
            × ArePiecesOf whole joined) }
        ensures allowed { (indexes : List Index) → self ≡ gathered self.choices indexes
            → OnOk result (IsAllowed self.choices indexes) }
        ensures refused { (indexes : List Index) → self ≡ gathered self.choices indexes
            → IfErr result (MayRefuse self.choices indexes) }
    {
        let mut join = self;
        join.settle(alloc)?;
        Ok(join.into_joined(alloc)?)
    }
}
