//! The join of indexes, in pieces.

ghost use Rattle.std.specs.Prelude.{◌≡◌, ◌<◌, ◌↔◌, length, Err, IfErr, OnOk};
ghost use Rattle.streams.specs.Writers.{IsWritten, writer};
ghost use Rattle.scip_records.specs.declared.records.Index.{Index};
ghost use Rattle.scip_wire.specs.Spelling.{spelling_of, max_index_len};
ghost use Rattle.scip_wire.specs.Writing.{Leaves};
ghost use Rattle.scip_join.specs.Joined.{metadata_with, with_root, only_root};
ghost use Rattle.scip_join.specs.Pieces.{ArePiecesOf};

use basics::{OwnedText, Sequence};
use scip_records::{Metadata, SymbolInformation};
use scip_wire::{DocumentRecord, WriteFault, spelling_is_of_pieces, write_pieces};
use streams::Sink;

/// The join of indexes, in pieces.
#[derive(Debug, Drop)]
pub struct JoinedIndex {
    /// What it says about itself.
    pub metadata: Option<Metadata>,
    /// The records of its documents, in order of path.
    pub documents: Sequence<DocumentRecord>,
    /// Its external entries, in order of symbol.
    pub external_symbols: Sequence<SymbolInformation>,
}

impl JoinedIndex {
    /// Writes the spelling of the index whose pieces these are. The refusals are those of
    /// [`write_index`](scip_wire::write_index).
    pub fn write<W: Sink>(&self, sink: &mut W) -> Result<(), WriteFault>
        ensures ok { (index : Index) → ArePiecesOf self.now index → OnOk result (IsWritten (writer W.Sink sink)
            (spelling_of index)) }
        ensures too_large { (index : Index) → ArePiecesOf self.now index → (result ≡ Err WriteFault.TooLarge)
            ↔ (max_index_len < length (spelling_of index)) }
        ensures refused { (index : Index) → ArePiecesOf self.now index → IfErr result (Leaves (writer W.Sink sink)
            (spelling_of index)) }
    {
        spelling_is_of_pieces();
        write_pieces(
            &self.metadata,
            self.documents.as_slice(),
            &self.external_symbols,
            sink,
        )
    }
}

/// Metadata that says only which root there is.
fn only_root(root: OwnedText) -> Metadata
    ensures { result ≡ only_root root }
{
    Metadata {
        version: 0,
        tool_info: None,
        project_root: root,
        text_document_encoding: 0,
    }
}

/// Metadata with another root.
fn with_root(root: OwnedText, metadata: Metadata) -> Metadata
    ensures { result ≡ with_root root metadata }
{
    Metadata {
        version: metadata.version,
        tool_info: metadata.tool_info,
        project_root: root,
        text_document_encoding: metadata.text_document_encoding,
    }
}

/// The metadata with the root that is asked for, if one is.
pub(crate) fn metadata_with(root: Option<OwnedText>, metadata: Option<Metadata>) -> Option<Metadata>
    ensures { result ≡ metadata_with root metadata }
{
    match root {
        None => metadata,
        Some(root) => match metadata {
            None => Some(only_root(root)),
            Some(metadata) => Some(with_root(root, metadata)),
        },
    }
}
