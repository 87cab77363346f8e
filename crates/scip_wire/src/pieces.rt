//! Writing an index in pieces.

ghost use Rattle.std.specs.Prelude.{◌≡◌, ◌<◌, ◌≤◌, ◌↔◌, length, All, IfErr, IfSome, OnOk, Err};
ghost use Rattle.streams.specs.Writers.{IsWritten, IsCutOff, writer};
ghost use Rattle.scip_wire.specs.Spelling.{joined_pieces, max_index_len};
ghost use Rattle.scip_wire.specs.WellFormed.{IsFitInfo, IsFitMetadata};
ghost use Rattle.scip_wire.specs.Writing.{Leaves};

use crate::spell::{Buffer, DocumentRecord, encode_pieces, pieces_len};
use crate::write::MAX_INDEX_LEN;
use crate::write_fault::WriteFault;
use basics::Sequence;
use scip_records::{Metadata, SymbolInformation};
use streams::{CutOff, Sink};

/// Writes pieces that aren't too long.
fn write_in_order<W: Sink>(
    metadata: &Option<Metadata>,
    documents: &[DocumentRecord],
    external_symbols: &Sequence<SymbolInformation>,
    sink: &mut W,
) -> Result<(), CutOff>
    requires { length (joined_pieces metadata.now documents.now external_symbols.now) ≤ max_index_len }
    ensures ok { OnOk result (IsWritten (writer W.Sink sink)
        (joined_pieces metadata.now documents.now external_symbols.now)) }
    ensures err { IfErr result (λ e. IsCutOff (writer W.Sink sink)
        (joined_pieces metadata.now documents.now external_symbols.now) e.written) }
{
    let mut out = Buffer::new();
    encode_pieces(&mut out, sink, metadata, documents, external_symbols);
    out.finish(sink)
}

/// Writes the spelling of an index of which each document is spelled: its record is one of `documents`, in
/// order. They are written in full, one after another. Takes no memory. The refusals are those of
/// [`write_index`](crate::write_index).
pub fn write_pieces<W: Sink>(
    metadata: &Option<Metadata>,
    documents: &[DocumentRecord],
    external_symbols: &Sequence<SymbolInformation>,
    sink: &mut W,
) -> Result<(), WriteFault>
    ensures ok { OnOk result (IsWritten (writer W.Sink sink)
        (joined_pieces metadata.now documents.now external_symbols.now)) }
    ensures too_large { (result ≡ Err WriteFault.TooLarge) ↔ (max_index_len < length
        (joined_pieces metadata.now documents.now external_symbols.now)) }
    ensures refused { IfErr result (Leaves (writer W.Sink sink)
        (joined_pieces metadata.now documents.now external_symbols.now)) }
    ensures known { IfSome metadata.now IsFitMetadata }
    ensures known_externals { All IsFitInfo external_symbols.now }
{
    if pieces_len(metadata, documents, external_symbols) > u64::from(MAX_INDEX_LEN) {
        return Err(WriteFault::TooLarge);
    }
    write_in_order(metadata, documents, external_symbols, sink)?;
    Ok(())
}
