//! An index in pieces: the record of its metadata, one of each document, and those of its external entries.

ghost use Rattle.std.specs.Prelude.{◌≡◌, ◌≤◌, length, All, IfOk, IfSome, OnErr, OnOk};
ghost use Rattle.std.specs.List.{concat};
ghost use Rattle.scip_wire.specs.Outputs.{IsPut};
ghost use Rattle.scip_records.specs.Documents.{without_occurrences};
ghost use Rattle.scip_wire.specs.Saturated.{saturated};
ghost use Rattle.scip_wire.specs.Shortened.{IsBegun};
ghost use Rattle.scip_wire.specs.Spelling.{document_record, joined_pieces, max_index_len};
ghost use Rattle.scip_wire.specs.WellFormed.{IsFitDocument, IsFitInfo, IsFitMetadata};

use super::document::{DocumentMessage, encode_and_let_go};
use super::document_record::DocumentRecord;
use super::fields::record_len;
use super::message::{
    Encode, encode_messages, encode_optional_message, messages_len, optional_message_len,
};
use super::output::Output;
use super::shortened::Shortened;
use basics::Sequence;
use scip_records::{DocumentParts, Metadata, SymbolInformation};
use std::alloc::{AllocError, Global};

/// How many symbols a document has, in its occurrences and its entries.
fn symbol_count<D: DocumentParts>(document: &D) -> usize {
    document
        .occurrence_count()
        .saturating_add(document.entry_count())
}

/// What a symbol begins with, before the last `/`.
fn before_last_slash(symbol: &str) -> &str {
    match symbol.rsplit_once('/') {
        None => "",
        Some((prefix, _)) => prefix,
    }
}

/// What most symbols of a document begin with: the front of its middle entry's symbol. Of one without a front, what is
/// before the last `/`.
fn common_prefix<D: DocumentParts>(document: &D) -> &str {
    let count = document.entry_count();
    if count == 0 {
        return "";
    }
    let entry = document.entry(count / 2);
    if entry.symbol.front.is_empty() {
        return before_last_slash(entry.symbol.rest);
    }
    entry.symbol.front
}

/// The bytes of a document's record, of which none is put yet, with room for this many.
fn begun_with<D: DocumentParts>(
    alloc: Global,
    document: &D,
    room: usize,
) -> Result<Shortened, AllocError>
    ensures { IfOk result (IsBegun room) }
{
    let prefix = common_prefix(document).as_bytes();
    let places = if prefix.is_empty() {
        0
    } else {
        symbol_count(document)
    };
    Shortened::with_room(alloc, prefix, room, places)
}

/// A document's record, as in the spelling of an index, with its tag and length. The document lets go of its
/// occurrences as soon as they are spelled: until then, only their part of the record's memory is touched.
///
/// An error means that memory was refused. Then the document is as it was.
pub fn spell_document<D: DocumentParts>(
    alloc: Global,
    document: &mut D,
) -> Result<DocumentRecord, AllocError>
    ensures bytes { IfOk result (λ bytes. bytes ≡ document_record (D.document document.old)) }
    ensures known { IsFitDocument (D.document document.old) }
    ensures let_go { OnOk result (D.document document.new ≡ without_occurrences (D.document document.old)) }
    ensures err { OnErr result (document.new ≡ document.old) }
{
    let len = DocumentMessage {
        document: &*document,
    }
    .encoded_len();
    let room = record_len(2, len) as usize;
    let mut bytes = begun_with(alloc, &*document, room)?;
    encode_and_let_go(alloc, document, &mut bytes, &mut (), len);
    Ok(DocumentRecord::new(bytes, room))
}

/// The length of records, up to `u64::MAX`.
fn records_len(records: &[DocumentRecord]) -> u64
    ensures { result ≡ saturated (length (concat records.now)) }
{
    let mut len = 0u64;
    'records: for record in records {
        len = len.saturating_add(record.len() as u64);
    }
    len
}

/// The length of an index in pieces, up to `u64::MAX`. Takes no memory.
pub(crate) fn pieces_len(
    metadata: &Option<Metadata>,
    documents: &[DocumentRecord],
    external_symbols: &Sequence<SymbolInformation>,
) -> u64
    ensures value { result ≡ saturated (length (joined_pieces metadata.now documents.now external_symbols.now)) }
    ensures known { IfSome metadata.now IsFitMetadata }
    ensures known_externals { All IsFitInfo external_symbols.now }
{
    let front = optional_message_len(1, metadata);
    let middle = records_len(documents);
    let back = messages_len(3, external_symbols);
    front.saturating_add(middle).saturating_add(back)
}

/// Puts records that are spelled.
fn encode_records<W, O: Output<W>>(out: &mut O, sink: &mut W, records: &[DocumentRecord])
    ensures { IsPut O.holds sink.old out.old sink.new out.new (concat records.now) }
{
    'records: for record in records {
        record.put(out, sink);
    }
}

/// Puts an index in pieces.
pub(crate) fn encode_pieces<W, O: Output<W>>(
    out: &mut O,
    sink: &mut W,
    metadata: &Option<Metadata>,
    documents: &[DocumentRecord],
    external_symbols: &Sequence<SymbolInformation>,
)
    requires { length (joined_pieces metadata.now documents.now external_symbols.now) ≤ max_index_len }
    ensures { IsPut O.holds sink.old out.old sink.new out.new (joined_pieces metadata.now documents.now
        external_symbols.now) }
{
    encode_optional_message(out, sink, 1, metadata);
    encode_records(out, sink, documents);
    encode_messages(out, sink, 3, external_symbols);
}
