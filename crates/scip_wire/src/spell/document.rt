//! The record of a document whose parts are lent one at a time.

ghost use Rattle.std.specs.Prelude.{◌≡◌, ◌<◌, ◌^◌, All};
ghost use Rattle.scip_records.specs.Documents.{without_occurrences};
ghost use Rattle.scip_wire.specs.Spelling.{
  bytes_of,
  document_fields,
  document_record,
  info_fields,
  occurrence_fields,
  repeated_message_fields,
};
ghost use Rattle.scip_wire.specs.Halves.{front_fields, back_fields};
ghost use Rattle.scip_wire.specs.Saturated.{saturated, fields_len};
ghost use Rattle.scip_wire.specs.Outputs.{IsPut};
ghost use Rattle.scip_wire.specs.WellFormed.{IsFitInfo, IsFitOccurrence};

use super::fields::{encode_int, encode_ref, int_len, ref_len};
use super::message::{Encode, encode_message, message_len};
use super::output::Output;
use super::varint::encode_varint;
use scip_records::DocumentParts;
use std::alloc::Global;

/// The length of the records of a document's occurrences.
fn occurrences_len<D: DocumentParts>(document: &D) -> u64
    ensures value { result ≡ saturated (fields_len (repeated_message_fields 2 occurrence_fields
        (D.document document.now).occurrences)) }
    ensures fit { All IsFitOccurrence (D.document document.now).occurrences }
{
    let mut len = 0u64;
    'numbers: for number in 0..document.occurrence_count() {
        len = len.saturating_add(message_len(2, &document.occurrence(number)));
    }
    len
}

/// Puts the records of a document's occurrences.
fn encode_occurrences<D: DocumentParts, W, O: Output<W>>(document: &D, out: &mut O, sink: &mut W)
    requires { fields_len (repeated_message_fields 2 occurrence_fields (D.document document.now).occurrences) < 2 ^ 64 }
    ensures { IsPut O.holds sink.old out.old sink.new out.new (bytes_of (repeated_message_fields 2 occurrence_fields
        (D.document document.now).occurrences)) }
{
    'numbers: for number in 0..document.occurrence_count() {
        encode_message(out, sink, 2, &document.occurrence(number));
    }
}

/// The length of the records of a document's entries.
fn entries_len<D: DocumentParts>(document: &D) -> u64
    ensures value { result ≡ saturated (fields_len (repeated_message_fields 3 info_fields
        (D.document document.now).symbols)) }
    ensures fit { All IsFitInfo (D.document document.now).symbols }
{
    let mut len = 0u64;
    'numbers: for number in 0..document.entry_count() {
        len = len.saturating_add(message_len(3, &document.entry(number)));
    }
    len
}

/// Puts the records of a document's entries.
fn encode_entries<D: DocumentParts, W, O: Output<W>>(document: &D, out: &mut O, sink: &mut W)
    requires { fields_len (repeated_message_fields 3 info_fields (D.document document.now).symbols) < 2 ^ 64 }
    ensures { IsPut O.holds sink.old out.old sink.new out.new (bytes_of (repeated_message_fields 3 info_fields
        (D.document document.now).symbols)) }
{
    'numbers: for number in 0..document.entry_count() {
        encode_message(out, sink, 3, &document.entry(number));
    }
}

/// Puts the records of a document's path and occurrences.
fn encode_front<D: DocumentParts, W, O: Output<W>>(document: &D, out: &mut O, sink: &mut W)
    requires { fields_len (front_fields (D.document document.now)) < 2 ^ 64 }
    ensures { IsPut O.holds sink.old out.old sink.new out.new (bytes_of (front_fields (D.document document.now))) }
{
    encode_ref(out, sink, 1, document.relative_path());
    encode_occurrences(document, out, sink);
}

/// Puts the records of what comes behind a document's occurrences.
fn encode_back<D: DocumentParts, W, O: Output<W>>(document: &D, out: &mut O, sink: &mut W)
    requires { fields_len (back_fields (D.document document.now)) < 2 ^ 64 }
    ensures { IsPut O.holds sink.old out.old sink.new out.new (bytes_of (back_fields (D.document document.now))) }
{
    encode_entries(document, out, sink);
    encode_ref(out, sink, 4, document.language());
    encode_int(out, sink, 6, document.position_encoding());
}

/// Puts a document's record, and lets go of its occurrences as soon as they are put. As a message it has this length.
pub(super) fn encode_and_let_go<D: DocumentParts, W, O: Output<W>>(
    alloc: Global,
    document: &mut D,
    out: &mut O,
    sink: &mut W,
    len: u64,
)
    requires len { len ≡ fields_len (document_fields (D.document document.old)) }
    requires short { fields_len (document_fields (D.document document.old)) < 2 ^ 64 }
    ensures put { IsPut O.holds sink.old out.old sink.new out.new (document_record (D.document document.old)) }
    ensures let_go { D.document document.new ≡ without_occurrences (D.document document.old) }
{
    encode_varint(out, sink, 8 * 2 + 2);
    encode_varint(out, sink, len);
    encode_front(&*document, out, sink);
    document.let_occurrences_go(alloc);
    encode_back(&*document, out, sink);
}

/// A document as a message, by its parts.
#[derive(Drop)]
pub(super) struct DocumentMessage<'a, D> {
    pub(super) document: &'a D,
}

impl<'a, D: DocumentParts> Encode for DocumentMessage<'a, D> {
    ghost use Rattle.scip_wire.specs.Spelling.{document_fields};
    ghost use Rattle.scip_wire.specs.WellFormed.{IsFitDocument};

    ghost fields = { λ message. document_fields (D.document message.document.now) };

    ghost is_fit = { λ message. IsFitDocument (D.document message.document.now) };

    fn encoded_len(&self) -> u64 {
        let relative_path = ref_len(1, self.document.relative_path());
        let occurrences = occurrences_len(self.document);
        let symbols = entries_len(self.document);
        let language = ref_len(4, self.document.language());
        let encoding = int_len(6, self.document.position_encoding());
        relative_path
            .saturating_add(occurrences)
            .saturating_add(symbols)
            .saturating_add(language)
            .saturating_add(encoding)
    }

    fn encode<W, O: Output<W>>(&self, out: &mut O, sink: &mut W) {
        encode_front(self.document, out, sink);
        encode_back(self.document, out, sink);
    }
}
