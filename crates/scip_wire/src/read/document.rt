//! Documents.

ghost use Rattle.std.specs.Prelude.{◌≡◌, ◌≤◌, length};
ghost use Rattle.scip_wire.specs.Gives.{Blames, Gives};
ghost use Rattle.scip_wire.specs.Reading.{no_document, document_step, document_at, more_after};
ghost use Rattle.scip_wire.specs.Blamed.{document_step_fault, document_fault};

use crate::read::field::{Field, Payload};
use crate::read::message::{Decode, add_message, read_message};
use crate::read::occurrence::add_occurrence;
use crate::read::text::{add, number_of, take_text};
use crate::wire_fault::WireFault;
use basics::{OwnedText, Sequence};
use scip_records::Document;
use std::alloc::Global;

impl Decode for Document {
    ghost none = { no_document };

    ghost step = { document_step };

    ghost step_fault = { document_step_fault };

    fn empty(alloc: Global) -> Document {
        Document {
            relative_path: OwnedText::new(alloc),
            occurrences: Sequence::new(alloc),
            symbols: Sequence::new(alloc),
            language: OwnedText::new(alloc),
            position_encoding: 0,
        }
    }

    #[tactic(auto, unfolding(crate::specs::Blamed::document_step_fault, crate::specs::Blamed::info_fault, crate::specs::Reading::document_step, crate::specs::Reading::info_at, crate::specs::Reading::parted, crate::specs::Reading::both, crate::specs::Reading::column, crate::specs::Reading::more_after))]
    fn merge_field(
        &mut self,
        alloc: Global,
        field: Field<'_>,
        start: usize,
        end: usize,
    ) -> Result<(), WireFault> {
        match (field.number, field.payload) {
            (1, Payload::Delimited(bytes)) => take_text(
                alloc,
                &mut self.relative_path,
                bytes,
                start,
            ),
            (2, Payload::Delimited(bytes)) => add_occurrence(
                alloc,
                &mut self.occurrences,
                bytes,
                start,
                end,
            ),
            (3, Payload::Delimited(bytes)) => add_message(alloc, &mut self.symbols, bytes, end),
            (4, Payload::Delimited(bytes)) => take_text(alloc, &mut self.language, bytes, start),
            (6, Payload::Varint(value)) => {
                self.position_encoding = number_of(value);
                Ok(())
            }
            _ => Ok(()),
        }
    }
}

/// A list that takes no more memory than its items need. It is made by pushes, which leave room for more.
fn without_spare_room<T>(list: Sequence<T>) -> Sequence<T>
    ensures { result ≡ list }
{
    let mut items = list.into_vec();
    items.shrink_to(0);
    Sequence::from_vec(items)
}

/// A document whose lists take no more memory than their items need: an index keeps all its documents.
fn fitted(document: Document) -> Document
    ensures { result ≡ document }
{
    let Document {
        relative_path,
        occurrences,
        symbols,
        language,
        position_encoding,
    } = document;
    Document {
        relative_path,
        occurrences: without_spare_room(occurrences),
        symbols: without_spare_room(symbols),
        language,
        position_encoding,
    }
}

/// Adds the document that the bytes hold, which end at `end` in the input. After an error the documents are of no use.
#[tactic(auto, unfolding(crate::specs::Reading::more_after, crate::specs::Reading::document_at, crate::specs::Blamed::document_fault))]
pub fn add_document(
    alloc: Global,
    documents: &mut Sequence<Document>,
    bytes: &[u8],
    end: usize,
) -> Result<(), WireFault>
    requires { length bytes.now ≤ end }
    ensures reads { Gives (λ _. documents.new) result (more_after document_at documents.old bytes.now) }
    ensures fault { Blames result (document_fault end bytes.now) }
{
    let document: Document = read_message(alloc, bytes, end)?;
    Ok(add(documents, fitted(document))?)
}
