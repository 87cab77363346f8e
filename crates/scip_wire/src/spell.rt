//! The spelling of an index.

mod buffer;
mod details;
mod document;
mod document_record;
mod fields;
mod message;
mod output;
mod pieces;
mod range;
mod records;
mod shortened;
mod symbols;
mod varint;

pub(crate) use buffer::Buffer;
pub use document_record::DocumentRecord;
pub(crate) use message::Encode;
pub use pieces::spell_document;
pub(crate) use pieces::{encode_pieces, pieces_len};
