//! The Protocol Buffers encoding of SCIP indexes.
#![tactic(auto)]

// Writing an index, whole or in pieces.
mod pieces;
mod spell;
mod write;
mod write_fault;

// Reading one.
mod read;
mod wire_fault;

// The laws.
mod laws;

pub use laws::{
    bytes_decode_or_have_a_fault, bytes_decode_to_one_index, bytes_have_one_field_list,
    no_fault_where_bytes_decode, no_varint_is_cut_or_over, one_fault_of_bytes,
    spelling_decodes_to_its_index, spelling_is_of_pieces,
};
pub use pieces::write_pieces;
pub use read::read_index;
pub use spell::{DocumentRecord, spell_document};
pub use wire_fault::WireFault;
pub use write::{MAX_INDEX_LEN, encoded_len, spell_index, write_index};
pub use write_fault::{TooLarge, WriteFault};
