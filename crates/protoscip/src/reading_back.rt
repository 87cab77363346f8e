//! An index, by its bytes.

ghost use Rattle.std.specs.Prelude.{MatchResult};
ghost use Rattle.protoscip.specs.Writing.{IsReadBack, IsNotReadBack};

use crate::fault::Fault;
use scip_records::Index;
use scip_wire::{bytes_decode_to_one_index, encoded_len, spelling_decodes_to_its_index};

/// The index that an index's bytes decode to: itself. So they aren't made. Takes no memory.
///
/// `TooLarge`: it has more than `MAX_INDEX_LEN`.
pub(crate) fn read_back(index: Index) -> Result<Index, Fault>
    ensures { MatchResult result (IsReadBack index) (IsNotReadBack index) }
{
    spelling_decodes_to_its_index();
    bytes_decode_to_one_index();
    match encoded_len(&index) {
        Ok(_) => Ok(index),
        Err(_) => Err(Fault::TooLarge),
    }
}
