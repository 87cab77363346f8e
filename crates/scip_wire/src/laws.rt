//! Laws of the encoding, each the contract of a function that does nothing.

ghost use Rattle.std.specs.Prelude.{◌≡◌, ◌≤◌, ◌⊎◌, ℕ, List, length, map};
ghost use Rattle.std.specs.List.{AllByRecursion};
ghost use Rattle.scip_records.specs.declared.records.Index.{Index};
ghost use Rattle.scip_wire.specs.Fields.{Field, HasFields, max_varint_len};
ghost use Rattle.scip_wire.specs.Decodes.{Decodes};
ghost use Rattle.scip_wire.specs.Refused.{NoVarint, NoIndex};
ghost use Rattle.scip_wire.specs.TenthByte.{IsByte, CutOrOver};
ghost use Rattle.scip_wire.specs.declared.wire_fault.WireFault.{WireFault};
ghost use Rattle.scip_wire.specs.Spelling.{document_record, joined_pieces, spelling_of, max_index_len};
ghost use Rattle.scip_wire.specs.WellFormed.{IsWellFormed};

/// Bytes have at most one field list (Protocol Buffers encoding).
pub fn bytes_have_one_field_list()
    ensures { (bytes : List ℕ) (fields others : List Field) → HasFields bytes fields → HasFields bytes others
        → fields ≡ others }
{}

/// Bytes decode to at most one index.
pub fn bytes_decode_to_one_index()
    ensures { (bytes : List ℕ) (index other : Index) → Decodes bytes index → Decodes bytes other → index ≡ other }
{}

/// Bytes that begin with no varint end before its last one, or the tenth is over 1 (Protocol Buffers encoding, Base 128
/// Varints).
pub fn no_varint_is_cut_or_over()
    ensures found { (start : ℕ) (bytes : List ℕ) (fault : WireFault) → AllByRecursion IsByte bytes
        → NoVarint start max_varint_len bytes fault → CutOrOver start bytes fault }
    ensures only { (start : ℕ) (bytes : List ℕ) (fault : WireFault) → CutOrOver start bytes fault
        → NoVarint start max_varint_len bytes fault }
{}

/// Bytes are refused with at most one fault.
pub fn one_fault_of_bytes()
    ensures { (bytes : List ℕ) (fault other : WireFault) → NoIndex bytes fault → NoIndex bytes other → fault ≡ other }
{}

/// Bytes that decode to an index are refused with no fault.
pub fn no_fault_where_bytes_decode()
    ensures { (bytes : List ℕ) (fault : WireFault) (index : Index) → NoIndex bytes fault → ¬ (Decodes bytes index) }
{}

/// Bytes decode to an index, or are refused with a fault.
pub fn bytes_decode_or_have_a_fault()
    ensures { (bytes : List ℕ) → ((index : Index) × Decodes bytes index) ⊎ ((fault : WireFault) × NoIndex bytes fault) }
{}

/// The spelling of an index of at most `MAX_INDEX_LEN` bytes decodes to it.
///
/// `IsWellFormed` is what the types of the records know of every index: `encoded_len` says so of
/// the index that it is given.
pub fn spelling_decodes_to_its_index()
    ensures { (i : Index) → IsWellFormed i → length (spelling_of i) ≤ max_index_len → Decodes (spelling_of i) i }
{}

/// The spelling of an index is that of its pieces: its metadata's record, one of each document, and those
/// of its external entries, one after another.
pub fn spelling_is_of_pieces()
    ensures { (i : Index) → spelling_of i ≡ joined_pieces i.metadata (map document_record i.documents)
        i.external_symbols }
{}
