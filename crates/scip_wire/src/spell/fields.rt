//! The records of fields: of bytes, of texts and of numbers.

ghost use Rattle.std.specs.Prelude.{◌≡◌, ◌≤◌, ◌+◌, ◌*◌, List, ℕ, [], ◌∷◌, length, All, IsUtf8};
ghost use Rattle.scip_wire.specs.Fields.{max_field_number};
ghost use Rattle.scip_wire.specs.Spelling.{
  bytes_of,
  bytes_field,
  text_fields,
  int_fields,
  repeated_text_fields,
  in_64_bits,
};
ghost use Rattle.scip_wire.specs.Saturated.{saturated, fields_len};
ghost use Rattle.scip_wire.specs.Outputs.{IsPut};

use super::output::Output;
use super::varint::{encode_varint, varint_len};
use basics::{OwnedText, Sequence};
use scip_records::TextsRef;

/// The length of a record with so many bytes, with its tag and length.
pub(super) fn record_len(number: u64, len: u64) -> u64
    requires { number ≤ max_field_number }
    ensures { (bytes : List ℕ) → len ≡ saturated (length bytes) → result ≡ saturated (fields_len (bytes_field number
        bytes ∷ [])) }
{
    let front = varint_len(8 * number + 2) + varint_len(len);
    len.saturating_add(front)
}

/// The length of a record of this text, which may be empty.
fn element_len(number: u64, text: &str) -> u64
    requires { number ≤ max_field_number }
    ensures value { result ≡ saturated (fields_len (bytes_field number text.now ∷ [])) }
    ensures fit { IsUtf8 text.now }
{
    record_len(number, text.len() as u64)
}

/// Puts a record of these bytes.
pub(super) fn encode_record<W, O: Output<W>>(out: &mut O, sink: &mut W, number: u64, bytes: &[u8])
    requires { number ≤ max_field_number }
    ensures { IsPut O.holds sink.old out.old sink.new out.new (bytes_of (bytes_field number bytes.now ∷ [])) }
{
    encode_varint(out, sink, 8 * number + 2);
    encode_varint(out, sink, bytes.len() as u64);
    out.put(sink, bytes);
}

/// The length of a lent text's record, which an empty text doesn't have.
pub(super) fn ref_len(number: u64, text: &str) -> u64
    requires { number ≤ max_field_number }
    ensures value { result ≡ saturated (fields_len (text_fields number text.now)) }
    ensures fit { IsUtf8 text.now }
{
    let len = element_len(number, text);
    if text.is_empty() { 0 } else { len }
}

/// Puts a lent text's record, which an empty text doesn't have.
pub(super) fn encode_ref<W, O: Output<W>>(out: &mut O, sink: &mut W, number: u64, text: &str)
    requires { number ≤ max_field_number }
    ensures { IsPut O.holds sink.old out.old sink.new out.new (bytes_of (text_fields number text.now)) }
{
    let bytes = text.as_bytes();
    if !bytes.is_empty() {
        encode_record(out, sink, number, bytes);
    }
}

/// The length of a text's record, which an empty text doesn't have.
pub(super) fn text_len(number: u64, text: &OwnedText) -> u64
    requires { number ≤ max_field_number }
    ensures value { result ≡ saturated (fields_len (text_fields number text.now)) }
    ensures fit { IsUtf8 text.now }
{
    ref_len(number, text.as_str())
}

/// Puts a text's record, which an empty text doesn't have.
pub(super) fn encode_text<W, O: Output<W>>(out: &mut O, sink: &mut W, number: u64, text: &OwnedText)
    requires { number ≤ max_field_number }
    ensures { IsPut O.holds sink.old out.old sink.new out.new (bytes_of (text_fields number text.now)) }
{
    encode_ref(out, sink, number, text.as_str());
}

/// The length of the records of a repeated text.
pub(super) fn texts_len(number: u64, texts: &Sequence<OwnedText>) -> u64
    requires { number ≤ max_field_number }
    ensures value { result ≡ saturated (fields_len (repeated_text_fields number texts.now)) }
    ensures fit { All IsUtf8 texts.now }
{
    slice_len(number, texts.as_slice())
}

/// The length of the records of texts.
fn slice_len(number: u64, texts: &[OwnedText]) -> u64
    requires { number ≤ max_field_number }
    ensures value { result ≡ saturated (fields_len (repeated_text_fields number texts.now)) }
    ensures fit { All IsUtf8 texts.now }
{
    let mut len = 0u64;
    'texts: for text in texts {
        len = len.saturating_add(element_len(number, text.as_str()));
    }
    len
}

/// Puts the records of a repeated text.
pub(super) fn encode_texts<W, O: Output<W>>(
    out: &mut O,
    sink: &mut W,
    number: u64,
    texts: &Sequence<OwnedText>,
)
    requires { number ≤ max_field_number }
    ensures { IsPut O.holds sink.old out.old sink.new out.new (bytes_of (repeated_text_fields number texts.now)) }
{
    encode_slice(out, sink, number, texts.as_slice());
}

/// Puts the records of texts.
fn encode_slice<W, O: Output<W>>(out: &mut O, sink: &mut W, number: u64, texts: &[OwnedText])
    requires { number ≤ max_field_number }
    ensures { IsPut O.holds sink.old out.old sink.new out.new (bytes_of (repeated_text_fields number texts.now)) }
{
    'texts: for text in texts {
        encode_record(out, sink, number, text.as_str().as_bytes());
    }
}

/// The length of the records of lent texts.
pub(super) fn texts_ref_len(number: u64, texts: &TextsRef<'_>) -> u64
    requires { number ≤ max_field_number }
    ensures value { result ≡ saturated (fields_len (repeated_text_fields number texts.now)) }
    ensures fit { All IsUtf8 texts.now }
{
    let (listed, first, second) = texts.parts();
    let len = slice_len(number, listed);
    let first_len = ref_len(number, first);
    let second_len = ref_len(number, second);
    len.saturating_add(first_len.saturating_add(second_len))
}

/// Puts the records of lent texts.
pub(super) fn encode_texts_ref<W, O: Output<W>>(
    out: &mut O,
    sink: &mut W,
    number: u64,
    texts: &TextsRef<'_>,
)
    requires { number ≤ max_field_number }
    ensures { IsPut O.holds sink.old out.old sink.new out.new (bytes_of (repeated_text_fields number texts.now)) }
{
    let (listed, first, second) = texts.parts();
    encode_slice(out, sink, number, listed);
    encode_ref(out, sink, number, first);
    encode_ref(out, sink, number, second);
}

/// An int32 or an enum in 64 bits, as its varint has it.
fn in_64_bits(value: i32) -> u64
    ensures { result ≡ in_64_bits value }
{
    i64::from(value).cast_unsigned()
}

/// The length of a number's record, which 0 doesn't have.
pub(super) fn int_len(number: u64, value: i32) -> u64
    requires { number ≤ max_field_number }
    ensures { result ≡ saturated (fields_len (int_fields number value)) }
{
    if value == 0 {
        0
    } else {
        varint_len(8 * number) + varint_len(in_64_bits(value))
    }
}

/// Puts a number's record, which 0 doesn't have.
pub(super) fn encode_int<W, O: Output<W>>(out: &mut O, sink: &mut W, number: u64, value: i32)
    requires { number ≤ max_field_number }
    ensures { IsPut O.holds sink.old out.old sink.new out.new (bytes_of (int_fields number value)) }
{
    let bits = in_64_bits(value);
    if bits != 0 {
        encode_varint(out, sink, 8 * number);
        encode_varint(out, sink, bits);
    }
}
