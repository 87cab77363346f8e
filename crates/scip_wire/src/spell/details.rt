//! The records of what is known of a symbol besides its documentation.

ghost use Rattle.std.specs.Prelude.{◌≡◌, ◌<◌, ◌≤◌, ◌^◌, length, FitsSigned, IsUtf8};
ghost use Rattle.std.specs.Int.{w32};
ghost use Rattle.scip_records.specs.Details.{details_if_any};
ghost use Rattle.scip_wire.specs.Fields.{max_field_number};
ghost use Rattle.scip_wire.specs.Spelling.{bytes_of, int_fields, signature_fields, text_fields};
ghost use Rattle.scip_wire.specs.Saturated.{saturated, fields_len};
ghost use Rattle.scip_wire.specs.Outputs.{IsPut};
ghost use Rattle.scip_wire.specs.WellFormed.{IsFitSignature};

use super::fields::{encode_int, encode_ref, int_len, record_len, ref_len};
use super::message::{Encode, encode_message};
use super::output::Output;
use super::symbols::{encode_symbol, symbol_len};
use scip_records::{DetailsRef, SignatureRef};

impl<'a> Encode for SignatureRef<'a> {
    ghost use Rattle.scip_wire.specs.Spelling.{signature_fields};
    ghost use Rattle.scip_wire.specs.WellFormed.{IsFitSignature};

    ghost fields = { signature_fields };

    ghost is_fit = { IsFitSignature };

    fn encoded_len(&self) -> u64 {
        let language = ref_len(4, self.language);
        let text = ref_len(5, self.text);
        language.saturating_add(text)
    }

    fn encode<W, O: Output<W>>(&self, out: &mut O, sink: &mut W) {
        encode_ref(out, sink, 4, self.language);
        encode_ref(out, sink, 5, self.text);
    }
}

/// The length of a kind's record, which 0 doesn't have.
pub(super) fn kind_len(number: u64, details: &Option<DetailsRef<'_>>) -> u64
    requires { number ≤ max_field_number }
    ensures value { result ≡ saturated (fields_len (int_fields number (details_if_any details.now).kind)) }
    ensures fit { FitsSigned w32 (details_if_any details.now).kind }
{
    match details {
        Some(details) => int_len(number, details.kind),
        None => 0,
    }
}

/// Puts a kind's record, which 0 doesn't have.
pub(super) fn encode_kind<W, O: Output<W>>(
    out: &mut O,
    sink: &mut W,
    number: u64,
    details: &Option<DetailsRef<'_>>,
)
    requires { number ≤ max_field_number }
    ensures { IsPut O.holds sink.old out.old sink.new out.new
        (bytes_of (int_fields number (details_if_any details.now).kind)) }
{
    if let Some(details) = details {
        encode_int(out, sink, number, details.kind);
    }
}

/// The length of the record of a signature that is there, which one without a language and a text doesn't have.
fn present_signature_len(number: u64, signature: &SignatureRef<'_>) -> u64
    requires { number ≤ max_field_number }
    ensures value { result ≡ saturated (fields_len (text_fields number
        (bytes_of (signature_fields signature.now)))) }
    ensures fit { IsFitSignature signature.now }
{
    let len = signature.encoded_len();
    if len == 0 { 0 } else { record_len(number, len) }
}

/// The length of a signature's record, which one without a language and a text doesn't have.
pub(super) fn signature_len(number: u64, details: &Option<DetailsRef<'_>>) -> u64
    requires { number ≤ max_field_number }
    ensures value { result ≡ saturated (fields_len (text_fields number
        (bytes_of (signature_fields (details_if_any details.now).signature)))) }
    ensures fit { IsFitSignature (details_if_any details.now).signature }
{
    match details {
        Some(details) => present_signature_len(number, &details.signature),
        None => 0,
    }
}

/// Puts the record of a signature that is there, which one without a language and a text doesn't have.
fn encode_present_signature<W, O: Output<W>>(
    out: &mut O,
    sink: &mut W,
    number: u64,
    signature: &SignatureRef<'_>,
)
    requires number { number ≤ max_field_number }
    requires short { fields_len (signature_fields signature.now) < 2 ^ 64 }
    ensures { IsPut O.holds sink.old out.old sink.new out.new (bytes_of (text_fields number
        (bytes_of (signature_fields signature.now)))) }
{
    if signature.encoded_len() != 0 {
        encode_message(out, sink, number, signature);
    }
}

/// Puts a signature's record, which one without a language and a text doesn't have.
pub(super) fn encode_signature<W, O: Output<W>>(
    out: &mut O,
    sink: &mut W,
    number: u64,
    details: &Option<DetailsRef<'_>>,
)
    requires number { number ≤ max_field_number }
    requires short { fields_len (signature_fields (details_if_any details.now).signature) < 2 ^ 64 }
    ensures { IsPut O.holds sink.old out.old sink.new out.new (bytes_of (text_fields number
        (bytes_of (signature_fields (details_if_any details.now).signature)))) }
{
    if let Some(details) = details {
        encode_present_signature(out, sink, number, &details.signature);
    }
}

/// The length of an enclosing symbol's record, which an empty one doesn't have.
pub(super) fn enclosing_symbol_len(number: u64, details: &Option<DetailsRef<'_>>) -> u64
    requires { number ≤ max_field_number }
    ensures value { result ≡ saturated (fields_len (text_fields number
        (details_if_any details.now).enclosing_symbol)) }
    ensures fit { IsUtf8 (details_if_any details.now).enclosing_symbol }
{
    match details {
        Some(details) => symbol_len(number, &details.enclosing_symbol),
        None => 0,
    }
}

/// Puts an enclosing symbol's record, which an empty one doesn't have.
pub(super) fn encode_enclosing_symbol<W, O: Output<W>>(
    out: &mut O,
    sink: &mut W,
    number: u64,
    details: &Option<DetailsRef<'_>>,
)
    requires number { number ≤ max_field_number }
    requires short { length (details_if_any details.now).enclosing_symbol < 2 ^ 64 }
    ensures { IsPut O.holds sink.old out.old sink.new out.new (bytes_of (text_fields number
        (details_if_any details.now).enclosing_symbol)) }
{
    if let Some(details) = details {
        encode_symbol(out, sink, number, &details.enclosing_symbol);
    }
}
