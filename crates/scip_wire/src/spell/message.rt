//! Messages inside messages.

ghost use Rattle.std.specs.Prelude.{◌≡◌, ◌^◌, ◌<◌, ◌≤◌, List, [], ◌∷◌, All, IfSome};
ghost use Rattle.scip_wire.specs.Fields.{Field, max_field_number};
ghost use Rattle.scip_wire.specs.Spelling.{bytes_of, bytes_field, optional_message_fields, repeated_message_fields};
ghost use Rattle.scip_wire.specs.Saturated.{saturated, fields_len};
ghost use Rattle.scip_wire.specs.Outputs.{IsPut};

use super::fields::record_len;
use super::output::Output;
use super::varint::encode_varint;
use basics::Sequence;

/// A record of an index, as a message of `scip.proto`.
pub(crate) trait Encode {
    // Its fields, by rising number.
    ghost fields: { Self → List Field };

    // What its type knows of it.
    ghost is_fit: { Self → Type 0 };

    /// The length of its spelling, up to `u64::MAX`.
    fn encoded_len(&self) -> u64
        ensures value { result ≡ saturated (fields_len (fields self.now)) }
        ensures fit { is_fit self.now };

    /// Puts its spelling.
    fn encode<W, O: Output<W>>(&self, out: &mut O, sink: &mut W)
        requires { fields_len (fields self.now) < 2 ^ 64 }
        ensures { IsPut O.holds sink.old out.old sink.new out.new (bytes_of (fields self.now)) };
}

/// The length of a message's record.
pub(super) fn message_len<M: Encode>(number: u64, message: &M) -> u64
    requires { number ≤ max_field_number }
    ensures value { result ≡ saturated (fields_len (bytes_field number (bytes_of (M.fields message.now)) ∷ [])) }
    ensures fit { M.is_fit message.now }
{
    record_len(number, message.encoded_len())
}

/// Puts a message's record. The message has this length.
fn encode_message_of_len<M: Encode, W, O: Output<W>>(
    out: &mut O,
    sink: &mut W,
    number: u64,
    message: &M,
    len: u64,
)
    requires number { number ≤ max_field_number }
    requires len { len ≡ fields_len (M.fields message.now) }
    ensures { IsPut O.holds sink.old out.old sink.new out.new (bytes_of (bytes_field number
        (bytes_of (M.fields message.now)) ∷ [])) }
{
    encode_varint(out, sink, 8 * number + 2);
    encode_varint(out, sink, len);
    message.encode(out, sink);
}

/// Puts a message's record.
pub(super) fn encode_message<M: Encode, W, O: Output<W>>(
    out: &mut O,
    sink: &mut W,
    number: u64,
    message: &M,
)
    requires number { number ≤ max_field_number }
    requires short { fields_len (M.fields message.now) < 2 ^ 64 }
    ensures { IsPut O.holds sink.old out.old sink.new out.new (bytes_of (bytes_field number
        (bytes_of (M.fields message.now)) ∷ [])) }
{
    encode_message_of_len(out, sink, number, message, message.encoded_len());
}

/// The length of the record of a message that may be absent.
pub(super) fn optional_message_len<M: Encode>(number: u64, message: &Option<M>) -> u64
    requires { number ≤ max_field_number }
    ensures value { result ≡ saturated (fields_len (optional_message_fields number M.fields message.now)) }
    ensures fit { IfSome message.now M.is_fit }
{
    match message {
        Some(message) => message_len(number, message),
        None => 0,
    }
}

/// Puts the record of a message that may be absent.
pub(super) fn encode_optional_message<M: Encode, W, O: Output<W>>(
    out: &mut O,
    sink: &mut W,
    number: u64,
    message: &Option<M>,
)
    requires number { number ≤ max_field_number }
    requires short { fields_len (optional_message_fields number M.fields message.now) < 2 ^ 64 }
    ensures { IsPut O.holds sink.old out.old sink.new out.new (bytes_of (optional_message_fields number M.fields
        message.now)) }
{
    if let Some(message) = message {
        encode_message(out, sink, number, message);
    }
}

/// The length of the records of a repeated message.
pub(super) fn messages_len<M: Encode>(number: u64, messages: &Sequence<M>) -> u64
    requires { number ≤ max_field_number }
    ensures value { result ≡ saturated (fields_len (repeated_message_fields number M.fields messages.now)) }
    ensures fit { All M.is_fit messages.now }
{
    slice_len(number, messages.as_slice())
}

/// The length of the records of messages.
fn slice_len<M: Encode>(number: u64, messages: &[M]) -> u64
    requires { number ≤ max_field_number }
    ensures value { result ≡ saturated (fields_len (repeated_message_fields number M.fields messages.now)) }
    ensures fit { All M.is_fit messages.now }
{
    let mut len = 0u64;
    'messages: for message in messages {
        len = len.saturating_add(message_len(number, message));
    }
    len
}

/// Puts the records of a repeated message.
pub(super) fn encode_messages<M: Encode, W, O: Output<W>>(
    out: &mut O,
    sink: &mut W,
    number: u64,
    messages: &Sequence<M>,
)
    requires number { number ≤ max_field_number }
    requires short { fields_len (repeated_message_fields number M.fields messages.now) < 2 ^ 64 }
    ensures { IsPut O.holds sink.old out.old sink.new out.new (bytes_of (repeated_message_fields number M.fields
        messages.now)) }
{
    encode_slice(out, sink, number, messages.as_slice());
}

/// Puts the records of messages.
fn encode_slice<M: Encode, W, O: Output<W>>(out: &mut O, sink: &mut W, number: u64, messages: &[M])
    requires number { number ≤ max_field_number }
    requires short { fields_len (repeated_message_fields number M.fields messages.now) < 2 ^ 64 }
    ensures { IsPut O.holds sink.old out.old sink.new out.new (bytes_of (repeated_message_fields number M.fields
        messages.now)) }
{
    'messages: for message in messages {
        encode_message(out, sink, number, message);
    }
}
