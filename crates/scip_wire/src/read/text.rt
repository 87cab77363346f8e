//! Texts and numbers of fields.

ghost use Rattle.std.specs.Prelude.{◌≡◌, ◌++◌, [], ◌∷◌, OnOk};
ghost use Rattle.scip_wire.specs.Gives.{Blames, Gives};
ghost use Rattle.scip_wire.specs.Decodes.{low_32_bits};
ghost use Rattle.scip_wire.specs.Reading.{text_at, text_after, number_at};

use crate::wire_fault::WireFault;
use basics::{OwnedText, Sequence};
use std::alloc::{AllocError, Global};
use std::str;

/// The text of a field, whose record is at `start` in the input.
#[tactic(auto, unfolding(crate::specs::Reading::text_at), using(crate::proofs::TextLemmas::text_of_utf8, crate::proofs::TextLemmas::none_of_others))]
pub fn text_of(alloc: Global, bytes: &[u8], start: usize) -> Result<OwnedText, WireFault>
    ensures reads { Gives (λ t. t) result (text_at bytes.now) }
    ensures fault { Blames result (WireFault.Utf8 start) }
{
    match str::from_utf8(bytes) {
        Ok(text) => Ok(OwnedText::from_string(String::from_str(alloc, text)?)),
        Err(_) => Err(WireFault::Utf8(start)),
    }
}

/// Puts the text of a field, whose record is at `start` in the input, in the place of an earlier one.
#[tactic(auto)]
pub fn take_text(
    alloc: Global,
    text: &mut OwnedText,
    bytes: &[u8],
    start: usize,
) -> Result<(), WireFault>
    ensures reads { Gives (λ _. text.new) result (text_at bytes.now) }
    ensures fault { Blames result (WireFault.Utf8 start) }
{
    *text = text_of(alloc, bytes, start)?;
    Ok(())
}

/// Adds an item at the end.
pub fn add<T: Drop>(list: &mut Sequence<T>, item: T) -> Result<(), AllocError>
    ensures { OnOk result (list.new ≡ list.old ++ item ∷ []) }
{
    list.push(item)?;
    Ok(())
}

/// Adds the text of a field, whose record is at `start` in the input. After an error the texts are
/// of no use.
#[tactic(auto, unfolding(crate::specs::Reading::more_after))]
pub fn add_text(
    alloc: Global,
    texts: &mut Sequence<OwnedText>,
    bytes: &[u8],
    start: usize,
) -> Result<(), WireFault>
    ensures reads { Gives (λ _. texts.new) result (text_after texts.old bytes.now) }
    ensures fault { Blames result (WireFault.Utf8 start) }
{
    Ok(add(texts, text_of(alloc, bytes, start)?)?)
}

/// The low 32 bits of a varint.
pub fn low_bits(value: u64) -> u32
    ensures { result ≡ low_32_bits value }
{
    (value % (1 << 32)) as u32
}

/// The int32 or enum of a varint: its low 32 bits, as a signed number (Protocol Buffers encoding,
/// Signed Integers).
pub fn number_of(value: u64) -> i32
    ensures { result ≡ number_at value }
{
    low_bits(value).cast_signed()
}
