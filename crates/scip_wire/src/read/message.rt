//! Reading a message, record by record.

ghost use Rattle.std.specs.Prelude.{◌≡◌, ◌≤◌, length};
ghost use Rattle.scip_wire.specs.Gives.{Blames, Gives};
ghost use Rattle.scip_wire.specs.Reading.{fold_at, field_at, only_after, more_after};
ghost use Rattle.scip_wire.specs.Blamed.{message_fault, only_fault};
ghost use Rattle.scip_wire.specs.Fields.{Delimited};

use crate::read::field::{Field, read_field};
use crate::read::text::add;
use crate::wire_fault::WireFault;
use basics::Sequence;
use std::alloc::Global;

/// A message that is made of its records: one without fields, into which they are merged in turn.
pub trait Decode: Drop + Sized {
    ghost use Rattle.std.specs.Prelude.{◌≡◌, ◌≤◌, ℕ, Option};
    ghost use Rattle.scip_wire.specs.Fields.{Field};
    ghost use Rattle.scip_wire.specs.Gives.{Blames, Gives};
    ghost use Rattle.scip_wire.specs.declared.wire_fault.WireFault.{WireFault};
    ghost use Rattle.scip_wire.specs.Views.{payload_len, field_view};

    ghost none: { Self };

    ghost step: { Self → Field → Option Self };

    // The fault of a record that can't be merged, from its start up to its end.
    ghost step_fault: { Self → (start end : ℕ) → Field → WireFault };

    /// The message without fields. Takes no memory.
    fn empty(alloc: Global) -> Self
        ensures { result ≡ none };

    /// Merges a record of the input, from `start` up to `end`, into the message. A field that
    /// isn't known, or that has another wire type, changes nothing. After an error the message is
    /// of no use.
    fn merge_field(
        &mut self,
        alloc: Global,
        field: Field<'_>,
        start: usize,
        end: usize,
    ) -> Result<(), WireFault>
        requires { payload_len field.payload ≤ end }
        ensures reads { Gives (λ _. self.new) result (step self.old (field_view field.entry)) }
        ensures fault { Blames result (step_fault self.old start end (field_view field.entry)) };
}

/// The message that the bytes hold, which end at `end` in the input.
pub fn read_message<M: Decode>(alloc: Global, bytes: &[u8], end: usize) -> Result<M, WireFault>
    requires { length bytes.now ≤ end }
    ensures reads { Gives (λ m. m) result (fold_at field_at M.step bytes.now M.none) }
    ensures fault { Blames result (message_fault M.step M.step_fault end bytes.now M.none) }
{
    let mut message = M::empty(alloc);
    let mut rest = bytes;
    'records: while !rest.is_empty() {
        let start = end - rest.len();
        let (field, after) = read_field(rest, start)?;
        message.merge_field(alloc, field, start, end - after.len())?;
        rest = after;
    }
    Ok(message)
}

/// Puts the message of a field that comes at most once in its place. The bytes end at `end` in the input, and their
/// record is at `start`.
///
/// `Repeated` if there is an earlier one, whatever the bytes hold.
#[tactic(auto, using(crate::proofs::DecodesColumnLemmas::only_taken, crate::proofs::DecodesColumnLemmas::only_first, crate::proofs::BlamedFoldLemmas::only_again, crate::proofs::BlamedFoldLemmas::only_inside))]
pub fn take_only<M: Decode>(
    alloc: Global,
    place: &mut Option<M>,
    bytes: &[u8],
    start: usize,
    end: usize,
) -> Result<(), WireFault>
    requires { length bytes.now ≤ end }
    ensures reads { Gives (λ _. place.new) result (only_after (λ b. fold_at field_at M.step b M.none) place.old
        bytes.now) }
    ensures fault { Blames result
        (only_fault (λ end bytes. message_fault M.step M.step_fault end bytes M.none) start end place.old
        (Delimited bytes.now)) }
{
    if place.is_some() {
        return Err(WireFault::Repeated(start));
    }
    *place = Some(read_message(alloc, bytes, end)?);
    Ok(())
}

/// Adds the message that the bytes hold, which end at `end` in the input. After an error the
/// messages are of no use.
#[tactic(auto, unfolding(crate::specs::Reading::more_after))]
pub fn add_message<M: Decode>(
    alloc: Global,
    messages: &mut Sequence<M>,
    bytes: &[u8],
    end: usize,
) -> Result<(), WireFault>
    requires { length bytes.now ≤ end }
    ensures reads { Gives (λ _. messages.new) result (more_after (λ b. fold_at field_at M.step b M.none) messages.old
        bytes.now) }
    ensures fault { Blames result (message_fault M.step M.step_fault end bytes.now M.none) }
{
    Ok(add(messages, read_message(alloc, bytes, end)?)?)
}
