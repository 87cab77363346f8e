//! Occurrences.

ghost use Rattle.std.specs.Prelude.{◌≡◌, ◌≤◌, length};
ghost use Rattle.scip_wire.specs.Gives.{Blames, Gives};
ghost use Rattle.scip_wire.specs.Reading.{occurrence_after};
ghost use Rattle.scip_wire.specs.Blamed.{occurrence_fault};

use crate::read::field::{Field, Payload};
use crate::read::message::{Decode, read_message};
use crate::read::numbers::Numbers;
use crate::read::range::{add_packed, add_readable, range_in};
use crate::read::text::{add, low_bits, number_of, take_text};
use crate::wire_fault::WireFault;
use basics::{OwnedText, Sequence};
use scip_records::Occurrence;
use std::alloc::Global;

/// An occurrence's parts, before its ranges are made of their numbers.
#[derive(Drop)]
pub struct OccurrenceParts {
    pub numbers: Numbers,
    pub symbol: OwnedText,
    pub symbol_roles: i32,
    pub around: Numbers,
}

impl Decode for OccurrenceParts {
    ghost use Rattle.scip_wire.specs.Reading.{no_parts, occurrence_step};
    ghost use Rattle.scip_wire.specs.Blamed.{occurrence_step_fault};

    ghost none = { no_parts };

    ghost step = { occurrence_step };

    ghost step_fault = { occurrence_step_fault };

    fn empty(alloc: Global) -> OccurrenceParts {
        OccurrenceParts {
            numbers: Numbers::new(alloc),
            symbol: OwnedText::new(alloc),
            symbol_roles: 0,
            around: Numbers::new(alloc),
        }
    }

    #[tactic(auto, unfolding(crate::specs::Blamed::occurrence_step_fault, crate::specs::Reading::occurrence_step, crate::specs::Reading::parted, crate::specs::Reading::both, crate::specs::Reading::column), using(crate::proofs::DecodesLemmas::fold_of_packed))]
    fn merge_field(
        &mut self,
        alloc: Global,
        field: Field<'_>,
        start: usize,
        _end: usize,
    ) -> Result<(), WireFault> {
        match (field.number, field.payload) {
            (1, Payload::Varint(value)) => Ok(self.numbers.push(low_bits(value))?),
            (1, Payload::Delimited(bytes)) => add_packed(&mut self.numbers, bytes, start),
            (2, Payload::Delimited(bytes)) => take_text(alloc, &mut self.symbol, bytes, start),
            (3, Payload::Varint(value)) => {
                self.symbol_roles = number_of(value);
                Ok(())
            }
            (7, Payload::Varint(value)) => Ok(self.around.push(low_bits(value))?),
            (7, Payload::Delimited(bytes)) => add_readable(&mut self.around, bytes),
            _ => Ok(()),
        }
    }
}

/// Adds the occurrence that the bytes hold, which end at `end` in the input; its record is at
/// `start`. One without range numbers isn't added. After an error the occurrences are of no use.
#[tactic(auto, unfolding(crate::specs::Blamed::occurrence_fault, crate::specs::Blamed::parts_fault, crate::specs::Reading::occurrence_at, crate::specs::Reading::occurrence_of, crate::specs::Reading::parts_at))]
pub fn add_occurrence(
    alloc: Global,
    occurrences: &mut Sequence<Occurrence>,
    bytes: &[u8],
    start: usize,
    end: usize,
) -> Result<(), WireFault>
    requires { length bytes.now ≤ end }
    ensures reads { Gives (λ _. occurrences.new) result (occurrence_after occurrences.old bytes.now) }
    ensures fault { Blames result (occurrence_fault start end bytes.now) }
{
    let parts: OccurrenceParts = read_message(alloc, bytes, end)?;
    let OccurrenceParts {
        numbers,
        symbol,
        symbol_roles,
        around,
    } = parts;
    if numbers.is_empty() {
        return Ok(());
    }
    let Some(range) = range_in(&numbers) else {
        return Err(WireFault::BadRange(start));
    };
    let occurrence = Occurrence {
        range,
        symbol,
        symbol_roles,
        enclosing_range: range_in(&around),
    };
    Ok(add(occurrences, occurrence)?)
}
