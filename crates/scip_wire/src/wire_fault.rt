//! Why bytes are no index.

ghost use Rattle.std.specs.Prelude.{◌≡◌};
ghost use Rattle.scip_wire.specs.WireFaults.{name_of, offset_of};

use std::alloc::AllocError;
use thiserror::Error;

/// Why bytes decode to no index.
///
/// An offset is that of the first byte of the innermost record that can't be read, counted in the
/// whole input. A record's length is checked before its content is read. Within one tag the order
/// is `Truncated`, `Varint`, `FieldZero`, `Group`, `WireType`.
#[derive(Clone, Copy, Debug, Drop, PartialEq, Eq, Error)]
pub enum WireFault {
    /// A tag, a varint or a payload runs past the end of the input, or of the message or packed
    /// range that holds it.
    #[error("a record that is cut off, at byte {0}")]
    Truncated(usize),
    /// A varint's tenth byte is over 1, or a tag is 4,294,967,296 or more.
    #[error("a number that is too large, at byte {0}")]
    Varint(usize),
    /// A field's number is 0.
    #[error("a field with the number 0, at byte {0}")]
    FieldZero(usize),
    /// A record is a group: wire type 3 or 4.
    #[error("a record that is a group, at byte {0}")]
    Group(usize),
    /// A record's wire type is 6 or 7.
    #[error("a record of no known wire type, at byte {0}")]
    WireType(usize),
    /// A second metadata or a second tool information.
    #[error("a record that may come only once, at byte {0}")]
    Repeated(usize),
    /// A known text, which is no detail, isn't UTF-8.
    #[error("a text that isn't UTF-8, at byte {0}")]
    Utf8(usize),
    /// An occurrence with one, two or more than four range numbers, or with a negative one. The offset is that of the
    /// occurrence's record. It comes after all its records were read.
    #[error("an occurrence whose range isn't three or four numbers from 0, at byte {0}")]
    BadRange(usize),
    /// Memory ran out.
    #[error("memory ran out")]
    Memory,
}

impl WireFault {
    /// The variant's name.
    pub fn name(&self) -> &'static str
        ensures { result.now ≡ name_of self.now }
    {
        match self {
            WireFault::Truncated(_) => "Truncated",
            WireFault::Varint(_) => "Varint",
            WireFault::FieldZero(_) => "FieldZero",
            WireFault::Group(_) => "Group",
            WireFault::WireType(_) => "WireType",
            WireFault::Repeated(_) => "Repeated",
            WireFault::Utf8(_) => "Utf8",
            WireFault::BadRange(_) => "BadRange",
            WireFault::Memory => "Memory",
        }
    }

    /// The offset that it names.
    pub fn offset(&self) -> Option<usize>
        ensures { result ≡ offset_of self.now }
    {
        match *self {
            WireFault::Truncated(offset)
            | WireFault::Varint(offset)
            | WireFault::FieldZero(offset)
            | WireFault::Group(offset)
            | WireFault::WireType(offset)
            | WireFault::Repeated(offset)
            | WireFault::Utf8(offset)
            | WireFault::BadRange(offset) => Some(offset),
            WireFault::Memory => None,
        }
    }
}

impl From<AllocError> for WireFault {
    ghost use Rattle.std.specs.Prelude.{◌≡◌};
    ghost use Rattle.scip_wire.specs.declared.wire_fault.WireFault.TheVariants.{Memory};

    ghost from_gives = { λ _ e. e ≡ Memory };

    fn from(_refused: AllocError) -> WireFault {
        WireFault::Memory
    }
}
