//! Why no index is read from a file.

ghost use Rattle.std.specs.Prelude.{◌≡◌, IfOk, string_bytes};
ghost use Rattle.programs.specs.IndexFaults.{
  line_of,
  line_with,
  no_index,
  nowhere,
  said_of,
  status_of,
  wire_said,
};

use crate::statuses::INDEX_STATUS;
use protoscip::{MEMORY_STATUS, STREAM_STATUS, path_line, placed_line, plain_line};
use scip_wire::WireFault;
use std::alloc::{AllocError, Global};

/// Why no index is read from a file. Memory may run out at any step.
#[derive(Clone, Copy, Debug, Drop)]
pub(crate) enum IndexFault {
    /// The file can't be read.
    Unreadable,
    /// Its bytes decode to no index.
    Wire(WireFault),
    /// Memory ran out.
    Memory,
}

impl From<AllocError> for IndexFault {
    ghost use Rattle.programs.specs.declared.index_fault.IndexFault.TheVariants.{Memory};

    ghost from_gives = { λ _ e. e ≡ Memory };

    fn from(_refused: AllocError) -> IndexFault {
        IndexFault::Memory
    }
}

impl From<WireFault> for IndexFault {
    ghost use Rattle.programs.specs.IndexFaults.{fault_of_wire};

    ghost from_gives = { λ fault e. e ≡ fault_of_wire fault };

    fn from(fault: WireFault) -> IndexFault {
        match fault {
            WireFault::Memory => IndexFault::Memory,
            _ => IndexFault::Wire(fault),
        }
    }
}

/// Where in the index's file the line of a fault says that it is.
#[derive(Clone, Copy)]
pub(crate) enum IndexPlace {
    /// Nowhere in it.
    Nowhere,
    /// In all of it.
    WholeFile,
    /// At an offset in bytes.
    Offset(usize),
}

/// What is said of why there is no index.
#[derive(Clone, Copy)]
pub(crate) struct IndexSaid {
    /// The name in its line: the variant's, or that of what it holds.
    pub(crate) name: &'static str,
    /// Where its line says that it is.
    pub(crate) place: IndexPlace,
    /// A sentence after a line end; nothing for lack of memory.
    pub(crate) explanation: &'static str,
    /// The exit status.
    pub(crate) status: u8,
}

/// What is said of a fault that is nowhere in the file.
fn nowhere(name: &'static str, explanation: &'static str, status: u8) -> IndexSaid
    ensures name { result.name.now ≡ (nowhere name.now explanation.now status).name }
    ensures place { result.place ≡ (nowhere name.now explanation.now status).place }
    ensures explanation { result.explanation.now ≡ (nowhere name.now explanation.now status).explanation }
    ensures status { result.status ≡ (nowhere name.now explanation.now status).status }
{
    IndexSaid {
        name,
        place: IndexPlace::Nowhere,
        explanation,
        status,
    }
}

/// What is said of bytes that decode to no index, at the offset of the record that can't be read.
fn no_index(name: &'static str, offset: usize, explanation: &'static str) -> IndexSaid
    ensures name { result.name.now ≡ (no_index name.now offset explanation.now).name }
    ensures place { result.place ≡ (no_index name.now offset explanation.now).place }
    ensures explanation { result.explanation.now ≡ (no_index name.now offset explanation.now).explanation }
    ensures status { result.status ≡ (no_index name.now offset explanation.now).status }
{
    IndexSaid {
        name,
        place: IndexPlace::Offset(offset),
        explanation,
        status: INDEX_STATUS,
    }
}

/// What is said of bytes that decode to no index, and of lack of memory for it.
fn wire_said(fault: WireFault) -> IndexSaid
    ensures name { result.name.now ≡ (wire_said fault).name }
    ensures place { result.place ≡ (wire_said fault).place }
    ensures explanation { result.explanation.now ≡ (wire_said fault).explanation }
    ensures status { result.status ≡ (wire_said fault).status }
{
    let name = fault.name();
    match fault {
        WireFault::Truncated(at) => {
            let explanation =
                "\nthis file is no SCIP index, or was cut off: the record here runs past the end";
            no_index(name, at, explanation)
        }
        WireFault::Varint(at) => {
            let explanation = "\nthis file is no SCIP index: the number here is too large";
            no_index(name, at, explanation)
        }
        WireFault::FieldZero(at) => {
            let explanation = "\nthis file is no SCIP index: no field has the number 0";
            no_index(name, at, explanation)
        }
        WireFault::Group(at) => {
            let explanation = "\nthis file is no SCIP index: the record here is a group";
            no_index(name, at, explanation)
        }
        WireFault::WireType(at) => {
            let explanation = "\nthis file is no SCIP index: no record has this wire type";
            no_index(name, at, explanation)
        }
        WireFault::Repeated(at) => {
            let explanation = "\nthis file is no SCIP index: the record here may come only once";
            no_index(name, at, explanation)
        }
        WireFault::Utf8(at) => {
            let explanation = "\nthis file is no SCIP index: the text here isn't UTF-8";
            no_index(name, at, explanation)
        }
        WireFault::BadRange(at) => {
            let explanation =
                "\nthis file is no SCIP index: a range has three or four numbers, none of them negative";
            no_index(name, at, explanation)
        }
        WireFault::Memory => nowhere(name, "", MEMORY_STATUS),
    }
}

/// The line, without its end, that says where it is in the file with this path.
fn line_with(alloc: Global, path: &str, place: IndexPlace, name: &str) -> Result<String, AllocError>
    ensures { IfOk result (λ line. string_bytes line ≡ line_with path.now place name.now) }
{
    match place {
        IndexPlace::Nowhere => plain_line(alloc, name),
        IndexPlace::WholeFile => path_line(alloc, path, name),
        IndexPlace::Offset(offset) => placed_line(alloc, path, Some(offset), name),
    }
}

impl IndexFault {
    /// What is said of it.
    pub(crate) fn said(&self) -> IndexSaid
        ensures name { result.name.now ≡ (said_of self.now).name }
        ensures place { result.place ≡ (said_of self.now).place }
        ensures explanation { result.explanation.now ≡ (said_of self.now).explanation }
        ensures status { result.status ≡ (said_of self.now).status }
    {
        match *self {
            IndexFault::Unreadable => IndexSaid {
                name: "Unreadable",
                place: IndexPlace::WholeFile,
                explanation: "\nit isn't there, or is a folder, or can't be read",
                status: STREAM_STATUS,
            },
            IndexFault::Wire(fault) => wire_said(fault),
            IndexFault::Memory => nowhere("Memory", "", MEMORY_STATUS),
        }
    }

    /// The line, without its end, that says this of the file with this path. Offsets are in bytes.
    pub(crate) fn line(&self, alloc: Global, path: &str) -> Result<String, AllocError>
        ensures { IfOk result (λ line. string_bytes line ≡ line_of path.now self.now) }
    {
        let said = self.said();
        line_with(alloc, path, said.place, said.name)
    }

    /// The exit status.
    pub(crate) fn status(&self) -> u8
        ensures { result ≡ status_of self.now }
    {
        self.said().status
    }
}
