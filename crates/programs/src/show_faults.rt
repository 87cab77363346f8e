//! What is said where the documents of an index aren't all shown.

ghost use Rattle.std.specs.Prelude.{◌≡◌, IfOk, string_bytes};
ghost use Rattle.programs.specs.ShowFaults.{status_of, text_of, told};

use crate::fault_texts::{FaultText, said, told};
use protoscip::{MEMORY_STATUS, STREAM_STATUS};
use scip_site::ShowFault;
use std::alloc::{AllocError, Global};

/// What is said of it.
pub(crate) fn text_of(fault: ShowFault) -> FaultText
    ensures name { result.name.now ≡ (text_of fault).name }
    ensures explanation { result.explanation.now ≡ (text_of fault).explanation }
    ensures status { result.status ≡ (text_of fault).status }
{
    let name = fault.name();
    match fault {
        ShowFault::Write => said(name, "\nonly a first part could be written", STREAM_STATUS),
        ShowFault::Memory => said(name, "", MEMORY_STATUS),
    }
}

/// The line, without its end, that says this, explained if that is asked for.
pub(crate) fn show_text(
    alloc: Global,
    fault: ShowFault,
    explain: bool,
) -> Result<String, AllocError>
    ensures { IfOk result (λ text. string_bytes text ≡ told explain fault) }
{
    told(alloc, text_of(fault), explain)
}

/// The exit status.
pub(crate) fn show_status(fault: ShowFault) -> u8
    ensures { result ≡ status_of fault }
{
    text_of(fault).status
}
