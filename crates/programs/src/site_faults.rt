//! What is said where the pages of an index aren't all made.

ghost use Rattle.std.specs.Prelude.{◌≡◌, IfOk, string_bytes};
ghost use Rattle.programs.specs.SiteFaults.{status_of, text_of, told};

use crate::fault_texts::{FaultText, said, told};
use crate::show_faults;
use protoscip::STREAM_STATUS;
use scip_site::{ShowFault, SiteFault};
use std::alloc::{AllocError, Global};

/// What is said of it.
fn text_of(fault: SiteFault) -> FaultText
    ensures name { result.name.now ≡ (text_of fault).name }
    ensures explanation { result.explanation.now ≡ (text_of fault).explanation }
    ensures status { result.status ≡ (text_of fault).status }
{
    match fault {
        SiteFault::Show(ShowFault::Write) => {
            let sentence = "\nnot all pages could be written, so none is left";
            said(fault.name(), sentence, STREAM_STATUS)
        }
        SiteFault::Show(ShowFault::Memory) => show_faults::text_of(ShowFault::Memory),
        SiteFault::NothingThere => {
            let explanation = "\nno document has its source below ROOT";
            said(fault.name(), explanation, STREAM_STATUS)
        }
    }
}

/// The line, without its end, that says this, explained if that is asked for.
pub(crate) fn site_text(
    alloc: Global,
    fault: SiteFault,
    explain: bool,
) -> Result<String, AllocError>
    ensures { IfOk result (λ text. string_bytes text ≡ told explain fault) }
{
    told(alloc, text_of(fault), explain)
}

/// The exit status.
pub(crate) fn site_status(fault: SiteFault) -> u8
    ensures { result ≡ status_of fault }
{
    text_of(fault).status
}
