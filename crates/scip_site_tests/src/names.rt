//! The texts of faults.

use crate::calls::see;
use scip_site::{ShowFault, SiteFault};
use std::test::Fail;

#[test]
fn faults_are_printed_as_sentences(rt: HostRuntime) -> Result<(), Fail> {
    let text = format!(in rt.alloc(); "{} {}", ShowFault::Write, ShowFault::Memory)?;
    let is_printed = text.as_str()
        == "a write that failed, or a file that can't be made memory ran out";
    see(&rt, is_printed, "texts");
    let write = SiteFault::Show(ShowFault::Write);
    let text = format!(in rt.alloc(); "{} {}", write, SiteFault::NothingThere)?;
    let is_printed = text.as_str()
        == "a write that failed, or a file that can't be made no document has its source below the root";
    see(&rt, is_printed, "texts of a folder");
    Ok(())
}
