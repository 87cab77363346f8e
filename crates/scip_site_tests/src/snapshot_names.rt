//! The texts of faults.

use crate::calls::see;
use scip_pages::SnapshotFault;
use std::test::Fail;

#[test]
fn faults_are_printed_as_sentences(rt: HostRuntime) -> Result<(), Fail> {
    let (none, unit) = (SnapshotFault::NoDocument, SnapshotFault::NoUnit);
    let (misfit, memory) = (SnapshotFault::Misfit(7), SnapshotFault::Memory);
    let text = format!(in rt.alloc(); "{none}, {unit}, {misfit}, {memory}")?;
    see(
        &rt,
        text.as_str()
            == "no document has this number, a document that doesn't say what its columns count, \
a range that isn't one of the source, of occurrence 7, memory ran out",
        "texts",
    );
    Ok(())
}
