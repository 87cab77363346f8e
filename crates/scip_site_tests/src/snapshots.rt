//! Snapshots of an index's documents.

use crate::asked::queries;
use crate::calls::see;
use scip_pages::snapshot;
use scip_query::Queries;
use std::alloc::{AllocError, Global};
use std::process::Abort;
use std::test::Fail;

/// The source of the one document.
const SOURCE: &str = "message A\nA";

/// Indexes of the document, each with its snapshot: what the entry of `A#` says is below the definition, and nothing
/// below the reference.
const ROWS: [(&str, &[u8], &str); 7] = [
    (
        "nothing",
        b"\x12#\x0a\x01a\
\x12\x0b\x0a\x03\x00\x08\x09\x12\x02A#\x18\x01\x12\x09\x0a\x03\x01\x00\x01\x12\x02A#\
\x1a\x04\x0a\x02A#\
0\x01",
        "\x20 message A\n\
//        ^ definition A#\n\
\x20 A\n\
//^ reference A#\n",
    ),
    (
        "a kind",
        b"\x12%\x0a\x01a\
\x12\x0b\x0a\x03\x00\x08\x09\x12\x02A#\x18\x01\x12\x09\x0a\x03\x01\x00\x01\x12\x02A#\
\x1a\x06\x0a\x02A#(\x1c\
0\x01",
        "\x20 message A\n\
//        ^ definition A#\n\
//        kind Message\n\
\x20 A\n\
//^ reference A#\n",
    ),
    (
        "a kind without a name",
        b"\x12&\x0a\x01a\
\x12\x0b\x0a\x03\x00\x08\x09\x12\x02A#\x18\x01\x12\x09\x0a\x03\x01\x00\x01\x12\x02A#\
\x1a\x07\x0a\x02A#(\x90\x03\
0\x01",
        "\x20 message A\n\
//        ^ definition A#\n\
//        kind 400\n\
\x20 A\n\
//^ reference A#\n",
    ),
    (
        "a kind below 0",
        b"\x12.\x0a\x01a\
\x12\x0b\x0a\x03\x00\x08\x09\x12\x02A#\x18\x01\x12\x09\x0a\x03\x01\x00\x01\x12\x02A#\
\x1a\x0f\x0a\x02A#(\xff\xff\xff\xff\xff\xff\xff\xff\xff\x01\
0\x01",
        "\x20 message A\n\
//        ^ definition A#\n\
//        kind -1\n\
\x20 A\n\
//^ reference A#\n",
    ),
    (
        "a signature",
        b"\x12:\x0a\x01a\
\x12\x0b\x0a\x03\x00\x08\x09\x12\x02A#\x18\x01\x12\x09\x0a\x03\x01\x00\x01\x12\x02A#\
\x1a\x1b\x0a\x02A#:\x15\"\x08Protobuf*\x09message A\
0\x01",
        "\x20 message A\n\
//        ^ definition A#\n\
//        signature_documentation\n\
//        > message A\n\
\x20 A\n\
//^ reference A#\n",
    ),
    (
        "a signature of two lines",
        b"\x12+\x0a\x01a\
\x12\x0b\x0a\x03\x00\x08\x09\x12\x02A#\x18\x01\x12\x09\x0a\x03\x01\x00\x01\x12\x02A#\
\x1a\x0c\x0a\x02A#:\x06*\x04a\x0a\x09b\
0\x01",
        "\x20 message A\n\
//        ^ definition A#\n\
//        signature_documentation\n\
//        > a\n\
//        > \tb\n\
\x20 A\n\
//^ reference A#\n",
    ),
    (
        "all",
        b"\x12;\x0a\x01a\
\x12\x0b\x0a\x03\x00\x08\x09\x12\x02A#\x18\x01\x12\x09\x0a\x03\x01\x00\x01\x12\x02A#\
\x1a\x1c\x0a\x02A#\x1a\x04One.\x1a\x00(\x0b:\x08*\x06enum AB\x02B#\
0\x01",
        "\x20 message A\n\
//        ^ definition A#\n\
//        kind Enum\n\
//        signature_documentation\n\
//        > enum A\n\
//        documentation\n\
//        > One.\n\
//        documentation\n\
//        > \n\
\x20 A\n\
//^ reference A#\n",
    ),
];

/// Sees a snapshot. After want of memory it is asked for again, and the second answer counts.
fn see_snapshot(
    rt: &impl Abort,
    alloc: Global,
    queries: &Queries,
    name: &str,
    due: &str,
) -> Result<(), AllocError> {
    let shown = match snapshot(alloc, queries, 0, SOURCE) {
        Ok(shown) => shown,
        Err(_) => match snapshot(alloc, queries, 0, SOURCE) {
            Ok(shown) => shown,
            Err(_) => return Err(AllocError),
        },
    };
    see(rt, shown.as_slice() == due.as_bytes(), name);
    Ok(())
}

#[test]
fn entries_are_below_their_definitions(rt: HostRuntime) -> Result<(), Fail> {
    for (name, index, due) in &ROWS {
        let queries = queries(&rt, rt.alloc(), index)?;
        see_snapshot(&rt, rt.alloc(), &queries, name, due)?;
    }
    Ok(())
}
