//! Reports of runs over files in memory.

use crate::runs::{Row, SILENT, see_row};
use crate::tree_runs::DOUBT;
use std::test::Fail;

const API: &[u8] = b"\x0A\x1C\x12\x0E\x0A\x09protoscip\x12\x011\x1A\x08file:///\x20\x01\
\x12\xA7\x01\x0A\x07a.proto\
\x12\x27\x0A\x03\x00\x00\x00\x12\x1Escip-protobuf . . . `a.proto`/\x18\x01\
\x12\x1F\x0A\x03\x01\x08\x09\x12\x16scip-protobuf . . . A#\x18\x01\
\x1A\x1B\x0A\x16scip-protobuf . . . A#\x32\x01A\
\x1A\x29\x0A\x1Escip-protobuf . . . `a.proto`/\x32\x07a.proto\
\x22\x08Protobuf\x30\x01\0";

const API_COUNTS: &str =
    "{\"imports\":0,\"kind\":\"counts\",\"skipped\":0,\"sources\":1,\"status\":0,\"uses\":0}\n\0";

// The first row reads: nothing is wrong, so the report has its counts alone. In the third and the fourth the report
// isn't taken, so the index isn't put at its place either.
static ROWS: [Row; 15] = [
    Row {
        words: "index api out --report r.jsonl",
        written: API,
        reported: API_COUNTS,
        ..SILENT
    },
    Row {
        words: "shell api --report r.jsonl",
        input: "sym a.proto",
        printed: "scip-protobuf . . . A#\nscip-protobuf . . . `a.proto`/\n= 2\n\0",
        reported: API_COUNTS,
        ..SILENT
    },
    Row {
        words: "index api out --report r.jsonl",
        report_fits: 20,
        status: 3,
        said: "protoscip: Write\n",
        ..SILENT
    },
    Row {
        words: "index api out --report r.jsonl",
        report_is_refused: true,
        status: 3,
        said: "protoscip: Write\n",
        ..SILENT
    },
    Row {
        words: "index api out --report r.jsonl",
        is_refused: true,
        reported: API_COUNTS,
        status: 3,
        said: "protoscip: Write\n",
        ..SILENT
    },
    Row {
        words: "index holes out --report r.jsonl",
        status: 3,
        said: "protoscip: b.proto: Unreadable\n",
        ..SILENT
    },
    Row {
        words: "index api out --report ./api/a.proto",
        status: 3,
        said: "protoscip: ./api/a.proto: IsSource\n",
        ..SILENT
    },
    Row {
        words: "shell api --explain --report ./api/a.proto",
        status: 3,
        said: "protoscip: ./api/a.proto: IsSource
it is a source that was read, or a link to one; the report would replace it\n",
        ..SILENT
    },
    Row {
        words: "index api out --report out",
        status: 3,
        said: "protoscip: out: IsOut\n",
        ..SILENT
    },
    Row {
        words: "index api out --explain --report ./out",
        status: 3,
        said: "protoscip: ./out: IsOut\nthe index goes there, so its report can't\n",
        ..SILENT
    },
    Row {
        words: "index clash out --report r.jsonl",
        status: 1,
        reported: "{\"column\":9,\"end\":28,\"first\":{\"column\":9,\"end\":47,\"line\":3,\"offset\":46,\"path\":\"a.proto\"},\"import\":null,\"kind\":\"fault\",\"line\":2,\"message\":\"this full name is given already: `A`\",\"name\":\"Duplicate\",\"offset\":27,\"path\":\"b.proto\"}
{\"column\":8,\"end\":36,\"first\":null,\"import\":\"no.proto\",\"kind\":\"fault\",\"line\":2,\"message\":\"no source has this path, below ROOT or a folder that `--include DIR` names: `\\\"no.proto\\\"`\",\"name\":\"MissingImport\",\"offset\":26,\"path\":\"a.proto\"}
{\"imports\":1,\"kind\":\"counts\",\"skipped\":1,\"sources\":0,\"status\":1,\"uses\":0}\n\0",
        said: "protoscip: b.proto@27: Duplicate of a.proto@46\n",
        ..SILENT
    },
    // what can't be read is told first, and counted; but where the index can't be put, its fault alone is told
    Row {
        words: "index holes out --faulty skip --report r.jsonl",
        written: b"\x0A\x1C\x12\x0E\x0A\x09protoscip\x12\x011\x1A\x08file:///\x20\x01\0",
        reported: "{\"column\":null,\"end\":null,\"first\":null,\"import\":null,\"kind\":\"skipped\",\"line\":null,\"message\":\"it can't be read, or its name isn't UTF-8\",\"name\":\"Unreadable\",\"offset\":null,\"path\":\"b.proto\"}
{\"column\":1,\"end\":null,\"first\":null,\"import\":null,\"kind\":\"skipped\",\"line\":1,\"message\":\"this character can't be here\",\"name\":\"BadByte\",\"offset\":0,\"path\":\"a.proto\"}
{\"imports\":0,\"kind\":\"counts\",\"skipped\":2,\"sources\":0,\"status\":0,\"uses\":0}\n\0",
        said: "protoscip: skipped: b.proto: Unreadable
protoscip: skipped: a.proto@0: BadByte
protoscip: 0 sources indexed, 2 skipped, 0 imports and 0 uses without a target\n",
        ..SILENT
    },
    Row {
        words: "shell api --faulty skip --include holes --report r.jsonl",
        reported: "{\"column\":null,\"end\":null,\"first\":null,\"import\":null,\"kind\":\"skipped\",\"line\":null,\"message\":\"it can't be read, or its name isn't UTF-8\",\"name\":\"Unreadable\",\"offset\":null,\"path\":\"b.proto\"}
{\"imports\":0,\"kind\":\"counts\",\"skipped\":1,\"sources\":1,\"status\":0,\"uses\":0}\n\0",
        said: "protoscip: skipped: b.proto: Unreadable
protoscip: 1 sources indexed, 1 skipped, 0 imports and 0 uses without a target\n",
        ..SILENT
    },
    // a use that a file makes uncertain has that file as its first place
    Row {
        words: "index doubt out --faulty skip --include base --report r.jsonl",
        written: DOUBT,
        reported: "{\"column\":8,\"end\":46,\"first\":null,\"import\":\"a.proto\",\"kind\":\"no target\",\"line\":3,\"message\":\"the file with this path is left out: `\\\"a.proto\\\"`\",\"name\":\"MissingImport\",\"offset\":37,\"path\":\"b.proto\"}
{\"column\":13,\"end\":79,\"first\":{\"column\":null,\"end\":null,\"line\":null,\"offset\":null,\"path\":\"a.proto\"},\"import\":null,\"kind\":\"uncertain\",\"line\":5,\"message\":\"a file that this source sees can't be read: it may declare this name nearer: `T`\",\"name\":\"Uncertain\",\"offset\":78,\"path\":\"b.proto\"}
{\"column\":1,\"end\":null,\"first\":null,\"import\":null,\"kind\":\"skipped\",\"line\":1,\"message\":\"this character can't be here\",\"name\":\"BadByte\",\"offset\":0,\"path\":\"a.proto\"}
{\"imports\":1,\"kind\":\"counts\",\"skipped\":1,\"sources\":1,\"status\":0,\"uses\":0}\n\0",
        said: "protoscip: no target: b.proto@37: MissingImport
protoscip: uncertain: b.proto@78 behind a.proto
protoscip: skipped: a.proto@0: BadByte
protoscip: 1 sources indexed, 1 skipped, 1 imports and 0 uses without a target\n",
        ..SILENT
    },
    Row {
        words: "index holes out --faulty skip --report r.jsonl",
        fits: 4,
        reported: "{\"column\":null,\"end\":null,\"first\":null,\"import\":null,\"kind\":\"fault\",\"line\":null,\"message\":\"the output can't be made, or its disk is full, or nobody reads it\",\"name\":\"Write\",\"offset\":null,\"path\":null}
{\"imports\":0,\"kind\":\"counts\",\"skipped\":0,\"sources\":0,\"status\":3,\"uses\":0}\n\0",
        status: 3,
        said: "protoscip: Write\n",
        ..SILENT
    },
];

#[test]
fn made_and_put(rt: HostRuntime) -> Result<(), Fail> {
    for row in &ROWS {
        see_row(&rt, rt.alloc(), row)?;
    }
    Ok(())
}
