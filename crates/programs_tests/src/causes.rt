//! Causes that explain a fault, over files in memory.

use crate::runs::{Row, SILENT, see_row};
use std::test::Fail;

// The first row reads: the place of the index takes 30 bytes, so there is no space left for it. The folder of the pages
// takes 48 bytes. Of a closed pipe of which nothing is said, no cause is either; nor of a fault that isn't explained.
static ROWS: [Row; 23] = [
    Row {
        words: "index api out --explain",
        fits: 30,
        status: 3,
        said: "protoscip: Write
the output can't be made, or its disk is full, or nobody reads it
out: no space left on device\n",
        ..SILENT
    },
    Row {
        words: "index api out",
        fits: 30,
        status: 3,
        said: "protoscip: Write\n",
        ..SILENT
    },
    Row {
        words: "index api out --explain",
        is_refused: true,
        status: 3,
        said: "protoscip: Write
the output can't be made, or its disk is full, or nobody reads it
out: permission denied\n",
        ..SILENT
    },
    Row {
        words: "index api out --report r.jsonl --explain",
        report_fits: 20,
        status: 3,
        said: "protoscip: Write
the output can't be made, or its disk is full, or nobody reads it
r.jsonl: no space left on device\n",
        ..SILENT
    },
    Row {
        words: "index api out --report r.jsonl --explain",
        report_is_refused: true,
        status: 3,
        said: "protoscip: Write
the output can't be made, or its disk is full, or nobody reads it
r.jsonl: permission denied\n",
        ..SILENT
    },
    Row {
        words: "snapshot --explain --to to seen.scip src",
        written: b"[to/a.txt]",
        status: 3,
        said: "protoscip: Write
only a first part could be written
to: no space left on device\n",
        ..SILENT
    },
    Row {
        words: "pages --explain seen.scip src to",
        fits: 48,
        status: 3,
        said: "protoscip: no.txt: Unreadable
protoscip: Write
not all pages could be written, so none is left
to: no space left on device\n",
        ..SILENT
    },
    // standard output
    Row {
        words: "query a.scip --explain",
        input: "ref 1 8 a",
        printed: "1 8",
        closes: true,
        status: 3,
        said: "protoscip: Write
the output can't be made, or its disk is full, or nobody reads it
standard output: broken pipe\n",
        ..SILENT
    },
    Row {
        words: "query a.scip --explain",
        input: "ref 1 8 a",
        printed: "1 8",
        status: 3,
        said: "protoscip: Write
the output can't be made, or its disk is full, or nobody reads it\n",
        ..SILENT
    },
    Row {
        words: "shell one --explain",
        input: "def 3 28 a.proto",
        printed: "2 8 2",
        closes: true,
        status: 3,
        said: "protoscip: Answer
the answers can't be written: the disk is full, or nobody reads them
standard output: broken pipe\n",
        ..SILENT
    },
    Row {
        words: "shell one",
        input: "def 3 28 a.proto",
        printed: "2 8 2",
        closes: true,
        status: 3,
        said: "protoscip: Answer\n",
        ..SILENT
    },
    Row {
        words: "dump --explain",
        input: "syntax = \"proto3\";",
        printed: "0 0 0",
        closes: true,
        ..SILENT
    },
    Row {
        words: "snapshot --explain seen.scip src",
        printed: "a.txt\n",
        closes: true,
        ..SILENT
    },
    // what can't be read
    Row {
        words: "index none out --explain",
        status: 3,
        said: "protoscip: none: Unreadable
it isn't there, or can't be read, or an entry's name isn't UTF-8
none/secret: permission denied\n",
        ..SILENT
    },
    Row {
        words: "index own out --include none --explain",
        status: 3,
        said: "protoscip: none: Unreadable
it isn't there, or can't be read, or an entry's name isn't UTF-8
none/secret: permission denied\n",
        ..SILENT
    },
    Row {
        words: "index none out --exclude secret --explain",
        status: 3,
        said: "protoscip: none: Unreadable
it isn't there, or can't be read, or an entry's name isn't UTF-8\n",
        ..SILENT
    },
    Row {
        words: "index holes out --explain",
        status: 3,
        said: "protoscip: b.proto: Unreadable
it isn't there, or can't be read, or an entry's name isn't UTF-8
holes/b.proto: permission denied\n",
        ..SILENT
    },
    Row {
        words: "shell none --explain",
        status: 3,
        said: "protoscip: none: Unreadable
it isn't there, or can't be read, or an entry's name isn't UTF-8
none/secret: permission denied\n",
        ..SILENT
    },
    Row {
        words: "shell none",
        status: 3,
        said: "protoscip: none: Unreadable\n",
        ..SILENT
    },
    Row {
        words: "query none.scip --explain",
        status: 3,
        said: "protoscip: none.scip: Unreadable
it isn't there, or is a folder, or can't be read
none.scip: no such file or directory\n",
        ..SILENT
    },
    Row {
        words: "pages a.scip src to --explain --also none.scip",
        status: 3,
        said: "protoscip: none.scip: Unreadable
it isn't there, or is a folder, or can't be read
none.scip: no such file or directory\n",
        ..SILENT
    },
    Row {
        words: "snapshot gone.scip src --explain",
        status: 3,
        said: "protoscip: gone.scip: Unreadable
it isn't there, or is a folder, or can't be read\n",
        ..SILENT
    },
    Row {
        words: "pages none.scip src to --explain",
        status: 3,
        said: "protoscip: none.scip: Unreadable
it isn't there, or is a folder, or can't be read
none.scip: no such file or directory\n",
        ..SILENT
    },
];

#[test]
fn told_with_their_causes(rt: HostRuntime) -> Result<(), Fail> {
    for row in &ROWS {
        see_row(&rt, rt.alloc(), row)?;
    }
    Ok(())
}
