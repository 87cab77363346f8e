//! Pages of an index, over files in memory.

use crate::runs::{Row, SILENT, see_row};
use std::test::Fail;

// The first row reads: of the three documents of the index two have pages; then come the files that pages share. In
// the second there is room for three files, so the fourth can't be made, and the folder isn't put at its place.
static ROWS: [Row; 11] = [
    Row {
        words: "pages seen.scip src out",
        written: b"out[src/a.txt.html][src/b/c.txt.html][pages.css][search.js][symbols.js][index.html]\0",
        said: "protoscip: no.txt: Unreadable\n",
        ..SILENT
    },
    Row {
        words: "pages seen.scip src out",
        fits: 48,
        status: 3,
        said: "protoscip: no.txt: Unreadable\nprotoscip: Write\n",
        ..SILENT
    },
    Row {
        words: "pages --explain seen.scip src full/new",
        is_refused: true,
        status: 3,
        said: "protoscip: no.txt: Unreadable
protoscip: Write
not all pages could be written, so none is left
full/new: permission denied\n",
        ..SILENT
    },
    Row {
        words: "pages none.scip src full",
        status: 3,
        said: "protoscip: full: NotEmpty\n",
        ..SILENT
    },
    Row {
        words: "pages none.scip src out",
        status: 3,
        said: "protoscip: none.scip: Unreadable\n",
        ..SILENT
    },
    Row {
        words: "pages seen.scip src full/new",
        written: b"full/new[src/a.txt.html][src/b/c.txt.html][pages.css][search.js][symbols.js][index.html]\0",
        said: "protoscip: no.txt: Unreadable\n",
        ..SILENT
    },
    Row {
        words: "pages seen.scip nowhere out",
        status: 3,
        said: "protoscip: a.txt: Unreadable\nprotoscip: no.txt: Unreadable\nprotoscip: b/c.txt: Unreadable\nprotoscip: NothingThere\n",
        ..SILENT
    },
    Row {
        words: "pages a.scip src out --also seen.scip --also empty.scip",
        written: b"out[src/a.txt.html][src/b/c.txt.html][pages.css][search.js][symbols.js][index.html]\0",
        said: "protoscip: a: Unreadable\nprotoscip: no.txt: Unreadable\n",
        ..SILENT
    },
    Row {
        words: "pages a.scip src out --also a.scip",
        status: 5,
        said: "protoscip: a: Twice in a.scip and a.scip\n",
        ..SILENT
    },
    Row {
        words: "pages --explain a.scip src out",
        status: 3,
        said: "protoscip: a: Unreadable\nprotoscip: NothingThere\nno document has its source below ROOT\n",
        ..SILENT
    },
    Row {
        words: "pages empty.scip nowhere out",
        written: b"out[pages.css][search.js][symbols.js][index.html]\0",
        ..SILENT
    },
];

#[test]
fn made_and_told(rt: HostRuntime) -> Result<(), Fail> {
    for row in &ROWS {
        see_row(&rt, rt.alloc(), row)?;
    }
    Ok(())
}
