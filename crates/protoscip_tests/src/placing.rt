//! Documents that are below a folder.

use crate::built::{asked_for, run_of, site_of};
use crate::calls::{Given, see};
use basics::OwnedText;
use index_hooks::Registry;
use index_pool::NoGate;
use scip_build::Faulty;
use std::alloc::{AllocError, Global};
use std::process::Abort;
use std::sync::Wait;
use std::test::Fail;
use std::thread::Threads;

/// A folder, and what is built of the tree with its documents below it.
struct Row {
    folder: &'static str,
    due: &'static str,
}

/// Three sources, of which one has a fault.
const FILES: &str = "a.proto\nsyntax = \"proto3\";\npackage p;\nmessage M {}\n|\
b/a.proto\nsyntax = \"proto3\";\nimport \"a.proto\";\nmessage U { p.M x = 1; }\n|\
c.proto\nsyntax = \"proto3\";\nmessage {}\n";

// The documents' paths alone have the folder, in each of them, and what is told hasn't. No folder has no `/` either.
static ROWS: [Row; 3] = [
    Row {
        folder: "",
        due: "File(2, Syntax(Grammar(27)))
a.proto
0 0 0 0 1 `a.proto`/
1 8 1 9 1 p/
2 8 2 9 1 p/M#
b/a.proto
0 0 0 0 1 `b/a.proto`/
1 7 1 16 2 `a.proto`/
2 8 2 9 1 U#
2 12 2 13 0 p/
2 14 2 15 0 p/M#
2 16 2 17 1 U#x.
",
    },
    Row {
        folder: "d",
        due: "File(2, Syntax(Grammar(27)))
d/a.proto
0 0 0 0 1 `a.proto`/
1 8 1 9 1 p/
2 8 2 9 1 p/M#
d/b/a.proto
0 0 0 0 1 `b/a.proto`/
1 7 1 16 2 `a.proto`/
2 8 2 9 1 U#
2 12 2 13 0 p/
2 14 2 15 0 p/M#
2 16 2 17 1 U#x.
",
    },
    Row {
        folder: "a.proto/b",
        due: "File(2, Syntax(Grammar(27)))
a.proto/b/a.proto
0 0 0 0 1 `a.proto`/
1 8 1 9 1 p/
2 8 2 9 1 p/M#
a.proto/b/b/a.proto
0 0 0 0 1 `b/a.proto`/
1 7 1 16 2 `a.proto`/
2 8 2 9 1 U#
2 12 2 13 0 p/
2 14 2 15 0 p/M#
2 16 2 17 1 U#x.
",
    },
];

/// Sees that a tree is built so, on 1 and on 3 workers. After want of memory or of a thread it is built again.
fn see_built<R: Threads + Wait + Abort>(rt: &R, alloc: Global, site: &Given, due: &str) {
    for count in &[1, 3] {
        let gate = NoGate;
        let run = run_of(rt, alloc, *count, &gate);
        let asked = match asked_for(&run, site, due) {
            None => asked_for(&run, site, due),
            asked => asked,
        };
        see(rt, asked.is_some(), due);
    }
}

/// Sees it of each row.
fn see_placed<R: Threads + Wait + Abort>(
    rt: &R,
    alloc: Global,
    registry: &Registry,
) -> Result<(), AllocError> {
    for row in &ROWS {
        let site = site_of(rt, registry, alloc, FILES, Faulty::Skip)?;
        let site = site.below(OwnedText::copy_of(alloc, row.folder)?);
        see_built(rt, alloc, &site, row.due);
    }
    Ok(())
}

#[test]
fn documents_below_a_folder(rt: HostRuntime) -> Result<(), Fail> {
    let registry = Registry::new(rt.alloc());
    Ok(see_placed(&rt, rt.alloc(), &registry)?)
}
