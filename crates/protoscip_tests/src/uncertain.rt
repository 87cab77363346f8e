//! Trees with uses that may name another type once a file can be read.

use crate::built::{see_built, site_of};
use index_hooks::Registry;
use scip_build::Faulty;
use std::alloc::{AllocError, Global};
use std::process::Abort;
use std::sync::Wait;
use std::test::Fail;
use std::thread::Threads;

/// Files; what is built of them if faults are skipped; and how many declarations they have.
struct Row {
    files: &'static str,
    due: &'static str,
    count: u64,
}

// In the first tree a use in the package `p` names a type of the root, but may name one of `b.proto`, which couldn't be
// read. In the second that file is in `p`, too, and has no tree. A leading dot leaves no doubt, nor does a name of the
// own package. In the third tree two files can't be read, of which one is seen by a public import. In the fourth such a
// file is seen by no use that could name what it declares.
static ROWS: [Row; 4] = [
    Row {
        files: "a.proto\nsyntax = \"proto3\";\nmessage T {}\n|?b.proto|\
d.proto\nsyntax = \"proto3\";\npackage p;\nimport \"a.proto\";\nimport \"b.proto\";\nmessage M { T t = 1; }\n",
        due: "File(1, Unread)
MissingImport(FilePlace { file: 2, span: Span { start: 55, end: 64 } })
Uncertain(FilePlace { file: 2, span: Span { start: 78, end: 79 } }, 1)
a.proto
0 0 0 0 1 `a.proto`/
1 8 1 9 1 T#
d.proto
0 0 0 0 1 `d.proto`/
1 8 1 9 1 p/
2 7 2 16 2 `a.proto`/
4 8 4 9 1 p/M#
4 12 4 13 0 T#
4 14 4 15 1 p/M#t.
",
        count: 3,
    },
    Row {
        files: "a.proto\nsyntax = \"proto3\";\nmessage T {}\n|\
b.proto\nsyntax = \"proto3\";\npackage p;\nmessage {}\n|\
d.proto\nsyntax = \"proto3\";\npackage p;\nimport \"a.proto\";\nimport \"b.proto\";\nmessage M { T t = 1; .T u = 2; M m = 3; }\n",
        due: "File(1, Syntax(Grammar(38)))
MissingImport(FilePlace { file: 2, span: Span { start: 55, end: 64 } })
Uncertain(FilePlace { file: 2, span: Span { start: 78, end: 79 } }, 1)
a.proto
0 0 0 0 1 `a.proto`/
1 8 1 9 1 T#
d.proto
0 0 0 0 1 `d.proto`/
1 8 1 9 1 p/
2 7 2 16 2 `a.proto`/
4 8 4 9 1 p/M#
4 12 4 13 0 T#
4 14 4 15 1 p/M#t.
4 22 4 23 0 T#
4 24 4 25 1 p/M#u.
4 31 4 32 0 p/M#
4 33 4 34 1 p/M#m.
",
        count: 5,
    },
    Row {
        files: "a.proto\n@|b.proto\n@|\
c.proto\nsyntax = \"proto3\";\npackage p;\nmessage S { message T {} }\n|\
d.proto\nsyntax = \"proto3\";\npackage p.q;\nimport \"b.proto\";\nimport \"c.proto\";\nimport \"x.proto\";\nmessage M { S.T t = 1; }\n|\
x.proto\nsyntax = \"proto3\";\nimport public \"a.proto\";\n",
        due: "File(0, Lex(BadByte(0)))
File(1, Lex(BadByte(0)))
MissingImport(FilePlace { file: 3, span: Span { start: 39, end: 48 } })
Uncertain(FilePlace { file: 3, span: Span { start: 98, end: 101 } }, 0)
MissingImport(FilePlace { file: 4, span: Span { start: 33, end: 42 } })
c.proto
0 0 0 0 1 `c.proto`/
1 8 1 9 1 p/
2 8 2 9 1 p/S#
2 20 2 21 1 p/S#T#
d.proto
0 0 0 0 1 `d.proto`/
1 8 1 9 1 p/
1 10 1 11 1 p/q/
3 7 3 16 2 `c.proto`/
4 7 4 16 2 `x.proto`/
5 8 5 9 1 p/q/M#
5 12 5 13 0 p/S#
5 14 5 15 0 p/S#T#
5 16 5 17 1 p/q/M#t.
x.proto
0 0 0 0 1 `x.proto`/
",
        count: 4,
    },
    Row {
        files: "a.proto\n@|\
c.proto\nsyntax = \"proto3\";\nmessage T {}\n|\
d.proto\nsyntax = \"proto3\";\npackage p;\nimport \"c.proto\";\nmessage M { T t = 1; }\n",
        due: "File(0, Lex(BadByte(0)))
c.proto
0 0 0 0 1 `c.proto`/
1 8 1 9 1 T#
d.proto
0 0 0 0 1 `d.proto`/
1 8 1 9 1 p/
2 7 2 16 2 `c.proto`/
3 8 3 9 1 p/M#
3 12 3 13 0 T#
3 14 3 15 1 p/M#t.
",
        count: 3,
    },
];

/// Sees it of each row.
fn see_rows<R: Threads + Wait + Abort>(
    rt: &R,
    alloc: Global,
    registry: &Registry,
) -> Result<(), AllocError> {
    for row in &ROWS {
        let site = site_of(rt, registry, alloc, row.files, Faulty::Skip)?;
        see_built(rt, alloc, &site, row.due, row.count);
    }
    Ok(())
}

#[test]
fn uses_behind_files_that_cannot_be_read(rt: HostRuntime) -> Result<(), Fail> {
    let registry = Registry::new(rt.alloc());
    Ok(see_rows(&rt, rt.alloc(), &registry)?)
}
