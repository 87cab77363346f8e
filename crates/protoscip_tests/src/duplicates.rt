//! Trees in which several files give one name, and may.

use crate::built::{see_built, site_of};
use index_hooks::Registry;
use scip_build::{Duplicates, Faulty};
use std::alloc::{AllocError, Global};
use std::process::Abort;
use std::sync::Wait;
use std::test::Fail;
use std::thread::Threads;

/// Files, and what is done with their faults; what is built of them, or why nothing is; and how many declarations they
/// have.
struct Row {
    files: &'static str,
    faulty: Faulty,
    due: &'static str,
    count: u64,
}

// In the first tree the file that sees one of the two means that one, and what is in it; the later file's symbols have
// the file in front, and so have values of an enum (the second tree) and what an included file declares that comes
// behind the sources (the third). In the fourth nothing is given twice. A file that gives a name twice itself is refused
// as ever, and a use of a name that two files give, which its file sees, names none of them.
static ROWS: [Row; 7] = [
    Row {
        files: "a.proto\nsyntax = \"proto3\";\npackage p;\nmessage M { message A {} }\n|\
b.proto\nsyntax = \"proto3\";\npackage p;\nmessage M { message B {} }\n|\
c.proto\nsyntax = \"proto3\";\npackage p;\nimport \"b.proto\";\nmessage U { M.B x = 1; }\n",
        faulty: Faulty::Refuse,
        due: "a.proto
0 0 0 0 1 `a.proto`/
1 8 1 9 1 p/
2 8 2 9 1 p/M#
2 20 2 21 1 p/M#A#
b.proto
0 0 0 0 1 `b.proto`/
1 8 1 9 1 p/
2 8 2 9 1 `b.proto`/p/M#
2 20 2 21 1 `b.proto`/p/M#B#
c.proto
0 0 0 0 1 `c.proto`/
1 8 1 9 1 p/
2 7 2 16 2 `b.proto`/
3 8 3 9 1 p/U#
3 12 3 13 0 `b.proto`/p/M#
3 14 3 15 0 `b.proto`/p/M#B#
3 16 3 17 1 p/U#x.
",
        count: 6,
    },
    Row {
        files: "a.proto\nsyntax = \"proto3\";\nenum E { ZERO = 0; }\n|\
b.proto\nsyntax = \"proto3\";\nenum E { ZERO = 0; ONE = 1; }\n",
        faulty: Faulty::Refuse,
        due: "a.proto
0 0 0 0 1 `a.proto`/
1 5 1 6 1 E#
1 9 1 13 1 E#ZERO.
b.proto
0 0 0 0 1 `b.proto`/
1 5 1 6 1 `b.proto`/E#
1 9 1 13 1 `b.proto`/E#ZERO.
1 19 1 22 1 `b.proto`/E#ONE.
",
        count: 5,
    },
    Row {
        files: "a.proto\nsyntax = \"proto3\";\nmessage M {}\n|\
b.proto\nsyntax = \"proto3\";\nimport \"t.proto\";\nmessage U { M m = 1; }\n|\
+t.proto\nsyntax = \"proto3\";\nmessage M { message N {} }\n",
        faulty: Faulty::Refuse,
        due: "a.proto
0 0 0 0 1 `a.proto`/
1 8 1 9 1 M#
b.proto
0 0 0 0 1 `b.proto`/
1 7 1 16 2 `t.proto`/
2 8 2 9 1 U#
2 12 2 13 0 `t.proto`/M#
2 14 2 15 1 U#m.
external `t.proto`/M#
",
        count: 5,
    },
    Row {
        files: "a.proto\nsyntax = \"proto3\";\nmessage M {}\n|\
b.proto\nsyntax = \"proto3\";\nimport \"a.proto\";\nmessage U { M m = 1; }\n",
        faulty: Faulty::Refuse,
        due: "a.proto
0 0 0 0 1 `a.proto`/
1 8 1 9 1 M#
b.proto
0 0 0 0 1 `b.proto`/
1 7 1 16 2 `a.proto`/
2 8 2 9 1 U#
2 12 2 13 0 M#
2 14 2 15 1 U#m.
",
        count: 3,
    },
    Row {
        files: "a.proto\nsyntax = \"proto3\";\nmessage M {}\nmessage M {}\n",
        faulty: Faulty::Refuse,
        due: "Duplicate(FilePlace { file: 0, span: Span { start: 27, end: 28 } }, \
FilePlace { file: 0, span: Span { start: 40, end: 41 } })",
        count: 2,
    },
    Row {
        files: "a.proto\nsyntax = \"proto3\";\nmessage M {}\n|\
b.proto\nsyntax = \"proto3\";\nmessage M {}\n|\
c.proto\nsyntax = \"proto3\";\nimport \"a.proto\";\nimport \"b.proto\";\nmessage U { M m = 1; }\n",
        faulty: Faulty::Refuse,
        due: "Ambiguous(FilePlace { file: 2, span: Span { start: 67, end: 68 } })",
        count: 4,
    },
    Row {
        files: "a.proto\nsyntax = \"proto3\";\nmessage M {}\n|\
b.proto\nsyntax = \"proto3\";\nmessage M {}\n|\
c.proto\nsyntax = \"proto3\";\nimport \"a.proto\";\nimport \"b.proto\";\nmessage U { M m = 1; }\n",
        faulty: Faulty::Skip,
        due: "Ambiguous(FilePlace { file: 2, span: Span { start: 67, end: 68 } })
a.proto
0 0 0 0 1 `a.proto`/
1 8 1 9 1 M#
b.proto
0 0 0 0 1 `b.proto`/
1 8 1 9 1 `b.proto`/M#
c.proto
0 0 0 0 1 `c.proto`/
1 7 1 16 2 `a.proto`/
2 7 2 16 2 `b.proto`/
3 8 3 9 1 U#
3 14 3 15 1 U#m.
",
        count: 4,
    },
];

/// Sees it of each row, where several files may give one name.
fn see_kept<R: Threads + Wait + Abort>(
    rt: &R,
    alloc: Global,
    registry: &Registry,
) -> Result<(), AllocError> {
    for row in &ROWS {
        let site = site_of(rt, registry, alloc, row.files, row.faulty)?;
        let site = site.naming(Duplicates::Keep);
        see_built(rt, alloc, &site, row.due, row.count);
    }
    Ok(())
}

#[test]
fn trees_with_names_given_twice(rt: HostRuntime) -> Result<(), Fail> {
    let registry = Registry::new(rt.alloc());
    Ok(see_kept(&rt, rt.alloc(), &registry)?)
}
