//! Trees whose names in options are linked.

use crate::built::{see_built, site_of};
use index_hooks::Registry;
use scip_build::Faulty;
use std::alloc::{AllocError, Global};
use std::process::Abort;
use std::sync::Wait;
use std::test::Fail;
use std::thread::Threads;

/// Files, and what is done with their faults; what is built of them, or why nothing is; and how many declarations they
/// have.
struct Row {
    files: &'static str,
    faulty: Faulty,
    due: &'static str,
    count: u64,
}

// In the first tree each part of an option's name, each field in braces and the value of an enum occurs, and what is in
// included files has an entry. In the second and third an option has a part that nothing declares; in the fourth, too,
// but uses come first. In the next two no source imports the file of the options' message, and another one declares its
// name, too: if no source reaches that, it is no matter; if one does, the two clash. In the seventh the type of an
// option is in a file that the source reaches by a private import, whatever others declare. In the last the source
// imports a copy of the file of the options' messages.
static ROWS: [Row; 8] = [
    Row {
        files: "a.proto\nsyntax = \"proto3\";\npackage p;\nimport \"o.proto\";\n\
message M { int32 n = 1 [lazy = true, (x).r = { e: V }]; }\n|\
+google/protobuf/descriptor.proto\nsyntax = \"proto2\";\npackage google.protobuf;\n\
message FieldOptions { optional bool lazy = 5; }\n|\
+o.proto\nsyntax = \"proto2\";\npackage p;\nimport \"google/protobuf/descriptor.proto\";\n\
enum E { V = 0; }\nmessage R { optional R r = 1; optional E e = 2; }\n\
extend google.protobuf.FieldOptions { optional R x = 50001; }\n",
        faulty: Faulty::Refuse,
        due: "a.proto
0 0 0 0 1 `a.proto`/
1 8 1 9 1 p/
2 7 2 16 2 `o.proto`/
3 8 3 9 1 p/M#
3 18 3 19 1 p/M#n.
3 25 3 29 0 google/protobuf/FieldOptions#lazy.
3 39 3 40 0 p/x.
3 42 3 43 0 p/R#r.
3 48 3 49 0 p/R#e.
3 51 3 52 0 p/E#V.
external google/protobuf/FieldOptions#lazy.
external p/E#V.
external p/R#e.
external p/R#r.
external p/x.
",
        count: 10,
    },
    Row {
        files: "a.proto\nsyntax = \"proto3\";\nmessage M { int32 n = 1 [lazy = true, (y.z) = 1]; }\n",
        faulty: Faulty::Refuse,
        due: "OptionGap(FilePlace { file: 0, span: Span { start: 58, end: 61 } })",
        count: 2,
    },
    Row {
        files: "a.proto\nsyntax = \"proto3\";\nmessage M { int32 n = 1 [lazy = true, (y.z) = 1]; }\n",
        faulty: Faulty::Skip,
        due: "OptionGap(FilePlace { file: 0, span: Span { start: 58, end: 61 } })
a.proto
0 0 0 0 1 `a.proto`/
1 8 1 9 1 M#
1 18 1 19 1 M#n.
",
        count: 2,
    },
    Row {
        files: "a.proto\nsyntax = \"proto3\";\nmessage M { int32 n = 1 [(y) = 1]; T t = 2; }\n",
        faulty: Faulty::Refuse,
        due: "Unresolved(FilePlace { file: 0, span: Span { start: 54, end: 55 } })",
        count: 3,
    },
    Row {
        files: "a.proto\nsyntax = \"proto3\";\nmessage M { int32 n = 1 [lazy = true]; }\n|\
+google/protobuf/descriptor.proto\nsyntax = \"proto2\";\npackage google.protobuf;\n\
message FieldOptions { optional bool lazy = 5; }\n|\
+z.proto\nsyntax = \"proto2\";\npackage google.protobuf;\nmessage FieldOptions {}\n",
        faulty: Faulty::Refuse,
        due: "a.proto
0 0 0 0 1 `a.proto`/
1 8 1 9 1 M#
1 18 1 19 1 M#n.
1 25 1 29 0 google/protobuf/FieldOptions#lazy.
external google/protobuf/FieldOptions#lazy.
",
        count: 5,
    },
    Row {
        files: "a.proto\nsyntax = \"proto3\";\nimport \"z.proto\";\nmessage M { int32 n = 1 [lazy = true]; }\n|\
+google/protobuf/descriptor.proto\nsyntax = \"proto2\";\npackage google.protobuf;\n\
message FieldOptions { optional bool lazy = 5; }\n|\
+z.proto\nsyntax = \"proto2\";\npackage google.protobuf;\nmessage FieldOptions {}\n",
        faulty: Faulty::Refuse,
        due: "Duplicate(FilePlace { file: 1, span: Span { start: 52, end: 64 } }, \
FilePlace { file: 2, span: Span { start: 52, end: 64 } })",
        count: 5,
    },
    Row {
        files: "a.proto\nsyntax = \"proto3\";\nimport \"o.proto\";\noption (p.x) = { r: 1 };\n|\
+google/protobuf/descriptor.proto\nsyntax = \"proto2\";\npackage google.protobuf;\nmessage FileOptions {}\n|\
+h.proto\nsyntax = \"proto2\";\npackage p;\nmessage R { optional int32 r = 1; }\n|\
+o.proto\nsyntax = \"proto2\";\npackage p;\nimport \"google/protobuf/descriptor.proto\";\nimport \"h.proto\";\n\
extend google.protobuf.FileOptions { optional R x = 50001; }\n|\
+z.proto\nsyntax = \"proto2\";\npackage p;\nmessage R {}\n",
        faulty: Faulty::Refuse,
        due: "a.proto
0 0 0 0 1 `a.proto`/
1 7 1 16 2 `o.proto`/
2 8 2 9 0 p/
2 10 2 11 0 p/x.
2 17 2 18 0 p/R#r.
external p/R#r.
external p/x.
",
        count: 5,
    },
    Row {
        files: "a.proto\nsyntax = \"proto3\";\nimport \"d.proto\";\noption java_package = \"x\";\n|\
+d.proto\nsyntax = \"proto2\";\npackage google.protobuf;\n\
message FileOptions { optional string java_package = 1; }\n|\
+google/protobuf/descriptor.proto\nsyntax = \"proto2\";\npackage google.protobuf;\nmessage FileOptions {}\n",
        faulty: Faulty::Refuse,
        due: "a.proto
0 0 0 0 1 `a.proto`/
1 7 1 16 2 `d.proto`/
2 7 2 19 0 google/protobuf/FileOptions#java_package.
external google/protobuf/FileOptions#java_package.
",
        count: 3,
    },
];

/// Sees it of each row, where names in options are linked.
fn see_linked<R: Threads + Wait + Abort>(
    rt: &R,
    alloc: Global,
    registry: &Registry,
) -> Result<(), AllocError> {
    for row in &ROWS {
        let site = site_of(rt, registry, alloc, row.files, row.faulty)?;
        let site = site.linking();
        see_built(rt, alloc, &site, row.due, row.count);
    }
    Ok(())
}

#[test]
fn trees_whose_names_in_options_are_linked(rt: HostRuntime) -> Result<(), Fail> {
    let registry = Registry::new(rt.alloc());
    Ok(see_linked(&rt, rt.alloc(), &registry)?)
}
