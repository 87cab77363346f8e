//! Which names may name another field once a file can be read.

use crate::listed::is_listed_kept;

/// The files of a tree with those of `google.protobuf`, and what the names in the options of the first one name. Behind
/// what an uncertain name names are `!` and the number of the file that can't be read.
const ROWS: [(&str, &str); 16] = [
    // in the package around the source's
    (
        "a.proto\npackage p.q; import \"b.proto\"; import \"u.proto\"; option (x) = 1;\n\
|+b.proto\npackage p; import \"google/protobuf/descriptor.proto\"; \
extend google.protobuf.FileOptions { optional int32 x = 50001; }\n|-u.proto\nmessage {\n|",
        "x>p.x!2\n",
    ),
    // in the source's own package
    (
        "a.proto\npackage p.q; import \"b.proto\"; import \"u.proto\"; option (x) = 1;\n\
|+b.proto\npackage p.q; import \"google/protobuf/descriptor.proto\"; \
extend google.protobuf.FileOptions { optional int32 x = 50001; }\n|-u.proto\nmessage {\n|",
        "x>p.q.x\n",
    ),
    // from a message's scope
    (
        "a.proto\npackage p.q; import \"b.proto\"; import \"u.proto\"; \
message M { optional int32 f = 1 [(x) = 1, (y) = 2]; }\n\
|+b.proto\npackage p.q; import \"google/protobuf/descriptor.proto\"; \
extend google.protobuf.FieldOptions { optional int32 x = 50001; }\n\
|+c.proto\n|-u.proto\nmessage {\n|",
        "x>p.q.x\ny?\n",
    ),
    // by its full name
    (
        "a.proto\npackage p.q; import \"b.proto\"; import \"u.proto\"; option (.p.x) = 1;\n\
|+b.proto\npackage p; import \"google/protobuf/descriptor.proto\"; \
extend google.protobuf.FileOptions { optional int32 x = 50001; }\n|-u.proto\nmessage {\n|",
        "p.x>1>p.x\n",
    ),
    // by more than one word, of which the first is a package
    (
        "a.proto\npackage p.q; import \"b.proto\"; import \"u.proto\"; option (p.x) = 1;\n\
|+b.proto\npackage p; import \"google/protobuf/descriptor.proto\"; \
extend google.protobuf.FileOptions { optional int32 x = 50001; }\n|-u.proto\nmessage {\n|",
        "p.x>1>p.x!2\n",
    ),
    // by more than one word, of which the first is found in the package
    (
        "a.proto\npackage p.q; import \"b.proto\"; import \"u.proto\"; option (M.x) = 1;\n\
|+b.proto\npackage p.q; import \"google/protobuf/descriptor.proto\"; \
message M { extend google.protobuf.FileOptions { optional int32 x = 50001; } }\n|-u.proto\nmessage {\n|",
        "M.x>p.q.M>p.q.M.x\n",
    ),
    // a file that the source doesn't see
    (
        "a.proto\npackage p.q; import \"b.proto\"; option (x) = 1;\n\
|+b.proto\npackage p; import \"google/protobuf/descriptor.proto\"; import \"u.proto\"; \
extend google.protobuf.FileOptions { optional int32 x = 50001; }\n|-u.proto\nmessage {\n|",
        "x>p.x\n",
    ),
    // one that it sees by public imports, and of two the first
    (
        "a.proto\npackage p.q; import \"v.proto\"; import \"b.proto\"; option (x) = 1;\n\
|+b.proto\npackage p; import \"google/protobuf/descriptor.proto\"; import public \"u.proto\"; \
extend google.protobuf.FileOptions { optional int32 x = 50001; }\n|-u.proto\nmessage {\n|-v.proto\nmessage {\n|",
        "x>p.x!2\n",
    ),
    // the first of an option's names alone
    (
        "a.proto\npackage p.q; import \"b.proto\"; import \"u.proto\"; option (x).(y) = 1; option (y) = 1;\n\
|+b.proto\npackage p; import \"google/protobuf/descriptor.proto\"; message M { extensions 1 to 9; }\n\
extend google.protobuf.FileOptions { optional M x = 50001; } extend M { optional int32 y = 1; }\n\
|-u.proto\nmessage {\n|",
        "x>p.x!2 y>p.y\ny?\n",
    ),
    // a name behind one that is certain
    (
        "a.proto\npackage p.q; import \"b.proto\"; import \"c.proto\"; import \"u.proto\"; option (x).(y) = 1;\n\
|+b.proto\npackage p; import \"google/protobuf/descriptor.proto\"; message M { extensions 1 to 9; }\n\
extend M { optional int32 y = 1; }\n\
|+c.proto\npackage p.q; import \"b.proto\"; import \"google/protobuf/descriptor.proto\"; \
extend google.protobuf.FileOptions { optional M x = 50001; }\n|-u.proto\nmessage {\n|",
        "x>p.q.x y>p.y!3\n",
    ),
    // in braces, in the package of the message
    (
        "a.proto\npackage p.q; import \"b.proto\"; import \"u.proto\"; option (.p.x) = { [y]: 1 };\n\
|+b.proto\npackage p; import \"google/protobuf/descriptor.proto\"; message M { extensions 1 to 9; }\n\
extend google.protobuf.FileOptions { optional M x = 50001; } extend M { optional int32 y = 1; }\n\
|-u.proto\nmessage {\n|",
        "p.x>1>p.x y>p.y\n",
    ),
    // in braces, around it
    (
        "a.proto\nimport \"b.proto\"; import \"c.proto\"; import \"u.proto\"; option (p.q.x) = { [y]: 1 };\n\
|+b.proto\npackage p.q; import \"google/protobuf/descriptor.proto\"; message M { extensions 1 to 9; }\n\
extend google.protobuf.FileOptions { optional M x = 50001; }\n\
|+c.proto\npackage p; import \"b.proto\"; extend p.q.M { optional int32 y = 1; }\n|-u.proto\nmessage {\n|",
        "p.q.x>1>2>p.q.x y>p.y!3\n",
    ),
    // a message's name in a message set, in the package of the set
    (
        "a.proto\npackage p.q; import \"b.proto\"; import \"u.proto\"; option (.p.s) = { [I] { i: 1 } };\n\
|+b.proto\npackage p; import \"google/protobuf/descriptor.proto\"; message Set { \
option message_set_wire_format = true; extensions 4 to max; }\n\
extend google.protobuf.FileOptions { optional Set s = 50001; } message I { extend Set { optional I ext = 100; } \
optional int32 i = 1; }\n|-u.proto\nmessage {\n|",
        "p.s>1>p.s I>p.I.ext i>p.I.i\n",
    ),
    // around it
    (
        "a.proto\nimport \"b.proto\"; import \"c.proto\"; import \"u.proto\"; option (p.q.s) = { [I] { i: 1 } };\n\
|+b.proto\npackage p.q; import \"google/protobuf/descriptor.proto\"; message Set { \
option message_set_wire_format = true; extensions 4 to max; }\n\
extend google.protobuf.FileOptions { optional Set s = 50001; }\n\
|+c.proto\npackage p; import \"b.proto\"; message I { extend p.q.Set { optional I ext = 100; } optional int32 i = 1; \
}\n|-u.proto\nmessage {\n|",
        "p.q.s>1>2>p.q.s I>p.I.ext!3 i>p.I.i\n",
    ),
    // by its full name
    (
        "a.proto\nimport \"b.proto\"; import \"u.proto\"; option (p.s) = { [p.I] { i: 1 } };\n\
|+b.proto\npackage p; import \"google/protobuf/descriptor.proto\"; message Set { \
option message_set_wire_format = true; extensions 4 to max; }\n\
extend google.protobuf.FileOptions { optional Set s = 50001; } message I { extend Set { optional I ext = 100; } \
optional int32 i = 1; }\n|-u.proto\nmessage {\n|",
        "p.s>1>p.s p.I>1>p.I.ext!2 i>p.I.i\n",
    ),
    // by its simple name
    (
        "a.proto\npackage p.q; import \"u.proto\"; option java_package = \"x\";\n|-u.proto\nmessage {\n|",
        "java_package>google.protobuf.FileOptions.java_package\n",
    ),
];

#[test]
fn names_in_doubt(rt: HostRuntime) {
    for (tree, want) in &ROWS {
        assert!(rt; is_listed_kept(rt.alloc(), tree, want), "{tree}");
    }
}
