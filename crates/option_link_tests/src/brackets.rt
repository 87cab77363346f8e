//! Names in brackets: of messages in `Any`, and of extensions that other files declare.

use crate::listed::{is_listed, is_listed_below};

/// A message with fields of `Any`, and one that they may hold.
const TYPES: &str =
    "a.proto\nsyntax = \"proto2\";\nimport \"google/protobuf/any.proto\"; package p;\nimport \
\"google/protobuf/descriptor.proto\";\nmessage N { optional int32 i = 1; } message T { optional \
google.protobuf.Any any = 1; repeated google.protobuf.Any anys = 2; } extend \
google.protobuf.FileOptions { optional T x = 50001; }\n";

/// Options of a file below these, and what their names name.
const OF_ANY: [(&str, &str); 8] = [
    (
        "option (x) = { any { [type.googleapis.com/p.N] { i: 1 } } };",
        "x>p.x any>p.T.any p.N>1>p.N i>p.N.i\n",
    ),
    (
        "option (x) = { any: { [type.googleapis.com/p.N]: { i: 1 } } };",
        "x>p.x any>p.T.any p.N>1>p.N i>p.N.i\n",
    ),
    (
        "option (x) = { any < [type.googleapis.com/p.N] < i: 1 > > };",
        "x>p.x any>p.T.any p.N>1>p.N i>p.N.i\n",
    ),
    (
        "option (x) = { any { [type.googleprod.com/p.N] { i: 1 } } };",
        "x>p.x any>p.T.any p.N>1>p.N i>p.N.i\n",
    ),
    (
        "option (x) = { any { [type.googleapis.com/N] { i: 1 } } };",
        "x>p.x any>p.T.any N? i\n",
    ),
    (
        "option (x) = { any { type_url: \"type.googleapis.com/p.N\" value: \"\" } };",
        "x>p.x any>p.T.any type_url>google.protobuf.Any.type_url value>google.protobuf.Any.value\n",
    ),
    (
        "option (x) = { anys: [ { [type.googleapis.com/p.N] { i: 1 } } ] };",
        "x>p.x anys>p.T.anys p.N>1>p.N i>p.N.i\n",
    ),
    (
        "option (x) = { [type.googleapis.com/p.N] { i: 1 } };",
        "x>p.x p.N? i\n",
    ),
];

/// Files, without those of `google.protobuf`, and what the names in the options of the first one name.
const OF_OTHER_FILES: [(&str, &str); 4] = [
    (
        "a.proto\nsyntax = \"proto2\";\npackage p.q; import \"b.proto\"; extend p.T { optional int32 e = 1; } \
option (p.x) = { [e]: 1 };\n|b.proto\nsyntax = \"proto2\";\npackage p;\nimport \
\"google/protobuf/descriptor.proto\";\nmessage T { extensions 1 to 9; extend T { optional int32 e = \
3; } } extend T { optional int32 e = 2; } extend google.protobuf.FileOptions { optional T x = 50001; \
}\n|",
        "p.x>1>p.x e>p.e\n",
    ),
    (
        "a.proto\nsyntax = \"proto2\";\npackage p.q; import \"b.proto\"; option (p.x) = { [e]: 1 \
};\n|b.proto\nsyntax = \"proto2\";\npackage p;\nimport \"google/protobuf/descriptor.proto\";\nmessage \
T { extensions 1 to 9; extend T { optional int32 e = 3; } } extend google.protobuf.FileOptions { \
optional T x = 50001; }\n|",
        "p.x>1>p.x e?\n",
    ),
    (
        "a.proto\nsyntax = \"proto2\";\nimport \"b.proto\"; option (p.x) = { [p.e]: 1 };\n|b.proto\nsyntax = \
\"proto2\";\nimport \"c.proto\"; package p;\nimport \"google/protobuf/descriptor.proto\";\nextend \
google.protobuf.FileOptions { optional T x = 50001; }\n|c.proto\nsyntax = \"proto2\";\npackage p; \
message T { extensions 1 to 9; } extend T { optional int32 e = 2; }\n|",
        "p.x>1>p.x p.e?\n",
    ),
    (
        "a.proto\nsyntax = \"proto2\";\nimport \"b.proto\"; option (p.x) = { any { [type.googleapis.com/p.N] { \
i: 1 } } };\n|b.proto\nsyntax = \"proto2\";\nimport \"c.proto\"; import \
\"google/protobuf/any.proto\"; package p;\nimport \"google/protobuf/descriptor.proto\";\nmessage T { \
optional google.protobuf.Any any = 1; } extend google.protobuf.FileOptions { optional T x = 50001; \
}\n|c.proto\nsyntax = \"proto2\";\npackage p; message N { optional int32 i = 1; }\n|",
        "p.x>1>p.x any>p.T.any p.N? i\n",
    ),
];

#[test]
fn names_of_messages_in_any(rt: HostRuntime) {
    for (option, want) in &OF_ANY {
        assert!(rt;
            is_listed_below(rt.alloc(), TYPES, option, want),
            "{option}"
        );
    }
}

#[test]
fn names_in_brackets_of_other_files(rt: HostRuntime) {
    for (tree, want) in &OF_OTHER_FILES {
        assert!(rt; is_listed(rt.alloc(), tree, want), "{tree}");
    }
}
