//! From where names of options are looked up.

use crate::listed::is_listed;

/// Files, without those of `google.protobuf`, and what the names in the options of the first one name.
const ROWS: [(&str, &str); 28] = [
    (
        "a.proto\nsyntax = \"proto2\";\npackage p;\nimport \"google/protobuf/descriptor.proto\";\nextend \
google.protobuf.MessageOptions { optional int32 x = 50001; }\nmessage M { option (x) = 1; extend \
google.protobuf.MessageOptions { optional int32 x = 50002; } }\n|",
        "x>p.x\n",
    ),
    (
        "a.proto\nsyntax = \"proto2\";\npackage p;\nimport \"google/protobuf/descriptor.proto\";\nextend \
google.protobuf.FieldOptions { optional int32 x = 50001; }\nmessage M { extend \
google.protobuf.FieldOptions { optional int32 x = 50002; } optional int32 f = 1 [(x) = 1]; }\n|",
        "x>p.M.x\n",
    ),
    (
        "a.proto\nsyntax = \"proto2\";\npackage p;\nimport \"google/protobuf/descriptor.proto\";\nextend \
google.protobuf.EnumOptions { optional int32 x = 50001; }\nextend google.protobuf.EnumValueOptions { \
optional int32 y = 50001; }\nmessage M { extend google.protobuf.EnumOptions { optional int32 x = \
50002; } extend google.protobuf.EnumValueOptions { optional int32 y = 50002; }\nenum E { option (x) \
= 1; V = 0 [(y) = 1]; } }\n|",
        "x>p.M.x\ny>p.M.y\n",
    ),
    (
        "a.proto\nsyntax = \"proto2\";\npackage p;\nimport \"google/protobuf/descriptor.proto\";\nextend \
google.protobuf.OneofOptions { optional int32 x = 50001; }\nmessage M { extend \
google.protobuf.OneofOptions { optional int32 x = 50002; } oneof o { option (x) = 1; int32 f = 1; } \
}\n|",
        "x>p.M.x\n",
    ),
    (
        "a.proto\nsyntax = \"proto2\";\npackage p;\nimport \"google/protobuf/descriptor.proto\";\nextend \
google.protobuf.ExtensionRangeOptions { optional int32 x = 50001; }\nmessage M { extend \
google.protobuf.ExtensionRangeOptions { optional int32 x = 50002; } extensions 4 to 9 [(x) = 1]; }\n|",
        "x>p.x\n",
    ),
    (
        "a.proto\nsyntax = \"proto2\";\npackage p;\nimport \"google/protobuf/descriptor.proto\";\nextend \
google.protobuf.ServiceOptions { optional int32 x = 50001; }\nextend google.protobuf.MethodOptions { \
optional int32 y = 50001; }\nmessage R {} service S { option (x) = 1; rpc m (R) returns (R) { option \
(y) = 2; } }\n|",
        "x>p.x\ny>p.y\n",
    ),
    (
        "a.proto\nsyntax = \"proto2\";\npackage p;\nimport \"google/protobuf/descriptor.proto\";\nextend \
google.protobuf.MethodOptions { optional int32 y = 50001; }\nmessage R {} service S { rpc y (R) \
returns (R); rpc m (R) returns (R) { option (y) = 2; } }\n|",
        "y?\n",
    ),
    (
        "a.proto\nsyntax = \"proto2\";\npackage p;\nimport \"google/protobuf/descriptor.proto\";\nextend \
google.protobuf.ServiceOptions { optional int32 x = 50001; }\nmessage R {} service S { option (x) = \
2; rpc x (R) returns (R); }\n|",
        "x>p.x\n",
    ),
    (
        "a.proto\nsyntax = \"proto2\";\nimport \"google/protobuf/descriptor.proto\";\noption (x) = 1; package \
p.q; extend google.protobuf.FileOptions { optional int32 x = 50001; }\n|",
        "x>p.q.x\n",
    ),
    (
        "a.proto\nsyntax = \"proto2\";\nimport \"b.proto\"; package p.q; option (x) = 1;\n|b.proto\nsyntax = \
\"proto2\";\npackage p;\nimport \"google/protobuf/descriptor.proto\";\nextend \
google.protobuf.FileOptions { optional int32 x = 50001; }\n|",
        "x>p.x\n",
    ),
    (
        "a.proto\nsyntax = \"proto2\";\nimport \"google/protobuf/descriptor.proto\";\noption (x) = 1; extend \
google.protobuf.FileOptions { optional int32 x = 50001; }\n|",
        "x>x\n",
    ),
    (
        "a.proto\nsyntax = \"proto2\";\npackage p;\nimport \"google/protobuf/descriptor.proto\";\noption (x) \
= 1; message M { extend google.protobuf.FileOptions { optional int32 x = 50001; } }\n|",
        "x?\n",
    ),
    (
        "a.proto\nsyntax = \"proto2\";\npackage p;\nimport \"google/protobuf/descriptor.proto\";\nextend \
google.protobuf.FieldOptions { optional int32 x = 50001; }\nmessage T { extensions 1 to 9; } message \
M { extend google.protobuf.FieldOptions { optional int32 x = 50002; } extend T { optional int32 e = \
1 [(x) = 7]; } }\n|",
        "x>p.M.x\n",
    ),
    (
        "a.proto\nsyntax = \"proto2\";\npackage p;\nimport \"google/protobuf/descriptor.proto\";\nextend \
google.protobuf.FieldOptions { optional int32 x = 50001; }\nextend google.protobuf.MessageOptions { \
optional int32 y = 50001; }\nmessage M { extend google.protobuf.FieldOptions { optional int32 x = \
50002; } extend google.protobuf.MessageOptions { optional int32 y = 50002; }\noptional group G = 1 \
[(x) = 1] { option (y) = 2; extend google.protobuf.MessageOptions { optional int32 y = 50003; } } }\n\
|",
        "x>p.M.x\ny>p.M.y\n",
    ),
    (
        "a.proto\nsyntax = \"proto2\";\nimport \"b.proto\"; package p.q; message x {} option (x) = 1;\n\
|b.proto\nsyntax = \"proto2\";\npackage p;\nimport \"google/protobuf/descriptor.proto\";\nextend \
google.protobuf.FileOptions { optional int32 x = 50001; }\n|",
        "x?\n",
    ),
    (
        "a.proto\nsyntax = \"proto2\";\nimport \"b.proto\"; package p.q.x; option (x) = 1;\n|b.proto\nsyntax \
= \"proto2\";\npackage p;\nimport \"google/protobuf/descriptor.proto\";\nextend \
google.protobuf.FileOptions { optional int32 x = 50001; }\n|",
        "x?\n",
    ),
    (
        "a.proto\nsyntax = \"proto2\";\npackage p;\nimport \"google/protobuf/descriptor.proto\";\nextend \
google.protobuf.FieldOptions { optional int32 x = 50001; } message M { optional int32 x = 1; \
optional int32 f = 2 [(x) = 1]; }\n|",
        "x?\n",
    ),
    (
        "a.proto\nsyntax = \"proto2\";\npackage p;\nimport \"google/protobuf/descriptor.proto\";\nextend \
google.protobuf.FieldOptions { optional int32 x = 50001; } message M { enum E { x = 0; } optional \
int32 f = 2 [(x) = 1]; }\n|",
        "x?\n",
    ),
    (
        "a.proto\nsyntax = \"proto2\";\npackage p;\nimport \"google/protobuf/descriptor.proto\";\nextend \
google.protobuf.FieldOptions { optional int32 x = 50001; } message M { oneof x { int32 g = 1; } \
optional int32 f = 2 [(x) = 1]; }\n|",
        "x?\n",
    ),
    (
        "a.proto\nsyntax = \"proto2\";\nimport \"b.proto\"; package p.r; message q {} option (q.x) = 1;\n\
|b.proto\nsyntax = \"proto2\";\npackage p.q;\nimport \"google/protobuf/descriptor.proto\";\nextend \
google.protobuf.FileOptions { optional int32 x = 50001; }\n|",
        "q.x?\n",
    ),
    (
        "a.proto\nsyntax = \"proto2\";\nimport \"b.proto\"; import \"c.proto\"; package p.r; option (q.x) = \
1;\n|b.proto\nsyntax = \"proto2\";\npackage p.q;\nimport \"google/protobuf/descriptor.proto\";\n\
extend google.protobuf.FileOptions { optional int32 x = 50001; }\n|c.proto\nsyntax = \"proto2\";\n\
package p.r.q; message Z {}\n|",
        "q.x?\n",
    ),
    (
        "a.proto\nsyntax = \"proto2\";\nimport \"b.proto\"; package p; message M { optional int32 q = 1; \
optional int32 f = 2 [(q.x) = 3]; }\n|b.proto\nsyntax = \"proto2\";\npackage q;\nimport \
\"google/protobuf/descriptor.proto\";\nextend google.protobuf.FieldOptions { optional int32 x = \
50001; }\n|",
        "q.x>1>q.x\n",
    ),
    (
        "a.proto\nsyntax = \"proto2\";\nimport \"b.proto\"; package p; message M { enum q { A = 0; } optional \
int32 f = 2 [(q.x) = 3]; }\n|b.proto\nsyntax = \"proto2\";\npackage q;\nimport \
\"google/protobuf/descriptor.proto\";\nextend google.protobuf.FieldOptions { optional int32 x = \
50001; }\n|",
        "q.x?\n",
    ),
    (
        "a.proto\nsyntax = \"proto2\";\nimport \"b.proto\"; package p; service q { } message M { optional \
int32 f = 2 [(q.x) = 3]; }\n|b.proto\nsyntax = \"proto2\";\npackage q;\nimport \
\"google/protobuf/descriptor.proto\";\nextend google.protobuf.FieldOptions { optional int32 x = \
50001; }\n|",
        "q.x?\n",
    ),
    (
        "a.proto\nsyntax = \"proto2\";\npackage p;\nimport \"google/protobuf/descriptor.proto\";\noption \
(M.x) = 1; message M { extend google.protobuf.FileOptions { optional int32 x = 50001; } }\n|",
        "M.x>p.M>p.M.x\n",
    ),
    (
        "a.proto\nsyntax = \"proto2\";\npackage p;\nimport \"google/protobuf/descriptor.proto\";\noption \
(.p.x) = 1; extend google.protobuf.FileOptions { optional int32 x = 50001; }\n|",
        "p.x>1>p.x\n",
    ),
    (
        "a.proto\nsyntax = \"proto2\";\nimport \"b.proto\"; option (p.x) = 1;\n|b.proto\nsyntax = \
\"proto2\";\nimport public \"c.proto\";\n|c.proto\nsyntax = \"proto2\";\npackage p;\nimport \
\"google/protobuf/descriptor.proto\";\nextend google.protobuf.FileOptions { optional int32 x = \
50001; }\n|",
        "p.x>1>p.x\n",
    ),
    (
        "a.proto\nsyntax = \"proto2\";\nimport \"b.proto\"; option (p.x) = 1;\n|b.proto\nsyntax = \
\"proto2\";\nimport \"c.proto\";\n|c.proto\nsyntax = \"proto2\";\npackage p;\nimport \
\"google/protobuf/descriptor.proto\";\nextend google.protobuf.FileOptions { optional int32 x = \
50001; }\n|",
        "p.x?\n",
    ),
];

#[test]
fn names_from_scopes(rt: HostRuntime) {
    for (tree, want) in &ROWS {
        assert!(rt; is_listed(rt.alloc(), tree, want), "{tree}");
    }
}
