//! Parts of options' names, and words as values.

use crate::listed::is_listed;

/// Files, without those of `google.protobuf`, and what the names in the options of the first one name.
const ROWS: [(&str, &str); 41] = [
    (
        "a.proto\nsyntax = \"proto2\";\nimport \"b.proto\"; option (p.x) = 1; option java_package = \"a\";\n\
|b.proto\nsyntax = \"proto2\";\npackage p;\nimport \"google/protobuf/descriptor.proto\";\nextend \
google.protobuf.FileOptions { optional int32 x = 50001; }\n|",
        "p.x>1>p.x\njava_package>google.protobuf.FileOptions.java_package\n",
    ),
    (
        "a.proto\nsyntax = \"proto2\";\nimport \"b.proto\"; option (p.x).y = 1;\n|b.proto\nsyntax = \
\"proto2\";\nimport \"c.proto\"; package p;\nimport \"google/protobuf/descriptor.proto\";\nextend \
google.protobuf.FileOptions { optional p.T x = 50001; }\n|c.proto\nsyntax = \"proto2\";\npackage p; \
message T { optional int32 y = 1; }\n|",
        "p.x>1>p.x y>p.T.y\n",
    ),
    (
        "a.proto\nsyntax = \"proto2\";\nimport \"b.proto\"; option (p.x).(p.e) = 1;\n|b.proto\nsyntax = \
\"proto2\";\nimport \"c.proto\"; package p;\nimport \"google/protobuf/descriptor.proto\";\nextend \
google.protobuf.FileOptions { optional p.T x = 50001; }\n|c.proto\nsyntax = \"proto2\";\npackage p; \
message T { extensions 1 to 9; } extend T { optional int32 e = 1; }\n|",
        "p.x>1>p.x p.e?\n",
    ),
    (
        "a.proto\nsyntax = \"proto2\";\nimport \"b.proto\"; option (p.x) = V;\n|b.proto\nsyntax = \
\"proto2\";\nimport \"c.proto\"; package p;\nimport \"google/protobuf/descriptor.proto\";\nextend \
google.protobuf.FileOptions { optional p.E x = 50001; }\n|c.proto\nsyntax = \"proto2\";\npackage p; \
enum E { V = 0; }\n|",
        "p.x>1>p.x V>p.V\n",
    ),
    (
        "a.proto\nsyntax = \"proto2\";\noption optimize_for = SPEED; message M { option deprecated = true; }\n|",
        "optimize_for>google.protobuf.FileOptions.optimize_for SPEED>google.protobuf.FileOptions.SPEED\n\
deprecated>google.protobuf.MessageOptions.deprecated true\n",
    ),
    (
        "a.proto\nsyntax = \"proto2\";\npackage p;\nimport \"google/protobuf/descriptor.proto\";\noption (x) \
= 1; extend google.protobuf.FieldOptions { optional int32 x = 50001; }\n|",
        "x?\n",
    ),
    (
        "a.proto\nsyntax = \"proto2\";\nimport \"google/protobuf/descriptor.proto\";\noption \
(google.protobuf.FileOptions.java_package) = \"a\";\n|",
        "google.protobuf.FileOptions.java_package>1>2>google.protobuf.FileOptions>\
google.protobuf.FileOptions.java_package\n\
",
    ),
    (
        "a.proto\nsyntax = \"proto2\";\noption (google.protobuf.FileOptions.java_package) = \"a\";\n|",
        "google.protobuf.FileOptions.java_package?\n",
    ),
    (
        "a.proto\nsyntax = \"proto2\";\nimport \"google/protobuf/descriptor.proto\";\noption x = 1; extend \
google.protobuf.FileOptions { optional int32 x = 50001; }\n|",
        "x?\n",
    ),
    (
        "a.proto\nsyntax = \"proto2\";\npackage p;\nimport \"google/protobuf/descriptor.proto\";\noption \
(x).a.b = 3; message A { optional int32 b = 1; } message T { optional A a = 1; } extend \
google.protobuf.FileOptions { optional T x = 50001; }\n|",
        "x>p.x a>p.T.a b>p.A.b\n",
    ),
    (
        "a.proto\nsyntax = \"proto2\";\npackage p;\nimport \"google/protobuf/descriptor.proto\";\nmessage T { \
extensions 1 to 9; extend T { optional int32 e = 1; } } message M { extend T { optional int32 e = 2; \
} optional int32 f = 1 [(x).(e) = 1]; } extend T { optional int32 e = 3; } extend \
google.protobuf.FieldOptions { optional T x = 50001; }\n|",
        "x>p.x e>p.M.e\n",
    ),
    (
        "a.proto\nsyntax = \"proto2\";\npackage p;\nimport \"google/protobuf/descriptor.proto\";\nmessage T { \
optional int32 a = 1; } option (x).(p.T.a) = 1; extend google.protobuf.FileOptions { optional T x = \
50001; }\n|",
        "x>p.x p.T.a>1>p.T>p.T.a\n",
    ),
    (
        "a.proto\nsyntax = \"proto2\";\npackage p;\nimport \"google/protobuf/descriptor.proto\";\nmessage T { \
extensions 1 to 9; extend T { optional int32 e = 1; } } option (x).e = 1; extend \
google.protobuf.FileOptions { optional T x = 50001; }\n|",
        "x>p.x e?\n",
    ),
    (
        "a.proto\nsyntax = \"proto2\";\npackage p;\nimport \"google/protobuf/descriptor.proto\";\nmessage T { \
oneof o { int32 a = 1; } } option (x).a = 1; extend google.protobuf.FileOptions { optional T x = \
50001; }\n|",
        "x>p.x a>p.T.a\n",
    ),
    (
        "a.proto\nsyntax = \"proto2\";\npackage p;\nimport \"google/protobuf/descriptor.proto\";\nmessage T { \
oneof o { int32 a = 1; } } option (x).o = 1; extend google.protobuf.FileOptions { optional T x = \
50001; }\n|",
        "x>p.x o?\n",
    ),
    (
        "a.proto\nsyntax = \"proto2\";\npackage p;\nimport \"google/protobuf/descriptor.proto\";\nmessage T { \
optional group G = 1 { optional int32 a = 1; } } option (x).g.a = 1; extend \
google.protobuf.FileOptions { optional T x = 50001; }\n|",
        "x>p.x g>p.T.g a>p.T.G.a\n",
    ),
    (
        "a.proto\nsyntax = \"proto2\";\npackage p;\nimport \"google/protobuf/descriptor.proto\";\nmessage T { \
optional group G = 1 { optional int32 a = 1; } } option (x).G.a = 1; extend \
google.protobuf.FileOptions { optional T x = 50001; }\n|",
        "x>p.x G? a\n",
    ),
    (
        "a.proto\nsyntax = \"proto2\";\npackage p;\nimport \"google/protobuf/descriptor.proto\";\nextend \
google.protobuf.FileOptions { optional group G = 50001 { optional int32 a = 1; } } option (g).a = \
1;\n|",
        "g>p.g a>p.G.a\n",
    ),
    (
        "a.proto\nsyntax = \"proto2\";\npackage p;\nimport \"google/protobuf/descriptor.proto\";\nextend \
google.protobuf.FileOptions { optional group G = 50001 { optional int32 a = 1; } } option (G).a = \
1;\n|",
        "G? a\n",
    ),
    (
        "a.proto\nsyntax = \"proto2\";\npackage p;\nimport \"google/protobuf/descriptor.proto\";\nextend \
google.protobuf.FileOptions { optional int32 x = 50001; } option (x).a = 1;\n|",
        "x>p.x a?\n",
    ),
    (
        "a.proto\nsyntax = \"proto2\";\npackage p;\nimport \"google/protobuf/descriptor.proto\";\nmessage T { \
map<string, int32> m = 1; } extend google.protobuf.FileOptions { optional T x = 50001; } option \
(x).m = { key: \"a\" value: 1 };\n|",
        "x>p.x m>p.T.m key value\n",
    ),
    (
        "a.proto\nsyntax = \"proto2\";\npackage p;\nimport \"google/protobuf/descriptor.proto\";\nmessage M { \
enum E { V = 0; } } enum F { V = 7; } extend google.protobuf.FileOptions { optional M.E x = 50001; } \
option (x) = V;\n|",
        "x>p.x V>p.M.V\n",
    ),
    (
        "a.proto\nsyntax = \"proto2\";\npackage p;\nimport \"google/protobuf/descriptor.proto\";\nmessage T { \
optional int32 a = 1; optional int32 b = 2; } extend google.protobuf.FileOptions { optional T x = \
50001; } option (x).a = 1; option (x).b = 2;\n|",
        "x>p.x a>p.T.a\nx>p.x b>p.T.b\n",
    ),
    (
        "a.proto\nsyntax = \"proto2\";\npackage p; message M { optional int32 e = 1 [default = 5, deprecated \
= true]; }\n|",
        "default\ndeprecated>google.protobuf.FieldOptions.deprecated true\n",
    ),
    (
        "a.proto\nsyntax = \"proto2\";\npackage p;\nimport \"google/protobuf/descriptor.proto\";\nenum E { V \
= 0; } extend google.protobuf.FileOptions { optional E x = 50001; } option (x) = V;\n|",
        "x>p.x V>p.V\n",
    ),
    (
        "a.proto\nsyntax = \"proto2\";\npackage p;\nimport \"google/protobuf/descriptor.proto\";\nenum E { V \
= 0; } extend google.protobuf.FileOptions { optional E x = 50001; } option (x) = E.V;\n|",
        "x>p.x E.V?\n",
    ),
    (
        "a.proto\nsyntax = \"proto2\";\npackage p;\nimport \"google/protobuf/descriptor.proto\";\nenum E { V \
= 0; } enum F { W = 0; } extend google.protobuf.FileOptions { optional E x = 50001; } option (x) = \
W;\n|",
        "x>p.x W?\n",
    ),
    (
        "a.proto\nsyntax = \"proto2\";\npackage p;\nimport \"google/protobuf/descriptor.proto\";\nmessage M { \
enum E { V = 0; } } extend google.protobuf.FileOptions { optional M.E x = 50001; } option (x) = V;\n|",
        "x>p.x V>p.M.V\n",
    ),
    (
        "a.proto\nsyntax = \"proto2\";\npackage p; enum E { V = 0; W = 1; } message M { optional E e = 1 \
[default = W]; }\n|",
        "default W>p.W\n",
    ),
    (
        "a.proto\nsyntax = \"proto2\";\npackage p; enum E { V = 0; W = 1; } message M { optional E e = 1 \
[default = X]; }\n|",
        "default X?\n",
    ),
    (
        "a.proto\nsyntax = \"proto2\";\npackage p; message M { option default = 1; }\n|",
        "default?\n",
    ),
    (
        "a.proto\nsyntax = \"proto2\";\npackage p; message M { optional int32 e = 1 [json_name = \"x\"]; }\n|",
        "json_name\n",
    ),
    (
        "a.proto\nsyntax = \"proto2\";\npackage p; message M { optional int32 e = 1 [default.x = 1]; }\n|",
        "default? x\n",
    ),
    (
        "a.proto\nsyntax = \"proto2\";\npackage p;\nimport \"google/protobuf/descriptor.proto\";\nextend \
google.protobuf.FileOptions { optional int32 o0 = 50001; }\nextend google.protobuf.MessageOptions { \
optional int32 o1 = 50001; }\nextend google.protobuf.FieldOptions { optional int32 o2 = 50001; }\n\
extend google.protobuf.OneofOptions { optional int32 o3 = 50001; }\nextend \
google.protobuf.EnumOptions { optional int32 o4 = 50001; }\nextend google.protobuf.EnumValueOptions \
{ optional int32 o5 = 50001; }\nextend google.protobuf.ServiceOptions { optional int32 o6 = 50001; \
}\nextend google.protobuf.MethodOptions { optional int32 o7 = 50001; }\nextend \
google.protobuf.ExtensionRangeOptions { optional int32 o8 = 50001; }\noption (o0) = 1;\nmessage M { \
option (o1) = 1; optional int32 f = 1 [(o2) = 1]; oneof o { option (o3) = 1; int32 g = 2 [(o2) = 2]; \
} extensions 10 to 20 [(o8) = 1]; enum E { option (o4) = 1; V = 0 [(o5) = 1]; } }\nservice S { \
option (o6) = 1; rpc m (M) returns (M) { option (o7) = 1; } }\n|",
        "o0>p.o0\no1>p.o1\no2>p.o2\no3>p.o3\no2>p.o2\no8>p.o8\no4>p.o4\no5>p.o5\no6>p.o6\no7>p.o7\n",
    ),
    (
        "a.proto\nsyntax = \"proto2\";\npackage p;\nimport \"google/protobuf/descriptor.proto\";\nextend \
google.protobuf.ExtensionRangeOptions { optional int32 x = 50001; } message M { extensions 4 to 9, \
20 [(x) = 1]; }\n|",
        "x>p.x\n",
    ),
    (
        "a.proto\nsyntax = \"proto3\";\npackage p;\nimport \"google/protobuf/descriptor.proto\";\nmessage H { \
string get = 1; H more = 2; } extend google.protobuf.MethodOptions { H http = 50001; } message R {} \
service S { rpc m (R) returns (stream R) { option (http) = { get: \"/x\" more { get: \"/y\" } }; } \
}\n|",
        "http>p.http get>p.H.get more>p.H.more get>p.H.get\n",
    ),
    (
        "a.proto\nsyntax = \"proto2\";\noption (nope) = 1;\n|",
        "nope?\n",
    ),
    (
        "a.proto\nsyntax = \"proto2\";\npackage p;\nimport \"google/protobuf/descriptor.proto\";\noption \
(x).a = 1; message T { optional int32 a = 1; } extend google.protobuf.FileOptions { optional T x = \
50001; }\n|",
        "x>p.x a>p.T.a\n",
    ),
    (
        "a.proto\nsyntax = \"proto2\";\nimport \"b.proto\"; import \"c.proto\"; package p.r; option (q.x) = \
1;\n|b.proto\nsyntax = \"proto2\";\npackage q;\nimport \"google/protobuf/descriptor.proto\";\nextend \
google.protobuf.FileOptions { optional int32 x = 50001; }\n|c.proto\nsyntax = \"proto2\";\npackage \
p.q; message Z {}\n|",
        "q.x?\n",
    ),
    (
        "a.proto\nsyntax = \"proto2\";\npackage p;\nimport \"google/protobuf/descriptor.proto\";\nextend \
google.protobuf.FileOptions { optional int32 x = 50001; } option (x) = 1; option java_package = \"a\";\n\
|+vendor/descriptor.proto\nsyntax = \"proto2\"; package google.protobuf; message FileOptions { optional \
string java_package = 1; extensions 1000 to max; }\n|",
        "x>p.x\njava_package>google.protobuf.FileOptions.java_package\n",
    ),
    (
        "a.proto\nsyntax = \"proto2\";\npackage p;\nimport \"vendor/descriptor.proto\";\nextend \
google.protobuf.FileOptions { optional int32 x = 50001; } option (x) = 1; option java_package = \"a\";\n\
|+vendor/descriptor.proto\nsyntax = \"proto2\"; package google.protobuf; message FileOptions { optional \
string java_package = 1; extensions 1000 to max; }\n|",
        "x>p.x\njava_package>google.protobuf.FileOptions.java_package\n",
    ),
];

#[test]
fn names_of_parts(rt: HostRuntime) {
    for (tree, want) in &ROWS {
        assert!(rt; is_listed(rt.alloc(), tree, want), "{tree}");
    }
}
