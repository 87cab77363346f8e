//! In which file a source has the messages of its options, and in which files what its options name is.

use crate::listed::is_listed_whole;

/// All files of a tree, and what the names in the options of the first one name.
const ROWS: [(&str, &str); 22] = [
    // that which protoc comes with, which nobody imports
    (
        "a.proto\noption java_package = \"x\";\n\
|+google/protobuf/descriptor.proto\npackage google.protobuf; \
message FileOptions { optional string java_package = 1; }\n|",
        "java_package>google.protobuf.FileOptions.java_package\n",
    ),
    // a copy that the source imports, and not the file at its own path
    (
        "a.proto\nimport \"my.proto\"; option java_package = \"x\"; option go_package = \"y\";\n\
|+my.proto\npackage google.protobuf; message FileOptions { optional string java_package = 1; }\n\
|+google/protobuf/descriptor.proto\npackage google.protobuf; \
message FileOptions { optional string go_package = 2; }\n|",
        "java_package>google.protobuf.FileOptions.java_package\ngo_package?\n",
    ),
    // a copy to which private imports of included files lead
    (
        "a.proto\nimport \"b.proto\"; option java_package = \"x\";\n\
|+b.proto\nimport \"c.proto\";\n|+c.proto\nimport \"my.proto\";\n\
|+my.proto\npackage google.protobuf; message FileOptions { optional string java_package = 1; }\n\
|+google/protobuf/descriptor.proto\npackage google.protobuf; message FileOptions {}\n|",
        "java_package>google.protobuf.FileOptions.java_package\n",
    ),
    // a copy that nobody imports takes nothing
    (
        "a.proto\noption java_package = \"x\";\n\
|+my.proto\npackage google.protobuf; message FileOptions { optional string go_package = 1; }\n\
|+google/protobuf/descriptor.proto\npackage google.protobuf; \
message FileOptions { optional string java_package = 1; }\n|",
        "java_package>google.protobuf.FileOptions.java_package\n",
    ),
    // nor one that another source imports
    (
        "a.proto\noption java_package = \"x\";\n|b.proto\nimport \"my.proto\";\n\
|+my.proto\npackage google.protobuf; message FileOptions { optional string go_package = 1; }\n\
|+google/protobuf/descriptor.proto\npackage google.protobuf; \
message FileOptions { optional string java_package = 1; }\n|",
        "java_package>google.protobuf.FileOptions.java_package\n",
    ),
    // and gives nothing
    (
        "a.proto\noption java_package = \"x\";\n|b.proto\nimport \"my.proto\";\n\
|+my.proto\npackage google.protobuf; message FileOptions { optional string java_package = 1; }\n|",
        "java_package\n",
    ),
    // a copy has the messages of its own options in itself
    (
        "my.proto\npackage google.protobuf; message FileOptions { optional string java_package = 1; }\n\
option java_package = \"x\";\n\
|+google/protobuf/descriptor.proto\npackage google.protobuf; message FileOptions {}\n|",
        "java_package>google.protobuf.FileOptions.java_package\n",
    ),
    // several
    (
        "a.proto\nimport \"my.proto\"; import \"google/protobuf/descriptor.proto\"; option java_package = \"x\";\n\
|+my.proto\npackage google.protobuf; message FileOptions { optional string java_package = 1; }\n\
|+google/protobuf/descriptor.proto\npackage google.protobuf; \
message FileOptions { optional string java_package = 1; }\n|",
        "java_package?\n",
    ),
    // several, and a message that but one of them has
    (
        "a.proto\nimport \"b.proto\"; import \"c.proto\"; message M { option deprecated = true; }\n\
|+b.proto\npackage google.protobuf; message FileOptions {}\n\
|+c.proto\npackage google.protobuf; message FileOptions {} message MessageOptions { optional bool deprecated = 1; }\n|",
        "deprecated? true\n",
    ),
    // none
    ("a.proto\noption java_package = \"x\";\n|", "java_package\n"),
    // none there, of the element
    (
        "a.proto\nmessage M { option deprecated = true; }\n\
|+google/protobuf/descriptor.proto\npackage google.protobuf; \
message FileOptions { optional string java_package = 1; }\n|",
        "deprecated true\n",
    ),
    // left out
    (
        "a.proto\noption java_package = \"x\";\n\
|-google/protobuf/descriptor.proto\npackage google.protobuf; \
message FileOptions { optional string java_package = 1; }\n|",
        "java_package?\n",
    ),
    // a copy that is left out, and not the file at its own path
    (
        "a.proto\nimport \"b.proto\"; option java_package = \"x\";\n|+b.proto\nimport \"my.proto\";\n\
|-my.proto\npackage google.protobuf; message FileOptions { optional string java_package = 1; }\n\
|+google/protobuf/descriptor.proto\npackage google.protobuf; \
message FileOptions { optional string java_package = 1; }\n|",
        "java_package?\n",
    ),
    // left out, and without a message of the element's options
    (
        "a.proto\nmessage M { option deprecated = true; }\n\
|-google/protobuf/descriptor.proto\npackage google.protobuf; message FileOptions {}\n|",
        "deprecated? true\n",
    ),
    // that which protoc comes with can't be read, and is left out
    (
        "a.proto\noption java_package = \"x\";\n|-google/protobuf/descriptor.proto\nmessage {\n|",
        "java_package?\n",
    ),
    // the type of an option's field is in a file that an included file imports privately
    (
        "a.proto\nimport \"b.proto\"; option (x) = { get: 1 k { n: 2 } };\n\
|+b.proto\nimport \"google/protobuf/descriptor.proto\"; import \"http.proto\";\n\
extend google.protobuf.FileOptions { optional Rule x = 50001; }\n\
|+http.proto\nimport \"kind.proto\"; message Rule { optional int32 get = 1; optional Kind k = 2; }\n\
|+kind.proto\nmessage Kind { optional int32 n = 1; }\n\
|+google/protobuf/descriptor.proto\npackage google.protobuf; message FileOptions { extensions 1000 to max; }\n|",
        "x>x get>Rule.get k>Rule.k n>Kind.n\n",
    ),
    // and a file that nobody imports declares one of its names
    (
        "a.proto\nimport \"b.proto\"; option (x) = { get: 1 };\n\
|+b.proto\nimport \"google/protobuf/descriptor.proto\"; import \"http.proto\";\n\
extend google.protobuf.FileOptions { optional Rule x = 50001; }\n\
|+http.proto\nmessage Rule { optional int32 get = 1; } message Kind {}\n|+other.proto\nmessage Kind {}\n\
|+copy/http.proto\nmessage Rule { optional int32 get = 1; } message Kind {}\n\
|+google/protobuf/descriptor.proto\npackage google.protobuf; message FileOptions { extensions 1000 to max; }\n|",
        "x>x get>Rule.get\n",
    ),
    // so does a source
    (
        "a.proto\nimport \"b.proto\"; option (x) = { get: 1 };\n|c.proto\nmessage Rule {}\n\
|+b.proto\nimport \"google/protobuf/descriptor.proto\"; import \"http.proto\";\n\
extend google.protobuf.FileOptions { optional Rule x = 50001; }\n\
|+http.proto\nmessage Rule { optional int32 get = 1; }\n\
|+google/protobuf/descriptor.proto\npackage google.protobuf; message FileOptions { extensions 1000 to max; }\n|",
        "x>x get>Rule.get\n",
    ),
    // what the type is in is left out
    (
        "a.proto\nimport \"b.proto\"; option (x) = { get: 1 };\n\
|+b.proto\nimport \"google/protobuf/descriptor.proto\"; import \"http.proto\";\n\
extend google.protobuf.FileOptions { optional Rule x = 50001; }\n\
|-http.proto\nmessage Rule { optional int32 get = 1; }\n\
|+google/protobuf/descriptor.proto\npackage google.protobuf; message FileOptions { extensions 1000 to max; }\n|",
        "x>x get?\n",
    ),
    // an extension says itself which message it extends
    (
        "a.proto\nimport \"b.proto\"; import \"c.proto\"; option (x) = 1; option (y) = 2;\n\
|+b.proto\nimport \"my.proto\"; extend google.protobuf.FileOptions { optional int32 x = 50001; }\n\
|+c.proto\nimport \"google/protobuf/descriptor.proto\"; \
extend google.protobuf.FileOptions { optional int32 y = 50002; }\n\
|+my.proto\npackage google.protobuf; message FileOptions { extensions 1000 to max; }\n\
|+google/protobuf/descriptor.proto\npackage google.protobuf; message FileOptions { extensions 1000 to max; }\n|",
        "x>x\ny>y\n",
    ),
    // but not one that is left out
    (
        "a.proto\nimport \"b.proto\"; option (x) = 1;\n\
|+b.proto\nimport \"my.proto\"; extend google.protobuf.FileOptions { optional int32 x = 50001; }\n\
|-my.proto\npackage google.protobuf; message FileOptions { extensions 1000 to max; }\n\
|+google/protobuf/descriptor.proto\npackage google.protobuf; message FileOptions { extensions 1000 to max; }\n|",
        "x?\n",
    ),
    // no file at that path is one that protoc comes with, whatever it declares
    (
        "a.proto\noption java_package = \"x\";\n\
|+google/protobuf/descriptor.proto\npackage p; message FileOptions { optional string java_package = 1; }\n|",
        "java_package\n",
    ),
];

#[test]
fn files_with_the_messages_of_options(rt: HostRuntime) {
    for (tree, want) in &ROWS {
        assert!(rt; is_listed_whole(rt.alloc(), tree, want), "{tree}");
    }
}
