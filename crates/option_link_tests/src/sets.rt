//! Names in message sets.

use crate::listed::is_listed_beside;

/// A file that sees the messages.
const ABOVE: &str = "a.proto\nsyntax = \"proto2\";\npackage p;\nimport \"b.proto\";\n";

/// A message set, and messages with extensions of it.
const TYPES: &str =
    "b.proto\nsyntax = \"proto2\";\npackage p;\nimport \"google/protobuf/descriptor.proto\";\nmessage Set { \
option message_set_wire_format = true; extensions 4 to max; } message I { extend Set { optional I ext = 100; } optional \
int32 i = 1; } message U { optional int32 i = 1; extend Set { optional I other = 101; optional U one = 102; optional U \
two = 103; } } message V { optional int32 i = 1; message In { extend Set { optional V deep = 104; } } }\nextend Set { \
optional V v = 105; } message Q { message In { optional int32 j = 1; extend Set { optional In in = 106; } } } message O \
{ optional int32 o = 1; extend N { optional O ext = 100; } } message N { extensions 4 to max; }\nextend \
google.protobuf.FileOptions { optional Set s = 50001; optional N n = 50002; }\n|";

/// Options of a file beside these, and what their names name.
const ROWS: [(&str, &str); 8] = [
    (
        "option (s) = { [p.I] { i: 1 } };",
        "s>p.s p.I>1>p.I.ext i>p.I.i\n",
    ),
    (
        "option (s) = { [U]: { i: 2 } };",
        "s>p.s U>p.U.one i>p.U.i\n",
    ),
    (
        "option (s) = { [Q.In] { j: 3 } };",
        "s>p.s Q.In>p.Q>p.Q.In.in j>p.Q.In.j\n",
    ),
    (
        "option (s) = { [p.I.ext] { i: 1 } };",
        "s>p.s p.I.ext>1>p.I>p.I.ext i>p.I.i\n",
    ),
    // an extension in a message inside the message, or beside it
    (
        "option (s) = { [p.V] { i: 1 } [p.v] { i: 2 } };",
        "s>p.s p.V? i p.v>1>p.v i>p.V.i\n",
    ),
    ("option (s).(p.I) = { i: 1 };", "s>p.s p.I? i\n"),
    // no message set
    ("option (n) = { [p.O] { o: 1 } };", "n>p.n p.O? o\n"),
    (
        "option (n) = { [p.O.ext] { o: 1 } };",
        "n>p.n p.O.ext>1>p.O>p.O.ext o>p.O.o\n",
    ),
];

/// A message named as its package, with an extension of its name.
const ALIKE: &str =
    "b.proto\nsyntax = \"proto2\";\npackage p;\nimport \"google/protobuf/descriptor.proto\";\nmessage Set { \
option message_set_wire_format = true; extensions 4 to max; } message p { optional int32 i = 1; extend Set { optional p \
p = 100; } }\nextend google.protobuf.FileOptions { optional Set s = 50001; }\n|";

/// Options of a file beside that.
const ROWS_ALIKE: [(&str, &str); 2] = [
    ("option (s) = { [p] { i: 1 } };", "s>p.s p>p.p.p i>p.p.i\n"),
    (
        "option (s) = { [p.p] { i: 1 } };",
        "s>p.s p.p>p.p>p.p.p i>p.p.i\n",
    ),
];

#[test]
fn names_in_message_sets(rt: HostRuntime) {
    for (option, want) in &ROWS {
        assert!(rt;
            is_listed_beside(rt.alloc(), ABOVE, option, TYPES, want),
            "{option}"
        );
    }
}

#[test]
fn names_alike_in_message_sets(rt: HostRuntime) {
    for (option, want) in &ROWS_ALIKE {
        assert!(rt;
            is_listed_beside(rt.alloc(), ABOVE, option, ALIKE, want),
            "{option}"
        );
    }
}
