//! Names in braces.

use crate::listed::is_listed_below;

/// The messages, groups and extensions of which the names are.
const TYPES: &str =
    "a.proto\nsyntax = \"proto2\";\npackage p;\nimport \"google/protobuf/descriptor.proto\";\nenum E { V = \
0; W = 1; } message N { optional int32 i = 1; repeated N n = 2; optional E e = 3; } message T { \
extensions 100 to 199; optional int32 a = 1; optional N n = 2; repeated N ns = 3; repeated E es = 4; \
optional E e = 5; optional string s = 6; optional double d = 7; map<string, N> m = 8; optional bool b \
= 9; repeated int32 is = 10; reserved \"old\", \"o\" \"lder\";\noptional group G = 11 { optional \
int32 ga = 1; } } extend T { optional int32 x1 = 100; optional N x2 = 101; repeated N x3 = 102; } message H { extend T \
{ optional int32 y = 103; } }\nextend google.protobuf.FileOptions { optional T x = 50001; }\n";

/// Options of a file below these, and what their names name.
const ROWS: [(&str, &str); 32] = [
    (
        "option (x) = { a: 1; n { i: 2, } e: W s: \"q\" \"r\" d: -1.5 };",
        "x>p.x a>p.T.a n>p.T.n i>p.N.i e>p.T.e W>p.W s>p.T.s d>p.T.d\n",
    ),
    ("option (x) = { n < i: 2 > };", "x>p.x n>p.T.n i>p.N.i\n"),
    ("option (x) = { n: < i: 3 > };", "x>p.x n>p.T.n i>p.N.i\n"),
    (
        "option (x) = { ns: [ { i: 1 }, < i: 2 > ] es: [V, W] is: [1, 2] is: [] };",
        "x>p.x ns>p.T.ns i>p.N.i i>p.N.i es>p.T.es V>p.V W>p.W is>p.T.is is>p.T.is\n",
    ),
    (
        "option (x) = { ns [ { i: 1 } ] };",
        "x>p.x ns>p.T.ns i>p.N.i\n",
    ),
    (
        "option (x) = { [p.x1]: 1 [p.x2]: < i: 3 > };",
        "x>p.x p.x1>1>p.x1 p.x2>1>p.x2 i>p.N.i\n",
    ),
    ("option (x) = { [x1]: 1 };", "x>p.x x1>p.x1\n"),
    ("option (x) = { [H.y]: 1 };", "x>p.x H.y>p.H>p.H.y\n"),
    (
        "option (x) = { [p.x3]: [ { i: 1 } ] };",
        "x>p.x p.x3>1>p.x3 i>p.N.i\n",
    ),
    ("option (x) = { [p.T.a]: 1 };", "x>p.x p.T.a>1>p.T>p.T.a\n"),
    (
        "option (x) = { G { ga: 1 } };",
        "x>p.x G>p.T.g ga>p.T.G.ga\n",
    ),
    ("option (x) = { g { ga: 1 } };", "x>p.x g? ga\n"),
    (
        "option (x) = { G: { ga: 1 } };",
        "x>p.x G>p.T.g ga>p.T.G.ga\n",
    ),
    (
        "option (x) = { m { key: \"k\" value { i: 1 } } m: { key: \"l\" value: < i: 2 > } };",
        "x>p.x m>p.T.m key value i>p.N.i m>p.T.m key value i>p.N.i\n",
    ),
    (
        "option (x) = { m: [ { key: \"k\" value { i: 1 } }, { key: \"l\" } ] };",
        "x>p.x m>p.T.m key value i>p.N.i key\n",
    ),
    ("option (x) = { zz: 1 };", "x>p.x zz?\n"),
    ("option (x) = { e: 1 };", "x>p.x e>p.T.e\n"),
    ("option (x) = { e: X };", "x>p.x e>p.T.e X?\n"),
    ("option (x) = { b: t };", "x>p.x b>p.T.b t\n"),
    ("option (x) = { b: True };", "x>p.x b>p.T.b True\n"),
    ("option (x) = { d: -inf };", "x>p.x d>p.T.d\n"),
    ("option (x) = { };", "x>p.x\n"),
    ("option (x) = { /* c */ a: 1 // d\n };", "x>p.x a>p.T.a\n"),
    ("option (x) = { s: 'a' \"b\" };", "x>p.x s>p.T.s\n"),
    ("option (x) = { rr: 1 a: 2 };", "x>p.x rr? a>p.T.a\n"),
    // what the message reserves is read past
    (
        "option (x) = { old: 1 a: 2 older: \"q\" zz: 3 };",
        "x>p.x old a>p.T.a older zz?\n",
    ),
    (
        "option (x) = { old { a: 1 [p.zz]: 2 zz { a: 1 } } a: 2 };",
        "x>p.x old a p.zz zz a a>p.T.a\n",
    ),
    (
        "option (x) = { old: [ { a: 1 }, < zz: 2 > ] };",
        "x>p.x old a zz\n",
    ),
    ("option (x).old = 1;", "x>p.x old?\n"),
    ("option (x) = { n { old: 1 } };", "x>p.x n>p.T.n old?\n"),
    ("option (x) = { [old]: 1 };", "x>p.x old?\n"),
    ("option (x) = { Old: 1 };", "x>p.x Old?\n"),
];

#[test]
fn names_in_braces(rt: HostRuntime) {
    for (option, want) in &ROWS {
        assert!(rt;
            is_listed_below(rt.alloc(), TYPES, option, want),
            "{option}"
        );
    }
}
