//! What options are of, and from where their names are looked up.

use crate::listed::is_listed;

/// Sources of the package `p`, and their options, or the fault of those that have no tree. The second row reads: a
/// message's option is looked up from the package, and a field's from the message.
const ROWS: [(&str, &str); 21] = [
    (
        "syntax = \"proto3\"; import \"a\"; package p; message M { int32 f = 1; }",
        "",
    ),
    (
        "package p; message M { option (x) = 1; optional int32 f = 1 [(.p.y).z = 2]; }",
        "message in p: (x)\nfield f in p.M: (.p.y) z<0\n",
    ),
    ("option (x) = 1; package p;", "file in p: (x)\n"),
    (
        "package p; message M { message N { option a = true; } \
enum E { option b = 1; V = 0 [c = -1, d = \"e\" 'f']; } }",
        "message in p.M: a | =true<0\nenum in p.M: b\nvalue in p.M: c\nvalue in p.M: d\n",
    ),
    (
        "package p; message M { oneof o { option a = 1; int32 f = 1 [b = 2]; } map<string, a.B> m = 2 [c = .5]; }",
        "oneof in p.M: a\nfield f in p.M: b\nfield m in p.M: c\n",
    ),
    (
        "package p; message M { extensions 4, 9 to max [(x) = 1]; extensions 1; reserved 2, 3; reserved \"option\"; }",
        "range in p: (x)\n",
    ),
    (
        "package p; service S { option a = 1; rpc m (stream M) returns (.p.M) { option b = V; ; } \
rpc n (M) returns (M); }",
        "service in p: a\nmethod in p.S: b | =V<0\n",
    ),
    (
        "package p; message M { optional group G = 1 [a = 1] { option b = 2; optional int32 f = 1 [c = 3]; } }",
        "field G in p.M: a\nmessage in p.M: b\nfield f in p.M.G: c\n",
    ),
    (
        "package p; extend M { optional int32 option = 1 [a = 1]; repeated group G = 2 { option b = 1; } }",
        "field option in p: a\nmessage in p: b\n",
    ),
    (
        "package p; message M { extend .p.N { optional a.B f = 1 [a = 1]; } message N {} }",
        "field f in p.M: a\n",
    ),
    (
        "package p; message M { oneof o { group G = 1 { option a = 1; } } }",
        "message in p.M: a\n",
    ),
    (
        "package p; enum E { option a = 1; reserved -1 to 3; reserved \"a\"; V = -1; ; }",
        "enum in p: a\n",
    ),
    (
        "package p; enum E { V = 0 [a = 1]; reserved 2; }",
        "value in p: a\n",
    ),
    (
        "package p; option a.(b.c).d = x.y;",
        "file in p: a (b.c)<0 d<1 | =x.y<2\n",
    ),
    (
        "package p; option a = +inf; option b = -nan; option c = inf;",
        "file in p: a\nfile in p: b\nfile in p: c | =inf<0\n",
    ),
    (
        "syntax = 'proto3'; package p; message option { } extend M { option x = 1 [a = 1]; }",
        "field x in p: a\n",
    ),
    (
        "package p; option (x).y = { n { i 2 } }; option z = { b: V };",
        "file in p: (x) y<0 | n<1\nfile in p: z | b<0 =V<1\n",
    ),
    (
        "package p; message M { extensions 4 to 6 [(x) = { a: [1, ] { } }, y = { b: 1 }]; \
optional int32 f = 1 [z = { ; }]; }",
        "range in p: (x) | a<0\nrange in p: y | b<0\nfield f in p.M: z\n",
    ),
    (
        "package p; service S { rpc m (M) returns (M) { option (h) = { get '/' }; } option a = { b: 1 }; }",
        "method in p.S: (h)\nservice in p: a | b<0\n",
    ),
    ("option a = 1 option b = 2;", "Grammar 13"),
    ("message M { option a = 1; ", "Grammar 26"),
];

#[test]
fn options_of_elements(rt: HostRuntime) {
    for (source, want) in &ROWS {
        assert!(rt; is_listed(rt.alloc(), source, want), "{source}");
    }
}

#[test]
fn scopes_of_the_root(rt: HostRuntime) {
    let source = "option a = 1; message M { option b = 1; message N { option c = 1; } }";
    let want = "file in : a\nmessage in : b\nmessage in M: c\n";
    assert!(rt; is_listed(rt.alloc(), source, want), "{source}");
}

#[test]
fn scopes_of_a_dotted_package(rt: HostRuntime) {
    let source =
        "package p.q.r; option a = 1; message M { option b = 1; optional int32 f = 1 [c = 1]; }";
    let want = "file in p.q.r: a\nmessage in p.q.r: b\nfield f in p.q.r.M: c\n";
    assert!(rt; is_listed(rt.alloc(), source, want), "{source}");
}
