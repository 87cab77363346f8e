//! Messages in options' values, and what is read past.

use crate::listed::is_listed;
use proto_options::MAX_AGGREGATE_DEPTH;
use std::alloc::Global;
use test_kit::Draft;

/// Values of the option `x`, and the names behind its own. The third row reads: `i` is looked up in the type of `n`,
/// the second name, and `W` in that of `e`, the fourth.
const ROWS: [(&str, &str); 14] = [
    ("{}", ""),
    (
        "{ a: 1, b: -1; c: \"d\" 'e' f: -inf g: .5 }",
        " | a<0 b<0 c<0 f<0 g<0",
    ),
    ("{ n { i: 2 } e: W }", " | n<0 i<1 e<0 =W<3"),
    ("{ n: < i: 2, > o < > }", " | n<0 i<1 o<0"),
    (
        "{ ns: [ { i: 1 }, < i: 2 > ] es: [V, W] is: [] }",
        " | ns<0 i<1 i<1 es<0 =V<4 =W<4 is<0",
    ),
    ("{ ns [ { i: 1 } ] ms [] }", " | ns<0 i<1 ms<0"),
    (
        "{ [p.q.x]: 1; [y] { i: 2 } [z]: [ { }, { } ] }",
        " | (p.q.x)<0 (y)<0 i<2 (z)<0",
    ),
    (
        "{ any { [type.googleapis.com/p.N] { i: 1 } } }",
        " | any<0 [/p.N]<1 i<2",
    ),
    (
        "{ any: { [type.googleprod.com/N]: < i: true > } }",
        " | any<0 [/N]<1 i<2 =true<3",
    ),
    (
        "{ [a/N] { } [type.googleapis.org/N] { } [type.googleapis.com.x/p.N]: { i: 1 } }",
        " | [?/N]<0 [?/N]<0 [?/p.N]<0 i<3",
    ),
    (
        "{ [x.type.googleapis.com/N] { } [type.googleapis/N] { } [type.com/N] { } }",
        " | [?/N]<0 [?/N]<0 [?/N]<0",
    ),
    (
        "{ m { key: \"k\" value { i: 1 } } }",
        " | m<0 key<1 value<1 i<3",
    ),
    (
        "{ G { g: 1 } message: 1 option: 2 extend { } }",
        " | G<0 g<1 message<0 option<0 extend<0",
    ),
    (
        "{ a { b { c { d: E } } } f: 1 }",
        " | a<0 b<1 c<2 d<3 =E<4 f<0",
    ),
];

/// Values in which something odd is read past, though their braces are balanced, and the names that stay.
const ODD: [(&str, &str); 46] = [
    ("{ a 1 }", ""),
    ("{ a: }", " | a<0"),
    ("{ a: 1;; b: 2 }", " | a<0 b<0"),
    ("{ , a: 1 }", " | a<0"),
    ("{ a: W,, b: V }", " | a<0 =W<1 b<0 =V<3"),
    ("{ a: [1, ] b: 1 }", " | a<0 b<0"),
    ("{ a: [[1]] b: 1 }", " | a<0 b<0"),
    ("{ a: [1, {}] }", " | a<0"),
    ("{ a: [{ b: 1 }, 1] c: 1 }", " | a<0 b<1 c<0"),
    ("{ a: [{ b: 1 }, [{ c: 1 }]] d: 1 }", " | a<0 b<1 d<0"),
    ("{ a [1] b: 1 }", " | a<0 b<0"),
    ("{ a [V, W }", " | a<0 =V<1 =W<1"),
    ("{ a.b: 1 c: 2 }", " | c<0"),
    ("{ a/b { c: 1 } d: 2 }", " | d<0"),
    ("{ [.a]: 1 b: 2 }", " | b<0"),
    ("{ [a/b/c] { d: 1 } e: 2 }", " | e<0"),
    ("{ [a]b: 1 }", " | b<0"),
    ("{ 1: 1 }", ""),
    ("{ 1: 5 a: 1 }", " | a<0"),
    ("{ a: 1 1: 5, b: 1 }", " | a<0 b<0"),
    ("{ 1: { a: 2 } b: 1 }", " | b<0"),
    ("{ 1 { a: 2 } b: 1 }", " | b<0"),
    ("{ 1 < a: 2 > b: 1 }", " | b<0"),
    ("{ 1: [ < a: 2 >, { a: 3 } ] b: 1 }", " | b<0"),
    ("{ 1: [a] [b]: 1 }", " | (b)<0"),
    ("{ 1: V [b]: 1 }", " | (b)<0"),
    ("{ n { 1: < a: 2 } b: 3 }", " | n<0 b<0"),
    ("{ a: +1 b: 1 }", " | a<0 b<0"),
    ("{ a: p.V b: 1 }", " | a<0 b<0"),
    ("{ a: p.V, b: 1 }", " | a<0 b<0"),
    ("{ a: p.V [b]: 1 }", " | a<0 (b)<0"),
    ("{ a: .p.V; b < > }", " | a<0 b<0"),
    ("{ a: -p.V b: 1 }", " | a<0 b<0"),
    ("{ a: -inf [b]: 1 }", " | a<0 (b)<0"),
    ("{ a: 5 b [{ c: 1 }] }", " | a<0 b<0 c<2"),
    ("{ a: b: 5 }", " | a<0 b<0"),
    ("{ a: [p.V, W] }", " | a<0 =W<1"),
    ("{ a: \"s\" t b: 1 }", " | a<0 b<0"),
    ("{ a < b: 1 }", " | a<0 b<1"),
    ("{ a < }", " | a<0"),
    ("{ a < b { c: 1 > } d: 2 }", " | a<0 b<1 c<2 d<1"),
    ("{ a: W b { c: V } d }", " | a<0 =W<1 b<0 c<3 =V<4"),
    ("{ b { c: V > } d: 1 }", " | b<0 c<1 =V<2 d<0"),
    ("{ { a: 1 } b: 1 }", " | b<0"),
    ("{ ; }", ""),
    ("{ a: 1 ] b: ( 2 ) c = 3 d: 4 }", " | a<0 b<0 d<0"),
];

/// Whether the option `x` with this value, and the option `y` behind it, have these names.
fn is_named(rt: &HostRuntime, value: &str, want: &str) -> bool {
    let Ok(source) = format!(in rt.alloc(); "option x={value}; option (y) = {{ b: V }};") else {
        return false;
    };
    match format!(in rt.alloc(); "file in : x{want}\nfile in : (y) | b<0 =V<1\n") {
        Ok(lines) => is_listed(rt.alloc(), source.as_str(), lines.as_str()),
        Err(_) => false,
    }
}

#[test]
fn names_in_messages(rt: HostRuntime) {
    for (value, want) in &ROWS {
        assert!(rt; is_named(&rt, value, want), "{value}");
    }
}

#[test]
fn names_beside_odd_things(rt: HostRuntime) {
    for (value, want) in &ODD {
        assert!(rt; is_named(&rt, value, want), "{value}");
    }
}

/// Whether an option with this many braces inside one another has the names in them, but those that are too deep.
fn is_nested(alloc: Global, levels: usize) -> bool {
    let mut source = Draft::new(alloc);
    let mut lines = Draft::new(alloc);
    source.add("option x = {");
    lines.add("file in : x |");
    for level in 1..levels {
        source.add(" a {");
        if level <= MAX_AGGREGATE_DEPTH {
            lines.add(" a<");
            lines.add_size(level - 1);
        }
    }
    for _ in 1..levels {
        source.add(" }");
    }
    source.add(" b: V }; option y = V;");
    lines.add(" b<0 =V<");
    lines.add_size(levels.min(MAX_AGGREGATE_DEPTH + 1));
    lines.add("\nfile in : y | =V<0\n");
    match (source.finish(), lines.finish()) {
        (Ok(source), Ok(lines)) => is_listed(alloc, source.as_str(), lines.as_str()),
        _ => false,
    }
}

#[test]
fn braces_inside_one_another(rt: HostRuntime) {
    assert!(rt; is_nested(rt.alloc(), MAX_AGGREGATE_DEPTH));
    assert!(rt; is_nested(rt.alloc(), MAX_AGGREGATE_DEPTH + 1));
    assert!(rt; is_nested(rt.alloc(), MAX_AGGREGATE_DEPTH + 3));
}
