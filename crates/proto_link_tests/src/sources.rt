//! Worked sources. The fault that one has is named before it, and is where a `^` is, which is taken out.

use crate::calls::{PAST, PROTO3, SYNTAX, fault_of, first_other, joined, offset_of, see, tree_of};
use proto_lex::{Text, Tokens};
use proto_parse::{Dialect, FieldType, File, FileItem, Item, Leaf, SyntaxFault};
use std::alloc::{AllocError, Global};
use std::test::Fail;
use test_kit::{text_of, tokens_of};

/// Behind `SYNTAX`, so that offsets grow by 19. The first row reads: a `(` begins the name of an option, at 26.
const REFUSED: [&str; 9] = [
    "CustomOption: option ^(x) = 1;\n",
    "Grammar: message ^{}\n",
    "Grammar: message A { map<^float, int32> m = 1; }",
    "Extend: message A { ^extend B {} }",
    "Aggregate: option a = ^{};",
    "TwoPackages: package a;\n^package b;",
    "ImportEscape: import ^\"a\\x2e\";",
    "Grammar: service S { rpc F(stream^) returns (A); }",
    "Grammar: service S { rpc F(^int32) returns (A); }",
];

/// The second row reads: the literal behind `syntax =`, at 9, doesn't spell `proto3`.
const NOT_PROTO3: [&str; 2] = ["NotProto3: ^", "NotProto3: syntax = ^\"proto2\";\n"];

/// The row reads: where custom options are read past, a name has to be in parentheses, at 27.
const OF_CUSTOM_OPTIONS: [&str; 1] = ["Grammar: option (^) = 1;"];

/// The second row reads: a file without a syntax statement is proto2, and there a field has to have a label, at 12.
const OF_ALL: [&str; 2] = [
    "NotProto3: ^edition = \"2023\";",
    "Grammar: message A { ^int32 x = 1; }",
];

#[test]
fn sources_that_are_refused(rt: HostRuntime) {
    let alloc = rt.alloc();
    see(&rt, first_other(alloc, SYNTAX, &REFUSED, PROTO3));
    see(&rt, first_other(alloc, "", &NOT_PROTO3, PROTO3));
    see(&rt, first_other(alloc, SYNTAX, &OF_CUSTOM_OPTIONS, PAST));
    see(&rt, first_other(alloc, "", &OF_ALL, Dialect::All));
}

/// Faults, and how they are displayed.
const DISPLAYED: [(SyntaxFault, &str); 9] = [
    (
        SyntaxFault::NotProto3(0),
        "a syntax statement that is missing or isn't accepted, at byte 0",
    ),
    (
        SyntaxFault::CustomOption(7),
        "an option's name with parentheses, at byte 7",
    ),
    (
        SyntaxFault::Aggregate(8),
        "an option's value in braces, at byte 8",
    ),
    (SyntaxFault::Extend(9), "the word `extend`, at byte 9"),
    (
        SyntaxFault::TwoPackages(10),
        "a second package statement, at byte 10",
    ),
    (
        SyntaxFault::ImportEscape(11),
        "an import's path with a backslash, at byte 11",
    ),
    (
        SyntaxFault::TooDeep(12),
        "a message or a group inside 64 others, at byte 12",
    ),
    (
        SyntaxFault::Grammar(13),
        "the grammar wants something else, at byte 13",
    ),
    (SyntaxFault::Memory, "memory ran out"),
];

/// The first fault that is displayed otherwise.
fn first_displayed_otherwise(
    alloc: Global,
    cases: &[(SyntaxFault, &str)],
) -> Result<Option<usize>, AllocError> {
    for (index, (fault, want)) in cases.iter().enumerate() {
        let text = format!(in alloc; "{fault}")?;
        if text.as_str() != *want {
            return Ok(Some(index));
        }
    }
    Ok(None)
}

#[test]
fn faults_are_displayed_as_sentences(rt: HostRuntime) -> Result<(), Fail> {
    see(&rt, first_displayed_otherwise(rt.alloc(), &DISPLAYED)?);
    Ok(())
}

/// A source with every production, where custom options are refused.
const PLAIN: &str = "syntax = 'pro' \"to3\"; import public 'a' \"b\"; import weak 'c'; package p.q;
option o.p = q.r; option a = -inf; option b = +1.5; option c = 'x' 'y'; ;
message M { message N { ; } enum E { A = 0; } option a = 1; oneof o { int32 x = 1; option b = 2; .T y = 3 [d = e]; ; }
map<string, a.B> m = 4; map n = 5; repeated int32.C p = 6 [f = 1, g.h = 'z']; optional bool q = 7;
reserved 1, 2 to 3, 4 to max; reserved 'r', 's' 't'; extension u = 8; }
enum F { option a = b; reserved -1 to -2, 3, 4 to max; reserved 'x'; V = -1 [w = 2]; ; }
service S { option a = 1; rpc G(stream .A.B) returns (C) { option d = 3; ; } rpc H(D) returns (stream E); ; }";

/// The same for custom options that are read past.
const CUSTOM_OPTIONS: &str = "syntax = \"proto3\"; option (a).b.(.c) = { d: 1 e { [f] } };
extend g.H { ; repeated int32 i = 1 [(j) = {}]; .K l = 2; }
message M { extend N {} option o = { < p ( }; int32 q = 1 [(r).s = -inf, t = {}]; oneof u { extend v = 2 [w = {}]; } }
enum E { option (x) = {}; extend = 0 [(y) = 'z']; } service S { rpc F(A) returns (B) { option (c) = { {} {} }; } }";

/// A source with every production of proto2 that proto3 doesn't have.
const PROTO2: &str = "syntax = 'pro' \"to2\"; import 'a'; package p; option (o).p = q;
extend E { ; required F g = 1; } message M { required int32 a = 1 [default = -inf]; optional .G b = 2;
repeated group H = 3 [(x) = 1, y = 'z'] { ; optional group I = 4 { extensions 5; }
extend J.K { repeated group L = 6 { message N {} } optional int32 map = 7; } }
oneof o { option c = d; group P = 8 { enum Q { R = 0; } } group.S e = 9; optional f = 10; ; }
map<int32, group> h = 11; extensions 100, 200 to 300, 400 to max [i = j, (k) = 1]; reserved 12, 13 to max;
optional group.T group = 14; } extend .U { optional group V = 15 { required W l = 16; } } enum X { Y = -1; }
service Z { rpc A(B) returns (C); }";

/// Words of proto2 as names in a source of proto3, and extends that declare.
const EXTENDED: &str = "syntax = 'pro' \"to3\";
extend g.H { ; repeated int32 i = 1; group l = 2; required r = 3; }
message M { extend N { map m = 1; optional extensions n = 2; } group g = 1; required extensions = 2;
optional group.T group = 3; oneof o { required q = 4; extensions.E e = 5; } message required {}
enum group { required = 0; extensions = 1; } map<string, group> p = 6; }
service extensions { rpc group(required) returns (group); } enum required { group = 0; } option group = required;
message extensions { extension f = 1; }";

/// Sources that are files. The first row reads: this one is a file where only proto3 without custom options is
/// accepted.
static FILES: [(&str, Dialect); 5] = [
    (PLAIN, PROTO3),
    (CUSTOM_OPTIONS, PAST),
    (PROTO2, Dialect::All),
    (EXTENDED, Dialect::All),
    ("", Dialect::All),
];

#[test]
fn files_with_every_production(rt: HostRuntime) {
    for (source, dialect) in &FILES {
        let found = fault_of(rt.alloc(), *source, "", "", *dialect);
        see(&rt, found.map(offset_of));
    }
}

/// A message with a map and a field, and the name of that field's type.
const TWO_FIELDS: &str =
    "syntax = \"proto3\";\nmessage A { map<string, int32> m = 1; map.B c = 2; }";

const SECOND_TYPE: &str = "map.B";

/// The name of the type of the second field in a file's only message.
fn second_type<'a>(source: &'a str, file: &File) -> Option<&'a str> {
    let [FileItem::Block(message)] = file.items.as_slice() else {
        return None;
    };
    let [_, Item::Leaf(Leaf::Field(field))] = message.items.as_slice() else {
        return None;
    };
    let FieldType::Named(name) = &field.field_type else {
        return None;
    };
    match name.components.as_slice() {
        [first, last] => source.get(first.start as usize..last.end as usize),
        _ => None,
    }
}

/// Whether the type of the second field has the due name.
fn is_second_type(alloc: Global, tokens: &Tokens<'_, '_>, due: &str) -> bool {
    match tree_of(alloc, tokens, PROTO3) {
        Ok(file) => second_type(tokens.text().as_str(), &file) == Some(due),
        Err(_) => false,
    }
}

/// The same of a text.
fn is_type_in_text(alloc: Global, text: &Text<'_>, due: &str) -> bool {
    match tokens_of(alloc, text) {
        Ok(tokens) => is_second_type(alloc, &tokens, due),
        Err(_) => false,
    }
}

#[test]
fn a_type_that_begins_with_the_word_map(rt: HostRuntime) {
    let is_so = match text_of(rt.alloc(), TWO_FIELDS.as_bytes()) {
        Ok(text) => is_type_in_text(rt.alloc(), &text, SECOND_TYPE),
        Err(_) => false,
    };
    see(&rt, if is_so { None } else { Some(1) });
}

/// The row reads: inside 64 messages there can't be another, and its word is at 659.
const TOO_DEEP: [&str; 1] = ["TooDeep: ^message A{}"];

/// The syntax statement, and what opens 64 messages inside one another.
fn opened(alloc: Global) -> Result<String, AllocError> {
    let front = "message A{".repeat(alloc, 64)?;
    joined(alloc, SYNTAX, front.as_str(), "")
}

#[test]
fn sixty_four_messages_inside_one_another(rt: HostRuntime) -> Result<(), Fail> {
    let front = opened(rt.alloc())?;
    let end = "}".repeat(rt.alloc(), 64)?;
    let found = fault_of(rt.alloc(), front.as_str(), "", end.as_str(), PROTO3);
    see(&rt, found.map(offset_of));
    see(
        &rt,
        first_other(rt.alloc(), front.as_str(), &TOO_DEEP, PROTO3),
    );
    Ok(())
}
