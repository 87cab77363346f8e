//! What fields are of, and their types.

use proto_lex::Tokens;
use proto_options::{FieldFact, FieldKind, fields_of};
use proto_parse::{Dialect, parse_with};
use std::alloc::Global;
use test_kit::{Draft, text_of, tokens_of};

/// Sources and their fields. The third row reads: `b` is a field of what `M` names, which is the extended type, and has
/// the type that `N` names.
const ROWS: [(&str, &str); 9] = [
    ("enum E { V = 0; }", ""),
    (
        "message M { optional int32 a = 1; optional N b = 2; }",
        "a\nb :N\n",
    ),
    (
        "extend M { optional N b = 1; } message M { optional .p.N c = 1; }",
        "b of M :N\nc :p.N\n",
    ),
    (
        "message M { oneof o { N a = 1; string b = 2; } repeated O c = 3; }",
        "a :N\nb\nc :O\n",
    ),
    (
        "message M { map<int32, N> a = 1; map<string, bytes> b = 2; }",
        "a map :N\nb map\n",
    ),
    (
        "message M { optional group G = 1 { optional N a = 1; } }",
        "group {}\na :N\n",
    ),
    (
        "message M { extend p.N { repeated group G = 1 { optional O a = 1; } } optional P b = 1; }",
        "group of p.N {}\na :O\nb :P\n",
    ),
    (
        "service S { rpc a (M) returns (N); rpc b (M) returns (N); } message M { optional O a = 1; }",
        "a :O\n",
    ),
    (
        "extend M { } extend .N { optional int32 a = 1; }",
        "a of N\n",
    ),
];

/// Adds a name of a type that starts here, behind a mark.
fn add_type(draft: &mut Draft, source: &str, mark: &str, start: Option<u32>) {
    let Some(start) = start else {
        return;
    };
    draft.add(mark);
    let start = start as usize;
    let Some(rest) = source.as_bytes().get(start..) else {
        return;
    };
    let count = rest
        .iter()
        .take_while(|byte| byte.is_ascii_alphanumeric() || **byte == b'.')
        .count();
    match source.get(start..start.saturating_add(count)) {
        Some(name) => draft.add(name),
        None => draft.add("?"),
    }
}

/// Adds the line of a field.
fn add_field(draft: &mut Draft, source: &str, field: FieldFact) {
    match source.get(field.name.start as usize..field.name.end as usize) {
        Some(name) => draft.add(name),
        None => draft.add("?"),
    }
    add_type(draft, source, " of ", field.extended);
    match field.kind {
        FieldKind::Scalar => {}
        FieldKind::Named(start) => add_type(draft, source, " :", Some(start)),
        FieldKind::Group => draft.add(" {}"),
        FieldKind::Map(value) => {
            draft.add(" map");
            add_type(draft, source, " :", value);
        }
    }
    draft.add("\n");
}

/// The lines of the fields of tokens.
fn lines_of(alloc: Global, tokens: &Tokens<'_, '_>) -> Draft {
    let mut draft = Draft::new(alloc);
    let source = tokens.text().as_str();
    match parse_with(alloc, tokens, Dialect::All) {
        Ok(file) => match fields_of(alloc, &file) {
            Ok(fields) => {
                for field in fields.as_slice() {
                    add_field(&mut draft, source, *field);
                }
            }
            Err(_) => draft.cut(),
        },
        Err(_) => draft.add("no tree"),
    }
    draft
}

/// Whether the fields of a source are what a listing says.
fn is_listed(alloc: Global, source: &str, want: &str) -> bool {
    let Ok(text) = text_of(alloc, source.as_bytes()) else {
        return false;
    };
    let Ok(tokens) = tokens_of(alloc, &text) else {
        return false;
    };
    match lines_of(alloc, &tokens).finish() {
        Ok(lines) => lines.as_str() == want,
        Err(_) => false,
    }
}

#[test]
fn fields_of_sources(rt: HostRuntime) {
    for (source, want) in &ROWS {
        let holds = is_listed(rt.alloc(), source, want) || is_listed(rt.alloc(), source, want);
        assert!(rt; holds, "{source}");
    }
}
