//! What messages say, beside their fields, of the names in values of them.

use proto_lex::Tokens;
use proto_options::{MessageClause, MessageFact, messages_of};
use proto_parse::{Dialect, parse_with};
use std::alloc::Global;
use test_kit::{Draft, text_of, tokens_of};

/// Sources, and what their messages say: the names that they reserve, and that they are message sets.
const ROWS: [(&str, &str); 17] = [
    ("message M { optional int32 a = 1; }", ""),
    ("message M { reserved 1, 2 to 4; reserved 6 to max; }", ""),
    ("message M { reserved \"old\"; }", "M old\n"),
    (
        "message M { reserved 'old', \"ol\" 'der' ; reserved 4; reserved \"a\"; }",
        "M old\nM older\nM a\n",
    ),
    (
        "message M { message N { reserved 'a'; } reserved 'b'; enum E { V = 0; reserved 'c'; } } message O { }",
        "M b\nN a\n",
    ),
    (
        "message M { optional group G = 1 [deprecated = true] { reserved 'a'; } reserved 'b'; }",
        "M b\nG a\n",
    ),
    (
        "extend M { optional group G = 1 { reserved 'a'; } } message N { oneof o { group H = 1 { reserved 'b'; } } }",
        "G a\nH b\n",
    ),
    (
        "message M { option (x) = { reserved 'a' }; optional reserved reserved = 1 [default = 'a']; }",
        "",
    ),
    (
        "option java_package = 'reserved'; enum E { reserved 'a'; V = 0; }",
        "",
    ),
    (
        "message M { option message_set_wire_format = true; extensions 4 to max; }",
        "M set\n",
    ),
    (
        "message M { option message_set_wire_format = false; message N { option message_set_wire_format = true; } }",
        "N set\n",
    ),
    (
        "message M { oneof o { option message_set_wire_format = true; int32 a = 1; } }",
        "",
    ),
    (
        "message M { reserved 'a'; option message_set_wire_format = true; reserved 'b'; }",
        "M a\nM set\nM b\n",
    ),
    (
        "message M { reserved '\\x6fl\\144', \"\\u0061\\U00000062\" '\\143d', '\\x6F\\?\\\\'; }",
        "M old\nM abcd\nM o?\\\n",
    ),
    ("message M { reserved '', 'a\\60b'; }", "M \nM a0b\n"),
    ("message M { reserved 'a\\u00e9', '\\377'; }", "M ?\nM ?\n"),
    (
        "syntax = 'proto3'; message M { reserved 'a'; } message N { M m = 1; reserved 'b', 'c'; }",
        "M a\nN b\nN c\n",
    ),
];

/// Adds the name that is reserved.
fn add_name(draft: &mut Draft, name: &[u8]) {
    match std::str::from_utf8(name) {
        Ok(name) => draft.add(name),
        Err(_) => draft.add("?"),
    }
}

/// Adds the line of what a message says.
fn add_fact(draft: &mut Draft, source: &str, fact: &MessageFact) {
    match source.get(fact.name.start as usize..fact.name.end as usize) {
        Some(name) => draft.add(name),
        None => draft.add("?"),
    }
    draft.add(" ");
    match &fact.clause {
        MessageClause::Reserves(name) => add_name(draft, name.as_slice()),
        MessageClause::IsMessageSet => draft.add("set"),
    }
    draft.add("\n");
}

/// The lines of what the messages of tokens say.
fn lines_of(alloc: Global, tokens: &Tokens<'_, '_>) -> Draft {
    let mut draft = Draft::new(alloc);
    let source = tokens.text().as_str();
    match parse_with(alloc, tokens, Dialect::All) {
        Ok(file) => match messages_of(alloc, tokens, &file) {
            Ok(facts) => {
                for fact in facts.as_slice() {
                    add_fact(&mut draft, source, fact);
                }
            }
            Err(_) => draft.cut(),
        },
        Err(_) => draft.add("no tree"),
    }
    draft
}

/// Whether what the messages of a source say is what a listing says.
fn is_listed(alloc: Global, source: &str, want: &str) -> bool {
    let Ok(text) = text_of(alloc, source.as_bytes()) else {
        return false;
    };
    let Ok(tokens) = tokens_of(alloc, &text) else {
        return false;
    };
    match lines_of(alloc, &tokens).finish() {
        Ok(lines) => lines.as_str() == want,
        Err(_) => false,
    }
}

#[test]
fn what_messages_of_sources_say(rt: HostRuntime) {
    for (source, want) in &ROWS {
        let holds = is_listed(rt.alloc(), source, want) || is_listed(rt.alloc(), source, want);
        assert!(rt; holds, "{source}");
    }
}
