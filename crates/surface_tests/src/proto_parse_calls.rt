//! Syntax trees.

use crate::shared::see;
use proto_lex::{LexFault, Text, lex};
use proto_parse::{SyntaxFault, parse};
use std::alloc::Global;
use std::test::Fail;

/// Sources that have no tree, and why.
static FAULTS: [(&str, SyntaxFault); 8] = [
    (
        "syntax = \"proto3\";\nmessage {}\n",
        SyntaxFault::Grammar(27),
    ),
    ("syntax = \"proto2\";\n", SyntaxFault::NotProto3(9)),
    ("", SyntaxFault::NotProto3(0)),
    (
        "syntax = \"proto3\";\noption (x) = 1;\n",
        SyntaxFault::CustomOption(26),
    ),
    (
        "syntax = \"proto3\";\noption a = {};\n",
        SyntaxFault::Aggregate(30),
    ),
    (
        "syntax = \"proto3\";\nextend A {}\n",
        SyntaxFault::Extend(19),
    ),
    (
        "syntax = \"proto3\";\npackage a;package b;\n",
        SyntaxFault::TwoPackages(29),
    ),
    (
        "syntax = \"proto3\";\nimport \"\\x61\";\n",
        SyntaxFault::ImportEscape(26),
    ),
];

#[test]
fn parse_refuses_by_name(rt: HostRuntime) -> Result<(), Fail> {
    for (source, due) in &FAULTS {
        let fault = fault_of(rt.alloc(), source)?;
        see(&rt, fault == Some(*due), source);
    }
    Ok(())
}

/// Why a text has no tree, if it has none.
fn fault_of_text(alloc: Global, text: &Text) -> Result<Option<SyntaxFault>, LexFault> {
    let tokens = lex(alloc, text)?;
    Ok(parse(alloc, &tokens).err())
}

/// The same of a source.
fn fault_of(alloc: Global, source: &str) -> Result<Option<SyntaxFault>, LexFault> {
    let text = Text::new(alloc, source.as_bytes())?;
    fault_of_text(alloc, &text)
}
