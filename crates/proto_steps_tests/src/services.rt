//! Services by the grammar as data.

use proto_grammar::{CustomOptions, Parser, SyntaxFault};
use proto_lex::{LexFault, Text, lex};
use proto_steps::service;
use std::alloc::Global;
use std::process::Abort;
use std::test::Fail;

/// Services, how many methods each has, and the fault of those that are none.
static SERVICES: [(&str, usize, Option<SyntaxFault>); 9] = [
    ("service S {}", 0, None),
    ("service S { ; option a.b = 1; }", 0, None),
    (
        "service S { rpc M(stream A) returns (.a.B); rpc N(.stream) returns (int32.C) {} }",
        2,
        None,
    ),
    (
        "service S { rpc M(A) returns (B) { option (x).y = {a: {}}; ; } }",
        1,
        None,
    ),
    (
        "service S { rpc M(int32) returns (B); }",
        0,
        Some(SyntaxFault::Grammar(18)),
    ),
    (
        "service S { rpc M(A) return (B); }",
        0,
        Some(SyntaxFault::Grammar(21)),
    ),
    (
        "service S { rpc M(A) returns (B) {",
        0,
        Some(SyntaxFault::Grammar(34)),
    ),
    (
        "service S { message M {} }",
        0,
        Some(SyntaxFault::Grammar(12)),
    ),
    ("service S {", 0, Some(SyntaxFault::Grammar(11))),
];

#[test]
fn services_are_read(rt: HostRuntime) -> Result<(), Fail> {
    for (source, methods, fault) in &SERVICES {
        let read = methods_of(rt.alloc(), source)?;
        let due = match fault {
            Some(fault) => Err(*fault),
            None => Ok(*methods),
        };
        assert!(rt; read == due, "{source}");
    }
    Ok(())
}

/// How many methods the service has with which a text begins, or its fault.
fn methods_of_text(alloc: Global, text: &Text) -> Result<Result<usize, SyntaxFault>, LexFault> {
    let tokens = lex(alloc, text)?;
    let mut parser = Parser::new(&tokens);
    Ok(match service(&mut parser, alloc, CustomOptions::Skip) {
        Ok(service) => Ok(service.methods.as_slice().len()),
        Err(fault) => Err(fault),
    })
}

/// The same of a source.
fn methods_of(alloc: Global, source: &str) -> Result<Result<usize, SyntaxFault>, LexFault> {
    let text = Text::new(alloc, source.as_bytes())?;
    methods_of_text(alloc, &text)
}
