//! What several files of tests share: the one assertion, and values that are made of sources.

use proto_decl::{FileFacts, declare};
use proto_lex::{Text, Tokens, lex};
use proto_parse::parse;
use scip_symbol::PackageId;
use std::alloc::{AllocError, Global};
use std::process::Abort;
use std::test::Fail;

/// Fails the test if this doesn't hold.
pub(crate) fn see(rt: &impl Abort, holds: bool, case: &str) {
    assert!(rt; holds, "{case}");
}

/// The facts of tokens.
fn facts_of_tokens<'t>(
    alloc: Global,
    number: usize,
    tokens: &Tokens<'_, 't>,
) -> Result<FileFacts<'t>, Fail> {
    let file = parse(alloc, tokens)?;
    Ok(declare(alloc, number, tokens, &file)?)
}

/// The facts of a text.
fn facts_of_text<'t>(alloc: Global, number: usize, text: &Text<'t>) -> Result<FileFacts<'t>, Fail> {
    let tokens = lex(alloc, text)?;
    facts_of_tokens(alloc, number, &tokens)
}

/// The facts of a source, as those of the file with this number.
pub(crate) fn facts_of<'t>(
    alloc: Global,
    number: usize,
    source: &'t str,
) -> Result<FileFacts<'t>, Fail> {
    let text = Text::new(alloc, source.as_bytes())?;
    facts_of_text(alloc, number, &text)
}

/// A manager, a name and a version.
pub(crate) fn parts_of(alloc: Global, parts: [&str; 3]) -> Result<[String; 3], AllocError> {
    let manager = String::from_str(alloc, parts[0])?;
    let name = String::from_str(alloc, parts[1])?;
    let version = String::from_str(alloc, parts[2])?;
    Ok([manager, name, version])
}

/// The package with this manager, name and version.
pub(crate) fn package_of(alloc: Global, parts: [&str; 3]) -> Result<PackageId, Fail> {
    match PackageId::new(parts_of(alloc, parts)?) {
        Ok(package) => Ok(package),
        Err(_) => Err("a part that no package has".into()),
    }
}

/// The index of the source `message A {}` with the path `a.proto`: 200 bytes.
pub(crate) const ONE_MESSAGE: &[u8] =
    b"\x0A\x1C\x12\x0E\x0A\x09protoscip\x12\x011\x1A\x08file:///\x20\x01\
\x12\xA7\x01\x0A\x07a.proto\
\x12\x27\x0A\x03\x00\x00\x00\x12\x1Escip-protobuf . . . `a.proto`/\x18\x01\
\x12\x1F\x0A\x03\x01\x08\x09\x12\x16scip-protobuf . . . A#\x18\x01\
\x1A\x1B\x0A\x16scip-protobuf . . . A#\x32\x01A\
\x1A\x29\x0A\x1Escip-protobuf . . . `a.proto`/\x32\x07a.proto\
\x22\x08Protobuf\x30\x01";

/// The index of no sources: 30 bytes.
pub(crate) const NOTHING: &[u8] =
    b"\x0A\x1C\x12\x0E\x0A\x09protoscip\x12\x011\x1A\x08file:///\x20\x01";
