//! The symbols of a file, a package and a declaration, their texts, and the parts of a package.

ghost use Rattle.std.specs.Prelude.{◌≡◌};
ghost use Rattle.proto_decl.specs.declared.declaration.DeclarationKind.TheVariants.{Message};

use crate::shared::{parts_of, see};
use basics::{KeptText, OwnedText, TextRef};
use proto_decl::{Component, DeclarationKind, DeclarationPath, DeclarationStep};
use proto_lex::Span;
use scip_symbol::{
    BadPart, PackageId, Symbol, SymbolParts, file_symbol, package_symbol, print, symbol_of,
};
use std::alloc::{AllocError, Global};
use std::test::Fail;

/// What `PackageId::new` answers for a manager, no name, and a version.
fn package_of(
    alloc: Global,
    manager: &str,
    version: &str,
) -> Result<Result<PackageId, BadPart>, AllocError> {
    Ok(PackageId::new(parts_of(alloc, [manager, "", version])?))
}

/// A component of a package's name, wherever it stands.
fn component(name: &str) -> Component<'_>
    ensures { result.name ≡ name.now }
{
    Component {
        name: TextRef::new(name),
        span: Span { start: 0, end: 0 },
    }
}

/// The step to a message.
fn step_to(name: &str) -> DeclarationStep<'_>
    ensures { result ≡ record { kind = Message; name = name.now } }
{
    DeclarationStep {
        kind: DeclarationKind::Message,
        name: KeptText::borrowed(name),
    }
}

/// The text of a symbol, where it could be made.
fn text_of_symbol(alloc: Global, symbol: Result<Symbol, AllocError>) -> Result<String, AllocError> {
    match symbol {
        Ok(symbol) => print(alloc, &symbol),
        Err(fault) => Err(fault),
    }
}

/// The text of a file's symbol.
pub(crate) fn file_text(alloc: Global, id: &PackageId) -> Result<String, AllocError> {
    text_of_symbol(alloc, file_symbol(alloc, id, "a b.proto"))
}

/// The text of a package's symbol.
pub(crate) fn package_text(alloc: Global, id: &PackageId) -> Result<String, AllocError> {
    let a = component("a");
    let b = component("b");
    text_of_symbol(alloc, package_symbol(alloc, id, &[a, b]))
}

/// The text of a message's symbol.
fn message_text(alloc: Global, id: &PackageId) -> Result<String, AllocError> {
    let a = step_to("A");
    text_of_symbol(
        alloc,
        symbol_of(alloc, id, &[], &DeclarationPath::new(&[], &a)),
    )
}

/// The text of a local symbol.
fn local_text(alloc: Global) -> Result<String, AllocError> {
    let name = OwnedText::copy_of(alloc, "x9")?;
    text_of_symbol(alloc, Ok(Symbol::from_parts(SymbolParts::Local(name))))
}

/// What the symbol is that a text is made of.
#[derive(Clone, Copy)]
enum Of {
    File,
    Package,
    Message,
    Local,
}

/// The text of one of these symbols.
fn text_of(alloc: Global, id: &PackageId, of: Of) -> Result<String, AllocError> {
    match of {
        Of::File => file_text(alloc, id),
        Of::Package => package_text(alloc, id),
        Of::Message => message_text(alloc, id),
        Of::Local => local_text(alloc),
    }
}

// The first case: of the file `a b.proto` in a package of the manager `my mgr`, without a name, of the
// version 1.0, the symbol has two spaces for the manager's one, and backticks around the path.
const CASES: [(Of, &str); 4] = [
    (Of::File, "scip-protobuf my  mgr . 1.0 `a b.proto`/"),
    (Of::Package, "scip-protobuf my  mgr . 1.0 a/b/"),
    (Of::Message, "scip-protobuf my  mgr . 1.0 A#"),
    (Of::Local, "local x9"),
];

/// Whether a package has its parts, and what is made in it is a text.
fn is_text(alloc: Global, id: &PackageId, of: Of, want: &str) -> Result<bool, AllocError> {
    let parts = [id.manager(), id.name(), id.version()];
    let text = text_of(alloc, id, of)?;
    Ok(parts == ["my mgr", "", "1.0"] && text.as_str() == want)
}

/// Whether such a text is the one wanted.
fn is_right(alloc: Global, of: Of, want: &str) -> Result<bool, AllocError> {
    match package_of(alloc, "my mgr", "1.0")? {
        Ok(id) => is_text(alloc, &id, of, want),
        Err(_) => Ok(false),
    }
}

/// The same, made again after want of memory.
fn is_right_again(alloc: Global, of: Of, want: &str) -> Result<bool, AllocError> {
    match is_right(alloc, of, want) {
        Err(_) => is_right(alloc, of, want),
        answer => answer,
    }
}

#[test]
fn texts_in_a_package(rt: HostRuntime) -> Result<(), Fail> {
    for (of, want) in &CASES {
        see(&rt, is_right_again(rt.alloc(), *of, want)?, want);
    }
    Ok(())
}

/// Which part of a package is bad.
fn bad_part(alloc: Global, manager: &str, version: &str) -> Result<Option<usize>, AllocError> {
    match package_of(alloc, manager, version)? {
        Ok(_) => Ok(None),
        Err(bad) => Ok(Some(bad.part)),
    }
}

#[test]
fn a_part_that_is_a_dot(rt: HostRuntime) -> Result<(), Fail> {
    see(
        &rt,
        bad_part(rt.alloc(), "my mgr", ".")? == Some(2),
        "the version",
    );
    Ok(())
}
