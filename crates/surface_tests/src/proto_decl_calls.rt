//! What a source declares, imports and uses.

use crate::shared::{facts_of, see};
use proto_decl::{Declaration, DeclarationKind, FileFacts};
use std::alloc::{AllocError, Global};
use std::process::Abort;
use std::test::Fail;

/// A package, two imports, and a use of three components.
const IMPORTING: &str =
    "syntax = \"proto3\";\npackage acme;\nimport \"b.proto\";\nimport \"t.proto\";\n\
message M { google.protobuf.Timestamp t = 1; }\n";

/// Sees the facts of that source.
fn see_facts(rt: &impl Abort, facts: &FileFacts) {
    let ([package], [first, second], [found]) = (
        facts.package_name(),
        facts.imports(),
        facts.uses(),
    ) else {
        return see(rt, false, "the number of facts");
    };
    see(rt, package.name.as_str() == "acme", "the package");
    let is_so = first.path.as_str() == "b.proto" && second.path.as_str() == "t.proto";
    see(rt, is_so, "the paths of the imports");
    let is_so = !found.has_leading_dot && found.components.as_slice().len() == 3;
    see(rt, is_so, "the use");
}

#[test]
fn declare_lists_package_imports_and_uses(rt: HostRuntime) -> Result<(), Fail> {
    see_facts(&rt, &facts_of(rt.alloc(), 0, IMPORTING)?);
    Ok(())
}

/// Comments of two lines, behind an opening brace, and of a block.
const COMMENTED: &str =
    "syntax = \"proto3\";\n// One.\n// Two.\nmessage A { // tail\n  int32 x = 1; /* unit */\n}\n";

/// What a declaration is.
struct Due {
    kind: DeclarationKind,
    name: &'static str,
    full_name: &'static str,
    start: u32,
    leading: &'static str,
    trailing: &'static str,
}

/// The second row reads: the field `x`, in full `A.x`, whose name starts at the byte 63, with ` unit ` behind it.
static DUE: [Due; 2] = [
    Due {
        kind: DeclarationKind::Message,
        name: "A",
        full_name: "A",
        start: 43,
        leading: "One.\nTwo.",
        trailing: "tail",
    },
    Due {
        kind: DeclarationKind::Field,
        name: "x",
        full_name: "A.x",
        start: 63,
        leading: "",
        trailing: " unit ",
    },
];

/// Whether a declaration is what is due.
fn is_due(declaration: &Declaration, due: &Due) -> bool {
    declaration.kind() == due.kind
        && declaration.simple_name() == due.name
        && declaration.full_name().is(due.full_name)
        && declaration.name().start == due.start
        && declaration.leading() == due.leading
        && declaration.trailing() == due.trailing
}

/// Sees the declarations of that source.
fn see_declarations(rt: &impl Abort, facts: &FileFacts) {
    let [message, field] = facts.declarations() else {
        return see(rt, false, "two declarations");
    };
    see(rt, is_due(message, &DUE[0]), "the message");
    see(rt, is_due(field, &DUE[1]), "the field");
}

#[test]
fn declare_lists_declarations(rt: HostRuntime) -> Result<(), Fail> {
    see_declarations(&rt, &facts_of(rt.alloc(), 0, COMMENTED)?);
    Ok(())
}

/// Whether a declaration is seen as is due.
fn is_seen(alloc: Global, declaration: &Declaration, due: &Due) -> Result<bool, AllocError> {
    let named = declaration.named(alloc)?;
    let view = named.view();
    Ok(
        view.kind() == due.kind
            && view.name() == due.name
            && view.full_name() == due.full_name
            && view.leading() == due.leading
            && view.trailing() == due.trailing,
    )
}

/// Sees the views of the declarations.
fn see_views(rt: &impl Abort, alloc: Global, facts: &FileFacts) -> Result<(), AllocError> {
    let [message, field] = facts.declarations() else {
        see(rt, false, "two declarations");
        return Ok(());
    };
    see(rt, is_seen(alloc, message, &DUE[0])?, "the message");
    see(rt, is_seen(alloc, field, &DUE[1])?, "the field");
    Ok(())
}

#[test]
fn decl_view_borrows_all(rt: HostRuntime) -> Result<(), Fail> {
    let facts = facts_of(rt.alloc(), 0, COMMENTED)?;
    Ok(see_views(&rt, rt.alloc(), &facts)?)
}
