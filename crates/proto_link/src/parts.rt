//! What the components of a full name name.

ghost use Rattle.std.specs.Prelude.{ℕ, List, ◌≡◌, ◌≤◌, IfOk, OnOk, length, map};
ghost use Rattle.proto_decl.specs.Names.{components_of};
ghost use denote.Ref.{Bor};
ghost use Rattle.std.specs.String.{string_bytes};
ghost use Rattle.proto_visibility.specs.Knows.{is_type, DeclaresNameAs};
ghost use Rattle.proto_visibility.specs.Files.{HasFacts};
ghost use Rattle.proto_link.specs.Tables.Parts.{AreEntitiesOf, longer};

use proto_decl::{FileFacts, prefixes_are_entities};
use proto_visibility::{Entity, Namespace};
use std::alloc::{AllocError, Global};

/// The components of a full name.
fn components_in(alloc: Global, name: &str) -> Result<Vec<&str>, AllocError>
    ensures { IfOk result (λ parts. map (λ (part : Bor (List ℕ)). part.now) parts.items ≡ components_of name.now) }
{
    name.split('.').collect(alloc)
}

/// Adds a component to a prefix of this many.
fn lengthen(prefix: &mut String, count: usize, component: &str) -> Result<(), AllocError>
    ensures { OnOk result (string_bytes prefix.new ≡ longer (string_bytes prefix.old) count component.now) }
{
    if count > 0 {
        prefix.push_str(".")?;
    }
    prefix.push_str(component)
}

/// What the last so many components of a type's full name name in the file with this number, which
/// declares it.
pub(crate) fn parts_in(
    alloc: Global,
    namespace: &Namespace,
    number: usize,
    facts: &FileFacts,
    name: &str,
    count: usize,
) -> Result<Vec<Entity>, AllocError>
    requires declared { DeclaresNameAs is_type name.now facts.now }
    requires has { HasFacts namespace.now number facts.now }
    requires count { count ≤ length (components_of name.now) }
    ensures { IfOk result (λ parts. AreEntitiesOf number facts.now name.now count parts.items) }
{
    prefixes_are_entities();
    // From here on it is known that the facts are those of some file.
    facts.origin();
    let components = components_in(alloc, name)?;
    let skipped = components.len() - count;
    let mut prefix = String::with_capacity(alloc, name.len())?;
    let mut parts = Vec::with_capacity(alloc, count)?;
    for (index, component) in components.iter().enumerate() {
        lengthen(&mut prefix, index, component)?;
        if index >= skipped {
            parts.push(namespace.entity_of(number, facts, prefix.as_str(), index + 1))?;
        }
    }
    Ok(parts)
}
