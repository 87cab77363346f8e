//! What the components of a declaration's full name name that are in front of its last one.

ghost use Rattle.std.specs.Prelude.{ℕ, ◌≡◌, ◌<◌, ◌≤◌, ◌+◌, Contains, IfOk, MatchOption, length};
ghost use Rattle.proto_decl.specs.Laws.{IsEntity};
ghost use Rattle.proto_decl.specs.Names.{IsAround, components_of};
ghost use Rattle.proto_decl.specs.declared.declaration.Declaration.{Declaration};
ghost use Rattle.proto_visibility.specs.Files.{HasFacts};
ghost use Rattle.proto_visibility.specs.Knows.{IsEntityOf, IsPrefix};
ghost use Rattle.option_link.specs.Places.{place_at};
ghost use Rattle.option_link.specs.Tables.{HasName};
ghost use Rattle.option_link.specs.Found.{AreOuterEntities};

use crate::table::DeclarationTable;
use proto_decl::{
    FileFacts, FullName, names_are_identifiers, prefixes_are_entities, scope_around,
    scopes_are_known,
};
use proto_link::Entity;
use std::alloc::{AllocError, Global};

/// How many components a full name has.
fn count_components(name: &str) -> usize
    ensures { result ≡ length (components_of name.now) }
{
    let mut dots = 0;
    for byte in name.as_bytes() {
        if *byte == b'.' {
            dots += 1;
        }
    }
    dots + 1
}

/// The full name of the scope around the one with this full name.
fn outer_of(name: &str) -> &str
    requires { 0 < length name.now }
    ensures { IsAround name.now result.now }
{
    match scope_around(name) {
        Some(outer) => outer,
        None => "",
    }
}

/// The number of the first declaration of a file that has a full name.
fn index_of(table: &DeclarationTable<'_, '_, '_>, file: usize, name: &str) -> Option<usize>
    ensures { MatchOption result ((index : ℕ) → HasName table.now name.now (place_at file index) → ⊥)
        (λ index. HasName table.now name.now (place_at file index)) }
{
    let name = FullName::whole(name);
    match table.first_in(table.near(&name), &name, file) {
        Some(place) => Some(place.index),
        None => None,
    }
}

/// What the first so many components of the full name of a file's declaration name, by the full name that they make.
fn front_entity(
    table: &DeclarationTable<'_, '_, '_>,
    file: usize,
    facts: &FileFacts<'_>,
    front: &str,
    count: usize,
) -> Entity
    requires has { HasFacts table.now file facts.now }
    requires short { count ≤ length facts.now.package_name → IsPrefix facts.now.package_name front.now }
    requires entity { IsEntity facts.now front.now }
    ensures { IsEntityOf file facts.now front.now count result }
{
    if count <= facts.package_name().len() {
        return Entity::Package(count);
    }
    match index_of(table, file, front) {
        Some(index) => Entity::Declared(file, index),
        None => Entity::Package(count),
    }
}

/// What the last so many components of the full name of a file's declaration name, but for the very last one.
pub(crate) fn outer_entities(
    alloc: Global,
    table: &DeclarationTable<'_, '_, '_>,
    file: usize,
    facts: &FileFacts<'_>,
    name: &str,
    count: usize,
) -> Result<Vec<Entity>, AllocError>
    requires has { HasFacts table.now file facts.now }
    requires declared { (declaration : Declaration) × Contains facts.now.declarations declaration
        × (declaration.full_name ≡ name.now) }
    requires some { 0 < count }
    requires few { count ≤ length (components_of name.now) }
    ensures { IfOk result (λ parts. AreOuterEntities file facts.now name.now count parts.items) }
{
    prefixes_are_entities();
    scopes_are_known();
    names_are_identifiers();
    facts.origin();
    // From here on it is known that each front is that of a package or of a declaration of the file.
    let mut parts = Vec::with_capacity(alloc, count)?;
    let mut front = name;
    let mut left = count_components(name);
    for _done in 0..count - 1 {
        front = outer_of(front);
        left -= 1;
        parts.push(front_entity(table, file, facts, front, left))?;
    }
    parts.reverse();
    Ok(parts)
}
