//! What files declare, and the components of their packages.

use proto_decl::{Component, Declaration, DeclarationKind};
use proto_link::{Duplicates, Entity, FilePlace, LinkFile};
use std::alloc::Global;
use test_kit::Made;

/// A declaration, or a component of a package statement, which has no kind.
#[derive(Drop)]
pub(crate) struct Item {
    pub(crate) place: FilePlace,
    pub(crate) full_name: String,
    pub(crate) kind: Option<DeclarationKind>,
    pub(crate) entity: Entity,
}

/// Adds an item.
fn add_item(
    alloc: Global,
    items: &mut Vec<Item>,
    place: FilePlace,
    full_name: &str,
    kind: Option<DeclarationKind>,
    entity: Entity,
) -> Made<()> {
    let full_name = String::from_str(alloc, full_name)?;
    items.push(Item {
        place,
        full_name,
        kind,
        entity,
    })?;
    Ok(())
}

/// Adds the components of a package statement. The name is that of the components before them, with a dot behind it.
fn add_components(
    alloc: Global,
    items: &mut Vec<Item>,
    file: usize,
    name: &mut String,
    components: &[Component],
) -> Made<()> {
    for (index, component) in components.iter().enumerate() {
        name.push_str(component.name.as_str())?;
        let span = component.span;
        let entity = Entity::Package(index + 1);
        let place = FilePlace { file, span };
        add_item(alloc, items, place, name.as_str(), None, entity)?;
        name.push_str(".")?;
    }
    Ok(())
}

/// Adds the components of a package statement.
fn add_package(
    alloc: Global,
    items: &mut Vec<Item>,
    file: usize,
    components: &[Component],
) -> Made<()> {
    let mut name = String::new(alloc);
    add_components(alloc, items, file, &mut name, components)
}

/// Adds declarations.
fn add_declarations(
    alloc: Global,
    items: &mut Vec<Item>,
    file: usize,
    declarations: &[Declaration],
) -> Made<()> {
    for (index, declaration) in declarations.iter().enumerate() {
        let name = declaration.full_name().to_text(alloc)?;
        let span = declaration.name();
        let entity = Entity::Declared(file, index);
        let place = FilePlace { file, span };
        let kind = Some(declaration.kind());
        add_item(alloc, items, place, name.as_str(), kind, entity)?;
    }
    Ok(())
}

/// Adds the items of a file.
fn add_items(alloc: Global, items: &mut Vec<Item>, number: usize, file: &LinkFile) -> Made<()> {
    match file.facts {
        Some(facts) => {
            add_package(alloc, items, number, facts.package_name())?;
            add_declarations(alloc, items, number, facts.declarations())
        }
        None => Ok(()),
    }
}

/// Adds the items of the files with these numbers.
pub(crate) fn add_items_of(
    alloc: Global,
    items: &mut Vec<Item>,
    files: &[LinkFile],
    numbers: &[usize],
) -> Made<()> {
    for (number, file) in files.iter().enumerate() {
        if numbers.contains(&number) {
            add_items(alloc, items, number, file)?;
        }
    }
    Ok(())
}

/// Whether the one place is before the other.
fn is_before(place: FilePlace, other: FilePlace) -> bool {
    place.file < other.file || (place.file == other.file && place.span.start < other.span.start)
}

/// Whether the second of two items clashes with the first.
fn exclude_each_other(first: &Item, second: &Item, duplicates: Duplicates) -> bool {
    is_before(first.place, second.place)
        && (duplicates == Duplicates::Refuse || first.place.file == second.place.file)
        && first.full_name.as_str() == second.full_name.as_str()
        && (first.kind.is_some() || second.kind.is_some())
}

/// The lesser of two pairs, by the second places, and then by the first ones.
fn lesser(
    least: Option<(FilePlace, FilePlace)>,
    pair: (FilePlace, FilePlace),
) -> Option<(FilePlace, FilePlace)> {
    match least {
        Some((first, second))
            if is_before(second, pair.1) || (second == pair.1 && is_before(first, pair.0)) => {
            least
        }
        _ => Some(pair),
    }
}

/// The lesser of a pair and of those in which this item is the second.
fn least_with(
    items: &[Item],
    second: &Item,
    duplicates: Duplicates,
    mut least: Option<(FilePlace, FilePlace)>,
) -> Option<(FilePlace, FilePlace)> {
    for first in items {
        if exclude_each_other(first, second, duplicates) {
            least = lesser(least, (first.place, second.place));
        }
    }
    least
}

/// The first clash of items.
pub(crate) fn first_clash(
    items: &[Item],
    duplicates: Duplicates,
) -> Option<(FilePlace, FilePlace)> {
    let mut least = None;
    for second in items {
        least = least_with(items, second, duplicates, least);
    }
    least
}
