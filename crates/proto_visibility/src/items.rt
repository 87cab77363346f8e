//! The items of files: their declarations and the components of their package statements.

ghost use Rattle.std.specs.Prelude.{List, ℕ, ◌≡◌, ◌<◌, ◌+◌, ◌∷◌, ◌↔◌, IfOk, OnOk, Some, Contains, length, map};
ghost use Rattle.std.specs.Prelude.{MatchOption};
ghost use Rattle.std.specs.List.{slice_get};
ghost use Rattle.proto_decl.specs.Names.{dotted};
ghost use Rattle.proto_visibility.specs.Tables.FileItems.{ArePrefixes, IsItemOf, declared_item, AreWithPackage};
ghost use Rattle.proto_visibility.specs.Tables.FileItems.{AreAllPrefixes, IsItemIn, package_name_of};
ghost use Rattle.proto_visibility.specs.Clashes.{Before, Item, IsItemBy, ClashBy, NoClashBy};
ghost use Rattle.proto_visibility.specs.Tables.ClashTables.{AreInPlace};

use crate::clash::{Item, first_clash, room_for};
use crate::files::{FilePlace, LinkFile};
use crate::rows::FileRow;
use basics::{OwnedText, Sequence};
use proto_decl::{Component, Declaration, FileFacts, FullName, facts_in_order};
use std::alloc::{AllocError, Global};

/// For each component of a package's name the name up to it.
fn package_prefixes(alloc: Global, components: &[Component]) -> Result<Vec<OwnedText>, AllocError>
    ensures { IfOk result (λ prefixes. ArePrefixes components.now prefixes.items) }
{
    match components {
        [] => Ok(Vec::new(alloc)),
        [first, others @ ..] => prefixes_of(alloc, first, others),
    }
}

/// The first component, then one more each time, up to all of them.
fn prefixes_of(
    alloc: Global,
    first: &Component,
    others: &[Component],
) -> Result<Vec<OwnedText>, AllocError>
    ensures { IfOk result (λ prefixes. ArePrefixes (first.now ∷ others.now) prefixes.items) }
{
    let mut prefix = String::from_str(alloc, first.name.as_str())?;
    let mut prefixes = Vec::new(alloc);
    prefixes.push(OwnedText::copy_of(alloc, prefix.as_str())?)?;
    for component in others {
        prefix.push_str(".")?;
        prefix.push_str(component.name.as_str())?;
        prefixes.push(OwnedText::copy_of(alloc, prefix.as_str())?)?;
    }
    Ok(prefixes)
}

/// The items of a file with this number, in order of place.
fn file_items<'a>(
    alloc: Global,
    number: usize,
    facts: &'a FileFacts,
    prefixes: &'a [OwnedText],
) -> Result<Vec<Item<'a>>, AllocError>
    requires { ArePrefixes facts.now.package_name prefixes.now }
    ensures order { IfOk result (λ items. AreInPlace items.items) }
    ensures items { IfOk result (λ items. (item : Item) → Contains items.items item ↔ IsItemOf number facts.now item) }
{
    facts_in_order();
    // From here on it is known that the facts are those of some file.
    facts.origin();
    let mut items = declared_items(alloc, number, facts.declarations(), prefixes.len())?;
    add_package(&mut items, number, facts.package_name(), prefixes)?;
    items.sort_by_key(|item| item.place.span.start)?;
    Ok(items)
}

/// Those of a file's declarations, in a list with room for so many others.
fn declared_items<'a>(
    alloc: Global,
    number: usize,
    declarations: &'a [Declaration],
    others: usize,
) -> Result<Vec<Item<'a>>, AllocError>
    ensures { IfOk result (λ items. items.items ≡ map (declared_item number) declarations.now) }
{
    let room = declarations.len().saturating_add(others);
    let mut items = Vec::with_capacity(alloc, room)?;
    for declaration in declarations {
        items.push(Item {
            place: FilePlace {
                file: number,
                span: declaration.name(),
            },
            full_name: declaration.full_name(),
            is_declaration: true,
        })?;
    }
    Ok(items)
}

/// Adds the components of the package's name.
fn add_package<'a>(
    items: &mut Vec<Item<'a>>,
    number: usize,
    components: &[Component],
    prefixes: &'a [OwnedText],
) -> Result<(), AllocError>
    requires { ArePrefixes components.now prefixes.now }
    ensures { OnOk result (AreWithPackage number components.now items.old.items items.new.items) }
{
    for (index, component) in components.iter().enumerate() {
        items.push(Item {
            place: FilePlace {
                file: number,
                span: component.span,
            },
            full_name: FullName::whole(prefixes[index].as_str()),
            is_declaration: false,
        })?;
    }
    Ok(())
}

/// For each file, and each component of its package's name, the name up to it.
pub(crate) fn all_prefixes(
    alloc: Global,
    files: &[LinkFile],
) -> Result<Vec<Sequence<OwnedText>>, AllocError>
    ensures { IfOk result (λ prefixes. AreAllPrefixes files.now prefixes.items) }
{
    let mut prefixes = Vec::with_capacity(alloc, files.len())?;
    for file in files {
        prefixes.push_reserved(prefixes_of_file(alloc, file)?);
    }
    Ok(prefixes)
}

/// The prefixes of the name of a file's package; none if it has no facts.
fn prefixes_of_file(alloc: Global, file: &LinkFile) -> Result<Sequence<OwnedText>, AllocError>
    ensures { IfOk result (λ prefixes. ArePrefixes (package_name_of file.now) prefixes) }
{
    match file.facts {
        Some(facts) => {
            let prefixes = package_prefixes(alloc, facts.package_name())?;
            Ok(Sequence::from_vec(prefixes))
        }
        None => Ok(Sequence::new(alloc)),
    }
}

/// The items of the files of a row, in order of place.
pub(crate) fn all_items<'a>(
    alloc: Global,
    files: &'a [LinkFile<'a, '_>],
    prefixes: &'a [Sequence<OwnedText>],
    row: &FileRow,
) -> Result<Vec<Item<'a>>, AllocError>
    requires prefixes { AreAllPrefixes files.now prefixes.now }
    requires within { (number : ℕ) → Contains row.now number → number < length files.now }
    ensures order { IfOk result (λ items. AreInPlace items.items) }
    ensures items { IfOk result (λ items. (item : Item) → Contains items.items item
        ↔ IsItemBy files.now (Contains row.now) item) }
{
    let mut items = Vec::with_capacity(alloc, room_with_packages(files, prefixes))?;
    for number in row.as_slice() {
        let file = &files[*number];
        let mut more = items_of_file(alloc, *number, file, prefixes[*number].as_slice())?;
        items.append(&mut more)?;
    }
    Ok(items)
}

/// No fewer than the items of the reachable files.
fn room_with_packages(files: &[LinkFile], prefixes: &[Sequence<OwnedText>]) -> usize {
    let mut room = room_for(files);
    for names in prefixes {
        room = room.saturating_add(names.as_slice().len());
    }
    room
}

/// What a file gives names to, in order of place.
fn items_of_file<'a>(
    alloc: Global,
    number: usize,
    file: &LinkFile<'a, '_>,
    prefixes: &'a [OwnedText],
) -> Result<Vec<Item<'a>>, AllocError>
    requires { ArePrefixes (package_name_of file.now) prefixes.now }
    ensures order { IfOk result (λ items. AreInPlace items.items) }
    ensures items { IfOk result (λ items. (item : Item) → Contains items.items item ↔ IsItemIn number file.now item) }
{
    match file.facts {
        Some(facts) => {
            let items = file_items(alloc, number, facts, prefixes)?;
            Ok(items)
        }
        None => Ok(Vec::new(alloc)),
    }
}

/// The first clash of two items of a file.
pub(crate) fn own_clash(
    alloc: Global,
    number: usize,
    file: &LinkFile,
    prefixes: &[OwnedText],
) -> Result<Option<(FilePlace, FilePlace)>, AllocError>
    requires { ArePrefixes (package_name_of file.now) prefixes.now }
    ensures { IfOk result (λ clash. MatchOption clash (NoClashBy Before (IsItemIn number file.now))
        (λ places. ClashBy Before (IsItemIn number file.now) places.0 places.1)) }
{
    let items = items_of_file(alloc, number, file, prefixes)?;
    let clash = first_clash(alloc, items.as_slice())?;
    Ok(clash)
}
