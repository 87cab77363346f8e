//! The first clash of names, and names that can't clash, since the numbers of them differ.

ghost use Rattle.std.specs.Prelude.{List, ℕ, ◌≡◌, ◌<◌, IfOk, OnOk, IfSome, MatchOption, Some, Contains, length};
ghost use Rattle.std.specs.Prelude.{is_some, if◌then◌else◌, ◌↔◌, ◌++◌, IsTrue, map};
ghost use Rattle.std.specs.Str.{bytes_eq};
ghost use Rattle.std.specs.List.{list_any};
ghost use Rattle.proto_visibility.specs.declared.clash.Duplicates.{Duplicates};
ghost use Rattle.proto_visibility.specs.Clashes.{Before, ClashBy, NoClashBy, NoClash, Item};
ghost use Rattle.proto_visibility.specs.Tables.ClashTables.{AreInPlace, clash_with, index_in};
ghost use Rattle.proto_visibility.specs.Reaches.{IsReachable};
ghost use Rattle.proto_visibility.specs.Tables.FileItems.{AreAllPrefixes, declared_item};
ghost use Rattle.proto_visibility.specs.Tables.ClashTables.{AreApart, declarations_of, has_number};

use crate::files::{FilePlace, LinkFile};
use crate::rows::FileRow;
use basics::{OwnedText, Sequence};
use proto_decl::{Declaration, FullName};
use std::alloc::{AllocError, Global};
use std::collections::{HashMap, HashSet};
use std::marker::Model;

/// Whether several files may give one full name.
#[derive(Clone, Copy, Debug, PartialEq, Eq)]
pub enum Duplicates {
    /// They may not: all reachable files are one namespace.
    Refuse,
    /// They may: each file is a namespace of its own.
    Keep,
}

/// A declaration or a component of a package statement: where it is, and the full name that it gives.
#[derive(Drop)]
pub(crate) struct Item<'a> {
    pub(crate) place: FilePlace,
    pub(crate) full_name: FullName<'a>,
    pub(crate) is_declaration: bool,
}

impl<'a> Model for Item<'a> {
    ghost use Rattle.proto_visibility.specs.Clashes.{Item};

    ghost Value = { Item };

    ghost view = { λ item. record {
      place = item.place;
      full_name = item.full_name;
      is_declaration =
          item.is_declaration;
    } };
}

/// Two items, in order of place, that have one full name and of which one is a declaration: among these pairs, that
/// with the least second place, and then the least first.
pub(crate) fn first_clash(
    alloc: Global,
    items: &[Item],
) -> Result<Option<(FilePlace, FilePlace)>, AllocError>
    requires { AreInPlace items.now }
    ensures { IfOk result (λ clash. MatchOption clash (NoClashBy Before (Contains items.now))
        (λ places. ClashBy Before (Contains items.now) places.0 places.1)) }
{
    let mut names = HashMap::with_capacity(alloc, items.len())?;
    for (index, item) in items.iter().enumerate() {
        let name = item.full_name.copy();
        let first = first_named(&mut names, name, index)?;
        if let Some(earlier) = clash_with(items, first, item) {
            return Ok(Some((earlier, item.place)));
        }
    }
    Ok(None)
}

/// The index of the first item with a name. If there is none, this index is kept as that of the name.
fn first_named<'a>(
    names: &mut HashMap<FullName<'a>, usize>,
    name: FullName<'a>,
    index: usize,
) -> Result<Option<usize>, AllocError>
    ensures found { IfOk result (λ first. first ≡ index_in names.old name.entry) }
    ensures kept { IfOk result (λ first. (other : List ℕ) → index_in names.new other
        ≡ (if is_some first then index_in names.old other else (if bytes_eq name.entry other then Some index else
        index_in names.old other))) }
{
    match names.insert(name.copy(), index)? {
        Some(first) => {
            names.insert(name, first)?;
            Ok(Some(first))
        }
        None => Ok(None),
    }
}

/// The place of the first item with a name, if it or the later one is a declaration.
pub(crate) fn clash_with(items: &[Item], first: Option<usize>, item: &Item) -> Option<FilePlace>
    ensures { result ≡ clash_with items.now first item.now }
{
    let earlier = items.get(first?)?;
    if earlier.is_declaration || item.is_declaration {
        Some(earlier.place)
    } else {
        None
    }
}

/// Whether the numbers of all declarations' full names differ, and those of packages from them. If so, no names clash.
///
/// Two full names seldom have one number, so equal numbers nearly always mean one name. How often the answer is yes is
/// promised nowhere: only time depends on it.
pub(crate) fn numbers_differ(
    alloc: Global,
    files: &[LinkFile],
    prefixes: &[Sequence<OwnedText>],
    reachable: &FileRow,
) -> Result<bool, AllocError>
    requires prefixes { AreAllPrefixes files.now prefixes.now }
    requires reachable { (number : ℕ) → Contains reachable.now number ↔ IsReachable files.now number }
    ensures { IfOk result (λ differ. IsTrue differ
        → (duplicates : Duplicates) → NoClash duplicates files.now) }
{
    let mut numbers = HashSet::with_capacity(alloc, room_for(files))?;
    for number in reachable.as_slice() {
        let differ = add_file(&mut numbers, &files[*number])?;
        if !differ {
            return Ok(false);
        }
    }
    let shared = has_package(&numbers, prefixes);
    Ok(!shared)
}

/// No fewer than the declarations of the reachable files: how much room a list or a set of them is made with.
pub(crate) fn room_for(files: &[LinkFile]) -> usize {
    let mut room: usize = 0;
    for file in files {
        room = room.saturating_add(count_of(file));
    }
    room
}

/// How many of them one file has.
fn count_of(file: &LinkFile) -> usize {
    match file.facts {
        Some(facts) => facts.declarations().len(),
        None => 0,
    }
}

/// Adds the numbers of the full names of a file's declarations, as long as each is new. Whether all are.
fn add_file(numbers: &mut HashSet<u64>, file: &LinkFile) -> Result<bool, AllocError>
    ensures { IfOk result (λ new. IsTrue new → (number : ℕ) (items : List Item) → AreApart items numbers.old
        → AreApart (items ++ map (declared_item number) (declarations_of file.now)) numbers.new) }
{
    match file.facts {
        Some(facts) => add_declarations(numbers, facts.declarations()),
        None => Ok(true),
    }
}

/// Adds the numbers of these declarations' full names, as long as each is new. Whether all are.
fn add_declarations(
    numbers: &mut HashSet<u64>,
    declarations: &[Declaration],
) -> Result<bool, AllocError>
    ensures { IfOk result (λ new. IsTrue new → (number : ℕ) (items : List Item) → AreApart items numbers.old
        → AreApart (items ++ map (declared_item number) declarations.now) numbers.new) }
{
    for declaration in declarations {
        let new = numbers.insert(declaration.full_name().hash64())?;
        if !new {
            return Ok(false);
        }
    }
    Ok(true)
}

/// Whether the number of some package's name is in the set.
fn has_package(numbers: &HashSet<u64>, prefixes: &[Sequence<OwnedText>]) -> bool
    ensures { result ≡ list_any (λ names. list_any (λ name. has_number numbers.now name) names) prefixes.now }
{
    prefixes
        .iter()
        .any(|names| has_one(numbers, names.as_slice()))
}

/// Whether the number of one of these names is in the set.
fn has_one(numbers: &HashSet<u64>, names: &[OwnedText]) -> bool
    ensures { result ≡ list_any (λ name. has_number numbers.now name) names.now }
{
    names.iter().any(|name| has_number(numbers, name.as_str()))
}

/// Whether the number of a full name is in the set.
fn has_number(numbers: &HashSet<u64>, name: &str) -> bool
    ensures { result ≡ has_number numbers.now name.now }
{
    numbers.contains(&FullName::whole(name).hash64())
}
