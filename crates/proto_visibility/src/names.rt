//! Tables of the names that files give.

ghost use Rattle.std.specs.Prelude.{ℕ, List, ◌≡◌, ◌≤◌, ◌↔◌, ◌⊎◌, ◌++◌, ◌∷◌, [], IfOk, OnOk, Contains, if◌then◌else◌};
ghost use Rattle.std.specs.List.Sorted.{IsNonDecreasing};
ghost use Rattle.std.specs.Str.{bytes_eq};
ghost use Rattle.proto_visibility.specs.declared.names.DeclaredAt.{DeclaredAt};
ghost use Rattle.proto_visibility.specs.Tables.FileItems.{AreAllPrefixes};
ghost use Rattle.proto_visibility.specs.Tables.GivenNames.{owned_at, IsDeclaredOf, IsDeclaredIn, AreDeclared};
ghost use Rattle.proto_visibility.specs.Tables.GivenNames.{HasPrefixAt, AreNames};

use crate::files::LinkFile;
use crate::items::all_prefixes;
use crate::lookup::Role;
use basics::{OwnedText, Sequence};
use indexmap::IndexMap;
use proto_decl::{Declaration, DeclarationKind, FullName};
use std::alloc::{AllocError, Global};
use std::marker::Model;

/// A declaration of a file, by the file's number and its index there, and its kind.
#[derive(Clone, Copy, Debug)]
pub(crate) struct DeclaredAt {
    pub(crate) file: usize,
    pub(crate) index: usize,
    pub(crate) kind: DeclarationKind,
}

/// For each full name the messages, enums and services that have it, and for each package the files
/// that have it or one below it, in order of their numbers.
#[derive(Drop)]
pub(crate) struct Names {
    declared: IndexMap<String, Vec<DeclaredAt>>,
    packages: IndexMap<String, Vec<usize>>,
}

impl Names {
    /// The names that files give, by the names of their packages' prefixes.
    pub(crate) fn of(
        alloc: Global,
        files: &[LinkFile],
        prefixes: &[Sequence<OwnedText>],
    ) -> Result<Names, AllocError>
        requires { AreAllPrefixes files.now prefixes.now }
        ensures { IfOk result (AreNames files.now) }
    {
        let declared = declared_names(alloc, files)?;
        let packages = package_names(alloc, prefixes)?;
        Ok(Names { declared, packages })
    }

    /// The messages, enums and services that have a full name.
    pub(crate) fn declaring(&self, name: &str) -> &[DeclaredAt]
        ensures { result.now ≡ owned_at self.now.declared name.now }
    {
        match self.declared.get(name) {
            Some(listed) => listed.as_slice(),
            None => &[],
        }
    }

    /// The files that have a package or one below it.
    pub(crate) fn packaging(&self, name: &str) -> &[usize]
        ensures { result.now ≡ owned_at self.now.packages name.now }
    {
        match self.packages.get(name) {
            Some(listed) => listed.as_slice(),
            None => &[],
        }
    }
}

/// For each full name the messages, enums and services that have it.
fn declared_names(
    alloc: Global,
    files: &[LinkFile],
) -> Result<IndexMap<String, Vec<DeclaredAt>>, AllocError>
    ensures { IfOk result (λ names. AreDeclared files.now (owned_at names)) }
{
    let mut names = IndexMap::new(alloc);
    for (number, file) in files.iter().enumerate() {
        add_file(alloc, &mut names, number, file)?;
    }
    Ok(names)
}

/// Adds those of the file with this number.
fn add_file(
    alloc: Global,
    names: &mut IndexMap<String, Vec<DeclaredAt>>,
    number: usize,
    file: &LinkFile,
) -> Result<(), AllocError>
    ensures { OnOk result ((name : List ℕ) (one : DeclaredAt) → Contains (owned_at names.new name) one ↔
        (Contains (owned_at names.old name) one ⊎ IsDeclaredIn number file.now name one)) }
{
    match file.facts {
        Some(facts) => add_declarations(alloc, names, number, facts.declarations()),
        None => Ok(()),
    }
}

/// Adds a file's messages, enums and services.
fn add_declarations(
    alloc: Global,
    names: &mut IndexMap<String, Vec<DeclaredAt>>,
    number: usize,
    declarations: &[Declaration],
) -> Result<(), AllocError>
    ensures { OnOk result ((name : List ℕ) (one : DeclaredAt) → Contains (owned_at names.new name) one ↔
        (Contains (owned_at names.old name) one ⊎ ((index : ℕ) × IsDeclaredOf number declarations.now index name
        one))) }
{
    for (index, declaration) in declarations.iter().enumerate() {
        let kind = declaration.kind();
        if !Role::AsAggregate.admits(kind) {
            continue;
        }
        let one = DeclaredAt {
            file: number,
            index,
            kind,
        };
        add_declared(alloc, names, declaration.full_name(), one)?;
    }
    Ok(())
}

/// Adds a declaration to those that have its name.
fn add_declared(
    alloc: Global,
    names: &mut IndexMap<String, Vec<DeclaredAt>>,
    name: FullName<'_>,
    one: DeclaredAt,
) -> Result<(), AllocError>
    ensures { OnOk result ((other : List ℕ) → owned_at names.new other
        ≡ (if bytes_eq name.entry other then owned_at names.old other ++ one ∷ [] else owned_at names.old other)) }
{
    let text = name.to_text(alloc)?.into_string();
    list_one(names.entry(text)?.or_default(), one)?;
    Ok(())
}

/// Adds a declaration to a list. One that was empty gets room for it alone, since most names are of one declaration.
fn list_one(list: &mut Vec<DeclaredAt>, one: DeclaredAt) -> Result<(), AllocError>
    ensures { OnOk result (list.new.items ≡ list.old.items ++ one ∷ []) }
{
    if list.is_empty() {
        list.reserve_exact(1)?;
    }
    list.push(one)?;
    Ok(())
}

/// For each of these texts the files that have it.
fn package_names(
    alloc: Global,
    prefixes: &[Sequence<OwnedText>],
) -> Result<IndexMap<String, Vec<usize>>, AllocError>
    ensures files { IfOk result (λ names. (name : List ℕ) (number : ℕ) → Contains (owned_at names name) number ↔
        HasPrefixAt prefixes.now number name) }
    ensures order { IfOk result (λ names. (name : List ℕ) → IsNonDecreasing (owned_at names name)) }
{
    let mut names = IndexMap::new(alloc);
    for (number, its) in prefixes.iter().enumerate() {
        add_prefixes(alloc, &mut names, number, its.as_slice())?;
    }
    Ok(names)
}

/// Adds the file with this number, which isn't less than those that are there.
fn add_prefixes(
    alloc: Global,
    names: &mut IndexMap<String, Vec<usize>>,
    number: usize,
    prefixes: &[OwnedText],
) -> Result<(), AllocError>
    requires order { (name : List ℕ) → IsNonDecreasing (owned_at names.old name) }
    requires behind { (name : List ℕ) (other : ℕ) → Contains (owned_at names.old name) other → other ≤ number }
    ensures files { OnOk result ((name : List ℕ) (other : ℕ) → Contains (owned_at names.new name) other ↔
        (Contains (owned_at names.old name) other ⊎ ((other ≡ number) × Contains prefixes.now name))) }
    ensures order { OnOk result ((name : List ℕ) → IsNonDecreasing (owned_at names.new name)) }
{
    for prefix in prefixes {
        add_prefix(alloc, names, number, prefix.as_str())?;
    }
    Ok(())
}

/// Adds a file to those whose package begins with this prefix.
fn add_prefix(
    alloc: Global,
    names: &mut IndexMap<String, Vec<usize>>,
    number: usize,
    prefix: &str,
) -> Result<(), AllocError>
    ensures { OnOk result ((other : List ℕ) → owned_at names.new other ≡ (if bytes_eq prefix.now other then owned_at
        names.old other ++ number ∷ [] else owned_at names.old other)) }
{
    if let Some(listed) = names.get_mut(prefix) {
        listed.push(number)?;
        return Ok(());
    }
    add_copied(alloc, names, number, prefix)
}

/// The same, by a copy of the text.
fn add_copied(
    alloc: Global,
    names: &mut IndexMap<String, Vec<usize>>,
    number: usize,
    prefix: &str,
) -> Result<(), AllocError>
    ensures { OnOk result ((other : List ℕ) → owned_at names.new other ≡ (if bytes_eq prefix.now other then owned_at
        names.old other ++ number ∷ [] else owned_at names.old other)) }
{
    let name = String::from_str(alloc, prefix)?;
    names.entry(name)?.or_default().push(number)?;
    Ok(())
}

/// The names that files give, whether they clash or not.
///
/// It can be made while another thread makes `CheckedFiles` of the same files. Contracts see the list of the files.
#[derive(Drop)]
pub struct ListedNames<'a, 't> {
    files: &'a [LinkFile<'a, 't>],
    names: Names,
}

impl<'a, 't> Model for ListedNames<'a, 't> {
    ghost use Rattle.std.specs.Prelude.{List};
    ghost use Rattle.proto_visibility.specs.Files.{File};
    ghost use Rattle.proto_visibility.specs.Tables.GivenNames.{AreNames};

    ghost Value = { List File };

    ghost view = { λ listed. listed.files.now };

    ghost invariant = { λ listed. AreNames listed.files.now listed.names };
}

impl<'a, 't> ListedNames<'a, 't> {
    /// The names that files give.
    pub fn of(
        alloc: Global,
        files: &'a [LinkFile<'a, 't>],
    ) -> Result<ListedNames<'a, 't>, AllocError>
        ensures { IfOk result (λ listed. listed ≡ files.now) }
    {
        let prefixes = all_prefixes(alloc, files)?;
        let listed = ListedNames::by_prefixes(alloc, files, prefixes.as_slice())?;
        Ok(listed)
    }

    /// The same, by the names of their packages' prefixes.
    pub(crate) fn by_prefixes(
        alloc: Global,
        files: &'a [LinkFile<'a, 't>],
        prefixes: &[Sequence<OwnedText>],
    ) -> Result<ListedNames<'a, 't>, AllocError>
        requires { AreAllPrefixes files.now prefixes.now }
        ensures { IfOk result (λ listed. listed ≡ files.now) }
    {
        let names = Names::of(alloc, files, prefixes)?;
        Ok(ListedNames { files, names })
    }

    /// The tables. Takes no memory.
    pub(crate) fn into_names(self) -> Names
        ensures { AreNames self.entry result }
    {
        self.names
    }
}
