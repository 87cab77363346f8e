//! Declarations by their full names.

ghost use Rattle.std.specs.Prelude.{ℕ, Bool, false, List, ◌≡◌, ◌≢◌, ◌↔◌, ◌<◌, ◌≤◌, ◌+◌, ◌^◌, None, Some, IfOk, OnOk};
ghost use Rattle.std.specs.Prelude.{Contains, IfSome, IsTrue, MatchOption, length};
ghost use Rattle.std.specs.List.{slice_get};
ghost use Rattle.std.specs.List.Sorted.{IsNonDecreasingBy};
ghost use Rattle.proto_decl.specs.Names.{hash64};
ghost use Rattle.proto_decl.specs.declared.declaration.Declaration.{Declaration};
ghost use Rattle.option_link.specs.declared.place.DeclaredPlace.{DeclaredPlace};
ghost use Rattle.option_link.specs.declared.table.Listed.{Listed};
ghost use Rattle.proto_visibility.specs.declared.clash.Duplicates.TheVariants.{Keep};
ghost use Rattle.proto_visibility.specs.Files.{HaveOrigins, IsPresent};
ghost use Rattle.proto_visibility.specs.Knows.{KnowsAs, NameKind};
ghost use Rattle.proto_visibility.specs.Linked.{HaveClearNames};
ghost use Rattle.option_link.specs.Marks.{AreListedMarked};
ghost use Rattle.option_link.specs.Places.{Stands};
ghost use Rattle.option_link.specs.Messages.{AreOptionsMessages};
ghost use Rattle.option_link.specs.Typed.{AreTypesFound, IsTypeFound};
ghost use Rattle.option_link.specs.Tables.{Adds, AddsUpTo, AreNear, HasName, IsAlone, Lists, name_hash};

use crate::marks::{is_marked, mark, no_marks};
use crate::messages::OptionMessages;
use crate::packages::package_marks;
use crate::place::{DeclaredPlace, is_same};
use crate::present::present_files;
use crate::types::{FoundType, type_among};
use proto_decl::{Declaration, DeclarationKind, FullName};
use proto_link::Linker;
use std::alloc::{AllocError, Global};
use std::marker::Model;

/// A declaration by its place, with the number that its full name is hashed by. What messages say is listed so, too.
#[derive(Clone, Copy, Debug, PartialEq, Eq)]
pub(crate) struct Listed {
    pub(crate) hash64: u64,
    pub(crate) place: DeclaredPlace,
}

/// All declarations of files that are linked and have facts, in order of those numbers; what some uses of types name,
/// in order of place; for each file whether it isn't left out; marks of the numbers that the full names of packages
/// are hashed by, and of those of declarations; and the messages of options.
///
/// Contracts see the list of the files.
#[derive(Drop)]
pub(crate) struct DeclarationTable<'n, 'a, 't> {
    linker: &'n Linker<'a, 't>,
    listed: Vec<Listed>,
    types: Vec<FoundType>,
    present: Vec<bool>,
    packages: Vec<bool>,
    declared: Vec<bool>,
    messages: Option<OptionMessages>,
}

impl<'n, 'a, 't> Model for DeclarationTable<'n, 'a, 't> {
    ghost use Rattle.std.specs.Prelude.{List};
    ghost use Rattle.proto_visibility.specs.Files.{File};
    ghost use Rattle.option_link.specs.Typed.{IsTable};

    ghost Value = { List File };

    ghost view = { λ table. table.linker.now };

    ghost invariant = { λ table. IsTable table.linker.now table.listed.items table.types.items
        table.present.items table.packages.items table.declared.items table.messages };
}

/// Adds the declarations of a file.
fn list_file(
    listed: &mut Vec<Listed>,
    file: usize,
    declarations: &[Declaration<'_>],
) -> Result<(), AllocError>
    ensures { OnOk result (AddsUpTo name_hash file declarations.now (length declarations.now) listed.old.items
        listed.new.items) }
{
    for index in 0..declarations.len() {
        let declaration = &declarations[index];
        listed.push(Listed {
            hash64: declaration.full_name().hash64(),
            place: DeclaredPlace { file, index },
        })?;
    }
    Ok(())
}

/// Adds the declarations of a file, if it has facts.
fn list_known(
    listed: &mut Vec<Listed>,
    linker: &Linker<'_, '_>,
    file: usize,
) -> Result<(), AllocError>
    requires { file < length linker.now }
    ensures { OnOk result (Adds linker.now file listed.old.items listed.new.items) }
{
    match linker.facts_of(file) {
        Some(facts) => list_file(listed, file, facts.declarations()),
        None => Ok(()),
    }
}

/// All declarations of files that are linked, in order.
fn listed_of(alloc: Global, linker: &Linker<'_, '_>) -> Result<Vec<Listed>, AllocError>
    ensures { IfOk result (λ listed. Lists linker.now listed.items) }
{
    let mut listed = Vec::new(alloc);
    for file in 0..linker.count() {
        list_known(&mut listed, linker, file)?;
    }
    listed.sort_unstable_by_key(|one| one.hash64);
    Ok(listed)
}

/// Marks of the numbers that the full names of what is listed are hashed by.
fn listed_marks(alloc: Global, listed: &[Listed]) -> Result<Vec<bool>, AllocError>
    ensures { IfOk result (λ marks. AreListedMarked listed.now marks.items) }
{
    let mut marks = no_marks(alloc)?;
    for one in listed {
        mark(&mut marks, one.hash64);
    }
    Ok(marks)
}

/// The declaration with a number.
pub(crate) fn declaration_with<'s, 't>(
    declarations: &'s [Declaration<'t>],
    index: usize,
) -> Option<&'s Declaration<'t>>
    ensures small { IfSome result (λ declaration. index + 1 < 2 ^ 64) }
    ensures listed { MatchOption result (slice_get declarations.now index ≡ None)
        (λ declaration. slice_get declarations.now index ≡ Some declaration.now) }
{
    if index >= declarations.len() {
        return None;
    }
    Some(&declarations[index])
}

/// The declaration at a place.
fn declaration_in<'n, 't>(
    linker: &'n Linker<'_, 't>,
    place: DeclaredPlace,
) -> Option<&'n Declaration<'t>>
    ensures small { IfSome result (λ declaration. place.index + 1 < 2 ^ 64) }
    ensures stands { MatchOption result ((declaration : Declaration) → Stands linker.now place declaration → ⊥)
        (λ declaration. Stands linker.now place declaration.now) }
{
    if place.file >= linker.count() {
        return None;
    }
    match linker.facts_of(place.file) {
        Some(facts) => declaration_with(facts.declarations(), place.index),
        None => None,
    }
}

/// Whether two kinds are the same.
pub(crate) fn is_kind(kind: DeclarationKind, other: DeclarationKind) -> bool
    ensures { IsTrue result ↔ (kind ≡ other) }
{
    kind == other
}

/// Whether a declaration is of a kind.
pub(crate) fn is_a(declaration: &Declaration<'_>, kind: DeclarationKind) -> bool
    ensures { IsTrue result ↔ (declaration.now.kind ≡ kind) }
{
    is_kind(declaration.kind(), kind)
}

impl<'n, 'a, 't> DeclarationTable<'n, 'a, 't> {
    /// The declarations of files that are linked.
    pub(crate) fn of(
        alloc: Global,
        linker: &'n Linker<'a, 't>,
    ) -> Result<DeclarationTable<'n, 'a, 't>, AllocError>
        ensures { IfOk result (λ table. table ≡ linker.now) }
    {
        let listed = listed_of(alloc, linker)?;
        let present = present_files(alloc, linker)?;
        let packages = package_marks(alloc, linker)?;
        let declared = listed_marks(alloc, listed.as_slice())?;
        Ok(DeclarationTable {
            linker,
            listed,
            types: Vec::new(alloc),
            present,
            packages,
            declared,
            messages: None,
        })
    }

    /// Keeps what uses of types name, in place of what is kept so far.
    pub(crate) fn keep_types(&mut self, types: Vec<FoundType>)
        requires { AreTypesFound self.old types.items }
        ensures { self.new ≡ self.old }
    {
        self.types = types;
    }

    /// What the use of a file names that starts at an offset, if that is kept.
    pub(crate) fn known_type(&self, file: usize, start: u32) -> Option<FoundType>
        ensures { IfSome result (λ one. IsTypeFound self.now file start one.found) }
    {
        match type_among(self.types.as_slice(), file, start) {
            Some(one) => Some(one),
            None => None,
        }
    }

    /// Keeps the messages of options, in place of those that are kept so far.
    pub(crate) fn keep_messages(&mut self, messages: OptionMessages)
        requires { AreOptionsMessages self.old messages }
        ensures { self.new ≡ self.old }
    {
        self.messages = Some(messages);
    }

    /// The messages of options, if they are kept.
    pub(crate) fn known_messages(&self) -> Option<&OptionMessages>
        ensures { IfSome result (λ messages. AreOptionsMessages self.now messages.now) }
    {
        self.messages.as_ref()
    }

    /// The files.
    pub(crate) fn linker(&self) -> &'n Linker<'a, 't>
        ensures { result.now ≡ self.now }
    {
        self.linker
    }

    /// Names in the reachable files are clear, and the facts of each are those of some text.
    pub(crate) fn linked(&self)
        ensures clear { HaveClearNames Keep self.now }
        ensures origins { HaveOrigins self.now }
    {
        self.linker().linked();
    }

    /// Whether a file isn't left out.
    pub(crate) fn is_present(&self, file: usize) -> bool
        requires { file < length self.now }
        ensures { IsTrue result ↔ IsPresent self.now file }
    {
        self.present[file]
    }

    /// The declaration at a place.
    pub(crate) fn declaration_at(&self, place: DeclaredPlace) -> Option<&'n Declaration<'t>>
        ensures small { IfSome result (λ declaration. place.index + 1 < 2 ^ 64) }
        ensures stands { MatchOption result ((declaration : Declaration) → Stands self.now place declaration → ⊥)
            (λ declaration. Stands self.now place declaration.now) }
    {
        declaration_in(self.linker(), place)
    }

    /// Those whose full names are hashed by the same number as this one: all that have it are among them.
    pub(crate) fn near<'s>(&'s self, name: &FullName<'_>) -> &'s [Listed]
        ensures { AreNear self.now name.now result.now }
    {
        self.near_by(name.hash64())
    }

    /// Those whose full names are hashed by a number.
    fn near_by<'s>(&'s self, number: u64) -> &'s [Listed]
        ensures { (name : List ℕ) → number ≡ hash64 name → AreNear self.now name result.now }
    {
        near(self.listed.as_slice(), number)
    }

    /// Whether something may have a full name that is hashed by a number: if not, no file knows such a name.
    pub(crate) fn may_be_known(&self, number: u64) -> bool
        ensures { result ≡ false → (name : List ℕ) → number ≡ hash64 name → (file : ℕ) (admits : NameKind → Bool)
            → KnowsAs self.now file admits name → ⊥ }
    {
        if is_marked(self.packages.as_slice(), number) {
            return true;
        }
        if !is_marked(self.declared.as_slice(), number) {
            return false;
        }
        !self.near_by(number).is_empty()
    }

    /// Whether what has a full name stands nowhere but at a place in the place's file, of those that are near the name.
    pub(crate) fn is_alone_near(
        &self,
        listed: &[Listed],
        name: &FullName<'_>,
        place: DeclaredPlace,
    ) -> bool
        requires { AreNear self.now name.now listed.now }
        ensures { IsTrue result ↔ IsAlone self.now name.now place }
    {
        for one in listed {
            if !self.is_apart_in(one.place, name, place) {
                return false;
            }
        }
        true
    }

    /// Whether a place is in another file than this one, or is it, or what stands there has another full name.
    fn is_apart_in(&self, other: DeclaredPlace, name: &FullName<'_>, place: DeclaredPlace) -> bool
        ensures { IsTrue result ↔ (other.file ≡ place.file → HasName self.now name.now other → other ≡ place) }
    {
        if other.file != place.file {
            return true;
        }
        self.is_apart(other, name, place)
    }

    /// Whether a place is this one, or what stands there has another full name.
    fn is_apart(&self, other: DeclaredPlace, name: &FullName<'_>, place: DeclaredPlace) -> bool
        ensures { IsTrue result ↔ (HasName self.now name.now other → other ≡ place) }
    {
        if is_same(other, place) {
            return true;
        }
        match self.declaration_at(other) {
            Some(declaration) => !is_full_name(&declaration.full_name(), name),
            None => true,
        }
    }

    /// Whether a declaration with a full name stands at a place.
    pub(crate) fn has_name(&self, place: DeclaredPlace, name: &FullName<'_>) -> bool
        ensures { IsTrue result ↔ HasName self.now name.now place }
    {
        match self.declaration_at(place) {
            Some(declaration) => is_full_name(&declaration.full_name(), name),
            None => false,
        }
    }
}

/// Whether two full names are the same.
fn is_full_name(one: &FullName<'_>, other: &FullName<'_>) -> bool
    ensures { IsTrue result ↔ (one.now ≡ other.now) }
{
    one == other
}

/// Those that are hashed by a number.
pub(crate) fn near<'s>(listed: &'s [Listed], number: u64) -> &'s [Listed]
    requires { IsNonDecreasingBy (λ one. one.hash64) listed.now }
    ensures { (one : Listed) → Contains result.now one
        ↔ (Contains listed.now one × (one.hash64 ≡ number)) }
{
    let before = listed.partition_point(|one| one.hash64 < number);
    let behind = listed.split_at(before).1;
    let count = count_with(behind, number);
    behind.split_at(count).0
}

/// How many in front are hashed by this number: mostly one or none, so they are counted.
fn count_with(listed: &[Listed], hash64: u64) -> usize
    ensures few { result ≤ length listed.now }
    ensures same { (index : ℕ) (one : Listed) → index < result → slice_get listed.now index ≡ Some one
        → one.hash64 ≡ hash64 }
    ensures stop { (one : Listed) → slice_get listed.now result ≡ Some one → one.hash64 ≢ hash64 }
{
    for index in 0..listed.len() {
        let one = &listed[index];
        let hash = one.hash64;
        if hash != hash64 {
            return index;
        }
    }
    listed.len()
}
