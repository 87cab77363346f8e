//! Files whose names are one namespace, or each file's one of its own.

ghost use Rattle.std.specs.Prelude.{◌≡◌, ℕ, ◌<◌, ◌↔◌, false, IsTrue, IfOk, IfErr, MatchOption, length};
ghost use Rattle.proto_decl.specs.Facts.{Facts};
ghost use Rattle.proto_decl.specs.Laws.{IsEntity};
ghost use Rattle.proto_visibility.specs.declared.clash.Duplicates.TheVariants.{Keep};
ghost use Rattle.proto_visibility.specs.Knows.NameKind.{OfPackage};
ghost use Rattle.proto_visibility.specs.Knows.{IsEntityOf, IsGivenTwice, IsOwner, KnowsAs, admits, SeesGiving};
ghost use Rattle.proto_visibility.specs.Files.{HaveOwnPaths, HaveOrigins, HasFacts, HasPath, HasPathAt};
ghost use Rattle.proto_visibility.specs.Files.{IsIncludedAt, IsSourceAt};
ghost use Rattle.std.specs.Prelude.{Contains};
ghost use Rattle.std.specs.List.Sorted.{IsStrictlyIncreasing};
ghost use Rattle.proto_visibility.specs.Sees.{Sees};
ghost use Rattle.proto_visibility.specs.Reaches.{IsOptionsIn, IsReachable, LinksOptions};
ghost use Rattle.proto_visibility.specs.Absences.{AreMissing};
ghost use Rattle.proto_visibility.specs.Linked.{HaveClearNames, CanBeLinked, MayRefuse};

use crate::absent::{all_absent, is_path_of_one};
use crate::checked::CheckedFiles;
use crate::clash::Duplicates;
use crate::fault::LinkFault;
use crate::files::{FilePlace, LinkFile, have_origins, unless_left_out};
use crate::import_table::{numbers_of, paths_of, steps_of};
use crate::items::all_prefixes;
use crate::lookup::{Entity, Role, are_two_declaring, entity_in, giving_in, only_declaring};
use crate::names::{ListedNames, Names};
use crate::options::{OptionsIn, options_of};
use crate::seeing::{SeenFiles, reachable_files, seen_files};
use proto_decl::FileFacts;
use std::alloc::{AllocError, Global};
use std::collections::HashMap;
use std::marker::Model;

/// Files in which no full name is declared twice: all sources, and the included files that they reach,
/// are one namespace; or each of them is one, if several may give one name.
///
/// Contracts see the list of the files.
#[derive(Drop)]
pub struct Namespace<'a, 't> {
    files: &'a [LinkFile<'a, 't>],
    duplicates: Duplicates,
    paths: HashMap<&'a str, usize>,
    seen: SeenFiles,
    options: Vec<OptionsIn>,
    names: Names,
}

impl<'a, 't> Model for Namespace<'a, 't> {
    ghost use Rattle.std.specs.Prelude.{List};
    ghost use Rattle.proto_visibility.specs.Files.{File};
    ghost use Rattle.proto_visibility.specs.Linked.{IsLinked};

    ghost Value = { List File };

    ghost view = { λ namespace. namespace.files.now };

    ghost invariant = { λ namespace. IsLinked namespace.duplicates namespace.files.now namespace.paths
        namespace.seen namespace.options.items namespace.names };
}

impl<'a, 't> Namespace<'a, 't> {
    /// Links files, no two of which have one path, by their numbers in the list.
    ///
    /// An included file has an effect only where some source reaches it. A weak import counts as a
    /// plain one.
    #[tactic(auto, using(crate::proofs::LinkedRefusalRules::refusals))]
    pub fn new(
        alloc: Global,
        files: &'a [LinkFile<'a, 't>],
        duplicates: Duplicates,
    ) -> Result<Namespace<'a, 't>, LinkFault>
        requires { HaveOwnPaths files.now }
        ensures linked { IfOk result (λ namespace. namespace ≡ files.now) }
        ensures can_be { IfOk result (λ _. CanBeLinked duplicates files.now) }
        ensures refused { IfErr result (MayRefuse duplicates files.now) }
    {
        let prefixes = all_prefixes(alloc, files)?;
        let checked = CheckedFiles::by_prefixes(alloc, files, prefixes.as_slice(), duplicates)?;
        let listed = ListedNames::by_prefixes(alloc, files, prefixes.as_slice())?;
        Ok(Namespace::joined(checked, listed))
    }

    /// Links files that are checked and whose names are listed. Takes no memory.
    pub fn joined(checked: CheckedFiles<'a, 't>, listed: ListedNames<'a, 't>) -> Namespace<'a, 't>
        requires { listed ≡ checked }
        ensures { result ≡ checked.entry }
    {
        let names = listed.into_names();
        let CheckedFiles {
            files,
            duplicates,
            paths,
            seen,
            options,
        } = checked;
        Namespace {
            files,
            duplicates,
            paths,
            seen,
            options,
            names,
        }
    }

    /// The namespace of the files that are kept of a tree with faults: an import may name none of them.
    pub fn of_kept(
        alloc: Global,
        files: &'a [LinkFile<'a, 't>],
        duplicates: Duplicates,
    ) -> Result<Namespace<'a, 't>, AllocError>
        requires own { HaveOwnPaths files.now }
        requires clear { HaveClearNames duplicates files.now }
        ensures { IfOk result (λ namespace. namespace ≡ files.now) }
    {
        let numbers = numbers_of(alloc, files)?;
        let table = steps_of(alloc, files, &numbers)?;
        let prefixes = all_prefixes(alloc, files)?;
        have_origins(files);
        let seen = seen_files(alloc, files, table.as_slice())?;
        let options = options_of(alloc, files, table.as_slice(), &numbers)?;
        let names = Names::of(alloc, files, prefixes.as_slice())?;
        let paths = paths_of(alloc, files, numbers)?;
        Ok(Namespace {
            files,
            duplicates,
            paths,
            seen,
            options,
            names,
        })
    }

    /// Whether some file has a path. Takes no memory.
    pub fn has_path(&self, path: &str) -> bool
        ensures { IsTrue result ↔ HasPath self.now path.now }
    {
        is_path_of_one(path, &self.paths)
    }

    /// The places of the imports that have to be there and name no file, in order: those of sources, and the public
    /// ones of included files that some source reaches.
    pub fn missing_imports(&self, alloc: Global) -> Result<Vec<FilePlace>, AllocError>
        ensures { IfOk result (λ places. AreMissing self.now places.items) }
    {
        let numbers = numbers_of(alloc, self.files)?;
        let table = steps_of(alloc, self.files, &numbers)?;
        let options = self.options.as_slice();
        let reachable = reachable_files(alloc, self.files, table.as_slice(), options)?;
        all_absent(alloc, self.files, &self.paths, &reachable)
    }

    /// The numbers of the sources, and of the included files that some source reaches, rising. An error means that memory
    /// was refused.
    pub fn reachable_files(&self, alloc: Global) -> Result<Vec<usize>, AllocError>
        ensures reachable { IfOk result (λ numbers. (number : ℕ) → Contains numbers.items number
            ↔ IsReachable self.now number) }
        ensures rising { IfOk result (λ numbers. IsStrictlyIncreasing numbers.items) }
    {
        let numbers = numbers_of(alloc, self.files)?;
        let table = steps_of(alloc, self.files, &numbers)?;
        let options = self.options.as_slice();
        let reachable = reachable_files(alloc, self.files, table.as_slice(), options)?;
        Vec::from_slice(alloc, reachable.as_slice())
    }

    /// Whether a file sees another: itself, what it imports, and what public imports lead to from
    /// there. Takes no memory.
    pub fn visible(&self, file: usize, other: usize) -> bool
        requires file { file < length self.now }
        requires other { other < length self.now }
        ensures { IsTrue result ↔ Sees self.now file other }
    {
        self.seen.row(file).has(other)
    }

    /// In which file a source has the messages of its options, whose names in options are linked. Takes no memory.
    pub fn options_in(&self, source: usize) -> OptionsIn
        requires { LinksOptions self.now source }
        ensures { IsOptionsIn self.now source result }
    {
        let options = self.options.as_slice();
        options[source]
    }

    /// Some file that a file sees and that gives a name in a role, if there is one. Takes no memory.
    pub fn giving_file(&self, file: usize, name: &str, role: Role) -> Option<usize>
        requires { file < length self.now }
        ensures { MatchOption result (KnowsAs self.now file (admits role) name.now → ⊥)
            (SeesGiving self.now file (admits role) name.now) }
    {
        giving_in(&self.names, &self.seen.row(file), name, role)
    }

    /// The file that declares a name which a file knows in a role that packages haven't: of the files that it sees only
    /// this one declares it, and it isn't left out. Takes no memory.
    pub fn owner_of(&self, file: usize, name: &str, role: Role) -> Option<usize>
        requires file { file < length self.now }
        requires declared { admits role OfPackage ≡ false }
        ensures { MatchOption result ((owner : ℕ) → IsOwner self.now file (admits role) name.now owner → ⊥)
            (IsOwner self.now file (admits role) name.now) }
    {
        match only_declaring(self.names.declaring(name), &self.seen.row(file), role) {
            Some(owner) => unless_left_out(self.files, owner),
            None => None,
        }
    }

    /// Whether of the files that a file sees two declare a name in a role that packages haven't, and aren't left out.
    /// Takes no memory.
    pub fn is_given_twice(&self, file: usize, name: &str, role: Role) -> bool
        requires file { file < length self.now }
        requires declared { admits role OfPackage ≡ false }
        ensures { IsTrue result ↔ IsGivenTwice self.now file (admits role) name.now }
    {
        let declared = self.names.declaring(name);
        are_two_declaring(self.files, declared, &self.seen.row(file), role)
    }

    /// Whether several files may give one name: as it was said when the namespace was made. Takes no memory.
    pub fn duplicates(&self) -> Duplicates
        ensures { HaveClearNames result self.now }
    {
        self.duplicates
    }

    /// No two files have one path, the reachable files have facts, no names clash in any of them, and the facts of each
    /// file are those of some text: what the laws ask for. Takes no memory.
    pub fn linked(&self)
        ensures own { HaveOwnPaths self.now }
        ensures clear { HaveClearNames Keep self.now }
        ensures origins { HaveOrigins self.now }
    {
        let _files = self.files;
    }

    /// What a full name names in a file with these facts, if it is that of a declaration or a package of the file.
    /// How many components the name has is the caller's word, given back with a package. Takes no memory.
    pub fn entity_of(&self, number: usize, facts: &FileFacts, name: &str, count: usize) -> Entity
        requires has { HasFacts self.now number facts.now }
        requires entity { IsEntity facts.now name.now }
        ensures { IsEntityOf number facts.now name.now count result }
    {
        entity_in(&self.names, number, facts, name, count)
    }

    /// The facts of a file, where it has some. Takes no memory.
    pub fn facts_of(&self, number: usize) -> Option<&FileFacts<'t>>
        requires { number < length self.now }
        ensures { MatchOption result ((facts : Facts) → HasFacts self.now number facts → ⊥)
            (λ facts. HasFacts self.now number facts.now) }
    {
        let files = self.files;
        let file = &files[number];
        file.facts
    }

    /// How many files there are. Takes no memory.
    pub fn count(&self) -> usize
        ensures { result ≡ length self.now }
    {
        self.files.len()
    }

    /// Whether a file is included, and so no source. Takes no memory.
    pub fn is_included(&self, number: usize) -> bool
        requires { number < length self.now }
        ensures { IsIncludedAt self.now number result }
    {
        let files = self.files;
        let file = &files[number];
        file.is_included()
    }

    /// Whether a file is a source: neither included nor left out. Takes no memory.
    pub fn is_source(&self, number: usize) -> bool
        requires { number < length self.now }
        ensures { IsSourceAt self.now number result }
    {
        let files = self.files;
        let file = &files[number];
        file.is_source()
    }

    /// The path of a file. Takes no memory.
    pub fn path_of(&self, number: usize) -> &str
        requires { number < length self.now }
        ensures { HasPathAt self.now result.now number }
    {
        let files = self.files;
        let file = &files[number];
        file.path
    }

    /// Whether a file knows a name in a role. Takes no memory.
    pub fn knows(&self, file: usize, name: &str, role: Role) -> bool
        requires { file < length self.now }
        ensures { IsTrue result ↔ KnowsAs self.now file (admits role) name.now }
    {
        self.giving_file(file, name, role).is_some()
    }
}
