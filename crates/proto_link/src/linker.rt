//! Files that are linked.

ghost use Rattle.std.specs.Prelude.{ℕ, ◌≡◌, ◌<◌, ◌↔◌, IsTrue, IfOk, IfErr, MatchOption, length};
ghost use Rattle.proto_decl.specs.Facts.{Facts};
ghost use Rattle.proto_visibility.specs.declared.clash.Duplicates.TheVariants.{Keep};
ghost use Rattle.proto_visibility.specs.Files.{HaveOwnPaths, HaveOrigins, HasFacts, HasPath, HasPathAt};
ghost use Rattle.proto_visibility.specs.Files.{IsIncludedAt, IsSourceAt};
ghost use Rattle.std.specs.Prelude.{Contains};
ghost use Rattle.std.specs.List.Sorted.{IsStrictlyIncreasing};
ghost use Rattle.proto_visibility.specs.Knows.{KnowsAs, admits};
ghost use Rattle.proto_visibility.specs.Sees.{Sees};
ghost use Rattle.proto_visibility.specs.Reaches.{IsOptionsIn, IsReachable, LinksOptions};
ghost use Rattle.proto_visibility.specs.Absences.{AreMissing};
ghost use Rattle.proto_visibility.specs.Linked.{HaveClearNames, CanBeLinked, MayRefuse};
ghost use Rattle.proto_visibility.specs.declared.fault.LinkFault.{LinkFault};
ghost use Rattle.proto_link.specs.Targets.{IsTarget, IsUseFault, MayRefuseUse};
ghost use Rattle.proto_link.specs.declared.uncertain_use.UncertainUse.{UncertainUse};
ghost use Rattle.proto_link.specs.Uncertain.{AreFirstUnread, IsBeyondPackage, IsUncertain};

use crate::resolve::target_of;
use crate::target::Target;
use crate::uncertain::{first_unread_files, is_beyond_package, uncertain_uses_of};
use crate::uncertain_use::UncertainUse;
use crate::use_faults::use_faults_of;
use proto_decl::{FileFacts, Use};
use proto_visibility::{
    CheckedFiles, Duplicates, FilePlace, LinkFault, LinkFile, ListedNames, Namespace, OptionsIn,
    Role,
};
use std::alloc::{AllocError, Global};
use std::marker::Model;

/// Files in which no full name is declared twice: all sources, and the included files that they reach,
/// are one namespace; or each of them is one, if several may give one name.
///
/// Contracts see the list of the files.
#[derive(Drop)]
pub struct Linker<'a, 't> {
    namespace: Namespace<'a, 't>,
}

impl<'a, 't> Model for Linker<'a, 't> {
    ghost use Rattle.std.specs.Prelude.{List};
    ghost use Rattle.proto_visibility.specs.Files.{File};

    ghost Value = { List File };

    ghost view = { λ linker. linker.namespace };
}

impl<'a, 't> Linker<'a, 't> {
    /// Links files, no two of which have one path, by their numbers in the list.
    ///
    /// An included file has an effect only where some source reaches it. A weak import counts as a
    /// plain one.
    ///
    /// Refusals, of which the first that holds is answered; but `Memory` may come before any:
    ///
    /// - `Broken`: the least number of a file without facts, among the sources and the included files that some source
    ///   reaches.
    /// - `Duplicate`: two places in these files, of declarations or of a declaration and a component of a package
    ///   statement, that give one full name; both in one file, if several files may give it. Of such pairs it is that
    ///   with the least second place, and then the least first; places are ordered by file number, then start.
    /// - `MissingImport`: the first import of a path that no file has. Any import of a source counts, and the public
    ///   ones of an included file that some source reaches.
    /// - `Memory`: memory was refused.
    pub fn new(
        alloc: Global,
        files: &'a [LinkFile<'a, 't>],
        duplicates: Duplicates,
    ) -> Result<Linker<'a, 't>, LinkFault>
        requires { HaveOwnPaths files.now }
        ensures linked { IfOk result (λ linker. linker ≡ files.now) }
        ensures can_be { IfOk result (λ _. CanBeLinked duplicates files.now) }
        ensures refused { IfErr result (MayRefuse duplicates files.now) }
    {
        let namespace = Namespace::new(alloc, files, duplicates)?;
        Ok(Linker { namespace })
    }

    /// Links files that are checked and whose names are listed: both parts have to be of the same files. `new` is the
    /// same as to make both parts, one after the other, and to join them; two threads can make them at once. Takes no
    /// memory.
    pub fn joined(checked: CheckedFiles<'a, 't>, listed: ListedNames<'a, 't>) -> Linker<'a, 't>
        requires { listed ≡ checked }
        ensures { result ≡ checked.entry }
    {
        let namespace = Namespace::joined(checked, listed);
        Linker { namespace }
    }

    /// Links the files that are kept of a tree with faults, by their numbers in the list: an import may
    /// name none of them.
    ///
    /// No two may have one path. The sources, and the included files that some source reaches, have to have facts, and no
    /// two places in them may clash as `Duplicate` says. An error means that memory was refused.
    pub fn of_kept(
        alloc: Global,
        files: &'a [LinkFile<'a, 't>],
        duplicates: Duplicates,
    ) -> Result<Linker<'a, 't>, AllocError>
        requires own { HaveOwnPaths files.now }
        requires clear { HaveClearNames duplicates files.now }
        ensures { IfOk result (λ linker. linker ≡ files.now) }
    {
        let namespace = Namespace::of_kept(alloc, files, duplicates)?;
        Ok(Linker { namespace })
    }

    /// Whether some file has a path. Takes no memory.
    pub fn has_path(&self, path: &str) -> bool
        ensures { IsTrue result ↔ HasPath self.now path.now }
    {
        self.namespace.has_path(path)
    }

    /// The places of the imports that have to be there and name no file, in order: those of sources, and the public
    /// ones of included files that some source reaches. An error means that memory was refused.
    pub fn missing_imports(&self, alloc: Global) -> Result<Vec<FilePlace>, AllocError>
        ensures { IfOk result (λ places. AreMissing self.now places.items) }
    {
        self.namespace.missing_imports(alloc)
    }

    /// The numbers of the sources, and of the included files that some source reaches, rising. An error means that memory
    /// was refused.
    pub fn reachable_files(&self, alloc: Global) -> Result<Vec<usize>, AllocError>
        ensures reachable { IfOk result (λ numbers. (number : ℕ) → Contains numbers.items number
            ↔ IsReachable self.now number) }
        ensures rising { IfOk result (λ numbers. IsStrictlyIncreasing numbers.items) }
    {
        self.namespace.reachable_files(alloc)
    }

    /// Whether a file sees another: itself, what it imports, and what public imports lead to from
    /// there. Both numbers have to be below `count`. Takes no memory.
    pub fn visible(&self, file: usize, other: usize) -> bool
        requires file { file < length self.now }
        requires other { other < length self.now }
        ensures { IsTrue result ↔ Sees self.now file other }
    {
        self.namespace.visible(file, other)
    }

    /// In which file a source has the messages of its options: one that its imports lead to, or the file that protoc comes
    /// with. Names in its options have to be linked. Takes no memory.
    pub fn options_in(&self, source: usize) -> OptionsIn
        requires { LinksOptions self.now source }
        ensures { IsOptionsIn self.now source result }
    {
        self.namespace.options_in(source)
    }

    /// Whether a file knows a name in a role: of the files that it sees one declares such a thing by this full name, or
    /// has such a package. The file's number has to be below `count`. Takes no memory.
    pub fn knows(&self, file: usize, name: &str, role: Role) -> bool
        requires { file < length self.now }
        ensures { IsTrue result ↔ KnowsAs self.now file (admits role) name.now }
    {
        self.namespace.knows(file, name, role)
    }

    /// Whether several files may give one name: as it was said when the files were linked. Takes no memory.
    pub fn duplicates(&self) -> Duplicates
        ensures { HaveClearNames result self.now }
    {
        self.namespace.duplicates()
    }

    /// No two files have one path, the reachable files have facts, no names clash in any of them, and the facts of each
    /// file are those of some text: what the laws ask for. Takes no memory.
    pub fn linked(&self)
        ensures own { HaveOwnPaths self.now }
        ensures clear { HaveClearNames Keep self.now }
        ensures origins { HaveOrigins self.now }
    {
        // From here on it is known that no names of the files clash, and that their facts are those of texts.
        self.namespace.linked();
    }

    /// The facts of a file, where it has some. Its number has to be below `count`. Takes no memory.
    pub fn facts_of(&self, number: usize) -> Option<&FileFacts<'t>>
        requires { number < length self.now }
        ensures { MatchOption result ((facts : Facts) → HasFacts self.now number facts → ⊥)
            (λ facts. HasFacts self.now number facts.now) }
    {
        self.namespace.facts_of(number)
    }

    /// How many files there are. Takes no memory.
    pub fn count(&self) -> usize
        ensures { result ≡ length self.now }
    {
        self.namespace.count()
    }

    /// Whether a file is included, and so no source. Its number has to be below `count`. Takes no memory.
    pub fn is_included(&self, number: usize) -> bool
        requires { number < length self.now }
        ensures { IsIncludedAt self.now number result }
    {
        self.namespace.is_included(number)
    }

    /// Whether a file is a source: neither included nor left out. Its number has to be below `count`. Takes no memory.
    pub fn is_source(&self, number: usize) -> bool
        requires { number < length self.now }
        ensures { IsSourceAt self.now number result }
    {
        self.namespace.is_source(number)
    }

    /// The path of a file. Its number has to be below `count`. Takes no memory.
    pub fn path_of(&self, number: usize) -> &str
        requires { number < length self.now }
        ensures { HasPathAt self.now result.now number }
    {
        self.namespace.path_of(number)
    }

    /// What a use names, in a file's scopes: by the names of the files that it sees. The file's number has to be below
    /// `count`.
    ///
    /// Refusals are `Ambiguous` and `Unresolved`, at the place of the whole use, if it names nothing, and `Memory`, if
    /// memory was refused. The others never come.
    ///
    /// A use names what one file alone declares, of those that are seen: if several declare the type that it resolves
    /// to, or the one that does is left out, it names nothing. So the answer is the only one. It is ambiguous if two of
    /// them aren't left out; never, if all files are one namespace and the file is a source.
    pub fn resolve(&self, alloc: Global, file: usize, type_use: &Use) -> Result<Target, LinkFault>
        requires { file < length self.now }
        ensures target { IfOk result (IsTarget self.now file type_use.now) }
        ensures refused { IfErr result (MayRefuseUse self.now file type_use.now) }
    {
        target_of(alloc, &self.namespace, file, type_use)
    }

    /// Why uses of a file name nothing, in order: for each that `resolve` refuses the refusal, `Unresolved` or
    /// `Ambiguous`, at the place of the whole use. The file's number has to be below `count`. An error means that
    /// memory was refused.
    pub fn use_faults(&self, alloc: Global, file: usize) -> Result<Vec<LinkFault>, AllocError>
        requires { file < length self.now }
        ensures { IfOk result (λ faults. (fault : LinkFault) → Contains faults.items fault
            ↔ IsUseFault self.now file fault) }
    {
        use_faults_of(alloc, &self.namespace, file)
    }

    /// The uses of sources that name a type, but may name another one once a file can be read, in order: one that the
    /// source sees and that has no facts. The first word of such a use is found farther out than the source's package, so
    /// that file may have it nearer. An error means that memory was refused.
    pub fn uncertain_uses(&self, alloc: Global) -> Result<Vec<UncertainUse>, AllocError>
        ensures { IfOk result (λ uses. (uncertain : UncertainUse) → Contains uses.items uncertain
            ↔ IsUncertain self.now uncertain) }
    {
        uncertain_uses_of(alloc, &self.namespace)
    }

    /// For each file, by its number, the first of those without facts that it sees. An error means that memory was
    /// refused.
    pub fn first_unread_files(&self, alloc: Global) -> Result<Vec<Option<usize>>, AllocError>
        ensures { IfOk result (λ firsts. AreFirstUnread self.now (length self.now) firsts.items) }
    {
        first_unread_files(alloc, &self.namespace)
    }

    /// Whether a scope is farther out than the package of a file: around it, in any number of steps. The file's number
    /// has to be below `count`. An error means that memory was refused.
    pub fn is_beyond_package(
        &self,
        alloc: Global,
        file: usize,
        start: &str,
    ) -> Result<bool, AllocError>
        requires { file < length self.now }
        ensures { IfOk result (λ is. IsTrue is ↔ IsBeyondPackage self.now file start.now) }
    {
        is_beyond_package(alloc, &self.namespace, file, start)
    }
}
