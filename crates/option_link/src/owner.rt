//! What is looked up by its full name, and which file gives it.

ghost use Rattle.std.specs.Prelude.{ℕ, ◌≡◌, ◌<◌, ◌↔◌, false, IsTrue, MatchOption, length};
ghost use Rattle.proto_visibility.specs.Knows.{IsOwner};
ghost use Rattle.proto_visibility.specs.Knows.NameKind.{OfPackage};
ghost use Rattle.option_link.specs.declared.place.DeclaredPlace.{DeclaredPlace};
ghost use Rattle.option_link.specs.Tables.{AreNear, HasName, IsOnly, IsOwned, IsSought, IsSoughtAt};
ghost use Rattle.option_link.specs.Lookups.{admits};

use crate::place::DeclaredPlace;
use crate::sought::Sought;
use crate::table::{DeclarationTable, Listed};
use proto_decl::FullName;

impl<'n, 'a, 't> DeclarationTable<'n, 'a, 't> {
    /// Whether a place is in a file, and what stands there has a full name.
    fn is_in(&self, file: usize, name: &FullName<'_>, place: DeclaredPlace) -> bool
        ensures { IsTrue result ↔ ((place.file ≡ file) × HasName self.now name.now place) }
    {
        if place.file != file {
            return false;
        }
        self.has_name(place, name)
    }

    /// The first place of a file where what stands has a full name, of those that are near the name.
    pub(crate) fn first_in(
        &self,
        listed: &[Listed],
        name: &FullName<'_>,
        file: usize,
    ) -> Option<DeclaredPlace>
        requires { AreNear self.now name.now listed.now }
        ensures { MatchOption result
            ((place : DeclaredPlace) → HasName self.now name.now place → (place.file ≡ file) → ⊥)
            (λ place. (place.file ≡ file) × HasName self.now name.now place) }
    {
        for one in listed {
            if self.is_in(file, name, one.place) {
                return Some(one.place);
            }
        }
        None
    }

    /// The declaration of a file with a full name, if there is one alone, of those that are near the name.
    fn only_among(
        &self,
        listed: &[Listed],
        name: &FullName<'_>,
        file: usize,
    ) -> Option<DeclaredPlace>
        requires { AreNear self.now name.now listed.now }
        ensures { MatchOption result
            ((place : DeclaredPlace) → IsOnly self.now file name.now place → ⊥)
            (IsOnly self.now file name.now) }
    {
        match self.first_in(listed, name, file) {
            Some(place) => {
                if !self.is_alone_near(listed, name, place) {
                    return None;
                }
                Some(place)
            }
            None => None,
        }
    }

    /// The same: where but one is near, nothing is compared with it.
    fn only_near(
        &self,
        listed: &[Listed],
        name: &FullName<'_>,
        file: usize,
    ) -> Option<DeclaredPlace>
        requires { AreNear self.now name.now listed.now }
        ensures { MatchOption result
            ((place : DeclaredPlace) → IsOnly self.now file name.now place → ⊥)
            (IsOnly self.now file name.now) }
    {
        match listed {
            [one] => self.only_at(one.place, name, file),
            _ => self.only_among(listed, name, file),
        }
    }

    /// The same of the only place where what stands may have the name.
    fn only_at(
        &self,
        place: DeclaredPlace,
        name: &FullName<'_>,
        file: usize,
    ) -> Option<DeclaredPlace>
        requires { (other : DeclaredPlace) → HasName self.now name.now other → other ≡ place }
        ensures { MatchOption result
            ((one : DeclaredPlace) → IsOnly self.now file name.now one → ⊥)
            (IsOnly self.now file name.now) }
    {
        if !self.is_in(file, name, place) {
            return None;
        }
        Some(place)
    }

    /// The declaration of a file with this full name, if there is one alone.
    pub(crate) fn only_in(&self, file: usize, name: &str) -> Option<DeclaredPlace>
        ensures { MatchOption result
            ((place : DeclaredPlace) → IsOnly self.now file name.now place → ⊥)
            (IsOnly self.now file name.now) }
    {
        let name = FullName::whole(name);
        self.only_near(self.near(&name), &name, file)
    }

    /// Whether the declaration at a place is of such a kind, and the file sees its file.
    fn is_sought_at(&self, file: usize, place: DeclaredPlace, sought: Sought) -> bool
        requires { file < length self.now }
        ensures { IsTrue result ↔ IsSoughtAt self.now file (admits sought) place }
    {
        match self.declaration_at(place) {
            Some(declaration) => {
                if !sought.admits(declaration.kind()) {
                    return false;
                }
                self.linker().visible(file, place.file)
            }
            None => false,
        }
    }

    /// The same with a full name.
    fn is_sought(
        &self,
        name: &FullName<'_>,
        file: usize,
        sought: Sought,
        place: DeclaredPlace,
    ) -> bool
        requires { file < length self.now }
        ensures { IsTrue result ↔ IsSought self.now file (admits sought) name.now place }
    {
        if !self.is_sought_at(file, place, sought) {
            return false;
        }
        self.has_name(place, name)
    }

    /// The first place where what is sought is declared by a full name, in a file that the file sees, of those that are
    /// near the name.
    fn first_sought(
        &self,
        listed: &[Listed],
        name: &FullName<'_>,
        file: usize,
        sought: Sought,
    ) -> Option<DeclaredPlace>
        requires near { AreNear self.now name.now listed.now }
        requires file { file < length self.now }
        ensures { MatchOption result
            ((place : DeclaredPlace) → IsSought self.now file (admits sought) name.now place → ⊥)
            (IsSought self.now file (admits sought) name.now) }
    {
        for one in listed {
            if self.is_sought(name, file, sought, one.place) {
                return Some(one.place);
            }
        }
        None
    }

    /// The place of a declaration of such a kind with this full name, in a file that the file sees.
    pub(crate) fn first_seen(
        &self,
        file: usize,
        name: &str,
        sought: Sought,
    ) -> Option<DeclaredPlace>
        requires { file < length self.now }
        ensures { MatchOption result
            ((place : DeclaredPlace) → IsSought self.now file (admits sought) name.now place → ⊥)
            (IsSought self.now file (admits sought) name.now) }
    {
        let name = FullName::whole(name);
        self.first_sought(self.near(&name), &name, file, sought)
    }

    /// Whether a place is of this owner, if what is sought is declared there.
    fn is_of_owner(
        &self,
        name: &FullName<'_>,
        file: usize,
        sought: Sought,
        owner: usize,
        place: DeclaredPlace,
    ) -> bool
        requires { file < length self.now }
        ensures { IsTrue result ↔ (IsSought self.now file (admits sought) name.now place → place.file ≡ owner) }
    {
        if place.file == owner {
            return true;
        }
        !self.is_sought(name, file, sought, place)
    }

    /// Whether what is sought is declared by a full name in no other file than this owner, of those that the file sees.
    fn is_owner(
        &self,
        listed: &[Listed],
        name: &FullName<'_>,
        file: usize,
        sought: Sought,
        owner: usize,
    ) -> bool
        requires near { AreNear self.now name.now listed.now }
        requires file { file < length self.now }
        ensures { IsTrue result ↔ ((place : DeclaredPlace)
            → IsSought self.now file (admits sought) name.now place → place.file ≡ owner) }
    {
        for one in listed {
            if !self.is_of_owner(name, file, sought, owner, one.place) {
                return false;
            }
        }
        true
    }

    /// The only file, of those that a file sees, that declares what is sought by a full name, if it isn't left out.
    fn owner_near(
        &self,
        listed: &[Listed],
        name: &FullName<'_>,
        file: usize,
        sought: Sought,
    ) -> Option<usize>
        requires near { AreNear self.now name.now listed.now }
        requires file { file < length self.now }
        requires declared { admits sought OfPackage ≡ false }
        ensures { MatchOption result
            ((owner : ℕ) → IsOwner self.now file (admits sought) name.now owner → ⊥)
            (IsOwner self.now file (admits sought) name.now) }
    {
        match self.first_sought(listed, name, file, sought) {
            Some(first) => {
                if !self.is_owner(listed, name, file, sought, first.file) {
                    return None;
                }
                if !self.is_present(first.file) {
                    return None;
                }
                Some(first.file)
            }
            None => None,
        }
    }

    /// What has a full name and is sought, if of the files that a file sees one alone gives it, which isn't left out,
    /// of those that are near the name.
    fn owned_among(
        &self,
        listed: &[Listed],
        name: &FullName<'_>,
        file: usize,
        sought: Sought,
    ) -> Option<DeclaredPlace>
        requires near { AreNear self.now name.now listed.now }
        requires file { file < length self.now }
        requires declared { admits sought OfPackage ≡ false }
        ensures { MatchOption result
            ((place : DeclaredPlace) → IsOwned self.now file (admits sought) name.now place → ⊥)
            (IsOwned self.now file (admits sought) name.now) }
    {
        match self.owner_near(listed, name, file, sought) {
            Some(owner) => self.only_near(listed, name, owner),
            None => None,
        }
    }

    /// The same of the only place where what stands may have the name.
    fn owned_at(
        &self,
        place: DeclaredPlace,
        name: &FullName<'_>,
        file: usize,
        sought: Sought,
    ) -> Option<DeclaredPlace>
        requires near { (other : DeclaredPlace) → HasName self.now name.now other → other ≡ place }
        requires file { file < length self.now }
        requires declared { admits sought OfPackage ≡ false }
        ensures { MatchOption result
            ((one : DeclaredPlace) → IsOwned self.now file (admits sought) name.now one → ⊥)
            (IsOwned self.now file (admits sought) name.now) }
    {
        if !self.is_sought(name, file, sought, place) {
            return None;
        }
        if !self.is_present(place.file) {
            return None;
        }
        Some(place)
    }

    /// The same: where but one is near, nothing is compared with it.
    fn owned_near(
        &self,
        listed: &[Listed],
        name: &FullName<'_>,
        file: usize,
        sought: Sought,
    ) -> Option<DeclaredPlace>
        requires near { AreNear self.now name.now listed.now }
        requires file { file < length self.now }
        requires declared { admits sought OfPackage ≡ false }
        ensures { MatchOption result
            ((place : DeclaredPlace) → IsOwned self.now file (admits sought) name.now place → ⊥)
            (IsOwned self.now file (admits sought) name.now) }
    {
        match listed {
            [one] => self.owned_at(one.place, name, file, sought),
            _ => self.owned_among(listed, name, file, sought),
        }
    }

    /// What has a full name and is sought, if of the files that a file sees one alone gives it, which isn't left out.
    pub(crate) fn owned(&self, file: usize, name: &str, sought: Sought) -> Option<DeclaredPlace>
        requires file { file < length self.now }
        requires declared { admits sought OfPackage ≡ false }
        ensures { MatchOption result
            ((place : DeclaredPlace) → IsOwned self.now file (admits sought) name.now place → ⊥)
            (IsOwned self.now file (admits sought) name.now) }
    {
        let name = FullName::whole(name);
        self.owned_near(self.near(&name), &name, file, sought)
    }
}
