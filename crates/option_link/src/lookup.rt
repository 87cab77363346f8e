//! Names in scopes.

ghost use Rattle.std.specs.Prelude.{ℕ, List, [], ◌∷◌, ◌≡◌, ◌<◌, ◌↔◌, false, Contains, IsTrue, IfOk, OnOk};
ghost use Rattle.std.specs.Prelude.{MatchOption, length, map};
ghost use denote.Ref.{Bor};
ghost use Rattle.std.specs.String.{string_bytes};
ghost use Rattle.proto_link.specs.Resolves.{Innermost};
ghost use Rattle.proto_decl.specs.Names.{qualified, dotted};
ghost use Rattle.proto_visibility.specs.Knows.{KnowsAs, is_aggregate};
ghost use Rattle.option_link.specs.declared.place.DeclaredPlace.{DeclaredPlace};
ghost use Rattle.option_link.specs.Contexts.{IsMessageNamed};
ghost use Rattle.option_link.specs.Tables.{AreSeveral, IsSought};
ghost use Rattle.option_link.specs.Lookups.{LooksFor};
ghost use Rattle.option_link.specs.Typed.{IsMessageAt};
ghost use Rattle.option_link.specs.Lookups.{admits, is_any};

use crate::outer::OuterScope;
use crate::place::{DeclaredPlace, is_same, push_if};
use crate::sought::Sought;
use crate::table::{DeclarationTable, is_a};
use proto_decl::{DeclarationKind, FullName};
use proto_link::Role;
use std::alloc::{AllocError, Global};

impl<'n, 'a, 't> DeclarationTable<'n, 'a, 't> {
    /// Whether a file knows a name as what is sought.
    pub(crate) fn knows(&self, file: usize, name: &str, sought: Sought) -> bool
        requires { file < length self.now }
        ensures { IsTrue result ↔ KnowsAs self.now file (admits sought) name.now }
    {
        match sought {
            Sought::Anything => self.knows_anything(file, name),
            Sought::AField => self.is_seen(file, name, sought),
            Sought::AMessage => self.is_seen(file, name, sought),
            Sought::AType => self.is_seen(file, name, sought),
            Sought::AnAggregate => self.knows_aggregate(file, name),
        }
    }

    /// Whether a file knows a word in a scope as what is sought. A name that nothing has is passed by its number alone.
    fn is_known_in(
        &self,
        alloc: Global,
        file: usize,
        scope: &OuterScope<'_>,
        word: &str,
        sought: Sought,
    ) -> Result<bool, AllocError>
        requires { file < length self.now }
        ensures { IfOk result (λ is. IsTrue is ↔ KnowsAs self.now file (admits sought) (qualified scope.now word.now)) }
    {
        if !self.may_be_known(scope.hash64_under(word)) {
            return Ok(false);
        }
        let name = under(alloc, scope.name(), word)?;
        Ok(self.knows(file, name.as_str(), sought))
    }

    /// Whether a file knows a name as that of a package, a message, an enum or a service.
    fn knows_aggregate(&self, file: usize, name: &str) -> bool
        requires { file < length self.now }
        ensures { IsTrue result ↔ KnowsAs self.now file is_aggregate name.now }
    {
        self.linker().knows(file, name, Role::AsAggregate)
    }

    /// Whether a file knows a name as anything.
    fn knows_anything(&self, file: usize, name: &str) -> bool
        requires { file < length self.now }
        ensures { IsTrue result ↔ KnowsAs self.now file is_any name.now }
    {
        if self.knows_aggregate(file, name) {
            return true;
        }
        self.is_seen(file, name, Sought::Anything)
    }

    /// Whether what is sought is declared by a name in a file that the file sees.
    fn is_seen(&self, file: usize, name: &str, sought: Sought) -> bool
        requires { file < length self.now }
        ensures { IsTrue result ↔ ((place : DeclaredPlace)
            × IsSought self.now file (admits sought) name.now place) }
    {
        match self.first_seen(file, name, sought) {
            Some(_place) => true,
            None => false,
        }
    }

    /// Whether a message with this full name is declared at a place, which no other declaration of its file has.
    fn is_message_named(&self, place: DeclaredPlace, name: &str) -> bool
        ensures { IsTrue result ↔ IsMessageNamed self.now name.now place }
    {
        match self.only_in(place.file, name) {
            Some(only) => {
                if !is_same(only, place) {
                    return false;
                }
                self.is_message_at(place)
            }
            None => false,
        }
    }

    /// Whether a message stands at a place.
    pub(crate) fn is_message_at(&self, place: DeclaredPlace) -> bool
        ensures { IsTrue result ↔ IsMessageAt self.now place }
    {
        match self.declaration_at(place) {
            Some(declared) => is_a(declared, DeclarationKind::Message),
            None => false,
        }
    }

    /// The messages with this full name that no other declarations of their files have.
    pub(crate) fn messages_named(
        &self,
        alloc: Global,
        name: &str,
    ) -> Result<Vec<DeclaredPlace>, AllocError>
        ensures { IfOk result (λ places. (place : DeclaredPlace) → Contains places.items place
            ↔ IsMessageNamed self.now name.now place) }
    {
        let listed = self.near(&FullName::whole(name));
        let mut messages = Vec::new(alloc);
        for one in listed {
            let is = self.is_message_named(one.place, name);
            push_if(&mut messages, one.place, is)?;
        }
        Ok(messages)
    }

    /// The first of the scopes from this one on in which a file knows a word as what is sought. They are looked at from
    /// the root inwards, so that the number of each one's name goes on from that of the one around it.
    pub(crate) fn innermost<'s>(
        &self,
        alloc: Global,
        file: usize,
        scope: &'s str,
        word: &str,
        sought: Sought,
    ) -> Result<Option<&'s str>, AllocError>
        requires { file < length self.now }
        ensures { IfOk result (λ found. MatchOption found ((start : List ℕ) → Innermost self.now file
            (admits sought) word.now scope.now start → ⊥)
            (λ start. Innermost self.now file (admits sought) word.now scope.now start.now)) }
    {
        let mut found = None;
        let mut next = Some(OuterScope::root());
        while let Some(outer) = next {
            let known = self.is_known_in(alloc, file, &outer, word, sought)?;
            if known {
                found = Some(outer.name());
            }
            next = outer.inner(scope);
        }
        Ok(found)
    }

    /// The only full name that a field may have that these words name from a scope on, a dot in front of them or not.
    pub(crate) fn full_name_of(
        &self,
        alloc: Global,
        file: usize,
        has_dot: bool,
        words: &[&str],
        scope: &str,
    ) -> Result<Option<String>, AllocError>
        requires { file < length self.now }
        ensures { IfOk result (λ found. MatchOption found ((name : List ℕ) → LooksFor self.now file has_dot
            (map (λ (word : Bor (List ℕ)). word.now) words.now) scope.now name → ⊥)
            (λ name. LooksFor self.now file has_dot (map (λ (word : Bor (List ℕ)). word.now) words.now)
            scope.now (string_bytes name))) }
    {
        if has_dot {
            let name = joined(alloc, words)?;
            return Ok(Some(name));
        }
        match words {
            [] => Ok(None),
            [word] => self.one_word(alloc, file, word, scope),
            [first, _, ..] => self.several_words(alloc, file, first, words, scope),
        }
    }

    /// The same of one word, without a dot in front of it.
    fn one_word(
        &self,
        alloc: Global,
        file: usize,
        word: &str,
        scope: &str,
    ) -> Result<Option<String>, AllocError>
        requires { file < length self.now }
        ensures { IfOk result (λ found. MatchOption found ((name : List ℕ) → LooksFor self.now file false
            (word.now ∷ []) scope.now name → ⊥)
            (λ name. LooksFor self.now file false (word.now ∷ []) scope.now (string_bytes name))) }
    {
        match self.innermost(alloc, file, scope, word, Sought::Anything)? {
            Some(start) => {
                let name = under(alloc, start, word)?;
                Ok(Some(name))
            }
            None => Ok(None),
        }
    }

    /// The same of more words, of which this is the first.
    fn several_words(
        &self,
        alloc: Global,
        file: usize,
        first: &str,
        words: &[&str],
        scope: &str,
    ) -> Result<Option<String>, AllocError>
        requires file { file < length self.now }
        requires words { AreSeveral first.now (map (λ (word : Bor (List ℕ)). word.now) words.now) }
        ensures { IfOk result (λ found. MatchOption found ((name : List ℕ) → LooksFor self.now file false
            (map (λ (word : Bor (List ℕ)). word.now) words.now) scope.now name → ⊥)
            (λ name. LooksFor self.now file false (map (λ (word : Bor (List ℕ)). word.now) words.now)
            scope.now (string_bytes name))) }
    {
        match self.innermost(alloc, file, scope, first, Sought::AnAggregate)? {
            Some(start) => {
                let name = joined_under(alloc, start, words)?;
                Ok(Some(name))
            }
            None => Ok(None),
        }
    }
}

/// The full name of a name in a scope.
pub(crate) fn under(alloc: Global, scope: &str, name: &str) -> Result<String, AllocError>
    ensures { IfOk result (λ text. string_bytes text ≡ qualified scope.now name.now) }
{
    let mut text = String::with_capacity(alloc, room_under(scope, name))?;
    put_under(&mut text, scope, name)?;
    Ok(text)
}

/// Writes the full name of a name in a scope over a text.
fn put_under(text: &mut String, scope: &str, name: &str) -> Result<(), AllocError>
    ensures { OnOk result (string_bytes text.new ≡ qualified scope.now name.now) }
{
    text.clear();
    if !scope.is_empty() {
        text.push_str(scope)?;
        text.push_str(".")?;
    }
    text.push_str(name)
}

/// The bytes of the full name of a name in a scope.
fn room_under(scope: &str, name: &str) -> usize {
    scope.len().saturating_add(name.len()).saturating_add(1)
}

/// Words joined by dots.
pub(crate) fn joined(alloc: Global, words: &[&str]) -> Result<String, AllocError>
    ensures { IfOk result (λ text. string_bytes text ≡ dotted (map (λ (word : Bor (List ℕ)). word.now) words.now)) }
{
    joined_under(alloc, "", words)
}

/// The full name of words joined by dots in a scope.
fn joined_under(alloc: Global, scope: &str, words: &[&str]) -> Result<String, AllocError>
    ensures { IfOk result (λ text. string_bytes text
        ≡ qualified scope.now (dotted (map (λ (word : Bor (List ℕ)). word.now) words.now))) }
{
    match words {
        [] => under(alloc, scope, ""),
        [first, others @ ..] => joined_behind(alloc, scope, first, others),
    }
}

/// The same for a first word and others.
fn joined_behind(
    alloc: Global,
    scope: &str,
    first: &str,
    others: &[&str],
) -> Result<String, AllocError>
    ensures { IfOk result (λ text. string_bytes text
        ≡ qualified scope.now (dotted (first.now ∷ map (λ (word : Bor (List ℕ)). word.now) others.now))) }
{
    let mut text = String::with_capacity(alloc, room_behind(scope, first, others))?;
    put_under(&mut text, scope, first)?;
    for word in others {
        text.push_str(".")?;
        text.push_str(word)?;
    }
    Ok(text)
}

/// The bytes of that text, and no fewer.
fn room_behind(scope: &str, first: &str, others: &[&str]) -> usize {
    let mut room = room_under(scope, first);
    for word in others {
        room = room.saturating_add(word.len()).saturating_add(1);
    }
    room
}
