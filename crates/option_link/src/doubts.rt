//! Names in parentheses or in brackets that may name another field once a file can be read.

ghost use Rattle.std.specs.Prelude.{ℕ, List, ◌≡◌, ◌<◌, ◌↔◌, IsTrue, IfOk, MatchOption, length, map};
ghost use denote.Ref.{Bor};
ghost use Rattle.proto_link.specs.Uncertain.{IsFartherOut, IsFirstUnread, IsFirstUnreadIf};
ghost use Rattle.option_link.specs.declared.place.DeclaredPlace.{DeclaredPlace};
ghost use Rattle.option_link.specs.Tables.{IsClear};
ghost use Rattle.option_link.specs.Contexts.{NamesIn};
ghost use Rattle.option_link.specs.Lookups.{admits};
ghost use Rattle.option_link.specs.Uncertain.{IsLookedUpFarther, IsShared};
ghost use Rattle.option_link.specs.Doubts.{AreFoundFarther, HasLookup, IsWordFarther, LookUpFarther, number_if};

use crate::contexts::Context;
use crate::naming::{Asked, is_as};
use crate::sought::Sought;
use crate::words::words_of;
use proto_link::is_farther_out;
use proto_options::{OptionName, OptionRole};
use std::alloc::{AllocError, Global};

impl<'k, 'n, 'a, 't> Asked<'k, 'n, 'a, 't> {
    /// Behind which file a name is in doubt that names a field which is looked up in this.
    pub(crate) fn doubt(
        self,
        alloc: Global,
        number: usize,
        name: &OptionName,
        context: Context,
    ) -> Result<Option<usize>, AllocError>
        requires file { self.file < length self.files.names.now }
        requires clear { IsClear self.files.names.now context }
        requires first { IsFirstUnreadIf self.files.names.now self.file self.unread }
        requires named { (at : DeclaredPlace) × NamesIn self.files.names.now self.files.known.now self.file
            self.text.now self.option.now number name.now context at }
        ensures { IfOk result (λ found. MatchOption found
            ((behind : ℕ) → IsLookedUpFarther self.entry.files.names.now self.entry.file self.entry.text.now
            self.entry.option.now number name.now context → IsFirstUnread self.entry.files.names.now self.entry.file
            behind → ⊥)
            (λ behind. IsLookedUpFarther self.entry.files.names.now self.entry.file self.entry.text.now
            self.entry.option.now number name.now context × IsFirstUnread self.entry.files.names.now self.entry.file
            behind)) }
    {
        match self.unread {
            Some(behind) => {
                let farther = self.is_looked_up_farther(alloc, number, name, context)?;
                Ok(if_so(farther, behind))
            }
            None => Ok(None),
        }
    }

    /// Whether it is found farther out than the scopes that no other file has names in.
    fn is_looked_up_farther(
        self,
        alloc: Global,
        number: usize,
        name: &OptionName,
        context: Context,
    ) -> Result<bool, AllocError>
        requires file { self.file < length self.files.names.now }
        requires clear { IsClear self.files.names.now context }
        requires named { (at : DeclaredPlace) × NamesIn self.files.names.now self.files.known.now self.file
            self.text.now self.option.now number name.now context at }
        ensures { IfOk result (λ is. IsTrue is ↔ IsLookedUpFarther self.entry.files.names.now self.entry.file
            self.entry.text.now self.entry.option.now number name.now context) }
    {
        if !is_as(name, OptionRole::Extension) {
            return Ok(false);
        }
        if name.name.leading_dot.is_some() {
            return Ok(false);
        }
        match words_of(alloc, self.text, name)? {
            Some(words) => self.look_up_farther(alloc, number, words.as_slice(), context),
            None => Ok(false),
        }
    }

    /// The same by the words of the name, which has no dot in front.
    fn look_up_farther(
        self,
        alloc: Global,
        number: usize,
        words: &[&str],
        context: Context,
    ) -> Result<bool, AllocError>
        requires file { self.file < length self.files.names.now }
        requires clear { IsClear self.files.names.now context }
        requires has { HasLookup self.files.names.now self.option.now number context }
        ensures { IfOk result (λ is. IsTrue is ↔ LookUpFarther self.entry.files.names.now self.entry.file
            self.entry.option.now number context (map (λ (word : Bor (List ℕ)). word.now) words.now)) }
    {
        match self.extended_name(alloc, context)? {
            Some(extended) => {
                let scope = self.scope_of(number, extended.as_str());
                self.are_found_farther(alloc, number, words, scope)
            }
            None => Ok(false),
        }
    }

    /// The same by the scope from which the words are looked up.
    fn are_found_farther(
        self,
        alloc: Global,
        number: usize,
        words: &[&str],
        scope: &str,
    ) -> Result<bool, AllocError>
        requires { self.file < length self.files.names.now }
        ensures { IfOk result (λ is. IsTrue is ↔ AreFoundFarther self.entry.files.names.now self.entry.file
            self.entry.option.now number (map (λ (word : Bor (List ℕ)). word.now) words.now) scope.now) }
    {
        match words {
            [] => Ok(false),
            [word] => self.is_word_farther(alloc, number, word, Sought::Anything, scope),
            [first, _, ..] => {
                self.is_word_farther(alloc, number, first, Sought::AnAggregate, scope)
            }
        }
    }

    /// The same of the first word, by what it is sought as.
    fn is_word_farther(
        self,
        alloc: Global,
        number: usize,
        word: &str,
        sought: Sought,
        scope: &str,
    ) -> Result<bool, AllocError>
        requires { self.file < length self.files.names.now }
        ensures { IfOk result (λ is. IsTrue is ↔ IsWordFarther self.entry.files.names.now self.entry.file
            self.entry.option.now number (admits sought) word.now scope.now) }
    {
        match self
            .files
            .names
            .innermost(alloc, self.file, scope, word, sought)?
        {
            Some(start) => self.is_beyond(alloc, number, scope, start),
            None => Ok(false),
        }
    }

    /// Whether a scope is farther out than the first that other files may have names in, of those from one on.
    fn is_beyond(
        self,
        alloc: Global,
        number: usize,
        scope: &str,
        start: &str,
    ) -> Result<bool, AllocError>
        requires { self.file < length self.files.names.now }
        ensures { IfOk result (λ is. IsTrue is ↔ ((shared : List ℕ)
            × IsShared self.entry.files.names.now self.entry.file self.entry.option.now number scope.now shared
            × IsFartherOut shared start.now)) }
    {
        if self.is_in_braces(number) {
            return Ok(is_farther_out(scope, start));
        }
        self.files
            .names
            .linker()
            .is_beyond_package(alloc, self.file, start)
    }
}

/// The number, if it is so.
fn if_so(is: bool, number: usize) -> Option<usize>
    ensures { result ≡ number_if is number }
{
    if !is {
        return None;
    }
    Some(number)
}
