//! Full names, and the numbers that they are hashed by.

ghost use Rattle.std.specs.Prelude.{ℕ, List, ◌≡◌, ◌<◌, ◌↔◌, ◌++◌, ◌∷◌, ◌&&◌, bytes_eq, length, nat_eq, IsTrue, IfOk};
ghost use Rattle.std.specs.Prelude.{MatchOption};
ghost use Rattle.std.specs.Cmp.{partial_equiv_from_equiv};
ghost use Rattle.std.specs.Cmp.Lexicographic.{pointwise, bytes_decides, nat_list_eq_equiv};
ghost use Rattle.std.proofs.Common.{ap};
ghost use Rattle.std.specs.Hash as fed;
ghost use Rattle.proto_lex.specs.Ascii as ascii;
ghost use Rattle.proto_decl.specs.Names.{qualified};
ghost use Rattle.proto_decl.specs.Names as spec;

use crate::names::qualified;
use crate::surrounding::Surrounding;
use basics::OwnedText;
use std::alloc::{AllocError, Global};
use std::hash::{Hash, Hasher};
use std::marker::Model;

/// A full name in two parts, of which none is copied: the full name of a scope, and a name in it. The name may have
/// dots.
///
/// Contracts see the list of its bytes.
#[derive(Debug, Drop)]
pub struct FullName<'a> {
    scope: &'a str,
    hash64: u64,
    name: &'a str,
}

impl<'a> Model for FullName<'a> {
    ghost use Rattle.std.specs.Prelude.{◌≡◌, List, ℕ};
    ghost use Rattle.proto_decl.specs.Names.{qualified, hash64_front};

    ghost Value = { List ℕ };

    ghost view = { λ full. qualified full.scope.now full.name.now };

    ghost invariant = { λ full. full.hash64 ≡ hash64_front full.scope.now };
}

impl<'a> FullName<'a> {
    /// The full name of this name in the scope of a surrounding.
    pub(crate) fn within(surrounding: &'a Surrounding<'_>, name: &'a str) -> FullName<'a>
        ensures { result ≡ qualified surrounding.now.scope name.now }
    {
        FullName {
            scope: surrounding.scope(),
            hash64: surrounding.hash64(),
            name,
        }
    }

    /// This full name.
    pub fn whole(name: &'a str) -> FullName<'a>
        ensures { result ≡ name.now }
    {
        FullName {
            scope: "",
            hash64: 0,
            name,
        }
    }

    /// The same full name once more.
    pub fn copy(&self) -> FullName<'a>
        ensures { result ≡ self.now }
    {
        FullName {
            scope: self.scope,
            hash64: self.hash64,
            name: self.name,
        }
    }

    /// Whether it is this text.
    pub fn is(&self, text: &str) -> bool
        ensures { result ≡ bytes_eq self.now text.now }
    {
        are_same(self.scope, self.name, "", text)
    }

    /// Its text.
    pub fn to_text(&self, alloc: Global) -> Result<OwnedText, AllocError>
        ensures { IfOk result (λ text. text ≡ self.now) }
    {
        qualified(alloc, self.scope, self.name)
    }

    /// The number that it is hashed by. It depends on the full name alone, however that is parted; other names may have
    /// it too. Takes no memory.
    pub fn hash64(&self) -> u64
        ensures { result ≡ spec.hash64 self.now }
    {
        hash64_on(self.hash64, self.name)
    }
}

impl<'a> PartialEq for FullName<'a> {
    ghost eq = { pointwise nat_eq };

    ghost laws = { partial_equiv_from_equiv nat_list_eq_equiv };

    fn eq(&self, other: &Self) -> bool {
        are_same(self.scope, self.name, other.scope, other.name)
    }
}

impl<'a> Eq for FullName<'a> {
    ghost laws = { nat_list_eq_equiv };
}

impl<'a> Hash for FullName<'a> {
    ghost hash_input = { λ name. fed.u64 (spec.hash64 name) };

    ghost respects_eq = { λ a b same. ap (λ name. fed.u64 (spec.hash64 name)) ((bytes_decides a b).0 same) };

    fn hash<H: Hasher>(&self, state: &mut H) {
        state.write_u64(self.hash64());
    }
}

/// What is behind the front of a name and a dot, if the name begins so.
fn behind<'a>(name: &'a [u8], front: &[u8]) -> Option<&'a [u8]>
    ensures { MatchOption result ((rest : List ℕ) → name.now ≡ front.now ++ ascii.dot ∷ rest → ⊥)
        (λ rest. name.now ≡ front.now ++ ascii.dot ∷ rest.now) }
{
    match name.strip_prefix(front)? {
        [first, rest @ ..] if *first == b'.' => Some(rest),
        _ => None,
    }
}

/// What the full name of a scope has behind that of a scope around it, which is shorter.
fn behind_scope<'a>(scope: &'a [u8], outer: &[u8]) -> Option<&'a [u8]>
    requires { length outer.now < length scope.now }
    ensures { MatchOption result ((rest : List ℕ) → scope.now ≡ qualified outer.now rest → ⊥)
        (λ rest. scope.now ≡ qualified outer.now rest.now) }
{
    if outer.is_empty() {
        return Some(scope);
    }
    behind(scope, outer)
}

/// Whether a name has the same full name in a scope as another name in a scope with a longer full name.
fn is_same_outside(scope: &[u8], name: &[u8], inner_scope: &[u8], inner_name: &[u8]) -> bool
    requires { length scope.now < length inner_scope.now }
    ensures { IsTrue result ↔ (qualified scope.now name.now ≡ qualified inner_scope.now inner_name.now) }
{
    match behind_scope(inner_scope, scope) {
        Some(between) => match behind(name, between) {
            Some(rest) => rest == inner_name,
            None => false,
        },
        None => false,
    }
}

/// Whether two scopes have one full name, and two names in them are one.
fn are_same_parts(scope: &str, name: &str, other_scope: &str, other_name: &str) -> bool
    ensures { result ≡ (bytes_eq scope.now other_scope.now && bytes_eq name.now other_name.now) }
{
    scope == other_scope && name == other_name
}

/// Whether two names have one full name, each in its scope.
fn are_same(scope: &str, name: &str, other_scope: &str, other_name: &str) -> bool
    ensures { result ≡ bytes_eq (qualified scope.now name.now) (qualified other_scope.now other_name.now) }
{
    if scope.len() == other_scope.len() {
        return are_same_parts(scope, name, other_scope, other_name);
    }
    let (scope, name) = (scope.as_bytes(), name.as_bytes());
    let (other_scope, other_name) = (other_scope.as_bytes(), other_name.as_bytes());
    if scope.len() < other_scope.len() {
        return is_same_outside(scope, name, other_scope, other_name);
    }
    is_same_outside(other_scope, other_name, scope, name)
}

/// What a number is multiplied by before a byte is mixed in: a prime, as of the hash FNV-1 of 64 bits.
const MULTIPLIER: u64 = 1_099_511_628_211;

/// The hash of what has one, with a byte behind it.
fn hash64_byte(hash64: u64, byte: u8) -> u64
    ensures { result ≡ spec.hash64_byte hash64 byte }
{
    hash64.wrapping_mul(MULTIPLIER).wrapping_add(byte as u64)
}

/// The hash of what has one, with a text behind it.
fn hash64_on(hash64: u64, text: &str) -> u64
    ensures { result ≡ spec.hash64_on hash64 text.now }
{
    let mut more = hash64;
    for byte in text.as_bytes() {
        more = hash64_byte(more, *byte);
    }
    more
}

/// The hash of a scope's full name in front of a name in it.
pub(crate) fn hash64_front(scope: &str) -> u64
    ensures { result ≡ spec.hash64_front scope.now }
{
    if scope.is_empty() {
        return 0;
    }
    hash64_byte(hash64_on(0, scope), b'.')
}
