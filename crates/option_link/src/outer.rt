//! The scopes from the root to one, with the numbers that names in them are hashed by.

ghost use Rattle.std.specs.Prelude.{◌≡◌, [], MatchOption};
ghost use Rattle.proto_decl.specs.Names.{qualified};
ghost use Rattle.proto_decl.specs.Names as spec;
ghost use Rattle.option_link.specs.Outer.{IsNextIn, IsOuter};

use std::marker::Model;

/// What a number is multiplied by before a byte is mixed in: a prime, as of the hash FNV-1 of 64 bits.
const MULTIPLIER: u64 = 1_099_511_628_211;

/// The hash of what has one, with a byte behind it.
fn hash64_byte(hash64: u64, byte: u8) -> u64
    ensures { result ≡ spec.hash64_byte hash64 byte }
{
    hash64.wrapping_mul(MULTIPLIER).wrapping_add(byte as u64)
}

/// The hash of what has one, with a text behind it.
fn hash64_on(hash64: u64, text: &str) -> u64
    ensures { result ≡ spec.hash64_on hash64 text.now }
{
    let mut more = hash64;
    for byte in text.as_bytes() {
        more = hash64_byte(more, *byte);
    }
    more
}

/// A scope by its full name, with the number that this is hashed by.
///
/// Contracts see the list of its bytes.
#[derive(Drop)]
pub(crate) struct OuterScope<'s> {
    name: &'s str,
    hash64: u64,
}

impl<'s> Model for OuterScope<'s> {
    ghost use Rattle.std.specs.Prelude.{◌≡◌, List, ℕ};
    ghost use Rattle.proto_decl.specs.Names as spec;

    ghost Value = { List ℕ };

    ghost view = { λ outer. outer.name.now };

    ghost invariant = { λ outer. outer.hash64 ≡ spec.hash64 outer.name.now };
}

impl<'s> OuterScope<'s> {
    /// The root.
    pub(crate) fn root() -> OuterScope<'s>
        ensures { result ≡ [] }
    {
        OuterScope {
            name: "",
            hash64: 0,
        }
    }

    /// The full name.
    pub(crate) fn name(&self) -> &'s str
        ensures { result.now ≡ self.now }
    {
        self.name
    }

    /// The number that the full name of a word in it is hashed by. No text is written for it.
    pub(crate) fn hash64_under(&self, word: &str) -> u64
        ensures { result ≡ spec.hash64 (qualified self.now word.now) }
    {
        if self.name.is_empty() {
            return hash64_on(0, word);
        }
        hash64_on(hash64_byte(self.hash64, b'.'), word)
    }

    /// The next scope inwards, on the way to this one.
    pub(crate) fn inner(&self, scope: &'s str) -> Option<OuterScope<'s>>
        requires { IsOuter scope.now self.now }
        ensures { MatchOption result (self.now ≡ scope.now) (IsNextIn scope.now self.now) }
    {
        let behind = self.name.len();
        if behind >= scope.len() {
            return None;
        }
        let mut hash64 = self.hash64;
        let bytes = scope.as_bytes();
        for index in behind..bytes.len() {
            let byte = bytes[index];
            if byte == b'.' && index > behind {
                return Some(OuterScope {
                    name: &scope[..index],
                    hash64,
                });
            }
            hash64 = hash64_byte(hash64, byte);
        }
        Some(OuterScope {
            name: scope,
            hash64,
        })
    }
}
