//! Scopes, by their full names.

ghost use Rattle.std.specs.Prelude.{◌≡◌, IfOk, ◌≢◌, ◌<◌, [], ℕ, length, get_or, IfSome, MatchOption, IsCharBoundary};
ghost use Rattle.proto_lex.specs.Ascii as ascii;
ghost use Rattle.proto_decl.specs.Names.{IsAround};

use crate::surrounding::Surrounding;
use std::alloc::AllocError;
use std::marker::Model;

/// The full name of the scope of a use. All that is directly in the same file, message or service shares it.
///
/// Contracts see the list of its bytes.
#[derive(Debug, Drop)]
pub struct ScopeName<'t> {
    surrounding: Surrounding<'t>,
}

impl<'t> Model for ScopeName<'t> {
    ghost use Rattle.std.specs.Prelude.{List, ℕ};

    ghost Value = { List ℕ };

    ghost view = { λ name. name.surrounding.scope };
}

impl<'t> ScopeName<'t> {
    /// The full name of a surrounding's scope, with one owner more. Nothing is copied.
    pub(crate) fn of(surrounding: &Surrounding<'t>) -> Result<ScopeName<'t>, AllocError>
        ensures { IfOk result (λ scope. scope ≡ surrounding.now.scope) }
    {
        Ok(ScopeName {
            surrounding: surrounding.share()?,
        })
    }

    /// The full name; the root's is empty.
    pub fn as_str(&self) -> &str
        ensures { result.now ≡ self.now }
    {
        self.surrounding.scope()
    }
}

/// Where the last dot of a name is.
#[tactic(auto, using(crate::proofs::ScopeLemmas::found_dot))]
fn last_dot(name: &str) -> Option<usize>
    ensures last { MatchOption result ((i : ℕ) → i < length name.now → get_or name.now i 0 ≢ ascii.dot)
        (λ dot. (dot < length name.now) × (get_or name.now dot 0 ≡ ascii.dot)
        × ((i : ℕ) → dot < i → i < length name.now → get_or name.now i 0 ≢ ascii.dot)) }
    ensures whole { IfSome result (IsCharBoundary name.now) }
{
    name.rfind('.')
}

/// The full name of the scope around the one with this full name: what comes before its last dot, or the empty name,
/// which is the root's. There is none around the root.
///
/// So the scopes of a use are its `scope`, and from each one the next. Takes no memory.
#[tactic(auto, using(crate::proofs::ScopeLemmas::around_dot, crate::proofs::ScopeLemmas::around_none))]
pub fn scope_around(scope: &str) -> Option<&str>
    ensures around { MatchOption result (scope.now ≡ [])
        (λ outer. IsAround scope.now outer.now) }
    ensures shorter { IfSome result (λ outer. length outer.now < length scope.now) }
{
    if scope.is_empty() {
        return None;
    }
    match last_dot(scope) {
        Some(dot) => Some(&scope[..dot]),
        None => Some(""),
    }
}
