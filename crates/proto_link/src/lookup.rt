//! Which name a use has in its scopes.

ghost use Rattle.std.specs.Prelude.{List, [], ℕ, ◌≡◌, ◌<◌, ◌↔◌, IsTrue, IfOk, OnOk, MatchOption, ◌∷◌, false, map, length};
ghost use Rattle.std.specs.String.{string_bytes};
ghost use Rattle.proto_decl.specs.Names.{qualified, dotted};
ghost use Rattle.proto_visibility.specs.Knows.NameKind.{OfPackage};
ghost use Rattle.proto_visibility.specs.Knows.{KnowsAs, is_type, admits};
ghost use Rattle.proto_link.specs.Resolves.{Innermost, Resolves, wanted, words_of};
ghost use Rattle.proto_link.specs.Tables.Found.{HasNoName, IsSingle, IsCompound};

use proto_decl::{Component, Use, scope_around};
use proto_visibility::{Namespace, Role};
use std::alloc::{AllocError, Global};

/// Writes the full name of a name in a scope over a text.
fn put_under(text: &mut String, scope: &str, name: &str) -> Result<(), AllocError>
    ensures { OnOk result (string_bytes text.new ≡ qualified scope.now name.now) }
{
    text.clear();
    if !scope.is_empty() {
        text.push_str(scope)?;
        text.push_str(".")?;
    }
    text.push_str(name)
}

/// The bytes of the full name of a name in a scope, and no fewer than those of the same name in a scope around it.
fn room_under(scope: &str, name: &str) -> usize {
    scope.len().saturating_add(name.len()).saturating_add(1)
}

/// Components joined by dots.
pub(crate) fn joined(alloc: Global, components: &[Component]) -> Result<String, AllocError>
    ensures { IfOk result (λ text. string_bytes text ≡ dotted (map (λ component. component.name) components.now)) }
{
    match components {
        [] => Ok(String::new(alloc)),
        [first, others @ ..] => joined_behind(alloc, first, others),
    }
}

/// The same for a first component and others.
fn joined_behind(
    alloc: Global,
    first: &Component,
    others: &[Component],
) -> Result<String, AllocError>
    ensures { IfOk result (λ text. string_bytes text ≡ dotted (map (λ component. component.name)
        (first.now ∷ others.now))) }
{
    let mut text = String::from_str(alloc, first.name.as_str())?;
    for component in others {
        text.push_str(".")?;
        text.push_str(component.name.as_str())?;
    }
    Ok(text)
}

/// The full name of the type that a use of a file names.
pub(crate) fn full_name_of_use(
    alloc: Global,
    namespace: &Namespace,
    file: usize,
    type_use: &Use,
) -> Result<Option<String>, AllocError>
    requires { file < length namespace.now }
    ensures { IfOk result (λ found. MatchOption found (HasNoName namespace.now file type_use.now)
        (λ name. Resolves namespace.now file type_use.now (string_bytes name))) }
{
    let components = type_use.components.as_slice();
    if type_use.has_leading_dot {
        let words = joined(alloc, components)?;
        return Ok(if_wanted(namespace, file, type_use.is_extended, words));
    }
    match components {
        [] => Ok(None),
        [word] => one_word(alloc, namespace, file, type_use, word.name.as_str()),
        [first, _, ..] => {
            let words = joined(alloc, components)?;
            compound(
                alloc,
                namespace,
                file,
                type_use,
                first.name.as_str(),
                words.as_str(),
            )
        }
    }
}

/// The same for a use of one word, without a dot before it.
fn one_word(
    alloc: Global,
    namespace: &Namespace,
    file: usize,
    type_use: &Use,
    word: &str,
) -> Result<Option<String>, AllocError>
    requires file { file < length namespace.now }
    requires plain { type_use.now.has_leading_dot ≡ false }
    requires alone { words_of type_use.now ≡ word.now ∷ [] }
    ensures { IfOk result (λ found. MatchOption found (HasNoName namespace.now file type_use.now)
        (λ name. Resolves namespace.now file type_use.now (string_bytes name))) }
{
    if type_use.is_extended {
        compound(alloc, namespace, file, type_use, word, word)
    } else {
        single(alloc, namespace, file, type_use.scope.as_str(), word)
    }
}

/// The first of the scopes from this one on in which a file knows a word in this role. The text
/// is overwritten.
pub(crate) fn innermost<'s>(
    namespace: &Namespace,
    file: usize,
    role: Role,
    scope: &'s str,
    word: &str,
    text: &mut String,
) -> Result<Option<&'s str>, AllocError>
    requires { file < length namespace.now }
    ensures { IfOk result (λ found. MatchOption found ((start : List ℕ) → Innermost namespace.now file (admits role)
        word.now scope.now start → ⊥) (λ start. Innermost namespace.now file (admits role) word.now
        scope.now start.now)) }
{
    let mut next = Some(scope);
    while let Some(inner) = next {
        put_under(text, inner, word)?;
        if namespace.knows(file, text.as_str(), role) {
            return Ok(Some(inner));
        }
        next = scope_around(inner);
    }
    Ok(None)
}

/// The full name of the type that a word names in these scopes.
fn single(
    alloc: Global,
    namespace: &Namespace,
    file: usize,
    scope: &str,
    word: &str,
) -> Result<Option<String>, AllocError>
    requires { file < length namespace.now }
    ensures { IfOk result (λ found. MatchOption found ((start : List ℕ) → Innermost namespace.now file is_type word.now
        scope.now start → ⊥) (λ name. IsSingle namespace.now file word.now scope.now
        (string_bytes name))) }
{
    let mut text = String::with_capacity(alloc, room_under(scope, word))?;
    match innermost(namespace, file, Role::AsType, scope, word, &mut text)? {
        Some(start) => {
            put_under(&mut text, start, word)?;
            Ok(Some(text))
        }
        None => Ok(None),
    }
}

/// The full name of the words of a use, of which this is the first, in the scope in which the first is an aggregate.
fn compound(
    alloc: Global,
    namespace: &Namespace,
    file: usize,
    type_use: &Use,
    first: &str,
    words: &str,
) -> Result<Option<String>, AllocError>
    requires { file < length namespace.now }
    ensures { IfOk result (λ found. MatchOption found ((name : List ℕ) → IsCompound namespace.now file
        type_use.now.is_extended first.now words.now type_use.now.scope name → ⊥) (λ name. IsCompound namespace.now file
        type_use.now.is_extended first.now words.now type_use.now.scope (string_bytes name))) }
{
    let scope = type_use.scope.as_str();
    let mut text = String::with_capacity(alloc, room_under(scope, words))?;
    match innermost(namespace, file, Role::AsAggregate, scope, first, &mut text)? {
        Some(start) => {
            put_under(&mut text, start, words)?;
            Ok(if_wanted(namespace, file, type_use.is_extended, text))
        }
        None => Ok(None),
    }
}

/// The text, if a file knows by it what a use may name, which an `extend` extends or not.
fn if_wanted(namespace: &Namespace, file: usize, is_extended: bool, text: String) -> Option<String>
    requires { file < length namespace.now }
    ensures { MatchOption result (KnowsAs namespace.now file (wanted is_extended) (string_bytes text) → ⊥)
        (λ name. (string_bytes name ≡ string_bytes text)
        × KnowsAs namespace.now file (wanted is_extended) (string_bytes text)) }
{
    if namespace.knows(file, text.as_str(), role_wanted(is_extended)) {
        Some(text)
    } else {
        None
    }
}

/// As what a use names what it names: as a message, if an `extend` extends it.
pub(crate) fn role_wanted(is_extended: bool) -> Role
    ensures role { admits result ≡ wanted is_extended }
    ensures declared { admits result OfPackage ≡ false }
{
    if is_extended {
        Role::AsMessage
    } else {
        Role::AsType
    }
}
