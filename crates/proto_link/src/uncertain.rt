//! Uses that may name another type once a file can be read.

ghost use Rattle.std.specs.Prelude.{ℕ, ◌+◌, ◌≡◌, ◌<◌, ◌↔◌, ◌⊎◌, Contains, IsTrue, IfOk, OnOk, MatchOption, length, map};
ghost use Rattle.proto_visibility.specs.Knows.{admits};
ghost use Rattle.proto_link.specs.declared.uncertain_use.UncertainUse.{UncertainUse};
ghost use Rattle.proto_link.specs.Uncertain.{AreFirstUnread, HasNoFacts, HasTarget, IsBeyondPackage, IsFartherOut};
ghost use Rattle.proto_link.specs.Uncertain.{IsFirstUnreadIf, IsFoundFarther};
ghost use Rattle.proto_link.specs.Uncertain.{IsUncertain, first_wanted};
ghost use Rattle.proto_link.specs.Tables.Doubts.{Adds, AreUnread, IsDoubted, IsDoubtedIn, IsDoubtedUse, MayChange};

use crate::lookup::{full_name_of_use, innermost, joined, role_wanted};
use crate::uncertain_use::UncertainUse;
use proto_decl::{Component, Use, scope_around};
use proto_visibility::{FilePlace, Namespace, Role};
use std::alloc::{AllocError, Global};

/// Whether a file has no facts.
fn is_unread(namespace: &Namespace, number: usize) -> bool
    requires { number < length namespace.now }
    ensures { IsTrue result ↔ HasNoFacts namespace.now number }
{
    match namespace.facts_of(number) {
        Some(_) => false,
        None => true,
    }
}

/// Adds a number behind those before it if its file has no facts.
fn add_if_unread(
    numbers: &mut Vec<usize>,
    namespace: &Namespace,
    number: usize,
) -> Result<(), AllocError>
    requires { number < length namespace.now }
    ensures { OnOk result (AreUnread namespace.now number numbers.old.items
        → AreUnread namespace.now (number + 1) numbers.new.items) }
{
    if is_unread(namespace, number) {
        numbers.push(number)?;
    }
    Ok(())
}

/// The numbers of the files without facts, rising.
fn unread_files(alloc: Global, namespace: &Namespace) -> Result<Vec<usize>, AllocError>
    ensures { IfOk result (λ numbers. AreUnread namespace.now (length namespace.now) numbers.items) }
{
    let mut numbers = Vec::new(alloc);
    for number in 0..namespace.count() {
        add_if_unread(&mut numbers, namespace, number)?;
    }
    Ok(numbers)
}

/// The first of these files that a file sees.
fn first_unread(namespace: &Namespace, file: usize, unread: &[usize]) -> Option<usize>
    requires file { file < length namespace.now }
    requires unread { AreUnread namespace.now (length namespace.now) unread.now }
    ensures { IsFirstUnreadIf namespace.now file result }
{
    for number in unread {
        if namespace.visible(file, *number) {
            return Some(*number);
        }
    }
    None
}

/// For each file, by its number, the first of the files without facts that it sees.
pub(crate) fn first_unread_files(
    alloc: Global,
    namespace: &Namespace,
) -> Result<Vec<Option<usize>>, AllocError>
    ensures { IfOk result (λ firsts. AreFirstUnread namespace.now (length namespace.now) firsts.items) }
{
    let unread = unread_files(alloc, namespace)?;
    let mut firsts = Vec::with_capacity(alloc, namespace.count())?;
    for file in 0..namespace.count() {
        let first = first_unread(namespace, file, unread.as_slice());
        firsts.push(first)?;
    }
    Ok(firsts)
}

/// Whether a use names a type.
fn has_target(
    alloc: Global,
    namespace: &Namespace,
    file: usize,
    type_use: &Use,
) -> Result<bool, AllocError>
    requires { file < length namespace.now }
    ensures { IfOk result (λ has. IsTrue has ↔ HasTarget namespace.now file type_use.now) }
{
    match full_name_of_use(alloc, namespace, file, type_use)? {
        Some(name) => {
            let role = role_wanted(type_use.is_extended);
            Ok(namespace.owner_of(file, name.as_str(), role).is_some())
        }
        None => Ok(false),
    }
}

/// As what the first word of a use is looked up, by the others.
fn first_role(is_extended: bool, others: &[Component]) -> Role
    ensures { admits result ≡ first_wanted is_extended (map (λ component. component.name) others.now) }
{
    if is_extended {
        return Role::AsAggregate;
    }
    match others {
        [] => Role::AsType,
        [_, ..] => Role::AsAggregate,
    }
}

/// Whether a scope is around another one, in any number of steps. Takes no memory.
pub fn is_farther_out(scope: &str, outer: &str) -> bool
    ensures { IsTrue result ↔ IsFartherOut scope.now outer.now }
{
    let mut next = scope_around(scope);
    while let Some(inner) = next {
        if inner == outer {
            return true;
        }
        next = scope_around(inner);
    }
    false
}

/// Whether a scope is farther out than a file's package.
pub(crate) fn is_beyond_package(
    alloc: Global,
    namespace: &Namespace,
    file: usize,
    start: &str,
) -> Result<bool, AllocError>
    requires { file < length namespace.now }
    ensures { IfOk result (λ is. IsTrue is ↔ IsBeyondPackage namespace.now file start.now) }
{
    match namespace.facts_of(file) {
        Some(facts) => {
            let package = joined(alloc, facts.package_name())?;
            Ok(is_farther_out(package.as_str(), start))
        }
        None => Ok(false),
    }
}

/// Whether the first word of a use is found in a scope that is farther out than the file's package.
fn is_found_farther(
    alloc: Global,
    namespace: &Namespace,
    file: usize,
    type_use: &Use,
) -> Result<bool, AllocError>
    requires { file < length namespace.now }
    ensures { IfOk result (λ is. IsTrue is ↔ IsFoundFarther namespace.now file type_use.now) }
{
    if type_use.has_leading_dot {
        return Ok(false);
    }
    match type_use.components.as_slice() {
        [] => Ok(false),
        [first, others @ ..] => {
            let role = first_role(type_use.is_extended, others);
            let mut text = String::new(alloc);
            let scope = type_use.scope.as_str();
            match innermost(namespace, file, role, scope, first.name.as_str(), &mut text)? {
                Some(start) => is_beyond_package(alloc, namespace, file, start),
                None => Ok(false),
            }
        }
    }
}

/// Whether a use names a type, but is found so far out that it may name another one once a file can be read.
fn may_change(
    alloc: Global,
    namespace: &Namespace,
    file: usize,
    type_use: &Use,
) -> Result<bool, AllocError>
    requires { file < length namespace.now }
    ensures { IfOk result (λ may. IsTrue may ↔ MayChange namespace.now file type_use.now) }
{
    if !is_found_farther(alloc, namespace, file, type_use)? {
        return Ok(false);
    }
    has_target(alloc, namespace, file, type_use)
}

/// Adds a use if it may name another type once a file can be read.
fn add_if_doubted(
    alloc: Global,
    doubted: &mut Vec<UncertainUse>,
    namespace: &Namespace,
    file: usize,
    type_use: &Use,
    behind: usize,
) -> Result<(), AllocError>
    requires { file < length namespace.now }
    ensures { OnOk result (Adds (IsDoubtedUse namespace.now file behind type_use.now)
        doubted.old.items doubted.new.items) }
{
    if may_change(alloc, namespace, file, type_use)? {
        let span = type_use.span;
        let place = FilePlace { file, span };
        doubted.push(UncertainUse { place, behind })?;
    }
    Ok(())
}

/// Adds those of these uses that do.
fn add_doubted(
    alloc: Global,
    doubted: &mut Vec<UncertainUse>,
    namespace: &Namespace,
    file: usize,
    uses: &[Use],
    behind: usize,
) -> Result<(), AllocError>
    requires { file < length namespace.now }
    ensures { OnOk result (Adds (IsDoubted namespace.now file behind uses.now)
        doubted.old.items doubted.new.items) }
{
    for type_use in uses {
        add_if_doubted(alloc, doubted, namespace, file, type_use, behind)?;
    }
    Ok(())
}

/// Adds those of a file, if it is a source.
fn add_of_file(
    alloc: Global,
    doubted: &mut Vec<UncertainUse>,
    namespace: &Namespace,
    file: usize,
    unread: &[usize],
) -> Result<(), AllocError>
    requires file { file < length namespace.now }
    requires unread { AreUnread namespace.now (length namespace.now) unread.now }
    ensures { OnOk result (Adds (IsDoubtedIn namespace.now file) doubted.old.items doubted.new.items) }
{
    if !namespace.is_source(file) {
        return Ok(());
    }
    match (
        first_unread(namespace, file, unread),
        namespace.facts_of(file),
    ) {
        (Some(behind), Some(facts)) => {
            add_doubted(alloc, doubted, namespace, file, facts.uses(), behind)
        }
        _ => Ok(()),
    }
}

/// All uses of sources that may name another type once a file can be read, in order.
pub(crate) fn uncertain_uses_of(
    alloc: Global,
    namespace: &Namespace,
) -> Result<Vec<UncertainUse>, AllocError>
    ensures { IfOk result (λ uses. (uncertain : UncertainUse) → Contains uses.items uncertain
        ↔ IsUncertain namespace.now uncertain) }
{
    let unread = unread_files(alloc, namespace)?;
    let mut doubted = Vec::new(alloc);
    for file in 0..namespace.count() {
        add_of_file(alloc, &mut doubted, namespace, file, unread.as_slice())?;
    }
    Ok(doubted)
}
