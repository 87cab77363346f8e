//! Uses, fields and what is known of files, by their places.

ghost use Rattle.std.specs.Prelude.{ℕ, ◌≡◌, ◌≢◌, ◌↔◌, ◌<◌, None, Some, false, IfOk, IsTrue, MatchOption, Contains, length};
ghost use Rattle.std.specs.List.{slice_get};
ghost use Rattle.proto_decl.specs.Imports.{start_of};
ghost use Rattle.proto_decl.specs.Facts.{component_spans};
ghost use Rattle.proto_options.specs.declared.fields.FieldFact.{FieldFact};
ghost use Rattle.proto_decl.specs.declared.declaration.Declaration.{Declaration};
ghost use Rattle.proto_decl.specs.declared.uses.Use.{Use};
ghost use Rattle.proto_visibility.specs.declared.fault.LinkFault.TheVariants.{Memory};
ghost use Rattle.proto_link.specs.Resolves.{wanted};
ghost use Rattle.proto_visibility.specs.Knows.NameKind.{OfPackage};
ghost use Rattle.option_link.specs.Tables.{IsUseAt, KeysRise, field_start, name_start, use_start};
ghost use Rattle.option_link.specs.Lookups.{admits};
ghost use Rattle.option_link.specs.Typed.{AnswersAlike};

use crate::place::{DeclaredPlace, is_same};
use crate::sought::Sought;
use crate::table::declaration_with;
use proto_decl::{Declaration, Use, facts_are_filled, facts_in_order};
use proto_lex::Span;
use proto_link::{LinkFault, Linker, Target};
use proto_options::FieldFact;
use std::alloc::AllocError;

/// Where the first component of a use starts.
fn start_of(type_use: &Use<'_>) -> u32
    ensures { result ≡ start_of (component_spans type_use.now.components) }
{
    match type_use.components.as_slice() {
        [] => 0,
        [first, ..] => first.span.start,
    }
}

/// The use with a number.
fn use_with<'s, 't>(uses: &'s [Use<'t>], index: usize) -> Option<&'s Use<'t>>
    ensures { MatchOption result (slice_get uses.now index ≡ None)
        (λ type_use. slice_get uses.now index ≡ Some type_use.now) }
{
    uses.get(index)
}

/// The one of these uses whose first component starts at an offset.
fn use_among<'s, 't>(uses: &'s [Use<'t>], start: u32) -> Option<&'s Use<'t>>
    requires { KeysRise use_start uses.now }
    ensures { MatchOption result ((type_use : Use) → Contains uses.now type_use → use_start type_use ≡ start → ⊥)
        (λ type_use. Contains uses.now type_use.now × (use_start type_use.now ≡ start)) }
{
    let before = uses.partition_point(|one| start_of(one) < start);
    match use_with(uses, before) {
        Some(one) => {
            let from = start_of(one);
            if from != start {
                return None;
            }
            Some(one)
        }
        None => None,
    }
}

/// The use of a file whose first component starts at an offset.
pub(crate) fn use_at<'n, 't>(
    linker: &'n Linker<'_, 't>,
    file: usize,
    start: u32,
) -> Option<&'n Use<'t>>
    requires { file < length linker.now }
    ensures { MatchOption result ((type_use : Use) → IsUseAt linker.now file start type_use → ⊥)
        (λ type_use. IsUseAt linker.now file start type_use.now) }
{
    linker.linked();
    facts_in_order();
    facts_are_filled();
    // From here on it is known that the first components of uses start one behind the other.
    match linker.facts_of(file) {
        Some(facts) => use_among(facts.uses(), start),
        None => None,
    }
}

/// The field with a number.
fn field_with(fields: &[FieldFact], index: usize) -> Option<FieldFact>
    ensures { result ≡ slice_get fields.now index }
{
    fields.get(index).copied()
}

/// The one of these fields whose name is at a place.
pub(crate) fn field_among(fields: &[FieldFact], name: Span) -> Option<FieldFact>
    requires { KeysRise field_start fields.now }
    ensures { MatchOption result ((fact : FieldFact) → Contains fields.now fact → fact.name ≡ name → ⊥)
        (λ fact. Contains fields.now fact × (fact.name ≡ name)) }
{
    let before = fields.partition_point(|one| one.name.start < name.start);
    match field_with(fields, before) {
        Some(one) => {
            if !is_at(one.name, name) {
                return None;
            }
            Some(one)
        }
        None => None,
    }
}

/// Whether two places in a text are the same.
pub(crate) fn is_at(one: Span, other: Span) -> bool
    ensures { IsTrue result ↔ (one ≡ other) }
{
    if one.start != other.start {
        return false;
    }
    one.end == other.end
}

/// What a use names, if it names something.
pub(crate) fn named_by(answer: Result<Target, LinkFault>) -> Result<Option<Target>, AllocError>
    ensures { IfOk result (λ found. AnswersAlike answer found) }
{
    match answer {
        Ok(target) => Ok(Some(target)),
        Err(fault) => nothing_by(fault),
    }
}

/// Nothing, unless memory was refused.
fn nothing_by(fault: LinkFault) -> Result<Option<Target>, AllocError>
    ensures { IfOk result (λ found. (found ≡ None) × (fault ≢ Memory)) }
{
    match fault {
        LinkFault::Memory => Err(AllocError),
        LinkFault::Broken(_) => Ok(None),
        LinkFault::Duplicate(_, _) => Ok(None),
        LinkFault::MissingImport(_) => Ok(None),
        LinkFault::Unresolved(_) => Ok(None),
        LinkFault::Ambiguous(_) => Ok(None),
    }
}

/// As what a use names what it names.
pub(crate) fn sought_by(is_extended: bool) -> Sought
    ensures role { admits result ≡ wanted is_extended }
    ensures declared { admits result OfPackage ≡ false }
{
    if is_extended {
        Sought::AMessage
    } else {
        Sought::AType
    }
}

/// A place, if it is this one.
pub(crate) fn if_same(found: Option<DeclaredPlace>, place: DeclaredPlace) -> Option<DeclaredPlace>
    ensures { MatchOption result (found ≡ Some place → ⊥) (λ same. (same ≡ place) × (found ≡ Some place)) }
{
    match found {
        Some(one) => {
            if !is_same(one, place) {
                return None;
            }
            Some(one)
        }
        None => None,
    }
}

/// The number of the one of these declarations whose name is at a place.
pub(crate) fn index_among(declarations: &[Declaration<'_>], name: Span) -> Option<usize>
    requires { KeysRise name_start declarations.now }
    ensures { MatchOption result ((index : ℕ) (declaration : Declaration)
        → slice_get declarations.now index ≡ Some declaration → declaration.name ≡ name → ⊥)
        (λ index. (declaration : Declaration) × (slice_get declarations.now index ≡ Some declaration)
        × (declaration.name ≡ name)) }
{
    let before = declarations.partition_point(|one| one.name().start < name.start);
    match declaration_with(declarations, before) {
        Some(one) => {
            if !is_at(one.name(), name) {
                return None;
            }
            Some(before)
        }
        None => None,
    }
}
