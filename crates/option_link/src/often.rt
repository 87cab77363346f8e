//! Fields that options use often: their types, and what is known of them.
//!
//! These are the fields of files that extend options, and of what such files see: each option that is set leads through
//! some of them.

ghost use Rattle.std.specs.Prelude.{◌<◌, IfOk, OnOk, length};
ghost use Rattle.option_link.specs.KnownFields.{AreKnownFields};
ghost use Rattle.option_link.specs.Fields.{AreInOrder};
ghost use Rattle.option_link.specs.Places.{Stands};
ghost use Rattle.option_link.specs.Typed.{AreTypesFound};

use crate::facts::FilesBeside;
use crate::fields::KnownFiles;
use crate::known_fields::{KnownField, KnownFields};
use crate::often_used::OftenUsed;
use crate::place::DeclaredPlace;
use crate::table::{DeclarationTable, is_a};
use crate::types::{FoundType, is_in_front};
use proto_decl::{Declaration, DeclarationKind, Use};
use proto_link::Linker;
use proto_options::{FieldFact, FieldKind};
use std::alloc::{AllocError, Global};

/// Whether a use is, by its last word, one that an `extend` of options extends.
fn extends_options(type_use: &Use<'_>) -> bool {
    if !type_use.is_extended {
        return false;
    }
    match type_use.components.as_slice().last() {
        Some(last) => last.name.as_str().ends_with("Options"),
        None => false,
    }
}

/// Whether a file extends options.
fn is_extending(linker: &Linker<'_, '_>, file: usize) -> bool
    requires { file < length linker.now }
{
    match linker.facts_of(file) {
        Some(facts) => facts
            .uses()
            .iter()
            .any(|type_use| extends_options(type_use)),
        None => false,
    }
}

/// The files that extend options.
fn extending(alloc: Global, linker: &Linker<'_, '_>) -> Result<Vec<usize>, AllocError> {
    let mut numbers = Vec::new(alloc);
    for file in 0..linker.count() {
        if is_extending(linker, file) {
            numbers.push(file)?;
        }
    }
    Ok(numbers)
}

/// Whether one of these files sees another one.
fn see(linker: &Linker<'_, '_>, numbers: &[usize], other: usize) -> bool
    requires { other < length linker.now }
{
    for number in numbers {
        if *number < linker.count() {
            if linker.visible(*number, other) {
                return true;
            }
        }
    }
    false
}

/// The files that extend options, and those that they see.
pub(crate) fn often_used(alloc: Global, linker: &Linker<'_, '_>) -> Result<Vec<usize>, AllocError> {
    let extending = extending(alloc, linker)?;
    let mut numbers = Vec::new(alloc);
    for file in 0..linker.count() {
        if see(linker, extending.as_slice(), file) {
            numbers.push(file)?;
        }
    }
    Ok(numbers)
}

/// Whether the use of a file that starts at an offset is the last one of these, or in front of it.
fn is_behind(types: &[FoundType], file: usize, start: u32) -> bool {
    match types.last() {
        Some(last) => !is_in_front(last, file, start),
        None => false,
    }
}

/// Finds what a use of a file names that starts at an offset, unless it stands among these.
fn add_use(
    alloc: Global,
    files: KnownFiles<'_, '_, '_, '_>,
    file: usize,
    start: u32,
    types: &mut Vec<FoundType>,
) -> Result<(), AllocError>
    requires file { file < length files.names.now }
    requires found { AreTypesFound files.names.now types.old.items }
    ensures { OnOk result (AreTypesFound files.entry.names.now types.new.items) }
{
    if is_behind(types.as_slice(), file, start) {
        return Ok(());
    }
    let found = files.type_used(alloc, file, start)?;
    types.push(FoundType { file, start, found })?;
    Ok(())
}

/// Finds what a use names, if there is one.
fn add_if(
    alloc: Global,
    files: KnownFiles<'_, '_, '_, '_>,
    file: usize,
    start: Option<u32>,
    types: &mut Vec<FoundType>,
) -> Result<(), AllocError>
    requires file { file < length files.names.now }
    requires found { AreTypesFound files.names.now types.old.items }
    ensures { OnOk result (AreTypesFound files.entry.names.now types.new.items) }
{
    match start {
        Some(start) => add_use(alloc, files, file, start, types),
        None => Ok(()),
    }
}

/// Where the use starts that names the type of a field, or of a map's values.
fn start_of(kind: FieldKind) -> Option<u32> {
    match kind {
        FieldKind::Named(start) => Some(start),
        FieldKind::Map(value) => value,
        FieldKind::Scalar => None,
        FieldKind::Group => None,
    }
}

/// Finds the types of a field of a file: what it extends, and its own.
fn add_field(
    alloc: Global,
    files: KnownFiles<'_, '_, '_, '_>,
    file: usize,
    fact: FieldFact,
    types: &mut Vec<FoundType>,
) -> Result<(), AllocError>
    requires file { file < length files.names.now }
    requires found { AreTypesFound files.names.now types.old.items }
    ensures { OnOk result (AreTypesFound files.entry.names.now types.new.items) }
{
    add_if(alloc, files, file, fact.extended, types)?;
    add_if(alloc, files, file, start_of(fact.kind), types)
}

/// Finds the types of the fields of a file, if there is one with this number.
fn add_file(
    alloc: Global,
    files: KnownFiles<'_, '_, '_, '_>,
    file: usize,
    types: &mut Vec<FoundType>,
) -> Result<(), AllocError>
    requires { AreTypesFound files.names.now types.old.items }
    ensures { OnOk result (AreTypesFound files.entry.names.now types.new.items) }
{
    if file >= files.names.linker().count() {
        return Ok(());
    }
    for fact in files.known.fields_of(file) {
        add_field(alloc, files, file, *fact, types)?;
    }
    Ok(())
}

/// The types of the fields of these files.
pub(crate) fn types_of<'n, 'a, 't>(
    alloc: Global,
    names: &DeclarationTable<'n, 'a, 't>,
    known: &'n FilesBeside<'n>,
    numbers: &[usize],
) -> Result<Vec<FoundType>, AllocError>
    requires { AreInOrder known.now }
    ensures { IfOk result (λ types. AreTypesFound names.now types.items) }
{
    let none = KnownFields::none(alloc);
    let often = OftenUsed::new(names, known, &none);
    let files = KnownFiles {
        names,
        known,
        often: &often,
    };
    let mut types = Vec::new(alloc);
    for number in numbers {
        add_file(alloc, files, *number, &mut types)?;
    }
    Ok(types)
}

/// Adds what is known of a field.
fn add_known(
    alloc: Global,
    files: KnownFiles<'_, '_, '_, '_>,
    field: DeclaredPlace,
    declared: &Declaration<'_>,
    often: &mut KnownFields,
) -> Result<(), AllocError>
    requires stands { Stands files.names.now field declared.now }
    requires known { AreKnownFields files.names.now files.known.now often.old.fields.items }
    ensures { OnOk result (AreKnownFields files.entry.names.now files.entry.known.now often.new.fields.items) }
{
    let message = files.naming_message(alloc, field, declared)?;
    let gives = files.field_gives(alloc, field)?;
    let one = KnownField {
        field,
        message,
        gives,
    };
    often.add(one, declared.simple_name())
}

/// The same of what is declared at a place, if it is a field.
fn add_known_at(
    alloc: Global,
    files: KnownFiles<'_, '_, '_, '_>,
    place: DeclaredPlace,
    often: &mut KnownFields,
) -> Result<(), AllocError>
    requires { AreKnownFields files.names.now files.known.now often.old.fields.items }
    ensures { OnOk result (AreKnownFields files.entry.names.now files.entry.known.now often.new.fields.items) }
{
    match files.names.declaration_at(place) {
        Some(declared) => {
            if !is_a(declared, DeclarationKind::Field) {
                return Ok(());
            }
            add_known(alloc, files, place, declared, often)
        }
        None => Ok(()),
    }
}

/// How many declarations the file with a number has, if there is one.
fn count_declared(linker: &Linker<'_, '_>, file: usize) -> usize {
    if file >= linker.count() {
        return 0;
    }
    match linker.facts_of(file) {
        Some(facts) => facts.declarations().len(),
        None => 0,
    }
}

/// Adds what is known of the fields of a file, if there is one with this number.
fn add_known_of(
    alloc: Global,
    files: KnownFiles<'_, '_, '_, '_>,
    file: usize,
    often: &mut KnownFields,
) -> Result<(), AllocError>
    requires { AreKnownFields files.names.now files.known.now often.old.fields.items }
    ensures { OnOk result (AreKnownFields files.entry.names.now files.entry.known.now often.new.fields.items) }
{
    for index in 0..count_declared(files.names.linker(), file) {
        add_known_at(alloc, files, DeclaredPlace { file, index }, often)?;
    }
    Ok(())
}

/// How many fields these files have.
fn count_fields(known: &FilesBeside<'_>, numbers: &[usize]) -> usize {
    let mut count: usize = 0;
    for number in numbers {
        count = count.saturating_add(known.fields_of(*number).len());
    }
    count
}

/// What is known of the fields of these files.
pub(crate) fn fields_of<'n, 'a, 't>(
    alloc: Global,
    names: &DeclarationTable<'n, 'a, 't>,
    known: &'n FilesBeside<'n>,
    numbers: &[usize],
) -> Result<KnownFields, AllocError>
    requires { AreInOrder known.now }
    ensures { IfOk result (λ often. AreKnownFields names.now known.now often.fields.items) }
{
    let none = KnownFields::none(alloc);
    let files = KnownFiles {
        names,
        known,
        often: &OftenUsed::new(names, known, &none),
    };
    let mut often = KnownFields::with_room(alloc, count_fields(known, numbers))?;
    for number in numbers {
        add_known_of(alloc, files, *number, &mut often)?;
    }
    Ok(often)
}
