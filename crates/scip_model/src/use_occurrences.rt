//! The occurrences of a document that come of its uses.

ghost use Rattle.std.specs.Prelude.{◌≡◌, ◌<◌, ◌≤◌, ℕ, Some, Option, List, All, IfOk, IfErr};
ghost use Rattle.std.specs.Prelude.{OnOk, IfSome, ◌++◌, length, map, take};
ghost use Rattle.std.specs.List.{AllZip, slice_get};
ghost use denote.Ref.{Bor};
ghost use Rattle.proto_decl.specs.Names.{components_of};
ghost use Rattle.proto_decl.specs.Facts.{Facts};
ghost use Rattle.proto_decl.specs.declared.uses.Component.{Component};
ghost use Rattle.proto_decl.specs.declared.uses.Use.{Use};
ghost use Rattle.proto_link.specs.declared.target.Target.{Target};
ghost use Rattle.proto_visibility.specs.declared.lookup.Entity.{Entity};
ghost use Rattle.proto_visibility.specs.declared.lookup.Entity.TheVariants.{Declared, Package};
ghost use Rattle.scip_symbol.specs.Entities.{OfPackage, IsEntity};
ghost use Rattle.proto_visibility.specs.declared.fault.LinkFault.TheVariants.{Memory};
ghost use Rattle.scip_model.specs.Named.{text_of};
ghost use Rattle.scip_model.specs.Tables.Listing.{each_from, is_shown, unless_found, unresolved_use_at};
ghost use Rattle.scip_model.specs.Tables.Plans.{Around, Grown, IsNumberIn, ArePlanned, AreAdded};
ghost use Rattle.scip_model.specs.Tables.Plans.{declaration_number};
ghost use Rattle.scip_model.specs.Makers.{
  CanName,
  CanNameParts,
  Finds,
  HasChosen,
  HasDeclared,
  HasPart,
  HasSourceFacts,
  HasSourceTexts,
  IsOfFile,
  at_its_component,
  at_its_entity,
  at_its_part,
  at_its_target,
  at_its_use,
  declared_symbol,
  entity_named,
  part_package,
  part_symbol,
};

use crate::document_maker::DocumentMaker;
use crate::document_plan::PlannedOccurrence;
use crate::occurrences::planned_over;
use crate::symbol_table::{SymbolTable, declaration_number};
use crate::symbol_texts::declaration_text;
use crate::targets::{add_unresolved, target_of};
use basics::OwnedText;
use proto_decl::{Component, Declaration, FileFacts, Use};
use proto_lex::Span;
use proto_link::{Entity, LinkFault, Target};
use scip_symbol::{PackageId, print_package_named};
use std::alloc::{AllocError, Global};

/// The role of what is neither a definition nor an import.
pub(crate) const NO_ROLE: i32 = 0;

/// The components of a full name.
fn components_in(alloc: Global, name: &str) -> Result<Vec<&str>, AllocError>
    ensures { IfOk result (λ parts. map (λ (part : Bor (List ℕ)). part.now) parts.items ≡ components_of name.now) }
{
    name.split('.').collect(alloc)
}

/// This many of them, or all if there are fewer.
fn at_most(count: usize, parts: &[&str]) -> usize
    ensures within { result ≤ length parts.now }
    ensures same { (texts : List (List ℕ)) → length texts ≡ length parts.now → take result texts ≡ take count texts }
{
    if count < parts.len() {
        count
    } else {
        parts.len()
    }
}

/// The symbol's text of the package that a full name's first components make.
fn named_package_text(
    alloc: Global,
    id: &PackageId,
    name: &str,
    count: usize,
) -> Result<OwnedText, AllocError>
    requires { IsEntity (OfPackage (take count (components_of name.now))) }
    ensures { IfOk result (λ text. text ≡ text_of id.now (OfPackage (take count (components_of name.now)))) }
{
    let parts = components_in(alloc, name)?;
    let few = at_most(count, parts.as_slice());
    let (front, _) = parts.as_slice().split_at(few);
    let printed = print_package_named(alloc, id, front)?;
    Ok(OwnedText::from_string(printed))
}

/// A declaration of a file, by its number.
pub(crate) fn declaration_of<'a, 't>(facts: &'a FileFacts<'t>, index: usize) -> &'a Declaration<'t>
    requires { index < length facts.now.declarations }
    ensures { slice_get facts.now.declarations index ≡ Some result.now }
{
    &facts.declarations()[index]
}

/// The symbol's text of a declaration, by its file's number and its own.
fn declared_text(
    maker: &DocumentMaker<'_, '_, '_, '_>,
    file: usize,
    index: usize,
) -> Result<OwnedText, AllocError>
    requires { HasDeclared maker.now file index }
    ensures { IfOk result (λ text.
        declared_symbol maker.now file index ≡ Some text) }
{
    let facts = maker.package.linker().facts_of(file).unwrap();
    let declaration = declaration_of(facts, index);
    let home = maker.package.home_of(file);
    declaration_text(maker.alloc, &home, facts, declaration)
}

/// The symbol's text of what a part of a full name names.
fn entity_text(
    maker: &DocumentMaker<'_, '_, '_, '_>,
    name: &str,
    part: Entity,
) -> Result<OwnedText, AllocError>
    requires { CanName maker.now name.now part }
    ensures { IfOk result (λ text.
        part_symbol maker.now name.now part ≡ Some text) }
{
    match part {
        Entity::Package(count) => named_package_text(maker.alloc, maker.package.run(), name, count),
        Entity::Declared(file, index) => declared_text(maker, file, index),
    }
}

/// The number of the declaration that a part is, if it is one of this file.
fn own_index(part: Entity, file: usize) -> Option<usize>
    ensures { IfSome result (λ index. part ≡ Declared file index) }
{
    match part {
        Entity::Declared(of, index) => { if of == file { Some(index) } else { None } }
        Entity::Package(_) => None,
    }
}

/// The number of the text of one of the source's own declarations.
fn own_number(maker: &DocumentMaker<'_, '_, '_, '_>, index: usize) -> Result<u32, AllocError>
    requires { HasDeclared maker.now maker.now.source index }
    ensures { IfOk result (λ number. (facts : Facts) → HasSourceFacts maker.now facts
        → number ≡ declaration_number facts index) }
{
    let facts = maker.package.linker().facts_of(maker.source).unwrap();
    let number = declaration_number(facts, index)?;
    Ok(number)
}

/// The number that the text of a part has, if the source has it itself and it is no declaration: a package's is the
/// count of its components. No part is the file, whose number is 0.
fn own_package(part: Entity) -> usize
    ensures { (count : ℕ) → part ≡ Package count → result ≡ count }
{
    match part {
        Entity::Package(count) => count,
        Entity::Declared(_, _) => 0,
    }
}

/// The number of the text of what a part of a full name names. What the source has itself has one already.
pub(crate) fn entity_number(
    maker: &DocumentMaker<'_, '_, '_, '_>,
    name: &str,
    part: Entity,
    texts: &mut SymbolTable,
) -> Result<u32, AllocError>
    requires own { HasSourceTexts maker.now texts.old }
    requires nameable { CanName maker.now name.now part }
    ensures grown { OnOk result (Grown texts.old texts.new) }
    ensures number { IfOk result (IsNumberIn texts.new
        (part_package maker.now part)
        (entity_named maker.now name.now part)) }
{
    if let Some(index) = own_index(part, maker.source) {
        let number = own_number(maker, index)?;
        return Ok(number);
    }
    let text = entity_text(maker, name, part)?;
    let number = texts.number_of(own_package(part), text)?;
    Ok(number)
}

/// Whether a part of a full name occurs: a package does, and a declaration where it is kept.
pub(crate) fn is_shown(maker: &DocumentMaker<'_, '_, '_, '_>, part: Entity) -> bool
    requires chosen { HasChosen maker.now }
    requires nameable { (name : List ℕ) × CanName maker.now name part }
    ensures { result ≡ is_shown maker.now.choices.now part }
{
    match part {
        Entity::Package(_) => true,
        Entity::Declared(file, index) => maker.choices.of(file, index).keep,
    }
}

/// Adds the occurrence of what a part of a full name names over a component.
fn add_entity(
    list: &mut Vec<PlannedOccurrence>,
    maker: &DocumentMaker<'_, '_, '_, '_>,
    name: &str,
    span: Span,
    part: Entity,
    texts: &mut SymbolTable,
) -> Result<(), AllocError>
    requires stands { HasPart maker.now span }
    requires own { HasSourceTexts maker.now texts.old }
    requires nameable { CanName maker.now name.now part }
    ensures grown { OnOk result (Grown texts.old texts.new) }
    ensures added { OnOk result ((around : Around) → AreAdded around texts.new list.old.items list.new.items
        (at_its_entity maker.now name.now span part)) }
{
    let number = entity_number(maker, name, part, texts)?;
    list.push(planned_over(maker, span, number, NO_ROLE))?;
    Ok(())
}

/// Adds the occurrence of a part of a full name over a component, if there is a part and it occurs.
fn add_part(
    list: &mut Vec<PlannedOccurrence>,
    maker: &DocumentMaker<'_, '_, '_, '_>,
    name: &str,
    span: Span,
    part: Option<Entity>,
    texts: &mut SymbolTable,
) -> Result<(), AllocError>
    requires stands { HasPart maker.now span }
    requires chosen { HasChosen maker.now }
    requires own { HasSourceTexts maker.now texts.old }
    requires nameable { (entity : Entity) → part ≡ Some entity → CanName maker.now name.now entity }
    ensures grown { OnOk result (Grown texts.old texts.new) }
    ensures added { OnOk result ((around : Around) → AreAdded around texts.new list.old.items list.new.items
        (at_its_part maker.now name.now span part)) }
{
    match part {
        Some(part) => {
            if is_shown(maker, part) {
                add_entity(list, maker, name, span, part, texts)
            } else {
                Ok(())
            }
        }
        None => Ok(()),
    }
}

/// What a component of a use with this target names.
fn part_of(target: &Target, index: usize) -> Option<Entity>
    ensures { result ≡ slice_get target.now.parts index }
{
    target.parts.as_slice().get(index).copied()
}

/// Adds the occurrences of a use with this target, over its components.
fn add_target(
    list: &mut Vec<PlannedOccurrence>,
    maker: &DocumentMaker<'_, '_, '_, '_>,
    target: &Target,
    type_use: &Use,
    texts: &mut SymbolTable,
) -> Result<(), AllocError>
    requires stand { All (λ (component : Component). HasPart maker.now component.span) type_use.now.components }
    requires chosen { HasChosen maker.now }
    requires own { HasSourceTexts maker.now texts.old }
    requires nameable { CanNameParts maker.now target.now }
    ensures grown { OnOk result (Grown texts.old texts.new) }
    ensures added { OnOk result ((around : Around) → AreAdded around texts.new list.old.items list.new.items (each_from
        (at_its_component maker.now target.now)
        0 type_use.now.components)) }
{
    for (index, component) in type_use.components.as_slice().iter().enumerate() {
        let part = part_of(target, index);
        let name = target.name.as_str();
        add_part(list, maker, name, component.span, part, texts)?;
    }
    Ok(())
}

/// Adds the occurrences of a use, if it names a type.
fn add_found(
    list: &mut Vec<PlannedOccurrence>,
    maker: &DocumentMaker<'_, '_, '_, '_>,
    found: &Option<Target>,
    type_use: &Use,
    texts: &mut SymbolTable,
) -> Result<(), AllocError>
    requires stand { All (λ (component : Component). HasPart maker.now component.span) type_use.now.components }
    requires chosen { HasChosen maker.now }
    requires own { HasSourceTexts maker.now texts.old }
    requires nameable { (target : Target) → found.now ≡ Some target → CanNameParts maker.now target }
    ensures grown { OnOk result (Grown texts.old texts.new) }
    ensures added { OnOk result ((around : Around) → AreAdded around texts.new list.old.items list.new.items
        (at_its_target maker.now found.now type_use.now)) }
{
    match found {
        Some(target) => add_target(list, maker, target, type_use, texts),
        None => Ok(()),
    }
}

/// Adds the occurrences of a use of the source, or its place if it names no type. What it names is let go at once.
/// `Memory` is the only fault.
fn add_use(
    list: &mut Vec<PlannedOccurrence>,
    unresolved_uses: &mut Vec<Span>,
    maker: &DocumentMaker<'_, '_, '_, '_>,
    type_use: &Use,
    texts: &mut SymbolTable,
) -> Result<(), LinkFault>
    requires source { IsOfFile maker.now }
    requires stand { All (λ (component : Component). HasPart maker.now component.span) type_use.now.components }
    requires chosen { HasChosen maker.now }
    requires own { HasSourceTexts maker.now texts.old }
    requires nameable { (found : Option Target) (target : Target)
        → Finds maker.now type_use.now found → found ≡ Some target
        → CanNameParts maker.now target }
    ensures grown { OnOk result (Grown texts.old texts.new) }
    ensures added { OnOk result ((found : Option Target)
        × Finds maker.now type_use.now found
        × ((around : Around) → AreAdded around texts.new list.old.items list.new.items
        (at_its_target maker.now found type_use.now))
        × (unresolved_uses.new.items ≡ unresolved_uses.old.items ++ unless_found found type_use.now.span)) }
    ensures refused { IfErr result (λ fault. fault ≡ Memory) }
{
    let found = target_of(maker.alloc, maker.package.linker(), maker.source, type_use)?;
    add_unresolved(unresolved_uses, &found, type_use.span)?;
    add_found(list, maker, &found, type_use, texts)?;
    Ok(())
}

/// Each component of a use that names a package, or a declaration that is kept. The places of uses that name no type
/// are added to `unresolved_uses`, in order. `Memory` is the only fault.
pub(crate) fn use_occurrences(
    maker: &DocumentMaker<'_, '_, '_, '_>,
    uses: &[Use],
    unresolved_uses: &mut Vec<Span>,
    texts: &mut SymbolTable,
) -> Result<Vec<PlannedOccurrence>, LinkFault>
    requires source { IsOfFile maker.now }
    requires stand { All (λ (used : Use).
        All (λ (component : Component). HasPart maker.now component.span) used.components) uses.now }
    requires chosen { HasChosen maker.now }
    requires own { HasSourceTexts maker.now texts.old }
    requires nameable { (used : Use) (found : Option Target) (target : Target)
        → Finds maker.now used found → found ≡ Some target
        → CanNameParts maker.now target }
    ensures grown { OnOk result (Grown texts.old texts.new) }
    ensures planned { IfOk result (λ list. (found : List (Option Target))
        × AllZip (Finds maker.now) uses.now found
        × ((around : Around) → ArePlanned around texts.new list.items (each_from
        (at_its_use maker.now found) 0 uses.now))
        × (unresolved_uses.new.items ≡ unresolved_uses.old.items ++ each_from (unresolved_use_at found) 0 uses.now)) }
    ensures refused { IfErr result (λ fault. fault ≡ Memory) }
{
    let mut list = Vec::with_capacity(maker.alloc, uses.len())?;
    for type_use in uses {
        add_use(&mut list, unresolved_uses, maker, type_use, texts)?;
    }
    Ok(list)
}
