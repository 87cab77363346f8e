//! The occurrences over the components of the names in options.

ghost use Rattle.std.specs.Prelude.{◌≡◌, Some, IfOk, OnOk};
ghost use Rattle.proto_decl.specs.Facts.{Facts};
ghost use Rattle.proto_decl.specs.declared.declaration.Declaration.{Declaration};
ghost use Rattle.proto_visibility.specs.declared.lookup.Entity.{Entity};
ghost use Rattle.scip_model.specs.Makers.{
  HasChosen,
  HasDeclared,
  HasPart,
  HasSourceTexts,
  IsDeclaredAt,
  at_its_entity,
  at_its_part,
};
ghost use Rattle.scip_model.specs.Tables.KnownParts.{AreKnown, CanNamePartAt, NumbersPart};
ghost use Rattle.scip_model.specs.Tables.Plans.{AreAdded, Around, Grown};

use crate::document_maker::DocumentMaker;
use crate::document_plan::PlannedOccurrence;
use crate::known_parts::KnownParts;
use crate::occurrences::planned_over;
use crate::symbol_table::SymbolTable;
use crate::use_occurrences::{NO_ROLE, declaration_of, entity_number, is_shown};
use basics::OwnedText;
use option_link::DeclaredPlace;
use proto_lex::Span;
use proto_link::Entity;
use std::alloc::AllocError;

/// What is planned of options so far, and what is known by that.
#[derive(Drop)]
pub(crate) struct OptionPlan {
    pub(crate) list: Vec<PlannedOccurrence>,
    pub(crate) known: KnownParts,
}

/// The full name of what is declared at a place.
fn full_name_at(
    maker: &DocumentMaker<'_, '_, '_, '_>,
    place: DeclaredPlace,
) -> Result<OwnedText, AllocError>
    requires { HasDeclared maker.now place.file place.index }
    ensures { IfOk result (λ name. (facts : Facts) (declared : Declaration)
        → IsDeclaredAt maker.now place facts declared → name ≡ declared.full_name) }
{
    let facts = maker.package.linker().facts_of(place.file).unwrap();
    let declaration = declaration_of(facts, place.index);
    declaration.full_name().to_text(maker.alloc)
}

/// The number of the text of what a part of the full name of what is declared at a place names. No declaration's text
/// has anything of that full name.
fn new_number(
    maker: &DocumentMaker<'_, '_, '_, '_>,
    place: DeclaredPlace,
    part: Entity,
    texts: &mut SymbolTable,
) -> Result<u32, AllocError>
    requires own { HasSourceTexts maker.now texts.old }
    requires declared { HasDeclared maker.now place.file place.index }
    requires nameable { CanNamePartAt maker.now place part }
    ensures grown { OnOk result (Grown texts.old texts.new) }
    ensures number { IfOk result (NumbersPart maker.now texts.new place part) }
{
    if let Entity::Declared(_, _) = part {
        return entity_number(maker, "", part, texts);
    }
    let full_name = full_name_at(maker, place)?;
    let number = entity_number(maker, full_name.as_str(), part, texts)?;
    Ok(number)
}

/// The same, where what is known already isn't made anew.
fn part_number(
    maker: &DocumentMaker<'_, '_, '_, '_>,
    known: &mut KnownParts,
    place: DeclaredPlace,
    part: Entity,
    texts: &mut SymbolTable,
) -> Result<u32, AllocError>
    requires own { HasSourceTexts maker.now texts.old }
    requires declared { HasDeclared maker.now place.file place.index }
    requires nameable { CanNamePartAt maker.now place part }
    requires known { AreKnown maker.now texts.old known.old }
    ensures grown { OnOk result (Grown texts.old texts.new) }
    ensures known { OnOk result (AreKnown maker.now texts.new known.new) }
    ensures number { IfOk result (NumbersPart maker.now texts.new place part) }
{
    if let Some(number) = known.number_of(place, part) {
        return Ok(number);
    }
    let number = new_number(maker, place, part, texts)?;
    known.keep(place, part, number);
    Ok(number)
}

/// Adds the occurrence of what a part of the full name of what is declared at a place names, over a component.
fn add_entity_at(
    plan: &mut OptionPlan,
    maker: &DocumentMaker<'_, '_, '_, '_>,
    place: DeclaredPlace,
    span: Span,
    part: Entity,
    texts: &mut SymbolTable,
) -> Result<(), AllocError>
    requires stands { HasPart maker.now span }
    requires own { HasSourceTexts maker.now texts.old }
    requires declared { HasDeclared maker.now place.file place.index }
    requires nameable { CanNamePartAt maker.now place part }
    requires known { AreKnown maker.now texts.old plan.old.known }
    ensures grown { OnOk result (Grown texts.old texts.new) }
    ensures known { OnOk result (AreKnown maker.now texts.new plan.new.known) }
    ensures added { OnOk result ((facts : Facts) (declared : Declaration)
        → IsDeclaredAt maker.now place facts declared → (around : Around)
        → AreAdded around texts.new plan.old.list.items plan.new.list.items
        (at_its_entity maker.now declared.full_name span part)) }
{
    let number = part_number(maker, &mut plan.known, place, part, texts)?;
    plan.list.push(planned_over(maker, span, number, NO_ROLE))?;
    Ok(())
}

/// Adds the occurrence of a part of the full name of what is declared at a place, over a component, if there is a part
/// and it occurs.
pub(crate) fn add_part_at(
    plan: &mut OptionPlan,
    maker: &DocumentMaker<'_, '_, '_, '_>,
    place: DeclaredPlace,
    span: Span,
    part: Option<Entity>,
    texts: &mut SymbolTable,
) -> Result<(), AllocError>
    requires stands { HasPart maker.now span }
    requires chosen { HasChosen maker.now }
    requires own { HasSourceTexts maker.now texts.old }
    requires declared { HasDeclared maker.now place.file place.index }
    requires nameable { (entity : Entity) → part ≡ Some entity → CanNamePartAt maker.now place entity }
    requires known { AreKnown maker.now texts.old plan.old.known }
    ensures grown { OnOk result (Grown texts.old texts.new) }
    ensures known { OnOk result (AreKnown maker.now texts.new plan.new.known) }
    ensures added { OnOk result ((facts : Facts) (declared : Declaration)
        → IsDeclaredAt maker.now place facts declared → (around : Around)
        → AreAdded around texts.new plan.old.list.items plan.new.list.items
        (at_its_part maker.now declared.full_name span part)) }
{
    match part {
        Some(part) => {
            if is_shown(maker, part) {
                add_entity_at(plan, maker, place, span, part, texts)
            } else {
                Ok(())
            }
        }
        None => Ok(()),
    }
}
