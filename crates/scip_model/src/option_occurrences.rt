//! The occurrences of a document that come of the names in its options.

ghost use Rattle.std.specs.Prelude.{◌≡◌, ◌++◌, [], ⊤, None, Some, IfOk, OnOk, MatchOption, map, All};
ghost use Rattle.std.specs.List.{slice_get};
ghost use Rattle.std.specs.List.Sorted.{IsStrictlySortedBy};
ghost use Rattle.std.specs.Option.{option_map};
ghost use Rattle.proto_decl.specs.Facts.{Facts};
ghost use Rattle.proto_decl.specs.Imports.{end_of};
ghost use Rattle.proto_decl.specs.Uses.{name_start};
ghost use Rattle.proto_decl.specs.declared.declaration.Declaration.{Declaration};
ghost use Rattle.scip_model.specs.Makers.{
  AreItsOptionGaps,
  AreItsUncertainNames,
  CanNameAt,
  HasChosen,
  HasDeclared,
  HasOptions,
  HasPart,
  HasSourceTexts,
  IsDeclaredAt,
  IsItsOptionGap,
  IsItsOptionTarget,
  IsItsUncertainName,
  IsOfSource,
  OccursByItsOption,
  OccursByItsTarget,
  OccursInItsOptions,
  at_its_name,
};
ghost use Rattle.scip_model.specs.OccurrenceOrder.{occurrence_cmp};
ghost use Rattle.scip_model.specs.Options.{span_of_name};
ghost use Rattle.scip_model.specs.Tables.Additions.{Adds};
ghost use Rattle.scip_model.specs.Tables.KnownParts.{AreKnown};
ghost use Rattle.scip_model.specs.Tables.Listing.{each_from};
ghost use Rattle.scip_model.specs.Tables.Merges.{AreUntied, IsMergedApart};
ghost use Rattle.scip_model.specs.Tables.OptionListing.{gap_of, uncertain_of};
ghost use Rattle.scip_model.specs.Tables.Plans.{AddsPlanned, AreAdded, Around, Grown, occurrence_of};

use crate::document_maker::DocumentMaker;
use crate::document_plan::PlannedOccurrence;
use crate::known_facts::facts_occur_in_order;
use crate::known_parts::KnownParts;
use crate::occurrence_order::{in_order, merged};
use crate::option_parts::{OptionPlan, add_part_at};
use crate::option_told::{ToldOfOptions, UncertainPlace};
use crate::symbol_table::SymbolTable;
use crate::targets::last_place;
use option_link::{
    DeclaredPlace, OptionLinker, OptionTarget, UncertainName, one_gap_an_option,
    one_uncertain_name_an_option,
};
use proto_lex::Span;
use proto_link::Entity;
use proto_options::{FileOption, OptionName};
use proto_parse::TypeName;
use std::alloc::{AllocError, Global};

/// What a component of a name with these parts names.
fn part_at(parts: &[Entity], index: usize) -> Option<Entity>
    ensures { result ≡ slice_get parts.now index }
{
    parts.get(index).copied()
}

/// The name of an option with a number.
fn name_at(option: &FileOption, number: usize) -> Option<&OptionName>
    ensures { MatchOption result (slice_get option.now.setting.names number ≡ None)
        (λ name. slice_get option.now.setting.names number ≡ Some name.now) }
{
    option.setting.names.as_slice().get(number)
}

/// Adds the occurrences of a name in an option with these parts, over its components. The last one names what is
/// declared at a place.
fn add_name(
    plan: &mut OptionPlan,
    maker: &DocumentMaker<'_, '_, '_, '_>,
    name: &OptionName,
    parts: &[Entity],
    place: DeclaredPlace,
    texts: &mut SymbolTable,
) -> Result<(), AllocError>
    requires stand { All (HasPart maker.now) name.now.name.components }
    requires chosen { HasChosen maker.now }
    requires own { HasSourceTexts maker.now texts.old }
    requires declared { HasDeclared maker.now place.file place.index }
    requires nameable { CanNameAt maker.now place parts.now }
    requires known { AreKnown maker.now texts.old plan.old.known }
    ensures grown { OnOk result (Grown texts.old texts.new) }
    ensures known { OnOk result (AreKnown maker.now texts.new plan.new.known) }
    ensures added { OnOk result ((facts : Facts) (declared : Declaration)
        → IsDeclaredAt maker.now place facts declared → (around : Around)
        → AreAdded around texts.new plan.old.list.items plan.new.list.items
        (each_from (at_its_name maker.now declared.full_name parts.now) 0 name.now.name.components)) }
{
    for (index, span) in name.name.components.as_slice().iter().enumerate() {
        let part = part_at(parts, index);
        add_part_at(plan, maker, place, *span, part, texts)?;
    }
    Ok(())
}

/// Adds the occurrences of the name in an option that has this target.
fn add_target(
    plan: &mut OptionPlan,
    maker: &DocumentMaker<'_, '_, '_, '_>,
    options: &OptionLinker<'_, '_, '_>,
    option: &FileOption,
    target: &OptionTarget,
    texts: &mut SymbolTable,
) -> Result<(), AllocError>
    requires options { HasOptions maker.now options.now }
    requires is_target { IsItsOptionTarget maker.now options.now.known option.now target.now }
    requires chosen { HasChosen maker.now }
    requires own { HasSourceTexts maker.now texts.old }
    requires known { AreKnown maker.now texts.old plan.old.known }
    ensures grown { OnOk result (Grown texts.old texts.new) }
    ensures known { OnOk result (AreKnown maker.now texts.new plan.new.known) }
    ensures added { OnOk result ((around : Around) → AddsPlanned around texts.new
        (OccursByItsTarget maker.now options.now.known option.now target.now)
        plan.old.list.items plan.new.list.items) }
{
    facts_occur_in_order(maker.package.linker());
    // From here on it is known that names are spelled by identifiers.
    let parts = target.parts.as_slice();
    match last_place(parts) {
        Some(place) => match name_at(option, target.name_number) {
            Some(name) => add_name(plan, maker, name, parts, place, texts),
            None => Ok(()),
        },
        None => Ok(()),
    }
}

/// Where a name starts.
fn start_of(name: &TypeName) -> u32
    ensures { result ≡ name_start name.now.leading_dot name.now.components }
{
    if let Some(dot) = name.leading_dot {
        return dot.start;
    }
    match name.components.as_slice() {
        [first, ..] => first.start,
        [] => 0,
    }
}

/// Where a name ends.
fn end_of(name: &TypeName) -> u32
    ensures { result ≡ end_of name.now.components }
{
    match name.components.as_slice() {
        [.., last] => last.end,
        [] => 0,
    }
}

/// The place of a whole name.
fn span_of_name(name: &TypeName) -> Span
    ensures { result ≡ span_of_name name.now }
{
    Span {
        start: start_of(name),
        end: end_of(name),
    }
}

/// Adds the place of the name with this number, if an option has a gap.
fn add_gap(gaps: &mut Vec<Span>, option: &FileOption, gap: Option<usize>) -> Result<(), AllocError>
    ensures { OnOk result (gaps.new.items ≡ gaps.old.items ++ gap_of option.now gap) }
{
    let Some(number) = gap else {
        return Ok(());
    };
    match name_at(option, number) {
        Some(name) => {
            gaps.push(span_of_name(&name.name))?;
            Ok(())
        }
        None => Ok(()),
    }
}

/// Adds the place of the uncertain name, if an option has one.
fn add_uncertain(
    places: &mut Vec<UncertainPlace>,
    option: &FileOption,
    uncertain: Option<UncertainName>,
) -> Result<(), AllocError>
    ensures { OnOk result (places.new.items ≡ places.old.items ++ uncertain_of option.now uncertain) }
{
    let Some(uncertain) = uncertain else {
        return Ok(());
    };
    match name_at(option, uncertain.name_number) {
        Some(name) => {
            places.push(UncertainPlace {
                span: span_of_name(&name.name),
                behind: uncertain.behind,
            })?;
            Ok(())
        }
        None => Ok(()),
    }
}

/// Adds the occurrences of the names in an option, its place if it has a gap, and that of its uncertain name. What they
/// name is let go at once.
fn add_option(
    plan: &mut OptionPlan,
    told: &mut ToldOfOptions,
    maker: &DocumentMaker<'_, '_, '_, '_>,
    options: &OptionLinker<'_, '_, '_>,
    option: &FileOption,
    texts: &mut SymbolTable,
) -> Result<(), AllocError>
    requires source { IsOfSource maker.now }
    requires options { HasOptions maker.now options.now }
    requires chosen { HasChosen maker.now }
    requires own { HasSourceTexts maker.now texts.old }
    requires known { AreKnown maker.now texts.old plan.old.known }
    ensures grown { OnOk result (Grown texts.old texts.new) }
    ensures known { OnOk result (AreKnown maker.now texts.new plan.new.known) }
    ensures added { OnOk result ((around : Around) → AddsPlanned around texts.new
        (OccursByItsOption maker.now options.now.known option.now) plan.old.list.items plan.new.list.items) }
    ensures gaps { OnOk result
        (Adds (IsItsOptionGap maker.now options.now.known option.now) told.old.gaps.items told.new.gaps.items) }
    ensures uncertain { OnOk result (Adds (IsItsUncertainName maker.now options.now.known option.now)
        told.old.uncertain.items told.new.uncertain.items) }
{
    one_gap_an_option();
    one_uncertain_name_an_option();
    let text = maker.text.as_str();
    let found = options.targets(maker.alloc, maker.source, text, option)?;
    for target in found.targets.as_slice() {
        add_target(plan, maker, options, option, target, texts)?;
    }
    add_gap(&mut told.gaps, option, found.gap)?;
    add_uncertain(&mut told.uncertain, option, found.uncertain)
}

/// What the names in the options of the source name, as often as it is named, and what is told of its options, which is
/// added to `told`: option by option. A symbol's text that is named again is mostly not made again.
fn option_occurrences(
    maker: &DocumentMaker<'_, '_, '_, '_>,
    options: &OptionLinker<'_, '_, '_>,
    told: &mut ToldOfOptions,
    texts: &mut SymbolTable,
) -> Result<Vec<PlannedOccurrence>, AllocError>
    requires source { IsOfSource maker.now }
    requires options { HasOptions maker.now options.now }
    requires chosen { HasChosen maker.now }
    requires own { HasSourceTexts maker.now texts.old }
    requires empty { told.old.gaps.items ≡ [] }
    requires certain { told.old.uncertain.items ≡ [] }
    ensures grown { OnOk result (Grown texts.old texts.new) }
    ensures planned { IfOk result (λ list. (around : Around) → AddsPlanned around texts.new
        (OccursInItsOptions maker.now (Some options.now.known)) [] list.items) }
    ensures gaps { OnOk result (AreItsOptionGaps maker.now (Some options.now.known) told.new.gaps.items) }
    ensures uncertain { OnOk result
        (AreItsUncertainNames maker.now (Some options.now.known) told.new.uncertain.items) }
{
    let its_options = options.options_of(maker.source);
    let known = KnownParts::new(maker.alloc, its_options.len())?;
    let list = Vec::with_capacity(maker.alloc, its_options.len())?;
    let mut plan = OptionPlan { list, known };
    for option in its_options {
        add_option(&mut plan, told, maker, options, option, texts)?;
    }
    Ok(plan.list)
}

/// The same, if it is asked for; else nothing, and no memory is taken.
pub(crate) fn occurrences_if_asked(
    maker: &DocumentMaker<'_, '_, '_, '_>,
    options: Option<&OptionLinker<'_, '_, '_>>,
    told: &mut ToldOfOptions,
    texts: &mut SymbolTable,
) -> Result<Vec<PlannedOccurrence>, AllocError>
    requires source { IsOfSource maker.now }
    requires options { MatchOption options ⊤ (λ linked. HasOptions maker.now linked.now) }
    requires chosen { HasChosen maker.now }
    requires own { HasSourceTexts maker.now texts.old }
    requires empty { told.old.gaps.items ≡ [] }
    requires certain { told.old.uncertain.items ≡ [] }
    ensures grown { OnOk result (Grown texts.old texts.new) }
    ensures planned { IfOk result (λ list. (around : Around) → AddsPlanned around texts.new
        (OccursInItsOptions maker.now (option_map (λ linked. linked.now.known) options.entry)) [] list.items) }
    ensures gaps { OnOk result
        (AreItsOptionGaps maker.now (option_map (λ linked. linked.now.known) options.entry) told.new.gaps.items) }
    ensures uncertain { OnOk result (AreItsUncertainNames maker.now
        (option_map (λ linked. linked.now.known) options.entry) told.new.uncertain.items) }
{
    match options {
        Some(options) => option_occurrences(maker, options, told, texts),
        None => Ok(Vec::new(maker.alloc)),
    }
}

/// What occurs besides, with what occurs of options where nothing else has its symbol over its range, in order. Where
/// nothing occurs of options no memory is taken.
pub(crate) fn with_options(
    alloc: Global,
    texts: &SymbolTable,
    besides: Vec<PlannedOccurrence>,
    of_options: Vec<PlannedOccurrence>,
) -> Result<Vec<PlannedOccurrence>, AllocError>
    ensures { IfOk result (λ list. (around : Around)
        → IsStrictlySortedBy occurrence_cmp (map (occurrence_of around texts.now) besides.items)
        → AreUntied occurrence_cmp (map (occurrence_of around texts.now) of_options.items)
        (map (occurrence_of around texts.now) of_options.items)
        → IsMergedApart occurrence_cmp (map (occurrence_of around texts.now) besides.items)
        (map (occurrence_of around texts.now) of_options.items) (map (occurrence_of around texts.now) list.items)) }
{
    if of_options.is_empty() {
        return Ok(besides);
    }
    let of_options = in_order(texts, of_options)?;
    merged(alloc, texts, besides, of_options)
}
