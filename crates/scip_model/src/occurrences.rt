//! The occurrences of a document that don't come of its uses.

ghost use Rattle.std.specs.Prelude.{◌≡◌, ◌<◌, ◌∷◌, [], ℕ, List, Some, length, All, IsTrue, IfOk, OnOk};
ghost use Rattle.std.specs.List.{slice_get};
ghost use Rattle.std.specs.Prelude.{Option};
ghost use Rattle.proto_decl.specs.Laws.{IsWhole};
ghost use Rattle.proto_decl.specs.Facts.{Facts};
ghost use Rattle.proto_decl.specs.declared.uses.Component.{Component};
ghost use Rattle.proto_decl.specs.declared.declaration.Declaration.{Declaration};
ghost use Rattle.proto_decl.specs.declared.imports.Imported.{Imported};
ghost use Rattle.scip_symbol.specs.Entities.{OfFile};
ghost use Rattle.scip_symbol.specs.Package.{Package};
ghost use Rattle.scip_symbol.specs.Path.{IsGoodPath};
ghost use Rattle.scip_model.specs.Conditions.{HaveGoodPaths};
ghost use Rattle.scip_model.specs.Named.{Home, text_of};
ghost use Rattle.scip_model.specs.Occurs.{range_over, start_of_text};
ghost use Rattle.scip_model.specs.Packages.{package_of_path};
ghost use Rattle.scip_model.specs.Tables.Listing.{own_occurrence, each_from, has_path, at_package};
ghost use Rattle.scip_model.specs.Tables.Plans.{Around, own_texts, Grown, IsNumberOf, ArePlanned, AreAdded};
ghost use Rattle.scip_model.specs.Tables.Plans.{range_around, ranges_over};
ghost use Rattle.scip_model.specs.Makers.{HasChosenFor, HasGoodPaths, HasPart, HasTextFor, HasWhole};
ghost use Rattle.scip_model.specs.Makers.{around_its, at_its_declaration, at_its_import, source_home};
ghost use Rattle.proto_decl.specs.Facts.{extents_of};

use crate::document_maker::DocumentMaker;
use crate::document_plan::PlannedOccurrence;
use crate::symbol_table::{SymbolTable, declaration_number, number_at};
use crate::symbol_texts::file_text;
use proto_decl::{Declaration, Detail, FileFacts, Imported, facts_stand_in_text};
use proto_lex::{Encoding, Span, Text, positions_fit};
use proto_link::Linker;
use scip_records::Range;
use std::alloc::{AllocError, Global};

/// The role of a definition.
const DEFINITION: i32 = 1;

/// The role of an import.
const IMPORT: i32 = 2;

/// The number of the text of the source's own file.
const FILE: usize = 0;

/// The range from where a span begins to where it ends.
fn range_over(text: &Text<'_>, encoding: Encoding, span: Span) -> Range
    requires { IsWhole text.now span }
    ensures { result ≡ range_over encoding text.now span }
{
    // From here on it is known that the bytes are those of a text.
    text.as_str();
    positions_fit();
    let (start, end) = text.positions(span.start as usize, span.end as usize, encoding);
    Range::new(start.line, start.column, end.line, end.column).unwrap()
}

/// The ranges over all of a file's declarations, if details are asked for.
pub(crate) fn declaration_ranges(
    maker: &DocumentMaker<'_, '_, '_, '_>,
    facts: &FileFacts,
) -> Result<Vec<Range>, AllocError>
    requires { HasTextFor maker.now facts.now }
    ensures { IfOk result (λ ranges. ranges.items
        ≡ ranges_over maker.now.encoding maker.now.text.now facts.now.details) }
{
    facts_stand_in_text();
    match facts.details() {
        Some(details) => ranges_of(maker, details),
        None => Ok(Vec::new(maker.alloc)),
    }
}

/// The ranges over all of declarations with these details.
fn ranges_of(
    maker: &DocumentMaker<'_, '_, '_, '_>,
    details: &[Detail],
) -> Result<Vec<Range>, AllocError>
    requires { All (HasWhole maker.now) (extents_of (Some details.now)) }
    ensures { IfOk result (λ ranges. ranges.items
        ≡ ranges_over maker.now.encoding maker.now.text.now (Some details.now)) }
{
    let mut ranges = Vec::with_capacity(maker.alloc, details.len())?;
    for detail in details {
        ranges.push(range_over(maker.text, maker.encoding, detail.extent))?;
    }
    Ok(ranges)
}

/// The range around what has these roles and a symbol with this number: around a declaration's definition. The first
/// declaration's symbol has the number `first`.
pub(crate) fn range_around(
    first: usize,
    ranges: &[Range],
    symbol_roles: i32,
    symbol: u32,
) -> Option<Range>
    ensures { result ≡ range_around (record { first = first; ranges = ranges.now }) symbol_roles symbol }
{
    let number = symbol as usize;
    if symbol_roles == DEFINITION && first <= number {
        ranges.get(number - first).copied()
    } else {
        None
    }
}

/// A symbol over a span, by the number of its text.
pub(crate) fn planned_over(
    maker: &DocumentMaker<'_, '_, '_, '_>,
    span: Span,
    symbol: u32,
    symbol_roles: i32,
) -> PlannedOccurrence
    requires { HasPart maker.now span }
    ensures { result ≡ record {
      range = range_over maker.now.encoding maker.now.text.now span;
      symbol = symbol;
      symbol_roles = symbol_roles;
    } }
{
    PlannedOccurrence {
        range: range_over(maker.text, maker.encoding, span),
        symbol,
        symbol_roles,
    }
}

/// The start of a text.
fn start_of_text() -> Range
    ensures { result ≡ start_of_text }
{
    Range::new(0, 0, 0, 0).unwrap()
}

/// Only the file's own occurrence, at its start.
pub(crate) fn own_occurrences(alloc: Global) -> Result<Vec<PlannedOccurrence>, AllocError>
    ensures { IfOk result (λ list. (around : Around) (home : Home) (run : Package) (facts : Facts)
        → 0 < around.first
        → ArePlanned around (own_texts home run facts) list.items (own_occurrence home.id home.path ∷ [])) }
{
    let mut list = Vec::with_capacity(alloc, 1)?;
    list.push(PlannedOccurrence {
        range: start_of_text(),
        symbol: 0,
        symbol_roles: DEFINITION,
    })?;
    Ok(list)
}

/// Whether some file has the path of an import. Such a path is good.
fn has_file(linker: &Linker<'_, '_>, imported: &Imported) -> bool
    requires { HaveGoodPaths linker.now }
    ensures found { result ≡ has_path linker.now imported.now.path }
    ensures good { IsTrue result → IsGoodPath imported.now.path }
{
    linker.has_path(imported.path.as_str())
}

/// The number of the text of a file's symbol. A file that imports itself has its text already.
fn file_number(
    maker: &DocumentMaker<'_, '_, '_, '_>,
    path: &str,
    texts: &mut SymbolTable,
) -> Result<u32, AllocError>
    requires { IsGoodPath path.now }
    ensures grown { OnOk result (Grown texts.old texts.new) }
    ensures number { IfOk result (IsNumberOf texts.new
        (text_of (package_of_path maker.now.package.now.ids path.now) (OfFile path.now))) }
{
    let text = file_text(maker.alloc, maker.package.of_path(path), path)?;
    let number = texts.number_of(FILE, text)?;
    Ok(number)
}

/// Adds the occurrence of an import, over its literals, if some file has its path.
fn add_import(
    list: &mut Vec<PlannedOccurrence>,
    maker: &DocumentMaker<'_, '_, '_, '_>,
    imported: &Imported,
    texts: &mut SymbolTable,
) -> Result<(), AllocError>
    requires part { HasPart maker.now imported.now.span }
    requires paths { HasGoodPaths maker.now }
    ensures grown { OnOk result (Grown texts.old texts.new) }
    ensures added { OnOk result ((around : Around) → AreAdded around texts.new list.old.items list.new.items
        (at_its_import maker.now 0 imported.now)) }
{
    if !has_file(maker.package.linker(), imported) {
        return Ok(());
    }
    let number = file_number(maker, imported.path.as_str(), texts)?;
    list.push(planned_over(maker, imported.span, number, IMPORT))?;
    Ok(())
}

/// Each import of a file that is there, over its literals.
pub(crate) fn import_occurrences(
    maker: &DocumentMaker<'_, '_, '_, '_>,
    imports: &[Imported],
    texts: &mut SymbolTable,
) -> Result<Vec<PlannedOccurrence>, AllocError>
    requires parts { All (λ (imported : Imported). HasPart maker.now imported.span) imports.now }
    requires paths { HasGoodPaths maker.now }
    ensures grown { OnOk result (Grown texts.old texts.new) }
    ensures planned { IfOk result (λ list. (around : Around) → ArePlanned around texts.new list.items (each_from
        (at_its_import maker.now) 0 imports.now)) }
{
    let mut list = Vec::with_capacity(maker.alloc, imports.len())?;
    for imported in imports {
        add_import(&mut list, maker, imported, texts)?;
    }
    Ok(list)
}

/// Each component of the package's name: the package up to it.
pub(crate) fn package_occurrences(
    maker: &DocumentMaker<'_, '_, '_, '_>,
    facts: &FileFacts,
) -> Result<Vec<PlannedOccurrence>, AllocError>
    requires { All (λ (component : Component). HasPart maker.now component.span) facts.now.package_name }
    ensures { IfOk result (λ list. (home : Home)
        → ArePlanned (around_its maker.now facts.now)
        (own_texts home maker.now.package.now.ids.run facts.now) list.items (each_from
        (at_package maker.now.package.now.ids.run maker.now.encoding maker.now.text.now facts.now)
        0 facts.now.package_name)) }
{
    let mut list = Vec::with_capacity(maker.alloc, facts.package_name().len())?;
    for (index, component) in facts.package_name().iter().enumerate() {
        let number = number_at(index + 1)?;
        list.push(planned_over(maker, component.span, number, DEFINITION))?;
    }
    Ok(list)
}

/// Adds the occurrence of a declaration, where it is kept, over its name.
fn add_declaration(
    list: &mut Vec<PlannedOccurrence>,
    maker: &DocumentMaker<'_, '_, '_, '_>,
    facts: &FileFacts,
    index: usize,
    declaration: &Declaration,
) -> Result<(), AllocError>
    requires there { slice_get facts.now.declarations index ≡ Some declaration.now }
    requires part { HasPart maker.now declaration.now.name }
    requires chosen { HasChosenFor maker.now index }
    ensures { OnOk result ((run : Package)
        → AreAdded (around_its maker.now facts.now)
        (own_texts (source_home maker.now) run facts.now) list.old.items list.new.items
        (at_its_declaration maker.now facts.now index declaration.now)) }
{
    let choice = maker.choices.of(maker.source, index);
    if !choice.keep {
        return Ok(());
    }
    let number = declaration_number(facts, index)?;
    list.push(planned_over(maker, declaration.name(), number, DEFINITION))?;
    Ok(())
}

/// Each declaration that is kept, over its name.
pub(crate) fn declaration_occurrences(
    maker: &DocumentMaker<'_, '_, '_, '_>,
    facts: &FileFacts,
) -> Result<Vec<PlannedOccurrence>, AllocError>
    requires parts { All (λ (declared : Declaration). HasPart maker.now declared.name) facts.now.declarations }
    requires chosen { (index : ℕ) → index < length facts.now.declarations
        → HasChosenFor maker.now index }
    ensures { IfOk result (λ list. (run : Package)
        → ArePlanned (around_its maker.now facts.now)
        (own_texts (source_home maker.now) run facts.now) list.items (each_from
        (at_its_declaration maker.now facts.now)
        0 facts.now.declarations)) }
{
    let mut list = Vec::with_capacity(maker.alloc, facts.declarations().len())?;
    for (index, declaration) in facts.declarations().iter().enumerate() {
        add_declaration(&mut list, maker, facts, index, declaration)?;
    }
    Ok(list)
}
