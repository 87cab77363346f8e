//! The symbol entries of the document of a source, and one of a declaration, with the texts that document it.

ghost use Rattle.std.specs.Prelude.{ℕ, ◌≡◌, ◌+◌, ◌<◌, ◌≤◌, ◌∷◌, [], ◌++◌, IfOk, OnOk, Contains, length, map};
ghost use Rattle.std.specs.Prelude.{if◌then◌else◌, None, Some, MatchOption};
ghost use Rattle.std.specs.List.{range_with_len};
ghost use Rattle.proto_decl.specs.Names.{dotted, package_of};
ghost use Rattle.proto_decl.specs.Laws.{component_names};
ghost use Rattle.scip_model.specs.Named.{Home};
ghost use Rattle.scip_records.specs.Details.{details_if_any};
ghost use Rattle.scip_records.specs.declared.records.SymbolInformation.{SymbolInformation};
ghost use Rattle.scip_model.specs.Detailed.{detail_at, details_shown, kind_number};
ghost use Rattle.scip_model.specs.Entries.{declaration_entry, documentation_of};
ghost use Rattle.scip_model.specs.Tables.EntryLists.{kept_entries, package_names, AreNumbered};
ghost use Rattle.scip_model.specs.Tables.OwnTexts.{entry_with};
ghost use Rattle.scip_model.specs.Tables.Plans.{Grown, entry_of};
ghost use Rattle.scip_model.specs.Indexes.{info_cmp, IsAscendingListOf};
ghost use Rattle.scip_model.specs.Makers.{HasChosen, HasChosenFor, HasGoodPaths, HasSourceFacts, HasSourcePath};
ghost use Rattle.scip_model.specs.Makers.{IsItsEntry, IsOfSource, choices_of, source_arounds, source_texts};

use crate::document_maker::DocumentMaker;
use crate::entry_order::{compare_texts, put_near};
use crate::known_facts::symbols_stand_apart;
use crate::naming::Home;
use crate::symbol_table::{SymbolTable, declaration_number, number_at};
use crate::symbol_texts::{declaration_text, text_if_asked};
use basics::OwnedText;
use index_hooks::{Choice, DocChoice};
use proto_decl::{Component, Declaration, DeclarationKind, Detail, FileFacts};
use scip_records::{
    DetailsRef, InformationRef, SignatureRef, SymbolInformation, SymbolRef, TextsRef,
};
use scip_symbol::PackageId;
use std::alloc::{AllocError, Global};
use std::cmp::Ordering;

/// The components joined by dots.
fn joined(alloc: Global, components: &[Component]) -> Result<OwnedText, AllocError>
    ensures { IfOk result (λ name. name ≡ dotted (component_names components.now)) }
{
    match components {
        [] => Ok(OwnedText::new(alloc)),
        [first, others @ ..] => joined_behind(alloc, first, others),
    }
}

/// A package's name: its components, with dots between them.
fn joined_behind(
    alloc: Global,
    first: &Component,
    others: &[Component],
) -> Result<OwnedText, AllocError>
    ensures { IfOk result (λ name. name ≡ dotted (component_names (first.now ∷ others.now))) }
{
    let mut name = String::from_str(alloc, first.name.as_str())?;
    for component in others {
        name.push_str(".")?;
        name.push_str(component.name.as_str())?;
    }
    Ok(OwnedText::from_string(name))
}

/// The full name of the package that the first components make, so many.
fn package_name(
    alloc: Global,
    components: &[Component],
    count: usize,
) -> Result<OwnedText, AllocError>
    requires { count ≤ length components.now }
    ensures { IfOk result (λ name. name ≡ package_of components.now count) }
{
    let (front, _) = components.split_at(count);
    joined(alloc, front)
}

/// The full names of a file's packages: of the first component, the first two, and so on.
pub(crate) fn package_names(
    alloc: Global,
    components: &[Component],
) -> Result<Vec<OwnedText>, AllocError>
    ensures { IfOk result (λ names. names.items ≡ package_names components.now) }
{
    let mut names = Vec::with_capacity(alloc, components.len())?;
    for index in 0..components.len() {
        let name = package_name(alloc, components, index + 1)?;
        names.push(name)?;
    }
    Ok(names)
}

/// What is declared (`scip.proto`, `SymbolInformation.Kind`).
fn kind_number(kind: DeclarationKind) -> i32
    ensures { result ≡ kind_number kind }
{
    match kind {
        DeclarationKind::Message => 28,
        DeclarationKind::Enum => 11,
        DeclarationKind::Service => 21,
        DeclarationKind::Field => 15,
        DeclarationKind::Oneof => 59,
        DeclarationKind::Value => 12,
        DeclarationKind::Method => 26,
    }
}

/// The detail of the declaration with an index, if details are asked for.
pub(crate) fn detail_at<'a>(facts: &'a FileFacts<'_>, index: usize) -> Option<&'a Detail>
    ensures { MatchOption result (detail_at facts.now index ≡ None)
        (λ detail. detail_at facts.now index ≡ Some detail.now) }
{
    match facts.details() {
        Some(details) => details.get(index),
        None => None,
    }
}

/// The details of a declaration, which is in what has this symbol.
pub(crate) fn details_shown<'a>(
    declaration: &Declaration,
    detail: &'a Detail,
    around: &'a str,
) -> DetailsRef<'a>
    ensures { result ≡ details_shown declaration.now (Some detail.now) around.now }
{
    DetailsRef {
        kind: kind_number(declaration.kind()),
        signature: SignatureRef {
            language: "Protobuf",
            text: detail.signature.as_str(),
        },
        enclosing_symbol: SymbolRef::whole(around),
    }
}

/// Those of the declaration with an index, if they are asked for.
fn details_at<'a>(
    facts: &'a FileFacts<'_>,
    declaration: &Declaration,
    index: usize,
    around: &'a str,
) -> Option<DetailsRef<'a>>
    ensures { details_if_any result ≡ details_shown declaration.now (detail_at facts.now index) around.now }
{
    match detail_at(facts, index) {
        Some(detail) => Some(details_shown(declaration, detail, around)),
        None => None,
    }
}

/// The entry of a declaration whose symbol has this text, with these details.
fn ref_entry<'a>(
    symbol: SymbolRef<'a>,
    declaration: &'a Declaration,
    details: Option<DetailsRef<'a>>,
    choice: Choice,
) -> InformationRef<'a>
    ensures { result ≡ entry_with symbol.entry declaration.now (details_if_any details.entry) choice }
{
    InformationRef {
        symbol,
        documentation: documentation_of(choice.doc, declaration),
        display_name: declaration.simple_name(),
        details,
    }
}

/// That of the declaration with an index, with the texts that were chosen.
pub(crate) fn declaration_entry(
    alloc: Global,
    home: &Home<'_>,
    facts: &FileFacts,
    declaration: &Declaration,
    index: usize,
    choice: Choice,
) -> Result<SymbolInformation, AllocError>
    requires { Contains facts.now.declarations declaration.now }
    ensures { IfOk result (λ entry. entry
        ≡ declaration_entry home.now facts.now declaration.now (detail_at facts.now index) choice) }
{
    let symbol = declaration_text(alloc, home, facts, declaration)?;
    let around = text_if_asked(alloc, home, facts, declaration)?;
    let details = details_at(facts, declaration, index, around.as_str());
    let entry = ref_entry(
        SymbolRef::whole(symbol.as_str()),
        declaration,
        details,
        choice,
    );
    entry.to_record(alloc)
}

/// The numbers of a file's own text and those of its packages, with room for those of its declarations.
fn first_numbers(alloc: Global, facts: &FileFacts) -> Result<Vec<u32>, AllocError>
    ensures { IfOk result (λ numbers. (entry : ℕ → SymbolInformation)
        → map entry numbers.items ≡ map entry (range_with_len 0 (1 + length facts.now.package_name))) }
{
    let first = 1 + facts.package_name().len();
    let mut numbers = Vec::with_capacity(alloc, first + facts.declarations().len())?;
    for index in 0..first {
        let number = number_at(index)?;
        numbers.push(number)?;
    }
    Ok(numbers)
}

/// Appends a number that is kept.
fn push_if_kept(numbers: &mut Vec<u32>, number: u32, keep: bool) -> Result<(), AllocError>
    ensures { OnOk result (numbers.new.items ≡ numbers.old.items ++ (if keep then number ∷ [] else [])) }
{
    if keep {
        numbers.push(number)?;
    }
    Ok(())
}

/// Appends the numbers of the source's declarations that are kept.
fn push_declarations(
    numbers: &mut Vec<u32>,
    maker: &DocumentMaker<'_, '_, '_, '_>,
    facts: &FileFacts,
) -> Result<(), AllocError>
    requires { (index : ℕ) → index < length facts.now.declarations
        → HasChosenFor maker.now index }
    ensures { OnOk result ((home : Home) (entry : ℕ → SymbolInformation)
        → AreNumbered home facts.now (choices_of maker.now) entry
        → map entry numbers.new.items ≡ map entry numbers.old.items
        ++ kept_entries home facts.now 0 facts.now.declarations (choices_of maker.now)) }
{
    for index in 0..facts.declarations().len() {
        let choice = maker.choices.of(maker.source, index);
        let number = declaration_number(facts, index)?;
        push_if_kept(numbers, number, choice.keep)?;
    }
    Ok(())
}

/// By symbol.
pub(crate) fn compare_symbols(a: &SymbolInformation, b: &SymbolInformation) -> Ordering
    ensures { result ≡ info_cmp a.now b.now }
{
    a.symbol.as_str().cmp(b.symbol.as_str())
}

/// The numbers of the entries of the source, by symbol: the texts begin with those of what the source has itself.
pub(crate) fn entry_numbers(
    maker: &DocumentMaker<'_, '_, '_, '_>,
    path: &str,
    texts: &SymbolTable,
    facts: &FileFacts,
) -> Result<Vec<u32>, AllocError>
    requires source { IsOfSource maker.now }
    requires path { HasSourcePath maker.now path.now }
    requires known { HasSourceFacts maker.now facts.now }
    requires paths { HasGoodPaths maker.now }
    requires choices { HasChosen maker.now }
    requires texts { Grown (source_texts maker.now facts.now) texts.now }
    ensures { IfOk result (λ numbers. IsAscendingListOf info_cmp
        (IsItsEntry maker.now)
        (map (entry_of texts.now path.now (package_names facts.now.package_name) facts.now
        (choices_of maker.now) (source_arounds maker.now facts.now)) numbers.items)) }
{
    symbols_stand_apart(maker.package);
    let mut numbers = first_numbers(maker.alloc, facts)?;
    push_declarations(&mut numbers, maker, facts)?;
    put_near(maker.alloc, &mut numbers, texts, facts)?;
    numbers.sort_unstable_by(|a, b| compare_texts(texts, *a, *b));
    Ok(numbers)
}

/// Those chosen of a declaration's texts, without empty ones.
pub(crate) fn documentation_of<'a>(choice: DocChoice, declaration: &'a Declaration) -> TextsRef<'a>
    ensures { result ≡ documentation_of choice declaration.now }
{
    let leading = declaration.leading();
    let trailing = declaration.trailing();
    match choice {
        DocChoice::Pass => TextsRef::of_list(&[]),
        DocChoice::Nothing => TextsRef::of_list(&[]),
        DocChoice::Leading => TextsRef::of_two(leading, ""),
        DocChoice::Trailing => TextsRef::of_two(trailing, ""),
        DocChoice::Both => TextsRef::of_two(leading, trailing),
    }
}
