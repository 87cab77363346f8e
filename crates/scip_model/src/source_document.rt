//! The document of a source.

ghost use Rattle.std.specs.Prelude.{◌≡◌, [], ⊤, Some, IfOk, IfErr, OnOk, MatchOption, map};
ghost use Rattle.std.specs.List.{slice_get};
ghost use Rattle.std.specs.Option.{option_map};
ghost use Rattle.proto_visibility.specs.declared.fault.LinkFault.TheVariants.{Memory};
ghost use Rattle.scip_model.specs.Indexes.{IsAscendingListOf};
ghost use Rattle.scip_model.specs.OccurrenceOrder.{occurrence_cmp};
ghost use Rattle.scip_model.specs.Tables.Plans.{Grown, occurrence_of};
ghost use Rattle.scip_model.specs.Makers.{
  AreItsGaps,
  AreItsOptionGaps,
  AreItsUncertainNames,
  HasChosen,
  HasGoodPaths,
  HasOptions,
  HasResolvedUses,
  HasSourceFacts,
  HasSourcePath,
  HasSourceText,
  HasTextFor,
  IsItsDocument,
  IsItsDocumentWith,
  IsOfSource,
  MayRefuseIts,
  OccursIn,
  around_its,
  source_texts,
};

use crate::document_maker::DocumentMaker;
use crate::document_plan::{DocumentPlan, PlannedDocument, PlannedOccurrence};
use crate::entries::{entry_numbers, package_names};
use crate::known_facts::facts_occur_in_order;
use crate::occurrence_order::merged;
use crate::occurrences::{
    declaration_occurrences, declaration_ranges, import_occurrences, own_occurrences,
    package_occurrences,
};
use crate::option_occurrences::{occurrences_if_asked, with_options};
use crate::option_told::{ToldOfOptions, UncertainPlace};
use crate::symbol_table::SymbolTable;
use crate::symbol_texts::{arounds_in, own_texts};
use crate::use_occurrences::use_occurrences;
use basics::Sequence;
use option_link::OptionLinker;
use proto_decl::FileFacts;
use proto_lex::Span;
use proto_link::{FilePlace, LinkFault};
use scip_records::{Document, records_of};

/// What occurs in the source, which has this path. The places of its uses that name no type are added to
/// `unresolved_uses`, in order. `Memory` is the only fault.
fn occurrences(
    maker: &DocumentMaker<'_, '_, '_, '_>,
    path: &str,
    facts: &FileFacts,
    unresolved_uses: &mut Vec<Span>,
    texts: &mut SymbolTable,
) -> Result<Vec<PlannedOccurrence>, LinkFault>
    requires source { IsOfSource maker.now }
    requires path { HasSourcePath maker.now path.now }
    requires known { HasSourceFacts maker.now facts.now }
    requires empty { unresolved_uses.old.items ≡ [] }
    requires text { HasTextFor maker.now facts.now }
    requires paths { HasGoodPaths maker.now }
    requires choices { HasChosen maker.now }
    requires texts { Grown (source_texts maker.now facts.now) texts.old }
    ensures grown { OnOk result (Grown texts.old texts.new) }
    ensures planned { IfOk result (λ list. IsAscendingListOf occurrence_cmp (OccursIn maker.now)
        (map (occurrence_of (around_its maker.now facts.now) texts.new) list.items)) }
    ensures unresolved_uses { OnOk result (AreItsGaps maker.now unresolved_uses.new.items) }
    ensures refused { IfErr result (λ fault. fault ≡ Memory) }
{
    facts_occur_in_order(maker.package.linker());
    let alloc = maker.alloc;
    let own = own_occurrences(alloc)?;
    let imports = import_occurrences(maker, facts.imports(), texts)?;
    let uses = use_occurrences(maker, facts.uses(), unresolved_uses, texts)?;
    let packages = package_occurrences(maker, facts)?;
    let names = declaration_occurrences(maker, facts)?;
    let with_imports = merged(alloc, texts, own, imports)?;
    let with_packages = merged(alloc, texts, with_imports, packages)?;
    let with_names = merged(alloc, texts, with_packages, names)?;
    let list = merged(alloc, texts, with_names, uses)?;
    Ok(list)
}

/// The document of a source, and the places of its uses that name no type, in order.
#[derive(Debug, Drop)]
pub struct SourceDocument {
    /// The document.
    pub document: Document,
    /// The place of each use that names no type, in order; none if each names one.
    pub unresolved: Sequence<Span>,
}

/// The plan of the document of a source with what its options name, and what is told of these.
#[derive(Drop)]
pub struct PlannedWithOptions<'a, 't> {
    /// The plan, and the places of the source's uses that name no type.
    pub planned: PlannedDocument<'a, 't>,
    /// The place of each option's first name that names nothing, and should: option by option.
    pub option_gaps: Sequence<Span>,
    /// The place of each option's first name that may name another field once a file can be read.
    pub uncertain_names: Sequence<UncertainPlace>,
}

/// The plan of the document of a source of linked files, which has this text, by what was chosen for each
/// declaration: what occurs in it and its symbol entries, in order. A use that names no type doesn't
/// occur; its place is told beside the document. `Memory` is the only fault. What is asked of the maker's parts is
/// what [`document`](crate::document) asks.
pub fn plan_document<'a, 'f>(
    maker: &DocumentMaker<'a, '_, 'f, '_>,
) -> Result<PlannedDocument<'a, 'f>, LinkFault>
    requires source { IsOfSource maker.now }
    requires text { HasSourceText maker.now }
    requires paths { HasGoodPaths maker.now }
    requires choices { HasChosen maker.now }
    ensures document { IfOk result (λ made. IsItsDocument maker.now made.document) }
    ensures unresolved_uses { IfOk result (λ made. AreItsGaps maker.now made.unresolved) }
    ensures refused { IfErr result (λ fault. fault ≡ Memory) }
{
    let mut told = ToldOfOptions::new(maker.alloc);
    plan_asked(maker, None, &mut told)
}

/// The same with what the names in its options name, and the places of the gaps of its options: of each option that has
/// one the first name that names nothing, and should. Such a name doesn't occur. The first name of an option that may
/// name another field once a file can be read does, and its place is told.
///
/// `options` has to be of the same files.
pub fn plan_with_options<'a, 'f>(
    maker: &DocumentMaker<'a, '_, 'f, '_>,
    options: &OptionLinker<'_, '_, '_>,
) -> Result<PlannedWithOptions<'a, 'f>, LinkFault>
    requires source { IsOfSource maker.now }
    requires text { HasSourceText maker.now }
    requires paths { HasGoodPaths maker.now }
    requires choices { HasChosen maker.now }
    requires options { HasOptions maker.now options.now }
    ensures document { IfOk result (λ made. IsItsDocumentWith maker.now (Some options.now.known)
        made.planned.document) }
    ensures unresolved_uses { IfOk result (λ made. AreItsGaps maker.now made.planned.unresolved) }
    ensures option_gaps { IfOk result (λ made. AreItsOptionGaps maker.now (Some options.now.known) made.option_gaps) }
    ensures uncertain_names { IfOk result (λ made. AreItsUncertainNames maker.now (Some options.now.known)
        made.uncertain_names) }
    ensures refused { IfErr result (λ fault. fault ≡ Memory) }
{
    let mut told = ToldOfOptions::new(maker.alloc);
    let planned = plan_asked(maker, Some(options), &mut told)?;
    Ok(PlannedWithOptions {
        planned,
        option_gaps: Sequence::from_vec(told.gaps),
        uncertain_names: Sequence::from_vec(told.uncertain),
    })
}

/// The plan of the document of a source, with what the names in its options name if it is asked for. What is
/// told of its options is added to `told`.
fn plan_asked<'a, 'f>(
    maker: &DocumentMaker<'a, '_, 'f, '_>,
    options: Option<&OptionLinker<'_, '_, '_>>,
    told: &mut ToldOfOptions,
) -> Result<PlannedDocument<'a, 'f>, LinkFault>
    requires source { IsOfSource maker.now }
    requires text { HasSourceText maker.now }
    requires paths { HasGoodPaths maker.now }
    requires choices { HasChosen maker.now }
    requires options { MatchOption options ⊤ (λ linked. HasOptions maker.now linked.now) }
    requires empty { told.old.gaps.items ≡ [] }
    requires certain { told.old.uncertain.items ≡ [] }
    ensures document { IfOk result (λ made.
        IsItsDocumentWith maker.now (option_map (λ linked. linked.now.known) options.entry) made.document) }
    ensures unresolved_uses { IfOk result (λ made. AreItsGaps maker.now made.unresolved) }
    ensures option_gaps { OnOk result
        (AreItsOptionGaps maker.now (option_map (λ linked. linked.now.known) options.entry) told.new.gaps.items) }
    ensures uncertain_names { OnOk result (AreItsUncertainNames maker.now
        (option_map (λ linked. linked.now.known) options.entry) told.new.uncertain.items) }
    ensures refused { IfErr result (λ fault. fault ≡ Memory) }
{
    // From here on it is known that no names of the files clash, and that their facts are those of texts.
    let linker = maker.package.linker();
    linker.linked();
    let alloc = maker.alloc;
    let facts = linker.facts_of(maker.source).unwrap();
    let path = linker.path_of(maker.source);
    let home = maker.package.home_of(maker.source);
    let own = own_texts(alloc, &home, maker.package.run(), facts)?;
    let mut texts = SymbolTable::new(alloc, own);
    let of_options = occurrences_if_asked(maker, options, told, &mut texts)?;
    let mut unresolved = Vec::new(alloc);
    let besides = occurrences(maker, path, facts, &mut unresolved, &mut texts)?;
    let occurrences = with_options(alloc, &texts, besides, of_options)?;
    let packages = package_names(alloc, facts.package_name())?;
    let arounds = arounds_in(alloc, &home, facts)?;
    let ranges = declaration_ranges(maker, facts)?;
    let entries = entry_numbers(maker, path, &texts, facts)?;
    let document = DocumentPlan {
        path,
        facts,
        choices: maker.choices.of_file(maker.source),
        packages,
        arounds,
        texts,
        occurrences,
        ranges,
        entries,
        language: "Protobuf",
        encoding: maker.encoding,
    };
    Ok(PlannedDocument {
        document,
        unresolved: Sequence::from_vec(unresolved),
    })
}

/// The document of a source of linked files, which has this text, by what was chosen for each
/// declaration: what occurs in it and its symbol entries, in order. A use that names no type doesn't
/// occur; its place is told beside the document. `Memory` is the only fault. What is asked of the maker's parts is
/// what [`document`](crate::document) asks.
pub fn document_and_unresolved(
    maker: &DocumentMaker<'_, '_, '_, '_>,
) -> Result<SourceDocument, LinkFault>
    requires source { IsOfSource maker.now }
    requires text { HasSourceText maker.now }
    requires paths { HasGoodPaths maker.now }
    requires choices { HasChosen maker.now }
    ensures document { IfOk result (λ made. IsItsDocument maker.now made.document) }
    ensures unresolved_uses { IfOk result (λ made. AreItsGaps maker.now made.unresolved) }
    ensures refused { IfErr result (λ fault. fault ≡ Memory) }
{
    let planned = plan_document(maker)?;
    let (plan, unresolved) = planned.into_parts();
    let document = records_of(maker.alloc, &plan)?;
    Ok(SourceDocument {
        document,
        unresolved,
    })
}

/// The first of some spans.
fn first_of(spans: &[Span]) -> Option<Span>
    ensures { result ≡ slice_get spans.now 0 }
{
    spans.get(0).copied()
}

/// The document of a source, where each use names a type. `Unresolved` at the first that doesn't, kept
/// or not: there is a document only where all do. `Memory` comes before it. What is asked of the maker's parts is what
/// [`document`](crate::document) asks.
pub fn make_document(maker: &DocumentMaker<'_, '_, '_, '_>) -> Result<Document, LinkFault>
    requires source { IsOfSource maker.now }
    requires text { HasSourceText maker.now }
    requires paths { HasGoodPaths maker.now }
    requires choices { HasChosen maker.now }
    ensures document { IfOk result (IsItsDocument maker.now) }
    ensures resolved { IfOk result (λ _. HasResolvedUses maker.now) }
    ensures refused { IfErr result (MayRefuseIts maker.now) }
{
    let SourceDocument {
        document,
        unresolved,
    } = document_and_unresolved(maker)?;
    match first_of(unresolved.as_slice()) {
        None => Ok(document),
        Some(span) => Err(LinkFault::Unresolved(FilePlace {
            file: maker.source,
            span,
        })),
    }
}
