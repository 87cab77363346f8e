//! The documents of sources, what they say of included files, and the index that they make.
#![tactic(auto)]

// What documents are made from.
mod document_maker;
mod known_facts;
mod naming;
mod packages;
mod repeated;

// The document of a source: its plan, with its parts, and how it is made; `occurrences` merges its lists.
mod document_plan;
mod source_document;

// Its occurrences, in order.
mod known_parts;
mod occurrence_order;
mod occurrences;
mod option_occurrences;
mod option_parts;
mod option_told;
mod targets;
mod use_occurrences;

// Its entries.
mod entries;
mod entry_order;

// The texts of symbols, each kept once.
mod own_symbols;
mod symbol_table;
mod symbol_texts;

// Entries of what is outside, and a whole index.
mod external_options;
mod external_symbols;
mod one_package;
mod pieces;

// The laws.
mod laws;

pub use document_maker::{Choices, DocumentMaker};
pub use document_plan::{DocumentPlan, PlannedDocument};
pub use external_options::externals_with_options;
pub use external_symbols::externals_in_packages;
pub use laws::{
    no_two_occurrences_tie, nothing_is_repeated, one_document_a_source, one_index,
    one_merge_refusal, one_merged_list, parts_document_alike, symbols_meet,
    symbols_name_one_entity_in_packages,
};
pub use naming::SymbolPackages;
pub use one_package::{document, externals};
pub use option_told::UncertainPlace;
pub use packages::{FilePackages, RootPackage};
pub use pieces::{MergeFault, Unmerged, merge};
pub use scip_records::{
    BoxedDetails, Details, Document, Index, Metadata, Occurrence, Range, Signature,
    SymbolInformation, ToolInfo,
};
pub use source_document::{
    PlannedWithOptions, SourceDocument, document_and_unresolved, make_document, plan_document,
    plan_with_options,
};
pub use streams::{Failed, Feed, Sink, Std};
/// What is known of a symbol.
pub type Info = SymbolInformation;
