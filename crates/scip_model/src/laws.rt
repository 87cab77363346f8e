//! Laws of documents and indexes, each the contract of an empty function.

ghost use Rattle.scip_model.specs.Laws.{NoTies, OneDocument, OneListOfExternals, OneIndex};
ghost use Rattle.scip_model.specs.Laws.{NothingIsRepeated, SymbolsNameOne, SymbolsMeet};
ghost use Rattle.scip_model.specs.Parts.{PartsDocumentAlike};
ghost use Rattle.scip_model.specs.Pieces.{OneMergeRefusal, OneMergedList};

use proto_decl::{facts_in_order, facts_stand_apart, facts_stand_in_text};
use proto_lex::positions_rise;
use scip_symbol::{symbols_have_spellings, symbols_name_one_entity, text_spells_one_symbol};

/// Pieces are refused for one reason, unless memory is refused.
pub fn one_merge_refusal()
    ensures { OneMergeRefusal }
{}

/// Pieces that are put together make one list.
pub fn one_merged_list()
    ensures { OneMergedList }
{}

/// A source has one document at most, by its text and what was chosen.
pub fn one_document_a_source()
    ensures { OneDocument }
{}

/// Files have one list of external entries and one index at most, by what was chosen.
pub fn one_index()
    ensures externals { OneListOfExternals }
    ensures indexes { OneIndex }
{}

/// No two occurrences of a document tie in the order of its list: of two with one range and one symbol
/// the roles and the ranges around are the same too.
pub fn no_two_occurrences_tie()
    ensures { NoTies }
{
    facts_in_order();
    facts_stand_apart();
    facts_stand_in_text();
    positions_rise();
}

/// In facts without a clash, entities whose symbols have one text are one entity, whatever packages the two belong
/// to.
pub fn symbols_name_one_entity_in_packages()
    ensures { SymbolsNameOne }
{
    symbols_name_one_entity();
    symbols_have_spellings();
    text_spells_one_symbol();
}

/// If no names of files clash, nothing is repeated, so documents and entries are the same whether several files may
/// give one name or not.
pub fn nothing_is_repeated()
    ensures { NothingIsRepeated }
{}

/// A file that two trees have, with one path, the same declarations and one package, has one symbol in both, and so
/// has each of its declarations: where it is defined in the one, where the other names it, and in the entry that the
/// other has for it. The file's number in each tree doesn't matter.
pub fn symbols_meet()
    ensures { SymbolsMeet }
{}

/// What is made of a part of files is what is made of the whole, if the part has all that its sources see.
pub fn parts_document_alike()
    ensures { PartsDocumentAlike }
{}
