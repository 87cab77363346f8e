//! What is known of linked files, by the laws of the crates below.

ghost use Rattle.proto_decl.specs.Laws.{FactsStandInText};
ghost use Rattle.proto_lex.specs.PositionLaws.{CharactersRise};
ghost use Rattle.proto_visibility.specs.Files.{HaveOrigins};
ghost use Rattle.proto_visibility.specs.declared.clash.Duplicates.TheVariants.{Keep};
ghost use Rattle.proto_visibility.specs.Linked.{HaveClearNames};
ghost use Rattle.proto_link.specs.Laws.{OneTargetAUse};
ghost use Rattle.scip_model.specs.Laws.{NoTies};
ghost use Rattle.scip_model.specs.Packages.{ArePackages};
ghost use Rattle.scip_model.specs.Tables.KnownFacts.{AreApart, AreIdentifiers, InOrder};

use crate::laws::{no_two_occurrences_tie, symbols_name_one_entity_in_packages};
use crate::naming::SymbolPackages;
use proto_decl::{facts_in_order, facts_stand_in_text, names_are_identifiers};
use proto_lex::positions_rise;
use proto_link::{Linker, one_declaration_a_name, one_target_a_use};

/// The places of facts are in order and in the text, a use has one target, and no two occurrences
/// of a document tie.
pub(crate) fn facts_occur_in_order(linker: &Linker<'_, '_>)
    ensures clear { HaveClearNames Keep linker.now }
    ensures origins { HaveOrigins linker.now }
    ensures order { InOrder }
    ensures placed { FactsStandInText }
    ensures untied { NoTies }
    ensures spelled { AreIdentifiers }
    ensures targets { OneTargetAUse }
    ensures characters { CharactersRise }
{
    // From here on it is known that no names of the files clash, and that their facts are those of texts.
    linker.linked();
    facts_in_order();
    facts_stand_in_text();
    no_two_occurrences_tie();
    names_are_identifiers();
    one_target_a_use();
    positions_rise();
}

/// The symbols of linked files are those of one entity each.
pub(crate) fn symbols_stand_apart(named: &SymbolPackages<'_, '_, '_>)
    ensures known { AreApart named.now.files named.now.ids }
    ensures packages { ArePackages named.now.ids }
{
    // From here on it is known that no names of a file clash, and that their facts are those of texts.
    let linker = named.linker();
    linker.linked();
    one_declaration_a_name();
    names_are_identifiers();
    symbols_name_one_entity_in_packages();
    named.run();
}
