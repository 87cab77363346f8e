//! Laws: what the definitions say about indexes, whatever the code does. Each is the contract of a function that does
//! nothing.

ghost use Rattle.protoscip.specs.DumpLaws.{OneListing, ListedUnlessMemory};
ghost use Rattle.protoscip.specs.FileLaws.{BuiltHasFiles};
ghost use Rattle.protoscip.specs.Headline.{Headline, HeadlineOfTree};
ghost use Rattle.protoscip.specs.IndexLaws.{OneFault, IndexedHasNoFault, OneIndexing};
ghost use Rattle.protoscip.specs.IndexLaws.{OneIndexingOfChoices, OneIndexingHasNoFault};
ghost use Rattle.protoscip.specs.NameLaws.{LawsOfNames};
ghost use Rattle.protoscip.specs.Shards.{PartsMakeTheWhole};
ghost use Rattle.protoscip.specs.UseLaws.{EachOptionNameHasParts, EachUseHasATarget};

use crate::dumping::DefaultChoices;
use index_hooks::Chooses;
use option_link::targets_are_reachable;
use proto_decl::{
    facts_are_filled, names_are_identifiers, prefixes_are_entities, scopes_are_known,
};
use proto_link::one_declaration_a_name;
use scip_build::{
    Settings, built_has_no_fault, documents_are_in_order, one_build_fault, one_built,
    parts_are_built_alike,
};
use scip_join::shards_make_the_whole;
use scip_model::symbols_name_one_entity_in_packages;
use scip_symbol::files_are_without_clash;
use source_tree::{Tree, one_reading};

/// A tree has one fault at most, whatever was chosen.
pub fn one_fault<C: Chooses, D: Chooses>(chooser: &C, other: &D)
    ensures { OneFault (C.allows chooser.now) (D.allows other.now) }
{
    one_build_fault(chooser, other);
    built_has_no_fault(chooser, other);
    built_has_no_fault(other, chooser);
}

/// A tree that is indexed has no fault, whatever was chosen; but with other choices its index may have too many
/// bytes.
pub fn indexed_has_no_fault<C: Chooses, D: Chooses>(chooser: &C, other: &D)
    ensures { IndexedHasNoFault (C.allows chooser.now) (D.allows other.now) }
{
    built_has_no_fault(chooser, other);
}

/// For the same recorded choices and settings, a tree has at most one list of what is told and one index's bytes. If
/// only one choice is allowed for each declaration, the choices are one, too, and an indexed tree has no fault of its
/// own.
pub fn one_indexing<C: Chooses, D: Chooses>(chooser: &C, other: &D)
    ensures of_choices { OneIndexingOfChoices (C.allows chooser.now) (D.allows other.now) }
    ensures one { OneIndexing (C.allows chooser.now) (D.allows other.now) }
    ensures accepted { OneIndexingHasNoFault (C.allows chooser.now) (D.allows other.now) }
{
    one_built(chooser, other);
    indexed_has_no_fault(chooser, other);
}

/// The file numbers that `build` gives, in its faults and in what is told, are those of the tree: so `fault_line`,
/// `fault_text` and `told_text` may be called with them.
pub fn built_has_files<C: Chooses>(chooser: &C)
    ensures { BuiltHasFiles (C.allows chooser.now) }
{}

/// A use that names a type has a target: each of its components names an entity.
pub fn each_use_has_a_target()
    ensures { EachUseHasATarget }
{
    prefixes_are_entities();
}

/// A name in an option that names something has parts: each of its components names an entity.
pub fn each_option_name_has_parts()
    ensures { EachOptionNameHasParts }
{
    prefixes_are_entities();
    facts_are_filled();
}

/// What the headline rests on, whatever was chosen: a full name belongs to one declaration, a symbol to one entity,
/// a use that names a type has a target, and a name in an option that names something has parts, and names it in a file
/// that is reachable.
pub fn laws_of_names()
    ensures { LawsOfNames }
{
    names_are_identifiers();
    scopes_are_known();
    one_declaration_a_name();
    each_use_has_a_target();
    each_option_name_has_parts();
    targets_are_reachable();
    symbols_name_one_entity_in_packages();
    files_are_without_clash();
}

/// The headline, for every tree and all settings. The bytes of a tree's index, which `index_tree` writes and a
/// session answers from, decode to one index only: the one that the grammar of the settings' dialect, the scoping
/// rules and allowed choices give the tree, with its documents where the settings place them. Each component of a use
/// in a source names an entity, so it occurs unless what it names isn't kept; if names in options are linked, so does
/// each component of one that names something.
/// Each occurrence is one of exactly one entity of the tree's files, a declaration's entity is its own, and entities
/// and symbols are one to one. So each query for references or definitions over these bytes answers exactly the
/// occurrences of the entity asked about, or those that define it, each once and in the index's order, and nothing
/// else.
pub fn headline<C: Chooses>(chooser: &C)
    ensures { Headline (C.allows chooser.now) }
{
    laws_of_names();
}

/// The headline, of what is made of a tree by settings: they are good, whatever they are.
pub(crate) fn headline_of_tree<C: Chooses>(chooser: &C, tree: &Tree, settings: &Settings)
    ensures { HeadlineOfTree (C.allows chooser.now) settings.now tree.now }
{
    headline(chooser);
    // From here on it is known that the files are those of a tree.
    tree.file_count();
    settings.package.run();
}

/// A source has one listing at most.
pub fn one_listing()
    ensures { OneListing }
{
    one_reading();
    one_indexing(&DefaultChoices, &DefaultChoices);
}

/// A source that has a listing isn't refused, unless memory runs out.
pub fn listed_unless_memory()
    ensures { ListedUnlessMemory }
{
    one_reading();
    one_indexing(&DefaultChoices, &DefaultChoices);
}

/// If a tree without faults is indexed in parts, its index is the join of theirs, byte for byte, since a join has one
/// spelling.
pub fn parts_make_the_whole<C: Chooses>(chooser: &C)
    ensures { PartsMakeTheWhole (C.allows chooser.now) }
{
    parts_are_built_alike(chooser);
    documents_are_in_order(chooser);
    shards_make_the_whole();
}
