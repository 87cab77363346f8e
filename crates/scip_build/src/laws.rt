//! Laws: what the definitions say about parsed files and faults, whatever the code does.

ghost use Rattle.scip_build.specs.BuildLaws.{BuiltHasNoFault, OneBuildFault, OneBuilt, OneTold};
ghost use Rattle.scip_build.specs.BuildLaws.{OneBuiltOfChoices, BuiltWhereNothingIsTold, BuiltAlikeIfKept};
ghost use Rattle.scip_build.specs.Kept.{NothingIsToldOfAGoodTree};
ghost use Rattle.scip_build.specs.KeptUses.{KeptResolvesAlike};
ghost use Rattle.scip_build.specs.Parts.{PartsAreBuiltAlike};
ghost use Rattle.scip_build.specs.PlacingLaws.{BuiltIsInOrder};
ghost use Rattle.scip_build.specs.CertainUses.{CertainUsesResolveAlike};
ghost use Rattle.scip_build.specs.Laws.{OneListOfFacts, NoFactsWhereUnreadable, LexedWhereUnparsed, OneFileFault};
ghost use Rattle.scip_build.specs.Laws.{OneBesideAFile};
ghost use Rattle.scip_build.specs.Laws.{OneFirstFaulty, NoParsedFilesWhereFaulty, ParsedFilesHaveOwnPaths, OneLinking};

use index_hooks::Chooses;
use option_link::targets_are_reachable;
use proto_decl::{names_are_identifiers, one_list_of_facts};
use proto_lex::{one_first_fault, one_lexing};
use proto_link::{
    certain_resolves_alike, kept_files_are_clear, nothing_is_left_out_of_good_files,
    one_declaration_a_name, one_omission_list, one_refusal,
};
use proto_options::one_list_of_options;
use proto_parse::{no_fault_where_it_derives, one_syntax_fault, one_tree};
use scip_model::{nothing_is_repeated, one_index, symbols_name_one_entity_in_packages};

/// A file has one list of facts at most.
pub fn one_list_of_facts_a_file()
    ensures { OneListOfFacts }
{
    one_lexing();
    one_tree();
    one_list_of_facts();
}

/// One thing at most is known of a file beside its facts.
pub fn one_beside_a_file()
    ensures { OneBesideAFile }
{
    one_lexing();
    one_tree();
    one_list_of_options();
}

/// A file that has facts can't be unreadable, and one that can't be parsed has a lexing.
pub fn faults_exclude_facts()
    ensures facts { NoFactsWhereUnreadable }
    ensures kinds { LexedWhereUnparsed }
{
    one_lexing();
    one_first_fault();
    no_fault_where_it_derives();
}

/// A file has one fault at most, of lexing or of syntax.
pub fn one_fault_a_file()
    ensures { OneFileFault }
{
    one_lexing();
    one_first_fault();
    one_syntax_fault();
    faults_exclude_facts();
}

/// One of the sources that can't be read is the first.
pub fn one_first_faulty()
    ensures { OneFirstFaulty }
{
    faults_exclude_facts();
}

/// If a source can't be read, the files have no parsed files, whatever is chosen.
pub fn parsed_files_exclude_faults<C: Chooses>(chooser: &C)
    ensures { NoParsedFilesWhereFaulty (C.allows chooser.now) }
{
    faults_exclude_facts();
}

/// Files that were read have paths of their own, as `link` needs it.
pub fn parsed_files_have_own_paths<C: Chooses>(chooser: &C)
    ensures { ParsedFilesHaveOwnPaths (C.allows chooser.now) }
{}

/// Files that were read link as one list of files, whatever was chosen.
pub fn one_linking<C: Chooses, D: Chooses>(chooser: &C, other: &D)
    ensures { OneLinking (C.allows chooser.now) (D.allows other.now) }
{
    one_list_of_facts_a_file();
    faults_exclude_facts();
}

/// A tree that is built has no fault of its files, whatever was chosen.
pub fn built_has_no_fault<C: Chooses, D: Chooses>(chooser: &C, other: &D)
    ensures { BuiltHasNoFault (C.allows chooser.now) (D.allows other.now) }
{
    faults_exclude_facts();
    one_beside_a_file();
    one_linking(chooser, other);
    parsed_files_exclude_faults(chooser);
    parsed_files_exclude_faults(other);
}

/// The files of a tree have one fault at most, whatever was chosen.
pub fn one_build_fault<C: Chooses, D: Chooses>(chooser: &C, other: &D)
    ensures { OneBuildFault (C.allows chooser.now) (D.allows other.now) }
{
    faults_exclude_facts();
    one_beside_a_file();
    one_linking(chooser, other);
    parsed_files_exclude_faults(chooser);
    parsed_files_exclude_faults(other);
    one_first_faulty();
    one_refusal();
    one_fault_a_file();
}

/// Nothing is told of a tree if and only if it wouldn't be refused. Then the same is built, whether faults are
/// refused or skipped.
pub fn nothing_is_left_out_of_a_good_tree<C: Chooses>(chooser: &C)
    ensures told { NothingIsToldOfAGoodTree }
    ensures built { BuiltWhereNothingIsTold (C.allows chooser.now) }
{
    nothing_is_left_out_of_good_files();
}

/// If no file is left out for a name that is given twice, the same is built where several files may give one name.
pub fn built_alike_if_kept<C: Chooses>(chooser: &C)
    ensures { BuiltAlikeIfKept (C.allows chooser.now) }
{}

/// The documents of what is built are in order of path, wherever the settings place them, and no two have one path.
pub fn documents_are_in_order<C: Chooses>(chooser: &C)
    ensures { BuiltIsInOrder (C.allows chooser.now) }
{}

/// Though files are left out, a use of a kept file that names something names what it names in the whole tree; and what
/// it names there it names, if the file that declares that is kept.
pub fn kept_resolves_alike()
    ensures { KeptResolvesAlike }
{}

/// However files that can't be read are mended, a use of a kept source that isn't told as uncertain names in the whole
/// tree what it names, unless a name clashes: another file that is seen gives one that the source declares, or the name
/// of what the use names.
pub fn certain_uses_resolve_alike()
    ensures { CertainUsesResolveAlike }
{
    kept_files_are_clear();
    certain_resolves_alike();
}

/// What is told of a tree hangs on nothing of the settings but the dialect, what is read of a file, and whether several
/// files may give one name; nor on what is chosen. The two choosers may be one.
pub fn one_told<C: Chooses, D: Chooses>(chooser: &C, other: &D)
    ensures { OneTold (C.allows chooser.now) (D.allows other.now) }
{
    one_list_of_facts_a_file();
    one_beside_a_file();
    faults_exclude_facts();
    one_fault_a_file();
    one_omission_list();
}

/// For the same recorded choices and settings, a tree has at most one index and one list of what is told, whatever
/// else may be chosen and whatever the workers. If only one choice may come for what is seen of a declaration, the
/// choices are one, too. If a tree has no fault, this is the same whether faults are refused or skipped. The two
/// choosers may be one.
pub fn one_built<C: Chooses, D: Chooses>(chooser: &C, other: &D)
    ensures of_choices { OneBuiltOfChoices (C.allows chooser.now) (D.allows other.now) }
    ensures one { OneBuilt (C.allows chooser.now) (D.allows other.now) }
{
    one_list_of_facts_a_file();
    one_beside_a_file();
    faults_exclude_facts();
    one_fault_a_file();
    one_omission_list();
    one_index();
}

/// A part of a tree without faults has none, if it has what its sources reach, and the settings are the same. If the
/// choices are, too, its documents are the whole's, and so are its external entries, or the whole has them in a document;
/// and each external entry of the whole is one of the part that has its source.
pub fn parts_are_built_alike<C: Chooses>(chooser: &C)
    ensures { PartsAreBuiltAlike (C.allows chooser.now) }
{
    one_list_of_facts_a_file();
    one_beside_a_file();
    faults_exclude_facts();
    nothing_is_left_out_of_good_files();
    nothing_is_left_out_of_a_good_tree(chooser);
    nothing_is_repeated();
    parsed_files_have_own_paths(chooser);
    one_declaration_a_name();
    names_are_identifiers();
    symbols_name_one_entity_in_packages();
    targets_are_reachable();
}
