//! Laws about linking, each the contract of an empty function.

ghost use Rattle.proto_link.specs.Laws.{
  OneNameAUse,
  OneBrokenFile,
  OneDeclarationAName,
  NoPackageIsDeclared,
  OneEntityAName,
  EachNameHasAnOwner,
  NoUseIsAmbiguous,
  OneTargetAUse,
  OneClash,
  OneAbsence,
  OneRefusal,
  OneOmissionList,
};
ghost use Rattle.proto_link.specs.Mended.{MendedResolvesAlike};
ghost use Rattle.proto_link.specs.Parts.{PartsResolveAlike};
ghost use Rattle.proto_link.specs.Certain.{CertainResolvesAlike, UncertainMayChange};

use proto_decl::{facts_are_filled, facts_in_order, prefixes_are_entities, scopes_are_known};

/// A use names one type at most.
pub fn one_name_a_use()
    ensures { OneNameAUse }
{}

/// Of the reachable files that have no facts one is the least.
pub fn one_broken_file()
    ensures { OneBrokenFile }
{}

/// In files without a clash a full name is that of one declaration at most, or names only packages.
pub fn one_declaration_a_name()
    ensures declarations { OneDeclarationAName }
    ensures packages { NoPackageIsDeclared }
{
    facts_in_order();
}

/// In files without a clash of which none is left out, the type that a use in a source resolves to is declared by one file
/// alone of those that are seen.
pub fn each_name_has_an_owner()
    ensures { EachNameHasAnOwner }
{}

/// In files that are one namespace, without a clash, no use in a source is ambiguous.
pub fn no_use_is_ambiguous()
    ensures { NoUseIsAmbiguous }
{}

/// In files without a clash a use in a source has one target at most, and a full name names one entity at most of a file
/// that is reachable.
pub fn one_target_a_use()
    ensures entities { OneEntityAName }
    ensures targets { OneTargetAUse }
{
    facts_in_order();
}

/// Files have one first clash of names at most, and one first import of a file that isn't there. So
/// `Linker::new` refuses files for one reason, unless memory is refused.
pub fn one_refusal()
    ensures clash { OneClash }
    ensures absence { OneAbsence }
    ensures refusal { OneRefusal }
{
    facts_in_order();
}

/// What is left out of files with faults is one list, each file for one reason.
pub fn one_omission_list()
    ensures { OneOmissionList }
{
    facts_in_order();
}

/// If files without facts are mended, a use names what it named, unless a name that matters for it is new.
pub fn mended_resolves_alike()
    ensures { MendedResolvesAlike }
{}

/// If files without facts are mended, a use of a source that isn't uncertain names what it named, unless a name clashes:
/// another file that is seen gives one that the source declares, or the name of what it names.
pub fn certain_resolves_alike()
    ensures { CertainResolvesAlike }
{
    facts_are_filled();
    prefixes_are_entities();
    scopes_are_known();
}

/// For each use that is uncertain there are facts of the file behind with which it doesn't name what it named. Whether
/// some text has these facts isn't said.
pub fn uncertain_may_change()
    ensures { UncertainMayChange }
{
    scopes_are_known();
}

/// A use of a file names in a part of files what it names in the whole, if all that the file sees is of the part.
pub fn parts_resolve_alike()
    ensures { PartsResolveAlike }
{}
