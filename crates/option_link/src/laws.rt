//! The laws.

ghost use Rattle.option_link.specs.Laws as laws;
ghost use Rattle.option_link.specs.Certain.{CertainOptionNamesAlike};
ghost use Rattle.option_link.specs.Parts.{PartsNameAlike};

use proto_decl::{facts_are_filled, facts_in_order, prefixes_are_entities, scopes_are_known};

/// A name in an option is looked up in one thing at most.
pub fn one_context_a_name()
    ensures { laws.OneContextAName }
{
    facts_in_order();
    facts_are_filled();
}

/// A name in an option has one target at most.
pub fn one_target_a_name()
    ensures { laws.OneTargetAName }
{
    facts_in_order();
    facts_are_filled();
}

/// An option has one gap at most.
pub fn one_gap_an_option()
    ensures { laws.OneGapAnOption }
{}

/// An option has one uncertain name at most, behind one file.
pub fn one_uncertain_name_an_option()
    ensures { laws.OneUncertainNameAnOption }
{}

/// What an option of a source names is in a reachable file, where names in its options are linked.
pub fn targets_are_reachable()
    ensures { laws.TargetsAreReachable }
{}

/// Where no names clash, plain names in a source's options are looked up in the message that its imports lead to.
pub fn each_source_has_its_options_message()
    ensures { laws.EachSourceHasItsOptionsMessage }
{}

/// A plain name names the field of that name that its message declares.
pub fn each_field_is_named()
    ensures { laws.EachFieldIsNamed }
{}

/// An option of a source names in a part of files what it names in the whole, and has its gap there, if the part has
/// what its sources reach.
pub fn parts_name_alike()
    ensures { PartsNameAlike }
{}

/// If files without facts are mended, a name in an option names what it named, unless it, or one in front of it, is in
/// doubt, a name clashes, other files have the messages of options, a type on the way is another one, or another field
/// there is an item of a message set.
pub fn certain_option_names_alike()
    ensures { CertainOptionNamesAlike }
{
    facts_are_filled();
    prefixes_are_entities();
    scopes_are_known();
}
