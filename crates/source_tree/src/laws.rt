//! Laws about trees, each the contract of an empty function.

ghost use Rattle.source_tree.specs.Laws.{OneTree, OneSortingByPath, RefusalsExcludeEachOther, TreesAreNotRefused};
ghost use Rattle.source_tree.specs.MendingLaws.{OtherBytesAreInComments, Utf8IsReadAsItIs};
ghost use Rattle.source_tree.specs.MendingLaws.{OneReading, ReadsAsMany};

use proto_lex::one_first_fault;

/// Sources and included files have one tree at most.
pub fn one_tree()
    ensures { OneTree }
{}

/// Files are sorted by path in one way: those with one path keep their order.
pub fn one_sorting_by_path()
    ensures { OneSortingByPath }
{}

/// Two faults of the same files are one, apart from lack of memory.
pub fn refusals_exclude_each_other()
    ensures { RefusalsExcludeEachOther }
{}

/// Files that have a tree are refused only for lack of memory.
pub fn trees_are_not_refused()
    ensures { TreesAreNotRefused }
{}

/// What is read of bytes, if it is UTF-8 and lexes, differs from them in comments alone. Of bytes that are UTF-8 just
/// these are read.
pub fn other_bytes_are_in_comments()
    ensures others { OtherBytesAreInComments }
    ensures same { Utf8IsReadAsItIs }
{}

/// Of bytes one text is read, which is as long.
pub fn one_reading()
    ensures one { OneReading }
    ensures long { ReadsAsMany }
{
    one_first_fault();
}
