//! Laws of what is left out of a tree with faults, and of parts of a tree, each the contract of an empty function.

ghost use Rattle.proto_visibility.specs.Kept.{OneKept, NothingIsLeftOutOfGoodFiles, KeptFilesAreClear};
ghost use Rattle.proto_visibility.specs.Parts.{PartsCanBeLinked};

/// What is kept of files is one list.
pub fn one_kept()
    ensures { OneKept }
{}

/// Nothing is left out if and only if the reachable files have facts and no names clash.
pub fn nothing_is_left_out_of_good_files()
    ensures { NothingIsLeftOutOfGoodFiles }
{}

/// The files that are kept can be linked together.
pub fn kept_files_are_clear()
    ensures { KeptFilesAreClear }
{}

/// A part of files that can be linked can be linked, if it has all that its sources see.
pub fn parts_can_be_linked()
    ensures { PartsCanBeLinked }
{}
