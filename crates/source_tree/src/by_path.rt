//! Files sorted by path.

ghost use Rattle.std.specs.Prelude.{◌≡◌, ℕ, ◌<◌, OnOk, OnErr, MatchOption, IsPermutation};
ghost use Rattle.std.specs.List.Sorted.{IsSorted};
ghost use Rattle.source_tree.specs.Files.{IsByPath, RepeatsAPath, path_cmp};
ghost use Rattle.source_tree.specs.Refusals.{IsFirstRepeat};

use crate::source::Source;
use std::alloc::AllocError;

/// Sorts files by path; those with one path keep their order. If memory was refused, all stay where they were.
pub(crate) fn sort_by_path(files: &mut Vec<Source>) -> Result<(), AllocError>
    ensures ok { OnOk result (IsByPath files.old.items files.new.items) }
    ensures err { OnErr result (files.new.items ≡ files.old.items) }
{
    files.sort_by(|a, b| a.compare_paths(b))?;
    Ok(())
}

/// Sorts files by path, in any order of those with one path. Takes no memory.
pub(crate) fn sort_distinct_by_path(files: &mut Vec<Source>)
    ensures complete { IsPermutation files.old.items files.new.items }
    ensures ascends { IsSorted path_cmp files.new.items }
{
    files.sort_unstable_by(|a, b| a.compare_paths(b));
}

/// The first file that has the path of an earlier one, of files sorted by path.
pub(crate) fn first_repeat(files: &[Source]) -> Option<usize>
    requires { IsSorted path_cmp files.now }
    ensures { MatchOption result ((number : ℕ) → ¬ (RepeatsAPath files.now number)) (IsFirstRepeat files.now) }
{
    for number in 1..files.len() {
        if files[number - 1].has_path_of(&files[number]) {
            return Some(number);
        }
    }
    None
}
