//! Which included files count: of one path the first listed, and none whose path a source has.

ghost use Rattle.std.specs.Prelude.{◌≡◌, ℕ, ◌≤◌, List, [], IfOk, length};
ghost use Rattle.std.specs.Vec.{vec_capacity};
ghost use Rattle.source_tree.specs.Files.{paths_of};
ghost use Rattle.source_tree.specs.Marks.{is_taken, has_path, marks_of, marked};

use crate::source::Source;
use std::alloc::{AllocError, Global};
use std::collections::HashSet;

/// For each included file whether it counts, and room for those that do.
#[derive(Drop)]
pub(crate) struct Counting {
    marks: Vec<bool>,
    room: Vec<Source>,
}

impl Counting {
    /// All memory that is needed to tell which included files count.
    pub(crate) fn of(
        alloc: Global,
        sources: &[Source],
        included: &[Source],
    ) -> Result<Counting, AllocError>
        ensures marks { IfOk result (λ counting. counting.marks.items ≡ marks_of (paths_of sources.now) included.now) }
        ensures empty { IfOk result (λ counting. counting.room.items ≡ []) }
        ensures room { IfOk result (λ counting. length included.now ≤ vec_capacity counting.room) }
    {
        let taken = taken_paths(alloc, sources)?;
        let marks = marks_of(alloc, taken, included)?;
        let room = Vec::with_capacity(alloc, included.len())?;
        Ok(Counting { marks, room })
    }

    /// The included files that count, in the order in which they were handed in. Takes no memory.
    pub(crate) fn counted(self, included: Vec<Source>) -> Vec<Source>
        requires empty { self.room.items ≡ [] }
        requires marks { length self.marks.items ≡ length included.items }
        requires room { length included.items ≤ vec_capacity self.room }
        ensures { result.items ≡ marked self.marks.items included.items }
    {
        let Counting { marks, room } = self;
        let mut counted = room;
        for (file, counts) in included.into_iter().zip(marks) {
            if counts {
                counted.push_reserved(file);
            }
        }
        counted
    }
}

/// The paths of the sources.
fn taken_paths<'a>(alloc: Global, sources: &'a [Source]) -> Result<HashSet<&'a str>, AllocError>
    ensures { IfOk result (λ taken. (path : List ℕ) → has_path taken path ≡ is_taken (paths_of sources.now) path) }
{
    let mut taken = HashSet::new(alloc);
    for source in sources {
        taken.insert(source.path())?;
    }
    Ok(taken)
}

/// Whether each file's path is none of those taken, and none of an earlier file's.
fn marks_of<'a>(
    alloc: Global,
    taken: HashSet<&'a str>,
    included: &'a [Source],
) -> Result<Vec<bool>, AllocError>
    ensures { IfOk result (λ marks. (paths : List (List ℕ)) → ((path : List ℕ) → has_path taken.entry path
        ≡ is_taken paths path) → marks.items ≡ marks_of paths included.now) }
{
    let mut taken = taken;
    let mut marks = Vec::with_capacity(alloc, included.len())?;
    for file in included {
        marks.push_reserved(taken.insert(file.path())?);
    }
    Ok(marks)
}
