//! What an index lacks.

use crate::fault::FileFault;
use proto_link::FilePlace;

/// What an index lacks of its tree, if faults are skipped: a file that is left out, or an import or a use without a
/// target, which doesn't occur. Each is named as the fault for which the tree would be refused, but needn't be the
/// first; only the gap of an option has a name of its own. A use that occurs is told, too, if its target isn't sure.
///
/// A file is named by its number in the tree.
#[derive(Clone, Copy, Debug, Drop, PartialEq, Eq)]
pub enum Omission {
    /// The number of a file that can't be read, and why.
    File(usize, FileFault),
    /// The places of two declarations, or of a declaration and a component of a package statement, that give one full
    /// name. The file of the second is left out; that of the first is the same, or is kept and comes before it. Of such
    /// pairs it is that with the least second place, and then the least first.
    Duplicate(FilePlace, FilePlace),
    /// An import of a path that no file has that is kept, by its literal's place.
    MissingImport(FilePlace),
    /// A use that names no type, or one that a file that is left out declares, by the place of the whole use.
    Unresolved(FilePlace),
    /// A use of a type that several of the files declare which are seen, by the place of the whole use. It never comes if
    /// no two files may give one name.
    Ambiguous(FilePlace),
    /// An option with a name that names nothing, and should, by the place of the first such name. It comes only if
    /// names in options are linked.
    OptionGap(FilePlace),
    /// A use that names a type, or a name in an option that names a field, but may name another one once a file can be
    /// read: by the place of the whole use or name, and the number of that file, the first of those that the use's file
    /// sees and that can't be read. It occurs, since mostly what it names is right.
    Uncertain(FilePlace, usize),
}
