//! Why a tree has no index.

use proto_lex::LexFault;
use proto_link::FilePlace;
use proto_parse::SyntaxFault;
use std::alloc::AllocError;
use thiserror::Error;

/// Why a file can't be read. `Unread` is a file that its tree has without what it holds. `Lex` comes before `Syntax`: a
/// file is lexed whole before it is parsed.
///
/// None holds its `Memory`: lack of memory is no fault of a file.
#[derive(Clone, Copy, Debug, Drop, PartialEq, Eq, Error)]
pub enum FileFault {
    /// Nothing is known of what it holds, since it couldn't be read when its tree was made.
    #[error("it can't be read")]
    Unread,
    /// Its bytes are no text, or the text has no lexing.
    #[error(transparent)]
    Lex(LexFault),
    /// The tokens of its text derive no tree.
    #[error(transparent)]
    Syntax(SyntaxFault),
}

/// Why a tree has no index. The first of those that hold is answered, in this order; but `Spawn` and
/// `Memory` also come again, before what the same step would answer.
///
/// A file is named by its number in the tree.
#[derive(Clone, Copy, Debug, Drop, PartialEq, Eq, Error)]
pub enum BuildFault {
    /// A thread could not be started.
    #[error("a thread could not be started")]
    Spawn,
    /// Memory ran out.
    #[error("memory ran out")]
    Memory,
    /// The number of the first source that can't be read, and why; or, if all can be, of the first included file that
    /// some source reaches and that can't be.
    #[error("in file {0}: {1}")]
    File(usize, FileFault),
    /// The places of two declarations, or of a declaration and a component of a package statement, that give one full
    /// name. Of such pairs it is that with the least second place, and then the least first; places are ordered by file
    /// number, then start.
    #[error("one full name is given twice, {0} and {1}")]
    Duplicate(FilePlace, FilePlace),
    /// The first import of a path that no file has, by its literal's place: any import of a source counts, and the
    /// public ones of an included file that some source reaches.
    #[error("an import of a file that isn't there, {0}")]
    MissingImport(FilePlace),
    /// The first use that names no type, of the first source that has one, by the place of the whole use.
    #[error("a use that names no type, {0}")]
    Unresolved(FilePlace),
    /// The same, if it names no type since several of the files declare it which are seen. It never comes if no two files
    /// may give one name.
    #[error("a use that names several types, {0}")]
    Ambiguous(FilePlace),
    /// Where each use names a type, and names in options are linked: the first option that has a gap, by the place of the
    /// first name in it that names nothing, and should. These places are ordered by file number, then start, then end.
    #[error("an option without a target, {0}")]
    OptionGap(FilePlace),
}

impl From<AllocError> for BuildFault {
    ghost use Rattle.std.specs.Prelude.{◌≡◌};
    ghost use Rattle.scip_build.specs.declared.fault.BuildFault.TheVariants.{Memory};

    ghost from_gives = { λ _ e. e ≡ Memory };

    fn from(_refused: AllocError) -> BuildFault {
        BuildFault::Memory
    }
}
