//! Why a run stops short of its answer.

ghost use Rattle.std.specs.Prelude.{◌≡◌};
ghost use Rattle.protoscip.specs.FaultTexts.{name_of, status_of};

use proto_lex::LexFault;
use proto_link::FilePlace;
use proto_parse::SyntaxFault;
use scip_build::{BuildFault, FileFault, Omission};
use scip_query::AnswerFault;
use scip_wire::{MAX_INDEX_LEN, WriteFault};
use std::alloc::AllocError;
use thiserror::Error;

/// Why a run stops short of its answer. If several of these hold, the first in this order is answered; but `Spawn`
/// and `Memory` may also come later, before what the same step would answer.
///
/// A file is named by its number in the tree.
#[derive(Clone, Copy, Debug, Drop, PartialEq, Eq, Error)]
pub enum Fault {
    /// A thread could not be started.
    #[error("a thread could not be started")]
    Spawn,
    /// Memory ran out.
    #[error("memory ran out")]
    Memory,
    /// The number of a file that its tree has without what it holds. It is the first source that can't be read; if all
    /// can, the first included file that some source reaches and that can't.
    #[error("file {0} can't be read")]
    Unread(usize),
    /// The number of that file, and why its bytes are no text, or a text without a lexing.
    #[error("in file {0}: {1}")]
    Lex(usize, LexFault),
    /// The number of that file, and why the tokens of its text derive no tree.
    #[error("in file {0}: {1}")]
    Syntax(usize, SyntaxFault),
    /// The places of two declarations, or of a declaration and a component of a package statement, that give one full
    /// name. Of such pairs it is that with the least second place, and then the least first; places are ordered by file
    /// number, then start.
    #[error("one full name is given twice, {0} and {1}")]
    Duplicate(FilePlace, FilePlace),
    /// The first import of a path that no file has, by its literal's place: any import of a source counts, and the
    /// public ones of an included file that some source reaches.
    #[error("an import of a file that isn't there, {0}")]
    MissingImport(FilePlace),
    /// The first use that names no type, of the first source that has one, by the place of the whole use.
    #[error("a use that names no type, {0}")]
    Unresolved(FilePlace),
    /// The same, if it names no type since several of the files declare it which are seen. It never comes if no two files
    /// may give one name.
    #[error("a use that names several types, {0}")]
    Ambiguous(FilePlace),
    /// An option with a name that names nothing, and should, by the place of the first such name: the first of them, if
    /// each use names a type. It comes only if names in options are linked.
    #[error("an option without a target, {0}")]
    OptionGap(FilePlace),
    /// A use that names a type, or a name in an option that names a field, but may name another one once the file with
    /// this number can be read. It is told of an index, and nothing stops for it.
    #[error("a use that is uncertain, {0}, behind file {1}")]
    Uncertain(FilePlace, usize),
    /// The index would have more than `MAX_INDEX_LEN` bytes.
    #[error("an index has at most {most} bytes", most = MAX_INDEX_LEN)]
    TooLarge,
    /// A write failed after this many bytes of what was due.
    #[error("a write that failed, after {0} bytes")]
    Write(u64),
    /// A read failed, or `MAX_READS` reads gave no end.
    #[error("an input that can't be read to its end")]
    Read,
    /// In a session, a write of answers failed after this many bytes of them.
    #[error("a write of answers that failed, after {0} bytes")]
    Answer(u64),
}

impl From<AllocError> for Fault {
    ghost use Rattle.protoscip.specs.declared.fault.Fault.TheVariants.{Memory};

    ghost from_gives = { λ _ e. e ≡ Memory };

    fn from(_refused: AllocError) -> Fault {
        Fault::Memory
    }
}

impl From<BuildFault> for Fault {
    ghost use Rattle.protoscip.specs.Faults.{fault_of_build};

    ghost from_gives = { λ fault e. e ≡ fault_of_build fault };

    fn from(fault: BuildFault) -> Fault {
        match fault {
            BuildFault::Spawn => Fault::Spawn,
            BuildFault::Memory => Fault::Memory,
            BuildFault::File(file, FileFault::Unread) => Fault::Unread(file),
            BuildFault::File(file, FileFault::Lex(fault)) => Fault::Lex(file, fault),
            BuildFault::File(file, FileFault::Syntax(fault)) => Fault::Syntax(file, fault),
            BuildFault::Duplicate(first, second) => Fault::Duplicate(first, second),
            BuildFault::MissingImport(place) => Fault::MissingImport(place),
            BuildFault::Unresolved(place) => Fault::Unresolved(place),
            BuildFault::Ambiguous(place) => Fault::Ambiguous(place),
            BuildFault::OptionGap(place) => Fault::OptionGap(place),
        }
    }
}

impl From<Omission> for Fault {
    ghost use Rattle.protoscip.specs.Faults.{fault_of_omission};

    ghost from_gives = { λ omission e. e ≡ fault_of_omission omission };

    fn from(omission: Omission) -> Fault {
        match omission {
            Omission::File(file, FileFault::Unread) => Fault::Unread(file),
            Omission::File(file, FileFault::Lex(fault)) => Fault::Lex(file, fault),
            Omission::File(file, FileFault::Syntax(fault)) => Fault::Syntax(file, fault),
            Omission::Duplicate(first, second) => Fault::Duplicate(first, second),
            Omission::MissingImport(place) => Fault::MissingImport(place),
            Omission::Unresolved(place) => Fault::Unresolved(place),
            Omission::Ambiguous(place) => Fault::Ambiguous(place),
            Omission::OptionGap(place) => Fault::OptionGap(place),
            Omission::Uncertain(place, behind) => Fault::Uncertain(place, behind),
        }
    }
}

impl From<WriteFault> for Fault {
    ghost use Rattle.protoscip.specs.Faults.{fault_of_writing};

    ghost from_gives = { λ fault e. e ≡ fault_of_writing fault };

    fn from(fault: WriteFault) -> Fault {
        match fault {
            WriteFault::TooLarge => Fault::TooLarge,
            WriteFault::Write(count) => Fault::Write(count as u64),
        }
    }
}

impl From<AnswerFault> for Fault {
    ghost use Rattle.protoscip.specs.Faults.{fault_of_answering};

    ghost from_gives = { λ fault e. e ≡ fault_of_answering fault };

    fn from(fault: AnswerFault) -> Fault {
        match fault {
            AnswerFault::Read => Fault::Read,
            AnswerFault::Write(count) => Fault::Answer(count),
            AnswerFault::Memory => Fault::Memory,
        }
    }
}

impl Fault {
    /// The name in its line: the variant's, or that of the file's fault.
    pub fn name(&self) -> &'static str
        ensures { result.now ≡ name_of self.now }
    {
        self.text().name
    }

    /// The exit status of a program that stops for it.
    pub fn status(&self) -> u8
        ensures { result ≡ status_of self.now }
    {
        self.text().status
    }
}
