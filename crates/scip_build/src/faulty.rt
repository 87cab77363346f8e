//! What is done with a tree that has faults.

ghost use Rattle.std.specs.Prelude.{◌≡◌};
ghost use Rattle.scip_build.specs.ParsedFiles.{may_be_unread};

/// What is done with a tree that has faults.
#[derive(Clone, Copy, Debug, Drop, PartialEq, Eq)]
pub enum Faulty {
    /// The first fault is answered, and there is no index.
    Refuse,
    /// Files that can't be read, and those of which a name clashes with one of a file before, are left out; imports
    /// of files that aren't there, and uses that name no type, don't occur. Each is reported.
    Skip,
}

impl Faulty {
    /// Whether a file may be without contents.
    pub(crate) fn may_be_unread(self, is_included: bool) -> bool
        ensures { result ≡ may_be_unread self is_included }
    {
        match self {
            Faulty::Refuse => is_included,
            Faulty::Skip => true,
        }
    }
}
