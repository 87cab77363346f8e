//! What is asked in one line.

ghost use Rattle.std.specs.Prelude.{◌≡◌};
ghost use Rattle.command_line.specs.Verbs.{argument_of, name_of};

use crate::names::{DEF, DOCUMENT, FIND, HOVER, LINT, OUTLINE, PRINT, REF, STATS};

/// What is asked in one line.
#[derive(Clone, Copy, Debug, PartialEq, Eq)]
pub enum Verb {
    /// Where a symbol is defined.
    Def,
    /// Where it occurs.
    Ref,
    /// What it is.
    Hover,
    /// What a document defines.
    Outline,
    /// Which definitions a text finds.
    Find,
    /// How much an index has.
    Stats,
    /// Its records, or those of a document.
    Print,
    /// What is wrong with it.
    Lint,
}

impl Verb {
    /// The name of its program.
    pub fn name(self) -> &'static str
        ensures { result.now ≡ name_of self }
    {
        match self {
            Verb::Def => DEF,
            Verb::Ref => REF,
            Verb::Hover => HOVER,
            Verb::Outline => OUTLINE,
            Verb::Find => FIND,
            Verb::Stats => STATS,
            Verb::Print => PRINT,
            Verb::Lint => LINT,
        }
    }

    /// The name of what is asked about; no text where nothing is.
    pub(crate) fn argument(self) -> &'static str
        ensures { result.now ≡ argument_of self }
    {
        match self {
            Verb::Def | Verb::Ref | Verb::Hover => "PLACE|NAME",
            Verb::Outline | Verb::Print => DOCUMENT,
            Verb::Find => "TEXT",
            Verb::Stats | Verb::Lint => "",
        }
    }
}
