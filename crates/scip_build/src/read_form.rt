//! What is asked of the files that are read.

use proto_decl::FactForm;

/// What is asked of the files that are read.
#[derive(Clone, Copy, Debug, PartialEq, Eq)]
pub struct ReadForm {
    /// What is told of their declarations besides their names and places, and how.
    pub facts: FactForm,
    /// Whether their options are read. It is asked in the dialect of all sources only.
    pub options: bool,
}
