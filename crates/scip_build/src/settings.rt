//! What a user sets of an index.

use crate::faulty::Faulty;
use basics::OwnedText;
use comment_texts::CommentForm;
use proto_lex::Encoding;
use proto_link::Duplicates;
use proto_parse::Dialect;
use scip_model::FilePackages;

/// What an index is made by, beside the files and what is chosen for declarations.
#[derive(Debug, Drop)]
pub struct Settings {
    /// The URI of the folder below which the paths of the documents are.
    pub project_root: OwnedText,
    /// The folder below which the documents have the paths of their sources; empty if they have them as they are.
    pub at: OwnedText,
    /// The packages that the symbols belong to, by their files.
    pub package: FilePackages,
    /// In which code units the columns of the documents count.
    pub encoding: Encoding,
    /// Which sources and included files are accepted.
    pub dialect: Dialect,
    /// How the texts of comments are given.
    pub comments: CommentForm,
    /// Whether it is told how declarations read, what they are and are in, and where they end.
    pub details: bool,
    /// Whether names in options are linked. It is asked for in the dialect of all sources only.
    pub options: bool,
    /// Whether a tree with faults is refused, or what has one is left out and reported.
    pub faulty: Faulty,
    /// Whether several files may give one name.
    pub duplicates: Duplicates,
}
