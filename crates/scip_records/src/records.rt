//! The records of an index: the fields of `scip.proto` that this project keeps.

use crate::details::BoxedDetails;
use crate::range::Range;
use basics::{OwnedText, Sequence};

/// An index (`scip.proto`, `Index`).
///
/// What is said below of the index of a tree holds of those that `scip_build` makes. An index that is read has the
/// order of its bytes, and a text that is absent there is empty.
#[derive(Debug, Drop)]
pub struct Index {
    /// What the index says about itself. That of a tree does.
    pub metadata: Option<Metadata>,
    /// The documents. The index of a tree has one for each source that is kept, in order of path.
    pub documents: Sequence<Document>,
    /// What is known of symbols that no document defines. The index of a tree has each symbol once, in order of symbol.
    pub external_symbols: Sequence<SymbolInformation>,
}

/// What an index says about itself (`scip.proto`, `Metadata`).
#[derive(Debug, Drop)]
pub struct Metadata {
    /// The protocol's version, an enum: 0 is unspecified.
    pub version: i32,
    /// What made the index, if that is known.
    pub tool_info: Option<ToolInfo>,
    /// The URI of the folder below which the documents' paths are.
    pub project_root: OwnedText,
    /// An enum: 1 is UTF-8, 2 is UTF-16.
    pub text_document_encoding: i32,
}

/// What made an index (`scip.proto`, `ToolInfo`).
#[derive(Debug, Drop)]
pub struct ToolInfo {
    /// The tool's name.
    pub name: OwnedText,
    /// The tool's version.
    pub version: OwnedText,
    /// What the tool was called with. The index of a tree has none.
    pub arguments: Sequence<OwnedText>,
}

/// One source file (`scip.proto`, `Document`).
#[derive(Debug, Drop)]
pub struct Document {
    /// The path from the project's root, with `/` between components.
    pub relative_path: OwnedText,
    /// Where symbols occur. In the index of a tree they are in order of start, then end, then symbol, and no two are
    /// alike in all three.
    pub occurrences: Sequence<Occurrence>,
    /// What is known of the symbols that it defines. The index of a tree has each symbol once, in order of symbol.
    pub symbols: Sequence<SymbolInformation>,
    /// The language's name: `Protobuf` in the index of a tree.
    pub language: OwnedText,
    /// An enum: columns count 1 UTF-8, 2 UTF-16 or 3 UTF-32 code units from the line's start.
    pub position_encoding: i32,
}

/// A symbol at a place (`scip.proto`, `Occurrence`).
#[derive(Debug, Drop)]
pub struct Occurrence {
    /// Where it is.
    pub range: Range,
    /// The symbol's text; empty if it names none.
    pub symbol: OwnedText,
    /// Bits: 1 is a definition, 2 an import.
    pub symbol_roles: i32,
    /// Of a definition, where its declaration is, its comments included, if that is known.
    pub enclosing_range: Option<Range>,
}

/// What is known of a symbol (`scip.proto`, `SymbolInformation`).
#[derive(Debug, Drop)]
pub struct SymbolInformation {
    /// The symbol's text.
    pub symbol: OwnedText,
    /// The texts that document it; none if nothing does. In the index of a tree they are at most two, the leading
    /// comment's before the trailing one's, and none is empty.
    pub documentation: Sequence<OwnedText>,
    /// How it is shown: in the index of a tree a file by its path, a package by its full name, and a declaration by its
    /// simple name.
    pub display_name: OwnedText,
    /// What else is known of it.
    pub details: BoxedDetails,
}
