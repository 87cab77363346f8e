//! Symbols (`scip.proto`, `Symbol`).

ghost use Rattle.std.specs.Prelude.{◌≡◌};
ghost use Rattle.scip_symbol.specs.Parts.{IsSymbol};

use basics::{OwnedText, Sequence};
use std::marker::Model;

/// What the name of a descriptor is the name of (`scip.proto`, `Descriptor.Suffix`).
#[derive(Debug, Drop)]
pub enum Suffix {
    /// A file or a package: `name/`.
    Namespace,
    /// `name#`.
    Type,
    /// `name.`.
    Term,
    /// `name:`.
    Meta,
    /// `name!`.
    Macro,
    /// `name(disambiguator).`, where the disambiguator is a simple identifier, or empty for none.
    Method {
        /// Tells apart methods of one name.
        disambiguator: OwnedText,
    },
    /// `[name]`.
    TypeParameter,
    /// `(name)`.
    Parameter,
}

/// One step on the path from a package to an entity of it (`scip.proto`, `Descriptor`).
#[derive(Debug, Drop)]
pub struct Descriptor {
    /// Without backticks, and not empty in a symbol.
    pub name: OwnedText,
    /// What the name is the name of.
    pub suffix: Suffix,
}

/// A symbol that other documents may name: `scheme manager name version descriptors`.
#[derive(Debug, Drop)]
pub struct GlobalSymbol {
    /// The indexer or the language, such as `scip-protobuf`.
    pub scheme: OwnedText,
    /// The package manager, which may be empty, as may be the two that follow.
    pub manager: OwnedText,
    /// The package's name.
    pub name: OwnedText,
    /// The package's version.
    pub version: OwnedText,
    /// From the outermost to the entity's own.
    pub descriptors: Sequence<Descriptor>,
}

/// What a symbol is made of.
#[derive(Debug, Drop)]
pub enum SymbolParts {
    /// An entity of one document only, by a simple identifier.
    Local(OwnedText),
    /// An entity that other documents may name.
    Global(GlobalSymbol),
}

/// A symbol: parts that have a spelling.
///
/// Contracts see a symbol as its parts, of which `IsSymbol` holds whatever a symbol is made of.
#[derive(Debug, Drop)]
pub struct Symbol {
    parts: SymbolParts,
}

impl Model for Symbol {
    ghost use Rattle.scip_symbol.specs.declared.symbol.SymbolParts.{SymbolParts};

    ghost Value = { SymbolParts };

    ghost use Rattle.scip_symbol.specs.Parts.{IsSymbol};

    ghost view = { λ s. s.parts };

    ghost invariant = { λ s. IsSymbol s.parts };
}

impl Symbol {
    /// The symbol of parts, which have to have a spelling.
    ///
    /// A local one has a name of one character or more, each a letter or a digit of ASCII or one of `_+-$`. A global
    /// one has a scheme that isn't empty and begins neither with a space nor with `local`; a manager, a name and a
    /// version as [`PackageId`](crate::PackageId) takes them; and at least one descriptor. No descriptor's name is
    /// empty, and a method's disambiguator has only characters as those of a local name, or none.
    pub fn from_parts(parts: SymbolParts) -> Symbol
        requires { IsSymbol parts }
        ensures { result ≡ parts }
    {
        Symbol { parts }
    }

    /// What it is made of.
    pub fn parts(&self) -> &SymbolParts
        ensures same { result.now ≡ self.now }
        ensures known { IsSymbol self.now }
    {
        &self.parts
    }
}
