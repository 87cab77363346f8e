//! What files import, as they are read in a dialect.

ghost use Rattle.std.specs.Prelude.{◌≡◌, ◌≢◌, ◌++◌, ◌∷◌, [], IfOk, OnOk, map};
ghost use Rattle.proto_lex.specs.Text.{IsText};
ghost use Rattle.proto_lex.specs.declared.fault.LexFault.TheVariants as lexing;
ghost use Rattle.proto_parse.specs.fault.SyntaxFault.TheVariants as parsing;
ghost use Rattle.proto_visibility.specs.Files.{is_public};
ghost use Rattle.programs.specs.Imports.{IsTreeOfOne, TellsIn, TellsText, import_of};

use proto_decl::{Imported, declare};
use proto_lex::{LexFault, Text, lex_with};
use proto_parse::{Dialect, ImportKind, SyntaxFault, parse_with};
use scip_build::as_read;
use source_files::{FindImports, FoundImport};
use source_tree::{Source, Tree};
use std::alloc::{AllocError, Global};

/// Tells what files import, as they are read in a dialect: one that can't be read imports nothing.
#[derive(Clone, Copy)]
pub(crate) struct ImportsIn {
    /// Which sources are read.
    pub(crate) dialect: Dialect,
}

/// Whether those who import a file see what this import names, too.
fn is_public(kind: ImportKind) -> bool
    ensures { result ≡ is_public kind }
{
    match kind {
        ImportKind::Public => true,
        ImportKind::Plain | ImportKind::Weak => false,
    }
}

/// Adds an import.
fn add_import(
    alloc: Global,
    imports: &mut Vec<FoundImport>,
    imported: &Imported<'_>,
) -> Result<(), AllocError>
    ensures { OnOk result (imports.new.items ≡ imports.old.items ++ import_of imported.now ∷ []) }
{
    let path = String::from_str(alloc, imported.path.as_str())?;
    imports.push(FoundImport {
        path,
        is_public: is_public(imported.kind),
    })?;
    Ok(())
}

/// These imports.
fn imports_of(alloc: Global, all: &[Imported<'_>]) -> Result<Vec<FoundImport>, AllocError>
    ensures { IfOk result (λ imports. imports.items ≡ map import_of all.now) }
{
    let mut imports = Vec::new(alloc);
    for imported in all {
        add_import(alloc, &mut imports, imported)?;
    }
    Ok(imports)
}

/// What is imported by what has no lexing: nothing, unless memory ran out.
fn unlexed(alloc: Global, fault: LexFault) -> Result<Vec<FoundImport>, AllocError>
    ensures { IfOk result (λ imports. (fault ≢ lexing.Memory) × (imports.items ≡ [])) }
{
    match fault {
        LexFault::Memory => Err(AllocError),
        _ => Ok(Vec::new(alloc)),
    }
}

/// What is imported by what has no tree: nothing, unless memory ran out.
fn unparsed(alloc: Global, fault: SyntaxFault) -> Result<Vec<FoundImport>, AllocError>
    ensures { IfOk result (λ imports. (fault ≢ parsing.Memory) × (imports.items ≡ [])) }
{
    match fault {
        SyntaxFault::Memory => Err(AllocError),
        _ => Ok(Vec::new(alloc)),
    }
}

/// What a text imports; nothing if it has no lexing or no tree.
#[tactic(auto, using(crate::proofs::ImportLemmas::of_tells))]
fn imports_of_text(
    alloc: Global,
    dialect: Dialect,
    text: &Text<'_>,
) -> Result<Vec<FoundImport>, AllocError>
    requires { IsText text.now }
    ensures { IfOk result (λ imports. TellsText dialect text.now imports.items) }
{
    let lexed = match lex_with(alloc, text, dialect.hashes()) {
        Ok(lexed) => lexed,
        Err(fault) => {
            let nothing = unlexed(alloc, fault)?;
            return Ok(nothing);
        }
    };
    let tree = match parse_with(alloc, &lexed, dialect) {
        Ok(tree) => tree,
        Err(fault) => {
            let nothing = unparsed(alloc, fault)?;
            return Ok(nothing);
        }
    };
    let facts = declare(alloc, 0, &lexed, &tree)?;
    let imports = imports_of(alloc, facts.imports())?;
    Ok(imports)
}

/// What bytes import; nothing if they are no text.
#[tactic(auto, using(crate::proofs::ImportLemmas::of_tells))]
fn imports_in(alloc: Global, dialect: Dialect, bytes: &[u8]) -> Result<Vec<FoundImport>, AllocError>
    ensures { IfOk result (λ imports. TellsText dialect bytes.now imports.items) }
{
    match Text::new(alloc, bytes) {
        Ok(text) => {
            let imports = imports_of_text(alloc, dialect, &text)?;
            Ok(imports)
        }
        Err(fault) => {
            let nothing = unlexed(alloc, fault)?;
            Ok(nothing)
        }
    }
}

/// The tree of one file with these bytes, as it is read in a dialect.
fn tree_of(alloc: Global, dialect: Dialect, bytes: &[u8]) -> Result<Tree, AllocError>
    ensures { IfOk result (IsTreeOfOne dialect bytes.now) }
{
    let path = String::from_str(alloc, "a.proto")?;
    let bytes = Vec::from_slice(alloc, bytes)?;
    let files = vec![in alloc;
        Source {
            path,
            bytes,
            is_unread: false
        },
    ]?;
    match Tree::new(alloc, files) {
        Ok(tree) => {
            let read = as_read(alloc, dialect, tree)?;
            Ok(read)
        }
        Err(_) => Err(AllocError),
    }
}

/// What bytes import that are read as those of the file of a tree.
fn imports_as_read(
    alloc: Global,
    dialect: Dialect,
    bytes: &[u8],
) -> Result<Vec<FoundImport>, AllocError>
    ensures { IfOk result (λ imports. TellsIn dialect bytes.now imports.items) }
{
    let tree = tree_of(alloc, dialect, bytes)?;
    let imports = imports_in(alloc, dialect, tree.text(0))?;
    Ok(imports)
}

impl FindImports for ImportsIn {
    ghost use Rattle.programs.specs.Imports.{TellsIn};

    ghost tells = { λ s. TellsIn s.dialect };

    fn imports_of(&self, alloc: Global, bytes: &[u8]) -> Result<Vec<FoundImport>, AllocError> {
        match self.dialect {
            Dialect::Proto3(_) => imports_in(alloc, self.dialect, bytes),
            Dialect::All => imports_as_read(alloc, self.dialect, bytes),
        }
    }
}
