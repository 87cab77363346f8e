//! Documents and external entries whose symbols all belong to one package.

ghost use Rattle.std.specs.Prelude.{◌≡◌, IfOk, IfErr};
ghost use Rattle.proto_visibility.specs.Files.{IsSource};
ghost use Rattle.proto_visibility.specs.Clashes.{NoClash};
ghost use Rattle.proto_visibility.specs.declared.clash.Duplicates.TheVariants.{Refuse};
ghost use Rattle.scip_model.specs.Chosen.{HaveChoices};
ghost use Rattle.scip_model.specs.Conditions.{HaveGoodPaths, UsesResolve, HasText, MayRefuseDocument};
ghost use Rattle.scip_model.specs.Indexes.{AreExternals, IsDocumentOf};
ghost use Rattle.scip_model.specs.Packages.{RepeatedNames, all_in, naming};
ghost use Rattle.scip_model.specs.Repeated.{AreRepeated};

use crate::document_maker::{Choices, DocumentMaker};
use crate::external_symbols::externals_in_packages;
use crate::naming::SymbolPackages;
use crate::packages::FilePackages;
use crate::source_document::make_document;
use proto_lex::{Encoding, Text};
use proto_link::{LinkFault, Linker};
use scip_records::{Document, SymbolInformation};
use scip_symbol::PackageId;
use std::alloc::{AllocError, Global};

/// A copy of a package.
fn copy_of(alloc: Global, id: &PackageId) -> Result<PackageId, AllocError>
    ensures { IfOk result (λ copy. copy ≡ id.now) }
{
    let manager = String::from_str(alloc, id.manager())?;
    let name = String::from_str(alloc, id.name())?;
    let version = String::from_str(alloc, id.version())?;
    Ok(PackageId::new([manager, name, version]).unwrap())
}

/// Each file has this package.
fn packages_of(alloc: Global, id: &PackageId) -> Result<FilePackages, AllocError>
    ensures { IfOk result (λ packages. packages ≡ all_in id.now) }
{
    let copy = copy_of(alloc, id)?;
    Ok(FilePackages::of_run(alloc, copy))
}

/// The document of a source of linked files, by its number, which has this text: what occurs in it and its symbol
/// entries, in order, with columns in this encoding. All symbols belong to one package;
/// [`make_document`](crate::make_document) has one for each included root.
///
/// `file` has to be the number of a source, and `text` its text. Each file has to have a good path, as those of a tree
/// have (`source_tree`), and `choices` a choice for each declaration of each file that has facts.
///
/// Refusals, of which the first that holds is answered:
///
/// - `Memory`: memory was refused.
/// - `Unresolved`: the place of the source's first use that names no type. It counts though what has it isn't kept.
pub fn document(
    alloc: Global,
    linker: &Linker<'_, '_>,
    file: usize,
    text: &Text<'_>,
    choices: &Choices,
    id: &PackageId,
    encoding: Encoding,
) -> Result<Document, LinkFault>
    requires source { IsSource linker.now file }
    requires text { HasText linker.now file text.now }
    requires paths { HaveGoodPaths linker.now }
    requires choices { HaveChoices linker.now choices.now }
    ensures document { IfOk result (λ made. (repeated : RepeatedNames)
        × AreRepeated linker.now repeated
        × IsDocumentOf linker.now choices.now (naming (all_in id.now) repeated) encoding file text.now made) }
    ensures usual { NoClash Refuse linker.now
        → IfOk result (IsDocumentOf linker.now choices.now (all_in id.now) encoding file text.now) }
    ensures resolved { IfOk result (λ _. UsesResolve linker.now file) }
    ensures refused { IfErr result (MayRefuseDocument linker.now file) }
{
    let packages = packages_of(alloc, id)?;
    let named = SymbolPackages::of(alloc, linker, &packages)?;
    let maker = DocumentMaker {
        alloc,
        choices,
        package: &named,
        encoding,
        source: file,
        text,
    };
    make_document(&maker)
}

/// The external symbol entries of linked files, by symbol: one for each declaration of an included file that is kept
/// by these choices and that a component of a use in a source names. All symbols belong to one package;
/// [`externals_in_packages`](crate::externals_in_packages) has one for each included root.
///
/// `choices` has to have a choice for each declaration of each file that has facts. An error means that memory was
/// refused.
pub fn externals(
    alloc: Global,
    linker: &Linker<'_, '_>,
    choices: &Choices,
    id: &PackageId,
) -> Result<Vec<SymbolInformation>, AllocError>
    requires choices { HaveChoices linker.now choices.now }
    ensures externals { IfOk result (λ list. (repeated : RepeatedNames)
        × AreRepeated linker.now repeated
        × AreExternals linker.now choices.now (naming (all_in id.now) repeated) list.items) }
    ensures usual { NoClash Refuse linker.now
        → IfOk result (λ list. AreExternals linker.now choices.now (all_in id.now) list.items) }
{
    let packages = packages_of(alloc, id)?;
    let named = SymbolPackages::of(alloc, linker, &packages)?;
    let list = externals_in_packages(alloc, &named, choices)?;
    Ok(list.into_vec())
}
