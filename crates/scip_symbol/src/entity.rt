//! The symbols of files, packages and declarations.

ghost use Rattle.std.specs.Prelude.{◌≡◌, ◌≢◌, ◌++◌, ◌∷◌, [], map, All, OnOk, IfOk};
ghost use Rattle.proto_decl.specs.Laws.{component_names};
ghost use Rattle.scip_symbol.specs.Parts.{IsDescriptor};
ghost use Rattle.scip_symbol.specs.Entities.{
  OfFile,
  OfPackage,
  OfDeclaration,
  suffix_of,
  namespace_of,
  step_descriptor,
  global_in,
  symbol_in,
  IsEntity,
};

use crate::package::PackageId;
use crate::symbol::{Descriptor, GlobalSymbol, Suffix, Symbol, SymbolParts};
use basics::{OwnedText, Sequence};
use proto_decl::{Component, DeclarationKind, DeclarationPath, DeclarationStep};
use std::alloc::{AllocError, Global};

/// The scheme of the symbols of a proto3 tree.
pub const SCHEME: &str = "scip-protobuf";

/// What a declaration's name is the name of. Takes no memory.
pub(crate) fn suffix_of(alloc: Global, kind: DeclarationKind) -> Suffix
    ensures { result ≡ suffix_of kind }
{
    match kind {
        DeclarationKind::Message => Suffix::Type,
        DeclarationKind::Enum => Suffix::Type,
        DeclarationKind::Service => Suffix::Type,
        DeclarationKind::Field => Suffix::Term,
        DeclarationKind::Value => Suffix::Term,
        DeclarationKind::Oneof => Suffix::Meta,
        DeclarationKind::Method => Suffix::Method {
            disambiguator: OwnedText::new(alloc),
        },
    }
}

/// Appends a namespace's descriptor.
fn push_namespace(
    alloc: Global,
    descriptors: &mut Vec<Descriptor>,
    name: &str,
) -> Result<(), AllocError>
    ensures { OnOk result (descriptors.new.items ≡ descriptors.old.items ++ namespace_of name.now ∷ []) }
{
    let name = OwnedText::copy_of(alloc, name)?;
    let namespace = Descriptor {
        name,
        suffix: Suffix::Namespace,
    };
    descriptors.push(namespace)?;
    Ok(())
}

/// Appends a declaration's own descriptor.
fn push_step(
    alloc: Global,
    descriptors: &mut Vec<Descriptor>,
    step: &DeclarationStep,
) -> Result<(), AllocError>
    ensures { OnOk result (descriptors.new.items ≡ descriptors.old.items ++ step_descriptor step.now ∷ []) }
{
    let name = OwnedText::copy_of(alloc, step.name.as_str())?;
    let descriptor = Descriptor {
        name,
        suffix: suffix_of(alloc, step.kind),
    };
    descriptors.push(descriptor)?;
    Ok(())
}

/// Appends the namespaces of all components.
fn push_namespaces(
    alloc: Global,
    descriptors: &mut Vec<Descriptor>,
    components: &[Component],
) -> Result<(), AllocError>
    ensures { OnOk result (descriptors.new.items ≡ descriptors.old.items ++ map namespace_of
        (component_names components.now)) }
{
    for component in components {
        push_namespace(alloc, descriptors, component.name.as_str())?;
    }
    Ok(())
}

/// Appends the descriptors of steps.
fn push_steps(
    alloc: Global,
    descriptors: &mut Vec<Descriptor>,
    steps: &[DeclarationStep],
) -> Result<(), AllocError>
    ensures { OnOk result (descriptors.new.items ≡ descriptors.old.items ++ map step_descriptor steps.now) }
{
    for step in steps {
        push_step(alloc, descriptors, step)?;
    }
    Ok(())
}

/// Appends the descriptors of all steps of a path.
fn push_path(
    alloc: Global,
    descriptors: &mut Vec<Descriptor>,
    path: &DeclarationPath,
) -> Result<(), AllocError>
    ensures { OnOk result (descriptors.new.items ≡ descriptors.old.items ++ map step_descriptor path.now) }
{
    let (outer, last) = path.parts();
    push_steps(alloc, descriptors, outer)?;
    push_step(alloc, descriptors, last)
}

/// The symbol with these descriptors in a package.
fn symbol_with(
    alloc: Global,
    id: &PackageId,
    descriptors: Vec<Descriptor>,
) -> Result<Symbol, AllocError>
    requires some { descriptors.items ≢ [] }
    requires good { All IsDescriptor descriptors.items }
    ensures { IfOk result (λ symbol. symbol ≡ global_in id.now descriptors.items) }
{
    let scheme = OwnedText::copy_of(alloc, SCHEME)?;
    let manager = OwnedText::copy_of(alloc, id.manager())?;
    let name = OwnedText::copy_of(alloc, id.name())?;
    let version = OwnedText::copy_of(alloc, id.version())?;
    Ok(Symbol::from_parts(SymbolParts::Global(GlobalSymbol {
        scheme,
        manager,
        name,
        version,
        descriptors: Sequence::from_vec(descriptors),
    })))
}

/// The symbol of the file with a path: one namespace, whose name is the path. The path has to be a good one, as those
/// of the files of a tree are (`source_tree`). An error means that memory was refused.
pub fn file_symbol(alloc: Global, id: &PackageId, path: &str) -> Result<Symbol, AllocError>
    requires { IsEntity (OfFile path.now) }
    ensures { IfOk result (λ symbol. symbol ≡ symbol_in id.now (OfFile path.now)) }
{
    let mut descriptors = Vec::new(alloc);
    push_namespace(alloc, &mut descriptors, path)?;
    symbol_with(alloc, id, descriptors)
}

/// The symbol of the package with these components: a namespace for each of them. There has to be at least one, and the
/// name of each has to be an identifier of the language. An error means that memory was refused.
pub fn package_symbol(
    alloc: Global,
    id: &PackageId,
    components: &[Component],
) -> Result<Symbol, AllocError>
    requires { IsEntity (OfPackage (component_names components.now)) }
    ensures { IfOk result (λ symbol. symbol ≡ symbol_in id.now (OfPackage (component_names components.now))) }
{
    let mut descriptors = Vec::new(alloc);
    push_namespaces(alloc, &mut descriptors, components)?;
    symbol_with(alloc, id, descriptors)
}

/// The symbol of a declaration, by the components of its file's package and the path from the package to it: a
/// namespace for each component, and for each step the descriptor of its kind.
///
/// There may be no component. The names of the components and of the steps have to be identifiers of the language. An
/// error means that memory was refused.
pub fn symbol_of(
    alloc: Global,
    id: &PackageId,
    components: &[Component],
    path: &DeclarationPath,
) -> Result<Symbol, AllocError>
    requires { IsEntity (OfDeclaration (component_names components.now) path.now) }
    ensures { IfOk result (λ symbol. symbol ≡ symbol_in id.now (OfDeclaration (component_names components.now)
        path.now)) }
{
    let mut descriptors = Vec::new(alloc);
    push_namespaces(alloc, &mut descriptors, components)?;
    push_path(alloc, &mut descriptors, path)?;
    symbol_with(alloc, id, descriptors)
}
