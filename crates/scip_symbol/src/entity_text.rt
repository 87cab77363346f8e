//! The texts of the symbols of files, packages and declarations, made without the symbols.

ghost use Rattle.std.specs.Prelude.{◌≡◌, ◌++◌, ◌∷◌, ℕ, List, map, OnOk, IfOk};
ghost use denote.Ref.{Bor};
ghost use Rattle.std.specs.String.{string_bytes};
ghost use Rattle.proto_decl.specs.Laws.{component_names};
ghost use Rattle.scip_symbol.specs.SymbolText.{descriptor_text, symbol_text};
ghost use Rattle.scip_symbol.specs.Entities.{
  OfFile,
  OfPackage,
  OfDeclaration,
  namespace_of,
  step_descriptor,
  symbol_in,
};
ghost use Rattle.scip_symbol.specs.EntityTexts.{front_with, front_in, namespaces_text, steps_text};
ghost use Rattle.scip_symbol.specs.Package.{Package};

use crate::entity::{SCHEME, suffix_of};
use crate::package::PackageId;
use crate::printer::{front_text, push_doubled, push_name, push_part, push_suffix};
use proto_decl::{Component, DeclarationPath, DeclarationStep};
use std::alloc::{AllocError, Global};

/// The bytes that a text has room for before it grows: most need no more.
const ROOM: usize = 64;

/// Appends the scheme and these parts of a package.
fn push_parts(out: &mut String, manager: &str, name: &str, version: &str) -> Result<(), AllocError>
    ensures { OnOk result (string_bytes out.new ≡ string_bytes out.old ++ front_with manager.now name.now version.now) }
{
    push_doubled(out, SCHEME, ' ')?;
    out.push_str(" ")?;
    push_part(out, manager)?;
    push_part(out, name)?;
    push_part(out, version)
}

/// Appends what comes before the descriptors.
fn push_front(out: &mut String, id: &PackageId) -> Result<(), AllocError>
    ensures { OnOk result (string_bytes out.new ≡ string_bytes out.old ++ front_in id.now) }
{
    push_parts(out, id.manager(), id.name(), id.version())
}

/// Appends a namespace's descriptor.
fn push_namespace(out: &mut String, name: &str) -> Result<(), AllocError>
    ensures { OnOk result (string_bytes out.new ≡ string_bytes out.old ++ descriptor_text (namespace_of name.now)) }
{
    push_name(out, name)?;
    out.push_str("/")
}

/// Appends a declaration's own descriptor.
fn push_step(out: &mut String, step: &DeclarationStep) -> Result<(), AllocError>
    ensures { OnOk result (string_bytes out.new ≡ string_bytes out.old ++ descriptor_text (step_descriptor step.now)) }
{
    let suffix = suffix_of(*out.allocator(), step.kind);
    out.push_str(front_text(&suffix))?;
    push_name(out, step.name.as_str())?;
    push_suffix(out, &suffix)
}

/// Appends the texts of the namespaces of all components.
fn push_namespaces(out: &mut String, components: &[Component]) -> Result<(), AllocError>
    ensures { OnOk result (string_bytes out.new ≡ string_bytes out.old ++ namespaces_text
        (component_names components.now)) }
{
    for component in components {
        push_namespace(out, component.name.as_str())?;
    }
    Ok(())
}

/// Appends the texts of the namespaces of names.
fn push_names(out: &mut String, names: &[&str]) -> Result<(), AllocError>
    ensures { OnOk result (string_bytes out.new ≡ string_bytes out.old ++ namespaces_text
        (map (λ (name : Bor (List ℕ)). name.now) names.now)) }
{
    for name in names {
        push_namespace(out, name)?;
    }
    Ok(())
}

/// Appends the texts of the descriptors of steps.
fn push_steps(out: &mut String, steps: &[DeclarationStep]) -> Result<(), AllocError>
    ensures { OnOk result (string_bytes out.new ≡ string_bytes out.old ++ steps_text steps.now) }
{
    for step in steps {
        push_step(out, step)?;
    }
    Ok(())
}

/// Appends the descriptors of all steps of a path.
fn push_path(out: &mut String, path: &DeclarationPath) -> Result<(), AllocError>
    ensures { OnOk result (string_bytes out.new ≡ string_bytes out.old ++ steps_text path.now) }
{
    let (outer, last) = path.parts();
    push_steps(out, outer)?;
    push_step(out, last)
}

/// The text of the symbol of the file with a path, as `print` gives it.
pub fn print_file(alloc: Global, id: &PackageId, path: &str) -> Result<String, AllocError>
    ensures { IfOk result (λ text. string_bytes text ≡ symbol_text (symbol_in id.now (OfFile path.now))) }
{
    let mut text = String::with_capacity(alloc, ROOM)?;
    push_front(&mut text, id)?;
    push_namespace(&mut text, path)?;
    Ok(text)
}

/// The text of the symbol of the package with these components.
pub fn print_package(
    alloc: Global,
    id: &PackageId,
    components: &[Component],
) -> Result<String, AllocError>
    ensures { IfOk result (λ text. string_bytes text ≡ symbol_text (symbol_in id.now
        (OfPackage (component_names components.now)))) }
{
    let mut text = String::with_capacity(alloc, ROOM)?;
    push_front(&mut text, id)?;
    push_namespaces(&mut text, components)?;
    Ok(text)
}

/// The text of the symbol of the package with components of these names.
pub fn print_package_named(
    alloc: Global,
    id: &PackageId,
    names: &[&str],
) -> Result<String, AllocError>
    ensures { IfOk result (λ text. string_bytes text ≡ symbol_text (symbol_in id.now
        (OfPackage (map (λ (name : Bor (List ℕ)). name.now) names.now)))) }
{
    let mut text = String::with_capacity(alloc, ROOM)?;
    push_front(&mut text, id)?;
    push_names(&mut text, names)?;
    Ok(text)
}

/// The text of the symbol of a declaration, by the components of its file's package and the path from the package to
/// it.
pub fn print_declaration(
    alloc: Global,
    id: &PackageId,
    components: &[Component],
    path: &DeclarationPath,
) -> Result<String, AllocError>
    ensures { IfOk result (λ text. string_bytes text ≡ symbol_text (symbol_in id.now
        (OfDeclaration (component_names components.now) path.now))) }
{
    let mut text = String::with_capacity(alloc, ROOM)?;
    push_front(&mut text, id)?;
    push_namespaces(&mut text, components)?;
    push_path(&mut text, path)?;
    Ok(text)
}

/// The same with the namespace of the declaration's file, by its path, before those of its package.
pub fn print_declaration_in_file(
    alloc: Global,
    id: &PackageId,
    file: &str,
    components: &[Component],
    path: &DeclarationPath,
) -> Result<String, AllocError>
    ensures { IfOk result (λ text. string_bytes text ≡ symbol_text (symbol_in id.now
        (OfDeclaration (file.now ∷ component_names components.now) path.now))) }
{
    let mut whole = String::with_capacity(alloc, ROOM)?;
    push_front(&mut whole, id)?;
    push_namespace(&mut whole, file)?;
    push_namespaces(&mut whole, components)?;
    push_path(&mut whole, path)?;
    Ok(whole)
}

/// The text of the symbol of a declaration: the text of its package's symbol, which `print_package` gives for
/// all components of the package's name, and behind it the path from the package to the declaration.
pub fn print_below(alloc: Global, front: &str, path: &DeclarationPath) -> Result<String, AllocError>
    ensures { IfOk result (λ text. (id : Package) (components : List (List ℕ))
        → front.now ≡ symbol_text (symbol_in id (OfPackage components))
        → string_bytes text ≡ symbol_text (symbol_in id (OfDeclaration components path.now))) }
{
    let room = front.len().saturating_add(ROOM);
    let mut whole = String::with_capacity(alloc, room)?;
    whole.push_str(front)?;
    push_path(&mut whole, path)?;
    Ok(whole)
}
