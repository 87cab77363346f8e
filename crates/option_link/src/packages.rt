//! Marks of the numbers that the full names of packages are hashed by.

ghost use Rattle.std.specs.Prelude.{ℕ, List, ◌<◌, ◌∷◌, IfOk, OnOk, length};
ghost use Rattle.proto_decl.specs.Names.{hash64};
ghost use Rattle.option_link.specs.Marks.{AddsMark};
ghost use Rattle.option_link.specs.Packages.{AddsFile, AddsPackages, HasPackages};

use crate::marks::{mark, no_marks};
use proto_decl::{Component, FullName};
use proto_link::Linker;
use std::alloc::{AllocError, Global};

/// Marks the number that a full name is hashed by.
fn add_name(marks: &mut Vec<bool>, name: &str)
    ensures { AddsMark (hash64 name.now) marks.old.items marks.new.items }
{
    mark(marks, FullName::whole(name).hash64());
}

/// Marks that of the package with a first component and others, and those of the packages above it.
fn add_behind(
    alloc: Global,
    marks: &mut Vec<bool>,
    first: &Component<'_>,
    others: &[Component<'_>],
) -> Result<(), AllocError>
    ensures { OnOk result (AddsPackages (first.now ∷ others.now) marks.old.items marks.new.items) }
{
    let mut name = String::from_str(alloc, first.name.as_str())?;
    add_name(marks, name.as_str());
    for component in others {
        name.push_str(".")?;
        name.push_str(component.name.as_str())?;
        add_name(marks, name.as_str());
    }
    Ok(())
}

/// Marks that of the package with these components, and those of the packages above it.
fn add_package(
    alloc: Global,
    marks: &mut Vec<bool>,
    components: &[Component<'_>],
) -> Result<(), AllocError>
    ensures { OnOk result (AddsPackages components.now marks.old.items marks.new.items) }
{
    match components {
        [] => Ok(()),
        [first, others @ ..] => add_behind(alloc, marks, first, others),
    }
}

/// Marks those of the package of a file, if it has facts.
fn add_file(
    alloc: Global,
    marks: &mut Vec<bool>,
    linker: &Linker<'_, '_>,
    file: usize,
) -> Result<(), AllocError>
    requires { file < length linker.now }
    ensures { OnOk result (AddsFile linker.now file marks.old.items marks.new.items) }
{
    match linker.facts_of(file) {
        Some(facts) => add_package(alloc, marks, facts.package_name()),
        None => Ok(()),
    }
}

/// Marks of the numbers that the full names of the packages of files, and of those above them, are hashed by.
pub(crate) fn package_marks(alloc: Global, linker: &Linker<'_, '_>) -> Result<Vec<bool>, AllocError>
    ensures { IfOk result (λ marks. HasPackages linker.now marks.items) }
{
    let mut marks = no_marks(alloc)?;
    for file in 0..linker.count() {
        add_file(alloc, &mut marks, linker, file)?;
    }
    Ok(marks)
}
