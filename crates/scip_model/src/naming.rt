//! Where the declarations of files belong: the packages of their symbols, and which of them an earlier file has, too.

ghost use Rattle.std.specs.Prelude.{◌≡◌, ◌<◌, ◌↔◌, ◌∷◌, [], IfOk, IsTrue, length, take};
ghost use Rattle.std.specs.String.{string_bytes};
ghost use Rattle.std.specs.List.{list_any};
ghost use Rattle.std.specs.Str.{bytes_eq};
ghost use Rattle.scip_model.specs.Packages.{ArePackages, naming, package_of_path};
ghost use Rattle.scip_model.specs.Repeated.{HasRepeated, file_namespace, home_of_file, outermost_name};

use crate::packages::FilePackages;
use crate::repeated::repeated_names;
use indexmap::IndexSet;
use proto_decl::{Declaration, DeclarationStep, FileFacts};
use proto_link::Linker;
use scip_symbol::PackageId;
use std::alloc::{AllocError, Global};
use std::marker::Model;

/// The packages of linked files, and which of their outermost declarations an earlier file has, too: the symbols of
/// these, and of all in them, have their file before their package.
///
/// Contracts see the files, and the packages with the names of these declarations.
#[derive(Drop)]
pub struct SymbolPackages<'a, 'l, 'f> {
    linker: &'a Linker<'l, 'f>,
    packages: &'a FilePackages,
    repeated: Vec<IndexSet<String>>,
}

impl<'a, 'l, 'f> Model for SymbolPackages<'a, 'l, 'f> {
    ghost use Rattle.std.specs.Prelude.{map};
    ghost use Rattle.std.specs.String.{string_bytes};
    ghost use Rattle.scip_model.specs.Packages.{ArePackages, naming};
    ghost use Rattle.scip_model.specs.Repeated.{Naming, HasRepeated};

    ghost Value = { Naming };

    ghost view = { λ named. record {
      files = named.linker.now;
      ids = naming named.packages.now (map (λ names. map string_bytes names.keys) named.repeated.items);
    } };

    ghost invariant = { λ named. HasRepeated (record {
      files = named.linker.now;
      ids = naming named.packages.now (map (λ names. map string_bytes names.keys) named.repeated.items);
    }) };
}

impl<'a, 'l, 'f> SymbolPackages<'a, 'l, 'f> {
    /// Those of linked files. Nothing is looked for, and no memory is taken, unless several files may give one name. An
    /// error means that memory was refused.
    pub fn of(
        alloc: Global,
        linker: &'a Linker<'l, 'f>,
        packages: &'a FilePackages,
    ) -> Result<SymbolPackages<'a, 'l, 'f>, AllocError>
        ensures files { IfOk result (λ named. named.files ≡ linker.now) }
        ensures ids { IfOk result (λ named. named.ids ≡ naming packages.now named.ids.repeated) }
        ensures repeated { IfOk result HasRepeated }
    {
        let repeated = repeated_names(alloc, linker)?;
        Ok(SymbolPackages {
            linker,
            packages,
            repeated,
        })
    }

    /// The files.
    pub(crate) fn linker(&self) -> &'a Linker<'l, 'f>
        ensures files { result.now ≡ self.now.files }
        ensures repeated { HasRepeated self.now }
    {
        self.linker
    }

    /// The package of the run, which packages of the proto3 language belong to.
    pub fn run(&self) -> &'a PackageId
        ensures value { result.now ≡ self.now.ids.run }
        ensures known { ArePackages self.now.ids }
    {
        self.packages.run()
    }

    /// The package of the file with this path.
    pub fn of_path(&self, path: &str) -> &'a PackageId
        ensures { result.now ≡ package_of_path self.now.ids path.now }
    {
        self.packages.of_path(path)
    }

    /// Where the declarations of a file belong, by its number.
    pub(crate) fn home_of(&self, number: usize) -> Home<'_>
        requires { number < length self.now.files }
        ensures { result ≡ home_of_file self.now.files self.now.ids number }
    {
        let path = self.linker.path_of(number);
        Home {
            id: self.packages.of_path(path),
            path,
            repeated: self.repeated.get(number),
        }
    }
}

/// Where the declarations of a file belong: the package of their symbols, the file's path, and the names of those that
/// an earlier file has, too.
#[derive(Drop)]
pub(crate) struct Home<'a> {
    id: &'a PackageId,
    path: &'a str,
    repeated: Option<&'a IndexSet<String>>,
}

impl<'a> Model for Home<'a> {
    ghost use Rattle.std.specs.Prelude.{[], map};
    ghost use Rattle.std.specs.Option.{option_map_or};
    ghost use Rattle.std.specs.String.{string_bytes};
    ghost use Rattle.scip_model.specs.Repeated.{Home};

    ghost Value = { Home };

    ghost view = { λ home. record {
      id = home.id.now;
      path = home.path.now;
      repeated = option_map_or (λ names. map string_bytes names.now.keys) home.repeated [];
    } };
}

impl<'a> Home<'a> {
    /// The package.
    pub(crate) fn id(&self) -> &'a PackageId
        ensures { result.now ≡ self.now.id }
    {
        self.id
    }

    /// The file's path.
    pub(crate) fn path(&self) -> &'a str
        ensures { result.now ≡ self.now.path }
    {
        self.path
    }

    /// Whether none of the file's declarations has its file in its symbol.
    pub(crate) fn is_usual(&self) -> bool
        ensures { IsTrue result ↔ (self.now.repeated ≡ []) }
    {
        match self.repeated {
            Some(names) => names.len() == 0,
            None => true,
        }
    }

    /// Whether the outermost declaration with this full name has.
    fn repeats(&self, full_name: &str) -> bool
        ensures { result ≡ list_any (bytes_eq full_name.now) self.now.repeated }
    {
        match self.repeated {
            Some(names) => names.contains(full_name),
            None => false,
        }
    }

    /// Whether this declaration of the file has.
    pub(crate) fn has_in_front(
        &self,
        alloc: Global,
        facts: &FileFacts,
        declaration: &Declaration,
    ) -> Result<bool, AllocError>
        ensures { IfOk result (λ has. has
            ≡ list_any (bytes_eq (outermost_name facts.now declaration.now)) self.now.repeated) }
    {
        if self.is_usual() {
            return Ok(false);
        }
        let name = outermost_text(alloc, facts, declaration)?;
        Ok(self.repeats(name.as_str()))
    }
}

/// The namespace of the file with a path.
pub(crate) fn file_namespace(alloc: Global, path: &str) -> Result<String, AllocError>
    ensures { IfOk result (λ text. string_bytes text ≡ file_namespace path.now) }
{
    let mut text = String::from_str(alloc, path)?;
    if path.ends_with(".proto") {
        return Ok(text);
    }
    text.push_str("./")?;
    Ok(text)
}

/// The first step of the way to a declaration.
fn first_step<'a, 't>(declaration: &'a Declaration<'t>) -> &'a DeclarationStep<'t>
    ensures { take 1 declaration.now.path ≡ result.now ∷ [] }
{
    let (outer, last) = declaration.path().parts();
    match outer {
        [first, ..] => first,
        [] => last,
    }
}

/// The full name of the outermost declaration on the way to one.
fn outermost_text(
    alloc: Global,
    facts: &FileFacts,
    declaration: &Declaration,
) -> Result<String, AllocError>
    ensures { IfOk result (λ text. string_bytes text ≡ outermost_name facts.now declaration.now) }
{
    let mut text = String::new(alloc);
    for component in facts.package_name() {
        text.push_str(component.name.as_str())?;
        text.push_str(".")?;
    }
    text.push_str(first_step(declaration).name.as_str())?;
    Ok(text)
}
