//! Tables of what files import, by their numbers.

ghost use Rattle.std.specs.Prelude.{
  ◌≡◌,
  ℕ,
  ◌↔◌,
  Some,
  List,
  [],
  ◌∷◌,
  ◌++◌,
  true,
  false,
  is_some,
  IfOk,
  OnOk,
  IsTrue,
  if◌then◌else◌,
};
ghost use Rattle.std.specs.List.{filter_map, list_any};
ghost use Rattle.std.specs.Str.{bytes_eq};
ghost use Rattle.proto_visibility.specs.Files.{File, HaveOwnPaths, is_public};
ghost use Rattle.proto_visibility.specs.Tables.ImportTables.{IsTableOf, AreNumbered, ArePaths, imports_of, number_in, target};

use crate::files::LinkFile;
use proto_decl::Imported;
use proto_parse::ImportKind;
use std::alloc::{AllocError, Global};
use std::collections::HashMap;

/// The numbers of the files that a file imports.
#[derive(Drop)]
pub(crate) struct Steps {
    pub(crate) plain: Vec<usize>,
    pub(crate) public: Vec<usize>,
}

/// For each file the numbers of those that it imports.
pub(crate) fn steps_of(
    alloc: Global,
    files: &[LinkFile],
    numbers: &HashMap<&str, usize>,
) -> Result<Vec<Steps>, AllocError>
    requires { AreNumbered files.now numbers.now }
    ensures { IfOk result (λ table. IsTableOf files.now table.items) }
{
    let mut table = Vec::with_capacity(alloc, files.len())?;
    for file in files {
        table.push_reserved(steps_of_file(alloc, numbers, file)?);
    }
    Ok(table)
}

/// Whether no two of the files have one path, as `Namespace::new` needs it. `Err` if memory was refused.
pub fn have_own_paths(alloc: Global, files: &[LinkFile]) -> Result<bool, AllocError>
    ensures { IfOk result (λ own. IsTrue own ↔ HaveOwnPaths files.now) }
{
    let mut numbers = HashMap::with_capacity(alloc, files.len())?;
    for (number, file) in files.iter().enumerate() {
        let path = file.path;
        let first = first_at(&mut numbers, path, number)?;
        if first.is_some() {
            return Ok(false);
        }
    }
    Ok(true)
}

/// The number that a path has. If it has none, it gets this one.
fn first_at<'a>(
    numbers: &mut HashMap<&'a str, usize>,
    path: &'a str,
    number: usize,
) -> Result<Option<usize>, AllocError>
    ensures found { IfOk result (λ first. first ≡ number_in numbers.old path.now) }
    ensures kept { IfOk result (λ first. (other : List ℕ) → number_in numbers.new other
        ≡ (if is_some first then number_in numbers.old other else (if bytes_eq path.now other then Some number else
        number_in numbers.old other))) }
{
    if let Some(first) = numbers.get(path) {
        return Ok(Some(*first));
    }
    numbers.insert(path, number)?;
    Ok(None)
}

/// The numbers of the files by their paths.
pub(crate) fn numbers_of<'a>(
    alloc: Global,
    files: &[LinkFile<'a, '_>],
) -> Result<HashMap<&'a str, usize>, AllocError>
    requires { HaveOwnPaths files.now }
    ensures { IfOk result (AreNumbered files.now) }
{
    let mut numbers = HashMap::with_capacity(alloc, files.len())?;
    for (number, file) in files.iter().enumerate() {
        let path = file.path;
        numbers.insert(path, number)?;
    }
    Ok(numbers)
}

/// The same without the files that are left out, by the numbers of all.
pub(crate) fn paths_of<'a>(
    alloc: Global,
    files: &[LinkFile<'a, '_>],
    numbers: HashMap<&'a str, usize>,
) -> Result<HashMap<&'a str, usize>, AllocError>
    requires own { HaveOwnPaths files.now }
    requires numbers { AreNumbered files.now numbers }
    ensures { IfOk result (ArePaths files.now) }
{
    if has_left_out(files) {
        present_paths(alloc, files)
    } else {
        Ok(numbers)
    }
}

/// Whether one of the files is left out.
fn has_left_out(files: &[LinkFile]) -> bool
    ensures { result ≡ list_any (λ (file : File). file.is_left_out) files.now }
{
    files.iter().any(|file| file.is_left_out())
}

/// The same, by a map of their own.
fn present_paths<'a>(
    alloc: Global,
    files: &[LinkFile<'a, '_>],
) -> Result<HashMap<&'a str, usize>, AllocError>
    requires { HaveOwnPaths files.now }
    ensures { IfOk result (ArePaths files.now) }
{
    let mut paths = HashMap::with_capacity(alloc, files.len())?;
    for (number, file) in files.iter().enumerate() {
        if file.is_left_out() {
            continue;
        }
        let path = file.path;
        paths.insert(path, number)?;
    }
    Ok(paths)
}

/// The numbers of the files that one file imports.
fn steps_of_file(
    alloc: Global,
    numbers: &HashMap<&str, usize>,
    file: &LinkFile,
) -> Result<Steps, AllocError>
    ensures public { IfOk result (λ steps. steps.public.items ≡ filter_map (target (number_in numbers.now) true)
        (imports_of file.now)) }
    ensures plain { IfOk result (λ steps. steps.plain.items ≡ filter_map (target (number_in numbers.now) false)
        (imports_of file.now)) }
{
    match file.facts {
        Some(facts) => steps_along(alloc, numbers, facts.imports()),
        None => Ok(Steps::new(alloc)),
    }
}

/// The files that these imports name.
fn steps_along(
    alloc: Global,
    numbers: &HashMap<&str, usize>,
    imports: &[Imported],
) -> Result<Steps, AllocError>
    ensures public { IfOk result (λ steps. steps.public.items ≡ filter_map (target (number_in numbers.now) true)
        imports.now) }
    ensures plain { IfOk result (λ steps. steps.plain.items ≡ filter_map (target (number_in numbers.now) false)
        imports.now) }
{
    let mut steps = Steps::new(alloc);
    for import in imports {
        steps.add_import(numbers, import)?;
    }
    Ok(steps)
}

impl Steps {
    /// None.
    pub(crate) fn new(alloc: Global) -> Steps
        ensures public { result.public.items ≡ [] }
        ensures plain { result.plain.items ≡ [] }
    {
        Steps {
            plain: Vec::new(alloc),
            public: Vec::new(alloc),
        }
    }

    /// Adds the file that an import names, if there is one.
    fn add_import(
        &mut self,
        numbers: &HashMap<&str, usize>,
        import: &Imported,
    ) -> Result<(), AllocError>
        ensures public { OnOk result (self.new.public.items ≡ self.old.public.items ++ filter_map
            (target (number_in numbers.now) true) (import.now ∷ [])) }
        ensures plain { OnOk result (self.new.plain.items ≡ self.old.plain.items ++ filter_map
            (target (number_in numbers.now) false) (import.now ∷ [])) }
    {
        match numbers.get(import.path.as_str()).copied() {
            Some(number) => self.add(import.kind, number),
            None => Ok(()),
        }
    }

    /// Adds a file, by the kind of its import.
    pub(crate) fn add(&mut self, kind: ImportKind, number: usize) -> Result<(), AllocError>
        ensures public { OnOk result (self.new.public.items ≡ (if is_public kind then self.old.public.items
            ++ number ∷ [] else self.old.public.items)) }
        ensures plain { OnOk result (self.new.plain.items ≡ (if is_public kind then self.old.plain.items else
            self.old.plain.items ++ number ∷ [])) }
    {
        match kind {
            ImportKind::Public => self.public.push(number)?,
            ImportKind::Plain | ImportKind::Weak => self.plain.push(number)?,
        }
        Ok(())
    }
}
