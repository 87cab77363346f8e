//! Imports of files that aren't there.

ghost use Rattle.std.specs.Prelude.{ℕ, ◌≡◌, ◌↔◌, ◌++◌, Some, not, MatchOption, IfOk, OnOk, Contains};
ghost use Rattle.std.specs.List.{flat_map};
ghost use Rattle.std.specs.Option.{is_none};
ghost use Rattle.proto_decl.specs.Facts.{ImportsInOrder};
ghost use Rattle.proto_visibility.specs.Reaches.{IsReachable};
ghost use Rattle.proto_visibility.specs.Absences.{Absent, NoAbsent, AreMissing};
ghost use Rattle.proto_visibility.specs.Tables.ImportTables.{
  ArePaths,
  imports_of,
  number_in,
  is_absent,
  absent_at,
  absents_of,
  NoneIsAbsent,
  IsFirstAbsent,
};

use crate::files::{FilePlace, LinkFile, have_origins};
use crate::rows::FileRow;
use proto_decl::{Imported, facts_in_order};
use proto_lex::Span;
use proto_parse::ImportKind;
use std::alloc::{AllocError, Global};
use std::collections::HashMap;

/// The first import, in order of place, that has to be there and names no file.
pub(crate) fn first_absent(
    files: &[LinkFile],
    paths: &HashMap<&str, usize>,
    reachable: &FileRow,
) -> Option<FilePlace>
    requires paths { ArePaths files.now paths.now }
    requires reachable { (number : ℕ) → Contains reachable.now number ↔ IsReachable files.now number }
    ensures { MatchOption result (NoAbsent files.now) (Absent files.now) }
{
    for number in reachable.as_slice() {
        if let Some(span) = absent_of(&files[*number], paths) {
            return Some(FilePlace {
                file: *number,
                span,
            });
        }
    }
    None
}

/// The same for the imports of one file.
fn absent_of(file: &LinkFile, paths: &HashMap<&str, usize>) -> Option<Span>
    ensures first { MatchOption result (NoneIsAbsent (number_in paths.now) file.now.is_included (imports_of file.now))
        (IsFirstAbsent (number_in paths.now) file.now.is_included (imports_of file.now)) }
    ensures in_order { ImportsInOrder (imports_of file.now) }
{
    facts_in_order();
    let included = file.is_included();
    match file.facts {
        Some(facts) => {
            // From here on it is known that the facts are those of some file.
            facts.origin();
            absent_along(facts.imports(), included, paths)
        }
        None => None,
    }
}

/// The first of these imports whose file is missing.
fn absent_along(imports: &[Imported], included: bool, paths: &HashMap<&str, usize>) -> Option<Span>
    ensures { MatchOption result (NoneIsAbsent (number_in paths.now) included imports.now)
        (IsFirstAbsent (number_in paths.now) included imports.now) }
{
    for import in imports {
        if is_absent(import, included, paths) {
            return Some(import.span);
        }
    }
    None
}

/// Whether an import, of an included file or of a source, has to be there and names no file.
fn is_absent(import: &Imported, included: bool, paths: &HashMap<&str, usize>) -> bool
    ensures { result ≡ is_absent (number_in paths.now) included import.now }
{
    let public = match import.kind {
        ImportKind::Public => true,
        ImportKind::Plain | ImportKind::Weak => false,
    };
    (!included || public) && paths.get(import.path.as_str()).copied().is_none()
}

/// Whether a file has the path.
pub(crate) fn is_path_of_one(path: &str, paths: &HashMap<&str, usize>) -> bool
    ensures { result ≡ not (is_none (number_in paths.now path.now)) }
{
    !paths.get(path).copied().is_none()
}

/// The places of all imports that have to be there and name no file, in order.
pub(crate) fn all_absent(
    alloc: Global,
    files: &[LinkFile],
    paths: &HashMap<&str, usize>,
    reachable: &FileRow,
) -> Result<Vec<FilePlace>, AllocError>
    requires paths { ArePaths files.now paths.now }
    requires reachable { (number : ℕ) → Contains reachable.now number ↔ IsReachable files.now number }
    ensures { IfOk result (λ places. AreMissing files.now places.items) }
{
    have_origins(files);
    facts_in_order();
    let mut places = Vec::new(alloc);
    for number in reachable.as_slice() {
        add_absent(&mut places, *number, &files[*number], paths)?;
    }
    Ok(places)
}

/// Adds those of one file.
fn add_absent(
    places: &mut Vec<FilePlace>,
    number: usize,
    file: &LinkFile,
    paths: &HashMap<&str, usize>,
) -> Result<(), AllocError>
    ensures { OnOk result
        (places.new.items ≡ places.old.items ++ absents_of (number_in paths.now) number (Some file.now)) }
{
    match file.facts {
        Some(facts) => add_along(places, number, file.is_included(), facts.imports(), paths),
        None => Ok(()),
    }
}

/// Appends those of these imports whose file is missing.
fn add_along(
    places: &mut Vec<FilePlace>,
    number: usize,
    included: bool,
    imports: &[Imported],
    paths: &HashMap<&str, usize>,
) -> Result<(), AllocError>
    ensures { OnOk result (places.new.items
        ≡ places.old.items ++ flat_map (absent_at (number_in paths.now) included number) imports.now) }
{
    for import in imports {
        add_if_absent(places, number, included, import, paths)?;
    }
    Ok(())
}

/// Appends an import if its file is missing.
fn add_if_absent(
    places: &mut Vec<FilePlace>,
    number: usize,
    included: bool,
    import: &Imported,
    paths: &HashMap<&str, usize>,
) -> Result<(), AllocError>
    ensures { OnOk result (places.new.items
        ≡ places.old.items ++ absent_at (number_in paths.now) included number import.now) }
{
    if is_absent(import, included, paths) {
        places.push(FilePlace {
            file: number,
            span: import.span,
        })?;
    }
    Ok(())
}
