//! The choices of files that were read.

ghost use Rattle.std.specs.Prelude.{◌≡◌, map, IfOk};
ghost use Rattle.scip_build.specs.Linking.{choices_of};

use crate::parsed_file::ParsedFile;
use index_hooks::Choice;
use std::alloc::{AllocError, Global};

/// The choices for the declarations of a file; none if it has no contents.
fn choices_of(alloc: Global, parsed_file: &ParsedFile<'_>) -> Result<Vec<Choice>, AllocError>
    ensures { IfOk result (λ list. list.items ≡ choices_of parsed_file.now) }
{
    match &parsed_file.contents {
        Ok(contents) => Vec::from_slice(alloc, contents.choices.as_slice()),
        Err(_) => Ok(Vec::new(alloc)),
    }
}

/// A copy of the choices: for each file, by its number, a list, in the order of its declarations.
/// The parsed files are borrowed while the files are linked, so the choices can't be moved out of them. A file without
/// contents has an empty list. An error means that memory was refused.
pub(crate) fn chosen_lists(
    alloc: Global,
    parsed: &[ParsedFile<'_>],
) -> Result<Vec<Vec<Choice>>, AllocError>
    ensures { IfOk result (λ lists. map (λ list. list.items) lists.items ≡ map choices_of parsed.now) }
{
    let mut lists = Vec::with_capacity(alloc, parsed.len())?;
    for parsed_file in parsed {
        lists.push(choices_of(alloc, parsed_file)?)?;
    }
    Ok(lists)
}
