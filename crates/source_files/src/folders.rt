//! The paths of the files below each of several roots.

ghost use Rattle.std.specs.Prelude.{◌≡◌, IfOk, map, string_bytes};
ghost use Rattle.source_tree.specs.Files.{paths_of};

use crate::root_files::RootFiles;
use source_tree::Source;
use std::alloc::{AllocError, Global};

/// The paths of files.
pub(crate) fn paths_of(alloc: Global, files: &[Source]) -> Result<Vec<String>, AllocError>
    ensures { IfOk result (λ paths. map string_bytes paths.items ≡ paths_of files.now) }
{
    let mut paths = Vec::new(alloc);
    for file in files {
        paths.push(String::from_str(alloc, file.path.as_str())?)?;
    }
    Ok(paths)
}

/// The paths of what is read below each root.
pub(crate) fn paths_of_each(
    alloc: Global,
    each: &[RootFiles],
) -> Result<Vec<Vec<String>>, AllocError>
    ensures { IfOk result (λ all. map (λ paths. map string_bytes paths.items) all.items
        ≡ map (λ below. paths_of below.files) each.now) }
{
    let mut all = Vec::new(alloc);
    for below in each {
        all.push(paths_of(alloc, &below.files)?)?;
    }
    Ok(all)
}
