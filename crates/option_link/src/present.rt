//! Files that aren't left out.

ghost use Rattle.std.specs.Prelude.{◌↔◌, ◌<◌, IfOk, IsTrue, length};
ghost use Rattle.proto_visibility.specs.Files.{IsPresent};
ghost use Rattle.option_link.specs.Tables.{TellsOf};

use proto_link::Linker;
use std::alloc::{AllocError, Global};

/// Whether a file isn't left out.
pub(crate) fn is_present(linker: &Linker<'_, '_>, file: usize) -> bool
    requires { file < length linker.now }
    ensures { IsTrue result ↔ IsPresent linker.now file }
{
    if linker.is_source(file) {
        return true;
    }
    linker.linked();
    // From here on it is known that no two files have one path: so it is this file that has it.
    linker.has_path(linker.path_of(file))
}

/// For each file whether it isn't left out.
pub(crate) fn present_files(alloc: Global, linker: &Linker<'_, '_>) -> Result<Vec<bool>, AllocError>
    ensures { IfOk result (λ told. TellsOf (IsPresent linker.now) (length linker.now) told.items) }
{
    let mut told = Vec::new(alloc);
    for file in 0..linker.count() {
        let is = is_present(linker, file);
        told.push(is)?;
    }
    Ok(told)
}
