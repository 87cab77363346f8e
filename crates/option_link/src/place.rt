//! Where declarations are.

ghost use Rattle.std.specs.Prelude.{◌≡◌, ◌↔◌, ◌++◌, ◌∷◌, [], if◌then◌else◌, IsTrue, OnOk};
ghost use Rattle.option_link.specs.declared.place.DeclaredPlace.{DeclaredPlace};

use std::alloc::AllocError;

/// Where a declaration is: the number of its file, and its own among the declarations of the file.
#[derive(Clone, Copy, Debug, PartialEq, Eq)]
pub struct DeclaredPlace {
    /// The file's number.
    pub file: usize,
    /// The declaration's number there.
    pub index: usize,
}

/// Whether two places are the same.
pub(crate) fn is_same(one: DeclaredPlace, other: DeclaredPlace) -> bool
    ensures { IsTrue result ↔ (one ≡ other) }
{
    if one.file != other.file {
        return false;
    }
    one.index == other.index
}

/// Adds a place, if it is one.
pub(crate) fn push_if(
    places: &mut Vec<DeclaredPlace>,
    place: DeclaredPlace,
    is: bool,
) -> Result<(), AllocError>
    ensures { OnOk result (places.new.items ≡ (if is then places.old.items ++ place ∷ [] else places.old.items)) }
{
    if !is {
        return Ok(());
    }
    places.push(place)?;
    Ok(())
}
