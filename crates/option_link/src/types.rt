//! What uses of types name, found once.

ghost use Rattle.std.specs.Prelude.{◌≡◌, Contains, IfSome};
ghost use Rattle.std.specs.List.{slice_get};

use crate::place::DeclaredPlace;

/// The type that the use of a file names whose first component starts at an offset, if it names one.
#[derive(Clone, Copy, Debug, PartialEq, Eq)]
pub(crate) struct FoundType {
    pub(crate) file: usize,
    pub(crate) start: u32,
    pub(crate) found: Option<DeclaredPlace>,
}

/// Whether a use is in front of one of a file that starts at an offset.
pub(crate) fn is_in_front(one: &FoundType, file: usize, start: u32) -> bool {
    if one.file != file {
        return one.file < file;
    }
    one.start < start
}

/// The one with a number.
fn type_with(types: &[FoundType], index: usize) -> Option<FoundType>
    ensures { result ≡ slice_get types.now index }
{
    types.get(index).copied()
}

/// One of these of a use of a file that starts at an offset: if they are in order, it is found where there is one.
pub(crate) fn type_among(types: &[FoundType], file: usize, start: u32) -> Option<FoundType>
    ensures { IfSome result (λ one. Contains types.now one × (one.file ≡ file) × (one.start ≡ start)) }
{
    let before = types.partition_point(|one| is_in_front(one, file, start));
    match type_with(types, before) {
        Some(one) => {
            if one.file != file {
                return None;
            }
            if one.start != start {
                return None;
            }
            Some(one)
        }
        None => None,
    }
}
