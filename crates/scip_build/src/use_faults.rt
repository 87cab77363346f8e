//! Why uses of files name nothing.

ghost use Rattle.std.specs.Prelude.{◌≡◌, ◌<◌, ◌↔◌, All, Contains, IsTrue, IfOk, length};
ghost use Rattle.proto_visibility.specs.declared.fault.LinkFault.TheVariants.{Ambiguous};
ghost use Rattle.proto_visibility.specs.declared.files.FilePlace.{FilePlace};
ghost use Rattle.scip_build.specs.declared.fault.BuildFault.TheVariants.{Unresolved};
ghost use Rattle.scip_build.specs.Documents.{IsAmbiguousAt, IsToldFor};
ghost use Rattle.scip_build.specs.Telling.{AreUseFaults, is_in, is_one_place};
ghost use Rattle.scip_build.specs.UseFaults.{is_ambiguous};

use crate::fault::BuildFault;
use proto_link::{FilePlace, LinkFault, Linker};
use std::alloc::{AllocError, Global};

/// Whether two places are one.
fn is_one_place(a: &FilePlace, b: &FilePlace) -> bool
    ensures { result ≡ is_one_place a.now b.now }
{
    a.file == b.file && a.span.start == b.span.start && a.span.end == b.span.end
}

/// Whether a fault is that of an ambiguous use at a place.
fn is_ambiguous(fault: &LinkFault, place: &FilePlace) -> bool
    ensures { result ≡ is_ambiguous fault.now place.now }
{
    match fault {
        LinkFault::Ambiguous(other) => is_one_place(other, place),
        _ => false,
    }
}

/// Whether one of these faults is.
fn has_ambiguous(faults: &[LinkFault], place: &FilePlace) -> bool
    ensures { IsTrue result ↔ Contains faults.now (Ambiguous place.now) }
{
    for fault in faults {
        if is_ambiguous(fault, place) {
            return true;
        }
    }
    false
}

/// Whether some use at a place of a file is ambiguous.
pub(crate) fn is_ambiguous_at(
    alloc: Global,
    linker: &Linker<'_, '_>,
    place: FilePlace,
) -> Result<bool, AllocError>
    requires { place.file < length linker.now }
    ensures { IfOk result (λ is. IsTrue is ↔ IsAmbiguousAt linker.now place) }
{
    let faults = linker.use_faults(alloc, place.file)?;
    Ok(has_ambiguous(faults.as_slice(), &place))
}

/// Why linked files make nothing, by the place of a use that names nothing.
fn refusal_at(alloc: Global, linker: &Linker<'_, '_>, place: FilePlace) -> BuildFault
    requires { place.file < length linker.now }
    ensures { IsToldFor linker.now (Unresolved place) result }
{
    match is_ambiguous_at(alloc, linker, place) {
        Ok(true) => BuildFault::Ambiguous(place),
        Ok(false) => BuildFault::Unresolved(place),
        Err(_) => BuildFault::Memory,
    }
}

/// The same, by why their documents aren't made.
pub(crate) fn refusal_by(alloc: Global, linker: &Linker<'_, '_>, fault: BuildFault) -> BuildFault
    requires { (place : FilePlace) → fault ≡ Unresolved place → place.file < length linker.now }
    ensures { IsToldFor linker.now fault result }
{
    match fault {
        BuildFault::Unresolved(place) => refusal_at(alloc, linker, place),
        fault => fault,
    }
}

/// Whether a place is in the file with this number.
fn is_in(place: &FilePlace, number: Option<usize>) -> bool
    ensures { result ≡ is_in place.now number }
{
    match number {
        Some(number) => number == place.file,
        None => false,
    }
}

/// Why uses name nothing of the files in which these places are, of which those of one file stand side by side.
pub(crate) fn faults_at(
    alloc: Global,
    linker: &Linker<'_, '_>,
    places: &[FilePlace],
) -> Result<Vec<LinkFault>, AllocError>
    requires { All (λ place. place.file < length linker.now) places.now }
    ensures { IfOk result (λ faults. AreUseFaults linker.now places.now faults.items) }
{
    let mut faults = Vec::new(alloc);
    let mut last = None;
    for place in places {
        if is_in(place, last) {
            continue;
        }
        let mut its = linker.use_faults(alloc, place.file)?;
        faults.append(&mut its)?;
        last = Some(place.file);
    }
    Ok(faults)
}
