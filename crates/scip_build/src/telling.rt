//! What is told of a tree with faults.

ghost use Rattle.std.specs.Prelude.{◌≡◌, ◌++◌, IfOk, OnOk, Some, length, map};
ghost use Rattle.std.specs.List.{flat_map};
ghost use Rattle.std.specs.Ordering.{eq_by_cmp};
ghost use Rattle.scip_build.specs.Linking.{linked_files};
ghost use Rattle.scip_build.specs.Kept.{IsLeftFor, told_key, told_cmp};
ghost use Rattle.scip_build.specs.Telling.{Adds, FromFront, IsLeftIf, IsSomeOmission, AreSomeOmissions};
ghost use Rattle.scip_build.specs.Telling.{number_in, told_gap, told_import, told_use, told_uncertain, AreInOrder};
ghost use Rattle.scip_build.specs.Telling.{all_told};

use crate::linking::fault_at;
use crate::omission::Omission;
use crate::parsed_file::ParsedFile;
use proto_link::{FileOmission, FilePlace, LinkFault, UncertainUse};
use std::alloc::AllocError;
use std::cmp::Ordering;

/// Why the file with this number is left out, as it is told.
fn left_for(parsed: &[ParsedFile<'_>], number: usize, omission: FileOmission) -> Omission
    requires { IsSomeOmission (linked_files parsed.now) number (Some omission) }
    ensures { IsLeftFor parsed.now number omission result }
{
    match omission {
        FileOmission::Broken => Omission::File(number, fault_at(parsed, number)),
        FileOmission::Duplicate(first, second) => Omission::Duplicate(first, second),
    }
}

/// Adds why a file is left out, if it is.
fn push_omission(
    told: &mut Vec<Omission>,
    parsed: &[ParsedFile<'_>],
    number: usize,
    omission: &Option<FileOmission>,
) -> Result<(), AllocError>
    requires { IsSomeOmission (linked_files parsed.now) number omission.now }
    ensures { OnOk result (Adds (IsLeftIf parsed.now number omission.now) told.old.items told.new.items) }
{
    if let Some(omission) = omission {
        told.push(left_for(parsed, number, *omission))?;
    }
    Ok(())
}

/// Adds why each file that is left out is.
pub(crate) fn push_omissions(
    told: &mut Vec<Omission>,
    parsed: &[ParsedFile<'_>],
    omissions: &[Option<FileOmission>],
) -> Result<(), AllocError>
    requires { AreSomeOmissions (linked_files parsed.now) omissions.now }
    ensures { OnOk result (Adds
        (FromFront (IsLeftIf parsed.now) omissions.now (length omissions.now)) told.old.items told.new.items) }
{
    for number in 0..omissions.len() {
        let omission = &omissions[number];
        push_omission(told, parsed, number, omission)?;
    }
    Ok(())
}

/// What a list of numbers has at a number; the number itself after its end.
fn number_in(numbers: &[usize], number: usize) -> usize
    ensures { result ≡ number_in numbers.now number }
{
    match numbers.get(number) {
        Some(number) => *number,
        None => number,
    }
}

/// A place of a kept file, by the file's number in a list of numbers.
fn moved(numbers: &[usize], place: &FilePlace) -> FilePlace
    ensures { result ≡ record { file = number_in numbers.now place.now.file; span = place.now.span } }
{
    FilePlace {
        file: number_in(numbers, place.file),
        span: place.span,
    }
}

/// Adds the imports at these places of kept files.
fn push_imports(
    told: &mut Vec<Omission>,
    numbers: &[usize],
    places: &[FilePlace],
) -> Result<(), AllocError>
    ensures { OnOk result (told.new.items ≡ told.old.items ++ map (told_import numbers.now) places.now) }
{
    for place in places {
        told.push(Omission::MissingImport(moved(numbers, place)))?;
    }
    Ok(())
}

/// Adds a use of a kept file that names nothing.
fn push_use(
    told: &mut Vec<Omission>,
    numbers: &[usize],
    fault: &LinkFault,
) -> Result<(), AllocError>
    ensures { OnOk result (told.new.items ≡ told.old.items ++ told_use numbers.now fault.now) }
{
    match fault {
        LinkFault::Unresolved(place) => told.push(Omission::Unresolved(moved(numbers, place)))?,
        LinkFault::Ambiguous(place) => told.push(Omission::Ambiguous(moved(numbers, place)))?,
        _ => {}
    }
    Ok(())
}

/// Adds the uses of kept files that name nothing.
fn push_uses(
    told: &mut Vec<Omission>,
    numbers: &[usize],
    faults: &[LinkFault],
) -> Result<(), AllocError>
    ensures { OnOk result (told.new.items ≡ told.old.items ++ flat_map (told_use numbers.now) faults.now) }
{
    for fault in faults {
        push_use(told, numbers, fault)?;
    }
    Ok(())
}

/// Adds the uses of kept files that may name another type, and the names in their options that may name another field,
/// each by the number of the file for which it may.
fn push_uncertain(
    told: &mut Vec<Omission>,
    numbers: &[usize],
    uncertain: &[UncertainUse],
) -> Result<(), AllocError>
    ensures { OnOk result (told.new.items ≡ told.old.items ++ map (told_uncertain numbers.now) uncertain.now) }
{
    for one in uncertain {
        let behind = number_in(numbers, one.behind);
        told.push(Omission::Uncertain(moved(numbers, &one.place), behind))?;
    }
    Ok(())
}

/// Adds the options of kept files that have gaps at these places.
fn push_gaps(
    told: &mut Vec<Omission>,
    numbers: &[usize],
    places: &[FilePlace],
) -> Result<(), AllocError>
    ensures { OnOk result (told.new.items ≡ told.old.items ++ map (told_gap numbers.now) places.now) }
{
    for place in places {
        told.push(Omission::OptionGap(moved(numbers, place)))?;
    }
    Ok(())
}

/// Where in the tree an omission is told.
fn told_key(omission: &Omission) -> ((usize, usize), (usize, usize))
    ensures { result ≡ told_key omission.now }
{
    match omission {
        Omission::File(number, _) => ((*number, 0), (0, 0)),
        Omission::Duplicate(_, second) => ((second.file, 0), (0, 0)),
        Omission::MissingImport(place) => (
            (place.file, place.span.start as usize),
            (place.span.end as usize, 0),
        ),
        Omission::Unresolved(place) => (
            (place.file, place.span.start as usize),
            (place.span.end as usize, 1),
        ),
        Omission::Ambiguous(place) => (
            (place.file, place.span.start as usize),
            (place.span.end as usize, 2),
        ),
        Omission::Uncertain(place, _) => (
            (place.file, place.span.start as usize),
            (place.span.end as usize, 3),
        ),
        Omission::OptionGap(place) => (
            (place.file, place.span.start as usize),
            (place.span.end as usize, 4),
        ),
    }
}

/// The order in which what a run lacks is told.
fn compare_told(a: &Omission, b: &Omission) -> Ordering
    ensures { result ≡ told_cmp a.now b.now }
{
    told_key(a).cmp(&told_key(b))
}

/// Whether two have one place in that order, so that one of them is told.
fn are_told_together(a: &Omission, b: &Omission) -> bool
    ensures { result ≡ eq_by_cmp told_cmp a.now b.now }
{
    compare_told(a, b) == Ordering::Equal
}

/// The same, in order, each once.
fn in_order(told: Vec<Omission>) -> Result<Vec<Omission>, AllocError>
    ensures { IfOk result (λ once. AreInOrder told.items once.items) }
{
    let mut told = told;
    told.sort_by(|a, b| compare_told(a, b))?;
    told.dedup_by(|a, b| are_told_together(a, b));
    Ok(told)
}

/// All that is told: what is left out, the imports of kept files without a target, why uses of them name nothing,
/// which uses of them may name another type or names in their options another field, and which options have gaps; files
/// have these numbers among all.
pub(crate) fn tell(
    left: Vec<Omission>,
    numbers: &[usize],
    imports: &[FilePlace],
    faults: &[LinkFault],
    uncertain: &[UncertainUse],
    option_gaps: &[FilePlace],
) -> Result<Vec<Omission>, AllocError>
    ensures { IfOk result (λ once. AreInOrder
        (all_told left.items numbers.now imports.now faults.now uncertain.now option_gaps.now) once.items) }
{
    let mut told = left;
    push_imports(&mut told, numbers, imports)?;
    push_uses(&mut told, numbers, faults)?;
    push_uncertain(&mut told, numbers, uncertain)?;
    push_gaps(&mut told, numbers, option_gaps)?;
    in_order(told)
}
