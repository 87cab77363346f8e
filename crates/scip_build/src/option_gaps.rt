//! The gaps of options, if faults are refused.

ghost use Rattle.std.specs.Prelude.{◌≡◌, ◌⊎◌, ◌↔◌, ◌∷◌, [], Contains, IsTrue, MatchOption, MatchResult};
ghost use Rattle.proto_visibility.specs.declared.files.FilePlace.{FilePlace};
ghost use Rattle.scip_build.specs.declared.faulty.Faulty.TheVariants.{Refuse};
ghost use Rattle.scip_build.specs.declared.fault.BuildFault.TheVariants.{OptionGap};
ghost use Rattle.scip_build.specs.Documents.{ComesBefore, IsFirstPlace};

use crate::fault::BuildFault;
use crate::faulty::Faulty;
use crate::made::Made;
use proto_link::FilePlace;

/// Whether a place comes before another.
fn comes_before(place: &FilePlace, other: &FilePlace) -> bool
    ensures { IsTrue result ↔ ComesBefore place.now other.now }
{
    if place.file != other.file {
        return place.file < other.file;
    }
    if place.span.start != other.span.start {
        return place.span.start < other.span.start;
    }
    place.span.end < other.span.end
}

/// The first of two places.
fn earlier(place: FilePlace, other: FilePlace) -> FilePlace
    ensures { ((result ≡ place) × ComesBefore place other) ⊎ ((result ≡ other) × (ComesBefore place other → ⊥)) }
{
    if comes_before(&place, &other) {
        place
    } else {
        other
    }
}

/// The first of a place and some others.
fn first_of(first: FilePlace, others: &[FilePlace]) -> FilePlace
    ensures { IsFirstPlace (Contains (first ∷ others.now)) result }
{
    let mut least = first;
    for place in others {
        least = earlier(*place, least);
    }
    least
}

/// The first of some places.
fn first_place(places: &[FilePlace]) -> Option<FilePlace>
    ensures { MatchOption result (places.now ≡ []) (IsFirstPlace (Contains places.now)) }
{
    match places {
        [] => None,
        [first, others @ ..] => Some(first_of(*first, others)),
    }
}

/// The first gap, if such are refused.
fn first_refused(faulty: Faulty, gaps: &[FilePlace]) -> Option<FilePlace>
    ensures { MatchOption result
        (faulty ≡ Refuse → gaps.now ≡ [])
        (λ place. (faulty ≡ Refuse) × IsFirstPlace (Contains gaps.now) place) }
{
    match faulty {
        Faulty::Refuse => first_place(gaps),
        Faulty::Skip => None,
    }
}

/// What is made, unless faults are refused and an option has a gap: then it is `OptionGap` at the first.
pub(crate) fn without_gaps<T: Drop>(faulty: Faulty, made: Made<T>) -> Result<Made<T>, BuildFault>
    ensures { MatchResult result
        (λ same. (same ≡ made) × (faulty ≡ Refuse → made.option_gaps ≡ []))
        (λ fault. (faulty ≡ Refuse) × (place : FilePlace) × (fault ≡ OptionGap place)
        × IsFirstPlace (Contains made.option_gaps) place) }
{
    match first_refused(faulty, made.option_gaps.as_slice()) {
        Some(place) => Err(BuildFault::OptionGap(place)),
        None => Ok(made),
    }
}
