//! The search for what is at a position.

ghost use Rattle.std.specs.Prelude.{◌≡◌, option_copied, filter, length};
ghost use Rattle.std.specs.List.{find, slice_get};
ghost use Rattle.std.specs.Option.{option_and_then};
ghost use Rattle.scip_query.specs.OccurrenceAt.{stands_at, innermost_of};
ghost use Rattle.scip_query.specs.Tables.{numbers, IsTable};
ghost use Rattle.scip_query.specs.Tables.Searches.{starts_behind, stands_listed, inner_cmp};

use crate::position::{Position, compare_start, stands_at};
use scip_records::Occurrence;

/// Whether the occurrence with a number starts after a position, or there is none.
fn starts_behind(occurrences: &[Occurrence], number: usize, position: Position) -> bool
    ensures { result ≡ starts_behind occurrences.now position number }
{
    match occurrences.get(number) {
        Some(occurrence) => compare_start(occurrence, position).is_gt(),
        None => true,
    }
}

/// Whether the occurrence with a number is at a position.
fn stands_listed(occurrences: &[Occurrence], number: usize, position: Position) -> bool
    ensures { result ≡ stands_listed occurrences.now position number }
{
    match occurrences.get(number) {
        Some(occurrence) => stands_at(occurrence, position),
        None => false,
    }
}

/// The first of these numbers whose occurrence is at a position.
fn first_standing(
    occurrences: &[Occurrence],
    numbers: &[usize],
    position: Position,
) -> Option<usize>
    ensures { result ≡ find (stands_listed occurrences.now position) numbers.now }
{
    for number in numbers {
        if stands_listed(occurrences, *number, position) {
            return Some(*number);
        }
    }
    None
}

/// The occurrence with a number.
fn numbered(occurrences: &[Occurrence], number: Option<usize>) -> Option<&Occurrence>
    ensures { option_copied result ≡ option_and_then (slice_get occurrences.now) number }
{
    match number {
        Some(number) => occurrences.get(number),
        None => None,
    }
}

/// The innermost of a document's occurrences that are at a position: in the table the search begins at the last start
/// that isn't after the position.
pub(crate) fn innermost_at<'a>(
    occurrences: &'a [Occurrence],
    inner: &[usize],
    position: Position,
) -> Option<&'a Occurrence>
    requires { IsTable (inner_cmp occurrences.now) (numbers (length occurrences.now)) inner.now }
    ensures { option_copied result ≡ innermost_of (filter (stands_at position) occurrences.now) }
{
    let from = inner.partition_point(|number| starts_behind(occurrences, *number, position));
    let number = first_standing(occurrences, inner.split_at(from).1, position);
    numbered(occurrences, number)
}
