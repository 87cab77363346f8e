//! The order of a document's occurrences, and lists in this order made one.

ghost use Rattle.std.specs.Prelude.{◌≡◌, IfOk, map};
ghost use Rattle.std.specs.Ordering.{on};
ghost use Rattle.std.specs.List.Sorted.{IsStrictlySortedBy};
ghost use Rattle.scip_model.specs.OccurrenceOrder.{occurrence_cmp};
ghost use Rattle.scip_model.specs.Tables.Plans.{Around, occurrence_of, planned_cmp};
ghost use Rattle.scip_model.specs.Tables.Merges.{AreUntied, IsMadeSingle, IsMerged, IsMergedApart};
ghost use Rattle.scip_model.specs.Tables.Merges.{TakesLeast, fronts_cmp};

use crate::document_plan::PlannedOccurrence;
use crate::symbol_table::SymbolTable;
use std::alloc::{AllocError, Global};
use std::cmp::Ordering;
use std::collections::VecDeque;

/// By start, then end, then symbol, which has one of these texts.
fn compare_occurrences(
    texts: &SymbolTable,
    a: &PlannedOccurrence,
    b: &PlannedOccurrence,
) -> Ordering
    ensures each { (around : Around) → result ≡ occurrence_cmp (occurrence_of around texts.now a.now)
        (occurrence_of around texts.now b.now) }
    ensures plain { result ≡ planned_cmp texts.now a.now b.now }
{
    let start = a.range.start_line().cmp(&b.range.start_line());
    let start = start.then(a.range.start_column().cmp(&b.range.start_column()));
    let end = a.range.end_line().cmp(&b.range.end_line());
    let end = end.then(a.range.end_column().cmp(&b.range.end_column()));
    match start.then(end) {
        Ordering::Equal => texts.compare(a.symbol, b.symbol),
        apart => apart,
    }
}

/// How the first of one list compares with that of another. Nothing comes after everything.
fn compare_fronts(
    texts: &SymbolTable,
    first: &VecDeque<PlannedOccurrence>,
    second: &VecDeque<PlannedOccurrence>,
) -> Ordering
    ensures { (around : Around) → result ≡ fronts_cmp (on (occurrence_of around texts.now) occurrence_cmp)
        first.now.items second.now.items }
{
    match (first.front(), second.front()) {
        (Some(a), Some(b)) => compare_occurrences(texts, a, b),
        (Some(_), None) => Ordering::Less,
        (None, _) => Ordering::Greater,
    }
}

/// Takes the least occurrence of two lists in order; of two that are tied, one is let go.
fn take_least(
    texts: &SymbolTable,
    first: &mut VecDeque<PlannedOccurrence>,
    second: &mut VecDeque<PlannedOccurrence>,
) -> Option<PlannedOccurrence>
    ensures { (around : Around) → TakesLeast (fronts_cmp (on (occurrence_of around texts.now) occurrence_cmp)
        first.old.items second.old.items)
        first.old.items second.old.items result first.new.items second.new.items }
{
    match compare_fronts(texts, first, second) {
        Ordering::Less => first.pop_front(),
        Ordering::Equal => {
            second.pop_front();
            first.pop_front()
        }
        Ordering::Greater => second.pop_front(),
    }
}

/// Two lists in order as one, in linear time. The symbols have these texts. Of two occurrences that are tied, that of
/// the second list is let go.
pub(crate) fn merged(
    alloc: Global,
    texts: &SymbolTable,
    first: Vec<PlannedOccurrence>,
    second: Vec<PlannedOccurrence>,
) -> Result<Vec<PlannedOccurrence>, AllocError>
    ensures untied { IfOk result (λ both. (around : Around)
        → AreUntied occurrence_cmp
        (map (occurrence_of around texts.now) first.items) (map (occurrence_of around texts.now) second.items)
        → IsMerged occurrence_cmp (map (occurrence_of around texts.now) first.items)
        (map (occurrence_of around texts.now) second.items) (map (occurrence_of around texts.now) both.items)) }
    ensures apart { IfOk result (λ both. (around : Around)
        → IsStrictlySortedBy occurrence_cmp (map (occurrence_of around texts.now) first.items)
        → IsStrictlySortedBy occurrence_cmp (map (occurrence_of around texts.now) second.items)
        → IsMergedApart occurrence_cmp (map (occurrence_of around texts.now) first.items)
        (map (occurrence_of around texts.now) second.items) (map (occurrence_of around texts.now) both.items)) }
{
    let mut both = Vec::with_capacity(alloc, first.len().saturating_add(second.len()))?;
    let mut first_left = VecDeque::from_vec(first);
    let mut second_left = VecDeque::from_vec(second);
    while let Some(next) = take_least(texts, &mut first_left, &mut second_left) {
        both.push(next)?;
    }
    Ok(both)
}

/// A list in order, with one of those that are tied. The symbols have these texts.
pub(crate) fn in_order(
    texts: &SymbolTable,
    list: Vec<PlannedOccurrence>,
) -> Result<Vec<PlannedOccurrence>, AllocError>
    ensures { IfOk result (λ once. (around : Around) → IsMadeSingle occurrence_cmp
        (map (occurrence_of around texts.now) list.items) (map (occurrence_of around texts.now) once.items)) }
{
    let mut list = list;
    list.sort_by(|a, b| compare_occurrences(texts, a, b))?;
    list.dedup_by(|a, b| compare_occurrences(texts, a, b).is_eq());
    Ok(list)
}
