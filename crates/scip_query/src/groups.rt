//! Places by symbol, gathered in one pass: no two places are compared to make a table of them.

ghost use Rattle.std.specs.Prelude.{◌≡◌, ◌++◌, ◌∷◌, [], ℕ, List, IfOk, OnOk, if◌then◌else◌};
ghost use Rattle.std.specs.List.{flat_map};
ghost use Rattle.std.specs.Str.{bytes_eq};
ghost use Rattle.std.specs.Ordering.{nat_cmp, on};
ghost use Rattle.std.specs.Cmp.Lexicographic.{slice_cmp};
ghost use Rattle.scip_query.specs.Tables.{IsTable};
ghost use Rattle.scip_query.specs.Tables.Groups.{gathered_at, AreGathered};

use basics::Sequence;
use indexmap::IndexMap;
use std::alloc::{AllocError, Global};

/// Adds a place to those with its symbol.
pub(crate) fn add_place<'a, N: Drop>(
    groups: &mut IndexMap<&'a str, Vec<N>>,
    symbol: &'a str,
    place: N,
) -> Result<(), AllocError>
    ensures { OnOk result ((other : List ℕ) → gathered_at groups.new other ≡ (if bytes_eq symbol.now other then
        gathered_at groups.old other ++ place ∷ [] else gathered_at groups.old other)) }
{
    groups.entry(symbol)?.or_default().push(place)?;
    Ok(())
}

/// Appends the places of lists, one list after another.
fn append_lists<N: Copy>(places: &mut Vec<N>, lists: &[Vec<N>]) -> Result<(), AllocError>
    ensures { OnOk result (places.new.items ≡ places.old.items ++ flat_map (λ list. list.items) lists.now) }
{
    for list in lists {
        places.extend_from_slice(list.as_slice())?;
    }
    Ok(())
}

/// The table of these places by symbol, of which the groups are. The list of the places becomes the table.
pub(crate) fn by_group<N: Copy>(
    mut places: Vec<N>,
    mut groups: IndexMap<&str, Vec<N>>,
) -> Result<Sequence<N>, AllocError>
    ensures { IfOk result (λ table. (symbol : N → List ℕ) → AreGathered symbol places.items (gathered_at groups.entry)
        → IsTable (on symbol (slice_cmp nat_cmp)) places.items table) }
{
    groups.sort_keys()?;
    places.clear();
    append_lists(&mut places, groups.values().as_slice())?;
    Ok(Sequence::from_vec(places))
}
