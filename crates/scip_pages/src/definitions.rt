//! The first definition of a symbol.

ghost use Rattle.std.specs.Prelude.{◌≡◌};
ghost use Rattle.std.specs.List.{find};
ghost use Rattle.scip_pages.specs.Targets as spec;

use crate::places::defines_listed;
use crate::site::{Site, has_page};
use scip_query::Place;

/// Whether a definition that has a page is at a place.
fn is_shown_definition(site: &Site<'_>, place: Place) -> bool
    ensures { result ≡ spec.is_shown_definition site.now.queries.now site.now.sources.now place }
{
    has_page(site.sources, place.document) && defines_listed(site.queries.documents(), place)
}

/// The first of some places where a symbol is defined and that has a page.
pub(crate) fn definition_among(site: &Site<'_>, places: &[Place]) -> Option<Place>
    ensures { result ≡ find (spec.is_shown_definition site.now.queries.now site.now.sources.now) places.now }
{
    for place in places {
        if is_shown_definition(site, *place) {
            return Some(*place);
        }
    }
    None
}
