//! Occurrences, each with its document.

ghost use Rattle.std.specs.Prelude.{◌≡◌, ◌++◌, IfOk, OnOk, map};
ghost use Rattle.std.specs.List.{flat_map};
ghost use Rattle.std.specs.Option.{option_map};
ghost use Rattle.scip_query.specs.MoreViews.{site_view};
ghost use Rattle.scip_query.specs.Tables.Searches.{site_listed, some_of};

use crate::place::Place;
use scip_records::{Document, Occurrence};
use std::alloc::{AllocError, Global};

/// An occurrence, its document, and its place in the index.
#[derive(Clone, Copy, Debug)]
pub struct Site<'a> {
    /// Where the index lists it.
    pub place: Place,
    /// The document that it is in.
    pub document: &'a Document,
    /// The occurrence.
    pub occurrence: &'a Occurrence,
}

/// The occurrence at a place, with its document, if there is one.
fn site_at(documents: &[Document], place: Place) -> Option<Site<'_>>
    ensures { option_map site_view result ≡ site_listed documents.now place }
{
    match documents.get(place.document) {
        Some(document) => match document.occurrences.as_slice().get(place.occurrence) {
            Some(occurrence) => Some(Site {
                place,
                document,
                occurrence,
            }),
            None => None,
        },
        None => None,
    }
}

/// Appends the occurrence at a place, if there is one.
fn push_site<'a>(
    sites: &mut Vec<Site<'a>>,
    documents: &'a [Document],
    place: Place,
) -> Result<(), AllocError>
    ensures { OnOk result (map site_view sites.new.items ≡ map site_view sites.old.items
        ++ some_of (site_listed documents.now place)) }
{
    if let Some(site) = site_at(documents, place) {
        sites.push(site)?;
    }
    Ok(())
}

/// The occurrences at places, with their documents.
pub(crate) fn sites_at<'a>(
    alloc: Global,
    documents: &'a [Document],
    places: &[Place],
) -> Result<Vec<Site<'a>>, AllocError>
    ensures { IfOk result (λ sites. map site_view sites.items
        ≡ flat_map (λ place. some_of (site_listed documents.now place)) places.now) }
{
    let mut sites = Vec::new(alloc);
    for place in places {
        push_site(&mut sites, documents, *place)?;
    }
    Ok(sites)
}
