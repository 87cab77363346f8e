//! The links of a document's occurrences.

ghost use Rattle.std.specs.Prelude.{◌≡◌, ◌++◌, [], ◌∷◌, IfOk, OnOk, map, filter, cond};
ghost use Rattle.scip_query.specs.Tables.{places_in};
ghost use Rattle.scip_pages.specs.Targets as spec;
ghost use Rattle.scip_pages.specs.Facts.{AreRight};

use crate::code::Link;
use crate::decimals::push_decimal;
use crate::facts::{Facts, Known};
use crate::page_urls::{empty_url, push_place_url};
use crate::places::symbol_listed;
use crate::site::{Site, same_place};
use basics::Sequence;
use scip_query::Place;
use scip_records::Document;
use std::alloc::{AllocError, Global};

/// The links of places, and those of the places where a symbol is defined first.
#[derive(Drop)]
pub(crate) struct Linked {
    pub links: Vec<Link>,
    pub firsts: Vec<Place>,
}

/// The places of a document with a number.
pub(crate) fn places_of(
    alloc: Global,
    number: usize,
    document: &Document,
) -> Result<Vec<Place>, AllocError>
    ensures { IfOk result (λ places. places.items ≡ places_in number document.now) }
{
    let mut places = Vec::new(alloc);
    for occurrence in 0..document.occurrences.as_slice().len() {
        places.push(Place {
            document: number,
            occurrence,
        })?;
    }
    Ok(places)
}

/// Appends the URL of the uses of what the occurrence with a number defines, on the same page.
fn push_uses_url(url: &mut Vec<u8>, number: usize) -> Result<(), AllocError>
    ensures { OnOk result (url.new.items ≡ url.old.items ++ spec.uses_url number) }
{
    url.extend_from_slice(b"#U")?;
    push_decimal(url, number)
}

/// Appends where the occurrence at a place leads whose symbol is defined at another.
fn push_target(
    alloc: Global,
    url: &mut Vec<u8>,
    site: &Site<'_>,
    place: Place,
    definition: Place,
) -> Result<(), AllocError>
    ensures { OnOk result (url.new.items ≡ url.old.items ++ spec.target_of site.now.queries.now place definition) }
{
    if same_place(definition, place) {
        push_uses_url(url, place.occurrence)
    } else {
        push_place_url(alloc, url, site.queries, place.document, definition)
    }
}

/// Where it leads.
fn target_of(
    alloc: Global,
    site: &Site<'_>,
    place: Place,
    definition: Place,
) -> Result<Vec<u8>, AllocError>
    ensures { IfOk result (λ url. url.items ≡ spec.target_of site.now.queries.now place definition) }
{
    let mut url = empty_url(alloc, site.queries, definition)?;
    push_target(alloc, &mut url, site, place, definition)?;
    Ok(url)
}

/// The link of the occurrence at a place, of whose symbol this is known.
fn link_with(alloc: Global, site: &Site<'_>, place: Place, known: Known) -> Result<Link, AllocError>
    ensures { IfOk result (λ link. link ≡ spec.link_with site.now.queries.now place known) }
{
    match known.definition {
        Some(definition) => {
            let url = target_of(alloc, site, place, definition)?;
            Ok(Link {
                target: Some(Sequence::from_vec(url)),
                label: known.label,
            })
        }
        None => Ok(Link {
            target: None,
            label: known.label,
        }),
    }
}

/// Whether a definition is at a place.
fn is_at(place: Place, definition: Option<Place>) -> bool
    ensures { result ≡ spec.is_at place definition }
{
    match definition {
        Some(definition) => same_place(definition, place),
        None => false,
    }
}

/// Appends a place to those where a symbol is defined first, if it is one.
fn push_first(
    firsts: &mut Vec<Place>,
    place: Place,
    definition: Option<Place>,
) -> Result<(), AllocError>
    ensures { OnOk result (firsts.new.items ≡ firsts.old.items ++ cond (spec.is_at place definition) (place ∷ []) []) }
{
    if is_at(place, definition) {
        firsts.push(place)?;
    }
    Ok(())
}

/// Appends the link of a place.
fn push_linked<'a>(
    alloc: Global,
    site: &Site<'a>,
    facts: &mut Facts<'a>,
    linked: &mut Linked,
    place: Place,
) -> Result<(), AllocError>
    requires { AreRight site.now.queries.now site.now.sources.now facts.old.facts.items }
    ensures right { AreRight site.now.queries.now site.now.sources.now facts.new.facts.items }
    ensures links { OnOk result (linked.new.links.items ≡ linked.old.links.items ++ spec.link_at site.now.queries.now
        site.now.sources.now place ∷ []) }
    ensures firsts { OnOk result (linked.new.firsts.items ≡ linked.old.firsts.items
        ++ cond (spec.is_first site.now.queries.now site.now.sources.now place) (place ∷ []) []) }
{
    let symbol = symbol_listed(site.queries.documents(), place);
    let known = facts.known_for(alloc, site, place, symbol)?;
    let definition = known.definition;
    linked.links.push(link_with(alloc, site, place, known)?)?;
    push_first(&mut linked.firsts, place, definition)?;
    Ok(())
}

/// The links of places.
pub(crate) fn linked_of<'a>(
    alloc: Global,
    site: &Site<'a>,
    facts: &mut Facts<'a>,
    places: &[Place],
) -> Result<Linked, AllocError>
    requires { AreRight site.now.queries.now site.now.sources.now facts.old.facts.items }
    ensures right { AreRight site.now.queries.now site.now.sources.now facts.new.facts.items }
    ensures links { IfOk result (λ linked. linked.links.items ≡ map (spec.link_at site.now.queries.now
        site.now.sources.now) places.now) }
    ensures firsts { IfOk result (λ linked. linked.firsts.items ≡ filter (spec.is_first site.now.queries.now
        site.now.sources.now) places.now) }
{
    let mut linked = Linked {
        links: Vec::with_capacity(alloc, places.len())?,
        firsts: Vec::new(alloc),
    };
    for place in places {
        push_linked(alloc, site, facts, &mut linked, *place)?;
    }
    Ok(linked)
}
