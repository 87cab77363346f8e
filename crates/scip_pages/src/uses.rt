//! What a page defines, and who uses it.

ghost use Rattle.std.specs.Prelude.{◌≡◌, ◌++◌, ℕ, List, map, codes, IfOk, OnOk, option_copied};
ghost use Rattle.std.specs.Borrow.{Bor};
ghost use Rattle.std.specs.List.{flat_map};
ghost use Rattle.scip_query.specs.Tables.{path_listed};
ghost use Rattle.scip_pages.specs.Site.{line_listed};
ghost use Rattle.scip_pages.specs.Facts.{AreRight};
ghost use Rattle.scip_pages.specs.Escapes.{escape};
ghost use Rattle.scip_pages.specs.Targets.{label_at, uses_id};
ghost use Rattle.scip_pages.specs.Uses as spec;
ghost use Rattle.scip_pages.specs.Urls.{line_place};

use crate::code::push_attribute;
use crate::code_table::Code;
use crate::counted::Lines;
use crate::decimals::push_decimal;
use crate::escapes::push_escaped;
use crate::facts::Facts;
use crate::marks::push_link;
use crate::page_urls::{place_url, push_line_place};
use crate::places::{line_listed, occurrence_listed, path_listed, symbol_listed};
use crate::site::{Site, has_page, same_place};
use crate::snapshots::parts_of;
use scip_query::Place;
use scip_records::{Document, Occurrence};
use std::alloc::{AllocError, Global};

/// Besides the path, the room for the name of a use: most fit.
const LINE_ROOM: usize = 8;

/// The room for the name of a place on a page: most fit.
const PLACE_ROOM: usize = 8;

/// How a use is named: by its path and its line.
fn use_name(alloc: Global, path: &str, line: usize) -> Result<Vec<u8>, AllocError>
    ensures { IfOk result (λ name. name.items ≡ spec.use_name path.now line) }
{
    let mut name = Vec::with_capacity(alloc, path.len().saturating_add(LINE_ROOM))?;
    name.extend_from_slice(path.as_bytes())?;
    name.extend_from_slice(b":")?;
    push_decimal(&mut name, line)?;
    Ok(name)
}

/// The name of the use at a place.
fn name_at(alloc: Global, documents: &[Document], place: Place) -> Result<Vec<u8>, AllocError>
    ensures { IfOk result (λ name. name.items ≡ spec.use_name (path_listed documents.now place.document)
        (line_listed documents.now place)) }
{
    let path = path_listed(documents, place.document);
    use_name(alloc, path, line_listed(documents, place))
}

/// Appends a use with a name, to which a URL leads.
fn push_use_link(page: &mut Vec<u8>, url: &[u8], name: &[u8]) -> Result<(), AllocError>
    ensures { OnOk result (page.new.items ≡ page.old.items ++ spec.use_link url.now name.now) }
{
    page.extend_from_slice(b"<dd>")?;
    push_link(page, url, name)?;
    page.extend_from_slice(b"</dd>\n")
}

/// Appends a use to the page of the document with the number `from`.
fn push_use(
    alloc: Global,
    page: &mut Vec<u8>,
    site: &Site<'_>,
    from: usize,
    place: Place,
) -> Result<(), AllocError>
    ensures { OnOk result (page.new.items ≡ page.old.items ++ spec.use_text site.now.queries.now from place) }
{
    let url = place_url(alloc, site.queries, from, place)?;
    let name = name_at(alloc, site.queries.documents(), place)?;
    push_use_link(page, &url, &name)
}

/// Whether a place is a use of what is defined at another.
fn is_use(site: &Site<'_>, definition: Place, place: Place) -> bool
    ensures { result ≡ spec.is_use site.now.sources.now definition place }
{
    has_page(site.sources, place.document) && !same_place(definition, place)
}

/// Appends a place, if it is a use of what is defined at another.
fn push_if_use(
    alloc: Global,
    page: &mut Vec<u8>,
    site: &Site<'_>,
    definition: Place,
    place: Place,
) -> Result<(), AllocError>
    ensures { OnOk result (page.new.items ≡ page.old.items ++ spec.use_or_none site.now.queries.now site.now.sources.now
        definition place) }
{
    if is_use(site, definition, place) {
        push_use(alloc, page, site, definition.document, place)
    } else {
        Ok(())
    }
}

/// Appends the uses of what is defined at a place.
fn push_uses<'a>(
    alloc: Global,
    page: &mut Vec<u8>,
    site: &Site<'a>,
    facts: &Facts<'a>,
    definition: Place,
) -> Result<(), AllocError>
    requires { AreRight site.now.queries.now site.now.sources.now facts.now.facts.items }
    ensures { OnOk result (page.new.items ≡ page.old.items ++ spec.uses_text site.now.queries.now site.now.sources.now
        definition) }
{
    let symbol = symbol_listed(site.queries.documents(), definition);
    let places = facts.places_for(site, definition, symbol);
    for place in places {
        push_if_use(alloc, page, site, definition, *place)?;
    }
    Ok(())
}

/// The text that an occurrence marks on the line on which it begins.
pub fn marked_text<'a>(lines: &'a Lines<'a>, occurrence: Option<&Occurrence>) -> &'a [u8]
    ensures { result.now ≡ spec.marked_text lines.now.unit (map (λ (l : Bor (List ℕ)). l.now) lines.now.lines)
        (option_copied occurrence.entry) }
{
    match occurrence {
        Some(occurrence) => {
            let line = lines.line(occurrence.range.start_line() as usize);
            parts_of(&line, occurrence.range).1
        }
        None => &[],
    }
}

/// A name, and if it is empty a path.
fn name_or_path<'a>(path: &'a str, name: &'a [u8]) -> &'a [u8]
    ensures { result.now ≡ spec.name_or_path path.now name.now }
{
    match name {
        [] => path.as_bytes(),
        [_, ..] => name,
    }
}

/// The name of what is defined at a place: the text that is marked, and if that is empty the path of the document.
fn defined_name<'a>(site: &Site<'a>, code: &Code<'a>, place: Place) -> &'a [u8]
    ensures { result.now ≡ spec.defined_name site.now.queries.now code.now.lines.now.unit
        (map (λ (l : Bor (List ℕ)). l.now) code.now.lines.now.lines) place }
{
    let documents = site.queries.documents();
    let name = marked_text(code.lines, occurrence_listed(documents, place));
    name_or_path(path_listed(documents, place.document), name)
}

/// The place of the uses of what the occurrence with a number defines.
fn uses_id(alloc: Global, occurrence: usize) -> Result<Vec<u8>, AllocError>
    ensures { IfOk result (λ id. id.items ≡ uses_id occurrence) }
{
    let mut id = Vec::with_capacity(alloc, PLACE_ROOM)?;
    id.extend_from_slice(b"U")?;
    push_decimal(&mut id, occurrence)?;
    Ok(id)
}

/// The URL of a line of the same page.
fn line_url(alloc: Global, line: usize) -> Result<Vec<u8>, AllocError>
    ensures { IfOk result (λ url. url.items ≡ line_place line) }
{
    let mut url = Vec::with_capacity(alloc, PLACE_ROOM)?;
    push_line_place(&mut url, line)?;
    Ok(url)
}

/// Appends the attributes of what is defined at a place: its own place, and the link to its line.
fn push_places(
    alloc: Global,
    page: &mut Vec<u8>,
    occurrence: usize,
    line: usize,
) -> Result<(), AllocError>
    ensures { OnOk result (page.new.items ≡ page.old.items ++ spec.places_text occurrence line) }
{
    let id = uses_id(alloc, occurrence)?;
    let url = line_url(alloc, line)?;
    page.extend_from_slice(b"<dt")?;
    push_attribute(page, b"id", &id)?;
    page.extend_from_slice(b"><a")?;
    push_attribute(page, b"href", &url)?;
    page.extend_from_slice(b"><b>")
}

/// Appends, behind the name of what is defined at a place, all that is said of it.
fn push_said<'a>(
    alloc: Global,
    page: &mut Vec<u8>,
    site: &Site<'a>,
    facts: &Facts<'a>,
    place: Place,
) -> Result<(), AllocError>
    requires { AreRight site.now.queries.now site.now.sources.now facts.now.facts.items }
    ensures { OnOk result (page.new.items ≡ page.old.items ++ codes "</b> <span>"
        ++ escape (label_at site.now.queries.now place) ++ codes "</span></a></dt>\n") }
{
    let label = facts.label_for(alloc, site, place)?;
    page.extend_from_slice(b"</b> <span>")?;
    push_escaped(page, &label)?;
    page.extend_from_slice(b"</span></a></dt>\n")
}

/// Appends what is defined at a place, and all that is said of it.
fn push_defined_head<'a>(
    alloc: Global,
    page: &mut Vec<u8>,
    site: &Site<'a>,
    facts: &Facts<'a>,
    code: &Code<'_>,
    place: Place,
) -> Result<(), AllocError>
    requires { AreRight site.now.queries.now site.now.sources.now facts.now.facts.items }
    ensures { OnOk result (page.new.items ≡ page.old.items ++ spec.defined_head site.now.queries.now
        code.now.lines.now.unit (map (λ (l : Bor (List ℕ)). l.now) code.now.lines.now.lines) place) }
{
    let name = defined_name(site, code, place);
    let line = line_listed(site.queries.documents(), place);
    push_places(alloc, page, place.occurrence, line)?;
    push_escaped(page, name)?;
    push_said(alloc, page, site, facts, place)
}

/// Appends what is defined at a place, and its uses.
fn push_defined<'a>(
    alloc: Global,
    page: &mut Vec<u8>,
    site: &Site<'a>,
    facts: &Facts<'a>,
    code: &Code<'_>,
    place: Place,
) -> Result<(), AllocError>
    requires { AreRight site.now.queries.now site.now.sources.now facts.now.facts.items }
    ensures { OnOk result (page.new.items ≡ page.old.items ++ spec.defined_text site.now.queries.now
        site.now.sources.now code.now.lines.now.unit (map (λ (l : Bor (List ℕ)). l.now) code.now.lines.now.lines)
        place) }
{
    push_defined_head(alloc, page, site, facts, code, place)?;
    push_uses(alloc, page, site, facts, place)
}

/// Appends what is defined at places.
fn push_each_defined<'a>(
    alloc: Global,
    page: &mut Vec<u8>,
    site: &Site<'a>,
    facts: &Facts<'a>,
    code: &Code<'_>,
    firsts: &[Place],
) -> Result<(), AllocError>
    requires { AreRight site.now.queries.now site.now.sources.now facts.now.facts.items }
    ensures { OnOk result (page.new.items ≡ page.old.items ++ flat_map (spec.defined_text site.now.queries.now
        site.now.sources.now code.now.lines.now.unit (map (λ (l : Bor (List ℕ)). l.now) code.now.lines.now.lines))
        firsts.now) }
{
    for place in firsts {
        push_defined(alloc, page, site, facts, code, *place)?;
    }
    Ok(())
}

/// Appends what a page defines.
pub(crate) fn push_all_defined<'a>(
    alloc: Global,
    page: &mut Vec<u8>,
    site: &Site<'a>,
    facts: &Facts<'a>,
    code: &Code<'_>,
    firsts: &[Place],
) -> Result<(), AllocError>
    requires { AreRight site.now.queries.now site.now.sources.now facts.now.facts.items }
    ensures { OnOk result (page.new.items ≡ page.old.items ++ spec.all_defined site.now.queries.now site.now.sources.now
        code.now.lines.now.unit (map (λ (l : Bor (List ℕ)). l.now) code.now.lines.now.lines)
        firsts.now) }
{
    page.extend_from_slice(b"<aside><h2>Definitions and their uses</h2>\n<dl>\n")?;
    push_each_defined(alloc, page, site, facts, code, firsts)?;
    page.extend_from_slice(b"</dl>\n</aside>\n")
}
