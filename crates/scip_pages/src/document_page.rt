//! The page of a document.

ghost use Rattle.std.specs.Prelude.{◌≡◌, ◌++◌, ℕ, List, map, IfOk, OnOk};
ghost use Rattle.std.specs.Borrow.{Bor};
ghost use Rattle.scip_pages.specs.Page as spec;
ghost use Rattle.scip_pages.specs.Facts.{AreRight};

use crate::code_table::{Code, push_code};
use crate::counted::Lines;
use crate::crumbs::{push_crumbs, push_head};
use crate::facts::Facts;
use crate::links::{linked_of, places_of};
use crate::site::{Site, page_path};
use crate::uses::push_all_defined;
use scip_query::Place;
use scip_records::Document;
use std::alloc::{AllocError, Global};

/// The room for a line of a page: most pages fit that have as much for each.
const LINE_ROOM: usize = 384;

/// A document with its number, and the lines of its source.
#[derive(Clone, Copy)]
pub struct Asked<'a> {
    /// The document's number.
    pub number: usize,
    /// The document.
    pub document: &'a Document,
    /// The lines of its source.
    pub lines: &'a Lines<'a>,
}

/// Appends what a page begins with.
fn push_start(alloc: Global, page: &mut Vec<u8>, path: &str) -> Result<(), AllocError>
    ensures { OnOk result (page.new.items ≡ page.old.items ++ spec.start_text path.now) }
{
    let from = page_path(alloc, path)?;
    push_head(alloc, page, from.as_str(), path)?;
    push_crumbs(alloc, page, from.as_str(), path)
}

/// Appends what is below the head of a page.
fn push_main<'a>(
    alloc: Global,
    page: &mut Vec<u8>,
    site: &Site<'a>,
    facts: &Facts<'a>,
    code: &Code<'_>,
    firsts: &[Place],
) -> Result<(), AllocError>
    requires { AreRight site.now.queries.now site.now.sources.now facts.now.facts.items }
    ensures { OnOk result (page.new.items ≡ page.old.items ++ spec.main_text site.now.queries.now site.now.sources.now
        code.now.lines.now.unit code.now.occurrences.now code.now.links.now
        (map (λ (l : Bor (List ℕ)). l.now) code.now.lines.now.lines) firsts.now) }
{
    page.extend_from_slice(b"<main>\n<pre>")?;
    push_code(alloc, page, code)?;
    page.extend_from_slice(b"</pre>\n")?;
    push_all_defined(alloc, page, site, facts, code, firsts)?;
    page.extend_from_slice(b"</main>\n</body>\n</html>\n")?;
    Ok(())
}

/// The page of a document with a path, whose code and first definitions are known.
fn page_with<'a>(
    alloc: Global,
    site: &Site<'a>,
    facts: &Facts<'a>,
    path: &str,
    code: &Code<'_>,
    firsts: &[Place],
) -> Result<Vec<u8>, AllocError>
    requires { AreRight site.now.queries.now site.now.sources.now facts.now.facts.items }
    ensures { IfOk result (λ page. page.items ≡ spec.start_text path.now ++ spec.main_text site.now.queries.now
        site.now.sources.now code.now.lines.now.unit code.now.occurrences.now code.now.links.now
        (map (λ (l : Bor (List ℕ)). l.now) code.now.lines.now.lines) firsts.now) }
{
    let mut page = Vec::with_capacity(alloc, code.lines.texts().len().saturating_mul(LINE_ROOM))?;
    push_start(alloc, &mut page, path)?;
    push_main(alloc, &mut page, site, facts, code, firsts)?;
    Ok(page)
}

/// The page of a document. The places of what it defines first are appended to a list, and what is known of the index's
/// symbols is kept for the next page.
pub fn page_and_firsts<'a>(
    alloc: Global,
    site: &Site<'a>,
    facts: &mut Facts<'a>,
    asked: &Asked<'_>,
    defined: &mut Vec<Place>,
) -> Result<Vec<u8>, AllocError>
    requires { AreRight site.now.queries.now site.now.sources.now facts.old.facts.items }
    ensures right { AreRight site.now.queries.now site.now.sources.now facts.new.facts.items }
    ensures page { IfOk result (λ page. page.items ≡ spec.page_of site.now.queries.now site.now.sources.now
        asked.now.number asked.now.document.now asked.now.lines.now.unit (map (λ (l : Bor (List ℕ)). l.now)
        asked.now.lines.now.lines)) }
    ensures firsts { IfOk result (λ page. defined.new.items ≡ defined.old.items ++ spec.firsts_of site.now.queries.now
        site.now.sources.now asked.now.number asked.now.document.now) }
{
    let places = places_of(alloc, asked.number, asked.document)?;
    let linked = linked_of(alloc, site, facts, &places)?;
    let code = Code {
        occurrences: asked.document.occurrences.as_slice(),
        links: &linked.links,
        lines: asked.lines,
    };
    let path = asked.document.relative_path.as_str();
    let firsts = linked.firsts.as_slice();
    defined.extend_from_slice(firsts)?;
    page_with(alloc, site, facts, path, &code, firsts)
}

/// The page of a document. What is known of the index's symbols is kept for the next page.
pub fn page<'a>(
    alloc: Global,
    site: &Site<'a>,
    facts: &mut Facts<'a>,
    asked: &Asked<'_>,
) -> Result<Vec<u8>, AllocError>
    requires { AreRight site.now.queries.now site.now.sources.now facts.old.facts.items }
    ensures right { AreRight site.now.queries.now site.now.sources.now facts.new.facts.items }
    ensures page { IfOk result (λ page. page.items ≡ spec.page_of site.now.queries.now site.now.sources.now
        asked.now.number asked.now.document.now asked.now.lines.now.unit (map (λ (l : Bor (List ℕ)). l.now)
        asked.now.lines.now.lines)) }
{
    let mut firsts = Vec::new(alloc);
    page_and_firsts(alloc, site, facts, asked, &mut firsts)
}
