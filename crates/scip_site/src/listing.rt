//! The page of a document whose symbols are listed.

ghost use Rattle.std.specs.Prelude.{◌≡◌, ◌++◌, ℕ, List, map, IfOk};
ghost use Rattle.std.specs.Borrow.{Bor};
ghost use Rattle.scip_pages.specs.Facts.{AreRight};
ghost use Rattle.scip_pages.specs.Page.{page_of, firsts_of};
ghost use Rattle.scip_site.specs.Script.{listing_text};

use crate::script::push_listing;
use scip_pages::{Asked, Facts, Site, page_and_firsts};
use std::alloc::{AllocError, Global};

/// The page of a document; what it defines first is appended to the list of symbols. What is known of the index's
/// symbols is kept for the next page.
pub(crate) fn listed_page<'a>(
    alloc: Global,
    site: &Site<'a>,
    facts: &mut Facts<'a>,
    asked: &Asked<'_>,
    script: &mut Vec<u8>,
) -> Result<Vec<u8>, AllocError>
    requires { AreRight site.now.queries.now site.now.sources.now facts.old.facts.items }
    ensures right { AreRight site.now.queries.now site.now.sources.now facts.new.facts.items }
    ensures page { IfOk result (λ page. page.items ≡ page_of site.now.queries.now site.now.sources.now asked.now.number
        asked.now.document.now asked.now.lines.now.unit (map (λ (l : Bor (List ℕ)). l.now) asked.now.lines.now.lines)) }
    ensures listed { IfOk result (λ page. script.new.items ≡ script.old.items ++ listing_text site.now.queries.now
        asked.now.lines.now.unit (map (λ (l : Bor (List ℕ)). l.now) asked.now.lines.now.lines)
        asked.now.document.now.relative_path
        (firsts_of site.now.queries.now site.now.sources.now asked.now.number asked.now.document.now)) }
{
    let mut firsts = Vec::new(alloc);
    let page = page_and_firsts(alloc, site, facts, asked, &mut firsts)?;
    let path = asked.document.relative_path.as_str();
    push_listing(alloc, script, site, path, asked, &firsts)?;
    Ok(page)
}
