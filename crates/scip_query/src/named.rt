//! What has a name: occurrences and entries.

ghost use Rattle.std.specs.Prelude.{◌≡◌, ◌++◌, Some, IfOk, OnOk, map, filter};
ghost use Rattle.std.specs.List.{flat_map, slice_get};
ghost use Rattle.scip_query.specs.MoreViews.{entry_view, site_view};
ghost use Rattle.scip_query.specs.Named.{
  definitions_named,
  entries_named,
  has_name,
  is_defining,
  is_name,
  is_named,
  references_named,
};
ghost use Rattle.scip_query.specs.References.{is_definition};
ghost use Rattle.scip_query.specs.Tables.Named.{kept_if, kept_in};
ghost use Rattle.scip_query.specs.Views.{named_view};

use crate::lookups::DEFINITION;
use crate::names::likeness;
use crate::place::Place;
use crate::queries::{Named, Queries, Subject};
use crate::site::Site;
use scip_records::{Occurrence, SymbolInformation};
use std::alloc::{AllocError, Global};

/// Whether a text is a name of a symbol, which is shown by another. An error means that memory was refused.
fn is_name(alloc: Global, text: &str, shown: &str, symbol: &str) -> Result<bool, AllocError>
    ensures { IfOk result (λ is. is ≡ is_name text.now shown.now symbol.now) }
{
    match likeness(alloc, text, shown, symbol)? {
        Some(exact) => Ok(exact),
        None => Ok(false),
    }
}

/// Appends an entry with a name.
fn push_entry<'a>(
    alloc: Global,
    entries: &mut Vec<&'a SymbolInformation>,
    text: &str,
    entry: &'a SymbolInformation,
) -> Result<(), AllocError>
    ensures { OnOk result (map entry_view entries.new.items ≡ map entry_view entries.old.items
        ++ kept_if (is_named text.now) entry.now) }
{
    if is_name(
        alloc,
        text,
        entry.display_name.as_str(),
        entry.symbol.as_str(),
    )? {
        entries.push(entry)?;
    }
    Ok(())
}

/// Appends those of some entries with a name.
fn push_entries<'a>(
    alloc: Global,
    entries: &mut Vec<&'a SymbolInformation>,
    text: &str,
    all: &'a [SymbolInformation],
) -> Result<(), AllocError>
    ensures { OnOk result (map entry_view entries.new.items ≡ map entry_view entries.old.items
        ++ flat_map (kept_if (is_named text.now)) all.now) }
{
    for entry in all {
        push_entry(alloc, entries, text, entry)?;
    }
    Ok(())
}

/// Whether an occurrence defines its symbol.
fn is_definition(occurrence: &Occurrence) -> bool
    ensures { result ≡ is_definition occurrence.now }
{
    occurrence.symbol_roles & DEFINITION != 0
}

/// Appends an occurrence that defines its symbol.
fn push_defining<'a>(defining: &mut Vec<Site<'a>>, site: Site<'a>) -> Result<(), AllocError>
    ensures { OnOk result (map site_view defining.new.items ≡ map site_view defining.old.items
        ++ kept_if is_defining (site_view site.entry)) }
{
    if is_definition(site.occurrence) {
        defining.push(site)?;
    }
    Ok(())
}

impl Queries {
    /// Whether an occurrence has a name.
    fn has_name(&self, alloc: Global, text: &str, site: Site<'_>) -> Result<bool, AllocError>
        requires listed { slice_get self.now.documents site.place.document ≡ Some site.document.now }
        ensures { IfOk result (λ has. has ≡ has_name self.now text.now (site_view site.entry)) }
    {
        let symbol = site.occurrence.symbol.as_str();
        if symbol.is_empty() {
            return Ok(false);
        }
        let subject = Subject {
            asked: Named {
                number: site.place.document,
                document: site.document,
            },
            symbol,
        };
        is_name(alloc, text, self.shown_name(&subject), symbol)
    }

    /// Appends an occurrence with a name.
    fn push_named<'a>(
        &'a self,
        alloc: Global,
        sites: &mut Vec<Site<'a>>,
        text: &str,
        site: Site<'a>,
    ) -> Result<(), AllocError>
        requires listed { slice_get self.now.documents site.place.document ≡ Some site.document.now }
        ensures { OnOk result (map site_view sites.new.items ≡ map site_view sites.old.items
            ++ kept_if (has_name self.now text.now) (site_view site.entry)) }
    {
        if self.has_name(alloc, text, site)? {
            sites.push(site)?;
        }
        Ok(())
    }

    /// Appends the occurrences of a document with a name.
    fn push_named_in<'a>(
        &'a self,
        alloc: Global,
        sites: &mut Vec<Site<'a>>,
        text: &str,
        named: Named<'a>,
    ) -> Result<(), AllocError>
        requires listed { slice_get self.now.documents named.number ≡ Some named.document.now }
        ensures { OnOk result (map site_view sites.new.items ≡ map site_view sites.old.items
            ++ kept_in (has_name self.now text.now) (named_view named.entry)) }
    {
        let document = named.document;
        let occurrences = document.occurrences.as_slice();
        for (number, occurrence) in occurrences.iter().enumerate() {
            let place = Place {
                document: named.number,
                occurrence: number,
            };
            let site = Site {
                place,
                document,
                occurrence,
            };
            self.push_named(alloc, sites, text, site)?;
        }
        Ok(())
    }

    /// The occurrences of all symbols with a name, in the index's order: the text is the display name of the symbol's
    /// entry, the symbol's full name, or what is behind a dot of that (names as `find` has them).
    ///
    /// An error means that memory was refused.
    pub fn references_named(&self, alloc: Global, text: &str) -> Result<Vec<Site<'_>>, AllocError>
        ensures { IfOk result (λ sites. map site_view sites.items ≡ references_named self.now text.now) }
    {
        let mut sites = Vec::new(alloc);
        let documents = self.documents();
        for (number, document) in documents.iter().enumerate() {
            let named = Named { number, document };
            self.push_named_in(alloc, &mut sites, text, named)?;
        }
        Ok(sites)
    }

    /// Those that define a symbol.
    pub fn definitions_named(&self, alloc: Global, text: &str) -> Result<Vec<Site<'_>>, AllocError>
        ensures { IfOk result (λ sites. map site_view sites.items ≡ definitions_named self.now text.now) }
    {
        let sites = self.references_named(alloc, text)?;
        let mut defining = Vec::new(alloc);
        for site in sites.as_slice() {
            push_defining(&mut defining, *site)?;
        }
        Ok(defining)
    }

    /// The symbol entries with a name: those of all documents in the index's order, then the external ones.
    ///
    /// An error means that memory was refused.
    pub fn entries_named(
        &self,
        alloc: Global,
        text: &str,
    ) -> Result<Vec<&SymbolInformation>, AllocError>
        ensures { IfOk result (λ entries. map entry_view entries.items ≡ entries_named self.now text.now) }
    {
        let mut entries = Vec::new(alloc);
        for document in self.documents() {
            push_entries(alloc, &mut entries, text, document.symbols.as_slice())?;
        }
        push_entries(alloc, &mut entries, text, self.external_symbols())?;
        Ok(entries)
    }
}
