//! Definitions that a text finds.

ghost use Rattle.std.specs.Prelude.{◌≡◌, ◌++◌, Some, cond, IfOk, OnOk, map};
ghost use Rattle.std.specs.List.{slice_get};
ghost use Rattle.scip_query.specs.Finding.{found_as, found_at, found_in, all_found, found_cmp, found_by};
ghost use Rattle.scip_query.specs.Sorting.{sorted_by};
ghost use Rattle.scip_query.specs.MoreViews.{found_view};
ghost use Rattle.scip_query.specs.Views.{named_view};

use crate::names::likeness;
use crate::outline::defines;
use crate::queries::{Named, Queries, Subject};
use scip_records::Occurrence;
use std::alloc::{AllocError, Global};
use std::cmp::Ordering;

/// The most definitions that are answered.
pub const MAX_FOUND: usize = 100;

/// A definition that a text finds.
#[derive(Clone, Copy, Debug)]
pub struct Found<'a> {
    /// Whether the text is a name of its symbol. If not, it begins one.
    pub exact: bool,
    /// The path of its document.
    pub path: &'a str,
    /// The definition.
    pub occurrence: &'a Occurrence,
}

/// The rank of what is found: that of which the text is a name comes first.
fn rank_of(exact: bool) -> u8
    ensures { result ≡ cond exact 0 1 }
{
    if exact { 0 } else { 1 }
}

/// Those of which the text is a name first, then by the symbol's length, and then by the symbol.
fn compare_found(a: &Found<'_>, b: &Found<'_>) -> Ordering
    ensures { result ≡ found_cmp (found_view a.now) (found_view b.now) }
{
    let exact = rank_of(a.exact).cmp(&rank_of(b.exact));
    let (a, b) = (a.occurrence.symbol.as_str(), b.occurrence.symbol.as_str());
    exact.then(a.len().cmp(&b.len()).then(a.cmp(b)))
}

/// Sorts what is found.
fn sort_found(found: &mut Vec<Found<'_>>) -> Result<(), AllocError>
    ensures { OnOk result (map found_view found.new.items ≡ sorted_by found_cmp (map found_view found.old.items)) }
{
    found.sort_by(|a, b| compare_found(a, b))
}

/// Appends a definition, if a text is like its symbol.
fn push_like<'a>(
    found: &mut Vec<Found<'a>>,
    named: Named<'a>,
    occurrence: &'a Occurrence,
    like: Option<bool>,
) -> Result<(), AllocError>
    ensures { OnOk result (map found_view found.new.items ≡ map found_view found.old.items ++ found_as
        (named_view named.entry) occurrence.now like) }
{
    if let Some(exact) = like {
        found.push(Found {
            exact,
            path: named.document.relative_path.as_str(),
            occurrence,
        })?;
    }
    Ok(())
}

impl Queries {
    /// Appends an occurrence, if a text finds it.
    fn push_found<'a>(
        &'a self,
        alloc: Global,
        found: &mut Vec<Found<'a>>,
        text: &str,
        named: Named<'a>,
        occurrence: &'a Occurrence,
    ) -> Result<(), AllocError>
        requires listed { slice_get self.now.documents named.number ≡ Some named.document.now }
        ensures { OnOk result (map found_view found.new.items ≡ map found_view found.old.items ++ found_at self.now
            text.now (named_view named.entry) occurrence.now) }
    {
        if !defines(occurrence) {
            return Ok(());
        }
        let symbol = occurrence.symbol.as_str();
        let subject = Subject {
            asked: named,
            symbol,
        };
        let like = likeness(alloc, text, self.shown_name(&subject), symbol)?;
        push_like(found, named, occurrence, like)
    }

    /// Appends what a text finds in a document.
    fn push_found_in<'a>(
        &'a self,
        alloc: Global,
        found: &mut Vec<Found<'a>>,
        text: &str,
        named: Named<'a>,
    ) -> Result<(), AllocError>
        requires listed { slice_get self.now.documents named.number ≡ Some named.document.now }
        ensures { OnOk result (map found_view found.new.items ≡ map found_view found.old.items ++ found_in self.now
            text.now (named_view named.entry)) }
    {
        for occurrence in named.document.occurrences.as_slice() {
            self.push_found(alloc, found, text, named, occurrence)?;
        }
        Ok(())
    }

    /// What a text finds in all documents, in the index's order.
    fn all_found<'a>(&'a self, alloc: Global, text: &str) -> Result<Vec<Found<'a>>, AllocError>
        ensures { IfOk result (λ found. map found_view found.items ≡ all_found self.now text.now) }
    {
        let mut found = Vec::new(alloc);
        let documents = self.documents();
        for (number, document) in documents.iter().enumerate() {
            let named = Named { number, document };
            self.push_found_in(alloc, &mut found, text, named)?;
        }
        Ok(found)
    }

    /// The definitions that a text finds, at most `MAX_FOUND`.
    ///
    /// A symbol has two names: its entry's display name, and its full name, which is what is behind its last space (its
    /// descriptors) with dots between them, without names in backticks; a local symbol has no full name. Of the full
    /// name that end counts which has no more dots than the text. A definition is found if the text is one of these,
    /// or if one of them begins with the text, whatever their ASCII letters' case is. The former come first, then those
    /// with shorter symbols, then the lesser symbol, then the index's order.
    ///
    /// An error means that memory was refused.
    pub fn find(&self, alloc: Global, text: &str) -> Result<Vec<Found<'_>>, AllocError>
        ensures { IfOk result (λ found. map found_view found.items ≡ found_by self.now text.now) }
    {
        let mut found = self.all_found(alloc, text)?;
        sort_found(&mut found)?;
        found.truncate(MAX_FOUND);
        Ok(found)
    }
}
