//! What pages are made of, and where they are.

ghost use Rattle.std.specs.Prelude.{◌≡◌, ◌++◌, [], IfOk, OnOk, codes, cond, nat_eq};
ghost use Rattle.std.specs.List.{starts_with};
ghost use Rattle.std.specs.String.{string_bytes};
ghost use Rattle.scip_pages.specs.Site as spec;

use basics::OwnedText;
use scip_query::{Place, Queries};
use std::alloc::{AllocError, Global};

/// An index, and for each of its documents the source, if the document has a page.
#[derive(Clone, Copy)]
pub struct Site<'a> {
    /// The index, with its tables.
    pub queries: &'a Queries,
    /// The sources, in the order of the documents.
    pub sources: &'a [Option<OwnedText>],
}

/// Whether the document with a number has a page.
pub fn has_page(sources: &[Option<OwnedText>], number: usize) -> bool
    ensures { result ≡ spec.has_page sources.now number }
{
    match sources.get(number) {
        Some(source) => source.is_some(),
        None => false,
    }
}

/// Whether two places are one.
pub(crate) fn same_place(a: Place, b: Place) -> bool
    ensures { result ≡ spec.same_place a b }
{
    a.document == b.document && a.occurrence == b.occurrence
}

/// Appends a `~` if the rest of a path begins with the end of a folder's name that ends as that of a page does.
fn push_mark(marks: &mut String, rest: &[u8]) -> Result<(), AllocError>
    ensures { OnOk result (string_bytes marks.new ≡ string_bytes marks.old ++ cond (starts_with nat_eq rest.now
        (codes ".html/")) (codes "~") []) }
{
    if rest.starts_with(b".html/") {
        marks.push_str("~")
    } else {
        Ok(())
    }
}

/// A `~` for each folder on a path whose name ends as that of a page does.
pub(crate) fn folder_marks(alloc: Global, path: &str) -> Result<String, AllocError>
    ensures { IfOk result (λ marks. string_bytes marks ≡ spec.folder_marks path.now) }
{
    let mut marks = String::new(alloc);
    let mut rest = path.as_bytes();
    while let [_, others @ ..] = rest {
        push_mark(&mut marks, rest)?;
        rest = others;
    }
    Ok(marks)
}

/// The path of the page of a document with a path.
pub fn page_path(alloc: Global, path: &str) -> Result<String, AllocError>
    ensures { IfOk result (λ page. string_bytes page ≡ spec.page_path path.now) }
{
    let marks = folder_marks(alloc, path)?;
    let mut page = String::from_str(alloc, "src")?;
    page.push_str(marks.as_str())?;
    page.push_str("/")?;
    page.push_str(path)?;
    page.push_str(".html")?;
    Ok(page)
}
