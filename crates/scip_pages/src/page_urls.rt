//! URLs of places and of files.

ghost use Rattle.std.specs.Prelude.{◌≡◌, ◌++◌, [], OnOk, IfOk};
ghost use Rattle.scip_pages.specs.Urls.{encoded, ups, line_place};
ghost use Rattle.scip_pages.specs.Site as spec_site;
ghost use Rattle.scip_pages.specs.Targets as spec;
ghost use Rattle.scip_pages.specs.Crumbs.{file_url, folder_id, folder_url};

use crate::decimals::push_decimal;
use crate::places::{line_listed, path_listed};
use crate::site::folder_marks;
use crate::urls::{push_encoded, push_ups};
use scip_query::{Place, Queries};
use std::alloc::{AllocError, Global};

/// Besides the path, the room for a URL: most fit.
const URL_ROOM: usize = 64;

/// No text yet, with room for the URL of a place.
pub(crate) fn empty_url(
    alloc: Global,
    queries: &Queries,
    place: Place,
) -> Result<Vec<u8>, AllocError>
    ensures { IfOk result (λ url. url.items ≡ []) }
{
    let path = path_listed(queries.documents(), place.document);
    Vec::with_capacity(alloc, path.len().saturating_add(URL_ROOM))
}

/// Appends what leads from the folder of the page of a document with a path to that of all pages.
fn push_page_ups(url: &mut Vec<u8>, path: &str) -> Result<(), AllocError>
    ensures { OnOk result (url.new.items ≡ url.old.items ++ ups (spec_site.page_path path.now)) }
{
    url.extend_from_slice(b"../")?;
    push_ups(url, path.as_bytes())?;
    Ok(())
}

/// Appends the path of the page of a document with a path, as a URL has it.
fn push_page_path(alloc: Global, url: &mut Vec<u8>, path: &str) -> Result<(), AllocError>
    ensures { OnOk result (url.new.items ≡ url.old.items ++ encoded (spec_site.page_path path.now)) }
{
    let marks = folder_marks(alloc, path)?;
    url.extend_from_slice(b"src")?;
    url.extend_from_slice(marks.as_bytes())?;
    url.extend_from_slice(b"/")?;
    push_encoded(url, path.as_bytes())?;
    url.extend_from_slice(b".html")?;
    Ok(())
}

/// Appends the place of a line.
pub(crate) fn push_line_place(url: &mut Vec<u8>, line: usize) -> Result<(), AllocError>
    ensures { OnOk result (url.new.items ≡ url.old.items ++ line_place line) }
{
    url.extend_from_slice(b"#L")?;
    push_decimal(url, line)
}

/// Appends the URL by which the page of the document with the number `from` names the line of a place.
pub(crate) fn push_place_url(
    alloc: Global,
    url: &mut Vec<u8>,
    queries: &Queries,
    from: usize,
    place: Place,
) -> Result<(), AllocError>
    ensures { OnOk result (url.new.items ≡ url.old.items ++ spec.place_url queries.now from place) }
{
    let documents = queries.documents();
    push_page_ups(url, path_listed(documents, from))?;
    push_page_path(alloc, url, path_listed(documents, place.document))?;
    push_line_place(url, line_listed(documents, place))?;
    Ok(())
}

/// The URL by which it does.
pub(crate) fn place_url(
    alloc: Global,
    queries: &Queries,
    from: usize,
    place: Place,
) -> Result<Vec<u8>, AllocError>
    ensures { IfOk result (λ url. url.items ≡ spec.place_url queries.now from place) }
{
    let mut url = empty_url(alloc, queries, place)?;
    push_place_url(alloc, &mut url, queries, from, place)?;
    Ok(url)
}

/// The URL by which the page with the path `from` names a file in the folder of all pages.
pub(crate) fn file_url(alloc: Global, from: &str, file: &[u8]) -> Result<Vec<u8>, AllocError>
    ensures { IfOk result (λ url. url.items ≡ file_url from.now file.now) }
{
    let mut url = Vec::new(alloc);
    push_ups(&mut url, from.as_bytes())?;
    url.extend_from_slice(file)?;
    Ok(url)
}

/// Appends the id of a folder on the first page.
pub fn push_folder_id(text: &mut Vec<u8>, folder: &[u8]) -> Result<(), AllocError>
    ensures { OnOk result (text.new.items ≡ text.old.items ++ folder_id folder.now) }
{
    text.extend_from_slice(b"d/")?;
    push_encoded(text, folder)
}

/// The URL by which it names the place of a folder on the first page.
pub(crate) fn folder_url(alloc: Global, from: &str, folder: &[u8]) -> Result<Vec<u8>, AllocError>
    ensures { IfOk result (λ url. url.items ≡ folder_url from.now folder.now) }
{
    let mut url = file_url(alloc, from, b"index.html")?;
    url.extend_from_slice(b"#")?;
    push_folder_id(&mut url, folder)?;
    Ok(url)
}
