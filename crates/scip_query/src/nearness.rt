//! Of several definitions of a file, those that are nearest to the document in which it is asked for.

ghost use Rattle.std.specs.Prelude.{◌≡◌, ◌≤◌, ◌-◌, ◌++◌, ℕ, nat_eq, nat_le, max, codes, length, take, filter, IfOk};
ghost use Rattle.std.specs.List.{ends_with, list_all};
ghost use Rattle.scip_query.specs.Nearest.{is_folder, is_root, names_file, nearness, nearness_listed};

use crate::listed::{path_listed, symbol_listed};
use crate::place::Place;
use scip_records::Document;
use std::alloc::{AllocError, Global};

/// A text without so many bytes at its end.
fn without_last(text: &[u8], count: usize) -> &[u8]
    ensures { result.now ≡ take (length text.now - count) text.now }
{
    text.split_at(text.len().saturating_sub(count)).0
}

/// Whether a text ends with a path behind a space and a backtick.
fn ends_with_path(text: &[u8], path: &[u8]) -> bool
    ensures { result ≡ ends_with nat_eq text.now (codes " `" ++ path.now) }
{
    text.ends_with(path) && without_last(text, path.len()).ends_with(b" `")
}

/// Whether a text ends with a path that is quoted as a namespace, behind a space.
fn ends_with_file(text: &[u8], path: &[u8]) -> bool
    ensures { result ≡ ends_with nat_eq text.now (codes " `" ++ path.now ++ codes "`/") }
{
    text.ends_with(b"`/") && ends_with_path(without_last(text, 2), path)
}

/// Whether a symbol is that of a file with this path below its root.
fn names_file(symbol: &[u8], path: &[u8]) -> bool
    ensures { result ≡ names_file symbol.now path.now }
{
    symbol.starts_with(b"scip-protobuf ") && ends_with_file(symbol, path)
}

/// Whether a text is nothing, or ends like the path of a folder.
fn is_folder(text: &[u8]) -> bool
    ensures { result ≡ is_folder text.now }
{
    text.is_empty() || text.ends_with(b"/")
}

/// Whether the first so many bytes of a document's path are the root of the file that the symbol names, and the path
/// that is asked in is below that, too.
fn is_root(asked: &[u8], path: &[u8], symbol: &[u8], count: usize) -> bool
    requires { count ≤ length path.now }
    ensures { result ≡ is_root asked.now path.now symbol.now count }
{
    let (root, file) = path.split_at(count);
    is_folder(root) && asked.starts_with(root) && names_file(symbol, file)
}

/// How near a document is: one more than the bytes of its longest such root; 0 without one.
fn nearness(asked: &[u8], path: &[u8], symbol: &[u8]) -> usize
    ensures { result ≡ nearness asked.now path.now symbol.now }
{
    let mut count = path.len();
    while count > 0 && !is_root(asked, path, symbol, count - 1) {
        count -= 1;
    }
    count
}

/// How near what is listed at a place is.
fn nearness_listed(documents: &[Document], asked: &str, place: Place) -> usize
    ensures { result ≡ nearness_listed documents.now asked.now place }
{
    let path = path_listed(documents, place.document);
    let symbol = symbol_listed(documents, place);
    nearness(asked.as_bytes(), path.as_bytes(), symbol.as_bytes())
}

/// The greater of two numbers.
fn greater(a: usize, b: usize) -> usize
    ensures { result ≡ max a b }
{
    if a < b { b } else { a }
}

/// How near the nearest of places is; 0 if there is none.
fn greatest_nearness(documents: &[Document], asked: &str, places: &[Place]) -> usize
    ensures { (n : ℕ) → nat_le result n
        ≡ list_all (λ place. nat_le (nearness_listed documents.now asked.now place) n) places.now }
{
    let mut greatest = 0;
    for place in places {
        greatest = greater(greatest, nearness_listed(documents, asked, *place));
    }
    greatest
}

/// Those of some places than which none is nearer to the path that is asked in.
pub(crate) fn nearest(
    alloc: Global,
    documents: &[Document],
    asked: &str,
    places: &[Place],
) -> Result<Vec<Place>, AllocError>
    ensures { IfOk result (λ found. found.items ≡ filter (λ place. list_all (λ other. nat_le
        (nearness_listed documents.now asked.now other) (nearness_listed documents.now asked.now place)) places.now)
        places.now) }
{
    let greatest = greatest_nearness(documents, asked, places);
    let mut found = Vec::new(alloc);
    for place in places {
        if greatest <= nearness_listed(documents, asked, *place) {
            found.push(*place)?;
        }
    }
    Ok(found)
}
