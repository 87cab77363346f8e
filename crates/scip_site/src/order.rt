//! The documents of an index by their paths.

ghost use Rattle.std.specs.Prelude.{◌≡◌, IfOk};
ghost use Rattle.scip_query.specs.Tables.{path_cmp, IsByPath};

use scip_pages::{numbers, path_listed};
use scip_records::Document;
use std::alloc::{AllocError, Global};
use std::cmp::Ordering;

/// By path.
fn compare_paths(documents: &[Document], a: usize, b: usize) -> Ordering
    ensures { result ≡ path_cmp documents.now a b }
{
    path_listed(documents, a).cmp(path_listed(documents, b))
}

/// The numbers of documents in the order of their paths' bytes; of one path in the index's order.
pub(crate) fn by_path(alloc: Global, documents: &[Document]) -> Result<Vec<usize>, AllocError>
    ensures { IfOk result (λ order. IsByPath documents.now order.items) }
{
    let mut order = numbers(alloc, documents.len())?;
    order.sort_by(|a, b| compare_paths(documents, *a, *b))?;
    Ok(order)
}
