//! Documents whose path another one has.

ghost use Rattle.std.specs.Prelude.{◌≡◌, ◌||◌, ℕ, List, IfOk, length, map};
ghost use Rattle.std.specs.Str.{bytes_eq};
ghost use Rattle.scip_query.specs.Tables.{numbers};
ghost use Rattle.scip_site.specs.Repeats.{is_repeated, is_seen};

use scip_pages::path_listed;
use scip_records::Document;
use std::alloc::{AllocError, Global};
use std::collections::HashMap;

/// Whether a path is among those that are seen. From now on it is.
fn see<'a>(
    seen: &mut HashMap<&'a str, usize>,
    path: &'a str,
    number: usize,
) -> Result<bool, AllocError>
    ensures found { IfOk result (λ was. was ≡ is_seen seen.old path.now) }
    ensures seen { IfOk result (λ was. (other : List ℕ) → is_seen seen.new other
        ≡ (bytes_eq path.now other || is_seen seen.old other)) }
{
    let was = seen.get(path).is_some();
    seen.insert(path, number)?;
    Ok(was)
}

/// For each document whether one before it has its path.
pub(crate) fn are_repeated(alloc: Global, documents: &[Document]) -> Result<Vec<bool>, AllocError>
    ensures { IfOk result (λ repeats. repeats.items ≡ map (is_repeated documents.now)
        (numbers (length documents.now))) }
{
    let mut seen = HashMap::new(alloc);
    let mut repeats = Vec::with_capacity(alloc, documents.len())?;
    for number in 0..documents.len() {
        let is_repeat = see(&mut seen, path_listed(documents, number), number)?;
        repeats.push(is_repeat)?;
    }
    Ok(repeats)
}
