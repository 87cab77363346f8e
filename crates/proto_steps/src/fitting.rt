//! Lists with little room but for their items.

ghost use Rattle.std.specs.Prelude.{◌≡◌, IfOk};

use std::alloc::{AllocError, Global};

/// The most items that are moved into another list. The room that a longer list has over isn't touched, so it takes no
/// memory.
const MAX_MOVED: usize = 1024;

/// The same items, in a list that has room for them alone if they are few.
///
/// A list that grows has room for more, which a tree would keep for each block. Until its items are moved, both lists
/// are there; then the larger one is given back whole, so that the next block's can begin in its place.
pub(crate) fn fitted<T: Drop>(alloc: Global, mut items: Vec<T>) -> Result<Vec<T>, AllocError>
    ensures { IfOk result (λ fitted. fitted.items ≡ items.items) }
{
    if items.len() == items.capacity() || items.len() > MAX_MOVED {
        return Ok(items);
    }
    let mut fitted = Vec::with_capacity(alloc, items.len())?;
    fitted.append(&mut items)?;
    Ok(fitted)
}
