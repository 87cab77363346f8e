//! Marks of numbers by their last 16 bits: what has a number that isn't marked isn't there.

ghost use Rattle.std.specs.Prelude.{ℕ, ◌≡◌, ◌%◌, ◌↔◌, IfOk, IsTrue};
ghost use Rattle.option_link.specs.Marks.{AddsMark, IsMarked};

use std::alloc::{AllocError, Global};

/// How many marks there are.
const MARKS: usize = 65_536;

/// Marks of which none is set.
pub(crate) fn no_marks(alloc: Global) -> Result<Vec<bool>, AllocError>
    ensures { IfOk result (λ marks. (number : ℕ) → IsMarked marks.items number → ⊥) }
{
    vec![in alloc; false; MARKS]
}

/// The place of a number's mark.
fn place_of(number: u64) -> usize
    ensures { result ≡ number % 65536 }
{
    (number % 65_536) as usize
}

/// Marks a number.
pub(crate) fn mark(marks: &mut Vec<bool>, number: u64)
    ensures { AddsMark number marks.old.items marks.new.items }
{
    let place = place_of(number);
    if place < marks.len() {
        marks[place] = true;
    }
}

/// Whether a number is marked.
pub(crate) fn is_marked(marks: &[bool], number: u64) -> bool
    ensures { IsTrue result ↔ IsMarked marks.now number }
{
    let place = place_of(number);
    if place >= marks.len() {
        return true;
    }
    marks[place]
}
