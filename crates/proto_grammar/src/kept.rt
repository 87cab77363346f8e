//! Lists of what is kept.

ghost use Rattle.std.specs.Prelude.{◌≡◌, ◌++◌, OnOk, option_to_list};

use basics::Sequence;
use std::alloc::AllocError;

/// Puts the item at the end of the list, if there is one.
pub fn keep<T: Drop>(list: &mut Sequence<T>, item: Option<T>) -> Result<(), AllocError>
    ensures { OnOk result (list.new ≡ list.old ++ option_to_list item) }
{
    if let Some(item) = item {
        list.push(item)?;
    }
    Ok(())
}
