//! Marks of a page.

ghost use Rattle.std.specs.Prelude.{◌≡◌, ◌++◌, OnOk};
ghost use Rattle.scip_pages.specs.Marks as spec;

use crate::code::push_attribute;
use crate::escapes::push_escaped;
use std::alloc::AllocError;

/// Appends a link with a text.
pub fn push_link(page: &mut Vec<u8>, url: &[u8], text: &[u8]) -> Result<(), AllocError>
    ensures { OnOk result (page.new.items ≡ page.old.items ++ spec.link url.now text.now) }
{
    page.extend_from_slice(b"<a")?;
    push_attribute(page, b"href", url)?;
    page.extend_from_slice(b">")?;
    push_escaped(page, text)?;
    page.extend_from_slice(b"</a>")
}
