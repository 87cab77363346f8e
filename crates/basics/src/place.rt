//! Where a text is.

ghost use Rattle.basics.specs.Kept.{IsCopied};

use crate::owned_text::OwnedText;
use std::alloc::{AllocError, Global};

/// Where a text is: something else owns it, or it is in a box of its own. Because of the box, this takes three words in
/// place of four, and most texts are borrowed.
#[derive(Debug, Drop)]
pub(crate) enum Place<'t> {
    Borrowed(&'t str),
    Owned(Box<OwnedText>),
}

impl<'t> Place<'t> {
    /// Where a copy of the text is: the same for one that is borrowed, and a box of its own for one that is owned.
    pub(crate) fn copy(&self, alloc: Global) -> Result<Place<'t>, AllocError>
        ensures { IsCopied self.now result }
    {
        match self {
            Place::Borrowed(text) => Ok(Place::Borrowed(text)),
            Place::Owned(text) => {
                let copy = OwnedText::copy_of(alloc, text.as_str())?;
                Ok(Place::Owned(Box::new(alloc, copy)?))
            }
        }
    }
}
