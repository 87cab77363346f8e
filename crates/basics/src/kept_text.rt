//! A text that is borrowed where it can be.

ghost use Rattle.std.specs.Prelude.{◌≡◌, IfOk};

use crate::owned_text::OwnedText;
use crate::place::Place;
use std::alloc::{AllocError, Global};
use std::marker::Model;

/// A text in UTF-8 that something else owns, or that is owned here, which contracts see as the list of its
/// bytes.
#[derive(Debug, Drop)]
pub struct KeptText<'t> {
    place: Place<'t>,
}

impl<'t> Model for KeptText<'t> {
    ghost use Rattle.std.specs.Prelude.{List, ℕ};
    ghost use Rattle.basics.specs.Kept.{bytes_at};

    ghost Value = { List ℕ };

    ghost view = { λ kept. bytes_at kept.place };
}

impl<'t> KeptText<'t> {
    /// This text, which something else owns.
    pub fn borrowed(text: &'t str) -> KeptText<'t>
        ensures { result ≡ text.now }
    {
        KeptText {
            place: Place::Borrowed(text),
        }
    }

    /// This text, which is owned from now on.
    pub fn owned(alloc: Global, text: OwnedText) -> Result<KeptText<'t>, AllocError>
        ensures { IfOk result (λ kept. kept ≡ text) }
    {
        let text = Box::new(alloc, text)?;
        Ok(KeptText {
            place: Place::Owned(text),
        })
    }

    /// The text.
    pub fn as_str(&self) -> &str
        ensures { result.now ≡ self.now }
    {
        match &self.place {
            Place::Borrowed(text) => text,
            Place::Owned(text) => text.as_str(),
        }
    }

    /// The same text once more: it is borrowed again if it is borrowed, which takes no memory, and copied if it is
    /// owned.
    pub fn copy(&self, alloc: Global) -> Result<KeptText<'t>, AllocError>
        ensures { IfOk result (λ copy. copy ≡ self.now) }
    {
        let place = self.place.copy(alloc)?;
        Ok(KeptText { place })
    }
}
