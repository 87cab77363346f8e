//! A text that something else owns.

ghost use Rattle.std.specs.Prelude.{◌≡◌};

use std::marker::Model;

/// A text in UTF-8 that something else owns, mostly a part of a source, which contracts see as the list of
/// its bytes.
#[derive(Debug, Drop)]
pub struct TextRef<'t> {
    text: &'t str,
}

impl<'t> Model for TextRef<'t> {
    ghost use Rattle.std.specs.Prelude.{List, ℕ};

    ghost Value = { List ℕ };

    ghost view = { λ borrowed. borrowed.text.now };
}

impl<'t> TextRef<'t> {
    /// This text.
    pub fn new(text: &'t str) -> TextRef<'t>
        ensures { result ≡ text.now }
    {
        TextRef { text }
    }

    /// The text.
    pub fn as_str(&self) -> &'t str
        ensures { result.now ≡ self.now }
    {
        self.text
    }
}
