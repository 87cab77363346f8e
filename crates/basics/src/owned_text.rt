//! A text.

ghost use Rattle.std.specs.Prelude.{◌≡◌, [], IfOk};
ghost use Rattle.std.specs.String.{string_bytes};

use std::alloc::{AllocError, Global};
use std::marker::Model;

/// A text in UTF-8, which contracts see as the list of its bytes.
#[derive(Debug, Drop)]
pub struct OwnedText {
    string: String,
}

impl Model for OwnedText {
    ghost use Rattle.std.specs.Prelude.{List, ℕ};
    ghost use Rattle.std.specs.String.{string_bytes};

    ghost Value = { List ℕ };

    ghost view = { λ t. string_bytes t.string };
}

impl OwnedText {
    /// A text without bytes. Takes no memory.
    pub fn new(alloc: Global) -> OwnedText
        ensures { result ≡ [] }
    {
        OwnedText::from_string(String::new(alloc))
    }

    /// The text of a string. Takes no memory.
    pub fn from_string(string: String) -> OwnedText
        ensures { result ≡ string_bytes string }
    {
        OwnedText { string }
    }

    /// A copy of a text.
    pub fn copy_of(alloc: Global, text: &str) -> Result<OwnedText, AllocError>
        ensures { IfOk result (λ copy. copy ≡ text.now) }
    {
        Ok(OwnedText::from_string(String::from_str(alloc, text)?))
    }

    /// The text.
    pub fn as_str(&self) -> &str
        ensures { result.now ≡ self.now }
    {
        self.string.as_str()
    }

    /// The text. Takes no memory.
    pub fn into_string(self) -> String
        ensures { string_bytes result ≡ self }
    {
        self.string
    }
}
