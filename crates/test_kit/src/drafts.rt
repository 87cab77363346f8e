//! Texts in the making.

ghost use Rattle.std.specs.Prelude.{◌≡◌, [], None, Some, IfOk, IfErr, string_bytes, encode_utf8};
ghost use Rattle.std.specs.Fmt.{decimal, signed_decimal};
ghost use Rattle.test_kit.specs.Drafts.{Adds, dotted};

use std::alloc::{AllocError, Global};
use std::marker::Model;

/// What is made, if memory is there for it.
pub type Made<T> = Result<T, AllocError>;

/// A text in the making. Where memory runs out it takes no more, and is no text at its end.
///
/// Contracts see what was added, or nothing once memory ran out.
#[derive(Drop)]
pub struct Draft {
    alloc: Global,
    text: String,
    is_cut: bool,
}

impl Model for Draft {
    ghost use Rattle.std.specs.Prelude.{cond, List, ℕ, Option, None, Some, string_bytes};

    ghost Value = { Option (List ℕ) };

    ghost view = { λ d. cond d.is_cut None (Some (string_bytes d.text)) };
}

impl Draft {
    /// One without a letter.
    pub fn new(alloc: Global) -> Draft
        ensures { result ≡ Some [] }
    {
        Draft {
            alloc,
            text: String::new(alloc),
            is_cut: false,
        }
    }

    /// Where its memory is taken.
    pub fn alloc(&self) -> Global {
        self.alloc
    }

    /// Memory ran out for what was to be added.
    pub fn cut(&mut self)
        ensures { self.new ≡ None }
    {
        self.is_cut = true;
    }

    /// Adds a text.
    pub fn add(&mut self, part: &str)
        ensures { Adds part.now self.old self.new }
    {
        if self.text.push_str(part).is_err() {
            self.is_cut = true;
        }
    }

    /// Adds a character.
    pub fn add_char(&mut self, character: char)
        ensures { Adds (encode_utf8 character) self.old self.new }
    {
        if self.text.push(character).is_err() {
            self.is_cut = true;
        }
    }

    /// Adds a number in decimal.
    pub fn add_number(&mut self, number: i64)
        ensures { Adds (signed_decimal number) self.old self.new }
    {
        match format!(in self.alloc; "{number}") {
            Ok(digits) => self.add(digits.as_str()),
            Err(_) => self.is_cut = true,
        }
    }

    /// Adds a size or a place in decimal.
    pub fn add_size(&mut self, size: usize)
        ensures { Adds (decimal size) self.old self.new }
    {
        match format!(in self.alloc; "{size}") {
            Ok(digits) => self.add(digits.as_str()),
            Err(_) => self.is_cut = true,
        }
    }

    /// Adds a word, behind a dot where others stand before it.
    pub fn add_word(&mut self, word: &str)
        ensures { Adds (dotted self.old word.now) self.old self.new }
    {
        if !self.text.is_empty() {
            self.add(".");
        }
        self.add(word);
    }

    /// The text, if memory was there for all of it.
    pub fn finish(self) -> Made<String>
        ensures text { IfOk result (λ text. self ≡ Some (string_bytes text)) }
        ensures cut { IfErr result (λ refused. self ≡ None) }
    {
        if self.is_cut {
            Err(AllocError)
        } else {
            Ok(self.text)
        }
    }
}
