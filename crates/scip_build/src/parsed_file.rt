//! What is known of a file after it was read.

ghost use Rattle.std.specs.Prelude.{◌≡◌};
ghost use Rattle.scip_build.specs.Keeping.{as_left_out, is_source};

use crate::fault::FileFault;
use basics::Sequence;
use index_hooks::Choice;
use option_link::OptionFacts;
use proto_decl::FileFacts;
use proto_lex::Text;
use std::marker::Model;

/// The contents of a file.
///
/// Contracts see the bytes of its text, its facts, and the list of choices.
#[derive(Drop)]
pub struct Contents<'a> {
    /// Its text.
    pub text: Text<'a>,
    /// What it declares, imports and uses.
    pub facts: FileFacts<'a>,
    /// The choice for each declaration, in their order.
    pub choices: Sequence<Choice>,
    /// What is known beside its facts, if it is asked for: its options, and what its fields are of. An included file
    /// has no options here.
    pub beside: Option<OptionFacts>,
}

impl<'a> Model for Contents<'a> {
    ghost use Rattle.scip_build.specs.Files.{FileContents};

    ghost Value = { FileContents };

    ghost view = { λ contents. record {
      text = contents.text;
      facts = contents.facts;
      choices = contents.choices;
      beside = contents.beside;
    } };
}

/// A file after it was read: its contents, or why it has none; a source is without only if such are skipped.
///
/// Contracts see its path's bytes, whether it is included or left out, whether names in its options are linked, and the
/// contents or the fault.
#[derive(Drop)]
pub struct ParsedFile<'a> {
    /// Its path below its root.
    pub path: &'a str,
    /// Whether it is included: linked, but not indexed.
    pub is_included: bool,
    /// Whether it is left out of what is linked: the names that it gives are known where it is seen, and nothing else.
    pub is_left_out: bool,
    /// Whether names in its options are linked.
    pub links_options: bool,
    /// Its contents, or why it can't be read.
    pub contents: Result<Contents<'a>, FileFault>,
}

impl<'a> Model for ParsedFile<'a> {
    ghost use Rattle.scip_build.specs.Files.{ReadFile};

    ghost Value = { ReadFile };

    ghost view = { λ parsed_file.
        record {
          path = parsed_file.path.now;
          is_included = parsed_file.is_included;
          is_left_out = parsed_file.is_left_out;
          links_options = parsed_file.links_options;
          contents
              = parsed_file.contents;
        } };
}

impl<'a> ParsedFile<'a> {
    /// The file, left out.
    pub(crate) fn into_left_out(self) -> ParsedFile<'a>
        ensures { result ≡ as_left_out self.entry }
    {
        ParsedFile {
            path: self.path,
            is_included: self.is_included,
            is_left_out: true,
            links_options: self.links_options,
            contents: self.contents,
        }
    }

    /// Whether it is a source: neither included nor left out.
    pub(crate) fn is_source(&self) -> bool
        ensures { result ≡ is_source self.now }
    {
        !self.is_included && !self.is_left_out
    }
}
