//! Files to be linked, and places in them.

ghost use Rattle.std.specs.Prelude.{ℕ, ◌≡◌, ◌<◌, ◌↔◌, not, ◌&&◌, true, None, IsTrue, Some, MatchOption, length};
ghost use Rattle.std.specs.List.{slice_get};
ghost use Rattle.proto_decl.specs.Facts.{Facts, AreOfSomeFile};
ghost use Rattle.proto_visibility.specs.Files.{File, HaveOrigins, IsPresent};

use proto_decl::FileFacts;
use proto_lex::Span;
use std::fmt;
use std::marker::Model;

/// A file to be linked.
///
/// Contracts see its path's bytes, its facts, whether it is included or left out, and whether names in its options are
/// linked.
#[derive(Drop)]
pub struct LinkFile<'a, 't> {
    /// Its path below its root.
    pub path: &'a str,
    /// What is known of it; `None` where it couldn't be read or parsed.
    pub facts: Option<&'a FileFacts<'t>>,
    /// Whether it is included: linked, but not indexed.
    pub included: bool,
    /// Whether it is left out of what is linked. The names that it gives are known where it is seen, so that no use
    /// takes another one's for it; but nothing names what it declares.
    pub left_out: bool,
    /// Whether names in its options are linked. If so, and if it is a source, it reaches all that its imports lead to.
    pub links_options: bool,
}

impl<'a, 't> Model for LinkFile<'a, 't> {
    ghost use Rattle.std.specs.Option.{option_map};
    ghost use Rattle.proto_visibility.specs.Files.{File};

    ghost Value = { File };

    ghost view = { λ file. record {
      path = file.path.now;
      facts = option_map (λ facts. facts.now) file.facts;
      is_included = file.included;
      is_left_out = file.left_out;
      links_options = file.links_options;
    } };
}

impl LinkFile<'_, '_> {
    /// Whether it is included, and so no source.
    pub(crate) fn is_included(&self) -> bool
        ensures { result ≡ self.now.is_included }
    {
        self.included
    }

    /// Whether it is left out.
    pub(crate) fn is_left_out(&self) -> bool
        ensures { result ≡ self.now.is_left_out }
    {
        self.left_out
    }

    /// Whether it is a source: neither included nor left out.
    pub(crate) fn is_source(&self) -> bool
        ensures { result ≡ (not self.now.is_included && not self.now.is_left_out) }
    {
        !self.included && !self.left_out
    }

    /// Whether names in its options are linked.
    pub(crate) fn links_options(&self) -> bool
        ensures { result ≡ self.now.links_options }
    {
        self.links_options
    }

    /// Whether it couldn't be read or parsed.
    pub(crate) fn is_unread(&self) -> bool
        ensures { IsTrue result ↔ (self.now.facts ≡ None) }
    {
        match self.facts {
            Some(_) => false,
            None => true,
        }
    }
}

/// A span of the text of one of the files, by the file's number.
#[derive(Clone, Copy, Debug, PartialEq, Eq)]
pub struct FilePlace {
    /// The file's number.
    pub file: usize,
    /// Where in its text.
    pub span: Span,
}

/// Where it starts, as `at byte 12 of file 0`.
impl fmt::Display for FilePlace {
    fn fmt<W: fmt::Write>(&self, f: &mut fmt::Formatter<W>) -> fmt::Result {
        write!(f, "at byte {} of file {}", self.span.start, self.file)
    }
}

/// The facts of each file are those of some text.
pub(crate) fn have_origins(files: &[LinkFile])
    ensures { HaveOrigins files.now }
{
    for file in files {
        has_origin(file);
    }
}

/// So are those of one file.
fn has_origin(file: &LinkFile)
    ensures { (facts : Facts) → file.now.facts ≡ Some facts → AreOfSomeFile facts }
{
    if let Some(facts) = file.facts {
        // From here on it is known that the facts are those of some file.
        facts.origin();
    }
}

/// Whether the file with this number isn't left out.
pub(crate) fn is_present(files: &[LinkFile], number: usize) -> bool
    requires { number < length files.now }
    ensures { IsTrue result ↔ IsPresent files.now number }
{
    unless_left_out(files, number).is_some()
}

/// The number of a file, unless the file is left out.
pub(crate) fn unless_left_out(files: &[LinkFile], number: usize) -> Option<usize>
    requires { number < length files.now }
    ensures { MatchOption result
        ((file : File) → slice_get files.now number ≡ Some file → file.is_left_out ≡ true)
        (λ found. (found ≡ number) × IsPresent files.now found) }
{
    let file = &files[number];
    if file.is_left_out() {
        None
    } else {
        Some(number)
    }
}
