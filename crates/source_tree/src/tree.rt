//! The tree of a run's files.

ghost use Rattle.std.specs.Prelude.{
  ◌≡◌,
  ℕ,
  ◌+◌,
  ◌<◌,
  ◌≤◌,
  ◌↔◌,
  ◌++◌,
  [],
  ◌∷◌,
  List,
  Option,
  Some,
  OnOk,
  IsTrue,
  IfOk,
  IfErr,
  MatchOption,
  length,
  slice_get,
};
ghost use Rattle.std.specs.Option.{option_map};
ghost use Rattle.source_tree.specs.Trees.{max_files, IsTree, IsSourceCount, IsTreeOf, HaveGoodPaths};
ghost use Rattle.source_tree.specs.Files.{SourceFile};
ghost use Rattle.source_tree.specs.Mending.{AreMended, IsMended};
ghost use Rattle.source_tree.specs.Marks.{AreTexts, text_or};
ghost use Rattle.source_tree.specs.Refusals.{AreTooMany, IsFirstBad, MayRefuse, ComeBack};

use crate::by_path::{first_repeat, sort_by_path, sort_distinct_by_path};
use crate::counting::Counting;
use crate::fault::TreeFault;
use crate::mending::mended_text;
use crate::source::Source;
use basics::Sequence;
use std::alloc::{AllocError, Global};
use std::marker::Model;

/// The most files of a tree, the sources and the included ones together.
pub const MAX_FILES: usize = 65_536;

/// The files of a run, by their numbers: the sources, which are indexed, by path; then the included files that count,
/// which are only linked, by path. No two have one path, and each path is a good one. Paths are ordered by their
/// bytes.
///
/// Contracts see the list of the files.
#[derive(Debug, Drop)]
pub struct Tree {
    sources: Vec<Source>,
    included: Vec<Source>,
    // What is read of each file, in order, where it isn't the file's bytes; of files behind these, it is.
    texts: Vec<Option<Sequence<u8>>>,
}

impl Model for Tree {
    ghost use Rattle.std.specs.Prelude.{List};
    ghost use Rattle.source_tree.specs.Files.{TreeFile};
    ghost use Rattle.source_tree.specs.Marks.{files_of, with_texts};
    ghost use Rattle.source_tree.specs.Trees.{IsTree};

    ghost Value = { List TreeFile };

    ghost view = { λ tree. with_texts tree.texts.items (files_of tree.sources.items tree.included.items) };

    ghost invariant = { λ tree.
        IsTree (with_texts tree.texts.items (files_of tree.sources.items tree.included.items)) };
}

impl Tree {
    /// The tree of sources. If they make none, they come back with the first of these that holds: after `SamePath`
    /// sorted by path, and else as they were.
    ///
    /// - `TooMany`: they are more than `MAX_FILES`.
    /// - `BadPath(n)`: number n, as they were handed in, is the first whose path isn't a good one.
    /// - `Memory`: memory was refused.
    /// - `SamePath(n)`: number n of those that come back is the first with the path of the one before it.
    pub fn new(alloc: Global, sources: Vec<Source>) -> Result<Tree, (Vec<Source>, TreeFault)>
        ensures tree { IfOk result (IsTreeOf sources.items []) }
        ensures refused { IfErr result (λ back. MayRefuse sources.items [] back.1) }
        ensures handed_back { IfErr result (λ back. ComeBack sources.items back.1 back.0.items) }
    {
        match Tree::with_included(alloc, sources, Vec::new(alloc)) {
            Ok(tree) => Ok(tree),
            Err((lists, fault)) => {
                let (sources, _) = lists;
                Err((sources, fault))
            }
        }
    }

    /// The tree of sources and included files. Of included files with one path the first listed counts; one whose
    /// path a source has doesn't count. If they make no tree, both lists come back with the first of these that holds:
    /// the sources after `SamePath` sorted by path, all else as it was.
    ///
    /// - `TooMany`: both lists together have more than `MAX_FILES`.
    /// - `BadPath(n)`: number n, through the sources and then the included files as they were handed in, is the first
    ///   whose path isn't a good one. Those that don't count are looked at, too.
    /// - `Memory`: memory was refused.
    /// - `SamePath(n)`: number n of the sources that come back is the first with the path of the one before it.
    pub fn with_included(
        alloc: Global,
        sources: Vec<Source>,
        included: Vec<Source>,
    ) -> Result<Tree, ((Vec<Source>, Vec<Source>), TreeFault)>
        ensures tree { IfOk result (IsTreeOf sources.items included.items) }
        ensures refused { IfErr result (λ back. MayRefuse sources.items included.items back.1) }
        ensures handed_back { IfErr result (λ back. ComeBack sources.items back.1 back.0.0.items) }
        ensures included_back { IfErr result (λ back. back.0.1.items ≡ included.items) }
    {
        if are_too_many(&sources, &included) {
            return Err(((sources, included), TreeFault::TooMany));
        }
        if let Some(number) = first_bad_path(&sources, &included) {
            return Err(((sources, included), TreeFault::BadPath(number)));
        }
        let Ok(counting) = Counting::of(alloc, &sources, &included) else {
            return Err(((sources, included), TreeFault::Memory));
        };
        let mut sources = sources;
        if sort_by_path(&mut sources).is_err() {
            return Err(((sources, included), TreeFault::Memory));
        }
        if let Some(number) = first_repeat(&sources) {
            return Err(((sources, included), TreeFault::SamePath(number)));
        }
        let mut included = counting.counted(included);
        sort_distinct_by_path(&mut included);
        Ok(Tree {
            sources,
            included,
            texts: Vec::new(alloc),
        })
    }

    /// How many files the tree has.
    pub fn file_count(&self) -> usize
        ensures count { result ≡ length self.now }
        ensures tree { IsTree self.now }
    {
        self.sources.len() + self.included.len()
    }

    /// How many of the files are sources: those with lesser numbers.
    pub fn source_count(&self) -> usize
        ensures { IsSourceCount self.now result }
    {
        self.sources.len()
    }

    /// The path of the file with a number, which has to be below `file_count`.
    pub fn path(&self, number: usize) -> &str
        requires { number < length self.now }
        ensures { option_map (λ file. file.path) (slice_get self.now number) ≡ Some result.now }
    {
        self.file(number).path()
    }

    /// What the file with a number, which has to be below `file_count`, holds.
    pub fn bytes(&self, number: usize) -> &[u8]
        requires { number < length self.now }
        ensures { option_map (λ file. file.bytes) (slice_get self.now number) ≡ Some result.now }
    {
        self.file(number).bytes()
    }

    /// What is read of the file with a number, which has to be below `file_count`: what it holds, unless the tree is
    /// mended.
    pub fn text(&self, number: usize) -> &[u8]
        requires { number < length self.now }
        ensures { option_map (λ file. file.text) (slice_get self.now number) ≡ Some result.now }
    {
        match self.texts.get(number) {
            Some(Some(text)) => text.as_slice(),
            Some(None) => self.bytes(number),
            None => self.bytes(number),
        }
    }

    /// The tree of the same files, which may hold bytes in comments that aren't UTF-8: a NUL is read for each byte there
    /// that isn't part of a well-formed sequence. All else of what they hold is read as it is. An error means that
    /// memory was refused.
    pub fn mended(self, alloc: Global) -> Result<Tree, AllocError>
        ensures { IfOk result (AreMended self) }
    {
        let mut texts = Vec::with_capacity(alloc, self.file_count())?;
        push_texts(alloc, &mut texts, &self.sources)?;
        push_texts(alloc, &mut texts, &self.included)?;
        Ok(Tree {
            sources: self.sources,
            included: self.included,
            texts,
        })
    }

    /// Whether the file with a number, which has to be below `file_count`, is included, and so no source.
    pub fn is_included(&self, number: usize) -> bool
        requires { number < length self.now }
        ensures { option_map (λ file. file.is_included) (slice_get self.now number) ≡ Some result }
    {
        number >= self.sources.len()
    }

    /// Whether the file with a number, which has to be below `file_count`, couldn't be read. It stands in the tree by
    /// its path, so that imports lead to it.
    pub fn is_unread(&self, number: usize) -> bool
        requires { number < length self.now }
        ensures { option_map (λ file. file.is_unread) (slice_get self.now number) ≡ Some result }
    {
        self.file(number).is_unread()
    }

    /// The file with a number, as it was handed in.
    fn file(&self, number: usize) -> &Source
        requires { number < length self.now }
        ensures { option_map (λ file. record { path = file.path; bytes = file.bytes; is_unread = file.is_unread })
            (slice_get self.now number) ≡ Some result.now }
    {
        match self.sources.get(number) {
            Some(source) => source,
            None => &self.included[number - self.sources.len()],
        }
    }
}

/// Appends what is read of a file, if it isn't just what the file holds.
fn push_text(
    alloc: Global,
    texts: &mut Vec<Option<Sequence<u8>>>,
    file: &Source,
) -> Result<(), AllocError>
    ensures { OnOk result ((text : Option (List ℕ)) × (texts.new.items ≡ texts.old.items ++ text ∷ [])
        × IsMended file.now.bytes (text_or text file.now.bytes)) }
{
    let text = mended_text(alloc, file.bytes())?;
    texts.push(text)?;
    Ok(())
}

/// Appends what is read of each file, if it isn't just what the file holds.
fn push_texts(
    alloc: Global,
    texts: &mut Vec<Option<Sequence<u8>>>,
    files: &[Source],
) -> Result<(), AllocError>
    ensures { OnOk result ((before : List SourceFile) → AreTexts before texts.old.items
        → AreTexts (before ++ files.now) texts.new.items) }
{
    for file in files {
        push_text(alloc, texts, file)?;
    }
    Ok(())
}

/// Whether there are more files than a tree has.
fn are_too_many(sources: &[Source], included: &[Source]) -> bool
    ensures { IsTrue result ↔ AreTooMany sources.now included.now }
{
    sources.len() > MAX_FILES || included.len() > MAX_FILES - sources.len()
}

/// The first file without a good path, through the sources and then the included files.
fn first_bad_path(sources: &[Source], included: &[Source]) -> Option<usize>
    requires { length sources.now + length included.now ≤ max_files }
    ensures { MatchOption result (HaveGoodPaths (sources.now ++ included.now))
        (IsFirstBad (sources.now ++ included.now)) }
{
    match first_bad(sources) {
        Some(number) => Some(number),
        None => match first_bad(included) {
            Some(number) => Some(sources.len() + number),
            None => None,
        },
    }
}

/// The first file without a good path.
fn first_bad(files: &[Source]) -> Option<usize>
    ensures { MatchOption result (HaveGoodPaths files.now) (IsFirstBad files.now) }
{
    for (number, file) in files.iter().enumerate() {
        if !file.has_good_path() {
            return Some(number);
        }
    }
    None
}
