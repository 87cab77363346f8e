//! Lines and columns of a tree's files, counted from one place to the next.

ghost use Rattle.std.specs.Prelude.{◌≡◌, ◌++◌, IfSome, OnOk, string_bytes};
ghost use Rattle.protoscip.specs.Explanations.{bytes_of, explained};
ghost use Rattle.protoscip.specs.FaultLines.{HasFile, path_of};
ghost use Rattle.protoscip.specs.Findings.{place_in};

use crate::fault_lines::path_of;
use diagnostics::{LineCounter, push_excerpt, push_place};
use fault_reports::Place;
use source_tree::Tree;
use std::alloc::{AllocError, Global};
use std::marker::Model;

/// A part of one of a tree's files: how many bytes come before it, and how many it has.
#[derive(Clone, Copy)]
pub(crate) struct Part {
    pub(crate) file: usize,
    pub(crate) at: usize,
    pub(crate) len: usize,
}

/// Counts the lines and columns of a tree's files. At a place of the file that was last asked about it goes on from the
/// place before; at one of another file it begins anew.
///
/// Contracts see it as the tree.
#[derive(Drop)]
pub(crate) struct TreeCounter<'a> {
    tree: &'a Tree,
    file: Option<usize>,
    counter: LineCounter<'a>,
}

impl<'a> Model for TreeCounter<'a> {
    ghost use Rattle.std.specs.Prelude.{List};
    ghost use Rattle.source_tree.specs.Files.{TreeFile};

    ghost Value = { List TreeFile };

    ghost use Rattle.std.specs.Prelude.{◌≡◌, IfSome};
    ghost use Rattle.protoscip.specs.Explanations.{bytes_of};

    ghost view = { λ inside. inside.tree.now };

    ghost invariant = { λ inside. IfSome inside.file (λ number. inside.counter ≡ bytes_of inside.tree.now number) };
}

/// Sees that the counter is one of the file, by the file that it is of.
fn see_file<'a>(counter: &mut LineCounter<'a>, before: Option<usize>, tree: &'a Tree, file: usize)
    requires before { IfSome before (λ number. counter.old ≡ bytes_of tree.now number) }
    requires file { HasFile tree.now file }
    ensures { counter.new ≡ bytes_of tree.now file }
{
    match before {
        Some(number) => {
            if number != file {
                *counter = LineCounter::new(tree.bytes(file));
            }
        }
        None => *counter = LineCounter::new(tree.bytes(file)),
    }
}

impl<'a> TreeCounter<'a> {
    /// At no file.
    pub(crate) fn new(tree: &'a Tree) -> TreeCounter<'a>
        ensures { result ≡ tree.now }
    {
        TreeCounter {
            tree,
            file: None,
            counter: LineCounter::new(&[]),
        }
    }

    /// The tree.
    pub(crate) fn tree(&self) -> &'a Tree
        ensures { result.now ≡ self.now }
    {
        self.tree
    }

    /// A place of one of the files, and its end, if that is known.
    pub(crate) fn place_in(
        &mut self,
        file: usize,
        at: Option<usize>,
        end: Option<usize>,
    ) -> Place<'a>
        requires { HasFile self.old file }
        ensures place { result ≡ place_in self.old file at end }
        ensures same { self.new ≡ self.old }
    {
        see_file(&mut self.counter, self.file, self.tree, file);
        self.file = Some(file);
        Place::new(path_of(self.tree, file), &mut self.counter, at, end)
    }

    /// Appends a part of a file by its place, a sentence about it, and its line with the part marked.
    pub(crate) fn push_explained(
        &mut self,
        alloc: Global,
        out: &mut String,
        part: Part,
        sentence: &str,
    ) -> Result<(), AllocError>
        requires { HasFile self.old part.file }
        ensures explained { OnOk result (string_bytes out.new ≡ string_bytes out.old
            ++ explained (path_of self.old part.file) (bytes_of self.old part.file) part.at part.len sentence.now) }
        ensures same { self.new ≡ self.old }
    {
        see_file(&mut self.counter, self.file, self.tree, part.file);
        self.file = Some(part.file);
        let path = path_of(self.tree, part.file);
        push_counted(alloc, out, path, &mut self.counter, part, sentence)
    }
}

/// Appends a part of the counter's text, which is that of the file with this path.
fn push_counted(
    alloc: Global,
    out: &mut String,
    path: &str,
    counter: &mut LineCounter<'_>,
    part: Part,
    sentence: &str,
) -> Result<(), AllocError>
    ensures explained { OnOk result (string_bytes out.new
        ≡ string_bytes out.old ++ explained path.now counter.old part.at part.len sentence.now) }
    ensures same { counter.new ≡ counter.old }
{
    out.push_str("\n")?;
    push_place(out, path, counter, part.at)?;
    out.push_str(sentence)?;
    push_excerpt(alloc, out, counter, part.at, part.len)
}
