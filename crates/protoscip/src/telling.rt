//! The report of what an index lacks.

ghost use Rattle.std.specs.Prelude.{◌≡◌, ◌==◌, ◌&&◌, ◌++◌, [], ◌∷◌, ℕ, List, Option, IfOk, OnOk, length, map};
ghost use Rattle.std.specs.Prelude.{string_bytes, if◌then◌else◌};
ghost use Rattle.std.specs.List.{count_by, filter};
ghost use Rattle.std.specs.Option.{option_map};
ghost use Rattle.source_tree.specs.Trees.{IsSourceCount};
ghost use Rattle.protoscip.specs.FaultLines.{HaveFilesOf};
ghost use Rattle.protoscip.specs.ToldLines.{
  AreLines,
  counts_line_with,
  is_import,
  is_skipped,
  is_skipped_read,
  is_skipped_source,
  is_use,
  IsTextOfAllOmissions,
  is_left_beside,
  is_read,
  IsToldText,
  IsToldTextWith,
  left_out,
  numbers_line,
  told_beside,
};

use crate::told_lines::push_told;
use crate::tree_counter::TreeCounter;
use crate::unread::{UnreadPath, push_unread};
use proto_parse::Dialect;
use scip_build::{FileFault, Omission};
use source_tree::Tree;
use std::alloc::{AllocError, Global};

/// How that is told which an index lacks.
#[derive(Clone, Copy)]
pub struct Telling<'a> {
    /// What isn't read below the folders of the run, and is left out.
    pub unread: &'a [UnreadPath],
    /// With what faults are explained, if that is asked for.
    pub explain: Option<Dialect>,
}

/// Whether a file is left out.
fn is_skipped(omission: &Omission) -> bool
    ensures { result ≡ is_skipped omission.now }
{
    matches!(omission, Omission::File(..) | Omission::Duplicate(..))
}

/// Whether it is a source, by how many the tree has.
fn is_skipped_source(sources: usize, omission: &Omission) -> bool
    ensures { result ≡ is_skipped_source sources omission.now }
{
    match omission {
        Omission::File(number, _) => *number < sources,
        Omission::Duplicate(_, second) => second.file < sources,
        _ => false,
    }
}

/// Whether an import has no target.
fn is_import(omission: &Omission) -> bool
    ensures { result ≡ is_import omission.now }
{
    matches!(omission, Omission::MissingImport(_))
}

/// Whether a use has none, or an option.
fn is_use(omission: &Omission) -> bool
    ensures { result ≡ is_use omission.now }
{
    matches!(
        omission,
        Omission::Unresolved(_) | Omission::Ambiguous(_) | Omission::OptionGap(_)
    )
}

/// How many files are left out.
pub fn count_skipped(told: &[Omission]) -> usize
    ensures { result ≡ count_by is_skipped told.now }
{
    told.iter().filter(|omission| is_skipped(*omission)).count()
}

/// Whether it isn't told of a file that couldn't be read when its tree was made.
fn is_read(omission: &Omission) -> bool
    ensures { result ≡ is_read omission.now }
{
    !matches!(omission, Omission::File(_, FileFault::Unread))
}

/// Whether a file is left out that could be read when its tree was made.
fn is_skipped_read(omission: &Omission) -> bool
    ensures { result ≡ is_skipped_read omission.now }
{
    is_read(omission) && is_skipped(omission)
}

/// How many such files are left out.
fn count_skipped_read(told: &[Omission]) -> usize
    ensures { result ≡ count_by is_skipped_read told.now }
{
    told.iter()
        .filter(|omission| is_skipped_read(*omission))
        .count()
}

/// How many files are left out, but those that are among what couldn't be read.
fn count_beside(unread: &[UnreadPath], told: &[Omission]) -> usize
    ensures { result ≡ count_by (is_left_beside unread.now) told.now }
{
    match unread {
        [] => count_skipped(told),
        [_, ..] => count_skipped_read(told),
    }
}

/// How many files are left out, with what couldn't be read.
pub fn count_left_out(unread: &[UnreadPath], told: &[Omission]) -> usize
    ensures { result ≡ left_out unread.now told.now }
{
    unread.len() + count_beside(unread, told)
}

/// Appends what is told, unless it is of a file that couldn't be read when its tree was made.
fn push_read(read: &mut Vec<Omission>, omission: &Omission) -> Result<(), AllocError>
    ensures { OnOk result (read.new.items
        ≡ read.old.items ++ (if is_read omission.now then omission.now ∷ [] else [])) }
{
    if !is_read(omission) {
        return Ok(());
    }
    Ok(read.push(*omission)?)
}

/// What is told, but of files that couldn't be read when their tree was made.
pub(crate) fn told_read(alloc: Global, told: &[Omission]) -> Result<Vec<Omission>, AllocError>
    ensures { IfOk result (λ read. read.items ≡ filter is_read told.now) }
{
    let mut read = Vec::new(alloc);
    for omission in told {
        push_read(&mut read, omission)?;
    }
    Ok(read)
}

/// How many sources are left out, by how many the tree has.
pub fn count_skipped_sources(sources: usize, told: &[Omission]) -> usize
    ensures { result ≡ count_by (is_skipped_source sources) told.now }
{
    told.iter()
        .filter(|omission| is_skipped_source(sources, *omission))
        .count()
}

/// How many imports have no target.
pub fn count_imports(told: &[Omission]) -> usize
    ensures { result ≡ count_by is_import told.now }
{
    told.iter().filter(|omission| is_import(*omission)).count()
}

/// How many uses have none.
pub fn count_uses(told: &[Omission]) -> usize
    ensures { result ≡ count_by is_use told.now }
{
    told.iter().filter(|omission| is_use(*omission)).count()
}

/// `protoscip: N sources indexed, N skipped, N imports and N uses without a target`
fn numbers_line(
    alloc: Global,
    indexed: usize,
    skipped: usize,
    imports: usize,
    uses: usize,
) -> Result<String, AllocError>
    ensures { IfOk result (λ line. string_bytes line ≡ numbers_line indexed skipped imports uses) }
{
    format!(in alloc;
        "protoscip: {indexed} sources indexed, {skipped} skipped, {imports} imports and {uses} uses without a target"
    )
}

/// The line with the numbers, of a tree with this many sources.
fn counts_line(
    alloc: Global,
    sources: usize,
    unread: &[UnreadPath],
    told: &[Omission],
) -> Result<String, AllocError>
    ensures { IfOk result (λ line. string_bytes line
        ≡ counts_line_with sources unread.now told.now) }
{
    numbers_line(
        alloc,
        sources.saturating_sub(count_skipped_sources(sources, told)),
        count_left_out(unread, told),
        count_imports(told),
        count_uses(told),
    )
}

/// Appends a line for each of what is told.
fn push_lines(
    alloc: Global,
    out: &mut String,
    tree: &Tree,
    told: &[Omission],
    explain: Option<Dialect>,
) -> Result<(), AllocError>
    requires { HaveFilesOf tree.now told.now }
    ensures { OnOk result ((lines : List ℕ) × AreLines explain tree.now told.now lines
        × (string_bytes out.new ≡ string_bytes out.old ++ lines)) }
{
    let mut counter = TreeCounter::new(tree);
    for omission in told {
        push_told(alloc, out, tree, &mut counter, *omission, explain)?;
    }
    Ok(())
}

/// Appends a line for each of what is told beside what couldn't be read.
fn push_beside(
    alloc: Global,
    out: &mut String,
    tree: &Tree,
    told: &[Omission],
    telling: &Telling<'_>,
) -> Result<(), AllocError>
    requires { HaveFilesOf tree.now told.now }
    ensures { OnOk result ((lines : List ℕ)
        × AreLines telling.now.explain tree.now (told_beside telling.now.unread.now told.now) lines
        × (string_bytes out.new ≡ string_bytes out.old ++ lines)) }
{
    match telling.unread {
        [] => push_lines(alloc, out, tree, told, telling.explain),
        [_, ..] => {
            let read = told_read(alloc, told)?;
            push_lines(alloc, out, tree, read.as_slice(), telling.explain)
        }
    }
}

/// The lines of what couldn't be read, those of what is told, and the line with the numbers, of a tree with this many
/// sources.
fn text_of(
    alloc: Global,
    tree: &Tree,
    sources: usize,
    told: &[Omission],
    telling: &Telling<'_>,
) -> Result<String, AllocError>
    requires { HaveFilesOf tree.now told.now }
    ensures { IfOk result (λ text. IsToldTextWith telling.now.explain tree.now sources telling.now.unread.now told.now
        (string_bytes text)) }
{
    let mut text = String::new(alloc);
    push_unread(alloc, &mut text, telling.unread, telling.explain)?;
    push_beside(alloc, &mut text, tree, told, telling)?;
    let numbers = counts_line(alloc, sources, telling.unread, told)?;
    text.push_str(numbers.as_str())?;
    Ok(text)
}

/// The report of what an index of the tree lacks: a line for each thing, in this order, explained if that is asked for,
/// and then one with their numbers, without its end. What couldn't be read comes first.
///
/// The file numbers in what is told have to be below the tree's `file_count`, as `told_line` asks it. An error means
/// that memory was refused.
pub fn told_text_with(
    alloc: Global,
    tree: &Tree,
    told: &[Omission],
    telling: &Telling<'_>,
) -> Result<String, AllocError>
    requires { HaveFilesOf tree.now told.now }
    ensures { (sources : ℕ) × IsSourceCount tree.now sources
        × IfOk result (λ text. IsToldTextWith telling.now.explain tree.now sources telling.now.unread.now told.now
        (string_bytes text)) }
{
    let sources = tree.source_count();
    text_of(alloc, tree, sources, told, telling)
}

/// The same where all could be read.
///
/// The file numbers in what is told have to be below the tree's `file_count`, as `told_line` asks it. An error means
/// that memory was refused.
pub fn told_text(
    alloc: Global,
    tree: &Tree,
    told: &[Omission],
    explain: Option<Dialect>,
) -> Result<String, AllocError>
    requires { HaveFilesOf tree.now told.now }
    ensures { (sources : ℕ) × IsSourceCount tree.now sources
        × IfOk result (λ text. IsToldText explain tree.now sources told.now (string_bytes text)) }
{
    told_text_with(
        alloc,
        tree,
        told,
        &Telling {
            unread: &[],
            explain,
        },
    )
}

/// Whether an index lacks nothing, and all could be read.
pub fn omits_nothing(unread: &[UnreadPath], told: &[Omission]) -> bool
    ensures { result ≡ (length unread.now == 0 && length told.now == 0) }
{
    unread.is_empty() && told.is_empty()
}

/// What says what an index lacks, once it is made and before its bytes are written.
pub trait Tells {
    ghost use Rattle.source_tree.specs.Files.{TreeFile};
    ghost use Rattle.scip_build.specs.declared.omission.Omission.{Omission};

    // What may be said of an index of a tree that lacks this.
    ghost tells: { Self → List TreeFile → List Omission → Option (List ℕ) → Type 0 };

    /// What is said of an index of the tree that lacks this; nothing, if there is nothing to say.
    ///
    /// The file numbers in what is told have to be below the tree's `file_count`, as `told_line` asks it. An error means
    /// that memory was refused.
    fn text(
        &self,
        alloc: Global,
        tree: &Tree,
        told: &[Omission],
    ) -> Result<Option<String>, AllocError>
        requires { HaveFilesOf tree.now told.now }
        ensures { IfOk result (λ text. tells self.now tree.now told.now (option_map string_bytes text)) };
}

impl Tells for Telling<'_> {
    // The report of an index that lacks something; for one that lacks nothing there is nothing to report.
    ghost tells = { λ telling tree told text. IsTextOfAllOmissions telling.explain tree
        telling.unread.now told text };

    /// The report of an index that lacks something; for one that lacks nothing there is nothing to report.
    fn text(
        &self,
        alloc: Global,
        tree: &Tree,
        told: &[Omission],
    ) -> Result<Option<String>, AllocError> {
        if omits_nothing(self.unread, told) {
            return Ok(None);
        }
        Ok(Some(told_text_with(alloc, tree, told, self)?))
    }
}
