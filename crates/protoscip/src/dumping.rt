//! From a source's bytes to the listing of its occurrences.

ghost use Rattle.std.specs.Prelude.{◌≡◌, ℕ, List, [], IfOk, IfErr, MatchResult, OnOk};
ghost use Rattle.std.specs.String.{string_bytes};
ghost use Rattle.streams.specs.Readers.{IsReadBriefly, reader};
ghost use Rattle.streams.specs.Writers.{writer};
ghost use Rattle.scip_build.specs.AsRead.{AreReadIn};
ghost use Rattle.protoscip.specs.Dump.{
  dump_tree,
  dump_settings,
  IsDumped,
  IsListing,
  IsListingOf,
  IsRefusal,
  IsTreeOfFault,
  LeavesReader,
  no_package,
  plain_dialect,
};
ghost use Rattle.protoscip.specs.FaultLines.{HasFilesOf};
ghost use Rattle.protoscip.specs.Writing.{IsNotReadBack};
ghost use Rattle.proto_parse.specs.dialect.Dialect.{Dialect};

use crate::fault::Fault;
use crate::listing::dump_text;
use crate::output::write_text;
use crate::reading_back::read_back;
use basics::OwnedText;
use comment_texts::CommentForm;
use index_hooks::{Choice, Chooses, DocChoice, Turns};
use index_pool::{NoGate, Workers};
use proto_decl::DeclView;
use proto_lex::Encoding;
use proto_parse::{CustomOptions, Dialect};
use scip_build::{Duplicates, Faulty, Run, Settings, as_read, build};
use scip_model::FilePackages;
use scip_records::Index;
use scip_symbol::PackageId;
use source_tree::{Source, Tree, TreeFault, read_source};
use std::alloc::{AllocError, Global};
use std::sync::Wait;
use std::thread::Threads;
use streams::{Feed, Sink};

/// The path that the source of a dump has, also in fault lines.
pub const SOURCE_PATH: &str = "input.proto";

/// Keeps each declaration, with its leading text.
#[derive(Clone, Copy, Debug)]
pub(crate) struct DefaultChoices;

impl Chooses for DefaultChoices {
    ghost use Rattle.index_hooks.specs.MayChoose.{IsDefaultChoice};

    ghost allows = { λ _ _ choice. IsDefaultChoice choice };

    fn choose_by(&self, _turns: Turns, _view: &DeclView<'_>) -> Choice {
        Choice {
            keep: true,
            doc: DocChoice::Leading,
        }
    }
}

/// The tree of a dump: these bytes as `SOURCE_PATH`, and no other file.
pub fn dump_tree(alloc: Global, bytes: Vec<u8>) -> Result<Tree, AllocError>
    ensures { IfOk result (λ tree. tree ≡ dump_tree bytes.items) }
{
    let path = String::from_str(alloc, SOURCE_PATH)?;
    let sources = vec![in alloc;
        Source {
            path,
            bytes,
            is_unread: false
        },
    ]?;
    match Tree::new(alloc, sources) {
        Ok(tree) => Ok(tree),
        Err((_, fault)) => match fault {
            TreeFault::Memory => Err(AllocError),
            _ => unreachable!(),
        },
    }
}

/// The package without manager, name and version. Takes no memory.
pub(crate) fn no_package(alloc: Global) -> FilePackages
    ensures { result ≡ no_package }
{
    let parts = [String::new(alloc), String::new(alloc), String::new(alloc)];
    FilePackages::of_run(alloc, PackageId::new(parts).unwrap())
}

/// The settings of a dump.
fn dump_settings(alloc: Global, dialect: Dialect) -> Result<Settings, AllocError>
    ensures { IfOk result (λ settings. settings ≡ dump_settings dialect) }
{
    Ok(Settings {
        project_root: OwnedText::copy_of(alloc, "file:///")?,
        at: OwnedText::new(alloc),
        package: no_package(alloc),
        encoding: Encoding::Utf8,
        dialect,
        comments: CommentForm::Raw,
        details: false,
        options: false,
        faulty: Faulty::Refuse,
        duplicates: Duplicates::Refuse,
    })
}

/// One worker, who starts no thread.
fn one_worker() -> Workers
    ensures { result ≡ 1 }
{
    Workers::new(1).unwrap()
}

/// The listing of an index, as it is read back from its bytes.
fn listing_of_index(alloc: Global, index: Index) -> Result<String, Fault>
    ensures { MatchResult result (λ listing. IsListingOf index (string_bytes listing)) (IsNotReadBack index) }
{
    let read = read_back(index)?;
    let listing = dump_text(alloc, &read)?;
    Ok(listing)
}

/// The listing of a source's tree, by the settings of its dump.
fn listing_by<R: Threads + Wait>(
    rt: &R,
    alloc: Global,
    settings: &Settings,
    tree: &Tree,
) -> Result<String, Fault>
    ensures { (dialect : Dialect) → (bytes : List ℕ) → settings.now ≡ dump_settings dialect
        → AreReadIn dialect (dump_tree bytes) tree.now → MatchResult result
        (λ listing. IsListing dialect bytes (string_bytes listing)) (IsRefusal dialect bytes) }
{
    let workers = one_worker();
    let run = Run {
        rt,
        alloc,
        workers,
        gate: &NoGate,
    };
    let built = build(&run, tree, &DefaultChoices, settings)?;
    listing_of_index(alloc, built.index)
}

/// The listing of a source, by the tree of its dump.
fn listing_of<R: Threads + Wait>(
    rt: &R,
    alloc: Global,
    dialect: Dialect,
    tree: &Tree,
) -> Result<String, Fault>
    ensures { (bytes : List ℕ) → AreReadIn dialect (dump_tree bytes) tree.now → MatchResult result
        (λ listing. IsListing dialect bytes (string_bytes listing)) (IsRefusal dialect bytes) }
{
    let settings = dump_settings(alloc, dialect)?;
    listing_by(rt, alloc, &settings, tree)
}

/// Makes a tree that of these bytes, as it is read.
fn keep_source(
    alloc: Global,
    dialect: Dialect,
    bytes: Vec<u8>,
    tree: &mut Tree,
) -> Result<(), AllocError>
    ensures { OnOk result (AreReadIn dialect (dump_tree bytes.items) tree.new) }
{
    let source = dump_tree(alloc, bytes)?;
    *tree = as_read(alloc, dialect, source)?;
    Ok(())
}

/// Dumps a source, as `dump` does, and hands out its tree in place of another: that in which a fault has its
/// places.
pub fn dump_and_keep<R: Threads + Wait, F: Feed, W: Sink>(
    rt: &R,
    alloc: Global,
    dialect: Dialect,
    source: &mut F,
    tree: &mut Tree,
    out: &mut W,
) -> Result<(), Fault>
    ensures dumped { IsDumped dialect (reader F.Feed source) (writer W.Sink out) result }
    ensures tree { IfErr result (IsTreeOfFault dialect (reader F.Feed source) tree.new) }
    ensures files { IfErr result (HasFilesOf tree.new) }
    ensures alone { IfErr result (HasFilesOf (dump_tree [])) }
    ensures reader { LeavesReader (reader F.Feed source) result }
    ensures briefly { IsReadBriefly (reader F.Feed source) }
{
    let bytes = match read_source(alloc, source)? {
        Some(bytes) => bytes,
        None => return Err(Fault::Read),
    };
    keep_source(alloc, dialect, bytes, tree)?;
    let listing = listing_of(rt, alloc, dialect, tree)?;
    write_text(out, listing.as_str())
}

/// Reads a source to its end, and writes a line for each occurrence of its index. The source is a tree of its own, in
/// which each declaration is kept, with its leading text.
///
/// - `Read`: a read failed, or `MAX_READS` reads met no end.
/// - `Lex`, `Syntax`, `Duplicate`, `MissingImport`, `Unresolved`, `TooLarge`: the first reason why the source has no
///   listing. The file's number is 0: it is the only one of the tree that `dump_tree` makes of the bytes.
/// - `Memory`: memory was refused. It may come before any of the others; nothing was written.
/// - `Write`: a write failed before the whole listing was written.
pub fn dump_with<R: Threads + Wait, F: Feed, W: Sink>(
    rt: &R,
    alloc: Global,
    dialect: Dialect,
    source: &mut F,
    out: &mut W,
) -> Result<(), Fault>
    ensures dumped { IsDumped dialect (reader F.Feed source) (writer W.Sink out) result }
    ensures files { IfErr result (HasFilesOf (dump_tree [])) }
    ensures reader { LeavesReader (reader F.Feed source) result }
    ensures briefly { IsReadBriefly (reader F.Feed source) }
{
    let mut tree = dump_tree(alloc, Vec::new(alloc))?;
    dump_and_keep(rt, alloc, dialect, source, &mut tree, out)
}

/// Dumps a source of proto3 without custom options, as `dump_with` does.
pub fn dump<R: Threads + Wait, F: Feed, W: Sink>(
    rt: &R,
    alloc: Global,
    source: &mut F,
    out: &mut W,
) -> Result<(), Fault>
    ensures dumped { IsDumped plain_dialect (reader F.Feed source) (writer W.Sink out) result }
    ensures files { IfErr result (HasFilesOf (dump_tree [])) }
    ensures reader { LeavesReader (reader F.Feed source) result }
    ensures briefly { IsReadBriefly (reader F.Feed source) }
{
    dump_with(
        rt,
        alloc,
        Dialect::Proto3(CustomOptions::Refuse),
        source,
        out,
    )
}
