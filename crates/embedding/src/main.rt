//! A program to copy: it indexes sources that it has in memory, with callbacks of its own, and asks about the index.
#![tactic(auto)]

mod callbacks;

use anyhow::{Result, bail};
use callbacks::{BothOfFields, Commented, OnlyCommented};
use protoscip::{
    AnyAnswer, CommentForm, CustomOptions, Dialect, DocRule, Duplicates, Encoding, Faulty,
    FilePackages, Filter, NoGate, OwnedText, PackageId, Registry, Run, Settings, Sink, Source, Std,
    Tree, Workers, index_tree,
};
use scip_query::Queries;
use scip_wire::read_index;
use std::alloc::Global;
use std::sync::Wait;
use std::thread::Threads;

/// Sources, each with its path.
const SOURCES: [(&str, &str); 2] = [
    (
        "book.proto",
        r#"syntax = "proto3";
// A book.
message Book {}
message Draft {}
"#,
    ),
    (
        "loan.proto",
        r#"syntax = "proto3";
import "book.proto";
// A loan.
message Loan {
  // What is lent,
  Book book = 1; // for four weeks.
}
"#,
    ),
];

/// What is asked: where the type `Book` is used, and what is known of the field `book`.
const COMMANDS: [&str; 2] = ["ref 5 2 loan.proto", "doc 5 7 loan.proto"];

/// The tree of the sources, sorted by path.
fn tree_in_memory(alloc: Global) -> Result<Tree> {
    let mut sources = Vec::new(alloc);
    for (path, text) in &SOURCES {
        let path = String::from_str(alloc, *path)?;
        let mut bytes = Vec::new(alloc);
        bytes.extend_from_slice(text.as_bytes())?;
        sources.push(Source {
            path,
            bytes,
            is_unread: false,
        })?;
    }
    match Tree::new(alloc, sources) {
        Ok(tree) => Ok(tree),
        Err((_, fault)) => bail!("{fault}"),
    }
}

/// What the index says of itself, and which sources are accepted.
fn own_settings(alloc: Global) -> Result<Settings> {
    let manager = String::from_str(alloc, "buf")?;
    let name = String::from_str(alloc, "library")?;
    let version = String::from_str(alloc, "1.0")?;
    let package = PackageId::new([manager, name, version])?;
    Ok(Settings {
        project_root: OwnedText::copy_of(alloc, "file:///")?,
        at: OwnedText::new(alloc),
        package: FilePackages::of_run(alloc, package),
        encoding: Encoding::Utf8,
        dialect: Dialect::Proto3(CustomOptions::Refuse),
        comments: CommentForm::Raw,
        details: false,
        options: false,
        faulty: Faulty::Refuse,
        duplicates: Duplicates::Refuse,
    })
}

/// The bytes of the index of a tree, made by two workers.
fn index_of<R: Threads + Wait>(
    rt: &R,
    alloc: Global,
    tree: &Tree,
    callbacks: &Registry,
    settings: &Settings,
) -> Result<Vec<u8>> {
    let run = Run {
        rt,
        alloc,
        workers: Workers::new(2).unwrap(),
        gate: &NoGate,
    };
    let mut out = Std::new(Vec::new(alloc));
    index_tree(&run, tree, callbacks, settings, &mut out)?;
    Ok(out.into_inner())
}

/// Answers each command.
fn answer<W: Sink>(alloc: Global, queries: &Queries, answers: &mut W) -> Result<()> {
    for command in &COMMANDS {
        queries.answer(alloc, command.as_bytes(), answers)?;
    }
    Ok(())
}

/// Indexes the sources, and asks about the index.
fn main(rt: HostRuntime) -> Result<()> {
    let alloc = rt.alloc();
    let tree = tree_in_memory(alloc)?;
    // Each callback stands beside what it promises.
    let filter = Box::new(alloc, Filter::new(OnlyCommented, Commented))?;
    let rule = Box::new(alloc, DocRule::new(AnyAnswer, BothOfFields))?;
    let mut callbacks = Registry::new(alloc);
    if let Err((_, fault)) = callbacks.add_filter(filter) {
        bail!("{fault}");
    }
    if let Err((_, fault)) = callbacks.add_doc(rule) {
        bail!("{fault}");
    }
    let settings = own_settings(alloc)?;
    let bytes = index_of(&rt, alloc, &tree, &callbacks, &settings)?;
    let queries = Queries::new(alloc, read_index(alloc, &bytes)?)?;
    answer(alloc, &queries, &mut Std::new(rt.stdout()))
}
