//! Whole runs, by the one crate that an indexer is embedded by.

use crate::shared::{NOTHING, ONE_MESSAGE, package_of, see};
use protoscip::{
    Built, Choices, CommentForm, CustomOptions, Dialect, Duplicates, Encoding, Fault, Faulty,
    FilePackages, NoGate, OwnedText, Registry, Run, Settings, Source, Std, SyntaxFault, Tree,
    TreeFault, Workers, build, dump, fault_line, index_tree, session,
};
use std::alloc::{AllocError, Global};
use std::process::Abort;
use std::sync::Wait;
use std::test::Fail;
use std::thread::Threads;

/// Adds a source.
fn add_source(
    alloc: Global,
    list: &mut Vec<Source>,
    path: &str,
    text: &str,
) -> Result<(), AllocError> {
    let path = String::from_str(alloc, path)?;
    let bytes = Vec::from_slice(alloc, text.as_bytes())?;
    list.push(Source {
        path,
        bytes,
        is_unread: false,
    })?;
    Ok(())
}

/// Adds sources.
fn add_sources(
    alloc: Global,
    list: &mut Vec<Source>,
    sources: &[(&str, &str)],
) -> Result<(), AllocError> {
    for (path, text) in sources {
        add_source(alloc, list, path, text)?;
    }
    Ok(())
}

/// Sources with their paths.
fn sources_of(alloc: Global, sources: &[(&str, &str)]) -> Result<Vec<Source>, AllocError> {
    let mut list = Vec::new(alloc);
    add_sources(alloc, &mut list, sources)?;
    Ok(list)
}

/// Why sources make no tree, and how many come back; none if they make one.
fn refusal_of(
    alloc: Global,
    sources: &[(&str, &str)],
) -> Result<Option<(TreeFault, usize)>, AllocError> {
    let list = sources_of(alloc, sources)?;
    match Tree::new(alloc, list) {
        Ok(_) => Ok(None),
        Err((back, fault)) => Ok(Some((fault, back.len()))),
    }
}

/// Paths that aren't good.
const BAD_PATHS: [&str; 5] = ["/a.proto", "a//b.proto", "../a.proto", "a.txt", ""];

#[test]
fn tree_new_refuses_bad_paths(rt: HostRuntime) -> Result<(), Fail> {
    for path in &BAD_PATHS {
        let refusal = refusal_of(rt.alloc(), &[(*path, "")])?;
        see(&rt, refusal == Some((TreeFault::BadPath(0), 1)), path);
    }
    Ok(())
}

#[test]
fn tree_new_refuses_one_path_twice(rt: HostRuntime) -> Result<(), Fail> {
    let sources = [("a.proto", ""), ("a.proto", "")];
    let refusal = refusal_of(rt.alloc(), &sources)?;
    let is_so = refusal == Some((TreeFault::SamePath(1), 2));
    see(
        &rt,
        is_so,
        "the second of the pair, and the list comes back",
    );
    Ok(())
}

/// The tree of sources.
fn tree_of(alloc: Global, sources: &[(&str, &str)]) -> Result<Tree, Fail> {
    let list = sources_of(alloc, sources)?;
    match Tree::new(alloc, list) {
        Ok(tree) => Ok(tree),
        Err(_) => Err("sources that make no tree".into()),
    }
}

/// Settings of a package without names.
fn settings_of(alloc: Global) -> Result<Settings, Fail> {
    let project_root = OwnedText::copy_of(alloc, "file:///")?;
    let package = package_of(alloc, ["", "", ""])?;
    Ok(Settings {
        project_root,
        at: OwnedText::new(alloc),
        package: FilePackages::of_run(alloc, package),
        encoding: Encoding::Utf8,
        dialect: Dialect::Proto3(CustomOptions::Refuse),
        comments: CommentForm::Raw,
        details: false,
        options: false,
        faulty: Faulty::Refuse,
        duplicates: Duplicates::Refuse,
    })
}

/// Two files that import one another.
const ROUND: [(&str, &str); 2] = [
    (
        "b.proto",
        "syntax = \"proto3\";\nimport \"a.proto\";\nmessage B { A a = 1; }\n",
    ),
    (
        "a.proto",
        "syntax = \"proto3\";\nimport \"b.proto\";\nmessage A { B b = 1; }\n",
    ),
];

/// A use whose first component is hidden by a package.
const SHADOWED: [(&str, &str); 3] = [
    (
        "a.proto",
        "syntax = \"proto3\";\npackage acme;\nimport \"b.proto\";\nimport \"t.proto\";\n\
message M { google.protobuf.Timestamp t = 1; }\n",
    ),
    ("b.proto", "syntax = \"proto3\";\npackage acme.google;\n"),
    (
        "t.proto",
        "syntax = \"proto3\";\npackage google.protobuf;\nmessage Timestamp {}\n",
    ),
];

/// Two values with one full name.
const TWICE: [(&str, &str); 1] = [(
    "a.proto",
    "syntax = \"proto3\";\nmessage M {\n  enum A { ZERO = 0; }\n  enum B { ZERO = 0; }\n}\n",
)];

/// Two files that can't be read.
const BAD_GRAMMAR: [(&str, &str); 2] = [
    ("a.proto", "syntax = \"proto3\";\nmessage {}\n"),
    ("b.proto", "@"),
];

/// Two names, of which the second is the field's that is named like a type.
const NAMED: [(&str, &str); 1] = [(
    "a.proto",
    "syntax = \"proto3\";\npackage p;\nmessage Foo {}\nmessage M { string Foo = 1; Foo x = 2; }\n",
)];

/// One message.
const MESSAGE: [(&str, &str); 1] = [("a.proto", "syntax = \"proto3\";\nmessage A {}\n")];

/// A tree, and what its index is made by.
#[derive(Drop)]
struct Given<'a> {
    tree: Tree,
    registry: &'a Registry,
    settings: Settings,
}

/// Sources with plain settings, and the callbacks that are asked.
fn given_of<'a>(
    alloc: Global,
    sources: &[(&str, &str)],
    registry: &'a Registry,
) -> Result<Given<'a>, Fail> {
    let settings = settings_of(alloc)?;
    let tree = tree_of(alloc, sources)?;
    Ok(Given {
        tree,
        registry,
        settings,
    })
}

/// A run by these workers.
fn run_of<R>(rt: &R, alloc: Global, workers: Workers) -> Run<'_, R, NoGate> {
    Run {
        rt,
        alloc,
        workers,
        gate: &NoGate,
    }
}

/// What was chosen for the declarations of the two files that import one another.
const CHOSEN: &str = "Choices { lists: [\
[Choice { keep: true, doc: Leading }, Choice { keep: true, doc: Leading }], \
[Choice { keep: true, doc: Leading }, Choice { keep: true, doc: Leading }]] }";

/// Whether this was chosen.
fn are_chosen(alloc: Global, choices: &Choices) -> Result<bool, AllocError> {
    let chosen = format!(in alloc; "{choices:?}")?;
    Ok(chosen.as_str() == CHOSEN)
}

/// Whether this was built of the two files.
fn is_round(alloc: Global, built: &Built) -> bool {
    match built.index.documents.as_slice() {
        [a, b] => {
            a.relative_path.as_str() == "a.proto"
                && a.occurrences.as_slice().len() == 5
                && b.relative_path.as_str() == "b.proto"
                && are_chosen(alloc, &built.choices) == Ok(true)
        }
        _ => false,
    }
}

/// Whether they are built.
fn builds_round<R: Threads + Wait>(rt: &R, alloc: Global, given: &Given, workers: Workers) -> bool {
    let run = run_of(rt, alloc, workers);
    match build(&run, &given.tree, given.registry, &given.settings) {
        Ok(built) => is_round(alloc, &built),
        Err(_) => false,
    }
}

/// Whether nothing is built, since the first file has no tree.
fn is_first_refused<R: Threads + Wait>(
    rt: &R,
    alloc: Global,
    given: &Given,
    workers: Workers,
) -> bool {
    let run = run_of(rt, alloc, workers);
    let fault = build(&run, &given.tree, given.registry, &given.settings).err();
    fault.map(Fault::from) == Some(Fault::Syntax(0, SyntaxFault::Grammar(27)))
}

/// Whether a tree is written as these bytes.
fn is_written<R: Threads + Wait>(
    rt: &R,
    alloc: Global,
    given: &Given,
    workers: Workers,
    due: &[u8],
) -> bool {
    let run = run_of(rt, alloc, workers);
    let mut out = Std::new(Vec::new(alloc));
    let fault = index_tree(&run, &given.tree, given.registry, &given.settings, &mut out).err();
    fault == None && out.into_inner().as_slice() == due
}

/// Whether the first ten bytes of the empty index are written to a writer that takes no more.
fn is_cut_off<R: Threads + Wait>(rt: &R, alloc: Global, given: &Given, workers: Workers) -> bool {
    let run = run_of(rt, alloc, workers);
    let mut room = [0u8; 10];
    let fault = index_tree(
        &run,
        &given.tree,
        given.registry,
        &given.settings,
        &mut Std::new(room.as_mut_slice()),
    )
    .err();
    fault == Some(Fault::Write(10)) && NOTHING.starts_with(&room)
}

/// Commands, and their answers.
const COMMANDS: &[u8] = b"ref 3 28 a.proto\ndef 3 31 a.proto\ndef 0 0 z.proto\nref\n";

const ANSWERS: &[u8] =
    b"2 8 2 11 1 a.proto\n3 28 3 31 0 a.proto\n= 2\n? nothing there\n? no document\n? bad command\n";

/// Whether the commands are answered so.
fn is_answered<R: Threads + Wait>(rt: &R, alloc: Global, given: &Given, workers: Workers) -> bool {
    let run = run_of(rt, alloc, workers);
    let mut out = Std::new(Vec::new(alloc));
    let fault = session(
        &run,
        &given.tree,
        given.registry,
        &given.settings,
        &mut Std::new(COMMANDS),
        &mut out,
    )
    .err();
    fault == None && out.into_inner().as_slice() == ANSWERS
}

/// A source, and its listing.
const DUMPED: &[u8] = b"syntax = \"proto3\";\nmessage A {}\n";

const LISTING: &[u8] =
    b"0 0 0 0 1 scip-protobuf . . . `input.proto`/\n1 8 1 9 1 scip-protobuf . . . A#\n= 2\n";

#[test]
fn dump_lists_the_occurrences(rt: HostRuntime) {
    let mut source = Std::new(DUMPED);
    let mut out = Std::new(Vec::new(rt.alloc()));
    let answer = dump(&rt, rt.alloc(), &mut source, &mut out);
    see(&rt, answer == Ok(()), "the source is dumped");
    see(
        &rt,
        out.into_inner().as_slice() == LISTING,
        "the occurrences",
    );
}

/// The line that says why a tree isn't written; none if it is.
fn line_of<R: Threads + Wait>(
    rt: &R,
    alloc: Global,
    given: &Given,
    workers: Workers,
) -> Result<Option<String>, AllocError> {
    let run = run_of(rt, alloc, workers);
    let mut out = Std::new(Vec::new(alloc));
    match index_tree(&run, &given.tree, given.registry, &given.settings, &mut out) {
        Ok(_) => Ok(None),
        Err(fault) => Ok(Some(fault_line(alloc, &given.tree, &fault)?)),
    }
}

/// Whether this line says why a tree isn't written.
fn is_line<R: Threads + Wait>(
    rt: &R,
    alloc: Global,
    given: &Given,
    workers: Workers,
    due: &str,
) -> Result<bool, AllocError> {
    match line_of(rt, alloc, given, workers)? {
        Some(line) => Ok(line.as_str() == due),
        None => Ok(false),
    }
}

/// What is called, and what is due.
#[derive(Clone, Copy)]
enum Call {
    Build,
    BuildRefused,
    Index(&'static [u8]),
    IndexCutOff,
    Session,
    Line(&'static str),
}

/// Whether a call does what is due.
fn is_due<R: Threads + Wait>(
    rt: &R,
    alloc: Global,
    given: &Given,
    workers: Workers,
    call: Call,
) -> bool {
    match call {
        Call::Build => builds_round(rt, alloc, given, workers),
        Call::BuildRefused => is_first_refused(rt, alloc, given, workers),
        Call::Index(due) => is_written(rt, alloc, given, workers, due),
        Call::IndexCutOff => is_cut_off(rt, alloc, given, workers),
        Call::Session => is_answered(rt, alloc, given, workers),
        Call::Line(due) => is_line(rt, alloc, given, workers, due) == Ok(true),
    }
}

/// The same of sources, by two workers.
fn is_due_of<R: Threads + Wait>(
    rt: &R,
    alloc: Global,
    registry: &Registry,
    sources: &[(&str, &str)],
    call: Call,
) -> Result<bool, Fail> {
    let workers = Workers::new(2).ok_or("two workers")?;
    let given = given_of(alloc, sources, registry)?;
    Ok(is_due(rt, alloc, &given, workers, call))
}

/// Sees that each call does what is due.
fn see_calls<R: Threads + Wait + Abort>(
    rt: &R,
    alloc: Global,
    registry: &Registry,
) -> Result<(), Fail> {
    for (sources, call, case) in &CALLS {
        see(rt, is_due_of(rt, alloc, registry, sources, *call)?, case);
    }
    Ok(())
}

/// Sources, a call, and what the test says of it.
const CALLS: [(&[(&str, &str)], Call, &str); 8] = [
    (&ROUND, Call::Build, "build gives index and choices"),
    (
        &BAD_GRAMMAR,
        Call::BuildRefused,
        "build names the least faulty file",
    ),
    (
        &MESSAGE,
        Call::Index(ONE_MESSAGE),
        "index_tree writes the 200 bytes",
    ),
    (&[], Call::Index(NOTHING), "index_tree writes the 30 bytes"),
    (&[], Call::IndexCutOff, "index_tree counts what went out"),
    (&NAMED, Call::Session, "session answers"),
    (
        &SHADOWED,
        Call::Line("protoscip: a.proto@81: Unresolved"),
        "fault_line names a place",
    ),
    (
        &TWICE,
        Call::Line("protoscip: a.proto@65: Duplicate of a.proto@42"),
        "fault_line names two places",
    ),
];

#[test]
fn runs_are_called_once_each(rt: HostRuntime) -> Result<(), Fail> {
    see_calls(&rt, rt.alloc(), &Registry::new(rt.alloc()))
}

/// How many files and how many sources a tree has, and whether the second one of two files is included.
fn counts_of(tree: &Tree) -> (usize, usize, bool) {
    let is_included = tree.file_count() == 2 && tree.is_included(1);
    (tree.file_count(), tree.source_count(), is_included)
}

/// An included file.
const INCLUDED: [(&str, &str); 1] = [("t.proto", "syntax = \"proto3\";\n")];

/// How many files and how many sources a source and an included file are, and whether the last of the files is
/// included.
fn with_included(alloc: Global) -> Result<Option<(usize, usize, bool)>, AllocError> {
    let sources = sources_of(alloc, &MESSAGE)?;
    let included = sources_of(alloc, &INCLUDED)?;
    match Tree::with_included(alloc, sources, included) {
        Ok(tree) => Ok(Some(counts_of(&tree))),
        Err(_) => Ok(None),
    }
}

#[test]
fn a_tree_has_included_files(rt: HostRuntime) -> Result<(), Fail> {
    let counted = with_included(rt.alloc())?;
    see(
        &rt,
        counted == Some((2, 1, true)),
        "a source and another file",
    );
    Ok(())
}
