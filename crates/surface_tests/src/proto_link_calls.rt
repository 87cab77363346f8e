//! Files that are linked: what each sees, and what a use names.

use crate::shared::{facts_of, see};
use proto_decl::FileFacts;
use proto_link::{Duplicates, Entity, LinkFault, LinkFile, Linker, Target, have_own_paths};
use std::alloc::{AllocError, Global};
use std::test::Fail;

/// Paths and sources. The last file is seen by the first, along public imports.
static CHAIN: [(&str, &str); 4] = [
    (
        "a.proto",
        "syntax = \"proto3\";\nimport \"b.proto\";\nmessage M { D d = 1; }\n",
    ),
    (
        "b.proto",
        "syntax = \"proto3\";\nimport public \"c.proto\";\n",
    ),
    (
        "c.proto",
        "syntax = \"proto3\";\nimport public \"d.proto\";\n",
    ),
    ("d.proto", "syntax = \"proto3\";\nmessage D {}\n"),
];

/// The package `acme.google` would hide the package `google` of the use, but for its leading dot.
static DOTTED: [(&str, &str); 3] = [
    (
        "a.proto",
        "syntax = \"proto3\";\npackage acme;\nimport \"b.proto\";\nimport \"t.proto\";\n\
message M { .google.protobuf.Timestamp t = 1; }\n",
    ),
    ("b.proto", "syntax = \"proto3\";\npackage acme.google;\n"),
    (
        "t.proto",
        "syntax = \"proto3\";\npackage google.protobuf;\nmessage Timestamp {}\n",
    ),
];

/// What is asked of files.
#[derive(Clone, Copy)]
enum Asked {
    /// Whether the first of these files sees the second.
    Visible(usize, usize),
    /// Whether the first use of the first file names the message `google.protobuf.Timestamp` of the third file.
    Resolved,
}

/// The answer, or why the files aren't linked, or the use names nothing.
type Answer = Result<bool, LinkFault>;

/// Adds the facts of a source.
fn add_facts<'t>(
    alloc: Global,
    all: &mut Vec<FileFacts<'t>>,
    number: usize,
    source: &'t str,
) -> Result<(), Fail> {
    let facts = facts_of(alloc, number, source)?;
    all.push(facts)?;
    Ok(())
}

/// Adds a file with the next path.
fn add_file<'a, 't>(
    files: &mut Vec<LinkFile<'a, 't>>,
    path: &'a str,
    facts: &'a FileFacts<'t>,
) -> Result<(), AllocError> {
    files.push(LinkFile {
        path,
        facts: Some(facts),
        included: false,
        left_out: false,
        links_options: false,
    })?;
    Ok(())
}

/// Whether a use names the message, by two packages.
fn is_timestamp(target: &Target) -> bool {
    let parts = [
        Entity::Package(1),
        Entity::Package(2),
        Entity::Declared(2, 0),
    ];
    target.name.as_str() == "google.protobuf.Timestamp"
        && target.parts.as_slice() == parts.as_slice()
}

/// Whether the first use of these facts, which are those of the first file, names the message.
fn is_resolved(alloc: Global, linker: &Linker, facts: &FileFacts) -> Answer {
    match facts.uses() {
        [first, ..] if linker.count() > 0 => match linker.resolve(alloc, 0, first) {
            Ok(target) => Ok(is_timestamp(&target)),
            Err(fault) => Err(fault),
        },
        _ => Ok(false),
    }
}

/// What a linker answers.
fn answer_of(alloc: Global, linker: &Linker, facts: &[FileFacts], asked: Asked) -> Answer {
    let count = linker.count();
    match (asked, facts) {
        (Asked::Visible(file, other), _) if file < count && other < count => {
            Ok(linker.visible(file, other))
        }
        (Asked::Resolved, [first, ..]) => is_resolved(alloc, linker, first),
        _ => Err(LinkFault::Memory),
    }
}

/// What files answer.
fn answer_with<'a>(
    alloc: Global,
    files: &'a [LinkFile<'a, '_>],
    facts: &[FileFacts],
    asked: Asked,
) -> Result<Answer, AllocError> {
    if !have_own_paths(alloc, files)? {
        return Err(AllocError);
    }
    Ok(match Linker::new(alloc, files, Duplicates::Refuse) {
        Ok(linker) => answer_of(alloc, &linker, facts, asked),
        Err(fault) => Err(fault),
    })
}

/// Adds a file with each of these paths and facts.
fn add_files<'a, 't>(
    files: &mut Vec<LinkFile<'a, 't>>,
    sources: &[(&'a str, &'a str)],
    facts: &'a [FileFacts<'t>],
) -> Result<(), AllocError> {
    let mut rest = facts;
    for (path, _) in sources {
        if let [first, others @ ..] = rest {
            add_file(files, path, first)?;
            rest = others;
        }
    }
    Ok(())
}

/// The same of files with these paths and these facts.
fn answer_of_files(
    alloc: Global,
    sources: &[(&str, &str)],
    facts: &[FileFacts],
    asked: Asked,
) -> Result<Answer, AllocError> {
    let mut files = Vec::new(alloc);
    add_files(&mut files, sources, facts)?;
    answer_with(alloc, files.as_slice(), facts, asked)
}

/// Adds the facts of each source.
fn add_all_facts<'t>(
    alloc: Global,
    all: &mut Vec<FileFacts<'t>>,
    sources: &[(&'t str, &'t str)],
) -> Result<(), Fail> {
    for (number, (_, source)) in sources.iter().enumerate() {
        add_facts(alloc, all, number, source)?;
    }
    Ok(())
}

/// The same of files with these paths and sources.
fn answer(alloc: Global, sources: &[(&str, &str)], asked: Asked) -> Result<Answer, Fail> {
    let mut facts = Vec::new(alloc);
    add_all_facts(alloc, &mut facts, sources)?;
    Ok(answer_of_files(alloc, sources, facts.as_slice(), asked)?)
}

#[test]
fn visible_follows_public_imports(rt: HostRuntime) -> Result<(), Fail> {
    let answered = answer(rt.alloc(), &CHAIN, Asked::Visible(0, 3))?;
    see(
        &rt,
        answered == Ok(true),
        "the last is visible to the first",
    );
    let answered = answer(rt.alloc(), &CHAIN, Asked::Visible(3, 0))?;
    see(
        &rt,
        answered == Ok(false),
        "the first isn't visible to the last",
    );
    Ok(())
}

#[test]
fn resolve_names_each_component(rt: HostRuntime) -> Result<(), Fail> {
    let answered = answer(rt.alloc(), &DOTTED, Asked::Resolved)?;
    see(
        &rt,
        answered == Ok(true),
        "google, google.protobuf, and the message",
    );
    Ok(())
}
