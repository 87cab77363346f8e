//! What sources reach, and in which file they have the messages of their options, in worked trees.

ghost use Rattle.std.specs.Prelude.{◌≡◌};
ghost use Rattle.proto_visibility.specs.Files.{HaveOwnPaths};

use crate::answers::add_fault;
use crate::scans::is_source;
use crate::trees::{add_all_facts, files_of, see, sources_of};
use proto_link::{Duplicates, LinkFile, Linker, OptionsIn, have_own_paths};
use std::alloc::Global;
use std::test::Fail;
use test_kit::{Draft, Made};

/// A tree, whether names in its options are linked, and what is listed: the reachable files, and for each source the
/// file in which it has the messages of its options: `-` for none, and `*` for several.
struct Row {
    tree: &'static str,
    links: bool,
    listed: &'static str,
}

static ROWS: [Row; 8] = [
    // imports of every kind, over any number of included files
    Row {
        tree: "a.proto\nsyntax = \"proto3\";\nimport \"b.proto\";\n|\
+b.proto\nsyntax = \"proto3\";\nimport \"c.proto\";\n|\
+c.proto\nsyntax = \"proto3\";\nimport weak \"d.proto\";\n|\
+d.proto\nsyntax = \"proto3\";\n|\
+e.proto\nsyntax = \"proto3\";\n|",
        links: true,
        listed: "reaches 0 1 2 3; options in -",
    },
    // the same where no options are linked
    Row {
        tree: "a.proto\nsyntax = \"proto3\";\nimport \"b.proto\";\n|\
+b.proto\nsyntax = \"proto3\";\nimport \"c.proto\";\n|\
+c.proto\nsyntax = \"proto3\";\nimport weak \"d.proto\";\n|\
+d.proto\nsyntax = \"proto3\";\n|\
+e.proto\nsyntax = \"proto3\";\n|",
        links: false,
        listed: "reaches 0 1; options in",
    },
    // the file that protoc comes with, and what it imports
    Row {
        tree: "a.proto\nsyntax = \"proto3\";\n|\
+google/protobuf/descriptor.proto\nsyntax = \"proto3\";\npackage google.protobuf;\n\
import \"x.proto\";\nmessage FileOptions {}\n|\
+x.proto\nsyntax = \"proto3\";\n|",
        links: true,
        listed: "reaches 0 1 2; options in 1",
    },
    // by its path alone
    Row {
        tree: "a.proto\nsyntax = \"proto3\";\n|\
+google/protobuf/descriptor.proto\nsyntax = \"proto3\";\n|",
        links: true,
        listed: "reaches 0 1; options in 1",
    },
    // a copy that imports lead to, and not the file that protoc comes with
    Row {
        tree: "a.proto\nsyntax = \"proto3\";\nimport \"b.proto\";\n|\
+b.proto\nsyntax = \"proto3\";\nimport \"copy.proto\";\n|\
+copy.proto\nsyntax = \"proto3\";\npackage google.protobuf;\nmessage FileOptions {}\n|\
+google/protobuf/descriptor.proto\nsyntax = \"proto3\";\npackage google.protobuf;\nmessage FileOptions {}\n|",
        links: true,
        listed: "reaches 0 1 2; options in 2",
    },
    // a source whose imports lead to two of them, one by way of the other, and one that imports one
    Row {
        tree: "a.proto\nsyntax = \"proto3\";\nimport \"b.proto\";\n|\
b.proto\nsyntax = \"proto3\";\nimport \"copy.proto\";\n|\
+copy.proto\nsyntax = \"proto3\";\npackage google;\n\
import \"google/protobuf/descriptor.proto\";\nmessage protobuf { message FileOptions {} }\n|\
c.proto\nsyntax = \"proto3\";\nimport \"google/protobuf/descriptor.proto\";\n|\
+google/protobuf/descriptor.proto\nsyntax = \"proto3\";\npackage google.protobuf;\nmessage FileOptions {}\n|",
        links: true,
        listed: "reaches 0 1 2 3 4; options in * * 4",
    },
    // a source that has them itself; a message of another package and an enum of the name are none
    Row {
        tree: "a.proto\nsyntax = \"proto3\";\npackage google.protobuf;\nmessage FileOptions {}\n|\
b.proto\nsyntax = \"proto3\";\nimport \"c.proto\";\nimport \"d.proto\";\n|\
+c.proto\nsyntax = \"proto3\";\npackage google;\nmessage FileOptions {}\n|\
+d.proto\nsyntax = \"proto3\";\npackage google.protobuf;\nenum FileOptions { ZERO = 0; }\n|",
        links: true,
        listed: "reaches 0 1 2 3; options in 0 -",
    },
    // imports in a ring, with a copy in it
    Row {
        tree: "a.proto\nsyntax = \"proto3\";\nimport \"b.proto\";\n|\
b.proto\nsyntax = \"proto3\";\npackage google.protobuf;\nimport \"c.proto\";\nmessage FileOptions {}\n|\
c.proto\nsyntax = \"proto3\";\nimport \"a.proto\";\n|",
        links: true,
        listed: "reaches 0 1 2; options in 1 1 1",
    },
];

/// Adds the reachable files.
fn add_reached(draft: &mut Draft, linker: &Linker) -> Made<()> {
    for number in linker.reachable_files(draft.alloc())?.as_slice() {
        draft.add(" ");
        draft.add_size(*number);
    }
    Ok(())
}

/// Adds in which file a source has the messages of its options.
fn add_answer(draft: &mut Draft, answer: OptionsIn) {
    draft.add(" ");
    match answer {
        OptionsIn::Nowhere => draft.add("-"),
        OptionsIn::At(number) => draft.add_size(number),
        OptionsIn::Several => draft.add("*"),
    }
}

/// Adds that for each source whose options are linked.
fn add_answers(draft: &mut Draft, files: &[LinkFile], linker: &Linker)
    requires { linker.now ≡ files.now }
{
    for (number, file) in files.iter().enumerate() {
        if file.links_options && is_source(file) {
            add_answer(draft, linker.options_in(number));
        }
    }
}

/// What is listed of files that are linked.
fn listed_of<'a>(alloc: Global, files: &'a [LinkFile<'a, '_>]) -> Made<String>
    requires { HaveOwnPaths files.now }
{
    let mut draft = Draft::new(alloc);
    match Linker::new(alloc, files, Duplicates::Keep) {
        Ok(linker) => {
            draft.add("reaches");
            add_reached(&mut draft, &linker)?;
            draft.add("; options in");
            add_answers(&mut draft, files, &linker);
        }
        Err(fault) => add_fault(&mut draft, fault),
    }
    draft.finish()
}

/// Whether what is due is listed of a tree.
fn is_listed(alloc: Global, row: &Row) -> Made<bool> {
    let sources = sources_of(alloc, row.tree)?;
    let mut facts = Vec::new(alloc);
    add_all_facts(alloc, &mut facts, sources.as_slice())?;
    let files = files_of(alloc, sources.as_slice(), facts.as_slice(), row.links)?;
    if !have_own_paths(alloc, files.as_slice())? {
        return Ok(false);
    }
    let listed = listed_of(alloc, files.as_slice())?;
    Ok(listed.as_str() == row.listed)
}

#[test]
fn reached_files(rt: HostRuntime) -> Result<(), Fail> {
    for (number, row) in ROWS.iter().enumerate() {
        see(&rt, number, is_listed(rt.alloc(), row)?);
    }
    Ok(())
}
