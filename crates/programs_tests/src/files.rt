//! Files in memory.

use source_files::{
    EmptyFolders, FolderEntry, FolderListing, LookAgain, PassedOver, ReadFiles, UnreadEntry,
};
use source_tree::read_source;
use std::alloc::{AllocError, Global};
use streams::Std;

/// A file: the root that it is below, its path there, and what it holds, where it can be read.
type Entry = (&'static str, &'static str, Option<&'static str>);

// The first row reads: below `api` is one source, `a.proto`, with a message `A`.
static ENTRIES: [Entry; 17] = [
    (
        "api",
        "a.proto",
        Some("syntax = \"proto3\";\nmessage A {}\n"),
    ),
    (
        "one",
        "a.proto",
        Some(
            "syntax = \"proto3\";\npackage p;\nmessage Foo {}\nmessage M { string Foo = 1; Foo x = 2; }\n",
        ),
    ),
    (
        "said",
        "a.proto",
        Some(
            "syntax = \"proto3\";\noption (x) = 1;\n// One.\nmessage A { // Two.\n}\n/* é */ message B {}\n",
        ),
    ),
    ("holes", "a.proto", Some("@")),
    ("holes", "b.proto", None),
    ("bad", "a\n.proto", Some("@")),
    ("twice", "c.proto", Some("@")),
    ("twice", "c.proto", Some("@")),
    (
        "own",
        "a.proto",
        Some("syntax = \"proto3\";\nimport \"t.proto\";\nmessage A { T t = 1; }\n"),
    ),
    ("base", "a.proto", Some("@")),
    (
        "base",
        "t.proto",
        Some("syntax = \"proto3\";\nmessage T {}\n"),
    ),
    (
        "clash",
        "a.proto",
        Some("syntax = \"proto3\";\nimport \"no.proto\";\nmessage A {}\n"),
    ),
    (
        "clash",
        "b.proto",
        Some("syntax = \"proto3\";\nmessage A {}\n"),
    ),
    (
        "gaps",
        "a.proto",
        Some("syntax = \"proto3\";\nmessage A {}\n"),
    ),
    ("gaps", "b.proto", None),
    (
        "doubt",
        "b.proto",
        Some(
            "syntax = \"proto3\";\npackage p;\nimport \"a.proto\";\nimport \"t.proto\";\nmessage M { T t = 1; }\n",
        ),
    ),
    ("lists", "two", Some("a.proto\r\n\nb/c.proto")),
];

/// An index of three documents: `a.txt` with a definition that is documented; one whose source can't be read; and
/// `b/c.txt` with a reference.
const SEEN: &[u8] =
    b"\x12\x22\x0a\x05a.txt\x12\x0b\x0a\x03\x00\x00\x02\x12\x02X#\x18\x01\x1a\x0a\x0a\x02X#\x1a\x04One.0\x01\
\x12\x0a\x0a\x06no.txt0\x01\
\x12\x16\x0a\x07b/c.txt\x12\x09\x0a\x03\x00\x01\x02\x12\x02X#0\x01";

/// The sources of `ENTRIES`, and beside them the index `a.scip` of one document `a` with one occurrence,
/// `pair.scip` of two with one path, `cut.scip`, which is cut off, `empty.scip` without documents, and `SEEN` with
/// sources below `src`. No folder but `full` has an entry, and `links`, where no source is. Below `gaps` are a folder
/// `d`, which can't be listed, and a file whose name isn't UTF-8.
#[derive(Clone, Copy)]
pub(crate) struct Files {
    /// Where the memory of what is said of them is taken.
    pub(crate) alloc: Global,
}

/// What the source with a path holds.
fn text_at(path: &str) -> Option<&'static str> {
    for (root, below, text) in &ENTRIES {
        let rest = path
            .strip_prefix(*root)
            .and_then(|rest| rest.strip_prefix("/"));
        if rest == Some(*below) {
            return *text;
        }
    }
    None
}

/// Whether a file is below a root, at a path.
fn is_at(entry: &Entry, root: &str, path: &str) -> bool {
    entry.0 == root && entry.1 == path
}

/// The files that are listed in a root.
fn listed(alloc: Global, root: &str) -> Result<Vec<FolderEntry>, AllocError> {
    let mut entries = Vec::new(alloc);
    for (above, path, _) in &ENTRIES {
        if *above == root {
            let name = String::from_str(alloc, *path)?;
            entries.push(FolderEntry {
                name,
                is_file: true,
            })?;
        }
    }
    Ok(entries)
}

/// The entries in a root whose names aren't UTF-8.
fn unnamed(alloc: Global, root: &str) -> Result<Vec<UnreadEntry>, AllocError> {
    let mut entries = Vec::new(alloc);
    if root == "gaps" {
        entries.push(UnreadEntry {
            shown: String::from_str(alloc, "n\\xe9")?,
            bytes: Vec::from_slice(alloc, b"n\xe9")?,
            folder: None,
            has_bad_path: false,
        })?;
    }
    Ok(entries)
}

/// The folders in a root.
fn folders_in(alloc: Global, root: &str) -> Result<Vec<FolderEntry>, AllocError> {
    let mut entries = Vec::new(alloc);
    if root == "gaps" {
        entries.push(FolderEntry {
            name: String::from_str(alloc, "d")?,
            is_file: false,
        })?;
    }
    Ok(entries)
}

impl ReadFiles for Files {
    ghost use Rattle.std.specs.Prelude.{⊤};

    ghost lists = { λ _ _ _ _. ⊤ };

    ghost gives = { λ _ _ _. ⊤ };

    ghost finds = { λ _ _ _ _. ⊤ };

    fn list_folder(
        &self,
        alloc: Global,
        root: &str,
        folder: &str,
    ) -> Result<Option<FolderListing>, AllocError> {
        if folder == "d/" {
            return Ok(None);
        }
        let mut entries = listed(alloc, root)?;
        let mut folders = folders_in(alloc, root)?;
        entries.append(&mut folders)?;
        if entries.is_empty() && root != "links" && root != "empty" {
            return Ok(None);
        }
        Ok(Some(FolderListing {
            entries,
            identity: None,
            unnamed: unnamed(alloc, root)?,
        }))
    }

    fn is_below(&self, _alloc: Global, root: &str, path: &str) -> Result<bool, AllocError> {
        for entry in &ENTRIES {
            if is_at(entry, root, path) {
                return Ok(true);
            }
        }
        Ok(false)
    }

    fn read_file(&self, alloc: Global, path: &str) -> Result<Option<Vec<u8>>, AllocError> {
        let bytes = match path {
            "a.scip" =>
                b"\x12\x0f\x0a\x01a\x12\x0a\x0a\x03\x01\x08\x09\x12\x01x\x18\x01".as_slice(),
            "cut.scip" => b"\x0a".as_slice(),
            "pair.scip" => b"\x12\x03\x0a\x01a\x12\x03\x0a\x01a".as_slice(),
            "twice.scip" => b"\x0a\x00\x0a\x00".as_slice(),
            "seen.scip" => SEEN,
            "empty.scip" => b"".as_slice(),
            "src/a.txt" => b"ab\n".as_slice(),
            "src/b/c.txt" => b"\tx".as_slice(),
            _ => return Ok(None),
        };
        Ok(Some(Vec::from_slice(alloc, bytes)?))
    }

    fn read_source(&self, alloc: Global, path: &str) -> Result<Option<Vec<u8>>, AllocError> {
        match text_at(path) {
            Some(text) => read_source(alloc, &mut Std::new(text.as_bytes())),
            None => Ok(None),
        }
    }
}

impl EmptyFolders for Files {
    ghost use Rattle.std.specs.Prelude.{⊤};

    ghost frees = { λ _ _ _. ⊤ };

    fn is_free(&self, path: &str) -> Result<bool, AllocError> {
        Ok(path != "full")
    }
}

impl LookAgain for Files {
    ghost use Rattle.std.specs.Prelude.{⊤};

    ghost passes = { λ _ _ _. ⊤ };

    ghost blames = { λ _ _ _ _ _. ⊤ };

    fn passed_over(&self, root: &str) -> Result<PassedOver, AllocError> {
        let links = if root == "links" { 3 } else { 0 };
        Ok(PassedOver {
            links,
            others: links * 4,
        })
    }

    /// It blames an entry of a folder, a file below the first of the folders, or a file that isn't there; and nothing
    /// where the path is `gone.scip`, or a pattern is `secret`.
    fn why_unread(
        &self,
        folders: &[String],
        excluded: &[String],
        path: &str,
    ) -> Result<Option<String>, AllocError> {
        if path == "gone.scip" || is_among(excluded, "secret") {
            return Ok(None);
        }
        let why = match folders.first() {
            None => format!(in self.alloc; "{path}: no such file or directory")?,
            Some(_) if is_among(folders, path) => {
                format!(in self.alloc; "{path}/secret: permission denied")?
            }
            Some(root) => format!(in self.alloc; "{root}/{path}: permission denied")?,
        };
        Ok(Some(why))
    }
}

/// Whether a path is that of one of the folders.
fn is_among(folders: &[String], path: &str) -> bool {
    for folder in folders {
        if folder.as_str() == path {
            return true;
        }
    }
    false
}
