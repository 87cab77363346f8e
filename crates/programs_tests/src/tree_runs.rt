//! The programs about a tree, `index` and `shell`, over streams and files in memory.

use crate::runs::{Row, SILENT, see_row};
use std::test::Fail;

/// The index of `doubt`, in which the `T` of `b.proto` is that of `t.proto`.
pub(crate) const DOUBT: &[u8] = b"\n\x1C\x12\x0E\n\tprotoscip\x12\x011\x1A\x08file:/// \x01\
\x12\xF7\x02\n\x07b.proto\
\x12'\n\x03\x00\x00\x00\x12\x1Escip-protobuf . . . `b.proto`/\x18\x01\
\x12\x1F\n\x03\x01\x08\t\x12\x16scip-protobuf . . . p/\x18\x01\
\x12'\n\x03\x03\x07\x10\x12\x1Escip-protobuf . . . `t.proto`/\x18\x02\
\x12!\n\x03\x04\x08\t\x12\x18scip-protobuf . . . p/M#\x18\x01\
\x12\x1D\n\x03\x04\x0C\x0D\x12\x16scip-protobuf . . . T#\
\x12#\n\x03\x04\x0E\x0F\x12\x1Ascip-protobuf . . . p/M#t.\x18\x01\
\x1A)\n\x1Escip-protobuf . . . `b.proto`/2\x07b.proto\
\x1A\x1B\n\x16scip-protobuf . . . p/2\x01p\
\x1A\x1D\n\x18scip-protobuf . . . p/M#2\x01M\
\x1A\x1F\n\x1Ascip-protobuf . . . p/M#t.2\x01t\
\"\x08Protobuf0\x01\
\x1A\x1B\n\x16scip-protobuf . . . T#2\x01T\0";

static ROWS: [Row; 42] = [
    Row {
        words: "index api out",
        written: b"\x0A\x1C\x12\x0E\x0A\x09protoscip\x12\x011\x1A\x08file:///\x20\x01\
\x12\xA7\x01\x0A\x07a.proto\
\x12\x27\x0A\x03\x00\x00\x00\x12\x1Escip-protobuf . . . `a.proto`/\x18\x01\
\x12\x1F\x0A\x03\x01\x08\x09\x12\x16scip-protobuf . . . A#\x18\x01\
\x1A\x1B\x0A\x16scip-protobuf . . . A#\x32\x01A\
\x1A\x29\x0A\x1Escip-protobuf . . . `a.proto`/\x32\x07a.proto\
\x22\x08Protobuf\x30\x01\0",
        ..SILENT
    },
    // the document's path alone is below the folder
    Row {
        words: "index --at d api out",
        written: b"\x0A\x1C\x12\x0E\x0A\x09protoscip\x12\x011\x1A\x08file:///\x20\x01\
\x12\xA9\x01\x0A\x09d/a.proto\
\x12\x27\x0A\x03\x00\x00\x00\x12\x1Escip-protobuf . . . `a.proto`/\x18\x01\
\x12\x1F\x0A\x03\x01\x08\x09\x12\x16scip-protobuf . . . A#\x18\x01\
\x1A\x1B\x0A\x16scip-protobuf . . . A#\x32\x01A\
\x1A\x29\x0A\x1Escip-protobuf . . . `a.proto`/\x32\x07a.proto\
\x22\x08Protobuf\x30\x01\0",
        ..SILENT
    },
    Row {
        words: "index api out",
        fits: 30,
        status: 3,
        said: "protoscip: Write\n",
        ..SILENT
    },
    Row {
        words: "index api out",
        is_refused: true,
        status: 3,
        said: "protoscip: Write\n",
        ..SILENT
    },
    Row {
        words: "index api ./api/a.proto",
        status: 3,
        said: "protoscip: ./api/a.proto: IsSource\n",
        ..SILENT
    },
    Row {
        words: "index api ././api/a.proto --explain",
        status: 3,
        said: "protoscip: ././api/a.proto: IsSource
it is a source that was read, or a link to one; the index would replace it\n",
        ..SILENT
    },
    // of `base`, which is read, though the `a.proto` of `own` counts
    Row {
        words: "index own base/a.proto --include-package m n r base",
        status: 3,
        said: "protoscip: base/a.proto: IsSource\n",
        ..SILENT
    },
    Row {
        words: "index --package . nowhere out",
        status: 2,
        said: "protoscip: BadPart\n",
        ..SILENT
    },
    // `own` and `base` have an `a.proto`, of which that of `own` counts; `t.proto` has the package of `base`
    Row {
        words: "index own out --include-package m n r base",
        written: b"\n\x1C\x12\x0E\n\x09protoscip\x12\x011\x1A\x08file:/// \x01\
\x12\xB1\x02\n\x07a.proto\
\x12'\n\x03\x00\x00\x00\x12\x1Escip-protobuf . . . `a.proto`/\x18\x01\
\x12'\n\x03\x01\x07\x10\x12\x1Escip-protobuf m n r `t.proto`/\x18\x02\
\x12\x1F\n\x03\x02\x08\x09\x12\x16scip-protobuf . . . A#\x18\x01\
\x12\x1D\n\x03\x02\x0C\x0D\x12\x16scip-protobuf m n r T#\
\x12!\n\x03\x02\x0E\x0F\x12\x18scip-protobuf . . . A#t.\x18\x01\
\x1A\x1B\n\x16scip-protobuf . . . A#2\x01A\
\x1A\x1D\n\x18scip-protobuf . . . A#t.2\x01t\
\x1A)\n\x1Escip-protobuf . . . `a.proto`/2\x07a.proto\
\"\x08Protobuf0\x01\
\x1A\x1B\n\x16scip-protobuf m n r T#2\x01T\0",
        ..SILENT
    },
    Row {
        words: "index holes out --include nowhere",
        status: 3,
        said: "protoscip: b.proto: Unreadable\n",
        ..SILENT
    },
    Row {
        words: "index twice out --include bad",
        status: 1,
        said: "protoscip: a\n.proto: BadPath\n",
        ..SILENT
    },
    Row {
        words: "index twice out",
        status: 1,
        said: "protoscip: c.proto: SamePath\n",
        ..SILENT
    },
    Row {
        words: "index clash out --faulty skip",
        written: b"\x0A\x1C\x12\x0E\x0A\x09protoscip\x12\x011\x1A\x08file:///\x20\x01\
\x12\xA7\x01\x0A\x07a.proto\
\x12\x27\x0A\x03\x00\x00\x00\x12\x1Escip-protobuf . . . `a.proto`/\x18\x01\
\x12\x1F\x0A\x03\x02\x08\x09\x12\x16scip-protobuf . . . A#\x18\x01\
\x1A\x1B\x0A\x16scip-protobuf . . . A#\x32\x01A\
\x1A\x29\x0A\x1Escip-protobuf . . . `a.proto`/\x32\x07a.proto\
\x22\x08Protobuf\x30\x01\0",
        said: "protoscip: no target: a.proto@26: MissingImport
protoscip: skipped: b.proto@27: Duplicate of a.proto@46
protoscip: 1 sources indexed, 1 skipped, 1 imports and 0 uses without a target\n",
        ..SILENT
    },
    // `a.proto` of `base` can't be read, and may have a `T` that is nearer
    Row {
        words: "index doubt out --faulty skip --include base",
        written: DOUBT,
        said: "protoscip: no target: b.proto@37: MissingImport
protoscip: uncertain: b.proto@78 behind a.proto
protoscip: skipped: a.proto@0: BadByte
protoscip: 1 sources indexed, 1 skipped, 1 imports and 0 uses without a target\n",
        ..SILENT
    },
    // with one word both files that give a name are kept, and what is missing is told at the end
    Row {
        words: "index clash out --real",
        written: b"\x0A\x1C\x12\x0E\x0A\x09protoscip\x12\x011\x1A\x08file:///\x20\x01\
\x12\xC7\x01\x0A\x07a.proto\
\x12\x27\x0A\x03\x00\x00\x00\x12\x1Escip-protobuf . . . `a.proto`/\x18\x01\
\x12\x24\x0A\x03\x02\x08\x09\x12\x16scip-protobuf . . . A#\x18\x01\x3A\x03\x02\x00\x0C\
\x1A\x34\x0A\x16scip-protobuf . . . A#\x28\x1C\x32\x01A\x3A\x15\x22\x08Protobuf\x2A\x09message A\
\x1A\x2B\x0A\x1Escip-protobuf . . . `a.proto`/\x28\x10\x32\x07a.proto\
\x22\x08Protobuf\x30\x01\
\x12\xDB\x01\x0A\x07b.proto\
\x12\x27\x0A\x03\x00\x00\x00\x12\x1Escip-protobuf . . . `b.proto`/\x18\x01\
\x12\x2E\x0A\x03\x01\x08\x09\x12\x20scip-protobuf . . . `b.proto`/A#\x18\x01\x3A\x03\x01\x00\x0C\
\x1A\x2B\x0A\x1Escip-protobuf . . . `b.proto`/\x28\x10\x32\x07b.proto\
\x1A\x3E\x0A\x20scip-protobuf . . . `b.proto`/A#\x28\x1C\x32\x01A\x3A\x15\x22\x08Protobuf\x2A\x09message A\
\x22\x08Protobuf\x30\x01\0",
        said: "protoscip: no target: a.proto@26: MissingImport
protoscip: 2 sources indexed, 0 skipped, 1 imports and 0 uses without a target
protoscip: 1 import of no.proto leads nowhere: --include the folder that has it\n",
        ..SILENT
    },
    // but not of a file that is left out
    Row {
        words: "index clash out --real --duplicates refuse",
        written: b"\x0A\x1C\x12\x0E\x0A\x09protoscip\x12\x011\x1A\x08file:///\x20\x01\
\x12\xC7\x01\x0A\x07a.proto\
\x12\x27\x0A\x03\x00\x00\x00\x12\x1Escip-protobuf . . . `a.proto`/\x18\x01\
\x12\x24\x0A\x03\x02\x08\x09\x12\x16scip-protobuf . . . A#\x18\x01\x3A\x03\x02\x00\x0C\
\x1A\x34\x0A\x16scip-protobuf . . . A#\x28\x1C\x32\x01A\x3A\x15\x22\x08Protobuf\x2A\x09message A\
\x1A\x2B\x0A\x1Escip-protobuf . . . `a.proto`/\x28\x10\x32\x07a.proto\
\x22\x08Protobuf\x30\x01\0",
        said: "protoscip: no target: a.proto@26: MissingImport
protoscip: skipped: b.proto@27: Duplicate of a.proto@46
protoscip: 1 sources indexed, 1 skipped, 1 imports and 0 uses without a target
protoscip: 1 import of no.proto leads nowhere: --include the folder that has it\n",
        ..SILENT
    },
    // one file is left out, and one source indexed: each limit is kept, and each broken by one
    Row {
        words: "index clash out --faulty skip --max-skipped 1 --min-sources 1",
        written: b"\x0A\x1C\x12\x0E\x0A\x09protoscip\x12\x011\x1A\x08file:///\x20\x01\
\x12\xA7\x01\x0A\x07a.proto\
\x12\x27\x0A\x03\x00\x00\x00\x12\x1Escip-protobuf . . . `a.proto`/\x18\x01\
\x12\x1F\x0A\x03\x02\x08\x09\x12\x16scip-protobuf . . . A#\x18\x01\
\x1A\x1B\x0A\x16scip-protobuf . . . A#\x32\x01A\
\x1A\x29\x0A\x1Escip-protobuf . . . `a.proto`/\x32\x07a.proto\
\x22\x08Protobuf\x30\x01\0",
        said: "protoscip: no target: a.proto@26: MissingImport
protoscip: skipped: b.proto@27: Duplicate of a.proto@46
protoscip: 1 sources indexed, 1 skipped, 1 imports and 0 uses without a target\n",
        ..SILENT
    },
    Row {
        words: "index clash out --faulty skip --max-skipped 0 --min-sources 2",
        status: 1,
        said: "protoscip: no target: a.proto@26: MissingImport
protoscip: skipped: b.proto@27: Duplicate of a.proto@46
protoscip: 1 sources indexed, 1 skipped, 1 imports and 0 uses without a target
protoscip: TooManySkipped\n",
        ..SILENT
    },
    Row {
        words: "index clash out --faulty skip --max-skipped 1 --min-sources 2",
        status: 1,
        said: "protoscip: no target: a.proto@26: MissingImport
protoscip: skipped: b.proto@27: Duplicate of a.proto@46
protoscip: 1 sources indexed, 1 skipped, 1 imports and 0 uses without a target
protoscip: TooFewSources\n",
        ..SILENT
    },
    Row {
        words: "index api out --max-skipped 0 --min-sources 2",
        status: 1,
        said: "protoscip: TooFewSources\n",
        ..SILENT
    },
    Row {
        words: "index api out --min-sources 4294967295 --explain",
        status: 1,
        said: "protoscip: TooFewSources\n1 sources are indexed, and --min-sources wants 4294967295\n",
        ..SILENT
    },
    // a place that takes no part isn't asked to, and a write that fails comes first
    Row {
        words: "index api out --min-sources 2",
        is_refused: true,
        status: 1,
        said: "protoscip: TooFewSources\n",
        ..SILENT
    },
    Row {
        words: "index api out --min-sources 2",
        fits: 30,
        status: 3,
        said: "protoscip: Write\n",
        ..SILENT
    },
    Row {
        words: "shell said --doc both --only A --positions utf16 --custom-options skip --release r --workers 1",
        input: "doc 3 8 a.proto\ndef 5 16 a.proto\nsym a.proto",
        printed: "| One.\n| Two.\n= 2\n? nothing there\nscip-protobuf . . r A#\nscip-protobuf . . r `a.proto`/\n= 2\n\0",
        ..SILENT
    },
    // of `option (x)`, which nothing declares
    Row {
        words: "index said out --accept all --options link",
        status: 1,
        said: "protoscip: a.proto@27: Option\n",
        ..SILENT
    },
    Row {
        words: "shell said --accept all --options link --faulty skip --explain",
        said: "protoscip: no target: a.proto@27: Option
a.proto:2:9: nothing that may stand in this option has this name
  2 | option (x) = 1;
    |         ^
protoscip: 1 sources indexed, 0 skipped, 0 imports and 1 uses without a target\n",
        ..SILENT
    },
    Row {
        words: "shell said --real --options skip",
        ..SILENT
    },
    Row {
        words: "shell said --accept all",
        input: "sym a.proto",
        printed: "scip-protobuf . . . A#\nscip-protobuf . . . B#\nscip-protobuf . . . `a.proto`/\n= 3\n\0",
        ..SILENT
    },
    Row {
        words: "shell said --at d/e --only A --accept all",
        input: "sym a.proto\nsym d/e/a.proto",
        printed: "? no document\nscip-protobuf . . . A#\nscip-protobuf . . . `a.proto`/\n= 2\n\0",
        ..SILENT
    },
    Row {
        words: "shell nowhere --at d/../e",
        status: 2,
        said: "error: '--at <PREFIX>' takes names with one '/' between them, none of them '.' or '..'

Usage: protoscip <COMMAND>

For more information, try '--help'.\n",
        ..SILENT
    },
    Row {
        words: "shell one",
        input: "def 3 28 a.proto",
        printed: "2 8 2",
        status: 3,
        said: "protoscip: Answer\n",
        ..SILENT
    },
    Row {
        words: "shell one",
        input: "def 3 28 a.proto",
        printed: "2 8 2",
        closes: true,
        status: 3,
        said: "protoscip: Answer\n",
        ..SILENT
    },
    // no sources
    Row {
        words: "index links out",
        written: b"\n\x1C\x12\x0E\n\x09protoscip\x12\x011\x1A\x08file:/// \x01\0",
        said: "protoscip: no sources below links (3 symbolic links, 12 files with other names)\n",
        ..SILENT
    },
    // what is left out: two sources with one path, and one with a bad path
    Row {
        words: "index bad out --exclude x --exclude a?.proto",
        written: b"\n\x1C\x12\x0E\n\x09protoscip\x12\x011\x1A\x08file:/// \x01\0",
        said: "protoscip: no sources below bad\n",
        ..SILENT
    },
    Row {
        words: "shell twice --exclude /c.proto",
        input: "sym c.proto",
        printed: "? no document\n\0",
        said: "protoscip: no sources below twice\n",
        ..SILENT
    },
    Row {
        words: "shell empty --include api",
        input: "sym a.proto",
        printed: "? no document\n\0",
        said: "protoscip: no sources below empty\n",
        ..SILENT
    },
    // what can't be read is left out: a file, a folder, and a name that isn't UTF-8
    Row {
        words: "index gaps out --faulty skip",
        written: b"\x0A\x1C\x12\x0E\x0A\x09protoscip\x12\x011\x1A\x08file:///\x20\x01\
\x12\xA7\x01\x0A\x07a.proto\
\x12\x27\x0A\x03\x00\x00\x00\x12\x1Escip-protobuf . . . `a.proto`/\x18\x01\
\x12\x1F\x0A\x03\x01\x08\x09\x12\x16scip-protobuf . . . A#\x18\x01\
\x1A\x1B\x0A\x16scip-protobuf . . . A#\x32\x01A\
\x1A\x29\x0A\x1Escip-protobuf . . . `a.proto`/\x32\x07a.proto\
\x22\x08Protobuf\x30\x01\0",
        said: "protoscip: skipped: b.proto: Unreadable
protoscip: skipped: d/: Unreadable
protoscip: skipped: n\\xe9: Unreadable
protoscip: 1 sources indexed, 3 skipped, 0 imports and 0 uses without a target\n",
        ..SILENT
    },
    Row {
        words: "index gaps out --faulty refuse",
        status: 3,
        said: "protoscip: gaps: Unreadable\n",
        ..SILENT
    },
    // a root has to be readable
    Row {
        words: "index nowhere out --faulty skip",
        status: 3,
        said: "protoscip: nowhere: Unreadable\n",
        ..SILENT
    },
    Row {
        words: "index holes out --faulty skip --explain --max-skipped 1",
        status: 1,
        said: "protoscip: skipped: b.proto: Unreadable
it can't be read, or its name isn't UTF-8
protoscip: skipped: a.proto@0: BadByte
a.proto:1:1: this character can't be here
  1 | @
    | ^
protoscip: 0 sources indexed, 2 skipped, 0 imports and 0 uses without a target
protoscip: TooManySkipped
2 files are left out, and --max-skipped allows 1\n",
        ..SILENT
    },
    // an included folder has what can't be read
    Row {
        words: "shell api --faulty skip --include gaps",
        input: "sym a.proto",
        printed: "scip-protobuf . . . A#\nscip-protobuf . . . `a.proto`/\n= 2\n\0",
        said: "protoscip: skipped: b.proto: Unreadable
protoscip: skipped: d/: Unreadable
protoscip: skipped: n\\xe9: Unreadable
protoscip: 1 sources indexed, 3 skipped, 0 imports and 0 uses without a target\n",
        ..SILENT
    },
    Row {
        words: "shell api --faulty skip --include-package m n r holes",
        input: "sym a.proto",
        printed: "scip-protobuf . . . A#\nscip-protobuf . . . `a.proto`/\n= 2\n\0",
        said: "protoscip: skipped: b.proto: Unreadable
protoscip: 1 sources indexed, 1 skipped, 0 imports and 0 uses without a target\n",
        ..SILENT
    },
];

#[test]
fn each_program_about_a_tree(rt: HostRuntime) -> Result<(), Fail> {
    for row in &ROWS {
        see_row(&rt, rt.alloc(), row)?;
    }
    Ok(())
}
