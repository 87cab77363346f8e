//! Trees indexed, by whole bytes, as an encoder of another hand writes them.

use crate::calls::{COUNTS, Desk, Due, Given, Told, dues_of, is_due, paced_writer, see, whole};
use index_hooks::Registry;
use proto_lex::Encoding;
use protoscip::index_tree;
use scip_build::{Duplicates, Faulty};
use std::alloc::AllocError;
use std::process::Abort;
use std::sync::Wait;
use std::test::Fail;
use std::thread::Threads;

/// The index of no files.
const NO_FILES: &[u8; 30] = b"\n\x1C\x12\x0E\n\x09protoscip\x12\x011\x1A\x08file:/// \x01";

/// The index of a source that names a declaration of an included file.
const INCLUDED: &[u8] =
    b"\n\x1C\x12\x0E\n\x09protoscip\x12\x011\x1A\x08file:/// \x01\x12\xD6\x02\n\x07a.proto\x12'\n\x03\x00\x00\x00\x12\x1Escip-protobuf . . . `a.proto`/\x18\x01\x12'\n\x03\x01\x07\x10\x12\x1Escip-protobuf . . . `t.proto`/\x18\x02\x12\x1F\n\x03\x02\x08\x09\x12\x16scip-protobuf . . . M#\x18\x01\x12\x1F\n\x03\x02\x0C\x0F\x12\x18scip-protobuf . . . lib/\x12!\n\x03\x02\x10\x11\x12\x1Ascip-protobuf . . . lib/T#\x12!\n\x03\x02\x12\x13\x12\x18scip-protobuf . . . M#t.\x18\x01\x1A\x1B\n\x16scip-protobuf . . . M#2\x01M\x1A\x1D\n\x18scip-protobuf . . . M#t.2\x01t\x1A)\n\x1Escip-protobuf . . . `a.proto`/2\x07a.proto\"\x08Protobuf0\x01\x1A)\n\x1Ascip-protobuf . . . lib/T#\x1A\x08A thing.2\x01T";

/// Files, as `test_kit` takes them, the unit of columns, and the bytes of the index.
struct Row {
    files: &'static str,
    encoding: Encoding,
    due: &'static [u8],
}

// The second row reads: behind the 30 bytes of the metadata stands the document of `a.proto` (`\x12`, of 167
// bytes), in which the file occurs at 0 to 0 of line 0, and `A#` at 8 to 9 of line 1.
static ROWS: [Row; 18] = [
    Row {
        files: "",
        encoding: Encoding::Utf8,
        due: NO_FILES,
    },
    Row {
        files: "a.proto\nsyntax = \"proto3\";\nmessage A {}\n",
        encoding: Encoding::Utf8,
        due: b"\n\x1C\x12\x0E\n\x09protoscip\x12\x011\x1A\x08file:/// \x01\x12\xA7\x01\n\x07a.proto\x12'\n\x03\x00\x00\x00\x12\x1Escip-protobuf . . . `a.proto`/\x18\x01\x12\x1F\n\x03\x01\x08\x09\x12\x16scip-protobuf . . . A#\x18\x01\x1A\x1B\n\x16scip-protobuf . . . A#2\x01A\x1A)\n\x1Escip-protobuf . . . `a.proto`/2\x07a.proto\"\x08Protobuf0\x01",
    },
    Row {
        files: "a.proto\nsyntax = \"proto3\";\nmessage A {}\n",
        encoding: Encoding::Utf16,
        due: b"\n\x1C\x12\x0E\n\x09protoscip\x12\x011\x1A\x08file:/// \x01\x12\xA7\x01\n\x07a.proto\x12'\n\x03\x00\x00\x00\x12\x1Escip-protobuf . . . `a.proto`/\x18\x01\x12\x1F\n\x03\x01\x08\x09\x12\x16scip-protobuf . . . A#\x18\x01\x1A\x1B\n\x16scip-protobuf . . . A#2\x01A\x1A)\n\x1Escip-protobuf . . . `a.proto`/2\x07a.proto\"\x08Protobuf0\x02",
    },
    Row {
        files: "a.proto\nsyntax = \"proto3\";\n/* é */ message A {}\n",
        encoding: Encoding::Utf8,
        due: b"\n\x1C\x12\x0E\n\x09protoscip\x12\x011\x1A\x08file:/// \x01\x12\xA7\x01\n\x07a.proto\x12'\n\x03\x00\x00\x00\x12\x1Escip-protobuf . . . `a.proto`/\x18\x01\x12\x1F\n\x03\x01\x11\x12\x12\x16scip-protobuf . . . A#\x18\x01\x1A\x1B\n\x16scip-protobuf . . . A#2\x01A\x1A)\n\x1Escip-protobuf . . . `a.proto`/2\x07a.proto\"\x08Protobuf0\x01",
    },
    Row {
        files: "a.proto\nsyntax = \"proto3\";\n/* é */ message A {}\n",
        encoding: Encoding::Utf16,
        due: b"\n\x1C\x12\x0E\n\x09protoscip\x12\x011\x1A\x08file:/// \x01\x12\xA7\x01\n\x07a.proto\x12'\n\x03\x00\x00\x00\x12\x1Escip-protobuf . . . `a.proto`/\x18\x01\x12\x1F\n\x03\x01\x10\x11\x12\x16scip-protobuf . . . A#\x18\x01\x1A\x1B\n\x16scip-protobuf . . . A#2\x01A\x1A)\n\x1Escip-protobuf . . . `a.proto`/2\x07a.proto\"\x08Protobuf0\x02",
    },
    Row {
        files: "a.proto\nsyntax = \"proto3\";\n/* 😀 */ message A {}\n",
        encoding: Encoding::Utf8,
        due: b"\n\x1C\x12\x0E\n\x09protoscip\x12\x011\x1A\x08file:/// \x01\x12\xA7\x01\n\x07a.proto\x12'\n\x03\x00\x00\x00\x12\x1Escip-protobuf . . . `a.proto`/\x18\x01\x12\x1F\n\x03\x01\x13\x14\x12\x16scip-protobuf . . . A#\x18\x01\x1A\x1B\n\x16scip-protobuf . . . A#2\x01A\x1A)\n\x1Escip-protobuf . . . `a.proto`/2\x07a.proto\"\x08Protobuf0\x01",
    },
    Row {
        files: "a.proto\nsyntax = \"proto3\";\n/* 😀 */ message A {}\n",
        encoding: Encoding::Utf16,
        due: b"\n\x1C\x12\x0E\n\x09protoscip\x12\x011\x1A\x08file:/// \x01\x12\xA7\x01\n\x07a.proto\x12'\n\x03\x00\x00\x00\x12\x1Escip-protobuf . . . `a.proto`/\x18\x01\x12\x1F\n\x03\x01\x11\x12\x12\x16scip-protobuf . . . A#\x18\x01\x1A\x1B\n\x16scip-protobuf . . . A#2\x01A\x1A)\n\x1Escip-protobuf . . . `a.proto`/2\x07a.proto\"\x08Protobuf0\x02",
    },
    Row {
        files: "a.proto\n\u{FEFF}syntax = \"proto3\"; message A {}",
        encoding: Encoding::Utf8,
        due: b"\n\x1C\x12\x0E\n\x09protoscip\x12\x011\x1A\x08file:/// \x01\x12\xA7\x01\n\x07a.proto\x12'\n\x03\x00\x00\x00\x12\x1Escip-protobuf . . . `a.proto`/\x18\x01\x12\x1F\n\x03\x00\x1E\x1F\x12\x16scip-protobuf . . . A#\x18\x01\x1A\x1B\n\x16scip-protobuf . . . A#2\x01A\x1A)\n\x1Escip-protobuf . . . `a.proto`/2\x07a.proto\"\x08Protobuf0\x01",
    },
    Row {
        files: "a.proto\n\u{FEFF}syntax = \"proto3\"; message A {}",
        encoding: Encoding::Utf16,
        due: b"\n\x1C\x12\x0E\n\x09protoscip\x12\x011\x1A\x08file:/// \x01\x12\xA7\x01\n\x07a.proto\x12'\n\x03\x00\x00\x00\x12\x1Escip-protobuf . . . `a.proto`/\x18\x01\x12\x1F\n\x03\x00\x1C\x1D\x12\x16scip-protobuf . . . A#\x18\x01\x1A\x1B\n\x16scip-protobuf . . . A#2\x01A\x1A)\n\x1Escip-protobuf . . . `a.proto`/2\x07a.proto\"\x08Protobuf0\x02",
    },
    Row {
        files: "t.proto\nsyntax = \"proto3\";\npackage google.protobuf;\nmessage Timestamp {}\n|\
a.proto\nsyntax = \"proto3\";\npackage acme;\nimport \"b.proto\";\nimport \"t.proto\";\nmessage M { .google.protobuf.Timestamp t = 1; }\n|\
b.proto\nsyntax = \"proto3\";\npackage acme.google;\n",
        encoding: Encoding::Utf8,
        due: b"\n\x1C\x12\x0E\n\x09protoscip\x12\x011\x1A\x08file:/// \x01\x12\x9E\x04\n\x07a.proto\x12'\n\x03\x00\x00\x00\x12\x1Escip-protobuf . . . `a.proto`/\x18\x01\x12\"\n\x03\x01\x08\x0C\x12\x19scip-protobuf . . . acme/\x18\x01\x12'\n\x03\x02\x07\x10\x12\x1Escip-protobuf . . . `b.proto`/\x18\x02\x12'\n\x03\x03\x07\x10\x12\x1Escip-protobuf . . . `t.proto`/\x18\x02\x12$\n\x03\x04\x08\x09\x12\x1Bscip-protobuf . . . acme/M#\x18\x01\x12\"\n\x03\x04\x0D\x13\x12\x1Bscip-protobuf . . . google/\x12+\n\x03\x04\x14\x1C\x12$scip-protobuf . . . google/protobuf/\x125\n\x03\x04\x1D&\x12.scip-protobuf . . . google/protobuf/Timestamp#\x12&\n\x03\x04'(\x12\x1Dscip-protobuf . . . acme/M#t.\x18\x01\x1A)\n\x1Escip-protobuf . . . `a.proto`/2\x07a.proto\x1A!\n\x19scip-protobuf . . . acme/2\x04acme\x1A \n\x1Bscip-protobuf . . . acme/M#2\x01M\x1A\"\n\x1Dscip-protobuf . . . acme/M#t.2\x01t\"\x08Protobuf0\x01\x12\x8C\x02\n\x07b.proto\x12'\n\x03\x00\x00\x00\x12\x1Escip-protobuf . . . `b.proto`/\x18\x01\x12\"\n\x03\x01\x08\x0C\x12\x19scip-protobuf . . . acme/\x18\x01\x12)\n\x03\x01\x0D\x13\x12 scip-protobuf . . . acme/google/\x18\x01\x1A)\n\x1Escip-protobuf . . . `b.proto`/2\x07b.proto\x1A!\n\x19scip-protobuf . . . acme/2\x04acme\x1A/\n scip-protobuf . . . acme/google/2\x0Bacme.google\"\x08Protobuf0\x01\x12\x94\x03\n\x07t.proto\x12'\n\x03\x00\x00\x00\x12\x1Escip-protobuf . . . `t.proto`/\x18\x01\x12$\n\x03\x01\x08\x0E\x12\x1Bscip-protobuf . . . google/\x18\x01\x12-\n\x03\x01\x0F\x17\x12$scip-protobuf . . . google/protobuf/\x18\x01\x127\n\x03\x02\x08\x11\x12.scip-protobuf . . . google/protobuf/Timestamp#\x18\x01\x1A)\n\x1Escip-protobuf . . . `t.proto`/2\x07t.proto\x1A%\n\x1Bscip-protobuf . . . google/2\x06google\x1A7\n$scip-protobuf . . . google/protobuf/2\x0Fgoogle.protobuf\x1A;\n.scip-protobuf . . . google/protobuf/Timestamp#2\x09Timestamp\"\x08Protobuf0\x01",
    },
    Row {
        files: "a.proto\nsyntax = \"proto3\";\npackage p;\nmessage Foo {}\nmessage M { string Foo = 1; Foo x = 2; }\n",
        encoding: Encoding::Utf8,
        due: b"\n\x1C\x12\x0E\n\x09protoscip\x12\x011\x1A\x08file:/// \x01\x12\xE6\x03\n\x07a.proto\x12'\n\x03\x00\x00\x00\x12\x1Escip-protobuf . . . `a.proto`/\x18\x01\x12\x1F\n\x03\x01\x08\x09\x12\x16scip-protobuf . . . p/\x18\x01\x12#\n\x03\x02\x08\x0B\x12\x1Ascip-protobuf . . . p/Foo#\x18\x01\x12!\n\x03\x03\x08\x09\x12\x18scip-protobuf . . . p/M#\x18\x01\x12%\n\x03\x03\x13\x16\x12\x1Cscip-protobuf . . . p/M#Foo.\x18\x01\x12!\n\x03\x03\x1C\x1F\x12\x1Ascip-protobuf . . . p/Foo#\x12#\n\x03\x03 !\x12\x1Ascip-protobuf . . . p/M#x.\x18\x01\x1A)\n\x1Escip-protobuf . . . `a.proto`/2\x07a.proto\x1A\x1B\n\x16scip-protobuf . . . p/2\x01p\x1A!\n\x1Ascip-protobuf . . . p/Foo#2\x03Foo\x1A\x1D\n\x18scip-protobuf . . . p/M#2\x01M\x1A#\n\x1Cscip-protobuf . . . p/M#Foo.2\x03Foo\x1A\x1F\n\x1Ascip-protobuf . . . p/M#x.2\x01x\"\x08Protobuf0\x01",
    },
    Row {
        files: "a.proto\nsyntax = \"proto3\";\nmessage Foo {}\nservice S { rpc Foo(Foo) returns (stream Foo); }\n",
        encoding: Encoding::Utf8,
        due: b"\n\x1C\x12\x0E\n\x09protoscip\x12\x011\x1A\x08file:/// \x01\x12\xF9\x02\n\x07a.proto\x12'\n\x03\x00\x00\x00\x12\x1Escip-protobuf . . . `a.proto`/\x18\x01\x12!\n\x03\x01\x08\x0B\x12\x18scip-protobuf . . . Foo#\x18\x01\x12\x1F\n\x03\x02\x08\x09\x12\x16scip-protobuf . . . S#\x18\x01\x12%\n\x03\x02\x10\x13\x12\x1Cscip-protobuf . . . S#Foo().\x18\x01\x12\x1F\n\x03\x02\x14\x17\x12\x18scip-protobuf . . . Foo#\x12\x1F\n\x03\x02),\x12\x18scip-protobuf . . . Foo#\x1A\x1F\n\x18scip-protobuf . . . Foo#2\x03Foo\x1A\x1B\n\x16scip-protobuf . . . S#2\x01S\x1A#\n\x1Cscip-protobuf . . . S#Foo().2\x03Foo\x1A)\n\x1Escip-protobuf . . . `a.proto`/2\x07a.proto\"\x08Protobuf0\x01",
    },
    Row {
        files: "d.proto\nsyntax = \"proto3\";\nmessage D {}\n|\
c.proto\nsyntax = \"proto3\";\nimport public \"d.proto\";\n|\
b.proto\nsyntax = \"proto3\";\nimport public \"c.proto\";\n|\
a.proto\nsyntax = \"proto3\";\nimport \"b.proto\";\nmessage M { D d = 1; }\n",
        encoding: Encoding::Utf8,
        due: b"\n\x1C\x12\x0E\n\x09protoscip\x12\x011\x1A\x08file:/// \x01\x12\xB1\x02\n\x07a.proto\x12'\n\x03\x00\x00\x00\x12\x1Escip-protobuf . . . `a.proto`/\x18\x01\x12'\n\x03\x01\x07\x10\x12\x1Escip-protobuf . . . `b.proto`/\x18\x02\x12\x1F\n\x03\x02\x08\x09\x12\x16scip-protobuf . . . M#\x18\x01\x12\x1D\n\x03\x02\x0C\x0D\x12\x16scip-protobuf . . . D#\x12!\n\x03\x02\x0E\x0F\x12\x18scip-protobuf . . . M#d.\x18\x01\x1A\x1B\n\x16scip-protobuf . . . M#2\x01M\x1A\x1D\n\x18scip-protobuf . . . M#d.2\x01d\x1A)\n\x1Escip-protobuf . . . `a.proto`/2\x07a.proto\"\x08Protobuf0\x01\x12\x92\x01\n\x07b.proto\x12'\n\x03\x00\x00\x00\x12\x1Escip-protobuf . . . `b.proto`/\x18\x01\x12'\n\x03\x01\x0E\x17\x12\x1Escip-protobuf . . . `c.proto`/\x18\x02\x1A)\n\x1Escip-protobuf . . . `b.proto`/2\x07b.proto\"\x08Protobuf0\x01\x12\x92\x01\n\x07c.proto\x12'\n\x03\x00\x00\x00\x12\x1Escip-protobuf . . . `c.proto`/\x18\x01\x12'\n\x03\x01\x0E\x17\x12\x1Escip-protobuf . . . `d.proto`/\x18\x02\x1A)\n\x1Escip-protobuf . . . `c.proto`/2\x07c.proto\"\x08Protobuf0\x01\x12\xA7\x01\n\x07d.proto\x12'\n\x03\x00\x00\x00\x12\x1Escip-protobuf . . . `d.proto`/\x18\x01\x12\x1F\n\x03\x01\x08\x09\x12\x16scip-protobuf . . . D#\x18\x01\x1A\x1B\n\x16scip-protobuf . . . D#2\x01D\x1A)\n\x1Escip-protobuf . . . `d.proto`/2\x07d.proto\"\x08Protobuf0\x01",
    },
    Row {
        files: "a.proto\nsyntax = \"proto3\";\nimport \"b.proto\";\nmessage A { B b = 1; }\n|\
b.proto\nsyntax = \"proto3\";\nimport \"a.proto\";\nmessage B { A a = 1; }\n",
        encoding: Encoding::Utf8,
        due: b"\n\x1C\x12\x0E\n\x09protoscip\x12\x011\x1A\x08file:/// \x01\x12\xB1\x02\n\x07a.proto\x12'\n\x03\x00\x00\x00\x12\x1Escip-protobuf . . . `a.proto`/\x18\x01\x12'\n\x03\x01\x07\x10\x12\x1Escip-protobuf . . . `b.proto`/\x18\x02\x12\x1F\n\x03\x02\x08\x09\x12\x16scip-protobuf . . . A#\x18\x01\x12\x1D\n\x03\x02\x0C\x0D\x12\x16scip-protobuf . . . B#\x12!\n\x03\x02\x0E\x0F\x12\x18scip-protobuf . . . A#b.\x18\x01\x1A\x1B\n\x16scip-protobuf . . . A#2\x01A\x1A\x1D\n\x18scip-protobuf . . . A#b.2\x01b\x1A)\n\x1Escip-protobuf . . . `a.proto`/2\x07a.proto\"\x08Protobuf0\x01\x12\xB1\x02\n\x07b.proto\x12'\n\x03\x00\x00\x00\x12\x1Escip-protobuf . . . `b.proto`/\x18\x01\x12'\n\x03\x01\x07\x10\x12\x1Escip-protobuf . . . `a.proto`/\x18\x02\x12\x1F\n\x03\x02\x08\x09\x12\x16scip-protobuf . . . B#\x18\x01\x12\x1D\n\x03\x02\x0C\x0D\x12\x16scip-protobuf . . . A#\x12!\n\x03\x02\x0E\x0F\x12\x18scip-protobuf . . . B#a.\x18\x01\x1A\x1B\n\x16scip-protobuf . . . B#2\x01B\x1A\x1D\n\x18scip-protobuf . . . B#a.2\x01a\x1A)\n\x1Escip-protobuf . . . `b.proto`/2\x07b.proto\"\x08Protobuf0\x01",
    },
    Row {
        files: "m.proto\nsyntax = \"proto3\";\nimport \"a\"\n\"b.proto\";\n|\
ab.proto\nsyntax = \"proto3\";\n",
        encoding: Encoding::Utf8,
        due: b"\n\x1C\x12\x0E\n\x09protoscip\x12\x011\x1A\x08file:/// \x01\x12m\n\x08ab.proto\x12(\n\x03\x00\x00\x00\x12\x1Fscip-protobuf . . . `ab.proto`/\x18\x01\x1A+\n\x1Fscip-protobuf . . . `ab.proto`/2\x08ab.proto\"\x08Protobuf0\x01\x12\x94\x01\n\x07m.proto\x12'\n\x03\x00\x00\x00\x12\x1Escip-protobuf . . . `m.proto`/\x18\x01\x12)\n\x04\x01\x07\x02\x09\x12\x1Fscip-protobuf . . . `ab.proto`/\x18\x02\x1A)\n\x1Escip-protobuf . . . `m.proto`/2\x07m.proto\"\x08Protobuf0\x01",
    },
    Row {
        files: "+u.proto\nsyntax = \"proto2\";\n|\
+t.proto\nsyntax = \"proto3\";\npackage lib;\n// A thing.\nmessage T { int32 n = 1; }\n|\
a.proto\nsyntax = \"proto3\";\nimport \"t.proto\";\nmessage M { lib.T t = 1; }\n",
        encoding: Encoding::Utf8,
        due: INCLUDED,
    },
    Row {
        files: "a.proto\nsyntax = \"proto3\";\nimport \"t.proto\";\nmessage M { lib.T t = 1; }\n|\
+t.proto\nsyntax = \"proto3\";\npackage lib;\n// A thing.\nmessage T { Gone n = 1; }\nimport \"gone.proto\";\n",
        encoding: Encoding::Utf8,
        due: INCLUDED,
    },
    Row {
        files: "a.proto\nsyntax = \"proto3\";\nmessage M {}\n|\
+t.proto\nsyntax = \"proto3\";\nmessage M {}\n",
        encoding: Encoding::Utf8,
        due: b"\n\x1C\x12\x0E\n\x09protoscip\x12\x011\x1A\x08file:/// \x01\x12\xA7\x01\n\x07a.proto\x12'\n\x03\x00\x00\x00\x12\x1Escip-protobuf . . . `a.proto`/\x18\x01\x12\x1F\n\x03\x01\x08\x09\x12\x16scip-protobuf . . . M#\x18\x01\x1A\x1B\n\x16scip-protobuf . . . M#2\x01M\x1A)\n\x1Escip-protobuf . . . `a.proto`/2\x07a.proto\"\x08Protobuf0\x01",
    },
];

impl<'a, R: Threads + Wait + Abort> Desk<'a, R> {
    /// Whether the index of a tree is written as is due, by so many workers.
    fn is_written(&self, given: &Given, count: usize, due: &Due) -> Told {
        let run = self.run(count);
        let mut out = paced_writer(self.alloc, due.room, due.pace)?;
        let answer = index_tree(&run, &given.tree, given.registry, &given.settings, &mut out).err();
        Ok(is_due(answer, out, due))
    }

    /// Sees that it is. After want of memory or of a thread it is written again, to a new writer.
    fn see_written(&self, given: &Given, count: usize, due: &Due) -> Result<(), AllocError> {
        let is_so = match self.is_written(given, count, due)? {
            None => self.is_written(given, count, due)?,
            is_so => is_so,
        };
        see(self.rt, is_so == Some(true), "the bytes of an index");
        Ok(())
    }

    /// Sees that the index of a tree has these bytes, on 1, 2 and 16 workers.
    fn see_bytes(&self, given: &Given, due: &[u8]) -> Result<(), AllocError> {
        for count in &COUNTS {
            self.see_written(given, *count, &whole(due))?;
        }
        Ok(())
    }

    /// Sees that the index of a row's tree has the bytes that are due: no name is given twice in it, so they are the same
    /// where several files may give one.
    fn see_index(&self, registry: &Registry, row: &Row) -> Result<(), AllocError> {
        let given = self.given(registry, row.files, row.encoding, Faulty::Refuse)?;
        self.see_bytes(&given, row.due)?;
        let kept = given.naming(Duplicates::Keep);
        self.see_bytes(&kept, row.due)
    }

    /// Sees that of each row.
    fn see_indexes(&self, registry: &Registry) -> Result<(), AllocError> {
        for row in &ROWS {
            self.see_index(registry, row)?;
        }
        Ok(())
    }

    /// Sees what is due of an index to each of these writers.
    fn see_dues(&self, given: &Given, dues: &[Due<'_>]) -> Result<(), AllocError> {
        for due in dues {
            self.see_written(given, 1, due)?;
        }
        Ok(())
    }

    /// Sees what is due of the index of no files, to writers that fail.
    fn see_failing_writers(&self, registry: &Registry) -> Result<(), AllocError> {
        let dues = dues_of(self.alloc, NO_FILES, false)?;
        let given = self.given(registry, "", Encoding::Utf8, Faulty::Refuse)?;
        self.see_dues(&given, &dues)
    }
}

#[test]
fn bytes_of_indexes(rt: HostRuntime) -> Result<(), Fail> {
    let registry = Registry::new(rt.alloc());
    Ok(Desk::new(&rt, rt.alloc()).see_indexes(&registry)?)
}

#[test]
fn writers_that_fail(rt: HostRuntime) -> Result<(), Fail> {
    let registry = Registry::new(rt.alloc());
    Ok(Desk::new(&rt, rt.alloc()).see_failing_writers(&registry)?)
}
