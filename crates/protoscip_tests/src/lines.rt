//! What a user is told of trees with faults: the line of the first one, where trees are refused, and a line for each,
//! where faults are skipped.

ghost use Rattle.protoscip.specs.FaultLines.{HasFilesOf, HaveFilesOf};

use crate::calls::{COUNTS, Desk, Given, WANT, see, writer};
use index_hooks::Registry;
use proto_lex::Encoding;
use proto_link::Duplicates;
use protoscip::{Fault, fault_line, index_tree, told_text};
use scip_build::{Faulty, Omission};
use source_tree::Tree;
use std::alloc::{AllocError, Global};
use std::process::Abort;
use std::sync::Wait;
use std::test::Fail;
use std::thread::Threads;

/// The most bytes of an index in these tests.
const ROOM: usize = 4096;

/// Whether several files may give one name; files, as `test_kit` takes them; the line that is said where they are
/// refused; and the text that is said where faults are skipped.
struct Row {
    duplicates: Duplicates,
    files: &'static str,
    line: &'static str,
    told: &'static str,
}

// The first row reads: in `a.proto`, the value `ZERO` at byte 65 has the full name of the one at byte 42; so the file
// is left out, and nothing is left.
static ROWS: [Row; 9] = [
    Row {
        duplicates: Duplicates::Refuse,
        files: "a.proto\nsyntax = \"proto3\";\nmessage M {\n  enum A { ZERO = 0; }\n  enum B { ZERO = 0; }\n}\n",
        line: "protoscip: a.proto@65: Duplicate of a.proto@42",
        told: "protoscip: skipped: a.proto@65: Duplicate of a.proto@42
protoscip: 0 sources indexed, 1 skipped, 0 imports and 0 uses without a target",
    },
    Row {
        duplicates: Duplicates::Refuse,
        files: "b.proto\n@|\
a.proto\nsyntax = \"proto3\";\nmessage {}\n|\
c.proto\nsyntax = \"proto3\";\n",
        line: "protoscip: a.proto@27: Grammar",
        told: "protoscip: skipped: a.proto@27: Grammar
protoscip: skipped: b.proto@0: BadByte
protoscip: 1 sources indexed, 2 skipped, 0 imports and 0 uses without a target",
    },
    Row {
        duplicates: Duplicates::Refuse,
        files: "b.proto\nsyntax = \"proto3\";\npackage acme.google;\n|\
a.proto\nsyntax = \"proto3\";\npackage acme;\nimport \"b.proto\";\nimport \"t.proto\";\nmessage M { google.protobuf.Timestamp t = 1; }\n|\
t.proto\nsyntax = \"proto3\";\npackage google.protobuf;\nmessage Timestamp {}\n",
        line: "protoscip: a.proto@81: Unresolved",
        told: "protoscip: no target: a.proto@81: Unresolved
protoscip: 3 sources indexed, 0 skipped, 0 imports and 1 uses without a target",
    },
    Row {
        duplicates: Duplicates::Refuse,
        files: "a.proto\nsyntax = \"proto3\";\nimport \"b.proto\";\nmessage M { D d = 1; M m = 2; }\nimport \"e.proto\";\n|\
b.proto\nsyntax = \"proto3\";\nimport public \"c.proto\";\n|\
c.proto\nsyntax = \"proto3\";\nimport public \"d.proto\";\n",
        line: "protoscip: a.proto@76: MissingImport",
        told: "protoscip: no target: a.proto@49: Unresolved
protoscip: no target: a.proto@76: MissingImport
protoscip: no target: c.proto@33: MissingImport
protoscip: 3 sources indexed, 0 skipped, 2 imports and 1 uses without a target",
    },
    Row {
        duplicates: Duplicates::Refuse,
        files: "a.proto\nsyntax = \"proto3\";\nimport \"b.proto\";\nmessage A { D d = 1; }\n|\
b.proto\nsyntax = \"proto3\";\nimport public \"c.proto\";\n|\
c.proto\nsyntax = \"proto3\";\nimport public \"d.proto\";\nmessage {}\n|\
d.proto\nsyntax = \"proto3\";\nmessage D {}\n",
        line: "protoscip: c.proto@52: Grammar",
        told: "protoscip: no target: a.proto@49: Unresolved
protoscip: no target: b.proto@33: MissingImport
protoscip: skipped: c.proto@52: Grammar
protoscip: 3 sources indexed, 1 skipped, 1 imports and 1 uses without a target",
    },
    Row {
        duplicates: Duplicates::Refuse,
        files: "a.proto\nsyntax = \"proto3\";\nimport \"t.proto\";\nmessage M { lib.T t = 1; }\nimport \"u.proto\";\n|\
+t.proto\nsyntax = \"proto3\";\npackage lib;\n// A thing.\nmessage T { int32 n = 1; }\n|\
+u.proto\nsyntax = \"proto2\";\n|\
+v.proto\n@",
        line: "protoscip: u.proto@9: NotProto3",
        told: "protoscip: no target: a.proto@71: MissingImport
protoscip: skipped: u.proto@9: NotProto3
protoscip: 1 sources indexed, 1 skipped, 1 imports and 0 uses without a target",
    },
    Row {
        duplicates: Duplicates::Refuse,
        files: "a.proto\nsyntax = \"proto3\";\nimport \"t.proto\";\nmessage M {}\n|\
+t.proto\nsyntax = \"proto3\";\nmessage M {}\n",
        line: "protoscip: t.proto@27: Duplicate of a.proto@45",
        told: "protoscip: no target: a.proto@26: MissingImport
protoscip: skipped: t.proto@27: Duplicate of a.proto@45
protoscip: 1 sources indexed, 1 skipped, 1 imports and 0 uses without a target",
    },
    Row {
        duplicates: Duplicates::Keep,
        files: "a.proto\nsyntax = \"proto3\";\nmessage M {}\n|\
b.proto\nsyntax = \"proto3\";\nmessage M {}\n|\
c.proto\nsyntax = \"proto3\";\nimport \"a.proto\";\nimport \"b.proto\";\nmessage U { M m = 1; N n = 2; }\n",
        line: "protoscip: c.proto@67: Ambiguous",
        told: "protoscip: no target: c.proto@67: Ambiguous
protoscip: no target: c.proto@76: Unresolved
protoscip: 3 sources indexed, 0 skipped, 0 imports and 2 uses without a target",
    },
    Row {
        duplicates: Duplicates::Refuse,
        files: "a.proto\nsyntax = \"proto3\";\nmessage T {}\n|\
b.proto\nsyntax = \"proto3\";\npackage p;\nmessage {}\n|\
d.proto\nsyntax = \"proto3\";\npackage p;\nimport \"a.proto\";\nimport \"b.proto\";\nmessage M { T t = 1; .T u = 2; M m = 3; }\n",
        line: "protoscip: b.proto@38: Grammar",
        told: "protoscip: skipped: b.proto@38: Grammar
protoscip: no target: d.proto@55: MissingImport
protoscip: uncertain: d.proto@78 behind b.proto
protoscip: 2 sources indexed, 1 skipped, 1 imports and 0 uses without a target",
    },
];

/// What is said, and the status; nothing of a tree whose index lacks nothing.
type Said = Option<(String, u8)>;

/// The line and the status of a fault, but for want of memory or of a thread.
fn said(alloc: Global, tree: &Tree, fault: &Fault) -> Result<Said, AllocError>
    requires files { HasFilesOf tree.now fault.now }
{
    let status = fault.status();
    if status == WANT {
        return Err(AllocError);
    }
    let line = fault_line(alloc, tree, fault)?;
    Ok(Some((line, status)))
}

/// What is said of an index that was written, with status 0.
fn said_of_index(alloc: Global, tree: &Tree, told: &[Omission]) -> Result<Said, AllocError>
    requires { HaveFilesOf tree.now told.now }
{
    if told.is_empty() {
        return Ok(None);
    }
    Ok(Some((told_text(alloc, tree, told, None)?, 0)))
}

/// Whether this is said, with this status.
fn is_said(answer: Said, text: &str, status: u8) -> bool {
    match answer {
        Some((said, its)) => said.as_str() == text && its == status,
        None => false,
    }
}

impl<'a, R: Threads + Wait + Abort> Desk<'a, R> {
    /// What one call of `index_tree` has to say.
    fn indexed(&self, given: &Given, count: usize) -> Result<Said, AllocError> {
        let run = self.run(count);
        let (tree, settings) = (&given.tree, &given.settings);
        let mut out = writer(self.alloc, ROOM)?;
        match index_tree(&run, tree, given.registry, settings, &mut out) {
            Ok(recorded) => said_of_index(self.alloc, tree, recorded.told.as_slice()),
            Err(fault) => said(self.alloc, tree, &fault),
        }
    }

    /// Sees that this is said of a tree, with this status, on 1, 2 and 16 workers. After want of memory or of a thread
    /// it is indexed again, and the second answer counts.
    fn see_said(&self, given: &Given, text: &str, status: u8) -> Result<(), AllocError> {
        for count in &COUNTS {
            let answer = match self.indexed(given, *count) {
                Err(_) => self.indexed(given, *count)?,
                Ok(answer) => answer,
            };
            see(self.rt, is_said(answer, text, status), text);
        }
        Ok(())
    }

    /// Sees what is said of the tree of a row where it is refused.
    fn see_refused(&self, registry: &Registry, row: &Row) -> Result<(), AllocError> {
        let given = self.given(registry, row.files, Encoding::Utf8, Faulty::Refuse)?;
        let named = given.naming(row.duplicates);
        self.see_said(&named, row.line, 1)
    }

    /// Sees what is said of it where faults are skipped.
    fn see_skipped(&self, registry: &Registry, row: &Row) -> Result<(), AllocError> {
        let given = self.given(registry, row.files, Encoding::Utf8, Faulty::Skip)?;
        let named = given.naming(row.duplicates);
        self.see_said(&named, row.told, 0)
    }

    /// Sees that of each row.
    fn see_all_faulty(&self, registry: &Registry) -> Result<(), AllocError> {
        for row in &ROWS {
            self.see_refused(registry, row)?;
            self.see_skipped(registry, row)?;
        }
        Ok(())
    }
}

#[test]
fn what_is_said_of_faults(rt: HostRuntime) -> Result<(), Fail> {
    let registry = Registry::new(rt.alloc());
    Ok(Desk::new(&rt, rt.alloc()).see_all_faulty(&registry)?)
}
