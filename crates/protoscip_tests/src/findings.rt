//! Reports of trees with faults: of what is told where faults are skipped, and of the same where they are refused.

ghost use Rattle.std.specs.Prelude.{IfOk};
ghost use Rattle.protoscip.specs.FaultLines.{HasFilesOf, HaveFilesOf};

use crate::calls::{Desk, Given, WANT, see, writer};
use basics::Sequence;
use index_hooks::Registry;
use proto_lex::Encoding;
use proto_link::Duplicates;
use protoscip::{
    Fault, Finding, ReportFormat, counts_of, findings_come_once, index_tree, refused_findings,
    report_bytes, told_findings, told_of_tree,
};
use scip_build::{Faulty, Omission};
use source_tree::Tree;
use std::alloc::{AllocError, Global};
use std::process::Abort;
use std::sync::Wait;
use std::test::Fail;
use std::thread::Threads;

/// So many bytes are written of an index.
const ROOM: usize = 4096;

/// Files, as `test_kit` takes them, and what is done with names that several of them give; the report where faults are
/// skipped; the report where they are refused; and the last one if nothing is told beside the fault.
struct Row {
    files: &'static str,
    duplicates: Duplicates,
    skipped: &'static str,
    refused: &'static str,
    alone: &'static str,
}

// The first row reads: in `a.proto`, the import at byte 26 has no target, nor has the use at byte 52; and `b.proto` can't
// be read, for which the tree is refused. In the third row a use may name another type once `a.proto` can be read: no
// tree is refused for that. In the last one two files give one name, each for whoever sees it: so only the use at byte
// 31 of `c.proto` has no target.
static ROWS: [Row; 4] = [
    Row {
        files: "b.proto\n@|\
a.proto\nsyntax = \"proto3\";\nimport \"e.\" 'proto';\nmessage M { D d = 1; }\n",
        duplicates: Duplicates::Refuse,
        skipped: "{\"column\":8,\"end\":38,\"first\":null,\"import\":\"e.proto\",\"kind\":\"no target\",\"line\":2,\"message\":\"no source has this path, below ROOT or a folder that `--include DIR` names: `\\\"e.\\\" 'proto'`\",\"name\":\"MissingImport\",\"offset\":26,\"path\":\"a.proto\"}
{\"column\":13,\"end\":53,\"first\":null,\"import\":null,\"kind\":\"no target\",\"line\":3,\"message\":\"no type that this source sees has this name: `D`\",\"name\":\"Unresolved\",\"offset\":52,\"path\":\"a.proto\"}
{\"column\":1,\"end\":null,\"first\":null,\"import\":null,\"kind\":\"skipped\",\"line\":1,\"message\":\"this character can't be here\",\"name\":\"BadByte\",\"offset\":0,\"path\":\"b.proto\"}
{\"imports\":1,\"kind\":\"counts\",\"skipped\":1,\"sources\":1,\"status\":0,\"uses\":1}
",
        refused: "{\"column\":1,\"end\":null,\"first\":null,\"import\":null,\"kind\":\"fault\",\"line\":1,\"message\":\"this character can't be here\",\"name\":\"BadByte\",\"offset\":0,\"path\":\"b.proto\"}
{\"column\":8,\"end\":38,\"first\":null,\"import\":\"e.proto\",\"kind\":\"fault\",\"line\":2,\"message\":\"no source has this path, below ROOT or a folder that `--include DIR` names: `\\\"e.\\\" 'proto'`\",\"name\":\"MissingImport\",\"offset\":26,\"path\":\"a.proto\"}
{\"column\":13,\"end\":53,\"first\":null,\"import\":null,\"kind\":\"fault\",\"line\":3,\"message\":\"no type that this source sees has this name: `D`\",\"name\":\"Unresolved\",\"offset\":52,\"path\":\"a.proto\"}
{\"imports\":1,\"kind\":\"counts\",\"skipped\":1,\"sources\":1,\"status\":1,\"uses\":1}
",
        alone: "{\"column\":1,\"end\":null,\"first\":null,\"import\":null,\"kind\":\"fault\",\"line\":1,\"message\":\"this character can't be here\",\"name\":\"BadByte\",\"offset\":0,\"path\":\"b.proto\"}
{\"imports\":0,\"kind\":\"counts\",\"skipped\":0,\"sources\":2,\"status\":1,\"uses\":0}
",
    },
    Row {
        files: "a.proto\nsyntax = \"proto3\";\nmessage M {\n  enum A { ZERO = 0; }\n  enum B { ZERO = 0; }\n}\n",
        duplicates: Duplicates::Refuse,
        skipped: "{\"column\":12,\"end\":69,\"first\":{\"column\":12,\"end\":46,\"line\":3,\"offset\":42,\"path\":\"a.proto\"},\"import\":null,\"kind\":\"skipped\",\"line\":4,\"message\":\"this full name is given already: `ZERO`\",\"name\":\"Duplicate\",\"offset\":65,\"path\":\"a.proto\"}
{\"imports\":0,\"kind\":\"counts\",\"skipped\":1,\"sources\":0,\"status\":0,\"uses\":0}
",
        refused: "{\"column\":12,\"end\":69,\"first\":{\"column\":12,\"end\":46,\"line\":3,\"offset\":42,\"path\":\"a.proto\"},\"import\":null,\"kind\":\"fault\",\"line\":4,\"message\":\"this full name is given already: `ZERO`\",\"name\":\"Duplicate\",\"offset\":65,\"path\":\"a.proto\"}
{\"imports\":0,\"kind\":\"counts\",\"skipped\":1,\"sources\":0,\"status\":1,\"uses\":0}
",
        alone: "{\"column\":12,\"end\":69,\"first\":{\"column\":12,\"end\":46,\"line\":3,\"offset\":42,\"path\":\"a.proto\"},\"import\":null,\"kind\":\"fault\",\"line\":4,\"message\":\"this full name is given already: `ZERO`\",\"name\":\"Duplicate\",\"offset\":65,\"path\":\"a.proto\"}
{\"imports\":0,\"kind\":\"counts\",\"skipped\":0,\"sources\":1,\"status\":1,\"uses\":0}
",
    },
    Row {
        files: "a.proto\n@|\
b.proto\nsyntax = \"proto3\";\npackage p;\nimport \"a.proto\";\nimport \"c.proto\";\nmessage M { T t = 1; }\n|\
c.proto\nsyntax = \"proto3\";\nmessage T {}\n",
        duplicates: Duplicates::Refuse,
        skipped: "{\"column\":1,\"end\":null,\"first\":null,\"import\":null,\"kind\":\"skipped\",\"line\":1,\"message\":\"this character can't be here\",\"name\":\"BadByte\",\"offset\":0,\"path\":\"a.proto\"}
{\"column\":8,\"end\":46,\"first\":null,\"import\":\"a.proto\",\"kind\":\"no target\",\"line\":3,\"message\":\"the file with this path is left out: `\\\"a.proto\\\"`\",\"name\":\"MissingImport\",\"offset\":37,\"path\":\"b.proto\"}
{\"column\":13,\"end\":79,\"first\":{\"column\":null,\"end\":null,\"line\":null,\"offset\":null,\"path\":\"a.proto\"},\"import\":null,\"kind\":\"uncertain\",\"line\":5,\"message\":\"a file that this source sees can't be read: it may declare this name nearer: `T`\",\"name\":\"Uncertain\",\"offset\":78,\"path\":\"b.proto\"}
{\"imports\":1,\"kind\":\"counts\",\"skipped\":1,\"sources\":2,\"status\":0,\"uses\":0}
",
        refused: "{\"column\":1,\"end\":null,\"first\":null,\"import\":null,\"kind\":\"fault\",\"line\":1,\"message\":\"this character can't be here\",\"name\":\"BadByte\",\"offset\":0,\"path\":\"a.proto\"}
{\"column\":8,\"end\":46,\"first\":null,\"import\":\"a.proto\",\"kind\":\"fault\",\"line\":3,\"message\":\"the file with this path is left out: `\\\"a.proto\\\"`\",\"name\":\"MissingImport\",\"offset\":37,\"path\":\"b.proto\"}
{\"column\":13,\"end\":79,\"first\":{\"column\":null,\"end\":null,\"line\":null,\"offset\":null,\"path\":\"a.proto\"},\"import\":null,\"kind\":\"uncertain\",\"line\":5,\"message\":\"a file that this source sees can't be read: it may declare this name nearer: `T`\",\"name\":\"Uncertain\",\"offset\":78,\"path\":\"b.proto\"}
{\"imports\":1,\"kind\":\"counts\",\"skipped\":1,\"sources\":2,\"status\":1,\"uses\":0}
",
        alone: "{\"column\":1,\"end\":null,\"first\":null,\"import\":null,\"kind\":\"fault\",\"line\":1,\"message\":\"this character can't be here\",\"name\":\"BadByte\",\"offset\":0,\"path\":\"a.proto\"}
{\"imports\":0,\"kind\":\"counts\",\"skipped\":0,\"sources\":3,\"status\":1,\"uses\":0}
",
    },
    Row {
        files: "a.proto\nsyntax = \"proto3\";\npackage p;\nmessage T {}\n|\
b.proto\nsyntax = \"proto3\";\npackage p;\nmessage T {}\n|\
c.proto\nsyntax = \"proto3\";\nmessage M { D d = 1; }\n|\
d.proto\nsyntax = \"proto3\";\nimport \"b.proto\";\nmessage N { p.T t = 1; }\n",
        duplicates: Duplicates::Keep,
        skipped: "{\"column\":13,\"end\":32,\"first\":null,\"import\":null,\"kind\":\"no target\",\"line\":2,\"message\":\"no type that this source sees has this name: `D`\",\"name\":\"Unresolved\",\"offset\":31,\"path\":\"c.proto\"}
{\"imports\":0,\"kind\":\"counts\",\"skipped\":0,\"sources\":4,\"status\":0,\"uses\":1}
",
        refused: "{\"column\":13,\"end\":32,\"first\":null,\"import\":null,\"kind\":\"fault\",\"line\":2,\"message\":\"no type that this source sees has this name: `D`\",\"name\":\"Unresolved\",\"offset\":31,\"path\":\"c.proto\"}
{\"imports\":0,\"kind\":\"counts\",\"skipped\":0,\"sources\":4,\"status\":1,\"uses\":1}
",
        alone: "{\"column\":13,\"end\":32,\"first\":null,\"import\":null,\"kind\":\"fault\",\"line\":2,\"message\":\"no type that this source sees has this name: `D`\",\"name\":\"Unresolved\",\"offset\":31,\"path\":\"c.proto\"}
{\"imports\":0,\"kind\":\"counts\",\"skipped\":0,\"sources\":4,\"status\":1,\"uses\":0}
",
    },
];

/// The report of these findings of a tree, of which this is told, and of a run with this status.
fn report_of(
    alloc: Global,
    tree: &Tree,
    findings: &[Finding<'_>],
    told: &[Omission],
    status: u8,
) -> Result<Vec<u8>, AllocError> {
    let counts = counts_of(tree.source_count(), told, status);
    report_bytes(alloc, ReportFormat::JsonLines, findings, &counts)
}

/// The report of a tree whose faults are skipped.
fn skipped(alloc: Global, tree: &Tree, told: &[Omission]) -> Result<Vec<u8>, AllocError>
    requires { HaveFilesOf tree.now told.now }
{
    let findings = told_findings(alloc, tree, told)?;
    report_of(alloc, tree, findings.as_slice(), told, 0)
}

/// The report of a tree that is refused.
fn refused(
    alloc: Global,
    tree: &Tree,
    fault: &Fault,
    told: &[Omission],
) -> Result<Vec<u8>, AllocError>
    requires fault { HasFilesOf tree.now fault.now }
    requires told { HaveFilesOf tree.now told.now }
{
    let findings = refused_findings(alloc, tree, fault, told)?;
    report_of(alloc, tree, findings.as_slice(), told, fault.status())
}

impl<'a, R: Threads + Wait + Abort> Desk<'a, R> {
    /// What is told of a tree if faults are skipped; none for want of memory or of a thread.
    pub(crate) fn told(&self, given: &Given) -> Result<Sequence<Omission>, AllocError>
        ensures { IfOk result (HaveFilesOf given.now.tree) }
    {
        match told_of_tree(&self.run(2), &given.tree, given.registry, &given.settings) {
            Ok(told) => Ok(told),
            Err(_) => Err(AllocError),
        }
    }

    /// The report of an index that lacks what is told.
    fn report_skipped(&self, given: &Given) -> Result<Vec<u8>, AllocError> {
        let told = self.told(given)?;
        skipped(self.alloc, &given.tree, told.as_slice())
    }

    /// The report of a tree that is refused for this: with what is told of it, or else of the fault alone.
    fn report_of_fault(
        &self,
        given: &Given,
        fault: &Fault,
        is_alone: bool,
    ) -> Result<Vec<u8>, AllocError>
        requires { HasFilesOf given.now.tree fault.now }
    {
        if is_alone {
            return refused(self.alloc, &given.tree, fault, &[]);
        }
        let told = self.told(given)?;
        refused(self.alloc, &given.tree, fault, told.as_slice())
    }

    /// The report of a tree that is refused.
    fn report_refused(&self, given: &Given, is_alone: bool) -> Result<Vec<u8>, AllocError> {
        let (tree, settings) = (&given.tree, &given.settings);
        let mut out = writer(self.alloc, ROOM)?;
        match index_tree(&self.run(2), tree, given.registry, settings, &mut out) {
            Ok(_) => Ok(Vec::new(self.alloc)),
            Err(fault) if fault.status() == WANT => Err(AllocError),
            Err(fault) => self.report_of_fault(given, &fault, is_alone),
        }
    }

    /// Whether this is the report of an index that lacks what is told.
    fn is_skipped(&self, given: &Given, due: &str) -> Result<bool, AllocError> {
        let report = self.report_skipped(given)?;
        Ok(report.as_slice() == due.as_bytes())
    }

    /// Whether this is the report of a tree that is refused.
    fn is_refused(&self, given: &Given, is_alone: bool, due: &str) -> Result<bool, AllocError> {
        let report = self.report_refused(given, is_alone)?;
        Ok(report.as_slice() == due.as_bytes())
    }

    /// Sees the reports of a tree.
    fn see_reports_of(&self, given: &Given, row: &Row) -> Result<(), AllocError> {
        see(self.rt, self.is_skipped(given, row.skipped)?, "skipped");
        let is_so = self.is_refused(given, false, row.refused)?;
        see(self.rt, is_so, "refused");
        see(self.rt, self.is_refused(given, true, row.alone)?, "alone");
        Ok(())
    }

    /// Sees the reports of the tree of a row.
    fn see_reports(&self, registry: &Registry, row: &Row) -> Result<(), AllocError> {
        let given = self.given(registry, row.files, Encoding::Utf8, Faulty::Refuse)?;
        self.see_reports_of(&given.naming(row.duplicates), row)
    }

    /// Sees the reports of each row.
    fn see_all_reports(&self, registry: &Registry) -> Result<(), AllocError> {
        for row in &ROWS {
            self.see_reports(registry, row)?;
        }
        Ok(())
    }
}

#[test]
fn reports_of_trees(rt: HostRuntime) -> Result<(), Fail> {
    let registry = Registry::new(rt.alloc());
    findings_come_once(&registry);
    Ok(Desk::new(&rt, rt.alloc()).see_all_reports(&registry)?)
}
