//! What is told where something couldn't be read below the folders of a run, beside what the index of the rest lacks.

ghost use Rattle.protoscip.specs.FaultLines.{HaveFilesOf};

use crate::calls::{Desk, Given, see, writer};
use index_hooks::Registry;
use proto_lex::Encoding;
use protoscip::{
    ReportFormat, Telling, UnreadPath, all_findings, counts_with, explain_in, index_and_tell,
    report_bytes, told_text_with,
};
use scip_build::{Faulty, Omission};
use source_tree::Tree;
use std::alloc::{AllocError, Global};
use std::process::Abort;
use std::sync::Wait;
use std::test::Fail;
use std::thread::Threads;

/// So many bytes are written of an index.
const ROOM: usize = 4096;

/// Files, as `test_kit` takes them; the paths that couldn't be read, with `|` between them; and what is told of both,
/// plainly, explained, and in a report.
struct Row {
    files: &'static str,
    unread: &'static str,
    plain: &'static str,
    explained: &'static str,
    report: &'static str,
}

// The first row reads: the folder `d` couldn't be listed, nor the file `n` read, and the index of the other file lacks
// nothing. In the second, the file that couldn't be read is in the tree, and is told once.
static ROWS: [Row; 4] = [
    Row {
        files: "a.proto\nsyntax = \"proto3\";\n",
        unread: "d/|n.proto",
        plain: "protoscip: skipped: d/: Unreadable
protoscip: skipped: n.proto: Unreadable
protoscip: 1 sources indexed, 2 skipped, 0 imports and 0 uses without a target",
        explained: "protoscip: skipped: d/: Unreadable
it can't be read, or its name isn't UTF-8
protoscip: skipped: n.proto: Unreadable
it can't be read, or its name isn't UTF-8
protoscip: 1 sources indexed, 2 skipped, 0 imports and 0 uses without a target",
        report: "{\"column\":null,\"end\":null,\"first\":null,\"import\":null,\"kind\":\"skipped\",\"line\":null,\"message\":\"it can't be read, or its name isn't UTF-8\",\"name\":\"Unreadable\",\"offset\":null,\"path\":\"d/\"}
{\"column\":null,\"end\":null,\"first\":null,\"import\":null,\"kind\":\"skipped\",\"line\":null,\"message\":\"it can't be read, or its name isn't UTF-8\",\"name\":\"Unreadable\",\"offset\":null,\"path\":\"n.proto\"}
{\"imports\":0,\"kind\":\"counts\",\"skipped\":2,\"sources\":1,\"status\":0,\"uses\":0}
",
    },
    Row {
        files: "a.proto\nsyntax = \"proto3\";\nimport \"n.proto\";\n|?n.proto",
        unread: "n.proto",
        plain: "protoscip: skipped: n.proto: Unreadable
protoscip: no target: a.proto@26: MissingImport
protoscip: 1 sources indexed, 1 skipped, 1 imports and 0 uses without a target",
        explained: "protoscip: skipped: n.proto: Unreadable
it can't be read, or its name isn't UTF-8
protoscip: no target: a.proto@26: MissingImport
a.proto:2:8: the file with this path is left out
  2 | import \"n.proto\";
    |        ^^^^^^^^^
protoscip: 1 sources indexed, 1 skipped, 1 imports and 0 uses without a target",
        report: "{\"column\":null,\"end\":null,\"first\":null,\"import\":null,\"kind\":\"skipped\",\"line\":null,\"message\":\"it can't be read, or its name isn't UTF-8\",\"name\":\"Unreadable\",\"offset\":null,\"path\":\"n.proto\"}
{\"column\":8,\"end\":35,\"first\":null,\"import\":\"n.proto\",\"kind\":\"no target\",\"line\":2,\"message\":\"the file with this path is left out: `\\\"n.proto\\\"`\",\"name\":\"MissingImport\",\"offset\":26,\"path\":\"a.proto\"}
{\"imports\":1,\"kind\":\"counts\",\"skipped\":1,\"sources\":1,\"status\":0,\"uses\":0}
",
    },
    Row {
        files: "a.proto\n@",
        unread: "z\\xe9",
        plain: "protoscip: skipped: z\\xe9: Unreadable
protoscip: skipped: a.proto@0: BadByte
protoscip: 0 sources indexed, 2 skipped, 0 imports and 0 uses without a target",
        explained: "protoscip: skipped: z\\xe9: Unreadable
it can't be read, or its name isn't UTF-8
protoscip: skipped: a.proto@0: BadByte
a.proto:1:1: this character can't be here
  1 | @
    | ^
protoscip: 0 sources indexed, 2 skipped, 0 imports and 0 uses without a target",
        report: "{\"column\":null,\"end\":null,\"first\":null,\"import\":null,\"kind\":\"skipped\",\"line\":null,\"message\":\"it can't be read, or its name isn't UTF-8\",\"name\":\"Unreadable\",\"offset\":null,\"path\":\"z\\\\xe9\"}
{\"column\":1,\"end\":null,\"first\":null,\"import\":null,\"kind\":\"skipped\",\"line\":1,\"message\":\"this character can't be here\",\"name\":\"BadByte\",\"offset\":0,\"path\":\"a.proto\"}
{\"imports\":0,\"kind\":\"counts\",\"skipped\":2,\"sources\":0,\"status\":0,\"uses\":0}
",
    },
    Row {
        files: "a.proto\nsyntax = \"proto3\";\n",
        unread: "!a\\x09.proto",
        plain: "protoscip: skipped: a\\x09.proto: BadPath
protoscip: 1 sources indexed, 1 skipped, 0 imports and 0 uses without a target",
        explained: "protoscip: skipped: a\\x09.proto: BadPath
a path has at most 4096 bytes, and no character below U+0020
protoscip: 1 sources indexed, 1 skipped, 0 imports and 0 uses without a target",
        report: "{\"column\":null,\"end\":null,\"first\":null,\"import\":null,\"kind\":\"skipped\",\"line\":null,\"message\":\"a path has at most 4096 bytes, and no character below U+0020\",\"name\":\"BadPath\",\"offset\":null,\"path\":\"a\\\\x09.proto\"}
{\"imports\":0,\"kind\":\"counts\",\"skipped\":1,\"sources\":1,\"status\":0,\"uses\":0}
",
    },
];

/// A path of a row: behind `!` one that is no good path.
fn path_of(alloc: Global, text: &str) -> Result<UnreadPath, AllocError> {
    let shown = text.strip_prefix("!").unwrap_or(text);
    Ok(UnreadPath {
        shown: String::from_str(alloc, shown)?,
        bytes: Vec::from_slice(alloc, shown.as_bytes())?,
        is_bad: text.starts_with('!'),
    })
}

/// The paths of a row.
fn paths_of(alloc: Global, text: &str) -> Result<Vec<UnreadPath>, AllocError> {
    let mut paths = Vec::new(alloc);
    for path in text.split('|') {
        paths.push(path_of(alloc, path)?)?;
    }
    Ok(paths)
}

/// Whether a text is made, and is this one.
fn is_text(made: &Option<String>, text: &str) -> bool {
    match made {
        Some(made) => made.as_str() == text,
        None => false,
    }
}

/// The report of what couldn't be read, and of what is told of an index.
fn report_of(
    alloc: Global,
    tree: &Tree,
    unread: &[UnreadPath],
    told: &[Omission],
) -> Result<Vec<u8>, AllocError>
    requires { HaveFilesOf tree.now told.now }
{
    let findings = all_findings(alloc, tree, unread, told)?;
    let counts = counts_with(tree.source_count(), unread, told, 0);
    report_bytes(alloc, ReportFormat::JsonLines, findings.as_slice(), &counts)
}

/// How that is told which an index lacks, beside these paths.
fn telling_of<'u>(given: &Given, unread: &'u [UnreadPath], is_explained: bool) -> Telling<'u> {
    Telling {
        unread,
        explain: explain_in(is_explained, given.settings.dialect),
    }
}

/// What is due of a row.
fn due_of(row: &Row, is_explained: bool) -> &'static str {
    if is_explained {
        row.explained
    } else {
        row.plain
    }
}

impl<'a, R: Threads + Wait + Abort> Desk<'a, R> {
    /// Sees what is told of a tree.
    fn see_told(&self, given: &Given, telling: &Telling<'_>, due: &str) -> Result<(), AllocError> {
        let told = self.told(given)?;
        let text = told_text_with(self.alloc, &given.tree, told.as_slice(), telling)?;
        see(self.rt, text.as_str() == due, due);
        Ok(())
    }

    /// Sees that the text of an index is the same.
    fn see_indexed(
        &self,
        given: &Given,
        telling: &Telling<'_>,
        due: &str,
    ) -> Result<(), AllocError> {
        let (tree, registry, settings) = (&given.tree, given.registry, &given.settings);
        let mut out = writer(self.alloc, ROOM)?;
        let is_so = match index_and_tell(
            &self.run(1),
            tree,
            registry,
            settings,
            telling,
            &mut out,
        ) {
            Ok(kept) => is_text(&kept.text, due),
            Err(_) => false,
        };
        see(self.rt, is_so, due);
        Ok(())
    }

    /// Sees both of a tree, beside which these paths couldn't be read.
    fn see_text_of(
        &self,
        given: &Given,
        unread: &[UnreadPath],
        row: &Row,
        is_explained: bool,
    ) -> Result<(), AllocError> {
        let telling = telling_of(given, unread, is_explained);
        let due = due_of(row, is_explained);
        self.see_told(given, &telling, due)?;
        self.see_indexed(given, &telling, due)
    }

    /// Sees what is told of a row, and that the text of an index is the same.
    fn see_text(
        &self,
        registry: &Registry,
        row: &Row,
        is_explained: bool,
    ) -> Result<(), AllocError> {
        let unread = paths_of(self.alloc, row.unread)?;
        let given = self.given(registry, row.files, Encoding::Utf8, Faulty::Skip)?;
        self.see_text_of(&given, &unread, row, is_explained)
    }

    /// The report of a tree, beside which these paths couldn't be read.
    fn unread_report(&self, given: &Given, unread: &[UnreadPath]) -> Result<Vec<u8>, AllocError> {
        let told = self.told(given)?;
        report_of(self.alloc, &given.tree, unread, told.as_slice())
    }

    /// Sees that report.
    fn see_report_of(
        &self,
        given: &Given,
        unread: &[UnreadPath],
        due: &str,
    ) -> Result<(), AllocError> {
        let report = self.unread_report(given, unread)?;
        see(self.rt, report.as_slice() == due.as_bytes(), due);
        Ok(())
    }

    /// Sees the report of a row.
    fn see_unread_report(&self, registry: &Registry, row: &Row) -> Result<(), AllocError> {
        let unread = paths_of(self.alloc, row.unread)?;
        let given = self.given(registry, row.files, Encoding::Utf8, Faulty::Skip)?;
        self.see_report_of(&given, &unread, row.report)
    }

    /// Sees all of a row.
    fn see_all_of(&self, registry: &Registry, row: &Row) -> Result<(), AllocError> {
        self.see_text(registry, row, false)?;
        self.see_text(registry, row, true)?;
        self.see_unread_report(registry, row)
    }

    /// Sees all of each row.
    fn see_all_unread(&self, registry: &Registry) -> Result<(), AllocError> {
        for row in &ROWS {
            self.see_all_of(registry, row)?;
        }
        Ok(())
    }
}

#[test]
fn what_is_told_of_what_is_unread(rt: HostRuntime) -> Result<(), Fail> {
    let registry = Registry::new(rt.alloc());
    Ok(Desk::new(&rt, rt.alloc()).see_all_unread(&registry)?)
}
