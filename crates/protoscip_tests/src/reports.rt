//! Reports of findings, in both forms, and of none.

use crate::calls::see;
use diagnostics::LineCounter;
use fault_reports::{Counts, Finding, FindingKind, Place, ReportFormat, report_bytes};
use std::alloc::{AllocError, Global};
use std::process::Abort;
use std::test::Fail;

/// What a source holds: `é` has two bytes, and is one character.
const TEXT: &str = "a\né b";

/// A full name that is given again: first at the line's start, then behind `é `.
const AGAIN: &str = "{\"column\":3,\"end\":6,\
     \"first\":{\"column\":1,\"end\":1,\"line\":1,\"offset\":0,\"path\":\"a b.proto\"},\
     \"import\":null,\"kind\":\"skipped\",\"line\":2,\"message\":\"this full name is given already: `b`\",\
     \"name\":\"Duplicate\",\"offset\":5,\"path\":\"a b.proto\"}\n";

/// An import that names no file.
const ABSENT: &str =
    "{\"column\":1,\"end\":null,\"first\":null,\"import\":\"b.proto\",\"kind\":\"no target\",\"line\":2,\
     \"message\":\"no source\",\"name\":\"MissingImport\",\"offset\":2,\"path\":\"a b.proto\"}\n";

/// A fault of no file.
const LARGE: &str =
    "{\"column\":null,\"end\":null,\"first\":null,\"import\":null,\"kind\":\"fault\",\"line\":null,\
     \"message\":\"met `{`: too many\",\"name\":\"TooLarge\",\"offset\":null,\"path\":null}\n";

/// A use that a file makes uncertain.
const UNCERTAIN: &str =
    "{\"column\":1,\"end\":5,\"first\":{\"column\":null,\"end\":null,\"line\":null,\"offset\":null,\
     \"path\":\"c d\\\\xe9.proto\"},\"import\":null,\"kind\":\"uncertain\",\"line\":2,\
     \"message\":\"it may be another type: `é `\",\"name\":\"Uncertain\",\"offset\":2,\"path\":\"a b.proto\"}\n";

/// The last line.
const COUNTS: &str =
    "{\"imports\":4,\"kind\":\"counts\",\"skipped\":3,\"sources\":2,\"status\":1,\"uses\":5}\n";

/// The log of the four, of which the second has no end and the third is told again.
const LOG: &str = "{\"$schema\":\"https://json.schemastore.org/sarif-2.1.0.json\",\
     \"runs\":[{\"columnKind\":\"unicodeCodePoints\",\"results\":[{\"level\":\"error\",\
     \"locations\":[{\"physicalLocation\":{\"artifactLocation\":{\"uri\":\"a%20b.proto\"},\
     \"region\":{\"byteLength\":1,\"byteOffset\":5,\"endColumn\":4,\"endLine\":2,\"startColumn\":3,\"startLine\":2}}}],\
     \"message\":{\"text\":\"this full name is given already: `b`\"},\
     \"relatedLocations\":[{\"message\":{\"text\":\"it is given here\"},\
     \"physicalLocation\":{\"artifactLocation\":{\"uri\":\"a%20b.proto\"},\
     \"region\":{\"byteLength\":1,\"byteOffset\":0,\"endColumn\":2,\"endLine\":1,\"startColumn\":1,\"startLine\":1}}}],\
     \"ruleId\":\"Duplicate\"},{\"level\":\"warning\",\
     \"locations\":[{\"physicalLocation\":{\"artifactLocation\":{\"uri\":\"a%20b.proto\"},\
     \"region\":{\"byteOffset\":2,\"startColumn\":1,\"startLine\":2}}}],\
     \"message\":{\"text\":\"no source\"},\"relatedLocations\":[],\"ruleId\":\"MissingImport\"},\
     {\"level\":\"error\",\"locations\":[],\"message\":{\"text\":\"met `{`: too many\"},\"relatedLocations\":[],\
     \"ruleId\":\"TooLarge\"},{\"level\":\"error\",\"locations\":[],\"message\":{\"text\":\"met `{`: too many\"},\
     \"relatedLocations\":[],\"ruleId\":\"TooLarge\"},{\"level\":\"warning\",\
     \"locations\":[{\"physicalLocation\":{\"artifactLocation\":{\"uri\":\"a%20b.proto\"},\
     \"region\":{\"byteLength\":3,\"byteOffset\":2,\"endColumn\":3,\"endLine\":2,\"startColumn\":1,\"startLine\":2}}}],\
     \"message\":{\"text\":\"it may be another type: `é `\"},\
     \"relatedLocations\":[{\"message\":{\"text\":\"it can't be read\"},\
     \"physicalLocation\":{\"artifactLocation\":{\"uri\":\"c%20d%E9.proto\"}}}],\
     \"ruleId\":\"Uncertain\"}],\
     \"tool\":{\"driver\":{\"name\":\"protoscip\",\
     \"rules\":[\
     {\"fullDescription\":{\"text\":\"Two declarations have one full name. \
     With --duplicates keep each is kept for the files that see it.\"},\
     \"help\":{\"text\":\"docs/USAGE.md of protoscip has an example of each fault, and what --explain says of it.\"},\
     \"id\":\"Duplicate\",\"shortDescription\":{\"text\":\"this full name is given already\"}},\
     {\"fullDescription\":{\"text\":\"An import names a file that is not below ROOT, \
     and in no folder that --include names.\"},\
     \"help\":{\"text\":\"docs/USAGE.md of protoscip has an example of each fault, and what --explain says of it.\"},\
     \"id\":\"MissingImport\",\"shortDescription\":{\"text\":\"no source\"}},\
     {\"fullDescription\":{\"text\":\"A run stops for it, and no index is made.\"},\
     \"help\":{\"text\":\"docs/USAGE.md of protoscip has an example of each fault, and what --explain says of it.\"},\
     \"id\":\"TooLarge\",\"shortDescription\":{\"text\":\"too many\"}},\
     {\"fullDescription\":{\"text\":\"A name may mean another declaration, of a file that cannot be read.\"},\
     \"help\":{\"text\":\"docs/USAGE.md of protoscip has an example of each fault, and what --explain says of it.\"},\
     \"id\":\"Uncertain\",\"shortDescription\":{\"text\":\"it may be another type\"}}],\
     \"version\":\"1\"}}}],\"version\":\"2.1.0\"}\n";

/// A place of the source, and its end, if that is known.
fn at(offset: usize, end: Option<usize>) -> Place<'static> {
    Place::new(
        "a b.proto",
        &mut LineCounter::new(TEXT.as_bytes()),
        Some(offset),
        end,
    )
}

/// A full name that is given again.
fn again() -> Finding<'static> {
    Finding {
        kind: FindingKind::Skipped,
        name: "Duplicate",
        message: "this full name is given already",
        place: Some(at(5, Some(6))),
        met: None,
        named: Some(b"b"),
        first: Some(at(0, Some(1))),
        import: None,
    }
}

/// An import that names no file.
fn absent() -> Finding<'static> {
    Finding {
        kind: FindingKind::Unresolved,
        name: "MissingImport",
        message: "no source",
        place: Some(at(2, None)),
        met: None,
        named: None,
        first: None,
        import: Some(b"'b.' /* ' */ \"proto\""),
    }
}

/// A fault of no file.
fn large() -> Finding<'static> {
    Finding {
        kind: FindingKind::Fault,
        name: "TooLarge",
        message: "too many",
        place: None,
        met: Some(b"{}"),
        named: None,
        first: None,
        import: None,
    }
}

/// A use that a file makes uncertain whose name isn't UTF-8.
fn uncertain() -> Finding<'static> {
    let behind = Place::of_entry("c d\\xe9.proto", b"c d\xe9.proto");
    Finding {
        kind: FindingKind::Uncertain,
        name: "Uncertain",
        message: "it may be another type",
        place: Some(at(2, Some(5))),
        met: None,
        named: Some("é ".as_bytes()),
        first: Some(behind),
        import: None,
    }
}

/// Whether a report is this text. After want of memory it is made again, and the second answer counts.
fn is_report(
    alloc: Global,
    format: ReportFormat,
    findings: &[Finding<'_>],
    due: &str,
) -> Result<bool, AllocError> {
    let counts = Counts {
        sources: 2,
        skipped: 3,
        imports: 4,
        uses: 5,
        status: 1,
    };
    let bytes = match report_bytes(alloc, format, findings, &counts) {
        Err(AllocError) => report_bytes(alloc, format, findings, &counts)?,
        Ok(bytes) => bytes,
    };
    Ok(bytes.as_slice() == due.as_bytes())
}

/// Lines, in the order of the findings, and the counts.
#[test]
fn lines_of_json(rt: HostRuntime) -> Result<(), Fail> {
    let alloc = rt.alloc();
    let format = ReportFormat::JsonLines;
    see(&rt, is_report(alloc, format, &[], COUNTS)?, "none");
    let all = format!(in alloc; "{AGAIN}{ABSENT}{LARGE}{UNCERTAIN}{COUNTS}")?;
    let findings = [again(), absent(), large(), uncertain()];
    see(
        &rt,
        is_report(alloc, format, &findings, all.as_str())?,
        "four",
    );
    Ok(())
}

/// A log, with each rule once.
#[test]
fn a_log_in_sarif(rt: HostRuntime) -> Result<(), Fail> {
    let findings = [again(), absent(), large(), large(), uncertain()];
    see(
        &rt,
        is_report(rt.alloc(), ReportFormat::Sarif, &findings, LOG)?,
        "five, of which two are alike",
    );
    Ok(())
}
