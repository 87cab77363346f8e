//! What is built from trees, and why nothing is.

use crate::asking::Asking;
use crate::calls::{COUNTS, Desk, Given, see};
use index_hooks::Registry;
use index_pool::{Gate, NoGate, Workers};
use proto_lex::Encoding;
use scip_build::{BuildFault, Built, Faulty, Omission, Run, build};
use scip_records::{Document, Occurrence};
use std::alloc::{AllocError, Global};
use std::process::Abort;
use std::sync::Wait;
use std::thread::Threads;
use test_kit::Draft;

/// A symbol without the scheme and the empty package.
fn short(symbol: &str) -> &str {
    symbol.strip_prefix("scip-protobuf . . . ").unwrap_or("?")
}

/// Adds a number, and a space behind it.
fn add_field(draft: &mut Draft, number: i64) {
    draft.add_number(number);
    draft.add(" ");
}

/// Adds a line for an occurrence: where it begins and ends, its roles, and its symbol without the scheme and the empty
/// package.
fn add_occurrence(draft: &mut Draft, occurrence: &Occurrence) {
    let range = occurrence.range;
    add_field(draft, i64::from(range.start_line()));
    add_field(draft, i64::from(range.start_column()));
    add_field(draft, i64::from(range.end_line()));
    add_field(draft, i64::from(range.end_column()));
    add_field(draft, i64::from(occurrence.symbol_roles));
    draft.add(short(occurrence.symbol.as_str()));
    draft.add("\n");
}

/// Adds a line with the path of a document, and one for each of its occurrences.
fn add_document(draft: &mut Draft, document: &Document) {
    draft.add(document.relative_path.as_str());
    draft.add("\n");
    for occurrence in document.occurrences.as_slice() {
        add_occurrence(draft, occurrence);
    }
}

/// Adds a line for a thing that is told.
fn add_omission(draft: &mut Draft, omission: &Omission) {
    match format!(in draft.alloc(); "{omission:?}") {
        Ok(text) => draft.add(text.as_str()),
        Err(_) => draft.cut(),
    }
    draft.add("\n");
}

/// A line for each thing that is told, then the documents, and a line for each external symbol.
fn listing_of(alloc: Global, built: &Built) -> Result<String, AllocError> {
    let mut draft = Draft::new(alloc);
    for omission in built.told.as_slice() {
        add_omission(&mut draft, omission);
    }
    for document in built.index.documents.as_slice() {
        add_document(&mut draft, document);
    }
    for entry in built.index.external_symbols.as_slice() {
        draft.add("external ");
        draft.add(short(entry.symbol.as_str()));
        draft.add("\n");
    }
    draft.finish()
}

/// The tree of files, as `test_kit` takes them, with plain settings, and with this done with faults.
pub(crate) fn site_of<'a, R: Threads + Wait + Abort>(
    rt: &R,
    registry: &'a Registry,
    alloc: Global,
    files: &str,
    faulty: Faulty,
) -> Result<Given<'a>, AllocError> {
    Desk::new(rt, alloc).given(registry, files, Encoding::Utf8, faulty)
}

/// A run by so many workers, which are 1 to 16, round each file of which this gate is called.
pub(crate) fn run_of<'a, R: Abort, G>(
    rt: &'a R,
    alloc: Global,
    count: usize,
    gate: &'a G,
) -> Run<'a, R, G> {
    let workers = Workers::new(count).expect(rt, "1 to 16 workers");
    Run {
        rt,
        alloc,
        workers,
        gate,
    }
}

/// What is built, or why nothing is, as `Debug` prints it; not for want of memory or of a thread.
fn told<R: Threads + Wait, G: Gate>(
    run: &Run<'_, R, G>,
    site: &Given,
    chooser: &Asking,
) -> Result<String, AllocError> {
    match build(run, &site.tree, chooser, &site.settings) {
        Ok(built) => listing_of(run.alloc, &built),
        Err(BuildFault::Memory) | Err(BuildFault::Spawn) => Err(AllocError),
        Err(fault) => format!(in run.alloc; "{fault:?}"),
    }
}

/// How often the callbacks are asked for what is due; none where something else is built.
pub(crate) fn asked_for<R: Threads + Wait, G: Gate>(
    run: &Run<'_, R, G>,
    site: &Given,
    due: &str,
) -> Option<u64> {
    let asking = Asking::new(site.registry);
    match told(run, site, &asking) {
        Ok(text) if text.as_str() == due => Some(asking.count()),
        _ => None,
    }
}

/// Sees that what is due is built, and that the callbacks are asked so often for it, on 1, 2 and 16 workers. After want of
/// memory or of a thread it is built again.
pub(crate) fn see_built<R: Threads + Wait + Abort>(
    rt: &R,
    alloc: Global,
    site: &Given,
    due: &str,
    count: u64,
) {
    for workers in &COUNTS {
        let gate = NoGate;
        let run = run_of(rt, alloc, *workers, &gate);
        let asked = match asked_for(&run, site, due) {
            None => asked_for(&run, site, due),
            asked => asked,
        };
        see(rt, asked == Some(count), due);
    }
}
