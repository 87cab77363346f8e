//! Documents that are spelled by their plans: their bytes are those of their records.

use crate::asking::Asking;
use crate::built::{run_of, site_of};
use crate::calls::{Given, see};
use basics::Sequence;
use index_hooks::{AnyAnswer, Filter, FilterCallback, Registry};
use index_pool::NoGate;
use proto_decl::{DeclView, DeclarationKind};
use scip_build::{BuildFault, DocumentForm, Faulty, PlacedDocument, build_in_form};
use scip_records::{Document, Index, records_of};
use scip_wire::{DocumentRecord, spell_document, spell_index, write_pieces};
use std::alloc::{AllocError, Global};
use std::process::Abort;
use std::sync::Wait;
use std::test::Fail;
use std::thread::Threads;
use streams::Std;

/// Whether the plan of each document is spelled as its record is.
#[derive(Clone, Copy, Debug)]
struct AreAlike;

/// How many bytes a document of these tests has at most.
const ROOM: usize = 2000;

/// An index of one document alone.
fn index_with(alloc: Global, document: Document) -> Result<Index, AllocError> {
    let documents = Vec::from_array(alloc, [document])?;
    Ok(Index {
        metadata: None,
        documents: Sequence::from_vec(documents),
        external_symbols: Sequence::new(alloc),
    })
}

/// Whether a record, written as the only piece of an index, is these bytes.
fn is_written_as(alloc: Global, record: DocumentRecord, due: &[u8]) -> Result<bool, AllocError> {
    let records = Vec::from_array(alloc, [record])?;
    let none = Sequence::new(alloc);
    let mut room = [0u8; ROOM];
    let (room, _) = room.split_at_mut(due.len().min(ROOM));
    let mut sink = Std::new(&mut *room);
    let answer = write_pieces(&None, records.as_slice(), &none, &mut sink);
    let left = sink.into_inner().len();
    Ok(answer == Ok(()) && left == 0 && *room == *due)
}

/// The bytes of the index of one document alone, if they aren't too many.
fn bytes_of(alloc: Global, document: Document) -> Result<Option<Vec<u8>>, AllocError> {
    let index = index_with(alloc, document)?;
    spell_index(alloc, &index)
}

/// Whether a document's plan is spelled as these bytes, which are those of its record.
fn is_spelled_as(
    alloc: Global,
    document: &mut PlacedDocument<'_, '_>,
    due: &Option<Vec<u8>>,
) -> Result<bool, AllocError> {
    let record = spell_document(alloc, document)?;
    match due {
        Some(bytes) => is_written_as(alloc, record, bytes.as_slice()),
        None => Ok(false),
    }
}

impl DocumentForm for AreAlike {
    ghost use Rattle.std.specs.Prelude.{⊤};

    type Kept = bool;

    ghost is_kept = { λ document alike. ⊤ };

    fn keep(
        &self,
        alloc: Global,
        mut document: PlacedDocument<'_, '_>,
    ) -> Result<bool, AllocError> {
        let due = bytes_of(alloc, records_of(alloc, &document)?)?;
        is_spelled_as(alloc, &mut document, &due)
    }
}

/// Keeps what isn't an enum.
#[derive(Drop)]
struct NoEnums;

impl FilterCallback for NoEnums {
    fn call(&self, view: &DeclView<'_>) -> bool {
        view.kind() != DeclarationKind::Enum
    }
}

/// A source that names what another has, in a package of two components, and whose enum is left out.
const FILES: &str =
    "a.proto\nsyntax = \"proto3\";\npackage of.things;\nmessage A { message In {} }\n|\
b.proto\nsyntax = \"proto3\";\npackage of.things;\nimport \"a.proto\";\n// What it is.\nenum E { ZERO = 0; }\n\
// What has it.\nmessage B { A.In a = 1; of.things.A b = 2; E e = 3; B f = 4; } // behind\n";

/// Whether so many documents are made, and each plan of them is spelled as its record is; not for want of memory or of
/// a thread.
fn are_alike<R: Threads + Wait + Abort>(
    rt: &R,
    alloc: Global,
    site: &Given,
) -> Result<bool, AllocError> {
    let gate = NoGate;
    let run = run_of(rt, alloc, 2, &gate);
    let chooser = Asking::new(site.registry);
    match build_in_form(&run, &site.tree, &chooser, &site.settings, &AreAlike) {
        Ok(built) => Ok(built.parts.documents.as_slice() == [true, true].as_slice()),
        Err(BuildFault::Memory) | Err(BuildFault::Spawn) => Err(AllocError),
        Err(_) => Ok(false),
    }
}

/// Whether the documents of the files are spelled alike.
fn are_all_alike<R: Threads + Wait + Abort>(rt: &R, alloc: Global) -> Result<bool, AllocError> {
    let filter = Box::new(alloc, Filter::new(AnyAnswer, NoEnums))?;
    let mut registry = Registry::new(alloc);
    if registry.add_filter(filter).is_err() {
        return Err(AllocError);
    }
    let site = site_of(rt, &registry, alloc, FILES, Faulty::Refuse)?;
    are_alike(rt, alloc, &site)
}

#[test]
fn plans_are_spelled_as_their_records(rt: HostRuntime) -> Result<(), Fail> {
    let alike = match are_all_alike(&rt, rt.alloc()) {
        Err(_) => are_all_alike(&rt, rt.alloc())?,
        Ok(alike) => alike,
    };
    see(&rt, alike, "bytes");
    Ok(())
}
