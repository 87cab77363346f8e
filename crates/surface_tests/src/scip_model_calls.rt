//! The records of an index, the documents of sources, and writers and readers.

ghost use Rattle.std.specs.Prelude.{◌≡◌, ◌∷◌, [], IfOk};
ghost use Rattle.scip_model.specs.Chosen.{HasChoice};

use crate::broken::Broken;
use crate::shared::see;
use basics::{OwnedText, Sequence};
use index_hooks::{Choice, DocChoice};
use scip_model::{
    BoxedDetails, Choices, Document, Failed, Feed, Index, Info, Metadata, Occurrence, Range, Sink,
    Std, ToolInfo,
};
use scip_wire::write_index;
use std::alloc::{AllocError, Global};
use std::process::Abort;
use std::test::Fail;

/// A document with this path and nothing in it.
fn empty_document(alloc: Global, path: OwnedText) -> Document {
    Document {
        relative_path: path,
        occurrences: Sequence::new(alloc),
        symbols: Sequence::new(alloc),
        language: OwnedText::new(alloc),
        position_encoding: 1,
    }
}

/// The same with the text of its path.
fn piece(alloc: Global, path: &str) -> Result<Document, AllocError> {
    let path = OwnedText::copy_of(alloc, path)?;
    Ok(empty_document(alloc, path))
}

/// A tool with this name, and with this version.
fn tool_with(alloc: Global, name: OwnedText, version: OwnedText) -> ToolInfo {
    ToolInfo {
        name,
        version,
        arguments: Sequence::new(alloc),
    }
}

/// The tool of an index.
fn tool_of(alloc: Global) -> Result<ToolInfo, AllocError> {
    let name = OwnedText::copy_of(alloc, "protoscip")?;
    let version = OwnedText::copy_of(alloc, "1")?;
    Ok(tool_with(alloc, name, version))
}

/// The metadata of an index.
fn metadata_of(alloc: Global) -> Result<Metadata, AllocError> {
    let project_root = OwnedText::copy_of(alloc, "file:///")?;
    let tool = tool_of(alloc)?;
    Ok(Metadata {
        version: 0,
        tool_info: Some(tool),
        project_root,
        text_document_encoding: 1,
    })
}

/// Adds an occurrence of `x`.
fn add_occurrence(
    alloc: Global,
    occurrences: &mut Sequence<Occurrence>,
    range: Range,
) -> Result<(), AllocError> {
    let symbol = OwnedText::copy_of(alloc, "x")?;
    occurrences.push(Occurrence {
        range,
        symbol,
        symbol_roles: 1,
        enclosing_range: None,
    })?;
    Ok(())
}

/// Adds the entry of `x`.
fn add_entry(alloc: Global, symbols: &mut Sequence<Info>) -> Result<(), AllocError> {
    let symbol = OwnedText::copy_of(alloc, "x")?;
    let display_name = OwnedText::copy_of(alloc, "X")?;
    symbols.push(Info {
        symbol,
        documentation: Sequence::new(alloc),
        display_name,
        details: BoxedDetails::none(),
    })?;
    Ok(())
}

/// Adds both to a document.
fn add_both(alloc: Global, document: &mut Document, range: Range) -> Result<(), AllocError> {
    add_occurrence(alloc, &mut document.occurrences, range)?;
    add_entry(alloc, &mut document.symbols)
}

/// The document `a`, in which `x` is defined.
fn document_of(alloc: Global, range: Range) -> Result<Document, AllocError> {
    let mut document = piece(alloc, "a")?;
    add_both(alloc, &mut document, range)?;
    Ok(document)
}

/// Adds the document `a`.
fn add_document(
    alloc: Global,
    documents: &mut Sequence<Document>,
    range: Range,
) -> Result<(), AllocError> {
    let document = document_of(alloc, range)?;
    documents.push(document)?;
    Ok(())
}

/// An index of these documents.
fn index_with(alloc: Global, metadata: Metadata, documents: Sequence<Document>) -> Index {
    Index {
        metadata: Some(metadata),
        documents,
        external_symbols: Sequence::new(alloc),
    }
}

/// An index with the document `a`, in which `x` is defined.
fn index_of(alloc: Global, range: Range) -> Result<Index, AllocError> {
    let mut documents = Sequence::new(alloc);
    add_document(alloc, &mut documents, range)?;
    let metadata = metadata_of(alloc)?;
    Ok(index_with(alloc, metadata, documents))
}

/// The bytes of that index.
const BYTES: &[u8] = b"\x0A\x1C\x12\x0E\x0A\x09protoscip\x12\x011\x1A\x08file:///\x20\x01\
\x12\x19\x0A\x01a\x12\x0A\x0A\x03\x01\x08\x09\x12\x01x\x18\x01\x1A\x06\x0A\x01x\x32\x01X\x30\x01";

/// Sees that an index is written as those bytes.
fn see_bytes(rt: &impl Abort, alloc: Global, index: &Index) {
    let mut out = Std::new(Vec::new(alloc));
    let answer = write_index(index, &mut out);
    see(rt, answer == Ok(()), "the index is written");
    see(rt, out.into_inner().as_slice() == BYTES, "its fields");
}

#[test]
fn records_have_the_fields_of_the_format(rt: HostRuntime) -> Result<(), Fail> {
    let range = Range::new(1, 8, 1, 9).ok_or("a range")?;
    see_bytes(&rt, rt.alloc(), &index_of(rt.alloc(), range)?);
    Ok(())
}

/// A choice that keeps a declaration with the text before it, and one that doesn't keep it.
const KEPT: Choice = Choice {
    keep: true,
    doc: DocChoice::Leading,
};

const DROPPED: Choice = Choice {
    keep: false,
    doc: DocChoice::Both,
};

/// The choice for a file's only declaration.
fn listed(alloc: Global, choice: Choice) -> Result<Vec<Choice>, AllocError>
    ensures { IfOk result (λ list. list.items ≡ choice ∷ []) }
{
    Ok(Vec::from_array(alloc, [choice])?)
}

/// The choices for two files with a declaration each.
fn two_choices(alloc: Global) -> Result<Choices, AllocError>
    ensures { IfOk result (λ choices. HasChoice choices 0 0 × HasChoice choices 1 0) }
{
    let kept = listed(alloc, KEPT)?;
    let dropped = listed(alloc, DROPPED)?;
    let lists = Vec::from_array(alloc, [kept, dropped])?;
    Ok(Choices::new(lists))
}

/// Sees the choices for the two files.
fn see_choices(rt: &impl Abort, choices: &Choices)
    requires { HasChoice choices.now 0 0 × HasChoice choices.now 1 0 }
{
    see(rt, choices.of(0, 0) == KEPT, "the choice of the first file");
    see(
        rt,
        choices.of(1, 0) == DROPPED,
        "the choice of the second file",
    );
    see(rt, choices.file_count() == 2, "how many files have lists");
    see(
        rt,
        choices.of_file(1) == [DROPPED].as_slice() && choices.of_file(2).is_empty(),
        "the list of the second file, and none of a third",
    );
}

#[test]
fn choices_keep_their_lists(rt: HostRuntime) -> Result<(), Fail> {
    see_choices(&rt, &two_choices(rt.alloc())?);
    Ok(())
}

#[test]
fn std_writes_and_reads(rt: HostRuntime) {
    let mut out = Std::new(Vec::new(rt.alloc()));
    see(&rt, out.write(b"abc") == Ok(3), "three bytes are taken");
    see(
        &rt,
        out.into_inner().as_slice() == b"abc".as_slice(),
        "the bytes",
    );
    let mut source = Std::new(b"abc".as_slice());
    let mut room = [0u8; 8];
    see(
        &rt,
        source.read(&mut room) == Ok(3),
        "three bytes are given",
    );
    see(&rt, room == *b"abc\0\0\0\0\0", "the bytes that were given");
}

#[test]
fn own_writers_and_readers_are_called(rt: HostRuntime) {
    let mut broken = Broken::new();
    see(&rt, broken.write(b"abc") == Err(Failed), "nothing is taken");
    let mut room = [0u8; 8];
    see(
        &rt,
        broken.read(&mut room) == Err(Failed),
        "nothing is given",
    );
    see(
        &rt,
        broken.failures == 2 && broken.reads == 1,
        "each failed",
    );
}
