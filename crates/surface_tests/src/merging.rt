//! Pieces put together, by the paths `a.proto` and `b.proto`.

ghost use Rattle.std.specs.Prelude.{IfOk, map};
ghost use Rattle.std.specs.String.{string_bytes};
ghost use Rattle.scip_model.specs.Pieces.{IsRising};

use crate::shared::see;
use basics::{OwnedText, Sequence};
use scip_model::{
    Document, Index, Info, MergeFault, Metadata, Unmerged, merge, one_merge_refusal,
    one_merged_list,
};
use std::alloc::{AllocError, Global};
use std::test::Fail;

/// The paths of pieces, and why they are refused, if they are. The second row reads: the piece with the
/// number 1 has the path of an earlier one.
static ROWS: [(&str, Option<MergeFault>); 4] = [
    ("b.proto a.proto", None),
    ("a.proto a.proto", Some(MergeFault::Twice(1))),
    ("a.proto", Some(MergeFault::Missing(1))),
    ("a.proto c.proto", Some(MergeFault::Stranger(1))),
];

/// A document with this path in which nothing occurs.
fn piece(alloc: Global, path: &str) -> Result<Document, AllocError> {
    Ok(Document {
        relative_path: OwnedText::copy_of(alloc, path)?,
        occurrences: Sequence::new(alloc),
        symbols: Sequence::new(alloc),
        language: OwnedText::new(alloc),
        position_encoding: 1,
    })
}

/// Adds one with this path.
fn add_piece(alloc: Global, pieces: &mut Vec<Document>, path: &str) -> Result<(), AllocError> {
    let piece = piece(alloc, path)?;
    pieces.push(piece)?;
    Ok(())
}

/// Documents with these paths, in order.
fn pieces_of(alloc: Global, paths: &str) -> Result<Vec<Document>, AllocError> {
    let mut pieces = Vec::new(alloc);
    for path in paths.split_terminator(' ') {
        add_piece(alloc, &mut pieces, path)?;
    }
    Ok(pieces)
}

/// The paths `a.proto` and `b.proto`.
fn two_paths(alloc: Global) -> Result<[String; 2], AllocError>
    ensures { IfOk result (λ paths. IsRising (map string_bytes paths)) }
{
    let first = String::from_str(alloc, "a.proto")?;
    let second = String::from_str(alloc, "b.proto")?;
    Ok([first, second])
}

/// What `merge` answers of these pieces for these paths.
fn merged(
    alloc: Global,
    paths: &[String],
    pieces: Vec<Document>,
    externals: Vec<Info>,
) -> Result<Index, Unmerged>
    requires { IsRising (map string_bytes paths.now) }
{
    let metadata = Metadata {
        version: 0,
        tool_info: None,
        project_root: OwnedText::new(alloc),
        text_document_encoding: 1,
    };
    merge(alloc, paths, pieces, metadata, externals)
}

/// What `merge` answers. After want of memory it is called again with what came back, and the second
/// answer counts.
fn merged_again(alloc: Global, paths: &[String], pieces: Vec<Document>) -> Result<Index, Unmerged>
    requires { IsRising (map string_bytes paths.now) }
{
    match merged(alloc, paths, pieces, Vec::new(alloc)) {
        Ok(index) => Ok(index),
        Err(unmerged) => match unmerged.fault {
            MergeFault::Memory => merged(alloc, paths, unmerged.pieces, unmerged.externals),
            _ => Err(unmerged),
        },
    }
}

/// Whether pieces are put together in order, or refused for this fault.
fn is_due(answer: &Result<Index, Unmerged>, fault: Option<MergeFault>) -> bool {
    match answer {
        Ok(index) => match index.documents.as_slice() {
            [a, b] => {
                fault.is_none()
                    && a.relative_path.as_str() == "a.proto"
                    && b.relative_path.as_str() == "b.proto"
            }
            _ => false,
        },
        Err(unmerged) => Some(unmerged.fault) == fault,
    }
}

/// Whether pieces with these paths have an index, or this fault.
fn is_row_due(alloc: Global, paths: &str, fault: Option<MergeFault>) -> Result<bool, AllocError> {
    let pieces = pieces_of(alloc, paths)?;
    let due = two_paths(alloc)?;
    let answer = merged_again(alloc, &due, pieces);
    Ok(is_due(&answer, fault))
}

#[test]
fn pieces_in_any_order(rt: HostRuntime) -> Result<(), Fail> {
    one_merge_refusal();
    one_merged_list();
    for (paths, fault) in &ROWS {
        see(&rt, is_row_due(rt.alloc(), *paths, *fault)?, *paths);
    }
    Ok(())
}

#[test]
fn faults_are_printed_as_sentences(rt: HostRuntime) -> Result<(), Fail> {
    let fault = MergeFault::Twice(1);
    let text = format!(in rt.alloc(); "{fault}")?;
    see(
        &rt,
        text.as_str() == "piece 1 has the path of an earlier one",
        "text",
    );
    see(
        &rt,
        fault.name() == "Twice" && fault.number() == Some(1),
        "name",
    );
    Ok(())
}
