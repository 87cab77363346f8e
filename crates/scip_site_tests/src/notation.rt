//! Indexes as short texts. Their words are parted by a space: `@ROOT` is the project root, of an index in UTF-8,
//! `PATH:SYMBOL,SYMBOL` a document with these entries, and `SYMBOL=NAME` an external entry and how it is shown.
//! `SYMBOL=NAME<OUTER` is one that is declared in another symbol. A text without a root has no metadata; `@ROOT~N` says
//! another text encoding.

use basics::{OwnedText, Sequence};
use scip_records::{
    BoxedDetails, Details, Document, Index, Metadata, Signature, SymbolInformation, SymbolRef,
};
use std::alloc::{AllocError, Global};

/// The text encoding of UTF-8 (`scip.proto`, TextEncoding).
const UTF8: i32 = 1;

/// Metadata with this project root, and this text encoding.
fn metadata_with(alloc: Global, root: &str, encoding: i32) -> Result<Metadata, AllocError> {
    Ok(Metadata {
        version: 0,
        tool_info: None,
        project_root: OwnedText::copy_of(alloc, root)?,
        text_document_encoding: encoding,
    })
}

/// The metadata that a word says.
fn metadata_of(alloc: Global, word: &str) -> Result<Metadata, AllocError> {
    match word.split_once('~') {
        Some((root, encoding)) => {
            metadata_with(alloc, root, encoding.parse::<i32>().unwrap_or(UTF8))
        }
        None => metadata_with(alloc, word, UTF8),
    }
}

/// Appends what says metadata.
fn push_metadata(text: &mut String, metadata: &Metadata) -> Result<(), AllocError> {
    text.push_str("@")?;
    text.push_str(metadata.project_root.as_str())?;
    let encoding = metadata.text_document_encoding;
    if encoding != UTF8 {
        write!(text, "~{encoding}")?;
    }
    text.push_str(" ")
}

/// An entry of this symbol, shown by this name.
fn entry_of(alloc: Global, symbol: &str, name: &str) -> Result<SymbolInformation, AllocError> {
    Ok(SymbolInformation {
        symbol: OwnedText::copy_of(alloc, symbol)?,
        documentation: Sequence::new(alloc),
        display_name: OwnedText::copy_of(alloc, name)?,
        details: BoxedDetails::none(),
    })
}

/// The details of what is declared in a symbol.
fn details_in(alloc: Global, outer: &str) -> Result<BoxedDetails, AllocError> {
    let details = Details {
        kind: 0,
        signature: Signature::none(alloc),
        enclosing_symbol: OwnedText::copy_of(alloc, outer)?,
    };
    BoxedDetails::boxed(alloc, details)
}

/// An entry of this symbol, of which the rest of its word is said.
fn external_of(alloc: Global, symbol: &str, rest: &str) -> Result<SymbolInformation, AllocError> {
    let Some((name, outer)) = rest.split_once('<') else {
        return entry_of(alloc, symbol, rest);
    };
    let mut entry = entry_of(alloc, symbol, name)?;
    entry.details = details_in(alloc, outer)?;
    Ok(entry)
}

/// Adds an entry of each symbol.
fn add_entries(
    alloc: Global,
    entries: &mut Sequence<SymbolInformation>,
    symbols: &str,
) -> Result<(), AllocError> {
    for symbol in symbols.split_terminator(',') {
        let entry = entry_of(alloc, symbol, "")?;
        entries.push(entry)?;
    }
    Ok(())
}

/// A document with this path, and an entry of each symbol.
fn document_of(alloc: Global, path: &str, symbols: &str) -> Result<Document, AllocError> {
    let mut entries = Sequence::new(alloc);
    add_entries(alloc, &mut entries, symbols)?;
    Ok(Document {
        relative_path: OwnedText::copy_of(alloc, path)?,
        occurrences: Sequence::new(alloc),
        symbols: entries,
        language: OwnedText::new(alloc),
        position_encoding: 1,
    })
}

/// Adds what a word says.
fn add_word(alloc: Global, index: &mut Index, word: &str) -> Result<(), AllocError> {
    if let Some(root) = word.strip_prefix('@') {
        index.metadata = Some(metadata_of(alloc, root)?);
        return Ok(());
    }
    if let Some((symbol, rest)) = word.split_once('=') {
        let entry = external_of(alloc, symbol, rest)?;
        index.external_symbols.push(entry)?;
        return Ok(());
    }
    if let Some((path, symbols)) = word.split_once(':') {
        let document = document_of(alloc, path, symbols)?;
        index.documents.push(document)?;
    }
    Ok(())
}

/// The index that a text says.
pub fn index_of(alloc: Global, text: &str) -> Result<Index, AllocError> {
    let mut index = Index {
        metadata: None,
        documents: Sequence::new(alloc),
        external_symbols: Sequence::new(alloc),
    };
    for word in text.split_terminator(' ') {
        add_word(alloc, &mut index, word)?;
    }
    Ok(index)
}

/// Adds the word of a document.
fn push_document(text: &mut String, document: &Document) -> Result<(), AllocError> {
    text.push_str(document.relative_path.as_str())?;
    text.push_str(":")?;
    for entry in document.symbols.as_slice() {
        text.push_str(entry.symbol.as_str())?;
        text.push_str(",")?;
    }
    text.push_str(" ")?;
    Ok(())
}

/// Adds the symbol that an entry is declared in.
fn push_outer(text: &mut String, outer: &SymbolRef<'_>) -> Result<(), AllocError> {
    if outer.front.is_empty() && outer.rest.is_empty() {
        return Ok(());
    }
    text.push_str("<")?;
    text.push_str(outer.front)?;
    text.push_str(outer.rest)?;
    Ok(())
}

/// Adds the word of an external entry.
fn push_external(text: &mut String, entry: &SymbolInformation) -> Result<(), AllocError> {
    text.push_str(entry.symbol.as_str())?;
    text.push_str("=")?;
    text.push_str(entry.display_name.as_str())?;
    let details = entry.details.lent();
    push_outer(text, &details.enclosing_symbol)?;
    text.push_str(" ")?;
    Ok(())
}

/// The text that says an index, with a comma behind each symbol of a document, and a space behind each word.
pub fn text_of(alloc: Global, index: &Index) -> Result<String, AllocError> {
    let mut text = String::new(alloc);
    if let Some(metadata) = &index.metadata {
        push_metadata(&mut text, metadata)?;
    }
    for document in index.documents.as_slice() {
        push_document(&mut text, document)?;
    }
    for entry in index.external_symbols.as_slice() {
        push_external(&mut text, entry)?;
    }
    Ok(text)
}
