//! Records that are made of what is lent.

ghost use Rattle.std.specs.Prelude.{◌≡◌, ◌<◌, ◌++◌, [], true, false, IfOk, OnOk};
ghost use Rattle.scip_records.specs.Texts.{unless_empty};
ghost use Rattle.scip_records.specs.Details.{no_details, details_if_any};

use crate::details::{BoxedDetails, Details, Signature};
use crate::document_parts::DocumentParts;
use crate::records::{Document, Occurrence, SymbolInformation};
use crate::refs::{DetailsRef, InformationRef, OccurrenceRef, SymbolRef, TextsRef};
use basics::{OwnedText, Sequence};
use std::alloc::{AllocError, Global};

/// How many texts a text is: none if it is empty.
fn count_of(text: &str) -> usize
    ensures { result < 2 }
{
    match text.len() {
        0 => 0,
        _ => 1,
    }
}

/// Appends a copy of a text that isn't empty.
fn push_text(alloc: Global, texts: &mut Vec<OwnedText>, text: &str) -> Result<(), AllocError>
    ensures { OnOk result (texts.new.items ≡ texts.old.items ++ unless_empty text.now) }
{
    if text.is_empty() {
        return Ok(());
    }
    let text = OwnedText::copy_of(alloc, text)?;
    texts.push(text)?;
    Ok(())
}

/// Appends copies of texts.
fn push_listed(
    alloc: Global,
    texts: &mut Vec<OwnedText>,
    listed: &[OwnedText],
) -> Result<(), AllocError>
    ensures { OnOk result (texts.new.items ≡ texts.old.items ++ listed.now) }
{
    'texts: for text in listed {
        let copy = OwnedText::copy_of(alloc, text.as_str())?;
        texts.push(copy)?;
    }
    Ok(())
}

/// Copies of texts that are lent.
fn texts_of(alloc: Global, borrowed: &TextsRef<'_>) -> Result<Sequence<OwnedText>, AllocError>
    ensures { IfOk result (λ texts. texts ≡ borrowed.now) }
{
    let (listed, first, second) = borrowed.parts();
    let room = listed
        .len()
        .saturating_add(count_of(first) + count_of(second));
    let mut texts = Vec::with_capacity(alloc, room)?;
    push_listed(alloc, &mut texts, listed)?;
    push_text(alloc, &mut texts, first)?;
    push_text(alloc, &mut texts, second)?;
    Ok(Sequence::from_vec(texts))
}

impl<'a> SymbolRef<'a> {
    /// Whether it has no text.
    fn is_empty(&self) -> bool
        ensures { result ≡ true → self.now ≡ [] }
    {
        if !self.front.is_empty() {
            return false;
        }
        self.rest.is_empty()
    }

    /// A copy of the text.
    fn to_text(&self, alloc: Global) -> Result<OwnedText, AllocError>
        ensures { IfOk result (λ made. made ≡ self.now) }
    {
        let room = self.front.len().saturating_add(self.rest.len());
        let mut text = String::with_capacity(alloc, room)?;
        text.push_str(self.front)?;
        text.push_str(self.rest)?;
        Ok(OwnedText::from_string(text))
    }
}

impl<'a> OccurrenceRef<'a> {
    /// An occurrence with a copy of the symbol. An error means that memory was refused.
    pub fn to_record(&self, alloc: Global) -> Result<Occurrence, AllocError>
        ensures { IfOk result (λ made. made ≡ self.now) }
    {
        let symbol = self.symbol.to_text(alloc)?;
        Ok(Occurrence {
            range: self.range,
            symbol,
            symbol_roles: self.symbol_roles,
            enclosing_range: self.enclosing_range,
        })
    }
}

impl<'a> DetailsRef<'a> {
    /// Whether there is any detail.
    fn are_there(&self) -> bool
        ensures { result ≡ false → self.now ≡ no_details }
    {
        if self.kind != 0 {
            return true;
        }
        if !self.signature.language.is_empty() || !self.signature.text.is_empty() {
            return true;
        }
        !self.enclosing_symbol.is_empty()
    }

    /// Details with copies of the texts, in a box if there are any. An error means that memory was refused.
    fn to_boxed(&self, alloc: Global) -> Result<BoxedDetails, AllocError>
        ensures { IfOk result (λ made. made ≡ self.now) }
    {
        if !self.are_there() {
            return Ok(BoxedDetails::none());
        }
        let language = OwnedText::copy_of(alloc, self.signature.language)?;
        let text = OwnedText::copy_of(alloc, self.signature.text)?;
        let enclosing_symbol = self.enclosing_symbol.to_text(alloc)?;
        BoxedDetails::boxed(
            alloc,
            Details {
                kind: self.kind,
                signature: Signature { language, text },
                enclosing_symbol,
            },
        )
    }
}

/// A copy of details, in a box if there are any.
fn boxed_if_any(alloc: Global, details: &Option<DetailsRef<'_>>) -> Result<BoxedDetails, AllocError>
    ensures { IfOk result (λ made. made ≡ details_if_any details.now) }
{
    match details {
        Some(details) => details.to_boxed(alloc),
        None => Ok(BoxedDetails::none()),
    }
}

impl<'a> InformationRef<'a> {
    /// An entry with copies of the texts. An error means that memory was refused.
    pub fn to_record(&self, alloc: Global) -> Result<SymbolInformation, AllocError>
        ensures { IfOk result (λ made. made ≡ self.now) }
    {
        let symbol = self.symbol.to_text(alloc)?;
        let documentation = texts_of(alloc, &self.documentation)?;
        let display_name = OwnedText::copy_of(alloc, self.display_name)?;
        let details = boxed_if_any(alloc, &self.details)?;
        Ok(SymbolInformation {
            symbol,
            documentation,
            display_name,
            details,
        })
    }
}

/// The occurrences of a document whose parts are lent.
fn occurrences_of<D: DocumentParts>(
    alloc: Global,
    document: &D,
) -> Result<Vec<Occurrence>, AllocError>
    ensures { IfOk result (λ list. list.items ≡ (D.document document.now).occurrences) }
{
    let mut list = Vec::with_capacity(alloc, document.occurrence_count())?;
    'numbers: for number in 0..document.occurrence_count() {
        let made = document.occurrence(number).to_record(alloc)?;
        list.push(made)?;
    }
    Ok(list)
}

/// The entries of a document whose parts are lent.
fn entries_of<D: DocumentParts>(
    alloc: Global,
    document: &D,
) -> Result<Vec<SymbolInformation>, AllocError>
    ensures { IfOk result (λ list. list.items ≡ (D.document document.now).symbols) }
{
    let mut list = Vec::with_capacity(alloc, document.entry_count())?;
    'numbers: for number in 0..document.entry_count() {
        let made = document.entry(number).to_record(alloc)?;
        list.push(made)?;
    }
    Ok(list)
}

/// The record of a document whose parts are lent, with copies of all texts. An error means that memory was refused.
pub fn records_of<D: DocumentParts>(alloc: Global, document: &D) -> Result<Document, AllocError>
    ensures { IfOk result (λ made. made ≡ D.document document.now) }
{
    let relative_path = OwnedText::copy_of(alloc, document.relative_path())?;
    let occurrences = occurrences_of(alloc, document)?;
    let symbols = entries_of(alloc, document)?;
    let language = OwnedText::copy_of(alloc, document.language())?;
    Ok(Document {
        relative_path,
        occurrences: Sequence::from_vec(occurrences),
        symbols: Sequence::from_vec(symbols),
        language,
        position_encoding: document.position_encoding(),
    })
}
