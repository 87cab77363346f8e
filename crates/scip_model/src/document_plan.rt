//! The document of a source, of which each symbol's text is kept once, and its parts.

ghost use Rattle.std.specs.Prelude.{◌≡◌, ◌∷◌, []};
ghost use Rattle.std.specs.List.{slice_get};
ghost use Rattle.scip_model.specs.Indexes.{encoding_number};
ghost use Rattle.scip_model.specs.Detailed.{detail_at, details_shown, kind_if_asked};
ghost use Rattle.scip_records.specs.Details.{details_if_any};
ghost use Rattle.scip_model.specs.Tables.Plans.{text_at, bare_entry, first_kind, shown_as, entry_of};

use crate::entries::{detail_at, details_shown, documentation_of};
use crate::occurrences::range_around;
use crate::own_symbols::JoinedTexts;
use crate::symbol_table::SymbolTable;
use basics::{OwnedText, Sequence};
use index_hooks::Choice;
use proto_decl::{Declaration, FileFacts};
use proto_lex::{Encoding, Span};
use scip_records::{
    DetailsRef, DocumentParts, InformationRef, OccurrenceRef, Range, SignatureRef, SymbolRef,
    TextsRef,
};
use std::alloc::Global;
use std::marker::Model;

/// An occurrence, whose symbol is the text with a number.
#[derive(Clone, Copy, Debug)]
pub(crate) struct PlannedOccurrence {
    pub(crate) range: Range,
    pub(crate) symbol: u32,
    pub(crate) symbol_roles: i32,
}

/// The document of a source, which has each symbol's text once: occurrences and entries have its number, and what
/// documents a declaration stays where it was read.
///
/// Contracts see the document.
#[derive(Drop)]
pub struct DocumentPlan<'a, 't> {
    pub(crate) path: &'a str,
    pub(crate) facts: &'a FileFacts<'t>,
    pub(crate) choices: &'a [Choice],
    /// The full names of the packages: of the first component, the first two, and so on.
    pub(crate) packages: Vec<OwnedText>,
    /// The symbols of what each declaration is in, if details are asked for.
    pub(crate) arounds: JoinedTexts,
    pub(crate) texts: SymbolTable,
    pub(crate) occurrences: Vec<PlannedOccurrence>,
    /// The ranges over all of declarations, if details are asked for.
    pub(crate) ranges: Vec<Range>,
    pub(crate) entries: Vec<u32>,
    pub(crate) language: &'a str,
    pub(crate) encoding: Encoding,
}

impl<'a, 't> Model for DocumentPlan<'a, 't> {
    ghost use Rattle.std.specs.Prelude.{map};
    ghost use Rattle.scip_records.specs.declared.records.Document.{Document};
    ghost use Rattle.scip_model.specs.Indexes.{encoding_number};
    ghost use Rattle.scip_model.specs.Tables.Plans.{around_by, occurrence_of, entry_of};

    ghost Value = { Document };

    ghost view = { λ plan. record {
      relative_path = plan.path.now;
      occurrences = map (occurrence_of (around_by plan.facts.now plan.ranges.items) plan.texts)
          plan.occurrences.items;
      symbols = map (entry_of plan.texts plan.path.now plan.packages.items plan.facts.now plan.choices.now plan.arounds)
          plan.entries.items;
      language = plan.language.now;
      position_encoding = encoding_number plan.encoding;
    } };
}

/// The plan of the document of a source, and the places of its uses that name no type, in order.
///
/// Contracts see the document and the places.
#[derive(Drop)]
pub struct PlannedDocument<'a, 't> {
    pub(crate) document: DocumentPlan<'a, 't>,
    pub(crate) unresolved: Sequence<Span>,
}

impl<'a, 't> Model for PlannedDocument<'a, 't> {
    ghost use Rattle.scip_model.specs.declared.source_document.SourceDocument.{SourceDocument};

    ghost Value = { SourceDocument };

    ghost view = { λ made. record { document = made.document; unresolved = made.unresolved } };
}

impl<'a, 't> PlannedDocument<'a, 't> {
    /// The places.
    pub fn unresolved(&self) -> &[Span]
        ensures { result.now ≡ self.now.unresolved }
    {
        self.unresolved.as_slice()
    }

    /// The plan and the places. Takes no memory.
    pub fn into_parts(self) -> (DocumentPlan<'a, 't>, Sequence<Span>)
        ensures document { result.0 ≡ self.entry.document }
        ensures unresolved { result.1 ≡ self.entry.unresolved }
    {
        (self.document, self.unresolved)
    }
}

/// What shows an entry that is no declaration's, by its number: 0 is the file's, shown by its path, and behind it come
/// its packages', shown by their names. Where none has the number, the empty text.
fn name_at<'a>(path: &'a str, names: &'a [OwnedText], number: usize) -> &'a str
    ensures { result.now ≡ text_at (path.now ∷ names.now) number }
{
    if number == 0 {
        return path;
    }
    match names.get(number - 1) {
        Some(name) => name.as_str(),
        None => "",
    }
}

/// An entry without documentation.
fn undocumented<'a>(
    symbol: SymbolRef<'a>,
    display_name: &'a str,
    details: Option<DetailsRef<'a>>,
) -> InformationRef<'a>
    ensures { result ≡ record {
      symbol = symbol.entry;
      documentation = [];
      display_name = display_name.now;
      details = details_if_any details.entry;
    } }
{
    InformationRef {
        symbol,
        documentation: TextsRef::of_list(&[]),
        display_name,
        details,
    }
}

/// A symbol of which nothing else is known.
fn bare_entry(symbol: SymbolRef<'_>) -> InformationRef<'_>
    ensures { result ≡ bare_entry symbol.entry }
{
    undocumented(symbol, "", None)
}

/// What an entry is of that is no declaration's, by its number (`scip.proto`, `SymbolInformation.Kind`).
fn first_kind(number: usize) -> i32
    ensures { result ≡ first_kind number }
{
    if number == 0 { 16 } else { 35 }
}

/// The kind alone, if details are asked for.
fn kind_if_asked<'a>(facts: &FileFacts<'_>, kind: i32) -> Option<DetailsRef<'a>>
    ensures { details_if_any result ≡ kind_if_asked facts.now.details kind }
{
    match facts.details() {
        Some(_) => Some(DetailsRef {
            kind,
            signature: SignatureRef {
                language: "",
                text: "",
            },
            enclosing_symbol: SymbolRef::whole(""),
        }),
        None => None,
    }
}

/// What the entries of a source show besides their symbols.
#[derive(Drop)]
struct Shown<'a, 't> {
    path: &'a str,
    names: &'a [OwnedText],
    facts: &'a FileFacts<'t>,
    choices: &'a [Choice],
    arounds: &'a JoinedTexts,
}

/// The symbol of what the declaration with an index is in; the empty text, if it isn't known.
fn around_at<'a>(arounds: &'a JoinedTexts, index: usize) -> &'a str
    ensures { result.now ≡ text_at arounds.now index }
{
    match arounds.get(index) {
        Some(around) => around,
        None => "",
    }
}

/// The details of the declaration with an index, if they are asked for.
fn shown_details<'a>(
    shown: &Shown<'a, '_>,
    declaration: &Declaration,
    index: usize,
) -> Option<DetailsRef<'a>>
    ensures { details_if_any result ≡ details_shown declaration.now (detail_at shown.now.facts.now index)
        (text_at shown.now.arounds.now index) }
{
    match detail_at(shown.facts, index) {
        Some(detail) => {
            let around = around_at(shown.arounds, index);
            Some(details_shown(declaration, detail, around))
        }
        None => None,
    }
}

/// The entry of the declaration with an index, whose symbol has this text. Where there is none, an entry without
/// documentation.
fn documented<'a>(symbol: SymbolRef<'a>, shown: &Shown<'a, '_>, index: usize) -> InformationRef<'a>
    ensures { result ≡ shown_as symbol.entry (slice_get shown.now.facts.now.declarations index)
        (detail_at shown.now.facts.now index) (text_at shown.now.arounds.now index)
        (slice_get shown.now.choices.now index) }
{
    let Some(declaration) = shown.facts.declarations().get(index) else {
        return bare_entry(symbol);
    };
    let Some(choice) = shown.choices.get(index) else {
        return bare_entry(symbol);
    };
    // The details come last: by default there are none, and nothing else has to wait for them.
    InformationRef {
        symbol,
        documentation: documentation_of(choice.doc, declaration),
        display_name: declaration.simple_name(),
        details: shown_details(shown, declaration, index),
    }
}

/// The entry with a number.
fn entry_of<'a>(texts: &'a SymbolTable, shown: &Shown<'a, '_>, number: u32) -> InformationRef<'a>
    ensures { result ≡ entry_of texts.now shown.now.path.now shown.now.names.now shown.now.facts.now
        shown.now.choices.now shown.now.arounds.now number }
{
    let symbol = texts.at(number);
    let number = number as usize;
    let first = 1 + shown.names.len();
    if number < first {
        let kind = kind_if_asked(shown.facts, first_kind(number));
        undocumented(symbol, name_at(shown.path, shown.names, number), kind)
    } else {
        documented(symbol, shown, number - first)
    }
}

/// The number of an encoding (`scip.proto`, `PositionEncoding`).
fn encoding_number(encoding: Encoding) -> i32
    ensures { result ≡ encoding_number encoding }
{
    match encoding {
        Encoding::Utf8 => 1,
        Encoding::Utf16 => 2,
    }
}

impl<'a, 't> DocumentParts for DocumentPlan<'a, 't> {
    ghost document = { λ plan. plan };

    fn relative_path(&self) -> &str {
        self.path
    }

    fn occurrence_count(&self) -> usize {
        self.occurrences.len()
    }

    fn occurrence(&self, number: usize) -> OccurrenceRef<'_> {
        let planned = self.occurrences[number];
        OccurrenceRef {
            range: planned.range,
            symbol: self.texts.at(planned.symbol),
            symbol_roles: planned.symbol_roles,
            enclosing_range: range_around(
                1 + self.facts.package_name().len(),
                self.ranges.as_slice(),
                planned.symbol_roles,
                planned.symbol,
            ),
        }
    }

    fn entry_count(&self) -> usize {
        self.entries.len()
    }

    fn entry(&self, number: usize) -> InformationRef<'_> {
        let shown = Shown {
            path: self.path,
            names: self.packages.as_slice(),
            facts: self.facts,
            choices: self.choices,
            arounds: &self.arounds,
        };
        entry_of(&self.texts, &shown, self.entries[number])
    }

    fn language(&self) -> &str {
        self.language
    }

    fn position_encoding(&self) -> i32 {
        encoding_number(self.encoding)
    }

    fn let_occurrences_go(&mut self, alloc: Global) {
        self.occurrences = Vec::new(alloc);
        self.ranges = Vec::new(alloc);
    }
}
