//! What is known of symbols, found once for each.

ghost use Rattle.std.specs.Prelude.{◌≡◌, ◌++◌, [], IfOk, IfSome, OnOk, option_copied};
ghost use Rattle.std.specs.List.{flat_map};
ghost use Rattle.scip_records.specs.Texts.{unless_empty};
ghost use Rattle.scip_query.specs.References.{is_local};
ghost use Rattle.scip_query.specs.BySymbol.{entry_in, references_in};
ghost use Rattle.scip_pages.specs.Targets as spec;
ghost use Rattle.scip_pages.specs.Facts.{AreRight, IsFact, Tells};
ghost use Rattle.scip_pages.specs.Facts as served;

use crate::definitions::definition_among;
use crate::hover::hover_of;
use crate::places::symbol_listed;
use crate::shown::shown_symbol;
use crate::site::Site;
use basics::{OwnedText, Sequence};
use scip_query::{Place, Queries, signature_in, texts_of};
use scip_records::SymbolInformation;
use std::alloc::{AllocError, Global};

/// Besides the symbol, the room for a label: most fit.
const LABEL_ROOM: usize = 192;

/// What is known of a symbol.
#[derive(Drop)]
pub struct Known {
    /// The place of its first definition that has a page.
    pub definition: Option<Place>,
    /// What is shown of it where a pointer hovers: the symbol, and below it its signature and its documentation, cut if
    /// they are long.
    pub label: Sequence<u8>,
}

/// Where the occurrences are of a symbol that is asked for in a document, and its entry.
#[derive(Clone, Copy)]
pub struct Fact<'a> {
    /// The document's number.
    pub document: usize,
    /// The symbol.
    pub symbol: &'a str,
    /// The places of all its occurrences.
    pub places: &'a [Place],
    /// The first of them where it is defined and that has a page.
    pub definition: Option<Place>,
    /// Its entry, if it has one.
    pub information: Option<&'a SymbolInformation>,
}

/// How far a walk through all places is, in the order of symbols.
#[derive(Drop)]
struct Walk {
    /// The symbols of so many places are found.
    until: usize,
    /// Behind so many symbol entries that of the next symbol is looked for first.
    entry: usize,
}

/// Where an index's symbols are, as far as that is known, and for each occurrence where the fact of its symbol may be.
/// So each symbol is looked up once, however many occurrences it has.
#[derive(Drop)]
pub struct Facts<'a> {
    /// What is known, in the order in which it was found.
    pub facts: Vec<Fact<'a>>,
    hints: Vec<Vec<usize>>,
}

/// Whether a symbol is local to its document (`scip.proto`, `Symbol`).
fn is_local(symbol: &str) -> bool
    ensures { result ≡ is_local symbol.now }
{
    symbol.as_bytes().starts_with(b"local ")
}

/// Whether a symbol is the same for two of so many documents, of which it is asked: if they are one, or it isn't local.
fn is_asked_alike(count: usize, symbol: &str, a: usize, b: usize) -> bool
    ensures { result ≡ served.is_asked_alike count symbol.now a b }
{
    if a == b {
        true
    } else if is_local(symbol) {
        false
    } else {
        a < count && b < count
    }
}

/// Whether a fact is of a symbol that is asked for in the document with a number, of so many.
fn serves(fact: &Fact<'_>, count: usize, document: usize, symbol: &str) -> bool
    ensures { result ≡ served.serves fact.now count document symbol.now }
{
    fact.symbol == symbol && is_asked_alike(count, symbol, fact.document, document)
}

/// A fact, if it is of a symbol that is asked for in the document with a number.
fn serving<'a>(site: &Site<'_>, fact: &Fact<'a>, document: usize, symbol: &str) -> Option<Fact<'a>>
    requires { IsFact site.now.queries.now site.now.sources.now fact.now }
    ensures { IfSome result (λ told. Tells site.now.queries.now site.now.sources.now document symbol.now told) }
{
    let count = site.queries.documents().len();
    if serves(fact, count, document, symbol) {
        Some(*fact)
    } else {
        None
    }
}

/// The fact with a number, if there is one, and it is of such a symbol.
fn fact_for<'a>(
    site: &Site<'_>,
    facts: &[Fact<'a>],
    number: usize,
    document: usize,
    symbol: &str,
) -> Option<Fact<'a>>
    requires { AreRight site.now.queries.now site.now.sources.now facts.now }
    ensures { IfSome result (λ told. Tells site.now.queries.now site.now.sources.now document symbol.now told) }
{
    match facts.get(number) {
        Some(fact) => serving(site, fact, document, symbol),
        None => None,
    }
}

/// Finds where a symbol is that is asked for in the document with a number.
fn new_fact<'a>(site: &Site<'a>, document: usize, symbol: &'a str) -> Fact<'a>
    ensures right { IsFact site.now.queries.now site.now.sources.now result }
    ensures tells { Tells site.now.queries.now site.now.sources.now document symbol.now result }
{
    let places = site.queries.references_in(document, symbol);
    Fact {
        document,
        symbol,
        places,
        definition: definition_among(site, places),
        information: site.queries.entry_in(document, symbol),
    }
}

/// Finds where it is, and looks for it first behind so many of all places and of all symbol entries, in the order of
/// symbols. With it comes behind how many entries to look for the next symbol.
fn fact_near<'a>(
    site: &Site<'a>,
    place: usize,
    entry: usize,
    document: usize,
    symbol: &'a str,
) -> (usize, Fact<'a>)
    ensures { IsFact site.now.queries.now site.now.sources.now result.1 }
{
    let places = site.queries.references_near(place, document, symbol);
    let (next, information) = site.queries.entry_in_near(entry, document, symbol);
    let fact = Fact {
        document,
        symbol,
        places,
        definition: definition_among(site, places),
        information,
    };
    (next, fact)
}

/// Appends a fact.
fn push_fact<'a>(
    site: &Site<'_>,
    facts: &mut Vec<Fact<'a>>,
    fact: Fact<'a>,
) -> Result<(), AllocError>
    requires facts { AreRight site.now.queries.now site.now.sources.now facts.old.items }
    requires fact { IsFact site.now.queries.now site.now.sources.now fact }
    ensures { AreRight site.now.queries.now site.now.sources.now facts.new.items }
{
    facts.push(fact)?;
    Ok(())
}

/// The number that is noted for a place.
fn hint_at(hints: &[Vec<usize>], place: Place) -> usize {
    match hints.get(place.document) {
        Some(numbers) => match numbers.get(place.occurrence) {
            Some(number) => *number,
            None => 0,
        },
        None => 0,
    }
}

/// Notes a number for an occurrence.
fn set(numbers: &mut Vec<usize>, occurrence: usize, number: usize) {
    if occurrence < numbers.len() {
        numbers[occurrence] = number;
    }
}

/// Notes a number for a place.
fn hint(hints: &mut Vec<Vec<usize>>, place: Place, number: usize) {
    if place.document < hints.len() {
        set(&mut hints[place.document], place.occurrence, number);
    }
}

/// Notes a number for places.
fn hint_all(hints: &mut Vec<Vec<usize>>, places: &[Place], number: usize) {
    for place in places {
        hint(hints, *place, number);
    }
}

/// All that is said of a symbol: as it is shown, and below it what its entry says.
fn label_of(
    alloc: Global,
    symbol: &str,
    entry: Option<&SymbolInformation>,
) -> Result<Vec<u8>, AllocError>
    ensures { IfOk result (λ label. label.items ≡ spec.label_of symbol.now (option_copied entry.entry)) }
{
    let mut label = Vec::with_capacity(alloc, symbol.len().saturating_add(LABEL_ROOM))?;
    label.extend_from_slice(shown_symbol(symbol.as_bytes()))?;
    push_signature_below(&mut label, signature_in(entry))?;
    push_documentation_below(&mut label, texts_of(entry))?;
    Ok(label)
}

/// Appends a signature on a line of its own, if it isn't empty.
fn push_signature_below(label: &mut Vec<u8>, signature: &str) -> Result<(), AllocError>
    ensures { OnOk result (label.new.items ≡ label.old.items ++ flat_map spec.below (unless_empty signature.now)) }
{
    if signature.is_empty() {
        Ok(())
    } else {
        push_below(label, signature)
    }
}

/// Appends texts, each on a line of its own.
fn push_documentation_below(
    label: &mut Vec<u8>,
    documentation: &[OwnedText],
) -> Result<(), AllocError>
    ensures { OnOk result (label.new.items ≡ label.old.items ++ flat_map spec.below documentation.now) }
{
    for text in documentation {
        push_below(label, text.as_str())?;
    }
    Ok(())
}

/// Appends a text on a line of its own.
fn push_below(label: &mut Vec<u8>, text: &str) -> Result<(), AllocError>
    ensures { OnOk result (label.new.items ≡ label.old.items ++ spec.below text.now) }
{
    label.extend_from_slice(b"\n")?;
    label.extend_from_slice(text.as_bytes())
}

/// What is known of a symbol that is asked for in the document with a number, of which there is a fact.
fn known_by(
    alloc: Global,
    site: &Site<'_>,
    fact: &Fact<'_>,
    document: usize,
    symbol: &str,
) -> Result<Known, AllocError>
    requires { Tells site.now.queries.now site.now.sources.now document symbol.now fact.now }
    ensures { IfOk result (λ known. known ≡ spec.known_of site.now.queries.now site.now.sources.now document
        symbol.now) }
{
    let label = hover_of(alloc, symbol, fact.information)?;
    Ok(Known {
        definition: fact.definition,
        label: Sequence::from_vec(label),
    })
}

/// Numbers, all 0, as many as a document has occurrences.
fn no_hints(alloc: Global, queries: &Queries) -> Result<Vec<Vec<usize>>, AllocError> {
    let mut hints = Vec::new(alloc);
    for document in queries.documents() {
        hints.push(vec![in alloc; 0; document.occurrences.as_slice().len()]?)?;
    }
    Ok(hints)
}

impl<'a> Facts<'a> {
    /// Nothing is known yet.
    pub fn new(alloc: Global, queries: &Queries) -> Result<Facts<'a>, AllocError>
        ensures { IfOk result (λ facts. facts.facts.items ≡ []) }
    {
        Ok(Facts {
            facts: Vec::new(alloc),
            hints: no_hints(alloc, queries)?,
        })
    }

    /// Keeps a fact, and notes it for all places of its symbol.
    fn keep(&mut self, site: &Site<'_>, fact: Fact<'a>) -> Result<(), AllocError>
        requires facts { AreRight site.now.queries.now site.now.sources.now self.old.facts.items }
        requires fact { IsFact site.now.queries.now site.now.sources.now fact }
        ensures { AreRight site.now.queries.now site.now.sources.now self.new.facts.items }
    {
        let number = self.facts.len();
        push_fact(site, &mut self.facts, fact)?;
        hint_all(&mut self.hints, fact.places, number);
        Ok(())
    }

    /// Finds where the symbol at a place is, which has a number in the order of symbols, if it isn't found yet.
    fn find_at(
        &mut self,
        site: &Site<'a>,
        walk: &mut Walk,
        number: usize,
        place: Place,
    ) -> Result<(), AllocError>
        requires { AreRight site.now.queries.now site.now.sources.now self.old.facts.items }
        ensures { AreRight site.now.queries.now site.now.sources.now self.new.facts.items }
    {
        if number < walk.until {
            return Ok(());
        }
        let symbol = symbol_listed(site.queries.documents(), place);
        let (entry, fact) = fact_near(site, number, walk.entry, place.document, symbol);
        walk.entry = entry;
        walk.until = number.saturating_add(fact.places.len());
        self.keep(site, fact)
    }

    /// Finds where each symbol of the index is, in the order of symbols: so one is found near the one before it.
    pub fn find_all(&mut self, site: &Site<'a>) -> Result<(), AllocError>
        requires { AreRight site.now.queries.now site.now.sources.now self.old.facts.items }
        ensures { AreRight site.now.queries.now site.now.sources.now self.new.facts.items }
    {
        let mut walk = Walk { until: 0, entry: 0 };
        for (number, place) in site.queries.places_by_symbol().iter().enumerate() {
            self.find_at(site, &mut walk, number, *place)?;
        }
        Ok(())
    }

    /// Finds where the symbol at a place is, and notes it for all its places.
    fn found(
        &mut self,
        site: &Site<'a>,
        document: usize,
        symbol: &'a str,
    ) -> Result<Fact<'a>, AllocError>
        requires { AreRight site.now.queries.now site.now.sources.now self.old.facts.items }
        ensures right { AreRight site.now.queries.now site.now.sources.now self.new.facts.items }
        ensures tells { IfOk result (λ fact. Tells site.now.queries.now site.now.sources.now document symbol.now fact) }
    {
        let fact = new_fact(site, document, symbol);
        self.keep(site, fact)?;
        Ok(fact)
    }

    /// The fact of the symbol at a place.
    fn fact_at(
        &mut self,
        site: &Site<'a>,
        place: Place,
        symbol: &'a str,
    ) -> Result<Fact<'a>, AllocError>
        requires { AreRight site.now.queries.now site.now.sources.now self.old.facts.items }
        ensures right { AreRight site.now.queries.now site.now.sources.now self.new.facts.items }
        ensures tells { IfOk result (λ fact. Tells site.now.queries.now site.now.sources.now place.document symbol.now
            fact) }
    {
        let hinted = hint_at(&self.hints, place);
        match fact_for(site, &self.facts, hinted, place.document, symbol) {
            Some(fact) => Ok(fact),
            None => self.found(site, place.document, symbol),
        }
    }

    /// What is known of the symbol at a place.
    pub(crate) fn known_for(
        &mut self,
        alloc: Global,
        site: &Site<'a>,
        place: Place,
        symbol: &'a str,
    ) -> Result<Known, AllocError>
        requires { AreRight site.now.queries.now site.now.sources.now self.old.facts.items }
        ensures right { AreRight site.now.queries.now site.now.sources.now self.new.facts.items }
        ensures found { IfOk result (λ known. known ≡ spec.known_of site.now.queries.now site.now.sources.now
            place.document symbol.now) }
    {
        let fact = self.fact_at(site, place, symbol)?;
        known_by(alloc, site, &fact, place.document, symbol)
    }

    /// The entry of the symbol at a place.
    fn entry_for(
        &self,
        site: &Site<'a>,
        place: Place,
        symbol: &'a str,
    ) -> Option<&'a SymbolInformation>
        requires { AreRight site.now.queries.now site.now.sources.now self.now.facts.items }
        ensures { option_copied result ≡ entry_in site.now.queries.now place.document symbol.now }
    {
        let hinted = hint_at(&self.hints, place);
        match fact_for(site, &self.facts, hinted, place.document, symbol) {
            Some(fact) => fact.information,
            None => site.queries.entry_in(place.document, symbol),
        }
    }

    /// All that is said of the symbol at a place.
    pub(crate) fn label_for(
        &self,
        alloc: Global,
        site: &Site<'a>,
        place: Place,
    ) -> Result<Vec<u8>, AllocError>
        requires { AreRight site.now.queries.now site.now.sources.now self.now.facts.items }
        ensures { IfOk result (λ label. label.items ≡ spec.label_at site.now.queries.now place) }
    {
        let symbol = symbol_listed(site.queries.documents(), place);
        label_of(alloc, symbol, self.entry_for(site, place, symbol))
    }

    /// The places of all occurrences of the symbol at a place.
    pub(crate) fn places_for(&self, site: &Site<'a>, place: Place, symbol: &'a str) -> &'a [Place]
        requires { AreRight site.now.queries.now site.now.sources.now self.now.facts.items }
        ensures { result.now ≡ references_in site.now.queries.now place.document symbol.now }
    {
        let hinted = hint_at(&self.hints, place);
        match fact_for(site, &self.facts, hinted, place.document, symbol) {
            Some(fact) => fact.places,
            None => site.queries.references_in(place.document, symbol),
        }
    }
}
