//! Occurrences and entries that are lent, so that what is spelled needn't be made of records.

ghost use Rattle.std.specs.Prelude.{◌≡◌, ◌++◌};
ghost use Rattle.scip_records.specs.Texts.{unless_empty};
ghost use Rattle.scip_records.specs.Details.{no_details};

use crate::details::Details;
use crate::range::Range;
use crate::records::{Occurrence, SymbolInformation};
use basics::OwnedText;
use std::marker::Model;

/// A symbol that is lent in two parts, so that what many symbols begin with is kept once.
///
/// Contracts see the text: the front, and the rest behind it.
#[derive(Debug, Drop)]
pub struct SymbolRef<'a> {
    /// What the text begins with; empty if the whole text is the rest.
    pub front: &'a str,
    /// What follows it.
    pub rest: &'a str,
}

impl<'a> Model for SymbolRef<'a> {
    ghost use Rattle.std.specs.Prelude.{List, ℕ, ◌++◌};

    ghost Value = { List ℕ };

    ghost view = { λ s. s.front.now ++ s.rest.now };
}

impl<'a> SymbolRef<'a> {
    /// A whole text, which has no front.
    pub fn whole(text: &'a str) -> SymbolRef<'a>
        ensures { result ≡ text.now }
    {
        SymbolRef {
            front: "",
            rest: text,
        }
    }
}

/// An occurrence, whose symbol is lent.
///
/// Contracts see the occurrence.
#[derive(Debug, Drop)]
pub struct OccurrenceRef<'a> {
    /// Where it is.
    pub range: Range,
    /// The symbol.
    pub symbol: SymbolRef<'a>,
    /// The bits of `Occurrence`.
    pub symbol_roles: i32,
    /// Where its declaration is, if that is known.
    pub enclosing_range: Option<Range>,
}

impl<'a> Model for OccurrenceRef<'a> {
    ghost use Rattle.scip_records.specs.declared.records.Occurrence.{Occurrence};

    ghost Value = { Occurrence };

    ghost view = { λ o. record {
      range = o.range;
      symbol = o.symbol;
      symbol_roles = o.symbol_roles;
      enclosing_range = o.enclosing_range;
    } };
}

impl<'a> OccurrenceRef<'a> {
    /// An occurrence, lent.
    pub fn of(occurrence: &'a Occurrence) -> OccurrenceRef<'a>
        ensures { result ≡ occurrence.now }
    {
        OccurrenceRef {
            range: occurrence.range,
            symbol: SymbolRef::whole(occurrence.symbol.as_str()),
            symbol_roles: occurrence.symbol_roles,
            enclosing_range: occurrence.enclosing_range,
        }
    }
}

/// Texts that are lent: a list of them, and behind it two more, of which an empty one isn't there.
///
/// Contracts see the list of the texts.
#[derive(Debug, Drop)]
pub struct TextsRef<'a> {
    listed: &'a [OwnedText],
    first: &'a str,
    second: &'a str,
}

impl<'a> Model for TextsRef<'a> {
    ghost use Rattle.std.specs.Prelude.{List, ℕ, ◌++◌};
    ghost use Rattle.scip_records.specs.Texts.{unless_empty};

    ghost Value = { List (List ℕ) };

    ghost view = { λ t. t.listed.now ++ (unless_empty t.first.now ++ unless_empty t.second.now) };
}

impl<'a> TextsRef<'a> {
    /// The texts of a list.
    pub fn of_list(listed: &'a [OwnedText]) -> TextsRef<'a>
        ensures { result ≡ listed.now }
    {
        TextsRef {
            listed,
            first: "",
            second: "",
        }
    }

    /// Two texts, of which an empty one isn't there.
    pub fn of_two(first: &'a str, second: &'a str) -> TextsRef<'a>
        ensures { result ≡ unless_empty first.now ++ unless_empty second.now }
    {
        TextsRef {
            listed: &[],
            first,
            second,
        }
    }

    /// The list, and the two behind it.
    pub fn parts(&self) -> (&'a [OwnedText], &'a str, &'a str)
        ensures { self.now ≡ result.0.now ++ (unless_empty result.1.now ++ unless_empty result.2.now) }
    {
        (self.listed, self.first, self.second)
    }
}

/// A signature, lent.
///
/// Contracts see the signature.
#[derive(Debug, Drop)]
pub struct SignatureRef<'a> {
    /// The name of the language.
    pub language: &'a str,
    /// The declaration's text.
    pub text: &'a str,
}

impl<'a> Model for SignatureRef<'a> {
    ghost use Rattle.scip_records.specs.declared.details.Signature.{Signature};

    ghost Value = { Signature };

    ghost view = { λ s. record { language = s.language.now; text = s.text.now } };
}

/// What is known of a symbol besides its documentation, lent.
///
/// Contracts see the details.
#[derive(Debug, Drop)]
pub struct DetailsRef<'a> {
    /// What it is, an enum.
    pub kind: i32,
    /// How it is declared.
    pub signature: SignatureRef<'a>,
    /// The symbol of what it is declared in.
    pub enclosing_symbol: SymbolRef<'a>,
}

impl<'a> Model for DetailsRef<'a> {
    ghost use Rattle.scip_records.specs.declared.details.Details.{Details};

    ghost Value = { Details };

    ghost view = { λ d. record { kind = d.kind; signature = d.signature; enclosing_symbol = d.enclosing_symbol } };
}

impl<'a> DetailsRef<'a> {
    /// No details.
    pub(crate) fn none() -> DetailsRef<'a>
        ensures { result ≡ no_details }
    {
        DetailsRef {
            kind: 0,
            signature: SignatureRef {
                language: "",
                text: "",
            },
            enclosing_symbol: SymbolRef::whole(""),
        }
    }

    /// Details, lent.
    pub(crate) fn of(details: &'a Details) -> DetailsRef<'a>
        ensures { result ≡ details.now }
    {
        DetailsRef {
            kind: details.kind,
            signature: SignatureRef {
                language: details.signature.language.as_str(),
                text: details.signature.text.as_str(),
            },
            enclosing_symbol: SymbolRef::whole(details.enclosing_symbol.as_str()),
        }
    }
}

/// What is known of a symbol, lent.
///
/// Contracts see the entry.
#[derive(Debug, Drop)]
pub struct InformationRef<'a> {
    /// The symbol.
    pub symbol: SymbolRef<'a>,
    /// The texts that document it.
    pub documentation: TextsRef<'a>,
    /// How it is shown.
    pub display_name: &'a str,
    /// What else is known of it, if anything is.
    pub details: Option<DetailsRef<'a>>,
}

impl<'a> Model for InformationRef<'a> {
    ghost use Rattle.scip_records.specs.declared.records.SymbolInformation.{SymbolInformation};
    ghost use Rattle.scip_records.specs.Details.{details_if_any};

    ghost Value = { SymbolInformation };

    ghost view = { λ i. record {
      symbol = i.symbol;
      documentation = i.documentation;
      display_name = i.display_name.now;
      details = details_if_any i.details;
    } };
}

impl<'a> InformationRef<'a> {
    /// An entry, lent.
    pub fn of(entry: &'a SymbolInformation) -> InformationRef<'a>
        ensures { result ≡ entry.now }
    {
        InformationRef {
            symbol: SymbolRef::whole(entry.symbol.as_str()),
            documentation: TextsRef::of_list(entry.documentation.as_slice()),
            display_name: entry.display_name.as_str(),
            details: entry.details.lent_if_any(),
        }
    }
}
