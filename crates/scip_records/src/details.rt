//! What an index can say of a symbol besides its documentation.

ghost use Rattle.std.specs.Prelude.{◌≡◌, IfOk, OnOk};
ghost use Rattle.scip_records.specs.Details.{
  no_signature,
  no_details,
  details_if_any,
  with_kind,
  with_signature,
  with_enclosing_symbol,
};

use crate::refs::DetailsRef;
use basics::OwnedText;
use std::alloc::{AllocError, Global};
use std::marker::Model;

/// How a symbol is declared (`scip.proto`, `SymbolInformation.signature_documentation`, a `Document` of which the
/// language and the text are kept). One without either isn't there.
#[derive(Debug, Drop)]
pub struct Signature {
    /// The name of the language.
    pub language: OwnedText,
    /// The declaration's text.
    pub text: OwnedText,
}

impl Signature {
    /// The signature that isn't there. Takes no memory.
    pub fn none(alloc: Global) -> Signature
        ensures { result ≡ no_signature }
    {
        Signature {
            language: OwnedText::new(alloc),
            text: OwnedText::new(alloc),
        }
    }
}

/// What is known of a symbol besides its documentation (`scip.proto`, `SymbolInformation`).
#[derive(Debug, Drop)]
pub struct Details {
    /// What it is, an enum: 0 is unspecified.
    pub kind: i32,
    /// How it is declared.
    pub signature: Signature,
    /// The symbol of what it is declared in; empty if that isn't known.
    pub enclosing_symbol: OwnedText,
}

/// Where details are.
#[derive(Debug, Drop)]
pub(crate) enum DetailPlace {
    /// There are none.
    Nowhere,
    /// In a box of their own.
    Boxed(Box<Details>),
}

/// Details of a symbol, in a box of their own if there are any: a symbol without details takes two words for them.
///
/// Contracts see the details.
#[derive(Debug, Drop)]
pub struct BoxedDetails {
    place: DetailPlace,
}

impl Model for BoxedDetails {
    ghost use Rattle.scip_records.specs.declared.details.Details.{Details};
    ghost use Rattle.scip_records.specs.DetailPlaces.{details_at};

    ghost Value = { Details };

    ghost view = { λ boxed. details_at boxed.place };
}

impl BoxedDetails {
    /// No details. Takes no memory.
    pub fn none() -> BoxedDetails
        ensures { result ≡ no_details }
    {
        BoxedDetails {
            place: DetailPlace::Nowhere,
        }
    }

    /// These details, in a box. An error means that memory was refused.
    pub fn boxed(alloc: Global, details: Details) -> Result<BoxedDetails, AllocError>
        ensures { IfOk result (λ boxed. boxed ≡ details) }
    {
        let details = Box::new(alloc, details)?;
        Ok(BoxedDetails {
            place: DetailPlace::Boxed(details),
        })
    }

    /// Puts a kind in the place of an earlier one. An error means that memory was refused.
    pub fn set_kind(&mut self, alloc: Global, kind: i32) -> Result<(), AllocError>
        ensures { OnOk result (self.new ≡ with_kind kind self.old) }
    {
        match &mut self.place {
            DetailPlace::Boxed(details) => details.kind = kind,
            DetailPlace::Nowhere => {
                let details = Details {
                    kind,
                    signature: Signature::none(alloc),
                    enclosing_symbol: OwnedText::new(alloc),
                };
                self.place = DetailPlace::Boxed(Box::new(alloc, details)?);
            }
        }
        Ok(())
    }

    /// Puts a signature in the place of an earlier one. An error means that memory was refused.
    pub fn set_signature(&mut self, alloc: Global, signature: Signature) -> Result<(), AllocError>
        ensures { OnOk result (self.new ≡ with_signature signature self.old) }
    {
        match &mut self.place {
            DetailPlace::Boxed(details) => details.signature = signature,
            DetailPlace::Nowhere => {
                let details = Details {
                    kind: 0,
                    signature,
                    enclosing_symbol: OwnedText::new(alloc),
                };
                self.place = DetailPlace::Boxed(Box::new(alloc, details)?);
            }
        }
        Ok(())
    }

    /// Puts an enclosing symbol in the place of an earlier one. An error means that memory was refused.
    pub fn set_enclosing_symbol(
        &mut self,
        alloc: Global,
        symbol: OwnedText,
    ) -> Result<(), AllocError>
        ensures { OnOk result (self.new ≡ with_enclosing_symbol symbol self.old) }
    {
        match &mut self.place {
            DetailPlace::Boxed(details) => details.enclosing_symbol = symbol,
            DetailPlace::Nowhere => {
                let details = Details {
                    kind: 0,
                    signature: Signature::none(alloc),
                    enclosing_symbol: symbol,
                };
                self.place = DetailPlace::Boxed(Box::new(alloc, details)?);
            }
        }
        Ok(())
    }

    /// The details, lent, if there are any.
    pub fn lent_if_any(&self) -> Option<DetailsRef<'_>>
        ensures { details_if_any result ≡ self.now }
    {
        match &self.place {
            DetailPlace::Boxed(details) => Some(DetailsRef::of(details)),
            DetailPlace::Nowhere => None,
        }
    }

    /// The details, lent.
    pub fn lent(&self) -> DetailsRef<'_>
        ensures { result ≡ self.now }
    {
        match &self.place {
            DetailPlace::Boxed(details) => DetailsRef::of(details),
            DetailPlace::Nowhere => DetailsRef::none(),
        }
    }
}
