//! What the entry of a symbol says besides its documentation.

ghost use Rattle.std.specs.Prelude.{◌≡◌, Some, option_copied};
ghost use Rattle.std.specs.List.{slice_get};
ghost use Rattle.scip_query.specs.Entries.{entry_of, shown_name, kind_in, signature_in, signature_at};
ghost use Rattle.scip_query.specs.Outcomes.{GivesAtOnce};
ghost use Rattle.scip_query.specs.Views.{subject_view};

use crate::position::Position;
use crate::queries::{Queries, Subject};
use crate::query_fault::{QueryFault, fault_of};
use scip_records::SymbolInformation;

/// The display name of an entry; no text if there is none.
fn name_in(entry: Option<&SymbolInformation>) -> &str
    ensures { result.now ≡ shown_name (option_copied entry.entry) }
{
    match entry {
        Some(entry) => entry.display_name.as_str(),
        None => "",
    }
}

/// The kind of an entry (`scip.proto`, `SymbolInformation.Kind`); 0 if there is none.
pub fn kind_in(entry: Option<&SymbolInformation>) -> i32
    ensures { result ≡ kind_in (option_copied entry.entry) }
{
    match entry {
        Some(entry) => entry.details.lent().kind,
        None => 0,
    }
}

/// The signature's text of an entry; no text if there is no entry, or it doesn't say.
pub fn signature_in(entry: Option<&SymbolInformation>) -> &str
    ensures { result.now ≡ signature_in (option_copied entry.entry) }
{
    match entry {
        Some(entry) => entry.details.lent().signature.text,
        None => "",
    }
}

impl Queries {
    /// How a subject's symbol is shown; no text if it has no entry.
    pub(crate) fn shown_name(&self, subject: &Subject<'_>) -> &str
        requires { slice_get self.now.documents subject.now.asked.number ≡ Some subject.now.asked.document.now }
        ensures { result.now ≡ shown_name (entry_of self.now (subject_view subject.now)) }
    {
        name_in(self.entry_of(subject))
    }

    /// The kind of a subject's symbol; 0 if it has no entry.
    pub(crate) fn kind_of(&self, subject: &Subject<'_>) -> i32
        requires { slice_get self.now.documents subject.now.asked.number ≡ Some subject.now.asked.document.now }
        ensures { result ≡ kind_in (entry_of self.now (subject_view subject.now)) }
    {
        kind_in(self.entry_of(subject))
    }

    /// How a subject's symbol is declared; no text if it has no entry, or that doesn't say.
    pub(crate) fn signature_of(&self, subject: &Subject<'_>) -> &str
        requires { slice_get self.now.documents subject.now.asked.number ≡ Some subject.now.asked.document.now }
        ensures { result.now ≡ signature_in (entry_of self.now (subject_view subject.now)) }
    {
        signature_in(self.entry_of(subject))
    }

    /// How the symbol at a position is declared: the text of the signature in its first entry; no text if it has none.
    /// Entries are looked for as by `documentation`, and the refusals are those of `references`, without `Memory`.
    pub fn signature(&self, path: &str, line: u32, column: u32) -> Result<&str, QueryFault>
        ensures { GivesAtOnce (λ text. text.now) result (signature_at self.now path.now
            (record { line = line; column = column })) }
    {
        match self.subject_at(path, Position { line, column }) {
            Ok(subject) => Ok(self.signature_of(&subject)),
            Err(miss) => Err(fault_of(miss)),
        }
    }
}
