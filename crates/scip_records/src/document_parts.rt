//! Documents whose parts are lent one at a time.

ghost use Rattle.std.specs.Prelude.{◌≡◌, ◌<◌, Some, length};
ghost use Rattle.std.specs.List.{slice_get};
ghost use Rattle.scip_records.specs.Documents.{without_occurrences};

use crate::records::Document;
use crate::refs::{InformationRef, OccurrenceRef};
use basics::Sequence;
use std::alloc::Global;

/// A document whose parts are lent one at a time, be it made of records or not.
pub trait DocumentParts {
    ghost use Rattle.scip_records.specs.declared.records.Document.{Document};

    // The document of which these are the parts.
    ghost document: { Self → Document };

    /// The path from the project's root.
    fn relative_path(&self) -> &str
        ensures { result.now ≡ (document self.now).relative_path };

    /// How many occurrences it has.
    fn occurrence_count(&self) -> usize
        ensures { result ≡ length (document self.now).occurrences };

    /// The occurrence with this number, counted from 0.
    fn occurrence(&self, number: usize) -> OccurrenceRef<'_>
        requires { number < length (document self.now).occurrences }
        ensures { slice_get (document self.now).occurrences number ≡ Some result };

    /// How many entries it has.
    fn entry_count(&self) -> usize
        ensures { result ≡ length (document self.now).symbols };

    /// The entry with this number, counted from 0.
    fn entry(&self, number: usize) -> InformationRef<'_>
        requires { number < length (document self.now).symbols }
        ensures { slice_get (document self.now).symbols number ≡ Some result };

    /// The language.
    fn language(&self) -> &str
        ensures { result.now ≡ (document self.now).language };

    /// What columns count.
    fn position_encoding(&self) -> i32
        ensures { result ≡ (document self.now).position_encoding };

    /// Lets go of the occurrences. Takes no memory.
    fn let_occurrences_go(&mut self, alloc: Global)
        ensures { document self.new ≡ without_occurrences (document self.old) };
}

impl DocumentParts for Document {
    ghost document = { λ document. document };

    fn relative_path(&self) -> &str {
        self.relative_path.as_str()
    }

    fn occurrence_count(&self) -> usize {
        self.occurrences.as_slice().len()
    }

    fn occurrence(&self, number: usize) -> OccurrenceRef<'_> {
        OccurrenceRef::of(&self.occurrences.as_slice()[number])
    }

    fn entry_count(&self) -> usize {
        self.symbols.as_slice().len()
    }

    fn entry(&self, number: usize) -> InformationRef<'_> {
        InformationRef::of(&self.symbols.as_slice()[number])
    }

    fn language(&self) -> &str {
        self.language.as_str()
    }

    fn position_encoding(&self) -> i32 {
        self.position_encoding
    }

    fn let_occurrences_go(&mut self, alloc: Global) {
        self.occurrences = Sequence::new(alloc);
    }
}
