//! The records of a SCIP index.
#![tactic(auto)]

// The records, where an occurrence is, and what is known of a symbol besides its documentation.
mod details;
mod range;
mod records;

// The same without a copy: parts of a document, one at a time.
mod document_parts;
mod from_parts;
mod refs;

pub use details::{BoxedDetails, Details, Signature};
pub use document_parts::DocumentParts;
pub use from_parts::records_of;
pub use range::{MAX_RANGE_NUMBER, Range};
pub use records::{Document, Index, Metadata, Occurrence, SymbolInformation, ToolInfo};
pub use refs::{DetailsRef, InformationRef, OccurrenceRef, SignatureRef, SymbolRef, TextsRef};
