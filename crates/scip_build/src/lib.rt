//! From the files of a tree to its index: each file is read, what was read is linked, and the document
//! of each source is made.
#![tactic(auto)]

// From a tree to its index.
mod building;
mod built;
mod run;
mod settings;

// Why there is none, and what is done with faults.
mod fault;
mod faulty;
mod keeping;
mod telling;

// The first phase: files are parsed, and choices made.
mod choosing;
mod chosen;
mod file_parsing;
mod option_reading;
mod parsed_file;
mod phase_one;
mod read_form;
mod reading;

// The link.
mod linked_options;
mod linking;

// The second phase: documents are made.
mod document_form;
mod linked_sources;
mod phase_two;
mod placed_document;
mod source_document;

// What was made, put together.
mod made;
mod option_gaps;
mod parts;
mod unresolved_uses;
mod use_faults;

// The laws.
mod laws;

// What an index lacks.
mod omission;

pub use building::{build, build_in_form};
pub use built::Built;
pub use document_form::{AsRecords, DocumentForm};
pub use fault::{BuildFault, FileFault};
pub use faulty::Faulty;
pub use laws::{
    built_alike_if_kept, built_has_no_fault, certain_uses_resolve_alike, documents_are_in_order,
    faults_exclude_facts, kept_resolves_alike, nothing_is_left_out_of_a_good_tree,
    one_beside_a_file, one_build_fault, one_built, one_fault_a_file, one_first_faulty, one_linking,
    one_list_of_facts_a_file, one_told, parsed_files_exclude_faults, parsed_files_have_own_paths,
    parts_are_built_alike,
};
pub use linking::{link, linked_files};
pub use omission::Omission;
pub use parsed_file::{Contents, ParsedFile};
pub use parts::{BuiltParts, Parts};
pub use phase_one::parse_files;
pub use placed_document::PlacedDocument;
pub use proto_link::Duplicates;
pub use read_form::ReadForm;
pub use reading::as_read;
pub use run::Run;
pub use settings::Settings;
