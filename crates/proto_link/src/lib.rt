//! What a use of a type names, in files that are linked.
//!
//! Which files see which, what clashes and who has which name is the crate `proto_visibility`'s.
#![tactic(auto)]

// Files that are linked.
mod linker;

// Which name a use has, and what it names.
mod lookup;
mod parts;
mod resolve;
mod target;
mod uncertain;
mod uncertain_use;
mod use_faults;

// The laws.
mod laws;

pub use laws::{
    certain_resolves_alike, each_name_has_an_owner, mended_resolves_alike, no_use_is_ambiguous,
    one_broken_file, one_declaration_a_name, one_name_a_use, one_omission_list, one_refusal,
    one_target_a_use, parts_resolve_alike, uncertain_may_change,
};
pub use linker::Linker;
pub use proto_visibility::{
    CheckedFiles, Duplicates, Entity, FileOmission, FilePlace, LinkFault, LinkFile, ListedNames,
    OptionsIn, Role, have_own_paths, kept_files_are_clear, left_out,
    nothing_is_left_out_of_good_files, one_kept,
};
pub use target::Target;
pub use uncertain::is_farther_out;
pub use uncertain_use::UncertainUse;
