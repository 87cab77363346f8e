//! Which files see which, what clashes among their names, and who has which name.
#![tactic(auto)]

// Files to be linked, what they import, missing imports, which files each one sees, and what sources reach.
mod absent;
mod backward;
mod files;
mod import_table;
mod leading;
mod options;
mod reaching;
mod search;
mod seeing;

// Sets of files, in an order that keeps them small.
mod file_order;
mod rows;

// Their names, and which clash.
mod clash;
mod items;

// Who gives a name, and as what.
mod lookup;
mod names;

// Which files can be linked, and which are left out.
mod checked;
mod fault;
mod namespace;
mod omissions;

// The laws.
mod laws;

pub use checked::CheckedFiles;
pub use clash::Duplicates;
pub use fault::LinkFault;
pub use files::{FilePlace, LinkFile};
pub use import_table::have_own_paths;
pub use laws::{
    kept_files_are_clear, nothing_is_left_out_of_good_files, one_kept, parts_can_be_linked,
};
pub use lookup::{Entity, Role};
pub use names::ListedNames;
pub use namespace::Namespace;
pub use omissions::{FileOmission, left_out};
pub use options::OptionsIn;
