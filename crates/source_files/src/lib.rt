//! The files of a run: the sources below a root, the tree that they make with included files, the file that an
//! index is written to, files that are made by their paths, whether a folder is free for them, and folders that are
//! made whole; and why the system refuses a call.
#![tactic(auto)]

// From folders to a tree.
mod closure;
mod listed;
mod load;
mod load_fault;
mod root;
mod root_files;
mod taken;

// Which sources a list names.
mod source_list;

// Which files are there.
mod entry;
mod excluding;
mod folders;
mod found;
mod listing;
mod system_folders;
mod unread_entry;
mod walk;

// Where the well-known files are, and these alone.
mod find_files;
mod well_known;
mod with_well_known;

// What they hold, and import.
mod find_imports;
mod looking;
mod phases;
mod read_files;
mod readers;
mod reading;
mod system_files;

// Why the system refuses.
mod cause;
mod look_again;
mod second_look;
mod system_stream;

// Files that are made.
mod make_files;
mod out_file;
mod out_part;
mod out_place;
mod out_source;
mod out_way;

// Folders that are made.
mod empty_folders;
mod folder_in_place;
mod folder_place;
mod out_folder;

// The laws.
mod laws;

pub use cause::{Blamed, Cause, Caused};
pub use empty_folders::EmptyFolders;
pub use entry::FolderEntry;
pub use excluding::{Excluding, is_path_excluded};
pub use find_files::FindFiles;
pub use find_imports::{FindImports, FoundImport};
pub use folder_place::FolderPlace;
pub use laws::{
    listed_paths_stay_below, roots_have_one_listing, unknown_folders_are_listed_plainly,
    whole_roots_are_alike,
};
pub use listed::load_listed;
pub use listing::{FolderIdentity, FolderListing};
pub use load::{Loaded, LoadedTree, load_tree, load_tree_with_paths, once};
pub use load_fault::LoadFault;
pub use look_again::{LookAgain, PassedOver};
pub use make_files::MakeFiles;
pub use out_file::OutFile;
pub use out_folder::OutFolder;
pub use out_part::OutPart;
pub use out_place::OutPlace;
pub use out_source::is_read_from;
pub use read_files::ReadFiles;
pub use readers::Readers;
pub use root::read_root;
pub use root_files::RootFiles;
pub use source_list::{ListFault, ListedPath, MAX_LIST_LENGTH, listed_paths};
pub use system_files::SystemFiles;
pub use system_stream::SystemStream;
pub use unread_entry::UnreadEntry;
pub use well_known::well_known_folder;
pub use with_well_known::WithWellKnown;
