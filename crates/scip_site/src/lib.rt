//! What is made of a whole index whose sources are files below a root: a folder of pages, for a browser, with a
//! first page from which they are found; and snapshots, printed or each in a file of its own. A document whose
//! source isn't there, or whose ranges don't fit it, is reported and left out.
#![tactic(auto)]

// A folder of pages.
mod making;
mod site_fault;

// The sources of its documents, and why one has no page.
mod no_page;
mod page_outcome;
mod reading;
mod repeats;

// The first page, and what all pages share.
mod listing;
mod order;
mod script;
mod styles;
mod tree;

// Snapshots, printed or in files.
mod filing;
mod printing;
mod show_fault;

// The sources of some documents.
mod sources;

// What becomes of each document.
mod left_out;
mod snapshot_outcome;

// The laws.
mod folder_laws;
mod laws;

pub use filing::{Folders, file_all};
pub use folder_laws::{
    documents_with_pages_are_good, folders_have_their_pages, quotes_show_the_text,
    urls_lead_to_files,
};
pub use laws::{
    folders_have_places, pages_have_their_own_places, shared_files_are_alone, trees_show_folders,
};
pub use left_out::{LeftOut, line_with, say};
pub use making::make_pages;
pub use printing::print_all;
pub use show_fault::ShowFault;
pub use site_fault::SiteFault;
pub use snapshot_outcome::path_in;
pub use sources::{sources_for, sources_of};
