//! What each program of the command line does with its files, its streams and its exit status.
#![tactic(auto)]

// The programs, and what they run over.
mod host;
mod places;
mod running;

// `dump`: a source is read, indexed and listed.
mod dumping;

// The index that files hold, or why they hold none.
mod files_fault;
mod files_report;
mod index_fault;
mod index_files;

// `query`: an index is read from files, and answers commands.
mod query_fault;
mod querying;

// How commands are taken.
mod manners;

// What asks in one line.
mod asking;
mod surveying;

// `snapshot`: the sources of an index, with what the index says about them, are printed, or go to files.
mod show_faults;
mod snapshotting;

// `pages`: the sources of an index as pages, in a folder.
mod paging;
mod site_faults;

// `join`: one index of several goes to a file.
mod join_stop;
mod joining;

// The programs about a tree: what their options say of the run, and why there is no package or no tree.
mod choices;
mod ending;
mod folders;
mod imports;
mod listed_folders;
mod missing;
mod no_sources;
mod package;
mod settings;
mod start_explanations;
mod start_fault;
mod start_reports;
mod starting;
mod unread_paths;

// The list of sources, and the well-known files, where they are asked for.
mod list_places;
mod source_lists;
mod well_known;

// `index`: the index of a tree goes to a file, and its report, too.
mod asking_ahead;
mod indexing;
mod limits;
mod progress;
mod reporting;

// `shell`: the index of a tree answers commands.
mod serving;

// The laws.
mod laws;

// What is printed and said, and the exit status.
mod causes;
mod fault_texts;
mod messages;
mod output;
mod statuses;

pub use causes::explain_failure;
pub use choices::OptionChoices;
pub use host::Host;
pub use laws::headline_of_options;
pub use list_places::see_list;
pub use manners::{Prompting, manner_of, takes_commands};
pub use messages::report;
pub use places::Places;
pub use progress::{LineWiped, Progress};
pub use running::{is_synced, links_followed, out_path, report_path, run};
pub use source_lists::with_list;
pub use well_known::{variable, with_well_known};
