//! The tree of a run's files: the sources, which are indexed, and the included files, to which
//! imports may lead; and reading a source to its end.
#![tactic(auto)]

// Files as they are handed in.
mod path;
mod reading;
mod source;

// The tree, and why there is none.
mod by_path;
mod counting;
mod fault;
mod mending;
mod tree;

// The laws.
mod laws;

pub use fault::TreeFault;
pub use laws::{
    one_reading, one_sorting_by_path, one_tree, other_bytes_are_in_comments,
    refusals_exclude_each_other, trees_are_not_refused,
};
pub use path::{MAX_PATH_LENGTH, is_good_folder, is_good_path};
pub use reading::read_source;
pub use source::Source;
pub use tree::{MAX_FILES, Tree};
