//! The texts of comments: as they are, or cleaned of the signs and blanks by which people set them off.
#![tactic(auto)]

// What is cut from a line.
mod lines;

// What is between the marks of a comment, and its lines.
mod comment;

// The text of comments, cleaned.
mod cleaned;
mod joined;

// What is shown of NULs.
mod nul;

// Whether texts are given so, or as they are written.
mod form;

pub use cleaned::clean_text;
pub use comment::between_marks;
pub use form::CommentForm;
pub use joined::push_next_line;
pub use nul::without_nul;
