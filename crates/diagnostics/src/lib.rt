//! What people are shown of a fault in a source: the place by its line and column, its line with a part of it
//! marked, what its tokens spell, and what could be at the place where the parser meets something else.
#![tactic(auto)]

// A place: its line and column.
mod counter;
mod line;

// Its line, as it is shown, with a part of it marked.
mod characters;
mod excerpt;
mod shown;

// What its tokens spell.
mod gaps;
mod literals;
mod near;

// What could be at a fault of the parser.
mod answers;
mod candidates;
mod hints;
mod wording;

// The laws.
mod laws;

pub use counter::LineCounter;
pub use excerpt::{push_excerpt, push_met, push_quoted};
pub use gaps::behind_gap;
pub use hints::{MAX_FRONT, hint_text};
pub use laws::{characters_of_a_text, marks_stand_below, nothing_is_obeyed, short_lines_are_whole};
pub use line::{push_place, token_len};
pub use literals::{is_joined, push_joined};
pub use wording::MAX_TOLD;
