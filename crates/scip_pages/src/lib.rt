//! What is shown of an index's sources, for a person's eyes: the page of one source, with its occurrences as
//! links, and below it what it defines, and who uses that; its snapshot; and what both stand on: texts that
//! become no marks, columns in any position encoding, what of a line an occurrence marks, paths and URLs.
#![tactic(auto)]

// The page of a source.
mod document_page;
mod site;

// Its head, its code, and what it defines.
mod code_table;
mod crumbs;
mod definitions;
mod marks;
mod shown;
mod uses;

// Where its occurrences lead.
mod facts;
mod hover;
mod links;
mod page_urls;
mod places;

// Snapshots.
mod about;
mod snapshot_fault;
mod snapshots;

// Answers, for people.
mod told;
mod told_places;

// What both stand on: lines and columns, what is marked on a line, texts, numbers, paths and URLs.
mod code;
mod columns;
mod counted;
mod decimals;
mod escapes;
mod lines;
mod paths;
mod runs;
mod urls;

// The laws.
mod laws;
mod page_laws;

pub use code::{Link, cut, push_attribute, push_line};
pub use code_table::{line_at, numbers};
pub use columns::{ColumnUnit, offset_of, unit_of};
pub use counted::{Line, Lines};
pub use crumbs::{components_of, push_head};
pub use decimals::push_decimal;
pub use document_page::{Asked, page, page_and_firsts};
pub use escapes::push_escaped;
pub use facts::{Fact, Facts, Known};
pub use hover::MAX_HOVER;
pub use laws::{
    code_shows_the_source, columns_have_one_offset, escapes_become_no_marks, escapes_show_the_text,
    paths_stay_below, snapshots_have_their_source, the_narrowest_marks,
    units_are_those_of_their_encoding, urls_lead_to_their_pages,
};
pub use lines::{lines_of, misfit};
pub use marks::push_link;
pub use page_laws::{
    links_lead_to_places, pages_have_their_source, urls_are_those_of_links,
    uses_lead_to_definitions,
};
pub use page_urls::push_folder_id;
pub use paths::is_path_below;
pub use places::{line_listed, occurrence_listed, path_listed, symbol_listed};
pub use runs::{Run, Span, line_runs, span_on};
pub use shown::shown_symbol;
pub use site::{Site, has_page, page_path};
pub use snapshot_fault::SnapshotFault;
pub use snapshots::{is_definition, parts_of, push_flat, snapshot};
pub use told::{Source, has_path, paths_of, push_told};
pub use told_places::{place_path, placed};
pub use urls::{push_encoded, push_url};
pub use uses::marked_text;
