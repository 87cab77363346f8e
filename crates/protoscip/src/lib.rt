//! From a tree of `.proto` sources to the bytes of its SCIP index, and to answers about it: over readers and
//! writers, with no files. The program `embedding` shows how it is called.
#![tactic(auto)]

// The index of a tree.
mod as_bytes;
mod indexing;
mod laws;
mod recorded;

// The listing of one source.
mod dumping;
mod listing;
mod output;

// Answers to commands about the index of a tree.
mod answering;
mod reading_back;
mod sessions;

// Why a run stops: the fault, its name, sentence and status (`fault_texts`), and the line that says it.
mod fault;
mod fault_lines;
mod fault_texts;
mod lines;
mod statuses;

// What is added to that line if it is to be explained.
mod explaining;
mod required;
mod sentences;
mod tree_counter;

// What an index lacks.
mod findings;
mod telling;
mod told_lines;
mod told_trees;
mod unread;

pub use answering::{answer_commands, answer_commands_in};
pub use dumping::{SOURCE_PATH, dump, dump_and_keep, dump_tree, dump_with};
pub use explaining::{explain_in, fault_text};
pub use fault::Fault;
pub use fault_lines::fault_line;
pub use findings::{
    all_findings, counts_of, counts_with, finding_of, findings_come_once, refused_findings,
    told_findings,
};
pub use indexing::{KeptIndex, index_and_keep, index_and_tell, index_tree};
pub use laws::{
    built_has_files, each_option_name_has_parts, each_use_has_a_target, headline,
    indexed_has_no_fault, laws_of_names, listed_unless_memory, one_fault, one_indexing,
    one_listing, parts_make_the_whole,
};
pub use lines::{path_line, placed_line, plain_line};
pub use output::write_text;
pub use recorded::Recorded;
pub use sessions::{Talk, session, session_in};
pub use statuses::{MEMORY_STATUS, SOURCES_STATUS, STREAM_STATUS};
pub use telling::{
    Telling, Tells, count_imports, count_left_out, count_skipped, count_skipped_sources,
    count_uses, omits_nothing, told_text, told_text_with,
};
pub use told_lines::told_line;
pub use told_trees::told_of_tree;
pub use unread::{UnreadPath, bad_path_sentence};

// What is made below, for whoever embeds the indexer. (To read an index, `scip_wire` and `scip_query` are needed, too.)
// Sources and settings,
pub use basics::{OwnedText, Sequence};
pub use comment_texts::CommentForm;
pub use proto_lex::Encoding;
pub use proto_parse::{CustomOptions, Dialect};
pub use scip_build::{Built, Duplicates, Faulty, Run, Settings, as_read, build};
pub use scip_model::{Choices, FilePackages, RootPackage};
pub use scip_query::Manner;
pub use scip_symbol::{BadPart, PackageId};
pub use source_tree::{Source, Tree, TreeFault, is_good_path};

// reports,
pub use fault_reports::{Counts, Finding, FindingKind, Place, ReportFormat, report_bytes};

// callbacks and their promises,
pub use index_hooks::{
    AnyAnswer, BoxedFilter, BoxedRule, Choice, Chooses, DocAlways, DocCallback, DocChoice, DocHook,
    DocOneOf, DocPromise, DocRule, Filter, FilterCallback, FilterHook, FilterPromise, HookFault,
    KindIn, Kinds, NamePrefix, Registry, Turn, WithComment,
};
pub use proto_decl::{DeclView, DeclarationKind};

// threads and streams,
pub use index_pool::{Gate, MAX_WORKERS, NoGate, Workers};
pub use streams::{Failed, Feed, Sink, Std};

// and what a fault holds.
pub use proto_lex::{LexFault, Span};
pub use proto_link::FilePlace;
pub use proto_parse::SyntaxFault;
pub use scip_build::{BuildFault, FileFault, Omission};
