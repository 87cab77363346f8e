//! What programs are told. Each option has a file: its name, words, default, text of help, and how it is read.

ghost use Rattle.std.specs.Prelude.{◌≡◌, ◌++◌, IfOk, OnOk, map, string_bytes};
ghost use Rattle.clap.specs.Words.{found_of, rows_of, rule_of};
ghost use Rattle.command_line.specs.Options.{
  AreListed,
  Carries,
  CarriesAsk,
  CarriesDump,
  CarriesIndex,
  CarriesJoin,
  CarriesPages,
  CarriesQuery,
  CarriesShell,
  CarriesSnapshot,
  choice_rules,
  index_option_rules,
  own_rules,
  reading_rules,
  search_rules,
  setting_rules,
  tree_rules,
};
ghost use Rattle.command_line.specs.Verbs.{asked_of};

pub(crate) mod accept;
pub(crate) mod also;
pub(crate) mod at;
mod comments;
pub(crate) mod custom_options;
mod details;
mod doc;
mod duplicates;
mod exclude;
pub(crate) mod explain;
mod faulty;
mod include;
pub(crate) mod joined_root;
pub(crate) mod json;
mod limits;
mod links;
pub(crate) mod more;
mod only;
pub(crate) mod options_linked;
mod package;
mod positions;
mod project_root;
mod quiet;
mod real;
pub(crate) mod replace;
pub(crate) mod report;
pub(crate) mod root;
pub(crate) mod sources;
pub(crate) mod sync;
pub(crate) mod to;
mod well_known;
mod workers;

use crate::names::{INDEX_FILE, OUT, ROOT};
use crate::options::accept::dialect_of;
use crate::options::also::indexes_of;
use crate::options::comments::comments_of;
use crate::options::details::details_in;
use crate::options::doc::doc_of;
use crate::options::duplicates::duplicates_of;
use crate::options::explain::explains_in;
use crate::options::faulty::faulty_of;
use crate::options::include::package_folders_of;
use crate::options::json::json_in;
use crate::options::limits::limits_of;
use crate::options::links::links_of;
use crate::options::more::more_in;
use crate::options::options_linked::links_options;
use crate::options::positions::encoding_of;
use crate::options::quiet::quiet_in;
use crate::options::real::is_real;
use crate::options::replace::replaces_in;
use crate::options::report::report_options_of;
use crate::options::sources::sources_of;
use crate::options::sync::sync_in;
use crate::options::well_known::well_known_in;
use crate::options::workers::workers_of;
use crate::values::{optional_text_of, text_of, texts_of};
use crate::verb::Verb;
use clap::{Arg, ArgMatches};
use comment_texts::CommentForm;
pub use include::PackageFolder;
use index_hooks::DocChoice;
use index_pool::Workers;
pub use limits::Limits;
pub use links::Links;
use proto_lex::Encoding;
use proto_parse::Dialect;
pub use report::ReportOptions;
use scip_build::{Duplicates, Faulty};
pub use sources::{STANDARD_INPUT, SourceList};
use std::alloc::{AllocError, Global};

/// The lists of words of the options that take only listed words.
#[derive(Clone, Copy)]
pub(crate) struct WordLists<'a> {
    pub(crate) doc: &'a [&'a str],
    pub(crate) comments: &'a [&'a str],
    pub(crate) positions: &'a [&'a str],
    pub(crate) accept: &'a [&'a str],
    pub(crate) custom_options: &'a [&'a str],
    pub(crate) options: &'a [&'a str],
    pub(crate) faulty: &'a [&'a str],
    pub(crate) duplicates: &'a [&'a str],
    pub(crate) links: &'a [&'a str],
    pub(crate) report_format: &'a [&'a str],
}

impl<'a> WordLists<'a> {
    /// The words of each of these options.
    pub(crate) fn new() -> WordLists<'a>
        ensures { AreListed result }
    {
        WordLists {
            doc: doc::WORDS.as_slice(),
            comments: comments::WORDS.as_slice(),
            positions: positions::WORDS.as_slice(),
            accept: accept::WORDS.as_slice(),
            custom_options: custom_options::WORDS.as_slice(),
            options: options_linked::WORDS.as_slice(),
            faulty: faulty::WORDS.as_slice(),
            duplicates: duplicates::WORDS.as_slice(),
            links: links::WORDS.as_slice(),
            report_format: report::WORDS.as_slice(),
        }
    }
}

/// The values of the argument ROOT and of the options of `index` and `shell`: of one that isn't given its default.
#[derive(Debug, Drop)]
pub struct IndexOptions {
    /// The path of the folder whose sources are indexed, as it was written.
    pub root: String,
    /// Whether the tree is taken as it lies.
    pub is_real: bool,
    /// How many threads.
    pub workers: Workers,
    /// Where the sources' folder is, as a URI; `file:///` if it isn't given.
    pub project_root: String,
    /// The folder that the documents' paths are below, empty if it isn't given.
    pub at: String,
    /// The package's manager, empty if it isn't given.
    pub manager: String,
    /// The package's name, empty if it isn't given.
    pub package: String,
    /// The package's release, empty if it isn't given.
    pub release: String,
    /// The full name below which declarations are kept; `None` if all are.
    pub only: Option<String>,
    /// Which comments document a declaration, if it is given.
    pub doc: Option<DocChoice>,
    /// How the texts of comments are given; as they are written if it isn't given.
    pub comments: CommentForm,
    /// Whether it is told what declarations are.
    pub details: bool,
    /// The paths of the folders with included files, in the order of the words.
    pub include: Vec<String>,
    /// The folders with included files that have a package of their own, in the order of the words.
    pub include_packages: Vec<PackageFolder>,
    /// Whether the well-known files are included.
    pub well_known: bool,
    /// The unit of columns; UTF-8 if it isn't given.
    pub encoding: Encoding,
    /// Which sources are read; proto3 alone, and custom options refused, if it isn't given.
    pub dialect: Dialect,
    /// Whether names in options are linked; they aren't if it isn't given.
    pub links_options: bool,
    /// What is done about a tree with faults; it is refused if it isn't given.
    pub faulty: Faulty,
    /// Whether several files may give one name; they may not if it isn't given.
    pub duplicates: Duplicates,
    /// Whether a fault is explained.
    pub explain: bool,
    /// What is left out of the folders, in the order of the words.
    pub exclude: Vec<String>,
    /// What is done about links below the folders; they are passed over if it isn't given.
    pub links: Links,
    /// The list of the sources; they are those below the root if it isn't given.
    pub sources: Option<SourceList>,
    /// The report that is made.
    pub report: ReportOptions,
}

/// What `index` is given: its argument OUT and the options of its own are beside the rest.
#[derive(Debug, Drop)]
pub struct IndexRequest {
    /// What `shell` can be given, too.
    pub options: IndexOptions,
    /// The path of the file that the index goes to.
    pub out: String,
    /// Whether it isn't shown how far the run is.
    pub quiet: bool,
    /// Whether the disk is to have the file, and the report, before the run ends.
    pub sync: bool,
    /// The limits that the index has to keep.
    pub limits: Limits,
}

/// What `shell` is given.
#[derive(Debug, Drop)]
pub struct ShellRequest {
    /// What `index` can be given, too.
    pub options: IndexOptions,
    /// Whether more commands are known.
    pub more: bool,
}

/// What `query` is given.
#[derive(Debug, Drop)]
pub struct QueryOptions {
    /// The paths of the files that hold the indexes, in the order of the words.
    pub indexes: Vec<String>,
    /// Whether a fault is explained.
    pub explain: bool,
    /// Whether more commands are known.
    pub more: bool,
    /// Whether each answer is an object of JSON.
    pub json: bool,
}

/// What a program is given that asks in one line.
#[derive(Debug, Drop)]
pub struct AskOptions {
    /// What is asked.
    pub verb: Verb,
    /// The paths of the files that hold the indexes: INDEX, and those of `--also` in the order of the words.
    pub indexes: Vec<String>,
    /// What it is asked about.
    pub asked: String,
    /// The folder below which the sources of its documents are; no sources are read if it isn't given.
    pub root: Option<String>,
    /// Whether the answer is an object of JSON.
    pub json: bool,
    /// Whether a fault is explained.
    pub explain: bool,
}

/// What `dump` is given.
#[derive(Clone, Copy, Debug, PartialEq, Eq)]
pub struct DumpOptions {
    /// Which sources are read; proto3 alone, and custom options refused, if it isn't given.
    pub dialect: Dialect,
    /// Whether a fault is explained.
    pub explain: bool,
}

/// What `snapshot` is given.
#[derive(Debug, Drop)]
pub struct SnapshotOptions {
    /// The paths of the files that hold the indexes: INDEX, and those of `--also` in the order of the words.
    pub indexes: Vec<String>,
    /// The folder below which the sources of its documents are.
    pub root: String,
    /// The folder below which each snapshot goes to a file of its own; they are printed if it isn't given.
    pub to: Option<String>,
    /// Whether a fault is explained.
    pub explain: bool,
}

/// What `pages` is given.
#[derive(Debug, Drop)]
pub struct PagesOptions {
    /// The paths of the files that hold the indexes: INDEX, and those of `--also` in the order of the words.
    pub indexes: Vec<String>,
    /// The folder below which the sources of its documents are.
    pub root: String,
    /// The folder that the pages go to.
    pub out: String,
    /// Whether a fault is explained.
    pub explain: bool,
}

/// What `join` is given.
#[derive(Debug, Drop)]
pub struct JoinOptions {
    /// The path of the file that the join goes to.
    pub out: String,
    /// The paths of the files that hold the indexes, in the order of the words.
    pub indexes: Vec<String>,
    /// Where the sources' folder is, as a URI; all indexes have to name the same folder if it isn't given.
    pub project_root: Option<String>,
    /// Whether a document takes the place of an earlier one with its path.
    pub replace: bool,
    /// Whether the disk is to have the file before the run ends.
    pub sync: bool,
    /// Whether a fault is explained.
    pub explain: bool,
}

/// The options of `index` alone.
fn own_options<'a>(alloc: Global) -> Result<Vec<Arg<'a>>, AllocError>
    ensures { IfOk result (λ args. map rule_of args.items ≡ own_rules) }
{
    Ok(vec![in alloc;
        quiet::arg(alloc),
        sync::arg(alloc),
        limits::max_skipped(alloc),
        limits::min_sources(alloc),
    ]?)
}

/// The option for trees as they lie, and those on the run, on where the sources are, and on the package.
fn settings<'a>(alloc: Global) -> Result<Vec<Arg<'a>>, AllocError>
    ensures { IfOk result (λ args. map rule_of args.items ≡ setting_rules) }
{
    Ok(vec![in alloc;
        real::arg(alloc),
        workers::arg(alloc),
        project_root::arg(alloc),
        at::arg(alloc),
        package::manager(alloc),
        package::package(alloc),
        package::release(alloc),
    ]?)
}

/// The options on what is indexed.
fn choices<'a>(alloc: Global, lists: WordLists<'a>) -> Result<Vec<Arg<'a>>, AllocError>
    ensures { IfOk result (λ args. map rule_of args.items ≡ choice_rules lists.entry) }
{
    Ok(vec![in alloc;
        only::arg(alloc),
        doc::arg(alloc, lists.doc),
        comments::arg(alloc, lists.comments),
        details::arg(alloc),
        include::include(alloc),
        include::include_package(alloc),
        well_known::arg(alloc),
    ]?)
}

/// The options on how it is read.
fn readings<'a>(alloc: Global, lists: WordLists<'a>) -> Result<Vec<Arg<'a>>, AllocError>
    ensures { IfOk result (λ args. map rule_of args.items ≡ reading_rules lists.entry) }
{
    Ok(vec![in alloc;
        positions::arg(alloc, lists.positions),
        accept::arg(alloc, lists.accept),
        custom_options::arg(alloc, lists.custom_options),
        options_linked::arg(alloc, lists.options),
        faulty::arg(alloc, lists.faulty),
        duplicates::arg(alloc, lists.duplicates),
        explain::arg(alloc),
        explain::refused(alloc),
    ]?)
}

/// The options on how folders are searched, and on the report.
fn searching<'a>(alloc: Global, lists: WordLists<'a>) -> Result<Vec<Arg<'a>>, AllocError>
    ensures { IfOk result (λ args. map rule_of args.items ≡ search_rules lists.entry) }
{
    Ok(vec![in alloc;
        exclude::arg(alloc),
        links::arg(alloc, lists.links),
        sources::arg(alloc),
        report::report(alloc),
        report::report_format(alloc, lists.report_format),
    ]?)
}

/// Adds the options that the programs about a tree share.
pub(crate) fn add_tree_options<'a>(
    alloc: Global,
    args: &mut Vec<Arg<'a>>,
    lists: WordLists<'a>,
) -> Result<(), AllocError>
    ensures { OnOk result (map rule_of args.new.items ≡ map rule_of args.old.items ++ tree_rules lists.entry) }
{
    args.append(&mut settings(alloc)?)?;
    args.append(&mut choices(alloc, lists)?)?;
    args.append(&mut readings(alloc, lists)?)?;
    args.append(&mut searching(alloc, lists)?)?;
    Ok(())
}

/// Adds the options of `index`: its own, and those that the programs about a tree share.
pub(crate) fn add_index_options<'a>(
    alloc: Global,
    args: &mut Vec<Arg<'a>>,
    lists: WordLists<'a>,
) -> Result<(), AllocError>
    ensures { OnOk result (map rule_of args.new.items ≡ map rule_of args.old.items ++ index_option_rules lists.entry) }
{
    args.append(&mut own_options(alloc)?)?;
    add_tree_options(alloc, args, lists)?;
    Ok(())
}

/// What a program about a tree is given.
pub(crate) fn options_of(
    alloc: Global,
    on_terminal: bool,
    given: &ArgMatches<'_>,
) -> Result<IndexOptions, AllocError>
    ensures { IfOk result (Carries on_terminal (rows_of (found_of given.now))) }
{
    Ok(IndexOptions {
        root: text_of(alloc, given, ROOT)?,
        is_real: is_real(given),
        workers: workers_of(given),
        project_root: text_of(alloc, given, project_root::NAME)?,
        at: text_of(alloc, given, at::NAME)?,
        manager: text_of(alloc, given, package::MANAGER)?,
        package: text_of(alloc, given, package::PACKAGE)?,
        release: text_of(alloc, given, package::RELEASE)?,
        only: optional_text_of(alloc, given, only::NAME)?,
        doc: doc_of(given),
        comments: comments_of(given),
        details: details_in(given),
        include: texts_of(alloc, given, include::INCLUDE)?,
        include_packages: package_folders_of(alloc, given)?,
        well_known: well_known_in(given),
        encoding: encoding_of(given),
        dialect: dialect_of(given),
        links_options: links_options(given),
        faulty: faulty_of(given),
        duplicates: duplicates_of(given),
        explain: explains_in(on_terminal, given),
        exclude: texts_of(alloc, given, exclude::NAME)?,
        links: links_of(given),
        sources: sources_of(alloc, given)?,
        report: report_options_of(alloc, given)?,
    })
}

/// What `index` is given.
pub(crate) fn index_request_of(
    alloc: Global,
    on_terminal: bool,
    given: &ArgMatches<'_>,
) -> Result<IndexRequest, AllocError>
    ensures { IfOk result (CarriesIndex on_terminal (rows_of (found_of given.now))) }
{
    Ok(IndexRequest {
        options: options_of(alloc, on_terminal, given)?,
        out: text_of(alloc, given, OUT)?,
        quiet: quiet_in(given),
        sync: sync_in(given),
        limits: limits_of(given),
    })
}

/// What `shell` is given.
pub(crate) fn shell_request_of(
    alloc: Global,
    on_terminal: bool,
    given: &ArgMatches<'_>,
) -> Result<ShellRequest, AllocError>
    ensures { IfOk result (CarriesShell on_terminal (rows_of (found_of given.now))) }
{
    Ok(ShellRequest {
        options: options_of(alloc, on_terminal, given)?,
        more: more_in(given),
    })
}

/// What `query` is given.
pub(crate) fn query_options_of(
    alloc: Global,
    on_terminal: bool,
    given: &ArgMatches<'_>,
) -> Result<QueryOptions, AllocError>
    ensures { IfOk result (CarriesQuery on_terminal (rows_of (found_of given.now))) }
{
    let indexes = texts_of(alloc, given, INDEX_FILE)?;
    Ok(QueryOptions {
        indexes,
        explain: explains_in(on_terminal, given),
        more: more_in(given),
        json: json_in(given),
    })
}

/// What is asked about; no text where nothing is.
fn asked_of(alloc: Global, verb: Verb, given: &ArgMatches<'_>) -> Result<String, AllocError>
    ensures { IfOk result (λ text. string_bytes text ≡ asked_of verb (rows_of (found_of given.now))) }
{
    match verb {
        Verb::Stats | Verb::Lint => Ok(String::new(alloc)),
        _ => text_of(alloc, given, verb.argument()),
    }
}

/// What a program is given that asks this in one line.
pub(crate) fn ask_options_of(
    alloc: Global,
    verb: Verb,
    on_terminal: bool,
    given: &ArgMatches<'_>,
) -> Result<AskOptions, AllocError>
    ensures carries { IfOk result (CarriesAsk on_terminal (rows_of (found_of given.now))) }
    ensures verb { IfOk result (λ options. options.verb ≡ verb) }
{
    let files = indexes_of(alloc, given)?;
    let asked = asked_of(alloc, verb, given)?;
    Ok(AskOptions {
        verb,
        indexes: files,
        asked,
        root: optional_text_of(alloc, given, root::NAME)?,
        json: json_in(given),
        explain: explains_in(on_terminal, given),
    })
}

/// What `dump` is given.
pub(crate) fn dump_options_of(on_terminal: bool, given: &ArgMatches<'_>) -> DumpOptions
    ensures { CarriesDump on_terminal (rows_of (found_of given.now)) result }
{
    DumpOptions {
        dialect: dialect_of(given),
        explain: explains_in(on_terminal, given),
    }
}

/// What `snapshot` is given.
pub(crate) fn snapshot_options_of(
    alloc: Global,
    on_terminal: bool,
    given: &ArgMatches<'_>,
) -> Result<SnapshotOptions, AllocError>
    ensures { IfOk result (CarriesSnapshot on_terminal (rows_of (found_of given.now))) }
{
    Ok(SnapshotOptions {
        indexes: indexes_of(alloc, given)?,
        root: text_of(alloc, given, ROOT)?,
        to: optional_text_of(alloc, given, to::NAME)?,
        explain: explains_in(on_terminal, given),
    })
}

/// What `pages` is given.
pub(crate) fn pages_options_of(
    alloc: Global,
    on_terminal: bool,
    given: &ArgMatches<'_>,
) -> Result<PagesOptions, AllocError>
    ensures { IfOk result (CarriesPages on_terminal (rows_of (found_of given.now))) }
{
    let indexes = indexes_of(alloc, given)?;
    let root = text_of(alloc, given, ROOT)?;
    let out = text_of(alloc, given, OUT)?;
    Ok(PagesOptions {
        indexes,
        root,
        out,
        explain: explains_in(on_terminal, given),
    })
}

/// What `join` is given.
pub(crate) fn join_options_of(
    alloc: Global,
    on_terminal: bool,
    given: &ArgMatches<'_>,
) -> Result<JoinOptions, AllocError>
    ensures { IfOk result (CarriesJoin on_terminal (rows_of (found_of given.now))) }
{
    let joined = text_of(alloc, given, OUT)?;
    Ok(JoinOptions {
        out: joined,
        indexes: texts_of(alloc, given, INDEX_FILE)?,
        project_root: optional_text_of(alloc, given, joined_root::NAME)?,
        replace: replaces_in(given),
        sync: sync_in(given),
        explain: explains_in(on_terminal, given),
    })
}
