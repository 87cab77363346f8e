//! The programs of the command line.

ghost use Rattle.std.specs.Prelude.{◌≡◌, map, IfOk, false, true};
ghost use Rattle.clap.specs.Words.{Shape, app_of, rule_of, with_subcommand};
ghost use Rattle.clap.specs.declared.builder.command.Command.TheViews.{out-Command as fields_of};
ghost use Rattle.command_line.specs.Program.{
  are_simple,
  ask_line,
  command_line,
  dump_line,
  index_line,
  join_line,
  line_of,
  no_program,
  pages_line,
  query_line,
  shell_line,
  print_line,
  snapshot_line,
  survey_line,
  with_asking,
  with_surveying,
};

use crate::arguments::{optional, repeated, required};
use crate::names::{
    DOCUMENT, DUMP, INDEX, INDEX_FILE, JOIN, OUT, PAGES, PRINT, QUERY, ROOT, SHELL, SNAPSHOT,
};
use crate::options::{
    WordLists, accept, add_index_options, add_tree_options, also, custom_options, explain,
    joined_root, json, more, replace, root, sync, to,
};
use crate::verb::Verb;
use basics::tool::{NAME, VERSION};
use clap::{Arg, Command};
use std::alloc::{AllocError, Global};

const INDEX_EXAMPLE: &str =
    "Example: index the sources below api, with those below vendor for their imports:

  protoscip index --include vendor --package api --release 1.2 api api.scip";

const SHELL_EXAMPLE: &str =
    "Example session. The lines that begin with a word are typed; Ctrl-D ends the session:

  $ protoscip shell examples/library
  def 24 10 library/lending/loan.proto
  13 8 13 12 1 library/calendar.proto
  = 1
  doc 24 10 library/lending/loan.proto
  | The days from the first to the last, both included.
  = 1";

const QUERY_EXAMPLE: &str = "Example: list the symbols of a document:

  echo 'sym shop/order.proto' | protoscip query api.scip";

const DEF_EXAMPLE: &str =
    "Example: show the line that defines a type, by its name or by a use of it:

  protoscip def --root api api.scip shop.Order
  protoscip def --root api api.scip shop/order.proto:12:3";

const REF_EXAMPLE: &str = "Example: show the lines that name a type:

  protoscip ref --root api api.scip shop.Order";

const HOVER_EXAMPLE: &str = "Example: show how a type is declared and what documents it:

  protoscip hover api.scip shop.Order";

const OUTLINE_EXAMPLE: &str = "Example: show what a source defines:

  protoscip outline api.scip shop/order.proto";

const FIND_EXAMPLE: &str = "Example: show the definitions whose names begin with a text:

  protoscip find api.scip ord";

const STATS_EXAMPLE: &str = "Example: say how many documents and definitions an index has:

  protoscip stats api.scip";

const PRINT_EXAMPLE: &str = "Example: show what an index says of a source, as JSON:

  protoscip print --json api.scip shop/order.proto";

const LINT_EXAMPLE: &str = "Example: say what is wrong with an index of another tool:

  protoscip lint other.scip";

const SNAPSHOT_EXAMPLE: &str =
    "Example: show the sources below api with what the index says about them:

  protoscip snapshot api.scip api";

const PAGES_EXAMPLE: &str =
    "Example: make pages of the sources below api; then open pages/index.html in a browser:

  protoscip pages api.scip api pages";

const JOIN_EXAMPLE: &str = "Example: make one index of those of two parts of a project:

  protoscip join all.scip api.scip internal.scip";

const DUMP_EXAMPLE: &str = "Example: print the occurrences of a source, past its custom options:

  protoscip dump --custom-options skip < order.proto";

/// A program by its name, what help says of it, and its arguments and options.
fn program_of<'a>(
    alloc: Global,
    name: &'a str,
    about: &'a str,
    example: &'a str,
    arguments: Vec<Arg<'a>>,
) -> Result<Command<'a>, AllocError>
    requires { are_simple (map rule_of arguments.items) ≡ true }
    ensures line { IfOk result (λ c. (app_of c).top ≡ line_of name.entry.now (map rule_of arguments.entry.items)) }
    ensures local { IfOk result (λ c. (fields_of c).has_globals ≡ false) }
{
    Command::new(alloc, name)
        .about(about)
        .after_help(example)
        .args(arguments)
}

/// The command line of `index`.
fn index_program<'a>(alloc: Global, lists: WordLists<'a>) -> Result<Command<'a>, AllocError>
    ensures line { IfOk result (λ c. (app_of c).top ≡ index_line lists.entry) }
    ensures local { IfOk result (λ c. (fields_of c).has_globals ≡ false) }
{
    let about = "Indexes the sources below a folder and writes the index to a file";
    let mut args = vec![in alloc;
        required(alloc, ROOT, "The folder whose sources are indexed"),
        required(alloc, OUT, "The file to which the index is written"),
    ]?;
    add_index_options(alloc, &mut args, lists)?;
    program_of(alloc, INDEX, about, INDEX_EXAMPLE, args)
}

/// The command line of `shell`.
fn shell_program<'a>(alloc: Global, lists: WordLists<'a>) -> Result<Command<'a>, AllocError>
    ensures line { IfOk result (λ c. (app_of c).top ≡ shell_line lists.entry) }
    ensures local { IfOk result (λ c. (fields_of c).has_globals ≡ false) }
{
    let about = "Indexes the sources below a folder and answers commands from standard input";
    let root = required(alloc, ROOT, "The folder whose sources are indexed");
    let mut args = vec![in alloc; root, more::arg(alloc)]?;
    add_tree_options(alloc, &mut args, lists)?;
    program_of(alloc, SHELL, about, SHELL_EXAMPLE, args)
}

/// The command line of `query`.
fn query_program<'a>(alloc: Global) -> Result<Command<'a>, AllocError>
    ensures line { IfOk result (λ c. (app_of c).top ≡ query_line) }
    ensures local { IfOk result (λ c. (fields_of c).has_globals ≡ false) }
{
    let about = "Answers commands from standard input about an index";
    let file = required(alloc, INDEX_FILE, "A file with a SCIP index");
    let args = vec![in alloc;
        repeated(file),
        more::arg(alloc),
        json::arg(alloc),
        explain::arg(alloc),
        explain::refused(alloc),
    ]?;
    program_of(alloc, QUERY, about, QUERY_EXAMPLE, args)
}

/// What help says of a program that asks in one line.
fn about_of(verb: Verb) -> &'static str {
    match verb {
        Verb::Def => "Shows where a symbol is defined",
        Verb::Ref => "Shows where a symbol occurs, its definitions included",
        Verb::Hover => "Shows how a symbol is declared, and its documentation",
        Verb::Outline => "Shows what a source defines, in order of place",
        Verb::Find => "Shows definitions by their names",
        Verb::Stats => "Says how much an index has",
        Verb::Print => "Shows the records of an index, or of one of its documents",
        Verb::Lint => "Says what an index lacks, or says against itself",
    }
}

/// And of what it is asked about.
fn argument_help(verb: Verb) -> &'static str {
    match verb {
        Verb::Def | Verb::Ref | Verb::Hover => {
            "A place in a source, PATH:LINE:COLUMN from 1, or a name, or the end of a full name"
        }
        Verb::Outline => "The path of the source, as the index has it",
        Verb::Find => "A name, the end of a full name, or how one begins",
        Verb::Print => "The path of a document: only its records are shown",
        Verb::Stats | Verb::Lint => "",
    }
}

/// And its example.
fn example_of(verb: Verb) -> &'static str {
    match verb {
        Verb::Def => DEF_EXAMPLE,
        Verb::Ref => REF_EXAMPLE,
        Verb::Hover => HOVER_EXAMPLE,
        Verb::Outline => OUTLINE_EXAMPLE,
        Verb::Find => FIND_EXAMPLE,
        Verb::Stats => STATS_EXAMPLE,
        Verb::Print => PRINT_EXAMPLE,
        Verb::Lint => LINT_EXAMPLE,
    }
}

/// The command line of a program that asks in one line.
fn ask_program<'a>(alloc: Global, verb: Verb) -> Result<Command<'a>, AllocError>
    ensures line { IfOk result (λ c. (app_of c).top ≡ ask_line verb) }
    ensures local { IfOk result (λ c. (fields_of c).has_globals ≡ false) }
{
    let args = vec![in alloc;
        required(alloc, INDEX_FILE, "A file with a SCIP index"),
        required(alloc, verb.argument(), argument_help(verb)),
        also::arg(alloc),
        root::arg(alloc),
        json::arg(alloc),
        explain::arg(alloc),
        explain::refused(alloc),
    ]?;
    program_of(alloc, verb.name(), about_of(verb), example_of(verb), args)
}

/// The command line of a program that tells of an index as a whole.
fn survey_program<'a>(alloc: Global, verb: Verb) -> Result<Command<'a>, AllocError>
    ensures line { IfOk result (λ c. (app_of c).top ≡ survey_line verb) }
    ensures local { IfOk result (λ c. (fields_of c).has_globals ≡ false) }
{
    let args = vec![in alloc;
        required(alloc, INDEX_FILE, "A file with a SCIP index"),
        also::arg(alloc),
        json::arg(alloc),
        explain::arg(alloc),
        explain::refused(alloc),
    ]?;
    program_of(alloc, verb.name(), about_of(verb), example_of(verb), args)
}

/// The command line of `print`.
fn print_program<'a>(alloc: Global) -> Result<Command<'a>, AllocError>
    ensures line { IfOk result (λ c. (app_of c).top ≡ print_line) }
    ensures local { IfOk result (λ c. (fields_of c).has_globals ≡ false) }
{
    let args = vec![in alloc;
        required(alloc, INDEX_FILE, "A file with a SCIP index"),
        optional(alloc, DOCUMENT, argument_help(Verb::Print)),
        also::arg(alloc),
        json::arg(alloc),
        explain::arg(alloc),
        explain::refused(alloc),
    ]?;
    program_of(alloc, PRINT, about_of(Verb::Print), PRINT_EXAMPLE, args)
}

/// The command line of `snapshot`.
fn snapshot_program<'a>(alloc: Global) -> Result<Command<'a>, AllocError>
    ensures line { IfOk result (λ c. (app_of c).top ≡ snapshot_line) }
    ensures local { IfOk result (λ c. (fields_of c).has_globals ≡ false) }
{
    let about = "Shows the sources of an index, and below each line what the index says about it";
    let args = vec![in alloc;
        required(alloc, INDEX_FILE, "A file with a SCIP index"),
        required(alloc, ROOT, "The folder with the sources that were indexed"),
        also::arg(alloc),
        to::arg(alloc),
        explain::arg(alloc),
        explain::refused(alloc),
    ]?;
    program_of(alloc, SNAPSHOT, about, SNAPSHOT_EXAMPLE, args)
}

/// The command line of `pages`.
fn pages_program<'a>(alloc: Global) -> Result<Command<'a>, AllocError>
    ensures line { IfOk result (λ c. (app_of c).top ≡ pages_line) }
    ensures local { IfOk result (λ c. (fields_of c).has_globals ≡ false) }
{
    let about = "Makes pages of the sources of an index, to be read in a browser";
    let out = "The folder for the pages, which must be empty or not exist yet";
    let args = vec![in alloc;
        required(alloc, INDEX_FILE, "A file with a SCIP index"),
        required(alloc, ROOT, "The folder with the sources that were indexed"),
        required(alloc, OUT, out),
        also::arg(alloc),
        explain::arg(alloc),
        explain::refused(alloc),
    ]?;
    program_of(alloc, PAGES, about, PAGES_EXAMPLE, args)
}

/// The command line of `join`.
fn join_program<'a>(alloc: Global) -> Result<Command<'a>, AllocError>
    ensures line { IfOk result (λ c. (app_of c).top ≡ join_line) }
    ensures local { IfOk result (λ c. (fields_of c).has_globals ≡ false) }
{
    let about = "Makes one index of several and writes it to a file";
    let index = required(alloc, INDEX_FILE, "A file with a SCIP index");
    let args = vec![in alloc;
        required(alloc, OUT, "The file to which the index is written"),
        repeated(index),
        joined_root::arg(alloc),
        replace::arg(alloc),
        sync::arg(alloc),
        explain::arg(alloc),
        explain::refused(alloc),
    ]?;
    program_of(alloc, JOIN, about, JOIN_EXAMPLE, args)
}

/// The command line of `dump`.
fn dump_program<'a>(alloc: Global, lists: WordLists<'a>) -> Result<Command<'a>, AllocError>
    ensures line { IfOk result (λ c. (app_of c).top ≡ dump_line lists.entry) }
    ensures local { IfOk result (λ c. (fields_of c).has_globals ≡ false) }
{
    let about = "Indexes one source from standard input and prints its occurrences";
    let args = vec![in alloc;
        accept::arg(alloc, lists.accept),
        custom_options::arg(alloc, lists.custom_options),
        explain::arg(alloc),
        explain::refused(alloc),
    ]?;
    program_of(alloc, DUMP, about, DUMP_EXAMPLE, args)
}

/// The command line without its programs.
fn no_program<'a>(alloc: Global) -> Command<'a>
    ensures { app_of result ≡ no_program }
{
    Command::new(alloc, NAME)
        .version(VERSION)
        .about("Indexes proto3 sources and writes SCIP")
        .subcommand_required(true)
}

/// Adds a program, if there is one.
fn with_program<'a>(
    line: Command<'a>,
    program: Result<Command<'a>, AllocError>,
) -> Result<Command<'a>, AllocError>
    ensures { (shape : Shape) → IfOk program.entry (λ p. (app_of p).top ≡ shape)
        → IfOk program.entry (λ p. (fields_of p).has_globals ≡ false)
        → IfOk result (λ c. app_of c ≡ with_subcommand (app_of line.entry) shape) }
{
    line.subcommand(program?)
}

/// Adds the programs that ask in one line.
fn with_asking<'a>(alloc: Global, line: Command<'a>) -> Result<Command<'a>, AllocError>
    ensures { IfOk result (λ c. app_of c ≡ with_asking (app_of line.entry)) }
{
    let defining = with_program(line, ask_program(alloc, Verb::Def))?;
    let referring = with_program(defining, ask_program(alloc, Verb::Ref))?;
    let hovering = with_program(referring, ask_program(alloc, Verb::Hover))?;
    let outlining = with_program(hovering, ask_program(alloc, Verb::Outline))?;
    with_program(outlining, ask_program(alloc, Verb::Find))
}

/// Adds the programs that tell of an index as a whole.
fn with_surveying<'a>(alloc: Global, line: Command<'a>) -> Result<Command<'a>, AllocError>
    ensures { IfOk result (λ c. app_of c ≡ with_surveying (app_of line.entry)) }
{
    let counting = with_program(line, survey_program(alloc, Verb::Stats))?;
    let printing = with_program(counting, print_program(alloc))?;
    with_program(printing, survey_program(alloc, Verb::Lint))
}

/// The command line's programs and options.
pub(crate) fn program<'a>(alloc: Global, lists: WordLists<'a>) -> Result<Command<'a>, AllocError>
    ensures { IfOk result (λ c. app_of c ≡ command_line lists.entry) }
{
    let indexing = with_program(no_program(alloc), index_program(alloc, lists))?;
    let serving = with_program(indexing, shell_program(alloc, lists))?;
    let querying = with_program(serving, query_program(alloc))?;
    let showing = with_program(querying, snapshot_program(alloc))?;
    let paging = with_program(showing, pages_program(alloc))?;
    let joining = with_program(paging, join_program(alloc))?;
    let dumping = with_program(joining, dump_program(alloc, lists))?;
    let asking = with_asking(alloc, dumping)?;
    with_surveying(alloc, asking)
}
