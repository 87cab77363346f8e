//! Help and the version, in the form of `clap` of Rust: no contract says the texts.

use crate::asked::{By, asked, see};
use crate::options::{OPTIONS, OWN_OPTIONS};
use std::test::Fail;

/// A command line that asks for help or the version; the text that is printed, or, where options of a tree follow, what
/// is in front of them; those of this program alone; and, where `OPTIONS` follow, what is behind them.
type Printed = (
    &'static str,
    &'static str,
    &'static str,
    Option<&'static str>,
);

// The last row reads: `protoscip --version` prints one line.
static PRINTED: [Printed; 11] = [
    (
        "--help",
        "Indexes proto3 sources and writes SCIP

Usage: protoscip <COMMAND>

Commands:
  index     Indexes the sources below a folder and writes the index to a file
  shell     Indexes the sources below a folder and answers commands from standard input
  query     Answers commands from standard input about an index
  snapshot  Shows the sources of an index, and below each line what the index says about it
  pages     Makes pages of the sources of an index, to be read in a browser
  join      Makes one index of several and writes it to a file
  dump      Indexes one source from standard input and prints its occurrences
  def       Shows where a symbol is defined
  ref       Shows where a symbol occurs, its definitions included
  hover     Shows how a symbol is declared, and its documentation
  outline   Shows what a source defines, in order of place
  find      Shows definitions by their names
  stats     Says how much an index has
  print     Shows the records of an index, or of one of its documents
  lint      Says what an index lacks, or says against itself
  help      Print this message or the help of the given subcommand(s)

Options:
  -h, --help     Print help
  -V, --version  Print version
",
        "",
        None,
    ),
    (
        "index --help",
        "Indexes the sources below a folder and writes the index to a file

Usage: protoscip index [OPTIONS] <ROOT> <OUT>

Arguments:
  <ROOT>  The folder whose sources are indexed
  <OUT>   The file to which the index is written

Options:
",
        OWN_OPTIONS,
        Some(
            "
Example: index the sources below api, with those below vendor for their imports:

  protoscip index --include vendor --package api --release 1.2 api api.scip
",
        ),
    ),
    (
        "shell --help",
        "Indexes the sources below a folder and answers commands from standard input

Usage: protoscip shell [OPTIONS] <ROOT>

Arguments:
  <ROOT>  The folder whose sources are indexed

Options:
",
        "      --more
          Knows more commands, as on a terminal; the command help lists them
",
        Some(
            "
Example session. The lines that begin with a word are typed; Ctrl-D ends the session:

  $ protoscip shell examples/library
  def 24 10 library/lending/loan.proto
  13 8 13 12 1 library/calendar.proto
  = 1
  doc 24 10 library/lending/loan.proto
  | The days from the first to the last, both included.
  = 1
",
        ),
    ),
    (
        "query --help",
        "Answers commands from standard input about an index

Usage: protoscip query [OPTIONS] <INDEX>...

Arguments:
  <INDEX>...  A file with a SCIP index

Options:
      --more        Knows more commands, as on a terminal; the command help lists them
      --json        Answers in JSON, with one object on a line
      --explain     Explains a fault: adds its line and column, a sentence, and the text of that line
      --no-explain  Doesn't explain a fault, on a terminal either
  -h, --help        Print help

Example: list the symbols of a document:

  echo 'sym shop/order.proto' | protoscip query api.scip
",
        "",
        None,
    ),
    (
        "snapshot --help",
        "Shows the sources of an index, and below each line what the index says about it

Usage: protoscip snapshot [OPTIONS] <INDEX> <ROOT>

Arguments:
  <INDEX>  A file with a SCIP index
  <ROOT>   The folder with the sources that were indexed

Options:
      --also <INDEX>  A file with an index that is taken as one with INDEX; may be given again
      --to <DIR>      Writes each document to a file below this folder; if not given, they are printed
      --explain       Explains a fault: adds its line and column, a sentence, and the text of that line
      --no-explain    Doesn't explain a fault, on a terminal either
  -h, --help          Print help

Example: show the sources below api with what the index says about them:

  protoscip snapshot api.scip api
",
        "",
        None,
    ),
    (
        "pages --help",
        "Makes pages of the sources of an index, to be read in a browser

Usage: protoscip pages [OPTIONS] <INDEX> <ROOT> <OUT>

Arguments:
  <INDEX>  A file with a SCIP index
  <ROOT>   The folder with the sources that were indexed
  <OUT>    The folder for the pages, which must be empty or not exist yet

Options:
      --also <INDEX>  A file with an index that is taken as one with INDEX; may be given again
      --explain       Explains a fault: adds its line and column, a sentence, and the text of that line
      --no-explain    Doesn't explain a fault, on a terminal either
  -h, --help          Print help

Example: make pages of the sources below api; then open pages/index.html in a browser:

  protoscip pages api.scip api pages
",
        "",
        None,
    ),
    (
        "join --help",
        "Makes one index of several and writes it to a file

Usage: protoscip join [OPTIONS] <OUT> <INDEX>...

Arguments:
  <OUT>       The file to which the index is written
  <INDEX>...  A file with a SCIP index

Options:
      --project-root <URI>  Where the sources' folder is; if not given, all indexes have to name the same folder
      --replace             Takes the later of two documents with one path; without it, they are refused
      --sync                Waits until the disk has what is written, and its folder's entry (fsync)
      --explain             Explains a fault: adds its line and column, a sentence, and the text of that line
      --no-explain          Doesn't explain a fault, on a terminal either
  -h, --help                Print help

Example: make one index of those of two parts of a project:

  protoscip join all.scip api.scip internal.scip
",
        "",
        None,
    ),
    (
        "def --help",
        "Shows where a symbol is defined

Usage: protoscip def [OPTIONS] <INDEX> <PLACE|NAME>

Arguments:
  <INDEX>       A file with a SCIP index
  <PLACE|NAME>  A place in a source, PATH:LINE:COLUMN from 1, or a name, or the end of a full name

Options:
      --also <INDEX>  A file with an index that is taken as one with INDEX; may be given again
      --root <DIR>    The folder with the sources that were indexed: answers show their lines
      --json          Answers in JSON, with one object on a line
      --explain       Explains a fault: adds its line and column, a sentence, and the text of that line
      --no-explain    Doesn't explain a fault, on a terminal either
  -h, --help          Print help

Example: show the line that defines a type, by its name or by a use of it:

  protoscip def --root api api.scip shop.Order
  protoscip def --root api api.scip shop/order.proto:12:3
",
        "",
        None,
    ),
    (
        "print --help",
        "Shows the records of an index, or of one of its documents

Usage: protoscip print [OPTIONS] <INDEX> [PATH]

Arguments:
  <INDEX>  A file with a SCIP index
  [PATH]   The path of a document: only its records are shown

Options:
      --also <INDEX>  A file with an index that is taken as one with INDEX; may be given again
      --json          Answers in JSON, with one object on a line
      --explain       Explains a fault: adds its line and column, a sentence, and the text of that line
      --no-explain    Doesn't explain a fault, on a terminal either
  -h, --help          Print help

Example: show what an index says of a source, as JSON:

  protoscip print --json api.scip shop/order.proto
",
        "",
        None,
    ),
    (
        "dump --help",
        "Indexes one source from standard input and prints its occurrences

Usage: protoscip dump [OPTIONS]

Options:
      --accept <WORD>          Which sources are read: proto3 alone, or proto2 too, with extend and custom options [default: proto3] [possible values: proto3, all]
      --custom-options <WORD>  What to do with custom options: refuse the source, or skip them, as --accept all always does [default: refuse] [possible values: refuse, skip]
      --explain                Explains a fault: adds its line and column, a sentence, and the text of that line
      --no-explain             Doesn't explain a fault, on a terminal either
  -h, --help                   Print help

Example: print the occurrences of a source, past its custom options:

  protoscip dump --custom-options skip < order.proto
",
        "",
        None,
    ),
    ("--version", "protoscip 1\n", "", None),
];

/// Whether a text is this front, with these options, and, where there is more, the other options and that.
fn has_parts(text: &str, front: &str, own: &str, more: Option<&str>) -> bool {
    let rest = text
        .strip_prefix(front)
        .and_then(|rest| rest.strip_prefix(own));
    match more {
        Some(more) => rest.and_then(|rest| rest.strip_prefix(OPTIONS)) == Some(more),
        None => rest == Some(""),
    }
}

#[test]
fn help_and_version_are_printed(rt: HostRuntime) -> Result<(), Fail> {
    for (words, front, own, more) in &PRINTED {
        let text = asked(rt.alloc(), words, By::List)?;
        see(&rt, has_parts(text.as_str(), front, own, *more), words);
    }
    Ok(())
}
