//! The options: how help shows them, what command lines ask for by them (each program once by its defaults, and each
//! option once), and which are refused.

use crate::asked::{By, asked, see};
use crate::refusals::see_refused;
use std::test::Fail;

/// The options of `index` alone, as its help shows them.
pub(crate) const OWN_OPTIONS: &str = "      --quiet
          Shows no progress; without it, a terminal shows some after a second
      --sync
          Waits until the disk has what is written, and its folder's entry (fsync)
      --max-skipped <N>
          If --faulty skip leaves out more files than this, OUT stays as it was and the status is 1
      --min-sources <N>
          If fewer sources than this are indexed, OUT stays as it was and the status is 1
";

/// The options of `index` and of `shell`, as their help shows them.
pub(crate) const OPTIONS: &str = "      --real
          Unless given: --accept all --options link --faulty skip --duplicates keep --well-known --doc both --comments clean --details
      --workers <N>
          How many threads to use, 1 to 16; the index is the same for any number [default: 4]
      --project-root <URI>
          Where the sources' folder is, for the index's metadata [default: file:///]
      --at <PREFIX>
          The path of ROOT in its repository; the paths of documents are below it
      --manager <NAME>
          The manager of the package that the symbols name, empty if not given
      --package <NAME>
          The name of that package, empty if not given
      --release <TEXT>
          The release of that package, empty if not given
      --only <PREFIX>
          Keeps only the declaration with this full name and those below it
      --doc <WORD>
          Which comments document a declaration; if not given, those before it [possible values: leading, trailing, both, nothing]
      --comments <WORD>
          How comments are given: as they are written, or without stars and indentation [default: raw] [possible values: raw, clean]
      --details
          Tells of each symbol its kind, how it is declared and what it is in, and where declarations end
      --include <DIR>
          A folder with sources that may be imported but aren't indexed; may be given again
      --include-package <MANAGER> <NAME> <RELEASE> <DIR>
          Like --include, for a folder whose files belong to this package; may be given again
      --well-known
          Includes google/protobuf/*.proto of the protoc on the PATH, of /usr/local or of /usr
      --positions <WORD>
          The unit of columns: bytes, or UTF-16 code units [default: utf8] [possible values: utf8, utf16]
      --accept <WORD>
          Which sources are read: proto3 alone, or proto2 too, with extend and custom options [default: proto3] [possible values: proto3, all]
      --custom-options <WORD>
          What to do with custom options: refuse the source, or skip them, as --accept all always does [default: refuse] [possible values: refuse, skip]
      --options <WORD>
          What to do with names in options: skip them, or link each to the field, message or value that it names [default: skip] [possible values: skip, link]
      --faulty <WORD>
          What to do with faults: refuse the tree, or leave out what has one and report it [default: refuse] [possible values: refuse, skip]
      --duplicates <WORD>
          What to do with a name that several files declare: refuse them, or keep each for whoever sees it [default: refuse] [possible values: refuse, keep]
      --explain
          Explains a fault: adds its line and column, a sentence, and the text of that line
      --no-explain
          Doesn't explain a fault, on a terminal either
      --exclude <GLOB>
          Leaves out files and folders by name or path, as .git, which is searched otherwise; may be given again
      --links <WORD>
          What to do with symbolic links below a folder: pass them over, or follow them [default: ignore] [possible values: ignore, follow]
      --sources <FILE>
          The sources are those that FILE lists, a path below ROOT on each line; `-` is standard input
      --report <FILE>
          Writes a report to this file: each fault, and what the index leaves out or lacks
      --report-format <WORD>
          The form of the report, jsonl if not given: lines of JSON, or SARIF for code hosts [possible values: jsonl, sarif]
  -h, --help
          Print help
";

/// A command line, and what it asks for, as `Debug` prints it.
struct Asked {
    words: &'static str,
    request: &'static str,
}

// The fourth row reads: `dump --explain --custom-options skip` asks for a dump that reads past custom options, and
// explains a fault.
static ASKED: [Asked; 31] = [
    Asked {
        words: "query a.scip",
        request: "Query(QueryOptions { indexes: [\"a.scip\"], explain: false, more: false, json: false })",
    },
    Asked {
        words: "query --explain a.scip --more",
        request: "Query(QueryOptions { indexes: [\"a.scip\"], explain: true, more: true, json: false })",
    },
    Asked {
        words: "query a b --more a -- -c",
        request: "Query(QueryOptions { indexes: [\"a\", \"b\", \"a\", \"-c\"], explain: false, more: true, json: false })",
    },
    Asked {
        words: "query a.scip --json",
        request: "Query(QueryOptions { indexes: [\"a.scip\"], explain: false, more: false, json: true })",
    },
    Asked {
        words: "def a.scip shop.Order",
        request: "Ask(AskOptions { verb: Def, indexes: [\"a.scip\"], asked: \"shop.Order\", root: None, json: false, explain: false })",
    },
    Asked {
        words: "hover --json --also b a.scip --root api a.proto:1:2 --explain",
        request: "Ask(AskOptions { verb: Hover, indexes: [\"a.scip\", \"b\"], asked: \"a.proto:1:2\", root: Some(\"api\"), json: true, explain: true })",
    },
    Asked {
        words: "stats a.scip --also b",
        request: "Ask(AskOptions { verb: Stats, indexes: [\"a.scip\", \"b\"], asked: \"\", root: None, json: false, explain: false })",
    },
    Asked {
        words: "print --json a.scip b.proto",
        request: "Ask(AskOptions { verb: Print, indexes: [\"a.scip\"], asked: \"b.proto\", root: None, json: true, explain: false })",
    },
    Asked {
        words: "print a.scip",
        request: "Ask(AskOptions { verb: Print, indexes: [\"a.scip\"], asked: \"\", root: None, json: false, explain: false })",
    },
    Asked {
        words: "find a.scip -- -x",
        request: "Ask(AskOptions { verb: Find, indexes: [\"a.scip\"], asked: \"-x\", root: None, json: false, explain: false })",
    },
    Asked {
        words: "dump",
        request: "Dump(DumpOptions { dialect: Proto3(Refuse), explain: false })",
    },
    Asked {
        words: "dump --explain --custom-options skip",
        request: "Dump(DumpOptions { dialect: Proto3(Skip), explain: true })",
    },
    Asked {
        words: "dump --accept all",
        request: "Dump(DumpOptions { dialect: All, explain: false })",
    },
    Asked {
        words: "index api out",
        request: "Index(IndexRequest { options: IndexOptions { root: \"api\", is_real: false, workers: Workers { count: 4 }, project_root: \"file:///\", at: \"\", manager: \"\", package: \"\", release: \"\", only: None, doc: None, comments: Raw, details: false, include: [], include_packages: [], well_known: false, encoding: Utf8, dialect: Proto3(Refuse), links_options: false, faulty: Refuse, duplicates: Refuse, explain: false, exclude: [], links: Ignore, sources: None, report: ReportOptions { path: None, format: JsonLines } }, out: \"out\", quiet: false, sync: false, limits: Limits { max_skipped: None, min_sources: None } })",
    },
    Asked {
        words: "index --workers 2 --quiet --sync --max-skipped 3 --min-sources=812 --report f --report-format sarif --project-root u --at d/.e --manager m --package p --release r --only o --doc both --comments clean --details --include j --include i --positions utf16 --accept all --custom-options skip --options link --faulty skip --duplicates keep --explain api out",
        request: "Index(IndexRequest { options: IndexOptions { root: \"api\", is_real: false, workers: Workers { count: 2 }, project_root: \"u\", at: \"d/.e\", manager: \"m\", package: \"p\", release: \"r\", only: Some(\"o\"), doc: Some(Both), comments: Clean, details: true, include: [\"j\", \"i\"], include_packages: [], well_known: false, encoding: Utf16, dialect: All, links_options: true, faulty: Skip, duplicates: Keep, explain: true, exclude: [], links: Ignore, sources: None, report: ReportOptions { path: Some(\"f\"), format: Sarif } }, out: \"out\", quiet: true, sync: true, limits: Limits { max_skipped: Some(3), min_sources: Some(812) } })",
    },
    Asked {
        words: "shell --more --workers 16 --project-root=u --at=.../-d --manager=m --package=p --release=r --report=f --report-format=jsonl --only=o --doc=trailing --comments=raw --include=i --positions=utf8 --accept=proto3 --custom-options=refuse --options=skip --faulty=refuse -- -api",
        request: "Shell(ShellRequest { options: IndexOptions { root: \"-api\", is_real: false, workers: Workers { count: 16 }, project_root: \"u\", at: \".../-d\", manager: \"m\", package: \"p\", release: \"r\", only: Some(\"o\"), doc: Some(Trailing), comments: Raw, details: false, include: [\"i\"], include_packages: [], well_known: false, encoding: Utf8, dialect: Proto3(Refuse), links_options: false, faulty: Refuse, duplicates: Refuse, explain: false, exclude: [], links: Ignore, sources: None, report: ReportOptions { path: Some(\"f\"), format: JsonLines } }, more: true })",
    },
    Asked {
        words: "index api --include a --include-package m n r d --include b out --include-package '' '' '' e --include c",
        request: "Index(IndexRequest { options: IndexOptions { root: \"api\", is_real: false, workers: Workers { count: 4 }, project_root: \"file:///\", at: \"\", manager: \"\", package: \"\", release: \"\", only: None, doc: None, comments: Raw, details: false, include: [\"a\", \"b\", \"c\"], include_packages: [PackageFolder { manager: \"m\", name: \"n\", release: \"r\", folder: \"d\" }, PackageFolder { manager: \"\", name: \"\", release: \"\", folder: \"e\" }], well_known: false, encoding: Utf8, dialect: Proto3(Refuse), links_options: false, faulty: Refuse, duplicates: Refuse, explain: false, exclude: [], links: Ignore, sources: None, report: ReportOptions { path: None, format: JsonLines } }, out: \"out\", quiet: false, sync: false, limits: Limits { max_skipped: None, min_sources: None } })",
    },
    Asked {
        words: "index api out --max-skipped +0 --min-sources 04294967295 --report f",
        request: "Index(IndexRequest { options: IndexOptions { root: \"api\", is_real: false, workers: Workers { count: 4 }, project_root: \"file:///\", at: \"\", manager: \"\", package: \"\", release: \"\", only: None, doc: None, comments: Raw, details: false, include: [], include_packages: [], well_known: false, encoding: Utf8, dialect: Proto3(Refuse), links_options: false, faulty: Refuse, duplicates: Refuse, explain: false, exclude: [], links: Ignore, sources: None, report: ReportOptions { path: Some(\"f\"), format: JsonLines } }, out: \"out\", quiet: false, sync: false, limits: Limits { max_skipped: Some(0), min_sources: Some(4294967295) } })",
    },
    Asked {
        words: "index api --exclude .git --links follow --exclude=a/**/b out --well-known",
        request: "Index(IndexRequest { options: IndexOptions { root: \"api\", is_real: false, workers: Workers { count: 4 }, project_root: \"file:///\", at: \"\", manager: \"\", package: \"\", release: \"\", only: None, doc: None, comments: Raw, details: false, include: [], include_packages: [], well_known: true, encoding: Utf8, dialect: Proto3(Refuse), links_options: false, faulty: Refuse, duplicates: Refuse, explain: false, exclude: [\".git\", \"a/**/b\"], links: Follow, sources: None, report: ReportOptions { path: None, format: JsonLines } }, out: \"out\", quiet: false, sync: false, limits: Limits { max_skipped: None, min_sources: None } })",
    },
    Asked {
        words: "index api --real --include i out",
        request: "Index(IndexRequest { options: IndexOptions { root: \"api\", is_real: true, workers: Workers { count: 4 }, project_root: \"file:///\", at: \"\", manager: \"\", package: \"\", release: \"\", only: None, doc: Some(Both), comments: Clean, details: true, include: [\"i\"], include_packages: [], well_known: true, encoding: Utf8, dialect: All, links_options: true, faulty: Skip, duplicates: Keep, explain: false, exclude: [], links: Ignore, sources: None, report: ReportOptions { path: None, format: JsonLines } }, out: \"out\", quiet: false, sync: false, limits: Limits { max_skipped: None, min_sources: None } })",
    },
    Asked {
        words: "shell --options skip --real api",
        request: "Shell(ShellRequest { options: IndexOptions { root: \"api\", is_real: true, workers: Workers { count: 4 }, project_root: \"file:///\", at: \"\", manager: \"\", package: \"\", release: \"\", only: None, doc: Some(Both), comments: Clean, details: true, include: [], include_packages: [], well_known: true, encoding: Utf8, dialect: All, links_options: false, faulty: Skip, duplicates: Keep, explain: false, exclude: [], links: Ignore, sources: None, report: ReportOptions { path: None, format: JsonLines } }, more: false })",
    },
    Asked {
        words: "shell --accept proto3 --custom-options skip --faulty refuse --duplicates refuse --doc nothing --comments raw --real api",
        request: "Shell(ShellRequest { options: IndexOptions { root: \"api\", is_real: true, workers: Workers { count: 4 }, project_root: \"file:///\", at: \"\", manager: \"\", package: \"\", release: \"\", only: None, doc: Some(Nothing), comments: Raw, details: true, include: [], include_packages: [], well_known: true, encoding: Utf8, dialect: Proto3(Skip), links_options: false, faulty: Refuse, duplicates: Refuse, explain: false, exclude: [], links: Ignore, sources: None, report: ReportOptions { path: None, format: JsonLines } }, more: false })",
    },
    Asked {
        words: "snapshot a.scip api",
        request: "Snapshot(SnapshotOptions { indexes: [\"a.scip\"], root: \"api\", to: None, explain: false })",
    },
    Asked {
        words: "snapshot --explain a.scip --to shown api",
        request: "Snapshot(SnapshotOptions { indexes: [\"a.scip\"], root: \"api\", to: Some(\"shown\"), explain: true })",
    },
    Asked {
        words: "snapshot --also c a --also=b api --also a",
        request: "Snapshot(SnapshotOptions { indexes: [\"a\", \"c\", \"b\", \"a\"], root: \"api\", to: None, explain: false })",
    },
    Asked {
        words: "pages a.scip api out",
        request: "Pages(PagesOptions { indexes: [\"a.scip\"], root: \"api\", out: \"out\", explain: false })",
    },
    Asked {
        words: "pages a.scip --explain api -- -out",
        request: "Pages(PagesOptions { indexes: [\"a.scip\"], root: \"api\", out: \"-out\", explain: true })",
    },
    Asked {
        words: "pages a api out --also b",
        request: "Pages(PagesOptions { indexes: [\"a\", \"b\"], root: \"api\", out: \"out\", explain: false })",
    },
    Asked {
        words: "index api out --sources -",
        request: "Index(IndexRequest { options: IndexOptions { root: \"api\", is_real: false, workers: Workers { count: 4 }, project_root: \"file:///\", at: \"\", manager: \"\", package: \"\", release: \"\", only: None, doc: None, comments: Raw, details: false, include: [], include_packages: [], well_known: false, encoding: Utf8, dialect: Proto3(Refuse), links_options: false, faulty: Refuse, duplicates: Refuse, explain: false, exclude: [], links: Ignore, sources: Some(SourceList { file: \"-\", listed: [] }), report: ReportOptions { path: None, format: JsonLines } }, out: \"out\", quiet: false, sync: false, limits: Limits { max_skipped: None, min_sources: None } })",
    },
    Asked {
        words: "join all a",
        request: "Join(JoinOptions { out: \"all\", indexes: [\"a\"], project_root: None, replace: false, sync: false, explain: false })",
    },
    Asked {
        words: "join all a --replace b --project-root u --sync --explain a",
        request: "Join(JoinOptions { out: \"all\", indexes: [\"a\", \"b\", \"a\"], project_root: Some(\"u\"), replace: true, sync: true, explain: true })",
    },
];

/// Command lines with an option that is refused, as in the table of other refusals.
const REFUSED: &str = "shell api --quiet
error: unexpected argument '--quiet' found

shell api --max-skipped 1
error: unexpected argument '--max-skipped' found

shell api --min-sources 1
error: unexpected argument '--min-sources' found

index api out --max-skipped none
error: invalid value 'none' for '--max-skipped <N>': invalid digit found in string

index api out --max-skipped=-1
error: invalid value '-1' for '--max-skipped <N>': invalid digit found in string

index api out --min-sources 4294967296
error: invalid value '4294967296' for '--min-sources <N>': 4294967296 is not in 0..=4294967295

index api out --min-sources
error: a value is required for '--min-sources <N>' but none was supplied

index api out --min-sources 1 --min-sources 1
error: the argument '--min-sources <N>' cannot be used multiple times

index api out --report-format sarif
error: '--report-format <WORD>' can't be used without '--report <FILE>'

shell api --sources -
error: '--sources -' can't be used with 'shell', which reads commands from standard input

index api out --sources a --sources b
error: the argument '--sources <FILE>' cannot be used multiple times

query a --sources b
error: unexpected argument '--sources' found

shell api --report-format jsonl
error: '--report-format <WORD>' can't be used without '--report <FILE>'

index api out --report f --report-format json
error: invalid value 'json' for '--report-format <WORD>'
  [possible values: jsonl, sarif]

index api out --report f --report g
error: the argument '--report <FILE>' cannot be used multiple times

dump --report f
error: unexpected argument '--report' found

index api out --workers 0
error: invalid value '0' for '--workers <N>': 0 is not in 1..=16

index api out --at ''
error: '--at <PREFIX>' takes names with one '/' between them, none of them '.' or '..'

index api out --at /a
error: '--at <PREFIX>' takes names with one '/' between them, none of them '.' or '..'

index api out --at a/
error: '--at <PREFIX>' takes names with one '/' between them, none of them '.' or '..'

shell api --at a//b
error: '--at <PREFIX>' takes names with one '/' between them, none of them '.' or '..'

shell api --at a/../b
error: '--at <PREFIX>' takes names with one '/' between them, none of them '.' or '..'

index api out --at .
error: '--at <PREFIX>' takes names with one '/' between them, none of them '.' or '..'

index api out --at a\u{1}b
error: '--at <PREFIX>' takes names with one '/' between them, none of them '.' or '..'

index api out --at a --at a
error: the argument '--at <PREFIX>' cannot be used multiple times

query a --at b
error: unexpected argument '--at' found

index api out --doc none
error: invalid value 'none' for '--doc <WORD>'
  [possible values: leading, trailing, both, nothing]

index api out --comments none
error: invalid value 'none' for '--comments <WORD>'
  [possible values: raw, clean]

shell api --positions UTF8
error: invalid value 'UTF8' for '--positions <WORD>'
  [possible values: utf8, utf16]

dump --accept proto2
error: invalid value 'proto2' for '--accept <WORD>'
  [possible values: proto3, all]

dump --custom-options keep
error: invalid value 'keep' for '--custom-options <WORD>'
  [possible values: refuse, skip]

index api out --options keep
error: invalid value 'keep' for '--options <WORD>'
  [possible values: skip, link]

index api out --options link
error: '--options link' needs '--accept all'

shell --real --accept proto3 --options link api
error: '--options link' needs '--accept all'

dump --options skip
error: unexpected argument '--options' found

index api out --faulty
error: a value is required for '--faulty <WORD>' but none was supplied

index api out --faulty yes
error: invalid value 'yes' for '--faulty <WORD>'
  [possible values: refuse, skip]

index api out --only a --only=b
error: the argument '--only <PREFIX>' cannot be used multiple times

index api out --include-package
error: a value is required for '--include-package <MANAGER> <NAME> <RELEASE> <DIR>' but none was supplied

snapshot a api b
error: unexpected argument 'b' found

snapshot a api --also
error: a value is required for '--also <INDEX>' but none was supplied

query a --also b
error: unexpected argument '--also' found

index api out --include-package m n r
error: 4 values required for '--include-package <MANAGER> <NAME> <RELEASE> <DIR>' but 3 were provided

";

#[test]
fn what_is_asked_for(rt: HostRuntime) -> Result<(), Fail> {
    for row in &ASKED {
        let text = asked(rt.alloc(), row.words, By::List)?;
        see(&rt, text.as_str() == row.request, text.as_str());
    }
    Ok(())
}

// Where faults are said on a terminal, they are explained unless that is refused.
const ON_TERMINAL: [(&str, &str); 6] = [
    ("dump", "explain: true"),
    ("dump --no-explain", "explain: false"),
    ("dump --explain --no-explain", "explain: true"),
    ("index api out", "explain: true"),
    ("shell api --no-explain", "explain: false"),
    ("join out a b --no-explain", "explain: false"),
];

#[test]
fn faults_are_explained_on_a_terminal(rt: HostRuntime) -> Result<(), Fail> {
    for (words, told) in &ON_TERMINAL {
        let text = asked(rt.alloc(), *words, By::ListOnTerminal)?;
        see(&rt, text.as_str().contains(*told), text.as_str());
        let text = asked(rt.alloc(), *words, By::SystemOnTerminal)?;
        see(&rt, text.as_str().contains(*told), text.as_str());
    }
    let text = asked(rt.alloc(), "dump --no-explain", By::List)?;
    see(&rt, text.as_str().contains("explain: false"), text.as_str());
    Ok(())
}

#[test]
fn words_of_the_system(rt: HostRuntime) -> Result<(), Fail> {
    let text = asked(rt.alloc(), "query a.scip", By::System)?;
    see(
        &rt,
        text.as_str()
            == "Query(QueryOptions { indexes: [\"a.scip\"], explain: false, more: false, json: false })",
        text.as_str(),
    );
    Ok(())
}

#[test]
fn refused_options(rt: HostRuntime) -> Result<(), Fail> {
    see_refused(&rt, rt.alloc(), REFUSED)?;
    Ok(())
}

#[test]
fn what_all_is_is_said(rt: HostRuntime) -> Result<(), Fail> {
    let end = "\n`--accept all` reads proto2 sources, too.\n";
    let text = asked(rt.alloc(), "dump --accept proto2", By::List)?;
    see(&rt, text.as_str().ends_with(end), "--accept proto2");
    let text = asked(rt.alloc(), "dump --custom-options keep", By::List)?;
    see(&rt, !text.as_str().ends_with(end), "--custom-options keep");
    Ok(())
}
