//! The program over streams and files in memory.
//!
//! Each stream is a part of an array, which takes no memory.

use crate::files::Files;
use crate::pipe::Pipe;
use crate::shared::{see, words_of};
use crate::written::Written;
use command_line::{Request, request_of};
use programs::{Host, Places, explain_failure, manner_of, out_path, report_path, run};
use source_files::SystemStream;
use std::alloc::{AllocError, Global};
use std::cell::Cell;
use std::process::Abort;
use std::sync::Wait;
use std::test::Fail;
use std::thread::Threads;
use std::time::Clock;
use streams::Std;

/// The most bytes that a run prints, writes to a file or says in these tests.
pub(crate) const ROOM: usize = 1024;

/// A command line and an input; how many bytes of an index are taken, and whether its place then is refused; the same
/// of a report; and what the run ends with. The output and the files have room for what is printed and written alone: a
/// `\0` is room for a byte that doesn't come. The output may be a pipe that is closed once its room is used.
pub(crate) struct Row {
    pub words: &'static str,
    pub input: &'static str,
    pub fits: usize,
    pub is_refused: bool,
    pub report_fits: usize,
    pub report_is_refused: bool,
    pub closes: bool,
    pub printed: &'static str,
    pub written: &'static [u8],
    pub reported: &'static str,
    pub status: u8,
    pub said: &'static str,
}

pub(crate) const SILENT: Row = Row {
    words: "",
    input: "",
    fits: ROOM,
    is_refused: false,
    report_fits: ROOM,
    report_is_refused: false,
    closes: false,
    printed: "\0",
    written: b"\0",
    reported: "\0",
    status: 0,
    said: "",
};

// The second row reads: there is no program `zzz`, which is said, with status 2.
static ROWS: [Row; 27] = [
    Row {
        words: "--version",
        printed: "protoscip 1\n\0",
        ..SILENT
    },
    Row {
        words: "zzz",
        status: 2,
        said: "error: unrecognized subcommand 'zzz'\n\nUsage: protoscip <COMMAND>\n\nFor more information, try '--help'.\n",
        ..SILENT
    },
    Row {
        words: "dump",
        input: "syntax = \"proto3\";",
        printed: "0 0 0 0 1 scip-protobuf . . . `input.proto`/\n= 1\n\0",
        ..SILENT
    },
    Row {
        words: "dump",
        input: " @",
        status: 1,
        said: "protoscip: input.proto@1: BadByte\n",
        ..SILENT
    },
    Row {
        words: "dump --accept all",
        input: "message A {}",
        printed: "0 0 0 0 1 scip-protobuf . . . `input.proto`/\n0 8 0 9 1 scip-protobuf . . . A#\n= 2\n\0",
        ..SILENT
    },
    Row {
        words: "dump --explain",
        input: " @",
        status: 1,
        said: "protoscip: input.proto@1: BadByte\ninput.proto:1:2: this character can't be here\n  1 |  @\n    |  ^\n",
        ..SILENT
    },
    Row {
        words: "dump --explain --accept all",
        input: "option =",
        status: 1,
        said: "protoscip: input.proto@7: Grammar
input.proto:1:8: met `=`: the grammar wants something else here: `(` or a name
  1 | option =
    |        ^\n",
        ..SILENT
    },
    Row {
        words: "query a.scip",
        input: "ref 1 8 a\nsym b",
        printed: "1 8 1 9 1 a\n= 1\n? no document\n\0",
        ..SILENT
    },
    Row {
        words: "query none.scip",
        input: "sym a\n",
        status: 3,
        said: "protoscip: none.scip: Unreadable\n",
        ..SILENT
    },
    Row {
        words: "query cut.scip",
        input: "sym a\n",
        status: 5,
        said: "protoscip: cut.scip@0: Truncated\n",
        ..SILENT
    },
    Row {
        words: "query twice.scip",
        input: "sym a\n",
        status: 5,
        said: "protoscip: twice.scip@2: Repeated\n",
        ..SILENT
    },
    // several indexes: as one; a path of two of them; a path twice in one, which is refused beside another alone; and
    // files that hold none
    Row {
        words: "query seen.scip a.scip empty.scip",
        input: "ref 1 8 a\nref 0 1 b/c.txt",
        printed: "1 8 1 9 1 a\n= 1\n0 0 0 2 1 a.txt\n0 1 0 2 0 b/c.txt\n= 2\n\0",
        ..SILENT
    },
    Row {
        words: "query seen.scip --explain a.scip seen.scip",
        input: "ref 1 8 a",
        status: 5,
        said: "protoscip: a.txt: Twice in seen.scip and seen.scip
both have a document with this path: join --replace takes that of the later one\n",
        ..SILENT
    },
    Row {
        words: "query pair.scip",
        input: "sym b",
        printed: "? no document\n\0",
        ..SILENT
    },
    Row {
        words: "query empty.scip pair.scip",
        input: "sym b",
        status: 5,
        said: "protoscip: a: Twice in pair.scip and pair.scip\n",
        ..SILENT
    },
    Row {
        words: "query a.scip none.scip cut.scip",
        input: "ref 1 8 a",
        status: 3,
        said: "protoscip: none.scip: Unreadable\n",
        ..SILENT
    },
    Row {
        words: "snapshot seen.scip src --also none.scip",
        status: 3,
        said: "protoscip: none.scip: Unreadable\n",
        ..SILENT
    },
    Row {
        words: "snapshot seen.scip src --also a.scip",
        printed: "a.txt
  ab
//^^ definition X#
//documentation
//> One.
  
b/c.txt
  \tx
//\t^ reference X#
\0",
        said: "protoscip: a: Unreadable\nprotoscip: no.txt: Unreadable\n",
        ..SILENT
    },
    Row {
        words: "snapshot seen.scip src",
        printed: "a.txt
  ab
//^^ definition X#
//documentation
//> One.
  
b/c.txt
  \tx
//\t^ reference X#
\0",
        said: "protoscip: no.txt: Unreadable\n",
        ..SILENT
    },
    Row {
        words: "snapshot --to out seen.scip src",
        written: b"[out/a.txt]  ab
//^^ definition X#
//documentation
//> One.
  
[out/b/c.txt]  \tx
//\t^ reference X#
\0",
        said: "protoscip: no.txt: Unreadable\n",
        ..SILENT
    },
    // closed pipes, and others that are full
    Row {
        words: "--version",
        printed: "proto",
        closes: true,
        ..SILENT
    },
    Row {
        words: "--version",
        printed: "proto",
        status: 3,
        said: "protoscip: Write\n",
        ..SILENT
    },
    Row {
        words: "dump",
        input: "syntax = \"proto3\";",
        printed: "0 0 0",
        closes: true,
        ..SILENT
    },
    Row {
        words: "dump",
        input: "syntax = \"proto3\";",
        printed: "0 0 0",
        status: 3,
        said: "protoscip: Write\n",
        ..SILENT
    },
    Row {
        words: "snapshot seen.scip src",
        printed: "a.txt\n",
        closes: true,
        ..SILENT
    },
    Row {
        words: "snapshot seen.scip src",
        printed: "a.txt\n",
        status: 3,
        said: "protoscip: Write\n",
        ..SILENT
    },
    Row {
        words: "query a.scip",
        input: "ref 1 8 a",
        printed: "1 8",
        closes: true,
        status: 3,
        said: "protoscip: Write\n",
        ..SILENT
    },
];

/// Room for what a run prints, for the files that it writes, and for its report.
#[derive(Drop)]
struct Rooms<'a> {
    printed: &'a mut [u8],
    written: &'a mut [u8],
    reported: &'a mut [u8],
}

/// Runs what was asked for. Gives the status, and whether what is due is said.
fn ended<R: Threads + Wait + Clock + Eprint + Sync>(
    rt: &R,
    alloc: Global,
    asked: &Result<Request, AllocError>,
    row: &Row,
    rooms: Rooms<'_>,
) -> (u8, bool) {
    let Rooms {
        printed,
        written,
        reported,
    } = rooms;
    let mut input = Std::new(row.input.as_bytes());
    let mut out = SystemStream::new(Pipe {
        room: printed,
        closes: row.closes,
    });
    let mut places = Places {
        file: Written {
            room: Std::new(written),
            path: out_path(asked),
            fits: row.fits,
            is_refused: row.is_refused,
            refusals: 0,
            cause: Cell::new(None),
        },
        report: Written {
            room: Std::new(reported),
            path: report_path(asked),
            fits: row.report_fits,
            is_refused: row.report_is_refused,
            refusals: 0,
            cause: Cell::new(None),
        },
    };
    let mut told = [0u8; ROOM];
    let mut messages = Std::new(told.as_mut_slice());
    let host = Host {
        rt,
        alloc,
        files: &Files { alloc },
        is_watched: true,
        manner: manner_of(asked, false),
    };
    let status = run(
        &host,
        asked,
        &mut input,
        &mut out,
        &mut places,
        &mut messages,
    );
    explain_failure(asked, status, &places, &out, &mut messages);
    let count = ROOM - messages.into_inner().len().min(ROOM);
    (status, told.split_at(count).0 == row.said.as_bytes())
}

/// Whether what was asked for ends as a row says; none after want of memory.
fn ends_so<R: Threads + Wait + Clock + Eprint + Sync>(
    rt: &R,
    alloc: Global,
    asked: &Result<Request, AllocError>,
    row: &Row,
) -> Option<bool> {
    let mut printed = [0u8; ROOM];
    let printed = printed.split_at_mut(row.printed.len().min(ROOM)).0;
    let mut written = [0u8; ROOM];
    let written = written.split_at_mut(row.written.len().min(ROOM)).0;
    let mut reported = [0u8; ROOM];
    let reported = reported.split_at_mut(row.reported.len().min(ROOM)).0;
    let rooms = Rooms {
        printed: &mut *printed,
        written: &mut *written,
        reported: &mut *reported,
    };
    let (status, is_said) = ended(rt, alloc, asked, row, rooms);
    if status == 4 && row.status != 4 {
        return None;
    }
    let is_out = *printed == *row.printed.as_bytes()
        && *written == *row.written
        && *reported == *row.reported.as_bytes();
    Some(status == row.status && is_said && is_out)
}

/// The same of the command line of a row.
fn runs_so<R: Threads + Wait + Clock + Eprint + Sync>(
    rt: &R,
    alloc: Global,
    words: &Vec<String>,
    row: &Row,
) -> Option<bool> {
    let asked = request_of(alloc, false, words);
    ends_so(rt, alloc, &asked, row)
}

/// Sees that a row's command line ends so. After want of memory it is run again, and the second run counts.
pub(crate) fn see_row<R: Threads + Wait + Clock + Eprint + Sync + Abort>(
    rt: &R,
    alloc: Global,
    row: &Row,
) -> Result<(), AllocError> {
    let words = words_of(alloc, row.words)?;
    let is_so = match runs_so(rt, alloc, &words, row) {
        None => runs_so(rt, alloc, &words, row),
        is_so => is_so,
    };
    see(rt, is_so == Some(true), row.words);
    Ok(())
}

#[test]
fn each_program_with_its_streams(rt: HostRuntime) -> Result<(), Fail> {
    for row in &ROWS {
        see_row(&rt, rt.alloc(), row)?;
    }
    Ok(())
}

static MEMORY: Row = Row {
    input: "syntax = \"proto3\";",
    status: 4,
    said: "protoscip: Memory\n",
    ..SILENT
};

#[test]
fn want_of_memory_for_the_command_line(rt: HostRuntime) {
    let is_so = ends_so(&rt, rt.alloc(), &Err(AllocError), &MEMORY);
    see(&rt, is_so == Some(true), "Memory");
}
