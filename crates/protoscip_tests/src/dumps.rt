//! Sources dumped, by lines worked out by hand, and streams that fail.

use crate::calls::{Desk, Due, Told, dues_of, is_due, paced_writer, see, whole, writer};
use crate::faulty_streams::{AT_ONCE, Endless, drip, resting};
use proto_parse::{CustomOptions, Dialect, SyntaxFault};
use protoscip::{Fault, dump, dump_with};
use std::alloc::AllocError;
use std::io::Read;
use std::process::Abort;
use std::sync::Wait;
use std::test::Fail;
use std::thread::Threads;
use streams::Std;

/// What is accepted, if no option says otherwise.
const PROTO3: Dialect = Dialect::Proto3(CustomOptions::Refuse);

impl<'a, R: Threads + Wait + Abort> Desk<'a, R> {
    /// Whether `dump` answers as is due.
    fn is_dumped<S: Read + Drop>(&self, dialect: Dialect, reader: S, due: Due<'_>) -> Told {
        let mut input = Std::new(reader);
        let mut output = paced_writer(self.alloc, due.room, due.pace)?;
        let answer = dump_with(self.rt, self.alloc, dialect, &mut input, &mut output).err();
        Ok(is_due(answer, output, &due))
    }

    /// Sees that it does. After `Memory` it is called again with a new reader and writer, and the second answer
    /// counts.
    fn see_dump<S: Read + Drop + Copy>(
        &self,
        dialect: Dialect,
        reader: S,
        due: Due<'_>,
        case: &str,
    ) -> Result<(), AllocError> {
        let is_so = match self.is_dumped(dialect, reader, due)? {
            None => self.is_dumped(dialect, reader, due)?,
            is_so => is_so,
        };
        see(self.rt, is_so == Some(true), case);
        Ok(())
    }
}

/// A source, what is accepted, and the listing.
struct Row {
    source: &'static str,
    dialect: Dialect,
    listing: &'static str,
}

// The first row reads: the file occurs at 0 to 0 of line 0, and `A#` at 8 to 9 of line 1, both as
// definitions (1); they are two.
static ROWS: [Row; 5] = [
    Row {
        source: "syntax = \"proto3\";\nmessage A {}\n",
        dialect: PROTO3,
        listing: "0 0 0 0 1 scip-protobuf . . . `input.proto`/\n1 8 1 9 1 scip-protobuf . . . A#\n= 2\n",
    },
    Row {
        source: "syntax = \"proto3\";\npackage p;\nmessage Foo {}\nmessage M { string Foo = 1; Foo x = 2; }\n",
        dialect: PROTO3,
        listing: "0 0 0 0 1 scip-protobuf . . . `input.proto`/\n1 8 1 9 1 scip-protobuf . . . p/\n2 8 2 11 1 scip-protobuf . . . p/Foo#\n3 8 3 9 1 scip-protobuf . . . p/M#\n3 19 3 22 1 scip-protobuf . . . p/M#Foo.\n3 28 3 31 0 scip-protobuf . . . p/Foo#\n3 32 3 33 1 scip-protobuf . . . p/M#x.\n= 7\n",
    },
    Row {
        source: "syntax = \"proto3\";\noption (x).y = { a: 1 };\nmessage A {}\n",
        dialect: Dialect::Proto3(CustomOptions::Skip),
        listing: "0 0 0 0 1 scip-protobuf . . . `input.proto`/\n2 8 2 9 1 scip-protobuf . . . A#\n= 2\n",
    },
    Row {
        source: "option (x).y = { a: 1 };\nmessage A {}\n",
        dialect: Dialect::All,
        listing: "0 0 0 0 1 scip-protobuf . . . `input.proto`/\n1 8 1 9 1 scip-protobuf . . . A#\n= 2\n",
    },
    Row {
        source: "syntax = \"proto2\";\nmessage A { extensions 5 to 9; optional group G = 1 { required A a = 1; } }\nextend A { optional A.G x = 5; }\n",
        dialect: Dialect::All,
        listing: "0 0 0 0 1 scip-protobuf . . . `input.proto`/\n1 8 1 9 1 scip-protobuf . . . A#\n1 40 1 45 1 scip-protobuf . . . A#g.\n1 46 1 47 1 scip-protobuf . . . A#G#\n1 63 1 64 0 scip-protobuf . . . A#\n1 65 1 66 1 scip-protobuf . . . A#G#a.\n2 7 2 8 0 scip-protobuf . . . A#\n2 20 2 21 0 scip-protobuf . . . A#\n2 22 2 23 0 scip-protobuf . . . A#G#\n2 24 2 25 1 scip-protobuf . . . x.\n= 10\n",
    },
];

#[test]
fn sources_that_have_a_listing(rt: HostRuntime) -> Result<(), Fail> {
    let desk = Desk::new(&rt, rt.alloc());
    for row in &ROWS {
        let due = whole(row.listing.as_bytes());
        desk.see_dump(row.dialect, row.source.as_bytes(), due, row.source)?;
    }
    Ok(())
}

/// A file without a declaration, and its listing.
const NONE: &[u8] = b"syntax = \"proto3\";";

const OF_NONE: &[u8] = b"0 0 0 0 1 scip-protobuf . . . `input.proto`/\n= 1\n";

#[test]
fn writers_that_fail(rt: HostRuntime) -> Result<(), Fail> {
    let desk = Desk::new(&rt, rt.alloc());
    let dues = dues_of(rt.alloc(), OF_NONE, false)?;
    for due in &dues {
        desk.see_dump(PROTO3, NONE, *due, "a write fails")?;
    }
    Ok(())
}

/// What is due where nothing can be read to the end.
const UNREAD: Due<'static> = Due {
    room: 49,
    pace: AT_ONCE,
    fault: Some(Fault::Read),
    written: b"",
};

/// The most bytes that a reader gives a call, and how many calls come to the end of the file.
const READERS: [(usize, usize); 3] = [(1, 19), (7, 4), (usize::MAX, 2)];

impl<'a, R: Threads + Wait + Abort> Desk<'a, R> {
    /// Sees what is due of a reader that fails at each of its calls, and of one that doesn't.
    fn see_failing_reads(&self, most: usize, to_end: usize) -> Result<(), AllocError> {
        for calls in 0..20 {
            let is_read = to_end <= calls;
            let due = if is_read { whole(OF_NONE) } else { UNREAD };
            self.see_dump(PROTO3, drip(NONE, most, calls), due, "a read fails")?;
        }
        Ok(())
    }
}

#[test]
fn readers_that_fail(rt: HostRuntime) -> Result<(), Fail> {
    let desk = Desk::new(&rt, rt.alloc());
    for (most, to_end) in &READERS {
        desk.see_failing_reads(*most, *to_end)?;
    }
    Ok(())
}

/// The most bytes that a reader gives a call, of which the second gives nothing; and why what is read is refused, if it
/// is. The second row reads: behind the word `syntax` and a space tokens are missing.
const ENDED: [(usize, Option<Fault>, &[u8]); 3] = [
    (1, Some(Fault::Syntax(0, SyntaxFault::NotProto3(0))), b""),
    (7, Some(Fault::Syntax(0, SyntaxFault::Grammar(7))), b""),
    (usize::MAX, None, OF_NONE),
];

#[test]
fn readers_that_rest(rt: HostRuntime) -> Result<(), Fail> {
    let desk = Desk::new(&rt, rt.alloc());
    for (most, fault, written) in &ENDED {
        let due = Due {
            fault: *fault,
            written: *written,
            ..UNREAD
        };
        desk.see_dump(PROTO3, resting(NONE, *most), due, "an end")?;
    }
    Ok(())
}

/// Sources, and how many of their beginnings have a listing: each has of which the statements are whole and, in the
/// third, no name is given twice.
const SOURCES: [(&str, usize); 4] = [
    (
        "syntax = \"proto3\";\npackage p;\nmessage Foo {}\nmessage M { string Foo = 1; Foo x = 2; }\n",
        8,
    ),
    (
        "syntax = \"proto3\";\nmessage Foo {}\nservice S { rpc Foo(Foo) returns (stream Foo); }\n",
        6,
    ),
    (
        "syntax = \"proto3\";\nmessage M {\n  enum A { ZERO = 0; }\n  enum B { ZERO = 0; }\n}\n",
        2,
    ),
    (
        "syntax = \"proto3\";\n// One.\n// Two.\nmessage A { // tail\n  int32 x = 1; /* unit */\n}\n",
        18,
    ),
];

impl<'a, R: Threads + Wait + Abort> Desk<'a, R> {
    /// Whether a source has a listing, or is refused by name with nothing written; none where neither is so.
    fn is_listed(&self, source: &[u8]) -> Told {
        let mut input = Std::new(source);
        let mut output = writer(self.alloc, 512)?;
        let answer = dump(self.rt, self.alloc, &mut input, &mut output).err();
        let bytes = output.into_inner().bytes;
        Ok(match answer {
            None if bytes.as_slice().ends_with(b"\n") => Some(true),
            Some(fault) if fault.status() == 1 && bytes.is_empty() => Some(false),
            _ => None,
        })
    }

    /// Sees how many beginnings of a source have a listing. After want of memory one is dumped again.
    fn see_beginnings(&self, source: &str, due: usize) -> Result<(), AllocError> {
        let mut listed = 0usize;
        for end in 0..=source.len() {
            let front = source.as_bytes().split_at(end.min(source.len())).0;
            let is = match self.is_listed(front)? {
                None => self.is_listed(front)?,
                is => is,
            };
            see(self.rt, is.is_some(), source);
            listed = listed.wrapping_add(usize::from(is == Some(true)));
        }
        see(self.rt, listed == due, source);
        Ok(())
    }
}

#[test]
fn each_beginning_of_a_source(rt: HostRuntime) -> Result<(), Fail> {
    let desk = Desk::new(&rt, rt.alloc());
    for (source, due) in &SOURCES {
        desk.see_beginnings(*source, *due)?;
    }
    Ok(())
}

#[test]
fn a_source_without_an_end(rt: HostRuntime) -> Result<(), Fail> {
    Ok(Desk::new(&rt, rt.alloc()).see_dump(PROTO3, Endless, UNREAD, "no end")?)
}
