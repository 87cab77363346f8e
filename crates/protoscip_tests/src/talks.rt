//! Sessions: commands about the index of a tree, and their answers.

use crate::calls::{COUNTS, Desk, Due, Given, Told, dues_of, is_due, paced_writer, see, whole};
use crate::faulty_streams::{Dripping, drip, resting};
use index_hooks::{DocAlways, DocChoice, Registry};
use proto_lex::Encoding;
use protoscip::{Fault, Manner, Talk as Held, session, session_in};
use scip_build::{Duplicates, Faulty};
use std::alloc::{AllocError, Global};
use std::process::Abort;
use std::sync::Wait;
use std::test::Fail;
use std::thread::Threads;
use streams::Std;
use test_kit::Draft;

/// What a session is held over, and what is due of it.
#[derive(Clone, Copy, Drop)]
struct Talk<'a> {
    manner: Manner,
    commands: Dripping<'a>,
    due: Due<'a>,
}

impl<'a, R: Threads + Wait + Abort> Desk<'a, R> {
    /// Whether a session answers as is due, by so many workers.
    fn is_served(&self, given: &Given, count: usize, talk: &Talk) -> Told {
        let run = self.run(count);
        let (tree, registry, settings) = (&given.tree, given.registry, &given.settings);
        let mut input = Std::new(talk.commands);
        let mut output = paced_writer(self.alloc, talk.due.room, talk.due.pace)?;
        let held = Held {
            chooser: registry,
            settings,
            manner: talk.manner,
        };
        let answer = match talk.manner {
            Manner::Plain => session(&run, tree, registry, settings, &mut input, &mut output),
            _ => session_in(&run, tree, &held, &mut input, &mut output),
        };
        Ok(is_due(answer.err(), output, &talk.due))
    }

    /// Sees that it does. After want of memory or of a thread it is held again, and the second answers count.
    fn see_served(&self, given: &Given, count: usize, talk: &Talk) -> Result<(), AllocError> {
        let is_so = match self.is_served(given, count, talk)? {
            None => self.is_served(given, count, talk)?,
            is_so => is_so,
        };
        see(self.rt, is_so == Some(true), "a session");
        Ok(())
    }
}

/// Files, as `test_kit` takes them, commands, and the answers that are due.
#[derive(Drop)]
struct Row<'a> {
    files: &'a str,
    commands: &'a str,
    answers: &'a str,
}

// The third row reads: the text before `A`, which stands at line 3, is that of both comments.
static ROWS: [Row<'static>; 4] = [
    Row {
        files: "",
        commands: "",
        answers: "",
    },
    Row {
        files: FIELDS,
        commands: "ref 3 28 a.proto\ndef 3 28 a.proto\ndef 3 31 a.proto\ndef 0 0 a.proto\ndef 0 0 z.proto\nref\nsym a.proto",
        answers: "2 8 2 11 1 a.proto\n3 28 3 31 0 a.proto\n= 2\n2 8 2 11 1 a.proto\n= 1\n? nothing there\n0 0 0 0 1 a.proto\n= 1\n? no document\n? bad command\nscip-protobuf . . . `a.proto`/\nscip-protobuf . . . p/\nscip-protobuf . . . p/Foo#\nscip-protobuf . . . p/M#\nscip-protobuf . . . p/M#Foo.\nscip-protobuf . . . p/M#x.\n= 6\n",
    },
    Row {
        files: COMMENTS,
        commands: "doc 3 8 a.proto\n",
        answers: "| One.\n| Two.\n= 1\n",
    },
    Row {
        files: "a.proto\nsyntax = \"proto3\";\nimport \"t.proto\";\nmessage M { lib.T t = 1; }\n|\
+t.proto\nsyntax = \"proto3\";\npackage lib;\n// A thing.\nmessage T { int32 n = 1; }\n",
        commands: "def 2 16 a.proto\nref 2 16 a.proto\ndoc 2 16 a.proto\n",
        answers: "= 0\n2 16 2 17 0 a.proto\n= 1\n| A thing.\n= 1\n",
    },
];

const FIELDS: &str =
    "a.proto\nsyntax = \"proto3\";\npackage p;\nmessage Foo {}\nmessage M { string Foo = 1; Foo x = 2; }\n";

const COMMENTS: &str =
    "a.proto\nsyntax = \"proto3\";\n// One.\n// Two.\nmessage A { // tail\n  int32 x = 1; /* unit */\n}\n";

impl<'a, R: Threads + Wait + Abort> Desk<'a, R> {
    /// Sees that a session answers as is due, by each of these counts of workers.
    fn see_talk(&self, given: &Given, talk: &Talk, by: &[usize]) -> Result<(), AllocError> {
        for count in by {
            self.see_served(given, *count, talk)?;
        }
        Ok(())
    }

    /// Sees that the commands of a row are answered as is due, by each of these counts of workers.
    fn see_row(&self, registry: &Registry, row: &Row, by: &[usize]) -> Result<(), AllocError> {
        self.see_row_in(registry, Manner::Plain, row, by)
    }

    /// The same in a manner.
    fn see_row_in(
        &self,
        registry: &Registry,
        manner: Manner,
        row: &Row,
        by: &[usize],
    ) -> Result<(), AllocError> {
        let talk = Talk {
            manner,
            commands: drip(row.commands.as_bytes(), 1, usize::MAX),
            due: whole(row.answers.as_bytes()),
        };
        let given = self.given(registry, row.files, Encoding::Utf8, Faulty::Refuse)?;
        self.see_talk(&given, &talk, by)
    }

    /// The same, where several files may give one name.
    fn see_kept_row(&self, registry: &Registry, row: &Row) -> Result<(), AllocError> {
        let talk = Talk {
            manner: Manner::Plain,
            commands: drip(row.commands.as_bytes(), 1, usize::MAX),
            due: whole(row.answers.as_bytes()),
        };
        let given = self.given(registry, row.files, Encoding::Utf8, Faulty::Refuse)?;
        let kept = given.naming(Duplicates::Keep);
        self.see_talk(&kept, &talk, &COUNTS)
    }

    /// Sees that the commands of each row are answered as is due.
    fn see_rows(&self, registry: &Registry) -> Result<(), AllocError> {
        for row in &ROWS {
            self.see_row(registry, row, &COUNTS)?;
        }
        Ok(())
    }
}

#[test]
fn answers_to_commands(rt: HostRuntime) -> Result<(), Fail> {
    let registry = Registry::new(rt.alloc());
    Ok(Desk::new(&rt, rt.alloc()).see_rows(&registry)?)
}

// Two files declare one name, and the third means that which it imports.
static KEPT: Row<'static> = Row {
    files: "a.proto\nsyntax = \"proto3\";\npackage p;\nmessage M { message A {} }\n|\
b.proto\nsyntax = \"proto3\";\npackage p;\nmessage M { message B {} }\n|\
c.proto\nsyntax = \"proto3\";\npackage p;\nimport \"b.proto\";\nmessage U { M.B x = 1; }\n",
    commands: "def 3 12 c.proto\nref 2 8 a.proto\nref 2 8 b.proto\nsym b.proto\n",
    answers: "2 8 2 9 1 b.proto\n= 1\n2 8 2 9 1 a.proto\n= 1\n2 8 2 9 1 b.proto\n3 12 3 13 0 c.proto\n= 2\nscip-protobuf . . . `b.proto`/\nscip-protobuf . . . `b.proto`/p/M#\nscip-protobuf . . . `b.proto`/p/M#B#\nscip-protobuf . . . p/\n= 4\n",
};

#[test]
fn answers_about_names_given_twice(rt: HostRuntime) -> Result<(), Fail> {
    let registry = Registry::new(rt.alloc());
    Ok(Desk::new(&rt, rt.alloc()).see_kept_row(&registry, &KEPT)?)
}

// A package is around its messages, and a message around its fields; no kind and no signature is known.
static MORE: Row<'static> = Row {
    files: FIELDS,
    commands: "out a.proto\nfind M.x\nsig 3 8 a.proto\npos a.proto:4:9\ndef 9 9 a.proto\n",
    answers: "0 0 - scip-protobuf . . . `a.proto`/\n1 8 - scip-protobuf . . . p/\n  2 8 - scip-protobuf . . . p/Foo#\n  3 8 - scip-protobuf . . . p/M#\n    3 19 - scip-protobuf . . . p/M#Foo.\n    3 32 - scip-protobuf . . . p/M#x.\n= 6\n3 32 3 33 1 a.proto\nscip-protobuf . . . p/M#x.\n= 1\n= 0\n3 8 3 9 1 a.proto\n= 1\n? nothing there\n",
};

static SPOKEN: Row<'static> = Row {
    files: FIELDS,
    commands: "def 9 9 a.proto\npos a.proto:4:9\n",
    answers: "There is no symbol at this place.\n3 8 3 9 1 a.proto\n= 1\n",
};

#[test]
fn answers_in_other_manners(rt: HostRuntime) -> Result<(), Fail> {
    let registry = Registry::new(rt.alloc());
    let desk = Desk::new(&rt, rt.alloc());
    desk.see_row_in(&registry, Manner::More, &MORE, &[1])?;
    desk.see_row_in(&registry, Manner::Spoken, &SPOKEN, &[1])?;
    Ok(())
}

static COMPOUND_NAME: Row<'static> = Row {
    files: "t.proto\nsyntax = \"proto3\";\npackage google.protobuf;\nmessage Timestamp {}\n|\
a.proto\nsyntax = \"proto3\";\npackage acme;\nimport \"b.proto\";\nimport \"t.proto\";\nmessage M { .google.protobuf.Timestamp t = 1; }\n|\
b.proto\nsyntax = \"proto3\";\npackage acme.google;\n",
    commands: "def 4 29 a.proto\nref 4 13 a.proto\ndef 4 20 a.proto\n",
    answers: "2 8 2 17 1 t.proto\n= 1\n4 13 4 19 0 a.proto\n1 8 1 14 1 t.proto\n= 2\n1 15 1 23 1 t.proto\n= 1\n",
};

/// A test of its own, so that `checks/refuse_allocations` refuses each of its allocations.
#[test]
fn a_compound_name_on_1_and_4_workers(rt: HostRuntime) -> Result<(), Fail> {
    let registry = Registry::new(rt.alloc());
    Ok(Desk::new(&rt, rt.alloc()).see_row(&registry, &COMPOUND_NAME, &[1, 4])?)
}

static BOTH_TEXTS: Row<'static> = Row {
    files: COMMENTS,
    commands: "doc 3 8 a.proto\ndoc 4 8 a.proto\n",
    answers: "| One.\n| Two.\n| tail\n= 2\n|  unit \n= 1\n",
};

#[test]
fn texts_that_a_rule_takes(rt: HostRuntime) -> Result<(), Fail> {
    let mut registry = Registry::new(rt.alloc());
    let rule = Box::new(rt.alloc(), DocAlways(DocChoice::Both).rule())?;
    if let Err((rule, _)) = registry.add_doc(rule) {
        see(&rt, registry.add_doc(rule).is_ok(), "added again");
    }
    Ok(Desk::new(&rt, rt.alloc()).see_row(&registry, &BOTH_TEXTS, &COUNTS)?)
}

/// The longest path, for which `@` stands, with 4,090 letters before its ending; a name of 10,000 letters, `^`; and a
/// word `~` with which a command has the greatest length.
static LONG: Row<'static> = Row {
    files: "@.proto\nsyntax = \"proto3\";\nmessage ^ {}\n",
    commands: "sym @.proto\ndef 1 8 @.proto\ndef 1 8 ~\ndef 1 8 ~b\n",
    answers: "scip-protobuf . . . ^#\nscip-protobuf . . . `@.proto`/\n= 2\n1 8 1 10008 1 @.proto\n= 1\n? no document\n? bad command\n",
};

/// Adds a letter so often.
fn add_times(text: &mut Draft, letter: char, count: usize) {
    for _ in 0..count {
        text.add_char(letter);
    }
}

/// A text with what its marks stand for.
fn spelled_out(alloc: Global, marked: &str) -> Result<String, AllocError> {
    let mut text = Draft::new(alloc);
    for mark in marked.chars() {
        let (letter, count) = match mark {
            '@' => ('a', 4_090),
            '^' => ('M', 10_000),
            '~' => ('b', 65_528),
            _ => (mark, 1),
        };
        add_times(&mut text, letter, count);
    }
    text.finish()
}

impl<'a, R: Threads + Wait + Abort> Desk<'a, R> {
    /// Sees that these commands about the files of the long row are answered as is due.
    fn see_long_with(
        &self,
        registry: &Registry,
        files: &str,
        commands: &str,
    ) -> Result<(), AllocError> {
        let answers = spelled_out(self.alloc, LONG.answers)?;
        let row = Row {
            files,
            commands,
            answers: answers.as_str(),
        };
        self.see_row(registry, &row, &[1])
    }

    /// Sees that the commands of the long row are answered as is due.
    fn see_long(&self, registry: &Registry) -> Result<(), AllocError> {
        let files = spelled_out(self.alloc, LONG.files)?;
        let commands = spelled_out(self.alloc, LONG.commands)?;
        self.see_long_with(registry, files.as_str(), commands.as_str())
    }
}

#[test]
fn a_long_path_a_long_name_and_long_commands(rt: HostRuntime) -> Result<(), Fail> {
    let registry = Registry::new(rt.alloc());
    Ok(Desk::new(&rt, rt.alloc()).see_long(&registry)?)
}

const DEFINITION: &[u8] = b"2 8 2 11 1 a.proto\n= 1\n";

const BOTH_ANSWERS: &[u8] =
    b"2 8 2 11 1 a.proto\n= 1\n2 8 2 11 1 a.proto\n3 28 3 31 0 a.proto\n= 2\n";

/// Two commands, of 17 and 18 bytes.
const COMMANDS: &[u8] = b"def 3 28 a.proto\nref 3 28 a.proto\n";

/// The most bytes that a reader gives a call, and how many calls come to the end of the commands.
const READERS: [(usize, usize); 3] = [(1, 35), (7, 6), (usize::MAX, 2)];

/// The commands by a reader that fails behind so many calls, if it doesn't come to the end by then: the lines that have
/// ended are answered.
fn read_until(most: usize, to_end: usize, calls: usize) -> Talk<'static> {
    let answers = match most.saturating_mul(calls) {
        0..17 => b"".as_slice(),
        17..34 => DEFINITION,
        _ => BOTH_ANSWERS,
    };
    let fault = if calls < to_end {
        Some(Fault::Read)
    } else {
        None
    };
    Talk {
        manner: Manner::Plain,
        commands: drip(COMMANDS, most, calls),
        due: Due {
            fault,
            ..whole(answers)
        },
    }
}

/// The commands by a reader whose second call gives nothing: the line that ends there is answered, too.
fn rested(most: usize) -> Talk<'static> {
    let answers = if most < 16 {
        b"? bad command\n".as_slice()
    } else {
        BOTH_ANSWERS
    };
    Talk {
        manner: Manner::Plain,
        commands: resting(COMMANDS, most),
        due: whole(answers),
    }
}

impl<'a, R: Threads + Wait + Abort> Desk<'a, R> {
    /// Sees what is due of a command to writers that fail.
    fn see_writers(&self, given: &Given, dues: &[Due<'_>]) -> Result<(), AllocError> {
        for due in dues {
            let talk = Talk {
                manner: Manner::Plain,
                commands: drip(b"def 3 28 a.proto", usize::MAX, usize::MAX),
                due: *due,
            };
            self.see_served(given, 1, &talk)?;
        }
        Ok(())
    }

    /// Sees what is due of a reader that fails behind each of its calls, of one that doesn't, and of one that rests.
    fn see_reads(&self, given: &Given, most: usize, to_end: usize) -> Result<(), AllocError> {
        for calls in 0..36 {
            self.see_served(given, 1, &read_until(most, to_end, calls))?;
        }
        self.see_served(given, 1, &rested(most))
    }

    /// Sees what is due of each reader.
    fn see_readers(&self, given: &Given) -> Result<(), AllocError> {
        for (most, to_end) in &READERS {
            self.see_reads(given, *most, *to_end)?;
        }
        Ok(())
    }

    /// Sees what is due of writers that fail, and of readers.
    fn see_both(&self, given: &Given, dues: &[Due<'_>]) -> Result<(), AllocError> {
        self.see_writers(given, dues)?;
        self.see_readers(given)
    }

    /// Sees what is due of writers and readers that fail.
    fn see_streams(&self, registry: &Registry) -> Result<(), AllocError> {
        let dues = dues_of(self.alloc, DEFINITION, true)?;
        let given = self.given(registry, FIELDS, Encoding::Utf8, Faulty::Refuse)?;
        self.see_both(&given, &dues)
    }
}

#[test]
fn streams_that_fail_or_rest(rt: HostRuntime) -> Result<(), Fail> {
    let registry = Registry::new(rt.alloc());
    Ok(Desk::new(&rt, rt.alloc()).see_streams(&registry)?)
}
