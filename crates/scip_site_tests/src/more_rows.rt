//! Commands with worked answers, in each manner.

use crate::asked::{queries, see_replied};
use crate::calls::see;
use crate::indexes::{DETAILED, FIELD_NAMED_LIKE_A_TYPE};
use scip_query::{Manner, Queries, Question, asked_about, json_of};
use std::alloc::{AllocError, Global};
use std::test::Fail;

/// Commands to the queries of an index in a manner, one a line, and their answers.
struct Row {
    index: &'static [u8],
    manner: Manner,
    commands: &'static str,
    answers: &'static str,
}

// The first row: what `a.proto` defines, in order of place. The package is around the message and the enum, and the
// message around its field. The enum's kind is in an external entry, and 300 is the number of no kind.
static ROWS: [Row; 11] = [
    Row {
        index: DETAILED,
        manner: Manner::More,
        commands: "out a.proto",
        answers: "0 8 - p/\n  1 8 Message p/M#\n    2 8 Field p/M#x.\n  4 8 Enum p/Md#\n5 0 300 local 1\n= 5\n",
    },
    Row {
        index: DETAILED,
        manner: Manner::More,
        commands: "sig 1 8 a.proto\nsig 2 8 a.proto\nsig 0 8 a.proto\nsig 9 9 a.proto\nsig 0 0 z\nout z\nsig 1 a.proto\n",
        answers: "| message M\n= 1\n| repeated\n| E x = 1\n= 1\n= 0\n? nothing there\n? no document\n? no document\n? bad command\n",
    },
    Row {
        index: DETAILED,
        manner: Manner::More,
        commands: "find M\nfind M.x\nfind zzz",
        answers: "1 8 1 9 1 a.proto\np/M#\n4 8 4 10 1 a.proto\np/Md#\n5 0 5 1 1 a.proto\nlocal 1\n= 3\n2 8 2 9 1 a.proto\np/M#x.\n= 1\n= 0\n",
    },
    Row {
        index: DETAILED,
        manner: Manner::More,
        commands: "find p.m\nfind md",
        answers: "1 8 1 9 1 a.proto\np/M#\n4 8 4 10 1 a.proto\np/Md#\n= 2\n4 8 4 10 1 a.proto\np/Md#\n5 0 5 1 1 a.proto\nlocal 1\n= 2\n",
    },
    Row {
        index: DETAILED,
        manner: Manner::More,
        commands: "pos a.proto:2:9\ndef 1 8 a.proto\npos a.proto:0:1\npos a.proto:2\npos b:c:1:1\nref 1 8 a.proto",
        answers: "1 8 1 9 1 a.proto\n= 1\n1 8 1 9 1 a.proto\n= 1\n? bad command\n? bad command\n? no document\n1 8 1 9 1 a.proto\n= 1\n",
    },
    Row {
        index: DETAILED,
        manner: Manner::Plain,
        commands: "sig 1 8 a.proto\nout a.proto\nfind M\nhelp\ndef 1 8 a.proto",
        answers: "? bad command\n? bad command\n? bad command\n? bad command\n1 8 1 9 1 a.proto\n= 1\n",
    },
    Row {
        index: DETAILED,
        manner: Manner::Spoken,
        commands: "def 9 9 a.proto\nout z\nx\npos a.proto:2:9",
        answers: "There is no symbol at this place.\nThe index has no document with this path.\nThis is no command. Type help for a list.\n1 8 1 9 1 a.proto\n= 1\n",
    },
    Row {
        index: FIELD_NAMED_LIKE_A_TYPE,
        manner: Manner::More,
        commands: "find foo\nfind proto",
        answers: "2 8 2 11 1 a.proto\nscip-protobuf . . . p/Foo#\n3 19 3 22 1 a.proto\nscip-protobuf . . . p/M#Foo.\n= 2\n= 0\n",
    },
    Row {
        index: DETAILED,
        manner: Manner::Json,
        commands: "def 1 8 a.proto\nsig 1 8 a.proto\nfind M.x\nout z\ndef 9 9 a.proto\nx",
        answers: "{\"occurrences\":[{\"path\":\"a.proto\",\"range\":[1,8,1,9],\"roles\":1,\"symbol\":\"p/M#\"}]}\n{\"texts\":[\"message M\"]}\n{\"definitions\":[{\"exact\":true,\"path\":\"a.proto\",\"range\":[2,8,2,9],\"roles\":1,\"symbol\":\"p/M#x.\"}]}\n{\"error\":\"no document\"}\n{\"error\":\"nothing there\"}\n{\"error\":\"bad command\"}\n",
    },
    Row {
        index: DETAILED,
        manner: Manner::Json,
        commands: "out a.proto",
        answers: "{\"outline\":[{\"depth\":0,\"kind\":\"-\",\"range\":[0,8,0,9],\"symbol\":\"p/\"},{\"depth\":1,\"kind\":\"Message\",\"range\":[1,8,1,9],\"symbol\":\"p/M#\"},{\"depth\":2,\"kind\":\"Field\",\"range\":[2,8,2,9],\"symbol\":\"p/M#x.\"},{\"depth\":1,\"kind\":\"Enum\",\"range\":[4,8,4,10],\"symbol\":\"p/Md#\"},{\"depth\":0,\"kind\":\"300\",\"range\":[5,0,5,1],\"symbol\":\"local 1\"}]}\n",
    },
    Row {
        index: DETAILED,
        manner: Manner::More,
        commands: "help",
        answers: "| def L C PATH: where the symbol at a position is defined; lines and columns count from 0\n| ref L C PATH: where it occurs\n| doc L C PATH: its documentation\n| sig L C PATH: how it is declared\n| sym PATH: the symbols of a file\n| out PATH: its definitions, in order of place\n| find TEXT: definitions by name, or the end of a full name, or how one begins\n| pos PATH:LINE:COL: as def; lines and columns count from 1\n| help: these lines\n= 1\n",
    },
];

#[test]
fn worked_rows_in_each_manner(rt: HostRuntime) -> Result<(), Fail> {
    for row in &ROWS {
        let asked = queries(&rt, rt.alloc(), row.index)?;
        see_replied(
            &rt,
            rt.alloc(),
            &asked,
            row.manner,
            row.commands,
            row.answers,
        );
    }
    Ok(())
}

/// Whether the calls behind the answers give what `DETAILED` has.
fn are_called(alloc: Global, asked: &Queries) -> Result<bool, AllocError> {
    let outline = match asked.outline(alloc, "a.proto") {
        Ok(outline) => outline,
        Err(_) => return Err(AllocError),
    };
    let found = asked.find(alloc, "M")?;
    let first = match (outline.as_slice(), found.as_slice()) {
        ([_, second, ..], [first, ..]) => {
            second.depth == 1 && second.kind == 28 && first.exact && first.path == "a.proto"
        }
        _ => false,
    };
    let signed = match asked.signature("a.proto", 1, 8) {
        Ok(text) => text == "message M",
        Err(_) => false,
    };
    Ok(first && signed)
}

#[test]
fn calls_behind_the_answers(rt: HostRuntime) -> Result<(), Fail> {
    let asked = queries(&rt, rt.alloc(), DETAILED)?;
    let are = match are_called(rt.alloc(), &asked) {
        Ok(are) => are,
        Err(AllocError) => are_called(rt.alloc(), &asked)?,
    };
    see(&rt, are, "calls");
    Ok(())
}

/// A question about a text in one line, and its answer as JSON.
struct OneLine {
    question: Question,
    text: &'static str,
    answer: &'static str,
}

// By a full name and its end, by a place, and a name that nothing has. The entry of the enum is an external one.
static ONE_LINE: [OneLine; 5] = [
    OneLine {
        question: Question::Definitions,
        text: "p.M",
        answer: "{\"occurrences\":[{\"path\":\"a.proto\",\"range\":[1,8,1,9],\"roles\":1,\"symbol\":\"p/M#\"}]}\n",
    },
    OneLine {
        question: Question::References,
        text: "M.x",
        answer: "{\"occurrences\":[{\"path\":\"a.proto\",\"range\":[2,8,2,9],\"roles\":1,\"symbol\":\"p/M#x.\"}]}\n",
    },
    OneLine {
        question: Question::References,
        text: "a.proto:2:9",
        answer: "{\"occurrences\":[{\"path\":\"a.proto\",\"range\":[1,8,1,9],\"roles\":1,\"symbol\":\"p/M#\"}]}\n",
    },
    OneLine {
        question: Question::Definitions,
        text: "zzz",
        answer: "{\"occurrences\":[]}\n",
    },
    OneLine {
        question: Question::Documentation,
        text: "z:1:1",
        answer: "{\"error\":\"no document\"}\n",
    },
];

/// The answer to a question in one line; empty if it is none.
fn one_line(alloc: Global, asked: &Queries, row: &OneLine) -> Result<String, AllocError> {
    match asked_about(row.question, row.text) {
        Some(command) => json_of(alloc, &asked.given(alloc, &command)?),
        None => Ok(String::new(alloc)),
    }
}

#[test]
fn asked_in_one_line(rt: HostRuntime) -> Result<(), Fail> {
    let asked = queries(&rt, rt.alloc(), DETAILED)?;
    for row in &ONE_LINE {
        let line = match one_line(rt.alloc(), &asked, row) {
            Ok(line) => line,
            Err(AllocError) => one_line(rt.alloc(), &asked, row)?,
        };
        see(&rt, line.as_str() == row.answer, line.as_str());
    }
    see(
        &rt,
        asked_about(Question::References, "").is_none(),
        "no name",
    );
    Ok(())
}
