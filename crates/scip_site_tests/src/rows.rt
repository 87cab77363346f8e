//! Commands with worked answers.

use crate::calls::see;
use crate::checks::{Check, see_bytes};
use crate::indexes::{DOCUMENTED, FIELD_NAMED_LIKE_A_TYPE, LOCAL_IN_TWO_DOCUMENTS, REVERSED};
use crate::wire_indexes::MESSAGE;
use scip_query::{AnswerFault, QueryFault};
use std::test::Fail;

/// Commands to the queries of an index, one a line, and their answers.
struct Row {
    index: &'static [u8],
    commands: &'static str,
    answers: &'static str,
}

// The first row: at line 3, column 28 of `a.proto` is the type of a field. Its references are its
// definition, from 8 to 11 in line 2 with role 1, and this use, which has no role; they are two.
static ROWS: [Row; 6] = [
    Row {
        index: FIELD_NAMED_LIKE_A_TYPE,
        commands: "ref 3 28 a.proto",
        answers: "2 8 2 11 1 a.proto\n3 28 3 31 0 a.proto\n= 2\n",
    },
    Row {
        index: FIELD_NAMED_LIKE_A_TYPE,
        commands: "def 3 28 a.proto\ndef 3 31 a.proto\ndef 0 0 a.proto\ndef 0 0 z.proto\nref\nsym a.proto",
        answers: "2 8 2 11 1 a.proto\n= 1\n? nothing there\n0 0 0 0 1 a.proto\n= 1\n? no document\n? bad command\nscip-protobuf . . . `a.proto`/\nscip-protobuf . . . p/\nscip-protobuf . . . p/Foo#\nscip-protobuf . . . p/M#\nscip-protobuf . . . p/M#Foo.\nscip-protobuf . . . p/M#x.\n= 6\n",
    },
    Row {
        index: DOCUMENTED,
        commands: "doc 3 8 a.proto\ndoc 4 8 a.proto\n",
        answers: "| One.\n| Two.\n| tail\n= 2\n|  unit \n= 1\n",
    },
    Row {
        index: LOCAL_IN_TWO_DOCUMENTS,
        commands: "ref 0 2 a",
        answers: "0 0 0 1 1 a\n0 2 0 3 0 a\n= 2\n",
    },
    Row {
        index: MESSAGE,
        commands: "def 1 8 a.proto",
        answers: "1 8 1 9 1 a.proto\n= 1\n",
    },
    Row {
        index: REVERSED,
        commands: "ref 1 8 a\nref 1 9 a",
        answers: "? nothing there\n? nothing there\n",
    },
];

#[test]
fn worked_rows(rt: HostRuntime) -> Result<(), Fail> {
    for row in &ROWS {
        let check = Check::Answers(row.commands, row.answers);
        see_bytes(&rt, rt.alloc(), row.index, check)?;
    }
    Ok(())
}

#[test]
fn faults_are_printed_as_sentences(rt: HostRuntime) -> Result<(), Fail> {
    let (none, nothing, memory) = (
        QueryFault::NoDocument,
        QueryFault::NothingThere,
        QueryFault::Memory,
    );
    let text = format!(in rt.alloc(); "{none} {nothing} {memory}")?;
    see(
        &rt,
        text.as_str() == "no document has this path no symbol is at this position memory ran out",
        "of a query",
    );
    let (read, cut, memory) = (
        AnswerFault::Read,
        AnswerFault::Write(7),
        AnswerFault::Memory,
    );
    let text = format!(in rt.alloc(); "{read} {cut} {memory}")?;
    see(
        &rt,
        text.as_str()
            == "commands that can't be read to their end a write that failed, after 7 bytes memory ran out",
        "of an answer",
    );
    Ok(())
}
