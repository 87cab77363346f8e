//! Queries, and the answers to commands.

use crate::broken::Broken;
use crate::shared::see;
use scip_model::Std;
use scip_query::{
    AnswerFault, Place, Queries, QueryFault, kind_in, kind_text, signature_in, texts_of,
};
use scip_wire::read_index;
use std::alloc::Global;
use std::test::Fail;

/// Documents `a` and `b`, each with `local 1` at `[0,0,1]` in role 1 and at `[0,2,3]` in role 0.
const LOCALS: &[u8] = b"\x12\x25\x0A\x01a\
\x12\x10\x0A\x03\x00\x00\x01\x12\x07local 1\x18\x01\x12\x0E\x0A\x03\x00\x02\x03\x12\x07local 1\
\x12\x25\x0A\x01b\
\x12\x10\x0A\x03\x00\x00\x01\x12\x07local 1\x18\x01\x12\x0E\x0A\x03\x00\x02\x03\x12\x07local 1";

/// A document `a` with `x` at `[0,0,1]` in role 1, whose texts are `One.` and `Two.`.
const TEXTS: &[u8] = b"\x12\x20\x0A\x01a\x12\x0A\x0A\x03\x00\x00\x01\x12\x01x\x18\x01\
\x1A\x0F\x0A\x01x\x1A\x04One.\x1A\x04Two.";

/// Whether this is the occurrence at a position, and nothing is between two occurrences.
fn is_at(queries: &Queries) -> bool {
    let is_so = match queries.at("a", 0, 2) {
        Some(found) => found.symbol.as_str() == "local 1" && found.symbol_roles == 0,
        None => false,
    };
    is_so && queries.at("a", 0, 1).is_none()
}

/// The occurrence with a number in the document with a number.
const fn place(document: usize, occurrence: usize) -> Place {
    Place {
        document,
        occurrence,
    }
}

/// Whether these are the definitions of a local symbol: that of the document.
fn are_definitions(alloc: Global, queries: &Queries) -> bool {
    match queries.definitions(alloc, "b", 0, 2) {
        Ok(places) => places.as_slice() == [place(1, 0)].as_slice(),
        Err(_) => false,
    }
}

/// Whether these are its references, in order.
fn are_references(alloc: Global, queries: &Queries) -> bool {
    match queries.references(alloc, "a", 0, 2) {
        Ok(places) => places.as_slice() == [place(0, 0), place(0, 1)].as_slice(),
        Err(_) => false,
    }
}

/// Paths and columns at which there is nothing, and why.
const REFUSED: [(&str, u32, QueryFault); 2] = [
    ("z", 0, QueryFault::NoDocument),
    ("a", 1, QueryFault::NothingThere),
];

/// Whether these queries are refused so.
fn are_refused(alloc: Global, queries: &Queries) -> bool {
    for (path, column, due) in &REFUSED {
        if queries.references(alloc, path, 0, *column).err() != Some(*due) {
            return false;
        }
    }
    true
}

/// Whether these are the texts of a symbol.
fn are_texts(alloc: Global, queries: &Queries) -> bool {
    match queries.documentation(alloc, "a", 0, 0) {
        Ok(texts) => texts.as_slice() == ["One.", "Two."].as_slice(),
        Err(_) => false,
    }
}

/// Whether this is the entry of a document.
fn are_entries(alloc: Global, queries: &Queries) -> bool {
    match queries.symbols(alloc, "a") {
        Ok(entries) => match entries.as_slice() {
            [entry] => entry.symbol.as_str() == "x",
            _ => false,
        },
        Err(_) => false,
    }
}

/// Whether this is the entry of a symbol by itself.
fn is_entry(queries: &Queries) -> bool {
    let texts = texts_of(queries.entry_in(0, "x"));
    let (_, near) = queries.entry_in_near(0, 0, "x");
    texts.len() == 2 && kind_in(near) == 0 && signature_in(near).is_empty()
}

/// Whether this is the name of a kind.
fn is_kind(alloc: Global) -> bool {
    match kind_text(alloc, 28) {
        Ok(text) => text.as_str() == "Message",
        Err(_) => false,
    }
}

/// Commands, and their answers.
const ANSWERS: [(&str, &str); 7] = [
    ("ref 0 2 a", "0 0 0 1 1 a\n0 2 0 3 0 a\n= 2\n"),
    ("def 0 2 a", "0 0 0 1 1 a\n= 1\n"),
    ("doc 0 2 a", "= 0\n"),
    ("sym a", "= 0\n"),
    ("def 0 1 a", "? nothing there\n"),
    ("def 0 0 z", "? no document\n"),
    ("ref", "? bad command\n"),
];

/// Whether a command gets this answer.
fn is_answered(alloc: Global, queries: &Queries, command: &str, due: &str) -> bool {
    let mut out = Std::new(Vec::new(alloc));
    let answer = queries.answer(alloc, command.as_bytes(), &mut out);
    answer == Ok(()) && out.into_inner().as_slice() == due.as_bytes()
}

/// Whether all of them do.
fn are_answered(alloc: Global, queries: &Queries) -> bool {
    for (command, due) in &ANSWERS {
        if !is_answered(alloc, queries, command, due) {
            return false;
        }
    }
    true
}

/// Whether commands that are read get these answers.
fn are_all_answered(alloc: Global, queries: &Queries) -> bool {
    let mut commands = Std::new(b"doc 0 0 a\nsym a".as_slice());
    let mut answers = Std::new(Vec::new(alloc));
    let answer = queries.answer_all(alloc, &mut commands, &mut answers);
    let due = b"| One.\n| Two.\n= 2\nx\n= 1\n".as_slice();
    answer == Ok(()) && answers.into_inner().as_slice() == due
}

/// Whether a reader that fails is refused.
fn is_broken_refused(alloc: Global, queries: &Queries) -> bool {
    let mut answers = Std::new(Vec::new(alloc));
    let answer = queries.answer_all(alloc, &mut Broken::new(), &mut answers);
    answer == Err(AnswerFault::Read)
}

/// A call of queries.
#[derive(Clone, Copy)]
enum Call {
    At,
    Definitions,
    References,
    Refused,
    Documentation,
    Symbols,
    Entry,
    Kind,
    Answer,
    AnswerAll,
    Broken,
}

/// Whether a call answers what is due.
fn is_due(alloc: Global, queries: &Queries, call: Call) -> bool {
    match call {
        Call::At => is_at(queries),
        Call::Definitions => are_definitions(alloc, queries),
        Call::References => are_references(alloc, queries),
        Call::Refused => are_refused(alloc, queries),
        Call::Documentation => are_texts(alloc, queries),
        Call::Symbols => are_entries(alloc, queries),
        Call::Entry => is_entry(queries),
        Call::Kind => is_kind(alloc),
        Call::Answer => are_answered(alloc, queries),
        Call::AnswerAll => are_all_answered(alloc, queries),
        Call::Broken => is_broken_refused(alloc, queries),
    }
}

/// The same of the queries of the index that bytes decode to.
fn is_due_of(alloc: Global, bytes: &[u8], call: Call) -> Result<bool, Fail> {
    let index = read_index(alloc, bytes)?;
    match Queries::new(alloc, index) {
        Ok(queries) => Ok(is_due(alloc, &queries, call)),
        Err(_) => Err("no memory for the tables".into()),
    }
}

/// Each call, the index that it asks, and what the test says of it.
const CALLS: [(Call, &[u8], &str); 11] = [
    (Call::At, LOCALS, "at"),
    (Call::Definitions, LOCALS, "definitions"),
    (Call::References, LOCALS, "references"),
    (Call::Refused, LOCALS, "references that are refused"),
    (Call::Documentation, TEXTS, "documentation"),
    (Call::Symbols, TEXTS, "symbols"),
    (Call::Entry, TEXTS, "entry_in"),
    (Call::Kind, TEXTS, "kind_text"),
    (Call::Answer, LOCALS, "answer"),
    (Call::AnswerAll, TEXTS, "answer_all"),
    (Call::Broken, TEXTS, "answer_all of a broken reader"),
];

#[test]
fn queries_are_called_once_each(rt: HostRuntime) -> Result<(), Fail> {
    for (call, bytes, case) in &CALLS {
        see(&rt, is_due_of(rt.alloc(), bytes, *call)?, case);
    }
    Ok(())
}
