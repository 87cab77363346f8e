//! Calls that are made again after `Memory`, where the second answer counts.

use crate::calls::{decoded, see};
use scip_query::{AnswerFault, Manner, Place, Queries, QueryFault};
use scip_records::{Index, SymbolInformation};
use scip_wire::WireFault;
use std::alloc::{AllocError, Global};
use std::process::Abort;
use streams::Std;

/// The index that bytes spell.
fn index(rt: &impl Abort, alloc: Global, bytes: &[u8]) -> Result<Index, AllocError> {
    match decoded(alloc, bytes) {
        Ok(index) => Ok(index),
        Err(fault) => {
            see(rt, fault == WireFault::Memory, "bytes of an index");
            Err(AllocError)
        }
    }
}

/// Queries over an index, once more.
fn queries_again(alloc: Global, index: Index) -> Result<Queries, AllocError> {
    match Queries::new(alloc, index) {
        Ok(queries) => Ok(queries),
        Err(_) => Err(AllocError),
    }
}

/// The queries of the index that bytes spell. Where memory runs out, the index comes back and is
/// taken again.
pub fn queries(rt: &impl Abort, alloc: Global, bytes: &[u8]) -> Result<Queries, AllocError> {
    match Queries::new(alloc, index(rt, alloc, bytes)?) {
        Ok(queries) => Ok(queries),
        Err(refused) => queries_again(alloc, refused.value),
    }
}

/// A position in `a.proto`.
#[derive(Clone, Copy)]
pub struct At {
    pub line: u32,
    pub column: u32,
}

/// What `references` answers about a position.
pub fn references(alloc: Global, asked: &Queries, at: At) -> Result<Vec<Place>, QueryFault> {
    match asked.references(alloc, "a.proto", at.line, at.column) {
        Err(QueryFault::Memory) => asked.references(alloc, "a.proto", at.line, at.column),
        answer => answer,
    }
}

/// What `definitions` answers.
pub fn definitions(alloc: Global, asked: &Queries, at: At) -> Result<Vec<Place>, QueryFault> {
    match asked.definitions(alloc, "a.proto", at.line, at.column) {
        Err(QueryFault::Memory) => asked.definitions(alloc, "a.proto", at.line, at.column),
        answer => answer,
    }
}

/// What `documentation` answers.
pub fn documentation(alloc: Global, asked: &Queries, at: At) -> Result<Vec<&str>, QueryFault> {
    match asked.documentation(alloc, "a.proto", at.line, at.column) {
        Err(QueryFault::Memory) => asked.documentation(alloc, "a.proto", at.line, at.column),
        answer => answer,
    }
}

/// What `symbols` answers.
pub fn symbols(alloc: Global, asked: &Queries) -> Result<Vec<&SymbolInformation>, QueryFault> {
    match asked.symbols(alloc, "a.proto") {
        Err(QueryFault::Memory) => asked.symbols(alloc, "a.proto"),
        answer => answer,
    }
}

/// What `answer` gives to a command, or `answer_all` to commands that are read, and how many bytes the writer then
/// has.
fn answered_once(
    alloc: Global,
    asked: &Queries,
    commands: &[u8],
    are_read: bool,
    room: &mut [u8],
) -> (Result<(), AnswerFault>, usize) {
    let size = room.len();
    let mut sink = Std::new(room);
    let answer = if are_read {
        asked.answer_all(alloc, &mut Std::new(commands), &mut sink)
    } else {
        asked.answer(alloc, commands, &mut sink)
    };
    let left = sink.into_inner().len();
    (answer, size.saturating_sub(left))
}

/// The same, asked again after `Memory`.
fn answered(
    alloc: Global,
    asked: &Queries,
    commands: &[u8],
    are_read: bool,
    room: &mut [u8],
) -> (Result<(), AnswerFault>, usize) {
    let (answer, count) = answered_once(alloc, asked, commands, are_read, room);
    if answer != Err(AnswerFault::Memory) {
        return (answer, count);
    }
    answered_once(alloc, asked, commands, are_read, room)
}

/// Sees what is written, of 256 bytes at most, as the answer to a command, or to commands that are read.
pub fn see_answered(
    rt: &impl Abort,
    alloc: Global,
    asked: &Queries,
    commands: &str,
    are_read: bool,
    due: &str,
) {
    let mut room = [0u8; 256];
    let (room, _) = room.split_at_mut(due.len().min(256));
    let (answer, count) = answered(alloc, asked, commands.as_bytes(), are_read, room);
    see(rt, answer == Ok(()), "answered");
    see(rt, count == due.len() && *room == *due.as_bytes(), due);
}

/// What `answer_all_in` gives to commands that are read, and how many bytes the writer then has.
fn replied_once(
    alloc: Global,
    asked: &Queries,
    manner: Manner,
    commands: &[u8],
    room: &mut [u8],
) -> (Result<(), AnswerFault>, usize) {
    let size = room.len();
    let mut sink = Std::new(room);
    let answer = asked.answer_all_in(alloc, manner, &mut Std::new(commands), &mut sink);
    let left = sink.into_inner().len();
    (answer, size.saturating_sub(left))
}

/// What `answer_in` gives to a command, and how many bytes the writer then has.
fn one_replied(
    alloc: Global,
    asked: &Queries,
    manner: Manner,
    command: &[u8],
    room: &mut [u8],
) -> (Result<(), AnswerFault>, usize) {
    let size = room.len();
    let mut sink = Std::new(room);
    let answer = asked.answer_in(alloc, manner, command, &mut sink);
    let left = sink.into_inner().len();
    (answer, size.saturating_sub(left))
}

/// Sees what is written, of 640 bytes at most, as the answers in a manner to commands that are read, and to a single
/// one without its line end too. After `Memory` they are asked again.
pub fn see_replied(
    rt: &impl Abort,
    alloc: Global,
    asked: &Queries,
    manner: Manner,
    commands: &str,
    due: &str,
) {
    let mut room = [0u8; 640];
    let (room, _) = room.split_at_mut(due.len().min(640));
    let bytes = commands.as_bytes();
    let (mut answer, mut count) = replied_once(alloc, asked, manner, bytes, room);
    if answer == Err(AnswerFault::Memory) {
        (answer, count) = replied_once(alloc, asked, manner, bytes, room);
    }
    see(rt, answer == Ok(()), "replied");
    see(rt, count == due.len() && *room == *due.as_bytes(), due);
    if commands.split_once('\n').is_some() {
        return;
    }
    (answer, count) = one_replied(alloc, asked, manner, bytes, room);
    if answer == Err(AnswerFault::Memory) {
        (answer, count) = one_replied(alloc, asked, manner, bytes, room);
    }
    see(rt, answer == Ok(()), "replied to one");
    see(rt, count == due.len() && *room == *due.as_bytes(), due);
}
