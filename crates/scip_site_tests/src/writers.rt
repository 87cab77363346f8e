//! What is written of an index, and by how many writes.

use crate::calls::see;
use scip_records::Index;
use scip_wire::{DocumentRecord, WriteFault, write_index, write_pieces};
use std::io;
use std::io::Write;
use std::process::Abort;
use streams::Std;

/// A writer into room that it doesn't own. It counts its calls.
#[derive(Drop)]
struct Counting<'a> {
    room: &'a mut [u8],
    calls: u32,
}

impl Write for Counting<'_> {
    fn write(&mut self, bytes: &[u8]) -> io::Result<usize> {
        self.calls = self.calls.wrapping_add(1);
        self.room.write(bytes)
    }

    fn flush(&mut self) -> io::Result<()> {
        Ok(())
    }
}

/// What a call that writes answers, how many bytes its writer then has, and how often it was called.
#[derive(Clone, Copy)]
pub struct Outcome {
    pub answer: Result<(), WriteFault>,
    pub count: usize,
    pub calls: u32,
}

/// What becomes of an index with this room.
pub fn written(index: &Index, room: &mut [u8]) -> Outcome {
    let size = room.len();
    let mut sink = Std::new(Counting { room, calls: 0 });
    let answer = write_index(index, &mut sink);
    let writer = sink.into_inner();
    Outcome {
        answer,
        count: size.saturating_sub(writer.room.len()),
        calls: writer.calls,
    }
}

/// What becomes of an index with this room, if it is written in pieces and these are the records of its documents.
pub fn pieces_written(index: &Index, records: &[DocumentRecord], room: &mut [u8]) -> Outcome {
    let size = room.len();
    let mut sink = Std::new(Counting { room, calls: 0 });
    let answer = write_pieces(&index.metadata, records, &index.external_symbols, &mut sink);
    let writer = sink.into_inner();
    Outcome {
        answer,
        count: size.saturating_sub(writer.room.len()),
        calls: writer.calls,
    }
}

/// Sees that a writer with room for these bytes alone, which are 200 at most, gets them.
pub fn see_written(rt: &impl Abort, index: &Index, bytes: &[u8]) {
    let mut room = [0u8; 200];
    let (room, _) = room.split_at_mut(bytes.len().min(200));
    let found = written(index, room);
    see(rt, found.count == bytes.len() && *room == *bytes, "bytes");
    see(rt, found.answer == Ok(()), "answer");
}
