//! What is written to a sink, a buffer of bytes at a time.

ghost use Rattle.std.specs.Prelude.{◌≡◌, [], IfErr, OnOk};
ghost use Rattle.scip_wire.specs.Buffered.{EndsWhole, EndsCutOff, Passes, ArePassed, waiting_of};
ghost use Rattle.scip_wire.specs.declared.spell.buffer.Progress.TheVariants.{Going};

use super::output::Output;
use arrayvec::ArrayVec;
use streams::{CutOff, Sink, write_all};

/// How many bytes have gone out to a sink.
#[derive(Clone, Copy, Drop)]
enum Progress {
    /// No write has failed.
    Going(usize),
    /// A write has failed behind them, and nothing is written any more.
    Stopped(usize),
}

impl Progress {
    /// Writes bytes to the sink, unless a write has failed.
    fn send<W: Sink>(&mut self, sink: &mut W, bytes: &[u8])
        ensures { Passes W.Sink sink.old [] self.old sink.new [] self.new bytes.now }
    {
        let Progress::Going(count) = *self else {
            return;
        };
        *self = match write_all(sink, bytes) {
            Ok(()) => Progress::Going(count.saturating_add(bytes.len())),
            Err(cut_off) => Progress::Stopped(count.saturating_add(cut_off.written)),
        };
    }
}

/// Bytes that wait for their sink. They are on the stack: nothing here takes memory.
///
/// A failed write is kept: what is put behind it is dropped, so that nobody has to ask after each put.
#[derive(Drop)]
pub(crate) struct Buffer {
    waiting: ArrayVec<u8, 65_536>,
    progress: Progress,
}

impl Buffer {
    /// With nothing in it.
    pub(crate) fn new() -> Buffer
        ensures empty { waiting_of result ≡ [] }
        ensures progress { result.progress ≡ Going 0 }
    {
        Buffer {
            waiting: ArrayVec::new(),
            progress: Progress::Going(0),
        }
    }

    /// Writes what waits.
    fn flush<W: Sink>(&mut self, sink: &mut W)
        ensures put { ArePassed W.Sink sink.old self.old sink.new self.new [] }
        ensures empty { waiting_of self.new ≡ [] }
    {
        self.progress.send(sink, self.waiting.as_slice());
        self.waiting.clear();
    }

    /// Writes what waits, and says whether a write has failed, and behind how many bytes.
    pub(crate) fn finish<W: Sink>(&mut self, sink: &mut W) -> Result<(), CutOff>
        ensures ok { OnOk result (EndsWhole W.Sink sink.old self.old sink.new) }
        ensures err { IfErr result (EndsCutOff W.Sink sink.old self.old sink.new) }
    {
        self.flush(sink);
        match self.progress {
            Progress::Going(_) => Ok(()),
            Progress::Stopped(written) => Err(CutOff { written }),
        }
    }
}

impl<W: Sink> Output<W> for Buffer {
    ghost use Rattle.scip_wire.specs.Buffered.{ArePassed};

    ghost holds = { ArePassed W.Sink };

    fn put_byte(&mut self, sink: &mut W, byte: u8) {
        if self.waiting.try_push(byte).is_err() {
            self.put(sink, &[byte]);
        }
    }

    /// Bytes that the buffer has no room for go out at once.
    fn put(&mut self, sink: &mut W, bytes: &[u8]) {
        if self.waiting.try_extend_from_slice(bytes).is_ok() {
            return;
        }
        self.flush(sink);
        if self.waiting.try_extend_from_slice(bytes).is_err() {
            self.progress.send(sink, bytes);
        }
    }
}
