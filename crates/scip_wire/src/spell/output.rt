//! What the bytes of messages are put into.

ghost use Rattle.std.specs.Prelude.{ℕ, List, [], ◌∷◌};
ghost use Rattle.scip_wire.specs.Outputs.{IsPut};

/// What bytes are put into: a list, which may be shortened, or a buffer in front of a sink, which is passed along. A
/// list has no sink.
///
/// Nothing is answered, so that nobody has to ask after each byte: what comes of a failed write is kept.
pub(crate) trait Output<W> {
    // These bytes were put into an output since it was begun: the sink and the output then, both now, and the bytes.
    ghost holds: { W → Self → W → Self → List ℕ → Type 0 };

    /// Puts a byte behind those before.
    fn put_byte(&mut self, sink: &mut W, byte: u8)
        ensures { IsPut holds sink.old self.old sink.new self.new (byte ∷ []) };

    /// Puts bytes behind those before.
    fn put(&mut self, sink: &mut W, bytes: &[u8])
        ensures { IsPut holds sink.old self.old sink.new self.new bytes.now };
}

/// A list is begun with room for all that is put. Of one that has less, nothing is said.
impl<W> Output<W> for Vec<u8> {
    ghost use Rattle.scip_wire.specs.Outputs.{IsFilled};

    ghost holds = { IsFilled };

    fn put_byte(&mut self, _sink: &mut W, byte: u8) {
        if self.len() < self.capacity() {
            self.push_reserved(byte);
        }
    }

    fn put(&mut self, _sink: &mut W, bytes: &[u8]) {
        let _ = self.extend_from_slice(bytes);
    }
}
