//! The pieces of a pattern.

ghost use Rattle.std.specs.Prelude.{◌≡◌, ◌↔◌, ◌⊎◌, IsTrue};
ghost use Rattle.globs.specs.Pieces.{Begins, GoesOn, IsLater, MayBeEmpty, single};

/// A piece of a pattern.
#[derive(Clone, Copy, Debug)]
pub(crate) enum Piece {
    /// This byte.
    Byte(u8),
    /// `?`: a character but `/`.
    One,
    /// `*`: any run of characters but `/`.
    Run,
    /// `**`: any run of characters.
    Any,
}

/// Whether a byte is one of a character, but not its first.
fn is_later(byte: u8) -> bool
    ensures { IsTrue result ↔ IsLater byte }
{
    128 <= byte && byte < 192
}

impl Piece {
    /// The piece that a byte of a pattern alone is.
    pub(crate) fn of(byte: u8) -> Piece
        ensures { result ≡ single byte }
    {
        if byte == b'*' {
            Piece::Run
        } else if byte == b'?' {
            Piece::One
        } else {
            Piece::Byte(byte)
        }
    }

    /// Whether it may take nothing.
    fn may_be_empty(self) -> bool
        ensures { IsTrue result ↔ MayBeEmpty self }
    {
        match self {
            Piece::Byte(_) => false,
            Piece::One => false,
            Piece::Run => true,
            Piece::Any => true,
        }
    }

    /// Whether this byte may be the first that it takes.
    fn begins(self, byte: u8) -> bool
        ensures { IsTrue result ↔ Begins self byte }
    {
        match self {
            Piece::Byte(wanted) => byte == wanted,
            Piece::One => byte != b'/' && !is_later(byte),
            Piece::Run => byte != b'/',
            Piece::Any => true,
        }
    }

    /// Whether this byte may be one that it takes behind others.
    fn goes_on(self, byte: u8) -> bool
        ensures { IsTrue result ↔ GoesOn self byte }
    {
        match self {
            Piece::Byte(_) => false,
            Piece::One => is_later(byte),
            Piece::Run => byte != b'/',
            Piece::Any => true,
        }
    }

    /// Whether the empty text matches pieces of which this is the last, by whether it matches those before.
    pub(crate) fn starts(self, with: bool) -> bool
        ensures { IsTrue result ↔ (IsTrue with × MayBeEmpty self) }
    {
        with && self.may_be_empty()
    }

    /// Whether a text whose last byte this is matches pieces of which this is the last: by whether the text before the
    /// byte matches those before, and whether it matches all, and whether the text with it matches those before.
    pub(crate) fn ends(self, byte: u8, before: bool, all: bool, with: bool) -> bool
        ensures { IsTrue result ↔ ((IsTrue before × Begins self byte) ⊎ ((IsTrue all × GoesOn self byte)
            ⊎ (IsTrue with × MayBeEmpty self))) }
    {
        let new = before && self.begins(byte);
        let longer = all && self.goes_on(byte);
        let empty = with && self.may_be_empty();
        new || (longer || empty)
    }
}
