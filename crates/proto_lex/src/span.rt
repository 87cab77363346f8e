//! Parts of a text.

/// A part of a text: the bytes from `start` up to, and without, `end`.
///
/// Both are byte offsets from the text's start. A text is at most 64 MiB long, so 32 bits are enough.
#[derive(Clone, Copy, Debug, PartialEq, Eq)]
pub struct Span {
    /// The offset of its first byte.
    pub start: u32,
    /// The offset behind its last byte.
    pub end: u32,
}
