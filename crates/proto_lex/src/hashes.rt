//! Where a `#` begins a comment.

/// Where a `#` begins a comment.
#[derive(Clone, Copy, Debug, PartialEq, Eq)]
pub enum Hashes {
    /// Nowhere (proto3 specification): outside of strings and comments a `#` is a `BadByte`.
    Nowhere,
    /// In values in braces, as in the text format: where the innermost open `{` is right behind a `=`. Such a comment
    /// goes on up to the `}` that closes it. Elsewhere a `#` is a `BadByte`.
    InValues,
}
