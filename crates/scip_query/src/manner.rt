//! How commands are taken and answered.

/// How commands are taken and answered.
#[derive(Clone, Copy, Debug, PartialEq, Eq)]
pub enum Manner {
    /// There are the commands `def`, `ref`, `doc` and `sym`.
    Plain,
    /// There are `sig`, `out`, `find`, `pos` and `help`, too.
    More,
    /// There are all of them, and why nothing is answered is said in a sentence.
    Spoken,
    /// There are all of them, and each answer is an object of JSON on a line.
    Json,
}
