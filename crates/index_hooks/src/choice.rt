//! What is chosen for a declaration.

/// Which of a declaration's comment texts document it.
#[derive(Clone, Copy, Debug, PartialEq, Eq)]
pub enum DocChoice {
    /// No answer of this rule: the next one is asked.
    Pass,
    /// No text.
    Nothing,
    /// The text before the declaration.
    Leading,
    /// The text after it on its line.
    Trailing,
    /// The text before it, then the one after it.
    Both,
}

/// What is chosen for a declaration: whether it is kept, and which texts document it.
#[derive(Clone, Copy, Debug, PartialEq, Eq)]
pub struct Choice {
    /// Whether it is kept.
    pub keep: bool,
    /// Which of its comment texts document it.
    pub doc: DocChoice,
}
