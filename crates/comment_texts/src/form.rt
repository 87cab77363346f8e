//! How the texts of comments are given.

ghost use Rattle.std.specs.Prelude.{◌≡◌};
ghost use Rattle.comment_texts.specs.Forms as spec;

/// How the texts of comments are given.
#[derive(Clone, Copy, Debug, PartialEq, Eq)]
pub enum CommentForm {
    /// As they are written between the marks.
    Raw,
    /// Without the signs and blanks by which people set comments off.
    Clean,
    /// As they are written, with U+FFFD in place of each NUL.
    RawWithoutNul,
    /// Without those signs and blanks, and with U+FFFD in place of each NUL.
    CleanWithoutNul,
}

impl CommentForm {
    /// The same form, with U+FFFD in place of each NUL.
    pub fn nul_replaced(self) -> CommentForm
        ensures { result ≡ spec.nul_replaced self }
    {
        match self {
            CommentForm::Raw | CommentForm::RawWithoutNul => CommentForm::RawWithoutNul,
            CommentForm::Clean | CommentForm::CleanWithoutNul => CommentForm::CleanWithoutNul,
        }
    }
}
