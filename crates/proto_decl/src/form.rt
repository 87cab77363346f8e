//! What is told of a file, and how.

ghost use Rattle.std.specs.Prelude.{◌≡◌};
ghost use Rattle.proto_decl.specs.Facts.{plain_form};

use comment_texts::CommentForm;

/// What is told of a file's declarations besides their names and places, and how.
#[derive(Clone, Copy, Debug, PartialEq, Eq)]
pub struct FactForm {
    /// In which form the texts of comments are.
    pub comments: CommentForm,
    /// Whether it is told how the declarations read, and where they are.
    pub details: bool,
}

impl FactForm {
    /// Comments as they are written, and no details.
    pub fn plain() -> FactForm
        ensures { result ≡ plain_form }
    {
        FactForm {
            comments: CommentForm::Raw,
            details: false,
        }
    }
}
