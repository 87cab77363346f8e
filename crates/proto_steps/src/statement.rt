//! What a statement's first word chooses, and which braces it is in. They are public for the proofs of `proto_parse`.

/// A statement of a file.
#[derive(Clone, Copy, Debug, PartialEq, Eq)]
pub enum FileStatement {
    /// A lone `;`.
    Empty,
    /// An import.
    Import,
    /// A package statement.
    Package,
    /// An option.
    Option,
    /// A message.
    Message,
    /// An enum.
    Enum,
    /// A service.
    Service,
    /// An extend.
    Extend,
    /// None that is allowed there.
    Other,
}

/// A statement of a message.
#[derive(Clone, Copy, Debug, PartialEq, Eq)]
pub enum MessageStatement {
    /// A lone `;`.
    Empty,
    /// A message.
    Message,
    /// An enum.
    Enum,
    /// An option.
    Option,
    /// A oneof.
    Oneof,
    /// A map field.
    Map,
    /// A reserved statement.
    Reserved,
    /// An extend.
    Extend,
    /// Ranges of extensions: only in proto2.
    Extensions,
    /// A field, or in proto2 a group.
    Member,
}

/// What the braces are of.
#[derive(Clone, Copy, Debug, PartialEq, Eq)]
pub enum Within {
    /// A message or a group.
    Message,
    /// A oneof.
    Oneof,
    /// An extend.
    Extend,
}

/// Which of the two versions a syntax statement's literals spell.
#[derive(Clone, Copy, Debug, PartialEq, Eq)]
pub enum Version {
    /// `proto2`.
    Proto2,
    /// `proto3`.
    Proto3,
    /// None that there is.
    Other,
}
