//! What has options.

use proto_lex::Span;

/// What an option is an option of (proto3 and proto2 specifications, "Option"). Each kind has its message of
/// `google.protobuf`, as `FileOptions`, in which the first part of the option's name is looked up.
#[derive(Clone, Copy, Debug, PartialEq, Eq)]
pub enum Element {
    /// The file.
    File,
    /// A message, or a group by what is in its braces.
    Message,
    /// A field, a map field or an extension, or a group by what is in its brackets, and where its name is: of a group
    /// the message's.
    Field(Span),
    /// A oneof.
    Oneof,
    /// An enum.
    Enum,
    /// A value of an enum.
    EnumValue,
    /// A service.
    Service,
    /// A method.
    Method,
    /// The extension ranges of one statement of a message.
    ExtensionRange,
}
