//! What names in options are looked up in.

ghost use Rattle.std.specs.Prelude.{◌≡◌};
ghost use Rattle.option_link.specs.Contexts.{options_message};

use crate::place::DeclaredPlace;
use proto_options::Element;

/// What a name is looked up in.
#[derive(Clone, Copy, Debug, PartialEq, Eq)]
pub(crate) enum Context {
    /// The options of the element that has the option.
    Options,
    /// A message.
    Message(DeclaredPlace),
    /// The entries of a map, by the map field: they have the fields `key` and `value`.
    Entries(DeclaredPlace),
    /// The values of an enum.
    Enum(DeclaredPlace),
    /// A scalar value, which has no names in it.
    Scalar,
    /// Options that nobody tells of.
    Untold,
    /// What is given to a name that a message reserves.
    Skipped,
}

/// The full name of the message of an element's options.
pub(crate) fn options_message(element: Element) -> &'static str
    ensures { result.now ≡ options_message element }
{
    match element {
        Element::File => "google.protobuf.FileOptions",
        Element::Message => "google.protobuf.MessageOptions",
        Element::Field(_) => "google.protobuf.FieldOptions",
        Element::Oneof => "google.protobuf.OneofOptions",
        Element::Enum => "google.protobuf.EnumOptions",
        Element::EnumValue => "google.protobuf.EnumValueOptions",
        Element::Service => "google.protobuf.ServiceOptions",
        Element::Method => "google.protobuf.MethodOptions",
        Element::ExtensionRange => "google.protobuf.ExtensionRangeOptions",
    }
}
