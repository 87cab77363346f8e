//! What a use of a type names.

use basics::{OwnedText, Sequence};
use proto_visibility::Entity;

/// What a use names: the full name of a type, and for each component of the use what it names.
#[derive(Debug, Drop)]
pub struct Target {
    /// The full name, without a leading dot.
    pub name: OwnedText,
    /// One for each component of the use, in order: the package or the declaration that it names.
    pub parts: Sequence<Entity>,
}
