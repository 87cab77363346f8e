//! What names in options name.

use basics::Sequence;
use proto_link::Entity;

/// What a name in an option names.
#[derive(Debug, Drop)]
pub struct OptionTarget {
    /// The number of the name among those of the option.
    pub name_number: usize,
    /// One for each component of the name, in order: the package or the declaration that it names.
    pub parts: Sequence<Entity>,
}

/// A name in an option that may name another field once a file can be read.
#[derive(Clone, Copy, Debug, Drop, PartialEq, Eq)]
pub struct UncertainName {
    /// The number of the name among those of the option.
    pub name_number: usize,
    /// The number of that file: the first of those that the option's file sees and that have no facts.
    pub behind: usize,
}

/// What the names in an option name.
#[derive(Debug, Drop)]
pub struct OptionTargets {
    /// For each name that names something what it names, in order of place.
    pub targets: Sequence<OptionTarget>,
    /// The number of the first name that names nothing, and should.
    pub gap: Option<usize>,
    /// The first name that may name another field once a file can be read.
    pub uncertain: Option<UncertainName>,
}
