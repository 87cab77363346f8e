//! What the program is called, and its version: on its command line and in the indexes that it writes.

/// The program's name.
pub const NAME: &str = "protoscip";

/// Its version.
pub const VERSION: &str = "1";
