//! What files are made by.

ghost use Rattle.source_files.specs.Made.{Made, Makes};

use std::alloc::AllocError;

/// Makes files, and the folders that they are in.
pub trait MakeFiles {
    // The files that were made, and how many were refused.
    ghost made: { Self → Made };

    /// Makes the file with a path, and the folders on the way to it, and writes bytes to it, in place of what is
    /// there. False if the system refuses that, which is counted; what the file holds then isn't known.
    fn make_file(&mut self, path: &str, bytes: &[u8]) -> Result<bool, AllocError>
        ensures { Makes (made self.old) (made self.new) path.now bytes.now result };
}
