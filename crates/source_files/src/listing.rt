//! What listing a folder gives.

use crate::entry::FolderEntry;
use crate::unread_entry::UnreadEntry;

/// Which folder it is: paths to one folder have the same, and paths to two have two.
#[derive(Clone, Copy, Debug, PartialEq, Eq, PartialOrd, Ord)]
pub struct FolderIdentity {
    /// The device that it is on.
    pub device: u64,
    /// Its number there.
    pub number: u64,
}

/// The entries of a folder.
#[derive(Debug, Drop)]
pub struct FolderListing {
    /// Its entries whose names are UTF-8, in any order.
    pub entries: Vec<FolderEntry>,
    /// Which folder it is; `None` if nobody has asked. A folder with one that was met before is passed over.
    pub identity: Option<FolderIdentity>,
    /// Its entries whose names aren't UTF-8.
    pub unnamed: Vec<UnreadEntry>,
}
