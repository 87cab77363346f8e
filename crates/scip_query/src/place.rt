//! Where occurrences and symbol entries are listed.

/// Where an index lists an occurrence.
#[derive(Clone, Copy, Debug, PartialEq, Eq)]
pub struct Place {
    /// The number of its document, from 0, among those of the index.
    pub document: usize,
    /// Its own number, from 0, among the document's occurrences.
    pub occurrence: usize,
}

/// Where an index lists a symbol entry.
#[derive(Clone, Copy, Debug)]
pub(crate) struct EntryPlace {
    /// The number of its list: that of its document; for the external symbols, the number after those of all
    /// documents.
    pub list: usize,
    /// Its own number, from 0, in the list.
    pub entry: usize,
}
