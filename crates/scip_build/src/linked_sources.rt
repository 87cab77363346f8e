//! What the documents of sources are made from.

use crate::parsed_file::ParsedFile;
use crate::settings::Settings;
use option_link::OptionLinker;
use scip_model::{Choices, SymbolPackages};
use std::alloc::Global;

/// Files that were read and linked, and what the documents of the sources among them are made by. The
/// numbers of the sources are those below `count`.
#[derive(Drop)]
pub(crate) struct LinkedSources<'a, 'l, 'f, 'r> {
    pub(crate) alloc: Global,
    pub(crate) package: &'a SymbolPackages<'a, 'l, 'f>,
    pub(crate) parsed: &'a [ParsedFile<'r>],
    pub(crate) choices: &'a Choices,
    pub(crate) settings: &'a Settings,
    /// The options of the files, if names in them are linked.
    pub(crate) options: Option<&'a OptionLinker<'a, 'l, 'f>>,
    pub(crate) count: usize,
}
