//! What the tests of trees share.

use source_tree::{Source, Tree, TreeFault};
use std::alloc::{AllocError, Global};

/// What sources are refused for, if they are. If memory runs out, those that are handed back are tried again, and the
/// second answer counts; so it is with the call below.
pub(crate) fn fault_of(
    alloc: Global,
    sources: Vec<Source>,
) -> Result<Option<TreeFault>, AllocError> {
    let answer = match Tree::new(alloc, sources) {
        Err((sources, TreeFault::Memory)) => Tree::new(alloc, sources),
        answer => answer,
    };
    match answer {
        Ok(_) => Ok(None),
        Err((_, TreeFault::Memory)) => Err(AllocError),
        Err((_, fault)) => Ok(Some(fault)),
    }
}

/// The tree of sources and included files; none if it is refused.
pub(crate) fn tree_of(alloc: Global, sources: Vec<Source>, included: Vec<Source>) -> Option<Tree> {
    let answer = match Tree::with_included(alloc, sources, included) {
        Err((lists, TreeFault::Memory)) => Tree::with_included(alloc, lists.0, lists.1),
        answer => answer,
    };
    answer.ok()
}
