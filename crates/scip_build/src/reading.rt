//! The files of a tree as they are read in a dialect.

ghost use Rattle.std.specs.Prelude.{IfOk};
ghost use Rattle.scip_build.specs.AsRead.{AreReadIn};

use proto_parse::Dialect;
use source_tree::Tree;
use std::alloc::{AllocError, Global};

/// The tree of the same files, as they are read in this dialect: in `Dialect::All`, bytes in comments needn't be UTF-8.
/// An error means that memory was refused.
pub fn as_read(alloc: Global, dialect: Dialect, tree: Tree) -> Result<Tree, AllocError>
    ensures { IfOk result (AreReadIn dialect tree) }
{
    match dialect {
        Dialect::Proto3(_) => Ok(tree),
        Dialect::All => tree.mended(alloc),
    }
}
