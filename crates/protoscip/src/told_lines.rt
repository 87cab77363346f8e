//! The line of what an index lacks: of a file that is left out, of an import, a use or an option without a target, of a
//! use that may have another one.

ghost use Rattle.std.specs.Prelude.{◌≡◌, ◌++◌, ℕ, List, IfOk, OnOk, string_bytes};
ghost use Rattle.protoscip.specs.FaultLines.{HasFilesOf};
ghost use Rattle.protoscip.specs.Faults.{fault_of_omission};
ghost use Rattle.protoscip.specs.ToldLines.{IsEndedLine, IsToldLine, told_line};

use crate::explaining::with_explanation;
use crate::fault::Fault;
use crate::fault_lines::line_with;
use crate::tree_counter::TreeCounter;
use proto_parse::Dialect;
use scip_build::Omission;
use source_tree::Tree;
use std::alloc::{AllocError, Global};

/// The line, without its end, that reports one thing that an index of the tree lacks: the line of the fault for which
/// the tree would be refused, with words before the path. Of an option without a target it has the word `Option`.
///
/// The file numbers in the fault have to be below the tree's `file_count`. Those of what `index_tree` and `session`
/// tell of this tree are; `Fault::from` makes a fault of each. An error means that memory was refused.
pub fn told_line(alloc: Global, tree: &Tree, fault: &Fault) -> Result<String, AllocError>
    requires { HasFilesOf tree.now fault.now }
    ensures { IfOk result (λ line. string_bytes line ≡ told_line tree.now fault.now) }
{
    line_with(alloc, tree, fault, "skipped: ", "no target: ")
}

/// The same, and what explains it, if that is asked for. The place is counted on from those before.
fn explained_line(
    alloc: Global,
    tree: &Tree,
    counter: &mut TreeCounter<'_>,
    fault: &Fault,
    explain: Option<Dialect>,
) -> Result<String, AllocError>
    requires files { HasFilesOf tree.now fault.now }
    requires counter { counter.old ≡ tree.now }
    ensures told { IfOk result (λ text. IsToldLine explain tree.now fault.now (string_bytes text)) }
    ensures counter { counter.new ≡ tree.now }
{
    let line = told_line(alloc, tree, fault)?;
    with_explanation(alloc, counter, fault, explain, line)
}

/// Appends that, with its end.
pub(crate) fn push_told(
    alloc: Global,
    out: &mut String,
    tree: &Tree,
    counter: &mut TreeCounter<'_>,
    omission: Omission,
    explain: Option<Dialect>,
) -> Result<(), AllocError>
    requires files { HasFilesOf tree.now (fault_of_omission omission) }
    requires counter { counter.old ≡ tree.now }
    ensures told { OnOk result ((line : List ℕ) × IsEndedLine explain tree.now omission line
        × (string_bytes out.new ≡ string_bytes out.old ++ line)) }
    ensures counter { counter.new ≡ tree.now }
{
    let line = explained_line(alloc, tree, counter, &Fault::from(omission), explain)?;
    out.push_str(line.as_str())?;
    out.push_str("\n")
}
