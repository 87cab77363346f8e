//! The choices for declarations.

ghost use Rattle.std.specs.Prelude.{IfOk};
ghost use Rattle.scip_build.specs.ParsedFiles.{AreChosen, seen_of};

use basics::Sequence;
use index_hooks::{Choice, Chooses};
use proto_decl::Declaration;
use std::alloc::{AllocError, Global};

/// The choice for a declaration. Takes memory for its full name, which is let go.
fn choice_for<C: Chooses>(
    alloc: Global,
    chooser: &C,
    declaration: &Declaration,
) -> Result<Choice, AllocError>
    ensures { IfOk result (C.allows chooser.now (seen_of declaration.now)) }
{
    let named = declaration.named(alloc)?;
    Ok(chooser.choose(&named.view()))
}

/// The choices for declarations, in their order. Each is chosen for once.
pub(crate) fn choose_each<C: Chooses>(
    alloc: Global,
    chooser: &C,
    declarations: &[Declaration],
) -> Result<Sequence<Choice>, AllocError>
    ensures { IfOk result (AreChosen (C.allows chooser.now) declarations.now) }
{
    let mut choices = Vec::with_capacity(alloc, declarations.len())?;
    for declaration in declarations {
        choices.push(choice_for(alloc, chooser, declaration)?)?;
    }
    Ok(Sequence::from_vec(choices))
}
