//! Why uses of a file name nothing.

ghost use Rattle.std.specs.Prelude.{◌≡◌, ◌<◌, ◌↔◌, ◌++◌, Contains, IfOk, OnOk, length};
ghost use Rattle.proto_visibility.specs.declared.fault.LinkFault.{LinkFault};
ghost use Rattle.proto_link.specs.Targets.{IsFaultAmong, IsUseFault};
ghost use Rattle.proto_link.specs.Tables.Found.{FindsFault, listed};

use crate::resolve::target_of;
use crate::target::Target;
use proto_decl::Use;
use proto_visibility::{LinkFault, Namespace};
use std::alloc::{AllocError, Global};

/// Why a use names nothing, by what is answered about it; nothing if it names a type.
fn found_fault(answer: Result<Target, LinkFault>) -> Result<Option<LinkFault>, AllocError>
    ensures { FindsFault answer result }
{
    match answer {
        Ok(_) => Ok(None),
        Err(LinkFault::Memory) => Err(AllocError),
        Err(fault) => Ok(Some(fault)),
    }
}

/// Adds a fault, if there is one.
fn add_fault(faults: &mut Vec<LinkFault>, fault: Option<LinkFault>) -> Result<(), AllocError>
    ensures { OnOk result (faults.new.items ≡ faults.old.items ++ listed fault) }
{
    if let Some(fault) = fault {
        faults.push(fault)?;
    }
    Ok(())
}

/// Why these uses of a file name nothing, in order; nothing of a use that names a type.
fn faults_of(
    alloc: Global,
    namespace: &Namespace,
    file: usize,
    uses: &[Use],
) -> Result<Vec<LinkFault>, AllocError>
    requires { file < length namespace.now }
    ensures { IfOk result (λ faults. (fault : LinkFault) → Contains faults.items fault
        ↔ IsFaultAmong namespace.now file uses.now fault) }
{
    let mut faults = Vec::new(alloc);
    for type_use in uses {
        let fault = found_fault(target_of(alloc, namespace, file, type_use))?;
        add_fault(&mut faults, fault)?;
    }
    Ok(faults)
}

/// Why uses of a file name nothing, in order.
pub(crate) fn use_faults_of(
    alloc: Global,
    namespace: &Namespace,
    file: usize,
) -> Result<Vec<LinkFault>, AllocError>
    requires { file < length namespace.now }
    ensures { IfOk result (λ faults. (fault : LinkFault) → Contains faults.items fault
        ↔ IsUseFault namespace.now file fault) }
{
    match namespace.facts_of(file) {
        Some(facts) => faults_of(alloc, namespace, file, facts.uses()),
        None => Ok(Vec::new(alloc)),
    }
}
