//! Growths of a list of specs that are refused: the list is as it was, and done again they give the same.
//! Where no memory is refused the test shows nothing but what comes of each growth;
//! checks/memory.sh runs it with one allocation refused after another.

use crate::asked::wants;
use mf_errno::Module;
use mf_policy::{Registration, Spec, SpecList};
use std::alloc::{AllocError, Global};

/// Lists the module in its initial state, with that slot.
pub fn list(
    alloc: Global,
    specs: &mut SpecList,
    module: Module,
    slot: Option<u8>,
) -> Result<(), AllocError> {
    let registration = Registration {
        module,
        slot,
        fixed: module != Module::Partition,
    };
    specs.list(registration, Spec::fresh(alloc, module)?)
}

/// Modules, in the order in which they are listed.
const LISTED: &[Module] = &[
    Module::Biba,
    Module::Bsdextended,
    Module::Mls,
    Module::Partition,
    Module::Priority,
    Module::Seeotheruids,
    Module::Portacl,
];

/// Lists the module; where that is refused, the specs are as they were, and it is done once more.
fn grows(alloc: Global, specs: &mut SpecList, module: Module) -> Result<bool, AllocError> {
    let count = specs.len();
    let mut stays = true;
    if list(alloc, specs, module, None).is_err() {
        stays = specs.len() == count && !specs.is_listed(module);
        list(alloc, specs, module, None)?;
    }
    Ok(stays && specs.len() == count.saturating_add(1) && specs.is_listed(module))
}

fn is_copied(alloc: Global, specs: &SpecList) -> Result<bool, AllocError> {
    let copy = specs.copy(alloc)?;
    Ok(copy.len() == specs.len() && copy.is_listed(Module::Partition))
}

/// Lists all, and copies the list.
fn grow_all(alloc: Global, specs: &mut SpecList) -> Result<bool, AllocError> {
    for module in LISTED {
        if !grows(alloc, specs, *module)? {
            return Ok(false);
        }
    }
    is_copied(alloc, specs)
}

fn grow_or_stay(alloc: Global) -> Result<bool, AllocError> {
    grow_all(alloc, &mut SpecList::new(alloc))
}

#[test]
fn specs_after_refused_growths(rt: HostRuntime) -> Result<(), AllocError> {
    let is_so = grow_or_stay(rt.alloc())?;
    wants(&rt, "specs", is_so);
    Ok(())
}
