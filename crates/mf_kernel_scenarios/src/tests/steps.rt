//! Steps of a core, one by one, where a change waits for an open entry.
ghost use Rattle.std.specs.Prelude.{◌≡◌, All, OnOk, length, map};
ghost use Rattle.mf_policy.specs.Modules.{module_of};
ghost use Rattle.mf_list.specs.Fresh.{IsFresh};
ghost use Rattle.mf_calls.specs.WellFormed.{IsWellFormed};
ghost use Rattle.mf_core.specs.Policies.{AreOf};
ghost use Rattle.mf_core.specs.AllModules.{AreAllModules};
ghost use Rattle.mf_core.specs.CoreView.{specs_of};

use crate::tests::{history_text, wants};
use mf_calls::Script;
use mf_core::{ChangeOutcome, Commit, Core, Turn};
use mf_list::{Catalogue, Fixed, Listed, PolicyList};
use mf_plan::{Outline, Plan};
use mf_policy::Policy;
use std::alloc::{AllocError, Global};
use std::process::Abort;

pub const UNLOADED_DURING_A_READ: &str = "boot mac_partition
file /f reg uid 0 gid 0 mode 644 label - text hi
task a uid 0 gid 0 label -
read /f
end
task b uid 0 gid 0 label -
kldunload mac_partition
end
";

pub const UNLOADED_AFTER_THE_READ: &str = "boot mac_partition 0
enter a
done a 1 ok bytes 2 =hi
leave a
changed b 1 ok
";

/// Task 0 begins its entry.
fn begin_entry<R: Abort>(rt: &R, core: &mut Core)
    requires { length core.old.script.tasks ≡ 2 }
    ensures script { core.new.script ≡ core.old.script }
    ensures specs { specs_of core.new ≡ specs_of core.old }
{
    assert!(rt; core.turn(0) == Turn::Entry);
    core.enter(0);
}

/// Task 0 does the call of its entry, and leaves.
fn finish_entry<P: Policy, R: Abort>(
    rt: &R,
    alloc: Global,
    core: &mut Core,
    list: &Listed<'_, P>,
) -> Result<(), AllocError>
    requires { length core.old.script.tasks ≡ 2 }
    ensures script { OnOk result (core.new.script ≡ core.old.script) }
    ensures specs { OnOk result (specs_of core.new ≡ specs_of core.old) }
{
    assert!(rt; core.turn(0) == Turn::Entered);
    let mut plan = Plan::new();
    core.plan(0, &mut plan, &mut Outline::new());
    let verdict = Core::walk(list, &plan);
    let done = core.done(alloc, 0, list, &plan, &verdict)?;
    assert!(rt; done == Commit::Done);
    assert!(rt; core.turn(0) == Turn::Done);
    core.leave(0);
    Ok(())
}

/// Task 1 makes its change, or finds that it must wait.
fn try_change<P: Policy, R: Abort>(
    rt: &R,
    alloc: Global,
    core: &mut Core,
    fixed: &Fixed<P>,
    list: &mut PolicyList<P>,
    catalogue: &mut Catalogue<P>,
) -> Result<ChangeOutcome, AllocError>
    requires tasks { length core.old.script.tasks ≡ 2 }
    requires policies { AreOf (specs_of core.old) fixed.now list.old catalogue.old }
    ensures script { OnOk result (core.new.script ≡ core.old.script) }
    ensures policies { AreOf (specs_of core.new) fixed.now list.new catalogue.new }
{
    assert!(rt; core.turn(1) == Turn::Change);
    core.change(alloc, 1, fixed, list, catalogue, &mut Plan::new())
}

/// Task 1 would change the list of policies while task 0 is in its entry, and does once that has ended: the history of that.
fn wait_and_change<P: Policy, R: Abort>(
    rt: &R,
    alloc: Global,
    script: &Script,
    core: &mut Core,
    fixed: &Fixed<P>,
    list: &mut PolicyList<P>,
    catalogue: &mut Catalogue<P>,
) -> Result<String, AllocError>
    requires tasks { length core.old.script.tasks ≡ 2 }
    requires policies { AreOf (specs_of core.old) fixed.now list.old catalogue.old }
{
    begin_entry(rt, core);
    let early = try_change(rt, alloc, core, fixed, list, catalogue)?;
    wants(rt, "early", early == ChangeOutcome::Waits(1));
    finish_entry(rt, alloc, core, &Listed::new(fixed, list))?;
    let late = try_change(rt, alloc, core, fixed, list, catalogue)?;
    let is_empty = Listed::new(fixed, list).listed().len() == 0;
    wants(rt, "late", late == ChangeOutcome::Done && is_empty);
    history_text(alloc, script, core)
}

/// The same from the beginning.
pub fn change_during_entry<P: Policy, R: Abort>(
    rt: &R,
    alloc: Global,
    script: &Script,
    modules: Vec<P>,
) -> Result<String, AllocError>
    requires formed { IsWellFormed script.now }
    requires modules { AreAllModules (map (λ p. module_of (P.spec p)) modules.items) }
    requires fresh { All (λ p. IsFresh (P.spec p)) modules.items }
{
    assert!(rt; script.tasks.len() == 2);
    let (mut core, fixed, mut list, mut catalogue) = Core::new(alloc, script, modules)?;
    wait_and_change(
        rt,
        alloc,
        script,
        &mut core,
        &fixed,
        &mut list,
        &mut catalogue,
    )
}
