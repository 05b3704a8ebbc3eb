//! A core whose growths are refused: it is as it was before, its list and catalogue too, and the
//! call done again gives the same. Where no memory is refused this shows nothing but what the calls
//! do; checks/memory.sh runs it with one allocation refused after another.
ghost use Rattle.std.specs.Prelude.{◌≡◌, ◌<◌, All, length, map};
ghost use Rattle.mf_policy.specs.Modules.{module_of};
ghost use Rattle.mf_list.specs.Fresh.{IsFresh};
ghost use Rattle.mf_calls.specs.WellFormed.{IsWellFormed};
ghost use Rattle.mf_core.specs.AllModules.{AreAllModules};
ghost use Rattle.mf_core.specs.CoreView.{specs_of};
ghost use Rattle.mf_core.specs.Policies.{AreOf};

use crate::tests::{history_text, wants};
use mf_calls::Script;
use mf_core::{ChangeOutcome, Commit, Core, Turn};
use mf_list::{Catalogue, Fixed, Listed, PolicyList};
use mf_plan::{Outline, Plan};
use mf_policy::Policy;
use std::alloc::{AllocError, Global};
use std::process::Abort;

/// The lines of a task that take memory: for an entity, for what it holds or hands back, for a
/// label, or for a policy.
pub const GROWING: &str = "boot mac_biba
boot mac_lomac
file /f reg uid 0 gid 0 mode 644 label - text hi
task t uid 0 gid 0 label biba/equal
write /f x
fork c
create /g
mkdir /d
pipe p
pwrite p abc
socket s
socket r
send s r x
recv r
readdir /
getpmac
kldload mac_partition
setpmac partition/5
setfmac biba/5 /f
setpmac lomac/5
kldload mac_bsdextended
ugidfw add subject uid 5 object mode n
ugidfw list
kldunload mac_partition
kldload mac_portacl
sysctl security.mac.portacl.rules=uid:0:udp:53
sysctl security.mac.portacl.suser_exempt=0
bind s tcp 53
@c exit
end
";

/// More than the task has lines.
const MANY: u32 = 100;

pub const REPLIES: &str = "done t 1 ok
done t 2 ok
done t 3 ok
done t 4 ok
done t 5 ok
done t 6 ok
done t 7 ok
done t 8 ok
done t 9 ok
done t 10 ok bytes 1 =x
done t 11 ok names 3 d,f,g
done t 12 ok label biba/equal(low-high),lomac/high
changed t 13 ok slot 2
done t 14 ok
done t 15 ok
done t 16 ok
changed t 17 ok slot -
changed t 18 ok rule 0
done t 19 ok rules 1 ; 0 subject uid 5 object mode n
changed t 20 ok
changed t 21 ok slot -
changed t 22 ok
changed t 23 ok
done t 24 no EPERM socket_bind mac_portacl 1
done t 25 ok
";

/// A process that gives up its element, and doesn't get it back.
pub const LOWERING: &str = "boot mac_lomac
file /hi reg uid 0 gid 0 mode 644 label -
task t uid 0 gid 0 label -
write /hi x
setpmac lomac/5
write /hi x
setpmac lomac/high
getpmac
end
";

pub const LOWERED: &str = "done t 1 ok
done t 2 ok
done t 3 no EACCES vnode_open_write mac_lomac 2
done t 4 no EPERM cred_relabel mac_lomac 1
done t 5 ok label lomac/5
";

/// A file that is read and written through descriptors, with revocation, and goes.
pub const OPENING: &str = "boot mac_biba
tunable security.mac.biba.revocation_enabled=1
file /f reg uid 0 gid 0 mode 644 label biba/high text hi
task t uid 0 gid 0 label biba/high
open /f r
open /f w
fwrite 1 !
setfmac biba/5 /f
fread 0
fwrite 1 !
setfmac biba/high /f
fread 0
unlink /f
fread 0
end
";

pub const OPENED: &str = "done t 1 ok fd 0
done t 2 ok fd 1
done t 3 ok
done t 4 ok
done t 5 no EACCES vnode_read mac_biba 1
done t 6 ok
done t 7 ok
done t 8 ok bytes 4 =hi!!
done t 9 ok
done t 10 no EBADF - -
";

/// A core of a script with a task, with its policies.
#[derive(Drop)]
struct Machine<'s, P: Policy> {
    core: Core<'s>,
    fixed: Fixed<P>,
    list: PolicyList<P>,
    catalogue: Catalogue<P>,

    ghost policies: { AreOf (specs_of core) fixed list catalogue },
    ghost tasks: { 0 < length core.script.tasks },
}

/// What can be read of the core: its turn and its counts, the live entities, and the history.
fn reading_of<P: Policy>(
    alloc: Global,
    script: &Script,
    machine: &Machine<P>,
) -> Result<String, AllocError> {
    let mut text = history_text(alloc, script, &machine.core)?;
    let (open, lines) = (machine.core.open_entries(), machine.core.lines(0));
    let objects = &machine.core.state().objects;
    let (live, next) = (objects.live(), objects.next_id());
    let is_entered = machine.core.turn(0) == Turn::Entered;
    write!(text, "{open} {lines} {live} {next} {is_entered}")?;
    Ok(text)
}

/// Wants this to be read of the core, and its list to have the specs of its state.
fn wants_reading<P: Policy>(
    rt: &impl Abort,
    alloc: Global,
    script: &Script,
    machine: &Machine<P>,
    before: &str,
) -> Result<(), AllocError> {
    let after = reading_of(alloc, script, machine)?;
    let listed = Listed::new(&machine.fixed, &machine.list);
    let has_specs = listed.same_specs(&machine.core.state().specs);
    wants(rt, before, after.as_str() == before && has_specs);
    Ok(())
}

/// Plans the call of the open entry, asks the policies, and commits it.
fn commit<P: Policy>(
    rt: &impl Abort,
    alloc: Global,
    machine: &mut Machine<P>,
) -> Result<Commit, AllocError> {
    assert!(rt; machine.core.turn(0) == Turn::Entered);
    let mut plan = Plan::new();
    machine.core.plan(0, &mut plan, &mut Outline::new());
    let listed = Listed::new(&machine.fixed, &machine.list);
    let verdict = Core::walk(&listed, &plan);
    machine.core.done(alloc, 0, &listed, &plan, &verdict)
}

/// Makes the change of the task's next line.
fn change<P: Policy>(
    rt: &impl Abort,
    alloc: Global,
    machine: &mut Machine<P>,
) -> Result<ChangeOutcome, AllocError> {
    assert!(rt; machine.core.turn(0) == Turn::Change);
    machine.core.change(
        alloc,
        0,
        &machine.fixed,
        &mut machine.list,
        &mut machine.catalogue,
        &mut Plan::new(),
    )
}

/// Commits the call of the open entry, or makes the change of the task's next line, and returns whether that is done.
fn do_step<P: Policy>(
    rt: &impl Abort,
    alloc: Global,
    machine: &mut Machine<P>,
) -> Result<bool, AllocError> {
    if machine.core.turn(0) == Turn::Change {
        Ok(change(rt, alloc, machine)? == ChangeOutcome::Done)
    } else {
        Ok(commit(rt, alloc, machine)? == Commit::Done)
    }
}

/// The same; where memory is refused, core and policies are as they were, and it is done once more.
fn do_step_or_stay<P: Policy>(
    rt: &impl Abort,
    alloc: Global,
    script: &Script,
    machine: &mut Machine<P>,
) -> Result<(), AllocError> {
    let before = reading_of(alloc, script, machine)?;
    let is_done = match do_step(rt, alloc, machine) {
        Ok(is_done) => is_done,
        Err(AllocError) => {
            wants_reading(rt, alloc, script, machine, before.as_str())?;
            do_step(rt, alloc, machine)?
        }
    };
    wants(rt, "done", is_done);
    Ok(())
}

fn enter<P: Policy>(rt: &impl Abort, machine: &mut Machine<P>) {
    assert!(rt; machine.core.turn(0) == Turn::Entry);
    machine.core.enter(0);
}

fn leave<P: Policy>(rt: &impl Abort, machine: &mut Machine<P>) {
    assert!(rt; machine.core.turn(0) == Turn::Done);
    machine.core.leave(0);
}

/// Does the task's next line, where it has one.
fn do_line<P: Policy>(
    rt: &impl Abort,
    alloc: Global,
    script: &Script,
    machine: &mut Machine<P>,
) -> Result<(), AllocError> {
    match machine.core.turn(0) {
        Turn::Entry => {
            enter(rt, machine);
            do_step_or_stay(rt, alloc, script, machine)?;
            leave(rt, machine);
            Ok(())
        }
        Turn::Change => do_step_or_stay(rt, alloc, script, machine),
        Turn::Entered | Turn::Done | Turn::Stopped | Turn::Finished => Ok(()),
    }
}

/// Does the task's lines, one after another: the history of that.
fn do_lines<P: Policy>(
    rt: &impl Abort,
    alloc: Global,
    script: &Script,
    machine: &mut Machine<P>,
) -> Result<String, AllocError> {
    for _ in 0..MANY {
        do_line(rt, alloc, script, machine)?;
    }
    history_text(alloc, script, &machine.core)
}

/// The same of the only task, from the beginning.
pub fn history_over<P: Policy>(
    rt: &impl Abort,
    alloc: Global,
    script: &Script,
    modules: Vec<P>,
) -> Result<String, AllocError>
    requires formed { IsWellFormed script.now }
    requires modules { AreAllModules (map (λ p. module_of (P.spec p)) modules.items) }
    requires fresh { All (λ p. IsFresh (P.spec p)) modules.items }
{
    assert!(rt; script.tasks.len() == 1);
    let (core, fixed, list, catalogue) = Core::new(alloc, script, modules)?;
    let mut machine = Machine {
        core,
        fixed,
        list,
        catalogue,
    };
    do_lines(rt, alloc, script, &mut machine)
}

/// Whether the replies in a history are these lines.
pub fn has_replies(text: &str, replies: &str) -> bool {
    let mut wanted = replies.lines();
    for line in text.lines() {
        if line.starts_with("done ") || line.starts_with("changed ") {
            match wanted.next() {
                Some(reply) if reply == line => {}
                _ => return false,
            }
        }
    }
    wanted.next().is_none()
}
