//! Machines: a state, with the lists of the policies that are asked.
ghost use Rattle.std.specs.Prelude.{◌≡◌, [], ◌∷◌, IfOk};
ghost use Rattle.mf_list.specs.Fresh.{IsFresh};

use mf_biba::Biba;
use mf_cred::Cred;
use mf_elem::{Elem, LabelValue, RangeLabel};
use mf_errno::Module;
use mf_list::{Catalogue, Fixed, PolicyList};
use mf_objects::Objects;
use mf_plan::State;
use mf_policy::{Change, Policy, Registration, Spec, SpecList};
use mf_slots::SlotNumbers;
use std::alloc::{AllocError, Global};
use std::process::Abort;

/// The state, and the lists of the policies that are asked.
#[derive(Drop)]
pub struct Machine<P: Policy> {
    pub state: State,
    pub fixed: Fixed<P>,
    pub list: PolicyList<P>,
}

/// A label whose first slot has this element and range.
pub fn labelled(element: Elem, range: Option<(Elem, Elem)>) -> [LabelValue; 4] {
    let unset = LabelValue::Unset;
    let value = LabelValue::Range(RangeLabel {
        effective: Some(element),
        range,
    });
    [value, unset, unset, unset]
}

pub fn add_process(
    rt: &impl Abort,
    alloc: Global,
    objects: &mut Objects,
    name: &str,
    label: &[LabelValue; 4],
) -> Result<(), AllocError> {
    assert!(rt; objects.live() < 1024 && objects.next_id() < u32::MAX);
    if objects.process(name).is_none() {
        let _id = objects.add_process(alloc, name, &Cred::default(), label)?;
    }
    Ok(())
}

/// The policy alone.
fn alone<P: Policy>(alloc: Global, policy: P) -> Result<Vec<P>, AllocError>
    ensures { IfOk result (λ policies. policies.items ≡ policy ∷ []) }
{
    let mut policies = Vec::new(alloc);
    policies.push(policy)?;
    Ok(policies)
}

/// Boots the policy, whose module has that name.
#[tactic(auto, using(mf_list::proofs::Counts::once_if_distinct))]
fn boot<P: Policy>(
    alloc: Global,
    fixed: &mut Fixed<P>,
    list: &mut PolicyList<P>,
    policy: P,
    name: &str,
) -> Result<(), AllocError>
    requires fixed { fixed.old ≡ [] }
    requires list { list.old ≡ [] }
    requires fresh { IsFresh (P.spec policy) }
{
    let mut catalogue = Catalogue::new(alone(alloc, policy)?)?;
    let mut numbers = SlotNumbers::new();
    let _booted = list.boot(fixed, &mut catalogue, &mut numbers, name);
    Ok(())
}

/// The two lists, with nothing.
pub fn no_lists<P: Policy>(alloc: Global) -> Result<(Fixed<P>, PolicyList<P>), AllocError>
    ensures fixed { IfOk result (λ lists. lists.0 ≡ []) }
    ensures list { IfOk result (λ lists. lists.1 ≡ []) }
{
    let fixed = Fixed::new(alloc)?;
    let list = PolicyList::new(alloc)?;
    Ok((fixed, list))
}

/// The two lists, with the policy alone, whose module has that name.
fn lists_of<P: Policy>(
    alloc: Global,
    policy: P,
    name: &str,
) -> Result<(Fixed<P>, PolicyList<P>), AllocError>
    requires { IsFresh (P.spec policy) }
{
    let (mut fixed, mut list) = no_lists(alloc)?;
    boot(alloc, &mut fixed, &mut list, policy, name)?;
    Ok((fixed, list))
}

/// The specs where this module alone is listed, and has the first slot.
pub fn with_module(alloc: Global, module: Module, spec: Spec) -> Result<SpecList, AllocError> {
    let mut specs = SpecList::new(alloc);
    let registration = Registration {
        module,
        slot: Some(0),
        fixed: true,
    };
    specs.list(registration, spec)?;
    Ok(specs)
}

/// The specs where Biba is listed.
pub fn with_biba(alloc: Global, revocation: bool) -> Result<SpecList, AllocError> {
    with_module(alloc, Module::Biba, Spec::Biba { revocation })
}

fn populate(
    rt: &impl Abort,
    alloc: Global,
    objects: &mut Objects,
    t: Elem,
    u: Elem,
) -> Result<(), AllocError> {
    let range = Some((Elem::Low, Elem::High));
    add_process(rt, alloc, objects, "t", &labelled(t, range))?;
    add_process(rt, alloc, objects, "u", &labelled(u, range))
}

/// The processes t and u, with these elements.
fn population(rt: &impl Abort, alloc: Global, t: Elem, u: Elem) -> Result<Objects, AllocError> {
    let mut objects = Objects::new(alloc, &labelled(Elem::High, None))?;
    populate(rt, alloc, &mut objects, t, u)?;
    Ok(objects)
}

/// The value, beside one whose making may have failed: what is owned meanwhile is this function's, which sees no more of it.
pub fn beside<T: Drop, U: Drop>(
    one: T,
    other: Result<U, AllocError>,
) -> Result<(T, U), AllocError> {
    let other = other?;
    Ok((one, other))
}

/// The state of these entities, where the first slot alone is given away.
fn state_with(objects: Objects, specs: SpecList) -> State {
    let mut numbers = SlotNumbers::new();
    let _number = numbers.take();
    State {
        objects,
        specs,
        numbers,
        booted: true,
    }
}

/// The machine with these entities, where this policy alone is listed, of a module of that name.
pub fn machine_with<P: Policy>(
    alloc: Global,
    objects: Objects,
    specs: SpecList,
    policy: P,
    name: &str,
) -> Result<Machine<P>, AllocError>
    requires { IsFresh (P.spec policy) }
{
    let state = state_with(objects, specs);
    let (state, (fixed, list)) = beside(state, lists_of(alloc, policy, name))?;
    Ok(Machine { state, fixed, list })
}

/// The machine where t and u have these elements.
pub fn booted(
    rt: &impl Abort,
    alloc: Global,
    t: Elem,
    u: Elem,
) -> Result<Machine<Biba>, AllocError> {
    let specs = with_biba(alloc, false)?;
    let (specs, objects) = beside(specs, population(rt, alloc, t, u))?;
    machine_with(alloc, objects, specs, Biba::new(), "mac_biba")
}

/// Turns revocation on, in the list and in the state.
pub fn revoke(alloc: Global, machine: &mut Machine<Biba>) -> Result<(), AllocError> {
    let _changed = machine
        .fixed
        .set(alloc, Module::Biba, &Change::Revocation(true))?;
    machine.state.specs = with_biba(alloc, true)?;
    Ok(())
}
