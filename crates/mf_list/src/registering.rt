//! Registration: policies come from the catalogue into a list, and go back.
ghost use Rattle.std.specs.Prelude.{◌≡◌, ◌+◌, ◌<◌, ◌++◌, OnErr, IfOk, true, false, if◌then◌else◌, is_some};
ghost use Rattle.mf_errno.specs.Names.{module_named};
ghost use Rattle.mf_policy.specs.Modules as facts;
ghost use Rattle.mf_policy.specs.Registration.{is_listed};
ghost use Rattle.mf_list.specs.Lists.{HasSlot, IsPinned, MayLeave, in_catalogue};
ghost use Rattle.mf_list.specs.Once.{IsHeldOnce};
ghost use Rattle.mf_list.specs.Places.{IsEntryPlace};
ghost use Rattle.mf_list.specs.Registration.{Enters, Registers, Unregisters, register_verdict, register_verdict_by_name, unregister_verdict, unregister_verdict_by_name};

use crate::catalogue::Catalogue;
use crate::faults::{RegisterFault, UnregisterFault};
use crate::fixed::Fixed;
use crate::listed::Listed;
use crate::listed_policy::ListedPolicy;
use crate::policy_list::PolicyList;
use mf_elem::SLOTS;
use mf_errno::Module;
use mf_policy::{Policy, Registration};
use mf_slots::SlotNumbers;

impl<P: Policy> PolicyList<P> {
    /// Lists the module of that name before the end of boot, with the next slot number where it wants one: in the static
    /// list where it lacks UNLOADOK, else in this one. A refusal changes nothing.
    pub fn boot(
        &mut self,
        fixed: &mut Fixed<P>,
        catalogue: &mut Catalogue<P>,
        numbers: &mut SlotNumbers,
        name: &str,
    ) -> Result<Registration, RegisterFault>
        requires once { IsHeldOnce (fixed.old ++ self.old) catalogue.old }
        ensures verdict { result
            ≡ register_verdict_by_name (module_named name.now) false
            (fixed.old ++ self.old) catalogue.old numbers.old }
        ensures ok { IfOk result
            (λ r. Registers r (fixed.old ++ self.old)
            (fixed.new ++ self.new) catalogue.old catalogue.new numbers.old numbers.new) }
        ensures err { OnErr result
            ((self.new ≡ self.old) × (fixed.new ≡ fixed.old) × (catalogue.new ≡ catalogue.old)
            × (numbers.new ≡ numbers.old)) }
        ensures once { IsHeldOnce (fixed.new ++ self.new) catalogue.new }
    {
        match Module::from_name(name) {
            Some(wanted) => self.boot_module(fixed, catalogue, numbers, wanted),
            None => Err(RegisterFault::Unknown),
        }
    }

    fn boot_module(
        &mut self,
        fixed: &mut Fixed<P>,
        catalogue: &mut Catalogue<P>,
        numbers: &mut SlotNumbers,
        wanted: Module,
    ) -> Result<Registration, RegisterFault>
        requires once { IsHeldOnce (fixed.old ++ self.old) catalogue.old }
        ensures verdict { result
            ≡ register_verdict wanted false (fixed.old ++ self.old) catalogue.old numbers.old }
        ensures ok { IfOk result
            (λ r. Registers r (fixed.old ++ self.old)
            (fixed.new ++ self.new) catalogue.old catalogue.new numbers.old numbers.new) }
        ensures err { OnErr result
            ((self.new ≡ self.old) × (fixed.new ≡ fixed.old) × (catalogue.new ≡ catalogue.old)
            × (numbers.new ≡ numbers.old)) }
        ensures once { IsHeldOnce (fixed.new ++ self.new) catalogue.new }
    {
        let listed = Listed::new(fixed, self);
        let registration = listed.judge(catalogue, numbers.given(), wanted, false)?;
        take_number(numbers, registration);
        if registration.fixed {
            fixed.attach(self, catalogue, registration);
        } else {
            self.attach(fixed, catalogue, registration);
        }
        Ok(registration)
    }

    /// Lists the module of that name after boot, in this list, with the next slot number where it wants one. A refusal
    /// changes nothing.
    pub fn register(
        &mut self,
        fixed: &Fixed<P>,
        catalogue: &mut Catalogue<P>,
        numbers: &mut SlotNumbers,
        name: &str,
    ) -> Result<Registration, RegisterFault>
        requires once { IsHeldOnce (fixed.now ++ self.old) catalogue.old }
        ensures verdict { result
            ≡ register_verdict_by_name (module_named name.now) true
            (fixed.now ++ self.old) catalogue.old numbers.old }
        ensures ok { IfOk result
            (λ r. Registers r (fixed.now ++ self.old)
            (fixed.now ++ self.new) catalogue.old catalogue.new numbers.old numbers.new) }
        ensures err { OnErr result
            ((self.new ≡ self.old) × (catalogue.new ≡ catalogue.old)
            × (numbers.new ≡ numbers.old)) }
        ensures once { IsHeldOnce (fixed.now ++ self.new) catalogue.new }
    {
        match Module::from_name(name) {
            Some(wanted) => self.register_module(fixed, catalogue, numbers, wanted),
            None => Err(RegisterFault::Unknown),
        }
    }

    fn register_module(
        &mut self,
        fixed: &Fixed<P>,
        catalogue: &mut Catalogue<P>,
        numbers: &mut SlotNumbers,
        wanted: Module,
    ) -> Result<Registration, RegisterFault>
        requires once { IsHeldOnce (fixed.now ++ self.old) catalogue.old }
        ensures verdict { result
            ≡ register_verdict wanted true (fixed.now ++ self.old) catalogue.old numbers.old }
        ensures ok { IfOk result
            (λ r. Registers r (fixed.now ++ self.old)
            (fixed.now ++ self.new) catalogue.old catalogue.new numbers.old numbers.new) }
        ensures err { OnErr result
            ((self.new ≡ self.old) × (catalogue.new ≡ catalogue.old)
            × (numbers.new ≡ numbers.old)) }
        ensures once { IsHeldOnce (fixed.now ++ self.new) catalogue.new }
    {
        let listed = Listed::new(fixed, self);
        let registration = listed.judge(catalogue, numbers.given(), wanted, true)?;
        take_number(numbers, registration);
        self.attach(fixed, catalogue, registration);
        Ok(registration)
    }

    /// Takes the policy of the registration's module out of the catalogue into this list, with no judgement: for lists that
    /// follow a state in which the module was loaded.
    pub fn attach(
        &mut self,
        fixed: &Fixed<P>,
        catalogue: &mut Catalogue<P>,
        registration: Registration,
    )
        requires there { in_catalogue registration.«module» catalogue.old ≡ true }
        requires absent { is_listed registration.«module» (fixed.now ++ self.old) ≡ false }
        requires slot { HasSlot (facts.wants_slot registration.«module») registration.slot }
        requires may_leave { MayLeave (registration, facts.fresh_of registration.«module») }
        requires once { IsHeldOnce (fixed.now ++ self.old) catalogue.old }
        ensures moves { Enters registration (fixed.now ++ self.old)
            (fixed.now ++ self.new) catalogue.old catalogue.new }
        ensures once { IsHeldOnce (fixed.now ++ self.new) catalogue.new }
    {
        fixed.are_pinned();
        self.may_leave();
        match catalogue.take(registration.module) {
            Some(policy) => self.put(ListedPolicy::new(registration, policy)),
            None => unreachable!(),
        }
    }

    /// Takes the module of that name off the dynamic list. Its policy goes back into the catalogue in its initial state; its slot
    /// number isn't given again. A refusal changes nothing.
    pub fn unregister(
        &mut self,
        fixed: &Fixed<P>,
        catalogue: &mut Catalogue<P>,
        name: &str,
    ) -> Result<Registration, UnregisterFault>
        requires once { IsHeldOnce (fixed.now ++ self.old) catalogue.old }
        ensures verdict { result
            ≡ unregister_verdict_by_name (module_named name.now) (fixed.now ++ self.old) }
        ensures ok { IfOk result
            (λ r. Unregisters r.«module» (fixed.now ++ self.old)
            (fixed.now ++ self.new) catalogue.old catalogue.new) }
        ensures err { OnErr result ((self.new ≡ self.old) × (catalogue.new ≡ catalogue.old)) }
        ensures once { IsHeldOnce (fixed.now ++ self.new) catalogue.new }
    {
        match Module::from_name(name) {
            Some(wanted) => self.unregister_module(fixed, catalogue, wanted),
            None => Err(UnregisterFault::NotLoaded),
        }
    }

    fn unregister_module(
        &mut self,
        fixed: &Fixed<P>,
        catalogue: &mut Catalogue<P>,
        wanted: Module,
    ) -> Result<Registration, UnregisterFault>
        requires once { IsHeldOnce (fixed.now ++ self.old) catalogue.old }
        ensures verdict { result ≡ unregister_verdict wanted (fixed.now ++ self.old) }
        ensures ok { IfOk result
            (λ r. Unregisters r.«module» (fixed.now ++ self.old)
            (fixed.now ++ self.new) catalogue.old catalogue.new) }
        ensures err { OnErr result ((self.new ≡ self.old) × (catalogue.new ≡ catalogue.old)) }
        ensures once { IsHeldOnce (fixed.now ++ self.new) catalogue.new }
    {
        let registration = Listed::new(fixed, self).ending(wanted)?;
        fixed.are_pinned();
        self.detach(fixed, catalogue, wanted);
        Ok(registration)
    }

    /// Takes the module's policy off the dynamic list and puts it into the catalogue in its initial state, with no judgement: for
    /// lists that follow a state in which the module was unloaded.
    pub fn detach(&mut self, fixed: &Fixed<P>, catalogue: &mut Catalogue<P>, module: Module)
        requires listed { is_listed «module» self.old ≡ true }
        requires once { IsHeldOnce (fixed.now ++ self.old) catalogue.old }
        ensures moves { Unregisters «module» (fixed.now ++ self.old)
            (fixed.now ++ self.new) catalogue.old catalogue.new }
        ensures once { IsHeldOnce (fixed.now ++ self.new) catalogue.new }
    {
        fixed.are_pinned();
        self.may_leave();
        match self.place_of(module) {
            Some(place) => self.leave(catalogue, place, module),
            None => unreachable!(),
        }
    }

    fn leave(&mut self, catalogue: &mut Catalogue<P>, place: usize, wanted: Module)
        requires place { IsEntryPlace wanted self.old place }
        requires absent { in_catalogue wanted catalogue.old ≡ false }
        ensures { Unregisters wanted self.old self.new catalogue.old catalogue.new }
    {
        let listed = self.take(place);
        catalogue.put(listed.into_fresh());
    }
}

impl<P: Policy> Fixed<P> {
    /// Takes the policy of the registration's module out of the catalogue into this list, with no judgement.
    fn attach(
        &mut self,
        list: &PolicyList<P>,
        catalogue: &mut Catalogue<P>,
        registration: Registration,
    )
        requires there { in_catalogue registration.«module» catalogue.old ≡ true }
        requires absent { is_listed registration.«module» (self.old ++ list.now) ≡ false }
        requires slot { HasSlot (facts.wants_slot registration.«module») registration.slot }
        requires pinned { IsPinned (registration, facts.fresh_of registration.«module») }
        requires once { IsHeldOnce (self.old ++ list.now) catalogue.old }
        ensures moves { Enters registration (self.old ++ list.now)
            (self.new ++ list.now) catalogue.old catalogue.new }
        ensures once { IsHeldOnce (self.new ++ list.now) catalogue.new }
    {
        match catalogue.take(registration.module) {
            Some(policy) => self.put(ListedPolicy::new(registration, policy)),
            None => unreachable!(),
        }
    }
}

/// Takes the number of the registration, which is the next one.
fn take_number(numbers: &mut SlotNumbers, registration: Registration)
    requires { is_some registration.slot ≡ true → numbers.old < SLOTS }
    ensures { numbers.new ≡ (if is_some registration.slot then numbers.old + 1 else numbers.old) }
{
    if registration.slot.is_some() {
        let _ = numbers.take();
    }
}
