//! The lists of policies and the catalogue, and what is done with them.
ghost use Rattle.std.specs.Prelude.{◌≡◌, [], ◌++◌, All, IfOk, IsTrue, map};
ghost use Rattle.mf_policy.specs.Modules.{module_of};
ghost use Rattle.mf_list.specs.Fresh.{IsFresh};
ghost use Rattle.mf_list.specs.Once.{IsHeldOnce, are_distinct};

use crate::one_of::OneOf;
use mf_biba::Biba;
use mf_list::{Catalogue, Fixed, Listed, PolicyList, RegisterFault, UnregisterFault};
use mf_mls::Mls;
use mf_partition::Partition;
use mf_policy::{Policy, Registration, SpecList};
use mf_ports::{Portacl, Seeotheruids};
use mf_slots::SlotNumbers;
use std::alloc::{AllocError, Global};
use std::sync::atomic::{AtomicU64, Ordering};

/// The two lists, with nothing.
fn no_lists<P: Policy>(alloc: Global) -> Result<(Fixed<P>, PolicyList<P>), AllocError>
    ensures fixed { IfOk result (λ lists. lists.0 ≡ []) }
    ensures list { IfOk result (λ lists. lists.1 ≡ []) }
{
    let fixed = Fixed::new(alloc)?;
    let list = PolicyList::new(alloc)?;
    Ok((fixed, list))
}

/// The lists, the catalogue, and the slot numbers that are left.
#[derive(Drop)]
pub struct Policies<P: Policy> {
    pub fixed: Fixed<P>,
    pub list: PolicyList<P>,
    catalogue: Catalogue<P>,
    numbers: SlotNumbers,
}

impl<P: Policy> Policies<P> {
    /// No policy is listed yet.
    #[tactic(auto, using(mf_list::proofs::Counts::once_if_distinct))]
    fn new(alloc: Global, modules: Vec<P>) -> Result<Policies<P>, AllocError>
        requires distinct { IsTrue (are_distinct (map (λ p. module_of (P.spec p)) modules.items)) }
        requires fresh { All (λ p. IsFresh (P.spec p)) modules.items }
        ensures { IfOk result (λ policies. IsHeldOnce (policies.fixed ++ policies.list) policies.catalogue) }
    {
        let catalogue = Catalogue::new(modules)?;
        let (fixed, list) = no_lists(alloc)?;
        Ok(Policies {
            fixed,
            list,
            catalogue,
            numbers: SlotNumbers::new(),
        })
    }

    pub fn walk(&self) -> Listed<'_, P>
        ensures { result ≡ self.now.fixed ++ self.now.list }
    {
        Listed::new(&self.fixed, &self.list)
    }

    fn register(&mut self, name: &str, late: bool) -> Result<Registration, RegisterFault>
        requires { IsHeldOnce (self.old.fixed ++ self.old.list) self.old.catalogue }
        ensures { IsHeldOnce (self.new.fixed ++ self.new.list) self.new.catalogue }
    {
        let (catalogue, numbers) = (&mut self.catalogue, &mut self.numbers);
        if late {
            self.list.register(&self.fixed, catalogue, numbers, name)
        } else {
            self.list.boot(&mut self.fixed, catalogue, numbers, name)
        }
    }

    fn unregister(&mut self, name: &str) -> Result<Registration, UnregisterFault>
        requires { IsHeldOnce (self.old.fixed ++ self.old.list) self.old.catalogue }
        ensures { IsHeldOnce (self.new.fixed ++ self.new.list) self.new.catalogue }
    {
        self.list.unregister(&self.fixed, &mut self.catalogue, name)
    }

    fn knows(&self, name: &str) -> bool {
        self.catalogue.knows(&self.fixed, &self.list, name)
    }

    /// How many policies are listed, and how many slot numbers were given.
    fn counts(&self) -> (usize, u8) {
        (self.walk().listed().len(), self.numbers.given())
    }
}

/// The five, none of them listed.
pub fn all_five(alloc: Global, resets: &AtomicU64) -> Result<Policies<OneOf<'_>>, AllocError>
    ensures { IfOk result (λ policies. IsHeldOnce (policies.fixed ++ policies.list) policies.catalogue) }
{
    let biba = OneOf::Biba(Biba::new());
    let mls = OneOf::Mls(Mls::new());
    let partition = OneOf::Partition(Partition::new(), resets);
    let seeotheruids = OneOf::Seeotheruids(Seeotheruids::new());
    let portacl = OneOf::Portacl(Portacl::new());
    let modules = vec![in alloc; biba, mls, partition, seeotheruids, portacl]?;
    Policies::new(alloc, modules)
}

/// What is done with the lists.
pub enum Act {
    /// The module of that name is registered, late or at boot, and what comes of it.
    Register(&'static str, bool, Result<Registration, RegisterFault>),
    /// It is unregistered, and what comes of that.
    Unregister(&'static str, Result<Registration, UnregisterFault>),
    /// How often mac_partition was reset until then.
    Resets(u64),
}

/// Whether that comes of the registration. One that is refused leaves what is listed and given as it was.
fn registers<P: Policy>(
    policies: &mut Policies<P>,
    name: &str,
    late: bool,
    wanted: &Result<Registration, RegisterFault>,
) -> bool
    requires { IsHeldOnce (policies.old.fixed ++ policies.old.list) policies.old.catalogue }
    ensures { IsHeldOnce (policies.new.fixed ++ policies.new.list) policies.new.catalogue }
{
    let (counts, is_known) = (policies.counts(), policies.knows(name));
    let found = policies.register(name, late);
    let stays = found.is_ok() || policies.counts() == counts;
    let was_known = is_known == (*wanted != Err(RegisterFault::Unknown));
    found == *wanted && stays && was_known && policies.knows(name) == is_known
}

/// Whether that comes of the act.
fn comes_of<P: Policy>(policies: &mut Policies<P>, resets: &AtomicU64, act: &Act) -> bool
    requires { IsHeldOnce (policies.old.fixed ++ policies.old.list) policies.old.catalogue }
    ensures { IsHeldOnce (policies.new.fixed ++ policies.new.list) policies.new.catalogue }
{
    match act {
        Act::Register(name, late, wanted) => registers(policies, name, *late, wanted),
        Act::Unregister(name, wanted) => {
            policies.unregister(name) == *wanted && policies.knows(name)
        }
        Act::Resets(wanted) => resets.load(Ordering::SeqCst) == *wanted,
    }
}

/// Whether that comes of each act.
pub fn comes_of_all<P: Policy>(policies: &mut Policies<P>, resets: &AtomicU64, acts: &[Act]) -> bool
    requires { IsHeldOnce (policies.old.fixed ++ policies.old.list) policies.old.catalogue }
{
    let mut holds = true;
    for act in acts {
        holds &= comes_of(policies, resets, act);
    }
    holds
}

/// Whether these are listed, in walk order, and so many slot numbers were given.
pub fn are_listed<P: Policy>(
    alloc: Global,
    policies: &Policies<P>,
    wanted: &[Registration],
    given: u8,
) -> bool {
    let none = SpecList::new(alloc);
    let is_none = policies.walk().same_specs(&none) == wanted.is_empty();
    let listed = policies.walk().listed();
    is_none && listed.as_slice() == wanted && policies.counts() == (wanted.len(), given)
}
