//! The settings of policies, and changes of them: revocation of mac_biba(4), rules and first match of mac_bsdextended(4), and
//! those of mac_seeotheruids(4) and mac_portacl(4).
ghost use Rattle.std.specs.Prelude.{◌≡◌, IfOk, OnErr};
ghost use Rattle.mf_policy.specs.Settings as spec;
ghost use Rattle.mf_policy.specs.IsChange.{IsChange};
ghost use Rattle.mf_policy.specs.declared.spec.Spec.TheVariants as means;

use crate::Spec;
use mf_errno::Errno;
use mf_rule::{PortRules, Rule, RuleList};
use std::alloc::AllocError;

/// A change of a setting.
#[derive(Drop)]
pub enum Change {
    /// Whether mac_biba's policy tests each transfer of bytes through an open file, as the tunable
    /// `security.mac.biba.revocation_enabled` of mac_biba(4) has it.
    Revocation(bool),
    /// Whether the file system firewall stops at the first rule that matches, as the sysctl
    /// `security.mac.bsdextended.firstmatch_enabled` of mac_bsdextended(4) sets it.
    FirstMatch(bool),
    /// One rule more, under the lowest free number, as by `ugidfw add`.
    RuleAdd(Rule),
    /// The rule of a number, in place of the one that it may have, as by `ugidfw set`.
    RuleSet(u32, Rule),
    /// No rule of that number any more, as by `ugidfw remove`.
    RuleRemove(u32),
    /// These settings of mac_seeotheruids(4) in the place of all that there are.
    See(Spec),
    /// These settings of mac_portacl(4) in the place of all that there are.
    Port(Spec),
}

/// The answer to a change: its errno, and for a rule that was added its number.
#[derive(Clone, Copy, Debug, PartialEq, Eq)]
pub struct Changed {
    pub errno: Errno,
    pub number: Option<u32>,
}

impl Changed {
    /// The change was made.
    pub fn done() -> Changed
        ensures { result ≡ spec.change_made }
    {
        Changed::with(Errno::Success, None)
    }

    /// The answer of a policy that has no such setting.
    pub fn no_setting() -> Changed
        ensures { result ≡ spec.no_setting }
    {
        Changed::with(Errno::Enoent, None)
    }

    fn with(errno: Errno, number: Option<u32>) -> Changed
        ensures { result ≡ record { errno = errno; number = number } }
    {
        Changed { errno, number }
    }
}

/// What mac_biba's policy would answer to a change.
pub(crate) fn answer_of_revocation(change: &Change) -> Changed
    ensures { (revocation : _) → result ≡ (spec.change_of (means.Biba revocation) change.now).0 }
{
    match change {
        Change::Revocation(_) => Changed::done(),
        Change::FirstMatch(_)
        | Change::RuleAdd(_)
        | Change::RuleSet(..)
        | Change::RuleRemove(_)
        | Change::See(_)
        | Change::Port(_) => Changed::no_setting(),
    }
}

/// Changes a setting of mac_biba's policy, which tests transfers or doesn't.
pub fn change_revocation(revocation: &mut bool, change: &Change) -> Changed
    ensures { (result, means.Biba revocation.new)
        ≡ spec.change_of (means.Biba revocation.old) change.now }
{
    if let Change::Revocation(enabled) = change {
        *revocation = *enabled;
    }
    answer_of_revocation(change)
}

/// What mac_bsdextended's policy with these rules would answer to a change.
pub(crate) fn answer_of_rules(rules: &RuleList, change: &Change) -> Changed
    ensures { (first : _)
        → result ≡ (spec.change_of (means.Bsdextended rules.now first) change.now).0 }
{
    match change {
        Change::FirstMatch(_) | Change::RuleSet(..) => Changed::done(),
        Change::RuleAdd(_) => match rules.free() {
            Some(number) => Changed::with(Errno::Success, Some(number)),
            None => Changed::with(Errno::Enobufs, None),
        },
        Change::RuleRemove(number) => match rules.get(*number) {
            Some(_) => Changed::done(),
            None => Changed::with(Errno::Enoent, None),
        },
        Change::Revocation(_) | Change::See(_) | Change::Port(_) => Changed::no_setting(),
    }
}

/// Changes a setting of mac_bsdextended's policy, which has these rules and this first match. Where memory runs out, nothing
/// is changed.
pub fn change_rules(
    rules: &mut RuleList,
    first_match: &mut bool,
    change: &Change,
) -> Result<Changed, AllocError>
    requires { IsChange change.now }
    ensures ok { IfOk result (λ changed.
        (changed, means.Bsdextended rules.new first_match.new)
        ≡ spec.change_of (means.Bsdextended rules.old first_match.old) change.now) }
    ensures err { OnErr result (means.Bsdextended rules.new first_match.new
        ≡ means.Bsdextended rules.old first_match.old) }
{
    match change {
        Change::FirstMatch(enabled) => {
            *first_match = *enabled;
            Ok(Changed::done())
        }
        Change::RuleAdd(rule) => match rules.add(*rule)? {
            Some(number) => Ok(Changed::with(Errno::Success, Some(number))),
            None => Ok(Changed::with(Errno::Enobufs, None)),
        },
        Change::RuleSet(number, rule) => {
            rules.set(*number, *rule)?;
            Ok(Changed::done())
        }
        Change::RuleRemove(number) => match rules.remove(*number) {
            Ok(()) => Ok(Changed::done()),
            Err(_) => Ok(Changed::with(Errno::Enoent, None)),
        },
        Change::Revocation(_) | Change::See(_) | Change::Port(_) => Ok(Changed::no_setting()),
    }
}

/// Changes a setting of mac_seeotheruids's policy.
pub fn change_see(
    primarygroup: &mut bool,
    specific: &mut bool,
    gid: &mut u32,
    suser: &mut bool,
    change: &Change,
) -> Changed
    ensures { (result, means.Seeotheruids primarygroup.new specific.new gid.new suser.new)
        ≡ spec.change_of (means.Seeotheruids primarygroup.old specific.old gid.old suser.old)
        change.now }
{
    if let Change::See(
        Spec::Seeotheruids {
            primarygroup: new_primarygroup,
            specific: new_specific,
            gid: new_gid,
            suser: new_suser,
        },
    ) = change
    {
        *primarygroup = *new_primarygroup;
        *specific = *new_specific;
        *gid = *new_gid;
        *suser = *new_suser;
    }
    answer_of_see(change)
}

/// What mac_seeotheruids's policy would answer to a change.
pub(crate) fn answer_of_see(change: &Change) -> Changed
    ensures { (primarygroup specific gid suser : _) → result
        ≡ (spec.change_of (means.Seeotheruids primarygroup specific gid suser) change.now).0 }
{
    match change {
        Change::See(Spec::Seeotheruids { .. }) => Changed::done(),
        _ => Changed::no_setting(),
    }
}

/// Changes a setting of mac_portacl's policy.
pub fn change_portacl(
    rules: &mut PortRules,
    port_high: &mut u32,
    suser: &mut bool,
    autoport: &mut bool,
    change: &Change,
) -> Changed
    ensures { (result, means.Portacl rules.new port_high.new suser.new autoport.new)
        ≡ spec.change_of (means.Portacl rules.old port_high.old suser.old autoport.old) change.now }
{
    if let Change::Port(
        Spec::Portacl {
            rules: new_rules,
            port_high: new_port_high,
            suser: new_suser,
            autoport: new_autoport,
        },
    ) = change
    {
        *rules = new_rules.copy();
        *port_high = *new_port_high;
        *suser = *new_suser;
        *autoport = *new_autoport;
    }
    answer_of_portacl(change)
}

/// What mac_portacl's policy would answer to a change.
pub(crate) fn answer_of_portacl(change: &Change) -> Changed
    ensures { (rules port_high suser autoport : _) → result
        ≡ (spec.change_of (means.Portacl rules port_high suser autoport) change.now).0 }
{
    match change {
        Change::Port(Spec::Portacl { .. }) => Changed::done(),
        _ => Changed::no_setting(),
    }
}
