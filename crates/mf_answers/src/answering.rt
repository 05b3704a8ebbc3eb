//! The answer of each policy, and why it denies.
ghost use Rattle.std.specs.Prelude.{◌≡◌, ◌<◌, IsTrue};
ghost use Rattle.mf_policy.specs.Answer.{answer};
ghost use Rattle.mf_policy.specs.Modules.{module_of, wants_slot};
ghost use Rattle.mf_policy.specs.declared.spec.Spec.TheVariants as means;
ghost use Rattle.mf_answers.specs.Reasons as reasons;

use crate::binding::port_reason;
use crate::columns::is_transfer;
use crate::elements::lattice_reason;
use crate::order::Order;
use crate::partitions::partition_reason;
use crate::reasons::Reason;
use crate::rules::rules_reason;
use crate::seeing::users_reason;
use mf_elem::SLOTS;
use mf_errno::Errno;
use mf_item::Item;
use mf_policy::Spec;

/// What a policy of this spec answers to an item. The slot is the policy's own, and isn't looked at where its module has none. It
/// takes no memory.
pub fn answer(spec: &Spec, slot: u8, item: &Item) -> Errno
    requires { IsTrue (wants_slot (module_of spec.now)) → slot < SLOTS }
    ensures { result ≡ answer spec.now slot item.now }
{
    // The reasons that most is asked for are inlined, so that here nothing is made of one but its error.
    match reason(spec, slot, item) {
        None => Errno::Success,
        Some(reason) => reason.errno(),
    }
}

/// Why a policy of this spec denies an item; none where it doesn't. The slot is as for `answer`, and it takes no memory either.
#[inline(always)]
pub fn reason(spec: &Spec, slot: u8, item: &Item) -> Option<Reason>
    requires { IsTrue (wants_slot (module_of spec.now)) → slot < SLOTS }
    ensures { result ≡ reasons.reason spec.now slot item.now }
{
    match spec {
        Spec::Biba { revocation } => biba_reason(*revocation, slot, item),
        Spec::Mls => lattice_reason(Order::Mls, slot, item),
        Spec::Lomac => lattice_reason(Order::Lomac, slot, item),
        Spec::Partition => partition_reason(slot, item),
        Spec::Bsdextended { rules, first_match } => {
            rules_reason(rules.as_slice(), *first_match, item)
        }
        Spec::Priority => None,
        Spec::Seeotheruids {
            primarygroup,
            specific,
            gid,
            suser,
        } => users_reason(*primarygroup, *specific, *gid, *suser, item),
        Spec::Portacl {
            rules,
            port_high,
            suser,
            autoport,
        } => port_reason(rules.as_slice(), *port_high, *suser, *autoport, item),
    }
}

/// Why mac_biba denies: without revocation a transfer of bytes through an open file passes.
#[inline(always)]
fn biba_reason(revocation: bool, slot: u8, item: &Item) -> Option<Reason>
    requires { slot < SLOTS }
    ensures { result ≡ reasons.reason (means.Biba revocation) slot item.now }
{
    if is_transfer(item.op()) && !revocation {
        None
    } else {
        lattice_reason(Order::Biba, slot, item)
    }
}
