//! Which privileges the policies grant.
ghost use Rattle.std.specs.Prelude.{◌≡◌};
ghost use Rattle.mf_policy.specs.Answer.{granted_group, grants};

use mf_cred::Cred;
use mf_errno::Priv;
use mf_policy::Spec;

/// The gid of the group whose members mac_priority(4) grants realtime priority, `realtime`.
const REALTIME_GID: u32 = 47;

/// The gid of the group whose members it grants idle priority, `idletime`.
const IDLETIME_GID: u32 = 48;

/// Whether a policy of this spec grants the privilege to a process of that credential. mac_priority alone grants some, by groups.
pub fn grants(spec: &Spec, cred: &Cred, privilege: Priv) -> bool
    ensures { result ≡ grants spec.now cred.now privilege }
{
    match spec {
        Spec::Priority => match group_of(privilege) {
            Some(group) => cred.in_group(group),
            None => false,
        },
        Spec::Biba { .. }
        | Spec::Mls
        | Spec::Lomac
        | Spec::Partition
        | Spec::Bsdextended { .. }
        | Spec::Seeotheruids { .. }
        | Spec::Portacl { .. } => false,
    }
}

/// The group whose members have the privilege by mac_priority.
fn group_of(privilege: Priv) -> Option<u32>
    ensures { result ≡ granted_group privilege }
{
    match privilege {
        Priv::SchedRtprio => Some(REALTIME_GID),
        Priv::SchedIdprio => Some(IDLETIME_GID),
        _ => None,
    }
}
