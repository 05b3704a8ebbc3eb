//! The tunable that a script may set before boot.
ghost use Rattle.std.specs.Prelude.{◌≡◌};
ghost use Rattle.mf_calls.specs.Tunable.{revocation_name};

use mf_policy::Sysctl;

/// The name of the tunable by which mac_biba tests each transfer through a descriptor.
pub fn revocation_name() -> &'static str
    ensures { result.now ≡ revocation_name }
{
    Sysctl::RevocationEnabled.name()
}
