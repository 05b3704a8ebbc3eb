//! The privileges of sys/priv.h that policies are asked to grant.
ghost use Rattle.std.specs.Prelude.{◌≡◌};
ghost use Rattle.mf_errno.specs.Privilege.{privilege_named, privilege_text};

use std::fmt;

/// A privilege.
#[derive(Clone, Copy, Debug, PartialEq, Eq)]
pub enum Priv {
    KldLoad,
    KldUnload,
    MacPartition,
    SchedRtprio,
    SchedIdprio,
}

impl Priv {
    /// The name of the privilege in sys/priv.h, without its `PRIV_`.
    pub fn name(self) -> &'static str
        ensures { result.now ≡ privilege_text self }
    {
        match self {
            Priv::KldLoad => "KLD_LOAD",
            Priv::KldUnload => "KLD_UNLOAD",
            Priv::MacPartition => "MAC_PARTITION",
            Priv::SchedRtprio => "SCHED_RTPRIO",
            Priv::SchedIdprio => "SCHED_IDPRIO",
        }
    }

    /// The privilege of that name. None for every other text.
    #[tactic(auto, unfolding(crate::specs::Privilege::privilege_named))]
    pub fn from_name(name: &str) -> Option<Priv>
        ensures { result ≡ privilege_named name.now }
    {
        match name {
            "KLD_LOAD" => Some(Priv::KldLoad),
            "KLD_UNLOAD" => Some(Priv::KldUnload),
            "MAC_PARTITION" => Some(Priv::MacPartition),
            "SCHED_RTPRIO" => Some(Priv::SchedRtprio),
            "SCHED_IDPRIO" => Some(Priv::SchedIdprio),
            _ => None,
        }
    }
}

impl fmt::Display for Priv {
    ghost use Rattle.std.specs.Prelude.{Some};

    ghost output = { λ privilege. Some (privilege_text privilege) };

    fn fmt<W: fmt::Write>(&self, f: &mut fmt::Formatter<W>) -> fmt::Result {
        f.write_str(self.name())
    }
}
