//! What a denial rests on.
ghost use Rattle.std.specs.Prelude.{◌≡◌};
ghost use Rattle.mf_answers.specs.Reasons as spec;

use mf_elem::{Elem, RangeLabel};
use mf_errno::Errno;

/// The test of a policy that a check fails, with the two sides that it compares. Where several tests of one relabel fail, it is the
/// first.
#[derive(Clone, Copy)]
pub enum Reason {
    /// The subject may not observe the object: mac_biba(4) has no read down, mac_mls(4) no read up. The error hides processes and
    /// sockets.
    Observe {
        subject: Elem,
        object: Elem,
        errno: Errno,
    },
    /// The subject may not modify the object: mac_biba(4) and mac_lomac(4) have no write up, mac_mls(4) no write down.
    Modify {
        subject: Elem,
        object: Elem,
    },
    /// What is sent and the socket that it is delivered to aren't of one level, as mac_biba(4), mac_mls(4) and mac_lomac(4) want.
    Level {
        subject: Elem,
        object: Elem,
    },
    /// By mac_biba(4) and mac_mls(4) a subject's element lies in its range: the range that it asks for leaves out the one that it
    /// would have.
    LeavesOut {
        element: Option<Elem>,
        asked: Option<(Elem, Elem)>,
    },
    /// By mac_biba(4) and mac_mls(4) a subject changes its label within its range: the range that it asks for reaches out of its own.
    RangeOutside {
        asked: Option<(Elem, Elem)>,
        own: Option<(Elem, Elem)>,
    },
    /// The same of the element that it asks for, for itself or for an object.
    AskedOutside {
        asked: Option<Elem>,
        own: Option<(Elem, Elem)>,
    },
    /// By mac_biba(4) and mac_mls(4) a subject relabels objects within its range: the object's present element lies outside.
    PresentOutside {
        object: Elem,
        own: Option<(Elem, Elem)>,
    },
    /// By mac_biba(4) and mac_mls(4) only subjects have ranges: one is asked for an object.
    RangeOfObject {
        asked: Option<(Elem, Elem)>,
    },
    /// By mac_biba(4) and mac_mls(4) the privileged alone assign `equal`: a subject of this label isn't.
    AsksEqual {
        own: RangeLabel,
    },
    /// By mac_lomac(4) nobody raises a label above his own: the subject's element doesn't dominate the one that is asked for.
    AskedAbove {
        subject: Elem,
        asked: Elem,
    },
    /// By mac_lomac(4) nobody relabels what is above him: the subject's element doesn't dominate the object's present one.
    PresentAbove {
        subject: Elem,
        object: Elem,
    },
    /// By mac_lomac(4) `equal` is exempt, and given away by subjects alone that are `equal`: one of this element isn't.
    EqualAbove {
        subject: Elem,
    },
    /// By mac_biba(4) the privileged alone load and unload modules: a subject of this label isn't.
    Unprivileged {
        own: RangeLabel,
    },
    /// By mac_partition(4) a subject in a partition sees what is in it: the object is in another.
    Partitions {
        subject: u32,
        object: u32,
        errno: Errno,
    },
    /// By mac_partition(4) the superuser alone assigns a partition: a subject of this effective uid isn't.
    Joins {
        asked: u32,
        uid: u32,
    },
    /// By mac_bsdextended(4) a rule that matches doesn't give all the letters that are wanted: with first match the first that matches,
    /// and without the first that lacks one.
    Rule {
        number: u32,
        wanted: u8,
        given: u8,
    },
    /// By mac_seeotheruids(4) users don't see the processes of others: those of subject and object, by their real uids.
    Users {
        subject: u32,
        object: u32,
    },
    /// By mac_portacl(4) a guarded port, of TCP or else of UDP, is for those that a rule names: none names a subject of this effective
    /// uid, or one of its groups.
    Port {
        tcp: bool,
        port: u16,
        uid: u32,
    },
}

impl Reason {
    /// The error that the policy answers.
    pub fn errno(&self) -> Errno
        ensures { result ≡ spec.errno_of self.now }
    {
        match self {
            Reason::Observe { errno, .. } | Reason::Partitions { errno, .. } => *errno,
            Reason::Modify { .. } | Reason::Level { .. } | Reason::Rule { .. } => Errno::Eacces,
            Reason::LeavesOut { .. } | Reason::RangeOfObject { .. } => Errno::Einval,
            Reason::Users { .. } => Errno::Esrch,
            Reason::RangeOutside { .. }
            | Reason::AskedOutside { .. }
            | Reason::PresentOutside { .. }
            | Reason::AsksEqual { .. }
            | Reason::AskedAbove { .. }
            | Reason::PresentAbove { .. }
            | Reason::EqualAbove { .. }
            | Reason::Unprivileged { .. }
            | Reason::Joins { .. }
            | Reason::Port { .. } => Errno::Eperm,
        }
    }
}
