//! Credentials of processes, and attributes of files, as far as policies look at them.
ghost use Rattle.std.specs.Prelude.{◌≡◌, ◌==◌, IsTrue, ◌↔◌, Contains, [], ◌∷◌};
ghost use Rattle.mf_cred.specs.Groups.{in_group};

use crate::{ArrayVec, Duplicate};

/// The most groups of a credential.
pub const MOST_GROUPS: usize = 16;

/// The credential of a process, a part of `struct ucred`: effective, real and saved uid, and its groups, of which the
/// first is the effective one.
#[derive(Drop)]
pub struct Cred {
    pub uid: u32,
    pub ruid: u32,
    pub svuid: u32,
    pub groups: ArrayVec<u32, MOST_GROUPS>,
}

impl Cred {
    /// Whether `group` is one of the groups.
    pub fn in_group(&self, group: u32) -> bool
        ensures value { result ≡ in_group self.now group }
        ensures contains { IsTrue result ↔ Contains self.now.groups group }
    {
        self.groups.as_slice().contains(&group)
    }

    /// Whether the effective uid is 0.
    pub fn is_root(&self) -> bool
        ensures { result ≡ (self.now.uid == 0) }
    {
        self.uid == 0
    }

    /// Whether the two are equal.
    pub fn same(&self, other: &Cred) -> bool
        ensures { IsTrue result ↔ (self.now ≡ other.now) }
    {
        self.uid == other.uid
            && self.ruid == other.ruid
            && self.svuid == other.svuid
            && same_groups(self.groups.as_slice(), other.groups.as_slice())
    }
}

fn same_groups(groups: &[u32], others: &[u32]) -> bool
    ensures { IsTrue result ↔ (groups.now ≡ others.now) }
{
    groups == others
}

impl Default for Cred {
    ghost is_default = { λ cred. cred ≡ record { uid = 0; ruid = 0; svuid = 0; groups = 0 ∷ [] } };

    fn default() -> Cred {
        Cred {
            uid: 0,
            ruid: 0,
            svuid: 0,
            groups: ArrayVec::one(0),
        }
    }
}

impl Duplicate for Cred {
    fn copy(&self) -> Cred {
        Cred {
            uid: self.uid,
            ruid: self.ruid,
            svuid: self.svuid,
            groups: self.groups.copy(),
        }
    }
}

/// The mode of a new regular file, as chmod(2) has it.
pub const FILE_MODE: u16 = 0o644;

/// The mode of a new directory, and of the root directory.
pub const DIRECTORY_MODE: u16 = 0o755;

/// The attributes of a file: its owner, its group, its mode bits as chmod(2) has them, and whether it is a directory.
#[derive(Clone, Copy, PartialEq, Eq, Debug, Default)]
pub struct FileView {
    pub uid: u32,
    pub gid: u32,
    pub mode: u16,
    pub dir: bool,
}
