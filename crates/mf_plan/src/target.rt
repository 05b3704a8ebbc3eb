//! Where a path leads.
ghost use Rattle.std.specs.Prelude.{◌≡◌, IfOk};
ghost use Rattle.mf_objects.specs.Lives.{IsLive, is_vnode};
ghost use Rattle.mf_plan.specs.Path as spec;
ghost use Rattle.mf_plan.specs.Places.{IsTarget};

use mf_errno::Errno;
use mf_objects::{Id, Objects};

/// Where a path leads.
#[derive(Clone, Copy)]
pub enum Target {
    /// To the root directory.
    Root,
    /// To a name in a directory, with its entry where there is one.
    Name(Id, Option<Id>),
    /// Nowhere: an earlier component names no entry (ENOENT) or a regular file (ENOTDIR).
    Nowhere(Errno),
}

impl Target {
    /// The file or directory there.
    pub fn found(self, objects: &Objects) -> Result<Id, Errno>
        requires { IsTarget objects.now self }
        ensures value { result ≡ spec.found_at self }
        ensures live { IfOk result (λ id. IsLive is_vnode objects.now id) }
    {
        match self {
            Target::Root => Ok(objects.root()),
            Target::Name(_, None) => Err(Errno::Enoent),
            Target::Name(_, Some(id)) => Ok(id),
            Target::Nowhere(errno) => Err(errno),
        }
    }

    /// The directory in which the name is free.
    pub fn free(self) -> Result<Id, Errno>
        ensures { result ≡ spec.free_at self }
    {
        match self {
            Target::Root => Err(Errno::Einval),
            Target::Name(dir, None) => Ok(dir),
            Target::Name(_, Some(_)) => Err(Errno::Eexist),
            Target::Nowhere(errno) => Err(errno),
        }
    }

    /// The directory, and its entry.
    pub fn entry(self) -> Result<(Id, Id), Errno>
        ensures { result ≡ spec.entry_at self }
    {
        match self {
            Target::Root => Err(Errno::Einval),
            Target::Name(_, None) => Err(Errno::Enoent),
            Target::Name(dir, Some(id)) => Ok((dir, id)),
            Target::Nowhere(errno) => Err(errno),
        }
    }
}
