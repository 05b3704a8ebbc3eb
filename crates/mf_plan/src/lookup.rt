//! The look-up of a path, as namei(9) makes it: each component is looked up once, in the directory that the one before names.
ghost use Rattle.std.specs.Prelude.{◌≡◌, All, IfOk};
ghost use Rattle.mf_objects.specs.Lives.{IsLive, is_directory};
ghost use Rattle.mf_plan.specs.Path as spec;
ghost use Rattle.mf_plan.specs.Places.{IsTarget, next_dir};

use crate::target::Target;
use mf_cred::ArrayVec;
use mf_errno::Errno;
use mf_names::{PATH_LIMIT, Path};
use mf_objects::{Id, Objects};

/// The directories that are looked into along a path, and where the path leads.
#[derive(Drop)]
pub struct Lookup {
    pub lookups: ArrayVec<Id, PATH_LIMIT>,
    pub target: Target,
}

/// The look-up of a path, from the root directory.
pub fn lookup_along(objects: &Objects, path: &Path) -> Lookup
    ensures value { result ≡ spec.lookup_along objects.now path.now }
    ensures dirs { All (λ dir. IsLive is_directory objects.now dir) result.lookups }
    ensures target { IsTarget objects.now result.target }
{
    // Asking for the root shows the proof that it is a live directory.
    let _root = objects.root();
    let mut lookups = ArrayVec::new();
    let mut target = Target::Root;
    let mut components = path.components();
    while let Some(name) = components.next() {
        match next_dir(objects, target) {
            Ok(dir) => {
                lookups.push(dir);
                target = Target::Name(dir, objects.child(dir, name));
            }
            Err(errno) => {
                return Lookup {
                    lookups,
                    target: Target::Nowhere(errno),
                };
            }
        }
    }
    Lookup { lookups, target }
}

/// The directory in which the next component is looked up.
fn next_dir(objects: &Objects, target: Target) -> Result<Id, Errno>
    requires { IsTarget objects.now target }
    ensures value { result ≡ next_dir objects.now target }
    ensures live { IfOk result (λ dir. IsLive is_directory objects.now dir) }
{
    match target {
        Target::Root => Ok(objects.root()),
        Target::Name(_, None) => Err(Errno::Enoent),
        Target::Name(_, Some(id)) => {
            if objects.file(id).dir {
                Ok(id)
            } else {
                Err(Errno::Enotdir)
            }
        }
        Target::Nowhere(errno) => Err(errno),
    }
}

/// Where a path leads.
pub fn target_of(objects: &Objects, path: &Path) -> Target
    ensures value { result ≡ (spec.lookup_along objects.now path.now).target }
    ensures target { IsTarget objects.now result }
{
    lookup_along(objects, path).target
}
