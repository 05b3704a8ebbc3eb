//! The last component of a path.
ghost use Rattle.std.specs.Prelude.{◌≡◌};
ghost use Rattle.mf_plan.specs.Path as walks;

use mf_names::Path;

/// The last component of a path.
pub fn last_name(path: &Path) -> &str
    ensures { result.now ≡ walks.last_name path.now }
{
    match path.components().split_last() {
        Some((_, last)) => last,
        None => "",
    }
}
