//! Paths as lists of components.
ghost use Rattle.std.specs.Prelude.{◌≡◌};
ghost use Rattle.std.specs.Cmp.Lexicographic.{pointwise};
ghost use Rattle.std.specs.Str.{bytes_eq};
ghost use Rattle.mf_calls.specs.Paths.{directory_of};

use mf_names::{Components, Path};

/// Whether the two have the same components.
pub fn is_same_path(path: &Components<'_>, other: &Components<'_>) -> bool
    ensures { result ≡ pointwise bytes_eq path.now other.now }
{
    path.is_same(other)
}

/// The same of paths that are whole, for which it is cheaper.
pub fn are_same_paths(path: &Path, other: &Path) -> bool
    ensures { result ≡ pointwise bytes_eq path.now other.now }
{
    path.is_same(other)
}

/// The path of the directory that the path stands in. Of the root it is the root.
pub fn directory_of(path: &Path) -> Components<'_>
    ensures { result ≡ directory_of path.now }
{
    let components = path.components();
    match components.split_last() {
        None => components,
        Some((directory, _)) => directory,
    }
}
