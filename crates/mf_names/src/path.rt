//! Paths.
ghost use Rattle.std.specs.Prelude.{◌≡◌, ◌≢◌, ◌≤◌, ◌<◌, [], ◌∷◌, ◌++◌, length, IfOk, OnOk, OnErr, MatchOption, IsTrue, ◌==◌};
ghost use Rattle.std.specs.Bool.{Decides};
ghost use Rattle.mf_names.specs.Paths.{HasNoSlash, IsPathText, components_in};

use crate::PATH_LIMIT;
use std::alloc::{AllocError, Global};
use std::marker::Model;

/// An absolute path: its components, of which the last names the file, and none for the root directory. Contracts see
/// their list.
#[derive(Drop)]
pub struct Path {
    /// Each component behind a slash.
    text: String,
}

impl Model for Path {
    ghost use Rattle.std.specs.Prelude.{List, ℕ, string_bytes};
    ghost use Rattle.mf_names.specs.Paths.{components_in, IsPathText};

    ghost Value = { List (List ℕ) };

    ghost view = { λ p. components_in (string_bytes p.text) };

    ghost invariant = { λ p. IsPathText (string_bytes p.text) };
}

impl Path {
    /// The path of the root directory.
    pub fn root(alloc: Global) -> Path
        ensures { result ≡ [] }
    {
        Path {
            text: String::new(alloc),
        }
    }

    /// The path with this text.
    pub fn from_str(alloc: Global, text: &str) -> Result<Path, AllocError>
        requires { IsPathText text.now }
        ensures { IfOk result (λ path. path ≡ components_in text.now) }
    {
        let text = String::from_str(alloc, text)?;
        Ok(Path { text })
    }

    /// Goes on to this component. If memory runs out, the path is unchanged.
    pub fn push(&mut self, component: &str) -> Result<(), AllocError>
        requires few { length self.old < PATH_LIMIT }
        requires one { HasNoSlash component.now }
        ensures ok { OnOk result (self.new ≡ self.old ++ component.now ∷ []) }
        ensures err { OnErr result (self.new ≡ self.old) }
    {
        self.text.reserve(component.len() + 1)?;
        self.text.push('/')?;
        self.text.push_str(component)?;
        Ok(())
    }

    /// The components in order.
    pub fn components(&self) -> Components<'_>
        ensures value { result ≡ self.now }
        ensures most { length self.now ≤ PATH_LIMIT }
    {
        Components {
            rest: self.text.as_str().strip_prefix('/'),
        }
    }

    /// Whether the two have the same components.
    pub fn is_same(&self, other: &Path) -> bool
        ensures { Decides result (self.now ≡ other.now) }
    {
        may_be_same(self.text.as_bytes(), other.text.as_bytes())
            && self.text.as_str() == other.text.as_str()
    }
}

/// Whether the lengths and the last bytes are the same: most paths that are compared differ in one of them.
fn may_be_same(text: &[u8], other: &[u8]) -> bool
    ensures { text.now ≡ other.now → IsTrue result }
{
    text.len() == other.len() && text.last() == other.last()
}

/// The components of a path that are left. Contracts see their list.
#[derive(Drop)]
pub struct Components<'a> {
    /// What stands between slashes. None where no component is left.
    rest: Option<&'a str>,
}

impl<'a> Model for Components<'a> {
    ghost use Rattle.std.specs.Prelude.{List, ℕ};
    ghost use Rattle.mf_names.specs.Paths.{components_behind};

    ghost Value = { List (List ℕ) };

    ghost view = { λ c. components_behind c.rest };
}

impl<'a> Components<'a> {
    /// The next component, where there is one.
    pub fn next(&mut self) -> Option<&'a str>
        ensures { MatchOption result ((self.old ≡ []) × (self.new ≡ []))
            (λ component. self.old ≡ component.now ∷ self.new) }
    {
        let rest = self.rest?;
        match rest.split_once('/') {
            None => {
                self.rest = None;
                Some(rest)
            }
            Some((component, after)) => {
                self.rest = Some(after);
                Some(component)
            }
        }
    }

    /// Those before the last, and the last, where there is one.
    pub fn split_last(&self) -> Option<(Components<'a>, &'a str)>
        ensures { MatchOption result (self.now ≡ [])
            (λ halves. self.now ≡ halves.0 ++ halves.1.now ∷ []) }
    {
        let rest = self.rest?;
        match rest.rsplit_once('/') {
            None => Some((Components { rest: None }, rest)),
            Some((before, last)) => Some((Components { rest: Some(before) }, last)),
        }
    }

    /// Whether none is left.
    pub fn is_empty(&self) -> bool
        ensures { result ≡ (length self.now == 0) }
    {
        self.rest.is_none()
    }

    /// Whether the same are left.
    pub fn is_same(&self, other: &Components<'_>) -> bool
        ensures { Decides result (self.now ≡ other.now) }
    {
        match self.rest {
            None => other.is_empty(),
            Some(text) => match other.rest {
                None => false,
                Some(other_text) => text == other_text,
            },
        }
    }
}
