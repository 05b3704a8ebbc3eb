//! How much is told.

/// How much is told of why calls were denied or done.
#[derive(Clone, Copy, PartialEq, Eq)]
pub enum Extent {
    /// Why calls were denied, and where mac_lomac(4) lowered their callers.
    Denials,
    /// These, and the rules that allowed the calls that were done.
    All,
}
