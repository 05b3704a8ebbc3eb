//! What is wrong with a label text.

/// The first fault of a label text from the left. Each place is that of a byte, from 0.
#[derive(Clone, Copy, Debug, PartialEq, Eq)]
pub enum LabelFault {
    /// An element without a slash, or with no name before its first one: the place of the element.
    NoSlash(usize),
    /// A value that its policy doesn't know: the place of the value's first byte, after the slash.
    BadValue(usize),
    /// An element that is empty: its place.
    EmptyElement(usize),
}
