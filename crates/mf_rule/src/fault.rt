//! What is wrong with the words of a rule.

/// The first fault of the words of a rule. Each number is that of a word, from 0.
#[derive(Clone, Copy, Debug, PartialEq, Eq)]
pub enum RuleFault {
    /// A word that can't stand there, the name of a test that was there before among them.
    UnknownWord(usize),
    /// The words end too early: the number of words.
    Missing(usize),
    /// No id, and no two ids, in this order, with a colon between them.
    BadRange(usize),
    /// Letters that aren't those of a mode, or none.
    BadMode(usize),
    /// Letters that aren't those of types, or none.
    BadType(usize),
}
