//! Rules about files, as tables: their texts, what they match, lists of them, and which of a list may match. Texts of rules about
//! ports. Tests, and nothing else.
#![tactic(auto)]

#[cfg(test)]
mod asked;
#[cfg(test)]
mod candidates;
#[cfg(test)]
mod lists;
#[cfg(test)]
mod matches;
#[cfg(test)]
mod ports;
#[cfg(test)]
mod texts;
