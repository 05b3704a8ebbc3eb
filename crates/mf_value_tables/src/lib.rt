//! Worked rows, as tables, of errors, label elements, texts, names, credentials, items, slots and composition: tests, and
//! nothing else.
#![tactic(auto)]

#[cfg(test)]
mod asked;
#[cfg(test)]
mod composition;
#[cfg(test)]
mod elements;
#[cfg(test)]
mod errors;
#[cfg(test)]
mod names;
#[cfg(test)]
mod slots;
#[cfg(test)]
mod subjects;
#[cfg(test)]
mod texts;
