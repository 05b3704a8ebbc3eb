//! Texts of replies and lines of histories, as tables, over the reader: tests, and nothing else.
#![tactic(auto)]

#[cfg(test)]
mod histories;
#[cfg(test)]
mod replies;
