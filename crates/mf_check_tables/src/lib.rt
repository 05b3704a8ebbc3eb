//! What is told of texts that are checked: tests, and nothing else.
#![tactic(auto)]

#[cfg(test)]
mod tests;
