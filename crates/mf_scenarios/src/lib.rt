//! Runs of the whole program: tests, and nothing else.
#![tactic(auto)]

#[cfg(test)]
mod tests;
