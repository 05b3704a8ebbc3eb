//! The chains of a small run, and a chain that is none, over the calls that tell them: tests, and nothing else.
#![tactic(auto)]

#[cfg(test)]
mod tests;
