//! Runs of the kernel and of the core below it, each call by itself: tests, and nothing else.
#![tactic(auto)]

#[cfg(test)]
mod tests;
