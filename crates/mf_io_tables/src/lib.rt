//! A few calls of each source, sink and gate of mf_io: tests, and nothing else.
#![tactic(auto)]

#[cfg(test)]
mod streams;
