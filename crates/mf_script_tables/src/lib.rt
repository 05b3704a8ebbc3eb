//! Scripts, as tables, with what is read of them and with their faults: tests, and nothing else.
#![tactic(auto)]

#[cfg(test)]
mod faults;
#[cfg(test)]
mod printing;
#[cfg(test)]
mod reading;
