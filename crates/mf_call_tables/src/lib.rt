//! Calls, as tables, with their plans and their replies, over the reader, mac_biba and mac_lomac: tests, and nothing else.
#![tactic(auto)]

#[cfg(test)]
mod bindings;
#[cfg(test)]
mod calls;
#[cfg(test)]
mod lomac;
#[cfg(test)]
mod machine;
#[cfg(test)]
mod open_files;
#[cfg(test)]
mod plans;
#[cfg(test)]
mod population;
#[cfg(test)]
mod scripts;
#[cfg(test)]
mod settings;
