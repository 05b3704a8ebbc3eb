//! Worked rows, as tables, of labels, entities, policies and registrations, over the modules: tests, and nothing else.
#![tactic(auto)]

#[cfg(test)]
mod asked;
#[cfg(test)]
mod biba;
#[cfg(test)]
mod bsdextended;
#[cfg(test)]
mod cases;
#[cfg(test)]
mod entities;
#[cfg(test)]
mod facts;
#[cfg(test)]
mod growths;
#[cfg(test)]
mod labels;
#[cfg(test)]
mod lists;
#[cfg(test)]
mod lomac;
#[cfg(test)]
mod mls;
#[cfg(test)]
mod new_labels;
#[cfg(test)]
mod one_of;
#[cfg(test)]
mod partition;
#[cfg(test)]
mod policies;
#[cfg(test)]
mod ports;
#[cfg(test)]
mod priority;
#[cfg(test)]
mod questions;
#[cfg(test)]
mod reading;
#[cfg(test)]
mod registrations;
#[cfg(test)]
mod relabels;
#[cfg(test)]
mod settings;
#[cfg(test)]
mod steps;
#[cfg(test)]
mod sysctls;
#[cfg(test)]
mod together;
