//! What a directory holds, as it is listed.
ghost use Rattle.std.specs.Prelude.{◌≡◌, ◌↔◌, IfOk, IsTrue, length, map, take};
ghost use Rattle.mf_objects.specs.declared.limits.TheConstants.{MOST_NAMES};
ghost use Rattle.mf_objects.specs.Live as live;
ghost use Rattle.mf_objects.specs.Titles.{entry_names, in_byte_order, names_at};

use super::Parties;
use crate::party::Party;
use crate::party_id::PartyId;
use mf_names::Name;
use mf_objects::MOST_NAMES;
use std::alloc::{AllocError, Global};

impl Parties {
    /// Whether these are the first names in byte order of the entries of a directory.
    #[tactic(auto, unfolding(mf_objects::specs::Titles::names_at))]
    pub fn is_listing(
        &self,
        alloc: Global,
        dir: PartyId,
        first: &[Name],
    ) -> Result<bool, AllocError>
        ensures { IfOk result (λ is. IsTrue is ↔ (first.now ≡ names_at self.now dir)) }
    {
        are_first(alloc, &self.list, dir, first)
    }
}

/// Whether they are those of the parties in this list.
fn are_first(
    alloc: Global,
    list: &[Party],
    dir: PartyId,
    first: &[Name],
) -> Result<bool, AllocError>
    ensures { IfOk result (λ is. IsTrue is ↔ (first.now
        ≡ take MOST_NAMES (in_byte_order (entry_names dir list.now)))) }
{
    let mut names = entry_names(alloc, list, dir)?;
    names.sort_unstable();
    names.truncate(MOST_NAMES);
    Ok(are_names(first, &names))
}

/// The names of the entries by rising id.
fn entry_names<'a>(
    alloc: Global,
    list: &'a [Party],
    dir: PartyId,
) -> Result<Vec<&'a str>, AllocError>
    ensures { IfOk result
        (λ names. map (λ name. name.now) names.items ≡ entry_names dir list.now) }
{
    let mut names = Vec::new(alloc);
    for party in list {
        if party.is_entry(dir) {
            names.push(party.name.as_str())?;
        }
    }
    Ok(names)
}

/// Whether each is that name.
fn are_names(given: &[Name], names: &[&str]) -> bool
    ensures { IsTrue result ↔ (given.now ≡ map (λ name. name.now) names.now) }
{
    given.len() == names.len() && each_is(given, names)
}

fn each_is(given: &[Name], names: &[&str]) -> bool
    requires { length given.now ≡ length names.now }
    ensures { IsTrue result ↔ (given.now ≡ map (λ name. name.now) names.now) }
{
    for (place, name) in given.iter().enumerate() {
        if !is_text(name, names[place]) {
            return false;
        }
    }
    true
}

fn is_text(name: &Name, text: &str) -> bool
    ensures { IsTrue result ↔ (name.now ≡ text.now) }
{
    name.as_str() == text
}
