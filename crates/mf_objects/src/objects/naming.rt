//! Entry names of directories, and titles of entities.
ghost use Rattle.std.specs.Prelude.{◌≡◌, ◌≤◌, ◌++◌, IfOk, OnOk, OnErr, IsSome, length, map, filter, take, reverse, codes, string_bytes};
ghost use Rattle.std.specs.List.{position_or_len};
ghost use Rattle.std.specs.List.Sorted.{IsSorted};
ghost use Rattle.std.specs.Ordering.{nat_cmp};
ghost use Rattle.std.specs.Cmp.Lexicographic.{slice_cmp};
ghost use Rattle.mf_objects.specs.Live as live;
ghost use Rattle.mf_objects.specs.Lives.{is_directory, IsLive};
ghost use Rattle.mf_objects.specs.Titles as title;
ghost use Rattle.mf_objects.specs.Names.{IsFirstNames, IsAppended, comes_first, with_name, prefix_of, own_name};
ghost use Rattle.mf_objects.specs.Sound.{unlabelled, IsById};

use super::{Objects, place_of};
use crate::entity::{Entity, EntityData};
use crate::id::Id;
use crate::limits::MOST_NAMES;
use mf_names::{Name, NameList};
use std::alloc::{AllocError, Global};

impl Objects {
    /// The first entry names of a directory in byte order.
    pub fn names(&self, alloc: Global, dir: Id) -> Result<NameList, AllocError>
        requires { IsLive is_directory self.now dir }
        ensures value { IfOk result (λ names. names ≡ title.names_at self.now dir) }
        ensures first { IfOk result
            (λ names. IsFirstNames names (title.entry_names dir self.now.live)) }
    {
        let names = entry_names(alloc, &self.entities, dir)?;
        listed(alloc, &names)
    }

    /// Appends the entity's title: its kind, a colon, and its name or its path. If memory runs out, the text is
    /// unchanged.
    pub fn title(&self, id: Id, out: &mut String) -> Result<(), AllocError>
        requires { IsSome (live.live_at self.now id) }
        ensures ok { OnOk result (string_bytes out.new
            ≡ string_bytes out.old ++ title.title_at self.now id) }
        ensures err { OnErr result (string_bytes out.new ≡ string_bytes out.old) }
    {
        let entity = self.entity(id);
        let start = out.len();
        out.push_str(prefix(&entity.what))?;
        match push_own_name(&self.entities, entity, id, out) {
            Ok(()) => Ok(()),
            Err(error) => {
                out.truncate(start);
                Err(error)
            }
        }
    }
}

/// The first names in byte order of a directory's entries.
fn entry_names<'a>(
    alloc: Global,
    entities: &'a [Entity],
    dir: Id,
) -> Result<Vec<&'a str>, AllocError>
    ensures { IfOk result
        (λ names. map (λ name. name.now) names.items
        ≡ take MOST_NAMES (title.in_byte_order (map (λ e. e.name)
        (filter (λ e. live.is_entry dir e.what) entities.now)))) }
{
    let mut names = Vec::with_capacity(alloc, MOST_NAMES)?;
    for entity in entities {
        if entity.is_entry(dir) {
            keep_first(entity.name.as_str(), &mut names)?;
        }
    }
    Ok(names)
}

/// Puts a name in its place among the first names, which are in byte order, where it is one of them.
fn keep_first<'a>(name: &'a str, names: &mut Vec<&'a str>) -> Result<(), AllocError>
    requires sorted { IsSorted (slice_cmp nat_cmp) (map (λ n. n.now) names.old.items) }
    requires few { length names.old.items ≤ MOST_NAMES }
    ensures { OnOk result (map (λ n. n.now) names.new.items
        ≡ take MOST_NAMES (with_name name.now (map (λ n. n.now) names.old.items))) }
{
    let place = place_of_name(name, names.as_slice());
    if place < MOST_NAMES {
        names.truncate(MOST_NAMES - 1);
        names.insert(place, name)?;
    }
    Ok(())
}

/// The place of a name among names in byte order: behind those that are before it.
fn place_of_name(name: &str, names: &[&str]) -> usize
    requires { IsSorted (slice_cmp nat_cmp) (map (λ n. n.now) names.now) }
    ensures { result ≡ position_or_len (comes_first name.now) (map (λ n. n.now) names.now) }
{
    let mut place = names.len();
    while place > 0 && name <= names[place - 1] {
        place -= 1;
    }
    place
}

/// A list of these names.
fn listed(alloc: Global, names: &[&str]) -> Result<NameList, AllocError>
    ensures { IfOk result (λ list. list ≡ map (λ name. name.now) names.now) }
{
    let mut list = NameList::with_room(alloc, names.len())?;
    for name in names {
        list.push(Name::from_str(alloc, name)?)?;
    }
    Ok(list)
}

/// What the titles of its kind begin with.
fn prefix(what: &EntityData) -> &'static str
    ensures { result.now ≡ prefix_of what.now }
{
    match what {
        EntityData::Process(_) => "proc:",
        EntityData::Vnode(_) => "vnode:",
        EntityData::Pipe(_) => "pipe:",
        EntityData::Socket(_) => "socket:",
    }
}

/// Appends the name of the entity, or its path.
fn push_own_name(
    entities: &[Entity],
    entity: &Entity,
    id: Id,
    out: &mut String,
) -> Result<(), AllocError>
    requires { IsById entities.now }
    ensures ok { OnOk result (string_bytes out.new
        ≡ string_bytes out.old
        ++ own_name (title.path_in (reverse (map unlabelled entities.now)) id)
        entity.now.name entity.now.what) }
    ensures err { OnErr result (IsAppended (string_bytes out.old) (string_bytes out.new)) }
{
    match entity.what {
        EntityData::Vnode(_) => push_rooted_path(entities, id, out),
        EntityData::Process(_) | EntityData::Pipe(_) | EntityData::Socket(_) => out.push_str(
            entity.name.as_str(),
        ),
    }
}

/// Appends the path of an id, a slash for the root.
fn push_rooted_path(entities: &[Entity], id: Id, out: &mut String) -> Result<(), AllocError>
    requires { IsById entities.now }
    ensures ok { OnOk result (string_bytes out.new
        ≡ string_bytes out.old
        ++ title.rooted_path (title.path_in (reverse (map unlabelled entities.now)) id)) }
    ensures err { OnErr result (IsAppended (string_bytes out.old) (string_bytes out.new)) }
{
    let start = out.len();
    push_path(entities, id, out)?;
    if out.len() == start {
        return out.push_str("/");
    }
    Ok(())
}

/// Appends the path of an id, which has its directory among the entities before its own.
fn push_path(entities: &[Entity], id: Id, out: &mut String) -> Result<(), AllocError>
    requires { IsById entities.now }
    ensures ok { OnOk result (string_bytes out.new
        ≡ string_bytes out.old ++ title.path_in (reverse (map unlabelled entities.now)) id) }
    ensures err { OnErr result (IsAppended (string_bytes out.old) (string_bytes out.new)) }
{
    let place = match place_of(entities, id) {
        None => return Ok(()),
        Some(place) => place,
    };
    match entities[place].what.parent() {
        None => Ok(()),
        Some(dir) => {
            push_path(&entities[..place], dir, out)?;
            push_component(entities[place].name.as_str(), out)
        }
    }
}

/// Appends a slash and the name.
fn push_component(name: &str, out: &mut String) -> Result<(), AllocError>
    ensures ok { OnOk result (string_bytes out.new
        ≡ string_bytes out.old ++ codes "/" ++ name.now) }
    ensures err { OnErr result (IsAppended (string_bytes out.old) (string_bytes out.new)) }
{
    out.push_str("/")?;
    out.push_str(name)
}
