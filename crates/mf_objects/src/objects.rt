//! The live entities, and the calls that make and remove them.
ghost use Rattle.std.specs.Prelude.{◌≡◌, ◌==◌, ◌<◌, ◌≤◌, [], ◌∷◌, length, IsTrue, IsSome, OnOk, OnErr, IfOk, Some, None, position, find};
ghost use Rattle.mf_names.specs.declared.limits.TheConstants.{CONTENT_LIMIT};
ghost use Rattle.mf_objects.specs.declared.limits.TheConstants.{ID_LIMIT, MOST_ENTITIES};
ghost use Rattle.mf_objects.specs.Live as live;
ghost use Rattle.mf_objects.specs.Lives.{is_directory, IsLive};
ghost use Rattle.mf_objects.specs.Changes as change;
ghost use Rattle.mf_objects.specs.Fits.{MayJoin};
ghost use Rattle.mf_objects.specs.Population.{is_namesake};
ghost use Rattle.mf_objects.specs.Sound.{IsPlace, IsById, root_labelled};
ghost use Rattle.mf_objects.specs.Index.{bucket_of, with_id};
ghost use Rattle.mf_slots.specs.Zones.{MakesLabel};

mod changing;
mod descriptors;
mod naming;
mod reading;
mod removing;

use crate::descriptors::Descriptors;
use crate::entity::{Entity, EntityData, Pipe, Process, Socket, Vnode};
use crate::id::Id;
use crate::index::{Group, NameIndex};
use crate::limits::ROOT_MODE;
use crate::messages::Messages;
use mf_cred::{Cred, Duplicate, FileView};
use mf_elem::{LabelValue, SLOTS};
use mf_names::{Bytes, Name};
use mf_slots::{Label, Zones};
use std::alloc::{AllocError, Global};
use std::marker::Model;

/// The live entities. Contracts see them by rising id, with the id that is given next.
#[derive(Drop)]
pub struct Objects {
    next: u32,
    zones: Zones,
    entities: Vec<Entity>,
    index: NameIndex,
    /// How many descriptors the processes have.
    open_fds: u32,
}

impl Model for Objects {
    ghost use Rattle.mf_objects.specs.Live.{Entities};

    ghost Value = { Entities };

    ghost use Rattle.std.specs.Prelude.{◌≡◌};
    ghost use Rattle.mf_objects.specs.Sound.{live_of, IsSound, open_count};
    ghost use Rattle.mf_objects.specs.Index.{IsIndex};

    ghost view = { λ a. record { next = a.next; live = live_of a.zones a.entities.items } };

    ghost invariant = { λ a. IsSound a.next a.zones a.entities.items
        × IsIndex a.index a.entities.items × (a.open_fds ≡ open_count a.entities.items) };
}

impl Objects {
    /// The root directory alone, with these label values: of uid 0 and gid 0, with mode 755.
    pub fn new(alloc: Global, values: &[LabelValue; SLOTS]) -> Result<Objects, AllocError>
        ensures { IfOk result (λ objects. objects ≡ change.with_root values.now) }
    {
        let mut zones = Zones::new(alloc)?;
        let mut index = NameIndex::new(alloc)?;
        let group = Group::Entries(None);
        let label = enroll(&mut zones, &mut index, values, group, "", Id(0))?;
        let entities = root_alone(alloc, label)?;
        Ok(Objects {
            next: 1,
            zones,
            entities,
            index,
            open_fds: 0,
        })
    }

    /// Makes room for so many entities more, each with a value in the slots where the root has one.
    pub fn reserve(&mut self, more: usize) -> Result<(), AllocError>
        ensures { self.new ≡ self.old }
    {
        self.entities.reserve(more)?;
        match self.entities.first() {
            None => Ok(()),
            Some(root) => self.zones.reserve(&root.label, more),
        }
    }

    /// Makes a process with this credential, which has nothing open.
    pub fn add_process(
        &mut self,
        alloc: Global,
        name: &str,
        cred: &Cred,
        values: &[LabelValue; SLOTS],
    ) -> Result<Id, AllocError>
        requires few { length self.old.live < MOST_ENTITIES }
        requires next { self.old.next < ID_LIMIT }
        requires name { live.live_named live.is_process self.old name.now ≡ None }
        ensures ok { OnOk result (self.new
            ≡ change.with_entity self.old name.now values.now (change.new_process cred.now)) }
        ensures found { IfOk result
            (λ id. live.live_at self.new id
            ≡ Some (change.made self.old name.now values.now (change.new_process cred.now))) }
        ensures id { IfOk result (λ id. id.0 ≡ self.old.next) }
        ensures err { OnErr result (self.new ≡ self.old) }
    {
        let process = Process {
            cred: cred.copy(),
            fds: Descriptors::new(alloc)?,
        };
        self.add(alloc, name, values, EntityData::Process(process))
    }

    /// Makes a directory, or a regular file with this text.
    pub fn add_vnode(
        &mut self,
        alloc: Global,
        dir: Id,
        name: &str,
        file: &FileView,
        text: &[u8],
        values: &[LabelValue; SLOTS],
    ) -> Result<Id, AllocError>
        requires few { length self.old.live < MOST_ENTITIES }
        requires next { self.old.next < ID_LIMIT }
        requires dir { IsLive is_directory self.old dir }
        requires name { find (live.is_one_named (live.is_entry dir) name.now) self.old.live ≡ None }
        requires fits { length text.now ≤ CONTENT_LIMIT }
        requires bare { IsTrue file.now.dir → text.now ≡ [] }
        ensures ok { OnOk result (self.new
            ≡ change.with_entity self.old name.now values.now
            (change.new_vnode dir file.now text.now)) }
        ensures found { IfOk result (λ id. live.live_at self.new id
            ≡ Some (change.made self.old name.now values.now
            (change.new_vnode dir file.now text.now))) }
        ensures id { IfOk result (λ id. id.0 ≡ self.old.next) }
        ensures err { OnErr result (self.new ≡ self.old) }
    {
        let content = Bytes::copy_of(alloc, text)?;
        let vnode = Vnode {
            parent: Some(dir),
            file: *file,
            content,
        };
        self.add(alloc, name, values, EntityData::Vnode(vnode))
    }

    /// Makes an empty pipe, which goes when its maker does.
    pub fn add_pipe(
        &mut self,
        alloc: Global,
        name: &str,
        maker: Id,
        values: &[LabelValue; SLOTS],
    ) -> Result<Id, AllocError>
        requires few { length self.old.live < MOST_ENTITIES }
        requires next { self.old.next < ID_LIMIT }
        requires maker { IsLive live.is_process self.old maker }
        requires name { live.live_named live.is_pipe self.old name.now ≡ None }
        ensures ok { OnOk result (self.new
            ≡ change.with_entity self.old name.now values.now (change.new_pipe maker)) }
        ensures found { IfOk result
            (λ id. live.live_at self.new id
            ≡ Some (change.made self.old name.now values.now (change.new_pipe maker))) }
        ensures id { IfOk result (λ id. id.0 ≡ self.old.next) }
        ensures err { OnErr result (self.new ≡ self.old) }
    {
        let bytes = Bytes::new(alloc);
        self.add(alloc, name, values, EntityData::Pipe(Pipe { maker, bytes }))
    }

    /// Makes a socket without a message, which goes when its maker does.
    pub fn add_socket(
        &mut self,
        alloc: Global,
        name: &str,
        maker: Id,
        values: &[LabelValue; SLOTS],
    ) -> Result<Id, AllocError>
        requires few { length self.old.live < MOST_ENTITIES }
        requires next { self.old.next < ID_LIMIT }
        requires maker { IsLive live.is_process self.old maker }
        requires name { live.live_named live.is_socket self.old name.now ≡ None }
        ensures ok { OnOk result (self.new
            ≡ change.with_entity self.old name.now values.now (change.new_socket maker)) }
        ensures found { IfOk result
            (λ id. live.live_at self.new id
            ≡ Some (change.made self.old name.now values.now (change.new_socket maker))) }
        ensures id { IfOk result (λ id. id.0 ≡ self.old.next) }
        ensures err { OnErr result (self.new ≡ self.old) }
    {
        let messages = Messages::new(alloc);
        self.add(
            alloc,
            name,
            values,
            EntityData::Socket(Socket { maker, messages }),
        )
    }

    /// Adds an entity under the next id. The list takes its memory before the first change, so that a failure changes
    /// nothing.
    fn add(
        &mut self,
        alloc: Global,
        name: &str,
        values: &[LabelValue; SLOTS],
        what: EntityData,
    ) -> Result<Id, AllocError>
        requires few { length self.old.live < MOST_ENTITIES }
        requires next { self.old.next < ID_LIMIT }
        requires joins { MayJoin self.old what }
        requires name { find (is_namesake name.now what) self.old.live ≡ None }
        ensures ok { OnOk result (self.new ≡ change.with_entity self.old name.now values.now what) }
        ensures found { IfOk result
            (λ id. live.live_at self.new id
            ≡ Some (change.made self.old name.now values.now what)) }
        ensures id { IfOk result (λ id. id.0 ≡ self.old.next) }
        ensures err { OnErr result (self.new ≡ self.old) }
    {
        let name = Name::from_str(alloc, name)?;
        self.entities.reserve(1)?;
        let id = Id(self.next);
        let group = what.group();
        let label = enroll(
            &mut self.zones,
            &mut self.index,
            values,
            group,
            name.as_str(),
            id,
        )?;
        self.next += 1;
        let entity = Entity {
            id,
            name,
            label,
            what,
        };
        self.entities.push(entity).unwrap();
        Ok(id)
    }

    /// The place of a live entity in the list.
    fn place(&self, id: Id) -> usize
        requires { IsSome (live.live_at self.now id) }
        ensures { IsPlace self.now id result }
    {
        place_of(&self.entities, id).unwrap()
    }
}

/// The list of the root directory alone, with this label.
fn root_alone(alloc: Global, label: Label) -> Result<Vec<Entity>, AllocError>
    ensures { IfOk result (λ entities. entities.items ≡ root_labelled label ∷ []) }
{
    let root = Entity {
        id: Id(0),
        name: Name::from_str(alloc, "")?,
        label,
        what: EntityData::Vnode(Vnode {
            parent: None,
            file: FileView {
                uid: 0,
                gid: 0,
                mode: ROOT_MODE,
                dir: true,
            },
            content: Bytes::new(alloc),
        }),
    };
    let mut entities = Vec::new(alloc);
    entities.push(root)?;
    Ok(entities)
}

/// Makes a label, and puts the id into the index under its name. If memory runs out, nothing changes.
fn enroll(
    zones: &mut Zones,
    index: &mut NameIndex,
    values: &[LabelValue; SLOTS],
    group: Group,
    name: &str,
    id: Id,
) -> Result<Label, AllocError>
    ensures label { IfOk result (λ label. MakesLabel zones.old zones.new label values.now) }
    ensures named { OnOk result (index.new ≡ with_id (bucket_of group name.now) id index.old) }
    ensures err { OnErr result ((zones.new ≡ zones.old) × (index.new ≡ index.old)) }
{
    index.insert(group, name, id)?;
    match zones.make_label(values) {
        Ok(label) => Ok(label),
        Err(error) => {
            index.take_back(group, name);
            Err(error)
        }
    }
}

/// The place of an id among entities that stand by rising id.
fn place_of(entities: &[Entity], id: Id) -> Option<usize>
    requires { IsById entities.now }
    ensures { result ≡ position (λ e. e.id.0 == id.0) entities.now }
{
    // Where nothing older is gone, an entity stands at the place of its number.
    let first = id.0 as usize;
    if first < entities.len() && entities[first].has_id(id) {
        return Some(first);
    }
    entities.binary_search_by_key(&id.0, |e| e.id.0).ok()
}
