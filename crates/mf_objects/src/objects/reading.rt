//! Readings of the live entities. A reader of another kind's data gives nothing, or zeros: `head` of a process has no
//! bytes.
ghost use Rattle.std.specs.Prelude.{◌≡◌, ◌↔◌, IsTrue, ◌≢◌, ◌≤◌, ◌<◌, length, find, count_by, option_map, nat_le, [], false, option_copied, unwrap_or, Some, IsSome, IfSome, IfNone, All, slice_index_or};
ghost use Rattle.mf_names.specs.declared.limits.TheConstants.{CONTENT_LIMIT};
ghost use Rattle.mf_objects.specs.declared.limits.TheConstants.{MOST_ENTITIES};
ghost use Rattle.mf_elem.specs.declared.label.TheConstants.{SLOTS};
ghost use Rattle.mf_elem.specs.declared.label.LabelValue.TheVariants.{Unset};
ghost use Rattle.mf_slots.specs.Zones.{label_values};
ghost use Rattle.mf_objects.specs.Head.{head_of};
ghost use Rattle.mf_objects.specs.Live as live;
ghost use Rattle.mf_objects.specs.Lives.{is_vnode, is_directory, IsLive, is_from, IsLeast, IsFirstLive, value_at, view_at, made_count};
ghost use Rattle.mf_objects.specs.Population.{IsPopulation};
ghost use Rattle.mf_objects.specs.Index as index;
ghost use Rattle.mf_objects.specs.Sound.{with_values, IsById};

use super::{Objects, place_of};
use crate::entity::{Entity, EntityData};
use crate::head::Head;
use crate::id::Id;
use crate::index::Group;
use mf_cred::{Cred, FileView};
use mf_elem::{LabelValue, SLOTS};
use mf_item::{Kind, ObjectView};
use mf_slots::{Label, Zones};

impl Objects {
    /// How many entities live. The clause `population` is the invariant of the live entities.
    pub fn live(&self) -> u32
        ensures value { result ≡ length self.now.live }
        ensures most { result ≤ MOST_ENTITIES }
        ensures population { IsPopulation self.now }
    {
        self.entities.len() as u32
    }

    /// The number of the id that is given next.
    pub fn next_id(&self) -> u32
        ensures { result ≡ self.now.next }
    {
        self.next
    }

    /// The root directory.
    pub fn root(&self) -> Id
        ensures value { result ≡ record { 0 = 0 } }
        ensures directory { IsLive is_directory self.now result }
    {
        // Reading a field brings the type's invariant into the proof.
        let _next = self.next;
        Id(0)
    }

    /// The least live id of at least `n`.
    pub fn least_from(&self, n: u32) -> Option<Id>
        ensures found { IsFirstLive (is_from n) self.now result }
        ensures live { IfSome result (λ id. IsSome (live.live_at self.now id)) }
        ensures least { IfSome result (λ id. IsLeast n self.now.live id) }
        ensures none { IfNone result (All (λ e. e.id.0 < n) self.now.live) }
    {
        least_from(&self.entities, n)
    }

    /// The live process of this name.
    pub fn process(&self, name: &str) -> Option<Id>
        ensures found { IsFirstLive (live.is_one_named live.is_process name.now) self.now result }
        ensures process { IfSome result (λ id. IsLive live.is_process self.now id) }
    {
        self.named(Group::Processes, name)
    }

    /// The live pipe of this name.
    pub fn pipe(&self, name: &str) -> Option<Id>
        ensures found { IsFirstLive (live.is_one_named live.is_pipe name.now) self.now result }
        ensures pipe { IfSome result (λ id. IsLive live.is_pipe self.now id) }
    {
        self.named(Group::Pipes, name)
    }

    /// The live socket of this name.
    pub fn socket(&self, name: &str) -> Option<Id>
        ensures found { IsFirstLive (live.is_one_named live.is_socket name.now) self.now result }
        ensures socket { IfSome result (λ id. IsLive live.is_socket self.now id) }
    {
        self.named(Group::Sockets, name)
    }

    /// The entry of this name in a directory.
    pub fn child(&self, dir: Id, name: &str) -> Option<Id>
        ensures found { IsFirstLive
            (live.is_one_named (live.is_entry dir) name.now) self.now result }
        ensures vnode { IfSome result (λ id. IsLive is_vnode self.now id) }
        ensures not_root { IfSome result (λ id. id.0 ≢ 0) }
    {
        self.named(Group::Entries(Some(dir)), name)
    }

    /// Whether the entity is a process, a vnode, a pipe or a socket.
    pub fn kind(&self, id: Id) -> Kind
        requires { IsSome (live.live_at self.now id) }
        ensures { result ≡ live.kind_at self.now id }
    {
        self.entity(id).what.kind()
    }

    /// The attributes of a file or a directory; a process has its real uid and its first group. What isn't a directory has
    /// no entries.
    pub fn file(&self, id: Id) -> FileView
        requires { IsSome (live.live_at self.now id) }
        ensures value { result ≡ live.file_at self.now id }
        ensures regular { result.dir ≡ false → live.entry_count self.now id ≡ 0 }
    {
        self.entity(id).what.file()
    }

    /// The credential of a process.
    pub fn cred(&self, id: Id) -> Cred
        requires { IsSome (live.live_at self.now id) }
        ensures { result ≡ live.cred_at self.now id }
    {
        self.entity(id).what.cred()
    }

    /// Whether this is the credential of the process. It isn't copied.
    pub fn has_cred(&self, id: Id, cred: &Cred) -> bool
        requires { IsSome (live.live_at self.now id) }
        ensures { IsTrue result ↔ (cred.now ≡ live.cred_at self.now id) }
    {
        self.entity(id).what.has_cred(cred)
    }

    /// How many bytes a file or a pipe holds; a directory holds none.
    pub fn size(&self, id: Id) -> u32
        requires { IsSome (live.live_at self.now id) }
        ensures value { result ≡ length (live.content_at self.now id) }
        ensures most { result ≤ CONTENT_LIMIT }
        ensures directory { IsLive is_directory self.now id → result ≡ 0 }
    {
        self.entity(id).what.content().len() as u32
    }

    /// The beginning of what a file or a pipe holds.
    pub fn head(&self, id: Id) -> Head
        requires { IsSome (live.live_at self.now id) }
        ensures { result ≡ head_of (live.content_at self.now id) }
    {
        Head::of(self.entity(id).what.content())
    }

    /// The beginning of the oldest message of a socket; no bytes where it has none.
    pub fn message(&self, id: Id) -> Head
        requires { IsSome (live.live_at self.now id) }
        ensures { result ≡ head_of (slice_index_or (live.messages_at self.now id) 0 []) }
    {
        Head::of(self.entity(id).what.message())
    }

    /// How many entries a directory has, or messages a socket.
    pub fn count(&self, id: Id) -> u32
        requires { IsSome (live.live_at self.now id) }
        ensures value { result ≡ live.count_at self.now id }
        ensures most { result ≤ MOST_ENTITIES }
    {
        match &self.entity(id).what {
            EntityData::Socket(socket) => socket.messages.len() as u32,
            EntityData::Process(_) | EntityData::Vnode(_) | EntityData::Pipe(_) => {
                entry_count(&self.entities, id) as u32
            }
        }
    }

    /// The values of the entity's label.
    pub fn label(&self, id: Id) -> [LabelValue; SLOTS]
        requires { IsSome (live.live_at self.now id) }
        ensures { result ≡ live.label_at self.now id }
    {
        let mut label = [LabelValue::Unset; SLOTS];
        self.fill_label(id, &mut label);
        label
    }

    /// Fills `label` with the values of the entity's label. A value that stands there already isn't copied.
    pub fn fill_label(&self, id: Id, label: &mut [LabelValue; SLOTS])
        requires { IsSome (live.live_at self.now id) }
        ensures { label.new ≡ live.label_at self.now id }
    {
        let place = self.place(id);
        fill_values(&self.zones, &self.entities[place].label, label);
    }

    /// Whether these are the values of the entity's label. None of them is copied.
    pub fn has_label(&self, id: Id, label: &[LabelValue; SLOTS]) -> bool
        requires { IsSome (live.live_at self.now id) }
        ensures { IsTrue result ↔ (label.now ≡ live.label_at self.now id) }
    {
        let place = self.place(id);
        has_values(&self.zones, &self.entities[place].label, label)
    }

    /// Whether policies see the entity so. Nothing is copied.
    pub fn has_view(&self, id: Id, view: &ObjectView) -> bool
        requires { IsSome (live.live_at self.now id) }
        ensures { IsTrue result ↔ (view.now ≡ view_at self.now id) }
    {
        let place = self.place(id);
        let entity = &self.entities[place];
        entity.is_seen_so(view) && has_values(&self.zones, &entity.label, &view.label)
    }

    /// What a slot of the entity's label holds.
    pub fn value(&self, id: Id, slot: u8) -> LabelValue
        requires live { IsSome (live.live_at self.now id) }
        requires slot { slot < SLOTS }
        ensures { result ≡ value_at self.now id slot }
    {
        let place = self.place(id);
        self.zones.value(&self.entities[place].label, slot)
    }

    /// What a slot of the entity's label holds, where it is made. It isn't copied.
    pub fn value_ref(&self, id: Id, slot: u8) -> Option<&LabelValue>
        requires { IsSome (live.live_at self.now id) }
        ensures value { unwrap_or (option_copied result) Unset ≡ value_at self.now id slot }
        ensures set { option_copied result ≢ Some Unset }
        ensures slot { IsSome (option_copied result) → slot < SLOTS }
    {
        let place = self.place(id);
        self.zones.value_ref(&self.entities[place].label, slot)
    }

    /// How many live entities have the slot made.
    pub fn held(&self, slot: u8) -> u32
        requires { slot < SLOTS }
        ensures { result ≡ made_count self.now slot }
    {
        self.zones.held(slot)
    }

    /// The live entity of this name in a group.
    fn named(&self, group: Group, name: &str) -> Option<Id>
        ensures found { IsFirstLive (index.is_member group name.now) self.now result }
        ensures population { IsPopulation self.now }
    {
        named_among(
            &self.entities,
            self.index.candidates(group, name),
            group,
            name,
        )
    }

    pub(super) fn entity(&self, id: Id) -> &Entity
        requires { IsSome (live.live_at self.now id) }
        ensures shown { live.live_at self.now id
            ≡ Some (with_values (live.label_at self.now id) result.now) }
        ensures population { IsPopulation self.now }
    {
        let place = self.place(id);
        &self.entities[place]
    }
}

/// Whether the zones have these values for the label.
fn has_values(zones: &Zones, label: &Label, values: &[LabelValue; SLOTS]) -> bool
    ensures { IsTrue result ↔ (values.now ≡ label_values zones.now label.now) }
{
    zones.holds(label, values)
}

/// Fills `values` with those that the zones have for the label.
fn fill_values(zones: &Zones, label: &Label, values: &mut [LabelValue; SLOTS])
    ensures { values.new ≡ label_values zones.now label.now }
{
    zones.fill(label, values);
}

/// The first id of at least `n` among entities that stand by rising id.
fn least_from(entities: &[Entity], n: u32) -> Option<Id>
    requires { IsById entities.now }
    ensures { result ≡ option_map (λ e. e.id) (find (λ e. nat_le n e.id.0) entities.now) }
{
    // Where nothing older is gone, an entity stands at the place of its number.
    let first = n as usize;
    if first < entities.len() && entities[first].has_id(Id(n)) {
        return Some(entities[first].id);
    }
    let place = entities.partition_point(|e| !e.is_from(n));
    let found = entities.get(place)?;
    Some(found.id)
}

/// The first of the candidates whose entity belongs to the group and has the name.
fn named_among(entities: &[Entity], candidates: &[Id], group: Group, name: &str) -> Option<Id>
    requires { IsById entities.now }
    ensures { result ≡ find (index.is_named_at entities.now group name.now) candidates.now }
{
    for id in candidates {
        if is_named(entities, *id, group, name) {
            return Some(*id);
        }
    }
    None
}

/// Whether the entity of this id belongs to the group and has the name.
fn is_named(entities: &[Entity], id: Id, group: Group, name: &str) -> bool
    requires { IsById entities.now }
    ensures { result ≡ index.is_named_at entities.now group name.now id }
{
    match place_of(entities, id) {
        Some(place) => entities[place].is_member(group, name),
        None => false,
    }
}

fn entry_count(entities: &[Entity], dir: Id) -> usize
    ensures value { result ≡ count_by (λ e. live.is_entry dir e.what) entities.now }
    ensures most { result ≤ length entities.now }
{
    entities.iter().filter(|e| e.is_entry(dir)).count()
}
