//! Changes of one entity: its content, its messages, its mode and its label.
ghost use Rattle.std.specs.Prelude.{◌≡◌, ◌≢◌, ◌≤◌, ◌<◌, [], length, drop, IsSome, IsOk, OnOk, OnErr, slice_index_or};
ghost use Rattle.mf_elem.specs.declared.label.LabelValue.TheVariants.{Unset};
ghost use Rattle.mf_names.specs.declared.limits.TheConstants.{SCRIPT_LIMIT};
ghost use Rattle.mf_elem.specs.declared.label.TheConstants.{SLOTS};
ghost use Rattle.mf_slots.specs.Zones.{given_to};
ghost use Rattle.mf_objects.specs.Head.{head_of};
ghost use Rattle.mf_objects.specs.Live as live;
ghost use Rattle.mf_objects.specs.Lives.{is_vnode, IsLive, IsLiveWhere, value_at, HasSlotsFor};
ghost use Rattle.mf_objects.specs.Changes as change;
ghost use Rattle.mf_objects.specs.Labels.{with_value, with_label};
ghost use Rattle.mf_objects.specs.Fits.{FitsBytes, FitsMessage, HasMessage};

use super::Objects;
use crate::head::Head;
use crate::id::Id;
use mf_elem::{LabelValue, SLOTS};
use mf_names::Bytes;
use std::alloc::{AllocError, Global};

impl Objects {
    /// Appends to a regular file or a pipe in which the text fits.
    pub fn append(&mut self, id: Id, text: &[u8]) -> Result<(), AllocError>
        requires { IsLiveWhere (FitsBytes (length text.now)) (live.live_at self.old id) }
        ensures ok { OnOk result (self.new
            ≡ change.with_change (change.with_what (change.appended text.now)) self.old id) }
        ensures err { OnErr result (self.new ≡ self.old) }
    {
        let place = self.place(id);
        let entity = &mut self.entities[place];
        entity.what.append(text)
    }

    /// Empties a pipe.
    pub fn clear(&mut self, id: Id)
        requires { IsLive live.is_pipe self.old id }
        ensures { self.new ≡ change.with_change (change.with_what change.cleared) self.old id }
    {
        let place = self.place(id);
        let entity = &mut self.entities[place];
        entity.what.clear();
    }

    /// Appends a message to those of a socket that has room for it.
    pub fn push_message(&mut self, alloc: Global, id: Id, text: &[u8]) -> Result<(), AllocError>
        requires room { IsLiveWhere FitsMessage (live.live_at self.old id) }
        requires fits { length text.now ≤ SCRIPT_LIMIT }
        ensures ok { OnOk result (self.new
            ≡ change.with_change
            (change.with_what (change.with_messages (change.with_message text.now))) self.old id) }
        ensures err { OnErr result (self.new ≡ self.old) }
    {
        let message = Bytes::copy_of(alloc, text)?;
        let place = self.place(id);
        let entity = &mut self.entities[place];
        entity.what.push_message(message)
    }

    /// Removes the oldest message of a socket and returns its head.
    pub fn pop_message(&mut self, id: Id) -> Head
        requires { IsLiveWhere HasMessage (live.live_at self.old id) }
        ensures rest { self.new
            ≡ change.with_change (change.with_what (change.with_messages (drop 1))) self.old id }
        ensures oldest { result ≡ head_of (slice_index_or (live.messages_at self.old id) 0 []) }
    {
        let place = self.place(id);
        let entity = &mut self.entities[place];
        let message = entity.what.pop_message();
        Head::of(message.as_slice())
    }

    /// Gives a file or a directory these mode bits, as chmod(2) has them.
    pub fn set_mode(&mut self, id: Id, mode: u16)
        requires { IsLive is_vnode self.old id }
        ensures { self.new
            ≡ change.with_change (change.with_what (change.with_mode mode)) self.old id }
    {
        let place = self.place(id);
        let entity = &mut self.entities[place];
        entity.what.set_mode(mode);
    }

    /// Gives a slot of the entity's label this value, and makes the slot first where it is Unset.
    pub fn set_label(&mut self, id: Id, slot: u8, value: LabelValue) -> Result<(), AllocError>
        requires live { IsSome (live.live_at self.old id) }
        requires slot { slot < SLOTS }
        requires value { value ≢ Unset }
        ensures ok { OnOk result (self.new
            ≡ change.with_change (with_value slot value) self.old id) }
        ensures made { value_at self.old id slot ≢ Unset → IsOk result }
        ensures err { OnErr result (self.new ≡ self.old) }
    {
        let place = self.place(id);
        let label = &mut self.entities[place].label;
        if label.is_made(slot) {
            self.zones.set(label, slot, value);
            return Ok(());
        }
        self.zones.make(label, slot, value)
    }
    /// Gives the slots of the entity's label these values; Unset leaves a slot as it is. Slots that are made already take no
    /// memory.
    pub fn relabel(&mut self, id: Id, values: &[LabelValue; SLOTS]) -> Result<(), AllocError>
        requires { IsSome (live.live_at self.old id) }
        ensures ok { OnOk result (self.new
            ≡ change.with_change
            (with_label (given_to values.now (live.label_at self.old id))) self.old id) }
        ensures made { HasSlotsFor (live.label_at self.old id) values.now → IsOk result }
        ensures err { OnErr result (self.new ≡ self.old) }
    {
        let place = self.place(id);
        let label = &mut self.entities[place].label;
        self.zones.relabel(label, values)
    }
}
