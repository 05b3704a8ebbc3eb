//! Removals: what an exit and an unlink take away.
ghost use Rattle.std.specs.Prelude.{◌≡◌, ◌≢◌, ◌<◌, length, remove, slice_index_or, true};
ghost use Rattle.mf_objects.specs.Live as live;
ghost use Rattle.mf_objects.specs.Lives.{is_vnode, IsLive};
ghost use Rattle.mf_objects.specs.declared.id.Id.{Id};
ghost use Rattle.mf_objects.specs.Changes as change;
ghost use Rattle.mf_objects.specs.Descriptors.{without_vnode};
ghost use Rattle.mf_objects.specs.Fits.{IsBare};
ghost use Rattle.mf_objects.specs.Population.{HasRoot};

use super::Objects;
use crate::entity::Entity;
use crate::id::Id;

impl Objects {
    /// Removes a process with its descriptors, and the pipes and sockets that it made. Its children stay.
    pub fn remove_process(&mut self, id: Id)
        requires { IsLive live.is_process self.old id }
        ensures { self.new ≡ change.without (change.goes_with id) self.old }
    {
        self.remove_made_by(id);
        let place = self.place(id);
        self.remove_at(place);
    }

    /// Removes the pipes and sockets that a process made.
    fn remove_made_by(&mut self, maker: Id)
        ensures removed { self.new ≡ change.without (λ e. live.is_made_by maker e.what) self.old }
        ensures rooted { HasRoot self.new.live }
    {
        let mut place = 0;
        let mut len = self.len();
        while place < len {
            if self.made_at(place, maker) {
                self.remove_at(place);
                len -= 1;
            } else {
                place += 1;
            }
        }
    }

    /// Removes a file with all descriptors on it, or a directory without entries; not the root.
    pub fn remove_vnode(&mut self, id: Id)
        requires vnode { IsLive is_vnode self.old id }
        requires not_root { id.0 ≢ 0 }
        requires empty { live.entry_count self.old id ≡ 0 }
        ensures { self.new ≡ without_vnode id self.old }
    {
        self.close_on(id);
        let place = self.place(id);
        self.remove_at(place);
    }

    fn len(&self) -> usize
        ensures value { result ≡ length self.now.live }
        ensures rooted { HasRoot self.now.live }
    {
        self.entities.len()
    }

    fn made_at(&self, place: usize, maker: Id) -> bool
        requires { place < length self.now.live }
        ensures { (d : live.LiveEntity)
            → result ≡ live.is_made_by maker (slice_index_or self.now.live place d).what }
    {
        self.entities[place].what.is_made_by(maker)
    }

    /// Removes the entity at a place, which no other belongs to and no process has open, and frees its name, its label and its
    /// descriptors.
    fn remove_at(&mut self, place: usize)
        requires within { place < length self.old.live }
        requires later { 0 < place }
        requires bare { (d : live.LiveEntity)
            → let e = slice_index_or self.old.live place d in IsBare self.old.live e.id e.what }
        ensures removed { self.new ≡ record self.old { live = remove self.old.live place } }
        ensures by_id { (id : Id)
            → ((d : live.LiveEntity) → live.has_id id (slice_index_or self.old.live place d) ≡ true)
            → self.new ≡ change.without (live.has_id id) self.old }
    {
        let Entity {
            id,
            name,
            label,
            what,
        } = self.entities.remove(place);
        self.index.remove(what.group(), name.as_str(), id);
        self.zones.give_up(label);
        self.open_fds -= what.fd_count();
    }
}
