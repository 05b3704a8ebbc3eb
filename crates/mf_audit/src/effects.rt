//! What a call makes of the kernel: what its checks that passed make of its caller, and what it changes where it is done.
ghost use Rattle.std.specs.Prelude.{◌≡◌, ◌<◌, [], IfOk, IsSome, OnOk, Some, None, string_bytes};
ghost use Rattle.mf_objects.specs.declared.id.Id.{Id};
ghost use Rattle.mf_objects.specs.declared.limits.TheConstants.{ID_LIMIT};
ghost use Rattle.mf_objects.specs.Changes as change;
ghost use Rattle.mf_objects.specs.Live.{cred_at, is_process, label_at, live_at};
ghost use Rattle.mf_objects.specs.Lives.{IsLive};
ghost use Rattle.mf_policy.specs.declared.labels.Origin.TheVariants.{Maker};
ghost use Rattle.mf_policy.specs.IsChange.{IsChange};
ghost use Rattle.mf_policy.specs.Loading.{load_fault};
ghost use Rattle.mf_policy.specs.NewLabels.{new_label};
ghost use Rattle.mf_plan.specs.Effect.{Effect as effect};
ghost use Rattle.mf_plan.specs.Names.{child_name};
ghost use Rattle.mf_plan.specs.Rows.{new_file};
ghost use Rattle.mf_perform.specs.Effect.{after};
ghost use Rattle.mf_perform.specs.Held.{with_lomac_value};
ghost use Rattle.mf_audit.specs.Ends.{IsSound, effect_of};

use crate::boots::{given_after, list_fresh};
use crate::done::Effect;
use crate::kernel::Kernel;
use mf_cred::FileView;
use mf_elem::{LabelValue, Request, SLOTS};
use mf_errno::Module;
use mf_item::Kind;
use mf_parties::{PartyId, What};
use mf_policy::{Change, Origin, new_label, registration_of, relabelled};
use std::alloc::{AllocError, Global};

impl Kernel {
    /// Where mac_lomac is listed, the checks of a call that passed have lowered its caller to this value.
    #[tactic(auto, using(crate::proofs::Slots::slotted_found))]
    pub(crate) fn observe(&mut self, me: PartyId, value: &LabelValue)
        ensures { self.new ≡ with_lomac_value value.now self.old (Some me) }
    {
        if let Some(slot) = self.listed.lomac_slot() {
            self.parties.set_value(me, slot, *value);
        }
    }

    /// Makes the effect of a call of this process of the task.
    pub(crate) fn apply(
        &mut self,
        alloc: Global,
        task: &str,
        me: PartyId,
        made: &Effect<'_>,
    ) -> Result<(), AllocError>
        requires caller { IsLive is_process self.old.objects me }
        requires sound { IsSound self.old made.now }
        requires next { self.old.objects.next < ID_LIMIT }
        ensures { OnOk result (self.new ≡ after self.old me
            (effect_of self.old task.now me made.now)) }
    {
        match made {
            Effect::Nothing => {}
            Effect::Fork(child) => self.fork(alloc, me, task, child)?,
            Effect::MakeFile {
                dir,
                name,
                mode,
                is_dir,
            } => self.make_file(alloc, me, *dir, name, *mode, *is_dir)?,
            Effect::MakePipe(name) => self.make_pipe(alloc, me, name)?,
            Effect::MakeSocket(name) => self.make_socket(alloc, me, name)?,
            Effect::Append(id, text) => self.parties.append(*id, text)?,
            Effect::Deliver(id, text) => self.parties.deliver(alloc, *id, text)?,
            Effect::Empty(id) => self.parties.empty(*id),
            Effect::Receive(id) => self.parties.receive(*id),
            Effect::SetMode(id, mode) => self.parties.set_mode(*id, *mode),
            Effect::Open(file) => self.parties.open(me, *file)?,
            Effect::Close(number) => self.parties.close(me, *number),
            Effect::Unlink(id) => self.parties.remove_vnode(*id),
            Effect::End => self.parties.remove_process(me),
            Effect::Relabel(id, request) => self.relabel(*id, request),
            Effect::Load(wanted) => self.load(alloc, *wanted)?,
            Effect::Unload(wanted) => self.unload(*wanted),
            Effect::Set(changed, setting) => self.set(alloc, *changed, setting)?,
        }
        Ok(())
    }

    /// A child of the task's, with the caller's credential.
    fn fork(
        &mut self,
        alloc: Global,
        me: PartyId,
        task: &str,
        child: &str,
    ) -> Result<(), AllocError>
        requires caller { IsSome (live_at self.old.objects me) }
        requires next { self.old.objects.next < ID_LIMIT }
        ensures { OnOk result (self.new ≡ after self.old me
            (effect.Make (child_name task.now child.now)
            (change.new_process (cred_at self.old.objects me)))) }
    {
        let name = full_name(alloc, task, child)?;
        let what = What::process(alloc, &self.parties.cred(me));
        let label = self.label_from(me, Kind::Process);
        self.parties.add(alloc, name.as_str(), &label, what)
    }

    /// An empty file or directory.
    fn make_file(
        &mut self,
        alloc: Global,
        me: PartyId,
        dir: PartyId,
        name: &str,
        mode: u16,
        is_dir: bool,
    ) -> Result<(), AllocError>
        requires caller { IsSome (live_at self.old.objects me) }
        requires next { self.old.objects.next < ID_LIMIT }
        ensures { OnOk result (self.new ≡ after self.old me (effect.Make name.now
            (change.new_vnode dir (new_file self.old.objects me dir mode is_dir) []))) }
    {
        let file = FileView {
            uid: self.parties.cred(me).uid,
            gid: self.parties.file(dir).gid,
            mode,
            dir: is_dir,
        };
        let what = What::file(alloc, dir, file, &[])?;
        let label = self.label_from(me, Kind::Vnode);
        self.parties.add(alloc, name, &label, what)
    }

    fn make_pipe(&mut self, alloc: Global, me: PartyId, name: &str) -> Result<(), AllocError>
        requires caller { IsSome (live_at self.old.objects me) }
        requires next { self.old.objects.next < ID_LIMIT }
        ensures { OnOk result (self.new
            ≡ after self.old me (effect.Make name.now (change.new_pipe me))) }
    {
        let label = self.label_from(me, Kind::Pipe);
        self.parties.add(alloc, name, &label, What::pipe(alloc, me))
    }

    fn make_socket(&mut self, alloc: Global, me: PartyId, name: &str) -> Result<(), AllocError>
        requires caller { IsSome (live_at self.old.objects me) }
        requires next { self.old.objects.next < ID_LIMIT }
        ensures { OnOk result (self.new
            ≡ after self.old me (effect.Make name.now (change.new_socket me))) }
    {
        let label = self.label_from(me, Kind::Socket);
        self.parties
            .add(alloc, name, &label, What::socket(alloc, me))
    }

    /// The label of a party that the process makes.
    fn label_from(&self, maker: PartyId, kind: Kind) -> [LabelValue; SLOTS]
        requires { IsSome (live_at self.now.objects maker) }
        ensures { result ≡ new_label self.now.specs kind (Maker (label_at self.now.objects maker)) }
    {
        let origin = Origin::Maker(self.parties.label(maker));
        new_label(&self.listed, kind, &origin)
    }

    /// The party has the label that the listed policies give it for what is asked.
    fn relabel(&mut self, id: PartyId, request: &Request)
        requires { IsSome (live_at self.old.objects id) }
        ensures { (me : Id) → self.new ≡ after self.old me (effect.Relabel id request.now) }
    {
        let label = relabelled(&self.listed, request, &self.parties.label(id));
        self.parties.relabel(id, &label);
    }

    /// Registers the module, in its initial state.
    fn load(&mut self, alloc: Global, wanted: Module) -> Result<(), AllocError>
        requires { load_fault self.old.booted self.old.specs self.old.numbers wanted ≡ None }
        ensures { (me : Id) → OnOk result (self.new ≡ after self.old me (effect.Load wanted)) }
    {
        let registration = registration_of(wanted, true, self.given);
        list_fresh(alloc, &mut self.listed, registration)?;
        self.given = given_after(self.given, wanted);
        Ok(())
    }

    /// Takes the module off the list. Its label slot isn't given again.
    #[tactic(auto, using(crate::proofs::Slots::slotted_without))]
    fn unload(&mut self, wanted: Module)
        ensures { (me : Id) → self.new ≡ after self.old me (effect.Unload wanted) }
    {
        self.listed.unlist(wanted);
    }

    /// Changes a setting of the module's policy.
    fn set(&mut self, alloc: Global, changed: Module, setting: &Change) -> Result<(), AllocError>
        requires { IsChange setting.now }
        ensures { (me : Id) → OnOk result (self.new
            ≡ after self.old me (effect.Set changed setting.now)) }
    {
        let _answer = self.listed.change(alloc, changed, setting)?;
        Ok(())
    }
}

/// The name of the task's child: that of the task, a dot, and its own.
fn full_name(alloc: Global, task: &str, child: &str) -> Result<String, AllocError>
    ensures { IfOk result (λ name. string_bytes name ≡ child_name task.now child.now) }
{
    let mut name = String::with_capacity(alloc, task.len() + 1 + child.len())?;
    name.push_str(task)?;
    name.push_str(".")?;
    name.push_str(child)?;
    Ok(name)
}
