//! A change of the policies in three acts: the listed specs after it are made beside those of the state, the dynamic list
//! and the catalogue follow, and the specs are put into the state. The first two may run out of memory, and then nothing has changed.
ghost use Rattle.std.specs.Prelude.{◌≡◌, ◌<◌, length, false, IfOk, IsOk, IfSome, IsSome, MatchOption, OnOk, OnErr, Some};
ghost use Rattle.mf_objects.specs.declared.id.Id.{Id};
ghost use Rattle.mf_plan.specs.declared.reply.Reply.{Reply};
ghost use Rattle.mf_perform.specs.Effect as effect;
ghost use Rattle.mf_perform.specs.Refused.{is_ok};
ghost use Rattle.mf_perform.specs.Relisting.{effect_in};
ghost use Rattle.mf_perform.specs.Suits.{Suits};
ghost use Rattle.mf_core.specs.declared.history.Event.TheVariants as event;
ghost use Rattle.mf_core.specs.declared.progress.Turn.TheVariants as turn;
ghost use Rattle.mf_core.specs.LegalHistory.{next_line, next_reply, next_state, turn_of, MayCome};
ghost use Rattle.mf_core.specs.RunView.{run_on};
ghost use Rattle.mf_core.specs.Policies.{AreOf};
ghost use Rattle.mf_core.specs.Relisted.{AreListedAfter, IsMade};

use super::Run;
use crate::kept_reply::KeptReply;
use crate::relisting::relist;
use mf_list::{Catalogue, Fixed, Listed, PolicyList};
use mf_perform::{Relisting, listed_after, put_listed, relisting_of, verdict_of};
use mf_plan::{Outline, Plan, State};
use mf_policy::{Policy, SpecList};
use std::alloc::{AllocError, Global};

/// A change of the policies, and the listed specs after it.
#[derive(Drop)]
pub struct Relisted {
    relisting: Relisting,
    specs: SpecList,
}

impl<'s> Run<'s> {
    /// The change of the task's line of that number is made with this reply. If memory runs out, nothing changes.
    pub fn change(
        &mut self,
        alloc: Global,
        task: u32,
        number: u32,
        reply: &KeptReply,
    ) -> Result<(), AllocError>
        requires { MayCome self.old.script self.old.run (event.Changed task number reply.now) }
        ensures ok { OnOk result (self.new
            ≡ run_on self.old (event.Changed task number reply.now)) }
        ensures err { OnErr result (self.new ≡ self.old) }
    {
        let listed = self.listed_after(alloc, task, reply)?;
        self.put(task, number, reply, listed);
        Ok(())
    }

    /// The reply to the change of the task's next line, by its plan, whose room is `plan`. The listed policies must be those of the
    /// state. A change that is denied or refused takes no memory.
    pub(crate) fn change_reply<P: Policy>(
        &self,
        alloc: Global,
        task: u32,
        list: &Listed<'_, P>,
        plan: &mut Plan,
    ) -> Result<KeptReply, AllocError>
        requires task { task < length self.now.script.tasks }
        requires line { IsSome (next_line self.now.script self.now.run.progress task) }
        requires listed { list.now ≡ self.now.run.state.specs }
        ensures value { IfOk result (λ reply. next_reply self.now.script self.now.run task
            ≡ Some reply) }
        ensures memory { (reply : Reply) → next_reply self.now.script self.now.run task ≡ Some reply
            → is_ok reply ≡ false → IsOk result }
    {
        let mut outline = Outline::new();
        self.plan(task, plan, &mut outline);
        let verdict = verdict_of(list, plan);
        self.reply(alloc, task, plan, &outline.found, &verdict)
    }

    /// What the task's next line changes of the policies, and the listed specs after it, where it is done with this reply. The
    /// list and the catalogue follow; if memory runs out, they are unchanged.
    pub(crate) fn relisted<P: Policy>(
        &self,
        alloc: Global,
        task: u32,
        reply: &KeptReply,
        fixed: &Fixed<P>,
        list: &mut PolicyList<P>,
        catalogue: &mut Catalogue<P>,
    ) -> Result<Option<Relisted>, AllocError>
        requires turn { turn_of self.now.script self.now.run.progress task ≡ turn.Change }
        requires reply { next_reply self.now.script self.now.run task ≡ Some reply.now }
        requires policies { AreOf self.now.run.state.specs fixed.now list.old catalogue.old }
        ensures value { IfOk result (AreListedAfter self.now.run.state
            (next_state self.now.script self.now.run task) reply.now) }
        ensures policies { OnOk result
            (AreOf (next_state self.now.script self.now.run task).specs
            fixed.now list.new catalogue.new) }
        ensures err { OnErr result ((list.new ≡ list.old) × (catalogue.new ≡ catalogue.old)) }
        ensures memory { is_ok reply.now ≡ false → IsOk result }
    {
        let Some(listed) = self.listed_after(alloc, task, reply)? else {
            return Ok(None);
        };
        relist(
            alloc,
            fixed,
            list,
            catalogue,
            &self.state,
            &listed.relisting,
        )?;
        Ok(Some(listed))
    }

    /// What the task's next line changes of the policies, and the listed specs after it, where it is done with this reply.
    fn listed_after(
        &self,
        alloc: Global,
        task: u32,
        reply: &KeptReply,
    ) -> Result<Option<Relisted>, AllocError>
        requires turn { turn_of self.now.script self.now.run.progress task ≡ turn.Change }
        requires reply { next_reply self.now.script self.now.run task ≡ Some reply.now }
        ensures value { IfOk result (AreListedAfter self.now.run.state
            (next_state self.now.script self.now.run task) reply.now) }
        ensures memory { is_ok reply.now ≡ false → IsOk result }
    {
        let Some(relisting) = self.relisting(task, reply) else {
            return Ok(None);
        };
        let specs = listed_after(alloc, &self.state, &relisting)?;
        Ok(Some(Relisted { relisting, specs }))
    }

    /// What the task's next line changes of the policies, where it is done with this reply.
    fn relisting(&self, task: u32, reply: &KeptReply) -> Option<Relisting>
        requires turn { turn_of self.now.script self.now.run.progress task ≡ turn.Change }
        requires reply { next_reply self.now.script self.now.run task ≡ Some reply.now }
        ensures { IsMade self.now.run.state
            (next_state self.now.script self.now.run task) reply.now result }
    {
        if !reply.is_ok() {
            return None;
        }
        let line = self.line(task);
        relisting_of(&self.state, &line.call)
    }

    /// Puts the listed specs after the change of the task's line of that number into the state. It takes no memory.
    pub(crate) fn put(
        &mut self,
        task: u32,
        _number: u32,
        _reply: &KeptReply,
        listed: Option<Relisted>,
    )
        requires may { MayCome self.old.script self.old.run
            (event.Changed task _number _reply.now) }
        requires listed { AreListedAfter self.old.run.state
            (next_state self.old.script self.old.run task) _reply.now listed }
        ensures { self.new ≡ run_on self.old (event.Changed task _number _reply.now) }
    {
        put_after(&mut self.state, listed);
        self.progress.advance(task as usize);
    }
}

/// Puts the listed specs after a change into the state, where it is done.
fn put_after(state: &mut State, listed: Option<Relisted>)
    requires suits { IfSome listed (λ listed. Suits state.old (effect_in listed.relisting)) }
    requires specs { IfSome listed (λ listed. (caller : Id)
        → listed.specs ≡ (effect.after state.old caller (effect_in listed.relisting)).specs) }
    ensures { MatchOption listed (state.new ≡ state.old) (λ listed. (caller : Id)
        → state.new ≡ effect.after state.old caller (effect_in listed.relisting)) }
{
    if let Some(listed) = listed {
        put_listed(state, listed.specs, &listed.relisting);
    }
}
