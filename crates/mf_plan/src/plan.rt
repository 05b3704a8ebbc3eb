//! Plans: the checks that a call asks the policies for, in order, and how it ends where none is denied.
ghost use Rattle.std.specs.Prelude.{◌≡◌, ◌↔◌, ◌<◌, ◌≤◌, length, slice_index_or, IfSome, IsSome, IsTrue};
ghost use Rattle.mf_item.specs.Item.{Item};
ghost use Rattle.mf_objects.specs.Live.{live_at};
ghost use Rattle.mf_plan.specs.Outline as outlines;
ghost use Rattle.mf_plan.specs.Plan.{lowering_by};
ghost use Rattle.mf_plan.specs.Planned.{proceed};

use crate::last_label::LastLabel;
use crate::lowering::fill_lowered;
use crate::outline::Outline;
use crate::same::same_views;
use crate::state::State;
use crate::views::{CheckView, Subjects, are_views};
use mf_errno::Errno;
use mf_item::{Item, SubjectView};
use std::marker::Model;

/// The most checks that a plan has room for. No call asks for more than 10: 8 look-ups and 2 more.
pub const MOST_CHECKS: usize = 12;

/// The most subjects that a plan has room for: one for each check, one more for each that finds the caller lowered, and one that a
/// plan before had.
pub const MOST_SUBJECTS: usize = 2 * MOST_CHECKS + 1;

/// How a call ends where no check is denied.
#[derive(Clone, Copy, PartialEq, Eq)]
pub enum Tail {
    /// The call is done.
    Do,
    /// The framework refuses it.
    Refuse(Errno),
}

/// The checks of a call, in the order in which they are asked, and its end. Contracts see each check as an item with its
/// subject. It lies here once for all that share it, and checks of one call have one subject, but for what a socket delivers, and
/// where mac_lomac lowers the caller between two of them. The views after the first `count` are left from calls before.
#[derive(Drop)]
pub struct Plan {
    /// The label text that the plan was made by, where it was a relabel's.
    pub(crate) label: LastLabel,
    subjects: Subjects,
    checks: [CheckView; MOST_CHECKS],
    count: usize,
    tail: Tail,
}

impl Model for Plan {
    ghost use Rattle.std.specs.Prelude.{◌≡◌, ◌≤◌, length, take};
    ghost use Rattle.mf_plan.specs.declared.plan.TheConstants.{MOST_CHECKS};
    ghost use Rattle.mf_plan.specs.Planned.{Plan};
    ghost use Rattle.mf_plan.specs.Items.{HaveSubjects, items_with};

    ghost Value = { Plan };

    ghost view = { λ p.
        record { items = items_with p.subjects (take p.count p.checks); tail = p.tail } };

    ghost invariant = { λ p. (length p.checks ≡ MOST_CHECKS) × (p.count ≤ MOST_CHECKS)
        × HaveSubjects p.subjects (take p.count p.checks) };
}

impl Plan {
    /// The plan of a call that asks nothing and is done.
    pub fn new() -> Plan
        ensures { result ≡ proceed }
    {
        Plan {
            label: LastLabel::new(),
            subjects: Subjects::new(),
            checks: [CheckView::none(); MOST_CHECKS],
            count: 0,
            tail: Tail::Do,
        }
    }

    /// How many checks there are.
    pub fn len(&self) -> usize
        ensures value { result ≡ length self.now.items }
        ensures most { result ≤ MOST_CHECKS }
    {
        self.count
    }

    /// The check at that place, from 0, as policies see it.
    pub fn item(&self, place: usize) -> Item<'_>
        requires { place < length self.now.items }
        ensures { (other : Item) → result ≡ slice_index_or self.now.items place other }
    {
        let checks = &self.checks[..self.count];
        let check = &checks[place];
        check.item(&self.subjects.as_slice()[check.subject])
    }

    /// How the call ends where no check is denied.
    pub fn tail(&self) -> Tail
        ensures { result ≡ self.now.tail }
    {
        self.tail
    }

    /// Becomes the plan of that outline in the present state.
    pub(crate) fn fill(&mut self, state: &State, outline: &Outline)
        requires live { outlines.AreLive state.now.objects outline.now.checks }
        requires caller { IfSome outline.now.found.caller
            (λ id. IsSome (live_at state.now.objects id)) }
        ensures { self.new ≡ lowering_by state.now outline.now.found.caller
            (outlines.outlined state.now.objects outline.now) }
    {
        let count = outline.checks.len();
        fill_lowered(state, outline, &mut self.subjects, &mut self.checks);
        self.count = count;
        self.tail = outline.tail;
    }

    /// Whether this is the plan of that outline in the present state. What costs least is compared first. Where nobody is lowered
    /// no plan is made for it.
    pub fn is_outlined(&self, state: &State, outline: &Outline) -> bool
        requires live { outlines.AreLive state.now.objects outline.now.checks }
        requires caller { IfSome outline.now.found.caller
            (λ id. IsSome (live_at state.now.objects id)) }
        ensures { IsTrue result ↔ (self.now ≡ lowering_by state.now outline.now.found.caller
            (outlines.outlined state.now.objects outline.now)) }
    {
        self.tail == outline.tail
            && if state.specs.lomac_slot().is_some() {
                self.is_filled(state, outline)
            } else {
                are_views(
                    &state.objects,
                    &outline.found.request,
                    outline.checks.as_slice(),
                    self.subjects.as_slice(),
                    &self.checks[..self.count],
                )
            }
    }

    /// Whether this is the plan of that outline in the present state, which is made anew. It stands apart, so that a comparison that
    /// makes no plan needs no room for one.
    #[inline(never)]
    fn is_filled(&self, state: &State, outline: &Outline) -> bool
        requires live { outlines.AreLive state.now.objects outline.now.checks }
        requires caller { IfSome outline.now.found.caller
            (λ id. IsSome (live_at state.now.objects id)) }
        ensures { IsTrue result ↔ (self.now ≡ lowering_by state.now outline.now.found.caller
            (outlines.outlined state.now.objects outline.now)) }
    {
        let mut plan = Plan::new();
        plan.fill(state, outline);
        self.same(&plan)
    }

    /// Whether the two are one plan.
    fn same(&self, other: &Plan) -> bool
        ensures { IsTrue result ↔ (self.now ≡ other.now) }
    {
        self.tail == other.tail
            && same_views(
                self.subjects.as_slice(),
                &self.checks[..self.count],
                other.subjects.as_slice(),
                &other.checks[..other.count],
            )
    }
}
