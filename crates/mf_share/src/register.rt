//! The register of the plans that a kernel made: a history that only grows, of which the program has the length alone. What a thread
//! holds outside the lock is known by it to be what it was given there.
ghost use Rattle.std.specs.Prelude.{◌≡◌, ◌<◌, length, slice_get, IfSome, IsTrue, Some};
ghost use Rattle.mf_plan.specs.Planned as planned;
ghost use Rattle.mf_plan.specs.Planned.{proceed};
ghost use Rattle.mf_core.specs.declared.progress.Turn.TheVariants as turn;
ghost use Rattle.mf_core.specs.CoreView.{run_state, turn_at};
ghost use Rattle.mf_core.specs.Next.{next_plan};

use crate::pass::Job;
use logbook::{Gain, Offer, Plain, Play, Rule, Seen, Start, Word};
use mf_flow::TrackedCore;
use mf_plan::Plan;
use std::marker::{Model, PhantomData};

/// The rule of the register.
pub struct Law;

impl Rule<Plan, u64> for Law {
    ghost use Rattle.std.specs.Prelude.{[]};
    ghost use base.Fml.{ftrue};
    ghost use Rattle.mf_share.specs.Register.{IsKept};

    ghost holds = { λ cells log. IsKept cells log };

    ghost first = { [] };

    ghost hinted = { λ n log. Unit {0} };

    ghost shows = { λ log. [] };

    ghost keeps = { λ names log. ftrue };

    ghost moves = { λ ask before after answer. Unit {0} };
}

/// Callers trade nothing.
pub struct Nothing;

impl Gain<Plan, u64> for Nothing {
    ghost use base.Fml.{ftrue};

    ghost after = { λ names about answer. ftrue };
}

/// A step that adds a plan.
pub struct Add;

impl Play<Plan, u64> for Add {
    ghost use Rattle.mf_share.specs.Register.{Adds};

    ghost then = { Adds };
}

/// What a step asks for: the plan.
impl Plain<Plan, Plan, u64> for Add {
    ghost use Rattle.std.specs.Prelude.{None};

    ghost ask = { λ plan. plan };

    ghost state = { λ plan. None };
}

/// A register without a plan, which has no name yet. Contracts see which book it is.
#[derive(Drop)]
pub struct NewRegister {
    plans: Word<Plan, u64, Law>,
    seen: Seen<Plan, u64, Law>,
}

impl Model for NewRegister {
    ghost use Rattle.std.specs.Prelude.{◌≡◌, []};
    ghost use Rattle.logbook.specs.Pages.{Book};
    ghost use Rattle.mf_share.specs.Register.{word_of};

    ghost Value = { Book };

    ghost view = { λ r. r.seen.book };

    ghost invariant = { λ r. (r.seen.log ≡ []) × (r.plans ≡ word_of r.seen.book) };
}

impl NewRegister {
    /// A register without a plan.
    pub fn new() -> NewRegister {
        let (seen, mut pen, _second) = Seen::open(Start::alone(), 0, 0);
        NewRegister {
            plans: Word::tracked(0, &mut pen),
            seen,
        }
    }

    /// The register under a name.
    pub(crate) fn named<J: Job>(self) -> Register<J>
        requires { self ≡ J.register }
    {
        let NewRegister { plans, seen } = self;
        Register {
            plans,
            len: 0,
            seen,
            of: PhantomData,
        }
    }
}

/// The register that `J` names, as far as it is known behind the lock. Contracts see its plans.
#[derive(Drop)]
pub struct Register<J: Job> {
    plans: Word<Plan, u64, Law>,
    len: u64,
    seen: Seen<Plan, u64, Law>,
    of: PhantomData<J>,
}

impl<J: Job> Model for Register<J> {
    ghost use Rattle.std.specs.Prelude.{◌≡◌, List, length};
    ghost use Rattle.mf_plan.specs.Planned.{Plan};
    ghost use Rattle.mf_share.specs.Register.{word_of};

    ghost Value = { List Plan };

    ghost view = { λ r. r.seen.log };

    ghost invariant = { λ r. (r.plans ≡ word_of J.register) × (r.len ≡ length r.seen.log)
        × (r.seen.book ≡ J.register) };
}

impl<J: Job> Register<J> {
    /// Notes a plan, and answers its number. None where there is no room, or the register has another plan there, which doesn't happen
    /// behind the lock.
    fn note(&mut self, plan: &Plan) -> Option<u64>
        ensures { IfSome result (λ number. slice_get self.new number ≡ Some plan.now) }
    {
        if self.len == u64::MAX {
            return None;
        }
        let mut offer: Offer<Plan, u64, Law, Nothing> = self.seen.plain::<Nothing, Plan, Add>(plan);
        let mut pen = self.seen.no_pen();
        let len = self.len;
        let found = self
            .plans
            .compare_exchange::<Add, Nothing>(len, len + 1, &mut self.seen, &mut offer, &mut pen);
        if found == len {
            self.len = len + 1;
            Some(len)
        } else {
            self.len = found;
            None
        }
    }

    /// What is known of a plan with that number.
    fn known(&self, number: Option<u64>) -> Option<Known<J>>
        ensures { IfSome result (λ known. (number ≡ Some known.number)
            × (known.seen.log ≡ self.now) × (known.seen.book ≡ J.register)) }
    {
        match number {
            Some(number) => Some(Known {
                number,
                seen: self.seen.again(),
                of: PhantomData,
            }),
            None => None,
        }
    }
}

/// The plan of a thread, with its number in the register where that is known. Contracts see the plan.
#[derive(Drop)]
pub struct NumberedPlan<J: Job> {
    plan: Plan,
    known: Option<Known<J>>,
}

/// The number of a plan in the register, which was seen at least so far.
#[derive(Drop)]
struct Known<J: Job> {
    number: u64,
    seen: Seen<Plan, u64, Law>,
    of: PhantomData<J>,
}

impl<J: Job> Model for NumberedPlan<J> {
    ghost use Rattle.std.specs.Prelude.{◌≡◌, IfSome, Some, slice_get};
    ghost use Rattle.mf_plan.specs.Planned.{Plan};

    ghost Value = { Plan };

    ghost view = { λ k. k.plan };

    ghost invariant = { λ k. IfSome k.known
        (λ at. (at.seen.book ≡ J.register) × (slice_get at.seen.log at.number ≡ Some k.plan)) };
}

impl<J: Job> NumberedPlan<J> {
    /// The plan of a call that asks nothing and is done.
    pub fn new() -> NumberedPlan<J>
        ensures { result ≡ proceed }
    {
        NumberedPlan {
            plan: Plan::new(),
            known: None,
        }
    }

    /// The plan.
    pub fn plan(&self) -> &Plan
        ensures { result.now ≡ self.now }
    {
        &self.plan
    }

    /// Becomes the plan of the call that the task has entered for, and answers its number in the register where that is known.
    pub(crate) fn make(
        &mut self,
        tracked: &mut TrackedCore,
        task: u32,
        register: &mut Register<J>,
    ) -> Option<u64>
        requires task { task < length tracked.old.script.tasks }
        requires turn { turn_at tracked.old task ≡ turn.Entered }
        ensures plan { next_plan tracked.old.script (run_state tracked.old) task ≡ Some self.new }
        ensures same { tracked.new ≡ tracked.old }
        ensures number { IfSome result (λ number. slice_get register.new number ≡ Some self.new) }
    {
        tracked.plan(task, &mut self.plan);
        let number = register.note(&self.plan);
        self.known = register.known(number);
        number
    }

    /// Whether the plan is known to have that number in the register.
    pub(crate) fn is_numbered(&self, register: &Register<J>, number: u64) -> bool
        ensures { IsTrue result → (plan : planned.Plan)
            → slice_get register.now number ≡ Some plan → plan ≡ self.now }
    {
        match &self.known {
            Some(at) => {
                let mut all = at.seen.again();
                all.learn(&register.seen);
                at.number == number
            }
            None => false,
        }
    }
}
