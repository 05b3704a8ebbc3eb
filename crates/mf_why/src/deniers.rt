//! Policies that deny a check.
ghost use Rattle.std.specs.Prelude.{◌≡◌};
ghost use Rattle.mf_why.specs.Deniers as spec;
ghost use Rattle.mf_why.specs.Lines.{mark_text};

use mf_errno::Module;

/// What a policy that denies a check has to do with the reply.
#[derive(Clone, Copy, PartialEq, Eq)]
pub enum Mark {
    /// The reply names it.
    Decides,
    /// It denies as well.
    Also,
}

impl Mark {
    /// That of a module, by the one that the reply names.
    pub fn of(module: Module, by: Option<Module>) -> Mark
        ensures { result ≡ spec.mark_of by «module» }
    {
        match by {
            Some(decider) if decider.is(module) => Mark::Decides,
            _ => Mark::Also,
        }
    }

    /// As a line has it.
    pub fn name(self) -> &'static str
        ensures { result.now ≡ mark_text self }
    {
        match self {
            Mark::Decides => "decides",
            Mark::Also => "also",
        }
    }
}
