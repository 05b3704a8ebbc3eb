//! The calls of a source or a sink over memory: how many were made, and which of them fail.
ghost use Rattle.std.specs.Prelude.{◌≡◌, ◌≤◌, [], IsTrue, ◌↔◌};

use crate::source::Failed;

/// The calls of a source or a sink over memory.
#[derive(Drop)]
pub struct Calls {
    /// The most bytes of one call, at least 1.
    pub most: usize,
    /// The numbers of the calls that fail, counted from 1.
    pub fails: Vec<u64>,
    /// How many calls were made, a count that stays at its greatest value.
    pub made: u64,
    /// How many calls have failed, a count that stays at its greatest value.
    pub faults: u64,
}

impl Calls {
    ghost use Rattle.mf_io.specs.Calls.{fails_next, one_more, one_fault_more};

    /// No call is made yet.
    pub fn new(most: usize, fails: Vec<u64>) -> Self
        ensures { result ≡ record { most = most; fails = fails; made = 0; faults = 0 } }
    {
        Calls {
            most,
            fails,
            made: 0,
            faults: 0,
        }
    }

    /// Counts a call, and returns whether it is one of those that fail.
    pub fn next_fails(&mut self) -> bool
        ensures fails { result ≡ fails_next self.old }
        ensures counted { self.new ≡ one_more self.old }
    {
        match self.made.checked_add(1) {
            None => false,
            Some(number) => {
                self.made = number;
                self.fails.contains(&number)
            }
        }
    }

    /// Counts a fault.
    pub fn fail(&mut self) -> Failed
        ensures { self.new ≡ one_fault_more self.old }
    {
        self.faults = self.faults.saturating_add(1);
        Failed
    }
}
