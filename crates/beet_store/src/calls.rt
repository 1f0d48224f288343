//! The calls of a memory type, some of which are to fail.

ghost use Rattle.std.specs.Prelude.{◌≡◌, ◌≤◌, true, if◌then◌else◌, IsTrue};
ghost use Rattle.beet_store.specs.Causes.{Rose};
ghost use Rattle.beet_store.specs.Memory.{is_listed, after_call};

use std::marker::Model;

/// The numbers of the calls that are to fail, the calls made, and the count of faults.
#[derive(Drop)]
pub(crate) struct Calls {
    failing: Vec<u64>,
    made: u64,
    faults: u64,
}

impl Model for Calls {
    ghost use Rattle.beet_store.specs.Memory.{CallsSeen};

    ghost Value = { CallsSeen };

    ghost view = { λ a. record { failing = a.failing.items; made = a.made; faults = a.faults } };
}

impl Calls {
    pub(crate) fn new(failing: Vec<u64>) -> Calls
        ensures { result ≡ record { failing = failing.items; made = 0; faults = 0 } }
    {
        Calls {
            failing,
            made: 0,
            faults: 0,
        }
    }

    /// Counts a call, which fails if it has to or if it is listed. Answers whether it fails; then the fault is
    /// counted too.
    pub(crate) fn begin(&mut self, must_fail: bool) -> bool
        ensures counted { self.new ≡ after_call self.old result }
        ensures fails { result ≡ (if must_fail then true else is_listed self.old) }
        ensures later { self.old.faults ≤ self.new.faults }
        ensures rose { IsTrue result → Rose self.old.faults self.new.faults }
    {
        self.made = self.made.saturating_add(1);
        let fails = must_fail || self.failing.contains(&self.made);
        if fails {
            self.faults = self.faults.saturating_add(1);
        }
        fails
    }

    pub(crate) fn faults(&self) -> u64
        ensures { result ≡ self.now.faults }
    {
        self.faults
    }
}
