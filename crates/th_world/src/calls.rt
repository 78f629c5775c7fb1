//! The calls of an object in memory: which of them fail, and the count of faults.

ghost use Rattle.std.specs.Prelude.{◌↔◌, ◌≤◌, IsTrue, ◌≡◌};
ghost use Rattle.th_world.specs.Calls.{AreFresh, IsToFail, after_success, after_fault};

use std::marker::Model;

/// Counts calls and faults. Each count stays at the greatest `u64` once there.
#[derive(Drop)]
pub(crate) struct CallCounter {
    fail: Vec<u64>,
    number: u64,
    faults: u64,
}

impl Model for CallCounter {
    ghost use Rattle.th_world.specs.Calls.{Calls};
    ghost use Rattle.std.specs.List.Sorted.{IsNonDecreasing};

    ghost Value = { Calls };

    ghost view = { λ c. record { fail = c.fail.items; number = c.number; faults = c.faults } };

    ghost invariant = { λ c. IsNonDecreasing c.fail.items };
}

impl CallCounter {
    /// Before the first call; the calls with the numbers `fail` are to fail.
    pub(crate) fn new(mut fail: Vec<u64>) -> CallCounter
        ensures { AreFresh fail.items result }
    {
        fail.sort_unstable();
        CallCounter {
            fail,
            number: 0,
            faults: 0,
        }
    }

    /// Whether the next call is to fail.
    pub(crate) fn is_to_fail(&self) -> bool
        ensures { IsTrue result ↔ IsToFail self.now }
    {
        self.number < u64::MAX && self.fail.binary_search(&self.number).is_ok()
    }

    /// Counts a call that was no fault.
    pub(crate) fn succeed(&mut self)
        ensures { self.new ≡ after_success self.old }
    {
        self.number = self.number.saturating_add(1);
    }

    /// Counts a call that was a fault.
    pub(crate) fn fault(&mut self)
        ensures counted { self.new ≡ after_fault self.old }
        ensures never_falls { self.old.faults ≤ self.new.faults }
    {
        self.number = self.number.saturating_add(1);
        self.faults = self.faults.saturating_add(1);
    }
}
