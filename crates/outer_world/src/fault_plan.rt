ghost use Rattle.std.specs.Prelude.{◌≡◌, ◌≤◌};
ghost use Rattle.outer_world.specs.FaultPlan.{is_planned, after_call, IsFresh};

use crate::count::raise;

/// Which calls of a store or a sink in memory are to fail, and how far it has come.
#[derive(Drop)]
pub struct FaultPlan {
    /// The numbers of the calls that are to fail, from 0.
    failing: Vec<u64>,
    /// The number of the next call.
    calls: u64,
    /// How many calls have failed.
    faults: u64,
}

impl FaultPlan {
    /// A plan before the first call.
    pub fn new(failing: Vec<u64>) -> FaultPlan
        ensures { IsFresh failing.items result }
    {
        FaultPlan {
            failing,
            calls: 0,
            faults: 0,
        }
    }

    /// Counts a call, and tells whether it is to fail.
    pub fn fails_now(&mut self) -> bool
        ensures planned { result ≡ is_planned self.old }
        ensures counted { self.new ≡ after_call self.old }
        ensures later { self.old.faults ≤ self.new.faults }
    {
        let fails = self.failing.contains(&self.calls);
        self.calls = raise(self.calls);
        if fails {
            self.faults = raise(self.faults);
        }
        fails
    }
}
