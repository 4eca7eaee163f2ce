// Which calls of a port in memory fail, and how many calls and faults there were.
ghost use Rattle.std.specs.Prelude.{◌≡◌, ◌≤◌, ◌↔◌, IsTrue};
ghost use Rattle.pv_ports.specs.Port.{counted};
ghost use Rattle.pv_ports.specs.Plan.{FailsNext};

use crate::Failed;

#[derive(Drop)]
pub struct Plan {
    pub fails: Vec<u64>,
    pub calls: u64,
    pub faults: u64,
}

impl Plan {
    // No call so far, and no fault.
    pub fn new(fails: Vec<u64>) -> Plan
        ensures { result ≡ record { fails = fails; calls = 0; faults = 0 } }
    {
        Plan {
            fails,
            calls: 0,
            faults: 0,
        }
    }

    // Counts a call, and says whether it is to fail.
    pub fn next_fails(&mut self) -> bool
        ensures answer { IsTrue result ↔ FailsNext self.old }
        ensures counts { self.new ≡ record self.old { calls = counted self.old.calls } }
    {
        let call = self.calls;
        self.calls = call.saturating_add(1);
        self.fails.contains(&call)
    }

    // Counts a fault.
    pub fn fault(&mut self) -> Failed
        ensures counts { self.new ≡ record self.old { faults = counted self.old.faults } }
        ensures later { self.old.faults ≤ self.new.faults }
    {
        self.faults = self.faults.saturating_add(1);
        Failed
    }
}
