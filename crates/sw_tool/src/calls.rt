use std::marker::Model;

/// Counts calls, of which listed ones are to fail.
///
/// It means the numbers of the calls that are to fail, from 1, how many calls were made, and
/// how many faults there were. A number stands still at its type's end.
#[derive(Drop)]
pub(crate) struct Calls {
    fails: Vec<u64>,
    made: u64,
    faults: u64,
}

impl Model for Calls {
    ghost use Rattle.sw_tool.specs.Memory.{Called};

    ghost Value = { Called };

    ghost view = { λ c. record { fails = c.fails.items; made = c.made; faults = c.faults } };
}

impl Calls {
    ghost use Rattle.std.specs.Prelude.{◌≡◌, ◌≤◌};
    ghost use Rattle.sw_tool.specs.Faults.{HasRisen};
    ghost use Rattle.sw_tool.specs.Memory.{called, faulted, is_listed};

    /// No calls were made, and those of these numbers are to fail.
    pub(crate) fn new(fails: Vec<u64>) -> Calls
        ensures { result ≡ record { fails = fails.items; made = 0; faults = 0 } }
    {
        Calls {
            fails,
            made: 0,
            faults: 0,
        }
    }

    /// Counts one more call, and answers whether it is to fail.
    pub(crate) fn begin(&mut self) -> bool
        ensures fails { result ≡ is_listed self.old }
        ensures counted { self.new ≡ called self.old }
    {
        self.made = self.made.saturating_add(1);
        self.fails.contains(&self.made)
    }

    /// Counts one more fault.
    pub(crate) fn fault(&mut self)
        ensures counted { self.new ≡ faulted self.old }
        ensures risen { HasRisen self.old.faults self.new.faults }
        ensures kept { self.old.faults ≤ self.new.faults }
    {
        self.faults = self.faults.saturating_add(1);
    }
}
