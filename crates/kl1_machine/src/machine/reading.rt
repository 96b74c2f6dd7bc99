// What monitors read, with what comes after it.

ghost use Rattle.std.specs.Prelude.{OnOk};
ghost use Rattle.kl1_model.specs.Ending.{settle};
ghost use Rattle.kl1_model.specs.Reduction.{heard};
ghost use Rattle.kl1_stream.specs.Controls.{control_as, ControlIn};
ghost use Rattle.kl1_machine.specs.declared.machine.Machine.{Machine};
ghost use Rattle.kl1_machine.specs.Machines.{IsMachine, Keeps};
ghost use Rattle.kl1_machine.specs.Effects.{TurnsAs};
ghost use Rattle.kl1_machine.specs.Since.{Since, IsOnlyMonitor, StillSince};

use crate::machine::Machine;
use kl1_stream::Control;
use kl1_text::CellName;
use kl1_user_effects::PathScan;
use std::alloc::AllocError;

impl Machine {
    /// `monitor`, the number of the monitor of a shoen, reads this, and then shoens terminate; nobody is charged. What `scan` holds after it is of no use.
    pub fn read(
        &mut self,
        scan: &mut PathScan,
        monitor: u64,
        number: u64,
        control: Control<CellName>,
    ) -> Result<(), AllocError>
        requires machine { IsMachine self.old }
        requires monitor { IsOnlyMonitor monitor number self.old.goals.goals }
        requires control { ControlIn self.old.store.held control }
        ensures ok { OnOk result (TurnsAs (λ f s. settle number (heard number (control_as f self.old.store.held control) s)) self.old self.new) }
        ensures since { (b : Machine) → Since b self.old → StillSince result b self.new }
    {
        self.hear(scan, monitor, number, control)?;
        self.end_lives(number, &mut scan.ending)?;
        self.finish_each(scan.ending.as_slice(), None)
    }
}
