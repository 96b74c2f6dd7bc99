// Reports while the variable that is to become a name is still unbound.

ghost use Rattle.std.specs.Prelude.{◌≡◌, find, option_map, OnOk};
ghost use Rattle.kl1_model.specs.Term.{atom};
ghost use Rattle.kl1_model.specs.Text.{text_of};
ghost use Rattle.kl1_shoen.specs.Shoens.{has_number};
ghost use Rattle.kl1_user_effects.specs.Fitting.{Reading};
ghost use Rattle.kl1_user_effects.specs.Account.{meaning, shoen_with};
ghost use Rattle.kl1_user_effects.specs.Late.{is_tail_of, is_late_tail, HasLate, report_late};
ghost use Rattle.kl1_machine.specs.declared.machine.Machine.{Machine};
ghost use Rattle.kl1_machine.specs.Machines.{IsMachine};
ghost use Rattle.kl1_machine.specs.Since.{Since, StillSince};
ghost use Rattle.kl1_machine.specs.Naming.{LateAs};

use crate::machine::Machine;
use kl1_model::BuiltIn;
use kl1_store::Cell;
use std::alloc::AllocError;

impl Machine {
    /// Whether shoen `number` has an unbroken report stream whose tail is this variable.
    fn is_tail(&self, number: u64, variable: u32) -> bool
        requires { IsMachine self.now }
        ensures { (f : Reading) → is_tail_of variable (option_map (shoen_with (meaning f self.now.store.held)) (find (has_number number) self.now.shoens.shoens)) ≡ result }
    {
        let Some(shoen) = self.shoens.lend(number).copied() else {
            return false;
        };
        if shoen.is_broken {
            return false;
        }
        // Only for the proof: what the store holds is formed.
        let _formed = self.store.mark();
        match self.store.walk(shoen.tail) {
            Cell::Variable(other) => other == variable,
            _ => false,
        }
    }

    /// Whether shoen `number` has an unbroken report stream whose tail is `late`, the variable that becomes a name at the end, if one does.
    pub(crate) fn is_late(&self, number: u64, late: Option<u32>) -> bool
        requires { IsMachine self.now }
        ensures { (f : Reading) → is_late_tail late (option_map (shoen_with (meaning f self.now.store.held)) (find (has_number number) self.now.shoens.shoens)) ≡ result }
    {
        match late {
            None => false,
            Some(variable) => self.is_tail(number, variable),
        }
    }

    /// A report, which is a name of the language, of shoen `number`. A stream whose tail is `late`, the variable that becomes a name at the
    /// end, if one does, breaks in place of it.
    pub(crate) fn report_late(
        &mut self,
        number: u64,
        late: Option<u32>,
        name: BuiltIn,
    ) -> Result<(), AllocError>
        requires machine { IsMachine self.old }
        requires within { HasLate late self.old.store.held }
        ensures ok { OnOk result (LateAs late (λ f. report_late late number (atom (text_of name))) self.old self.new) }
        ensures since { (b : Machine) → Since b self.old → StillSince result b self.new }
    {
        if self.is_late(number, late) {
            return self.break_stream(number);
        }
        self.report_name(number, name)
    }
}
