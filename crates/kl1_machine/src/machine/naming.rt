// Names that goals make, and the number that a name gets when it is published.

ghost use Rattle.std.specs.Prelude.{◌≡◌, ◌<◌, ◌≤◌, None, OnOk};
ghost use Rattle.kl1_user_effects.specs.Naming.{Keeps as KeepsTable};
ghost use Rattle.kl1_machine.specs.declared.machine.Machine.{Machine};
ghost use Rattle.kl1_machine.specs.Machines.{most_names, IsMachine};
ghost use Rattle.kl1_machine.specs.Since.{Since, StillSince};
ghost use Rattle.kl1_machine.specs.Naming.{NamesIn, UsesName, IsFree, SparesLast, CanPublish, Publishes};

use crate::machine::Machine;
use kl1_atoms::AtomSource;
use kl1_goals_moves::{Move, Trial};
use kl1_model::BuiltIn;
use kl1_store::Cell;
use kl1_text::{AtomText, CellName};
use kl1_user_effects::{Spelled, has_room};
use std::alloc::AllocError;

/// What comes of a move when the text that it uses as a name, if it does that, has been looked up.
#[derive(Clone, Copy)]
pub(crate) enum Named {
    /// The goal does this, by which no name is used.
    Does(Move<CellName>),
    /// This unbound variable becomes a name that is new to the account.
    Becomes(u32),
}

impl Machine {
    /// Looks up the text that a move uses as a name, if it does that, and tells what comes of it. If the name is new to the account, and
    /// isn't one too many, the machine has it.
    pub(crate) fn use_name(&mut self, made: Move<CellName>, trial: &Trial<CellName>) -> Named
        requires machine { IsMachine self.old }
        requires none { self.old.name ≡ None }
        requires inside { NamesIn made self.old.store.held trial.now.text }
        ensures ok { UsesName made trial.now.text self.old self.new result }
        ensures since { (b : Machine) → Since b self.old → Since b self.new }
    {
        let Move::Names(target) = made else {
            return Named::Does(made);
        };
        let text = AtomText::of(trial.text.as_slice());
        if !has_room(&self.names, &text, self.rules.limits().names) {
            return Named::Does(Move::Raises(BuiltIn::Exhaustion));
        }
        if let Some(name) = self.names.number_of(&text) {
            return Named::Does(Move::Unifies(target, Cell::Atom(name)));
        }
        self.name = Some(text);
        // Only for the proof: what the store holds is formed.
        let _formed = self.store.mark();
        match self.store.walk(target) {
            Cell::Variable(variable) => Named::Becomes(variable),
            _ => Named::Does(Move::Raises(BuiltIn::Failure)),
        }
    }

    /// Binds an unbound variable to the spare number, which stands for the machine's name until that is published: nothing may be bound
    /// after it.
    pub(crate) fn bind_spare(&mut self, variable: u32) -> Result<(), AllocError>
        requires machine { IsMachine self.old }
        requires within { variable < self.old.store.held.variables }
        requires free { IsFree variable self.old.store.held }
        ensures ok { OnOk result (SparesLast variable self.old self.new) }
        ensures since { (b : Machine) → Since b self.old → StillSince result b self.new }
    {
        let before = self.store.mark();
        self.store
            .unify_constant(variable, Cell::Atom(CellName::spare(0)))?;
        self.spelled = Some(Spelled { variable, before });
        Ok(())
    }

    /// Publishes the machine's name, if it has one, and puts its number where the spare one stands for it. It takes no memory: there has to
    /// be room, and what can fail is to come before it.
    pub fn publish_name<A: AtomSource>(&mut self, names: &mut A, seat: &mut A::Seat)
        requires of { A.is_of names.old seat.old }
        requires knows { A.knows seat.old ≡ self.old.names.names }
        requires can { CanPublish self.old }
        requires names { most_names self.old ≤ (A.place seat.old).0.1 }
        ensures table { KeepsTable A.is_of A.place A.knows A.published names.old names.new seat.old seat.new }
        ensures knows { A.knows seat.new ≡ self.new.names.names }
        ensures published { Publishes self.old self.new }
    {
        let Some(text) = self.name else {
            return;
        };
        let spelled = self.spelled;
        self.name = None;
        self.spelled = None;
        text.shows_text();
        let number = names.intern(seat, text);
        self.names.learn(text, number);
        let name = Cell::Atom(CellName::of_number(number));
        if let Some(spelled) = spelled {
            self.store
                .rebind_constant(spelled.before, spelled.variable, name);
        }
    }
}
