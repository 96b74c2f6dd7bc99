// Modules that are loaded.

ghost use Rattle.std.specs.Prelude.{◌≡◌, ◌≤◌, ◌↔◌, ℕ, IfOk, OnErr};
ghost use Rattle.kl1_model.specs.Rules.{limits_of};
ghost use Rattle.kl1_model.specs.Step.{step};
ghost use Rattle.kl1_model.specs.Event.{load as load_event};
ghost use Rattle.kl1_user_effects.specs.Fitting.{Reading, Fits};
ghost use Rattle.kl1_user_effects.specs.Account.{state_of};
ghost use Rattle.kl1_user_effects.specs.Naming.{Keeps};
ghost use Rattle.kl1_user_events.specs.Views.{reply_of};
ghost use Rattle.kl1_codes.specs.Numbered.{ArePlaced};

use crate::account::Account;
use crate::loading::{Loading, draft_module, push_module, row_for};
use crate::runs::note_entry;
use kl1_atoms::AtomSource;
use kl1_codes::{CodeSource, CodedModule, CodedModules};
use kl1_user_effects::publish;
use kl1_user_events::Reply;
use std::alloc::AllocError;

impl<C: CodeSource> Account<C> {
    /// Loads a module from its source.
    pub fn load<A: AtomSource>(
        &mut self,
        names: &mut A,
        seat: &mut A::Seat,
        codes: &mut C,
        source: &[u8],
    ) -> Result<Reply, AllocError>
        requires of { A.is_of names.old seat.old }
        requires knows { A.knows seat.old ≡ self.old.names }
        requires room { (limits_of self.old.rules).names ≤ (A.place seat.old).0.1 }
        requires placed { ArePlaced (C.has codes.old) self.old.modules }
        ensures step { IfOk result (λ reply. (f : Reading) → Fits self.new.names f → step (state_of f self.old) (load_event source.now) ≡ record { state = state_of f self.new; reply = reply_of reply }) }
        ensures err { OnErr result (self.new ≡ self.old) }
        ensures keeps { Keeps A.is_of A.place A.knows A.published names.old names.new seat.old seat.new }
        ensures knows { A.knows seat.new ≡ self.new.names }
        ensures placed { ArePlaced (C.has codes.new) self.new.modules }
        ensures same { (p : ℕ × ℕ) → C.has codes.old p ↔ C.has codes.new p }
    {
        let is_full = self.is_full();
        let taken = &self.machine.names;
        let most = self.machine.rules.limits().names;
        let draft = match draft_module(
            self.alloc,
            &self.modules,
            taken,
            codes,
            most,
            is_full,
            source,
        )? {
            Loading::Refused(refusal) => return Ok(Reply::Refused(refusal)),
            Loading::Drafted(draft) => draft,
        };
        self.modules.reserve(1)?;
        let stored: &C = codes;
        let texts = draft.code(stored).names();
        let mut row = row_for(self.alloc, &mut self.machine.names, texts)?;
        let modules = CodedModules::over(self.machine.rules, &self.modules, stored);
        let loaded = CodedModule::over(&draft, stored);
        self.machine.begin();
        let looked = self
            .machine
            .reschedule_for_load(&modules, &loaded, &mut self.trial);
        self.machine.or_back(looked)?;
        publish(names, seat, &mut self.machine.names, texts, &mut row);
        let name = draft.code(stored).module_name();
        push_module(&mut self.modules, stored, draft, row.as_slice());
        note_entry(&mut self.entries, &mut self.run);
        Ok(Reply::Loaded(name))
    }
}
