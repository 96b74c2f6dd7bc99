// Cells in the modules of a clause's goals.

ghost use Rattle.std.specs.Prelude.{◌≡◌, length, map, reverse, OnOk};
ghost use Rattle.kl1_clause.specs.BareGoals.{IsModulePlaced, ArePlaced};
ghost use Rattle.kl1_match.specs.Qualifying.{module_at, qualified_each};

use crate::name_in::name_at;
use kl1_clause::Name;
use kl1_store::{Cell, Qualified};
use kl1_text::NameValue;
use std::alloc::AllocError;

/// The name of a module, if there is one and the names of the code's list are these.
fn module_at<N: NameValue>(names: &[N], name: Option<Name>) -> Option<N>
    requires { IsModulePlaced (length names.now) name }
    ensures { result ≡ module_at N.built names.now name }
{
    match name {
        None => None,
        Some(name) => Some(name_at(names, name)),
    }
}

/// Puts in place of `goals` the cells of a stack, the one on its top first, each in the module beside it.
pub(crate) fn qualify<N: NameValue>(
    names: &[N],
    modules: &[Option<Name>],
    stack: &mut Vec<Cell<N>>,
    goals: &mut Vec<Qualified<N>>,
) -> Result<(), AllocError>
    requires { ArePlaced (length names.now) modules.now }
    ensures { OnOk result (goals.new.items ≡ qualified_each (map (module_at N.built names.now) modules.now) (reverse stack.old.items)) }
{
    goals.clear();
    goals.reserve(modules.len())?;
    let mut left = modules;
    while let [first, rest @ ..] = left {
        let Some(cell) = stack.pop() else {
            return Ok(());
        };
        goals.push(Qualified {
            module_name: module_at(names, *first),
            cell,
        })?;
        left = rest;
    }
    Ok(())
}
