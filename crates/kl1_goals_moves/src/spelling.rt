// What lists of codes spell.

ghost use Rattle.std.specs.Prelude.{◌≡◌, ℕ, List};
ghost use Rattle.kl1_model.specs.Look.{spelling};
ghost use Rattle.kl1_model.specs.State.{most_spelled};
ghost use Rattle.kl1_text.specs.Reading.{Reads};
ghost use Rattle.kl1_store.specs.Held.{IsIn};
ghost use Rattle.kl1_store.specs.Meaning.{term_of};
ghost use Rattle.kl1_goals_moves.specs.Spellings.{spelling_of, SpellingIn};

use crate::codes::{Front, front_of};
use kl1_model::Rules;
use kl1_store::{Cell, Store};
use kl1_text::{NameValue, ShortBytes};

/// What a list of codes comes to: a name, nothing as long as a variable is unbound, or no name ever.
#[derive(Clone, Copy)]
pub enum Spelling {
    Spelled,
    Waits(u32),
    Misspelled,
}

/// What a list of codes comes to by the rules of an account, which say how many codes there may be. `text` gets the name that it spells,
/// if it spells one; otherwise nothing is said of what is there. The variable of one that waits is unbound.
pub fn spell<N: NameValue>(
    store: &Store<N>,
    rules: Rules,
    codes: Cell<N>,
    text: &mut ShortBytes,
) -> Spelling
    requires { IsIn store.now.held codes }
    ensures inside { SpellingIn store.now.held text.new result }
    ensures spelling { (f : N → List ℕ) → Reads N.built f → spelling_of result text.new ≡ spelling (most_spelled rules) (term_of f store.now.held codes) }
{
    *text = ShortBytes::new();
    let mut rest = codes;
    let mut left = rules.most_spelled();
    'codes: loop {
        match front_of(store, rest, left) {
            Front::Ends => return Spelling::Spelled,
            Front::Waits(variable) => return Spelling::Waits(variable),
            Front::Wrong => return Spelling::Misspelled,
            Front::Code(byte, next) => {
                text.push(byte);
                left -= 1;
                rest = next;
            }
        }
    }
}
