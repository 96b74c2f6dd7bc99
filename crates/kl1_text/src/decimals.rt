// Numbers from decimal digits.

ghost use Rattle.std.specs.Prelude.{◌≡◌, nat_le, Some, None, if◌then◌else◌};
ghost use Rattle.kl1_model.specs.Token.{number_of};

#[tactic(auto, using(crate::proofs::Digits::too_many))]
/// The number that digits write, if it is at most `most`.
pub fn decimal_up_to(most: u64, digits: &[u8]) -> Option<u64>
    ensures { result ≡ (if nat_le (number_of digits.now) most then Some (number_of digits.now) else None) }
{
    let mut number = 0u64;
    let mut rest = digits;
    while let [first, others @ ..] = rest {
        if number > most / 10 {
            return None;
        }
        let digit = u64::from(first.saturating_sub(b'0'));
        if digit > most - 10 * number {
            return None;
        }
        number = 10 * number + digit;
        rest = others;
    }
    Some(number)
}
