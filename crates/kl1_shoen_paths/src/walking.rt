// Flags of shoens, in order of number.

ghost use Rattle.std.specs.Prelude.{◌≡◌, ◌<◌, ◌≤◌, ◌-◌, length, get_or};

use crate::tracked::item_at;

/// The flag of shoen `number`, of flags in order of number; `of_none` for the number 0.
pub fn flag_of(flags: &[bool], number: u64, of_none: bool) -> bool
    requires { number ≤ length flags.now }
    ensures none { number ≡ 0 → result ≡ of_none }
    ensures some { 0 < number → result ≡ get_or flags.now (number - 1) result }
{
    if number == 0 {
        return of_none;
    }
    item_at(flags, (number - 1) as usize)
}
