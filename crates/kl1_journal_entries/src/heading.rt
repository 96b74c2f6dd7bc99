// The first line of a journal's text.

ghost use Rattle.std.specs.Prelude.{◌≡◌, ◌+◌, ◌≤◌, ◌++◌, length, bytes_eq, option_map, IfSome};
ghost use Rattle.kl1_model.specs.declared.limits.TheConstants.{MOST_SESSIONS};
ghost use Rattle.kl1_model.specs.Rules.{limits_of};
ghost use Rattle.kl1_model_server.specs.JournalText.{version, heading_line, rules_of, heading_in};
ghost use Rattle.kl1_text.specs.declared.short_bytes.TheConstants.{MOST_SHORT_BYTES};
ghost use Rattle.kl1_journal_entries.specs.Reading.{heading_view};

use itoa::Buffer;
use kl1_lines::{is_same, number_in, split_name};
use kl1_model::Rules;
use kl1_model::limits::MOST_SESSIONS;
use kl1_text::ShortBytes;

/// What the first line of a journal's text says: the rules of the account, how many sessions are open, and how many names follow.
#[derive(Clone, Copy)]
pub struct Heading {
    pub rules: Rules,
    pub sessions: u64,
    pub names: u64,
}

/// The version of a journal, by the rules of its account.
pub(crate) fn version(rules: Rules) -> &'static [u8]
    ensures value { result.now ≡ version rules }
    ensures one { length result.now ≡ 1 }
{
    match rules {
        Rules::One => b"1",
        Rules::Two => b"2",
        Rules::Three => b"3",
        Rules::Four => b"4",
        Rules::Five => b"5",
    }
}

/// The rules of an account whose journal has a version, if it is one.
fn rules_of(word: &[u8]) -> Option<Rules>
    ensures { result ≡ rules_of word.now }
{
    if is_same(word, version(Rules::One)) {
        return Some(Rules::One);
    }
    if is_same(word, version(Rules::Two)) {
        return Some(Rules::Two);
    }
    if is_same(word, version(Rules::Three)) {
        return Some(Rules::Three);
    }
    if is_same(word, version(Rules::Four)) {
        return Some(Rules::Four);
    }
    if is_same(word, version(Rules::Five)) {
        return Some(Rules::Five);
    }
    None
}

/// Puts bytes after others.
fn put_short(out: &mut ShortBytes, bytes: &[u8])
    requires { length out.old + length bytes.now ≤ MOST_SHORT_BYTES }
    ensures { out.new ≡ out.old ++ bytes.now }
{
    let mut rest = bytes;
    while let [first, others @ ..] = rest {
        out.push(*first);
        rest = others;
    }
}

/// Whether a line is the first line of a journal of these rules with this number of open sessions and of names.
fn is_first_line(line: &[u8], rules: Rules, sessions: u64, names: u64) -> bool
    ensures { result ≡ bytes_eq (heading_line rules sessions names) line.now }
{
    let mut first = ShortBytes::new();
    put_short(&mut first, b"journal ");
    put_short(&mut first, version(rules));
    put_short(&mut first, b" ");
    put_short(&mut first, Buffer::new().format(sessions).as_bytes());
    put_short(&mut first, b" ");
    put_short(&mut first, Buffer::new().format(names).as_bytes());
    is_same(first.as_slice(), line)
}

/// What a line says as the first line of a journal, if it is one.
pub fn heading_of(line: &[u8]) -> Option<Heading>
    ensures value { option_map heading_view result ≡ heading_in line.now }
    ensures sessions { IfSome result (λ h. h.sessions ≤ MOST_SESSIONS) }
    ensures names { IfSome result (λ h. h.names ≤ (limits_of h.rules).names) }
{
    let (_, behind) = split_name(line);
    let (number, rest) = split_name(behind);
    let rules = rules_of(number)?;
    let (first, second) = split_name(rest);
    let sessions = number_in(first)?;
    let names = number_in(second)?;
    if sessions <= MOST_SESSIONS
        && names <= rules.limits().names as u64
        && is_first_line(line, rules, sessions, names)
    {
        Some(Heading {
            rules,
            sessions,
            names,
        })
    } else {
        None
    }
}
