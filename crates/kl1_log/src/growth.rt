// What a file gets so that it is the file of a journal.

ghost use Rattle.std.specs.Prelude.{◌≡◌, ◌++◌, [], ℕ, List, map, IfOk, OnOk};
ghost use Rattle.kl1_model_server.specs.Command.{written_line, written_lines};
ghost use Rattle.kl1_model_server.specs.Journal as model;
ghost use Rattle.kl1_model_server.specs.Journal.{runs};
ghost use Rattle.kl1_model_server.specs.JournalText.{entry_line, heading_line, journal_lines, lines_of, version};
ghost use Rattle.kl1_log.specs.Deeds.{IsPlainFile, shut_text};
ghost use Rattle.kl1_log.specs.Later.{IsLater, IsMark, run_of_line, run_of_lines, run_line};

use crate::mark::Mark;
use itoa::Buffer;
use kl1_journal_entries::{Deed, Journal, entry_of};
use kl1_model::Rules;
use std::alloc::{AllocError, Global};

/// Bytes for a file, and up to where the journal is in it with them.
#[derive(Drop)]
pub struct Growth {
    pub bytes: Vec<u8>,
    pub mark: Mark,
}

/// Puts a line with its line feed.
fn put_line(out: &mut Vec<u8>, line: &[u8]) -> Result<(), AllocError>
    ensures { OnOk result (out.new.items ≡ out.old.items ++ written_line line.now) }
{
    out.extend_from_slice(line)?;
    out.extend_from_slice(b"\n")
}

/// Puts the line of a run.
fn put_run(out: &mut Vec<u8>, reductions: u64) -> Result<(), AllocError>
    ensures { OnOk result (out.new.items ≡ out.old.items ++ written_line (entry_line (runs reductions))) }
{
    let mut buffer = Buffer::new();
    out.extend_from_slice(b"run ")?;
    put_line(out, buffer.format(reductions).as_bytes())
}

/// How many reductions the entry of a line has by these rules if it is a run, or else 0.
fn run_of(alloc: Global, rules: Rules, line: &[u8]) -> Result<u64, AllocError>
    ensures { IfOk result (λ n. n ≡ run_of_line rules line.now) }
{
    match entry_of(alloc, rules, line)? {
        Some(Deed::Run(reductions)) => Ok(reductions),
        _ => Ok(0),
    }
}

/// Puts lines, each with its line feed.
fn put_lines(out: &mut Vec<u8>, lines: &[Vec<u8>]) -> Result<(), AllocError>
    ensures { OnOk result (out.new.items ≡ out.old.items ++ written_lines (map (λ t. t.items) lines.now)) }
{
    let mut rest = lines;
    while let [first, others @ ..] = rest {
        put_line(out, first)?;
        rest = others;
    }
    Ok(())
}

/// How many reductions the entry of the last line has if it is a run, or else 0.
fn last_run_of(alloc: Global, rules: Rules, lines: &[Vec<u8>]) -> Result<u64, AllocError>
    ensures { IfOk result (λ n. n ≡ run_of_lines rules (map (λ t. t.items) lines.now)) }
{
    let [first, others @ ..] = lines else {
        return Ok(0);
    };
    let mut last = first;
    let mut rest = others;
    while let [next, more @ ..] = rest {
        last = next;
        rest = more;
    }
    run_of(alloc, rules, last)
}

/// Puts the line of the reductions by which a run has grown, if it has.
fn put_longer(out: &mut Vec<u8>, was: u64, is: u64) -> Result<(), AllocError>
    ensures { OnOk result (out.new.items ≡ out.old.items ++ run_line was is) }
{
    if was < is {
        put_run(out, is - was)?;
    }
    Ok(())
}

/// What the file of a journal gets after which the journal has grown to `journal`: the lines of the entries after `mark`, and, if the last
/// entry before it was a run that is longer now, a run of the reductions that were added to it.
pub fn grown(alloc: Global, journal: &Journal, mark: Mark) -> Result<Growth, AllocError>
    ensures file { IfOk result (λ growth. (old : model.Journal) (text : List ℕ) → IsMark mark old → IsLater old journal.now.journal → IsPlainFile text old → IsPlainFile (text ++ growth.bytes.items) journal.now.journal) }
    ensures mark { IfOk result (λ growth. (old : model.Journal) → IsMark mark old → IsLater old journal.now.journal → IsMark growth.mark journal.now.journal) }
    ensures whole { IfOk result (λ growth. (lines_of growth.bytes.items).rest ≡ []) }
{
    // This is called for the fact that it proves: the journal has a text that reads back.
    journal.shows_written();
    let page = journal.page(alloc, mark.lines, u64::MAX)?;
    // Fewer lines than were asked for are all that are left.
    let end = mark.lines.checked_add(page.len() as u64).ok_or(AllocError)?;
    let mut bytes = Vec::new(alloc);
    let [last, more @ ..] = page.texts() else {
        return Ok(Growth { bytes, mark });
    };
    let rules = journal.rules();
    put_longer(&mut bytes, mark.run, run_of(alloc, rules, last)?)?;
    put_lines(&mut bytes, more)?;
    let run = last_run_of(alloc, rules, page.texts())?;
    Ok(Growth {
        bytes,
        mark: Mark {
            lines: end - 1,
            run,
        },
    })
}

/// The version of a journal, by the rules of its account.
fn version(rules: Rules) -> &'static [u8]
    ensures { result.now ≡ version rules }
{
    match rules {
        Rules::One => b"1",
        Rules::Two => b"2",
        Rules::Three => b"3",
        Rules::Four => b"4",
        Rules::Five => b"5",
    }
}

/// Puts the first line of a journal without open sessions.
fn put_heading(out: &mut Vec<u8>, rules: Rules, names: u64) -> Result<(), AllocError>
    ensures { OnOk result (out.new.items ≡ out.old.items ++ written_line (heading_line rules 0 names)) }
{
    let mut buffer = Buffer::new();
    out.extend_from_slice(b"journal ")?;
    out.extend_from_slice(version(rules))?;
    out.extend_from_slice(b" 0 ")?;
    put_line(out, buffer.format(names).as_bytes())
}

/// The text of a journal with no session open; these are the lines of its text.
fn shut_text(alloc: Global, journal: &Journal, lines: &[Vec<u8>]) -> Result<Vec<u8>, AllocError>
    requires { map (λ t. t.items) lines.now ≡ journal_lines journal.now.journal }
    ensures { IfOk result (λ bytes. bytes.items ≡ shut_text journal.now.journal) }
{
    let [_first, more @ ..] = lines else {
        return Err(AllocError);
    };
    let mut bytes = Vec::new(alloc);
    put_heading(&mut bytes, journal.rules(), journal.names().len() as u64)?;
    put_lines(&mut bytes, more)?;
    Ok(bytes)
}

/// The text of a journal, with no session open.
#[tactic(auto, using(crate::proofs::GrownFiles::shut_file, crate::proofs::GrownFiles::begun_mark))]
pub fn begun(alloc: Global, journal: &Journal) -> Result<Growth, AllocError>
    ensures text { IfOk result (λ growth. growth.bytes.items ≡ shut_text journal.now.journal) }
    ensures file { IfOk result (λ growth. IsPlainFile growth.bytes.items journal.now.journal) }
    ensures mark { IfOk result (λ growth. IsMark growth.mark journal.now.journal) }
{
    // This is called for the fact that it proves: the journal has a text that reads back.
    journal.shows_written();
    let text = journal.text_lines(alloc)?;
    let bytes = shut_text(alloc, journal, text.texts())?;
    let run = last_run_of(alloc, journal.rules(), text.texts())?;
    let lines = text.len() as u64;
    Ok(Growth {
        bytes,
        mark: Mark { lines, run },
    })
}
