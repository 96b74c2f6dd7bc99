// The text of terms.

ghost use Rattle.std.specs.Prelude.{◌≡◌, ◌++◌, IfOk, OnOk, OnErr};
ghost use Rattle.kl1_model.specs.Print.{print, cut_text};
ghost use Rattle.kl1_term.specs.Page.{limited};

use crate::printer::Printer;
use crate::term::Term;
use std::alloc::{AllocError, Global};

/// The text of a term.
pub fn print_whole(alloc: Global, term: &Term) -> Result<Vec<u8>, AllocError>
    ensures { IfOk result (λ text. text.items ≡ print term.now) }
{
    print_within(alloc, term, None)
}

/// The text of a term, cut after `most` bytes, with three dots if it is longer.
pub fn print_cut(alloc: Global, term: &Term, most: usize) -> Result<Vec<u8>, AllocError>
    ensures { IfOk result (λ text. text.items ≡ cut_text most (print term.now)) }
{
    print_within(alloc, term, Some(most))
}

/// Puts the text of a term after the bytes.
pub fn put_whole(alloc: Global, out: &mut Vec<u8>, term: &Term) -> Result<(), AllocError>
    ensures ok { OnOk result (out.new.items ≡ out.old.items ++ print term.now) }
    ensures err { OnErr result (out.new.items ≡ out.old.items) }
{
    let text = print_whole(alloc, term)?;
    out.extend_from_slice(&text)
}

/// The text of a term, cut if there is a number of bytes for it.
#[tactic(auto, using(crate::proofs::Prints::prints))]
fn print_within(alloc: Global, term: &Term, most: Option<usize>) -> Result<Vec<u8>, AllocError>
    ensures { IfOk result (λ text. text.items ≡ limited most (print term.now)) }
{
    let mut printer = Printer::new(alloc, most);
    printer.put_all(term.nodes())?;
    printer.into_text()
}
