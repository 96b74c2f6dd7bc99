// Names in quotes.

ghost use Rattle.std.specs.Prelude.{◌≡◌, false, []};
ghost use Rattle.kl1_model.specs.code.Fronts.{quoted_from};
ghost use Rattle.kl1_read.specs.Quotes.{Ends, short};

use crate::bytes::is_name_byte;
use kl1_model::limits::MOST_NAME_BYTES;
use kl1_text::{AtomText, ShortBytes};

/// The text in quotes after a quote, with what is after it, if a quote ends it and it has at most 127 bytes.
pub(crate) fn quoted(bytes: &[u8]) -> Option<(AtomText, &[u8])>
    ensures { Ends result (short (quoted_from false [] bytes.now)) }
{
    let mut text = ShortBytes::new();
    let mut rest = bytes;
    let mut after_quote = false;
    'text: while text.len() <= MOST_NAME_BYTES {
        match rest {
            [] => {
                return if after_quote {
                    Some((AtomText::of(text.as_slice()), rest))
                } else {
                    None
                };
            }
            [first, others @ ..] => {
                if *first == b'\'' {
                    if after_quote {
                        text.push(*first);
                    }
                    after_quote = !after_quote;
                } else if after_quote {
                    return Some((AtomText::of(text.as_slice()), rest));
                } else if is_name_byte(*first) {
                    text.push(*first);
                } else {
                    return None;
                }
                rest = others;
            }
        }
    }
    None
}
