// Where items end.

ghost use Rattle.std.specs.Prelude.{◌≡◌, ◌+◌, ◌<◌, ◌≤◌, false, length, drop, codes, nat_eq, IfSome};
ghost use Rattle.std.specs.List.{starts_with};
ghost use Rattle.kl1_model.specs.Token.{is_blank};
ghost use Rattle.kl1_reasons_items.specs.declared.within.Within.TheVariants.{Plain};
ghost use Rattle.kl1_reasons_items.specs.Items.{within_behind, is_plain, ends_before, behind_item, behind_blanks, behind_otherwise, front_behind};

use crate::within::Within;

/// Where the item that begins at `start` ends.
#[tactic(auto, using(crate::proofs::Steps::behind_next))]
pub fn item_end(text: &[u8], start: usize) -> usize
    requires { start ≤ length text.now }
    ensures ends { drop result text.now ≡ behind_item Plain (drop start text.now) }
    ensures behind { start ≤ result }
    ensures more { start < length text.now → start < result }
    ensures within { result ≤ length text.now }
{
    let mut within = Within::Plain;
    let mut at = start;
    while at < text.len() {
        let byte = text[at];
        if is_plain(within) && byte == b'.' && ends_before(dropped(text, at + 1)) {
            return at + 1;
        }
        within = within_behind(within, byte);
        at += 1;
    }
    at
}

/// Whether bytes stand neither in quotes nor in a comment.
fn is_plain(within: Within) -> bool
    ensures { result ≡ is_plain within }
{
    match within {
        Within::Plain => true,
        Within::Quotes => false,
        Within::Comment => false,
    }
}

/// Within what the byte after `byte` stands.
fn within_behind(within: Within, byte: u8) -> Within
    ensures { result ≡ within_behind within byte }
{
    match within {
        Within::Plain => match byte {
            b'\'' => Within::Quotes,
            b'%' => Within::Comment,
            _ => Within::Plain,
        },
        Within::Quotes => {
            if byte == b'\'' || byte == b'\n' {
                Within::Plain
            } else {
                Within::Quotes
            }
        }
        Within::Comment => {
            if byte == b'\n' {
                Within::Plain
            } else {
                Within::Comment
            }
        }
    }
}

/// Whether a dot before these bytes may end an item.
pub fn ends_before(bytes: &[u8]) -> bool
    ensures { result ≡ ends_before bytes.now }
{
    match bytes {
        [] => true,
        [first, _others @ ..] => is_blank(*first) || *first == b'%',
    }
}

/// Whether a byte is a space, a tab, a line feed or a carriage return.
pub fn is_blank(byte: u8) -> bool
    ensures { result ≡ is_blank byte }
{
    byte == b' ' || byte == b'\t' || byte == b'\n' || byte == b'\r'
}

/// How much of a text is given up after a bad item that ends at `end`.
pub fn front_behind(text: &[u8], end: usize) -> usize
    ensures { result ≡ front_behind text.now end }
{
    text.len()
        .saturating_sub(behind_otherwise(dropped(text, end)).len())
}

/// What is after an `otherwise.` and blanks before it, if a text begins with them, or else the text.
fn behind_otherwise(text: &[u8]) -> &[u8]
    ensures { result.now ≡ behind_otherwise text.now }
{
    let rest = behind_blanks(text);
    if starts_with(rest, b"otherwise.") {
        let behind = dropped(rest, 10);
        if ends_before(behind) {
            return behind;
        }
    }
    text
}

/// Whether a text begins with another.
pub fn starts_with(text: &[u8], front: &[u8]) -> bool
    ensures { result ≡ starts_with nat_eq text.now front.now }
{
    text.starts_with(front)
}

/// What is after blanks and comments.
fn behind_blanks(text: &[u8]) -> &[u8]
    ensures { result.now ≡ behind_blanks false text.now }
{
    let mut remark = false;
    let mut rest = text;
    while let [first, others @ ..] = rest {
        if remark {
            if *first == b'\n' {
                remark = false;
            }
        } else if *first == b'%' {
            remark = true;
        } else if !is_blank(*first) {
            return rest;
        }
        rest = others;
    }
    rest
}

/// What is after the first `count` bytes.
pub fn dropped(bytes: &[u8], count: usize) -> &[u8]
    ensures { result.now ≡ drop count bytes.now }
{
    if count < bytes.len() {
        &bytes[count..]
    } else {
        &[]
    }
}

/// Where the blanks and the comments from a place on end; a comment with a byte that no text may hold isn't passed over.
pub fn blanks_end(text: &[u8], from: usize) -> usize
    requires { from ≤ length text.now }
    ensures behind { from ≤ result }
    ensures within { result ≤ length text.now }
{
    let mut at = from;
    while at < text.len() {
        let byte = text[at];
        if is_blank(byte) {
            at += 1;
        } else if byte == b'%' {
            match comment_end(text, at) {
                Some(end) => at = end,
                None => return at,
            }
        } else {
            return at;
        }
    }
    at
}

/// Where the comment at a place ends, if it holds only what a text may hold.
fn comment_end(text: &[u8], from: usize) -> Option<usize>
    requires { from < length text.now }
    ensures behind { IfSome result (λ end. from < end) }
    ensures within { IfSome result (λ end. end ≤ length text.now) }
{
    let mut at = from + 1;
    while at < text.len() {
        let byte = text[at];
        if byte == b'\n' {
            return Some(at);
        }
        if !is_blank(byte) && !byte.is_ascii_graphic() {
            return None;
        }
        at += 1;
    }
    Some(at)
}
